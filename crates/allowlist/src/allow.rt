//! Lists of what scripts may use, and what is found in them.

ghost use Rattle.std.specs.Prelude.{◌≡◌, ◌≤◌, ◌<◌, Some, slice_get, IfOk, IfSome, length};
ghost use Rattle.pl_types.specs.Classes.{full_name};
ghost use Rattle.allowlist.specs.Accessors.{accessor_name, arity_of, seen_name};
ghost use Rattle.allowlist.specs.Catalogue.{catalogue};
ghost use Rattle.allowlist.specs.Allow.{full_list, prelude_list, empty_list, own_member, member_of, members_in, iface_method_of, with_flag};

use crate::build::{flags, types};
use crate::index::{index, member_called};
use crate::member::MemberType;
use crate::name::{Accessor, Name, arity_of};
use crate::table::method_of_interface;
use pl_types::classes::CLASS_COUNT;
use pl_types::{class_full, class_lineage};
use std::alloc::{AllocError, Global};
use std::marker::Model;

/// Which classes and members scripts may use.
#[derive(Drop)]
pub struct Allow {
    classes: Vec<bool>,
    members: Vec<bool>,
    types: Vec<MemberType>,
    index: Vec<u32>,
}

impl Model for Allow {
    ghost use Rattle.std.specs.Prelude.{◌≡◌, length};
    ghost use Rattle.allowlist.specs.Catalogue.{catalogue};
    ghost use Rattle.allowlist.specs.Allow.{AllowList};
    ghost use Rattle.allowlist.specs.Index.{IsIndex};

    ghost Value = { AllowList };

    ghost view = { λ a. record { classes = a.classes.items; members = a.members.items } };

    ghost invariant = { λ a. (length a.classes.items ≡ 57) × (length a.members.items ≡ 228) × (a.types.items ≡ catalogue) × IsIndex a.index.items };
}

impl Allow {
    /// The member of a class with a name and a number of parameters: the class's own that this list allows, else the first
    /// that the parents give, depth first in their order. A class that the list lacks has no own members and still has its
    /// parents. `None` where there is none.
    ///
    /// What it answers may be a field, a static member or an instance one, or, for the empty name, a constructor, also one
    /// of a parent. A caller tells them apart by the member's kind and owner: a call on a value takes an instance member
    /// alone, a call on a class a static one, `new` a constructor that the class itself owns, and no call a field.
    pub fn member(&self, class: u32, name: &str, arity: u32) -> Option<u32>
        ensures found { result ≡ member_of self.now class name.now arity }
        ensures within { IfSome result (λ number. number < length self.now.members) }
    {
        self.found(class, &Name::Whole(name.as_bytes()), arity)
    }

    /// The member that `member` gives for `get`, `is` or `set` before the name of a property, whose first letter is put
    /// into upper case where it is an ASCII one: `getKey` for `key`. No text is made for it.
    pub fn accessor(&self, class: u32, accessor: Accessor, property: &str) -> Option<u32>
        ensures found { result ≡ member_of self.now class (accessor_name accessor property.now) (arity_of accessor) }
        ensures within { IfSome result (λ number. number < length self.now.members) }
    {
        let name = Name::Of(accessor, property.as_bytes());
        self.found(class, &name, arity_of(accessor))
    }

    fn found(&self, class: u32, name: &Name<'_>, arity: u32) -> Option<u32>
        ensures { result ≡ member_of self.now class (seen_name name.now) arity }
    {
        if class >= CLASS_COUNT {
            return None;
        }
        let mut lineage = class_lineage(class);
        while let [above, others @ ..] = lineage {
            if let Some(number) = self.own(*above, name, arity) {
                return Some(number);
            }
            lineage = others;
        }
        None
    }

    fn own(&self, class: u32, name: &Name<'_>, arity: u32) -> Option<u32>
        ensures { result ≡ own_member self.now class (seen_name name.now) arity }
    {
        if class >= CLASS_COUNT {
            return None;
        }
        let number = member_called(&self.types, &self.index, class, name, arity)?;
        self.allows(number).then_some(number)
    }

    /// How many members this list knows, whether or not it allows them: their numbers are those below this one. Each member of
    /// the catalogue is among them.
    pub fn member_count(&self) -> u32
        ensures is { result ≡ length self.now.members }
        ensures whole { length catalogue ≤ result }
    {
        self.members.len() as u32
    }

    /// A member of this list by its number, whether or not the list allows it.
    pub fn member_type(&self, member: u32) -> &MemberType
        requires { member < length self.now.members }
        ensures { slice_get (members_in self.now) member ≡ Some result.now }
    {
        &self.types[member as usize]
    }

    /// The one method of a functional interface, whether or not this list allows it. `None` for every other class.
    pub fn iface_method(&self, class: u32) -> Option<u32>
        ensures found { result ≡ iface_method_of class }
        ensures within { IfSome result (λ number. number < length self.now.members) }
    {
        // By what is kept of the members each of the catalogue's is among them.
        let _ = &self.members;
        if class < CLASS_COUNT {
            method_of_interface(class)
        } else {
            None
        }
    }

    /// The full name of a class, with `$` before the name of a nested one.
    pub fn class_name(&self, class: u32) -> &str
        requires { class < CLASS_COUNT }
        ensures { result.now ≡ full_name class }
    {
        class_full(class)
    }

    /// Whether the list has a class.
    pub fn has_class(&self, class: u32) -> bool
        requires { class < CLASS_COUNT }
        ensures { slice_get self.now.classes class ≡ Some result }
    {
        self.classes[class as usize]
    }

    /// Whether the list allows a member.
    pub fn allows(&self, member: u32) -> bool
        requires { member < length self.now.members }
        ensures { slice_get self.now.members member ≡ Some result }
    {
        self.members[member as usize]
    }

    /// The same list.
    pub fn share(&self, alloc: Global) -> Result<Allow, AllocError>
        ensures { IfOk result (λ copy. copy ≡ self.now) }
    {
        let classes = Vec::from_slice(alloc, &self.classes)?;
        let members = Vec::from_slice(alloc, &self.members)?;
        Allow::with_flags(alloc, classes, members)
    }

    /// The list with these flags, with its members and their index.
    fn with_flags(
        alloc: Global,
        classes: Vec<bool>,
        members: Vec<bool>,
    ) -> Result<Allow, AllocError>
        requires classes { length classes.items ≡ 57 }
        requires members { length members.items ≡ 228 }
        ensures { IfOk result (λ allow. allow ≡ record { classes = classes.items; members = members.items }) }
    {
        Ok(Allow {
            classes,
            members,
            types: types(alloc)?,
            index: index(alloc)?,
        })
    }

    /// The list that allows nothing.
    ///
    /// # Errors
    ///
    /// Want of memory.
    pub fn empty(alloc: Global) -> Result<Allow, AllocError>
        ensures { IfOk result (λ allow. allow ≡ empty_list) }
    {
        let classes = flags(alloc, 0, 57)?;
        let members = flags(alloc, 0, 228)?;
        Allow::with_flags(alloc, classes, members)
    }

    pub(crate) fn add_class(&mut self, class: u32)
        requires { class < CLASS_COUNT }
        ensures { self.new ≡ record { classes = with_flag self.old.classes class; members = self.old.members } }
    {
        self.classes[class as usize] = true;
    }

    pub(crate) fn add_member(&mut self, member: u32)
        requires { member < length self.old.members }
        ensures { self.new ≡ record { classes = self.old.classes; members = with_flag self.old.members member } }
    {
        self.members[member as usize] = true;
    }
}

/// The lists of everything.
pub struct Catalogue;

impl Catalogue {
    /// Every class and member of the catalogue.
    pub fn full(alloc: Global) -> Result<Allow, AllocError>
        ensures { IfOk result (λ allow. allow ≡ full_list) }
    {
        let classes = flags(alloc, 55, 2)?;
        let members = flags(alloc, 226, 2)?;
        Allow::with_flags(alloc, classes, members)
    }

    /// Every class and member of the catalogue and of the hidden class of the prelude's own calls.
    pub fn with_prelude(alloc: Global) -> Result<Allow, AllocError>
        ensures { IfOk result (λ allow. allow ≡ prelude_list) }
    {
        let classes = flags(alloc, 56, 1)?;
        let members = flags(alloc, 228, 0)?;
        Allow::with_flags(alloc, classes, members)
    }
}
