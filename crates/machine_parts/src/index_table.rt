//! By which members an index in brackets reads and writes what lists and maps hold, found once for each class.
ghost use Rattle.std.specs.Prelude.{◌≡◌, ◌<◌, IfOk, IfSome, length, option_map};
ghost use Rattle.allowlist.specs.Index.{member_in};
ghost use Rattle.def_resolve.specs.Accesses as access;
ghost use Rattle.def_resolve.specs.declared.access.NameAccess.TheVariants as by_name;
ghost use Rattle.def_access.specs.Coming.{NameListed};
ghost use Rattle.def_resolve.specs.Resolution.{instance_in, instance_member};
ghost use Rattle.machine_parts.specs.Indexes.{index_members, index_rows};

use allowlist::{Allow, MemberKind, MemberType};
use def_resolve::{IndexAccess, NameAccess, Purpose};
use object_heap::Heap;
use object_values::{Object, Value};
use pl_types::classes::CLASS_COUNT;
use plain_data::Items;
use std::alloc::{AllocError, Global};
use std::marker::Model;

/// The members of a class by which an index in brackets reads and writes, each where the list allows it.
#[derive(Clone, Copy)]
pub struct IndexMembers {
    /// Reads an item of a list, or what a map has under a key: `get`.
    pub read: Option<u32>,
    /// Writes an item of a list: `set`.
    pub item: Option<u32>,
    /// Writes what a map has under a key: `put`.
    pub key: Option<u32>,
}

/// The same of each class of the catalogue, in the order of their numbers.
#[derive(Drop)]
pub struct IndexTable {
    rows: Items<IndexMembers>,
}

impl Model for IndexTable {
    ghost use Rattle.std.specs.Prelude.{List};
    ghost use Rattle.machine_parts.specs.declared.index_table.IndexMembers.{IndexMembers};

    ghost Value = { List IndexMembers };

    ghost view = { λ t. t.rows };
}

impl IndexTable {
    /// By the members that a list allows.
    ///
    /// # Errors
    ///
    /// Want of memory.
    #[tactic(auto, using(crate::proofs::Indexed::none_yet, crate::proofs::Indexed::one_more))]
    pub fn new(alloc: Global, allow: &Allow) -> Result<IndexTable, AllocError>
        ensures { IfOk result (λ table. table ≡ index_rows allow.now CLASS_COUNT) }
    {
        let mut rows = Items::new(alloc);
        for class in 0..CLASS_COUNT {
            rows.push(index_members(allow, class))?;
        }
        Ok(IndexTable { rows })
    }

    /// What an index in brackets of a value means, to read or to write it, by the list for which the table was made. No text is
    /// looked up.
    ///
    /// `None`: nothing. See [`def_resolve::index_access`].
    #[inline(always)]
    pub fn access(
        &self,
        allow: &Allow,
        heap: &Heap,
        receiver: &Value,
        purpose: Purpose,
    ) -> Option<IndexAccess>
        requires { self.now ≡ index_rows allow.now CLASS_COUNT }
        ensures { result ≡ access.index_access purpose allow.now heap.now.objects receiver.now }
    {
        match receiver {
            Value::Ref(id) => match heap.get(*id) {
                Some(object) => self.at_object(allow, object, purpose),
                None => None,
            },
            _ => None,
        }
    }

    #[inline(always)]
    fn at_object(&self, allow: &Allow, object: &Object, purpose: Purpose) -> Option<IndexAccess>
        requires { self.now ≡ index_rows allow.now CLASS_COUNT }
        ensures { result ≡ access.at_object purpose allow.now object.now }
    {
        match object {
            Object::Map { class, .. } => {
                let number = self.key_member(allow, *class, purpose)?;
                Some(IndexAccess::Key(number))
            }
            Object::List { class, .. } => {
                let number = self.item_member(allow, *class, purpose)?;
                Some(IndexAccess::Item(number))
            }
            Object::Array { .. } => Some(IndexAccess::Element),
            _ => None,
        }
    }

    /// What a name behind a dot of a value means, to read or to write it. No text is looked up for a map, of which the name is a key.
    ///
    /// `None`: nothing. See [`def_resolve::name_access`].
    pub fn name_access(
        &self,
        allow: &Allow,
        heap: &Heap,
        receiver: &Value,
        name: &str,
        purpose: Purpose,
    ) -> Option<NameAccess>
        requires { self.now ≡ index_rows allow.now CLASS_COUNT }
        ensures exact { result ≡ access.name_access purpose allow.now heap.now.objects receiver.now name.now }
        ensures listed { NameListed allow.now result }
    {
        match receiver {
            Value::Ref(id) => match heap.get(*id) {
                Some(Object::Map { class, .. }) => self.map_access(allow, *class, purpose),
                _ => def_resolve::name_access(allow, heap, receiver, name, purpose),
            },
            _ => def_resolve::name_access(allow, heap, receiver, name, purpose),
        }
    }

    #[inline(always)]
    fn map_access(&self, allow: &Allow, class: u32, purpose: Purpose) -> Option<NameAccess>
        requires { self.now ≡ index_rows allow.now CLASS_COUNT }
        ensures exact { result ≡ option_map by_name.Key (access.key_member purpose allow.now class) }
        ensures listed { NameListed allow.now result }
    {
        let number = self.key_member(allow, class, purpose)?;
        Some(NameAccess::Key(number))
    }

    #[inline(always)]
    #[tactic(auto, unfolding(crate::specs::Indexes::index_members))]
    fn item_member(&self, allow: &Allow, class: u32, purpose: Purpose) -> Option<u32>
        requires { self.now ≡ index_rows allow.now CLASS_COUNT }
        ensures { result ≡ access.item_member purpose allow.now class }
    {
        let members = self.members(allow, class);
        match purpose {
            Purpose::Read => members.read,
            Purpose::Write => members.item,
        }
    }

    #[inline(always)]
    #[tactic(auto, unfolding(crate::specs::Indexes::index_members, def_resolve::specs::Accesses::item_member, def_resolve::specs::Accesses::key_member))]
    fn key_member(&self, allow: &Allow, class: u32, purpose: Purpose) -> Option<u32>
        requires { self.now ≡ index_rows allow.now CLASS_COUNT }
        ensures { result ≡ access.key_member purpose allow.now class }
    {
        let members = self.members(allow, class);
        match purpose {
            Purpose::Read => members.read,
            Purpose::Write => members.key,
        }
    }

    // Of a class that the table lacks they are looked up.
    #[inline(always)]
    #[tactic(auto, using(crate::proofs::Indexed::row_is))]
    fn members(&self, allow: &Allow, class: u32) -> IndexMembers
        requires { self.now ≡ index_rows allow.now CLASS_COUNT }
        ensures { result ≡ index_members allow.now class }
    {
        match self.rows.get(class as usize) {
            Some(members) => *members,
            None => index_members(allow, class),
        }
    }
}

// Those of a class, by their names and how many parameters they have.
#[tactic(auto, unfolding(crate::specs::Indexes::index_members, def_resolve::specs::Accesses::item_member, def_resolve::specs::Accesses::key_member))]
fn index_members(allow: &Allow, class: u32) -> IndexMembers
    ensures { result ≡ index_members allow.now class }
{
    IndexMembers {
        read: instance_member(allow, class, "get", 1),
        item: instance_member(allow, class, "set", 2),
        key: instance_member(allow, class, "put", 2),
    }
}

// The instance member of a class with a name and a number of parameters.
#[tactic(auto, unfolding(def_resolve::specs::Resolution::instance_member))]
fn instance_member(allow: &Allow, class: u32, name: &str, arity: u32) -> Option<u32>
    ensures { result ≡ instance_member allow.now class name.now arity }
{
    let found = allow.member(class, name, arity);
    instance_in(allow, found)
}

// What is found, where it is an instance member.
fn instance_in(allow: &Allow, found: Option<u32>) -> Option<u32>
    requires { IfSome found (λ number. number < length allow.now.members) }
    ensures { result ≡ instance_in allow.now found }
{
    let number = found?;
    match member_at(allow, number).kind {
        MemberKind::Instance => Some(number),
        MemberKind::Constructor | MemberKind::Static | MemberKind::Field => None,
    }
}

fn member_at(allow: &Allow, number: u32) -> &MemberType
    requires { number < length allow.now.members }
    ensures { result.now ≡ member_in allow.now number }
{
    allow.member_type(number)
}
