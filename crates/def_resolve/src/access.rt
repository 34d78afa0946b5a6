//! What a name behind a dot of a value means, and what an index.

ghost use Rattle.std.specs.Prelude.{◌≡◌, option_map};
ghost use Rattle.std.specs.Char.{is_ascii_digit};
ghost use Rattle.std.specs.List.{list_all};
ghost use Rattle.def_resolve.specs.declared.access.Purpose.TheVariants.{Read, Write};
ghost use Rattle.def_resolve.specs.declared.access.NameAccess.TheVariants as by_name;
ghost use Rattle.def_resolve.specs.Accesses as spec;
ghost use Rattle.def_resolve.specs.Accesses.{IndexConfined, NameConfined, index_access, is_index, item_member, key_member, name_access, place_of};

use crate::class::{class_of, class_of_object};
use crate::lookup::{accessor, instance_in, instance_member};
use allowlist::{Accessor, Allow};
use object_heap::Heap;
use object_values::{Object, Value};

/// What an access is for.
#[derive(Clone, Copy)]
pub enum Purpose {
    /// To read what is there.
    Read,
    /// To write it.
    Write,
}

/// A place of a list, counted from the front.
#[derive(Clone, Copy)]
pub enum Place {
    /// This place, from 0.
    At(i32),
    /// Past every place that an int reaches.
    Beyond,
}

/// What a name behind a dot of a value means.
#[derive(Clone, Copy)]
pub enum NameAccess {
    /// The name is a key of a map: a call of this member, which is `get` or `put`, with the name as a text.
    Key(u32),
    /// The name is a place of a list: a call of this member, which is `get` or `set`. A place counts from the front.
    Item(u32, Place),
    /// The name is a property: a call of this getter or setter.
    Accessor(u32),
    /// The length of an array.
    Length,
}

/// What an index in brackets of a value means.
#[derive(Clone, Copy)]
pub enum IndexAccess {
    /// A key of a map: a call of this member, which is `get` or `put`.
    Key(u32),
    /// An item of a list: a call of this member, which is `get` or `set`.
    Item(u32),
    /// An element of an array.
    Element,
}

#[tactic(auto, unfolding(crate::specs::Accesses::accessor_of))]
fn getter(allow: &Allow, class: u32, property: &str) -> Option<u32>
    ensures { result ≡ spec.accessor_of Read allow.now class property.now }
{
    match accessor(allow, class, Accessor::Get, property) {
        Some(number) => instance_in(allow, Some(number)),
        None => {
            let found = accessor(allow, class, Accessor::Is, property);
            instance_in(allow, found)
        }
    }
}

#[tactic(auto, unfolding(crate::specs::Accesses::accessor_of))]
fn setter(allow: &Allow, class: u32, property: &str) -> Option<u32>
    ensures { result ≡ spec.accessor_of Write allow.now class property.now }
{
    let found = accessor(allow, class, Accessor::Set, property);
    instance_in(allow, found)
}

/// The getter or the setter of a property.
fn accessor_of(allow: &Allow, class: u32, property: &str, purpose: Purpose) -> Option<u32>
    ensures { result ≡ spec.accessor_of purpose allow.now class property.now }
{
    match purpose {
        Purpose::Read => getter(allow, class, property),
        Purpose::Write => setter(allow, class, property),
    }
}

/// The member by which an item of a list is read or written.
#[tactic(auto, unfolding(crate::specs::Accesses::item_member))]
fn item_member(allow: &Allow, class: u32, purpose: Purpose) -> Option<u32>
    ensures { result ≡ item_member purpose allow.now class }
{
    match purpose {
        Purpose::Read => instance_member(allow, class, "get", 1),
        Purpose::Write => instance_member(allow, class, "set", 2),
    }
}

/// The member by which what a map has under a key is read or written.
#[tactic(auto, unfolding(crate::specs::Accesses::key_member))]
fn key_member(allow: &Allow, class: u32, purpose: Purpose) -> Option<u32>
    ensures { result ≡ key_member purpose allow.now class }
{
    match purpose {
        Purpose::Read => instance_member(allow, class, "get", 1),
        Purpose::Write => instance_member(allow, class, "put", 2),
    }
}

fn all_digits(name: &[u8]) -> bool
    ensures { result ≡ list_all is_ascii_digit name.now }
{
    name.iter().all(|byte| byte.is_ascii_digit())
}

/// Whether a name is 0, or digits that do not begin with 0.
fn is_index(name: &[u8]) -> bool
    ensures { result ≡ is_index name.now }
{
    match name {
        [] => false,
        [first, rest @ ..] => {
            if *first == b'0' {
                rest.is_empty()
            } else {
                all_digits(name)
            }
        }
    }
}

/// The place that a name behind a dot is, where it is 0 or digits that do not begin with 0. It takes no memory.
///
/// `None`: every other name.
#[tactic(auto, unfolding(crate::specs::Accesses::place_of))]
pub fn place_of(name: &str) -> Option<Place>
    ensures { result ≡ place_of name.now }
{
    if !is_index(name.as_bytes()) {
        return None;
    }
    match name.parse::<i32>() {
        Ok(place) => Some(Place::At(place)),
        Err(_) => Some(Place::Beyond),
    }
}

fn property_of(
    allow: &Allow,
    class: Option<u32>,
    name: &str,
    purpose: Purpose,
) -> Option<NameAccess>
    ensures { result ≡ spec.property_of purpose allow.now name.now class }
{
    let number = accessor_of(allow, class?, name, purpose)?;
    Some(NameAccess::Accessor(number))
}

fn in_list(allow: &Allow, class: u32, name: &str, purpose: Purpose) -> Option<NameAccess>
    ensures { result ≡ spec.in_list purpose allow.now class name.now (place_of name.now) }
{
    match place_of(name) {
        Some(place) => {
            let number = item_member(allow, class, purpose)?;
            Some(NameAccess::Item(number, place))
        }
        None => property_of(allow, Some(class), name, purpose),
    }
}

fn in_map(allow: &Allow, class: u32, purpose: Purpose) -> Option<NameAccess>
    ensures { result ≡ option_map by_name.Key (key_member purpose allow.now class) }
{
    let number = key_member(allow, class, purpose)?;
    Some(NameAccess::Key(number))
}

fn in_array(name: &str, purpose: Purpose) -> Option<NameAccess>
    ensures { result ≡ spec.in_array purpose name.now }
{
    match purpose {
        Purpose::Read => {
            if name == "length" {
                Some(NameAccess::Length)
            } else {
                None
            }
        }
        Purpose::Write => None,
    }
}

fn in_object(allow: &Allow, object: &Object, name: &str, purpose: Purpose) -> Option<NameAccess>
    ensures { result ≡ spec.in_object purpose allow.now name.now object.now }
{
    match object {
        Object::Map { class, .. } => in_map(allow, *class, purpose),
        Object::List { class, .. } => in_list(allow, *class, name, purpose),
        Object::Array { .. } => in_array(name, purpose),
        _ => property_of(allow, class_of_object(object), name, purpose),
    }
}

/// What a name behind a dot of a value means, to read or to write it: of a map a key, of a list a place where the name is an
/// index, of an array its length, which is read alone, and of all else a property, by its getter (`getName`, else `isName`) or its
/// setter (`setName`). It takes no memory.
///
/// `None`: there is no such member that the list allows, or what is found first is no instance member; null; an array but for its
/// length; a function value that has taken no interface. [`throw_no_accessor`](crate::throw_no_accessor) throws what comes of it.
pub fn name_access(
    allow: &Allow,
    heap: &Heap,
    receiver: &Value,
    name: &str,
    purpose: Purpose,
) -> Option<NameAccess>
    ensures exact { result ≡ name_access purpose allow.now heap.now.objects receiver.now name.now }
    ensures confined { NameConfined allow.now result }
{
    match receiver {
        Value::Ref(id) => match heap.get(*id) {
            Some(object) => in_object(allow, object, name, purpose),
            None => None,
        },
        _ => property_of(allow, class_of(heap, receiver), name, purpose),
    }
}

fn at_object(allow: &Allow, object: &Object, purpose: Purpose) -> Option<IndexAccess>
    ensures { result ≡ spec.at_object purpose allow.now object.now }
{
    match object {
        Object::Map { class, .. } => {
            let number = key_member(allow, *class, purpose)?;
            Some(IndexAccess::Key(number))
        }
        Object::List { class, .. } => {
            let number = item_member(allow, *class, purpose)?;
            Some(IndexAccess::Item(number))
        }
        Object::Array { .. } => Some(IndexAccess::Element),
        _ => None,
    }
}

/// What an index in brackets of a value means, to read or to write it: of a map a key, of a list an item, of an array an element.
/// It takes no memory.
///
/// `None`: every other value, and a map or a list whose member the list leaves out. [`throw_no_index`](crate::throw_no_index)
/// throws what comes of it.
pub fn index_access(
    allow: &Allow,
    heap: &Heap,
    receiver: &Value,
    purpose: Purpose,
) -> Option<IndexAccess>
    ensures exact { result ≡ index_access purpose allow.now heap.now.objects receiver.now }
    ensures confined { IndexConfined allow.now result }
{
    match receiver {
        Value::Ref(id) => match heap.get(*id) {
            Some(object) => at_object(allow, object, purpose),
            None => None,
        },
        _ => None,
    }
}
