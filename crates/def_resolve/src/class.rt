//! The class of a value.

ghost use Rattle.std.specs.Prelude.{◌≡◌, ◌↔◌, None};
ghost use Rattle.object_heap.specs.Fits.{class_of_view};
ghost use Rattle.def_resolve.specs.Resolution.{HasNoClass, class_of, class_of_object};

use object_heap::Heap;
use object_values::{Object, Part, Value};
use pl_types::classes::{
    BOOLEAN, BYTE, CHARACTER, COLLECTION, ENTRY, INTEGER, ITERATOR, LONG, SET, SHORT, STRING,
    STRING_BUILDER,
};

/// The class of a value, by which its members are found. It takes no memory.
///
/// `None`: null, an array, a function value that has taken no interface, and a number that is no object's.
pub fn class_of(heap: &Heap, value: &Value) -> Option<u32>
    ensures exact { result ≡ class_of heap.now.objects value.now }
    ensures none { (result ≡ None) ↔ HasNoClass heap.now.objects value.now }
{
    match value {
        Value::Null => None,
        Value::Bool(_) => Some(BOOLEAN),
        Value::Byte(_) => Some(BYTE),
        Value::Short(_) => Some(SHORT),
        Value::Char(_) => Some(CHARACTER),
        Value::Int(_) => Some(INTEGER),
        Value::Long(_) => Some(LONG),
        Value::Str(_) => Some(STRING),
        Value::Ref(id) => match heap.get(*id) {
            Some(object) => class_of_object(object),
            None => None,
        },
    }
}

/// The class of an object.
pub(crate) fn class_of_object(object: &Object) -> Option<u32>
    ensures { result ≡ class_of_object object.now }
{
    match object {
        Object::List { class, .. } => Some(*class),
        Object::Map { class, .. } => Some(*class),
        Object::Set { class, .. } => Some(*class),
        Object::Array { .. } => None,
        Object::View { part, .. } => Some(class_of_view(*part)),
        Object::Entry { .. } => Some(ENTRY),
        Object::Iter { .. } => Some(ITERATOR),
        Object::Builder { .. } => Some(STRING_BUILDER),
        Object::Fun { iface, .. } => *iface,
        Object::Exc { class, .. } => Some(*class),
    }
}

fn class_of_view(part: Part) -> u32
    ensures { result ≡ class_of_view part }
{
    match part {
        Part::Keys => SET,
        Part::Values => COLLECTION,
        Part::Entries => SET,
    }
}
