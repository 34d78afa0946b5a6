//! The parts of one object. What an object does not have is empty or nothing.
ghost use Rattle.std.specs.Prelude.{◌≡◌};
ghost use Rattle.std.specs.Option.{option_copied};
ghost use Rattle.object_heap.specs.Parts.{object_items, object_map, object_size, object_class, object_guard, object_changes, object_units, object_elem, object_message, object_iface, object_target, object_captures, is_closed};
ghost use Rattle.object_heap.specs.Parts as spec;

use object_values::{Guard, Object, Pairs, Target, Value};
use pl_types::Ty;
use pl_units::UText;

/// The items of a list or an array.
pub fn items(object: &Object) -> &[Value]
    ensures { result.now ≡ object_items object.now }
{
    match object {
        Object::List { items, .. } => items.as_slice(),
        Object::Array { items, .. } => items.as_slice(),
        _ => &[],
    }
}

/// The pairs of a map or a set.
pub fn pairs(object: &Object) -> Option<&Pairs>
    ensures { option_copied result ≡ object_map object.now }
{
    match object {
        Object::Map { pairs, .. } => Some(pairs),
        Object::Set { items, .. } => Some(items),
        _ => None,
    }
}

/// How many elements a list, an array, a map or a set has.
pub fn size(object: &Object) -> usize
    ensures { result ≡ object_size object.now }
{
    match object {
        Object::List { items, .. } => items.len(),
        Object::Map { pairs, .. } => pairs.len(),
        Object::Set { items, .. } => items.len(),
        Object::Array { items, .. } => items.len(),
        _ => 0,
    }
}

/// The class of a list, a map, a set or an exception.
pub fn class(object: &Object) -> Option<u32>
    ensures { result ≡ object_class object.now }
{
    match object {
        Object::List { class, .. } => Some(*class),
        Object::Map { class, .. } => Some(*class),
        Object::Set { class, .. } => Some(*class),
        Object::Exc { class, .. } => Some(*class),
        _ => None,
    }
}

/// What may change a list, a map or a set.
pub fn guard(object: &Object) -> Option<&Guard>
    ensures { option_copied result ≡ object_guard object.now }
{
    match object {
        Object::List { guard, .. } => Some(guard),
        Object::Map { guard, .. } => Some(guard),
        Object::Set { guard, .. } => Some(guard),
        _ => None,
    }
}

/// Whether nothing may change it.
pub fn is_frozen(object: &Object) -> bool
    ensures { result ≡ spec.is_frozen object.now }
{
    match guard(object) {
        Some(guard) => guard_is_closed(guard),
        None => false,
    }
}

fn guard_is_closed(guard: &Guard) -> bool
    ensures { result ≡ is_closed (Some guard.now) }
{
    match guard {
        Guard::Open => false,
        Guard::Frozen => true,
        Guard::Keys(_) => false,
        Guard::Mapped => true,
    }
}

/// The change count of a list, a map or a set.
pub fn changes(object: &Object) -> u64
    ensures { result ≡ object_changes object.now }
{
    match object {
        Object::List { changes, .. } => *changes,
        Object::Map { changes, .. } => *changes,
        Object::Set { changes, .. } => *changes,
        _ => 0,
    }
}

/// The units of a builder.
pub fn units(object: &Object) -> &[u16]
    ensures { result.now ≡ object_units object.now }
{
    match object {
        Object::Builder { units } => units.as_slice(),
        _ => &[],
    }
}

/// The type of the elements of an array.
pub fn elem(object: &Object) -> Option<&Ty>
    ensures { option_copied result ≡ object_elem object.now }
{
    match object {
        Object::Array { elem, .. } => Some(elem),
        _ => None,
    }
}

/// The message of an exception.
pub fn message(object: &Object) -> Option<&UText>
    ensures { option_copied result ≡ object_message object.now }
{
    match object {
        Object::Exc { message, .. } => message.as_ref(),
        _ => None,
    }
}

/// The interface of a function value.
pub fn iface(object: &Object) -> Option<u32>
    ensures { result ≡ object_iface object.now }
{
    match object {
        Object::Fun { iface, .. } => *iface,
        _ => None,
    }
}

/// What a function value calls.
pub fn target(object: &Object) -> Option<&Target>
    ensures { option_copied result ≡ object_target object.now }
{
    match object {
        Object::Fun { target, .. } => Some(target),
        _ => None,
    }
}

/// What a function value has captured.
pub fn captures(object: &Object) -> &[Value]
    ensures { result.now ≡ object_captures object.now }
{
    match object {
        Object::Fun { captures, .. } => captures.as_slice(),
        _ => &[],
    }
}
