//! Pairs of keys and values, one by one.
ghost use Rattle.std.specs.Prelude.{◌≡◌, ◌≤◌, IfNone, IfSome, Some, is_some, length, slice_get};
ghost use Rattle.std.specs.Option.{option_copied};
ghost use Rattle.object_values.specs.Pairs.{value_of};
ghost use Rattle.value_walks.specs.Equality.{has_keys};
ghost use Rattle.value_walks.specs.Texts.{shown_of};

use object_values::{Pairs, Part, Value};

/// What is shown of the pair of a key and a value.
#[derive(Clone, Copy, Debug, PartialEq, Eq)]
pub enum Shown {
    Keys,
    Values,
    Entries,
    Pairs,
}

/// What a view shows.
pub fn shown_of(part: Part) -> Shown
    ensures { result ≡ shown_of part }
{
    match part {
        Part::Keys => Shown::Keys,
        Part::Values => Shown::Values,
        Part::Entries => Shown::Entries,
    }
}

/// The item at a place.
pub fn item_at(items: &[Value], at: usize) -> Option<&Value>
    ensures { option_copied result ≡ slice_get items.now at }
{
    items.get(at)
}

/// The key and the value at a place.
pub fn pair_at(pairs: &Pairs, at: usize) -> Option<(&Value, &Value)>
    ensures none { IfNone result (length pairs.now ≤ at) }
    ensures some { IfSome result (λ pair. slice_get pairs.now at ≡ Some (pair.0.now, pair.1.now)) }
{
    match (pairs.key_at(at), pairs.value_at(at)) {
        (Some(key), Some(value)) => Some((key, value)),
        _ => None,
    }
}

fn has_key(pairs: &Pairs, key: &Value) -> bool
    ensures { result ≡ is_some (value_of pairs.now key.now) }
{
    match pairs.get(key) {
        Some(_) => true,
        None => false,
    }
}

/// Whether each key of the first is one of the second's.
pub fn has_keys(pairs: &Pairs, other: &Pairs) -> bool
    ensures { result ≡ has_keys pairs.now other.now }
{
    for at in 0..pairs.len() {
        let Some((key, _)) = pair_at(pairs, at) else {
            return true;
        };
        if !has_key(other, key) {
            return false;
        }
    }
    true
}
