//! What may be changed.
ghost use Rattle.std.specs.Prelude.{◌≡◌, Some};
ghost use Rattle.object_heap.specs.Parts.{guard_of, pairs_of};
ghost use Rattle.api_map.specs.Guards as spec;

use crate::searching::pair_at;
use object_heap::Heap;
use object_values::{Guard, Pairs, Value};
use pl_units::UText;

// Whether a text is one of these.
fn is_listed(keys: &[UText], text: &UText) -> bool
    ensures { result ≡ spec.is_listed keys.now text.now }
{
    for at in 0..keys.len() {
        if text.units() == keys[at].units() {
            return true;
        }
    }
    false
}

fn lists(keys: &[UText], key: &Value) -> bool
    ensures { result ≡ spec.lists keys.now key.now }
{
    match key {
        Value::Str(text) => is_listed(keys, text),
        _ => false,
    }
}

fn lets_put(guard: &Guard, key: &Value) -> bool
    ensures { result ≡ spec.may_put (Some guard.now) key.now }
{
    match guard {
        Guard::Open => true,
        Guard::Frozen => false,
        Guard::Keys(keys) => lists(keys.get().as_slice(), key),
        Guard::Mapped => false,
    }
}

/// Whether a value may be put under a key.
pub fn may_put(heap: &Heap, id: u32, key: &Value) -> bool
    ensures { result ≡ spec.may_put (guard_of heap.now.objects id) key.now }
{
    match heap.guard(id) {
        Some(guard) => lets_put(guard, key),
        None => true,
    }
}

fn maps(guard: &Guard) -> bool
    ensures { result ≡ spec.is_mapped (Some guard.now) }
{
    match guard {
        Guard::Open => false,
        Guard::Frozen => false,
        Guard::Keys(_) => false,
        Guard::Mapped => true,
    }
}

/// Whether only fields that are there may be asked for.
pub fn is_mapped(heap: &Heap, id: u32) -> bool
    ensures { result ≡ spec.is_mapped (guard_of heap.now.objects id) }
{
    match heap.guard(id) {
        Some(guard) => maps(guard),
        None => false,
    }
}

fn lets_some(guard: &Guard) -> bool
    ensures { result ≡ spec.takes_puts (Some guard.now) }
{
    match guard {
        Guard::Open => true,
        Guard::Frozen => false,
        Guard::Keys(_) => true,
        Guard::Mapped => false,
    }
}

/// Whether anything may be put at all.
pub fn takes_puts(heap: &Heap, id: u32) -> bool
    ensures { result ≡ spec.takes_puts (guard_of heap.now.objects id) }
{
    match heap.guard(id) {
        Some(guard) => lets_some(guard),
        None => true,
    }
}

fn may_put_pairs(heap: &Heap, id: u32, pairs: &Pairs) -> bool
    ensures { result ≡ spec.may_put_all (guard_of heap.now.objects id) pairs.now }
{
    for at in 0..pairs.len() {
        let Some((key, _)) = pair_at(pairs, at) else {
            return true;
        };
        if !may_put(heap, id, key) {
            return false;
        }
    }
    true
}

/// Whether values may be put under all keys of another map.
pub fn may_put_all(heap: &Heap, id: u32, from: u32) -> bool
    ensures { result ≡ spec.may_put_all (guard_of heap.now.objects id) (pairs_of heap.now.objects from) }
{
    match heap.pairs(from) {
        Some(pairs) => may_put_pairs(heap, id, pairs),
        None => true,
    }
}
