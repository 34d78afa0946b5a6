//! The first item that is equal to a value, and the last.
ghost use Rattle.std.specs.Prelude.{◌≡◌, length};
ghost use Rattle.api_list.specs.Searching as spec;
ghost use Rattle.object_values.specs.Values.{same_value};
ghost use Rattle.object_values.specs.declared.value.Value.TheVariants.{Str};

use container_outcomes::{Compared, Found, compare};
use object_heap::Heap;
use object_values::Value;

/// The first item that is equal to this value. A value that is no object is compared by its kind and content, with no walk.
#[tactic(auto, using(crate::proofs::Plain::first_is_same))]
pub fn first_of(heap: &Heap, value: &Value, items: &[Value]) -> Found
    ensures { result ≡ spec.first_from heap.now.objects value.now 0 items.now }
{
    match value {
        Value::Ref(_) => first_walked(heap, value, items),
        Value::Str(text) => first_text(text.units(), items),
        _ => first_same(value, items),
    }
}

// The first item that a walk finds equal to this value.
fn first_walked(heap: &Heap, value: &Value, items: &[Value]) -> Found
    ensures { result ≡ spec.first_from heap.now.objects value.now 0 items.now }
{
    for at in 0..items.len() {
        match compare(heap, value, &items[at]) {
            Compared::Same => return Found::At(at),
            Compared::Other => {}
            Compared::Deep => return Found::Deep,
            Compared::Large => return Found::Large,
        }
    }
    Found::Nowhere
}

// The first item that is one with this value.
fn first_same(value: &Value, items: &[Value]) -> Found
    ensures { result ≡ spec.first_same_from value.now 0 items.now }
{
    for at in 0..items.len() {
        if *value == items[at] {
            return Found::At(at);
        }
    }
    Found::Nowhere
}

// The first item that is the text of these units.
fn first_text(units: &[u16], items: &[Value]) -> Found
    ensures { result ≡ spec.first_same_from (Str units.now) 0 items.now }
{
    for at in 0..items.len() {
        if is_text(units, &items[at]) {
            return Found::At(at);
        }
    }
    Found::Nowhere
}

// Whether a value is the text of these units.
fn is_text(units: &[u16], item: &Value) -> bool
    ensures { result ≡ same_value (Str units.now) item.now }
{
    match item {
        Value::Str(text) => units == text.units(),
        _ => false,
    }
}

/// The last item that is equal to this value, searched for from the end.
#[tactic(auto, using(crate::proofs::Steps::last_step, crate::proofs::Steps::last_passed))]
pub fn last_of(heap: &Heap, value: &Value, items: &[Value]) -> Found
    ensures { result ≡ spec.last_before heap.now.objects value.now items.now (length items.now) }
{
    for passed in 0..items.len() {
        let at = items.len() - 1 - passed;
        match compare(heap, value, &items[at]) {
            Compared::Same => return Found::At(at),
            Compared::Other => {}
            Compared::Deep => return Found::Deep,
            Compared::Large => return Found::Large,
        }
    }
    Found::Nowhere
}
