//! String.join.
ghost use Rattle.std.specs.Prelude.{◌≡◌, ◌≤◌, [], IfErr, IfNone, IfSome, OnOk, Some, length, map, slice_get};
ghost use Rattle.std.specs.Option.{option_copied};
ghost use Rattle.object_heap.specs.Parts.{pairs_in};
ghost use Rattle.value_walks.specs.Outputs.{put};
ghost use Rattle.value_walks.specs.Texts.{AValue, Writes};
ghost use Rattle.api_text.specs.declared.outcome.Outcome.{Outcome};
ghost use Rattle.api_text.specs.Outcomes.{Tells};
ghost use Rattle.api_text.specs.Joining as spec;

use crate::errors::{null_error, too_deep, too_large};
use crate::outcome::Outcome;
use crate::writing::output_made;
use member_arguments::{object_at, sequence_at, text_room, value_at};
use object_heap::Heap;
use object_values::{Object, Pairs, Part, Value};
use pl_units::UText;
use value_walks::{Output, TextErr, VISITS, push_entry, push_text};

// What a walk that stopped comes to.
fn stopped(heap: &Heap, cause: TextErr) -> Outcome
    ensures { (told : Outcome) → spec.Stopped told cause → Tells heap.now told result }
{
    match cause {
        TextErr::Deep => too_deep(heap),
        TextErr::Large => too_large(heap),
        TextErr::NoMemory => Outcome::NoMemory,
    }
}

// Writes the text between before each element but the first.
#[tactic(auto, using(value_walks::proofs::Putting::put_nothing))]
fn separate(out: &mut Output, between: &[u16], at: usize) -> Result<(), TextErr>
    ensures ok { OnOk result (out.new ≡ put out.old (spec.separator between.now at)) }
    ensures err { IfErr result (λ cause. cause ≡ TextErr.NoMemory) }
{
    if at == 0 {
        return Ok(());
    }
    out.write(between)
}

// Writes the text of a value.
fn push_value(
    heap: &Heap,
    between: &[u16],
    at: usize,
    value: &Value,
    out: &mut Output,
) -> Result<u64, TextErr>
    ensures { Writes (spec.element_text heap.now.objects (AValue value.now)) (put out.old (spec.separator between.now at)) out.new result }
{
    match separate(out, between, at) {
        Ok(()) => push_text(heap, value, VISITS, out),
        Err(_) => Err(TextErr::NoMemory),
    }
}

// Writes the text of the element that a view shows of a pair.
fn push_element(
    heap: &Heap,
    part: Part,
    key: &Value,
    value: &Value,
    out: &mut Output,
) -> Result<u64, TextErr>
    ensures { Writes (spec.element_text heap.now.objects (spec.element_of part (key.now, value.now))) out.old out.new result }
{
    match part {
        Part::Keys => push_text(heap, key, VISITS, out),
        Part::Values => push_text(heap, value, VISITS, out),
        Part::Entries => push_entry(heap, key, value, VISITS, out),
    }
}

fn push_shown(
    heap: &Heap,
    between: &[u16],
    at: usize,
    part: Part,
    key: &Value,
    value: &Value,
    out: &mut Output,
) -> Result<u64, TextErr>
    ensures { Writes (spec.element_text heap.now.objects (spec.element_of part (key.now, value.now))) (put out.old (spec.separator between.now at)) out.new result }
{
    match separate(out, between, at) {
        Ok(()) => push_element(heap, part, key, value, out),
        Err(_) => Err(TextErr::NoMemory),
    }
}

// The texts of values.
fn join_values(heap: &Heap, between: &[u16], values: &[Value]) -> Outcome
    ensures { Tells heap.now (spec.joined_elements heap.now.objects between.now (map AValue values.now)) result }
{
    let mut out = Output::new(heap.alloc(), text_room(heap));
    for at in 0..values.len() {
        let Some(value) = value_at(values, at) else {
            unreachable!()
        };
        match push_value(heap, between, at, value, &mut out) {
            Ok(_) => {}
            Err(cause) => return stopped(heap, cause),
        }
    }
    output_made(out)
}

// The key and the value at a place.
fn pair_at(pairs: &Pairs, at: usize) -> Option<(&Value, &Value)>
    ensures none { IfNone result (length pairs.now ≤ at) }
    ensures some { IfSome result (λ pair. slice_get pairs.now at ≡ Some (pair.0.now, pair.1.now)) }
{
    match (pairs.key_at(at), pairs.value_at(at)) {
        (Some(key), Some(value)) => Some((key, value)),
        _ => None,
    }
}

// The texts of what a view shows of pairs.
fn join_pairs(heap: &Heap, between: &[u16], part: Part, pairs: &Pairs) -> Outcome
    ensures { Tells heap.now (spec.joined_elements heap.now.objects between.now (map (spec.element_of part) pairs.now)) result }
{
    let mut out = Output::new(heap.alloc(), text_room(heap));
    for at in 0..pairs.len() {
        let Some((key, value)) = pair_at(pairs, at) else {
            unreachable!()
        };
        match push_shown(heap, between, at, part, key, value, &mut out) {
            Ok(_) => {}
            Err(cause) => return stopped(heap, cause),
        }
    }
    output_made(out)
}

fn join_none(heap: &Heap) -> Outcome
    ensures { result ≡ Outcome.Makes [] }
{
    Outcome::Makes(UText::empty(heap.alloc()))
}

// The texts of what a view shows of the pairs of a map.
fn join_view(heap: &Heap, between: &[u16], part: Part, pairs: Option<&Pairs>) -> Outcome
    ensures { Tells heap.now (spec.joined_elements heap.now.objects between.now (map (spec.element_of part) (pairs_in (option_copied pairs.entry)))) result }
{
    match pairs {
        Some(pairs) => join_pairs(heap, between, part, pairs),
        None => join_none(heap),
    }
}

fn join_object(heap: &Heap, between: &[u16], object: &Object) -> Outcome
    ensures { Tells heap.now (spec.joined_elements heap.now.objects between.now (spec.object_elements heap.now.objects object.now)) result }
{
    match object {
        Object::List { items, .. } => join_values(heap, between, items.as_slice()),
        Object::Set { items, .. } => join_pairs(heap, between, Part::Keys, items),
        Object::View { map, part } => join_view(heap, between, *part, heap.pairs(*map)),
        _ => join_none(heap),
    }
}

fn joined_of(heap: &Heap, between: &[u16], id: u32) -> Outcome
    ensures { Tells heap.now (spec.joined_of heap.now.objects between.now id) result }
{
    match heap.get(id) {
        Some(object) => join_object(heap, between, object),
        None => join_none(heap),
    }
}

/// `String.join(CharSequence, Iterable)`.
pub fn join(heap: &Heap, args: &[Value]) -> Outcome
    ensures { Tells heap.now (spec.join heap.now.objects args.now) result }
{
    match (sequence_at(heap, args, 0), object_at(args, 1)) {
        (Some(between), Some(id)) => joined_of(heap, between, id),
        _ => null_error(),
    }
}
