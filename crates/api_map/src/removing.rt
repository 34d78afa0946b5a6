//! The members that take something out. What is taken out under a key that is an argument takes no memory.
ghost use Rattle.std.specs.Prelude.{◌≡◌, false};
ghost use Rattle.object_heap.specs.Effects.{Answers};
ghost use Rattle.object_heap.specs.declared.answer.Answer.TheVariants as a;
ghost use Rattle.object_values.specs.declared.value.Value.TheVariants as v;
ghost use Rattle.api_map.specs.declared.arguments.Keyed.TheVariants as keyed;
ghost use Rattle.container_outcomes.specs.declared.outcome.Outcome.{Outcome};
ghost use Rattle.api_map.specs.Arguments as arguments;
ghost use Rattle.api_map.specs.Collections as collections;
ghost use Rattle.api_map.specs.Maps as maps;
ghost use Rattle.container_outcomes.specs.Outcomes as spec;
ghost use Rattle.container_outcomes.specs.Outcomes.{Tells, WantsMemory, effect};
ghost use Rattle.api_map.specs.Arguments.{with_key};

use crate::arguments::{Keyed, entry_of, holder_of, keyed_at, map_at};
use crate::collections::entry_shown;
use crate::maps::first_in;
use crate::searching::compare_with;
use container_outcomes::{
    Compared, Found, Outcome, cut_key, cut_pair, drop_key, is_open, not_simple, null_error,
    too_deep, too_large, unsupported,
};
use member_arguments::value_at;
use object_heap::{Answer, Heap};
use object_values::{Part, Value};

fn throw_null(heap: &mut Heap) -> Answer
    ensures does { Answers (effect heap.old spec.null_error) heap.old heap.new result }
    ensures memory { WantsMemory spec.null_error result }
{
    null_error().settle(heap)
}

fn throw_unsupported(heap: &mut Heap) -> Answer
    ensures does { Answers (effect heap.old spec.unsupported) heap.old heap.new result }
    ensures memory { WantsMemory spec.unsupported result }
{
    unsupported().settle(heap)
}

fn throw_not_simple(heap: &mut Heap) -> Answer
    ensures does { Answers (effect heap.old spec.not_simple) heap.old heap.new result }
    ensures memory { WantsMemory spec.not_simple result }
{
    let told = not_simple(heap);
    told.settle(heap)
}

fn throw_deep(heap: &mut Heap) -> Answer
    ensures does { Answers (effect heap.old spec.too_deep) heap.old heap.new result }
    ensures memory { WantsMemory spec.too_deep result }
{
    let told = too_deep(heap);
    told.settle(heap)
}

fn throw_large(heap: &mut Heap) -> Answer
    ensures does { Answers (effect heap.old spec.too_large) heap.old heap.new result }
    ensures memory { WantsMemory spec.too_large result }
{
    let told = too_large(heap);
    told.settle(heap)
}

fn answer_false() -> Answer
    ensures { result ≡ a.Value (v.Bool false) }
{
    Answer::Value(Value::Bool(false))
}

fn cut_simple(heap: &mut Heap, map: u32, key: &Value) -> Answer
    ensures does { Answers (effect heap.old (with_key key.now (Outcome.CutsKey map key.now))) heap.old heap.new result }
    ensures memory { WantsMemory (with_key key.now (Outcome.CutsKey map key.now)) result }
{
    if key.is_simple() {
        cut_key(heap, map, key)
    } else {
        throw_not_simple(heap)
    }
}

fn cut(heap: &mut Heap, map: u32, key: &Value) -> Answer
    ensures does { Answers (effect heap.old (maps.cut_key heap.old.objects map key.now)) heap.old heap.new result }
    ensures memory { WantsMemory (maps.cut_key heap.old.objects map key.now) result }
{
    if is_open(heap, map) {
        cut_simple(heap, map, key)
    } else {
        throw_unsupported(heap)
    }
}

fn cut_found(heap: &mut Heap, map: u32, key: &Value, value: &Value) -> Answer
    ensures does { Answers (effect heap.old (maps.cut_found heap.old.objects map key.now value.now)) heap.old heap.new result }
    ensures memory { WantsMemory (maps.cut_found heap.old.objects map key.now value.now) result }
{
    match compare_with(heap, value, map, key) {
        Compared::Same => drop_key(heap, map, key),
        Compared::Other => answer_false(),
        Compared::Deep => throw_deep(heap),
        Compared::Large => throw_large(heap),
    }
}

fn cut_equal(heap: &mut Heap, map: u32, key: &Value, value: &Value) -> Answer
    ensures does { Answers (effect heap.old (maps.cut_pair heap.old.objects map key.now value.now)) heap.old heap.new result }
    ensures memory { WantsMemory (maps.cut_pair heap.old.objects map key.now value.now) result }
{
    if !is_open(heap, map) {
        return throw_unsupported(heap);
    }
    if key.is_simple() {
        cut_found(heap, map, key, value)
    } else {
        throw_not_simple(heap)
    }
}

fn drop_simple(heap: &mut Heap, id: u32, key: &Value) -> Answer
    ensures does { Answers (effect heap.old (with_key key.now (Outcome.DropsKey id key.now))) heap.old heap.new result }
    ensures memory { WantsMemory (with_key key.now (Outcome.DropsKey id key.now)) result }
{
    if key.is_simple() {
        drop_key(heap, id, key)
    } else {
        throw_not_simple(heap)
    }
}

fn cut_value(heap: &mut Heap, map: u32, value: &Value) -> Answer
    ensures does { Answers (effect heap.old (collections.cut_value heap.old.objects map value.now)) heap.old heap.new result }
    ensures memory { WantsMemory (collections.cut_value heap.old.objects map value.now) result }
{
    match first_in(heap, map, value) {
        Found::At(at) => cut_pair(heap, map, at),
        Found::Nowhere => answer_false(),
        Found::Deep => throw_deep(heap),
        Found::Large => throw_large(heap),
    }
}

// The key of an entry is to be taken out.
fn key_dropped(heap: &Heap, map: u32, value: &Value) -> Outcome
    ensures { Tells (collections.key_dropped map (arguments.entry_of heap.now.objects value.now)) result }
{
    match entry_of(heap, value) {
        Some((_, key)) => entry_dropped(map, key),
        None => Outcome::Gives(Value::Bool(false)),
    }
}

fn entry_dropped(map: u32, key: &Value) -> Outcome
    ensures { Tells (Outcome.DropsEntry map key.now) result }
{
    match key.share() {
        Ok(key) => Outcome::DropsEntry(map, key),
        Err(_) => Outcome::NoMemory,
    }
}

fn drop_entry(heap: &mut Heap, map: u32, value: &Value) -> Answer
    ensures does { Answers (effect heap.old (collections.key_dropped map (arguments.entry_of heap.old.objects value.now))) heap.old heap.new result }
    ensures memory { WantsMemory (collections.key_dropped map (arguments.entry_of heap.old.objects value.now)) result }
{
    let told = key_dropped(heap, map, value);
    told.settle(heap)
}

fn cut_entry(heap: &mut Heap, map: u32, value: &Value) -> Answer
    ensures does { Answers (effect heap.old (collections.cut_entry heap.old.objects map value.now)) heap.old heap.new result }
    ensures memory { WantsMemory (collections.cut_entry heap.old.objects map value.now) result }
{
    match entry_shown(heap, map, value) {
        Compared::Same => drop_entry(heap, map, value),
        Compared::Other => answer_false(),
        Compared::Deep => throw_deep(heap),
        Compared::Large => throw_large(heap),
    }
}

fn cut_shown(heap: &mut Heap, map: u32, part: Part, value: &Value) -> Answer
    ensures does { Answers (effect heap.old (collections.cut_from heap.old.objects (keyed.View map part) value.now)) heap.old heap.new result }
    ensures memory { WantsMemory (collections.cut_from heap.old.objects (keyed.View map part) value.now) result }
{
    match part {
        Part::Keys => drop_simple(heap, map, value),
        Part::Values => cut_value(heap, map, value),
        Part::Entries => cut_entry(heap, map, value),
    }
}

fn cut_from(heap: &mut Heap, from: Keyed, value: &Value) -> Answer
    ensures does { Answers (effect heap.old (collections.cut_from heap.old.objects from value.now)) heap.old heap.new result }
    ensures memory { WantsMemory (collections.cut_from heap.old.objects from value.now) result }
{
    match from {
        Keyed::Set(set) => drop_simple(heap, set, value),
        Keyed::View(map, part) => cut_shown(heap, map, part, value),
    }
}

fn removed(heap: &mut Heap, from: Keyed, value: &Value) -> Answer
    ensures does { Answers (effect heap.old (collections.removed heap.old.objects from value.now)) heap.old heap.new result }
    ensures memory { WantsMemory (collections.removed heap.old.objects from value.now) result }
{
    if is_open(heap, holder_of(from)) {
        cut_from(heap, from, value)
    } else {
        throw_unsupported(heap)
    }
}

/// `remove(def)` of a map.
pub fn remove(heap: &mut Heap, args: &[Value]) -> Answer
    ensures does { Answers (effect heap.old (maps.remove heap.old.objects args.now)) heap.old heap.new result }
    ensures memory { WantsMemory (maps.remove heap.old.objects args.now) result }
{
    match (map_at(heap, args, 0), value_at(args, 1)) {
        (Some(map), Some(key)) => cut(heap, map, key),
        _ => throw_null(heap),
    }
}

/// `remove(def, def)` of a map.
pub fn remove_pair(heap: &mut Heap, args: &[Value]) -> Answer
    ensures does { Answers (effect heap.old (maps.remove_pair heap.old.objects args.now)) heap.old heap.new result }
    ensures memory { WantsMemory (maps.remove_pair heap.old.objects args.now) result }
{
    match (map_at(heap, args, 0), value_at(args, 1), value_at(args, 2)) {
        (Some(map), Some(key), Some(value)) => cut_equal(heap, map, key, value),
        _ => throw_null(heap),
    }
}

/// `remove(def)` of a collection.
pub fn remove_element(heap: &mut Heap, args: &[Value]) -> Answer
    ensures does { Answers (effect heap.old (collections.remove heap.old.objects args.now)) heap.old heap.new result }
    ensures memory { WantsMemory (collections.remove heap.old.objects args.now) result }
{
    match (keyed_at(heap, args, 0), value_at(args, 1)) {
        (Some(from), Some(value)) => removed(heap, from, value),
        _ => throw_null(heap),
    }
}
