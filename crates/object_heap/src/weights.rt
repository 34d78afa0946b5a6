//! What objects weigh, and how much a change adds.
ghost use Rattle.std.specs.Prelude.{◌≡◌, ◌<◌, ◌≤◌, ◌^◌, ◌-◌, ◌&&◌, nat_le, suc, length, MatchOption, slice_get, if◌then◌else◌};
ghost use Rattle.object_values.specs.Pairs.{value_of, key_at, HasDistinctKeys};
ghost use Rattle.object_heap.specs.Objects.{weight_of, new_growth, new_keys};
ghost use Rattle.object_heap.specs.Parts.{asked};
ghost use Rattle.object_heap.specs.Store.{weight};
ghost use Rattle.object_heap.specs.Objects as spec;

use object_values::{Object, Pairs, Value};
use pl_units::UText;

/// How many elements count in the weight, which is one more.
#[tactic(auto, unfolding(crate::specs::Objects::weight_of))]
pub fn elements(object: &Object) -> u64
    ensures { suc result ≡ weight_of object.now }
{
    match object {
        Object::List { items, .. } => items.len() as u64,
        Object::Map { pairs, .. } => pairs.len() as u64 * 2,
        Object::Set { items, .. } => items.len() as u64,
        Object::Array { items, .. } => items.len() as u64,
        Object::View { .. } => 0,
        Object::Entry { .. } => 2,
        Object::Iter { .. } => 0,
        Object::Builder { units } => units.len() as u64,
        Object::Fun { captures, .. } => captures.len() as u64,
        Object::Exc { message, .. } => message_units(message),
    }
}

fn message_units(message: &Option<UText>) -> u64
    ensures { result ≡ spec.message_units message.now }
{
    match message {
        None => 0,
        Some(text) => text.len() as u64,
    }
}

/// The weight of an object, or `None` where it is above the room.
pub fn weight_within(object: &Object, room: u64) -> Option<u64>
    ensures { MatchOption result (room < weight_of object.now) (λ weight. (weight ≡ weight_of object.now) × (weight ≤ room)) }
{
    let elements = elements(object);
    if elements < room {
        Some(elements + 1)
    } else {
        None
    }
}

/// The weight of objects together, or `None` where it is above the room.
#[tactic(auto, using(crate::proofs::Growth::weight_from))]
pub fn all_within(objects: &[Object], room: u64) -> Option<u64>
    ensures { MatchOption result (room < weight objects.now) (λ all. (all ≡ weight objects.now) × (all ≤ room)) }
{
    let mut left = room;
    for at in 0..objects.len() {
        let Some(weight) = weight_within(&objects[at], left) else {
            return None;
        };
        left -= weight;
    }
    Some(room - left)
}

/// How much the insertion of an item adds to the weight.
pub fn insert_growth(objects: &[Object], id: usize, at: usize) -> u64
    ensures { result ≡ asked (spec.insert_growth at) 0 (slice_get objects.now id) }
{
    match objects.get(id) {
        Some(Object::List { items, .. }) if at <= items.len() => 1,
        _ => 0,
    }
}

/// How much the insertion of so many items adds to the weight.
pub fn insert_all_growth(objects: &[Object], id: usize, at: usize, count: usize) -> u64
    ensures { result ≡ asked (spec.insert_all_growth at count) 0 (slice_get objects.now id) }
{
    match objects.get(id) {
        Some(Object::List { items, .. }) if at <= items.len() => count as u64,
        _ => 0,
    }
}

/// How much units at the end of a builder add to the weight.
pub fn units_growth(objects: &[Object], id: usize, count: usize) -> u64
    ensures { result ≡ asked (spec.units_growth count) 0 (slice_get objects.now id) }
{
    match objects.get(id) {
        Some(Object::Builder { .. }) => count as u64,
        _ => 0,
    }
}

/// How much units in the place of those of a builder from one place up to another add to the weight.
pub fn splice_growth(objects: &[Object], id: usize, from: usize, to: usize, count: usize) -> u64
    ensures { result ≡ asked (spec.splice_growth from to count) 0 (slice_get objects.now id) }
{
    match objects.get(id) {
        Some(Object::Builder { units }) => run_growth(units.len(), from, to, count),
        _ => 0,
    }
}

fn run_growth(len: usize, from: usize, to: usize, count: usize) -> u64
    ensures { result ≡ (if nat_le from to && nat_le to len then count - (to - from) else 0) }
{
    if from <= to && to <= len {
        count.saturating_sub(to - from) as u64
    } else {
        0
    }
}

/// How much a put adds to the weight.
pub fn put_growth(objects: &[Object], id: usize, key: &Value) -> u64
    ensures { result ≡ asked (spec.put_growth key.now) 0 (slice_get objects.now id) }
{
    match objects.get(id) {
        Some(object) => put_growth_in(object, key),
        None => 0,
    }
}

fn put_growth_in(object: &Object, key: &Value) -> u64
    ensures { result ≡ spec.put_growth key.now object.now }
{
    match object {
        Object::Map { pairs, .. } => growth_of_new(pairs, key, 2),
        Object::Set { items, .. } => growth_of_new(items, key, 1),
        _ => 0,
    }
}

fn growth_of_new(pairs: &Pairs, key: &Value, growth: u64) -> u64
    ensures { result ≡ new_growth (value_of pairs.now key.now) growth }
{
    match pairs.get(key) {
        None => growth,
        Some(_) => 0,
    }
}

/// How much pairs that are put add to the weight.
pub fn put_all_growth(objects: &[Object], id: usize, more: &Pairs) -> u64
    ensures growth { result ≡ asked (spec.put_all_growth more.now) 0 (slice_get objects.now id) }
    ensures distinct { HasDistinctKeys more.now }
{
    let _count = more.len();
    match objects.get(id) {
        Some(object) => put_all_growth_in(object, more),
        None => 0,
    }
}

fn put_all_growth_in(object: &Object, more: &Pairs) -> u64
    ensures { result ≡ spec.put_all_growth more.now object.now }
{
    match object {
        Object::Map { pairs, .. } => count_new(pairs, more) * 2,
        Object::Set { items, .. } => count_new(items, more),
        _ => 0,
    }
}

// How many keys are new.
fn count_new(pairs: &Pairs, more: &Pairs) -> u64
    ensures count { result ≡ new_keys pairs.now more.now }
    ensures bound { result < 2 ^ 63 }
{
    let mut count = 0;
    for at in 0..more.len() {
        count += new_at(pairs, more, at);
    }
    count
}

// Whether the key at a place is new, as a number.
fn new_at(pairs: &Pairs, more: &Pairs, at: usize) -> u64
    ensures { result ≡ spec.new_key pairs.now (key_at more.now at) }
{
    match more.key_at(at) {
        Some(key) => growth_of_new(pairs, key, 1),
        None => 0,
    }
}
