//! Calls of rows, and whether each comes to what its row says.
use crate::heaps::heap_of;
use crate::values::{first_word, object_of, value_of, values_of};
use object_heap::{Answer, Heap};
use object_values::{Seed, Value};
use std::alloc::Global;
use std::string::String;
use value_walks::{VISITS, text};

/// Members that rows call.
pub trait Members {
    /// The call of a member by its number.
    fn call(number: u32, heap: &mut Heap, args: &[Value]) -> Answer;
}

/// A row: a call, what it comes to and costs, and an object with its change count and its text behind it.
#[derive(Clone, Copy)]
struct Row<'a> {
    member: u32,
    args: &'a str,
    wanted: &'a str,
    cost: u64,
    object: u32,
    changes: u64,
    text: &'a str,
}

fn row_of(line: &str) -> Option<Row<'_>> {
    let (call, rest) = line.split_once(" | ")?;
    let (wanted, rest) = rest.split_once(" | ")?;
    let (cost, rest) = rest.split_once(" | ")?;
    let (member, args) = first_word(call);
    let (object, rest) = first_word(rest);
    let (changes, text) = first_word(rest);
    Some(Row {
        member: member.parse::<u32>().ok()?,
        args,
        wanted,
        cost: cost.parse::<u64>().ok()?,
        object: object_of(object)?,
        changes: changes.parse::<u64>().ok()?,
        text,
    })
}

fn text_of(heap: &Heap, id: u32) -> Option<String> {
    text(heap, &Value::Ref(id), VISITS).ok()?.to_utf8().ok()
}

// Whether an object is the exception of this class, without its package, with this message or none.
fn is_exception(heap: &Heap, id: u32, wanted: &str) -> Option<bool> {
    let wanted = wanted.strip_prefix('!')?;
    let told = text_of(heap, id)?;
    let package = told.as_str().strip_suffix(wanted)?;
    Some(package.ends_with('.'))
}

fn is_wanted(alloc: Global, heap: &Heap, answer: &Answer, wanted: &str) -> Option<bool> {
    match answer {
        Answer::Value(value) => {
            let wanted = value_of(alloc, wanted)?;
            Some(*value == wanted)
        }
        Answer::Thrown(id) => is_exception(heap, *id, wanted),
        Answer::Room => Some(wanted == "Room"),
        Answer::NoMemory => Some(false),
    }
}

// Whether a row comes to what it says, on a heap with room for it.
fn comes_to<M: Members>(alloc: Global, heap: &mut Heap, row: Row<'_>) -> Option<bool> {
    let args = values_of(alloc, row.args)?;
    let room = heap.room_left();
    let answer = M::call(row.member, heap, args.as_slice());
    let cost = room.saturating_sub(heap.room_left());
    let told = is_wanted(alloc, heap, &answer, row.wanted)?;
    let left = text_of(heap, row.object)?;
    let changes = heap.changes(row.object);
    Some(told && cost == row.cost && left.as_str() == row.text && changes == row.changes)
}

fn is_room(answer: &Answer) -> bool {
    match answer {
        Answer::Room => true,
        _ => false,
    }
}

// Whether there is no room for a row where there is one less than it takes, and nothing is added or paid then.
fn is_refused<M: Members>(alloc: Global, objects: &str, row: Row<'_>) -> Option<bool> {
    let Some(room) = row.cost.checked_sub(1) else {
        return Some(true);
    };
    let mut heap = heap_of(alloc, objects, room)?;
    let count = heap.len();
    let args = values_of(alloc, row.args)?;
    let answer = M::call(row.member, &mut heap, args.as_slice());
    Some(is_room(&answer) && heap.room_left() == room && heap.len() == count)
}

// Whether a row alone comes to what it says.
fn holds_alone<M: Members>(alloc: Global, objects: &str, row: Row<'_>) -> Option<bool> {
    let mut heap = heap_of(alloc, objects, row.cost)?;
    let told = comes_to::<M>(alloc, &mut heap, row)?;
    let refused = is_refused::<M>(alloc, objects, row)?;
    Some(told && refused)
}

// Whether a line holds; none where it cannot be read.
fn holds<M: Members>(alloc: Global, objects: &str, heap: &mut Heap, line: &str) -> Option<bool> {
    if line.starts_with('#') {
        return Some(true);
    }
    if let Some(row) = line.strip_prefix("then ") {
        return comes_to::<M>(alloc, heap, row_of(row)?);
    }
    if let Some(room) = line.strip_prefix("room ") {
        *heap = heap_of(alloc, objects, room.parse::<u64>().ok()?)?;
        return Some(true);
    }
    holds_alone::<M>(alloc, objects, row_of(line)?)
}

/// The number of the first line, from 1, that does not hold or cannot be read; 0 where there is none.
pub fn first_wrong<M: Members>(alloc: Global, objects: &str, rows: &str) -> usize {
    let mut heap = Heap::new(alloc, 0, Seed::of(b"test"));
    let mut place = 0usize;
    for line in rows.lines() {
        place = place.saturating_add(1);
        if holds::<M>(alloc, objects, &mut heap, line) != Some(true) {
            return place;
        }
    }
    0
}
