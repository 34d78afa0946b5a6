//! Rows of what is thrown.
use crate::sample::{Row, heap, value};
use def_resolve::{
    Purpose, throw_beyond, throw_gone, throw_no_accessor, throw_no_index, throw_no_method,
    throw_unfit,
};
use object_heap::{Answer, Heap};
use pl_types::classes::{
    ILLEGAL_ARGUMENT_EXCEPTION, ILLEGAL_STATE_EXCEPTION, INDEX_OUT_OF_BOUNDS_EXCEPTION,
    NULL_POINTER_EXCEPTION,
};
use pl_units::UText;
use std::alloc::{AllocError, Global};
use std::test::Fail;

/// What is looked for in vain.
#[derive(Clone, Copy)]
enum Call {
    Method(&'static str, u32),
    Read(&'static str),
    Write(&'static str),
    ReadIndex,
    WriteIndex,
    /// A place of the list 0 that no int reaches.
    Far(&'static str),
    Fit,
    Gone,
}

/// An IllegalArgumentException with a message, if it is not empty, else a NullPointerException without one.
const MESSAGES: [(Call, Row, &str); 39] = [
    (
        Call::Method("add", 3),
        Row::Object(0),
        "dynamic method [java.util.ArrayList, add/3] not found",
    ),
    (
        Call::Method("nope", 1),
        Row::Word("a"),
        "dynamic method [java.lang.String, nope/1] not found",
    ),
    (
        Call::Method("nope", 0),
        Row::Flag(true),
        "dynamic method [java.lang.Boolean, nope/0] not found",
    ),
    (
        Call::Method("nope", 0),
        Row::Byte(1),
        "dynamic method [java.lang.Byte, nope/0] not found",
    ),
    (
        Call::Method("nope", 0),
        Row::Short(1),
        "dynamic method [java.lang.Short, nope/0] not found",
    ),
    (
        Call::Method("nope", 0),
        Row::Char(65),
        "dynamic method [java.lang.Character, nope/0] not found",
    ),
    (
        Call::Method("nope", 0),
        Row::Int(1),
        "dynamic method [java.lang.Integer, nope/0] not found",
    ),
    (
        Call::Method("nope", 4_294_967_295),
        Row::Long(1),
        "dynamic method [java.lang.Long, nope/4294967295] not found",
    ),
    (
        Call::Method("size", 0),
        Row::Object(3),
        "dynamic method [int[], size/0] not found",
    ),
    (
        Call::Method("size", 0),
        Row::Object(4),
        "dynamic method [String[], size/0] not found",
    ),
    (
        Call::Method("size", 0),
        Row::Object(5),
        "dynamic method [int[][], size/0] not found",
    ),
    (
        Call::Method("nope", 0),
        Row::Object(6),
        "dynamic method [org.elasticsearch.index.fielddata.ScriptDocValues, nope/0] not found",
    ),
    (
        Call::Method("get", 1),
        Row::Object(7),
        "dynamic method [java.util.Set, get/1] not found",
    ),
    (
        Call::Method("get", 1),
        Row::Object(8),
        "dynamic method [java.util.Collection, get/1] not found",
    ),
    (
        Call::Method("nope", 0),
        Row::Object(10),
        "dynamic method [java.util.Map$Entry, nope/0] not found",
    ),
    (
        Call::Method("nope", 0),
        Row::Object(11),
        "dynamic method [java.util.Iterator, nope/0] not found",
    ),
    (
        Call::Method("apply", 1),
        Row::Object(13),
        "dynamic method [lambda, apply/1] not found",
    ),
    (
        Call::Method("apply", 2),
        Row::Object(14),
        "dynamic method [java.util.function.Function, apply/2] not found",
    ),
    (
        Call::Method("é𝄞", 0),
        Row::Object(12),
        "dynamic method [java.lang.StringBuilder, é𝄞/0] not found",
    ),
    (Call::Method("size", 0), Row::Null, ""),
    (
        Call::Read("_x"),
        Row::Object(10),
        "dynamic getter [java.util.Map$Entry, _x] not found",
    ),
    (
        Call::Read("9"),
        Row::Word("a"),
        "dynamic getter [java.lang.String, 9] not found",
    ),
    (
        Call::Read("0"),
        Row::Object(3),
        "dynamic getter [int[], 0] not found",
    ),
    (
        Call::Read("x"),
        Row::Object(13),
        "dynamic getter [lambda, x] not found",
    ),
    (
        Call::Read("𝄞"),
        Row::Object(2),
        "dynamic getter [java.util.HashSet, 𝄞] not found",
    ),
    (Call::Read("x"), Row::Null, ""),
    (
        Call::Write("length"),
        Row::Object(4),
        "dynamic setter [String[], length] not found",
    ),
    (
        Call::Write("k"),
        Row::Object(1),
        "dynamic setter [java.util.HashMap, k] not found",
    ),
    (Call::Write("x"), Row::Null, ""),
    (Call::ReadIndex, Row::Object(2), "not a list, map or array"),
    (
        Call::ReadIndex,
        Row::Word("abc"),
        "not a list, map or array",
    ),
    (
        Call::WriteIndex,
        Row::Object(14),
        "not a list, map or array",
    ),
    (
        Call::ReadIndex,
        Row::Object(0),
        "dynamic method [java.util.ArrayList, get/1] not found",
    ),
    (
        Call::WriteIndex,
        Row::Object(0),
        "dynamic method [java.util.ArrayList, set/2] not found",
    ),
    (
        Call::ReadIndex,
        Row::Object(1),
        "dynamic method [java.util.HashMap, get/1] not found",
    ),
    (
        Call::WriteIndex,
        Row::Object(1),
        "dynamic method [java.util.HashMap, put/2] not found",
    ),
    (Call::ReadIndex, Row::Null, ""),
    (Call::WriteIndex, Row::Null, ""),
    (Call::Fit, Row::Object(13), "function does not fit"),
];

fn seek(heap: &mut Heap, call: Call, receiver: Row) -> Result<Answer, AllocError> {
    let receiver = value(heap.alloc(), receiver)?;
    let answer = match call {
        Call::Method(name, arity) => throw_no_method(heap, &receiver, name, arity),
        Call::Read(name) => throw_no_accessor(heap, &receiver, name, Purpose::Read),
        Call::Write(name) => throw_no_accessor(heap, &receiver, name, Purpose::Write),
        Call::ReadIndex => throw_no_index(heap, &receiver, Purpose::Read),
        Call::WriteIndex => throw_no_index(heap, &receiver, Purpose::Write),
        Call::Far(name) => throw_beyond(heap, 0, name),
        Call::Fit => throw_unfit(heap),
        Call::Gone => throw_gone(heap),
    };
    Ok(answer)
}

fn says(message: Option<&UText>, wanted: &str) -> Result<bool, AllocError> {
    match message {
        None => Ok(wanted.is_empty()),
        Some(message) => {
            let text = message.to_utf8()?;
            Ok(text.as_str() == wanted)
        }
    }
}

// An exception costs its units and 1.
fn is_paid(heap: &Heap, message: &str) -> Result<bool, AllocError> {
    let text = UText::from_utf8(heap.alloc(), message)?;
    let cost = text.units().len() as u64;
    Ok(1_000 - heap.room_left().min(1_000) == cost.saturating_add(1))
}

fn throws(
    alloc: Global,
    what: Call,
    receiver: Row,
    class: u32,
    message: &str,
) -> Result<bool, AllocError> {
    let mut heap = heap(alloc, 1_000)?;
    match seek(&mut heap, what, receiver)? {
        Answer::Thrown(id) => {
            let told = says(heap.message(id), message)?;
            let paid = is_paid(&heap, message)?;
            Ok(id == 17 && heap.class(id) == Some(class) && told && paid)
        }
        _ => Ok(false),
    }
}

fn class_of(message: &str) -> u32 {
    if message.is_empty() {
        NULL_POINTER_EXCEPTION
    } else {
        ILLEGAL_ARGUMENT_EXCEPTION
    }
}

#[test]
fn nothing_found_throws(rt: HostRuntime) -> Result<(), Fail> {
    let mut at = 0u32;
    for (what, receiver, message) in &MESSAGES {
        let holds = throws(rt.alloc(), *what, *receiver, class_of(*message), *message)?;
        assert!(rt; holds, "{at}");
        at = at.wrapping_add(1);
    }
    Ok(())
}

const OTHERS: [(Call, u32, &str); 2] = [
    (
        Call::Far("2147483648"),
        INDEX_OUT_OF_BOUNDS_EXCEPTION,
        "Index 2147483648 out of bounds for length 2",
    ),
    (Call::Gone, ILLEGAL_STATE_EXCEPTION, "function is gone"),
];

#[test]
fn places_and_functions_throw(rt: HostRuntime) -> Result<(), Fail> {
    for (what, class, message) in &OTHERS {
        let holds = throws(rt.alloc(), *what, Row::Null, *class, *message)?;
        assert!(rt; holds, "{message}");
    }
    Ok(())
}

fn lacks_room(alloc: Global, what: Call, room: u64) -> Result<bool, AllocError> {
    let mut heap = heap(alloc, room)?;
    match seek(&mut heap, what, Row::Object(0))? {
        Answer::Room => Ok(heap.room_left() == room && heap.len() == 17),
        _ => Ok(false),
    }
}

#[test]
fn what_is_thrown_is_paid(rt: HostRuntime) -> Result<(), Fail> {
    for (what, room) in [
        (Call::Fit, 21),
        (Call::Gone, 16),
        (Call::ReadIndex, 53),
        (Call::Far("2147483648"), 43),
    ] {
        let holds = lacks_room(rt.alloc(), what, room)?;
        assert!(rt; holds, "{room}");
    }
    Ok(())
}
