//! Calls of rows on a sample heap.
use super::rows::{Arg, Row, Wanted};
use api_text::call;
use object_heap::{Answer, Heap};
use object_values::{Elements, Guard, Object, Pairs, Part, Seed, Value};
use pl_types::classes::{
    ARRAY_LIST, HASH_MAP, HASH_SET, ILLEGAL_STATE_EXCEPTION, NULL_POINTER_EXCEPTION,
    RUNTIME_EXCEPTION, STRING, STRING_INDEX_OUT_OF_BOUNDS_EXCEPTION,
};
use pl_types::{Primitive, Ty};
use pl_units::UText;
use std::alloc::{AllocError, Global};

/// How many objects the sample heap has, which is the number of a new one.
pub const NEXT: u32 = 11;

fn text(alloc: Global, word: &str) -> Result<UText, AllocError> {
    UText::from_utf8(alloc, word)
}

fn list(items: Elements<Value>) -> Object {
    Object::List {
        class: ARRAY_LIST,
        items,
        guard: Guard::Open,
        changes: 0,
    }
}

// A list of a text, null and an int.
fn mixed(alloc: Global) -> Result<Object, AllocError> {
    let mut items = Elements::new(alloc);
    items.push(Value::Str(text(alloc, "a")?))?;
    items.push(Value::Null)?;
    items.push(Value::Int(1))?;
    Ok(list(items))
}

fn set(alloc: Global) -> Result<Object, AllocError> {
    let mut items = Pairs::new(alloc, Seed::of(b"test"));
    items.put(Value::Str(text(alloc, "x")?), Value::Null)?;
    items.put(Value::Str(text(alloc, "y")?), Value::Null)?;
    Ok(Object::Set {
        class: HASH_SET,
        items,
        guard: Guard::Open,
        changes: 0,
    })
}

fn map(alloc: Global) -> Result<Object, AllocError> {
    let mut pairs = Pairs::new(alloc, Seed::of(b"test"));
    pairs.put(Value::Str(text(alloc, "k")?), Value::Int(1))?;
    pairs.put(Value::Str(text(alloc, "l")?), Value::Null)?;
    Ok(Object::Map {
        class: HASH_MAP,
        pairs,
        guard: Guard::Open,
        changes: 0,
    })
}

fn place_views(heap: &mut Heap) -> Result<(), AllocError> {
    heap.place(Object::View {
        map: 4,
        part: Part::Keys,
    })?;
    heap.place(Object::View {
        map: 4,
        part: Part::Values,
    })?;
    heap.place(Object::View {
        map: 4,
        part: Part::Entries,
    })?;
    Ok(())
}

fn place_exceptions(alloc: Global, heap: &mut Heap) -> Result<(), AllocError> {
    heap.place(Object::Exc {
        class: RUNTIME_EXCEPTION,
        message: None,
    })?;
    heap.place(Object::Exc {
        class: RUNTIME_EXCEPTION,
        message: Some(text(alloc, "oh")?),
    })?;
    Ok(())
}

// 0 is a builder of `abc`, 1 a list of a text, null and an int, 2 an empty list, 3 a set, 4 a map, 5 to 7 its views, 8 an
// exception without a message, 9 one with a message, and 10 a list that holds itself.
fn sample(alloc: Global, room: u64) -> Result<Heap, AllocError> {
    let mut heap = Heap::new(alloc, room, Seed::of(b"test"));
    let mut units = Elements::new(alloc);
    units.extend(&[97, 98, 99])?;
    heap.place(Object::Builder { units })?;
    heap.place(mixed(alloc)?)?;
    heap.place(list(Elements::new(alloc)))?;
    heap.place(set(alloc)?)?;
    heap.place(map(alloc)?)?;
    place_views(&mut heap)?;
    place_exceptions(alloc, &mut heap)?;
    let mut items = Elements::new(alloc);
    items.push(Value::Ref(10))?;
    heap.place(list(items))?;
    Ok(heap)
}

fn value(alloc: Global, arg: Arg) -> Result<Value, AllocError> {
    match arg {
        Arg::Null => Ok(Value::Null),
        Arg::Int(number) => Ok(Value::Int(number)),
        Arg::Char(unit) => Ok(Value::Char(unit)),
        Arg::Word(word) => Ok(Value::Str(text(alloc, word)?)),
        Arg::Units(units) => Ok(Value::Str(UText::from_slice(alloc, units)?)),
        Arg::Object(id) => Ok(Value::Ref(id)),
    }
}

fn arguments(alloc: Global, args: &[Arg]) -> Result<Vec<Value>, AllocError> {
    let mut values = Vec::new(alloc);
    for arg in args {
        values.push(value(alloc, *arg)?)?;
    }
    Ok(values)
}

fn same_message(message: Option<&UText>, wanted: Option<&str>) -> Result<bool, AllocError> {
    match (message, wanted) {
        (None, None) => Ok(true),
        (Some(message), Some(wanted)) => {
            let told = message.to_utf8()?;
            Ok(told.as_str() == wanted)
        }
        _ => Ok(false),
    }
}

fn is_exception(
    heap: &Heap,
    id: u32,
    class: u32,
    message: Option<&str>,
) -> Result<bool, AllocError> {
    let same = same_message(heap.message(id), message)?;
    Ok(id == NEXT && heap.class(id) == Some(class) && same)
}

fn is_text(value: &Value, units: &[u16]) -> bool {
    match value {
        Value::Str(text) => text.units() == units,
        _ => false,
    }
}

fn is_word(value: &Value, word: &str) -> Result<bool, AllocError> {
    match value {
        Value::Str(text) => {
            let told = text.to_utf8()?;
            Ok(told.as_str() == word)
        }
        _ => Ok(false),
    }
}

fn are_words(items: &[Value], words: &[&str]) -> Result<bool, AllocError> {
    let mut same = items.len() == words.len();
    for (item, word) in items.iter().zip(words) {
        same = is_word(item, word)? && same;
    }
    Ok(same)
}

fn are_chars(items: &[Value], units: &[u16]) -> bool {
    let mut same = items.len() == units.len();
    for (item, unit) in items.iter().zip(units) {
        same = *item == Value::Char(*unit) && same;
    }
    same
}

fn is_array_of(heap: &Heap, value: &Value, elem: Ty) -> bool {
    match heap.elem(NEXT) {
        Some(found) => *value == Value::Ref(NEXT) && found.is(&elem),
        None => false,
    }
}

// Whether the value that a call gave is the one that is wanted.
fn given(heap: &Heap, value: &Value, wanted: Wanted) -> Result<bool, AllocError> {
    match wanted {
        Wanted::Null => Ok(*value == Value::Null),
        Wanted::Flag(flag) => Ok(*value == Value::Bool(flag)),
        Wanted::Char(unit) => Ok(*value == Value::Char(unit)),
        Wanted::Int(number) => Ok(*value == Value::Int(number)),
        Wanted::Word(word) => is_word(value, word),
        Wanted::Units(units) => Ok(is_text(value, units)),
        Wanted::Builder(units) => Ok(*value == Value::Ref(0) && heap.units(0) == units),
        Wanted::Set(units) => Ok(*value == Value::Null && heap.units(0) == units),
        Wanted::NewBuilder(units) => Ok(*value == Value::Ref(NEXT) && heap.units(NEXT) == units),
        Wanted::Texts(words) => {
            let same = are_words(heap.items(NEXT), words)?;
            Ok(same && is_array_of(heap, value, Ty::Class(STRING)))
        }
        Wanted::Chars(units) => {
            let same = are_chars(heap.items(NEXT), units);
            Ok(same && is_array_of(heap, value, Ty::Prim(Primitive::Char)))
        }
        Wanted::NewException(class, message) => {
            let same = is_exception(heap, NEXT, class, message)?;
            Ok(same && *value == Value::Ref(NEXT))
        }
        Wanted::NullPointer | Wanted::Index(_) | Wanted::State(_) => Ok(false),
    }
}

// Whether the exception that a call threw is the one that is wanted.
fn thrown(heap: &Heap, id: u32, wanted: Wanted) -> Result<bool, AllocError> {
    match wanted {
        Wanted::NullPointer => is_exception(heap, id, NULL_POINTER_EXCEPTION, None),
        Wanted::Index(message) => {
            is_exception(
                heap,
                id,
                STRING_INDEX_OUT_OF_BOUNDS_EXCEPTION,
                Some(message),
            )
        }
        Wanted::State(message) => { is_exception(heap, id, ILLEGAL_STATE_EXCEPTION, Some(message)) }
        _ => Ok(false),
    }
}

fn answered(heap: &Heap, answer: &Answer, wanted: Wanted) -> Result<bool, AllocError> {
    match answer {
        Answer::Value(value) => given(heap, value, wanted),
        Answer::Thrown(id) => thrown(heap, *id, wanted),
        Answer::Room => Ok(false),
        Answer::NoMemory => Ok(false),
    }
}

// With just the room for it a row comes to what it says.
fn comes_to(alloc: Global, row: Row) -> Result<bool, AllocError> {
    let mut heap = sample(alloc, row.3)?;
    let args = arguments(alloc, row.1)?;
    let answer = call(row.0, &mut heap, args.as_slice());
    let told = answered(&heap, &answer, row.2)?;
    Ok(told && heap.room_left() == 0)
}

fn is_room(answer: &Answer) -> bool {
    match answer {
        Answer::Room => true,
        _ => false,
    }
}

// With one less there is no room for it, and nothing is changed.
fn is_refused(alloc: Global, row: Row) -> Result<bool, AllocError> {
    if row.3 == 0 {
        return Ok(true);
    }
    let room = row.3.saturating_sub(1);
    let mut heap = sample(alloc, room)?;
    let args = arguments(alloc, row.1)?;
    let answer = call(row.0, &mut heap, args.as_slice());
    let stays = heap.room_left() == room && heap.len() == NEXT as usize;
    Ok(is_room(&answer) && stays && heap.units(0) == [97, 98, 99].as_slice())
}

/// The place of the first row that does not hold, counted from 1; 0 where all hold.
pub fn first_wrong(alloc: Global, rows: &[Row]) -> Result<usize, AllocError> {
    for (at, row) in rows.iter().enumerate() {
        let told = comes_to(alloc, *row)?;
        let refused = is_refused(alloc, *row)?;
        if !told || !refused {
            return Ok(at + 1);
        }
    }
    Ok(0)
}
