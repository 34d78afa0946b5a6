//! Values as rows write them.
use object_heap::{Answer, Heap};
use object_values::{Elements, Guard, Object, Seed, Value};
use pl_types::classes::{
    ARITHMETIC_EXCEPTION, ARRAY_LIST, CLASS_CAST_EXCEPTION, ILLEGAL_STATE_EXCEPTION,
    NULL_POINTER_EXCEPTION, NUMBER_FORMAT_EXCEPTION,
};
use pl_types::{Primitive, Ty};
use pl_units::UText;
use std::alloc::{AllocError, Global};

/// A value: null, a truth value, a box, a text, or an object of the heap of [`sample`].
#[derive(Clone, Copy)]
pub enum Row {
    Null,
    Flag(bool),
    Byte(i8),
    Short(i16),
    Char(u16),
    Int(i32),
    Long(i64),
    Word(&'static str),
    /// 0 is an empty list, 1 an array of ints, 2 a list that holds itself.
    Object(u32),
    /// The class of what is thrown: `a` ArithmeticException, `c` ClassCastException, `s` IllegalStateException, `n`
    /// NullPointerException, `f` NumberFormatException; and the message, if it is not empty.
    Throws(char, &'static str),
}

/// The value of a row.
pub fn value(alloc: Global, row: Row) -> Result<Value, AllocError> {
    match row {
        Row::Null => Ok(Value::Null),
        Row::Flag(flag) => Ok(Value::Bool(flag)),
        Row::Byte(number) => Ok(Value::Byte(number)),
        Row::Short(number) => Ok(Value::Short(number)),
        Row::Char(unit) => Ok(Value::Char(unit)),
        Row::Int(number) => Ok(Value::Int(number)),
        Row::Long(number) => Ok(Value::Long(number)),
        Row::Word(text) => Ok(Value::Str(UText::from_utf8(alloc, text)?)),
        Row::Object(id) => Ok(Value::Ref(id)),
        Row::Throws(_, _) => Ok(Value::Null),
    }
}

fn list(alloc: Global, items: Elements<Value>) -> Object {
    let _ = alloc;
    Object::List {
        class: ARRAY_LIST,
        items,
        guard: Guard::Open,
        changes: 0,
    }
}

/// A heap with the objects that rows name.
pub fn sample(alloc: Global) -> Result<Heap, AllocError> {
    let mut heap = Heap::new(alloc, 1_000, Seed::of(b"test"));
    heap.place(list(alloc, Elements::new(alloc)))?;
    heap.place(Object::Array {
        elem: Ty::Prim(Primitive::Int),
        items: Elements::new(alloc),
    })?;
    let mut items = Elements::new(alloc);
    items.push(Value::Ref(2))?;
    heap.place(list(alloc, items))?;
    Ok(heap)
}

fn class_of(letter: char) -> u32 {
    match letter {
        'a' => ARITHMETIC_EXCEPTION,
        'c' => CLASS_CAST_EXCEPTION,
        's' => ILLEGAL_STATE_EXCEPTION,
        'n' => NULL_POINTER_EXCEPTION,
        _ => NUMBER_FORMAT_EXCEPTION,
    }
}

fn says(message: Option<&UText>, wanted: &str) -> Result<bool, AllocError> {
    match message {
        None => Ok(wanted.is_empty()),
        Some(message) => {
            let text = message.to_utf8()?;
            Ok(text.as_str() == wanted)
        }
    }
}

fn throws(heap: &Heap, id: u32, letter: char, wanted: &str) -> Result<bool, AllocError> {
    let told = says(heap.message(id), wanted)?;
    let made = id == 3 && heap.class(id) == Some(class_of(letter));
    Ok(told && made)
}

// The room that an answer leaves: a text costs its units and 1, and an exception the units of its message and 1.
fn charge(row: Row, makes: bool) -> u64 {
    match row {
        Row::Word(text) if makes => text.len() as u64 + 1,
        Row::Throws(_, message) => message.len() as u64 + 1,
        _ => 0,
    }
}

/// Whether a call gave what the row says, and charged for it.
pub fn gave(heap: &Heap, answer: &Answer, wanted: Row, makes: bool) -> Result<bool, AllocError> {
    let paid = 1_000 - heap.room_left().min(1_000) == charge(wanted, makes);
    let told = match (answer, wanted) {
        (Answer::Thrown(id), Row::Throws(letter, message)) => throws(heap, *id, letter, message)?,
        (Answer::Value(_), Row::Throws(_, _)) => false,
        (Answer::Value(found), row) => *found == value(heap.alloc(), row)?,
        _ => false,
    };
    Ok(paid && told)
}
