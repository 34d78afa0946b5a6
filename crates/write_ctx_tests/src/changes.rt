//! Changes of a heap, by their texts.
use object_heap::Heap;
use object_values::{Object, UText, Value};
use pl_types::classes::ARITHMETIC_EXCEPTION;
use std::alloc::Global;

/// The value of a word: `null`, `true`, a text in quotes, an object by its number behind `#`, or an int.
fn value_of(alloc: Global, word: &str) -> Option<Value> {
    if let Some(id) = word.strip_prefix('#') {
        return Some(Value::Ref(id.parse::<u32>().ok()?));
    }
    if let Some(text) = word.strip_prefix('\'') {
        let text = text.strip_suffix('\'')?;
        return Some(Value::Str(UText::from_utf8(alloc, text).ok()?));
    }
    match word {
        "null" => Some(Value::Null),
        "true" => Some(Value::Bool(true)),
        "c" => Some(Value::Char(99)),
        _ => Some(Value::Int(word.parse::<i32>().ok()?)),
    }
}

/// Makes a change of the object of a number: `'key' 7` puts a value under a key, and `'key' -` takes a key out.
fn change_object(heap: &mut Heap, id: u32, change: &str) -> Option<()> {
    let alloc = heap.alloc();
    let (key, value) = change.split_once(' ')?;
    let key = value_of(alloc, key)?;
    if value == "-" {
        drop(heap.map_cut(id, &key));
        return Some(());
    }
    let value = value_of(alloc, value)?;
    drop(heap.map_put(id, key, value).ok()?);
    Some(())
}

/// Makes a change: the number of an object and what is done with it, or `exception`, which is a new object.
fn make_change(heap: &mut Heap, change: &str) -> Option<()> {
    if change == "exception" {
        heap.place(Object::Exc {
            class: ARITHMETIC_EXCEPTION,
            message: None,
        })
        .ok()?;
        return Some(());
    }
    let (id, change) = change.split_once(' ')?;
    change_object(heap, id.parse::<u32>().ok()?, change)
}

/// Makes changes one after another, with `;` between them.
pub fn make_changes(heap: &mut Heap, changes: &str) -> Option<()> {
    for change in changes.split(';') {
        if !change.is_empty() {
            make_change(heap, change)?;
        }
    }
    Some(())
}
