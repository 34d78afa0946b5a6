//! Heaps as texts.
use crate::written::Written;
use object_heap::Heap;
use object_values::{Object, Pairs, Value};
use pl_types::classes::{ARRAY_LIST, HASH_MAP};
use std::alloc::Global;

/// Writes a value, a long with `L`.
fn push_value(out: &mut Written, value: &Value) {
    out.push_value(value, "L")
}

/// Writes items in brackets.
fn push_items(out: &mut Written, items: &[Value]) {
    out.push("[");
    for item in items {
        push_value(out, item);
        out.push(",");
    }
    out.push("]")
}

/// Writes the pairs of a map in braces.
fn push_pairs(out: &mut Written, pairs: &Pairs) {
    out.push("{");
    for at in 0..pairs.len() {
        if let (Some(key), Some(value)) = (pairs.key_at(at), pairs.value_at(at)) {
            push_value(out, key);
            out.push("=");
            push_value(out, value);
            out.push(",");
        }
    }
    out.push("}")
}

/// Writes an object, an ArrayList or a HashMap.
fn push_object(out: &mut Written, object: &Object) {
    match object {
        Object::List {
            class: ARRAY_LIST,
            items,
            guard,
            ..
        } => {
            push_items(out, items.as_slice());
            out.push_guard(guard)
        }
        Object::Map {
            class: HASH_MAP,
            pairs,
            guard,
            ..
        } => {
            push_pairs(out, pairs);
            out.push_guard(guard)
        }
        _ => out.push("?"),
    }
}

/// Writes each object of a heap in its order.
fn push_objects(out: &mut Written, heap: &Heap) {
    for id in 0..heap.len() {
        if let Ok(id) = u32::try_from(id)
            && let Some(object) = heap.get(id)
        {
            push_object(out, object);
            out.push(" ");
        }
    }
}

/// Whether this is what a heap and a value are written as.
pub fn is_shown(alloc: Global, heap: &Heap, value: &Value, wanted: &str) -> bool {
    let mut out = Written::new(alloc);
    push_objects(&mut out, heap);
    push_value(&mut out, value);
    out.is(wanted)
}
