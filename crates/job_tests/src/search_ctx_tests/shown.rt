//! Heaps and starts as texts.
use crate::written::Written;
use object_heap::Heap;
use object_values::{Elements, Guard, Object, Pairs, Value};
use pl_types::classes::SCRIPT_DOC_VALUES;
use search_ctx::Bound;
use std::alloc::Global;

/// Writes values, a space behind each.
fn push_values(out: &mut Written, values: &[Value]) {
    for value in values {
        out.push_value(value, "");
        out.push(" ");
    }
}

/// Writes the pairs of a map.
fn push_pairs(out: &mut Written, pairs: &Pairs) {
    for at in 0..pairs.len() {
        if let (Some(key), Some(value)) = (pairs.key_at(at), pairs.value_at(at)) {
            out.push_value(key, "");
            out.push("=");
            out.push_value(value, "");
            out.push(" ");
        }
    }
}

/// Writes a list, with `d` behind one of doc values.
fn push_list(out: &mut Written, class: u32, items: &Elements<Value>, guard: &Guard) {
    out.push("[ ");
    push_values(out, items.as_slice());
    out.push(if class == SCRIPT_DOC_VALUES {
        "]d"
    } else {
        "]"
    });
    out.push_guard(guard)
}

/// Writes an object.
fn push_object(out: &mut Written, object: &Object) {
    match object {
        Object::List {
            class,
            items,
            guard,
            ..
        } => push_list(out, *class, items, guard),
        Object::Map { pairs, guard, .. } => {
            out.push("{ ");
            push_pairs(out, pairs);
            out.push("}");
            out.push_guard(guard)
        }
        _ => out.push("?"),
    }
}

/// Writes the doc values in a heap, a list for each field.
fn push_lists(out: &mut Written, heap: &Heap) {
    for id in 0..4_000u32 {
        if let Some(
            Object::List {
                class: SCRIPT_DOC_VALUES,
                items,
                ..
            },
        ) = heap.get(id)
        {
            out.push("[ ");
            push_values(out, items.as_slice());
            out.push("]");
        }
    }
}

/// Whether the doc values in a heap are those.
pub fn has_lists(alloc: Global, heap: &Heap, wanted: &str) -> bool {
    let mut out = Written::new(alloc);
    push_lists(&mut out, heap);
    out.is(wanted)
}

/// Writes each object of a heap in its order.
fn push_objects(out: &mut Written, heap: &Heap) {
    for id in 0..4_000u32 {
        if let Some(object) = heap.get(id) {
            push_object(out, object);
            out.push(" ");
        }
    }
}

/// Whether a start is that: each object in its order, and then its arguments.
pub fn is_start(alloc: Global, start: &Bound, wanted: &str) -> bool {
    let mut out = Written::new(alloc);
    push_objects(&mut out, &start.heap);
    out.push("| ");
    push_values(&mut out, start.args.as_slice());
    out.is(wanted)
}
