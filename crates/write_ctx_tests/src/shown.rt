//! Heaps and starts as texts.
use object_values::{Elements, Guard, Object, Pairs, UText, Value};
use std::alloc::{AllocError, Global};
use write_ctx::Bound;

/// Writes a value: a long as it is and an int with `i`, a text in quotes, an object by its number.
fn push_value(alloc: Global, out: &mut String, value: &Value) -> Result<(), AllocError> {
    let text = match value {
        Value::Null => format!(in alloc; "null")?,
        Value::Bool(true) => format!(in alloc; "true")?,
        Value::Bool(false) => format!(in alloc; "false")?,
        Value::Int(number) => format!(in alloc; "{number}i")?,
        Value::Long(number) => format!(in alloc; "{number}")?,
        Value::Str(text) => {
            let text = text.to_utf8()?;
            format!(in alloc; "'{text}'")?
        }
        Value::Ref(id) => format!(in alloc; "#{id}")?,
        _ => format!(in alloc; "?")?,
    };
    out.push_str(text.as_str())
}

/// Writes values, a space behind each.
fn push_values(alloc: Global, out: &mut String, values: &[Value]) -> Result<(), AllocError> {
    for value in values {
        push_value(alloc, out, value)?;
        out.push_str(" ")?;
    }
    Ok(())
}

/// Writes the pairs of a map.
fn push_pairs(alloc: Global, out: &mut String, pairs: &Pairs) -> Result<(), AllocError> {
    for at in 0..pairs.len() {
        if let (Some(key), Some(value)) = (pairs.key_at(at), pairs.value_at(at)) {
            push_value(alloc, out, key)?;
            out.push_str("=")?;
            push_value(alloc, out, value)?;
            out.push_str(" ")?;
        }
    }
    Ok(())
}

/// Writes keys that may be put, a comma behind each.
fn push_keys(out: &mut String, keys: &[UText]) -> Result<(), AllocError> {
    for key in keys {
        let key = key.to_utf8()?;
        out.push_str(key.as_str())?;
        out.push_str(",")?;
    }
    Ok(())
}

/// Writes what guards an object: `!` stands for nothing that changes it.
fn push_guard(out: &mut String, guard: &Guard) -> Result<(), AllocError> {
    match guard {
        Guard::Open => Ok(()),
        Guard::Frozen => out.push_str("!"),
        Guard::Keys(keys) => push_keys(out, keys.get().as_slice()),
        Guard::Mapped => out.push_str("m"),
    }
}

/// Writes a list.
fn push_list(
    alloc: Global,
    out: &mut String,
    items: &Elements<Value>,
    guard: &Guard,
) -> Result<(), AllocError> {
    out.push_str("[ ")?;
    push_values(alloc, out, items.as_slice())?;
    out.push_str("]")?;
    push_guard(out, guard)
}

/// Writes a map.
fn push_map(
    alloc: Global,
    out: &mut String,
    pairs: &Pairs,
    guard: &Guard,
) -> Result<(), AllocError> {
    out.push_str("{ ")?;
    push_pairs(alloc, out, pairs)?;
    out.push_str("}")?;
    push_guard(out, guard)
}

/// Writes an object.
fn push_object(alloc: Global, out: &mut String, object: &Object) -> Result<(), AllocError> {
    match object {
        Object::List { items, guard, .. } => push_list(alloc, out, items, guard),
        Object::Map { pairs, guard, .. } => push_map(alloc, out, pairs, guard),
        _ => out.push_str("?"),
    }
}

/// Each object of a start in its order, and then its arguments.
pub fn start_shown(alloc: Global, start: &Bound) -> Result<String, AllocError> {
    let mut out = String::new(alloc);
    for id in 0..100_u32 {
        if let Some(object) = start.heap.get(id) {
            push_object(alloc, &mut out, object)?;
            out.push_str(" ")?;
        }
    }
    out.push_str("| ")?;
    push_values(alloc, &mut out, start.args.as_slice())?;
    Ok(out)
}
