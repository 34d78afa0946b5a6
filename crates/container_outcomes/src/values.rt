//! Values that are given and copied.
ghost use Rattle.std.specs.Prelude.{◌≡◌, true, IfNone, IfOk, IfSome};
ghost use Rattle.container_outcomes.specs.declared.outcome.Outcome.{Outcome};
ghost use Rattle.container_outcomes.specs.Outcomes.{Tells, is_text};

use crate::outcome::Outcome;
use object_values::{Elements, Value};
use pl_units::UText;
use std::alloc::{AllocError, Global};

fn text_shared(text: &UText) -> Option<Value>
    ensures { IfSome result (λ copy. copy ≡ Value.Str text.now) }
{
    match text.share() {
        Ok(text) => Some(Value::Str(text)),
        Err(_) => None,
    }
}

/// The same value once more. It takes memory for a text alone, and is none where there is no memory.
pub fn shared(value: &Value) -> Option<Value>
    ensures none { IfNone result (is_text value.now ≡ true) }
    ensures some { IfSome result (λ copy. copy ≡ value.now) }
{
    match value {
        Value::Null => Some(Value::Null),
        Value::Bool(flag) => Some(Value::Bool(*flag)),
        Value::Byte(number) => Some(Value::Byte(*number)),
        Value::Short(number) => Some(Value::Short(*number)),
        Value::Char(unit) => Some(Value::Char(*unit)),
        Value::Int(number) => Some(Value::Int(*number)),
        Value::Long(number) => Some(Value::Long(*number)),
        Value::Str(text) => text_shared(text),
        Value::Ref(id) => Some(Value::Ref(*id)),
    }
}

/// A value that is there already.
pub fn given(value: &Value) -> Outcome
    ensures { Tells (Outcome.Gives value.now) result }
{
    match shared(value) {
        Some(value) => Outcome::Gives(value),
        None => Outcome::NoMemory,
    }
}

/// The same values once more. Of a text no unit is copied.
pub fn copied(alloc: Global, values: &[Value]) -> Result<Elements<Value>, AllocError>
    ensures { IfOk result (λ copy. copy ≡ values.now) }
{
    let mut copy = Elements::new(alloc);
    for at in 0..values.len() {
        let value = values[at].share()?;
        copy.push(value)?;
    }
    Ok(copy)
}
