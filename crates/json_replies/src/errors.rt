//! Thrown errors and limits as JSON.

ghost use Rattle.std.specs.Prelude.{◌≡◌, IfOk, Some};
ghost use Rattle.std.specs.Option.{option_copied};
ghost use Rattle.serde_json.specs.View.{view};
ghost use Rattle.json_replies.specs.Replies.{class_name, limit_kind, message_json, thrown_as, thrown_reply};

use crate::results::text_json;
use object_heap::{Heap, Which};
use pl_types::class_short;
use pl_types::classes::CLASS_COUNT;
use pl_units::UText;
use serde_json::{Value as Json, json};
use std::alloc::{AllocError, Global};

fn short_name(class: u32) -> &'static str
    ensures { result.now ≡ class_name (Some class) }
{
    if class < CLASS_COUNT {
        class_short(class)
    } else {
        ""
    }
}

/// The short name of a class.
fn class_name(class: Option<u32>) -> &'static str
    ensures { result.now ≡ class_name class }
{
    match class {
        Some(class) => short_name(class),
        None => "",
    }
}

/// The JSON of a message.
fn message_json(message: Option<&UText>) -> Result<Json, AllocError>
    ensures { IfOk result (λ json. view json ≡ message_json (option_copied message.entry)) }
{
    match message {
        None => Ok(Json::Null),
        Some(text) => text_json(text),
    }
}

/// The reply to a script that throws an exception of a class with a message.
fn thrown_as(alloc: Global, class: Option<u32>, message: Option<&UText>) -> Result<Json, AllocError>
    ensures { IfOk result (λ reply. view reply ≡ thrown_as class (option_copied message.entry)) }
{
    let name = class_name(class);
    let message = message_json(message)?;
    json!(in alloc; {"error": {"class": name, "kind": "thrown", "message": message}})
}

/// The reply to a script that throws the exception of this number.
pub fn thrown_reply(alloc: Global, heap: &Heap, id: u32) -> Result<Json, AllocError>
    ensures { IfOk result (λ reply. view reply ≡ thrown_reply heap.now.objects id) }
{
    thrown_as(alloc, heap.class(id), heap.message(id))
}

/// The kind of a limit that a script passes.
pub fn limit_kind(which: Which) -> &'static str
    ensures { result.now ≡ limit_kind which }
{
    match which {
        Which::Loop => "limit-loop",
        Which::Depth => "limit-depth",
        Which::Ticks => "limit-ticks",
        Which::Room => "limit-room",
    }
}
