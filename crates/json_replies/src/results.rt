//! Results as JSON.

ghost use Rattle.std.specs.Prelude.{◌≡◌, codes, IfOk};
ghost use Rattle.pl_units.specs.Utf16.{bytes};
ghost use Rattle.serde_json.specs.Data.{string};
ghost use Rattle.serde_json.specs.View.{view};
ghost use Rattle.json_bridge.specs.Giving.{given_of};
ghost use Rattle.json_replies.specs.Replies.{kind_reply, only, result_reply};

use json_bridge::{GiveErr, give};
use object_heap::Heap;
use object_values::Value;
use pl_units::UText;
use serde_json::{Value as Json, json};
use std::alloc::{AllocError, Global};

/// The JSON of a text.
pub fn text_json(text: &UText) -> Result<Json, AllocError>
    ensures { IfOk result (λ json. view json ≡ string (bytes text.now)) }
{
    Ok(Json::String(text.to_utf8()?))
}

/// An error that is told by its kind.
pub fn kind_reply(alloc: Global, kind: &str) -> Result<Json, AllocError>
    ensures { IfOk result (λ json. view json ≡ kind_reply kind.now) }
{
    json!(in alloc; {"error": {"kind": kind}})
}

/// A result that has this JSON.
fn given(alloc: Global, json: Json) -> Result<Json, AllocError>
    ensures { IfOk result (λ reply. view reply ≡ only (codes "result") (view json)) }
{
    json!(in alloc; {"result": json})
}

/// The reply to a script that gives a value: its JSON form, or the kind of its first fault.
pub fn result_reply(alloc: Global, heap: &Heap, value: &Value) -> Result<Json, AllocError>
    ensures { IfOk result (λ reply. view reply ≡ result_reply (given_of heap.now.objects value.now)) }
{
    match give(heap, value) {
        Ok(json) => given(alloc, json),
        Err(GiveErr::Key) => kind_reply(alloc, "result-key"),
        Err(GiveErr::Depth) => kind_reply(alloc, "result-depth"),
        Err(GiveErr::Size) => kind_reply(alloc, "result-size"),
        Err(GiveErr::Kind) => kind_reply(alloc, "result-kind"),
        Err(GiveErr::NoMemory) => Err(AllocError),
    }
}
