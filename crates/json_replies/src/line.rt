//! Lines of JSON.

ghost use Rattle.std.specs.Prelude.{◌≡◌, false, string_bytes, IfOk};
ghost use Rattle.serde_json.specs.Written.{has_float};
ghost use Rattle.serde_json.specs.View.{view};
ghost use Rattle.json_replies.specs.Replies.{is_error, line_of, refusal_of, reply_of};

use crate::plain::{flag_line, whole_line};
use crate::refusals::refusal_of;
use crate::replies::reply_of;
use object_heap::{End, Heap};
use object_values::Value;
use pl_types::Refusal;
use serde_json::Value as Json;
use std::alloc::{AllocError, Global};

/// A line to write.
#[derive(Drop)]
pub struct Line {
    pub text: String,
    /// Whether it is an error reply.
    pub is_error: bool,
}

/// The line of some JSON without floats: its compact text with a newline behind it.
pub fn line_of(alloc: Global, json: &Json) -> Result<String, AllocError>
    ensures { has_float (view json.now) ≡ false → IfOk result (λ line. string_bytes line ≡ line_of (view json.now)) }
{
    let mut line = json.to_string(alloc)?;
    line.push_str("\n")?;
    Ok(line)
}

/// The line of a reply without floats.
pub(crate) fn line_of_reply(alloc: Global, json: &Json) -> Result<Line, AllocError>
    ensures text { has_float (view json.now) ≡ false → IfOk result (λ line. string_bytes line.text ≡ line_of (view json.now)) }
    ensures error { IfOk result (λ line. line.is_error ≡ is_error (view json.now)) }
{
    let text = line_of(alloc, json)?;
    let is_error = json.get("error").is_some();
    Ok(Line { text, is_error })
}

/// The reply line of a run that ended so over a heap, by way of a tree.
fn written_reply(alloc: Global, end: &End, heap: &Heap) -> Result<Line, AllocError>
    ensures text { IfOk result (λ line. string_bytes line.text ≡ line_of (reply_of end.now heap.now.objects)) }
    ensures error { IfOk result (λ line. line.is_error ≡ is_error (reply_of end.now heap.now.objects)) }
{
    let json = reply_of(alloc, end, heap)?;
    line_of_reply(alloc, &json)
}

/// The reply line of a run that ended so over a heap. Of a truth value and a whole number no tree is made.
#[tactic(auto, using(crate::proofs::Texts::flag_given, crate::proofs::Texts::int_given, crate::proofs::Texts::long_given))]
pub fn reply_line(alloc: Global, end: &End, heap: &Heap) -> Result<Line, AllocError>
    ensures text { IfOk result (λ line. string_bytes line.text ≡ line_of (reply_of end.now heap.now.objects)) }
    ensures error { IfOk result (λ line. line.is_error ≡ is_error (reply_of end.now heap.now.objects)) }
{
    match end {
        End::Value(Value::Bool(flag)) => flag_line(alloc, *flag),
        End::Value(Value::Int(number)) => whole_line(alloc, i64::from(*number)),
        End::Value(Value::Long(number)) => whole_line(alloc, *number),
        _ => written_reply(alloc, end, heap),
    }
}

/// The line of a script that is refused.
pub fn refusal_line(alloc: Global, refusal: Refusal) -> Result<String, AllocError>
    ensures { IfOk result (λ line. string_bytes line ≡ line_of (refusal_of refusal)) }
{
    let json = refusal_of(alloc, refusal)?;
    line_of(alloc, &json)
}
