//! What a run over a document comes to as a line of JSON.

ghost use Rattle.std.specs.Prelude.{◌≡◌, codes, string_bytes, IfOk};
ghost use Rattle.json_replies.specs.Replies.{is_error, kind_reply, line_of};
ghost use Rattle.json_replies.specs.Searching.{gives_below_zero, is_below_zero, is_negative_score, search_reply_of};

use crate::line::{Line, line_of_reply, reply_line};
use crate::results::kind_reply;
use object_heap::{End, Heap};
use object_values::Value;
use search_ctx::SearchKind;
use std::alloc::{AllocError, Global};

fn is_below_zero(value: &Value) -> bool
    ensures { result ≡ is_below_zero value.now }
{
    match value {
        Value::Long(number) => *number < 0,
        _ => false,
    }
}

fn gives_below_zero(end: &End) -> bool
    ensures { result ≡ gives_below_zero end.now }
{
    match end {
        End::Value(value) => is_below_zero(value),
        End::Thrown { .. } => false,
        End::Limit { .. } => false,
    }
}

pub(crate) fn is_negative_score(kind: SearchKind, end: &End) -> bool
    ensures { result ≡ is_negative_score kind end.now }
{
    match kind {
        SearchKind::Score => gives_below_zero(end),
        SearchKind::Filter => false,
        SearchKind::Field => false,
    }
}

/// The line of a score below 0.
fn negative_line(alloc: Global) -> Result<Line, AllocError>
    ensures text { IfOk result (λ line. string_bytes line.text ≡ line_of (kind_reply (codes "negative-score"))) }
    ensures error { IfOk result (λ line. line.is_error ≡ is_error (kind_reply (codes "negative-score"))) }
{
    let json = kind_reply(alloc, "negative-score")?;
    line_of_reply(alloc, &json)
}

/// The reply line of a run over a document that ended so over a heap: that of a script, but that a score below 0 is the error
/// `negative-score`.
pub fn search_reply_line(
    alloc: Global,
    kind: SearchKind,
    end: &End,
    heap: &Heap,
) -> Result<Line, AllocError>
    ensures text { IfOk result (λ line. string_bytes line.text ≡ line_of (search_reply_of kind end.now heap.now.objects)) }
    ensures error { IfOk result (λ line. line.is_error ≡ is_error (search_reply_of kind end.now heap.now.objects)) }
{
    if is_negative_score(kind, end) {
        negative_line(alloc)
    } else {
        reply_line(alloc, end, heap)
    }
}
