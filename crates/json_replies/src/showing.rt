//! What is shown beside a reply where a job asks for it.

ghost use Rattle.std.specs.Prelude.{◌≡◌, ◌<◌, ◌++◌, ◌∷◌, [], false, true, length, map, string_bytes, IfOk, OnOk};
ghost use Rattle.std.specs.List.{list_all};
ghost use Rattle.serde_json.specs.Data.{string};
ghost use Rattle.serde_json.specs.View.{items_view, view};
ghost use Rattle.serde_json.specs.Written.{has_float};
ghost use Rattle.allowlist.specs.Allow.{flag};
ghost use Rattle.allowlist.specs.Index.{member_in};
ghost use Rattle.member_names.specs.Names.{text_of};
ghost use Rattle.json_replies.specs.Replies.{is_error, line_of};
ghost use Rattle.json_replies.specs.Searching.{search_reply_of};
ghost use Rattle.json_replies.specs.Showing.{member_items, shown_reply, with_key, with_members, with_steps};

use crate::line::{Line, line_of_reply};
use crate::replies::reply_of;
use crate::results::kind_reply;
use crate::searching::{is_negative_score, search_reply_line};
use allowlist::Allow;
use member_names::member_text;
use object_heap::{End, Heap, Outcome};
use search_ctx::SearchKind;
use serde_json::Value as Json;
use std::alloc::{AllocError, Global};

/// What is shown beside a reply.
#[derive(Clone, Copy)]
pub struct ShownKeys {
    /// The members that were called, by their first calls.
    pub members: bool,
    /// How many instructions were run.
    pub steps: bool,
}

/// The reply to a run over a document that ended so over a heap.
fn search_reply(alloc: Global, kind: SearchKind, end: &End, heap: &Heap) -> Result<Json, AllocError>
    ensures { IfOk result (λ reply. view reply ≡ search_reply_of kind end.now heap.now.objects) }
{
    if is_negative_score(kind, end) {
        kind_reply(alloc, "negative-score")
    } else {
        reply_of(alloc, end, heap)
    }
}

/// An object with one key more; what is no object is as before.
fn with_key(alloc: Global, key: &str, value: Json, reply: Json) -> Result<Json, AllocError>
    ensures { IfOk result (λ shown. view shown ≡ with_key key.now (view value) (view reply)) }
{
    match reply {
        Json::Object(mut members) => {
            drop(members.insert(String::from_str(alloc, key)?, value)?);
            Ok(Json::Object(members))
        }
        other => Ok(other),
    }
}

/// Adds the text of a member of a list.
fn push_text(
    alloc: Global,
    allow: &Allow,
    number: u32,
    texts: &mut Vec<Json>,
) -> Result<(), AllocError>
    requires { number < length allow.now.members }
    ensures { OnOk result (map view texts.new.items ≡ map view texts.old.items ++ string (text_of (member_in allow.now number)) ∷ []) }
{
    let text = member_text(alloc, allow, number)?;
    texts.push(Json::String(text))?;
    Ok(())
}

/// The texts of members of a list, by their numbers.
fn member_texts(alloc: Global, allow: &Allow, reached: &[u32]) -> Result<Vec<Json>, AllocError>
    requires { list_all (flag allow.now.members) reached.now ≡ true }
    ensures { IfOk result (λ texts. items_view texts.items ≡ member_items allow.now reached.now) }
{
    let mut texts = Vec::new(alloc);
    for number in reached {
        push_text(alloc, allow, *number, &mut texts)?;
    }
    Ok(texts)
}

/// A reply with the members that were called, where they are shown.
fn with_members(
    alloc: Global,
    allow: &Allow,
    shown: bool,
    reached: &[u32],
    reply: Json,
) -> Result<Json, AllocError>
    requires { list_all (flag allow.now.members) reached.now ≡ true }
    ensures { IfOk result (λ json. view json ≡ with_members allow.now shown reached.now (view reply)) }
{
    if shown {
        let texts = member_texts(alloc, allow, reached)?;
        with_key(alloc, "members", Json::Array(texts), reply)
    } else {
        Ok(reply)
    }
}

/// A reply with the number of instructions that were run, where it is shown.
fn with_steps(alloc: Global, shown: bool, steps: u64, reply: Json) -> Result<Json, AllocError>
    ensures { IfOk result (λ json. view json ≡ with_steps shown steps (view reply)) }
{
    if shown {
        with_key(alloc, "steps", Json::from(steps), reply)
    } else {
        Ok(reply)
    }
}

/// A reply to a run, with what is shown beside it.
fn shown_reply(
    alloc: Global,
    allow: &Allow,
    keys: ShownKeys,
    outcome: &Outcome,
    reply: Json,
) -> Result<Json, AllocError>
    requires { list_all (flag allow.now.members) outcome.now.reached ≡ true }
    ensures { IfOk result (λ shown. view shown ≡ shown_reply allow.now keys outcome.now.reached outcome.now.steps (view reply)) }
{
    let reached = outcome.reached.as_slice();
    let reply = with_members(alloc, allow, keys.members, reached, reply)?;
    with_steps(alloc, keys.steps, outcome.steps, reply)
}

/// The line of a reply without floats to a run, with what is shown beside it. The list has each member that was called.
pub fn shown_line(
    alloc: Global,
    allow: &Allow,
    keys: ShownKeys,
    outcome: &Outcome,
    reply: Json,
) -> Result<Line, AllocError>
    requires { list_all (flag allow.now.members) outcome.now.reached ≡ true }
    ensures text { has_float (view reply) ≡ false → IfOk result (λ line. string_bytes line.text ≡ line_of (shown_reply allow.now keys outcome.now.reached outcome.now.steps (view reply))) }
    ensures error { IfOk result (λ line. line.is_error ≡ is_error (shown_reply allow.now keys outcome.now.reached outcome.now.steps (view reply))) }
{
    let json = shown_reply(alloc, allow, keys, outcome, reply)?;
    line_of_reply(alloc, &json)
}

/// The reply line of a run over a document, by way of a tree, with what is shown beside it.
fn search_shown_line(
    alloc: Global,
    allow: &Allow,
    kind: SearchKind,
    keys: ShownKeys,
    outcome: &Outcome,
) -> Result<Line, AllocError>
    requires { list_all (flag allow.now.members) outcome.now.reached ≡ true }
    ensures text { IfOk result (λ line. string_bytes line.text ≡ line_of (shown_reply allow.now keys outcome.now.reached outcome.now.steps (search_reply_of kind outcome.now.end outcome.now.heap.objects))) }
    ensures error { IfOk result (λ line. line.is_error ≡ is_error (shown_reply allow.now keys outcome.now.reached outcome.now.steps (search_reply_of kind outcome.now.end outcome.now.heap.objects))) }
{
    let reply = search_reply(alloc, kind, &outcome.end, &outcome.heap)?;
    shown_line(alloc, allow, keys, outcome, reply)
}

/// The reply line of a run over a document, with what is shown beside it. The list has each member that was called.
pub fn shown_reply_line(
    alloc: Global,
    allow: &Allow,
    kind: SearchKind,
    keys: ShownKeys,
    outcome: &Outcome,
) -> Result<Line, AllocError>
    requires { list_all (flag allow.now.members) outcome.now.reached ≡ true }
    ensures text { IfOk result (λ line. string_bytes line.text ≡ line_of (shown_reply allow.now keys outcome.now.reached outcome.now.steps (search_reply_of kind outcome.now.end outcome.now.heap.objects))) }
    ensures error { IfOk result (λ line. line.is_error ≡ is_error (shown_reply allow.now keys outcome.now.reached outcome.now.steps (search_reply_of kind outcome.now.end outcome.now.heap.objects))) }
{
    if keys.members || keys.steps {
        search_shown_line(alloc, allow, kind, keys, outcome)
    } else {
        search_reply_line(alloc, kind, &outcome.end, &outcome.heap)
    }
}
