//! What clients are told.

ghost use Rattle.std.specs.Prelude.{◌≡◌, IfOk};
ghost use Rattle.serde_json.specs.View.{view};
ghost use Rattle.update_store.specs.Replies.{change_reply, conflict_reply, missing_reply, none_reply};

use serde_json::{Value, json};
use std::alloc::{AllocError, Global};

/// The change that was committed, and the version that the document has by it.
pub(crate) fn change_reply(
    alloc: Global,
    op: &str,
    id: &str,
    version: u64,
) -> Result<Value, AllocError>
    ensures { IfOk result (λ reply. view reply ≡ change_reply op.now id.now version) }
{
    json!(in alloc; {"_id": id, "_version": version, "op": op})
}

/// Nothing is changed.
pub(crate) fn none_reply(alloc: Global, id: &str) -> Result<Value, AllocError>
    ensures { IfOk result (λ reply. view reply ≡ none_reply id.now) }
{
    json!(in alloc; {"_id": id, "op": "none"})
}

/// There is no such document.
pub(crate) fn missing_reply(alloc: Global) -> Result<Value, AllocError>
    ensures { IfOk result (λ reply. view reply ≡ missing_reply) }
{
    json!(in alloc; {"error": {"kind": "missing"}})
}

/// The document has another version than the one that was read.
pub(crate) fn conflict_reply(alloc: Global, read: u64, found: u64) -> Result<Value, AllocError>
    ensures { IfOk result (λ reply. view reply ≡ conflict_reply read found) }
{
    json!(in alloc; {"error": {"found": found, "kind": "conflict", "read": read}})
}
