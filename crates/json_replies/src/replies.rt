//! What a run comes to as JSON.

ghost use Rattle.std.specs.Prelude.{◌≡◌, IfOk};
ghost use Rattle.serde_json.specs.View.{view};
ghost use Rattle.json_replies.specs.Replies.{reply_of};

use crate::errors::{limit_kind, thrown_reply};
use crate::results::{kind_reply, result_reply};
use object_heap::{End, Heap};
use serde_json::Value as Json;
use std::alloc::{AllocError, Global};

/// The reply to a run that ended so over a heap.
pub fn reply_of(alloc: Global, end: &End, heap: &Heap) -> Result<Json, AllocError>
    ensures { IfOk result (λ reply. view reply ≡ reply_of end.now heap.now.objects) }
{
    match end {
        End::Value(value) => result_reply(alloc, heap, value),
        End::Thrown { id, .. } => thrown_reply(alloc, heap, *id),
        End::Limit { limit, .. } => kind_reply(alloc, limit_kind(*limit)),
    }
}
