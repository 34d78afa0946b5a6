//! The contexts of documents that a script changes.

ghost use Rattle.std.specs.Prelude.{◌≡◌, IfErr, IfOk};
ghost use Rattle.document_replies.specs.Changes.{change_reply, change_start, ctx_in};
ghost use Rattle.document_replies.specs.LinesSeen.{KeepsCtx, changes_of};

use crate::context::{BoundLine, LineContext};
use allowlist::Allow;
use json_bridge::{BindErr, Bound, Params};
use json_reading::Scratch;
use json_replies::{Line, ShownKeys, shown_line};
use object_heap::Outcome;
use object_values::Value;
use std::alloc::{AllocError, Global};
use write_ctx::{Seed, WriteKind, bind_line, replies_have_no_float, reply};

/// A context of documents that a script changes, with what is made once for a job.
pub struct ChangeContext {
    pub alloc: Global,
    pub kind: WriteKind,
    pub params: Params,
    /// The room of each run.
    pub room: u64,
    /// The job's seed. The heap of each run is made from it and from the run's line.
    pub seed: Seed,
}

impl Drop for ChangeContext {
    fn drop(self) {
        let ChangeContext {
            alloc: _,
            kind: _,
            params: _params,
            room: _,
            seed: _,
        } = self;
    }
}

/// The value of `ctx` among the arguments of a run.
fn ctx_in(args: &[Value]) -> Result<Value, AllocError>
    ensures { IfOk result (λ ctx. ctx ≡ ctx_in args.now) }
{
    match args.get(1) {
        Some(ctx) => ctx.share(),
        None => Ok(Value::Null),
    }
}

/// A line that is bound, with the value of its `ctx`.
fn with_ctx(bound: Bound) -> Result<BoundLine<Value>, BindErr>
    ensures bound { IfOk result (λ line. line.bound ≡ bound) }
    ensures kept { IfOk result (λ line. line.kept ≡ ctx_in bound.args) }
    ensures error { IfErr result (λ error. error ≡ BindErr.NoMemory) }
{
    match ctx_in(bound.args.as_slice()) {
        Ok(kept) => Ok(BoundLine { bound, kept }),
        Err(_) => Err(BindErr::NoMemory),
    }
}

impl LineContext for ChangeContext {
    type Scratch = Scratch;

    type Kept = Value;

    ghost start = { λ context line. change_start (changes_of context) line };

    ghost answer = { λ context from ran. change_reply (changes_of context) from ran };

    ghost keeps = { λ context from kept. KeepsCtx from kept };

    fn scratch(&self, alloc: Global) -> Scratch {
        Scratch::new(alloc)
    }

    fn bind(&self, line: &[u8], scratch: &mut Scratch) -> Result<BoundLine<Value>, BindErr> {
        match bind_line(
            self.alloc,
            self.kind,
            &self.params,
            line,
            self.room,
            self.seed,
            scratch,
        ) {
            Ok(bound) => with_ctx(bound),
            Err(error) => Err(error),
        }
    }

    fn reply(
        &self,
        allow: &Allow,
        keys: ShownKeys,
        kept: Value,
        outcome: &Outcome,
    ) -> Result<Line, AllocError> {
        replies_have_no_float();
        let told = reply(self.kind, &kept, outcome)?;
        shown_line(self.alloc, allow, keys, outcome, told)
    }
}
