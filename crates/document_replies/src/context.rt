//! Contexts of jobs over lines.

ghost use Rattle.std.specs.Prelude.{◌≡◌, true, ℕ, List, Result, IfOk, string_bytes};
ghost use Rattle.std.specs.List.{list_all};
ghost use Rattle.serde_json.specs.Data.{Data};
ghost use Rattle.allowlist.specs.Allow.{flag};
ghost use Rattle.json_bridge.specs.Starts.{Fault, Start};
ghost use Rattle.json_replies.specs.Replies.{is_error, line_of};
ghost use Rattle.json_replies.specs.Showing.{shown_reply};
ghost use Rattle.document_replies.specs.Jobs.{Binds, ended_of};
ghost use Rattle.document_replies.specs.Replies.{Ended};

use allowlist::Allow;
use json_bridge::{BindErr, Bound};
use json_replies::{Line, ShownKeys};
use object_heap::Outcome;
use std::alloc::{AllocError, Global};

/// A line that is bound: with what the run over it starts, and what the reply needs of that start.
#[derive(Drop)]
pub struct BoundLine<K> {
    pub bound: Bound,
    pub kept: K,
}

/// A context of jobs over lines: how a line is bound, and how the end of a run over it is answered.
pub trait LineContext {
    /// The memory that is kept from one line to the next. What lies in it changes no start.
    type Scratch: Drop;

    /// What the reply to a run needs of its start.
    type Kept: Drop;

    /// With what the run over a line starts, or what is wrong with the line.
    ghost start: { Self → List ℕ → Result Start Fault };

    /// The reply to a run, by its start and by what it leaves.
    ghost answer: { Self → Start → Ended → Data };

    /// What is kept of a start.
    ghost keeps: { Self → Start → Self.Kept → Type 0 };

    /// The memory for the first line.
    fn scratch(&self, alloc: Global) -> Self::Scratch;

    /// Binds a line.
    fn bind(
        &self,
        line: &[u8],
        scratch: &mut Self::Scratch,
    ) -> Result<BoundLine<Self::Kept>, BindErr>
        ensures { Binds (keeps self.now) result (start self.now line.now) };

    /// The reply line of a run that started as this was kept of, with what is shown beside it. The list has each member that was called.
    fn reply(
        &self,
        allow: &Allow,
        keys: ShownKeys,
        kept: Self::Kept,
        outcome: &Outcome,
    ) -> Result<Line, AllocError>
        requires { list_all (flag allow.now.members) outcome.now.reached ≡ true }
        ensures text { IfOk result (λ line. (from : Start) → keeps self.now from kept → string_bytes line.text ≡ line_of (shown_reply allow.now keys outcome.now.reached outcome.now.steps (answer self.now from (ended_of outcome.now)))) }
        ensures error { IfOk result (λ line. (from : Start) → keeps self.now from kept → line.is_error ≡ is_error (shown_reply allow.now keys outcome.now.reached outcome.now.steps (answer self.now from (ended_of outcome.now)))) };
}
