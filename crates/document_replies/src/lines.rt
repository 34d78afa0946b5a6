//! The lines of a job, in its context.

ghost use Rattle.std.specs.Prelude.{◌≡◌};
ghost use Rattle.document_replies.specs.LinesSeen.{Keeps, answer_in, only_bound, start_in};

use crate::change::ChangeContext;
use crate::context::{BoundLine, LineContext};
use crate::search::{NothingKept, SearchContext};
use allowlist::Allow;
use json_bridge::BindErr;
use json_reading::Scratch;
use json_replies::{Line, ShownKeys};
use object_heap::Outcome;
use object_values::Value;
use std::alloc::{AllocError, Global};

/// The lines of a job: what is asked of each document, or done with it.
pub enum JobLines {
    /// A document is looked at.
    Search(SearchContext),
    /// A document is changed.
    Change(ChangeContext),
}

impl Drop for JobLines {
    fn drop(self) {
        match self {
            JobLines::Search(_context) => {}
            JobLines::Change(_context) => {}
        }
    }
}

/// A line of a search that is bound. It has no `ctx`, so null is kept.
fn without_ctx(found: Result<BoundLine<NothingKept>, BindErr>) -> Result<BoundLine<Value>, BindErr>
    ensures { only_bound result ≡ only_bound found }
{
    match found {
        Ok(line) => {
            let BoundLine { bound, kept: _ } = line;
            Ok(BoundLine {
                bound,
                kept: Value::Null,
            })
        }
        Err(error) => Err(error),
    }
}

impl LineContext for JobLines {
    type Scratch = Scratch;

    /// The value of `ctx`.
    type Kept = Value;

    ghost start = { λ lines line. start_in lines line };

    ghost answer = { λ lines from ran. answer_in lines from ran };

    ghost keeps = { λ lines from kept. Keeps lines from kept };

    fn scratch(&self, alloc: Global) -> Scratch {
        Scratch::new(alloc)
    }

    fn bind(&self, line: &[u8], scratch: &mut Scratch) -> Result<BoundLine<Value>, BindErr> {
        match self {
            JobLines::Search(context) => without_ctx(context.bind(line, scratch)),
            JobLines::Change(context) => context.bind(line, scratch),
        }
    }

    fn reply(
        &self,
        allow: &Allow,
        keys: ShownKeys,
        kept: Value,
        outcome: &Outcome,
    ) -> Result<Line, AllocError> {
        match self {
            JobLines::Search(context) => context.reply(allow, keys, NothingKept, outcome),
            JobLines::Change(context) => context.reply(allow, keys, kept, outcome),
        }
    }
}
