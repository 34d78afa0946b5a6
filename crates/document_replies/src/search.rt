//! The contexts over documents.

ghost use Rattle.document_replies.specs.Searches.{documents_of, reply_of, start_of};

use crate::context::{BoundLine, LineContext};
use allowlist::Allow;
use json_bridge::BindErr;
use json_reading::Scratch;
use json_replies::{Line, ShownKeys, shown_reply_line};
use object_heap::Outcome;
use search_ctx::{Fields, Params, SearchKind, Seed, bind_line};
use std::alloc::{AllocError, Global};

/// A context over documents, with what is made once for a job.
pub struct SearchContext {
    pub alloc: Global,
    pub kind: SearchKind,
    pub fields: Fields,
    pub params: Params,
    /// The room of each run.
    pub room: u64,
    /// The job's seed. The heap of each run is made from it and from the run's document.
    pub seed: Seed,
}

impl Drop for SearchContext {
    fn drop(self) {
        let SearchContext {
            alloc: _,
            kind: _,
            fields: _fields,
            params: _params,
            room: _,
            seed: _,
        } = self;
    }
}

/// A reply to a search needs nothing of the start.
#[derive(Clone, Copy)]
pub struct NothingKept;

impl LineContext for SearchContext {
    type Scratch = Scratch;

    type Kept = NothingKept;

    ghost start = { λ context line. start_of (documents_of context) line };

    ghost answer = { λ context from ran. reply_of (documents_of context) from ran };

    ghost keeps = { λ context from kept. Unit {0} };

    fn scratch(&self, alloc: Global) -> Scratch {
        Scratch::new(alloc)
    }

    fn bind(&self, line: &[u8], scratch: &mut Scratch) -> Result<BoundLine<NothingKept>, BindErr> {
        match bind_line(
            self.alloc,
            self.kind,
            &self.fields,
            &self.params,
            line,
            self.room,
            self.seed,
            scratch,
        ) {
            Ok(bound) => Ok(BoundLine {
                bound,
                kept: NothingKept,
            }),
            Err(error) => Err(error),
        }
    }

    fn reply(
        &self,
        allow: &Allow,
        keys: ShownKeys,
        kept: NothingKept,
        outcome: &Outcome,
    ) -> Result<Line, AllocError> {
        let _kept = kept;
        shown_reply_line(self.alloc, allow, self.kind, keys, outcome)
    }
}
