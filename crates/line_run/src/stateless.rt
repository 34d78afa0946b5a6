//! What replies to each line by that line alone.

ghost use Rattle.std.specs.Prelude.{◌≡◌};
ghost use Rattle.line_run.specs.Replies.{no_reply, stateless};
ghost use Rattle.line_run.specs.Shown.{reply_shown};
ghost use Rattle.line_run.specs.Talking.{AnyLines};

use crate::replier::{Replier, ReplyLine};
use crate::talker::Talker;
use std::alloc::{AllocError, Global};

/// A replier over the lines of an input: it replies to each of them alone, and nothing stands behind the last one.
#[derive(Drop)]
pub struct Stateless<R> {
    pub replier: R,
}

/// No reply.
fn nothing(alloc: Global) -> ReplyLine
    ensures { reply_shown result ≡ no_reply }
{
    ReplyLine {
        text: String::new(alloc),
        is_error: false,
        steps: 0,
    }
}

impl<R: Replier> Talker for Stateless<R> {
    type State = R::Scratch;

    ghost ready = { λ talker. R.ready talker.replier };

    ghost talk = { λ talker. stateless (R.gives talker.replier) };

    ghost heard = { λ _ _ lines. AnyLines lines };

    fn begin(&self, alloc: Global) -> R::Scratch {
        self.replier.scratch(alloc)
    }

    fn reply(&self, line: &[u8], state: &mut R::Scratch) -> Result<ReplyLine, AllocError> {
        self.replier.reply(line, state)
    }

    fn reply_to_long(&self, _state: &mut R::Scratch) -> Result<ReplyLine, AllocError> {
        self.replier.reply_to_long()
    }

    fn end(&self, alloc: Global, _state: R::Scratch) -> Result<ReplyLine, AllocError> {
        Ok(nothing(alloc))
    }
}
