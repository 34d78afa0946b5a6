//! What replies to a line alone.

ghost use Rattle.std.specs.Prelude.{IfOk};
ghost use Rattle.outer_io.specs.Lines.{InputLine, Within, Beyond};
ghost use Rattle.line_run.specs.Replies.{Reply};
ghost use Rattle.line_run.specs.Shown.{reply_shown};

use std::alloc::{AllocError, Global};

/// A reply as it is written: its line with the newline, or nothing where a line has no reply.
#[derive(Drop)]
pub struct ReplyLine {
    pub text: String,
    pub is_error: bool,
    /// How many instructions were run for it.
    pub steps: u64,
}

/// What replies to lines. No reply depends on a line before; [`Stateless`](crate::Stateless) replies so to the lines of an input.
pub trait Replier {
    /// The memory that is kept from one line to the next. What lies in it changes no reply.
    type Scratch: Drop;

    /// That it can reply.
    ghost ready: { Self → Type 0 };

    /// Which reply it gives to a line.
    ghost gives: { Self → InputLine → Reply → Type 0 };

    /// The memory for the first line.
    fn scratch(&self, alloc: Global) -> Self::Scratch;

    /// The reply to a line of at most 1,048,576 bytes.
    fn reply(&self, line: &[u8], scratch: &mut Self::Scratch) -> Result<ReplyLine, AllocError>
        requires { ready self.now }
        ensures { IfOk result (λ reply. gives self.now (Within line.now) (reply_shown reply)) };

    /// The reply to a line of more bytes.
    fn reply_to_long(&self) -> Result<ReplyLine, AllocError>
        requires { ready self.now }
        ensures { IfOk result (λ reply. gives self.now Beyond (reply_shown reply)) };
}
