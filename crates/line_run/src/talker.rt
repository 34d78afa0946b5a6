//! What replies to the lines of an input, one after the other.

ghost use Rattle.std.specs.Prelude.{List, [], IfOk};
ghost use Rattle.outer_io.specs.Lines.{InputLine, Within, Beyond};
ghost use Rattle.line_run.specs.Replies.{Talk};
ghost use Rattle.line_run.specs.Shown.{reply_shown};
ghost use Rattle.line_run.specs.Talking.{Ends, Hears};

use crate::replier::ReplyLine;
use std::alloc::{AllocError, Global};

/// What replies to the lines of an input, one after the other. A reply may depend on the lines before.
pub trait Talker {
    /// What is kept from one line to the next.
    type State: Drop;

    /// That it can reply.
    ghost ready: { Self → Type 0 };

    /// What it tells.
    ghost talk: { Self → Talk };

    /// Which lines it may have heard where this is its state.
    ghost heard: { Self → Self.State → List InputLine → Type 0 };

    /// The state before the first line.
    fn begin(&self, alloc: Global) -> Self::State
        requires { ready self.now }
        ensures { heard self.now result [] };

    /// The reply to a line of at most 1,048,576 bytes.
    fn reply(&self, line: &[u8], state: &mut Self::State) -> Result<ReplyLine, AllocError>
        requires { ready self.now }
        ensures { IfOk result (λ reply. Hears (talk self.now) (heard self.now state.old) (heard self.now state.new) (Within line.now) (reply_shown reply)) };

    /// The reply to a line of more bytes.
    fn reply_to_long(&self, state: &mut Self::State) -> Result<ReplyLine, AllocError>
        requires { ready self.now }
        ensures { IfOk result (λ reply. Hears (talk self.now) (heard self.now state.old) (heard self.now state.new) Beyond (reply_shown reply)) };

    /// What stands behind the last line of an input that was read to its end. Behind one that fails or is too long nothing stands.
    fn end(&self, alloc: Global, state: Self::State) -> Result<ReplyLine, AllocError>
        requires { ready self.now }
        ensures { IfOk result (λ reply. Ends (talk self.now) (heard self.now state) (reply_shown reply)) };
}
