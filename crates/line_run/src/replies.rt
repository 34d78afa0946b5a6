//! Replies that are held until they are given to a sink.

ghost use Rattle.std.specs.Prelude.{◌≡◌, ◌≢◌, ◌+◌, ◌-◌, ◌^◌, ◌<◌, ◌||◌, ◌++◌, [], false, length, min, IfErr, IfOk, OnErr, OnOk};
ghost use Rattle.std.specs.Io.KnownBytes.{Appends};
ghost use Rattle.outer_io.specs.Faults.{HasCause};
ghost use Rattle.outer_io.specs.Front.{AppendsFront};
ghost use Rattle.outer_io.specs.Lines.{IsUnbroken};
ghost use Rattle.outer_io.specs.Runs.{line_shown};
ghost use Rattle.command_parts.specs.Writing.{IsWriteFault};
ghost use Rattle.line_run.specs.Replies.{status_of};
ghost use Rattle.line_run.specs.Shown.{reply_shown};
ghost use Rattle.line_run.specs.Steps.{Adds, Gives, many};
ghost use Rattle.line_run.specs.Talking.{Ends, Hears};

use crate::replier::ReplyLine;
use crate::talker::Talker;
use command_parts::{Status, write_bytes};
use outer_io::{Line, LineReader, Sink};
use std::alloc::{AllocError, Global};

/// So many bytes of replies are given at once, where no more are wanted before.
const FULL: usize = 65_536;

/// Replies that were not given to the sink yet, and before the first gift what stands before them; whether one of all so far is an error,
/// and how many instructions were run for all so far, as far as 64 bits count them.
#[derive(Drop)]
pub(crate) struct Replies {
    pub(crate) bytes: Vec<u8>,
    pub(crate) any_error: bool,
    pub(crate) steps: u64,
}

/// The reply to a line.
fn reply_to<T: Talker>(
    talker: &T,
    line: &Line,
    state: &mut T::State,
) -> Result<ReplyLine, AllocError>
    requires ready { T.ready talker.now }
    requires some { line.now ≢ Line.End }
    ensures { IfOk result (λ reply. Hears (T.talk talker.now) (T.heard talker.now state.old) (T.heard talker.now state.new) (line_shown line.now) (reply_shown reply)) }
{
    match line {
        Line::Whole(bytes) => talker.reply(bytes.as_slice(), state),
        Line::Long => talker.reply_to_long(state),
        Line::End => unreachable!(),
    }
}

impl Replies {
    /// No reply yet, behind what is to stand before them.
    pub(crate) fn new(front: Vec<u8>) -> Replies
        ensures bytes { result.bytes.items ≡ front.items }
        ensures error { result.any_error ≡ false }
        ensures steps { result.steps ≡ 0 }
    {
        Replies {
            bytes: front,
            any_error: false,
            steps: 0,
        }
    }

    /// How a run ends whose replies these are.
    pub(crate) fn status(&self) -> Status
        ensures { result ≡ status_of self.now.any_error }
    {
        if self.any_error {
            Status::SomeErrors
        } else {
            Status::Done
        }
    }

    /// Puts a reply behind the others.
    fn push(&mut self, reply: ReplyLine) -> Result<(), AllocError>
        ensures bytes { OnOk result (self.new.bytes.items ≡ self.old.bytes.items ++ (reply_shown reply).bytes) }
        ensures error { OnOk result (self.new.any_error ≡ (self.old.any_error || reply.is_error)) }
        ensures steps { OnOk result (self.new.steps ≡ min (self.old.steps + reply.steps) (2 ^ 64 - 1)) }
    {
        self.bytes.extend_from_slice(reply.text.as_bytes())?;
        self.any_error = self.any_error || reply.is_error;
        self.steps = self.steps.saturating_add(reply.steps);
        Ok(())
    }

    /// Puts the reply to a line behind the others.
    pub(crate) fn add<T: Talker>(
        &mut self,
        talker: &T,
        line: &Line,
        state: &mut T::State,
    ) -> Result<(), AllocError>
        requires ready { T.ready talker.now }
        requires some { line.now ≢ Line.End }
        ensures { OnOk result (Adds (Hears (T.talk talker.now) (T.heard talker.now state.old) (T.heard talker.now state.new) (line_shown line.now)) self.old self.new) }
    {
        let reply = reply_to(talker, line, state)?;
        self.push(reply)
    }

    /// Puts what stands behind the last line behind the others.
    pub(crate) fn add_end<T: Talker>(
        &mut self,
        alloc: Global,
        talker: &T,
        state: T::State,
    ) -> Result<(), AllocError>
        requires ready { T.ready talker.now }
        ensures { OnOk result (Adds (Ends (T.talk talker.now) (T.heard talker.now state)) self.old self.new) }
    {
        let reply = talker.end(alloc, state)?;
        self.push(reply)
    }

    /// Gives all replies to a sink.
    pub(crate) fn give<K: Sink>(&mut self, out: &mut K) -> Result<(), Status>
        ensures whole { OnOk result (Gives (K.held out.old) (K.held out.new) self.old.bytes.items self.new.bytes.items) }
        ensures none { OnOk result (self.new.bytes.items ≡ []) }
        ensures front { AppendsFront (K.held out.old) (K.held out.new) self.old.bytes.items }
        ensures error { self.new.any_error ≡ self.old.any_error }
        ensures steps { self.new.steps ≡ self.old.steps }
        ensures fault { IfErr result IsWriteFault }
        ensures cause { HasCause Status.WriteFault (K.faults out.old) (K.faults out.new) result }
    {
        write_bytes(self.bytes.as_slice(), out)?;
        self.bytes.clear();
        Ok(())
    }

    /// Gives all replies to a sink, where they are many.
    pub(crate) fn give_many<K: Sink>(&mut self, out: &mut K) -> Result<(), Status>
        ensures whole { OnOk result (Gives (K.held out.old) (K.held out.new) self.old.bytes.items self.new.bytes.items) }
        ensures few { OnOk result (length self.new.bytes.items < many) }
        ensures front { OnErr result (AppendsFront (K.held out.old) (K.held out.new) self.old.bytes.items) }
        ensures error { self.new.any_error ≡ self.old.any_error }
        ensures steps { self.new.steps ≡ self.old.steps }
        ensures fault { IfErr result IsWriteFault }
        ensures cause { HasCause Status.WriteFault (K.faults out.old) (K.faults out.new) result }
    {
        if self.bytes.len() < FULL {
            return Ok(());
        }
        self.give(out)
    }

    /// Gives all replies to a sink, where a reader has no line without asking its source.
    pub(crate) fn give_before<K: Sink>(
        &mut self,
        reader: &LineReader,
        out: &mut K,
    ) -> Result<(), Status>
        ensures whole { OnOk result (Gives (K.held out.old) (K.held out.new) self.old.bytes.items self.new.bytes.items) }
        ensures none { OnOk result (IsUnbroken reader.now.intake.pending → self.new.bytes.items ≡ []) }
        ensures front { OnErr result (AppendsFront (K.held out.old) (K.held out.new) self.old.bytes.items) }
        ensures error { self.new.any_error ≡ self.old.any_error }
        ensures steps { self.new.steps ≡ self.old.steps }
        ensures fault { IfErr result IsWriteFault }
        ensures cause { HasCause Status.WriteFault (K.faults out.old) (K.faults out.new) result }
    {
        if reader.has_line() {
            return Ok(());
        }
        self.give(out)
    }
}
