//! A run over the lines of a source.

ghost use Rattle.std.specs.Prelude.{◌≡◌, ◌≢◌, ◌↔◌, ◌≤◌, false, IfErr, IfOk, IsTrue, OnOk};
ghost use Rattle.outer_io.specs.Faults.{HasCause, next_count};
ghost use Rattle.outer_io.specs.Runs.{line_shown};
ghost use Rattle.command_parts.specs.Writing.{IsWriteFault};
ghost use Rattle.line_run.specs.Passing.{Passes};
ghost use Rattle.line_run.specs.Replies.{Front};
ghost use Rattle.line_run.specs.Steps.{Answers, AnswersNot, Closes, GivesLast, ReadsNext, ReadsNot};
ghost use Rattle.line_run.specs.Talking.{Ends, Hears};

use crate::ran::Ran;
use crate::replies::Replies;
use crate::talker::Talker;
use command_parts::Status;
use outer_io::{Line, LineReader, ReadErr, Sink, Source};
use std::alloc::Global;

/// Whether no byte was left.
fn is_end(line: &Line) -> bool
    ensures { IsTrue result ↔ (line.now ≡ Line.End) }
{
    matches!(line, Line::End)
}

/// The next line. The replies so far are given before the source is asked for more.
fn next_line<S: Source, K: Sink>(
    reader: &mut LineReader,
    replies: &mut Replies,
    input: &mut S,
    out: &mut K,
) -> Result<Line, Status>
    requires { reader.old.failed ≡ false }
    ensures next { IfOk result
        (ReadsNext reader.old.intake reader.new.intake (S.left input.old) (S.left input.new) (K.held out.old) (K.held out.new) replies.old replies.new) }
    ensures none { IfErr result
        (ReadsNot reader.old.intake reader.new.intake (S.left input.old) (S.left input.new) (K.held out.old) (K.held out.new) replies.old) }
    ensures within { reader.old.intake.taken ≤ reader.old.intake.limit → reader.new.intake.taken ≤ reader.new.intake.limit }
    ensures failed { OnOk result (reader.new.failed ≡ false) }
    ensures read { HasCause Status.ReadFault (S.faults input.old) (S.faults input.new) result }
    ensures write { HasCause Status.WriteFault (K.faults out.old) (K.faults out.new) result }
{
    replies.give_before(reader, out)?;
    match reader.next(input) {
        Ok(line) => Ok(line),
        Err(ReadErr::Fault) => Err(Status::ReadFault),
        Err(ReadErr::InputLong) => Err(Status::InputLong),
        Err(ReadErr::NoMemory) => Err(Status::NoMemory),
    }
}

/// Puts the reply to a line behind the others, and gives these where they are many.
fn answer<T: Talker, K: Sink>(
    talker: &T,
    line: Line,
    state: &mut T::State,
    replies: &mut Replies,
    out: &mut K,
) -> Result<(), Status>
    requires ready { T.ready talker.now }
    requires some { line ≢ Line.End }
    ensures answers { OnOk result
        (Answers (Hears (T.talk talker.now) (T.heard talker.now state.old) (T.heard talker.now state.new) (line_shown line)) (K.held out.old) (K.held out.new) replies.old replies.new) }
    ensures not { IfErr result
        (AnswersNot (Hears (T.talk talker.now) (T.heard talker.now state.old) (T.heard talker.now state.new) (line_shown line)) (K.held out.old) (K.held out.new) replies.old) }
    ensures write { HasCause Status.WriteFault (K.faults out.old) (K.faults out.new) result }
{
    let Ok(()) = replies.add(talker, &line, state) else {
        return Err(Status::NoMemory);
    };
    match replies.give_many(out) {
        Ok(()) => Ok(()),
        Err(status) => Err(status),
    }
}

/// Puts what stands behind the last line behind the replies, and gives all.
fn give_end<T: Talker, K: Sink>(
    alloc: Global,
    talker: &T,
    state: T::State,
    replies: &mut Replies,
    out: &mut K,
) -> Result<(), Status>
    requires ready { T.ready talker.now }
    ensures last { OnOk result
        (GivesLast (Ends (T.talk talker.now) (T.heard talker.now state)) (K.held out.old) (K.held out.new) replies.old replies.new) }
    ensures not { IfErr result
        (AnswersNot (Ends (T.talk talker.now) (T.heard talker.now state)) (K.held out.old) (K.held out.new) replies.old) }
    ensures fault { IfErr result IsWriteFault }
    ensures write { HasCause Status.WriteFault (K.faults out.old) (K.faults out.new) result }
{
    let Ok(()) = replies.add_end(alloc, talker, state) else {
        return Err(Status::NoMemory);
    };
    match replies.give(out) {
        Ok(()) => Ok(()),
        Err(status) => Err(status),
    }
}

/// How a run ends behind its last line: what stands there is put behind the replies, and all are given.
fn close<T: Talker, K: Sink>(
    alloc: Global,
    talker: &T,
    state: T::State,
    replies: Replies,
    out: &mut K,
) -> Ran
    requires ready { T.ready talker.now }
    ensures closes { Closes (Ends (T.talk talker.now) (T.heard talker.now state)) (K.held out.old) (K.held out.new) replies result }
    ensures uncounted { result.status ≢ Status.Done → result.status ≢ Status.SomeErrors → result.steps ≡ 0 }
    ensures reads { result.status ≢ Status.ReadFault }
    ensures write { result.status ≡ Status.WriteFault → K.faults out.new ≡ next_count (K.faults out.old) }
    ensures written { result.status ≢ Status.WriteFault → K.faults out.new ≡ K.faults out.old }
{
    let mut replies = replies;
    match give_end(alloc, talker, state, &mut replies, out) {
        Ok(()) => Ran {
            status: replies.status(),
            steps: replies.steps,
        },
        Err(status) => Ran { status, steps: 0 },
    }
}

/// Reads a source to its end, of which at most `limit` bytes are taken, and gives a sink the bytes of `front`, behind them the reply to
/// each line, in their order, and behind these what stands behind the last line.
///
/// What is to be given is held, and given before the source is asked for more, where it is some 64 KB, and before the run ends; the bytes
/// of `front` are held in their own memory. It ends with `Done`; with `SomeErrors` where a reply is an error; with `InputLong` where `limit`
/// bytes were taken and one more follows; with `ReadFault` or `WriteFault` at the first call that fails; or with `NoMemory`. Behind an input
/// that was not read to its end nothing is told of its end. With `Done` and `SomeErrors` it tells how many instructions were run for all
/// replies, `u64::MAX` where they are more.
pub fn run_lines<T: Talker, S: Source, K: Sink>(
    alloc: Global,
    talker: &T,
    front: Vec<u8>,
    limit: u64,
    input: &mut S,
    out: &mut K,
) -> Ran
    requires { T.ready talker.now }
    ensures passes { (before : Front) → before.bytes ≡ front.items →
        Passes (T.talk talker.now) before limit result (S.left input.old) (S.left input.new) (K.held out.old) (K.held out.new) }
    // Where the run did not come to the end of its input, nothing is counted.
    ensures uncounted { result.status ≢ Status.Done → result.status ≢ Status.SomeErrors → result.steps ≡ 0 }
    // A fault of the source or of the sink was counted, and only one: the call that failed was the last.
    ensures read { result.status ≡ Status.ReadFault → S.faults input.new ≡ next_count (S.faults input.old) }
    ensures write { result.status ≡ Status.WriteFault → K.faults out.new ≡ next_count (K.faults out.old) }
    // With every other status none was counted: no call failed.
    ensures well_read { result.status ≢ Status.ReadFault → S.faults input.new ≡ S.faults input.old }
    ensures written { result.status ≢ Status.WriteFault → K.faults out.new ≡ K.faults out.old }
{
    let Ok(mut reader) = LineReader::new(alloc, limit) else {
        return Ran {
            status: Status::NoMemory,
            steps: 0,
        };
    };
    let mut state = talker.begin(alloc);
    let mut replies = Replies::new(front);
    'lines: loop {
        let line = match next_line(&mut reader, &mut replies, input, out) {
            Ok(line) => line,
            Err(status) => return Ran { status, steps: 0 },
        };
        if is_end(&line) {
            return close(alloc, talker, state, replies, out);
        }
        match answer(talker, line, &mut state, &mut replies, out) {
            Ok(()) => {}
            Err(status) => return Ran { status, steps: 0 },
        }
    }
}
