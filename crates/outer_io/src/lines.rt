//! The lines of a source.

ghost use Rattle.std.specs.Prelude.{◌≡◌, ◌↔◌, ℕ, ◌≤◌, List, [], ◌++◌, map, false, is_err, IsTrue, IfOk, OnOk, IfSome};
ghost use Rattle.outer_io.specs.Faults.{HasCause};
ghost use Rattle.outer_io.specs.Gathering.{Holds, Gives, GivesLast};
ghost use Rattle.outer_io.specs.Lines.{IsUnbroken, lines_of, input_line};
ghost use Rattle.outer_io.specs.Reading.{Reads};
ghost use Rattle.outer_io.specs.Runs.{shown, GivesLines};

use crate::intake::{Gathered, Intake};
use crate::source::Source;
use std::alloc::{AllocError, AllocFailed, Global};
use std::marker::Model;
use thiserror::Error;

/// How many bytes a line has at most where it is given, without its newline.
pub const LONGEST: usize = 1_048_576;

/// A line of a source, without its newline.
#[derive(Drop)]
pub enum Line {
    /// A line of at most 1,048,576 bytes.
    Whole(Vec<u8>),
    /// A line of more bytes, which was skipped.
    Long,
    /// No byte is left.
    End,
}

/// Why there is no line.
#[derive(Clone, Copy, Debug, PartialEq, Eq, Error)]
pub enum ReadErr {
    /// A fault of the source, which its count of faults shows.
    #[error("the source failed")]
    Fault,
    /// As many bytes as may be were taken, and one more followed.
    #[error("the input is too long")]
    InputLong,
    /// Want of memory.
    #[error("out of memory")]
    NoMemory,
}

impl<T: Drop> From<AllocFailed<T>> for ReadErr {
    ghost use Rattle.outer_io.specs.declared.lines.ReadErr.TheVariants.{NoMemory};

    ghost from_gives = { λ _ e. e ≡ NoMemory };

    fn from(_error: AllocFailed<T>) -> ReadErr {
        ReadErr::NoMemory
    }
}

impl From<AllocError> for ReadErr {
    ghost use Rattle.outer_io.specs.declared.lines.ReadErr.TheVariants.{NoMemory};

    ghost from_gives = { λ _ e. e ≡ NoMemory };

    fn from(_error: AllocError) -> ReadErr {
        ReadErr::NoMemory
    }
}

/// Reads the lines of a source, of which it takes at most so many bytes.
#[derive(Drop)]
pub struct LineReader {
    intake: Intake,
    failed: bool,
}

impl Model for LineReader {
    ghost use Rattle.outer_io.specs.Reading.{Reader};

    ghost Value = { Reader };

    ghost view = { λ s. record { intake = s.intake; failed = s.failed } };
}

impl LineReader {
    /// A reader that took nothing yet, and takes at most `limit` bytes.
    pub fn new(alloc: Global, limit: u64) -> Result<LineReader, AllocError>
        ensures { IfOk result (λ reader. reader ≡ record { intake = record { limit = limit; taken = 0; pending = []; ended = false }; failed = false }) }
    {
        let intake = Intake::new(alloc, limit)?;
        Ok(LineReader {
            intake,
            failed: false,
        })
    }

    /// Whether a line lies in what was taken already, so that [`LineReader::next`] gives it and asks the source for nothing.
    pub fn has_line(&self) -> bool
        ensures { IsTrue result ↔ (IsUnbroken self.now.intake.pending → ⊥) }
    {
        self.intake.has_line()
    }

    /// The next line. Each line whose newline was taken is given before any error that comes of
    /// what stands behind the newline. After an error it is not called again.
    ///
    /// Fault: the source failed, and what was taken and not given out has no newline. InputLong:
    /// as many bytes as may be were taken, one more followed, and what was taken and not given out
    /// has no newline. NoMemory: want of memory.
    pub fn next<S: Source>(&mut self, source: &mut S) -> Result<Line, ReadErr>
        requires { self.old.failed ≡ false }
        ensures read { Reads self.old.intake self.new.intake (S.left source.old) (S.left source.new) result }
        ensures within { self.new.intake.taken ≤ self.new.intake.limit }
        ensures failed { self.new.failed ≡ is_err result }
        ensures cause { HasCause ReadErr.Fault (S.faults source.old) (S.faults source.new) result }
    {
        if self.intake.has_ended() {
            return Ok(Line::End);
        }
        let answer = read_line(&mut self.intake, source);
        self.failed = answer.is_err();
        answer
    }
}

/// The next line of what is taken from a source.
fn read_line<S: Source>(intake: &mut Intake, source: &mut S) -> Result<Line, ReadErr>
    requires { intake.old.ended ≡ false }
    ensures read { Reads intake.old intake.new (S.left source.old) (S.left source.new) result }
    ensures within { intake.new.taken ≤ intake.new.limit }
    ensures cause { HasCause ReadErr.Fault (S.faults source.old) (S.faults source.new) result }
{
    let mut line = Some(Vec::new(intake.allocator()));
    'pieces: loop {
        match intake.gather(line)? {
            Gathered::Ended(whole) => return Ok(line_of(whole)),
            Gathered::Open(more) => line = more,
        }
        let goes_on = intake.refill(source)?;
        if !goes_on {
            return Ok(last_of(line));
        }
    }
}

/// A line that was put together.
fn line_of(line: Option<Vec<u8>>) -> Line
    ensures { (bytes : List ℕ) → Holds line bytes → Gives result bytes }
{
    match line {
        Some(bytes) => Line::Whole(bytes),
        None => Line::Long,
    }
}

/// The last line, where it has a byte.
fn last_of(line: Option<Vec<u8>>) -> Line
    ensures { (bytes : List ℕ) → Holds line bytes → GivesLast result bytes }
{
    match line {
        Some(bytes) => {
            if bytes.is_empty() {
                Line::End
            } else {
                Line::Whole(bytes)
            }
        }
        None => Line::Long,
    }
}

/// Reads a source to its end, and puts its lines behind some lines.
///
/// An error leaves those lines put there that `LineReader::next` gave before it. Fault: the source
/// failed. InputLong: `limit` bytes were taken, and one more followed. NoMemory: want of memory.
pub fn read_lines<S: Source>(
    alloc: Global,
    source: &mut S,
    limit: u64,
    lines: &mut Vec<Line>,
) -> Result<(), ReadErr>
    ensures all { OnOk result (IfSome (S.left source.old) (λ bytes. shown lines.new.items ≡ shown lines.old.items ++ map input_line (lines_of bytes))) }
    ensures given { GivesLines limit (S.left source.old) (S.left source.new) (shown lines.old.items) (shown lines.new.items) result }
    ensures cause { HasCause ReadErr.Fault (S.faults source.old) (S.faults source.new) result }
{
    let mut reader = LineReader::new(alloc, limit)?;
    'lines: loop {
        let line = reader.next(source)?;
        if is_end(&line) {
            return Ok(());
        }
        lines.push(line)?;
    }
}

/// Whether no byte was left.
fn is_end(line: &Line) -> bool
    ensures { IsTrue result ↔ (line.now ≡ Line.End) }
{
    matches!(line, Line::End)
}
