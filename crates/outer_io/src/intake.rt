//! What is taken from a source, piece by piece, and not given out yet.

ghost use Rattle.std.specs.Prelude.{◌≡◌, ◌↔◌, IsTrue, ℕ, ◌+◌, ◌≤◌, List, [], ◌++◌, true, false, IfOk, IfSome, IfNone};
ghost use Rattle.outer_io.specs.Faults.{HasCause};
ghost use Rattle.outer_io.specs.Lines.{IsUnbroken};
ghost use Rattle.outer_io.specs.Gathering.{BreaksAt, Holds, Gathers, Refills};

use crate::lines::{LONGEST, ReadErr};
use crate::source::Source;
use memchr::memchr;
use std::alloc::{AllocError, Global};
use std::marker::Model;

/// How many bytes a call of a source is asked for at most.
const PIECE: usize = 65_536;

const NEWLINE: u8 = b'\n';

/// What was taken from a source, of which at most so many bytes may be. The last piece that was
/// taken is kept, and where in it the bytes lie that are not given out yet.
#[derive(Drop)]
pub(crate) struct Intake {
    piece: Vec<u8>,
    from: usize,
    to: usize,
    limit: u64,
    taken: u64,
    ended: bool,
}

impl Model for Intake {
    ghost use Rattle.std.specs.Prelude.{◌≡◌, ◌-◌, ◌<◌, ◌≤◌, true, take, drop, vec_len};
    ghost use Rattle.outer_io.specs.Reading.{Intake as Taken};

    ghost Value = { Taken };

    ghost view = { λ s. record { limit = s.limit; taken = s.taken; pending = take (s.to - s.from) (drop s.from s.piece.items); ended = s.ended } };

    ghost invariant = { λ s. (s.from ≤ s.to) × (s.to ≤ vec_len s.piece) × (0 < vec_len s.piece) × (s.taken ≤ s.limit) × (s.ended ≡ true → s.from ≡ s.to) };
}

/// A line so far, with the bytes that are not given out yet moved into it.
#[derive(Drop)]
pub(crate) enum Gathered {
    /// It ends at a newline.
    Ended(Option<Vec<u8>>),
    /// There was no newline.
    Open(Option<Vec<u8>>),
}

impl Intake {
    /// Nothing was taken yet, and at most `limit` bytes may be.
    pub(crate) fn new(alloc: Global, limit: u64) -> Result<Intake, AllocError>
        ensures { IfOk result (λ s. s ≡ record { limit = limit; taken = 0; pending = []; ended = false }) }
    {
        Ok(Intake {
            piece: vec![in alloc; 0; PIECE]?,
            from: 0,
            to: 0,
            limit,
            taken: 0,
            ended: false,
        })
    }

    /// The allocator of the piece.
    pub(crate) fn allocator(&self) -> Global {
        *self.piece.allocator()
    }

    /// Whether the source was seen to have no more.
    pub(crate) fn has_ended(&self) -> bool
        ensures value { result ≡ self.now.ended }
        ensures empty { self.now.ended ≡ true → self.now.pending ≡ [] }
        ensures within { self.now.taken ≤ self.now.limit }
    {
        self.ended
    }

    /// Whether there is a newline among the bytes that are not given out yet.
    pub(crate) fn has_line(&self) -> bool
        ensures { IsTrue result ↔ (IsUnbroken self.now.pending → ⊥) }
    {
        let (_, behind) = self.piece.split_at(self.from);
        let (pending, _) = behind.split_at(self.to - self.from);
        match newline_in(pending) {
            Some(_place) => true,
            None => false,
        }
    }

    /// Moves the bytes that are not given out yet behind a line so far, up to a newline, which is
    /// given out too.
    pub(crate) fn gather(&mut self, line: Option<Vec<u8>>) -> Result<Gathered, AllocError>
        requires { self.old.ended ≡ false }
        ensures gathered { (before : List ℕ) → Holds line before → Gathers self.old self.new before result }
        ensures within { self.new.taken ≤ self.new.limit }
    {
        let (_, behind) = self.piece.split_at(self.from);
        let (pending, _) = behind.split_at(self.to - self.from);
        match newline_in(pending) {
            Some(place) => {
                let (front, _) = pending.split_at(place);
                let line = longer(line, front)?;
                self.from += place + 1;
                Ok(Gathered::Ended(line))
            }
            None => {
                let line = longer(line, pending)?;
                self.from = self.to;
                Ok(Gathered::Open(line))
            }
        }
    }

    /// Takes a further piece, where none of the last is left, and says whether there was one.
    pub(crate) fn refill<S: Source>(&mut self, source: &mut S) -> Result<bool, ReadErr>
        requires empty { self.old.pending ≡ [] }
        requires going { self.old.ended ≡ false }
        ensures refilled { Refills self.old self.new (S.left source.old) (S.left source.new) result }
        ensures within { self.new.taken ≤ self.new.limit }
        ensures cause { HasCause ReadErr.Fault (S.faults source.old) (S.faults source.new) result }
    {
        let room = self.limit - self.taken;
        if room == 0 {
            return self.probe(source);
        }
        let most = room.min(self.piece.len() as u64) as usize;
        let (front, _) = self.piece.split_at_mut(most);
        match source.take(front) {
            Ok(count) => {
                self.from = 0;
                self.to = count;
                self.taken += count as u64;
                self.ended = count == 0;
                Ok(count != 0)
            }
            Err(_) => Err(ReadErr::Fault),
        }
    }

    /// Asks for one byte more than may be taken.
    fn probe<S: Source>(&mut self, source: &mut S) -> Result<bool, ReadErr>
        requires empty { self.old.pending ≡ [] }
        requires going { self.old.ended ≡ false }
        requires reached { self.old.taken ≡ self.old.limit }
        ensures refilled { Refills self.old self.new (S.left source.old) (S.left source.new) result }
        ensures within { self.new.taken ≤ self.new.limit }
        ensures cause { HasCause ReadErr.Fault (S.faults source.old) (S.faults source.new) result }
    {
        let mut next = [0];
        match source.take(&mut next) {
            Ok(0) => {
                self.ended = true;
                Ok(false)
            }
            Ok(_) => Err(ReadErr::InputLong),
            Err(_) => Err(ReadErr::Fault),
        }
    }
}

/// The place of the first newline.
fn newline_in(bytes: &[u8]) -> Option<usize>
    ensures found { IfSome result (BreaksAt bytes.now) }
    ensures none { IfNone result (IsUnbroken bytes.now) }
{
    memchr(NEWLINE, bytes)
}

/// A line so far with some bytes behind it, or none where it has too many then.
fn longer(line: Option<Vec<u8>>, bytes: &[u8]) -> Result<Option<Vec<u8>>, AllocError>
    ensures { (before : List ℕ) → Holds line before → IfOk result (λ after. Holds after (before ++ bytes.now)) }
{
    match line {
        Some(mut line) => {
            if line.len() + bytes.len() > LONGEST {
                return Ok(None);
            }
            line.extend_from_slice(bytes)?;
            Ok(Some(line))
        }
        None => Ok(None),
    }
}
