//! Where bytes go.

ghost use Rattle.std.specs.Prelude.{ℕ, ◌<◌, ◌≤◌, List, length, Option, IfOk, OnOk};
ghost use Rattle.std.specs.Io.KnownBytes.{Appends, WriteAppends};
ghost use Rattle.outer_io.specs.Faults.{HasCause};
ghost use Rattle.outer_io.specs.Front.{AppendsFront};

use thiserror::Error;

/// Why a sink took nothing.
#[derive(Clone, Copy, Debug, PartialEq, Eq, Error)]
pub enum SinkErr {
    /// A fault, which the sink's count of faults shows.
    #[error("the sink failed")]
    Failed,
    /// Want of memory.
    #[error("out of memory")]
    NoMemory,
}

/// What takes bytes, in pieces.
pub trait Sink {
    /// The bytes that were given to it, in their order, where the sink tells them.
    ghost held: { Self → Option (List ℕ) };

    /// How many faults there have been, up to 2^64 - 1. A call that answers Failed counts one more, and no other call
    /// changes it.
    ghost faults: { Self → ℕ };

    /// How often memory was wanting, up to 2^64 - 1. A call that answers NoMemory counts one more, and no other call
    /// changes it.
    ghost wants: { Self → ℕ };

    /// Gives it the front of a piece, and says how many bytes that is: at least one where the
    /// piece is not empty.
    ///
    /// An error leaves what it holds as it was. Failed: a fault, which the count of faults shows.
    /// NoMemory: want of memory, which the count of wants shows.
    fn give(&mut self, bytes: &[u8]) -> Result<usize, SinkErr>
        ensures bound { IfOk result (λ count. count ≤ length bytes.now) }
        ensures progress { IfOk result (λ count. 0 < length bytes.now → 0 < count) }
        ensures bytes { WriteAppends (held self.old) (held self.new) result bytes.now }
        ensures cause { HasCause SinkErr.Failed (faults self.old) (faults self.new) result }
        ensures want { HasCause SinkErr.NoMemory (wants self.old) (wants self.new) result };
}

/// Gives a sink all of some bytes, in as many calls as it takes.
///
/// An error leaves a front of them given, and nothing else; no call is made behind one that
/// answers with an error, so that the sink counts one. Failed: a fault, which the sink's
/// count of faults shows. NoMemory: want of memory, which its count of wants shows.
pub fn give_all<K: Sink>(out: &mut K, bytes: &[u8]) -> Result<(), SinkErr>
    ensures whole { OnOk result (Appends (K.held out.old) (K.held out.new) bytes.now) }
    ensures front { AppendsFront (K.held out.old) (K.held out.new) bytes.now }
    ensures cause { HasCause SinkErr.Failed (K.faults out.old) (K.faults out.new) result }
    ensures want { HasCause SinkErr.NoMemory (K.wants out.old) (K.wants out.new) result }
{
    let mut rest = bytes;
    'pieces: while !rest.is_empty() {
        let count = out.give(rest)?;
        let (_, behind) = rest.split_at(count);
        rest = behind;
    }
    Ok(())
}
