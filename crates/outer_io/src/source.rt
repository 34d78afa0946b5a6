//! Where bytes come from.

ghost use Rattle.std.specs.Prelude.{ℕ, ◌≤◌, List, length, Option, IfOk};
ghost use Rattle.std.specs.Io.KnownBytes.{ReadConsumes};
ghost use Rattle.outer_io.specs.Faults.{HasCause};

/// The answer of a source that could not say whether there are more bytes.
#[derive(Clone, Copy, Debug, PartialEq, Eq)]
pub struct Failed;

/// What gives bytes, in pieces.
pub trait Source {
    /// The bytes that are not yet taken, where the source tells them.
    ghost left: { Self → Option (List ℕ) };

    /// How many faults there have been, up to 2^64 - 1. A call that fails counts one more, and no other call changes it.
    ghost faults: { Self → ℕ };

    /// Takes the next bytes into the front of a piece, and says how many they are. None are taken
    /// where the piece is empty, or where none is left.
    ///
    /// Failed: a fault, which the count of faults shows. No byte is taken then.
    fn take(&mut self, into: &mut [u8]) -> Result<usize, Failed>
        ensures bound { IfOk result (λ count. count ≤ length into.new) }
        ensures bytes { ReadConsumes (left self.old) (left self.new) result into.new }
        ensures cause { HasCause (record {}) (faults self.old) (faults self.new) result };
}
