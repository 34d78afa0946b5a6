//! Files that are read by their names.

ghost use Rattle.std.specs.Prelude.{◌≡◌, ℕ, List, [], ◌∷◌, ◌++◌, Option, IfSome, OnOk};
ghost use Rattle.outer_io.specs.Asking.{AsksFront};
ghost use Rattle.outer_io.specs.Content.{IsWithin, Shows};
ghost use Rattle.outer_io.specs.Faults.{HasCause};

use std::alloc::Global;
use thiserror::Error;

/// What stands under a file's name.
#[derive(Drop)]
pub enum Found {
    /// A file, with all of its bytes.
    Bytes(Vec<u8>),
    /// No file.
    Absent,
    /// A file of more bytes than were asked for.
    Long,
}

/// Why a file was not read.
#[derive(Clone, Copy, Debug, PartialEq, Eq, Error)]
pub enum FileErr {
    /// A fault, which the files' count of faults shows.
    #[error("the files failed")]
    Failed,
    /// Want of memory.
    #[error("out of memory")]
    NoMemory,
}

/// What reads files.
pub trait Files {
    /// The bytes of the file that stands under a name's bytes, or none where no file does, where
    /// the files tell their content.
    ghost content: { Self → Option (List ℕ → Option (List ℕ)) };

    /// How many faults there have been, up to 2^64 - 1. A call that answers Failed counts one more, and no other call
    /// changes it.
    ghost faults: { Self → ℕ };

    /// The names that were asked for, in their order.
    ghost asked: { Self → List (List ℕ) };

    /// Reads a file of at most `limit` bytes. Its name is asked for, and no other one; where there is an error, it may be that it was
    /// not asked for yet.
    ///
    /// Failed: a fault, which the count of faults shows. NoMemory: want of memory.
    fn read(&mut self, alloc: Global, name: &str, limit: u64) -> Result<Found, FileErr>
        ensures within { IsWithin limit result }
        ensures shown { IfSome (content self.old) (λ known. Shows (known name.now) limit result) }
        ensures kept { content self.new ≡ content self.old }
        ensures cause { HasCause FileErr.Failed (faults self.old) (faults self.new) result }
        ensures asks { AsksFront (asked self.old) (asked self.new) (name.now ∷ []) }
        ensures noted { OnOk result (asked self.new ≡ asked self.old ++ name.now ∷ []) };
}
