//! Why a command ends before its work.

ghost use Rattle.std.specs.Prelude.{◌≡◌, ◌≢◌, IfSome};
ghost use Rattle.std.specs.Io.KnownBytes.{Appends};
ghost use Rattle.outer_io.specs.Faults.{next_count};
ghost use Rattle.outer_io.specs.Front.{AppendsFront};
ghost use Rattle.command_parts.specs.Ending.{EndsSo};
ghost use Rattle.command_parts.specs.Stops.{stop_told};

use crate::status::Status;
use crate::writing::write_bytes;
use outer_io::Sink;
use std::alloc::AllocError;

/// Why a command ends before its work.
pub enum Stop {
    /// Something is refused; this is the refusal line.
    Refused(String),
    /// There is no file of a name.
    FileAbsent,
    /// A file has more than 1,048,576 bytes.
    FileLong,
    /// Reading a file failed.
    FileFault,
    /// Memory ran out.
    NoMemory,
}

impl Drop for Stop {
    fn drop(self) {
        match self {
            Stop::Refused(_line) => {}
            Stop::FileAbsent => {}
            Stop::FileLong => {}
            Stop::FileFault => {}
            Stop::NoMemory => {}
        }
    }
}

impl From<AllocError> for Stop {
    ghost use Rattle.command_parts.specs.declared.stop.Stop.TheVariants.{NoMemory};

    ghost from_gives = { λ _ e. e ≡ NoMemory };

    fn from(_error: AllocError) -> Stop {
        Stop::NoMemory
    }
}

/// Writes the refusal line, where there is one, and gives the status with which the run ends.
pub fn end_with<K: Sink>(stop: &Stop, out: &mut K) -> Status
    ensures ends { EndsSo stop.now result (K.held out.old) (K.held out.new) }
    ensures write { result ≡ Status.WriteFault → K.faults out.new ≡ next_count (K.faults out.old) }
    ensures written { result ≢ Status.WriteFault → K.faults out.new ≡ K.faults out.old }
{
    match stop {
        Stop::Refused(line) => match write_bytes(line.as_bytes(), out) {
            Ok(()) => Status::Refused,
            Err(status) => status,
        },
        Stop::FileAbsent => Status::FileAbsent,
        Stop::FileLong => Status::FileLong,
        Stop::FileFault => Status::FileFault,
        Stop::NoMemory => Status::NoMemory,
    }
}
