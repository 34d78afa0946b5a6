//! Files that commands read.

ghost use Rattle.std.specs.Prelude.{◌≡◌, ◌≤◌, ℕ, List, [], ◌∷◌, ◌++◌, Option, length, IfOk, IfSome, OnOk};
ghost use Rattle.outer_io.specs.Asking.{AsksFront};
ghost use Rattle.outer_io.specs.Faults.{HasCause};
ghost use Rattle.command_parts.specs.Told.{file_limit};
ghost use Rattle.command_parts.specs.Files.{file_told};
ghost use Rattle.command_parts.specs.Stops.{ComesSo};

use crate::stop::Stop;
use outer_io::{FileErr, Files, Found};
use std::alloc::Global;

/// The most bytes that a file may have.
pub const FILE_LIMIT: u64 = 1_048_576;

/// The bytes of the file of a name, or why a command that wants it ends: it is absent or too long, it could not be read, or
/// memory ran out.
pub fn read_file<F: Files>(alloc: Global, name: &str, files: &mut F) -> Result<Vec<u8>, Stop>
    ensures within { IfOk result (λ bytes. length bytes.items ≤ file_limit) }
    ensures found { (found : Option (List ℕ)) × IfSome (F.content files.old) (λ known. known name.now ≡ found) × ComesSo (λ bytes. bytes.items) result (file_told found) }
    ensures kept { F.content files.new ≡ F.content files.old }
    ensures cause { HasCause Stop.FileFault (F.faults files.old) (F.faults files.new) result }
    ensures asks { AsksFront (F.asked files.old) (F.asked files.new) (name.now ∷ []) }
    ensures noted { OnOk result (F.asked files.new ≡ F.asked files.old ++ name.now ∷ []) }
{
    match files.read(alloc, name, FILE_LIMIT) {
        Ok(Found::Bytes(bytes)) => Ok(bytes),
        Ok(Found::Absent) => Err(Stop::FileAbsent),
        Ok(Found::Long) => Err(Stop::FileLong),
        Err(FileErr::Failed) => Err(Stop::FileFault),
        Err(FileErr::NoMemory) => Err(Stop::NoMemory),
    }
}
