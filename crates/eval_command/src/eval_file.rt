//! From a file's name to what is written.

ghost use Rattle.std.specs.Prelude.{◌≡◌, ◌≢◌, ◌⊎◌, length, ◌≤◌};
ghost use Rattle.outer_io.specs.Faults.{next_count};
ghost use Rattle.script_engine.specs.Codes.{ScriptCodes};
ghost use Rattle.command_parts.specs.Before.{EndsBefore};
ghost use Rattle.command_parts.specs.DeliversOver.{DeliversUnread};
ghost use Rattle.command_parts.specs.Ends.{EndsAsTold, NoInput, of_files};
ghost use Rattle.command_parts.specs.Reports.{IsQuiet, Reports};
ghost use Rattle.command_parts.specs.Told.{file_limit};
ghost use Rattle.eval_command.specs.Codes.{AreCodesOf};
ghost use Rattle.eval_command.specs.Evaluation.{TellsScript};
ghost use Rattle.eval_command.specs.Tellings.{eval_telling};

use crate::reply::{Answer, answer_to};
use command_parts::{FILE_LIMIT, Report, Status};
use outer_io::{FileErr, Files, Found, Sink, SinkErr, give_all};
use script_engine::{code_laws, script_laws};
use std::alloc::Global;

/// Runs the script that stands in the file of a name, the only one that is asked for. With status 0 or 1 the report has the listing of its code, that of the prelude's, and
/// how many instructions were run.
pub fn eval<F: Files, K: Sink>(alloc: Global, name: &str, files: &mut F, out: &mut K) -> Report
    ensures ends { EndsAsTold (eval_telling name.now)
        (of_files (F.content files.old) (F.asked files.old) (F.faults files.old) (K.held out.old) (K.faults out.old))
        (of_files (F.content files.new) (F.asked files.new) (F.faults files.new) (K.held out.new) (K.faults out.new)) NoInput result }
{
    match files.read(alloc, name, FILE_LIMIT) {
        Ok(Found::Bytes(script)) => write_answer(alloc, script.as_slice(), out),
        Ok(Found::Absent) => Report::quiet(alloc, Status::FileAbsent),
        Ok(Found::Long) => Report::quiet(alloc, Status::FileLong),
        Err(FileErr::Failed) => Report::quiet(alloc, Status::FileFault),
        Err(FileErr::NoMemory) => Report::quiet(alloc, Status::NoMemory),
    }
}

/// Writes the reply to a script.
fn write_answer<K: Sink>(alloc: Global, script: &[u8], out: &mut K) -> Report
    requires { length script.now ≤ file_limit }
    ensures told { (codes : ScriptCodes) × (AreCodesOf script.now codes ⊎ EndsBefore result.status (K.held out.old) (K.held out.new))
        × DeliversUnread (λ told. TellsScript codes script.now told × Reports told result) result.status (K.held out.old) (K.held out.new) }
    ensures quiet { result.status ≢ Status.Done → result.status ≢ Status.SomeErrors → IsQuiet result }
    ensures command { result.status ≢ Status.Usage }
    ensures found { (result.status ≢ Status.FileFault) × (result.status ≢ Status.FileAbsent) × (result.status ≢ Status.FileLong) }
    ensures write { result.status ≡ Status.WriteFault → K.faults out.new ≡ next_count (K.faults out.old) }
    ensures written { result.status ≢ Status.WriteFault → K.faults out.new ≡ K.faults out.old }
{
    script_laws();
    code_laws();
    let Ok(answer) = answer_to(alloc, script) else {
        return Report::quiet(alloc, Status::NoMemory);
    };
    let Answer { report, line } = answer;
    match give_all(out, line.as_bytes()) {
        Ok(()) => report,
        Err(SinkErr::Failed) => Report::quiet(alloc, Status::WriteFault),
        Err(SinkErr::NoMemory) => Report::quiet(alloc, Status::NoMemory),
    }
}
