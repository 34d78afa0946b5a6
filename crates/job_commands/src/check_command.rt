//! The command `check`.

ghost use Rattle.std.specs.Prelude.{◌≡◌, ◌≢◌};
ghost use Rattle.outer_io.specs.Faults.{next_count};
ghost use Rattle.command_parts.specs.Ends.{EndsAsTold, NoInput, of_files};
ghost use Rattle.command_parts.specs.Writing.{Writes};
ghost use Rattle.job_commands.specs.Checking.{accepts_told};
ghost use Rattle.job_commands.specs.Tellings.{check_telling};

use crate::preparing::prepare;
use command_parts::{Report, Status, end_with, write_bytes};
use document_replies::accepted_line;
use job_file::JobCommand;
use outer_io::{Files, Sink};
use script_engine::script_laws;
use std::alloc::Global;

/// Writes that a job is accepted.
fn accept<K: Sink>(out: &mut K) -> Status
    ensures writes { Writes accepts_told result (K.held out.old) (K.held out.new) }
    ensures write { result ≡ Status.WriteFault → K.faults out.new ≡ next_count (K.faults out.old) }
    ensures written { result ≢ Status.WriteFault → K.faults out.new ≡ K.faults out.old }
{
    match write_bytes(accepted_line().as_bytes(), out) {
        Ok(()) => Status::Done,
        Err(status) => status,
    }
}

/// Compiles the scripts of the job in the file of a name, and writes that it is accepted, or why not. No script is run.
pub fn check<F: Files, K: Sink>(alloc: Global, name: &str, files: &mut F, out: &mut K) -> Report
    ensures ends { EndsAsTold (check_telling name.now)
        (of_files (F.content files.old) (F.asked files.old) (F.faults files.old) (K.held out.old) (K.faults out.old))
        (of_files (F.content files.new) (F.asked files.new) (F.faults files.new) (K.held out.new) (K.faults out.new)) NoInput result }
{
    script_laws();
    match prepare(alloc, JobCommand::Check, name, files) {
        Ok(_job) => Report::quiet(alloc, accept(out)),
        Err(stop) => Report::quiet(alloc, end_with(&stop, out)),
    }
}
