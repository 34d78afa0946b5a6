//! The command `list`.

ghost use Rattle.std.specs.Prelude.{◌≡◌, ◌≢◌};
ghost use Rattle.outer_io.specs.Faults.{next_count};
ghost use Rattle.command_parts.specs.Ends.{EndsAsTold, NoInput, of_files};
ghost use Rattle.command_parts.specs.Writing.{Writes};
ghost use Rattle.job_commands.specs.Listing.{listing_told};
ghost use Rattle.job_commands.specs.Preparing.{codes_of};
ghost use Rattle.job_commands.specs.Tellings.{list_telling};

use crate::codes::listed_text;
use crate::preparing::{PreparedJob, prepare};
use command_parts::{Report, Status, end_with, write_bytes};
use job_file::JobCommand;
use outer_io::{Files, Sink};
use script_engine::{code_laws, script_laws};
use std::alloc::Global;

/// Writes the listing that a job wants.
fn write_listing<K: Sink>(alloc: Global, job: &PreparedJob, out: &mut K) -> Status
    ensures writes { Writes (listing_told job.now.found.job.prelude (codes_of job.now.scripts)) result (K.held out.old) (K.held out.new) }
    ensures write { result ≡ Status.WriteFault → K.faults out.new ≡ next_count (K.faults out.old) }
    ensures written { result ≢ Status.WriteFault → K.faults out.new ≡ K.faults out.old }
{
    let Ok(text) = listed_text(alloc, &job.scripts, job.found.job.prelude) else {
        return Status::NoMemory;
    };
    match write_bytes(text.as_bytes(), out) {
        Ok(()) => Status::Done,
        Err(status) => status,
    }
}

/// Compiles the scripts of the job in the file of a name, and writes the listings of their codes, with `prelude` that of the prelude's, or
/// why the job is refused. No script is run.
pub fn list<F: Files, K: Sink>(alloc: Global, name: &str, files: &mut F, out: &mut K) -> Report
    ensures ends { EndsAsTold (list_telling name.now)
        (of_files (F.content files.old) (F.asked files.old) (F.faults files.old) (K.held out.old) (K.faults out.old))
        (of_files (F.content files.new) (F.asked files.new) (F.faults files.new) (K.held out.new) (K.faults out.new)) NoInput result }
{
    script_laws();
    code_laws();
    match prepare(alloc, JobCommand::List, name, files) {
        Ok(job) => Report::quiet(alloc, write_listing(alloc, &job, out)),
        Err(stop) => Report::quiet(alloc, end_with(&stop, out)),
    }
}
