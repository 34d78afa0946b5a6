//! The command `pipe`.

ghost use Rattle.std.specs.Prelude.{◌≡◌, ◌≢◌, IfOk, map, string_bytes};
ghost use Rattle.outer_io.specs.Faults.{next_count};
ghost use Rattle.command_parts.specs.Ends.{EndsAsTold};
ghost use Rattle.job_commands.specs.Listing.{listings_of};
ghost use Rattle.pipe_command.specs.Preparing.{EndsPiped, IsReady, codes_of};
ghost use Rattle.pipe_command.specs.Telling.{pipe_telling};

use crate::preparing::{PreparedPipe, prepare};
use command_parts::{Report, Status, end_with};
use document_replies::{Stateless, run_lines};
use job_commands::{LimitedScript, code_laws, push_listings, report_of, script_laws};
use outer_io::{Files, Sink, Source};
use pipe_job::{PipeJob, PipedScript};
use std::alloc::{AllocError, Global};

/// The listings of the codes of scripts, two for each.
fn listings_of(
    alloc: Global,
    scripts: &[PipedScript<LimitedScript>],
) -> Result<Vec<String>, AllocError>
    ensures { IfOk result (λ listings. map string_bytes listings.items ≡ listings_of (codes_of scripts.now)) }
{
    let mut listings = Vec::new(alloc);
    for script in scripts {
        push_listings(alloc, &script.script.script, &mut listings)?;
    }
    Ok(listings)
}

/// What replies to the lines of a job.
fn pipe_job(alloc: Global, job: PreparedPipe) -> PipeJob<LimitedScript>
    ensures pipeline { result.pipeline ≡ job.read.pipeline }
    ensures scripts { result.scripts.items ≡ job.scripts.items }
    ensures room { result.room ≡ job.read.found.job.limits.room }
{
    let (read, scripts) = job.into_parts();
    let room = read.found.job.limits.room;
    let seed = read.found.seed;
    PipeJob {
        alloc,
        pipeline: read.into_pipeline(),
        scripts,
        room,
        seed,
    }
}

/// Replies to each line of the input.
fn run_prepared<S: Source, K: Sink>(
    alloc: Global,
    job: PreparedPipe,
    input: &mut S,
    out: &mut K,
) -> Report
    requires ready { IsReady job }
    ensures told { EndsPiped job result (S.left input.old) (S.left input.new) (K.held out.old) (K.held out.new) }
    ensures read { result.status ≡ Status.ReadFault → S.faults input.new ≡ next_count (S.faults input.old) }
    ensures write { result.status ≡ Status.WriteFault → K.faults out.new ≡ next_count (K.faults out.old) }
    ensures well_read { result.status ≢ Status.ReadFault → S.faults input.new ≡ S.faults input.old }
    ensures written { result.status ≢ Status.WriteFault → K.faults out.new ≡ K.faults out.old }
{
    let limit = job.read.found.job.limits.input;
    let Ok(listings) = listings_of(alloc, job.scripts.as_slice()) else {
        return Report::quiet(alloc, Status::NoMemory);
    };
    let replier = pipe_job(alloc, job);
    let talker = Stateless { replier };
    let ran = run_lines(alloc, &talker, Vec::new(alloc), limit, input, out);
    report_of(alloc, ran, listings)
}

/// Passes the document of each line of the input through the pipeline of the job in the file of a name, and writes the replies, or why the
/// job is refused. With status 0 or 1 the report has for each script of the pipeline the listing of its code and that of the prelude's, and
/// how many instructions were run for all lines.
pub fn pipe<F: Files, S: Source, K: Sink>(
    alloc: Global,
    name: &str,
    files: &mut F,
    input: &mut S,
    out: &mut K,
) -> Report
    ensures ends { EndsAsTold (pipe_telling name.now)
        (record { content = F.content files.old; asked = F.asked files.old; file_faults = F.faults files.old; left = S.left input.old; read_faults = S.faults input.old; held = K.held out.old; write_faults = K.faults out.old })
        (record { content = F.content files.new; asked = F.asked files.new; file_faults = F.faults files.new; left = S.left input.new; read_faults = S.faults input.new; held = K.held out.new; write_faults = K.faults out.new })
        (input.new ≡ input.old) result }
{
    script_laws();
    code_laws();
    match prepare(alloc, name, files) {
        Ok(job) => run_prepared(alloc, job, input, out),
        Err(stop) => Report::quiet(alloc, end_with(&stop, out)),
    }
}
