//! The command `run`, over documents.

ghost use Rattle.std.specs.Prelude.{◌≡◌, ◌≢◌, Some, map, string_bytes};
ghost use Rattle.outer_io.specs.Faults.{next_count};
ghost use Rattle.job_file.specs.Answers.{fields_view, job_view};
ghost use Rattle.search_ctx.specs.Fields.{HasDistinctNames};
ghost use Rattle.command_parts.specs.Ends.{EndsAsTold, LeavesInput};
ghost use Rattle.document_replies.specs.LineRunReplies.{stateless};
ghost use Rattle.document_replies.specs.LinesSeen.{lines_seen};
ghost use Rattle.document_replies.specs.Passing.{Passes};
ghost use Rattle.job_commands.specs.Contexts.{context_in, keys_in};
ghost use Rattle.job_commands.specs.Documents.{EndsPrepared, GivesReplies, Lists, front_for, ran_by};
ghost use Rattle.job_commands.specs.Listing.{listings_of};
ghost use Rattle.job_commands.specs.Preparing.{IsReady, codes_of};
ghost use Rattle.job_commands.specs.Tellings.{run_telling};

use crate::codes::{ToldCodes, told_codes};
use crate::contexts::lines_of;
use crate::documents::document_job;
use crate::preparing::{PreparedJob, prepare};
use command_parts::{Report, Status, end_with};
use document_replies::{JobLines, Ran, Stateless, run_lines};
use job_file::JobCommand;
use job_loading::key_refused;
use outer_io::{Files, Sink, Source};
use script_engine::{code_laws, script_laws};
use std::alloc::Global;

/// The report of a run over lines, which has listings where it came to the end of its input.
pub fn report_of(alloc: Global, ran: Ran, listings: Vec<String>) -> Report
    requires { ran.status ≢ Status.Done → ran.status ≢ Status.SomeErrors → ran.steps ≡ 0 }
    ensures ran { ran_by result ≡ ran }
    ensures lists { Lists (map string_bytes listings.items) result }
{
    match ran.status {
        Status::Done | Status::SomeErrors => Report {
            status: ran.status,
            listings,
            steps: ran.steps,
        },
        _ => Report::quiet(alloc, ran.status),
    }
}

/// Replies to each line of the input, in the context of the job.
fn run_documents<S: Source, K: Sink>(
    alloc: Global,
    lines: JobLines,
    job: PreparedJob,
    input: &mut S,
    out: &mut K,
) -> Report
    requires over { context_in (job_view job.found.job) ≡ Some (lines_seen (keys_in (job_view job.found.job)) lines) }
    requires ready { IsReady job }
    ensures lists { Lists (listings_of (codes_of job.scripts)) result }
    ensures passes { Passes (stateless (GivesReplies (lines_seen (keys_in (job_view job.found.job)) lines) job)) (front_for job) job.found.job.limits.input (ran_by result) (S.left input.old) (S.left input.new) (K.held out.old) (K.held out.new) }
    ensures read { result.status ≡ Status.ReadFault → S.faults input.new ≡ next_count (S.faults input.old) }
    ensures write { result.status ≡ Status.WriteFault → K.faults out.new ≡ next_count (K.faults out.old) }
    ensures well_read { result.status ≢ Status.ReadFault → S.faults input.new ≡ S.faults input.old }
    ensures written { result.status ≢ Status.WriteFault → K.faults out.new ≡ K.faults out.old }
{
    let limit = job.found.job.limits.input;
    let Ok(told) = told_codes(alloc, &job) else {
        return Report::quiet(alloc, Status::NoMemory);
    };
    let documents = document_job(alloc, lines, job);
    let ToldCodes { front, listings } = told;
    let talker = Stateless { replier: documents };
    let ran = run_lines(alloc, &talker, front, limit, input, out);
    report_of(alloc, ran, listings)
}

/// Runs a job that is prepared.
fn run_prepared<S: Source, K: Sink>(
    alloc: Global,
    job: PreparedJob,
    input: &mut S,
    out: &mut K,
) -> Report
    requires ready { IsReady job }
    requires distinct { HasDistinctNames (fields_view job.found.job.mapping.fields.items) }
    ensures told { EndsPrepared job result (S.left input.old) (S.left input.new) (K.held out.old) (K.held out.new) }
    ensures untouched { LeavesInput result.status → input.new ≡ input.old }
    ensures quiet { result.status ≢ Status.FileFault }
    ensures read { result.status ≡ Status.ReadFault → S.faults input.new ≡ next_count (S.faults input.old) }
    ensures write { result.status ≡ Status.WriteFault → K.faults out.new ≡ next_count (K.faults out.old) }
    ensures well_read { result.status ≢ Status.ReadFault → S.faults input.new ≡ S.faults input.old }
    ensures written { result.status ≢ Status.WriteFault → K.faults out.new ≡ K.faults out.old }
{
    let Ok(found) = lines_of(alloc, &job.found) else {
        return Report::quiet(alloc, Status::NoMemory);
    };
    match found {
        Some(lines) => run_documents(alloc, lines, job, input, out),
        None => {
            let stop = key_refused(alloc, "context");
            Report::quiet(alloc, end_with(&stop, out))
        }
    }
}

/// Runs the script of the job in the file of a name over each line of the input, and writes the replies, or why the job is refused. With
/// status 0 or 1 the report has the listing of its code, that of the prelude's, and how many instructions were run for all lines.
pub fn run<F: Files, S: Source, K: Sink>(
    alloc: Global,
    name: &str,
    files: &mut F,
    input: &mut S,
    out: &mut K,
) -> Report
    ensures ends { EndsAsTold (run_telling name.now)
        (record { content = F.content files.old; asked = F.asked files.old; file_faults = F.faults files.old; left = S.left input.old; read_faults = S.faults input.old; held = K.held out.old; write_faults = K.faults out.old })
        (record { content = F.content files.new; asked = F.asked files.new; file_faults = F.faults files.new; left = S.left input.new; read_faults = S.faults input.new; held = K.held out.new; write_faults = K.faults out.new })
        (input.new ≡ input.old) result }
{
    script_laws();
    code_laws();
    match prepare(alloc, JobCommand::Run, name, files) {
        Ok(job) => run_prepared(alloc, job, input, out),
        Err(stop) => Report::quiet(alloc, end_with(&stop, out)),
    }
}
