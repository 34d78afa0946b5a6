//! The command `gen`.

ghost use Rattle.std.specs.Prelude.{◌≡◌, ◌≢◌, ◌⊎◌, ℕ, List, map, string_bytes};
ghost use Rattle.outer_io.specs.Faults.{next_count};
ghost use Rattle.script_engine.specs.Codes.{ScriptCodes};
ghost use Rattle.job_file.specs.Answers.{fields_view};
ghost use Rattle.job_file.specs.declared.context.JobContext.TheVariants as c;
ghost use Rattle.search_ctx.specs.Fields.{HasDistinctNames};
ghost use Rattle.command_parts.specs.Ends.{EndsAsTold, NoInput, of_sink};
ghost use Rattle.command_parts.specs.Reports.{IsQuiet, Reports};
ghost use Rattle.command_parts.specs.Writing.{IsWriteFault, Writes};
ghost use Rattle.job_commands.specs.Listing.{listings_of};
ghost use Rattle.job_commands.specs.GeneratedEnds.{EndsFixed};
ghost use Rattle.job_commands.specs.Preparing.{IsReady};
ghost use Rattle.job_commands.specs.Generated.{summary_told};
ghost use Rattle.job_commands.specs.Tellings.{gen_telling};

use crate::codes::listings_of;
use crate::contexts::search_context;
use crate::documents::document_job;
use crate::fixed_job::prepare_fixed;
use crate::preparing::PreparedJob;
use crate::tally::{Tally, summary_line, tally_of};
use command_parts::{Report, Status, end_with, write_bytes};
use outer_io::Sink;
use script_engine::{code_laws, script_laws};
use search_ctx::SearchKind;
use std::alloc::Global;

/// Writes the summary of so many documents.
fn write_summary<K: Sink>(alloc: Global, count: u32, tally: Tally, out: &mut K) -> Status
    ensures writes { (codes : List ScriptCodes) → Writes (summary_told codes count tally) result (K.held out.old) (K.held out.new) }
    ensures ends { (result ≡ Status.Done) ⊎ IsWriteFault result }
    ensures write { result ≡ Status.WriteFault → K.faults out.new ≡ next_count (K.faults out.old) }
    ensures written { result ≢ Status.WriteFault → K.faults out.new ≡ K.faults out.old }
{
    let Ok(line) = summary_line(alloc, count, tally) else {
        return Status::NoMemory;
    };
    match write_bytes(line.as_bytes(), out) {
        Ok(()) => Status::Done,
        Err(status) => status,
    }
}

/// The report, which has listings and a count where the summary was written.
fn report_of(alloc: Global, status: Status, listings: Vec<String>, tally: Tally) -> Report
    requires { (status ≡ Status.Done) ⊎ IsWriteFault status }
    ensures status { result.status ≡ status }
    ensures reports { (codes : List ScriptCodes) (count : ℕ) → map string_bytes listings.items ≡ listings_of codes → Reports (summary_told codes count tally) result }
    ensures quiet { status ≢ Status.Done → IsQuiet result }
{
    match status {
        Status::Done => Report {
            status,
            listings,
            steps: tally.steps,
        },
        _ => Report::quiet(alloc, status),
    }
}

/// Runs the job over so many documents, and writes the summary.
fn run_fixed<K: Sink>(alloc: Global, job: PreparedJob, count: u32, out: &mut K) -> Report
    requires field { job.found.job.context ≡ c.Field }
    requires ready { IsReady job }
    requires distinct { HasDistinctNames (fields_view job.found.job.mapping.fields.items) }
    ensures told { EndsFixed job count result (K.held out.old) (K.held out.new) }
    ensures ends { (result.status ≡ Status.Done) ⊎ IsWriteFault result.status }
    ensures quiet { result.status ≢ Status.Done → IsQuiet result }
    ensures write { result.status ≡ Status.WriteFault → K.faults out.new ≡ next_count (K.faults out.old) }
    ensures written { result.status ≢ Status.WriteFault → K.faults out.new ≡ K.faults out.old }
{
    let Ok(listings) = listings_of(alloc, &job.scripts) else {
        return Report::quiet(alloc, Status::NoMemory);
    };
    let Ok(context) = search_context(alloc, SearchKind::Field, &job.found) else {
        return Report::quiet(alloc, Status::NoMemory);
    };
    let documents = document_job(alloc, context, job);
    let Ok(tally) = tally_of(&documents, count) else {
        return Report::quiet(alloc, Status::NoMemory);
    };
    let status = write_summary(alloc, count, tally, out);
    report_of(alloc, status, listings, tally)
}

/// Makes `count` documents, runs the fixed job over each of them, and writes a line with how many there were, how many errors and how many
/// results, and the sum of these. The report has the listing of the job's code, that of the prelude's, and how many instructions were
/// run for all documents. Memory does not grow with the count.
pub fn gen_<K: Sink>(alloc: Global, count: u32, out: &mut K) -> Report
    ensures ends { EndsAsTold (gen_telling count) (of_sink (K.held out.old) (K.faults out.old)) (of_sink (K.held out.new) (K.faults out.new)) NoInput result }
{
    script_laws();
    code_laws();
    match prepare_fixed(alloc) {
        Ok(job) => run_fixed(alloc, job, count, out),
        Err(stop) => Report::quiet(alloc, end_with(&stop, out)),
    }
}
