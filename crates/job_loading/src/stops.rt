//! Errors as what is told.

ghost use Rattle.std.specs.Prelude.{◌≡◌, ◌≢◌, IfSome};
ghost use Rattle.job_file.specs.Jobs.{field};
ghost use Rattle.job_replies.specs.Refusals.{job_refusal};
ghost use Rattle.command_parts.specs.Stops.{stop_told};
ghost use Rattle.job_loading.specs.Loading.{refusal};
ghost use Rattle.job_loading.specs.Seen.{RefusesJob, RefusesList};

use allowlist::AllowErr;
use command_parts::Stop;
use job_file::JobErr;
use job_replies::{field_refusal_line, job_refusal_line, list_refusal_line};
use std::alloc::Global;

/// The end for what is wrong with a job.
pub(crate) fn job_refused(alloc: Global, error: &JobErr) -> Stop
    ensures told { RefusesJob error.now result }
    ensures quiet { result ≢ Stop.FileFault }
{
    match job_refusal_line(alloc, error) {
        Ok(line) => Stop::Refused(line),
        Err(_) => Stop::NoMemory,
    }
}

/// The end for a key of a job.
pub fn key_refused(alloc: Global, key: &str) -> Stop
    ensures told { IfSome (stop_told result) (λ told. told ≡ refusal (job_refusal (field key.now))) }
    ensures quiet { result ≢ Stop.FileFault }
{
    match field_refusal_line(alloc, key) {
        Ok(line) => Stop::Refused(line),
        Err(_) => Stop::NoMemory,
    }
}

/// The end for what is wrong with an allowlist.
pub(crate) fn list_refused(alloc: Global, error: &AllowErr) -> Stop
    ensures told { RefusesList error.now result }
    ensures quiet { result ≢ Stop.FileFault }
{
    match list_refusal_line(alloc, error) {
        Ok(line) => Stop::Refused(line),
        Err(_) => Stop::NoMemory,
    }
}
