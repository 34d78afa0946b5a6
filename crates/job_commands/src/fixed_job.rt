//! The job that runs over the documents of the generator.

ghost use Rattle.std.specs.Prelude.{◌≡◌, ◌≢◌, IfErr, IfOk};
ghost use Rattle.job_file.specs.Answers.{job_view};
ghost use Rattle.job_loading.specs.Seen.{read_view};
ghost use Rattle.job_commands.specs.Preparing.{IsReady, PreparesSo};
ghost use Rattle.job_commands.specs.Scripts.{Prepares};
ghost use Rattle.job_commands.specs.FixedJob.{fixed_job, fixed_script, fixed_under};
ghost use Rattle.object_values.specs.Seeds.{seed_of};

use crate::preparing::{PreparedJob, prepare_found};
use command_parts::Stop;
use job_file::{FieldKind, Job, JobContext, JobLimits, JobParticulars, Mapping};
use job_loading::{Catalogue, ReadJob};
use object_values::Seed;
use serde_json::{Map, Value as Json};
use std::alloc::{AllocError, Global};

/// Its script.
const SCRIPT: &str = "doc['n'].value * 2 + doc['tag'].value.length()";

/// The limits of a job that says none.
const DEFAULT_LIMITS: JobLimits = JobLimits {
    loops: 1_000_000,
    depth: 256,
    ticks: 10_000_000,
    room: 16_000_000,
    input: 1_073_741_824,
};

/// The job.
fn fixed_job(alloc: Global) -> Result<Job, AllocError>
    ensures { IfOk result (λ job. job_view job ≡ fixed_job) }
{
    let mut scripts = Vec::new(alloc);
    scripts.push((
        String::from_str(alloc, "script")?,
        String::from_str(alloc, SCRIPT)?,
    ))?;
    let mut fields = Vec::new(alloc);
    fields.push((String::from_str(alloc, "n")?, FieldKind::Long))?;
    fields.push((String::from_str(alloc, "tag")?, FieldKind::Keyword))?;
    Ok(Job {
        context: JobContext::Field,
        scripts,
        params: Json::Object(Map::new(alloc)),
        mapping: Mapping { fields },
        allow: None,
        limits: DEFAULT_LIMITS,
        shards: 1,
        order: Vec::new(alloc),
        slice: 1_000_000,
        listing: false,
        steps: false,
        members: false,
        prelude: false,
        particulars: JobParticulars::none(alloc),
    })
}

/// From what the heaps of its runs are made, beside their documents.
fn fixed_seed() -> Seed
    ensures { result ≡ seed_of fixed_script }
{
    Seed::of(SCRIPT.as_bytes())
}

/// The job under the full catalogue.
fn fixed_under(alloc: Global) -> Result<ReadJob, AllocError>
    ensures { IfOk result (λ found. read_view found ≡ fixed_under) }
{
    Ok(ReadJob {
        job: fixed_job(alloc)?,
        allow: Catalogue::full(alloc)?,
        seed: fixed_seed(),
    })
}

/// The job with its script, or why the command ends.
pub(crate) fn prepare_fixed(alloc: Global) -> Result<PreparedJob, Stop>
    ensures told { PreparesSo (Prepares fixed_under) result }
    ensures ready { IfOk result IsReady }
    ensures job { IfOk result (λ job. read_view job.found ≡ fixed_under) }
    ensures quiet { IfErr result (λ stop. stop ≢ Stop.FileFault) }
{
    let found = fixed_under(alloc)?;
    prepare_found(alloc, found)
}
