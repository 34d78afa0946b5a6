//! A job over lines.

ghost use Rattle.job_commands.specs.Documents.{IsDocumentJob};

use crate::contexts::keys_of;
use crate::preparing::PreparedJob;
use crate::script::LimitedScript;
use document_replies::DocumentJob;
use script_engine::Limits;
use std::alloc::Global;

/// What replies to the lines of a job in a context, by its first script.
pub(crate) fn document_job<C>(
    alloc: Global,
    context: C,
    job: PreparedJob,
) -> DocumentJob<C, LimitedScript>
    ensures { IsDocumentJob context job result }
{
    let keys = keys_of(&job.found.job);
    let (found, scripts) = job.into_parts();
    let limits = found.job.limits;
    DocumentJob {
        alloc,
        context,
        keys,
        script: LimitedScript {
            script: scripts.into_first(),
            limits: Limits {
                loops: limits.loops,
                depth: limits.depth,
                ticks: limits.ticks,
            },
        },
    }
}
