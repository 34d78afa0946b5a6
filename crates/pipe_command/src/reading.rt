//! A job over a pipeline, with its allowlist.

ghost use Rattle.std.specs.Prelude.{◌≡◌, ◌≢◌, ◌≤◌, ℕ, List, Option, Some, IfErr, IfOk, IfSome, codes, length, string_bytes};
ghost use Rattle.serde_json.specs.View.{view};
ghost use Rattle.outer_io.specs.Asking.{AsksFront};
ghost use Rattle.outer_io.specs.Faults.{HasCause};
ghost use Rattle.job_file.specs.Answers.{job_view};
ghost use Rattle.job_file.specs.declared.context.JobCommand.TheVariants as command;
ghost use Rattle.command_parts.specs.Asking.{AsksBy};
ghost use Rattle.command_parts.specs.Stops.{ComesSo, stop_told};
ghost use Rattle.command_parts.specs.Told.{file_limit};
ghost use Rattle.job_loading.specs.Loading.{job_in_bytes, job_told};
ghost use Rattle.job_loading.specs.Refusals.{refused_field};
ghost use Rattle.pipe_job.specs.Reading.{pipeline_of};
ghost use Rattle.job_loading.specs.Replies.{line_of};
ghost use Rattle.pipe_command.specs.Pipelines.{asked_behind_job, behind_job, pipe_asked, pipe_under, pipeline_in, pipeline_refusal, pipeline_told};
ghost use Rattle.pipe_command.specs.Preparing.{pipe_view};

use command_parts::{Stop, read_file};
use document_replies::line_of;
use job_file::{Job, JobCommand, JobContext};
use job_loading::{ReadJob, job_of, key_refused, list_for, seed_of};
use outer_io::Files;
use pipe_job::{PipeErr, Pipeline};
use serde_json::{Value as Json, json};
use std::alloc::{AllocError, Global};

/// A job over a pipeline, and its list.
pub(crate) struct ReadPipe {
    pub(crate) found: ReadJob,
    pub(crate) pipeline: Pipeline,
}

impl Drop for ReadPipe {
    fn drop(self) {
        let ReadPipe {
            found: _found,
            pipeline: _pipeline,
        } = self;
    }
}

impl ReadPipe {
    /// The pipeline. The job is let go.
    pub(crate) fn into_pipeline(self) -> Pipeline
        ensures { result ≡ self.pipeline }
    {
        let ReadPipe {
            found: _found,
            pipeline,
        } = self;
        pipeline
    }
}

/// The refusal of a place of a pipeline.
fn pipeline_refusal(alloc: Global, path: &str) -> Result<Json, AllocError>
    ensures { IfOk result (λ json. view json ≡ refused_field path.now (codes "PipelineBad") 33) }
{
    json!(in alloc; {"refused": {"field": path, "name": "PipelineBad", "number": 33}})
}

/// Its line.
fn refusal_line(alloc: Global, path: &str) -> Result<String, AllocError>
    ensures { IfOk result (λ line. string_bytes line ≡ line_of (refused_field path.now (codes "PipelineBad") 33)) }
{
    let json = pipeline_refusal(alloc, path)?;
    line_of(alloc, &json)
}

/// The end for a pipeline that is wrong.
fn pipeline_refused(alloc: Global, path: &str) -> Stop
    ensures told { IfSome (stop_told result) (λ told. told ≡ pipeline_refusal path.now) }
    ensures quiet { result ≢ Stop.FileFault }
{
    match refusal_line(alloc, path) {
        Ok(line) => Stop::Refused(line),
        Err(_) => Stop::NoMemory,
    }
}

/// The pipeline that a value denotes.
fn pipeline_of(alloc: Global, value: &Json) -> Result<Pipeline, Stop>
    ensures told { ComesSo (λ pipeline. pipeline) result (pipeline_told (pipeline_of (view value.now))) }
    ensures quiet { IfErr result (λ stop. stop ≢ Stop.FileFault) }
{
    match Pipeline::read(alloc, value) {
        Ok(pipeline) => Ok(pipeline),
        Err(PipeErr::Bad(path)) => Err(pipeline_refused(alloc, path.as_str())),
        Err(PipeErr::NoMemory) => Err(Stop::NoMemory),
    }
}

/// The pipeline of a job.
fn pipeline_in(alloc: Global, job: &Job) -> Result<Pipeline, Stop>
    ensures told { ComesSo (λ pipeline. pipeline) result (pipeline_in (job_view job.now)) }
    ensures quiet { IfErr result (λ stop. stop ≢ Stop.FileFault) }
{
    match job.context {
        JobContext::Pipe => pipeline_of(alloc, &job.particulars.pipeline),
        JobContext::Eval
        | JobContext::Filter
        | JobContext::Score
        | JobContext::Field
        | JobContext::Update
        | JobContext::Ingest
        | JobContext::Metric
        | JobContext::Updates
        | JobContext::Serve
        | JobContext::FunctionScore => Err(key_refused(alloc, "context")),
    }
}

/// The job in the bytes of the file of a name, with its pipeline and its list.
fn pipe_with_list<F: Files>(
    alloc: Global,
    name: &str,
    bytes: &[u8],
    files: &mut F,
) -> Result<ReadPipe, Stop>
    requires short { length bytes.now ≤ file_limit }
    requires shown { IfSome (F.content files.old) (λ known. known name.now ≡ Some bytes.now) }
    ensures told { (content : List ℕ → Option (List ℕ)) × IfSome (F.content files.old) (λ known. known ≡ content) × (content name.now ≡ Some bytes.now)
        × ComesSo pipe_view result (behind_job content (job_told (job_in_bytes command.Pipe bytes.now))) }
    ensures kept { F.content files.new ≡ F.content files.old }
    ensures cause { HasCause Stop.FileFault (F.faults files.old) (F.faults files.new) result }
    ensures asks { AsksFront (F.asked files.old) (F.asked files.new) (asked_behind_job name.now (job_told (job_in_bytes command.Pipe bytes.now))) }
{
    let job = job_of(alloc, JobCommand::Pipe, bytes)?;
    let pipeline = pipeline_in(alloc, &job)?;
    let allow = list_for(alloc, &job, name, bytes, files)?;
    let seed = seed_of(bytes);
    Ok(ReadPipe {
        found: ReadJob { job, allow, seed },
        pipeline,
    })
}

/// The job in the file of a name, with its pipeline and its list, or why the command ends. Where the pipeline is wrong, its allowlist is not
/// asked for.
pub(crate) fn read_pipe<F: Files>(
    alloc: Global,
    name: &str,
    files: &mut F,
) -> Result<ReadPipe, Stop>
    ensures told { (content : List ℕ → Option (List ℕ)) × IfSome (F.content files.old) (λ known. known ≡ content)
        × ComesSo pipe_view result (pipe_under content name.now) }
    ensures kept { F.content files.new ≡ F.content files.old }
    ensures cause { HasCause Stop.FileFault (F.faults files.old) (F.faults files.new) result }
    ensures asked { AsksBy (F.content files.old) (F.asked files.old) (F.asked files.new) (pipe_asked name.now) }
{
    let bytes = read_file(alloc, name, files)?;
    pipe_with_list(alloc, name, bytes.as_slice(), files)
}
