//! From a job's file to scripts that can be run.

ghost use Rattle.std.specs.Prelude.{◌≡◌, ◌≢◌, ◌++◌, ℕ, List, [], ◌∷◌, Option, IfErr, IfOk, IfSome, OnOk, string_bytes};
ghost use Rattle.outer_io.specs.Faults.{HasCause};
ghost use Rattle.job_file.specs.Answers.{fields_view, scripts_view};
ghost use Rattle.search_ctx.specs.Fields.{HasDistinctNames};
ghost use Rattle.command_parts.specs.Asking.{AsksBy};
ghost use Rattle.command_parts.specs.Stops.{stop_told};
ghost use Rattle.job_loading.specs.Asked.{job_asked};
ghost use Rattle.job_loading.specs.Loading.{refusal};
ghost use Rattle.job_loading.specs.Refusals.{script_refusal};
ghost use Rattle.job_loading.specs.Seen.{read_view};
ghost use Rattle.job_commands.specs.Contexts.{row_of};
ghost use Rattle.job_commands.specs.Preparing.{CompilesJob, CompilesScript, HaveScripts, IsReady, PreparesSo, RefusesScripts};
ghost use Rattle.job_commands.specs.Scripts.{Prepares, PreparesJob};

use crate::contexts::{context_types, tells_keys};
use command_parts::Stop;
use document_replies::script_refusal_line;
use job_file::{JobCommand, JobContext};
use job_loading::{ReadJob, key_refused, read_job};
use outer_io::Files;
use pl_types::{Fail, Refusal};
use script_engine::{Script, VerifiedPrelude, compile_beside};
use std::alloc::{AllocError, Global};

/// The scripts of a job, in their order.
pub struct JobScripts {
    pub first: Script,
    pub more: Vec<Script>,
}

impl Drop for JobScripts {
    fn drop(self) {
        let JobScripts {
            first: _first,
            more: _more,
        } = self;
    }
}

impl JobScripts {
    /// The first one.
    pub fn into_first(self) -> Script
        ensures { result ≡ self.first }
    {
        let JobScripts { first, more: _more } = self;
        first
    }
}

/// A job with its scripts.
pub struct PreparedJob {
    pub found: ReadJob,
    pub scripts: JobScripts,
}

impl Drop for PreparedJob {
    fn drop(self) {
        let PreparedJob {
            found: _found,
            scripts: _scripts,
        } = self;
    }
}

impl PreparedJob {
    /// The job and its scripts.
    pub fn into_parts(self) -> (ReadJob, JobScripts)
        ensures found { result.0 ≡ self.found }
        ensures scripts { result.1 ≡ self.scripts }
    {
        let PreparedJob { found, scripts } = self;
        (found, scripts)
    }
}

/// The end for a script that is refused.
fn script_refused(alloc: Global, context: JobContext, key: &str, wrong: Refusal) -> Stop
    ensures told { IfSome (stop_told result) (λ told. told ≡ refusal (script_refusal (row_of context).by_key key.now wrong)) }
    ensures quiet { result ≢ Stop.FileFault }
{
    match script_refusal_line(alloc, tells_keys(context), key, wrong) {
        Ok(line) => Stop::Refused(line),
        Err(_) => Stop::NoMemory,
    }
}

/// The script of a text of a job, which stands under a key.
pub fn script_of(
    alloc: Global,
    found: &ReadJob,
    prelude: &VerifiedPrelude,
    key: &str,
    text: &str,
) -> Result<Script, Stop>
    ensures told { CompilesScript (read_view found.now) key.now text.now result }
    ensures quiet { IfErr result (λ stop. stop ≢ Stop.FileFault) }
{
    let context = context_types(alloc, found.job.context, key)?;
    match compile_beside(alloc, text, &found.allow, &context, prelude) {
        Ok(script) => Ok(script),
        Err(Fail::Refused(wrong)) => Err(script_refused(alloc, found.job.context, key, wrong)),
        Err(Fail::NoMemory) => Err(Stop::NoMemory),
    }
}

/// The script of a text of a job, which stands after its key.
fn script_at(
    alloc: Global,
    found: &ReadJob,
    prelude: &VerifiedPrelude,
    script: &(String, String),
) -> Result<Script, Stop>
    ensures told { CompilesScript (read_view found.now) (string_bytes script.now.0) (string_bytes script.now.1) result }
    ensures quiet { IfErr result (λ stop. stop ≢ Stop.FileFault) }
{
    script_of(alloc, found, prelude, script.0.as_str(), script.1.as_str())
}

/// Puts a script last.
fn push_script(scripts: &mut Vec<Script>, script: Script) -> Result<(), AllocError>
    ensures { OnOk result (scripts.new.items ≡ scripts.old.items ++ script ∷ []) }
{
    scripts.push(script)?;
    Ok(())
}

/// The scripts of some texts of a job, each after its key, in their order.
fn scripts_of(
    alloc: Global,
    found: &ReadJob,
    prelude: &VerifiedPrelude,
    texts: &[(String, String)],
) -> Result<Vec<Script>, Stop>
    ensures compiled { IfOk result (λ scripts. HaveScripts (read_view found.now) (scripts_view texts.now) scripts.items) }
    ensures refused { IfErr result (λ stop. RefusesScripts (read_view found.now) (scripts_view texts.now) stop) }
    ensures quiet { IfErr result (λ stop. stop ≢ Stop.FileFault) }
{
    let mut scripts = Vec::new(alloc);
    for text in texts {
        let script = script_at(alloc, found, prelude, text)?;
        push_script(&mut scripts, script)?;
    }
    Ok(scripts)
}

/// A script of a job and those behind it, which share the prelude.
fn scripts_from(
    alloc: Global,
    found: &ReadJob,
    first: &(String, String),
    rest: &[(String, String)],
) -> Result<JobScripts, Stop>
    ensures told { CompilesJob (read_view found.now) ((string_bytes first.now.0, string_bytes first.now.1) ∷ scripts_view rest.now) result }
    ensures quiet { IfErr result (λ stop. stop ≢ Stop.FileFault) }
{
    let prelude = VerifiedPrelude::new(alloc)?;
    let script = script_at(alloc, found, &prelude, first)?;
    let more = scripts_of(alloc, found, &prelude, rest)?;
    Ok(JobScripts {
        first: script,
        more,
    })
}

/// The scripts of a job, of which it has one at least.
fn job_scripts(alloc: Global, found: &ReadJob) -> Result<JobScripts, Stop>
    ensures told { CompilesJob (read_view found.now) (scripts_view found.now.job.scripts.items) result }
    ensures quiet { IfErr result (λ stop. stop ≢ Stop.FileFault) }
{
    match found.job.scripts.as_slice().split_first() {
        Some((first, rest)) => scripts_from(alloc, found, first, rest),
        None => Err(key_refused(alloc, "script")),
    }
}

/// A job that was read, with its scripts, or why the command ends: a script is refused, or memory ran out.
pub(crate) fn prepare_found(alloc: Global, found: ReadJob) -> Result<PreparedJob, Stop>
    ensures told { PreparesSo (Prepares (read_view found)) result }
    ensures found { IfOk result (λ job. job.found ≡ found) }
    ensures ready { IfOk result IsReady }
    ensures quiet { IfErr result (λ stop. stop ≢ Stop.FileFault) }
{
    let scripts = job_scripts(alloc, &found)?;
    Ok(PreparedJob { found, scripts })
}

/// The job in the file of a name, for a command, with its scripts, or why the command ends.
pub fn prepare<F: Files>(
    alloc: Global,
    command: JobCommand,
    name: &str,
    files: &mut F,
) -> Result<PreparedJob, Stop>
    ensures told { (content : List ℕ → Option (List ℕ)) × IfSome (F.content files.old) (λ known. known ≡ content)
        × PreparesSo (PreparesJob command content name.now) result }
    ensures ready { IfOk result IsReady }
    ensures distinct { IfOk result (λ job. HasDistinctNames (fields_view job.found.job.mapping.fields.items)) }
    ensures kept { F.content files.new ≡ F.content files.old }
    ensures cause { HasCause Stop.FileFault (F.faults files.old) (F.faults files.new) result }
    ensures asked { AsksBy (F.content files.old) (F.asked files.old) (F.asked files.new) (job_asked command name.now) }
{
    let found = read_job(alloc, command, name, files)?;
    prepare_found(alloc, found)
}
