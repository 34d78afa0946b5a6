//! From a job's file to the scripts of its pipeline, which can be run.

ghost use Rattle.std.specs.Prelude.{◌≡◌, ◌≢◌, ◌++◌, ℕ, List, [], ◌∷◌, Option, IfErr, IfOk, IfSome, OnOk};
ghost use Rattle.serde_json.specs.View.{view};
ghost use Rattle.outer_io.specs.Faults.{HasCause};
ghost use Rattle.command_parts.specs.Asking.{AsksBy};
ghost use Rattle.job_loading.specs.Seen.{read_view};
ghost use Rattle.job_commands.specs.Preparing.{CompilesScript, RefusesScripts};
ghost use Rattle.pipe_command.specs.Answering.{kind_of};
ghost use Rattle.pipe_command.specs.Pipelines.{Pipes, PipesJob, pipe_asked, texts_of};
ghost use Rattle.pipe_command.specs.Preparing.{CompilesPipe, PreparesSo, limits_of, pipe_view};

use crate::reading::{ReadPipe, read_pipe};
use command_parts::Stop;
use document_replies::WriteKind;
use job_commands::{LimitedScript, Limits, Script, VerifiedPrelude, is_test, script_of};
use json_bridge::Params;
use outer_io::Files;
use pipe_job::{PipeScript, PipedScript};
use std::alloc::{AllocError, Global};

/// A job over a pipeline, with the scripts of the pipeline in their order.
pub(crate) struct PreparedPipe {
    pub(crate) read: ReadPipe,
    pub(crate) scripts: Vec<PipedScript<LimitedScript>>,
}

impl Drop for PreparedPipe {
    fn drop(self) {
        let PreparedPipe {
            read: _read,
            scripts: _scripts,
        } = self;
    }
}

impl PreparedPipe {
    /// The job and its scripts.
    pub(crate) fn into_parts(self) -> (ReadPipe, Vec<PipedScript<LimitedScript>>)
        ensures read { result.0 ≡ self.read }
        ensures scripts { result.1 ≡ self.scripts }
    {
        let PreparedPipe { read, scripts } = self;
        (read, scripts)
    }
}

/// What the script of a path does with a document.
fn kind_of(path: &str) -> WriteKind
    ensures { result ≡ kind_of path.now }
{
    if is_test(path) {
        WriteKind::Test
    } else {
        WriteKind::Ingest
    }
}

/// The limits of a job but for the room.
fn limits_of(read: &ReadPipe) -> Limits
    ensures { result ≡ limits_of read.now }
{
    let limits = &read.found.job.limits;
    Limits {
        loops: limits.loops,
        depth: limits.depth,
        ticks: limits.ticks,
    }
}

/// The parameters of a script.
fn params_of(alloc: Global, read: &ReadPipe, script: &PipeScript) -> Result<Params, AllocError>
    ensures { IfOk result (λ params. view params.json ≡ script.now.params) }
{
    Params::new(alloc, script.params.get().clone()?, read.found.seed)
}

/// A script that is compiled, with its kind and its parameters.
fn piped(
    alloc: Global,
    read: &ReadPipe,
    script: &PipeScript,
    compiled: Script,
) -> Result<PipedScript<LimitedScript>, AllocError>
    ensures script { IfOk result (λ x. x.script ≡ record { script = compiled; limits = limits_of read.now }) }
    ensures kind { IfOk result (λ x. x.kind ≡ kind_of script.now.path) }
    ensures params { IfOk result (λ x. view x.params.json ≡ script.now.params) }
{
    let params = params_of(alloc, read, script)?;
    Ok(PipedScript {
        script: LimitedScript {
            script: compiled,
            limits: limits_of(read),
        },
        kind: kind_of(script.path.as_str()),
        params,
    })
}

/// A script of a pipeline that is compiled.
fn compiled(
    alloc: Global,
    read: &ReadPipe,
    prelude: &VerifiedPrelude,
    script: &PipeScript,
) -> Result<Script, Stop>
    ensures told { CompilesScript (read_view read.now.found) script.now.path script.now.text result }
    ensures quiet { IfErr result (λ stop. stop ≢ Stop.FileFault) }
{
    script_of(
        alloc,
        &read.found,
        prelude,
        script.path.as_str(),
        script.text.as_str(),
    )
}

/// Puts a script last.
fn push_script(
    scripts: &mut Vec<PipedScript<LimitedScript>>,
    script: PipedScript<LimitedScript>,
) -> Result<(), AllocError>
    ensures { OnOk result (scripts.new.items ≡ scripts.old.items ++ script ∷ []) }
{
    scripts.push(script)?;
    Ok(())
}

/// The scripts of a pipeline, in their order.
fn scripts_of(
    alloc: Global,
    read: &ReadPipe,
    prelude: &VerifiedPrelude,
    scripts: &[PipeScript],
) -> Result<Vec<PipedScript<LimitedScript>>, Stop>
    ensures compiled { IfOk result (λ xs. CompilesPipe read.now scripts.now (Ok xs.items)) }
    ensures refused { IfErr result (λ stop. RefusesScripts (read_view read.now.found) (texts_of scripts.now) stop) }
    ensures quiet { IfErr result (λ stop. stop ≢ Stop.FileFault) }
{
    let mut all = Vec::new(alloc);
    for script in scripts {
        let compiled = compiled(alloc, read, prelude, script)?;
        let one = piped(alloc, read, script, compiled)?;
        push_script(&mut all, one)?;
    }
    Ok(all)
}

/// The scripts of the pipeline of a job.
fn scripts_in(alloc: Global, read: &ReadPipe) -> Result<Vec<PipedScript<LimitedScript>>, Stop>
    ensures compiled { IfOk result (λ xs. CompilesPipe read.now read.now.pipeline.scripts (Ok xs.items)) }
    ensures refused { IfErr result (λ stop. RefusesScripts (read_view read.now.found) (texts_of read.now.pipeline.scripts) stop) }
    ensures quiet { IfErr result (λ stop. stop ≢ Stop.FileFault) }
{
    let prelude = VerifiedPrelude::new(alloc)?;
    scripts_of(alloc, read, &prelude, read.pipeline.scripts())
}

/// A job that was read, with its scripts, or why the command ends: a script is refused, or memory ran out.
fn prepare_read(alloc: Global, read: ReadPipe) -> Result<PreparedPipe, Stop>
    ensures told { PreparesSo (Pipes (pipe_view read)) result }
    ensures quiet { IfErr result (λ stop. stop ≢ Stop.FileFault) }
{
    let scripts = scripts_in(alloc, &read)?;
    Ok(PreparedPipe { read, scripts })
}

/// The job in the file of a name, with its scripts, or why the command ends.
pub(crate) fn prepare<F: Files>(
    alloc: Global,
    name: &str,
    files: &mut F,
) -> Result<PreparedPipe, Stop>
    ensures told { (content : List ℕ → Option (List ℕ)) × IfSome (F.content files.old) (λ known. known ≡ content)
        × PreparesSo (PipesJob content name.now) result }
    ensures kept { F.content files.new ≡ F.content files.old }
    ensures cause { HasCause Stop.FileFault (F.faults files.old) (F.faults files.new) result }
    ensures asked { AsksBy (F.content files.old) (F.asked files.old) (F.asked files.new) (pipe_asked name.now) }
{
    let read = read_pipe(alloc, name, files)?;
    prepare_read(alloc, read)
}
