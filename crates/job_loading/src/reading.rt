//! A job and its allowlist.

ghost use Rattle.std.specs.Prelude.{◌≡◌, ◌≢◌, ◌≤◌, ℕ, List, [], ◌∷◌, Option, Some, IfErr, IfOk, IfSome, length, option_map, string_bytes};
ghost use Rattle.allowlist.specs.Allow.{full_list};
ghost use Rattle.allowlist.specs.Files.{allowlist_of};
ghost use Rattle.outer_io.specs.Asking.{AsksFront};
ghost use Rattle.outer_io.specs.Faults.{HasCause};
ghost use Rattle.job_file.specs.Answers.{fields_view, job_view};
ghost use Rattle.search_ctx.specs.Fields.{HasDistinctNames};
ghost use Rattle.search_ctx.specs.Seeds.{seed_of};
ghost use Rattle.command_parts.specs.Asking.{AsksBy};
ghost use Rattle.command_parts.specs.Files.{file_told};
ghost use Rattle.command_parts.specs.Stops.{ComesSo};
ghost use Rattle.command_parts.specs.Told.{file_limit};
ghost use Rattle.job_loading.specs.Asked.{asked_behind, job_asked, list_asked};
ghost use Rattle.job_loading.specs.Loading.{job_in_bytes, job_told, job_under, list_in_file, list_named, list_told, with_list};
ghost use Rattle.job_loading.specs.Seen.{read_view};

use crate::stops::{job_refused, list_refused};
use allowlist::{Allow, Catalogue};
use command_parts::{Stop, read_file};
use job_file::{Job, JobCommand};
use outer_io::Files;
use search_ctx::{Seed, job_fields_are_distinct};
use std::alloc::Global;

/// A job, and the list of what its scripts may use.
pub struct ReadJob {
    pub job: Job,
    pub allow: Allow,
    /// From what the heaps of its runs are made, beside their documents: the bytes of its file.
    pub seed: Seed,
}

impl Drop for ReadJob {
    fn drop(self) {
        let ReadJob {
            job: _job,
            allow: _allow,
            seed: _,
        } = self;
    }
}

/// The job of the bytes of a job file.
pub fn job_of(alloc: Global, command: JobCommand, bytes: &[u8]) -> Result<Job, Stop>
    ensures told { ComesSo job_view result (job_told (job_in_bytes command bytes.now)) }
    ensures distinct { IfOk result (λ job. HasDistinctNames (fields_view job.mapping.fields.items)) }
    ensures quiet { IfErr result (λ stop. stop ≢ Stop.FileFault) }
{
    job_fields_are_distinct();
    match Job::read(alloc, bytes, command) {
        Ok(job) => Ok(job),
        Err(error) => Err(job_refused(alloc, &error)),
    }
}

/// The list of the bytes of an allowlist file.
fn list_of(alloc: Global, bytes: &[u8]) -> Result<Allow, Stop>
    ensures told { ComesSo (λ allow. allow) result (list_told (allowlist_of bytes.now)) }
    ensures quiet { IfErr result (λ stop. stop ≢ Stop.FileFault) }
{
    match Allow::read(alloc, bytes) {
        Ok(allow) => Ok(allow),
        Err(error) => Err(list_refused(alloc, &error)),
    }
}

/// The list in the file of a name.
fn list_read<F: Files>(alloc: Global, name: &str, files: &mut F) -> Result<Allow, Stop>
    ensures told { (found : Option (List ℕ)) × IfSome (F.content files.old) (λ known. known name.now ≡ found) × ComesSo (λ allow. allow) result (list_in_file (file_told found)) }
    ensures kept { F.content files.new ≡ F.content files.old }
    ensures cause { HasCause Stop.FileFault (F.faults files.old) (F.faults files.new) result }
    ensures asks { AsksFront (F.asked files.old) (F.asked files.new) (name.now ∷ []) }
{
    let bytes = read_file(alloc, name, files)?;
    list_of(alloc, bytes.as_slice())
}

/// The list in the file of a name, where the job's own file has a name and these bytes. No file is read twice.
fn list_named<F: Files>(
    alloc: Global,
    allow: &str,
    name: &str,
    bytes: &[u8],
    files: &mut F,
) -> Result<Allow, Stop>
    requires short { length bytes.now ≤ file_limit }
    requires shown { IfSome (F.content files.old) (λ known. known name.now ≡ Some bytes.now) }
    ensures told { (found : Option (List ℕ)) × IfSome (F.content files.old) (λ known. known allow.now ≡ found) × (allow.now ≡ name.now → found ≡ Some bytes.now)
        × ComesSo (λ allow. allow) result (list_in_file (file_told found)) }
    ensures kept { F.content files.new ≡ F.content files.old }
    ensures cause { HasCause Stop.FileFault (F.faults files.old) (F.faults files.new) result }
    ensures asks { AsksFront (F.asked files.old) (F.asked files.new) (list_asked name.now (Some allow.now)) }
{
    if allow == name {
        list_of(alloc, bytes)
    } else {
        list_read(alloc, allow, files)
    }
}

/// The list of a job whose own file has a name and these bytes.
pub fn list_for<F: Files>(
    alloc: Global,
    job: &Job,
    name: &str,
    bytes: &[u8],
    files: &mut F,
) -> Result<Allow, Stop>
    requires short { length bytes.now ≤ file_limit }
    requires shown { IfSome (F.content files.old) (λ known. known name.now ≡ Some bytes.now) }
    ensures told { (content : List ℕ → Option (List ℕ)) × IfSome (F.content files.old) (λ known. known ≡ content) × (content name.now ≡ Some bytes.now)
        × ComesSo (λ allow. allow) result (list_named content (option_map string_bytes job.now.allow)) }
    ensures kept { F.content files.new ≡ F.content files.old }
    ensures cause { HasCause Stop.FileFault (F.faults files.old) (F.faults files.new) result }
    ensures asks { AsksFront (F.asked files.old) (F.asked files.new) (list_asked name.now (option_map string_bytes job.now.allow)) }
{
    match &job.allow {
        Some(allow) => list_named(alloc, allow.as_str(), name, bytes, files),
        None => Ok(Catalogue::full(alloc)?),
    }
}

/// From what the heaps of a job's runs are made, beside their documents, which changes no answer.
pub fn seed_of(bytes: &[u8]) -> Seed
    ensures { result ≡ seed_of bytes.now }
{
    Seed::of(bytes)
}

/// The job in the bytes of the file of a name, with its list.
fn job_with_list<F: Files>(
    alloc: Global,
    command: JobCommand,
    name: &str,
    bytes: &[u8],
    files: &mut F,
) -> Result<ReadJob, Stop>
    requires short { length bytes.now ≤ file_limit }
    requires shown { IfSome (F.content files.old) (λ known. known name.now ≡ Some bytes.now) }
    ensures told { (content : List ℕ → Option (List ℕ)) × IfSome (F.content files.old) (λ known. known ≡ content) × (content name.now ≡ Some bytes.now)
        × ComesSo read_view result (with_list content (job_told (job_in_bytes command bytes.now))) }
    ensures distinct { IfOk result (λ found. HasDistinctNames (fields_view found.job.mapping.fields.items)) }
    ensures kept { F.content files.new ≡ F.content files.old }
    ensures cause { HasCause Stop.FileFault (F.faults files.old) (F.faults files.new) result }
    ensures asks { AsksFront (F.asked files.old) (F.asked files.new) (asked_behind name.now (job_told (job_in_bytes command bytes.now))) }
{
    let job = job_of(alloc, command, bytes)?;
    let allow = list_for(alloc, &job, name, bytes, files)?;
    let seed = seed_of(bytes);
    Ok(ReadJob { job, allow, seed })
}

/// The job in the file of a name, with its list, for a command, or why the command ends: a file is absent or too long, or could
/// not be read; the job or its allowlist is refused; or memory ran out. The job's own file comes first.
pub fn read_job<F: Files>(
    alloc: Global,
    command: JobCommand,
    name: &str,
    files: &mut F,
) -> Result<ReadJob, Stop>
    ensures told { (content : List ℕ → Option (List ℕ)) × IfSome (F.content files.old) (λ known. known ≡ content)
        × ComesSo read_view result (job_under command content name.now) }
    // No field stands twice in the mapping.
    ensures distinct { IfOk result (λ found. HasDistinctNames (fields_view found.job.mapping.fields.items)) }
    ensures kept { F.content files.new ≡ F.content files.old }
    ensures cause { HasCause Stop.FileFault (F.faults files.old) (F.faults files.new) result }
    // The names that were asked for are a front of these: the job's file, and then the allowlist that the job names.
    ensures asked { AsksBy (F.content files.old) (F.asked files.old) (F.asked files.new) (job_asked command name.now) }
{
    let bytes = read_file(alloc, name, files)?;
    job_with_list(alloc, command, name, bytes.as_slice(), files)
}
