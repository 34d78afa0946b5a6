//! Files, inputs and sinks in memory, and the commands over them.
ghost use Rattle.std.specs.Prelude.{◌≤◌};

use command_parts::{Report, Status};
use job_commands::{check, list, run};
use outer_io::{MemFiles, MemSink, MemSource};
use std::alloc::{AllocError, Global};

/// The allowlist that stands under the name `list`.
pub const LIST: &str = "class java.util.List {\ndef get(int)\n}\n";

/// One that is wrong at line 3.
pub const BAD_LIST: &str = "class java.util.List {\n\nclass X\n}\n";

/// One whose class is unknown.
pub const UNKNOWN_LIST: &str = "class java.util.Lisst {\n";

/// The files `job`, `list`, `bad`, `unknown` and `long`.
fn files_of(alloc: Global, job: &[u8]) -> Result<Vec<(String, Vec<u8>)>, AllocError> {
    let mut contents = Vec::new(alloc);
    contents.push((
        String::from_str(alloc, "job")?,
        Vec::from_slice(alloc, job)?,
    ))?;
    for (name, text) in [("list", LIST), ("bad", BAD_LIST), ("unknown", UNKNOWN_LIST)] {
        contents.push((
            String::from_str(alloc, name)?,
            Vec::from_slice(alloc, text.as_bytes())?,
        ))?;
    }
    contents.push((
        String::from_str(alloc, "long")?,
        vec![in alloc; b' '; 1_048_577]?,
    ))?;
    Ok(contents)
}

/// What `check` writes of the job in `job`, and its status.
pub fn checked(alloc: Global, name: &str, job: &[u8]) -> Result<(Vec<u8>, Status), AllocError> {
    let mut files = MemFiles::new(files_of(alloc, job)?, Vec::new(alloc));
    let mut out = MemSink::new(alloc, 7, Vec::new(alloc));
    let report = check(alloc, name, &mut files, &mut out);
    Ok((Vec::from_slice(alloc, out.bytes())?, report.status))
}

/// What `list` writes of a job, and its report.
pub fn listed(alloc: Global, job: &[u8]) -> Result<(Vec<u8>, Report), AllocError> {
    let mut files = MemFiles::new(files_of(alloc, job)?, Vec::new(alloc));
    let mut out = MemSink::new(alloc, 7, Vec::new(alloc));
    let report = list(alloc, "job", &mut files, &mut out);
    Ok((Vec::from_slice(alloc, out.bytes())?, report))
}

/// How `check` ends of the job in `job`, where the call of the files with this number fails.
pub fn failed_at(alloc: Global, job: &[u8], number: u64) -> Result<Status, AllocError> {
    let mut files = MemFiles::new(files_of(alloc, job)?, Vec::from_slice(alloc, &[number])?);
    let mut out = MemSink::new(alloc, 7, Vec::new(alloc));
    Ok(check(alloc, "job", &mut files, &mut out).status)
}

/// How a source and a sink are called: how many bytes a call of each takes at most, and which calls fail.
#[derive(Drop)]
pub struct Pieces {
    pub taken: usize,
    pub given: usize,
    pub source_fails: u64,
    pub sink_fails: u64,
}

/// Whole pieces, and no faults.
pub const WHOLE: Pieces = Pieces {
    taken: 65_536,
    given: 65_536,
    source_fails: 0,
    sink_fails: 0,
};

/// What `run` writes of the job in `job` over an input, and its report.
pub fn reported(
    alloc: Global,
    job: &[u8],
    input: &[u8],
    pieces: &Pieces,
) -> Result<(Vec<u8>, Report), AllocError>
    requires taken { 1 ≤ pieces.now.taken }
    requires given { 1 ≤ pieces.now.given }
{
    let mut files = MemFiles::new(files_of(alloc, job)?, Vec::new(alloc));
    let mut source = MemSource::new(
        Vec::from_slice(alloc, input)?,
        pieces.taken,
        Vec::from_slice(alloc, &[pieces.source_fails])?,
    );
    let mut out = MemSink::new(
        alloc,
        pieces.given,
        Vec::from_slice(alloc, &[pieces.sink_fails])?,
    );
    let report = run(alloc, "job", &mut files, &mut source, &mut out);
    Ok((Vec::from_slice(alloc, out.bytes())?, report))
}

/// What `run` writes of the job in `job` over an input, and its status.
pub fn ran(
    alloc: Global,
    job: &[u8],
    input: &[u8],
    pieces: &Pieces,
) -> Result<(Vec<u8>, Status), AllocError>
    requires taken { 1 ≤ pieces.now.taken }
    requires given { 1 ≤ pieces.now.given }
{
    let (bytes, report) = reported(alloc, job, input, pieces)?;
    Ok((bytes, report.status))
}
