//! The command `pipe` over a job's file, an input and a sink in memory.

use outer_io::{MemFiles, MemSink, MemSource};
use painless::{Report, painless};
use std::alloc::{AllocError, Global};

/// The file `job`.
fn files_of(alloc: Global, job: &[u8]) -> Result<MemFiles, AllocError> {
    let mut contents = Vec::new(alloc);
    contents.push((
        String::from_str(alloc, "job")?,
        Vec::from_slice(alloc, job)?,
    ))?;
    Ok(MemFiles::new(contents, Vec::new(alloc)))
}

/// What `pipe` writes of the job in `job` over an input, and its report.
pub fn piped(alloc: Global, job: &str, input: &str) -> Result<(Vec<u8>, Report), AllocError> {
    let mut words = Vec::new(alloc);
    words.push(String::from_str(alloc, "pipe")?)?;
    words.push(String::from_str(alloc, "job")?)?;
    let mut files = files_of(alloc, job.as_bytes())?;
    let mut source = MemSource::new(
        Vec::from_slice(alloc, input.as_bytes())?,
        65_536,
        Vec::new(alloc),
    );
    let mut out = MemSink::new(alloc, 65_536, Vec::new(alloc));
    let report = painless(alloc, words.as_slice(), &mut files, &mut source, &mut out);
    Ok((Vec::from_slice(alloc, out.bytes())?, report))
}
