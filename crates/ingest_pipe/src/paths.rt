//! Paths of places in a pipeline.

ghost use Rattle.std.specs.Prelude.{◌≡◌, IfOk, string_bytes};
ghost use Rattle.ingest_pipe.specs.Paths.{IsBadAt, below, numbered};

use crate::error::PipeErr;
use itoa::Buffer;
use std::alloc::{AllocError, Global};

/// The path of what has a name at a path.
pub(crate) fn below(alloc: Global, path: &str, name: &str) -> Result<String, AllocError>
    ensures { IfOk result (λ made. string_bytes made ≡ below path.now name.now) }
{
    let mut made = String::from_str(alloc, path)?;
    made.push('.')?;
    made.push_str(name)?;
    Ok(made)
}

/// The path of what has a number in the list of a path.
pub(crate) fn numbered(alloc: Global, path: &str, number: usize) -> Result<String, AllocError>
    ensures { IfOk result (λ made. string_bytes made ≡ numbered path.now number) }
{
    let mut buffer = Buffer::new();
    below(alloc, path, buffer.format(number))
}

/// The error that tells a path.
pub(crate) fn bad(alloc: Global, path: &str) -> PipeErr
    ensures { IsBadAt path.now result }
{
    match String::from_str(alloc, path) {
        Ok(path) => PipeErr::Bad(path),
        Err(_) => PipeErr::NoMemory,
    }
}

/// The error that tells the path of a name.
pub(crate) fn bad_below(alloc: Global, path: &str, name: &str) -> PipeErr
    ensures { IsBadAt (below path.now name.now) result }
{
    match below(alloc, path, name) {
        Ok(path) => PipeErr::Bad(path),
        Err(_) => PipeErr::NoMemory,
    }
}
