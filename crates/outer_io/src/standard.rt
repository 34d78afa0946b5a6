//! The standard streams and the file system, as a source, a sink and files.

ghost use Rattle.std.specs.Prelude.{◌≡◌, ◌↔◌, [], None, Some, IfSome, IsOk, IfOk, IfErr, IsTrue};
ghost use Rattle.std.specs.IoError.{error_kind};
ghost use Rattle.outer_io.specs.Content.{IsWithin, Shows};

use crate::asked::Asked;
use crate::files::{FileErr, Files, Found};
use crate::sink::{Sink, SinkErr};
use crate::source::{Failed, Source};
use std::alloc::Global;
use std::fs::File;
use std::io::{Error, ErrorKind, Read, Write};
use std::{io, rt};

/// A source that reads from a reader, as the standard input. It tells what its reader tells,
/// and so nothing of the standard input.
#[derive(Drop)]
pub struct StdSource<R> {
    reader: R,
    faults: u64,
}

impl<R> StdSource<R> {
    /// A source over a reader. Each of its errors is a fault.
    pub fn new(reader: R) -> StdSource<R>
        ensures { result ≡ record { reader = reader; faults = 0 } }
    {
        StdSource { reader, faults: 0 }
    }
}

impl<R: Read> Source for StdSource<R> {
    ghost left = { λ s. R.remaining s.reader };

    ghost faults = { λ s. s.faults };

    fn take(&mut self, into: &mut [u8]) -> Result<usize, Failed> {
        match self.reader.read(into) {
            Ok(count) => Ok(count),
            Err(_) => {
                self.faults = self.faults.saturating_add(1);
                Err(Failed)
            }
        }
    }
}

/// A sink that writes to a writer, as the standard output. It tells what its writer tells,
/// and so nothing of the standard output.
#[derive(Drop)]
pub struct StdSink<W> {
    writer: W,
    faults: u64,
    wants: u64,
}

impl<W> StdSink<W> {
    /// A sink over a writer. Each of its errors is a fault, but want of memory.
    pub fn new(writer: W) -> StdSink<W>
        ensures { result ≡ record { writer = writer; faults = 0; wants = 0 } }
    {
        StdSink {
            writer,
            faults: 0,
            wants: 0,
        }
    }
}

impl<W: Write> Sink for StdSink<W> {
    ghost held = { λ s. W.contents s.writer };

    ghost faults = { λ s. s.faults };

    ghost wants = { λ s. s.wants };

    fn give(&mut self, bytes: &[u8]) -> Result<usize, SinkErr> {
        match self.writer.write(bytes) {
            Ok(count) if 0 < count || bytes.is_empty() => Ok(count),
            Ok(_) => {
                self.faults = self.faults.saturating_add(1);
                Err(SinkErr::Failed)
            }
            Err(error) => {
                if is_want_of_memory(&error) {
                    self.wants = self.wants.saturating_add(1);
                    return Err(SinkErr::NoMemory);
                }
                self.faults = self.faults.saturating_add(1);
                Err(SinkErr::Failed)
            }
        }
    }
}

/// The files of a file system. They tell no content.
#[derive(Drop)]
pub struct StdFiles<S> {
    system: S,
    faults: u64,
    asked: Asked,
}

impl<S> StdFiles<S> {
    /// The files of a file system. Each of its errors is a fault, but that there is no such
    /// file and want of memory.
    pub fn new(alloc: Global, system: S) -> StdFiles<S>
        ensures { result ≡ record { system = system; faults = 0; asked = [] } }
    {
        StdFiles {
            system,
            faults: 0,
            asked: Asked::new(alloc),
        }
    }
}

impl<S: rt::Files> Files for StdFiles<S> {
    ghost content = { λ _. None };

    ghost faults = { λ s. s.faults };

    ghost asked = { λ s. s.asked };

    fn read(&mut self, alloc: Global, name: &str, limit: u64) -> Result<Found, FileErr> {
        if self.asked.note(name).is_err() {
            return Err(FileErr::NoMemory);
        }
        let answer = match File::open(&self.system, name) {
            Ok(file) => read_within(alloc, file, limit),
            Err(error) => absent_or(error),
        };
        match answer {
            Ok(found) => Ok(found),
            Err(error) => {
                if is_want_of_memory(&error) {
                    return Err(FileErr::NoMemory);
                }
                self.faults = self.faults.saturating_add(1);
                Err(FileErr::Failed)
            }
        }
    }
}

/// No file, where the system says that it found none, and else the error that it gave.
fn absent_or(error: Error) -> io::Result<Found>
    ensures absent { IsOk result ↔ (error_kind error ≡ ErrorKind.NotFound) }
    ensures found { IfOk result (λ found. found ≡ Found.Absent) }
    ensures other { IfErr result (λ same. same ≡ error) }
{
    if error.kind() == ErrorKind::NotFound {
        Ok(Found::Absent)
    } else {
        Err(error)
    }
}

/// What a reader has left, where that is at most `limit` bytes, of which it is asked for one more
/// at most.
fn read_within<R: Read + Drop>(alloc: Global, reader: R, limit: u64) -> io::Result<Found>
    ensures within { IsWithin limit result }
    ensures shown { IfSome (R.remaining reader) (λ bytes. Shows (Some bytes) limit result) }
{
    let mut bytes = Vec::new(alloc);
    let count = reader
        .take(limit.saturating_add(1))
        .read_to_end(&mut bytes)?;
    if count as u64 > limit {
        return Ok(Found::Long);
    }
    Ok(Found::Bytes(bytes))
}

/// Whether an error says that memory was wanting.
fn is_want_of_memory(error: &Error) -> bool
    ensures { IsTrue result ↔ (error_kind error.now ≡ ErrorKind.OutOfMemory) }
{
    error.kind() == ErrorKind::OutOfMemory
}
