//! Files in memory.

ghost use Rattle.std.specs.Prelude.{◌≡◌, ◌↔◌, [], ◌∷◌, ◌++◌, Contains, Some, OnOk, IsOkUnless, IsErrOf};
ghost use Rattle.std.specs.Option.{option_copied};
ghost use Rattle.outer_io.specs.Asking.{AsksFront};
ghost use Rattle.outer_io.specs.Content.{IsWithin, Shows};
ghost use Rattle.outer_io.specs.Documents.{documents};
ghost use Rattle.outer_io.specs.Faults.{HasCause};
ghost use Rattle.outer_io.specs.Memory.{content_of, uncalled, number_of};

use crate::asked::Asked;
use crate::calls::Schedule;
use crate::files::{FileErr, Files, Found};
use std::alloc::Global;
use std::marker::Model;

/// Files in memory. There are no faults.
#[derive(Drop)]
pub struct SureFiles {
    files: Vec<(String, Vec<u8>)>,
    asked: Asked,
}

impl Model for SureFiles {
    ghost use Rattle.outer_io.specs.Memory.{Shelf};

    ghost Value = { Shelf };

    ghost use Rattle.outer_io.specs.Documents.{documents};

    ghost view = { λ s. record { documents = documents s.files.items; asked = s.asked } };
}

impl SureFiles {
    /// These files, each with its name. Of a name that stands twice the first counts.
    pub fn new(files: Vec<(String, Vec<u8>)>) -> SureFiles
        ensures { result ≡ record { documents = documents files.items; asked = [] } }
    {
        let asked = Asked::new(*files.allocator());
        SureFiles { files, asked }
    }
}

impl Files for SureFiles {
    ghost content = { λ s. Some (content_of s.documents) };

    ghost faults = { λ _. 0 };

    ghost asked = { λ s. s.asked };

    fn read(&mut self, alloc: Global, name: &str, limit: u64) -> Result<Found, FileErr>
        ensures within { IsWithin limit result }
        ensures shown { Shows (content_of self.old.documents name.now) limit result }
        ensures kept { self.new.documents ≡ self.old.documents }
        ensures cause { HasCause FileErr.Failed 0 0 result }
        ensures asks { AsksFront self.old.asked self.new.asked (name.now ∷ []) }
        ensures noted { OnOk result (self.new.asked ≡ self.old.asked ++ name.now ∷ []) }
        ensures failed { IsOkUnless result FileErr.NoMemory }
    {
        if self.asked.note(name).is_err() {
            return Err(FileErr::NoMemory);
        }
        match first_of_name(self.files.as_slice(), name) {
            None => Ok(Found::Absent),
            Some(bytes) => copied_within(alloc, bytes, limit),
        }
    }
}

/// The bytes of the first file of a name.
fn first_of_name<'a>(files: &'a [(String, Vec<u8>)], name: &str) -> Option<&'a [u8]>
    ensures { content_of (documents files.now) name.now ≡ option_copied result }
{
    for (known, bytes) in files {
        if known.as_str() == name {
            return Some(bytes.as_slice());
        }
    }
    None
}

/// A file's bytes, or that it is longer than the limit.
fn copied_within(alloc: Global, bytes: &[u8], limit: u64) -> Result<Found, FileErr>
    ensures within { IsWithin limit result }
    ensures shown { Shows (Some bytes.now) limit result }
    ensures failed { IsOkUnless result FileErr.NoMemory }
{
    if bytes.len() as u64 > limit {
        return Ok(Found::Long);
    }
    match Vec::from_slice(alloc, bytes) {
        Ok(copy) => Ok(Found::Bytes(copy)),
        Err(_) => Err(FileErr::NoMemory),
    }
}

/// Files in memory. The calls with the listed numbers, counted from 1, fail.
#[derive(Drop)]
pub struct MemFiles {
    sure: SureFiles,
    schedule: Schedule,
}

impl Model for MemFiles {
    ghost use Rattle.outer_io.specs.Memory.{ScheduledShelf};

    ghost Value = { ScheduledShelf };

    ghost view = { λ s. record { shelf = s.sure; calls = s.schedule } };
}

impl MemFiles {
    /// These files, each with its name, whose calls of the numbers in `fails` fail. Of a name that
    /// stands twice the first counts.
    pub fn new(files: Vec<(String, Vec<u8>)>, fails: Vec<u64>) -> MemFiles
        ensures { result ≡ record { shelf = record { documents = documents files.items; asked = [] }; calls = uncalled fails.items } }
    {
        MemFiles {
            sure: SureFiles::new(files),
            schedule: Schedule::new(fails),
        }
    }
}

impl Files for MemFiles {
    ghost content = { λ s. Some (content_of s.shelf.documents) };

    ghost faults = { λ s. s.calls.faults };

    ghost asked = { λ s. s.shelf.asked };

    fn read(&mut self, alloc: Global, name: &str, limit: u64) -> Result<Found, FileErr>
        ensures within { IsWithin limit result }
        ensures shown { Shows (content_of self.old.shelf.documents name.now) limit result }
        ensures kept { self.new.shelf.documents ≡ self.old.shelf.documents }
        ensures cause { HasCause FileErr.Failed self.old.calls.faults self.new.calls.faults result }
        ensures asks { AsksFront self.old.shelf.asked self.new.shelf.asked (name.now ∷ []) }
        ensures noted { OnOk result (self.new.shelf.asked ≡ self.old.shelf.asked ++ name.now ∷ []) }
        ensures failed { IsErrOf result FileErr.Failed ↔ Contains self.old.calls.fails (number_of self.old.calls) }
        ensures numbered { self.new.calls.made ≡ number_of self.old.calls }
        ensures listed { self.new.calls.fails ≡ self.old.calls.fails }
    {
        if self.schedule.fails_now() {
            return Err(FileErr::Failed);
        }
        self.sure.read(alloc, name, limit)
    }
}
