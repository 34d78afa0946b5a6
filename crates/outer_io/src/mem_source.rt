//! Sources in memory.

ghost use Rattle.std.specs.Prelude.{◌≡◌, ◌≤◌, ◌↔◌, length, Contains, Some, Ok, IfOk, IsErrOf, min, take, drop};
ghost use Rattle.std.specs.Io.KnownBytes.{ReadConsumes};
ghost use Rattle.outer_io.specs.Faults.{HasCause};
ghost use Rattle.outer_io.specs.Memory.{uncalled, number_of};

use crate::calls::Schedule;
use crate::source::{Failed, Source};
use std::marker::Model;

/// Bytes in memory, of which a call takes at most so many, and never a fault.
#[derive(Drop)]
pub struct SureSource {
    bytes: Vec<u8>,
    taken: usize,
    most: usize,
}

impl Model for SureSource {
    ghost use Rattle.std.specs.Prelude.{◌≤◌, drop, vec_len};
    ghost use Rattle.outer_io.specs.Memory.{Supply};

    ghost Value = { Supply };

    ghost view = { λ s. record { left = drop s.taken s.bytes.items; most = s.most } };

    ghost invariant = { λ s. (s.taken ≤ vec_len s.bytes) × (1 ≤ s.most) };
}

impl SureSource {
    /// A source of these bytes, of which a call takes at most `most`.
    pub fn new(bytes: Vec<u8>, most: usize) -> SureSource
        requires { 1 ≤ most }
        ensures { result ≡ record { left = bytes.items; most = most } }
    {
        SureSource {
            bytes,
            taken: 0,
            most,
        }
    }
}

impl Source for SureSource {
    ghost left = { λ s. Some s.left };

    ghost faults = { λ _. 0 };

    fn take(&mut self, into: &mut [u8]) -> Result<usize, Failed>
        ensures bound { IfOk result (λ count. count ≤ length into.new) }
        ensures bytes { ReadConsumes (Some self.old.left) (Some self.new.left) result into.new }
        ensures cause { HasCause (record {}) 0 0 result }
        ensures count { result ≡ Ok (min self.old.most (min (length into.old) (length self.old.left))) }
        ensures most { self.new.most ≡ self.old.most }
    {
        let (_, behind) = self.bytes.split_at(self.taken);
        let count = copy_front(behind, into, self.most);
        self.taken += count;
        Ok(count)
    }
}

/// Copies the front of some bytes into the front of a piece, at most `most` of them, and says how
/// many.
fn copy_front(from: &[u8], into: &mut [u8], most: usize) -> usize
    ensures count { result ≡ min most (min (length into.old) (length from.now)) }
    ensures copied { take result into.new ≡ take result from.now }
{
    let count = most.min(into.len().min(from.len()));
    let (front, _) = from.split_at(count);
    into[..count].copy_from_slice(front);
    count
}

/// Bytes in memory, of which a call takes at most so many. The calls with the listed numbers,
/// counted from 1, fail.
#[derive(Drop)]
pub struct MemSource {
    sure: SureSource,
    schedule: Schedule,
}

impl Model for MemSource {
    ghost use Rattle.outer_io.specs.Memory.{ScheduledSupply};

    ghost Value = { ScheduledSupply };

    ghost view = { λ s. record { supply = s.sure; calls = s.schedule } };
}

impl MemSource {
    /// A source of these bytes, of which a call takes at most `most`, and whose calls of the
    /// numbers in `fails` fail.
    pub fn new(bytes: Vec<u8>, most: usize, fails: Vec<u64>) -> MemSource
        requires { 1 ≤ most }
        ensures { result ≡ record { supply = record { left = bytes.items; most = most }; calls = uncalled fails.items } }
    {
        MemSource {
            sure: SureSource::new(bytes, most),
            schedule: Schedule::new(fails),
        }
    }
}

impl Source for MemSource {
    ghost left = { λ s. Some s.supply.left };

    ghost faults = { λ s. s.calls.faults };

    fn take(&mut self, into: &mut [u8]) -> Result<usize, Failed>
        ensures bound { IfOk result (λ count. count ≤ length into.new) }
        ensures bytes { ReadConsumes (Some self.old.supply.left) (Some self.new.supply.left) result into.new }
        ensures cause { HasCause (record {}) self.old.calls.faults self.new.calls.faults result }
        ensures failed { IsErrOf result (record {}) ↔ Contains self.old.calls.fails (number_of self.old.calls) }
        ensures count { IfOk result (λ count. count ≡ min self.old.supply.most (min (length into.old) (length self.old.supply.left))) }
        ensures most { self.new.supply.most ≡ self.old.supply.most }
        ensures numbered { self.new.calls.made ≡ number_of self.old.calls }
        ensures listed { self.new.calls.fails ≡ self.old.calls.fails }
    {
        if self.schedule.fails_now() {
            return Err(Failed);
        }
        self.sure.take(into)
    }
}
