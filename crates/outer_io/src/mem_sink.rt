//! Sinks in memory.

ghost use Rattle.std.specs.Prelude.{◌≡◌, ◌<◌, ◌≤◌, ◌↔◌, [], length, Contains, Some, IfOk, IsOkUnless, IsErrOf, min};
ghost use Rattle.std.specs.Io.KnownBytes.{WriteAppends};
ghost use Rattle.outer_io.specs.Faults.{HasCause};
ghost use Rattle.outer_io.specs.Memory.{uncalled, number_of};

use crate::calls::Schedule;
use crate::sink::{Sink, SinkErr};
use std::alloc::Global;
use std::marker::Model;

/// A sink that keeps its bytes in memory, is given at most so many in a call, and has no faults.
#[derive(Drop)]
pub struct SureSink {
    bytes: Vec<u8>,
    most: usize,
    wants: u64,
}

impl Model for SureSink {
    ghost use Rattle.std.specs.Prelude.{◌≤◌};
    ghost use Rattle.outer_io.specs.Memory.{Store};

    ghost Value = { Store };

    ghost view = { λ s. record { held = s.bytes.items; most = s.most; wants = s.wants } };

    ghost invariant = { λ s. 1 ≤ s.most };
}

impl SureSink {
    /// A sink that holds nothing, and is given at most `most` bytes in a call.
    pub fn new(alloc: Global, most: usize) -> SureSink
        requires { 1 ≤ most }
        ensures { result ≡ record { held = []; most = most; wants = 0 } }
    {
        SureSink {
            bytes: Vec::new(alloc),
            most,
            wants: 0,
        }
    }

    /// What it was given.
    pub fn bytes(&self) -> &[u8]
        ensures { result.now ≡ self.now.held }
    {
        self.bytes.as_slice()
    }
}

impl Sink for SureSink {
    ghost held = { λ s. Some s.held };

    ghost faults = { λ _. 0 };

    ghost wants = { λ s. s.wants };

    fn give(&mut self, bytes: &[u8]) -> Result<usize, SinkErr>
        ensures bound { IfOk result (λ count. count ≤ length bytes.now) }
        ensures progress { IfOk result (λ count. 0 < length bytes.now → 0 < count) }
        ensures bytes { WriteAppends (Some self.old.held) (Some self.new.held) result bytes.now }
        ensures cause { HasCause SinkErr.Failed 0 0 result }
        ensures want { HasCause SinkErr.NoMemory self.old.wants self.new.wants result }
        ensures count { IfOk result (λ count. count ≡ min self.old.most (length bytes.now)) }
        ensures failed { IsOkUnless result SinkErr.NoMemory }
        ensures most { self.new.most ≡ self.old.most }
    {
        let count = self.most.min(bytes.len());
        let (front, _) = bytes.split_at(count);
        match self.bytes.extend_from_slice(front) {
            Ok(()) => Ok(count),
            Err(_) => {
                self.wants = self.wants.saturating_add(1);
                Err(SinkErr::NoMemory)
            }
        }
    }
}

/// A sink that keeps its bytes in memory, and is given at most so many in a call. The calls with
/// the listed numbers, counted from 1, fail.
#[derive(Drop)]
pub struct MemSink {
    sure: SureSink,
    schedule: Schedule,
}

impl Model for MemSink {
    ghost use Rattle.outer_io.specs.Memory.{ScheduledStore};

    ghost Value = { ScheduledStore };

    ghost view = { λ s. record { store = s.sure; calls = s.schedule } };
}

impl MemSink {
    /// A sink that holds nothing, is given at most `most` bytes in a call, and whose calls of the
    /// numbers in `fails` fail.
    pub fn new(alloc: Global, most: usize, fails: Vec<u64>) -> MemSink
        requires { 1 ≤ most }
        ensures { result ≡ record { store = record { held = []; most = most; wants = 0 }; calls = uncalled fails.items } }
    {
        MemSink {
            sure: SureSink::new(alloc, most),
            schedule: Schedule::new(fails),
        }
    }

    /// What it was given.
    pub fn bytes(&self) -> &[u8]
        ensures { result.now ≡ self.now.store.held }
    {
        self.sure.bytes()
    }
}

impl Sink for MemSink {
    ghost held = { λ s. Some s.store.held };

    ghost faults = { λ s. s.calls.faults };

    ghost wants = { λ s. s.store.wants };

    fn give(&mut self, bytes: &[u8]) -> Result<usize, SinkErr>
        ensures bound { IfOk result (λ count. count ≤ length bytes.now) }
        ensures progress { IfOk result (λ count. 0 < length bytes.now → 0 < count) }
        ensures bytes { WriteAppends (Some self.old.store.held) (Some self.new.store.held) result bytes.now }
        ensures cause { HasCause SinkErr.Failed self.old.calls.faults self.new.calls.faults result }
        ensures want { HasCause SinkErr.NoMemory self.old.store.wants self.new.store.wants result }
        ensures failed { IsErrOf result SinkErr.Failed ↔ Contains self.old.calls.fails (number_of self.old.calls) }
        ensures count { IfOk result (λ count. count ≡ min self.old.store.most (length bytes.now)) }
        ensures most { self.new.store.most ≡ self.old.store.most }
        ensures numbered { self.new.calls.made ≡ number_of self.old.calls }
        ensures listed { self.new.calls.fails ≡ self.old.calls.fails }
    {
        if self.schedule.fails_now() {
            return Err(SinkErr::Failed);
        }
        self.sure.give(bytes)
    }
}
