//! Instructions one after the other.
ghost use Rattle.std.specs.Prelude.{◌≡◌, ◌≤◌, true};
ghost use Rattle.machine_parts.specs.Rooms.{MembersWithin};
ghost use Rattle.machine_paths.specs.Fast.{Leads};
ghost use Rattle.machine.specs.Memory.{HasMemory, RunSpares};
ghost use Rattle.machine.specs.Runs.{RanOn, CountsFit};
ghost use Rattle.machine.specs.Seen.{configuration_of, room_of, codes_in, goes, limits_in};

use crate::configuration::{Configuration, Limits, Step};
use crate::step::step;
use machine_parts::{Executable, Frames};
use machine_paths::{FastRun, begins_fast, begins_values, run_fast, run_values};
use std::mem::{forget, replace};

// After so many instructions of the path of values that of numbers is tried.
const LONG_WAY: u64 = 4096;

/// How far a run has come.
#[derive(Drop)]
pub struct Ran {
    /// What came of the last instruction.
    pub last: Step,
    /// How many instructions were taken.
    pub steps: u64,
}

/// Takes so many instructions, or fewer where the run ends.
pub fn run_on(run: &mut Configuration, executable: &Executable, limits: &Limits, count: u64) -> Ran
    requires reached { MembersWithin executable.now run.old.world.reached.room }
    requires counts { CountsFit (configuration_of run.old) }
    ensures exact { RanOn (codes_in executable.now) (limits_in executable.now limits.now) count run.old result run.new }
    ensures memory { RunSpares executable.now (limits_in executable.now limits.now) count run.old → HasMemory result.last }
    ensures counts { goes result.last ≡ true → CountsFit (configuration_of run.new) }
    ensures room { room_of run.new ≡ room_of run.old }
{
    let mut taken = 0;
    'instructions: while taken < count {
        taken += run_paths(run, executable, limits, count - taken);
        if taken >= count {
            return Ran {
                last: Step::Goes,
                steps: count,
            };
        }
        run.frames.are_counted();
        let last = step(run, executable, limits);
        taken += 1;
        if !last.goes() {
            return Ran { last, steps: taken };
        }
    }
    Ran {
        last: Step::Goes,
        steps: count,
    }
}

// Takes instructions of the path of values, so many at most. Where it goes on for long, that of numbers is tried behind it, which is faster
// for them: so a loop that calls members enters one path a turn, and one on numbers alone comes to its own.
#[inline(always)]
#[tactic(auto, using(machine_paths::proofs::Counting::counts_led))]
fn run_paths(run: &mut Configuration, executable: &Executable, limits: &Limits, count: u64) -> u64
    requires counts { CountsFit (configuration_of run.old) }
    ensures exact { Leads (codes_in executable.now) (limits_in executable.now limits.now) result (configuration_of run.old) (configuration_of run.new) }
    ensures steps { result ≤ count }
    ensures room { room_of run.new ≡ room_of run.old }
{
    let most = if count < LONG_WAY { count } else { LONG_WAY };
    let values = run_others(run, executable, limits, most);
    if values < LONG_WAY {
        return values;
    }
    values + run_numbers(run, executable, limits, count - values)
}

// Takes instructions of the fast path, so many at most. Its frames are held by value, and others stand here meanwhile.
fn run_numbers(run: &mut Configuration, executable: &Executable, limits: &Limits, count: u64) -> u64
    requires counts { CountsFit (configuration_of run.old) }
    ensures exact { Leads (codes_in executable.now) (limits_in executable.now limits.now) result (configuration_of run.old) (configuration_of run.new) }
    ensures steps { result ≤ count }
    ensures room { room_of run.new ≡ room_of run.old }
{
    match executable.function_at(&run.frames, run.frames.fun()) {
        Some(function) => {
            if !begins_fast(&run.frames, function) {
                return 0;
            }
            let none = Frames::none(run.world.heap.alloc());
            let frames = replace(&mut run.frames, none);
            let FastRun {
                frames,
                ticks,
                steps,
            } = run_fast(
                frames,
                executable,
                function,
                limits.loops,
                limits.depth,
                run.world.ticks,
                count,
            );
            forget(replace(&mut run.frames, frames));
            run.world.ticks = ticks;
            steps
        }
        None => 0,
    }
}

// Takes instructions of the path of values, so many at most, in frames that are held by value too.
#[inline(always)]
fn run_others(run: &mut Configuration, executable: &Executable, limits: &Limits, count: u64) -> u64
    requires counts { CountsFit (configuration_of run.old) }
    ensures exact { Leads (codes_in executable.now) (limits_in executable.now limits.now) result (configuration_of run.old) (configuration_of run.new) }
    ensures steps { result ≤ count }
    ensures room { room_of run.new ≡ room_of run.old }
{
    match executable.function_at(&run.frames, run.frames.fun()) {
        Some(function) => {
            if !begins_values(&run.frames, function) {
                return 0;
            }
            let none = Frames::none(run.world.heap.alloc());
            let frames = replace(&mut run.frames, none);
            let FastRun {
                frames,
                ticks,
                steps,
            } = run_values(
                frames,
                executable,
                function,
                limits.loops,
                limits.depth,
                run.world.ticks,
                count,
            );
            forget(replace(&mut run.frames, frames));
            run.world.ticks = ticks;
            steps
        }
        None => 0,
    }
}
