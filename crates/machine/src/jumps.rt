//! Locals, jumps and loops.
ghost use Rattle.std.specs.Prelude.{◌≡◌, ◌<◌, ◌+◌, ◌^◌, ◌∷◌, suc, slice_get, slice_set};
ghost use Rattle.code_meaning.specs.Machine.{numbered_act, on_local, on_top, on_turn, to_line, Goes, code_in, on_int, unless_zero};
ghost use Rattle.run_state.specs.World.{take_turn};
ghost use Rattle.machine.specs.Seen.{Comes, room_of, world_of, codes_in, limits_in};
ghost use Rattle.machine.specs.Sparing.{LocalBare, NumberedSpares};
ghost use Rattle.machine.specs.Memory.{CallFinds, HasMemory};

use crate::calls::call;
use crate::configuration::{Configuration, Limits, RunEnd, Step};
use crate::container_rows::{Collected, collect};
use crate::operands::pop_int;
use crate::references::jump_if_null;
use code_meaning::Word;
use machine_parts::{Executable, copy_of};
use object_heap::Which;
use pl_code::Numbered;
use std::mem::forget;

/// An instruction with a number.
#[inline(always)]
#[tactic(auto, using(crate::proofs::Rows::no_int))]
pub fn numbered(
    run: &mut Configuration,
    executable: &Executable,
    limits: &Limits,
    kind: Numbered,
    number: u32,
) -> Step
    requires { run.old.frames.top.turns + run.old.world.ticks < 2 ^ 64 }
    ensures exact { Comes (numbered_act (codes_in executable.now) (limits_in executable.now limits.now) kind number run.old.frames.top run.old.frames.below (world_of run.old.world)) result run.new }
    ensures memory { NumberedSpares kind number run.old.frames.top.locals → CallFinds limits.now.depth (slice_get (code_in (codes_in executable.now) run.old.frames.top.text) number) run.old.frames → run.old.frames.count < run.old.frames.words → suc run.old.frames.top.line < 2 ^ 64 → HasMemory result }
    ensures room { room_of run.new ≡ room_of run.old }
{
    match kind {
        Numbered::Load => load(run, number),
        Numbered::Store => store(run, number),
        Numbered::Goto => run.goes_to(number),
        Numbered::IfZero => match pop_int(&mut run.frames) {
            Some(0) => run.goes_to(number),
            Some(_) => run.goes_on(),
            None => Step::Stuck,
        },
        Numbered::IfNotZero => match pop_int(&mut run.frames) {
            Some(0) => run.goes_on(),
            Some(_) => run.goes_to(number),
            None => Step::Stuck,
        },
        Numbered::IfNull => jump_if_null(run, number),
        Numbered::Loop => match executable.function_at(&run.frames, run.frames.fun()) {
            Some(function) => repeat(run, executable, limits, function.loops, number),
            None => Step::Stuck,
        },
        Numbered::List => collect(run, executable, limits, Collected::List, number as usize),
        Numbered::Map => collect(run, executable, limits, Collected::Map, 2 * number as usize),
        Numbered::Call => call(run, executable, limits, number),
    }
}

// The local of this number goes on the stack. A copy of a text takes memory.
#[inline(always)]
fn load(run: &mut Configuration, number: u32) -> Step
    ensures exact { Comes (on_local (slice_get run.old.frames.top.locals number) (λ word. to_line run.old.frames.top run.old.frames.below (world_of run.old.world) (suc run.old.frames.top.line) (word ∷ run.old.frames.top.stack))) result run.new }
    ensures memory { run.old.frames.count < run.old.frames.words → LocalBare (slice_get run.old.frames.top.locals number) → suc run.old.frames.top.line < 2 ^ 64 → HasMemory result }
    ensures room { room_of run.new ≡ room_of run.old }
{
    match run.frames.local(number as usize) {
        Some(Word::I(a)) => {
            let number = *a;
            run.push(Word::I(number))
        }
        Some(Word::J(a)) => {
            let number = *a;
            run.push(Word::J(number))
        }
        _ => load_word(run, number),
    }
}

// The same of every word.
fn load_word(run: &mut Configuration, number: u32) -> Step
    ensures exact { Comes (on_local (slice_get run.old.frames.top.locals number) (λ word. to_line run.old.frames.top run.old.frames.below (world_of run.old.world) (suc run.old.frames.top.line) (word ∷ run.old.frames.top.stack))) result run.new }
    ensures memory { run.old.frames.count < run.old.frames.words → LocalBare (slice_get run.old.frames.top.locals number) → suc run.old.frames.top.line < 2 ^ 64 → HasMemory result }
    ensures room { room_of run.new ≡ room_of run.old }
{
    match run.frames.local(number as usize) {
        Some(word) => match copy_of(word) {
            Ok(word) => run.push(word),
            Err(_) => Step::NoMemory,
        },
        None => Step::Stuck,
    }
}

#[inline(always)]
fn store(run: &mut Configuration, number: u32) -> Step
    ensures exact { Comes (on_top run.old.frames.top.stack (λ word stack. Goes (record { top = record { text = run.old.frames.top.text; fun = run.old.frames.top.fun; line = suc run.old.frames.top.line; locals = slice_set run.old.frames.top.locals number word; stack = stack; turns = run.old.frames.top.turns; due = run.old.frames.top.due }; below = run.old.frames.below; world = world_of run.old.world }))) result run.new }
    ensures memory { suc run.old.frames.top.line < 2 ^ 64 → HasMemory result }
    ensures room { room_of run.new ≡ room_of run.old }
{
    match run.frames.pop() {
        Some(word) => put(run, number as usize, word),
        None => Step::Stuck,
    }
}

// Writes a word that was taken off the stack into a local. Of a number no more is read and written than the number itself.
#[inline(always)]
fn put(run: &mut Configuration, number: usize, word: Word) -> Step
    ensures exact { Comes (Goes (record { top = record { text = run.old.frames.top.text; fun = run.old.frames.top.fun; line = suc run.old.frames.top.line; locals = slice_set run.old.frames.top.locals number word; stack = run.old.frames.top.stack; turns = run.old.frames.top.turns; due = run.old.frames.top.due }; below = run.old.frames.below; world = world_of run.old.world })) result run.new }
    ensures memory { suc run.old.frames.top.line < 2 ^ 64 → HasMemory result }
    ensures room { room_of run.new ≡ room_of run.old }
{
    match &word {
        Word::I(a) => {
            let held = *a;
            forget(word);
            run.frames.store(number, Word::I(held));
            run.goes_on()
        }
        Word::J(a) => {
            let held = *a;
            forget(word);
            run.frames.store(number, Word::J(held));
            run.goes_on()
        }
        Word::R(_) => {
            run.frames.store(number, word);
            run.goes_on()
        }
    }
}

// A turn of a loop where the number on the stack is not 0.
#[inline(always)]
fn repeat(
    run: &mut Configuration,
    executable: &Executable,
    limits: &Limits,
    limited: bool,
    line: u32,
) -> Step
    requires { run.old.frames.top.turns + run.old.world.ticks < 2 ^ 64 }
    ensures exact { Comes (on_top run.old.frames.top.stack (λ word stack. on_int word (λ a. unless_zero a (on_turn (codes_in executable.now) (limits_in executable.now limits.now) (take_turn (limits_in executable.now limits.now) limited run.old.frames.top.turns (world_of run.old.world)) line run.old.frames.top run.old.frames.below (world_of run.old.world) stack) (to_line run.old.frames.top run.old.frames.below (world_of run.old.world) (suc run.old.frames.top.line) stack)))) result run.new }
    ensures memory { suc run.old.frames.top.line < 2 ^ 64 → HasMemory result }
    ensures room { room_of run.new ≡ room_of run.old }
{
    match pop_int(&mut run.frames) {
        Some(0) => run.goes_on(),
        Some(_) => turn(run, executable, limits, limited, line),
        None => Step::Stuck,
    }
}

// A turn of a loop, which goes back to a line. Where the function has a limit of turns, it is tried before the ticks.
#[inline(always)]
#[tactic(auto, unfolding(run_state::specs::World::take_turn, run_state::specs::World::pay_tick))]
fn turn(
    run: &mut Configuration,
    executable: &Executable,
    limits: &Limits,
    limited: bool,
    line: u32,
) -> Step
    requires { run.old.frames.top.turns + run.old.world.ticks < 2 ^ 64 }
    ensures exact { Comes (on_turn (codes_in executable.now) (limits_in executable.now limits.now) (take_turn (limits_in executable.now limits.now) limited run.old.frames.top.turns (world_of run.old.world)) line run.old.frames.top run.old.frames.below (world_of run.old.world) run.old.frames.top.stack) result run.new }
    ensures memory { HasMemory result }
    ensures room { room_of run.new ≡ room_of run.old }
{
    let turns = run.frames.turns();
    if limited && turns >= limits.loops {
        run.end = RunEnd::Limit {
            limit: Which::Loop,
            place: None,
        };
        return Step::Ends;
    }
    if run.world.ticks == 0 {
        run.end = RunEnd::Limit {
            limit: Which::Ticks,
            place: None,
        };
        return Step::Ends;
    }
    run.world.ticks -= 1;
    run.frames.set_turns(turns + 1);
    run.frames.set_line(line as usize);
    Step::Goes
}
