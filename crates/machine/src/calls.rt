//! Calls and returns.
ghost use Rattle.std.specs.Prelude.{◌≤◌, ◌<◌, ◌+◌, ◌^◌, ◌≡◌, ◌∷◌, ◌++◌, [], suc, Some, None, map, length, slice_get, IsNone};
ghost use Rattle.pl_code.specs.declared.code.FunCode.{FunCode};
ghost use Rattle.run_state.specs.World.{Ground, enter};
ghost use Rattle.code_meaning.specs.Words as words;
ghost use Rattle.code_meaning.specs.declared.word.Word.{Word};
ghost use Rattle.code_meaning.specs.Machine as spec;
ghost use Rattle.code_meaning.specs.Machine.{Goes, depth_of, code_in, function_of};
ghost use Rattle.machine.specs.Seen.{Comes, room_of, with_stack, world_of, codes_in, limits_in, limits_of};
ghost use Rattle.machine.specs.Rows.{CountsTo};
ghost use Rattle.machine.specs.Memory.{CallFinds, HasMemory, RoomFor};

use crate::configuration::{Configuration, Limits, RunEnd, Step};
use code_meaning::Word;
use machine_parts::{Executable, World};
use object_heap::Which;
use pl_code::FunCode;

/// Calls the function of this number.
pub fn call(run: &mut Configuration, executable: &Executable, limits: &Limits, number: u32) -> Step
    ensures exact { Comes (spec.on_call (codes_in executable.now) (limits_in executable.now limits.now) (slice_get (code_in (codes_in executable.now) run.old.frames.top.text) number) number run.old.frames.top run.old.frames.below (world_of run.old.world)) result run.new }
    ensures memory { CallFinds limits.now.depth (slice_get (code_in (codes_in executable.now) run.old.frames.top.text) number) run.old.frames → suc run.old.frames.top.line < 2 ^ 64 → HasMemory result }
    ensures room { room_of run.new ≡ room_of run.old }
{
    match executable.function_at(&run.frames, number) {
        Some(function) => call_function(run, executable, limits, function, number),
        None => Step::Stuck,
    }
}

#[tactic(auto, using(machine_parts::proofs::Entering::too_few))]
fn call_function(
    run: &mut Configuration,
    executable: &Executable,
    limits: &Limits,
    function: &FunCode,
    number: u32,
) -> Step
    ensures exact { Comes (spec.on_call (codes_in executable.now) (limits_in executable.now limits.now) (Some function.now) number run.old.frames.top run.old.frames.below (world_of run.old.world)) result run.new }
    ensures memory { CallFinds limits.now.depth (Some function.now) run.old.frames → suc run.old.frames.top.line < 2 ^ 64 → HasMemory result }
    ensures room { room_of run.new ≡ room_of run.old }
{
    if !run.frames.has(function.params.len()) {
        return Step::Stuck;
    }
    match count_call(&mut run.world, limits, run.frames.depth()) {
        Some(which) => {
            run.end = RunEnd::Limit {
                limit: which,
                place: None,
            };
            Step::Ends
        }
        None => push_frame(run, number, function),
    }
}

// Pays a call from a frame with so many below it: the tick is paid before the depth is tried.
#[tactic(auto, unfolding(run_state::specs::World::enter, run_state::specs::World::pay_tick, run_state::specs::World::goes_deeper))]
fn count_call(world: &mut World, limits: &Limits, depth: usize) -> Option<Which>
    ensures exact { (g : Ground) → CountsTo (enter (limits_of limits.now g) depth (world_of world.old)) (world_of world.new) result }
    ensures deeper { IsNone result → depth < limits.now.depth }
    ensures room { world.new.reached.room ≡ world.old.reached.room }
{
    if world.ticks == 0 {
        return Some(Which::Ticks);
    }
    world.ticks -= 1;
    if depth >= limits.depth as usize {
        return Some(Which::Depth);
    }
    None
}

fn push_frame(run: &mut Configuration, number: u32, function: &FunCode) -> Step
    requires { length function.now.params ≤ length run.old.frames.top.stack }
    ensures exact { Comes (spec.on_words (spec.take_words (length function.now.params) run.old.frames.top.stack []) (λ args stack. Goes (record { top = record { text = run.old.frames.top.text; fun = number; line = 0; locals = args ++ map words.start_of function.now.locals; stack = []; turns = 0; due = [] }; below = with_stack run.old.frames.top stack ∷ run.old.frames.below; world = world_of run.old.world }))) result run.new }
    ensures memory { run.old.frames.count + length function.now.locals ≤ run.old.frames.words → depth_of run.old.frames.below < run.old.frames.depth → suc run.old.frames.top.line < 2 ^ 64 → HasMemory result }
    ensures room { room_of run.new ≡ room_of run.old }
{
    match run
        .frames
        .enter(number, function.params.len(), function.locals.as_slice())
    {
        Ok(()) => Step::Goes,
        Err(_) => Step::NoMemory,
    }
}

/// Returns.
pub fn ret(run: &mut Configuration, executable: &Executable, limits: &Limits) -> Step
    ensures exact { Comes (spec.returns (codes_in executable.now) (limits_in executable.now limits.now) (function_of (codes_in executable.now) run.old.frames.top) run.old.frames.top.stack (λ result. spec.gives_back (codes_in executable.now) (limits_in executable.now limits.now) run.old.frames.below run.old.frames.top.due result (world_of run.old.world))) result run.new }
    ensures memory { run.old.frames.count ≤ run.old.frames.words → HasMemory result }
    ensures room { room_of run.new ≡ room_of run.old }
{
    match executable.function_at(&run.frames, run.frames.fun()) {
        Some(function) => match function.result {
            None => give_back(run, executable, limits, None),
            Some(_) => match run.frames.pop() {
                Some(word) => give_back(run, executable, limits, Some(word)),
                None => Step::Stuck,
            },
        },
        None => Step::Stuck,
    }
}

fn give_back(
    run: &mut Configuration,
    executable: &Executable,
    limits: &Limits,
    word: Option<Word>,
) -> Step
    ensures exact { Comes (spec.gives_back (codes_in executable.now) (limits_in executable.now limits.now) run.old.frames.below run.old.frames.top.due word (world_of run.old.world)) result run.new }
    ensures memory { RoomFor word run.old.frames → HasMemory result }
    ensures room { room_of run.new ≡ room_of run.old }
{
    if run.frames.leave() {
        match word {
            Some(word) => run.push(word),
            None => run.goes_on(),
        }
    } else {
        run.end = RunEnd::Result(word);
        Step::Ends
    }
}
