//! What comes of operations on the heap: their values, and exceptions, each of which goes on at the trap that catches it.
ghost use Rattle.std.specs.Prelude.{◌≡◌, ◌≤◌, ◌<◌, ◌^◌, suc, true, List, ◌∷◌, Some, None};
ghost use Rattle.object_heap.specs.Effects.{Effect, Answers};
ghost use Rattle.object_heap.specs.Store.{Store};
ghost use Rattle.number_ops.specs.Outcomes.{effect, zero_divisor};
ghost use Rattle.number_ops.specs.Relations.{thrown};
ghost use Rattle.run_state.specs.World.{acts_in, not_told, with_store};
ghost use Rattle.code_meaning.specs.Members.{given_as};
ghost use Rattle.code_meaning.specs.Words as words;
ghost use Rattle.code_meaning.specs.declared.word.Word.{Word};
ghost use Rattle.code_meaning.specs.declared.word.Word.TheVariants.{R};
ghost use Rattle.code_meaning.specs.Machine as spec;
ghost use Rattle.code_meaning.specs.Machine.{Next, on_done, on_outcome, on_reference, on_thrown, on_top, function_of};
ghost use Rattle.machine.specs.Seen.{Comes, room_of, with_stack, world_of, codes_in, limits_in};
ghost use Rattle.number_ops.specs.Relations.{is_exception};
ghost use Rattle.machine.specs.Sparing.{OnReference, OnValue};
ghost use Rattle.machine.specs.Memory.{HasMemory, IsAnswered, OnlyToMake};
ghost use Rattle.machine.specs.Rows.{bare, landing, landed};

use crate::configuration::{Configuration, Limits, RunEnd, Step};
use code_meaning::Word;
use machine_parts::{Executable, Frames, World};
use number_ops::throw_value;
use object_heap::{Answer, Which, throw};
use object_values::{UText, Value};
use pl_types::Ty;
use pl_types::classes::ARITHMETIC_EXCEPTION;

/// What an operation on the heap gives goes on the stack. The operands have been taken off it.
pub fn answered(
    run: &mut Configuration,
    executable: &Executable,
    limits: &Limits,
    answer: Answer,
) -> Step
    ensures exact { (effect : Effect) (old : Store) (stack : List Word) → Answers effect old run.old.world.heap answer → Comes (on_outcome (codes_in executable.now) (limits_in executable.now limits.now) (acts_in (with_store (world_of run.old.world) old) effect) words.unboxed (with_stack run.old.frames.top stack) run.old.frames.below (with_store (world_of run.old.world) old) run.old.frames.top.stack) result run.new }
    ensures memory { IsAnswered answer → run.old.frames.count < run.old.frames.words → suc run.old.frames.top.line < 2 ^ 64 → HasMemory result }
    ensures room { room_of run.new ≡ room_of run.old }
    ensures heap { run.new.world.heap ≡ run.old.world.heap }
{
    match answer {
        Answer::Value(value) => run.push(unboxed(value)),
        Answer::Thrown(id) => unwind(run, executable, id),
        Answer::Room => {
            run.end = RunEnd::Limit {
                limit: Which::Room,
                place: None,
            };
            Step::Ends
        }
        Answer::NoMemory => Step::NoMemory,
    }
}

/// The same of an operation whose value stays a reference.
pub fn answered_whole(
    run: &mut Configuration,
    executable: &Executable,
    limits: &Limits,
    answer: Answer,
) -> Step
    ensures exact { (effect : Effect) (old : Store) (stack : List Word) → Answers effect old run.old.world.heap answer → Comes (on_outcome (codes_in executable.now) (limits_in executable.now limits.now) (acts_in (with_store (world_of run.old.world) old) effect) R (with_stack run.old.frames.top stack) run.old.frames.below (with_store (world_of run.old.world) old) run.old.frames.top.stack) result run.new }
    ensures memory { IsAnswered answer → run.old.frames.count < run.old.frames.words → suc run.old.frames.top.line < 2 ^ 64 → HasMemory result }
    ensures room { room_of run.new ≡ room_of run.old }
{
    match answer {
        Answer::Value(value) => run.push(Word::R(value)),
        Answer::Thrown(id) => unwind(run, executable, id),
        Answer::Room => {
            run.end = RunEnd::Limit {
                limit: Which::Room,
                place: None,
            };
            Step::Ends
        }
        Answer::NoMemory => Step::NoMemory,
    }
}

/// The same of an operation whose value is of a type: a primitive goes as a number, and everything else as it is.
pub fn answered_as(
    run: &mut Configuration,
    executable: &Executable,
    limits: &Limits,
    of: &Ty,
    answer: Answer,
) -> Step
    ensures exact { (effect : Effect) (old : Store) (stack : List Word) → Answers effect old run.old.world.heap answer → Comes (on_outcome (codes_in executable.now) (limits_in executable.now limits.now) (acts_in (with_store (world_of run.old.world) old) effect) (given_as of.now) (with_stack run.old.frames.top stack) run.old.frames.below (with_store (world_of run.old.world) old) run.old.frames.top.stack) result run.new }
    ensures memory { IsAnswered answer → run.old.frames.count < run.old.frames.words → suc run.old.frames.top.line < 2 ^ 64 → HasMemory result }
    ensures room { room_of run.new ≡ room_of run.old }
    ensures heap { run.new.world.heap ≡ run.old.world.heap }
{
    match answer {
        Answer::Value(value) => run.push(given_as(of, value)),
        Answer::Thrown(id) => unwind(run, executable, id),
        Answer::Room => {
            run.end = RunEnd::Limit {
                limit: Which::Room,
                place: None,
            };
            Step::Ends
        }
        Answer::NoMemory => Step::NoMemory,
    }
}

/// The same of an operation whose value is dropped.
pub fn answered_done(
    run: &mut Configuration,
    executable: &Executable,
    limits: &Limits,
    answer: Answer,
) -> Step
    ensures exact { (effect : Effect) (old : Store) (stack : List Word) → Answers effect old run.old.world.heap answer → Comes (on_done (codes_in executable.now) (limits_in executable.now limits.now) (acts_in (with_store (world_of run.old.world) old) effect) (with_stack run.old.frames.top stack) run.old.frames.below (with_store (world_of run.old.world) old) run.old.frames.top.stack) result run.new }
    ensures memory { IsAnswered answer → run.old.frames.count < run.old.frames.words → suc run.old.frames.top.line < 2 ^ 64 → HasMemory result }
    ensures room { room_of run.new ≡ room_of run.old }
{
    match answer {
        Answer::Value(_value) => run.goes_on(),
        Answer::Thrown(id) => unwind(run, executable, id),
        Answer::Room => {
            run.end = RunEnd::Limit {
                limit: Which::Room,
                place: None,
            };
            Step::Ends
        }
        Answer::NoMemory => Step::NoMemory,
    }
}

fn given_as(of: &Ty, value: Value) -> Word
    ensures { result ≡ given_as of.now value }
{
    match of {
        Ty::Void => Word::R(value),
        Ty::Null => Word::R(value),
        Ty::Def => Word::R(value),
        Ty::Prim(_) => unboxed(value),
        Ty::Class(_) => Word::R(value),
        Ty::Array(_) => Word::R(value),
    }
}

/// The word of a value that is a primitive: its number. Another value is its own word.
#[tactic(auto, using(crate::proofs::Answering::bare_word, crate::proofs::Answering::not_bare))]
pub fn unboxed(value: Value) -> Word
    ensures { result ≡ words.unboxed value }
{
    match bare(&value) {
        Some(word) => word,
        None => Word::R(value),
    }
}

// The word of a primitive.
fn bare(value: &Value) -> Option<Word>
    ensures { result ≡ bare value.now }
{
    match value {
        Value::Bool(flag) => Some(Word::I(i32::from(*flag))),
        Value::Byte(a) => Some(Word::I(i32::from(*a))),
        Value::Short(a) => Some(Word::I(i32::from(*a))),
        Value::Char(unit) => Some(Word::I(i32::from(*unit))),
        Value::Int(a) => Some(Word::I(*a)),
        Value::Long(a) => Some(Word::J(*a)),
        _ => None,
    }
}

/// Throws the exception of a zero divisor. It wants memory for the exception alone.
#[tactic(auto, unfolding(number_ops::specs::Outcomes::says), using(crate::proofs::Spared::only_to_make, crate::proofs::Spared::nothing_made))]
pub fn throw_zero_divisor(run: &mut Configuration, executable: &Executable, limits: &Limits) -> Step
    ensures exact { Comes (on_outcome (codes_in executable.now) (limits_in executable.now limits.now) (acts_in (world_of run.old.world) (effect run.old.world.heap zero_divisor)) words.unboxed run.old.frames.top run.old.frames.below (world_of run.old.world) run.old.frames.top.stack) result run.new }
    ensures memory { run.old.frames.count < run.old.frames.words → suc run.old.frames.top.line < 2 ^ 64 → OnlyToMake run.old.world.heap run.new.world.heap result }
    ensures room { room_of run.new ≡ room_of run.old }
{
    match UText::from_utf8(run.world.heap.alloc(), "/ by zero") {
        Ok(message) => {
            let answer = throw(&mut run.world.heap, ARITHMETIC_EXCEPTION, Some(message));
            answered(run, executable, limits, answer)
        }
        Err(_) => Step::NoMemory,
    }
}

/// Throws the reference on the stack.
pub fn throw_top(run: &mut Configuration, executable: &Executable, limits: &Limits) -> Step
    ensures exact { Comes (on_top run.old.frames.top.stack (λ word stack. on_reference word (λ value. on_thrown (codes_in executable.now) (limits_in executable.now limits.now) (acts_in (world_of run.old.world) (thrown run.old.world.heap value)) run.old.frames.top run.old.frames.below (world_of run.old.world)))) result run.new }
    ensures memory { OnValue run.old.frames.top.stack (λ value. is_exception run.old.world.heap.objects value ≡ true) → run.old.frames.count ≤ run.old.frames.words → HasMemory result }
    ensures room { room_of run.new ≡ room_of run.old }
{
    match run.frames.pop() {
        Some(word) => throw_word(run, executable, limits, &word),
        None => Step::Stuck,
    }
}

// The same of a word that was taken off the stack.
fn throw_word(
    run: &mut Configuration,
    executable: &Executable,
    limits: &Limits,
    word: &Word,
) -> Step
    ensures exact { (stack : List Word) → Comes (on_reference word.now (λ value. on_thrown (codes_in executable.now) (limits_in executable.now limits.now) (acts_in (world_of run.old.world) (thrown run.old.world.heap value)) (with_stack run.old.frames.top stack) run.old.frames.below (world_of run.old.world))) result run.new }
    ensures memory { OnReference word.now (λ value. is_exception run.old.world.heap.objects value ≡ true) → run.old.frames.count < run.old.frames.words → HasMemory result }
    ensures room { room_of run.new ≡ room_of run.old }
{
    match word {
        Word::R(value) => {
            let answer = throw_value(&mut run.world.heap, value);
            answered_throw(run, executable, limits, answer)
        }
        _ => Step::Stuck,
    }
}

// What is thrown goes on at the trap that catches it. What gives a value throws nothing.
fn answered_throw(
    run: &mut Configuration,
    executable: &Executable,
    limits: &Limits,
    answer: Answer,
) -> Step
    ensures exact { (effect : Effect) (old : Store) (stack : List Word) → Answers effect old run.old.world.heap answer → Comes (on_thrown (codes_in executable.now) (limits_in executable.now limits.now) (acts_in (with_store (world_of run.old.world) old) effect) (with_stack run.old.frames.top stack) run.old.frames.below (with_store (world_of run.old.world) old)) result run.new }
    ensures memory { IsAnswered answer → run.old.frames.count < run.old.frames.words → HasMemory result }
    ensures room { room_of run.new ≡ room_of run.old }
{
    match answer {
        Answer::Value(_value) => Step::Stuck,
        Answer::Thrown(id) => unwind(run, executable, id),
        Answer::Room => {
            run.end = RunEnd::Limit {
                limit: Which::Room,
                place: None,
            };
            Step::Ends
        }
        Answer::NoMemory => Step::NoMemory,
    }
}

/// An exception, from the newest frame on down.
fn unwind(run: &mut Configuration, executable: &Executable, id: u32) -> Step
    ensures exact { Comes (spec.unwind (codes_in executable.now) (run.old.frames.top ∷ run.old.frames.below) id not_told (world_of run.old.world)) result run.new }
    ensures memory { run.old.frames.count < run.old.frames.words → HasMemory result }
    ensures room { room_of run.new ≡ room_of run.old }
    ensures heap { run.new.world.heap ≡ run.old.world.heap }
{
    'frames: loop {
        match landing(executable, &run.frames, id, &run.world) {
            Some(line) => return land(run, line, id),
            None => {
                if !run.frames.leave() {
                    run.end = RunEnd::Thrown { id, place: None };
                    return Step::Ends;
                }
            }
        }
    }
}

// Goes on in the newest frame.
fn land(run: &mut Configuration, line: u32, id: u32) -> Step
    ensures exact { (further : Next) → Comes (landed (Some line) run.old.frames.top run.old.frames.below id (world_of run.old.world) further) result run.new }
    ensures memory { run.old.frames.count < run.old.frames.words → HasMemory result }
    ensures room { room_of run.new ≡ room_of run.old }
    ensures heap { run.new.world.heap ≡ run.old.world.heap }
{
    run.frames.clear();
    match run.frames.push(Word::R(Value::Ref(id))) {
        Ok(()) => {
            run.frames.set_line(line as usize);
            Step::Goes
        }
        Err(_) => Step::NoMemory,
    }
}

// Where an exception goes on in a frame, if it is caught at its line.
fn landing(executable: &Executable, frames: &Frames, id: u32, world: &World) -> Option<u32>
    ensures { result ≡ landing (function_of (codes_in executable.now) frames.now.top) frames.now.top.line id (world_of world.now) }
{
    match executable.handlers(frames) {
        Some(handlers) => handlers.landing(frames.line(), id, world),
        None => None,
    }
}
