//! Casts of references to types, and instances of types.
ghost use Rattle.std.specs.Prelude.{◌≡◌, ◌≤◌, ◌<◌, ◌^◌, List, ◌∷◌, suc};
ghost use Rattle.number_ops.specs.Outcomes.{effect};
ghost use Rattle.number_ops.specs.Casts.{cast_at_run_time};
ghost use Rattle.number_ops.specs.Relations as relations;
ghost use Rattle.run_state.specs.World.{acts_in};
ghost use Rattle.code_meaning.specs.Words as words;
ghost use Rattle.code_meaning.specs.declared.word.Word.{Word};
ghost use Rattle.code_meaning.specs.declared.word.Word.TheVariants.{I, R};
ghost use Rattle.code_meaning.specs.Machine.{cast_act, sized_act, typed_act, on_type, on_top, on_reference, on_outcome, to_line, is_written};
ghost use Rattle.machine.specs.Sparing.{CastSpares, OnReference, OnType, OnValue, TypedSpares};
ghost use Rattle.machine_parts.specs.Links.{link_at, type_in};
ghost use Rattle.machine.specs.Memory.{HasMemory};
ghost use Rattle.machine.specs.Seen.{Comes, room_of, with_stack, world_of, codes_in, limits_in};

use crate::boxes::is_written;
use crate::configuration::{Configuration, Limits, Step};
use crate::container_rows::{load_element, sized, store_element};
use crate::throwing::answered_whole;
use code_meaning::Word;
use machine_parts::{Executable, Link};
use number_ops::{is_instance, to_type};
use pl_code::{Sized, Typed, Way};
use pl_types::Ty;

/// Casts the reference on the stack to the type that the instruction names.
pub fn cast(run: &mut Configuration, executable: &Executable, limits: &Limits, way: Way) -> Step
    ensures exact { Comes (on_type (type_in (link_at executable.now run.old.frames.top)) (λ to. cast_act (codes_in executable.now) (limits_in executable.now limits.now) to (is_written way) run.old.frames.top run.old.frames.below (world_of run.old.world))) result run.new }
    ensures memory { OnType (type_in (link_at executable.now run.old.frames.top)) (λ to. OnValue run.old.frames.top.stack (CastSpares run.old.world.heap.objects to (is_written way))) → run.old.frames.count ≤ run.old.frames.words → suc run.old.frames.top.line < 2 ^ 64 → HasMemory result }
    ensures room { room_of run.new ≡ room_of run.old }
{
    match executable.link(&run.frames) {
        Some(Link::Type(to)) => cast_top(run, executable, limits, to, way),
        _ => Step::Stuck,
    }
}

fn cast_top(
    run: &mut Configuration,
    executable: &Executable,
    limits: &Limits,
    to: &Ty,
    way: Way,
) -> Step
    ensures exact { Comes (cast_act (codes_in executable.now) (limits_in executable.now limits.now) to.now (is_written way) run.old.frames.top run.old.frames.below (world_of run.old.world)) result run.new }
    ensures memory { OnValue run.old.frames.top.stack (CastSpares run.old.world.heap.objects to.now (is_written way)) → run.old.frames.count ≤ run.old.frames.words → suc run.old.frames.top.line < 2 ^ 64 → HasMemory result }
    ensures room { room_of run.new ≡ room_of run.old }
{
    match run.frames.pop() {
        Some(word) => cast_word(run, executable, limits, &word, to, way),
        None => Step::Stuck,
    }
}

// The same of a word that was taken off the stack.
#[tactic(auto, using(crate::proofs::Spared::is_answered))]
fn cast_word(
    run: &mut Configuration,
    executable: &Executable,
    limits: &Limits,
    word: &Word,
    to: &Ty,
    way: Way,
) -> Step
    ensures exact { (stack : List Word) → Comes (on_reference word.now (λ value. on_outcome (codes_in executable.now) (limits_in executable.now limits.now) (acts_in (world_of run.old.world) (effect run.old.world.heap (cast_at_run_time run.old.world.heap.objects value to.now (is_written way)))) R (with_stack run.old.frames.top stack) run.old.frames.below (world_of run.old.world) run.old.frames.top.stack)) result run.new }
    ensures memory { OnReference word.now (CastSpares run.old.world.heap.objects to.now (is_written way)) → run.old.frames.count < run.old.frames.words → suc run.old.frames.top.line < 2 ^ 64 → HasMemory result }
    ensures room { room_of run.new ≡ room_of run.old }
{
    match word {
        Word::R(value) => {
            let answer = to_type(&mut run.world.heap, value, to, is_written(way));
            answered_whole(run, executable, limits, answer)
        }
        _ => Step::Stuck,
    }
}

/// An instruction with the type that it names and a number.
pub fn sized_by_name(
    run: &mut Configuration,
    executable: &Executable,
    limits: &Limits,
    kind: Sized,
    count: u32,
) -> Step
    ensures exact { Comes (on_type (type_in (link_at executable.now run.old.frames.top)) (λ of. sized_act (codes_in executable.now) (limits_in executable.now limits.now) kind of count run.old.frames.top run.old.frames.below (world_of run.old.world))) result run.new }
    ensures room { room_of run.new ≡ room_of run.old }
{
    match executable.link(&run.frames) {
        Some(Link::Type(of)) => sized(run, executable, limits, kind, of, count as usize),
        _ => Step::Stuck,
    }
}

/// An instruction with the type that it names.
pub fn typed(run: &mut Configuration, executable: &Executable, limits: &Limits, kind: Typed) -> Step
    ensures exact { Comes (on_type (type_in (link_at executable.now run.old.frames.top)) (λ of. typed_act (codes_in executable.now) (limits_in executable.now limits.now) kind of run.old.frames.top run.old.frames.below (world_of run.old.world))) result run.new }
    ensures memory { OnType (type_in (link_at executable.now run.old.frames.top)) (λ of. TypedSpares kind of run.old.frames.top.stack run.old.world.heap) → run.old.frames.count ≤ run.old.frames.words → suc run.old.frames.top.line < 2 ^ 64 → HasMemory result }
    ensures room { room_of run.new ≡ room_of run.old }
{
    match executable.link(&run.frames) {
        Some(Link::Type(of)) => typed_by(run, executable, limits, kind, of),
        _ => Step::Stuck,
    }
}

fn typed_by(
    run: &mut Configuration,
    executable: &Executable,
    limits: &Limits,
    kind: Typed,
    of: &Ty,
) -> Step
    ensures exact { Comes (typed_act (codes_in executable.now) (limits_in executable.now limits.now) kind of.now run.old.frames.top run.old.frames.below (world_of run.old.world)) result run.new }
    ensures memory { TypedSpares kind of.now run.old.frames.top.stack run.old.world.heap → run.old.frames.count ≤ run.old.frames.words → suc run.old.frames.top.line < 2 ^ 64 → HasMemory result }
    ensures room { room_of run.new ≡ room_of run.old }
{
    match kind {
        Typed::IsA => instance(run, of),
        Typed::LoadElement => load_element(run, executable, limits, of),
        Typed::StoreElement => store_element(run, executable, limits, of),
    }
}

// Whether the reference on the stack is an instance of a type.
fn instance(run: &mut Configuration, of: &Ty) -> Step
    ensures exact { Comes (on_top run.old.frames.top.stack (λ word stack. on_reference word (λ value. to_line run.old.frames.top run.old.frames.below (world_of run.old.world) (suc run.old.frames.top.line) (I (words.bit (relations.is_instance run.old.world.heap.objects value of.now)) ∷ stack)))) result run.new }
    ensures memory { run.old.frames.count ≤ run.old.frames.words → suc run.old.frames.top.line < 2 ^ 64 → HasMemory result }
    ensures room { room_of run.new ≡ room_of run.old }
{
    match run.frames.pop() {
        Some(word) => instance_word(run, &word, of),
        None => Step::Stuck,
    }
}

// The same of a word that was taken off the stack.
fn instance_word(run: &mut Configuration, word: &Word, of: &Ty) -> Step
    ensures exact { (stack : List Word) → Comes (on_reference word.now (λ value. to_line (with_stack run.old.frames.top stack) run.old.frames.below (world_of run.old.world) (suc run.old.frames.top.line) (I (words.bit (relations.is_instance run.old.world.heap.objects value of.now)) ∷ run.old.frames.top.stack))) result run.new }
    ensures memory { run.old.frames.count < run.old.frames.words → suc run.old.frames.top.line < 2 ^ 64 → HasMemory result }
    ensures room { room_of run.new ≡ room_of run.old }
{
    match word {
        Word::R(value) => {
            let is = is_instance(&run.world.heap, value, of);
            run.push(Word::I(i32::from(is)))
        }
        _ => Step::Stuck,
    }
}
