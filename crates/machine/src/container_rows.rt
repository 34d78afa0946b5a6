//! Lists, maps, arrays, and loops over elements.
ghost use Rattle.std.specs.Prelude.{◌≡◌, ◌≤◌, ◌<◌, ◌^◌, List, [], suc};
ghost use Rattle.def_access.specs.Elements as elements;
ghost use Rattle.def_access.specs.Making as making;
ghost use Rattle.run_state.specs.World.{acts_in};
ghost use Rattle.code_meaning.specs.declared.word.Word.{Word};
ghost use Rattle.code_meaning.specs.declared.word.Word.TheVariants.{R};
ghost use Rattle.code_meaning.specs.Machine as spec;
ghost use Rattle.code_meaning.specs.Machine.{on_done, on_ints, on_outcome, on_reference, on_top, on_value, on_values, on_words};
ghost use Rattle.code_meaning.specs.Members.{given_as, ints_in, references_in, taken_alike};
ghost use Rattle.code_meaning.specs.Members as members;
ghost use Rattle.machine.specs.Memory.{HasMemory};
ghost use Rattle.machine.specs.Rows.{asked, collected, on_place};
ghost use Rattle.machine.specs.Seen.{Comes, room_of, with_stack, world_of, codes_in, limits_in};
ghost use Rattle.machine.specs.Sparing.{AskSpares, ElementSpares, OnPlace, OnReference, OnValue};

use crate::configuration::{Configuration, Limits, Step};
use crate::operands::pop_int;
use crate::parts::{alike_of, ints_of, parts_off, references_of};
use crate::receiving::taken;
use crate::throwing::{answered, answered_as, answered_done, answered_whole};
use code_meaning::Word;
use def_access::{
    array_filled, array_made, element_read, element_written, has_more, iterated, length_of,
    list_made, map_made, next_element,
};
use machine_parts::Executable;
use object_values::{Elements, Value};
use pl_code::Sized;
use pl_types::Ty;

// ---- what is asked of one reference

/// What is asked of one reference.
#[derive(Clone, Copy)]
pub enum Asked {
    /// Its length, of an array.
    Length,
    /// An iterator over it.
    Iterate,
    /// Whether it has an element left, of an iterator.
    HasMore,
    /// Its next element, of an iterator.
    Next,
}

/// An instruction on one reference, which is taken off the stack.
pub fn ask(run: &mut Configuration, executable: &Executable, limits: &Limits, kind: Asked) -> Step
    ensures exact { Comes (on_top run.old.frames.top.stack (λ word stack. on_reference word (λ value. asked (codes_in executable.now) (limits_in executable.now limits.now) kind value run.old.frames.top run.old.frames.below (world_of run.old.world) stack))) result run.new }
    ensures memory { OnValue run.old.frames.top.stack (AskSpares kind run.old.world.heap) → run.old.frames.count ≤ run.old.frames.words → suc run.old.frames.top.line < 2 ^ 64 → HasMemory result }
    ensures room { room_of run.new ≡ room_of run.old }
{
    match run.frames.pop() {
        Some(word) => ask_word(run, executable, limits, kind, &word),
        None => Step::Stuck,
    }
}

// The same of a word that was taken off the stack.
fn ask_word(
    run: &mut Configuration,
    executable: &Executable,
    limits: &Limits,
    kind: Asked,
    word: &Word,
) -> Step
    ensures exact { (stack : List Word) → Comes (on_reference word.now (λ value. asked (codes_in executable.now) (limits_in executable.now limits.now) kind value (with_stack run.old.frames.top stack) run.old.frames.below (world_of run.old.world) run.old.frames.top.stack)) result run.new }
    ensures memory { OnReference word.now (AskSpares kind run.old.world.heap) → run.old.frames.count < run.old.frames.words → suc run.old.frames.top.line < 2 ^ 64 → HasMemory result }
    ensures room { room_of run.new ≡ room_of run.old }
{
    match word {
        Word::R(value) => ask_value(run, executable, limits, kind, value),
        _ => Step::Stuck,
    }
}

#[tactic(auto, using(crate::proofs::Spared::is_spared))]
fn ask_value(
    run: &mut Configuration,
    executable: &Executable,
    limits: &Limits,
    kind: Asked,
    value: &Value,
) -> Step
    ensures exact { (stack : List Word) → Comes (asked (codes_in executable.now) (limits_in executable.now limits.now) kind value.now (with_stack run.old.frames.top stack) run.old.frames.below (world_of run.old.world) run.old.frames.top.stack) result run.new }
    ensures memory { AskSpares kind run.old.world.heap value.now → run.old.frames.count < run.old.frames.words → suc run.old.frames.top.line < 2 ^ 64 → HasMemory result }
    ensures room { room_of run.new ≡ room_of run.old }
{
    match kind {
        Asked::Length => {
            let answer = length_of(&mut run.world.heap, value);
            answered(run, executable, limits, answer)
        }
        Asked::Iterate => {
            let answer = iterated(&mut run.world.heap, value);
            answered_whole(run, executable, limits, answer)
        }
        Asked::HasMore => {
            let answer = has_more(&mut run.world.heap, value);
            answered(run, executable, limits, answer)
        }
        Asked::Next => {
            let answer = next_element(&mut run.world.heap, value);
            answered_whole(run, executable, limits, answer)
        }
    }
}

// ---- literals

/// What is made of so many references.
#[derive(Clone, Copy)]
pub enum Collected {
    List,
    /// A map of keys and values by turns.
    Map,
}

/// A list or a map of so many references, which are taken off the stack.
pub fn collect(
    run: &mut Configuration,
    executable: &Executable,
    limits: &Limits,
    kind: Collected,
    count: usize,
) -> Step
    ensures exact { Comes (on_words (spec.take_words count run.old.frames.top.stack []) (λ words stack. on_values (references_in words) (λ values. collected (codes_in executable.now) (limits_in executable.now limits.now) kind values run.old.frames.top run.old.frames.below (world_of run.old.world) stack))) result run.new }
    ensures room { room_of run.new ≡ room_of run.old }
{
    match parts_off(&mut run.frames, count, &mut run.words) {
        Ok(true) => collect_words(run, executable, limits, kind),
        Ok(false) => Step::Stuck,
        Err(_) => Step::NoMemory,
    }
}

// The same of words that were taken off the stack.
fn collect_words(
    run: &mut Configuration,
    executable: &Executable,
    limits: &Limits,
    kind: Collected,
) -> Step
    ensures exact { (stack : List Word) → Comes (on_values (references_in run.old.words.items) (λ values. collected (codes_in executable.now) (limits_in executable.now limits.now) kind values (with_stack run.old.frames.top stack) run.old.frames.below (world_of run.old.world) run.old.frames.top.stack)) result run.new }
    ensures room { room_of run.new ≡ room_of run.old }
{
    match references_of(run.world.heap.alloc(), &mut run.words) {
        Ok(Some(values)) => collect_values(run, executable, limits, kind, values),
        Ok(None) => Step::Stuck,
        Err(_) => Step::NoMemory,
    }
}

fn collect_values(
    run: &mut Configuration,
    executable: &Executable,
    limits: &Limits,
    kind: Collected,
    values: Elements<Value>,
) -> Step
    ensures exact { (stack : List Word) → Comes (collected (codes_in executable.now) (limits_in executable.now limits.now) kind values (with_stack run.old.frames.top stack) run.old.frames.below (world_of run.old.world) run.old.frames.top.stack) result run.new }
    ensures room { room_of run.new ≡ room_of run.old }
{
    match kind {
        Collected::List => {
            let answer = list_made(&mut run.world.heap, values.as_slice());
            answered_whole(run, executable, limits, answer)
        }
        Collected::Map => {
            let answer = map_made(&mut run.world.heap, values.as_slice());
            answered_whole(run, executable, limits, answer)
        }
    }
}

// ---- elements of arrays

/// The element of an array as of a type, by the index on the stack.
pub fn load_element(
    run: &mut Configuration,
    executable: &Executable,
    limits: &Limits,
    of: &Ty,
) -> Step
    ensures exact { Comes (on_place run.old.frames.top.stack (λ at array stack. on_outcome (codes_in executable.now) (limits_in executable.now limits.now) (acts_in (world_of run.old.world) (elements.element_read run.old.world.heap of.now array at)) (given_as of.now) run.old.frames.top run.old.frames.below (world_of run.old.world) stack)) result run.new }
    ensures memory { OnPlace run.old.frames.top.stack (ElementSpares run.old.world.heap of.now) → run.old.frames.count ≤ run.old.frames.words → suc run.old.frames.top.line < 2 ^ 64 → HasMemory result }
    ensures room { room_of run.new ≡ room_of run.old }
{
    match pop_int(&mut run.frames) {
        Some(at) => match run.frames.pop() {
            Some(array) => load_from(run, executable, limits, of, &array, at),
            None => Step::Stuck,
        },
        None => Step::Stuck,
    }
}

#[tactic(auto, using(crate::proofs::Spared::is_spared))]
fn load_from(
    run: &mut Configuration,
    executable: &Executable,
    limits: &Limits,
    of: &Ty,
    array: &Word,
    at: i32,
) -> Step
    ensures exact { (stack : List Word) → Comes (on_reference array.now (λ array. on_outcome (codes_in executable.now) (limits_in executable.now limits.now) (acts_in (world_of run.old.world) (elements.element_read run.old.world.heap of.now array at)) (given_as of.now) (with_stack run.old.frames.top stack) run.old.frames.below (world_of run.old.world) run.old.frames.top.stack)) result run.new }
    ensures memory { OnReference array.now (λ array. ElementSpares run.old.world.heap of.now at array) → run.old.frames.count < run.old.frames.words → suc run.old.frames.top.line < 2 ^ 64 → HasMemory result }
    ensures room { room_of run.new ≡ room_of run.old }
{
    match array {
        Word::R(array) => {
            let answer = element_read(&mut run.world.heap, of, array, at);
            answered_as(run, executable, limits, of, answer)
        }
        _ => Step::Stuck,
    }
}

/// Puts the value on the stack into an array of a type, by the index below it.
pub fn store_element(
    run: &mut Configuration,
    executable: &Executable,
    limits: &Limits,
    of: &Ty,
) -> Step
    ensures exact { Comes (on_top run.old.frames.top.stack (λ third more. on_value (members.taken of.now third) (λ value. on_place more (λ at array stack. on_done (codes_in executable.now) (limits_in executable.now limits.now) (acts_in (world_of run.old.world) (elements.element_written run.old.world.heap of.now array at value)) run.old.frames.top run.old.frames.below (world_of run.old.world) stack)))) result run.new }
    ensures room { room_of run.new ≡ room_of run.old }
{
    match run.frames.pop() {
        Some(word) => match taken(of, word) {
            Some(value) => store_value(run, executable, limits, of, value),
            None => Step::Stuck,
        },
        None => Step::Stuck,
    }
}

fn store_value(
    run: &mut Configuration,
    executable: &Executable,
    limits: &Limits,
    of: &Ty,
    value: Value,
) -> Step
    ensures exact { (stack : List Word) → Comes (on_place run.old.frames.top.stack (λ at array rest. on_done (codes_in executable.now) (limits_in executable.now limits.now) (acts_in (world_of run.old.world) (elements.element_written run.old.world.heap of.now array at value)) (with_stack run.old.frames.top stack) run.old.frames.below (world_of run.old.world) rest)) result run.new }
    ensures room { room_of run.new ≡ room_of run.old }
{
    match pop_int(&mut run.frames) {
        Some(at) => match run.frames.pop() {
            Some(array) => store_in(run, executable, limits, of, value, &array, at),
            None => Step::Stuck,
        },
        None => Step::Stuck,
    }
}

fn store_in(
    run: &mut Configuration,
    executable: &Executable,
    limits: &Limits,
    of: &Ty,
    value: Value,
    array: &Word,
    at: i32,
) -> Step
    ensures exact { (stack : List Word) → Comes (on_reference array.now (λ array. on_done (codes_in executable.now) (limits_in executable.now limits.now) (acts_in (world_of run.old.world) (elements.element_written run.old.world.heap of.now array at value)) (with_stack run.old.frames.top stack) run.old.frames.below (world_of run.old.world) run.old.frames.top.stack)) result run.new }
    ensures room { room_of run.new ≡ room_of run.old }
{
    match array {
        Word::R(array) => {
            let answer = element_written(&mut run.world.heap, of, array, at, value);
            answered_done(run, executable, limits, answer)
        }
        _ => Step::Stuck,
    }
}

// ---- arrays

/// An array of elements that lie on the stack, or with sizes that lie there.
pub fn sized(
    run: &mut Configuration,
    executable: &Executable,
    limits: &Limits,
    kind: Sized,
    of: &Ty,
    count: usize,
) -> Step
    ensures exact { Comes (spec.sized_act (codes_in executable.now) (limits_in executable.now limits.now) kind of.now count run.old.frames.top run.old.frames.below (world_of run.old.world)) result run.new }
    ensures room { room_of run.new ≡ room_of run.old }
{
    match parts_off(&mut run.frames, count, &mut run.words) {
        Ok(true) => match kind {
            Sized::Filled => fill_words(run, executable, limits, of),
            Sized::Empty => make_words(run, executable, limits, of),
        },
        Ok(false) => Step::Stuck,
        Err(_) => Step::NoMemory,
    }
}

// Of words that were taken off the stack.
fn fill_words(run: &mut Configuration, executable: &Executable, limits: &Limits, of: &Ty) -> Step
    ensures exact { (stack : List Word) → Comes (on_values (taken_alike of.now run.old.words.items) (λ items. on_outcome (codes_in executable.now) (limits_in executable.now limits.now) (acts_in (world_of run.old.world) (making.array_filled run.old.world.heap of.now items)) R (with_stack run.old.frames.top stack) run.old.frames.below (world_of run.old.world) run.old.frames.top.stack)) result run.new }
    ensures room { room_of run.new ≡ room_of run.old }
{
    match alike_of(run.world.heap.alloc(), of, &mut run.words) {
        Ok(Some(items)) => {
            let answer = array_filled(&mut run.world.heap, of, items.as_slice());
            answered_whole(run, executable, limits, answer)
        }
        Ok(None) => Step::Stuck,
        Err(_) => Step::NoMemory,
    }
}

fn make_words(run: &mut Configuration, executable: &Executable, limits: &Limits, of: &Ty) -> Step
    ensures exact { (stack : List Word) → Comes (on_ints (ints_in run.old.words.items) (λ sizes. on_outcome (codes_in executable.now) (limits_in executable.now limits.now) (acts_in (world_of run.old.world) (making.array_made run.old.world.heap of.now sizes)) R (with_stack run.old.frames.top stack) run.old.frames.below (world_of run.old.world) run.old.frames.top.stack)) result run.new }
    ensures room { room_of run.new ≡ room_of run.old }
{
    match ints_of(run.world.heap.alloc(), &mut run.words) {
        Ok(Some(sizes)) => {
            let answer = array_made(&mut run.world.heap, of, sizes.as_slice());
            answered_whole(run, executable, limits, answer)
        }
        Ok(None) => Step::Stuck,
        Err(_) => Step::NoMemory,
    }
}
