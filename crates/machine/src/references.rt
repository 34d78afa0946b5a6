//! Texts, and what is asked of references: whether two are equal or one, their texts joined, and whether one is null.
ghost use Rattle.std.specs.Prelude.{◌≡◌, ◌≤◌, ◌<◌, ◌^◌, List, suc, Some};
ghost use Rattle.std.specs.Option.{option_copied};
ghost use Rattle.object_values.specs.Utf16.{units};
ghost use Rattle.code_meaning.specs.declared.word.Word.{Word};
ghost use Rattle.code_meaning.specs.Machine.{quoted_act, on_reference, on_top, if_null, to_line};
ghost use Rattle.machine.specs.Seen.{Comes, room_of, with_stack, world_of, codes_in, limits_in};
ghost use Rattle.machine_parts.specs.Links.{link_at, text_in};
ghost use Rattle.machine_parts.specs.Rooms.{MembersWithin};
ghost use Rattle.machine.specs.Sparing.{OnReference, OnValues};
ghost use Rattle.machine.specs.Memory.{HasMemory, PairSpares};
ghost use Rattle.machine.specs.Rows.{null_in, on_pair, on_references, paired, text_act};

use crate::access_rows::{get_name, put_name};
use crate::configuration::{Configuration, Limits, Step};
use crate::throwing::{answered, answered_whole};
use code_meaning::Word;
use machine_parts::{Executable, Frames, Link, Text};
use number_ops::{concatenate, equal, is_same};
use object_values::{UText, Value};
use pl_code::Quoting;

/// An instruction with a text, which was linked: a constant is put on the stack and shared, and so is a name that is a key of a map.
pub fn quoted(
    run: &mut Configuration,
    executable: &Executable,
    limits: &Limits,
    kind: Quoting,
    text: &Text,
) -> Step
    requires reached { MembersWithin executable.now run.old.world.reached.room }
    requires linked { text_in (link_at executable.now run.old.frames.top) ≡ Some (units text.now) }
    ensures exact { Comes (quoted_act (codes_in executable.now) (limits_in executable.now limits.now) kind text.now run.old.frames.top run.old.frames.below (world_of run.old.world)) result run.new }
    ensures room { room_of run.new ≡ room_of run.old }
{
    match linked_text(executable, &run.frames) {
        Some(shared) => quoted_as(run, executable, limits, kind, text, shared),
        None => Step::Stuck,
    }
}

// The text of the instruction.
fn linked_text<'e>(executable: &'e Executable, frames: &Frames) -> Option<&'e UText>
    ensures { option_copied result ≡ text_in (link_at executable.now frames.now.top) }
{
    match executable.link(frames) {
        Some(Link::Text(text)) => Some(text),
        _ => None,
    }
}

// The same with the text as it is shared.
fn quoted_as(
    run: &mut Configuration,
    executable: &Executable,
    limits: &Limits,
    kind: Quoting,
    text: &Text,
    shared: &UText,
) -> Step
    requires reached { MembersWithin executable.now run.old.world.reached.room }
    requires shared { shared.now ≡ units text.now }
    ensures exact { Comes (quoted_act (codes_in executable.now) (limits_in executable.now limits.now) kind text.now run.old.frames.top run.old.frames.below (world_of run.old.world)) result run.new }
    ensures room { room_of run.new ≡ room_of run.old }
{
    match kind {
        Quoting::Constant => constant(run, shared),
        Quoting::GetName => get_name(run, executable, limits, text.as_str(), shared),
        Quoting::PutName => put_name(run, executable, limits, text.as_str(), shared),
    }
}

fn constant(run: &mut Configuration, text: &UText) -> Step
    ensures exact { Comes (text_act (Some text.now) run.old.frames.top run.old.frames.below (world_of run.old.world)) result run.new }
    ensures room { room_of run.new ≡ room_of run.old }
{
    match text.share() {
        Ok(text) => run.push(Word::R(Value::Str(text))),
        Err(_) => Step::NoMemory,
    }
}

/// What is asked of two references.
#[derive(Clone, Copy)]
pub enum Pairing {
    /// Their texts, joined.
    Concat,
    /// Whether they are equal.
    Equal,
    /// Whether they are one.
    Same,
}

/// An instruction on two references, which are taken off the stack.
pub fn pair(
    run: &mut Configuration,
    executable: &Executable,
    limits: &Limits,
    kind: Pairing,
) -> Step
    ensures exact { Comes (on_pair run.old.frames.top.stack (λ a b stack. paired (codes_in executable.now) (limits_in executable.now limits.now) kind a b run.old.frames.top run.old.frames.below (world_of run.old.world) stack)) result run.new }
    ensures memory { OnValues run.old.frames.top.stack (PairSpares kind run.old.world.heap.objects) → run.old.frames.count ≤ run.old.frames.words → suc run.old.frames.top.line < 2 ^ 64 → HasMemory result }
    ensures room { room_of run.new ≡ room_of run.old }
{
    match run.frames.pop() {
        Some(upper) => match run.frames.pop() {
            Some(lower) => pair_words(run, executable, limits, kind, &lower, &upper),
            None => Step::Stuck,
        },
        None => Step::Stuck,
    }
}

// The same of words that were taken off the stack.
fn pair_words(
    run: &mut Configuration,
    executable: &Executable,
    limits: &Limits,
    kind: Pairing,
    lower: &Word,
    upper: &Word,
) -> Step
    ensures exact { (stack : List Word) → Comes (on_references lower.now upper.now (λ a b. paired (codes_in executable.now) (limits_in executable.now limits.now) kind a b (with_stack run.old.frames.top stack) run.old.frames.below (world_of run.old.world) run.old.frames.top.stack)) result run.new }
    ensures memory { OnReference upper.now (λ b. OnReference lower.now (λ a. PairSpares kind run.old.world.heap.objects a b)) → run.old.frames.count < run.old.frames.words → suc run.old.frames.top.line < 2 ^ 64 → HasMemory result }
    ensures room { room_of run.new ≡ room_of run.old }
{
    match upper {
        Word::R(b) => match lower {
            Word::R(a) => pair_values(run, executable, limits, kind, a, b),
            _ => Step::Stuck,
        },
        _ => Step::Stuck,
    }
}

fn pair_values(
    run: &mut Configuration,
    executable: &Executable,
    limits: &Limits,
    kind: Pairing,
    a: &Value,
    b: &Value,
) -> Step
    ensures exact { (stack : List Word) → Comes (paired (codes_in executable.now) (limits_in executable.now limits.now) kind a.now b.now (with_stack run.old.frames.top stack) run.old.frames.below (world_of run.old.world) run.old.frames.top.stack) result run.new }
    ensures memory { PairSpares kind run.old.world.heap.objects a.now b.now → run.old.frames.count < run.old.frames.words → suc run.old.frames.top.line < 2 ^ 64 → HasMemory result }
    ensures room { room_of run.new ≡ room_of run.old }
{
    match kind {
        Pairing::Concat => {
            let answer = concatenate(&mut run.world.heap, a, b);
            answered_whole(run, executable, limits, answer)
        }
        Pairing::Equal => {
            let answer = equal(&mut run.world.heap, a, b);
            answered(run, executable, limits, answer)
        }
        Pairing::Same => run.push(Word::I(i32::from(is_same(a, b)))),
    }
}

/// To a line where the reference on the stack is null, and else on to the next one.
pub fn jump_if_null(run: &mut Configuration, line: u32) -> Step
    ensures exact { Comes (on_top run.old.frames.top.stack (λ word stack. on_reference word (λ value. if_null value (to_line run.old.frames.top run.old.frames.below (world_of run.old.world) line stack) (to_line run.old.frames.top run.old.frames.below (world_of run.old.world) (suc run.old.frames.top.line) stack)))) result run.new }
    ensures memory { suc run.old.frames.top.line < 2 ^ 64 → HasMemory result }
    ensures room { room_of run.new ≡ room_of run.old }
{
    match run.frames.pop() {
        Some(word) => match null_in(&word) {
            Some(true) => run.goes_to(line),
            Some(false) => run.goes_on(),
            None => Step::Stuck,
        },
        None => Step::Stuck,
    }
}

// Whether a word is null; none of a number.
fn null_in(word: &Word) -> Option<bool>
    ensures { result ≡ null_in word.now }
{
    match word {
        Word::R(Value::Null) => Some(true),
        Word::R(_) => Some(false),
        _ => None,
    }
}
