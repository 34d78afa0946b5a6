//! Instructions on the stack alone: constants, copies and casts of numbers.
ghost use Rattle.std.specs.Prelude.{◌≡◌, ◌≤◌, ◌<◌, ◌+◌, ◌^◌, ◌∷◌, false, Some, None, MatchOption, suc};
ghost use Rattle.pl_code.specs.declared.kinds.Plain.TheVariants as plains;
ghost use Rattle.code_meaning.specs.declared.word.Word.TheVariants.{I, J};
ghost use Rattle.code_meaning.specs.Machine as spec;
ghost use Rattle.code_meaning.specs.Machine.{plain_act, on_stack, to_line};
ghost use Rattle.machine_parts.specs.Frames.{OnlyStack};
ghost use Rattle.machine_parts.specs.Rooms.{MembersWithin};
ghost use Rattle.machine.specs.Seen.{Comes, int_of, long_of, room_of, world_of, codes_in, limits_in};
ghost use Rattle.machine.specs.Rows.{Copies};
ghost use Rattle.machine.specs.Sparing.{CopySpares, OneBare, PlainSpares, TwoBare, is_text};
ghost use Rattle.machine.specs.Memory.{HasMemory, IsCopied};

use crate::access_rows::{get_index, put_index};
use crate::calls::ret;
use crate::configuration::{Configuration, Limits, Step};
use crate::container_rows::{Asked, ask};
use crate::references::{Pairing, pair};
use crate::throwing::throw_top;
use code_meaning::Word;
use machine_parts::{Executable, Frames, copy_of};
use number_ops::{low_byte, low_char, low_int, low_short};
use object_values::Value;
use pl_code::Plain;
use std::mem::forget;

/// An instruction without operands.
#[inline(always)]
#[tactic(auto, using(crate::proofs::Rows::no_int, crate::proofs::Rows::no_long))]
pub fn plain(run: &mut Configuration, executable: &Executable, limits: &Limits, kind: Plain) -> Step
    requires reached { MembersWithin executable.now run.old.world.reached.room }
    ensures exact { Comes (plain_act (codes_in executable.now) (limits_in executable.now limits.now) kind run.old.frames.top run.old.frames.below (world_of run.old.world)) result run.new }
    ensures memory { PlainSpares kind run.old.frames.top.stack run.old.world.heap → run.old.frames.count + 2 ≤ run.old.frames.words → suc run.old.frames.top.line < 2 ^ 64 → HasMemory result }
    ensures room { room_of run.new ≡ room_of run.old }
{
    match kind {
        Plain::Null => run.push(Word::R(Value::Null)),
        Plain::IntToLong => match pop_int(&mut run.frames) {
            Some(a) => run.push(Word::J(i64::from(a))),
            None => Step::Stuck,
        },
        Plain::LongToInt => match pop_long(&mut run.frames) {
            Some(a) => run.push(Word::I(low_int(a))),
            None => Step::Stuck,
        },
        Plain::IntToByte => match pop_int(&mut run.frames) {
            Some(a) => run.push(Word::I(i32::from(low_byte(a)))),
            None => Step::Stuck,
        },
        Plain::IntToShort => match pop_int(&mut run.frames) {
            Some(a) => run.push(Word::I(i32::from(low_short(a)))),
            None => Step::Stuck,
        },
        Plain::IntToChar => match pop_int(&mut run.frames) {
            Some(a) => run.push(Word::I(i32::from(low_char(a)))),
            None => Step::Stuck,
        },
        Plain::Ret => ret(run, executable, limits),
        Plain::Concat => pair(run, executable, limits, Pairing::Concat),
        Plain::Equal => pair(run, executable, limits, Pairing::Equal),
        Plain::Same => pair(run, executable, limits, Pairing::Same),
        Plain::Throw => throw_top(run, executable, limits),
        Plain::ArrayLength => ask(run, executable, limits, Asked::Length),
        Plain::GetIndex => get_index(run, executable, limits),
        Plain::PutIndex => put_index(run, executable, limits),
        Plain::Iter => ask(run, executable, limits, Asked::Iterate),
        Plain::Has => ask(run, executable, limits, Asked::HasMore),
        Plain::Next => ask(run, executable, limits, Asked::Next),
        _ => copy(run, kind),
    }
}

/// Takes an int off a stack. What is left where there is none is of no account.
#[inline(always)]
pub fn pop_int(frames: &mut Frames) -> Option<i32>
    ensures stack { MatchOption result (int_of frames.old.top.stack ≡ None) (λ a. frames.old.top.stack ≡ I a ∷ frames.new.top.stack) }
    ensures room { frames.old.count ≤ frames.old.words → MatchOption result (Unit {0}) (λ a. frames.new.count < frames.new.words) }
    ensures only { OnlyStack frames.old frames.new }
{
    let top = frames.pop();
    match &top {
        Some(Word::I(a)) => {
            let number = *a;
            forget(top);
            Some(number)
        }
        _ => None,
    }
}

/// Takes a long off a stack. What is left where there is none is of no account.
#[inline(always)]
pub fn pop_long(frames: &mut Frames) -> Option<i64>
    ensures stack { MatchOption result (long_of frames.old.top.stack ≡ None) (λ a. frames.old.top.stack ≡ J a ∷ frames.new.top.stack) }
    ensures room { frames.old.count ≤ frames.old.words → MatchOption result (Unit {0}) (λ a. frames.new.count < frames.new.words) }
    ensures only { OnlyStack frames.old frames.new }
{
    let top = frames.pop();
    match &top {
        Some(Word::J(a)) => {
            let number = *a;
            forget(top);
            Some(number)
        }
        _ => None,
    }
}

// Puts the upper operand on the stack once more. A number is read alone.
#[inline(always)]
#[tactic(auto, using(machine_paths::proofs::Quick::upper_twice))]
fn dup_top(run: &mut Configuration) -> Step
    ensures exact { Comes (on_stack (spec.copied plains.Dup run.old.frames.top.stack) (λ stack. to_line run.old.frames.top run.old.frames.below (world_of run.old.world) (suc run.old.frames.top.line) stack)) result run.new }
    ensures memory { CopySpares plains.Dup run.old.frames.top.stack → run.old.frames.count + 2 ≤ run.old.frames.words → suc run.old.frames.top.line < 2 ^ 64 → HasMemory result }
    ensures room { room_of run.new ≡ room_of run.old }
{
    match run.frames.upper() {
        Some(Word::I(a)) => {
            let number = *a;
            run.push(Word::I(number))
        }
        Some(Word::J(a)) => {
            let number = *a;
            run.push(Word::J(number))
        }
        _ => copy_words(run, Plain::Dup),
    }
}

// Takes the upper operand off the stack. A number owns nothing, and is left where it lies.
#[inline(always)]
fn drop_top(run: &mut Configuration) -> Step
    ensures exact { Comes (on_stack (spec.copied plains.Pop run.old.frames.top.stack) (λ stack. to_line run.old.frames.top run.old.frames.below (world_of run.old.world) (suc run.old.frames.top.line) stack)) result run.new }
    ensures memory { suc run.old.frames.top.line < 2 ^ 64 → HasMemory result }
    ensures room { room_of run.new ≡ room_of run.old }
{
    let top = run.frames.pop();
    match &top {
        Some(Word::R(_)) => run.goes_on(),
        Some(_) => {
            forget(top);
            run.goes_on()
        }
        None => Step::Stuck,
    }
}

/// What became of a copy.
pub enum Copying {
    Done,
    /// There are too few words, or the instruction copies nothing.
    Stuck,
    NoMemory,
}

// An instruction that copies words of the stack, or takes the top off. Those on one number are chosen here.
#[inline(always)]
fn copy(run: &mut Configuration, kind: Plain) -> Step
    ensures exact { Comes (on_stack (spec.copied kind run.old.frames.top.stack) (λ stack. to_line run.old.frames.top run.old.frames.below (world_of run.old.world) (suc run.old.frames.top.line) stack)) result run.new }
    ensures memory { CopySpares kind run.old.frames.top.stack → run.old.frames.count + 2 ≤ run.old.frames.words → suc run.old.frames.top.line < 2 ^ 64 → HasMemory result }
    ensures room { room_of run.new ≡ room_of run.old }
{
    match kind {
        Plain::Dup => dup_top(run),
        Plain::Pop => drop_top(run),
        _ => copy_words(run, kind),
    }
}

// The same of words of every kind.
fn copy_words(run: &mut Configuration, kind: Plain) -> Step
    ensures exact { Comes (on_stack (spec.copied kind run.old.frames.top.stack) (λ stack. to_line run.old.frames.top run.old.frames.below (world_of run.old.world) (suc run.old.frames.top.line) stack)) result run.new }
    ensures memory { CopySpares kind run.old.frames.top.stack → run.old.frames.count + 2 ≤ run.old.frames.words → suc run.old.frames.top.line < 2 ^ 64 → HasMemory result }
    ensures room { room_of run.new ≡ room_of run.old }
{
    match copied(&mut run.frames, kind) {
        Copying::Done => run.goes_on(),
        Copying::Stuck => Step::Stuck,
        Copying::NoMemory => Step::NoMemory,
    }
}

fn copied(frames: &mut Frames, kind: Plain) -> Copying
    ensures stack { Copies (spec.copied kind frames.old.top.stack) frames.new.top.stack result }
    ensures memory { CopySpares kind frames.old.top.stack → frames.old.count + 2 ≤ frames.old.words → IsCopied result }
    ensures only { OnlyStack frames.old frames.new }
{
    match kind {
        Plain::Pop => pop(frames),
        Plain::Dup => dup(frames),
        Plain::Dup2 => dup_two(frames),
        Plain::DupX1 => dup_below_one(frames),
        Plain::DupX2 => dup_below_two(frames),
        _ => Copying::Stuck,
    }
}

#[inline(always)]
fn pop(frames: &mut Frames) -> Copying
    ensures stack { Copies (spec.copied plains.Pop frames.old.top.stack) frames.new.top.stack result }
    ensures memory { IsCopied result }
    ensures only { OnlyStack frames.old frames.new }
{
    match frames.pop() {
        Some(_top) => Copying::Done,
        None => Copying::Stuck,
    }
}

// Puts words on a stack, the first of them first.
fn put_two(frames: &mut Frames, first: Word, second: Word) -> Copying
    ensures stack { Copies (Some (second ∷ first ∷ frames.old.top.stack)) frames.new.top.stack result }
    ensures memory { frames.old.count + 2 ≤ frames.old.words → IsCopied result }
    ensures only { OnlyStack frames.old frames.new }
{
    match frames.push(first) {
        Ok(()) => match frames.push(second) {
            Ok(()) => Copying::Done,
            Err(_) => Copying::NoMemory,
        },
        Err(_) => Copying::NoMemory,
    }
}

fn put_three(frames: &mut Frames, first: Word, second: Word, third: Word) -> Copying
    ensures stack { Copies (Some (third ∷ second ∷ first ∷ frames.old.top.stack)) frames.new.top.stack result }
    ensures memory { frames.old.count + 3 ≤ frames.old.words → IsCopied result }
    ensures only { OnlyStack frames.old frames.new }
{
    match frames.push(first) {
        Ok(()) => put_two(frames, second, third),
        Err(_) => Copying::NoMemory,
    }
}

fn put_four(frames: &mut Frames, first: Word, second: Word, third: Word, fourth: Word) -> Copying
    ensures stack { Copies (Some (fourth ∷ third ∷ second ∷ first ∷ frames.old.top.stack)) frames.new.top.stack result }
    ensures memory { frames.old.count + 4 ≤ frames.old.words → IsCopied result }
    ensures only { OnlyStack frames.old frames.new }
{
    match frames.push(first) {
        Ok(()) => put_three(frames, second, third, fourth),
        Err(_) => Copying::NoMemory,
    }
}

fn dup(frames: &mut Frames) -> Copying
    ensures stack { Copies (spec.copied plains.Dup frames.old.top.stack) frames.new.top.stack result }
    ensures memory { frames.old.count < frames.old.words → OneBare frames.old.top.stack → IsCopied result }
    ensures only { OnlyStack frames.old frames.new }
{
    match frames.pop() {
        Some(z) => match copy_of(&z) {
            Ok(copy) => put_two(frames, z, copy),
            Err(_) => Copying::NoMemory,
        },
        None => Copying::Stuck,
    }
}

fn dup_two(frames: &mut Frames) -> Copying
    ensures stack { Copies (spec.copied plains.Dup2 frames.old.top.stack) frames.new.top.stack result }
    ensures memory { frames.old.count + 2 ≤ frames.old.words → TwoBare frames.old.top.stack → IsCopied result }
    ensures only { OnlyStack frames.old frames.new }
{
    match frames.pop() {
        Some(z) => match frames.pop() {
            Some(y) => share_two(frames, z, y),
            None => Copying::Stuck,
        },
        None => Copying::Stuck,
    }
}

// Puts two words on a stack twice.
fn share_two(frames: &mut Frames, z: Word, y: Word) -> Copying
    ensures stack { Copies (Some (z ∷ y ∷ z ∷ y ∷ frames.old.top.stack)) frames.new.top.stack result }
    ensures memory { frames.old.count + 4 ≤ frames.old.words → is_text z ≡ false → is_text y ≡ false → IsCopied result }
    ensures only { OnlyStack frames.old frames.new }
{
    match copy_of(&z) {
        Ok(upper) => match copy_of(&y) {
            Ok(lower) => put_four(frames, y, z, lower, upper),
            Err(_) => Copying::NoMemory,
        },
        Err(_) => Copying::NoMemory,
    }
}

fn dup_below_one(frames: &mut Frames) -> Copying
    ensures stack { Copies (spec.copied plains.DupX1 frames.old.top.stack) frames.new.top.stack result }
    ensures memory { frames.old.count < frames.old.words → OneBare frames.old.top.stack → IsCopied result }
    ensures only { OnlyStack frames.old frames.new }
{
    match frames.pop() {
        Some(z) => match frames.pop() {
            Some(y) => share_below_one(frames, z, y),
            None => Copying::Stuck,
        },
        None => Copying::Stuck,
    }
}

fn share_below_one(frames: &mut Frames, z: Word, y: Word) -> Copying
    ensures stack { Copies (Some (z ∷ y ∷ z ∷ frames.old.top.stack)) frames.new.top.stack result }
    ensures memory { frames.old.count + 3 ≤ frames.old.words → is_text z ≡ false → IsCopied result }
    ensures only { OnlyStack frames.old frames.new }
{
    match copy_of(&z) {
        Ok(copy) => put_three(frames, copy, y, z),
        Err(_) => Copying::NoMemory,
    }
}

fn dup_below_two(frames: &mut Frames) -> Copying
    ensures stack { Copies (spec.copied plains.DupX2 frames.old.top.stack) frames.new.top.stack result }
    ensures memory { frames.old.count < frames.old.words → OneBare frames.old.top.stack → IsCopied result }
    ensures only { OnlyStack frames.old frames.new }
{
    match frames.pop() {
        Some(z) => match frames.pop() {
            Some(y) => match frames.pop() {
                Some(x) => share_below_two(frames, z, y, x),
                None => Copying::Stuck,
            },
            None => Copying::Stuck,
        },
        None => Copying::Stuck,
    }
}

fn share_below_two(frames: &mut Frames, z: Word, y: Word, x: Word) -> Copying
    ensures stack { Copies (Some (z ∷ y ∷ x ∷ z ∷ frames.old.top.stack)) frames.new.top.stack result }
    ensures memory { frames.old.count + 4 ≤ frames.old.words → is_text z ≡ false → IsCopied result }
    ensures only { OnlyStack frames.old frames.new }
{
    match copy_of(&z) {
        Ok(copy) => put_four(frames, copy, x, y, z),
        Err(_) => Copying::NoMemory,
    }
}
