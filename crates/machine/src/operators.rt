//! Operators on numbers.
ghost use Rattle.std.specs.Prelude.{◌≡◌, ◌≤◌, ◌<◌, ◌^◌, Some, suc};
ghost use Rattle.code_meaning.specs.Machine.{on_calculation};
ghost use Rattle.code_meaning.specs.Words as words;
ghost use Rattle.machine_parts.specs.Frames.{OnlyStack};
ghost use Rattle.machine.specs.Seen.{Comes, room_of, world_of, codes_in, limits_in};
ghost use Rattle.machine.specs.Rows.{CalculatesTo, calculated_of};
ghost use Rattle.machine.specs.Sparing.{NoZero};
ghost use Rattle.machine.specs.Memory.{HasMemory, HasRoom};

use crate::configuration::{Configuration, Limits, Step};
use crate::operands::{pop_int, pop_long};
use crate::throwing::throw_zero_divisor;
use machine_parts::{Executable, Frames};
use machine_paths::{is_shift, on_ints, on_longs, takes_one, word_of};
use number_ops::Num;
use pl_code::{ArithmeticOp, Width};

/// What an operator comes to.
#[derive(Clone, Copy, PartialEq, Eq)]
pub enum Operated {
    /// The operands are not there.
    NoRow,
    Number(Num),
    ZeroDivisor,
}

/// An operator on numbers of a width.
#[inline(always)]
pub fn arithmetic(
    run: &mut Configuration,
    executable: &Executable,
    limits: &Limits,
    op: ArithmeticOp,
    width: Width,
) -> Step
    ensures exact { Comes (on_calculation (codes_in executable.now) (limits_in executable.now limits.now) (words.calculation op width run.old.frames.top.stack) run.old.frames.top run.old.frames.below (world_of run.old.world)) result run.new }
    ensures memory { NoZero (words.calculation op width run.old.frames.top.stack) → run.old.frames.count ≤ run.old.frames.words → suc run.old.frames.top.line < 2 ^ 64 → HasMemory result }
    ensures room { room_of run.new ≡ room_of run.old }
{
    match calculated(&mut run.frames, op, width) {
        Operated::NoRow => Step::Stuck,
        Operated::Number(number) => run.push(word_of(number)),
        Operated::ZeroDivisor => throw_zero_divisor(run, executable, limits),
    }
}

#[inline(always)]
fn calculated(frames: &mut Frames, op: ArithmeticOp, width: Width) -> Operated
    ensures stack { CalculatesTo (words.calculation op width frames.old.top.stack) frames.new.top.stack result }
    ensures room { frames.old.count ≤ frames.old.words → HasRoom result frames.new }
    ensures only { OnlyStack frames.old frames.new }
{
    match width {
        Width::Int => ints(frames, op),
        Width::Long => longs(frames, op),
    }
}

#[inline(always)]
fn ints(frames: &mut Frames, op: ArithmeticOp) -> Operated
    ensures stack { CalculatesTo (words.ints_of op frames.old.top.stack) frames.new.top.stack result }
    ensures room { frames.old.count ≤ frames.old.words → HasRoom result frames.new }
    ensures only { OnlyStack frames.old frames.new }
{
    if takes_one(op) {
        one_int(frames, op)
    } else {
        two_ints(frames, op)
    }
}

#[inline(always)]
fn longs(frames: &mut Frames, op: ArithmeticOp) -> Operated
    ensures stack { CalculatesTo (words.longs_of op frames.old.top.stack) frames.new.top.stack result }
    ensures room { frames.old.count ≤ frames.old.words → HasRoom result frames.new }
    ensures only { OnlyStack frames.old frames.new }
{
    if takes_one(op) {
        one_long(frames, op)
    } else if is_shift(op) {
        long_and_int(frames, op)
    } else {
        two_longs(frames, op)
    }
}

#[inline(always)]
#[tactic(auto, using(crate::proofs::Rows::not_one_int))]
fn one_int(frames: &mut Frames, op: ArithmeticOp) -> Operated
    ensures stack { CalculatesTo (words.one_int (words.op_of op) frames.old.top.stack) frames.new.top.stack result }
    ensures room { frames.old.count ≤ frames.old.words → HasRoom result frames.new }
    ensures only { OnlyStack frames.old frames.new }
{
    match pop_int(frames) {
        Some(a) => given(on_ints(op, a, a)),
        None => Operated::NoRow,
    }
}

#[inline(always)]
#[tactic(auto, using(crate::proofs::Rows::not_two_ints, crate::proofs::Rows::one_of_two_ints))]
fn two_ints(frames: &mut Frames, op: ArithmeticOp) -> Operated
    ensures stack { CalculatesTo (words.two_ints (words.op_of op) frames.old.top.stack) frames.new.top.stack result }
    ensures room { frames.old.count ≤ frames.old.words → HasRoom result frames.new }
    ensures only { OnlyStack frames.old frames.new }
{
    match pop_int(frames) {
        Some(b) => match pop_int(frames) {
            Some(a) => given(on_ints(op, a, b)),
            None => Operated::NoRow,
        },
        None => Operated::NoRow,
    }
}

#[inline(always)]
#[tactic(auto, using(crate::proofs::Rows::not_one_long))]
fn one_long(frames: &mut Frames, op: ArithmeticOp) -> Operated
    ensures stack { CalculatesTo (words.one_long (words.op_of op) frames.old.top.stack) frames.new.top.stack result }
    ensures room { frames.old.count ≤ frames.old.words → HasRoom result frames.new }
    ensures only { OnlyStack frames.old frames.new }
{
    match pop_long(frames) {
        Some(a) => given(on_longs(op, a, a)),
        None => Operated::NoRow,
    }
}

#[inline(always)]
#[tactic(auto, using(crate::proofs::Rows::no_shift, crate::proofs::Rows::half_shift))]
fn long_and_int(frames: &mut Frames, op: ArithmeticOp) -> Operated
    ensures stack { CalculatesTo (words.long_and_int (words.op_of op) frames.old.top.stack) frames.new.top.stack result }
    ensures room { frames.old.count ≤ frames.old.words → HasRoom result frames.new }
    ensures only { OnlyStack frames.old frames.new }
{
    match pop_int(frames) {
        Some(b) => match pop_long(frames) {
            Some(a) => given(on_longs(op, a, i64::from(b))),
            None => Operated::NoRow,
        },
        None => Operated::NoRow,
    }
}

#[inline(always)]
#[tactic(auto, using(crate::proofs::Rows::not_two_longs, crate::proofs::Rows::one_of_two_longs))]
fn two_longs(frames: &mut Frames, op: ArithmeticOp) -> Operated
    ensures stack { CalculatesTo (words.two_longs (words.op_of op) frames.old.top.stack) frames.new.top.stack result }
    ensures room { frames.old.count ≤ frames.old.words → HasRoom result frames.new }
    ensures only { OnlyStack frames.old frames.new }
{
    match pop_long(frames) {
        Some(b) => match pop_long(frames) {
            Some(a) => given(on_longs(op, a, b)),
            None => Operated::NoRow,
        },
        None => Operated::NoRow,
    }
}

#[inline(always)]
fn given(number: Option<Num>) -> Operated
    ensures { result ≡ calculated_of number }
{
    match number {
        Some(number) => Operated::Number(number),
        None => Operated::ZeroDivisor,
    }
}
