//! Operators on values whose types are found at run time.
ghost use Rattle.std.specs.Prelude.{◌≡◌};
ghost use Rattle.object_heap.specs.Effects.{Answers};
ghost use Rattle.value_walks.specs.Texts.{Writes};
ghost use Rattle.number_ops.specs.Operators as spec;
ghost use Rattle.number_ops.specs.Outcomes.{Affords, Tells, WantsMemory, effect, too_deep, too_large, zero_divisor};
ghost use Rattle.number_ops.specs.Operators.{both_texts, calculated, operate, concatenated};
ghost use Rattle.arithmetic.specs.Operators.{arith_of};

use crate::affording::{Afforded, text_afforded};
use crate::errors::{cannot_apply, cannot_apply_to_one, null_error, says};
use crate::outcome::{Outcome, Raised};
use crate::values::{boxed, compares, is_null, is_text, number_in, truth_in};
use arithmetic::{Num, Op, arith};
use member_arguments::text_room;
use object_heap::{Answer, Heap};
use object_values::Value;
use value_walks::{Output, TextErr, VISITS, push_text, text_written};

/// An operator whose operands have types that are found here. Bytes, shorts and chars become ints, and where one side is a long
/// both become longs; a shift has the type of its left side. `+` concatenates the texts of both sides where one is a text. `&`,
/// `|` and `^` also take two truth values, and a comparison gives a truth value. Of an operator of one operand `b` is not looked
/// at.
///
/// `Thrown`: a null is NullPointerException, a zero divisor ArithmeticException, operands of any other kinds ClassCastException,
/// and a text that is nested too deeply or too large IllegalStateException. `Room`: the charge, of a text its units and 1 and of
/// an exception the units of its message and 1, is above the room left. `NoMemory`: there was none for the text or the exception.
pub fn def_op(heap: &mut Heap, op: Op, a: &Value, b: &Value) -> Answer
    ensures exact { Answers (effect heap.old (operate heap.old.objects op a.now b.now)) heap.old heap.new result }
    ensures memory { WantsMemory (operate heap.old.objects op a.now b.now) result }
{
    operate(heap, op, a, b).settle(heap)
}

/// The text of one value and then that of another, which is charged its units and 1. The answers are those of [`def_op`].
pub fn concatenate(heap: &mut Heap, a: &Value, b: &Value) -> Answer
    ensures { Answers (effect heap.old (concatenated heap.old.objects a.now b.now)) heap.old heap.new result }
{
    concatenated(heap, a, b).settle(heap)
}

fn operate(heap: &Heap, op: Op, a: &Value, b: &Value) -> Afforded
    ensures { Affords heap.now (operate heap.now.objects op a.now b.now) result }
{
    match op {
        Op::Add => sum(heap, a, b),
        Op::Neg | Op::Not | Op::Pos => Afforded::Told(unary(heap, op, a)),
        _ => Afforded::Told(binary(heap, op, a, b)),
    }
}

fn sum(heap: &Heap, a: &Value, b: &Value) -> Afforded
    ensures { Affords heap.now (spec.sum heap.now.objects a.now b.now) result }
{
    if is_text(a) || is_text(b) {
        concatenated(heap, a, b)
    } else {
        Afforded::Told(binary(heap, Op::Add, a, b))
    }
}

// Writes the text of one value and then that of another.
fn push_both(heap: &Heap, a: &Value, b: &Value, out: &mut Output) -> Result<u64, TextErr>
    ensures { Writes (both_texts heap.now.objects a.now b.now) out.old out.new result }
{
    push_text(heap, a, VISITS, out)?;
    push_text(heap, b, VISITS, out)
}

// The text is made if there is room for it.
fn concatenated(heap: &Heap, a: &Value, b: &Value) -> Afforded
    ensures { Affords heap.now (concatenated heap.now.objects a.now b.now) result }
{
    let mut out = Output::new(heap.alloc(), text_room(heap));
    let walked = push_both(heap, a, b, &mut out);
    text_afforded(heap, text_written(out, walked))
}

/// The exception of a walk that goes too deep.
pub fn too_deep(heap: &Heap) -> Outcome
    ensures { Tells too_deep result }
{
    says(
        heap.alloc(),
        Raised::IllegalState,
        "value nested too deeply",
    )
}

/// The exception of a walk that visits too much.
pub fn too_large(heap: &Heap) -> Outcome
    ensures { Tells too_large result }
{
    says(
        heap.alloc(),
        Raised::IllegalState,
        "value too large to walk",
    )
}

/// The exception of a division by zero.
pub fn zero_divisor(heap: &Heap) -> Outcome
    ensures { Tells zero_divisor result }
{
    says(heap.alloc(), Raised::Arithmetic, "/ by zero")
}

fn unary(heap: &Heap, op: Op, a: &Value) -> Outcome
    ensures { Tells (spec.unary_of heap.now.objects op a.now (spec.number_in a.now)) result }
{
    match number_in(a) {
        Some(number) => calculated(heap, op, number, number),
        None => {
            if is_null(a) {
                null_error()
            } else {
                cannot_apply_to_one(heap, op, a)
            }
        }
    }
}

fn binary(heap: &Heap, op: Op, a: &Value, b: &Value) -> Outcome
    ensures { Tells (spec.binary heap.now.objects op a.now b.now) result }
{
    match (number_in(a), number_in(b)) {
        (Some(left), Some(right)) => calculated(heap, op, left, right),
        (Some(_), None) => of_others(heap, op, a, b),
        (None, _) => of_others(heap, op, a, b),
    }
}

fn calculated(heap: &Heap, op: Op, a: Num, b: Num) -> Outcome
    ensures { Tells (calculated op (arith_of op a b)) result }
{
    match arith(op, a, b) {
        Ok(number) => Outcome::Gives(of_result(op, number)),
        Err(_) => zero_divisor(heap),
    }
}

fn of_result(op: Op, number: Num) -> Value
    ensures { result ≡ spec.of_result op number }
{
    if compares(op) {
        truth_in(number)
    } else {
        boxed(number)
    }
}

// Operands that are not both numbers.
fn of_others(heap: &Heap, op: Op, a: &Value, b: &Value) -> Outcome
    ensures { Tells (spec.of_others heap.now.objects op a.now b.now) result }
{
    match flags_of(op, a, b) {
        Some(flag) => Outcome::Gives(Value::Bool(flag)),
        None => refused(heap, op, a, b),
    }
}

// What an operator gives of operands that are two truth values.
fn flags_of(op: Op, a: &Value, b: &Value) -> Option<bool>
    ensures { result ≡ spec.flags_of op a.now b.now }
{
    match a {
        Value::Bool(flag) => with_flag(op, *flag, b),
        _ => None,
    }
}

fn with_flag(op: Op, a: bool, b: &Value) -> Option<bool>
    ensures { result ≡ spec.with_flag op a b.now }
{
    match b {
        Value::Bool(flag) => of_flags(op, a, *flag),
        _ => None,
    }
}

fn of_flags(op: Op, a: bool, b: bool) -> Option<bool>
    ensures { result ≡ spec.of_flags op a b }
{
    match op {
        Op::And => Some(a && b),
        Op::Or => Some(a || b),
        Op::Xor => Some(a != b),
        _ => None,
    }
}

fn refused(heap: &Heap, op: Op, a: &Value, b: &Value) -> Outcome
    ensures { Tells (spec.refused heap.now.objects op a.now b.now) result }
{
    if is_null(a) || is_null(b) {
        null_error()
    } else {
        cannot_apply(heap, op, a, b)
    }
}
