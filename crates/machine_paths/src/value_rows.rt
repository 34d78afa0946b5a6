//! Rows of the path of values: words of every kind are moved and copied, and numbers are worked on in their boxes. None of them changes
//! the store, makes an object or throws. What finds no operands for it, or no memory, changes nothing.
ghost use Rattle.std.specs.Prelude.{◌≡◌, ◌∷◌, ◌≤◌, Bool, Some, drop, length, suc, slice_get, slice_set, MatchOption};
ghost use Rattle.arithmetic.specs.Operators.{as_long, by_both};
ghost use Rattle.pl_types.specs.declared.ty.Ty.TheVariants as ty;
ghost use Rattle.number_ops.specs.Casts.{cast_at_run_time};
ghost use Rattle.number_ops.specs.Operators as operators;
ghost use Rattle.number_ops.specs.Outcomes.{effect};
ghost use Rattle.run_state.specs.World.{Limits, World, acts_in};
ghost use Rattle.pl_code.specs.declared.kinds.Plain.TheVariants as plains;
ghost use Rattle.code_meaning.specs.Words as words;
ghost use Rattle.code_meaning.specs.declared.word.Word.TheVariants.{R};
ghost use Rattle.code_meaning.specs.Machine.{Codes, Goes, copied, dynamic_given, gives_back, on_calculation, on_local, on_outcome, on_reference, on_stack, on_top, on_value, operator_act, to_line};
ghost use Rattle.machine_paths.specs.Boxed.{Operates, OperatesOn, int_out, number_boxed, plain_operator, taken_out};
ghost use Rattle.machine_paths.specs.Fast.{Does, KeepsRoom, KeepsTurns, in_world};
ghost use Rattle.machine_parts.specs.Frames.{at_line, with_stack};

use crate::boxes::boxed;
use crate::fast_path::{ints, longs_on, put_for_two};
use crate::numbers::{call_on_longs, is_shift, on_ints, takes_one};
use arithmetic::Num;
use code_meaning::Word;
use machine_parts::{Frames, quick_copy_of};
use object_values::Value;
use pl_code::{ArithmeticOp, DynamicOp, Width};
use pl_types::Primitive;

/// The word in a local goes on the stack.
#[inline(always)]
pub fn load_word(frames: &mut Frames, number: u32, next: usize) -> bool
    ensures exact { (w : World) → Does (on_local (slice_get frames.old.top.locals number) (λ word. to_line frames.old.top frames.old.below w next (word ∷ frames.old.top.stack))) (in_world frames.old w) (in_world frames.new w) result }
    ensures keeps { KeepsTurns frames.old frames.new }
{
    match frames.local(number as usize) {
        Some(word) => match quick_copy_of(word) {
            Ok(copy) => frames.put(copy, next),
            Err(_) => false,
        },
        None => false,
    }
}

/// The word on the stack goes to a local.
#[inline(always)]
#[tactic(auto, using(crate::proofs::Quick::of_top))]
pub fn store_word(frames: &mut Frames, number: u32, next: usize) -> bool
    ensures exact { (w : World) → Does (on_top frames.old.top.stack (λ word stack. Goes (record { top = record { text = frames.old.top.text; fun = frames.old.top.fun; line = next; locals = slice_set frames.old.top.locals number word; stack = stack; turns = frames.old.top.turns; due = frames.old.top.due }; below = frames.old.below; world = w }))) (in_world frames.old w) (in_world frames.new w) result }
    ensures keeps { KeepsTurns frames.old frames.new }
{
    match frames.pop() {
        Some(word) => {
            frames.store(number as usize, word);
            frames.set_line(next);
            true
        }
        None => false,
    }
}

/// The word on the stack once more.
#[inline(always)]
#[tactic(auto, using(crate::proofs::Quick::upper_twice))]
pub fn duplicate_word(frames: &mut Frames, next: usize) -> bool
    ensures exact { (w : World) → Does (on_stack (copied plains.Dup frames.old.top.stack) (λ stack. to_line frames.old.top frames.old.below w next stack)) (in_world frames.old w) (in_world frames.new w) result }
    ensures keeps { KeepsTurns frames.old frames.new }
{
    match frames.upper() {
        Some(word) => match quick_copy_of(word) {
            Ok(copy) => frames.put(copy, next),
            Err(_) => false,
        },
        None => false,
    }
}

/// The word on the stack is taken off. What owns nothing is not read.
#[inline(always)]
#[tactic(auto, using(crate::proofs::Quick::of_popped))]
pub fn take_word(frames: &mut Frames, next: usize) -> bool
    ensures exact { (w : World) → Does (on_stack (copied plains.Pop frames.old.top.stack) (λ stack. to_line frames.old.top frames.old.below w next stack)) (in_world frames.old w) (in_world frames.new w) result }
    ensures keeps { KeepsTurns frames.old frames.new }
{
    match frames.upper() {
        Some(Word::R(Value::Str(_))) => {
            let _word = frames.pop();
            frames.set_line(next);
            true
        }
        Some(_) => {
            frames.drop_number(next);
            true
        }
        None => false,
    }
}

/// Returns the word on the stack to the frame below: whether it was returned.
#[inline(always)]
#[tactic(auto, using(crate::proofs::Moving::given_back))]
pub fn give_word(frames: &mut Frames) -> bool
    ensures exact { (codes : Codes) (limits : Limits) (w : World) → Does (on_top frames.old.top.stack (λ word rest. gives_back codes limits frames.old.below frames.old.top.due (Some word) w)) (in_world frames.old w) (in_world frames.new w) result }
    ensures room { KeepsRoom frames.old frames.new }
{
    match frames.upper() {
        Some(word) => match quick_copy_of(word) {
            Ok(copy) => frames.give_back(copy),
            Err(_) => false,
        },
        None => false,
    }
}

/// The number on the stack in the box of a primitive.
#[inline(always)]
#[tactic(auto, using(crate::proofs::Quick::of_upper, crate::proofs::Boxing::has_upper))]
pub fn box_top(frames: &mut Frames, primitive: Primitive, next: usize) -> bool
    ensures exact { (w : World) → Does (on_top frames.old.top.stack (λ word stack. on_value (words.boxed primitive word) (λ value. to_line frames.old.top frames.old.below w next (R value ∷ stack)))) (in_world frames.old w) (in_world frames.new w) result }
    ensures keeps { KeepsTurns frames.old frames.new }
{
    match frames.upper() {
        Some(word) => match boxed(primitive, word) {
            Some(value) => {
                frames.write_upper(Word::R(value), next);
                true
            }
            None => false,
        },
        None => false,
    }
}

/// The value on the stack out of its box, where it is of the primitive, or an int that becomes a long.
#[inline(always)]
#[tactic(auto, using(crate::proofs::Quick::of_upper, crate::proofs::Boxing::has_upper))]
pub fn unbox_top(frames: &mut Frames, primitive: Primitive, next: usize) -> bool
    requires { next ≡ suc frames.old.top.line }
    ensures exact { (codes : Codes) (limits : Limits) (w : World) (written : Bool) → Does (on_top frames.old.top.stack (λ word stack. on_reference word (λ value. on_outcome codes limits (acts_in w (effect w.store (cast_at_run_time w.store.objects value (ty.Prim primitive) written))) words.unboxed frames.old.top frames.old.below w stack))) (in_world frames.old w) (in_world frames.new w) result }
    ensures keeps { KeepsTurns frames.old frames.new }
{
    match frames.upper() {
        Some(Word::R(value)) => match taken_out(primitive, value) {
            Some(word) => {
                frames.write_upper(word, next);
                true
            }
            None => false,
        },
        _ => false,
    }
}

// The word of a value that is in the box of a primitive, or of an int that becomes a long.
#[inline(always)]
fn taken_out(primitive: Primitive, value: &Value) -> Option<Word>
    ensures { result ≡ taken_out primitive value.now }
{
    match value {
        Value::Int(number) => int_out(primitive, *number),
        Value::Long(number) => match primitive {
            Primitive::Long => Some(Word::J(*number)),
            _ => None,
        },
        Value::Bool(flag) => match primitive {
            Primitive::Boolean => Some(Word::I(i32::from(*flag))),
            _ => None,
        },
        _ => None,
    }
}

#[inline(always)]
fn int_out(primitive: Primitive, number: i32) -> Option<Word>
    ensures { result ≡ int_out primitive number }
{
    match primitive {
        Primitive::Int => Some(Word::I(number)),
        Primitive::Long => Some(Word::J(i64::from(number))),
        _ => None,
    }
}

/// An operator on two ints or longs in their boxes.
#[inline(always)]
#[tactic(auto, using(crate::proofs::Boxing::two_there))]
pub fn operate_top(frames: &mut Frames, op: DynamicOp, next: usize) -> bool
    requires { next ≡ suc frames.old.top.line }
    ensures exact { (codes : Codes) (limits : Limits) (w : World) → Does (operator_act codes limits (words.op_of_dynamic op) frames.old.top frames.old.below w) (in_world frames.old w) (in_world frames.new w) result }
    ensures keeps { KeepsTurns frames.old frames.new }
{
    match operator_of(op) {
        Some(plain) => match operated_top(frames, plain) {
            Some(word) => {
                put_for_both(frames, word, next);
                true
            }
            None => false,
        },
        None => false,
    }
}

// The operator on numbers that one on values is: none of one operand, and no shift.
#[inline(always)]
fn operator_of(op: DynamicOp) -> Option<ArithmeticOp>
    ensures { result ≡ plain_operator op }
{
    match op {
        DynamicOp::Add => Some(ArithmeticOp::Add),
        DynamicOp::Sub => Some(ArithmeticOp::Sub),
        DynamicOp::Mul => Some(ArithmeticOp::Mul),
        DynamicOp::Div => Some(ArithmeticOp::Div),
        DynamicOp::Rem => Some(ArithmeticOp::Rem),
        DynamicOp::And => Some(ArithmeticOp::And),
        DynamicOp::Or => Some(ArithmeticOp::Or),
        DynamicOp::Xor => Some(ArithmeticOp::Xor),
        DynamicOp::Lt => Some(ArithmeticOp::Lt),
        DynamicOp::Le => Some(ArithmeticOp::Le),
        DynamicOp::Gt => Some(ArithmeticOp::Gt),
        DynamicOp::Ge => Some(ArithmeticOp::Ge),
        _ => None,
    }
}

// What an operator gives of the two upper operands.
#[inline(always)]
fn operated_top(frames: &Frames, op: ArithmeticOp) -> Option<Word>
    ensures { MatchOption result (Unit {0}) (λ word. OperatesOn op frames.now.top.stack word) }
{
    match frames.upper() {
        Some(Word::R(b)) => match frames.lower() {
            Some(Word::R(a)) => operated(op, a, b),
            _ => None,
        },
        _ => None,
    }
}

// What an operator gives of two values, if they are ints or longs in their boxes.
#[inline(always)]
fn operated(op: ArithmeticOp, a: &Value, b: &Value) -> Option<Word>
    ensures { MatchOption result (Unit {0}) (λ word. Operates op a.now b.now word) }
{
    match number_boxed(a) {
        Some(left) => match number_boxed(b) {
            Some(right) => match on_both(op, left, right) {
                Some(number) => Some(result_of(op, number)),
                None => None,
            },
            None => None,
        },
        None => None,
    }
}

// The number in the box of an int or a long.
#[inline(always)]
fn number_boxed(value: &Value) -> Option<Num>
    ensures { result ≡ number_boxed value.now }
{
    match value {
        Value::Int(number) => Some(Num::Int(*number)),
        Value::Long(number) => Some(Num::Long(*number)),
        _ => None,
    }
}

// An operator on two numbers, of the type long where one of them is.
#[inline(always)]
fn on_both(op: ArithmeticOp, a: Num, b: Num) -> Option<Num>
    ensures { result ≡ by_both (words.op_of op) a b }
{
    match a {
        Num::Int(left) => match b {
            Num::Int(right) => on_ints(op, left, right),
            Num::Long(_) => call_on_longs(op, as_long(a), as_long(b)),
        },
        Num::Long(_) => call_on_longs(op, as_long(a), as_long(b)),
    }
}

#[inline(always)]
fn as_long(number: Num) -> i64
    ensures { result ≡ as_long number }
{
    match number {
        Num::Int(number) => i64::from(number),
        Num::Long(number) => number,
    }
}

// The word of what an operator gives: of a comparison an int, and else a number in its box.
#[inline(always)]
#[tactic(auto, using(crate::proofs::Boxing::compared, crate::proofs::Boxing::not_compared))]
fn result_of(op: ArithmeticOp, number: Num) -> Word
    ensures { (codes : Codes) (limits : Limits) → result ≡ dynamic_given codes limits (words.op_of op) (operators.of_result (words.op_of op) number) }
{
    if compares(op) {
        truth_of(number)
    } else {
        boxed_of(number)
    }
}

#[inline(always)]
fn compares(op: ArithmeticOp) -> bool
    ensures { result ≡ operators.compares (words.op_of op) }
{
    matches!(
        op,
        ArithmeticOp::Lt
            | ArithmeticOp::Le
            | ArithmeticOp::Gt
            | ArithmeticOp::Ge
            | ArithmeticOp::Eq
            | ArithmeticOp::Ne
    )
}

#[inline(always)]
fn truth_of(number: Num) -> Word
    ensures { result ≡ words.unboxed (operators.truth_in number) }
{
    match number {
        Num::Int(number) => Word::I(i32::from(number != 0)),
        Num::Long(number) => Word::I(i32::from(number != 0)),
    }
}

#[inline(always)]
fn boxed_of(number: Num) -> Word
    ensures { result ≡ R (operators.boxed number) }
{
    match number {
        Num::Int(number) => Word::R(Value::Int(number)),
        Num::Long(number) => Word::R(Value::Long(number)),
    }
}

// Puts a word in the place of two, which own nothing.
#[inline(always)]
#[tactic(auto, using(crate::proofs::Quick::one_is_left, crate::proofs::Quick::both_left))]
fn put_for_both(frames: &mut Frames, word: Word, next: usize)
    requires { 2 ≤ length frames.old.top.stack }
    ensures top { frames.new.top ≡ at_line (with_stack frames.old.top (word ∷ drop 2 frames.old.top.stack)) next }
    ensures below { frames.new.below ≡ frames.old.below }
    ensures words { frames.new.words ≡ frames.old.words }
    ensures depth { frames.new.depth ≡ frames.old.depth }
{
    frames.drop_number(next);
    frames.write_upper(word, next);
}

/// An operator on two numbers of a width. Those on longs are called.
#[inline(always)]
pub fn calculate(frames: &mut Frames, op: ArithmeticOp, width: Width, next: usize) -> bool
    requires { next ≡ suc frames.old.top.line }
    ensures exact { (codes : Codes) (limits : Limits) (w : World) → Does (on_calculation codes limits (words.calculation op width frames.old.top.stack) frames.old.top frames.old.below w) (in_world frames.old w) (in_world frames.new w) result }
    ensures keeps { KeepsTurns frames.old frames.new }
{
    match width {
        Width::Int => ints(frames, op, next),
        Width::Long => longs(frames, op, next),
    }
}

#[inline(always)]
fn longs(frames: &mut Frames, op: ArithmeticOp, next: usize) -> bool
    requires { next ≡ suc frames.old.top.line }
    ensures exact { (codes : Codes) (limits : Limits) (w : World) → Does (on_calculation codes limits (words.longs_of op frames.old.top.stack) frames.old.top frames.old.below w) (in_world frames.old w) (in_world frames.new w) result }
    ensures keeps { KeepsTurns frames.old frames.new }
{
    if takes_one(op) {
        false
    } else if is_shift(op) {
        false
    } else {
        two_longs(frames, op, next)
    }
}

#[inline(always)]
#[tactic(auto, using(crate::proofs::Quick::of_two_longs))]
fn two_longs(frames: &mut Frames, op: ArithmeticOp, next: usize) -> bool
    requires { next ≡ suc frames.old.top.line }
    ensures exact { (codes : Codes) (limits : Limits) (w : World) → Does (on_calculation codes limits (words.two_longs (words.op_of op) frames.old.top.stack) frames.old.top frames.old.below w) (in_world frames.old w) (in_world frames.new w) result }
    ensures keeps { KeepsTurns frames.old frames.new }
{
    match longs_on(frames) {
        Some((a, b)) => match call_on_longs(op, a, b) {
            Some(number) => {
                put_for_two(frames, number, next);
                true
            }
            None => false,
        },
        None => false,
    }
}
