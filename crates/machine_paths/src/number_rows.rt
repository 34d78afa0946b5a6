//! Rows on numbers that both paths have: casts of a number to another type. The number is written where the old one lies.
ghost use Rattle.std.specs.Prelude.{◌≡◌, ◌∷◌, pos, suc};
ghost use Rattle.std.specs.Int.{w8, w16, w32};
ghost use Rattle.arithmetic.specs.Arithmetic.{low_bits, wrapped};
ghost use Rattle.run_state.specs.World.{Limits, World};
ghost use Rattle.code_meaning.specs.declared.word.Word.TheVariants.{I, J};
ghost use Rattle.code_meaning.specs.Machine.{Codes, on_int, on_long, on_top, plain_act, to_line};
ghost use Rattle.machine_paths.specs.Fast.{Does, KeepsTurns, in_world};

use arithmetic::casts::{low_byte, low_char, low_int, low_short};
use code_meaning::Word;
use machine_parts::Frames;
use pl_code::Plain;

/// The number on the stack as one of another type.
#[inline(always)]
pub fn cast_top(frames: &mut Frames, kind: Plain, next: usize) -> bool
    requires { next ≡ suc frames.old.top.line }
    ensures exact { (codes : Codes) (limits : Limits) (w : World) → Does (plain_act codes limits kind frames.old.top frames.old.below w) (in_world frames.old w) (in_world frames.new w) result }
    ensures keeps { KeepsTurns frames.old frames.new }
{
    match kind {
        Plain::IntToLong => int_to_long(frames, next),
        Plain::LongToInt => long_to_int(frames, next),
        Plain::IntToByte => int_to_byte(frames, next),
        Plain::IntToShort => int_to_short(frames, next),
        Plain::IntToChar => int_to_char(frames, next),
        _ => false,
    }
}

#[inline(always)]
#[tactic(auto, using(crate::proofs::Quick::of_upper, crate::proofs::Boxing::has_upper))]
fn int_to_long(frames: &mut Frames, next: usize) -> bool
    ensures exact { (w : World) → Does (on_top frames.old.top.stack (λ word stack. on_int word (λ a. to_line frames.old.top frames.old.below w next (J a ∷ stack)))) (in_world frames.old w) (in_world frames.new w) result }
    ensures keeps { KeepsTurns frames.old frames.new }
{
    match frames.upper() {
        Some(Word::I(a)) => {
            let number = i64::from(*a);
            frames.write_upper(Word::J(number), next);
            true
        }
        _ => false,
    }
}

#[inline(always)]
#[tactic(auto, using(crate::proofs::Quick::of_upper, crate::proofs::Boxing::has_upper))]
fn long_to_int(frames: &mut Frames, next: usize) -> bool
    ensures exact { (w : World) → Does (on_top frames.old.top.stack (λ word stack. on_long word (λ a. to_line frames.old.top frames.old.below w next (I (wrapped w32 a) ∷ stack)))) (in_world frames.old w) (in_world frames.new w) result }
    ensures keeps { KeepsTurns frames.old frames.new }
{
    match frames.upper() {
        Some(Word::J(a)) => {
            let number = low_int(*a);
            frames.write_upper(Word::I(number), next);
            true
        }
        _ => false,
    }
}

#[inline(always)]
#[tactic(auto, using(crate::proofs::Quick::of_upper, crate::proofs::Boxing::has_upper))]
fn int_to_byte(frames: &mut Frames, next: usize) -> bool
    ensures exact { (w : World) → Does (on_top frames.old.top.stack (λ word stack. on_int word (λ a. to_line frames.old.top frames.old.below w next (I (wrapped w8 a) ∷ stack)))) (in_world frames.old w) (in_world frames.new w) result }
    ensures keeps { KeepsTurns frames.old frames.new }
{
    match frames.upper() {
        Some(Word::I(a)) => {
            let number = i32::from(low_byte(*a));
            frames.write_upper(Word::I(number), next);
            true
        }
        _ => false,
    }
}

#[inline(always)]
#[tactic(auto, using(crate::proofs::Quick::of_upper, crate::proofs::Boxing::has_upper))]
fn int_to_short(frames: &mut Frames, next: usize) -> bool
    ensures exact { (w : World) → Does (on_top frames.old.top.stack (λ word stack. on_int word (λ a. to_line frames.old.top frames.old.below w next (I (wrapped w16 a) ∷ stack)))) (in_world frames.old w) (in_world frames.new w) result }
    ensures keeps { KeepsTurns frames.old frames.new }
{
    match frames.upper() {
        Some(Word::I(a)) => {
            let number = i32::from(low_short(*a));
            frames.write_upper(Word::I(number), next);
            true
        }
        _ => false,
    }
}

#[inline(always)]
#[tactic(auto, using(crate::proofs::Quick::of_upper, crate::proofs::Boxing::has_upper))]
fn int_to_char(frames: &mut Frames, next: usize) -> bool
    ensures exact { (w : World) → Does (on_top frames.old.top.stack (λ word stack. on_int word (λ a. to_line frames.old.top frames.old.below w next (I (pos (low_bits 16 a)) ∷ stack)))) (in_world frames.old w) (in_world frames.new w) result }
    ensures keeps { KeepsTurns frames.old frames.new }
{
    match frames.upper() {
        Some(Word::I(a)) => {
            let number = i32::from(low_char(*a));
            frames.write_upper(Word::I(number), next);
            true
        }
        _ => false,
    }
}
