//! The fast path: instructions on numbers, calls and returns, one after the other, in frames that are held by value. So the line, the
//! number of words and the ticks lie in registers. What is not a row of it, or finds no number or no memory, is left to the machine with nothing changed.
ghost use Rattle.std.specs.Prelude.{◌≡◌, ◌≤◌, ◌<◌, ◌+◌, ◌^◌, ◌∷◌, Some, List, ℕ, suc, drop, length, slice_get, slice_set, MatchOption};
ghost use Rattle.object_heap.specs.Store.{Store};
ghost use Rattle.run_state.specs.World.{Limits, World, take_turn};
ghost use Rattle.pl_code.specs.declared.code.FunCode.{FunCode};
ghost use Rattle.code_meaning.specs.Words as words;
ghost use Rattle.code_meaning.specs.declared.word.Word.TheVariants.{I, J};
ghost use Rattle.code_meaning.specs.Machine.{Codes, Goes, act, numbered_act, function_of, on_calculation, on_int, on_local, on_stack, on_top, on_turn, plain_act, step, to_line, unless_zero, copied};
ghost use Rattle.pl_code.specs.declared.kinds.Plain.TheVariants as plains;
ghost use Rattle.machine_paths.specs.Fast.{Does, Keeps, KeepsRoom, KeepsTurns, Leads, StaysIn, Takes, in_world, placed};
ghost use Rattle.machine_paths.specs.Steps.{TurnsFit};
ghost use Rattle.machine_parts.specs.Code.{codes_in};
ghost use Rattle.machine_parts.specs.Frames.{at_line, with_stack};

use crate::fast_calls::{Taken, call, give_back, moves, stays};
use crate::number_rows::cast_top;
use crate::numbers::{is_shift, on_ints, on_longs, takes_one, word_of};
use arithmetic::Num;
use code_meaning::Word;
use machine_parts::{Executable, Frames};
use pl_code::{ArithmeticOp, FunCode, Instruction, Numbered, Plain, Width};

/// How far the fast path has come.
#[derive(Drop)]
pub struct FastRun {
    pub frames: Frames,
    /// Turns and calls that may still be paid.
    pub ticks: u64,
    /// How many instructions were taken.
    pub steps: u64,
}

/// Whether the fast path is worth its beginning: whether the instruction at which the newest frame stands is likely one of it. Either
/// answer is right.
#[inline(always)]
pub fn begins_fast(frames: &Frames, function: &FunCode) -> bool {
    match function.lines.get(frames.line()) {
        Some(Instruction::Int(_)) => true,
        Some(Instruction::Long(_)) => true,
        Some(Instruction::Arithmetic(_, _)) => true,
        Some(Instruction::Numbered(kind, number)) => begins_numbered(frames, *kind, *number),
        _ => false,
    }
}

// What is not on numbers ends the fast path at once.
#[inline(always)]
fn begins_numbered(frames: &Frames, kind: Numbered, number: u32) -> bool {
    match kind {
        Numbered::Load => is_number(frames.local(number as usize)),
        Numbered::Store => is_number(frames.upper()),
        Numbered::Goto => true,
        Numbered::IfZero => true,
        Numbered::IfNotZero => true,
        Numbered::Loop => true,
        Numbered::Call => true,
        _ => false,
    }
}

#[inline(always)]
fn is_number(word: Option<&Word>) -> bool {
    matches!(word, Some(Word::I(_)) | Some(Word::J(_)))
}

/// Takes so many instructions, or fewer: those of the fast path, up to the first that is none of it. It is not inlined, so that what is
/// around it takes no register from it.
#[inline(never)]
pub fn run_fast(
    frames: Frames,
    executable: &Executable,
    function: &FunCode,
    loops: u64,
    depth: u32,
    ticks: u64,
    count: u64,
) -> FastRun
    requires found { function_of (codes_in executable.now) frames.top ≡ Some function.now }
    requires counts { TurnsFit ticks (frames.top ∷ frames.below) }
    ensures exact { (limits : Limits) (store : Store) (reached : List ℕ) → limits.loop ≡ loops → limits.depth ≡ depth → Leads (codes_in executable.now) limits result.steps (placed frames store ticks reached) (placed result.frames store result.ticks reached) }
    ensures keeps { KeepsRoom frames result.frames }
    ensures steps { result.steps ≤ count }
{
    let mut frames = frames;
    let mut ticks = ticks;
    let mut function = function;
    'instructions: for taken in 0..count {
        match fast_step(&mut frames, &mut ticks, executable, function, loops, depth) {
            Taken::Here => {}
            Taken::Elsewhere => match executable.function_at(&frames, frames.fun()) {
                Some(found) => function = found,
                None => {
                    return FastRun {
                        frames,
                        ticks,
                        steps: taken + 1,
                    };
                }
            },
            Taken::Not => {
                return FastRun {
                    frames,
                    ticks,
                    steps: taken,
                };
            }
        }
    }
    FastRun {
        frames,
        ticks,
        steps: count,
    }
}

// Does the instruction at the line of the newest frame, if it is one of the fast path. Else nothing is changed.
#[inline(always)]
fn fast_step(
    frames: &mut Frames,
    ticks: &mut u64,
    executable: &Executable,
    function: &FunCode,
    loops: u64,
    depth: u32,
) -> Taken
    requires found { function_of (codes_in executable.now) frames.old.top ≡ Some function.now }
    requires turns { frames.old.top.turns + ticks.old < 2 ^ 64 }
    ensures exact { (limits : Limits) (store : Store) (reached : List ℕ) → limits.loop ≡ loops → limits.depth ≡ depth → Takes (step (codes_in executable.now) limits (placed frames.old store ticks.old reached)) (placed frames.old store ticks.old reached) (placed frames.new store ticks.new reached) result }
    ensures same { StaysIn frames.old.top frames.new.top result }
    ensures room { KeepsRoom frames.old frames.new }
{
    let line = frames.line();
    if line >= function.lines.len() {
        return Taken::Not;
    }
    match function.lines.get(line) {
        Some(instruction) => take(
            frames,
            ticks,
            executable,
            function,
            instruction,
            line + 1,
            loops,
            depth,
        ),
        None => Taken::Not,
    }
}

// The same of an instruction.
#[inline(always)]
fn take(
    frames: &mut Frames,
    ticks: &mut u64,
    executable: &Executable,
    function: &FunCode,
    instruction: &Instruction,
    next: usize,
    loops: u64,
    depth: u32,
) -> Taken
    requires found { function_of (codes_in executable.now) frames.old.top ≡ Some function.now }
    requires turns { frames.old.top.turns + ticks.old < 2 ^ 64 }
    requires next { next ≡ suc frames.old.top.line }
    ensures exact { (limits : Limits) (store : Store) (reached : List ℕ) → limits.loop ≡ loops → limits.depth ≡ depth → Takes (act (codes_in executable.now) limits instruction.now frames.old.top frames.old.below (record { store = store; ticks = ticks.old; reached = reached })) (placed frames.old store ticks.old reached) (placed frames.new store ticks.new reached) result }
    ensures same { StaysIn frames.old.top frames.new.top result }
    ensures room { KeepsRoom frames.old frames.new }
{
    match instruction {
        Instruction::Numbered(kind, number) => match kind {
            Numbered::Call => moves(call(frames, ticks, executable, depth, *number)),
            _ => stay(frames, ticks, function, instruction, next, loops),
        },
        Instruction::Plain(kind) => match kind {
            Plain::Ret => moves(give_back(frames, function)),
            _ => stay(frames, ticks, function, instruction, next, loops),
        },
        _ => stay(frames, ticks, function, instruction, next, loops),
    }
}

// The same of an instruction that stays in its function.
#[inline(always)]
fn stay(
    frames: &mut Frames,
    ticks: &mut u64,
    function: &FunCode,
    instruction: &Instruction,
    next: usize,
    loops: u64,
) -> Taken
    requires turns { frames.old.top.turns + ticks.old < 2 ^ 64 }
    requires next { next ≡ suc frames.old.top.line }
    ensures exact { (codes : Codes) (limits : Limits) (store : Store) (reached : List ℕ) → function_of codes frames.old.top ≡ Some function.now → limits.loop ≡ loops → Takes (act codes limits instruction.now frames.old.top frames.old.below (record { store = store; ticks = ticks.old; reached = reached })) (placed frames.old store ticks.old reached) (placed frames.new store ticks.new reached) result }
    ensures same { StaysIn frames.old.top frames.new.top result }
    ensures room { KeepsRoom frames.old frames.new }
{
    stays(fast(frames, ticks, instruction, next, function.loops, loops))
}

// Does an instruction that stays in its function, if it is one of the fast path: whether it was done. Else nothing is changed.
#[inline(always)]
fn fast(
    frames: &mut Frames,
    ticks: &mut u64,
    instruction: &Instruction,
    next: usize,
    limited: bool,
    loops: u64,
) -> bool
    requires turns { frames.old.top.turns + ticks.old < 2 ^ 64 }
    requires next { next ≡ suc frames.old.top.line }
    ensures exact { (codes : Codes) (limits : Limits) (store : Store) (reached : List ℕ) (function : FunCode) → function_of codes frames.old.top ≡ Some function → function.loops ≡ limited → limits.loop ≡ loops → Does (act codes limits instruction.now frames.old.top frames.old.below (record { store = store; ticks = ticks.old; reached = reached })) (placed frames.old store ticks.old reached) (placed frames.new store ticks.new reached) result }
    ensures keeps { Keeps frames.old frames.new }
    ensures turns { frames.new.top.turns + ticks.new ≡ frames.old.top.turns + ticks.old }
{
    match instruction {
        Instruction::Numbered(kind, number) => fast_numbered(
            frames, ticks, *kind, *number, next, limited, loops,
        ),
        Instruction::Int(number) => frames.put(Word::I(*number), next),
        Instruction::Long(number) => frames.put(Word::J(*number), next),
        Instruction::Arithmetic(op, width) => fast_arithmetic(frames, *op, *width, next),
        Instruction::Plain(kind) => fast_plain(frames, *kind, next),
        _ => false,
    }
}

// An instruction with a number: locals, jumps and loops.
#[inline(always)]
fn fast_numbered(
    frames: &mut Frames,
    ticks: &mut u64,
    kind: Numbered,
    number: u32,
    next: usize,
    limited: bool,
    loops: u64,
) -> bool
    requires turns { frames.old.top.turns + ticks.old < 2 ^ 64 }
    requires next { next ≡ suc frames.old.top.line }
    ensures exact { (codes : Codes) (limits : Limits) (store : Store) (reached : List ℕ) (function : FunCode) → function_of codes frames.old.top ≡ Some function → function.loops ≡ limited → limits.loop ≡ loops → Does (numbered_act codes limits kind number frames.old.top frames.old.below (record { store = store; ticks = ticks.old; reached = reached })) (placed frames.old store ticks.old reached) (placed frames.new store ticks.new reached) result }
    ensures keeps { Keeps frames.old frames.new }
    ensures turns { frames.new.top.turns + ticks.new ≡ frames.old.top.turns + ticks.old }
{
    match kind {
        Numbered::Load => load(frames, number, next),
        Numbered::Store => store(frames, number, next),
        Numbered::Goto => {
            frames.set_line(number as usize);
            true
        }
        Numbered::IfZero => jump(frames, number as usize, next),
        Numbered::IfNotZero => jump(frames, next, number as usize),
        Numbered::Loop => repeat(frames, ticks, number, next, limited, loops),
        _ => false,
    }
}

// The number in a local goes on the stack.
#[inline(always)]
fn load(frames: &mut Frames, number: u32, next: usize) -> bool
    ensures exact { (w : World) → Does (on_local (slice_get frames.old.top.locals number) (λ word. to_line frames.old.top frames.old.below w next (word ∷ frames.old.top.stack))) (in_world frames.old w) (in_world frames.new w) result }
    ensures keeps { KeepsTurns frames.old frames.new }
{
    match frames.local(number as usize) {
        Some(Word::I(a)) => {
            let held = *a;
            frames.put(Word::I(held), next)
        }
        Some(Word::J(a)) => {
            let held = *a;
            frames.put(Word::J(held), next)
        }
        _ => false,
    }
}

// The number on the stack goes to a local.
#[inline(always)]
#[tactic(auto, using(crate::proofs::Quick::of_upper))]
fn store(frames: &mut Frames, number: u32, next: usize) -> bool
    ensures exact { (w : World) → Does (on_top frames.old.top.stack (λ word stack. Goes (record { top = record { text = frames.old.top.text; fun = frames.old.top.fun; line = next; locals = slice_set frames.old.top.locals number word; stack = stack; turns = frames.old.top.turns; due = frames.old.top.due }; below = frames.old.below; world = w }))) (in_world frames.old w) (in_world frames.new w) result }
    ensures keeps { KeepsTurns frames.old frames.new }
{
    match frames.upper() {
        Some(Word::I(a)) => {
            let held = *a;
            frames.drop_number(next);
            frames.store(number as usize, Word::I(held));
            true
        }
        Some(Word::J(a)) => {
            let held = *a;
            frames.drop_number(next);
            frames.store(number as usize, Word::J(held));
            true
        }
        _ => false,
    }
}

// To the one line where the int on the stack is 0, and else to the other.
#[inline(always)]
pub fn jump(frames: &mut Frames, zero: usize, other: usize) -> bool
    ensures exact { (w : World) → Does (on_top frames.old.top.stack (λ word stack. on_int word (λ a. unless_zero a (to_line frames.old.top frames.old.below w other stack) (to_line frames.old.top frames.old.below w zero stack)))) (in_world frames.old w) (in_world frames.new w) result }
    ensures keeps { KeepsTurns frames.old frames.new }
{
    match frames.upper() {
        Some(Word::I(0)) => {
            frames.drop_number(zero);
            true
        }
        Some(Word::I(_)) => {
            frames.drop_number(other);
            true
        }
        _ => false,
    }
}

// A turn of a loop where the int on the stack is not 0, if no limit bars it.
#[inline(always)]
#[tactic(auto, using(crate::proofs::Quick::of_upper), unfolding(run_state::specs::World::take_turn, run_state::specs::World::pay_tick))]
pub fn repeat(
    frames: &mut Frames,
    ticks: &mut u64,
    line: u32,
    next: usize,
    limited: bool,
    loops: u64,
) -> bool
    requires { frames.old.top.turns + ticks.old < 2 ^ 64 }
    ensures exact { (codes : Codes) (limits : Limits) (store : Store) (reached : List ℕ) → limits.loop ≡ loops → Does (on_top frames.old.top.stack (λ word stack. on_int word (λ a. unless_zero a (on_turn codes limits (take_turn limits limited frames.old.top.turns (record { store = store; ticks = ticks.old; reached = reached })) line frames.old.top frames.old.below (record { store = store; ticks = ticks.old; reached = reached }) stack) (to_line frames.old.top frames.old.below (record { store = store; ticks = ticks.old; reached = reached }) next stack)))) (placed frames.old store ticks.old reached) (placed frames.new store ticks.new reached) result }
    ensures keeps { Keeps frames.old frames.new }
    ensures turns { frames.new.top.turns + ticks.new ≡ frames.old.top.turns + ticks.old }
{
    match frames.upper() {
        Some(Word::I(0)) => {
            frames.drop_number(next);
            true
        }
        Some(Word::I(_)) => {
            let turns = frames.turns();
            if limited && turns >= loops {
                return false;
            }
            if *ticks == 0 {
                return false;
            }
            *ticks -= 1;
            frames.drop_number(line as usize);
            frames.set_turns(turns + 1);
            true
        }
        _ => false,
    }
}

// An operator on two numbers of a width.
#[inline(always)]
fn fast_arithmetic(frames: &mut Frames, op: ArithmeticOp, width: Width, next: usize) -> bool
    requires { next ≡ suc frames.old.top.line }
    ensures exact { (codes : Codes) (limits : Limits) (w : World) → Does (on_calculation codes limits (words.calculation op width frames.old.top.stack) frames.old.top frames.old.below w) (in_world frames.old w) (in_world frames.new w) result }
    ensures keeps { KeepsTurns frames.old frames.new }
{
    match width {
        Width::Int => ints(frames, op, next),
        Width::Long => longs(frames, op, next),
    }
}

#[inline(always)]
pub fn ints(frames: &mut Frames, op: ArithmeticOp, next: usize) -> bool
    requires { next ≡ suc frames.old.top.line }
    ensures exact { (codes : Codes) (limits : Limits) (w : World) → Does (on_calculation codes limits (words.ints_of op frames.old.top.stack) frames.old.top frames.old.below w) (in_world frames.old w) (in_world frames.new w) result }
    ensures keeps { KeepsTurns frames.old frames.new }
{
    if takes_one(op) {
        false
    } else {
        two_ints(frames, op, next)
    }
}

#[inline(always)]
fn longs(frames: &mut Frames, op: ArithmeticOp, next: usize) -> bool
    requires { next ≡ suc frames.old.top.line }
    ensures exact { (codes : Codes) (limits : Limits) (w : World) → Does (on_calculation codes limits (words.longs_of op frames.old.top.stack) frames.old.top frames.old.below w) (in_world frames.old w) (in_world frames.new w) result }
    ensures keeps { KeepsTurns frames.old frames.new }
{
    if takes_one(op) {
        false
    } else if is_shift(op) {
        false
    } else {
        two_longs(frames, op, next)
    }
}

#[inline(always)]
#[tactic(auto, using(crate::proofs::Quick::of_two_ints))]
fn two_ints(frames: &mut Frames, op: ArithmeticOp, next: usize) -> bool
    requires { next ≡ suc frames.old.top.line }
    ensures exact { (codes : Codes) (limits : Limits) (w : World) → Does (on_calculation codes limits (words.two_ints (words.op_of op) frames.old.top.stack) frames.old.top frames.old.below w) (in_world frames.old w) (in_world frames.new w) result }
    ensures keeps { KeepsTurns frames.old frames.new }
{
    match ints_on(frames) {
        Some((a, b)) => match on_ints(op, a, b) {
            Some(number) => {
                put_for_two(frames, number, next);
                true
            }
            None => false,
        },
        None => false,
    }
}

#[inline(always)]
#[tactic(auto, using(crate::proofs::Quick::of_two_longs))]
fn two_longs(frames: &mut Frames, op: ArithmeticOp, next: usize) -> bool
    requires { next ≡ suc frames.old.top.line }
    ensures exact { (codes : Codes) (limits : Limits) (w : World) → Does (on_calculation codes limits (words.two_longs (words.op_of op) frames.old.top.stack) frames.old.top frames.old.below w) (in_world frames.old w) (in_world frames.new w) result }
    ensures keeps { KeepsTurns frames.old frames.new }
{
    match longs_on(frames) {
        Some((a, b)) => match on_longs(op, a, b) {
            Some(number) => {
                put_for_two(frames, number, next);
                true
            }
            None => false,
        },
        None => false,
    }
}

// The two upper operands, the lower one first, where both are ints.
#[inline(always)]
#[tactic(auto, using(crate::proofs::Quick::upper_two))]
fn ints_on(frames: &Frames) -> Option<(i32, i32)>
    ensures { MatchOption result (Unit {0}) (λ p. frames.now.top.stack ≡ I p.1 ∷ I p.0 ∷ drop 2 frames.now.top.stack) }
{
    match frames.upper() {
        Some(Word::I(b)) => match frames.lower() {
            Some(Word::I(a)) => Some((*a, *b)),
            _ => None,
        },
        _ => None,
    }
}

#[inline(always)]
#[tactic(auto, using(crate::proofs::Quick::upper_two))]
pub fn longs_on(frames: &Frames) -> Option<(i64, i64)>
    ensures { MatchOption result (Unit {0}) (λ p. frames.now.top.stack ≡ J p.1 ∷ J p.0 ∷ drop 2 frames.now.top.stack) }
{
    match frames.upper() {
        Some(Word::J(b)) => match frames.lower() {
            Some(Word::J(a)) => Some((*a, *b)),
            _ => None,
        },
        _ => None,
    }
}

// Puts a number in the place of two.
#[inline(always)]
#[tactic(auto, using(crate::proofs::Quick::one_is_left, crate::proofs::Quick::both_left))]
pub fn put_for_two(frames: &mut Frames, number: Num, next: usize)
    requires { 2 ≤ length frames.old.top.stack }
    ensures top { frames.new.top ≡ at_line (with_stack frames.old.top (words.word_of number ∷ drop 2 frames.old.top.stack)) next }
    ensures below { frames.new.below ≡ frames.old.below }
    ensures words { frames.new.words ≡ frames.old.words }
    ensures depth { frames.new.depth ≡ frames.old.depth }
{
    frames.drop_number(next);
    frames.write_upper(word_of(number), next);
}

// An instruction without operands, which copies a number, takes it off or casts it.
#[inline(always)]
fn fast_plain(frames: &mut Frames, kind: Plain, next: usize) -> bool
    requires { next ≡ suc frames.old.top.line }
    ensures exact { (codes : Codes) (limits : Limits) (w : World) → Does (plain_act codes limits kind frames.old.top frames.old.below w) (in_world frames.old w) (in_world frames.new w) result }
    ensures keeps { KeepsTurns frames.old frames.new }
{
    match kind {
        Plain::Dup => duplicate(frames, next),
        Plain::Pop => take_off(frames, next),
        _ => cast_top(frames, kind, next),
    }
}

// The number on the stack once more.
#[inline(always)]
#[tactic(auto, using(crate::proofs::Quick::upper_twice))]
fn duplicate(frames: &mut Frames, next: usize) -> bool
    ensures exact { (w : World) → Does (on_stack (copied plains.Dup frames.old.top.stack) (λ stack. to_line frames.old.top frames.old.below w next stack)) (in_world frames.old w) (in_world frames.new w) result }
    ensures keeps { KeepsTurns frames.old frames.new }
{
    match frames.upper() {
        Some(Word::I(a)) => {
            let held = *a;
            frames.put(Word::I(held), next)
        }
        Some(Word::J(a)) => {
            let held = *a;
            frames.put(Word::J(held), next)
        }
        _ => false,
    }
}

// The number on the stack is taken off.
#[inline(always)]
#[tactic(auto, using(crate::proofs::Quick::of_popped))]
fn take_off(frames: &mut Frames, next: usize) -> bool
    ensures exact { (w : World) → Does (on_stack (copied plains.Pop frames.old.top.stack) (λ stack. to_line frames.old.top frames.old.below w next stack)) (in_world frames.old w) (in_world frames.new w) result }
    ensures keeps { KeepsTurns frames.old frames.new }
{
    match frames.upper() {
        Some(Word::R(_)) => false,
        Some(_) => {
            frames.drop_number(next);
            true
        }
        None => false,
    }
}
