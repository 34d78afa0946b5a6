//! The path of values: instructions one after the other that neither change the store nor throw, on words of every kind, in frames that
//! are held by value. It is tried first, and has the rows of that of numbers too, so that a loop stays on it. What is none of it, or finds
//! no operands for it or no memory, is left to the machine with nothing changed.
ghost use Rattle.std.specs.Prelude.{◌≡◌, ◌≤◌, ◌<◌, ◌+◌, ◌^◌, ◌∷◌, Some, List, ℕ, suc, slice_get};
ghost use Rattle.object_heap.specs.Store.{Store};
ghost use Rattle.object_values.specs.declared.value.Value.TheVariants as v;
ghost use Rattle.run_state.specs.World.{Limits, World};
ghost use Rattle.pl_code.specs.declared.code.FunCode.{FunCode};
ghost use Rattle.pl_code.specs.declared.kinds.Plain.TheVariants as plains;
ghost use Rattle.code_meaning.specs.declared.word.Word.TheVariants.{R};
ghost use Rattle.code_meaning.specs.Machine.{Codes, act, function_of, numbered_act, plain_act, step, to_line};
ghost use Rattle.machine_paths.specs.Fast.{Does, Keeps, KeepsRoom, KeepsTurns, Leads, StaysIn, Takes, in_world, placed};
ghost use Rattle.machine_parts.specs.Links.{link_at, text_in};
ghost use Rattle.machine_paths.specs.Steps.{TurnsFit};
ghost use Rattle.machine_parts.specs.Code.{codes_in};

use crate::fast_calls::{Taken, call, moves, stays};
use crate::fast_path::{FastRun, jump, repeat};
use crate::number_rows::cast_top;
use crate::value_rows::{
    box_top, calculate, duplicate_word, give_word, load_word, operate_top, store_word, take_word,
    unbox_top,
};
use code_meaning::Word;
use machine_parts::{Executable, Frames, Link};
use object_values::Value;
use pl_code::{FunCode, Instruction, Numbered, Plain, Quoting};

/// Whether the path of values is worth its beginning: whether the instruction at which the newest frame stands is one of it. Either answer
/// is right.
#[inline(always)]
pub fn begins_values(frames: &Frames, function: &FunCode) -> bool {
    match function.lines.get(frames.line()) {
        Some(Instruction::Int(_)) => true,
        Some(Instruction::Long(_)) => true,
        Some(Instruction::Arithmetic(_, _)) => true,
        Some(Instruction::Numbered(kind, _)) => match kind {
            Numbered::List => false,
            Numbered::Map => false,
            Numbered::IfNull => false,
            _ => true,
        },
        Some(Instruction::Plain(kind)) => match kind {
            Plain::Null => true,
            Plain::Dup => true,
            Plain::Pop => true,
            _ => false,
        },
        Some(Instruction::Boxing(_)) => true,
        Some(Instruction::Unboxing(_, _)) => true,
        Some(Instruction::Dynamic(_)) => true,
        Some(Instruction::Quoted(kind, _)) => match kind {
            Quoting::Constant => true,
            _ => false,
        },
        _ => false,
    }
}

/// Takes so many instructions, or fewer: those of the path of values, up to the first that is none of it.
#[inline(never)]
pub fn run_values(
    frames: Frames,
    executable: &Executable,
    function: &FunCode,
    loops: u64,
    depth: u32,
    ticks: u64,
    count: u64,
) -> FastRun
    requires found { function_of (codes_in executable.now) frames.top ≡ Some function.now }
    requires counts { TurnsFit ticks (frames.top ∷ frames.below) }
    ensures exact { (limits : Limits) (store : Store) (reached : List ℕ) → limits.loop ≡ loops → limits.depth ≡ depth → Leads (codes_in executable.now) limits result.steps (placed frames store ticks reached) (placed result.frames store result.ticks reached) }
    ensures keeps { KeepsRoom frames result.frames }
    ensures steps { result.steps ≤ count }
{
    let mut frames = frames;
    let mut ticks = ticks;
    let mut function = function;
    'instructions: for taken in 0..count {
        match value_step(&mut frames, &mut ticks, executable, function, loops, depth) {
            Taken::Here => {}
            Taken::Elsewhere => match executable.function_at(&frames, frames.fun()) {
                Some(found) => function = found,
                None => {
                    return FastRun {
                        frames,
                        ticks,
                        steps: taken + 1,
                    };
                }
            },
            Taken::Not => {
                return FastRun {
                    frames,
                    ticks,
                    steps: taken,
                };
            }
        }
    }
    FastRun {
        frames,
        ticks,
        steps: count,
    }
}

// Does the instruction at the line of the newest frame, if it is one of the path. Else nothing is changed.
#[inline(always)]
fn value_step(
    frames: &mut Frames,
    ticks: &mut u64,
    executable: &Executable,
    function: &FunCode,
    loops: u64,
    depth: u32,
) -> Taken
    requires found { function_of (codes_in executable.now) frames.old.top ≡ Some function.now }
    requires turns { frames.old.top.turns + ticks.old < 2 ^ 64 }
    ensures exact { (limits : Limits) (store : Store) (reached : List ℕ) → limits.loop ≡ loops → limits.depth ≡ depth → Takes (step (codes_in executable.now) limits (placed frames.old store ticks.old reached)) (placed frames.old store ticks.old reached) (placed frames.new store ticks.new reached) result }
    ensures same { StaysIn frames.old.top frames.new.top result }
    ensures room { KeepsRoom frames.old frames.new }
{
    let line = frames.line();
    if line >= function.lines.len() {
        return Taken::Not;
    }
    match function.lines.get(line) {
        Some(instruction) => take_value(
            frames,
            ticks,
            executable,
            function,
            instruction,
            line + 1,
            loops,
            depth,
        ),
        None => Taken::Not,
    }
}

// The same of an instruction.
#[inline(always)]
fn take_value(
    frames: &mut Frames,
    ticks: &mut u64,
    executable: &Executable,
    function: &FunCode,
    instruction: &Instruction,
    next: usize,
    loops: u64,
    depth: u32,
) -> Taken
    requires found { function_of (codes_in executable.now) frames.old.top ≡ Some function.now }
    requires there { Some instruction.now ≡ slice_get function.now.lines frames.old.top.line }
    requires turns { frames.old.top.turns + ticks.old < 2 ^ 64 }
    requires next { next ≡ suc frames.old.top.line }
    ensures exact { (limits : Limits) (store : Store) (reached : List ℕ) → limits.loop ≡ loops → limits.depth ≡ depth → Takes (act (codes_in executable.now) limits instruction.now frames.old.top frames.old.below (record { store = store; ticks = ticks.old; reached = reached })) (placed frames.old store ticks.old reached) (placed frames.new store ticks.new reached) result }
    ensures same { StaysIn frames.old.top frames.new.top result }
    ensures room { KeepsRoom frames.old frames.new }
{
    match instruction {
        Instruction::Numbered(kind, number) => match kind {
            Numbered::Call => {
                return moves(call(frames, ticks, executable, depth, *number));
            }
            _ => {}
        },
        Instruction::Plain(kind) => match kind {
            Plain::Ret => return moves(give_back_word(frames, function)),
            _ => {}
        },
        Instruction::Quoted(kind, _) => match kind {
            Quoting::Constant => return stays(put_constant(frames, executable, next)),
            _ => {}
        },
        _ => {}
    }
    stay_value(frames, ticks, function, instruction, next, loops)
}

// The same of an instruction that stays in its function.
#[inline(always)]
fn stay_value(
    frames: &mut Frames,
    ticks: &mut u64,
    function: &FunCode,
    instruction: &Instruction,
    next: usize,
    loops: u64,
) -> Taken
    requires turns { frames.old.top.turns + ticks.old < 2 ^ 64 }
    requires next { next ≡ suc frames.old.top.line }
    ensures exact { (codes : Codes) (limits : Limits) (store : Store) (reached : List ℕ) → function_of codes frames.old.top ≡ Some function.now → limits.loop ≡ loops → Takes (act codes limits instruction.now frames.old.top frames.old.below (record { store = store; ticks = ticks.old; reached = reached })) (placed frames.old store ticks.old reached) (placed frames.new store ticks.new reached) result }
    ensures same { StaysIn frames.old.top frames.new.top result }
    ensures room { KeepsRoom frames.old frames.new }
{
    stays(value(frames, ticks, instruction, next, function.loops, loops))
}

// Does an instruction that stays in its function, if it is one of the path: whether it was done. Else nothing is changed. It is inlined
// since it is called in one place; an `inline(always)` would be dropped, since it is large.
fn value(
    frames: &mut Frames,
    ticks: &mut u64,
    instruction: &Instruction,
    next: usize,
    limited: bool,
    loops: u64,
) -> bool
    requires turns { frames.old.top.turns + ticks.old < 2 ^ 64 }
    requires next { next ≡ suc frames.old.top.line }
    ensures exact { (codes : Codes) (limits : Limits) (store : Store) (reached : List ℕ) (function : FunCode) → function_of codes frames.old.top ≡ Some function → function.loops ≡ limited → limits.loop ≡ loops → Does (act codes limits instruction.now frames.old.top frames.old.below (record { store = store; ticks = ticks.old; reached = reached })) (placed frames.old store ticks.old reached) (placed frames.new store ticks.new reached) result }
    ensures keeps { Keeps frames.old frames.new }
    ensures turns { frames.new.top.turns + ticks.new ≡ frames.old.top.turns + ticks.old }
{
    match instruction {
        Instruction::Numbered(kind, number) => value_numbered(
            frames, ticks, *kind, *number, next, limited, loops,
        ),
        Instruction::Int(number) => frames.put(Word::I(*number), next),
        Instruction::Long(number) => frames.put(Word::J(*number), next),
        Instruction::Arithmetic(op, width) => calculate(frames, *op, *width, next),
        Instruction::Plain(kind) => value_plain(frames, *kind, next),
        Instruction::Boxing(primitive) => box_top(frames, *primitive, next),
        Instruction::Unboxing(primitive, _) => unbox_top(frames, *primitive, next),
        Instruction::Dynamic(op) => operate_top(frames, *op, next),
        _ => false,
    }
}

// An instruction with a number: locals, jumps and loops.
#[inline(always)]
fn value_numbered(
    frames: &mut Frames,
    ticks: &mut u64,
    kind: Numbered,
    number: u32,
    next: usize,
    limited: bool,
    loops: u64,
) -> bool
    requires turns { frames.old.top.turns + ticks.old < 2 ^ 64 }
    requires next { next ≡ suc frames.old.top.line }
    ensures exact { (codes : Codes) (limits : Limits) (store : Store) (reached : List ℕ) (function : FunCode) → function_of codes frames.old.top ≡ Some function → function.loops ≡ limited → limits.loop ≡ loops → Does (numbered_act codes limits kind number frames.old.top frames.old.below (record { store = store; ticks = ticks.old; reached = reached })) (placed frames.old store ticks.old reached) (placed frames.new store ticks.new reached) result }
    ensures keeps { Keeps frames.old frames.new }
    ensures turns { frames.new.top.turns + ticks.new ≡ frames.old.top.turns + ticks.old }
{
    match kind {
        Numbered::Load => load_word(frames, number, next),
        Numbered::Store => store_word(frames, number, next),
        Numbered::Goto => {
            frames.set_line(number as usize);
            true
        }
        Numbered::IfZero => jump(frames, number as usize, next),
        Numbered::IfNotZero => jump(frames, next, number as usize),
        Numbered::Loop => repeat(frames, ticks, number, next, limited, loops),
        _ => false,
    }
}

// An instruction without operands, which copies a word, takes it off or puts a null, or casts a number.
#[inline(always)]
fn value_plain(frames: &mut Frames, kind: Plain, next: usize) -> bool
    requires { next ≡ suc frames.old.top.line }
    ensures exact { (codes : Codes) (limits : Limits) (w : World) → Does (plain_act codes limits kind frames.old.top frames.old.below w) (in_world frames.old w) (in_world frames.new w) result }
    ensures keeps { KeepsTurns frames.old frames.new }
{
    match kind {
        Plain::Null => frames.put(Word::R(Value::Null), next),
        Plain::Dup => duplicate_word(frames, next),
        Plain::Pop => take_word(frames, next),
        _ => cast_top(frames, kind, next),
    }
}

// Returns the word on the stack to the frame below, where the function has a result: whether it was returned.
#[inline(always)]
fn give_back_word(frames: &mut Frames, function: &FunCode) -> bool
    ensures exact { (codes : Codes) (limits : Limits) (w : World) → function_of codes frames.old.top ≡ Some function.now → Does (plain_act codes limits plains.Ret frames.old.top frames.old.below w) (in_world frames.old w) (in_world frames.new w) result }
    ensures room { KeepsRoom frames.old frames.new }
{
    match function.result {
        None => false,
        Some(_) => give_word(frames),
    }
}

// The text of the instruction goes on the stack, and is shared.
#[inline(always)]
fn put_constant(frames: &mut Frames, executable: &Executable, next: usize) -> bool
    ensures exact { (w : World) (text : List ℕ) → text_in (link_at executable.now frames.old.top) ≡ Some text → Does (to_line frames.old.top frames.old.below w next (R (v.Str text) ∷ frames.old.top.stack)) (in_world frames.old w) (in_world frames.new w) result }
    ensures keeps { Keeps frames.old frames.new }
{
    match executable.link(frames) {
        Some(Link::Text(text)) => match text.share() {
            Ok(text) => frames.put(Word::R(Value::Str(text)), next),
            Err(_) => false,
        },
        _ => false,
    }
}
