//! Operators on values whose types are found when the code runs.
ghost use Rattle.std.specs.Prelude.{◌≡◌, ◌≤◌, ◌<◌, ◌^◌, List, suc, if◌then◌else◌};
ghost use Rattle.number_ops.specs.Operators as operators;
ghost use Rattle.code_meaning.specs.Words.{op_of_dynamic};
ghost use Rattle.code_meaning.specs.declared.word.Word.{Word};
ghost use Rattle.code_meaning.specs.Machine.{on_operated, on_reference, on_top, operator_act};
ghost use Rattle.machine.specs.Memory.{HasMemory};
ghost use Rattle.machine.specs.Seen.{Comes, room_of, with_stack, world_of, codes_in, limits_in};
ghost use Rattle.machine.specs.Sparing.{OnReference, OnValue, OperatorSpares, OperationSpares, Whichever};

use crate::configuration::{Configuration, Limits, Step};
use crate::throwing::{answered, answered_whole};
use code_meaning::Word;
use machine_parts::Executable;
use number_ops::{Op, def_op};
use object_values::Value;
use pl_code::DynamicOp;

/// An operator on the values on the stack, whatever they are.
pub fn dynamic(
    run: &mut Configuration,
    executable: &Executable,
    limits: &Limits,
    op: DynamicOp,
) -> Step
    ensures exact { Comes (operator_act (codes_in executable.now) (limits_in executable.now limits.now) (op_of_dynamic op) run.old.frames.top run.old.frames.below (world_of run.old.world)) result run.new }
    ensures memory { OperatorSpares (op_of_dynamic op) run.old.frames.top.stack run.old.world.heap.objects → run.old.frames.count ≤ run.old.frames.words → suc run.old.frames.top.line < 2 ^ 64 → HasMemory result }
    ensures room { room_of run.new ≡ room_of run.old }
{
    let op = op_of_dynamic(op);
    match run.frames.pop() {
        Some(upper) => operate_word(run, executable, limits, op, &upper),
        None => Step::Stuck,
    }
}

/// The operator of an instruction on values of any types.
fn op_of_dynamic(op: DynamicOp) -> Op
    ensures { result ≡ op_of_dynamic op }
{
    match op {
        DynamicOp::Add => Op::Add,
        DynamicOp::Sub => Op::Sub,
        DynamicOp::Mul => Op::Mul,
        DynamicOp::Div => Op::Div,
        DynamicOp::Rem => Op::Rem,
        DynamicOp::And => Op::And,
        DynamicOp::Or => Op::Or,
        DynamicOp::Xor => Op::Xor,
        DynamicOp::Neg => Op::Neg,
        DynamicOp::Not => Op::Not,
        DynamicOp::Pos => Op::Pos,
        DynamicOp::Shl => Op::Shl,
        DynamicOp::Shr => Op::Shr,
        DynamicOp::Ushr => Op::Ushr,
        DynamicOp::Lt => Op::Lt,
        DynamicOp::Le => Op::Le,
        DynamicOp::Gt => Op::Gt,
        DynamicOp::Ge => Op::Ge,
    }
}

fn is_unary(op: Op) -> bool
    ensures { result ≡ operators.is_unary op }
{
    matches!(op, Op::Neg | Op::Not | Op::Pos)
}

fn compares(op: Op) -> bool
    ensures { result ≡ operators.compares op }
{
    matches!(op, Op::Lt | Op::Le | Op::Gt | Op::Ge | Op::Eq | Op::Ne)
}

// With the upper word, which was taken off the stack.
fn operate_word(
    run: &mut Configuration,
    executable: &Executable,
    limits: &Limits,
    op: Op,
    upper: &Word,
) -> Step
    ensures exact { (stack : List Word) → Comes (on_reference upper.now (λ b. if operators.is_unary op then on_operated (codes_in executable.now) (limits_in executable.now limits.now) op b b (with_stack run.old.frames.top stack) run.old.frames.below (world_of run.old.world) run.old.frames.top.stack else on_top run.old.frames.top.stack (λ lower rest. on_reference lower (λ a. on_operated (codes_in executable.now) (limits_in executable.now limits.now) op a b (with_stack run.old.frames.top stack) run.old.frames.below (world_of run.old.world) rest)))) result run.new }
    ensures memory { OnReference upper.now (λ b. Whichever (operators.is_unary op) (OperationSpares op run.old.world.heap.objects b b) (OnValue run.old.frames.top.stack (λ a. OperationSpares op run.old.world.heap.objects a b))) → run.old.frames.count < run.old.frames.words → suc run.old.frames.top.line < 2 ^ 64 → HasMemory result }
    ensures room { room_of run.new ≡ room_of run.old }
{
    match upper {
        Word::R(b) => operate_value(run, executable, limits, op, b),
        _ => Step::Stuck,
    }
}

fn operate_value(
    run: &mut Configuration,
    executable: &Executable,
    limits: &Limits,
    op: Op,
    b: &Value,
) -> Step
    ensures exact { (stack : List Word) → Comes (if operators.is_unary op then on_operated (codes_in executable.now) (limits_in executable.now limits.now) op b.now b.now (with_stack run.old.frames.top stack) run.old.frames.below (world_of run.old.world) run.old.frames.top.stack else on_top run.old.frames.top.stack (λ lower rest. on_reference lower (λ a. on_operated (codes_in executable.now) (limits_in executable.now limits.now) op a b.now (with_stack run.old.frames.top stack) run.old.frames.below (world_of run.old.world) rest))) result run.new }
    ensures memory { Whichever (operators.is_unary op) (OperationSpares op run.old.world.heap.objects b.now b.now) (OnValue run.old.frames.top.stack (λ a. OperationSpares op run.old.world.heap.objects a b.now)) → run.old.frames.count < run.old.frames.words → suc run.old.frames.top.line < 2 ^ 64 → HasMemory result }
    ensures room { room_of run.new ≡ room_of run.old }
{
    if is_unary(op) {
        operate(run, executable, limits, op, b, b)
    } else {
        operate_two(run, executable, limits, op, b)
    }
}

// With the lower word, which is still on the stack.
fn operate_two(
    run: &mut Configuration,
    executable: &Executable,
    limits: &Limits,
    op: Op,
    b: &Value,
) -> Step
    ensures exact { (stack : List Word) → Comes (on_top run.old.frames.top.stack (λ lower rest. on_reference lower (λ a. on_operated (codes_in executable.now) (limits_in executable.now limits.now) op a b.now (with_stack run.old.frames.top stack) run.old.frames.below (world_of run.old.world) rest))) result run.new }
    ensures memory { OnValue run.old.frames.top.stack (λ a. OperationSpares op run.old.world.heap.objects a b.now) → run.old.frames.count < run.old.frames.words → suc run.old.frames.top.line < 2 ^ 64 → HasMemory result }
    ensures room { room_of run.new ≡ room_of run.old }
{
    match run.frames.pop() {
        Some(lower) => operate_both(run, executable, limits, op, &lower, b),
        None => Step::Stuck,
    }
}

fn operate_both(
    run: &mut Configuration,
    executable: &Executable,
    limits: &Limits,
    op: Op,
    lower: &Word,
    b: &Value,
) -> Step
    ensures exact { (stack : List Word) → Comes (on_reference lower.now (λ a. on_operated (codes_in executable.now) (limits_in executable.now limits.now) op a b.now (with_stack run.old.frames.top stack) run.old.frames.below (world_of run.old.world) run.old.frames.top.stack)) result run.new }
    ensures memory { OnReference lower.now (λ a. OperationSpares op run.old.world.heap.objects a b.now) → run.old.frames.count < run.old.frames.words → suc run.old.frames.top.line < 2 ^ 64 → HasMemory result }
    ensures room { room_of run.new ≡ room_of run.old }
{
    match lower {
        Word::R(a) => operate(run, executable, limits, op, a, b),
        _ => Step::Stuck,
    }
}

#[tactic(auto, using(crate::proofs::Spared::is_answered))]
fn operate(
    run: &mut Configuration,
    executable: &Executable,
    limits: &Limits,
    op: Op,
    a: &Value,
    b: &Value,
) -> Step
    ensures exact { (stack : List Word) → Comes (on_operated (codes_in executable.now) (limits_in executable.now limits.now) op a.now b.now (with_stack run.old.frames.top stack) run.old.frames.below (world_of run.old.world) run.old.frames.top.stack) result run.new }
    ensures memory { OperationSpares op run.old.world.heap.objects a.now b.now → run.old.frames.count < run.old.frames.words → suc run.old.frames.top.line < 2 ^ 64 → HasMemory result }
    ensures room { room_of run.new ≡ room_of run.old }
{
    let answer = def_op(&mut run.world.heap, op, a, b);
    if compares(op) {
        answered(run, executable, limits, answer)
    } else {
        answered_whole(run, executable, limits, answer)
    }
}
