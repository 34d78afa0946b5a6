//! One line of a function.

ghost use Rattle.std.specs.Prelude.{◌≡◌, ◌+◌, ◌<◌, ◌&&◌, not, nat_lt, length, IfOk, IfSome, Some, None};
ghost use Rattle.pl_code.specs.declared.code.Instruction.TheVariants as code;
ghost use Rattle.pl_code.specs.declared.kinds.Numbered.TheVariants as numbered;
ghost use Rattle.verifier.specs.Acts.{Does, at_line, PassesOn};
ghost use Rattle.verifier.specs.Meets.{left_at};
ghost use Rattle.verifier.specs.Signed.{AreOf};
ghost use Rattle.verifier.specs.Faults.{falls, instruction_fault};

use crate::act::act;
use crate::call::call;
use crate::fault::FaultKind;
use crate::signatures::Signatures;
use crate::successors::merge_into_successors;
use allowlist::Allow;
use instruction_types::{Flow, action_of, flow_of, is_bad_jump, is_bad_member, is_bad_target};
use pl_code::{FunCode, Instruction, Numbered};
use std::alloc::AllocError;
use verifier_table::ShapeTable;

/// Whether an instruction may go on at the next line.
fn falls(flow: Flow) -> bool
    ensures { result ≡ falls flow }
{
    match flow {
        Flow::GoesOn => true,
        Flow::Jumps(_) => false,
        Flow::Branches(_) => true,
        Flow::Turns(_) => true,
        Flow::Ends => false,
    }
}

/// The number of the function that an instruction calls, if it is a call.
fn called(instruction: &Instruction) -> Option<u32>
    ensures { IfSome result (λ number. instruction.now ≡ code.Numbered numbered.Call number) }
{
    match instruction {
        Instruction::Numbered(Numbered::Call, number) => Some(*number),
        _ => None,
    }
}

/// Puts on the stack what an instruction leaves of what stands at its line. `false` where it leaves nothing.
#[tactic(auto, unfolding(crate::specs::Meets::left_at))]
fn leave(
    table: &mut ShapeTable,
    allow: &Allow,
    functions: &[FunCode],
    signatures: &Signatures,
    function: &FunCode,
    line: usize,
    instruction: &Instruction,
) -> Result<bool, AllocError>
    requires { AreOf functions.now signatures.now }
    ensures { IfOk result (λ fits. Does table.old table.new fits (left_at allow.now functions.now function.now instruction.now (at_line table.old line))) }
{
    if !table.stand(line) {
        return Ok(false);
    }
    if let Some(number) = called(instruction) {
        return call(table, functions, signatures, number as usize);
    }
    match action_of(allow, functions, function, instruction) {
        None => Ok(false),
        Some(action) => act(table, action),
    }
}

/// The fault of an instruction at a line. Where there is none, the line leads to where its instruction goes on.
#[tactic(auto, unfolding(crate::specs::Faults::instruction_fault))]
pub(crate) fn instruction_fault(
    table: &mut ShapeTable,
    allow: &Allow,
    functions: &[FunCode],
    signatures: &Signatures,
    function: &FunCode,
    line: usize,
    instruction: &Instruction,
) -> Result<Option<FaultKind>, AllocError>
    requires within { line < length function.now.lines }
    requires signatures { AreOf functions.now signatures.now }
    ensures { IfOk result (λ found. (found ≡ instruction_fault allow.now functions.now function.now line instruction.now (at_line table.old line))
        × (found ≡ None → PassesOn allow.now functions.now function.now line (Some instruction.now) table.old table.new)) }
{
    let values = signatures.values.as_slice();
    if is_bad_target(allow, functions, values, function, instruction) {
        return Ok(Some(FaultKind::BadTarget));
    }
    if is_bad_member(allow, instruction) {
        return Ok(Some(FaultKind::BadMember));
    }
    if is_bad_jump(line, instruction) {
        return Ok(Some(FaultKind::BackJump));
    }
    if !leave(
        table,
        allow,
        functions,
        signatures,
        function,
        line,
        instruction,
    )? {
        return Ok(Some(FaultKind::BadShape));
    }
    let count = function.lines.len();
    let flow = flow_of(instruction);
    if is_last(line, count, flow) {
        return Ok(Some(FaultKind::BadShape));
    }
    merge_into_successors(table, flow, line);
    Ok(None)
}

/// Whether an instruction goes on, and has no next line.
fn is_last(line: usize, count: usize, flow: Flow) -> bool
    requires { line < count }
    ensures { result ≡ (falls flow && not (nat_lt (line + 1) count)) }
{
    falls(flow) && line + 1 >= count
}
