//! The functions of code.

ghost use Rattle.std.specs.Prelude.{◌≡◌, ◌+◌, ◌<◌, ◌≤◌, ℕ, length, option_map, IfOk, None};
ghost use Rattle.pl_code.specs.Reading.{told};
ghost use Rattle.verifier.specs.Faults.{trap_fault, traps_fault, function_fault, code_fault, behind, told_fault, line_count};
ghost use Rattle.verifier.specs.Signed.{AreOf};
ghost use Rattle.verifier.specs.Words.{LineWords, FunctionWords, LeastLines, LeastFunctions};

use crate::fault::FaultKind;
use crate::pass::lines_fault;
use crate::signatures::{Signatures, signatures_of};
use allowlist::Allow;
use instruction_types::{is_bad_trap_class, is_bad_trap_order, is_bad_trap_target};
use pl_code::{FunCode, Trap};
use std::alloc::{AllocError, Global};

/// What breaks at a trap of a function with so many instructions.
#[tactic(auto, unfolding(crate::specs::Faults::trap_fault))]
fn trap_fault(count: usize, trap: &Trap) -> Option<FaultKind>
    ensures { result ≡ trap_fault count trap.now }
{
    if is_bad_trap_target(count, trap) {
        return Some(FaultKind::BadTarget);
    }
    if is_bad_trap_class(trap) {
        return Some(FaultKind::BadMember);
    }
    if is_bad_trap_order(trap) {
        return Some(FaultKind::BackJump);
    }
    None
}

/// The first trap that breaks, counted from 0.
fn traps_fault(count: usize, traps: &[Trap]) -> Option<(usize, FaultKind)>
    ensures { result ≡ traps_fault count 0 traps.now }
{
    for at in 0..traps.len() {
        match trap_fault(count, &traps[at]) {
            None => {}
            Some(kind) => return Some((at, kind)),
        }
    }
    None
}

/// A line so many lines behind another. Numbers past 32 bits stand still.
fn behind(line: u32, more: usize) -> u32
    ensures { (n : ℕ) → line ≡ told n → result ≡ told (n + more) }
{
    if more >= u32::MAX as usize {
        u32::MAX
    } else {
        line.saturating_add(more as u32)
    }
}

/// The first fault of a function whose line `fun` is this one. Where there is none, a frame of the function has so many words at
/// most.
fn function_fault(
    alloc: Global,
    allow: &Allow,
    functions: &[FunCode],
    signatures: &Signatures,
    function: &FunCode,
    first: u32,
    most: &mut u128,
) -> Result<Option<(u32, FaultKind)>, AllocError>
    requires { AreOf functions.now signatures.now }
    ensures rises { most.old ≤ most.new }
    ensures words { IfOk result (λ found. found ≡ None → LineWords allow.now functions.now function.now (length function.now.lines) most.new) }
    ensures least { IfOk result (λ found. found ≡ None → LeastLines allow.now functions.now function.now (length function.now.lines) most.old most.new) }
    ensures fault { IfOk result (λ found. (n : ℕ) → first ≡ told n → found ≡ option_map told_fault (behind n (function_fault allow.now functions.now function.now))) }
{
    if function.lines.is_empty() {
        return Ok(Some((first, FaultKind::BadShape)));
    }
    let next = behind(first, 1);
    let traps = function.traps.as_slice();
    match traps_fault(function.lines.len(), traps) {
        Some((at, kind)) => Ok(Some((behind(next, at), kind))),
        None => match lines_fault(alloc, allow, functions, signatures, function, most)? {
            Some((at, kind)) => {
                let later = behind(next, traps.len());
                Ok(Some((behind(later, at), kind)))
            }
            None => Ok(None),
        },
    }
}

/// The line behind a function whose line `fun` is this one.
fn behind_function(first: u32, function: &FunCode) -> u32
    ensures { (n : ℕ) → first ≡ told n → result ≡ told (n + line_count function.now) }
{
    behind(
        behind(behind(first, 2), function.traps.len()),
        function.lines.len(),
    )
}

/// The first line of the listing of functions, counted from 1, at which they break, and what breaks there. Where they
/// do nowhere, a frame of theirs has so many words at most.
pub(crate) fn code_fault(
    alloc: Global,
    allow: &Allow,
    functions: &[FunCode],
    most: &mut u128,
) -> Result<Option<(u32, FaultKind)>, AllocError>
    ensures words { IfOk result (λ found. found ≡ None → FunctionWords allow.now functions.now (length functions.now) most.new) }
    ensures least { IfOk result (λ found. found ≡ None → LeastFunctions allow.now functions.now (length functions.now) most.old most.new) }
    ensures fault { IfOk result (λ found. found ≡ option_map told_fault (code_fault allow.now functions.now)) }
{
    if functions.is_empty() {
        return Ok(Some((1, FaultKind::BadTarget)));
    }
    let signatures = signatures_of(alloc, functions)?;
    let mut first = 2;
    for function in functions {
        match function_fault(alloc, allow, functions, &signatures, function, first, most)? {
            None => {}
            Some(found) => return Ok(Some(found)),
        }
        first = behind_function(first, function);
    }
    Ok(None)
}
