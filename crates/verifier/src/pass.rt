//! The pass over a function's lines.

ghost use Rattle.std.specs.Prelude.{◌≡◌, ◌+◌, ◌<◌, ◌≤◌, ◌^◌, ℕ, List, length, IfOk, None};
ghost use Rattle.pl_code.specs.declared.kinds.Slot.{Slot as SlotData};
ghost use Rattle.verifier_table.specs.Shapes.{Known};
ghost use Rattle.verifier.specs.Acts.{at_line, Caught, Turned, Begins};
ghost use Rattle.verifier.specs.Faults.{lines_fault};
ghost use Rattle.verifier.specs.Signed.{AreOf};
ghost use Rattle.verifier.specs.Words.{LineWords, LeastLines};

use crate::fault::FaultKind;
use crate::line::instruction_fault;
use crate::signatures::Signatures;
use crate::successors::{merge_into, merge_into_loop_head};
use allowlist::Allow;
use instruction_types::flow_of;
use pl_code::{FunCode, Instruction, Slot, Trap};
use std::alloc::{AllocError, Global};
use verifier_table::ShapeTable;

fn catch(table: &mut ShapeTable, traps: &[Trap])
    ensures { Caught traps.now table.old table.new }
{
    for trap in traps {
        merge_into(table, trap.at as usize);
    }
}

fn turn(table: &mut ShapeTable, lines: &[Instruction])
    ensures { Turned lines.now table.old table.new }
{
    for line in lines {
        merge_into_loop_head(table, flow_of(line));
    }
}

/// What stands at the lines of a function whatever comes before them.
fn begin(alloc: Global, function: &FunCode) -> Result<ShapeTable, AllocError>
    ensures { IfOk result (λ table. Begins function.now table) }
{
    let mut table = ShapeTable::new(alloc, function.lines.len())?;
    merge_into(&mut table, 0);
    table.put(Slot::R)?;
    catch(&mut table, function.traps.as_slice());
    table.clear();
    turn(&mut table, function.lines.as_slice());
    Ok(table)
}

/// Raises a number to another, where that is greater.
fn raise(most: &mut u128, words: u128)
    ensures rises { most.old ≤ most.new }
    ensures covers { words ≤ most.new }
    ensures least { (n : ℕ) → most.old ≤ n → words ≤ n → most.new ≤ n }
{
    if words > *most {
        *most = words;
    }
}

/// Counts the words of a frame at a line: its locals, and what stands there.
fn count_words(table: &mut ShapeTable, locals: u128, line: usize, most: &mut u128)
    requires { locals < 2 ^ 127 }
    ensures lines { table.new.lines ≡ table.old.lines }
    ensures rises { most.old ≤ most.new }
    ensures covers { (kinds : List SlotData) → at_line table.old line ≡ Known kinds → locals + length kinds ≤ most.new }
    ensures least { (n : ℕ) → most.old ≤ n → ((kinds : List SlotData) → at_line table.old line ≡ Known kinds → locals + length kinds ≤ n) → most.new ≤ n }
{
    if table.stand(line) {
        raise(most, locals + table.height() as u128);
    }
}

/// How many locals a function has.
fn local_count(function: &FunCode) -> u128
    ensures count { result ≡ length function.now.params + length function.now.locals }
    ensures small { result < 2 ^ 127 }
{
    function.params.len() as u128 + function.locals.len() as u128
}

/// The first line of a function whose instruction breaks, and what breaks there. Where none does, a frame of the function has so
/// many words at most.
#[tactic(auto, unfolding(crate::specs::Faults::lines_fault))]
pub(crate) fn lines_fault(
    alloc: Global,
    allow: &Allow,
    functions: &[FunCode],
    signatures: &Signatures,
    function: &FunCode,
    most: &mut u128,
) -> Result<Option<(usize, FaultKind)>, AllocError>
    requires { AreOf functions.now signatures.now }
    ensures rises { most.old ≤ most.new }
    ensures words { IfOk result (λ found. found ≡ None → LineWords allow.now functions.now function.now (length function.now.lines) most.new) }
    ensures least { IfOk result (λ found. found ≡ None → LeastLines allow.now functions.now function.now (length function.now.lines) most.old most.new) }
    ensures fault { IfOk result (λ found. found ≡ lines_fault allow.now functions.now function.now) }
{
    let locals = local_count(function);
    let mut table = begin(alloc, function)?;
    let lines = function.lines.as_slice();
    for line in 0..lines.len() {
        count_words(&mut table, locals, line, most);
        let found = instruction_fault(
            &mut table,
            allow,
            functions,
            signatures,
            function,
            line,
            &lines[line],
        )?;
        match found {
            None => {}
            Some(kind) => return Ok(Some((line, kind))),
        }
    }
    Ok(None)
}
