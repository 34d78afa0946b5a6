//! Calls: the parameters of a function are taken 31 at a time.

ghost use Rattle.std.specs.Prelude.{◌≡◌, ◌*◌, List, Some, None, if◌then◌else◌, IfOk, length, drop, reverse, slice_get, option_map};
ghost use Rattle.pl_code.specs.declared.kinds.Slot.{Slot as SlotData};
ghost use Rattle.instruction_types.specs.Effects.{taken, calls, left_by};
ghost use Rattle.verifier_table.specs.Windows.{HasWindows};
ghost use Rattle.verifier.specs.Meets.{left_in};
ghost use Rattle.verifier.specs.Acts.{Does};
ghost use Rattle.verifier.specs.Signed.{AreOf, Passed};

use crate::act::give;
use crate::signatures::Signatures;
use crate::take::params;
use pl_code::{FunCode, Slot};
use std::alloc::AllocError;
use verifier_table::ShapeTable;

/// Takes off the kinds of windows. `false` where other kinds lie there.
fn take_windows(table: &mut ShapeTable, windows: &[u64]) -> bool
    ensures stack { (kinds : List SlotData) → HasWindows kinds windows.now → Passed result kinds (drop (31 * length windows.now) kinds) table.old.stack table.new.stack }
    ensures lines { table.new.lines ≡ table.old.lines }
{
    for at in 0..windows.len() {
        if !table.take_window(windows[at]) {
            return false;
        }
    }
    true
}

/// Takes off parameters that were cut into windows, and then those that are left over. `false` where other kinds lie there.
fn take_params(table: &mut ShapeTable, kinds: &[Slot], windows: &[u64]) -> bool
    requires { HasWindows (reverse kinds.now) windows.now }
    ensures stack { (if result then Some table.new.stack else None) ≡ taken (reverse kinds.now) table.old.stack }
    ensures lines { table.new.lines ≡ table.old.lines }
{
    if !take_windows(table, windows) {
        return false;
    }
    params(table, &kinds[..kinds.len() - 31 * windows.len()])
}

fn call_function(
    table: &mut ShapeTable,
    function: &FunCode,
    windows: &[u64],
) -> Result<bool, AllocError>
    requires { HasWindows (reverse function.now.params) windows.now }
    ensures { IfOk result (λ fits. Does table.old table.new fits (left_by (calls function.now) table.old.stack)) }
{
    if !take_params(table, function.params.as_slice(), windows) {
        return Ok(false);
    }
    give(table, function.result)?;
    Ok(true)
}

/// Does to the stack what a call of the function with a number does. `false` where the stack does not fit it, or there is none.
pub(crate) fn call(
    table: &mut ShapeTable,
    functions: &[FunCode],
    signatures: &Signatures,
    number: usize,
) -> Result<bool, AllocError>
    requires { AreOf functions.now signatures.now }
    ensures { IfOk result (λ fits. Does table.old table.new fits (left_in (option_map calls (slice_get functions.now number)) table.old.stack)) }
{
    if number >= functions.len() {
        return Ok(false);
    }
    let windows = signatures.windows.as_slice();
    call_function(table, &functions[number], windows[number].as_slice())
}
