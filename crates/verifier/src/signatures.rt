//! What is found of functions once, before the pass over their lines, so that no line walks over the parameters of a function.

ghost use Rattle.std.specs.Prelude.{◌≡◌, IfOk, map, reverse, take};
ghost use Rattle.instruction_types.specs.Faults.{is_value_function};
ghost use Rattle.verifier_table.specs.Windows.{numeral_of, HasWindows};
ghost use Rattle.verifier.specs.Signed.{AllCut, AreOf};

use instruction_types::is_value_function;
use pl_code::{FunCode, Slot};
use plain_data::Items;
use std::alloc::{AllocError, Global};
use verifier_table::window_with;

/// Of each function whether it may be a value, and the windows of its parameters from the last one on.
#[derive(Drop)]
pub(crate) struct Signatures {
    pub values: Items<bool>,
    pub windows: Items<Items<u64>>,
}

/// The number of the last 31 of some kinds, the last one's digit lowest.
fn window_of(kinds: &[Slot]) -> u64
    ensures { result ≡ numeral_of (take 31 (reverse kinds.now)) }
{
    let mut window = 0;
    for at in 0..kinds.len() {
        window = window_with(window, kinds[at]);
    }
    window
}

/// The windows of parameters, from the last parameter on. The parameters that are left over are the first ones.
fn windows_of(alloc: Global, params: &[Slot]) -> Result<Items<u64>, AllocError>
    ensures { IfOk result (λ windows. HasWindows (reverse params.now) windows) }
{
    let mut windows = Items::new(alloc);
    for done in 0..params.len() / 31 {
        let end = params.len() - 31 * done;
        windows.push(window_of(&params[end - 31..end]))?;
    }
    Ok(windows)
}

fn all_windows(alloc: Global, functions: &[FunCode]) -> Result<Items<Items<u64>>, AllocError>
    ensures { IfOk result (λ windows. AllCut functions.now windows) }
{
    let mut windows = Items::new(alloc);
    for function in functions {
        windows.push(windows_of(alloc, function.params.as_slice())?)?;
    }
    Ok(windows)
}

fn all_values(alloc: Global, functions: &[FunCode]) -> Result<Items<bool>, AllocError>
    ensures { IfOk result (λ values. values ≡ map is_value_function functions.now) }
{
    let mut values = Items::new(alloc);
    for function in functions {
        values.push(is_value_function(function))?;
    }
    Ok(values)
}

/// What is found of functions.
pub(crate) fn signatures_of(alloc: Global, functions: &[FunCode]) -> Result<Signatures, AllocError>
    ensures { IfOk result (λ signatures. AreOf functions.now signatures) }
{
    Ok(Signatures {
        values: all_values(alloc, functions)?,
        windows: all_windows(alloc, functions)?,
    })
}
