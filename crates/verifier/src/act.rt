//! What an instruction does to the stack.

ghost use Rattle.std.specs.Prelude.{◌≡◌, ◌∷◌, ◌++◌, Some, None, IfOk, OnOk, MatchOption};
ghost use Rattle.instruction_types.specs.Effects.{Exchanges, copied, emptied, result_kinds, left_by};
ghost use Rattle.instruction_types.specs.Seen.{seen_action, seen_takes};
ghost use Rattle.verifier.specs.Acts.{Does, HasNoTwo};
ghost use Rattle.instruction_types.specs.declared.copying.Copying.TheVariants as copying;

use crate::take::take;
use instruction_types::{Action, Copying, Takes};
use pl_code::Slot;
use std::alloc::AllocError;
use verifier_table::ShapeTable;

/// Puts what is given on the stack.
pub(crate) fn give(table: &mut ShapeTable, gives: Option<Slot>) -> Result<(), AllocError>
    ensures { OnOk result (table.new ≡ record { stack = result_kinds gives ++ table.old.stack; lines = table.old.lines }) }
{
    match gives {
        None => Ok(()),
        Some(kind) => table.put(kind),
    }
}

fn exchange(
    table: &mut ShapeTable,
    takes: Takes<'_>,
    gives: Option<Slot>,
) -> Result<bool, AllocError>
    ensures { IfOk result (λ fits. Does table.old table.new fits (left_by (Exchanges (seen_takes takes.entry) (result_kinds gives)) table.old.stack)) }
{
    if !take(table, takes) {
        return Ok(false);
    }
    give(table, gives)?;
    Ok(true)
}

fn drop_top(table: &mut ShapeTable) -> bool
    ensures { Does table.old table.new result (copied copying.Drop table.old.stack) }
{
    table.take().is_some()
}

fn copy_one(table: &mut ShapeTable) -> Result<bool, AllocError>
    ensures { IfOk result (λ fits. Does table.old table.new fits (copied copying.One table.old.stack)) }
{
    let Some(x) = table.take() else {
        return Ok(false);
    };
    table.put(x)?;
    table.put(x)?;
    Ok(true)
}

/// Takes off the top and the one under it.
fn take_two(table: &mut ShapeTable) -> Option<(Slot, Slot)>
    ensures { MatchOption result (HasNoTwo table.old.stack × (table.new.lines ≡ table.old.lines)) (λ p. (table.old ≡ record { stack = p.0 ∷ p.1 ∷ table.new.stack; lines = table.new.lines })) }
{
    let top = table.take()?;
    let under = table.take()?;
    Some((top, under))
}

fn put_two(table: &mut ShapeTable, under: Slot, top: Slot) -> Result<(), AllocError>
    ensures { OnOk result (table.new ≡ record { stack = top ∷ under ∷ table.old.stack; lines = table.old.lines }) }
{
    table.put(under)?;
    table.put(top)
}

fn copy_two(table: &mut ShapeTable) -> Result<bool, AllocError>
    ensures { IfOk result (λ fits. Does table.old table.new fits (copied copying.Two table.old.stack)) }
{
    let Some((top, under)) = take_two(table) else {
        return Ok(false);
    };
    put_two(table, under, top)?;
    put_two(table, under, top)?;
    Ok(true)
}

fn copy_under_one(table: &mut ShapeTable) -> Result<bool, AllocError>
    ensures { IfOk result (λ fits. Does table.old table.new fits (copied copying.UnderOne table.old.stack)) }
{
    let Some((top, under)) = take_two(table) else {
        return Ok(false);
    };
    table.put(top)?;
    put_two(table, under, top)?;
    Ok(true)
}

fn copy_under_two(table: &mut ShapeTable) -> Result<bool, AllocError>
    ensures { IfOk result (λ fits. Does table.old table.new fits (copied copying.UnderTwo table.old.stack)) }
{
    let Some((top, under)) = take_two(table) else {
        return Ok(false);
    };
    let Some(lowest) = table.take() else {
        return Ok(false);
    };
    put_two(table, top, lowest)?;
    put_two(table, under, top)?;
    Ok(true)
}

fn copy(table: &mut ShapeTable, copying: Copying) -> Result<bool, AllocError>
    ensures { IfOk result (λ fits. Does table.old table.new fits (copied copying table.old.stack)) }
{
    match copying {
        Copying::Drop => Ok(drop_top(table)),
        Copying::One => copy_one(table),
        Copying::Two => copy_two(table),
        Copying::UnderOne => copy_under_one(table),
        Copying::UnderTwo => copy_under_two(table),
    }
}

fn empty(table: &mut ShapeTable) -> bool
    ensures { Does table.old table.new result (emptied table.old.stack) }
{
    match table.take() {
        Some(Slot::I) => table.take().is_none(),
        _ => false,
    }
}

#[tactic(auto, unfolding(instruction_types::specs::Seen::seen_action, instruction_types::specs::Effects::left_by))]
/// Does to the stack what an instruction does. `false` where the stack does not fit it.
pub(crate) fn act(table: &mut ShapeTable, action: Action<'_>) -> Result<bool, AllocError>
    ensures { IfOk result (λ fits. Does table.old table.new fits (left_by (seen_action action.entry) table.old.stack)) }
{
    match action {
        Action::Exchanges(takes, gives) => exchange(table, takes, gives),
        Action::Copies(copying) => copy(table, copying),
        Action::Empties => Ok(empty(table)),
    }
}
