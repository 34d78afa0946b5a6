//! What is taken from the stack.

ghost use Rattle.std.specs.Prelude.{◌≡◌, ◌*◌, ◌^◌, ◌<◌, [], ◌∷◌, ◌++◌, Some, None, if◌then◌else◌, replicate, reverse};
ghost use Rattle.pl_code.specs.declared.kinds.Slot.TheVariants.{R};
ghost use Rattle.instruction_types.specs.Effects.{taken};
ghost use Rattle.instruction_types.specs.Members.{argument_kinds};
ghost use Rattle.instruction_types.specs.Seen.{seen_takes};

use instruction_types::{Takes, kind_of_type};
use pl_code::Slot;
use pl_types::Ty;
use verifier_table::{ShapeTable, is_same_slot, window_of_copies};

fn one(table: &mut ShapeTable, kind: Slot) -> bool
    ensures stack { (if result then Some table.new.stack else None) ≡ taken (kind ∷ []) table.old.stack }
    ensures lines { table.new.lines ≡ table.old.lines }
{
    match table.take() {
        None => false,
        Some(top) => is_same_slot(kind, top),
    }
}

fn two(table: &mut ShapeTable, first: Slot, second: Slot) -> bool
    ensures stack { (if result then Some table.new.stack else None) ≡ taken (first ∷ second ∷ []) table.old.stack }
    ensures lines { table.new.lines ≡ table.old.lines }
{
    if !one(table, first) {
        return false;
    }
    one(table, second)
}

fn three(table: &mut ShapeTable, first: Slot, second: Slot, third: Slot) -> bool
    ensures stack { (if result then Some table.new.stack else None) ≡ taken (first ∷ second ∷ third ∷ []) table.old.stack }
    ensures lines { table.new.lines ≡ table.old.lines }
{
    if !one(table, first) {
        return false;
    }
    two(table, second, third)
}

/// The values of so many windows, all of a kind.
fn window_copies(table: &mut ShapeTable, windows: u64, kind: Slot) -> bool
    requires { 31 * windows < 2 ^ 64 }
    ensures stack { (if result then Some table.new.stack else None) ≡ taken (replicate (31 * windows) kind) table.old.stack }
    ensures lines { table.new.lines ≡ table.old.lines }
{
    let window = window_of_copies(kind);
    for done in 0..windows {
        if !table.take_window(window) {
            return false;
        }
    }
    true
}

fn few_copies(table: &mut ShapeTable, number: u64, kind: Slot) -> bool
    ensures stack { (if result then Some table.new.stack else None) ≡ taken (replicate number kind) table.old.stack }
    ensures lines { table.new.lines ≡ table.old.lines }
{
    for done in 0..number {
        if !one(table, kind) {
            return false;
        }
    }
    true
}

/// So many values of a kind: whole windows, and then what is left.
fn copies(table: &mut ShapeTable, number: u64, kind: Slot) -> bool
    ensures stack { (if result then Some table.new.stack else None) ≡ taken (replicate number kind) table.old.stack }
    ensures lines { table.new.lines ≡ table.old.lines }
{
    if !window_copies(table, number / 31, kind) {
        return false;
    }
    few_copies(table, number % 31, kind)
}

pub(crate) fn params(table: &mut ShapeTable, params: &[Slot]) -> bool
    ensures stack { (if result then Some table.new.stack else None) ≡ taken (reverse params.now) table.old.stack }
    ensures lines { table.new.lines ≡ table.old.lines }
{
    let mut rest = params;
    while let [front @ .., last] = rest {
        if !one(table, *last) {
            return false;
        }
        rest = front;
    }
    true
}

fn arguments(table: &mut ShapeTable, params: &[Ty]) -> bool
    ensures stack { (if result then Some table.new.stack else None) ≡ taken (argument_kinds params.now) table.old.stack }
    ensures lines { table.new.lines ≡ table.old.lines }
{
    for done in 0..params.len() {
        let kind = kind_of_type(&params[params.len() - 1 - done]);
        if !one(table, kind) {
            return false;
        }
    }
    true
}

fn received(table: &mut ShapeTable, params: &[Ty]) -> bool
    ensures stack { (if result then Some table.new.stack else None) ≡ taken (argument_kinds params.now ++ R ∷ []) table.old.stack }
    ensures lines { table.new.lines ≡ table.old.lines }
{
    if !arguments(table, params) {
        return false;
    }
    one(table, Slot::R)
}

/// Takes off what an instruction takes. `false` where other kinds lie there.
#[tactic(auto, unfolding(instruction_types::specs::Seen::seen_takes))]
pub(crate) fn take(table: &mut ShapeTable, takes: Takes<'_>) -> bool
    ensures stack { (if result then Some table.new.stack else None) ≡ taken (seen_takes takes.entry) table.old.stack }
    ensures lines { table.new.lines ≡ table.old.lines }
{
    match takes {
        Takes::Nothing => true,
        Takes::One(kind) => one(table, kind),
        Takes::Two(first, second) => two(table, first, second),
        Takes::Three(first, second, third) => three(table, first, second, third),
        Takes::Copies(number, kind) => copies(table, number, kind),
        Takes::Params(kinds) => params(table, kinds),
        Takes::Arguments(types) => arguments(table, types),
        Takes::Received(types) => received(table, types),
    }
}
