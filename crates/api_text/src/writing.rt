//! Units that are written as long as there is room for them.
ghost use Rattle.std.specs.Prelude.{◌≡◌, ◌++◌, ◌+◌, ◌-◌, ◌<◌, ◌^◌, [], ◌∷◌, ℕ, List, IfOk, IfErr, OnOk, length};
ghost use Rattle.object_values.specs.declared.value.Value.TheVariants as v;
ghost use Rattle.api_text.specs.declared.outcome.Outcome.{Outcome};
ghost use Rattle.api_text.specs.Making.{array_of};
ghost use Rattle.object_heap.specs.Store.{Store};
ghost use Rattle.value_walks.specs.Texts.{GivesWithin, Text};
ghost use Rattle.api_text.specs.Outcomes.{Tells, followed_by};
ghost use Rattle.api_text.specs.Writing.{Made, MadeTexts, Stops, StopsOne, told_of};

use crate::errors::{too_deep, too_large};
use crate::outcome::Outcome;
use object_heap::Heap;
use object_values::{Elements, Value};
use pl_units::UText;
use std::alloc::Global;
use value_walks::{Output, TextErr};

/// Why something is not made.
#[derive(Clone, Copy)]
pub enum Stop {
    /// It would cost more than the room that is left.
    NoRoom,
    /// There was no memory.
    NoMemory,
}

/// Texts that are made for an array, and what they cost: each its units and 1.
pub struct Texts {
    pub items: Elements<Value>,
    pub cost: u64,
}

impl Drop for Texts {
    fn drop(self) {
        let Texts {
            items: _items,
            cost: _cost,
        } = self;
    }
}

impl Texts {
    // The outcome of an array of them.
    fn outcome(self) -> Outcome
        ensures { result ≡ Outcome.Texts self.items self.cost }
    {
        let Texts { items, cost } = self;
        Outcome::Texts(items, cost)
    }
}

/// Writes units behind what is there, if there is room for a text of them all.
pub fn write(out: &mut Vec<u16>, units: &[u16], room: u64) -> Result<(), Stop>
    ensures ok { OnOk result (out.new.items ≡ out.old.items ++ units.now) }
    ensures stop { IfErr result (λ stop. Stops room (length out.old.items + length units.now) stop) }
{
    if room.saturating_sub(out.len() as u64) <= units.len() as u64 {
        return Err(Stop::NoRoom);
    }
    match out.extend_from_slice(units) {
        Ok(()) => Ok(()),
        Err(_) => Err(Stop::NoMemory),
    }
}

/// Writes units and then others.
pub fn write_both(out: &mut Vec<u16>, units: &[u16], others: &[u16], room: u64) -> Result<(), Stop>
    ensures ok { OnOk result (out.new.items ≡ out.old.items ++ units.now ++ others.now) }
    ensures stop { IfErr result (λ stop. Stops room (length out.old.items + length units.now + length others.now) stop) }
{
    write(out, units, room)?;
    write(out, others, room)
}

/// The text of units that were written.
pub fn kept(units: Vec<u16>) -> Result<UText, Stop>
    ensures { (room : ℕ) → Made room units.items result }
{
    match UText::from_units(units) {
        Ok(text) => Ok(text),
        Err(_) => Err(Stop::NoMemory),
    }
}

/// The outcome of a text that was made, or was not.
#[tactic(auto, using(crate::proofs::Room::no_room_for_text))]
pub fn made(heap: &Heap, made: Result<UText, Stop>) -> Outcome
    ensures { (text : List ℕ) → Made heap.now.room text made → Tells heap.now (Outcome.Makes text) result }
{
    match made {
        Ok(text) => Outcome::Makes(text),
        Err(Stop::NoRoom) => Outcome::NoRoom,
        Err(Stop::NoMemory) => Outcome::NoMemory,
    }
}

/// The outcome of the text of a walk, which was made if there was room for it.
#[tactic(auto, using(crate::proofs::Room::made_whole, crate::proofs::Room::no_room_for_walk, crate::proofs::Room::deep_told, crate::proofs::Room::large_told, crate::proofs::Needing::text_needs))]
pub fn text_made(heap: &Heap, made: Result<Option<UText>, TextErr>) -> Outcome
    ensures { (walk : Text) → GivesWithin (heap.now.room - 1) walk made → Tells heap.now (followed_by walk Outcome.Makes) result }
{
    match made {
        Ok(Some(text)) => Outcome::Makes(text),
        Ok(None) => Outcome::NoRoom,
        Err(TextErr::Deep) => too_deep(heap),
        Err(TextErr::Large) => too_large(heap),
        Err(TextErr::NoMemory) => Outcome::NoMemory,
    }
}

/// The outcome of what was written to an output.
#[tactic(auto, using(crate::proofs::Room::told_whole, crate::proofs::Room::told_over, crate::proofs::Needing::told_needs))]
pub fn output_made(out: Output) -> Outcome
    ensures { (store : Store) → Tells store (told_of out) result }
{
    match out.text() {
        Ok(Some(text)) => Outcome::Makes(text),
        Ok(None) => Outcome::NoRoom,
        Err(_) => Outcome::NoMemory,
    }
}

/// The outcome of texts that were made for an array, or were not.
#[tactic(auto, using(crate::proofs::Room::no_room_for_texts))]
pub fn array_made(heap: &Heap, made: Result<Texts, Stop>) -> Outcome
    ensures { (texts : List (List ℕ)) → MadeTexts heap.now.room texts made → Tells heap.now (array_of texts) result }
{
    match made {
        Ok(texts) => texts.outcome(),
        Err(Stop::NoRoom) => Outcome::NoRoom,
        Err(Stop::NoMemory) => Outcome::NoMemory,
    }
}

fn text_value(alloc: Global, units: &[u16]) -> Result<Value, Stop>
    ensures ok { IfOk result (λ value. value ≡ v.Str units.now) }
    ensures stop { IfErr result (λ stop. stop ≡ Stop.NoMemory) }
{
    match UText::from_slice(alloc, units) {
        Ok(text) => Ok(Value::Str(text)),
        Err(_) => Err(Stop::NoMemory),
    }
}

fn push_value(items: &mut Vec<Value>, value: Value) -> Result<(), Stop>
    ensures ok { OnOk result (items.new.items ≡ items.old.items ++ value ∷ []) }
    ensures stop { IfErr result (λ stop. stop ≡ Stop.NoMemory) }
{
    match items.push(value) {
        Ok(()) => Ok(()),
        Err(refused) => {
            drop(refused);
            Err(Stop::NoMemory)
        }
    }
}

/// Makes one text more for an array, if there is room for it: what it costs, with its place in the array, goes from what is spare.
pub fn push_piece(
    alloc: Global,
    items: &mut Vec<Value>,
    cost: &mut u64,
    spare: &mut u64,
    piece: &[u16],
) -> Result<(), Stop>
    requires { cost.old + spare.old < 2 ^ 64 }
    ensures items { OnOk result (items.new.items ≡ items.old.items ++ v.Str piece.now ∷ []) }
    ensures cost { OnOk result (cost.new ≡ cost.old + (length piece.now + 1)) }
    ensures spare { OnOk result (spare.new + (length piece.now + 2) ≡ spare.old) }
    ensures stop { IfErr result (λ stop. StopsOne spare.old piece.now stop) }
{
    let units = piece.len() as u64;
    if *spare < units + 2 {
        return Err(Stop::NoRoom);
    }
    let value = text_value(alloc, piece)?;
    push_value(items, value)?;
    *cost += units + 1;
    *spare -= units + 2;
    Ok(())
}
