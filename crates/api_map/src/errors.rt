//! Exceptions and their messages.
ghost use Rattle.std.specs.Prelude.{◌≡◌, ◌++◌, codes, IfOk};
ghost use Rattle.pl_units.specs.Utf16.{units};
ghost use Rattle.api_map.specs.Entries.{gone};
ghost use Rattle.api_map.specs.Maps.{no_field};
ghost use Rattle.container_outcomes.specs.Outcomes.{Tells};

use container_outcomes::{Outcome, Raised, says};
use object_heap::Heap;
use pl_units::UText;
use std::alloc::{AllocError, Global};

/// An entry whose key is gone.
pub fn gone(heap: &Heap) -> Outcome
    ensures { Tells gone result }
{
    says(heap, Raised::IllegalState, "entry is gone")
}

fn field_message(alloc: Global, field: &[u16]) -> Result<UText, AllocError>
    ensures { IfOk result (λ text. text ≡ units (codes "No field found for [") ++ field.now ++ units (codes "] in mapping")) }
{
    let before = UText::from_utf8(alloc, "No field found for [")?;
    let behind = UText::from_utf8(alloc, "] in mapping")?;
    let mut message = Vec::new(alloc);
    message.extend_from_slice(before.units())?;
    message.extend_from_slice(field)?;
    message.extend_from_slice(behind.units())?;
    UText::from_units(message)
}

/// A field that no document has.
#[tactic(auto, unfolding(crate::specs::Maps::no_field))]
pub fn no_field(heap: &Heap, field: &[u16]) -> Outcome
    ensures { Tells (no_field field.now) result }
{
    match field_message(heap.alloc(), field) {
        Ok(message) => Outcome::Throws(Raised::IllegalArgument, Some(message)),
        Err(_) => Outcome::NoMemory,
    }
}
