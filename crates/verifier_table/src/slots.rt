//! Equality of kinds.

ghost use Rattle.std.specs.Prelude.{◌≡◌};
ghost use Rattle.instruction_types.specs.Effects.{same_slots};

use pl_code::Slot;

/// Whether two kinds are one.
pub fn is_same_slot(a: Slot, b: Slot) -> bool
    ensures { result ≡ same_slots a b }
{
    match (a, b) {
        (Slot::I, Slot::I) | (Slot::J, Slot::J) | (Slot::R, Slot::R) => true,
        _ => false,
    }
}
