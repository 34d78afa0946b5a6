//! The classes of the catalogue, as casts between types ask for them.

ghost use Rattle.pl_types.specs.Classes.{class_is_below};

use pl_types::{Lineage, class_below};

/// The classes of the catalogue, with their parents.
pub(crate) struct Classes;

impl Lineage for Classes {
    ghost is_below = { λ _ a b. class_is_below a b };

    fn is_sub(&self, a: u32, b: u32) -> bool {
        class_below(a, b)
    }
}
