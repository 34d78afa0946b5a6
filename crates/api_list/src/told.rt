//! What a member comes to, and how it is paid: an outcome, or entries that are made and go into a list.
ghost use Rattle.object_heap.specs.Effects.{Answers};
ghost use Rattle.api_list.specs.declared.told.Told.{Told};
ghost use Rattle.api_list.specs.Taking.{Comes, ToldWants, told_effect};

use crate::entering::enter;
use container_outcomes::Outcome;
use container_parts::Container;
use object_heap::{Answer, Heap};

/// What a member comes to, before it is paid.
pub enum Told {
    /// An outcome.
    Says(Outcome),
    /// The entries that a view shows are made and inserted into a list from a place on; the value is true.
    Enters(u32, usize, Container),
}

impl Drop for Told {
    fn drop(self) {
        match self {
            Told::Says(_told) => {}
            Told::Enters(_list, _at, _container) => {}
        }
    }
}

impl Told {
    /// Pays for it, and changes the heap.
    pub fn settle(self, heap: &mut Heap) -> Answer
        ensures does { (told : Told) → Comes told self → Answers (told_effect heap.old told) heap.old heap.new result }
        ensures memory { (told : Told) → Comes told self → ToldWants told result }
    {
        match self {
            Told::Says(outcome) => outcome.settle(heap),
            Told::Enters(list, at, container) => enter(heap, list, at, container),
        }
    }
}
