//! What comes of what may make a long message.
ghost use Rattle.object_heap.specs.Effects.{Answers};
ghost use Rattle.container_outcomes.specs.declared.outcome.Outcome.{Outcome};
ghost use Rattle.container_outcomes.specs.Outcomes.{WantsMemory, effect};
ghost use Rattle.api_map.specs.Affording.{Affords};

use container_outcomes::Outcome;
use object_heap::{Answer, Heap};

/// What a member comes to, where a message is made only if there is room for it.
pub enum Afforded {
    Told(Outcome),
    /// There is no room for the message.
    NoRoom,
}

impl Drop for Afforded {
    fn drop(self) {
        match self {
            Afforded::Told(_outcome) => {}
            Afforded::NoRoom => {}
        }
    }
}

impl Afforded {
    /// Pays for it, and changes the heap, as for an outcome.
    pub fn settle(self, heap: &mut Heap) -> Answer
        ensures does { (told : Outcome) → Affords heap.old told self → Answers (effect heap.old told) heap.old heap.new result }
        ensures memory { (told : Outcome) → Affords heap.old told self → WantsMemory told result }
    {
        match self {
            Afforded::Told(outcome) => outcome.settle(heap),
            Afforded::NoRoom => Answer::Room,
        }
    }
}
