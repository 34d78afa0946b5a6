//! What comes of what may make a long text.
ghost use Rattle.std.specs.Prelude.{◌-◌};
ghost use Rattle.object_heap.specs.Effects.{Answers};
ghost use Rattle.value_walks.specs.Texts.{GivesWithin, Text};
ghost use Rattle.number_ops.specs.declared.outcome.Outcome.{Outcome};
ghost use Rattle.number_ops.specs.Operators.{followed_by};
ghost use Rattle.number_ops.specs.Outcomes.{Affords, WantsMemory, effect};

use crate::operators::{too_deep, too_large};
use crate::outcome::Outcome;
use object_heap::{Answer, Heap};
use pl_units::UText;
use value_walks::TextErr;

/// What an operator or a member comes to, where a text is made only if there is room for it.
pub enum Afforded {
    Told(Outcome),
    /// There is no room for the text.
    NoRoom,
}

impl Drop for Afforded {
    fn drop(self) {
        match self {
            Afforded::Told(_outcome) => {}
            Afforded::NoRoom => {}
        }
    }
}

impl Afforded {
    /// Pays for it, as for an outcome.
    pub fn settle(self, heap: &mut Heap) -> Answer
        ensures exact { (told : Outcome) → Affords heap.old told self → Answers (effect heap.old told) heap.old heap.new result }
        ensures memory { (told : Outcome) → Affords heap.old told self → WantsMemory told result }
    {
        match self {
            Afforded::Told(outcome) => outcome.settle(heap),
            Afforded::NoRoom => Answer::Room,
        }
    }
}

/// What comes of the text of a walk, which was made if there was room for it.
#[tactic(auto, using(crate::proofs::TextRoom::made_whole, crate::proofs::TextRoom::no_room_for_walk, crate::proofs::TextRoom::walk_makes, crate::proofs::TextRoom::deep_told, crate::proofs::TextRoom::large_told))]
pub fn text_afforded(heap: &Heap, made: Result<Option<UText>, TextErr>) -> Afforded
    ensures { (walk : Text) → GivesWithin (heap.now.room - 1) walk made → Affords heap.now (followed_by walk Outcome.Makes) result }
{
    match made {
        Ok(Some(text)) => Afforded::Told(Outcome::Makes(text)),
        Ok(None) => Afforded::NoRoom,
        Err(TextErr::Deep) => Afforded::Told(too_deep(heap)),
        Err(TextErr::Large) => Afforded::Told(too_large(heap)),
        Err(TextErr::NoMemory) => Afforded::Told(Outcome::NoMemory),
    }
}
