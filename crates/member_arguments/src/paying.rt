//! How a text that a member makes is paid.
ghost use Rattle.std.specs.Prelude.{◌≡◌, ◌-◌};
ghost use Rattle.object_heap.specs.Effects.{Answers, gives_text};

use object_heap::{Answer, Heap, HeapErr};
use object_values::Value;
use pl_units::UText;

/// Pays for a text that was made: its units and one.
pub fn pay_text(heap: &mut Heap, text: UText) -> Answer
    ensures { Answers (gives_text heap.old text) heap.old heap.new result }
{
    match heap.charge(text.len() as u64 + 1) {
        Ok(()) => Answer::Value(Value::Str(text)),
        Err(HeapErr::Room) => {
            drop(text);
            Answer::Room
        }
        Err(HeapErr::NoMemory) => {
            drop(text);
            Answer::NoMemory
        }
    }
}

/// How many units a text may have for which there is room.
pub fn text_room(heap: &Heap) -> u64
    ensures { result ≡ heap.now.room - 1 }
{
    heap.room_left().saturating_sub(1)
}
