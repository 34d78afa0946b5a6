//! The heap of a run: its objects, each by its number, and the room that is left for more. See `docs/HEAP.md`.
#![tactic(auto)]

mod answer;
mod changes;
mod error;
mod front;
mod heap;
mod laws;
mod outcome;
mod parts;
mod renewal;
mod weights;

pub use answer::{Answer, throw};
pub use error::HeapErr;
pub use front::Front;
pub use heap::Heap;
pub use laws::heap_keeps_fit;
pub use outcome::{End, Outcome, Which};
