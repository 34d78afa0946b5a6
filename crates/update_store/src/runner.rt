//! What runs the script.

ghost use Rattle.std.specs.Prelude.{◌≡◌, ℕ};
ghost use Rattle.update_store.specs.Documents.{doc_view};
ghost use Rattle.update_store.specs.Running.{Meaning, OnRan, RanMeans, counted};

use crate::document::{Change, Doc};
use serde_json::Value;

/// What a run of the script comes to.
#[derive(Drop)]
pub enum Ran {
    /// The document is to be changed so.
    Write(Change),
    /// Nothing is to be changed.
    Nothing,
    /// The script ended with this error, which is the client's reply.
    Failed(Value),
    /// Memory ran out.
    NoMemory,
}

/// What runs the script for a client over the document that it has read. It says what the script makes of each document for each
/// client and what that costs: no call changes what a runner means, and `spent` counts what the calls cost. A runner whose script is
/// known by how its runs end means each function that gives these ends.
pub trait UpdateRun {
    /// This is what it means.
    ghost means: { Self → Meaning → Type 0 };

    /// What was spent so far. The count stands still at 2^64 - 1.
    ghost spent: { Self → ℕ };

    /// Runs the script for the client of a number.
    fn run(&mut self, client: u32, doc: &Doc) -> Ran
        ensures answers { (m : Meaning) → means self.old m → RanMeans (m.ran client (doc_view doc.now)) result }
        ensures still { (m : Meaning) → means self.old m → means self.new m }
        ensures spent { (m : Meaning) → means self.old m → OnRan result (spent self.new ≡ counted (spent self.old) (m.cost client (doc_view doc.now))) };
}
