//! Comparing values.
ghost use Rattle.std.specs.Prelude.{◌≡◌};
ghost use Rattle.container_outcomes.specs.Comparing as spec;

use object_heap::Heap;
use object_values::Value;
use value_walks::{VISITS, Walked, equal, equal_entries};

/// What comes of comparing two values.
#[derive(Clone, Copy)]
pub enum Compared {
    Same,
    Other,
    /// They are nested too deeply.
    Deep,
    /// They are too large to walk.
    Large,
}

/// What comes of searching for a value.
#[derive(Clone, Copy)]
pub enum Found {
    /// It is at this place.
    At(usize),
    /// It is not there.
    Nowhere,
    /// A value that was compared is nested too deeply.
    Deep,
    /// A value that was compared is too large to walk.
    Large,
}

/// Deep equality, by a walk of its own.
#[tactic(auto, unfolding(crate::specs::Comparing::comparison))]
pub fn compare(heap: &Heap, a: &Value, b: &Value) -> Compared
    ensures { result ≡ spec.comparison heap.now.objects a.now b.now }
{
    match equal(heap, a, b, VISITS) {
        Walked::On(true, _) => Compared::Same,
        Walked::On(false, _) => Compared::Other,
        Walked::Deep => Compared::Deep,
        Walked::Large => Compared::Large,
    }
}

/// Deep equality of two entries, each of which goes by its map and its key, by a walk of its own: as of two entries that are objects.
#[tactic(auto, unfolding(crate::specs::Comparing::entry_comparison))]
pub fn compare_entries(
    heap: &Heap,
    map: u32,
    key: &Value,
    other_map: u32,
    other_key: &Value,
) -> Compared
    ensures { result ≡ spec.entry_comparison heap.now.objects map key.now other_map other_key.now }
{
    match equal_entries(heap, map, key, other_map, other_key, VISITS) {
        Walked::On(true, _) => Compared::Same,
        Walked::On(false, _) => Compared::Other,
        Walked::Deep => Compared::Deep,
        Walked::Large => Compared::Large,
    }
}
