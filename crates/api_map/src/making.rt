//! The constructors of maps and sets.
ghost use Rattle.std.specs.Prelude.{◌≡◌};
ghost use Rattle.api_map.specs.Making as spec;

use container_outcomes::Outcome;
use object_heap::Heap;
use object_values::{Guard, Object, Pairs};
use pl_types::classes::{HASH_MAP, HASH_SET, LINKED_HASH_MAP, LINKED_HASH_SET};

/// A class of maps.
#[derive(Clone, Copy)]
pub enum MapClass {
    Hash,
    LinkedHash,
}

impl MapClass {
    /// Its number in the catalogue.
    pub fn number(self) -> u32
        ensures { result ≡ spec.number_of_map self }
    {
        match self {
            MapClass::Hash => HASH_MAP,
            MapClass::LinkedHash => LINKED_HASH_MAP,
        }
    }
}

/// A class of sets.
#[derive(Clone, Copy)]
pub enum SetClass {
    Hash,
    LinkedHash,
}

impl SetClass {
    /// Its number in the catalogue.
    pub fn number(self) -> u32
        ensures { result ≡ spec.number_of_set self }
    {
        match self {
            SetClass::Hash => HASH_SET,
            SetClass::LinkedHash => LINKED_HASH_SET,
        }
    }
}

/// The constructor of a map without pairs.
pub fn new_map(heap: &Heap, class: MapClass) -> Outcome
    ensures { result ≡ spec.new_map class }
{
    Outcome::New(Object::Map {
        class: class.number(),
        pairs: Pairs::new(heap.alloc(), heap.seed()),
        guard: Guard::Open,
        changes: 0,
    })
}

/// The constructor of a set without keys.
pub fn new_set(heap: &Heap, class: SetClass) -> Outcome
    ensures { result ≡ spec.new_set class }
{
    Outcome::New(Object::Set {
        class: class.number(),
        items: Pairs::new(heap.alloc(), heap.seed()),
        guard: Guard::Open,
        changes: 0,
    })
}
