//! Seeds of hash tables, and the hasher that starts from one.
ghost use Rattle.std.specs.Prelude.{◌≡◌};
ghost use Rattle.object_values.specs.Seeds.{seed_of, seed_with, first_hasher};

use std::hash::{BuildHasher, DefaultHasher, FoldHasher, Hasher};

/// From what the hash tables of a heap start. It is made of all bytes that the heap is made from, so nobody who chooses keys can
/// choose ones that collide. No answer, no order and no count of steps depends on it.
#[derive(Clone, Copy, Debug, PartialEq, Eq)]
pub struct Seed {
    number: u64,
}

impl Seed {
    /// The seed of these bytes.
    pub fn of(bytes: &[u8]) -> Seed
        ensures { result ≡ seed_of bytes.now }
    {
        Seed { number: 0 }.with(bytes)
    }

    /// The seed of the bytes so far and then of these.
    pub fn with(self, bytes: &[u8]) -> Seed
        ensures { result ≡ seed_with self bytes.now }
    {
        let mut state = DefaultHasher::new();
        state.write_u64(self.number);
        state.write_usize(bytes.len());
        state.write(bytes);
        Seed {
            number: state.finish(),
        }
    }
}

/// What makes the hasher of each key: one that has taken a seed in.
#[derive(Clone, Copy)]
pub struct Seeded {
    first: FoldHasher,
}

impl Seeded {
    /// Hashers that start from this seed.
    pub fn new(seed: Seed) -> Seeded
        ensures { result.first ≡ first_hasher seed }
    {
        let mut first = FoldHasher::default();
        first.write_u64(seed.number);
        Seeded { first }
    }
}

impl BuildHasher for Seeded {
    type Hasher = FoldHasher;

    ghost build_hasher = { λ s. s.first };

    fn build_hasher(&self) -> FoldHasher {
        self.first
    }
}
