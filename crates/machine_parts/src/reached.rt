//! The members that were called.
ghost use Rattle.std.specs.Prelude.{◌≡◌, ◌≤◌, ◌<◌, false, [], ◌∷◌, ◌++◌, OnOk, IsOk, IfOk};
ghost use Rattle.machine_parts.specs.Rooms.{is_among};

use object_values::Elements;
use std::alloc::{AllocError, Global};
use std::marker::Model;

/// The members that were called, by their numbers in the order of their first calls, each once. Contracts see their list, with how
/// many there is memory for: as many as the list of a run has members, so that their numbers are below it.
#[derive(Drop)]
pub struct Reached {
    numbers: Vec<u32>,
    room: usize,
}

impl Model for Reached {
    ghost use Rattle.std.specs.Prelude.{◌≤◌};
    ghost use Rattle.std.specs.Vec.{vec_capacity};
    ghost use Rattle.machine_parts.specs.Rooms.{AreMembers, Called};

    ghost Value = { Called };

    ghost view = { λ r. record { numbers = r.numbers.items; room = r.room } };

    ghost invariant = { λ r. AreMembers r.room r.numbers.items × (r.room ≤ vec_capacity r.numbers) };
}

impl Reached {
    /// No members, and memory for each of so many that there are.
    pub fn with_room(alloc: Global, room: usize) -> Result<Reached, AllocError>
        ensures empty { IfOk result (λ reached. reached.numbers ≡ []) }
        ensures room { IfOk result (λ reached. reached.room ≡ room) }
    {
        Ok(Reached {
            numbers: Vec::with_capacity(alloc, room)?,
            room,
        })
    }

    /// Whether a member was called.
    pub fn has(&self, number: u32) -> bool
        ensures { result ≡ is_among number self.now.numbers }
    {
        self.numbers.iter().any(|n| *n == number)
    }

    /// A member is called for the first time. There are no more of them than there is memory for.
    #[tactic(auto, using(crate::proofs::Distinct::no_more))]
    pub fn push(&mut self, number: u32) -> Result<(), AllocError>
        requires member { number < self.old.room }
        requires first { is_among number self.old.numbers ≡ false }
        ensures ok { OnOk result (self.new.numbers ≡ self.old.numbers ++ number ∷ []) }
        ensures room { self.new.room ≡ self.old.room }
        ensures memory { IsOk result }
    {
        self.numbers.push(number)?;
        Ok(())
    }

    /// The list of the members.
    pub fn into_elements(self) -> Elements<u32>
        ensures { result ≡ self.numbers }
    {
        let Reached {
            numbers,
            room: _room,
        } = self;
        Elements::from_vec(numbers)
    }
}
