//! A task that adds to a sum which it shares, in two steps.

ghost use Rattle.std.specs.Prelude.{◌≡◌};

use task_core::{Step, Turn};

/// So many steps are noted; later ones are not.
pub const STEPS_NOTED: usize = 8;

/// Notes whose step it was.
#[derive(Drop)]
pub struct Notes {
    pub places: [u32; STEPS_NOTED],
    pub count: usize,
}

impl Notes {
    /// No notes.
    pub fn new() -> Notes {
        Notes {
            places: [0; STEPS_NOTED],
            count: 0,
        }
    }

    /// Notes a step of the task of a place.
    fn note(&mut self, place: u32) {
        if self.count < STEPS_NOTED {
            self.places[self.count] = place;
            self.count += 1;
        }
    }
}

/// A task that reads the sum in one step and puts what it read with its own number added in its place in the next.
#[derive(Drop)]
pub struct Adding {
    pub place: u32,
    pub number: u64,
    pub read: u64,
    pub left: u8,
}

impl Adding {
    /// A task of a place with both steps left.
    pub fn new(place: u32, number: u64) -> Adding {
        Adding {
            place,
            number,
            read: 0,
            left: 2,
        }
    }
}

impl Step<u64, Notes> for Adding {
    ghost rest = { λ task. task.left };

    ghost step = { λ old new. new.tasks.place ≡ old.tasks.place };

    fn is_done(&self) -> bool {
        self.left == 0
    }

    fn turn(&mut self, shared: &mut u64, runner: &mut Notes) -> Turn {
        runner.note(self.place);
        self.left -= 1;
        if self.left == 0 {
            *shared = self.read.wrapping_add(self.number);
            Turn::Done
        } else {
            self.read = *shared;
            Turn::More
        }
    }
}
