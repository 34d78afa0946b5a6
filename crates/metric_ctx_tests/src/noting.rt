//! A task that notes when it had which turn.

ghost use Rattle.std.specs.Prelude.{◌≡◌};

use metric_ctx::{Task, Turn};
use std::cell::Cell;

/// So many turns are noted; later ones are not.
pub const NOTED: usize = 4;

/// A task that only counts its instructions down.
#[derive(Drop)]
pub struct Noting<'a> {
    pub left: u64,
    pub clock: &'a Cell<u64>,
    pub turns: usize,
    /// When each turn was, and how many instructions it took.
    pub notes: [(u64, u64); NOTED],
}

impl<'a> Noting<'a> {
    /// A task with so many instructions, that reads the clock.
    pub fn new(left: u64, clock: &'a Cell<u64>) -> Noting<'a> {
        Noting {
            left,
            clock,
            turns: 0,
            notes: [(0, 0); NOTED],
        }
    }

    /// Whether the turn of a number was at this moment, and took so many instructions.
    pub fn had(&self, number: usize, moment: u64, took: u64) -> bool {
        let notes = self.notes;
        number < self.turns && number < NOTED && notes[number] == (moment, took)
    }

    /// Notes a turn of so many instructions, at the next moment.
    fn note(&mut self, took: u64)
        ensures { self.new.left ≡ self.old.left }
    {
        let moment = self.clock.get();
        self.clock.set(moment.wrapping_add(1));
        if self.turns < NOTED {
            self.notes[self.turns] = (moment, took);
            self.turns += 1;
        }
    }
}

impl<'a> Task for Noting<'a> {
    type Ending = ();

    ghost rest = { λ task. task.left };

    ghost ending = { λ _. tt };

    fn is_done(&self) -> bool {
        self.left == 0
    }

    fn turn(&mut self, q: u64) -> Turn {
        let took = q.min(self.left);
        self.left -= took;
        self.note(took);
        if self.left == 0 {
            Turn::Done
        } else {
            Turn::More
        }
    }
}
