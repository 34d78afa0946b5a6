//! Which calls fail.

ghost use Rattle.std.specs.Prelude.{◌≡◌, ◌↔◌, Contains, IsTrue};
ghost use Rattle.outer_io.specs.Memory.{uncalled, number_of, called};

use std::marker::Model;

/// The numbers of the calls that are to fail, and how many calls and faults there were.
#[derive(Drop)]
pub(crate) struct Schedule {
    fails: Vec<u64>,
    made: u64,
    faults: u64,
}

impl Model for Schedule {
    ghost use Rattle.outer_io.specs.Memory.{Calls};

    ghost Value = { Calls };

    ghost view = { λ s. record { fails = s.fails.items; made = s.made; faults = s.faults } };
}

impl Schedule {
    /// No call was made yet.
    pub(crate) fn new(fails: Vec<u64>) -> Schedule
        ensures { result ≡ uncalled fails.items }
    {
        Schedule {
            fails,
            made: 0,
            faults: 0,
        }
    }

    /// Counts a call, and says whether it is to fail, which counts as a fault.
    pub(crate) fn fails_now(&mut self) -> bool
        ensures failed { IsTrue result ↔ Contains self.old.fails (number_of self.old) }
        ensures counted { self.new ≡ called result self.old }
    {
        self.made = self.made.saturating_add(1);
        let fails = self.fails.contains(&self.made);
        if fails {
            self.faults = self.faults.saturating_add(1);
        }
        fails
    }
}
