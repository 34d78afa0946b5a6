//! What is still to be read of the phrases that were begun.

ghost use Rattle.std.specs.Prelude.{◌≡◌, [], ◌∷◌, OnOk};
ghost use Rattle.parse_driver.specs.Control.{Pops};

use parse_tables::{Rule, Series};
use plain_data::Items;
use std::alloc::{AllocError, Global};
use std::marker::Model;

/// What is still to be read of a phrase, or of phrases that are repeated. Rules below it nest no deeper than `levels`.
#[derive(Clone, Copy)]
pub enum Frame {
    /// The symbols of a rule, from `at` on.
    Rest {
        rule: Rule,
        at: usize,
        levels: u64,
    },
    /// Phrases of a series, in so many turns at most.
    More {
        series: Series,
        turns: usize,
        levels: u64,
    },
    /// The same, once the phrase on the top of the stack is joined to those below it.
    Join {
        series: Series,
        turns: usize,
        levels: u64,
    },
}

/// The frames of the phrases that were begun. Contracts see the innermost first.
#[derive(Drop)]
pub struct Control {
    /// The innermost at the end.
    frames: Items<Frame>,
}

impl Model for Control {
    ghost use Rattle.std.specs.Prelude.{List, reverse};
    ghost use Rattle.parse_driver.specs.declared.control.Frame as declared;

    ghost Value = { List declared.Frame };

    ghost view = { λ c. reverse c.frames };
}

impl Control {
    /// With no frames.
    pub fn new(alloc: Global) -> Control
        ensures { result ≡ [] }
    {
        Control {
            frames: Items::new(alloc),
        }
    }

    /// Begins a frame inside the others.
    pub fn push(&mut self, frame: Frame) -> Result<(), AllocError>
        ensures { OnOk result (self.new ≡ frame ∷ self.old) }
    {
        self.frames.push(frame)
    }

    /// Takes the innermost frame.
    pub fn pop(&mut self) -> Option<Frame>
        ensures { Pops result self.old self.new }
    {
        self.frames.pop()
    }
}
