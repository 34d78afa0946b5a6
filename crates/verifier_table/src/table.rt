//! A stack, and what leads to each line.

ghost use Rattle.std.specs.Prelude.{◌≡◌, ◌<◌, [], ◌∷◌, true, length, IfOk, OnOk, MatchOption, replicate, slice_index_or, slice_set, if◌then◌else◌, Some, None};
ghost use Rattle.verifier_table.specs.Shapes.{Nowhere, meets, known_of};
ghost use Rattle.verifier_table.specs.Nodes.{stack_at, seen_place, is_within};
ghost use Rattle.verifier_table.specs.Windows.{numeral_of};
ghost use Rattle.instruction_types.specs.Effects.{taken};
ghost use Rattle.pl_code.specs.declared.kinds.Slot.{Slot as SlotData};
ghost use Rattle.std.specs.Prelude.{List};

use crate::node::Place;
use crate::stacks::Stacks;
use pl_code::Slot;
use std::alloc::{AllocError, Global};
use std::marker::Model;

/// A stack of kinds, and for each line what leads to it. Equal stacks are kept once, so what is done with one takes the same
/// time however deep it is.
#[derive(Drop)]
pub struct ShapeTable {
    stacks: Stacks,
    top: usize,
    places: Vec<Place>,
}

impl Model for ShapeTable {
    ghost use Rattle.std.specs.Prelude.{◌<◌, length, map};
    ghost use Rattle.verifier_table.specs.Shapes.{Table};
    ghost use Rattle.verifier_table.specs.Nodes.{stack_at, seen_place, AreWithin};

    ghost Value = { Table };

    ghost view = { λ t. record { stack = stack_at t.stacks t.top; lines = map (seen_place t.stacks) t.places.items } };

    ghost invariant = { λ t. (t.top < length t.stacks) × AreWithin (length t.stacks) t.places.items };
}

impl ShapeTable {
    /// Nothing on the stack, and nothing that leads to any of so many lines.
    pub fn new(alloc: Global, lines: usize) -> Result<ShapeTable, AllocError>
        ensures { IfOk result (λ table. table ≡ record { stack = []; lines = replicate lines Nowhere }) }
    {
        let stacks = Stacks::new(alloc)?;
        let places = vec![in alloc; Place::Nowhere; lines]?;
        Ok(ShapeTable {
            stacks,
            top: 0,
            places,
        })
    }

    /// Takes everything off the stack.
    pub fn clear(&mut self)
        ensures { self.new ≡ record { stack = []; lines = self.old.lines } }
    {
        self.top = self.stacks.empty();
    }

    /// How many kinds lie on the stack. It takes the same time however many do.
    pub fn height(&self) -> usize
        ensures { result ≡ length self.now.stack }
    {
        self.stacks.height(self.top)
    }

    /// Takes the top off. `None` where nothing lies there.
    pub fn take(&mut self) -> Option<Slot>
        ensures stack { MatchOption result ((self.old.stack ≡ []) × (self.new.stack ≡ [])) (λ kind. self.old.stack ≡ kind ∷ self.new.stack) }
        ensures lines { self.new.lines ≡ self.old.lines }
    {
        let (kind, below) = self.stacks.top(self.top)?;
        self.top = below;
        Some(kind)
    }

    /// Takes 31 kinds off that have this number, in one step. `false` where others lie there, or fewer.
    pub fn take_window(&mut self, window: u64) -> bool
        ensures stack { (kinds : List SlotData) → length kinds ≡ 31 → window ≡ numeral_of kinds → (if result then Some self.new.stack else None) ≡ taken kinds self.old.stack }
        ensures lines { self.new.lines ≡ self.old.lines }
    {
        match self.stacks.under(self.top, window) {
            None => false,
            Some(under) => {
                self.top = under;
                true
            }
        }
    }

    /// Puts a kind on the stack.
    pub fn put(&mut self, kind: Slot) -> Result<(), AllocError>
        ensures { OnOk result (self.new ≡ record { stack = kind ∷ self.old.stack; lines = self.old.lines }) }
    {
        self.top = self.stacks.with(self.top, kind)?;
        Ok(())
    }

    /// Puts on the stack what stands at a line, in place of what lies there. `false` where no one list of kinds does.
    pub fn stand(&mut self, line: usize) -> bool
        ensures stack { (if result then Some self.new.stack else None) ≡ known_of (slice_index_or self.old.lines line Nowhere) }
        ensures lines { self.new.lines ≡ self.old.lines }
    {
        match self.places.get(line) {
            Some(Place::Known(at)) => {
                self.top = *at;
                true
            }
            _ => false,
        }
    }

    /// What lies on the stack leads to a line: it is merged into what stands there.
    pub fn merge(&mut self, line: usize)
        ensures { self.new ≡ record { stack = self.old.stack; lines = slice_set self.old.lines line (meets (slice_index_or self.old.lines line Nowhere) self.old.stack) } }
    {
        match self.places.get(line) {
            None => {}
            Some(place) => {
                let met = meeting(&self.stacks, self.top, *place);
                self.places[line] = met;
            }
        }
    }
}

/// What stands at a line to which one more leads with the stack at a place.
fn meeting(stacks: &Stacks, top: usize, before: Place) -> Place
    requires top { top < length stacks.now }
    requires before { is_within (length stacks.now) before ≡ true }
    ensures seen { seen_place stacks.now result ≡ meets (seen_place stacks.now before) (stack_at stacks.now top) }
    ensures within { is_within (length stacks.now) result ≡ true }
{
    match before {
        Place::Nowhere => Place::Known(top),
        Place::Known(at) => {
            if stacks.is_same(at, top) {
                Place::Known(at)
            } else {
                Place::Torn
            }
        }
        Place::Torn => Place::Torn,
    }
}
