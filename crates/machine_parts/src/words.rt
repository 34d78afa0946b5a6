//! Words that were taken off the operands.
ghost use Rattle.std.specs.Prelude.{◌≡◌, ◌≤◌, ◌<◌, [], ◌∷◌, length, MatchOption, OnOk, IsOk, IfOk};

use code_meaning::Word;
use std::alloc::AllocError;
use std::marker::Model;

/// Words, the top first, which contracts see as their list from the top down, with how many there is memory for.
#[derive(Drop)]
pub struct Words {
    items: Vec<Word>,
    room: usize,
}

impl Model for Words {
    ghost use Rattle.std.specs.Prelude.{◌≤◌, reverse};
    ghost use Rattle.std.specs.Vec.{vec_capacity};
    ghost use Rattle.machine_parts.specs.Rooms.{TakenWords};
    ghost use Rattle.std.specs.Coded.{codes};
    ghost use Rattle.pl_types.specs.contracts.ty.Ty as ty;

    ghost Value = { TakenWords };

    ghost coded = { Prim.hlevel (codes, ty.the_row.coded) };

    ghost view = { λ s. record { items = reverse s.items.items; room = s.room } };

    ghost invariant = { λ s. s.room ≤ vec_capacity s.items };
}

impl Words {
    /// No words, and memory for so many: that of these, which are dropped, and what it lacks is taken.
    pub fn with_room(items: Vec<Word>, room: usize) -> Result<Words, AllocError>
        ensures empty { IfOk result (λ words. words.items ≡ []) }
        ensures room { IfOk result (λ words. words.room ≡ room) }
    {
        let mut items = items;
        items.clear();
        items.reserve(room)?;
        Ok(Words { items, room })
    }

    /// The memory of the words, which are dropped.
    pub fn into_memory(self) -> Vec<Word> {
        let Words {
            mut items,
            room: _room,
        } = self;
        items.clear();
        items
    }

    /// How many words there are.
    pub fn len(&self) -> usize
        ensures { result ≡ length self.now.items }
    {
        self.items.len()
    }

    /// Takes the top off, or gives `None` where there is none.
    pub fn pop(&mut self) -> Option<Word>
        ensures top { MatchOption result ((self.old.items ≡ []) × (self.new.items ≡ [])) (λ top. self.old.items ≡ top ∷ self.new.items) }
        ensures room { self.new.room ≡ self.old.room }
    {
        self.items.pop()
    }

    /// Drops all words. The memory stays.
    pub fn clear(&mut self)
        ensures items { self.new.items ≡ [] }
        ensures room { self.new.room ≡ self.old.room }
    {
        self.items.clear();
    }

    /// Puts a word on the top.
    #[tactic(auto, using(crate::proofs::Places::reversed_length))]
    pub fn push(&mut self, word: Word) -> Result<(), AllocError>
        ensures ok { OnOk result (self.new.items ≡ word ∷ self.old.items) }
        ensures room { self.new.room ≡ self.old.room }
        ensures memory { length self.old.items < self.old.room → IsOk result }
    {
        self.items.push(word)?;
        Ok(())
    }
}
