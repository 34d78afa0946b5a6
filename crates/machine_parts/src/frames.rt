//! Frames that lie one on the other in one vector of words.
ghost use Rattle.std.specs.Prelude.{◌+◌, ◌^◌, ◌++◌, map, nat_le, drop, take, false, ◌≡◌, ◌≤◌, ◌<◌, true, suc, [], ◌∷◌, length, slice_get, slice_set, MatchOption, OnOk, OnErr, IsOk, IfOk};
ghost use Rattle.std.specs.Option.{option_copied};
ghost use Rattle.std.specs.Vec.{vec_capacity};
ghost use Rattle.code_meaning.specs.Machine.{depth_of, take_words};
ghost use Rattle.code_meaning.specs.Words.{start_of};
ghost use Rattle.code_meaning.specs.Sizes.{words_in};
ghost use Rattle.machine_parts.specs.Frames.{Enters, GivesBack, Leaves, at_line, with_turns};
ghost use Rattle.machine_parts.specs.Frames.{with_stack, with_words};
ghost use Rattle.object_values.specs.declared.object.Owner.TheVariants.{Script};

use code_meaning::Word;
use object_values::{Elements, Owner, Value};
use pl_code::Slot;
use std::alloc::{AllocError, Global};
use std::marker::Model;
use std::mem::{forget, replace};

/// A function that is being run.
#[derive(Clone, Copy)]
pub struct Held {
    pub text: Owner,
    pub fun: u32,
    pub line: usize,
    pub turns: u64,
    /// The place of its first local.
    pub base: usize,
    /// How many locals it has. Its operands lie behind them.
    pub locals: usize,
}

/// The frames of a run. Memory for so many words and so many frames is there from the start; what goes past it is taken as it comes.
#[derive(Drop)]
pub struct Frames {
    top: Held,
    below: Vec<Held>,
    words: Vec<Word>,
    /// For how many frames below the newest one there was memory at the start.
    room_frames: usize,
    /// For how many words.
    room_words: usize,
}

/// Memory for words and for frames, without any of them.
#[derive(Drop)]
pub struct FrameMemory {
    below: Vec<Held>,
    words: Vec<Word>,
}

impl FrameMemory {
    /// None yet.
    pub fn new(alloc: Global) -> FrameMemory {
        FrameMemory {
            below: Vec::new(alloc),
            words: Vec::new(alloc),
        }
    }
}

impl Model for Frames {
    ghost use Rattle.std.specs.Prelude.{◌∷◌, ◌≤◌, length, reverse, take};
    ghost use Rattle.std.specs.Vec.{vec_capacity};
    ghost use Rattle.machine_parts.specs.Frames.{Laid, Wait, Within, own, lie};
    ghost use Rattle.std.specs.Coded.{codes};
    ghost use Rattle.pl_types.specs.contracts.ty.Ty as ty;

    ghost Value = { Laid };

    ghost coded = { Prim.hlevel (codes, ty.the_row.coded) };

    ghost view = { λ s. record { top = own s.top s.words.items; below = lie (reverse s.below.items) (take s.top.base s.words.items); count = length s.words.items; words = s.room_words; depth = s.room_frames } };

    ghost invariant = { λ s. Within (s.top ∷ reverse s.below.items) (length s.words.items) × Wait (reverse s.below.items) × (s.room_words ≤ vec_capacity s.words) × (s.room_frames ≤ vec_capacity s.below) };
}

impl Frames {
    /// A first frame, of the script's function 0, with these locals, and behind them the others. There is memory for so many frames
    /// below another, and for so many words: that which is given, and what it lacks is taken.
    #[tactic(auto, using(crate::proofs::Places::all_locals, crate::proofs::Places::no_words))]
    pub fn start(
        memory: FrameMemory,
        args: Elements<Word>,
        slots: &[Slot],
        depth: usize,
        words: usize,
    ) -> Result<Frames, AllocError>
        ensures top { IfOk result (λ frames. frames.top ≡ record { text = Script; fun = 0; line = 0; locals = args ++ map start_of slots.now; stack = []; turns = 0; due = [] }) }
        ensures below { IfOk result (λ frames. frames.below ≡ []) }
        ensures words { IfOk result (λ frames. words ≤ frames.words) }
        ensures depth { IfOk result (λ frames. depth ≤ frames.depth) }
    {
        let room_words = words;
        let mut args = args.into_vec();
        let FrameMemory {
            mut below,
            mut words,
        } = memory;
        below.clear();
        below.reserve(depth)?;
        words.clear();
        words.reserve(room_words)?;
        words.append(&mut args)?;
        push_starts(&mut words, slots)?;
        let locals = words.len();
        let top = Held {
            text: Owner::Script,
            fun: 0,
            line: 0,
            turns: 0,
            base: 0,
            locals,
        };
        Ok(Frames {
            top,
            below,
            words,
            room_frames: depth,
            room_words,
        })
    }

    /// Frames without words and memory, which stand where others were taken from.
    pub fn none(alloc: Global) -> Frames {
        Frames {
            top: Held {
                text: Owner::Script,
                fun: 0,
                line: 0,
                turns: 0,
                base: 0,
                locals: 0,
            },
            below: Vec::new(alloc),
            words: Vec::new(alloc),
            room_frames: 0,
            room_words: 0,
        }
    }

    /// The memory of all frames, which are dropped.
    pub fn into_memory(self) -> FrameMemory {
        let Frames {
            top: _top,
            mut below,
            mut words,
            room_frames: _room_frames,
            room_words: _room_words,
        } = self;
        below.clear();
        words.clear();
        FrameMemory { below, words }
    }

    /// Puts an operand on the newest frame's.
    #[inline(always)]
    #[tactic(auto)]
    pub fn push(&mut self, word: Word) -> Result<(), AllocError>
        ensures stack { OnOk result (self.new.top.stack ≡ word ∷ self.old.top.stack) }
        ensures top { self.new.top ≡ with_stack self.old.top self.new.top.stack }
        ensures below { self.new.below ≡ self.old.below }
        ensures count { OnOk result (self.new.count ≡ suc self.old.count) }
        ensures words { self.new.words ≡ self.old.words }
        ensures depth { self.new.depth ≡ self.old.depth }
        ensures full { OnErr result (self.old.words ≤ self.old.count) }
    {
        if self.words.len() < self.words.capacity() {
            self.words.push_reserved(word);
            return Ok(());
        }
        match self.words.push(word) {
            Ok(()) => Ok(()),
            Err(_) => Err(AllocError),
        }
    }

    /// Takes the newest frame's upper operand.
    #[inline(always)]
    pub fn pop(&mut self) -> Option<Word>
        ensures stack { MatchOption result ((self.old.top.stack ≡ []) × (self.new.top.stack ≡ [])) (λ word. self.old.top.stack ≡ word ∷ self.new.top.stack) }
        ensures top { self.new.top ≡ with_stack self.old.top self.new.top.stack }
        ensures below { self.new.below ≡ self.old.below }
        ensures count { MatchOption result (self.new.count ≡ self.old.count) (λ word. self.old.count ≡ suc self.new.count) }
        ensures room { self.old.count ≤ self.old.words → MatchOption result (Unit {0}) (λ word. self.new.count < self.new.words) }
        ensures words { self.new.words ≡ self.old.words }
        ensures depth { self.new.depth ≡ self.old.depth }
    {
        if self.words.len() <= self.top.base + self.top.locals {
            return None;
        }
        self.words.pop()
    }

    /// The local of this number in the newest frame.
    #[inline(always)]
    pub fn local(&self, number: usize) -> Option<&Word>
        ensures { option_copied result ≡ slice_get self.now.top.locals number }
    {
        if number >= self.top.locals {
            return None;
        }
        self.words.get(self.top.base + number)
    }

    /// The newest frame's upper operand, which stays.
    #[inline(always)]
    #[tactic(auto, using(crate::proofs::Places::upper, crate::proofs::Places::none_upper))]
    pub fn upper(&self) -> Option<&Word>
        ensures { option_copied result ≡ slice_get self.now.top.stack 0 }
    {
        let count = self.words.len();
        if count <= self.top.base + self.top.locals {
            return None;
        }
        self.words.get(count - 1)
    }

    /// Writes a local of the newest frame. Where there is none of this number nothing changes. What is written over owns nothing, unless
    /// it is a text, and is not read.
    #[inline(always)]
    #[tactic(auto, using(crate::proofs::Places::written, crate::proofs::Places::stack_stays, crate::proofs::Places::rest_stays))]
    pub fn store(&mut self, number: usize, word: Word)
        ensures top { self.new.top ≡ with_words self.old.top self.new.top.locals self.new.top.stack }
        ensures locals { self.new.top.locals ≡ slice_set self.old.top.locals number word }
        ensures stack { self.new.top.stack ≡ self.old.top.stack }
        ensures below { self.new.below ≡ self.old.below }
        ensures words { self.new.words ≡ self.old.words }
        ensures depth { self.new.depth ≡ self.old.depth }
    {
        if number >= self.top.locals {
            return;
        }
        let place = self.top.base + number;
        match &self.words[place] {
            Word::R(Value::Str(_)) => self.words[place] = word,
            _ => forget(replace(&mut self.words[place], word)),
        }
    }

    /// Puts a number on the newest frame's operands and goes on at a line, where there is memory for it. Else nothing changes.
    #[inline(always)]
    #[tactic(auto)]
    pub fn put(&mut self, word: Word, line: usize) -> bool
        ensures done { result ≡ true → self.new.top ≡ at_line (with_stack self.old.top (word ∷ self.old.top.stack)) line }
        ensures full { result ≡ false → self.new.top ≡ self.old.top }
        ensures below { self.new.below ≡ self.old.below }
        ensures words { self.new.words ≡ self.old.words }
        ensures depth { self.new.depth ≡ self.old.depth }
    {
        if self.words.len() < self.words.capacity() {
            self.words.push_reserved(word);
            self.top.line = line;
            return true;
        }
        false
    }

    /// The operand below the upper one, which stays.
    #[inline(always)]
    #[tactic(auto, using(crate::proofs::Places::lower, crate::proofs::Places::none_lower))]
    pub fn lower(&self) -> Option<&Word>
        ensures { option_copied result ≡ slice_get self.now.top.stack 1 }
    {
        let count = self.words.len();
        if count - self.top.base - self.top.locals < 2 {
            return None;
        }
        self.words.get(count - 2)
    }

    /// Takes the upper operand off, which is a number and owns nothing, and goes on at a line.
    #[inline(always)]
    #[tactic(auto, using(crate::proofs::Places::left_below))]
    pub fn drop_number(&mut self, line: usize)
        ensures top { self.new.top ≡ at_line (with_stack self.old.top (drop 1 self.old.top.stack)) line }
        ensures below { self.new.below ≡ self.old.below }
        ensures words { self.new.words ≡ self.old.words }
        ensures depth { self.new.depth ≡ self.old.depth }
    {
        forget(self.pop());
        self.top.line = line;
    }

    /// Writes a number in the place of the upper operand, which is a number, and goes on at a line.
    #[inline(always)]
    #[tactic(auto, using(crate::proofs::Places::upper_written, crate::proofs::Places::locals_below, crate::proofs::Places::rest_below, crate::proofs::Entering::height_is))]
    pub fn write_upper(&mut self, word: Word, line: usize)
        requires { 0 < length self.old.top.stack }
        ensures top { self.new.top ≡ at_line (with_stack self.old.top (word ∷ drop 1 self.old.top.stack)) line }
        ensures below { self.new.below ≡ self.old.below }
        ensures words { self.new.words ≡ self.old.words }
        ensures depth { self.new.depth ≡ self.old.depth }
    {
        let place = self.words.len() - 1;
        forget(replace(&mut self.words[place], word));
        self.top.line = line;
    }

    /// Takes the upper operand off, which may be a text, and goes on at a line.
    #[inline(always)]
    #[tactic(auto, using(crate::proofs::Places::left_below))]
    pub fn let_go(&mut self, line: usize)
        ensures top { self.new.top ≡ at_line (with_stack self.old.top (drop 1 self.old.top.stack)) line }
        ensures below { self.new.below ≡ self.old.below }
        ensures words { self.new.words ≡ self.old.words }
        ensures depth { self.new.depth ≡ self.old.depth }
    {
        let _word = self.pop();
        self.top.line = line;
    }

    /// Writes a word in the place of the upper operand, which may be a text, and goes on at a line.
    #[inline(always)]
    #[tactic(auto, using(crate::proofs::Places::upper_written, crate::proofs::Places::locals_below, crate::proofs::Places::rest_below, crate::proofs::Entering::height_is))]
    pub fn replace_upper(&mut self, word: Word, line: usize)
        requires { 0 < length self.old.top.stack }
        ensures top { self.new.top ≡ at_line (with_stack self.old.top (word ∷ drop 1 self.old.top.stack)) line }
        ensures below { self.new.below ≡ self.old.below }
        ensures words { self.new.words ≡ self.old.words }
        ensures depth { self.new.depth ≡ self.old.depth }
    {
        let place = self.words.len() - 1;
        self.words[place] = word;
        self.top.line = line;
    }

    /// Takes all operands of the newest frame off.
    #[tactic(auto, using(crate::proofs::Places::locals_stay, crate::proofs::Places::no_stack, crate::proofs::Places::rest_stay))]
    pub fn clear(&mut self)
        ensures top { self.new.top ≡ with_stack self.old.top [] }
        ensures count { self.new.count ≤ self.old.count }
        ensures below { self.new.below ≡ self.old.below }
        ensures words { self.new.words ≡ self.old.words }
        ensures depth { self.new.depth ≡ self.old.depth }
    {
        self.words.truncate(self.top.base + self.top.locals);
    }

    /// Sets the line of the newest frame.
    #[inline(always)]
    pub fn set_line(&mut self, line: usize)
        ensures top { self.new.top ≡ at_line self.old.top line }
        ensures below { self.new.below ≡ self.old.below }
        ensures words { self.new.words ≡ self.old.words }
        ensures depth { self.new.depth ≡ self.old.depth }
    {
        self.top.line = line;
    }

    /// Sets how many turns the newest frame has had.
    #[inline(always)]
    pub fn set_turns(&mut self, turns: u64)
        ensures top { self.new.top ≡ with_turns self.old.top turns }
        ensures below { self.new.below ≡ self.old.below }
        ensures words { self.new.words ≡ self.old.words }
        ensures depth { self.new.depth ≡ self.old.depth }
    {
        self.top.turns = turns;
    }

    /// The function of the newest frame.
    #[inline(always)]
    pub fn fun(&self) -> u32
        ensures { result ≡ self.now.top.fun }
    {
        self.top.fun
    }

    /// In which text the function of the newest frame stands.
    #[inline(always)]
    pub fn text(&self) -> Owner
        ensures { result ≡ self.now.top.text }
    {
        self.top.text
    }

    /// The line of the newest frame.
    #[inline(always)]
    pub fn line(&self) -> usize
        ensures { result ≡ self.now.top.line }
    {
        self.top.line
    }

    /// How many turns the newest frame has had.
    #[inline(always)]
    pub fn turns(&self) -> u64
        ensures { result ≡ self.now.top.turns }
    {
        self.top.turns
    }

    /// How many frames there are below the newest one.
    #[inline(always)]
    #[tactic(auto, using(crate::proofs::Places::frames_below))]
    pub fn depth(&self) -> usize
        ensures { result ≡ depth_of self.now.below }
    {
        self.below.len()
    }

    /// Drops the newest frame with its words, if there is one below it. That one waits at a line behind which there is a number for
    /// the next one.
    pub fn leave(&mut self) -> bool
        ensures due { self.old.top.due ≡ [] }
        ensures frames { Leaves self.old.top self.old.below self.new.top self.new.below result }
        ensures waits { result ≡ true → suc self.new.top.line < 2 ^ 64 }
        ensures count { self.new.count ≤ self.old.count }
        ensures words { self.new.words ≡ self.old.words }
        ensures depth { self.new.depth ≡ self.old.depth }
    {
        match self.below.pop() {
            Some(held) => {
                self.words.truncate(self.top.base);
                self.top = held;
                true
            }
            None => false,
        }
    }

    /// Whether the newest frame has so many operands.
    #[inline(always)]
    #[tactic(auto, using(crate::proofs::Entering::height_is))]
    pub fn has(&self, count: usize) -> bool
        ensures { result ≡ nat_le count (length self.now.top.stack) }
    {
        count <= self.words.len() - self.top.base - self.top.locals
    }

    /// The words are those of the frames: nothing else lies among them. (This does nothing. Its contract is a law.)
    #[inline(always)]
    #[tactic(auto, using(crate::proofs::Places::all_counted))]
    pub fn are_counted(&self)
        ensures { self.now.count ≡ words_in (self.now.top ∷ self.now.below) }
    {
        let _count = self.words.len();
    }

    /// A new frame of a function, whose first locals are so many operands of the newest frame. The others begin with these.
    #[tactic(auto, using(crate::proofs::Places::frames_below))]
    pub fn enter(&mut self, fun: u32, params: usize, slots: &[Slot]) -> Result<(), AllocError>
        requires { params ≤ length self.old.top.stack }
        ensures frame { OnOk result (Enters (take_words params self.old.top.stack []) fun slots.now self.old.top self.old.below self.new.top self.new.below) }
        ensures words { self.new.words ≡ self.old.words }
        ensures depth { self.new.depth ≡ self.old.depth }
        ensures memory { self.old.count + length slots.now ≤ self.old.words → depth_of self.old.below < self.old.depth → suc self.old.top.line < 2 ^ 64 → IsOk result }
    {
        if self.top.line == usize::MAX {
            return Err(AllocError);
        }
        let base = self.words.len() - params;
        push_starts(&mut self.words, slots)?;
        self.below.push(self.top)?;
        self.top = Held {
            text: self.top.text,
            fun,
            line: 0,
            turns: 0,
            base,
            locals: params + slots.len(),
        };
        Ok(())
    }

    /// A new frame as by [`Frames::enter`], where there are so many operands, and memory for it. Else nothing changes.
    #[inline(always)]
    #[tactic(auto, using(crate::proofs::Places::frames_below))]
    pub fn enter_reserved(&mut self, fun: u32, params: usize, slots: &[Slot]) -> bool
        ensures done { result ≡ true → Enters (take_words params self.old.top.stack []) fun slots.now self.old.top self.old.below self.new.top self.new.below }
        ensures top { result ≡ false → self.new.top ≡ self.old.top }
        ensures below { result ≡ false → self.new.below ≡ self.old.below }
        ensures words { self.new.words ≡ self.old.words }
        ensures depth { self.new.depth ≡ self.old.depth }
    {
        let count = self.words.len();
        let room = self.words.capacity();
        if self.top.line == usize::MAX {
            return false;
        }
        if count - self.top.base - self.top.locals < params {
            return false;
        }
        if room < count || room - count < slots.len() {
            return false;
        }
        if self.below.len() >= self.below.capacity() {
            return false;
        }
        put_starts(&mut self.words, slots);
        self.below.push_reserved(self.top);
        self.top = Held {
            text: self.top.text,
            fun,
            line: 0,
            turns: 0,
            base: count - params,
            locals: params + slots.len(),
        };
        true
    }

    /// Drops the newest frame with its words, if there is one below it. A word goes on that one's operands, which goes on to its next
    /// line. Else nothing changes.
    #[inline(always)]
    pub fn give_back(&mut self, word: Word) -> bool
        ensures due { self.old.top.due ≡ [] }
        ensures frames { GivesBack word self.old.top self.old.below self.new.top self.new.below result }
        ensures words { self.new.words ≡ self.old.words }
        ensures depth { self.new.depth ≡ self.old.depth }
    {
        let base = self.top.base;
        if base >= self.words.capacity() {
            return false;
        }
        match self.below.pop() {
            Some(held) => {
                cut(&mut self.words, base);
                self.words.push_reserved(word);
                self.top = Held {
                    text: held.text,
                    fun: held.fun,
                    line: held.line + 1,
                    turns: held.turns,
                    base: held.base,
                    locals: held.locals,
                };
                true
            }
            None => false,
        }
    }
}

// What a local of a kind begins with.
#[inline(always)]
fn start_of(slot: Slot) -> Word
    ensures { result ≡ start_of slot }
{
    match slot {
        Slot::I => Word::I(0),
        Slot::J => Word::J(0),
        Slot::R => Word::R(Value::Null),
    }
}

// What locals begin with, behind words that are there.
fn push_starts(words: &mut Vec<Word>, slots: &[Slot]) -> Result<(), AllocError>
    ensures ok { OnOk result (words.new.items ≡ words.old.items ++ map start_of slots.now) }
    ensures grows { length words.old.items ≤ length words.new.items }
    ensures room { vec_capacity words.old ≤ vec_capacity words.new }
    ensures memory { length words.old.items + length slots.now ≤ vec_capacity words.old → IsOk result }
{
    for slot in slots {
        words.push(start_of(*slot))?;
    }
    Ok(())
}

// The same where there is memory for it.
#[inline(always)]
fn put_starts(words: &mut Vec<Word>, slots: &[Slot])
    requires { length words.old.items + length slots.now ≤ vec_capacity words.old }
    ensures items { words.new.items ≡ words.old.items ++ map start_of slots.now }
    ensures room { vec_capacity words.new ≡ vec_capacity words.old }
{
    for slot in slots {
        words.push_reserved(start_of(*slot));
    }
}

// Drops the words behind so many.
#[inline(always)]
fn cut(words: &mut Vec<Word>, count: usize)
    ensures items { words.new.items ≡ take count words.old.items }
    ensures room { vec_capacity words.new ≡ vec_capacity words.old }
{
    'words: while words.len() > count {
        match &words[words.len() - 1] {
            Word::R(_) => {
                let _word = words.pop();
            }
            _ => forget(words.pop()),
        }
    }
}
