//! Where a run stands.
ghost use Rattle.std.specs.Prelude.{◌≡◌, ◌<◌, ◌^◌, suc, ◌∷◌};
ghost use Rattle.code_meaning.specs.Machine.{to_line};
ghost use Rattle.machine.specs.Seen.{Comes, end_in, given_word, goes, room_of, world_of};
ghost use Rattle.machine.specs.Memory.{HasMemory};

use code_meaning::Word;
use machine_parts::{Frames, Values, Words, World};
use object_heap::Which;

/// What a run may take.
#[derive(Clone, Copy, Debug, PartialEq, Eq)]
pub struct Limits {
    /// Turns of one frame.
    pub loops: u64,
    /// Frames on top of one another, the first left out. Memory for so many is taken at the start of a run, up to a bound.
    pub depth: u32,
    /// Calls and turns that are paid.
    pub ticks: u64,
}

/// A run between two instructions.
#[derive(Drop)]
pub struct Configuration {
    /// The newest frame, and those below it, which wait for what it gives.
    pub frames: Frames,
    pub world: World,
    /// The words that a call of a member takes off the operands, the deepest on the top. Each call fills it anew.
    pub words: Words,
    /// What a call of a member is called with. Each call fills it anew.
    pub values: Values,
    /// How the run has ended, once an instruction has said that it ends. Before, nothing is said of it.
    pub end: RunEnd,
}

/// How a run ends.
pub enum RunEnd {
    /// It gives this, or nothing.
    Result(Option<Word>),
    /// An exception was thrown.
    Thrown {
        /// Its number.
        id: u32,
        /// The byte of the script's text at which it arose, where it is told.
        place: Option<u32>,
    },
    /// A limit would be passed.
    Limit {
        /// Which one.
        limit: Which,
        /// The byte of the script's text at which it arose, where it is told.
        place: Option<u32>,
    },
    /// No instruction fits where it stands. Code that was verified never comes here.
    Stuck,
}

impl Drop for RunEnd {
    fn drop(self) {
        match self {
            RunEnd::Result(_word) => {}
            RunEnd::Thrown {
                id: _id,
                place: _place,
            } => {}
            RunEnd::Limit {
                limit: _limit,
                place: _place,
            } => {}
            RunEnd::Stuck => {}
        }
    }
}

impl RunEnd {
    /// The word that a run gives, if it gives one.
    pub fn into_word(self) -> Option<Word>
        ensures { result ≡ given_word self }
    {
        match self {
            RunEnd::Result(word) => word,
            RunEnd::Thrown {
                id: _id,
                place: _place,
            } => None,
            RunEnd::Limit {
                limit: _limit,
                place: _place,
            } => None,
            RunEnd::Stuck => None,
        }
    }
}

/// What comes of an instruction. It lies in a register: how a run ends stands in its configuration.
#[derive(Clone, Copy)]
pub enum Step {
    /// The run goes on.
    Goes,
    /// The run has ended as its configuration tells.
    Ends,
    /// No instruction fits where the run stands.
    Stuck,
    /// There was no memory. Nothing is said of the run.
    NoMemory,
}

impl Step {
    /// Whether the run goes on.
    #[inline(always)]
    pub(crate) fn goes(self) -> bool
        ensures { result ≡ goes self }
    {
        matches!(self, Step::Goes)
    }

    /// The end, where the run has ended: this one, if the configuration tells it.
    pub(crate) fn end(self, told: RunEnd) -> Option<RunEnd>
        ensures { result ≡ end_in self told }
    {
        match self {
            Step::Goes => None,
            Step::Ends => Some(told),
            Step::Stuck => Some(RunEnd::Stuck),
            Step::NoMemory => None,
        }
    }
}

impl Configuration {
    // On to the next line. No code has so many lines that there is no number for it.
    #[inline(always)]
    pub(crate) fn goes_on(&mut self) -> Step
        ensures exact { Comes (to_line self.old.frames.top self.old.frames.below (world_of self.old.world) (suc self.old.frames.top.line) self.old.frames.top.stack) result self.new }
        ensures memory { suc self.old.frames.top.line < 2 ^ 64 → HasMemory result }
        ensures room { room_of self.new ≡ room_of self.old }
        ensures heap { self.new.world.heap ≡ self.old.world.heap }
    {
        match self.frames.line().checked_add(1) {
            Some(line) => {
                self.frames.set_line(line);
                Step::Goes
            }
            None => Step::NoMemory,
        }
    }

    // Puts a word on the stack, and on to the next line.
    #[inline(always)]
    pub(crate) fn push(&mut self, word: Word) -> Step
        ensures exact { Comes (to_line self.old.frames.top self.old.frames.below (world_of self.old.world) (suc self.old.frames.top.line) (word ∷ self.old.frames.top.stack)) result self.new }
        ensures memory { self.old.frames.count < self.old.frames.words → suc self.old.frames.top.line < 2 ^ 64 → HasMemory result }
        ensures room { room_of self.new ≡ room_of self.old }
        ensures heap { self.new.world.heap ≡ self.old.world.heap }
    {
        match self.frames.push(word) {
            Ok(()) => self.goes_on(),
            Err(_) => Step::NoMemory,
        }
    }

    // To a line.
    #[inline(always)]
    pub(crate) fn goes_to(&mut self, line: u32) -> Step
        ensures exact { Comes (to_line self.old.frames.top self.old.frames.below (world_of self.old.world) line self.old.frames.top.stack) result self.new }
        ensures memory { HasMemory result }
        ensures room { room_of self.new ≡ room_of self.old }
    {
        self.frames.set_line(line as usize);
        Step::Goes
    }
}
