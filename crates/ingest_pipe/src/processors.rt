//! Processors, and pipelines of them.

ghost use Rattle.std.specs.Prelude.{◌≡◌};

use crate::literal::Literal;
use crate::scripts::PipeScript;
use pipe_fields::{Field, Place, WhenMissing, WhenThere};
use plain_data::{Boxed, Items, Text};

/// What follows where a processor fails.
#[derive(Clone, Copy)]
pub enum Follows {
    /// Its failure is the pipeline's.
    Fails,
    /// The next processor.
    Ignored,
    /// Its list for failures, and behind that the next processor.
    Recovers,
}

/// When a processor acts, and what follows where it fails.
#[derive(Clone, Copy)]
pub struct Guard {
    /// The script that has to hold of the document, by its place among the pipeline's scripts.
    pub test: Option<usize>,
    pub follows: Follows,
}

/// What a processor does.
pub enum Action {
    /// The script of this place among the pipeline's scripts changes the document.
    Script(usize),
    /// A value is put at a place.
    Set(Place, Literal, WhenThere),
    /// A field is taken out.
    Remove(Field, WhenMissing),
    /// A field is taken out, and its value put at a target.
    Rename(Field, Field, WhenMissing),
    /// The pipeline ends, and the document is dropped.
    Drop,
    /// It fails with this message.
    Fail(Text),
}

/// A list of processors. Each has a list for its failure, and then the rest of the list.
#[derive(Drop)]
pub enum Processors {
    End,
    Then(Guard, Action, Boxed<Processors>, Boxed<Processors>),
}

/// A pipeline: its processors, and their scripts in the order in which they are met. Contracts see it as plain data.
pub struct Pipeline {
    pub processors: Processors,
    pub scripts: Items<PipeScript>,
}

impl Drop for Action {
    fn drop(self) {
        match self {
            Action::Script(_) => {}
            Action::Set(_place, _value, _) => {}
            Action::Remove(_field, _) => {}
            Action::Rename(_field, _target, _) => {}
            Action::Drop => {}
            Action::Fail(_message) => {}
        }
    }
}

impl Drop for Pipeline {
    fn drop(self) {
        let Pipeline {
            processors: _processors,
            scripts: _scripts,
        } = self;
    }
}

impl Pipeline {
    /// The scripts, in the order in which they are met.
    pub fn scripts(&self) -> &[PipeScript]
        ensures { result.now ≡ self.now.scripts }
    {
        self.scripts.as_slice()
    }
}
