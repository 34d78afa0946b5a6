//! What typing has so far.

ghost use Rattle.typing_actions.specs.Stacks.{TakesPart, PutsPart, PutsStep, PutsBuilt, PutsTest};

use crate::stack::{put, put_given, take_top};
use pl_types::Fail;
use plain_data::Subtree;
use plain_stack::Stack;
use std::alloc::AllocError;
use typed_tree::{Typed, TypedVariable};
use typing_rules::{Caught, Part, Place, State, Step};

/// What typing has so far: what is known, and the parts that are typed and wait for their node.
pub struct Config {
    pub state: State,
    pub parts: Stack<Part>,
    pub places: Stack<Place>,
    /// Tests, updates and first values, which are cast; some are missing.
    pub tests: Stack<Option<Subtree<Typed>>>,
    pub variables: Stack<TypedVariable>,
    pub steps: Stack<Step>,
    /// Those of a `try` whose other parts are not typed yet.
    pub catches: Stack<Caught>,
}

impl Drop for Config {
    fn drop(self) {
        let Config {
            state: _state,
            parts: _parts,
            places: _places,
            tests: _tests,
            variables: _variables,
            steps: _steps,
            catches: _catches,
        } = self;
    }
}

impl Config {
    /// Takes the top of the parts off, as an act begins.
    pub(crate) fn take_part(&mut self) -> Result<Part, Fail>
        ensures { TakesPart self.old self.new result }
    {
        take_top(&mut self.parts)
    }

    /// Puts the part that a rule gives on the parts, as an act ends, or passes on what the rule refuses.
    pub(crate) fn put_part(&mut self, given: Result<Part, Fail>) -> Result<(), Fail>
        ensures { PutsPart given self.old result self.new }
    {
        put_given(&mut self.parts, given)
    }

    /// The same of a step.
    pub(crate) fn put_step(&mut self, given: Result<Step, Fail>) -> Result<(), Fail>
        ensures { PutsStep given self.old result self.new }
    {
        put_given(&mut self.steps, given)
    }

    /// The same of a step whose rule refuses nothing.
    pub(crate) fn put_built(&mut self, built: Result<Step, AllocError>) -> Result<(), Fail>
        ensures { PutsBuilt built self.old result self.new }
    {
        match built {
            Ok(step) => put(&mut self.steps, step),
            Err(_) => Err(Fail::NoMemory),
        }
    }

    /// The same of a test.
    pub(crate) fn put_test(&mut self, given: Result<Subtree<Typed>, Fail>) -> Result<(), Fail>
        ensures { PutsTest given self.old result self.new }
    {
        match given {
            Ok(test) => put(&mut self.tests, Some(test)),
            Err(fail) => Err(fail),
        }
    }
}
