//! What is known while a body is typed.

ghost use Rattle.std.specs.Prelude.{◌≡◌};
ghost use Rattle.typing_rules.specs.State as spec;
ghost use Rattle.typing_rules.specs.Outcomes.{KeepsIn};

use crate::refuse::refuse;
use crate::rules::places::copy;
use crate::scopes::{Entry, Scopes, Standing};
use pl_types::{Fail, Ty, rules};
use plain_data::Text;
use std::alloc::Global;

/// What is known while a body is typed.
pub struct State {
    pub scopes: Scopes,
    /// How many of the names in sight were declared around the function value whose body this is: these are copied, and not written to.
    pub base: usize,
    /// What a `return` is to give.
    pub result: Ty,
    /// Whether a loop is around.
    pub looped: bool,
}

impl Drop for State {
    fn drop(self) {
        let State {
            scopes: _scopes,
            base: _,
            result: _result,
            looped: _,
        } = self;
    }
}

impl State {
    /// Forgets the names that were declared since there were so many.
    pub fn close(&mut self, height: usize)
        ensures { self.new ≡ spec.closed height self.old }
    {
        self.scopes.close(height);
    }

    /// Declares a name.
    ///
    /// AlreadyDefined (5): the name is in sight.
    pub fn declare(&mut self, alloc: Global, at: u32, name: &Text, of: Ty) -> Result<(), Fail>
        ensures { KeepsIn (spec.declared at name.now of self.old) result self.new }
    {
        if self.scopes.find(name).is_some() {
            return Err(refuse(rules::ALREADY_DEFINED, at));
        }
        let name = copy(alloc, name)?;
        let standing = Standing::Variable;
        match self.scopes.push(alloc, Entry { name, of, standing }) {
            Ok(()) => Ok(()),
            Err(_) => Err(Fail::NoMemory),
        }
    }
}
