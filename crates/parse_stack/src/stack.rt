//! The value stack.

ghost use Rattle.std.specs.Prelude.{◌≡◌, ◌≢◌, List, [], ◌∷◌, OnOk};
ghost use Rattle.parse_values.specs.declared.value.Value as declared;
ghost use Rattle.parse_values.specs.Stack.{AreTwo};

use parse_values::Value;
use plain_data::{Boxed, Items};
use std::alloc::{AllocError, Global};
use std::marker::Model;

/// The values of the symbols that were read and that no rule has taken yet. Contracts see the last of them first.
///
/// Where memory runs out, nothing is known of what is left on it.
pub struct Stack {
    /// The last at the end.
    values: Items<Boxed<Value>>,
}

impl Drop for Stack {
    /// Written out, so that no crate above proves it again.
    fn drop(self) {
        let Stack { values: _values } = self;
    }
}

impl Model for Stack {
    ghost use Rattle.std.specs.Prelude.{List, reverse};
    ghost use Rattle.std.specs.Coded.{coded_list};
    ghost use Rattle.parse_values.specs.declared.value.Value as declared;
    ghost use Rattle.parse_values.specs.contracts.value.Value as row;

    ghost Value = { List declared.Value };

    ghost coded = { coded_list row.the_row.coded };

    ghost view = { λ s. reverse s.values };
}

/// Lets a value go.
pub fn discard(_value: Value) {}

impl Stack {
    /// With no values.
    pub fn new(alloc: Global) -> Stack
        ensures { result ≡ [] }
    {
        Stack {
            values: Items::new(alloc),
        }
    }

    /// Puts a value on the top.
    pub fn push(&mut self, alloc: Global, value: Value) -> Result<(), AllocError>
        ensures { OnOk result (self.new ≡ value ∷ self.old) }
    {
        let value = Boxed::new(alloc, value)?;
        self.values.push(value)
    }

    /// Takes the value on the top.
    pub fn pop(&mut self) -> Value
        requires { self.old ≢ [] }
        ensures { self.old ≡ result ∷ self.new }
    {
        let Some(value) = self.values.pop() else {
            unreachable!()
        };
        value.into_inner()
    }

    /// Leaves the value on the top out.
    pub fn skip(&mut self)
        requires { self.old ≢ [] }
        ensures { (value : declared.Value) (below : List declared.Value) → self.old ≡ value ∷ below → self.new ≡ below }
    {
        discard(self.pop());
    }

    /// Leaves the value below the top out.
    pub fn skip_second(&mut self) -> Result<(), AllocError>
        requires { AreTwo self.old }
        ensures { OnOk result ((value : declared.Value) (second : declared.Value) (below : List declared.Value) → self.old ≡ value ∷ second ∷ below → self.new ≡ value ∷ below) }
    {
        let Some(value) = self.values.pop() else {
            unreachable!()
        };
        self.skip();
        self.values.push(value)
    }
}
