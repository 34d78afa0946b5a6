//! JSON values that a pipeline holds.

ghost use Rattle.std.specs.Prelude.{◌≡◌, IfOk};
ghost use Rattle.serde_json.specs.Data.{object, no_members};
ghost use Rattle.serde_json.specs.View.{view};

use serde_json::{Map, Value};
use std::alloc::{AllocError, Global};
use std::marker::Model;

/// A JSON value that contracts see as its data.
pub struct Literal {
    value: Value,
}

impl Model for Literal {
    ghost use Rattle.serde_json.specs.Data.{Data};
    ghost use Rattle.serde_json.specs.View as of;
    ghost use Rattle.json_codes.specs.Coding.{data_code};

    ghost Value = { Data };

    ghost coded = { data_code };

    ghost view = { λ it. of.view it.value };
}

impl Drop for Literal {
    fn drop(self) {
        let Literal { value: _value } = self;
    }
}

impl Literal {
    /// An object without members.
    pub fn empty(alloc: Global) -> Literal
        ensures { result ≡ object no_members }
    {
        Literal {
            value: Value::Object(Map::new(alloc)),
        }
    }

    /// A copy of a value.
    pub fn copy_of(value: &Value) -> Result<Literal, AllocError>
        ensures { IfOk result (λ literal. literal ≡ view value.now) }
    {
        let value = value.clone()?;
        Ok(Literal { value })
    }

    /// The value.
    pub fn get(&self) -> &Value
        ensures { view result.now ≡ self.now }
    {
        &self.value
    }
}
