//! Headers of functions, and the variables and the result of a context.

ghost use Rattle.std.specs.Prelude.{◌≡◌};
ghost use Rattle.typing_rules.specs.Rules.Functions as spec;

use pl_types::Ty;
use plain_data::{Items, Subtree, Text};
use std::alloc::Global;
use typed_tree::{FunctionKind, Named, TypedFunction, TypedStatement};

/// The header of a function of the script: what its calls see of it.
pub struct Header {
    pub name: Text,
    pub parameters: Items<Named>,
    pub result: Ty,
}

impl Drop for Header {
    fn drop(self) {
        let Header {
            name: _name,
            parameters: _parameters,
            result: _result,
        } = self;
    }
}

impl Header {
    /// What has this header, and a body.
    pub(crate) fn with_body(
        self,
        alloc: Global,
        kind: FunctionKind,
        at: u32,
        body: Items<Subtree<TypedStatement>>,
    ) -> TypedFunction
        ensures { result ≡ spec.with_body kind at self body }
    {
        let Header {
            name,
            parameters,
            result,
        } = self;
        TypedFunction {
            kind,
            at,
            name,
            captured: Items::new(alloc),
            parameters,
            result,
            body,
        }
    }
}

/// The variables of a context, which scripts see and do not write to, and the type of its result.
pub struct ContextTypes {
    pub variables: Items<Named>,
    pub result: Ty,
}

impl Drop for ContextTypes {
    fn drop(self) {
        let ContextTypes {
            variables: _variables,
            result: _result,
        } = self;
    }
}
