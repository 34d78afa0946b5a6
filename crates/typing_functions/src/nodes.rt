//! Typed nodes.

ghost use Rattle.std.specs.Prelude.{◌≡◌, IfOk, Ok};
ghost use Rattle.typing_rules.specs.Outcomes.{Keeps};
ghost use Rattle.typing_rules.specs.Rules.Nodes as spec;

use pl_types::{Fail, Ty};
use plain_data::Text;
use std::alloc::{AllocError, Global};
use typed_tree::{Node, Typed};
use typing_rules::{Form, Part};

/// An expression of a type at a place, which is no literal and no statement.
pub(crate) fn plain(alloc: Global, at: u32, of: Ty, node: Node) -> Result<Part, Fail>
    ensures { Keeps (Ok (spec.plain at (spec.typed at of node))) result }
{
    let form = Form::Other;
    match Typed::held(alloc, Typed { at, of, node }) {
        Ok(typed) => Ok(Part { at, form, typed }),
        Err(_) => Err(Fail::NoMemory),
    }
}

/// A copy of a name.
pub(crate) fn copy(alloc: Global, name: &Text) -> Result<Text, AllocError>
    ensures { IfOk result (λ c. c ≡ name.now) }
{
    Text::new(alloc, name.as_str())
}
