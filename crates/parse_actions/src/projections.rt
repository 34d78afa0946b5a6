//! The actions of rules that have two symbols and the value of one of them.

ghost use Rattle.std.specs.Prelude.{◌≡◌, ◌∷◌, List, OnOk};
ghost use Rattle.parse_values.specs.declared.value.Value as declared;
ghost use Rattle.parse_values.specs.Stack.{AreTwo};

use parse_stack::Stack;
use std::alloc::AllocError;

/// Keeps the first of two values, which is below the second.
pub fn keep_first(stack: &mut Stack) -> Result<(), AllocError>
    requires { AreTwo stack.old }
    ensures { OnOk result ((second : declared.Value) (first : declared.Value) (below : List declared.Value) → stack.old ≡ second ∷ first ∷ below → stack.new ≡ first ∷ below) }
{
    stack.skip();
    Ok(())
}

/// Keeps the second of two values, which is on the top.
pub fn keep_second(stack: &mut Stack) -> Result<(), AllocError>
    requires { AreTwo stack.old }
    ensures { OnOk result ((second : declared.Value) (first : declared.Value) (below : List declared.Value) → stack.old ≡ second ∷ first ∷ below → stack.new ≡ second ∷ below) }
{
    stack.skip_second()
}
