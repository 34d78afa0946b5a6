//! The parts of a script.

ghost use Rattle.std.specs.Prelude.{OnOk};
ghost use Rattle.parse_values.specs.Stack.{FunctionOnTop, TakesFunction, StatementsOnTop, TakesStatements};

use parse_stack::Stack;
use pl_tree::Tree;
use std::alloc::AllocError;

/// Takes a function off the stack, to the end of those of a script.
pub fn take_function(stack: &mut Stack, script: &mut Tree) -> Result<(), AllocError>
    requires { FunctionOnTop stack.old }
    ensures { OnOk result (TakesFunction stack.old stack.new script.old script.new) }
{
    let one = stack.function();
    script.functions.push(one)
}

/// Takes statements off the stack, and the one below them that they follow, to the end of those of a script.
pub fn take_statements(stack: &mut Stack, script: &mut Tree) -> Result<(), AllocError>
    requires { StatementsOnTop stack.old }
    ensures { OnOk result (TakesStatements stack.old stack.new script.old script.new) }
{
    let others = stack.statements();
    let one = stack.statement();
    script.statements.push(one)?;
    script.statements.append(others)
}
