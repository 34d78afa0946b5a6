//! Arguments, lambdas and references to functions.

ghost use Rattle.std.specs.Prelude.{OnOk};
ghost use Rattle.pl_grammar.specs.Grammar as g;
ghost use Rattle.parse_values.specs.Stack.{AreOnTop, Reduces};

use parse_nodes::{before, lambda_of, or_none, reference_of};
use parse_stack::Stack;
use parse_values::Value;
use pl_tree::{Argument, LambdaBody};
use std::alloc::{AllocError, Global};

/// `(arguments)`
pub fn args_of(alloc: Global, stack: &mut Stack) -> Result<(), AllocError>
    requires { AreOnTop g.args_of stack.old }
    ensures { OnOk result (Reduces g.args_of stack.old stack.new) }
{
    stack.skip();
    let all = or_none(alloc, stack.arguments_if_any());
    stack.skip();
    stack.push(alloc, Value::Arguments(Some(all)))
}

/// Arguments, one at least.
pub fn arguments_of(alloc: Global, stack: &mut Stack) -> Result<(), AllocError>
    requires { AreOnTop g.arguments_of stack.old }
    ensures { OnOk result (Reduces g.arguments_of stack.old stack.new) }
{
    let others = stack.arguments();
    let one = stack.argument();
    stack.push(alloc, Value::Arguments(Some(before(alloc, one, others)?)))
}

/// An expression as an argument.
pub fn argued(alloc: Global, stack: &mut Stack) -> Result<(), AllocError>
    requires { AreOnTop g.argued stack.old }
    ensures { OnOk result (Reduces g.argued stack.old stack.new) }
{
    let given = stack.placed().expr;
    stack.push(alloc, Value::Argument(Some(Argument::Value(given))))
}

/// `one -> body`
pub fn lambda(alloc: Global, stack: &mut Stack) -> Result<(), AllocError>
    requires { AreOnTop g.lambda stack.old }
    ensures { OnOk result (Reduces g.lambda stack.old stack.new) }
{
    let body = stack.lambda_body();
    stack.skip();
    let one = stack.parameter();
    stack.push(alloc, Value::Argument(Some(lambda_of(alloc, one, body)?)))
}

/// `(parameters) -> body`
pub fn lambdas(alloc: Global, stack: &mut Stack) -> Result<(), AllocError>
    requires { AreOnTop g.lambdas stack.old }
    ensures { OnOk result (Reduces g.lambdas stack.old stack.new) }
{
    let body = stack.lambda_body();
    stack.skip();
    stack.skip();
    let parameters = or_none(alloc, stack.parameters_if_any());
    let at = stack.token().start;
    stack.push(
        alloc,
        Value::Argument(Some(Argument::Lambda {
            at,
            parameters,
            body,
        })),
    )
}

/// `of::name`
pub fn reference(alloc: Global, stack: &mut Stack) -> Result<(), AllocError>
    requires { AreOnTop g.reference stack.old }
    ensures { OnOk result (Reduces g.reference stack.old stack.new) }
{
    let name = stack.ref_name();
    stack.skip();
    let of = stack.type_name();
    stack.push(alloc, Value::Argument(Some(reference_of(of, name))))
}

/// `this::name`
pub fn this_reference(alloc: Global, stack: &mut Stack) -> Result<(), AllocError>
    requires { AreOnTop g.this_reference stack.old }
    ensures { OnOk result (Reduces g.this_reference stack.old stack.new) }
{
    let spelling = stack.spelled().spelling;
    stack.skip();
    let at = stack.token().start;
    stack.push(
        alloc,
        Value::Argument(Some(Argument::ThisReference { at, spelling })),
    )
}

/// The name behind `::`.
pub fn ref_word(alloc: Global, stack: &mut Stack) -> Result<(), AllocError>
    requires { AreOnTop g.ref_word stack.old }
    ensures { OnOk result (Reduces g.ref_word stack.old stack.new) }
{
    let name = stack.spelled();
    stack.push(alloc, Value::RefName(Some(Some(name))))
}

/// The `new` behind `::`.
pub fn ref_new(alloc: Global, stack: &mut Stack) -> Result<(), AllocError>
    requires { AreOnTop g.ref_new stack.old }
    ensures { OnOk result (Reduces g.ref_new stack.old stack.new) }
{
    stack.skip();
    stack.push(alloc, Value::RefName(Some(None)))
}

/// A block as what a lambda runs.
pub fn block_lambda(alloc: Global, stack: &mut Stack) -> Result<(), AllocError>
    requires { AreOnTop g.block_lambda stack.old }
    ensures { OnOk result (Reduces g.block_lambda stack.old stack.new) }
{
    let block = stack.block();
    stack.push(alloc, Value::LambdaBody(Some(LambdaBody::Block(block))))
}

/// An expression as what a lambda runs.
pub fn expr_lambda(alloc: Global, stack: &mut Stack) -> Result<(), AllocError>
    requires { AreOnTop g.expr_lambda stack.old }
    ensures { OnOk result (Reduces g.expr_lambda stack.old stack.new) }
{
    let value = stack.placed().expr;
    stack.push(
        alloc,
        Value::LambdaBody(Some(LambdaBody::Expression(value))),
    )
}
