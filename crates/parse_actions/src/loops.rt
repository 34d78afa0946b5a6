//! Loops.

ghost use Rattle.std.specs.Prelude.{OnOk};
ghost use Rattle.pl_grammar.specs.Grammar as g;
ghost use Rattle.parse_values.specs.Stack.{AreOnTop, Reduces};

use parse_nodes::{any_expr, for_statement};
use parse_stack::Stack;
use parse_values::Value;
use pl_grammar::{ForRest, Tail, Three};
use pl_tree::{First, Statement};
use std::alloc::{AllocError, Global};

/// `while (condition) body`
pub fn looped(alloc: Global, stack: &mut Stack) -> Result<(), AllocError>
    requires { AreOnTop g.looped stack.old }
    ensures { OnOk result (Reduces g.looped stack.old stack.new) }
{
    let body = stack.run();
    stack.skip();
    let condition = stack.placed().expr;
    stack.skip();
    let at = stack.token().start;
    let statement = Statement::held(
        alloc,
        Statement::While {
            at,
            condition,
            body,
        },
    )?;
    stack.push(alloc, Value::Statement(Some(statement)))
}

/// `do block while (condition)`
pub fn do_loop(alloc: Global, stack: &mut Stack) -> Result<(), AllocError>
    requires { AreOnTop g.do_loop stack.old }
    ensures { OnOk result (Reduces g.do_loop stack.old stack.new) }
{
    stack.skip();
    let condition = stack.placed().expr;
    stack.skip();
    stack.skip();
    let block = stack.block();
    let at = stack.token().start;
    let statement = Statement::held(
        alloc,
        Statement::Do {
            at,
            block,
            condition,
        },
    )?;
    stack.push(alloc, Value::Statement(Some(statement)))
}

/// What a loop runs.
pub fn runs(alloc: Global, stack: &mut Stack) -> Result<(), AllocError>
    requires { AreOnTop g.runs stack.old }
    ensures { OnOk result (Reduces g.runs stack.old stack.new) }
{
    let body = stack.body();
    stack.push(alloc, Value::Run(Some(Some(body))))
}

/// The `;` of a loop that runs nothing.
pub fn idle(alloc: Global, stack: &mut Stack) -> Result<(), AllocError>
    requires { AreOnTop g.idle stack.old }
    ensures { OnOk result (Reduces g.idle stack.old stack.new) }
{
    stack.skip();
    stack.push(alloc, Value::Run(Some(None)))
}

/// `for (` and what follows.
pub fn for_loop(alloc: Global, stack: &mut Stack) -> Result<(), AllocError>
    requires { AreOnTop g.for_loop stack.old }
    ensures { OnOk result (Reduces g.for_loop stack.old stack.new) }
{
    let rest = stack.for_rest();
    stack.skip();
    let at = stack.token().start;
    stack.push(
        alloc,
        Value::Statement(Some(for_statement(alloc, at, rest)?)),
    )
}

/// The head of a `for` that does nothing first.
pub fn three_empty(alloc: Global, stack: &mut Stack) -> Result<(), AllocError>
    requires { AreOnTop g.three_empty stack.old }
    ensures { OnOk result (Reduces g.three_empty stack.old stack.new) }
{
    let rest = stack.three();
    stack.push(alloc, Value::ForRest(Some(ForRest::Three(None, rest))))
}

/// The head of a `for` that does something first.
pub fn three_first(alloc: Global, stack: &mut Stack) -> Result<(), AllocError>
    requires { AreOnTop g.three_first stack.old }
    ensures { OnOk result (Reduces g.three_first stack.old stack.new) }
{
    let rest = stack.three();
    let one = stack.first();
    stack.push(alloc, Value::ForRest(Some(ForRest::Three(Some(one), rest))))
}

/// `of name : over) body`
pub fn each_of(alloc: Global, stack: &mut Stack) -> Result<(), AllocError>
    requires { AreOnTop g.each_of stack.old }
    ensures { OnOk result (Reduces g.each_of stack.old stack.new) }
{
    let body = stack.body();
    stack.skip();
    let over = stack.placed().expr;
    stack.skip();
    let name = stack.spelled();
    let of = stack.type_name();
    stack.push(
        alloc,
        Value::ForRest(Some(ForRest::Each(of, name, over, body))),
    )
}

/// `name in over) body`
pub fn each_in(alloc: Global, stack: &mut Stack) -> Result<(), AllocError>
    requires { AreOnTop g.each_in stack.old }
    ensures { OnOk result (Reduces g.each_in stack.old stack.new) }
{
    let body = stack.body();
    stack.skip();
    let over = stack.placed().expr;
    stack.skip();
    let name = stack.spelled();
    stack.push(alloc, Value::ForRest(Some(ForRest::In(name, over, body))))
}

/// `; condition` and what follows.
pub fn three_parts(alloc: Global, stack: &mut Stack) -> Result<(), AllocError>
    requires { AreOnTop g.three_parts stack.old }
    ensures { OnOk result (Reduces g.three_parts stack.old stack.new) }
{
    let Tail { update, body } = stack.tail();
    let condition = any_expr(stack.placed_if_any());
    stack.skip();
    stack.push(
        alloc,
        Value::Three(Some(Three {
            condition,
            update,
            body,
        })),
    )
}

/// `; update) body`
pub fn tail_parts(alloc: Global, stack: &mut Stack) -> Result<(), AllocError>
    requires { AreOnTop g.tail_parts stack.old }
    ensures { OnOk result (Reduces g.tail_parts stack.old stack.new) }
{
    let body = stack.run();
    stack.skip();
    let update = any_expr(stack.placed_if_any());
    stack.skip();
    stack.push(alloc, Value::Tail(Some(Tail { update, body })))
}

/// A declaration as the first part of a `for`.
pub fn declares(alloc: Global, stack: &mut Stack) -> Result<(), AllocError>
    requires { AreOnTop g.declares stack.old }
    ensures { OnOk result (Reduces g.declares stack.old stack.new) }
{
    let one = stack.declaration();
    stack.push(alloc, Value::First(Some(First::Declare(one))))
}

/// An expression as the first part of a `for`.
pub fn expresses(alloc: Global, stack: &mut Stack) -> Result<(), AllocError>
    requires { AreOnTop g.expresses stack.old }
    ensures { OnOk result (Reduces g.expresses stack.old stack.new) }
{
    let one = stack.placed().expr;
    stack.push(alloc, Value::First(Some(First::Expression(one))))
}
