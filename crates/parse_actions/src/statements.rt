//! Statements, but for loops.

ghost use Rattle.std.specs.Prelude.{OnOk};
ghost use Rattle.pl_grammar.specs.Grammar as g;
ghost use Rattle.parse_values.specs.Stack.{AreOnTop, Reduces};

use parse_nodes::{before, jump_of};
use parse_stack::Stack;
use parse_values::Value;
use pl_tree::{Block, Body, Catch, Declaration, Statement, Variable};
use std::alloc::{AllocError, Global};

/// `{ statements }`
pub fn braces(alloc: Global, stack: &mut Stack) -> Result<(), AllocError>
    requires { AreOnTop g.braces stack.old }
    ensures { OnOk result (Reduces g.braces stack.old stack.new) }
{
    stack.skip();
    let statements = stack.statements();
    let at = stack.token().start;
    stack.push(alloc, Value::Block(Some(Block { at, statements })))
}

/// `if (condition) then`, and its `else` if any.
pub fn conditional(alloc: Global, stack: &mut Stack) -> Result<(), AllocError>
    requires { AreOnTop g.conditional stack.old }
    ensures { OnOk result (Reduces g.conditional stack.old stack.new) }
{
    let otherwise = stack.body_if_any();
    let then = stack.body();
    stack.skip();
    let condition = stack.placed().expr;
    stack.skip();
    let at = stack.token().start;
    let statement = Statement::held(
        alloc,
        Statement::If {
            at,
            condition,
            then,
            otherwise,
        },
    )?;
    stack.push(alloc, Value::Statement(Some(statement)))
}

/// `try block`, and its catches.
pub fn tried(alloc: Global, stack: &mut Stack) -> Result<(), AllocError>
    requires { AreOnTop g.tried stack.old }
    ensures { OnOk result (Reduces g.tried stack.old stack.new) }
{
    let others = stack.catches();
    let one = stack.catch_clause();
    let block = stack.block();
    let at = stack.token().start;
    let catches = before(alloc, one, others)?;
    let statement = Statement::held(alloc, Statement::Try { at, block, catches })?;
    stack.push(alloc, Value::Statement(Some(statement)))
}

/// `catch (of name) block`
pub fn catches(alloc: Global, stack: &mut Stack) -> Result<(), AllocError>
    requires { AreOnTop g.catches stack.old }
    ensures { OnOk result (Reduces g.catches stack.old stack.new) }
{
    let block = stack.block();
    stack.skip();
    let name = stack.spelled();
    let of = stack.type_name();
    stack.skip();
    let at = stack.token().start;
    stack.push(
        alloc,
        Value::Catch(Some(Catch {
            at,
            of,
            name,
            block,
        })),
    )
}

/// A declaration.
pub fn declared(alloc: Global, stack: &mut Stack) -> Result<(), AllocError>
    requires { AreOnTop g.declared stack.old }
    ensures { OnOk result (Reduces g.declared stack.old stack.new) }
{
    let one = stack.declaration();
    let statement = Statement::held(alloc, Statement::Declare(one))?;
    stack.push(alloc, Value::Statement(Some(statement)))
}

/// `continue` or `break`
pub fn jump(alloc: Global, stack: &mut Stack) -> Result<(), AllocError>
    requires { AreOnTop g.jump stack.old }
    ensures { OnOk result (Reduces g.jump stack.old stack.new) }
{
    let token = stack.token();
    let statement = Statement::held(alloc, jump_of(token))?;
    stack.push(alloc, Value::Statement(Some(statement)))
}

/// `return`, and its value if any.
pub fn returned(alloc: Global, stack: &mut Stack) -> Result<(), AllocError>
    requires { AreOnTop g.returned stack.old }
    ensures { OnOk result (Reduces g.returned stack.old stack.new) }
{
    let value = stack.argument_if_any();
    let at = stack.token().start;
    let statement = Statement::held(alloc, Statement::Return { at, value })?;
    stack.push(alloc, Value::Statement(Some(statement)))
}

/// `throw value`
pub fn thrown(alloc: Global, stack: &mut Stack) -> Result<(), AllocError>
    requires { AreOnTop g.thrown stack.old }
    ensures { OnOk result (Reduces g.thrown stack.old stack.new) }
{
    let value = stack.placed().expr;
    let at = stack.token().start;
    let statement = Statement::held(alloc, Statement::Throw { at, value })?;
    stack.push(alloc, Value::Statement(Some(statement)))
}

/// An expression as a statement.
pub fn value_statement(alloc: Global, stack: &mut Stack) -> Result<(), AllocError>
    requires { AreOnTop g.value stack.old }
    ensures { OnOk result (Reduces g.value stack.old stack.new) }
{
    let given = stack.placed();
    let statement = Statement::held(
        alloc,
        Statement::Expression {
            at: given.start,
            value: given.expr,
        },
    )?;
    stack.push(alloc, Value::Statement(Some(statement)))
}

/// `of variables`
pub fn declaration_of(alloc: Global, stack: &mut Stack) -> Result<(), AllocError>
    requires { AreOnTop g.declaration stack.old }
    ensures { OnOk result (Reduces g.declaration stack.old stack.new) }
{
    let others = stack.variables();
    let one = stack.variable();
    let of = stack.type_name();
    let variables = before(alloc, one, others)?;
    stack.push(
        alloc,
        Value::Declaration(Some(Declaration { of, variables })),
    )
}

/// A variable, and its value if any.
pub fn variable_of(alloc: Global, stack: &mut Stack) -> Result<(), AllocError>
    requires { AreOnTop g.variable stack.old }
    ensures { OnOk result (Reduces g.variable stack.old stack.new) }
{
    let value = stack.argument_if_any();
    let name = stack.spelled();
    stack.push(alloc, Value::Variable(Some(Variable { name, value })))
}

/// A block as a body.
pub fn block_body(alloc: Global, stack: &mut Stack) -> Result<(), AllocError>
    requires { AreOnTop g.block_body stack.old }
    ensures { OnOk result (Reduces g.block_body stack.old stack.new) }
{
    let block = stack.block();
    stack.push(alloc, Value::Body(Some(Body::Block(block))))
}

/// A statement as a body.
pub fn statement_body(alloc: Global, stack: &mut Stack) -> Result<(), AllocError>
    requires { AreOnTop g.statement_body stack.old }
    ensures { OnOk result (Reduces g.statement_body stack.old stack.new) }
{
    let statement = stack.statement();
    stack.push(alloc, Value::Body(Some(Body::Statement(statement))))
}
