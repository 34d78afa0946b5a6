//! Expressions of operators.

ghost use Rattle.std.specs.Prelude.{OnOk};
ghost use Rattle.pl_grammar.specs.Grammar as g;
ghost use Rattle.parse_values.specs.Stack.{AreOnTop, Reduces};

use parse_nodes::{joined, operator_of, step_of, unary_of, with_elvis, with_rest, with_step};
use parse_stack::Stack;
use parse_values::Value;
use pl_grammar::{ElvisRest, ExprRest, Operation, Placed};
use pl_tree::Expr;
use std::alloc::{AllocError, Global};

/// An expression.
pub fn expression(alloc: Global, stack: &mut Stack) -> Result<(), AllocError>
    requires { AreOnTop g.expression stack.old }
    ensures { OnOk result (Reduces g.expression stack.old stack.new) }
{
    let rest = stack.expr_rest_if_any();
    let left = stack.placed();
    stack.push(alloc, Value::Placed(Some(with_rest(alloc, left, rest)?)))
}

/// `? one : other`
pub fn conditional_rest(alloc: Global, stack: &mut Stack) -> Result<(), AllocError>
    requires { AreOnTop g.conditional_rest stack.old }
    ensures { OnOk result (Reduces g.conditional_rest stack.old stack.new) }
{
    let other = stack.placed().expr;
    stack.skip();
    let one = stack.placed().expr;
    let at = stack.token().start;
    stack.push(
        alloc,
        Value::ExprRest(Some(ExprRest::Conditional(at, one, other))),
    )
}

/// `= value`
pub fn assign_rest(alloc: Global, stack: &mut Stack) -> Result<(), AllocError>
    requires { AreOnTop g.assign_rest stack.old }
    ensures { OnOk result (Reduces g.assign_rest stack.old stack.new) }
{
    let given = stack.placed().expr;
    let at = stack.token().start;
    stack.push(
        alloc,
        Value::ExprRest(Some(ExprRest::Assign(None, at, given))),
    )
}

/// `+= value`, and with the other operators.
pub fn compound_rest(alloc: Global, stack: &mut Stack) -> Result<(), AllocError>
    requires { AreOnTop g.compound_rest stack.old }
    ensures { OnOk result (Reduces g.compound_rest stack.old stack.new) }
{
    let given = stack.placed().expr;
    let token = stack.token();
    let operator = operator_of(token.kind);
    stack.push(
        alloc,
        Value::ExprRest(Some(ExprRest::Assign(Some(operator), token.start, given))),
    )
}

/// What may have a `?:`.
pub fn elvises(alloc: Global, stack: &mut Stack) -> Result<(), AllocError>
    requires { AreOnTop g.elvises stack.old }
    ensures { OnOk result (Reduces g.elvises stack.old stack.new) }
{
    let rest = stack.elvis_rest_if_any();
    let left = stack.placed();
    stack.push(alloc, Value::Placed(Some(with_elvis(alloc, left, rest)?)))
}

/// `?: right`
pub fn elvis_of(alloc: Global, stack: &mut Stack) -> Result<(), AllocError>
    requires { AreOnTop g.elvis_of stack.old }
    ensures { OnOk result (Reduces g.elvis_of stack.old stack.new) }
{
    let right = stack.placed().expr;
    let at = stack.token().start;
    stack.push(alloc, Value::ElvisRest(Some(ElvisRest { at, right })))
}

/// `++target` or `--target`
pub fn prefix(alloc: Global, stack: &mut Stack) -> Result<(), AllocError>
    requires { AreOnTop g.prefix stack.old }
    ensures { OnOk result (Reduces g.prefix stack.old stack.new) }
{
    let target = stack.placed().expr;
    let token = stack.token();
    let expr = Expr::held(
        alloc,
        Expr::Prefix {
            step: step_of(token.kind),
            at: token.start,
            target,
        },
    )?;
    stack.push(
        alloc,
        Value::Placed(Some(Placed {
            start: token.start,
            expr,
        })),
    )
}

/// `+operand`, and with the other operators.
pub fn signed(alloc: Global, stack: &mut Stack) -> Result<(), AllocError>
    requires { AreOnTop g.signed stack.old }
    ensures { OnOk result (Reduces g.signed stack.old stack.new) }
{
    let operand = stack.placed().expr;
    let token = stack.token();
    let expr = Expr::held(
        alloc,
        Expr::Unary {
            operator: unary_of(token.kind),
            at: token.start,
            operand,
        },
    )?;
    stack.push(
        alloc,
        Value::Placed(Some(Placed {
            start: token.start,
            expr,
        })),
    )
}

/// `(of) operand`
pub fn cast(alloc: Global, stack: &mut Stack) -> Result<(), AllocError>
    requires { AreOnTop g.cast stack.old }
    ensures { OnOk result (Reduces g.cast stack.old stack.new) }
{
    let operand = stack.placed().expr;
    stack.skip();
    let of = stack.type_name();
    let at = stack.token().start;
    let expr = Expr::held(alloc, Expr::Cast { at, of, operand })?;
    stack.push(alloc, Value::Placed(Some(Placed { start: at, expr })))
}

/// An operand that no operator precedes.
pub fn plain(alloc: Global, stack: &mut Stack) -> Result<(), AllocError>
    requires { AreOnTop g.plain stack.old }
    ensures { OnOk result (Reduces g.plain stack.old stack.new) }
{
    let step = stack.token_if_any();
    let one = stack.placed();
    stack.push(alloc, Value::Placed(Some(with_step(alloc, one, step)?)))
}

/// `(within)`
pub fn bracketed(alloc: Global, stack: &mut Stack) -> Result<(), AllocError>
    requires { AreOnTop g.bracketed stack.old }
    ensures { OnOk result (Reduces g.bracketed stack.old stack.new) }
{
    stack.skip();
    let inner = stack.placed().expr;
    let at = stack.token().start;
    let expr = Expr::held(alloc, Expr::Bracketed { at, inner })?;
    stack.push(alloc, Value::Placed(Some(Placed { start: at, expr })))
}

/// The operands and operations of a level.
pub fn products(alloc: Global, stack: &mut Stack) -> Result<(), AllocError>
    requires { AreOnTop g.products stack.old }
    ensures { OnOk result (Reduces g.products stack.old stack.new) }
{
    let others = stack.operations();
    let one = stack.placed();
    stack.push(alloc, Value::Placed(Some(joined(alloc, one, others)?)))
}

/// An operator and its right side.
pub fn times(alloc: Global, stack: &mut Stack) -> Result<(), AllocError>
    requires { AreOnTop g.times stack.old }
    ensures { OnOk result (Reduces g.times stack.old stack.new) }
{
    let right = stack.placed().expr;
    let token = stack.token();
    let operator = operator_of(token.kind);
    stack.push(
        alloc,
        Value::Operation(Some(Operation::Binary(operator, token.start, right))),
    )
}

/// `instanceof of`
pub fn test(alloc: Global, stack: &mut Stack) -> Result<(), AllocError>
    requires { AreOnTop g.test stack.old }
    ensures { OnOk result (Reduces g.test stack.old stack.new) }
{
    let of = stack.type_name();
    let at = stack.token().start;
    stack.push(alloc, Value::Operation(Some(Operation::Test(at, of))))
}
