//! Expressions of operators.

ghost use Rattle.std.specs.Prelude.{◌≡◌, Some, IfOk};
ghost use Rattle.pl_grammar.specs.Making as making;

use crate::token::step_of;
use pl_grammar::{ElvisRest, ExprRest, Placed};
use pl_lexer::Token;
use pl_tree::Expr;
use std::alloc::{AllocError, Global};

/// The conditional or assignment with this left side.
fn continued(alloc: Global, left: Placed, rest: ExprRest) -> Result<Placed, AllocError>
    ensures { IfOk result (λ placed. placed ≡ making.with_rest left (Some rest)) }
{
    let Placed { start, expr } = left;
    match rest {
        ExprRest::Conditional(at, yes, no) => {
            let whole = Expr::Conditional {
                at,
                condition: expr,
                yes,
                no,
            };
            let expr = Expr::held(alloc, whole)?;
            Ok(Placed { start, expr })
        }
        ExprRest::Assign(operator, at, value) => {
            let whole = Expr::Assign {
                operator,
                at,
                target: expr,
                value,
            };
            let expr = Expr::held(alloc, whole)?;
            Ok(Placed { start, expr })
        }
    }
}

/// A left side with what makes it a conditional or an assignment, if anything.
pub fn with_rest(alloc: Global, left: Placed, rest: Option<ExprRest>) -> Result<Placed, AllocError>
    ensures { IfOk result (λ placed. placed ≡ making.with_rest left rest) }
{
    match rest {
        None => Ok(left),
        Some(rest) => continued(alloc, left, rest),
    }
}

/// A left side with `?:` and its right side, if any.
pub fn with_elvis(
    alloc: Global,
    left: Placed,
    rest: Option<ElvisRest>,
) -> Result<Placed, AllocError>
    ensures { IfOk result (λ placed. placed ≡ making.with_elvis left rest) }
{
    let Some(ElvisRest { at, right }) = rest else {
        return Ok(left);
    };
    let Placed { start, expr: left } = left;
    let expr = Expr::held(alloc, Expr::Elvis { at, left, right })?;
    Ok(Placed { start, expr })
}

/// An operand with the `++` or `--` after it, if any.
pub fn with_step(alloc: Global, one: Placed, step: Option<Token>) -> Result<Placed, AllocError>
    ensures { IfOk result (λ placed. placed ≡ making.with_step one step) }
{
    let Some(token) = step else {
        return Ok(one);
    };
    let Placed {
        start,
        expr: target,
    } = one;
    let step = step_of(token.kind);
    let expr = Expr::held(
        alloc,
        Expr::Postfix {
            step,
            at: start,
            target,
        },
    )?;
    Ok(Placed { start, expr })
}
