//! Names and members.

ghost use Rattle.std.specs.Prelude.{OnOk};
ghost use Rattle.pl_grammar.specs.Grammar as g;
ghost use Rattle.parse_values.specs.Stack.{AreOnTop, Reduces};

use parse_nodes::{access_of, chained, name_or_call, suffix_of, suffixed_by};
use parse_stack::Stack;
use parse_values::Value;
use pl_grammar::{Member, Placed, Suffix};
use pl_tree::Expr;
use std::alloc::{AllocError, Global};

/// A name, and its arguments if any.
pub fn named(alloc: Global, stack: &mut Stack) -> Result<(), AllocError>
    requires { AreOnTop g.named stack.old }
    ensures { OnOk result (Reduces g.named stack.old stack.new) }
{
    let given = stack.arguments_if_any();
    let name = stack.spelled();
    let start = name.at;
    let expr = Expr::held(alloc, name_or_call(name, given))?;
    stack.push(alloc, Value::Placed(Some(Placed { start, expr })))
}

/// An expression, and the suffixes after it.
pub fn suffixed(alloc: Global, stack: &mut Stack) -> Result<(), AllocError>
    requires { AreOnTop g.suffixed stack.old }
    ensures { OnOk result (Reduces g.suffixed stack.old stack.new) }
{
    let others = stack.suffixes();
    let one = stack.placed();
    stack.push(alloc, Value::Placed(Some(chained(alloc, one, others)?)))
}

/// A type, a member of it, and the suffixes after that.
pub fn typed(alloc: Global, stack: &mut Stack) -> Result<(), AllocError>
    requires { AreOnTop g.typed stack.old }
    ensures { OnOk result (Reduces g.typed stack.old stack.new) }
{
    let others = stack.suffixes();
    let one = stack.suffix();
    let of = stack.type_name();
    let start = of.at;
    let type_expr = Expr::held(alloc, Expr::Type { of })?;
    let expr = suffixed_by(alloc, type_expr, one)?;
    let member = Placed { start, expr };
    stack.push(alloc, Value::Placed(Some(chained(alloc, member, others)?)))
}

/// `[index]`
pub fn index(alloc: Global, stack: &mut Stack) -> Result<(), AllocError>
    requires { AreOnTop g.index stack.old }
    ensures { OnOk result (Reduces g.index stack.old stack.new) }
{
    stack.skip();
    let one = stack.placed().expr;
    let at = stack.token().start;
    stack.push(alloc, Value::Suffix(Some(Suffix::Index(at, one))))
}

/// A dot and a member.
pub fn dot_of(alloc: Global, stack: &mut Stack) -> Result<(), AllocError>
    requires { AreOnTop g.dot_of stack.old }
    ensures { OnOk result (Reduces g.dot_of stack.old stack.new) }
{
    let member = stack.member();
    let token = stack.token();
    let access = access_of(token.kind);
    stack.push(alloc, Value::Suffix(Some(suffix_of(access, member))))
}

/// The name of a member, and its arguments if any.
pub fn named_member(alloc: Global, stack: &mut Stack) -> Result<(), AllocError>
    requires { AreOnTop g.named_member stack.old }
    ensures { OnOk result (Reduces g.named_member stack.old stack.new) }
{
    let given = stack.arguments_if_any();
    let name = stack.spelled();
    stack.push(alloc, Value::Member(Some(Member::Named(name, given))))
}

/// A member whose name is a number.
pub fn numbered(alloc: Global, stack: &mut Stack) -> Result<(), AllocError>
    requires { AreOnTop g.numbered stack.old }
    ensures { OnOk result (Reduces g.numbered stack.old stack.new) }
{
    let number = stack.spelled();
    stack.push(alloc, Value::Member(Some(Member::Numbered(number))))
}
