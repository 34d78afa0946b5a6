//! The first token of an expression.

ghost use Rattle.std.specs.Prelude.{◌≡◌, ◌<◌, Some, None, IfSome, MatchOption};
ghost use Rattle.pl_tree.specs.declared.tree.Expr.{out-Expr, size-Expr};
ghost use Rattle.typing_rules.specs.Typing.{reading};
ghost use Rattle.typing_worklist.specs.Plans as spec;

use allowlist::Allow;
use pl_tree::Expr;
use typing_rules::Header;

/// The part that an expression begins with.
fn left_of(e: &Expr) -> Option<&Expr>
    ensures part { MatchOption result (spec.left_of (out-Expr e.now) ≡ None) (λ l. spec.left_of (out-Expr e.now) ≡ Some l.now) }
    ensures lower { IfSome result (λ l. size-Expr l.now < size-Expr e.now) }
{
    match e {
        Expr::Assign {
            operator: _,
            at: _,
            target,
            value: _,
        } => Some(target.get()),
        Expr::Conditional {
            at: _,
            condition,
            yes: _,
            no: _,
        } => Some(condition.get()),
        Expr::Elvis {
            at: _,
            left,
            right: _,
        } => Some(left.get()),
        Expr::Binary {
            operator: _,
            at: _,
            left,
            right: _,
        } => Some(left.get()),
        Expr::Instanceof {
            at: _,
            operand,
            of: _,
        } => Some(operand.get()),
        Expr::Member {
            access: _,
            at: _,
            receiver,
            spelling: _,
        } => Some(receiver.get()),
        Expr::Method {
            access: _,
            at: _,
            receiver,
            spelling: _,
            arguments: _,
        } => Some(receiver.get()),
        Expr::Element {
            access: _,
            at: _,
            receiver,
            spelling: _,
        } => Some(receiver.get()),
        Expr::Index {
            at: _,
            receiver,
            index: _,
        } => Some(receiver.get()),
        _ => None,
    }
}

/// Where an expression stands.
fn place_of(e: &Expr) -> u32
    ensures { result ≡ spec.place_of (out-Expr e.now) }
{
    match e {
        Expr::Assign { at, .. }
        | Expr::Conditional { at, .. }
        | Expr::Elvis { at, .. }
        | Expr::Binary { at, .. }
        | Expr::Instanceof { at, .. }
        | Expr::Unary { at, .. }
        | Expr::Prefix { at, .. }
        | Expr::Postfix { at, .. }
        | Expr::Cast { at, .. }
        | Expr::Bracketed { at, .. }
        | Expr::Integer { at, .. }
        | Expr::Text { at, .. }
        | Expr::Constant { at, .. }
        | Expr::List { at, .. }
        | Expr::Map { at, .. }
        | Expr::Name { at, .. }
        | Expr::Call { at, .. }
        | Expr::New { at, .. }
        | Expr::NewArray { at, .. }
        | Expr::NewItems { at, .. }
        | Expr::Member { at, .. }
        | Expr::Method { at, .. }
        | Expr::Element { at, .. }
        | Expr::Index { at, .. } => *at,
        Expr::Type { of } => of.at,
    }
}

/// The first token of an expression: that of the expression at its left end.
#[tactic(auto, using(crate::proofs::Begins::first_is))]
pub fn first_of(_allow: &Allow, _headers: &[Header], e: &Expr) -> u32
    ensures { result ≡ (reading _allow.now _headers.now e.now).first }
{
    let mut left = e;
    while let Some(next) = left_of(left) {
        left = next;
    }
    place_of(left)
}
