//! Literals.

ghost use Rattle.std.specs.Prelude.{◌≡◌, ◌≤◌, ◌^◌, pos, neg_ℤ, Ok};
ghost use Rattle.typing_rules.specs.Outcomes.{Keeps};
ghost use Rattle.typing_rules.specs.Rules.Literals as spec;

use crate::digits::{is_long, magnitude, unmarked};
use crate::part::{Form, Part};
use crate::refuse::refuse;
use crate::rules::nodes::{boolean, part};
use crate::texts::{unescaped, unquoted};
use pl_types::{Fail, Primitive, Ty, classes, rules};
use std::alloc::Global;
use typed_tree::{Constant, Node};

/// How many ints are not negative.
pub(crate) const INTS: u64 = 2_147_483_648;

/// How many longs are not negative.
const LONGS: u64 = 9_223_372_036_854_775_808;

pub(crate) fn int_literal(alloc: Global, at: u32, value: i32) -> Result<Part, Fail>
    ensures { Keeps (Ok (spec.int_literal at value)) result }
{
    let of = Ty::Prim(Primitive::Int);
    let node = Node::Constant(Constant::Int(value));
    part(alloc, at, Form::Number(value), of, node)
}

fn long_literal(alloc: Global, at: u32, value: i64) -> Result<Part, Fail>
    ensures { Keeps (Ok (spec.long_literal at value)) result }
{
    let of = Ty::Prim(Primitive::Long);
    let node = Node::Constant(Constant::Long(value));
    part(alloc, at, Form::Literal, of, node)
}

/// An integer literal.
///
/// LiteralRange (18): it is 2^31 or more, or of a long 2^63 or more.
pub fn integer(alloc: Global, at: u32, spelling: &str) -> Result<Part, Fail>
    ensures { Keeps (spec.integer at spelling.now) result }
{
    if is_long(spelling.as_bytes()) {
        return match magnitude(unmarked(spelling.as_bytes())) {
            Some(value) if value < LONGS => long_literal(alloc, at, value as i64),
            _ => Err(refuse(rules::LITERAL_RANGE, at)),
        };
    }
    match magnitude(spelling.as_bytes()) {
        Some(value) if value < INTS => int_literal(alloc, at, value as i32),
        _ => Err(refuse(rules::LITERAL_RANGE, at)),
    }
}

/// The negative of a magnitude.
fn negative(value: u64) -> i64
    requires { value ≤ 2 ^ 63 }
    ensures { result ≡ neg_ℤ (pos value) }
{
    if value < LONGS {
        -(value as i64)
    } else {
        i64::MIN
    }
}

/// An integer literal directly behind a minus, which stands at `minus`.
///
/// LiteralRange (18): it is more than 2^31, or of a long more than 2^63.
pub fn negated_integer(alloc: Global, minus: u32, at: u32, spelling: &str) -> Result<Part, Fail>
    ensures { Keeps (spec.negated_integer minus at spelling.now) result }
{
    if is_long(spelling.as_bytes()) {
        return match magnitude(unmarked(spelling.as_bytes())) {
            Some(value) => long_literal(alloc, minus, negative(value)),
            None => Err(refuse(rules::LITERAL_RANGE, at)),
        };
    }
    match magnitude(spelling.as_bytes()) {
        Some(value) if value <= INTS => int_literal(alloc, minus, -(value as i64) as i32),
        _ => Err(refuse(rules::LITERAL_RANGE, at)),
    }
}

/// `true`, `false` or `null`.
pub fn constant(alloc: Global, at: u32, constant: pl_tree::Constant) -> Result<Part, Fail>
    ensures { Keeps (spec.constant at constant) result }
{
    match constant {
        pl_tree::Constant::True => {
            let node = Node::Constant(Constant::Boolean(true));
            part(alloc, at, Form::True, boolean(), node)
        }
        pl_tree::Constant::False => {
            let node = Node::Constant(Constant::Boolean(false));
            part(alloc, at, Form::Literal, boolean(), node)
        }
        pl_tree::Constant::Null => {
            let node = Node::Constant(Constant::Null);
            part(alloc, at, Form::Literal, Ty::Null, node)
        }
    }
}

/// A text literal, with its quotes, which are one byte each.
pub fn text(alloc: Global, at: u32, spelling: &str) -> Result<Part, Fail>
    ensures { Keeps (spec.text at spelling.now) result }
{
    let text = unescaped(alloc, unquoted(spelling))?;
    let of = Ty::Class(classes::STRING);
    part(alloc, at, Form::Literal, of, Node::Text(text))
}
