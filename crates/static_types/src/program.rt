//! From the tree of a script to its program.

ghost use Rattle.std.specs.Prelude.{[], false};
ghost use Rattle.pl_tree.specs.declared.tree.Block.{out-Block};
ghost use Rattle.typing_rules.specs.Outcomes.{Keeps};
ghost use Rattle.typing_rules.specs.Rules.Functions as functions;
ghost use Rattle.typing_rules.specs.Rules.Functions.{function_start};
ghost use Rattle.typing_rules.specs.Typing as spec;
ghost use Rattle.typing_rules.specs.Typing.{typing_of};
ghost use Rattle.static_types.specs.Bodies as bodies;

use crate::body::body;
use allowlist::Allow;
use pl_tree::{Function, Tree};
use pl_types::Fail;
use plain_data::Items;
use std::alloc::Global;
use typed_tree::{Program, TypedFunction};
use typing_rules::rules::bodies::{finished, function_start, main_of, main_start};
use typing_rules::rules::functions::headers;
use typing_rules::{ContextTypes, Header, Step};

/// The statements of a function's body, behind its header.
fn steps_of(
    alloc: Global,
    allow: &Allow,
    headers: &[Header],
    f: &Function,
    header: &Header,
) -> Result<Vec<Step>, Fail>
    ensures { bodies.KeepsSteps (bodies.steps_of allow.now headers.now false (out-Block f.now.body).statements (function_start header.now)) result }
{
    let state = function_start(alloc, header)?;
    body(alloc, allow, headers, state, &f.body.statements, false)
}

/// A function with its body, behind its header.
fn function(
    alloc: Global,
    allow: &Allow,
    headers: &[Header],
    f: &Function,
    header: &Header,
) -> Result<TypedFunction, Fail>
    ensures { Keeps (spec.function_of allow.now headers.now f.now header.now) result }
{
    match steps_of(alloc, allow, headers, f, header) {
        Ok(steps) => finished(alloc, f, header, steps),
        Err(fail) => Err(fail),
    }
}

/// The bodies of all functions, each behind its header.
#[tactic(auto, using(crate::proofs::Functions::behind_none, crate::proofs::Functions::behind_more, crate::proofs::Functions::behind_fails))]
fn functions(
    alloc: Global,
    allow: &Allow,
    headers: &[Header],
    functions: &[Function],
) -> Result<Items<TypedFunction>, Fail>
    ensures { Keeps (spec.functions allow.now headers.now functions.now headers.now) result }
{
    let mut done = Items::new(alloc);
    let mut left = headers;
    for f in functions {
        let Some((header, rest)) = left.split_first() else {
            return Ok(done);
        };
        let x = function(alloc, allow, headers, f, header)?;
        done.push(x)?;
        left = rest;
    }
    Ok(done)
}

/// The main script.
#[tactic(auto, using(crate::proofs::Functions::main_by))]
fn main(
    alloc: Global,
    allow: &Allow,
    context: &ContextTypes,
    headers: &[Header],
    tree: &Tree,
) -> Result<TypedFunction, Fail>
    ensures { Keeps (spec.main_of allow.now context.now headers.now tree.now.statements) result }
{
    let state = main_start(alloc, context)?;
    let steps = body(alloc, allow, headers, state, &tree.statements, true)?;
    Ok(main_of(alloc, context, steps)?)
}

/// The headers of a script's functions.
fn headers_of(alloc: Global, tree: &Tree) -> Result<Items<Header>, Fail>
    ensures { Keeps (functions.headers tree.now.functions []) result }
{
    let all = headers(alloc, tree.functions.as_slice())?;
    Ok(all)
}

/// Its functions, behind their headers.
fn functions_of(
    alloc: Global,
    allow: &Allow,
    headers: &Items<Header>,
    tree: &Tree,
) -> Result<Items<TypedFunction>, Fail>
    ensures { Keeps (spec.functions allow.now headers.now tree.now.functions headers.now) result }
{
    let all = functions(alloc, allow, headers.as_slice(), tree.functions.as_slice())?;
    Ok(all)
}

/// Its main script.
fn main_script(
    alloc: Global,
    allow: &Allow,
    context: &ContextTypes,
    headers: &Items<Header>,
    tree: &Tree,
) -> Result<TypedFunction, Fail>
    ensures { Keeps (spec.main_of allow.now context.now headers.now tree.now.statements) result }
{
    main(alloc, allow, context, headers.as_slice(), tree)
}

/// The program of a script, by the variables and the result of a context, and by the members that the allowlist has.
///
/// Refused by the first rule that is broken: the headers of the functions come first, in their order, then their bodies, then the
/// main script; in each the parts of a node from the left to the right, and then the node.
/// - UnknownVariable, 4: no name in sight is this.
/// - AlreadyDefined, 5: a name is declared again while it is in sight, or a function has the name and the number of parameters of one
///   before it.
/// - UnknownType, 6: a name in a type's place means no class.
/// - UnknownMember, 7: a type has no member of this name and with so many parameters that the allowlist has.
/// - UnknownFunction, 8: no function has this name and so many parameters.
/// - BadCast, 9: a type is not cast to the one that is wanted.
/// - BadOperand, 10: an operator does not take these operands.
/// - NotAStatement, 11: an expression statement that does nothing.
/// - Unreachable, 12: a statement stands behind one that escapes.
/// - MissingReturn, 13: a function that wants a value may end without one.
/// - BadJump, 14: `break` or `continue` outside a loop.
/// - NotAssignable, 15: what is written to is no variable.
/// - BadNullable, 17: `?.` or `?:` where the left side, or what comes of it, is never null.
/// - LiteralRange, 18: an integer literal is out of its type's range.
/// - OutOfProfile, 19: what is not built.
#[tactic(auto, using(crate::proofs::Functions::typing_is, crate::proofs::Functions::main_fails))]
pub fn elaborate(
    alloc: Global,
    allow: &Allow,
    context: &ContextTypes,
    tree: &Tree,
) -> Result<Program, Fail>
    ensures exact { Keeps (typing_of allow.now context.now tree.now) result }
{
    let headers = headers_of(alloc, tree)?;
    let functions = functions_of(alloc, allow, &headers, tree)?;
    let main = main_script(alloc, allow, context, &headers, tree)?;
    Ok(Program { functions, main })
}
