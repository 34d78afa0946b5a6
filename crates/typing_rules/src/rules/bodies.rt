//! What a body begins with, and what it comes to.

ghost use Rattle.std.specs.Prelude.{◌≡◌, IfOk, Ok};
ghost use Rattle.typing_rules.specs.Outcomes.{Keeps};
ghost use Rattle.typing_rules.specs.Rules.Functions as spec;
ghost use Rattle.typing_rules.specs.Rules.Statements.{statements_of};

use crate::header::{ContextTypes, Header};
use crate::part::Step;
use crate::refuse::refuse;
use crate::rules::nodes::is_void;
use crate::rules::places::copies;
use crate::rules::statements::{last_escapes, statements_of};
use crate::scopes::{Entry, Scopes, Standing};
use crate::state::State;
use pl_tree::Function;
use pl_types::{Fail, Ty, rules};
use plain_data::{Items, Text};
use std::alloc::{AllocError, Global};
use typed_tree::{FunctionKind, Named, TypedFunction};

fn entries(alloc: Global, standing: Standing, names: &[Named]) -> Result<Scopes, AllocError>
    ensures { IfOk result (λ s. s ≡ spec.entries standing names.now) }
{
    let mut scopes = Scopes::new(alloc);
    for n in names {
        let (name, of) = copies(alloc, &n.name, &n.of)?;
        scopes.push(alloc, Entry { name, of, standing })?;
    }
    Ok(scopes)
}

fn start(
    alloc: Global,
    standing: Standing,
    names: &[Named],
    wanted: &Ty,
) -> Result<State, AllocError>
    ensures { IfOk result (λ s. s ≡ spec.start standing names.now wanted.now) }
{
    let scopes = entries(alloc, standing, names)?;
    let result = wanted.share(alloc)?;
    Ok(State {
        scopes,
        base: 0,
        result,
        looped: false,
    })
}

/// What is known where a function's body begins: its parameters alone.
pub fn function_start(alloc: Global, header: &Header) -> Result<State, AllocError>
    ensures { IfOk result (λ s. s ≡ spec.function_start header.now) }
{
    start(
        alloc,
        Standing::Variable,
        header.parameters.as_slice(),
        &header.result,
    )
}

/// What is known where the main script begins: the variables of its context.
pub fn main_start(alloc: Global, context: &ContextTypes) -> Result<State, AllocError>
    ensures { IfOk result (λ s. s ≡ spec.main_start context.now) }
{
    start(
        alloc,
        Standing::Fixed,
        context.variables.as_slice(),
        &context.result,
    )
}

fn copied_names(alloc: Global, names: &[Named]) -> Result<Items<Named>, AllocError>
    ensures { IfOk result (λ c. c ≡ names.now) }
{
    let mut all = Items::new(alloc);
    for n in names {
        let (name, of) = copies(alloc, &n.name, &n.of)?;
        all.push(Named { name, of })?;
    }
    Ok(all)
}

/// A header with copies of these.
fn copied(alloc: Global, name: &str, parameters: &[Named], gives: &Ty) -> Result<Header, AllocError>
    ensures { IfOk result (λ h. h ≡ spec.header name.now parameters.now gives.now) }
{
    let result = gives.share(alloc)?;
    let name = Text::new(alloc, name)?;
    let parameters = copied_names(alloc, parameters)?;
    Ok(Header {
        name,
        parameters,
        result,
    })
}

/// A function with its header and its statements.
fn function(
    alloc: Global,
    kind: FunctionKind,
    at: u32,
    header: Header,
    steps: Vec<Step>,
) -> Result<TypedFunction, AllocError>
    ensures { IfOk result (λ x. x ≡ spec.with_body kind at header (statements_of steps.items)) }
{
    let body = statements_of(alloc, steps)?;
    Ok(header.with_body(alloc, kind, at, body))
}

fn named_function(
    alloc: Global,
    f: &Function,
    header: &Header,
    steps: Vec<Step>,
) -> Result<TypedFunction, Fail>
    ensures { Keeps (Ok (spec.function f.now header.now steps.items)) result }
{
    let parameters = header.parameters.as_slice();
    let header = copied(alloc, f.name.spelling.as_str(), parameters, &header.result)?;
    match function(alloc, FunctionKind::Named, f.name.at, header, steps) {
        Ok(function) => Ok(function),
        Err(_) => Err(Fail::NoMemory),
    }
}

/// A function with its body, whose statements are typed.
///
/// MissingReturn (13): it wants a value, and its body does not escape.
pub fn finished(
    alloc: Global,
    f: &Function,
    header: &Header,
    steps: Vec<Step>,
) -> Result<TypedFunction, Fail>
    ensures { Keeps (spec.finished f.now header.now steps.items) result }
{
    if !is_void(&header.result) && !last_escapes(&steps) {
        return Err(refuse(rules::MISSING_RETURN, f.name.at));
    }
    named_function(alloc, f, header, steps)
}

/// The main script with its statements, which are typed.
pub fn main_of(
    alloc: Global,
    context: &ContextTypes,
    steps: Vec<Step>,
) -> Result<TypedFunction, AllocError>
    ensures { IfOk result (λ x. x ≡ spec.main context.now steps.items) }
{
    let header = copied(alloc, "", context.variables.as_slice(), &context.result)?;
    function(alloc, FunctionKind::Main, 0, header, steps)
}
