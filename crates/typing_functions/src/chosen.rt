//! `this::f`: the lambda that calls f.

ghost use Rattle.std.specs.Prelude.{◌≡◌, [], ◌∷◌, ◌++◌, position, drop, IfOk, Ok, Some};
ghost use Rattle.std.specs.List.{list_any};
ghost use Rattle.std.specs.Option.{option_copied};
ghost use Rattle.typing_rules.specs.Outcomes.{Keeps, KeepsIn};
ghost use Rattle.typing_rules.specs.Rules.Calls.{call_of};
ghost use Rattle.typing_functions.specs.Bodies as bodies;
ghost use Rattle.typing_functions.specs.Chosen as spec;
ghost use Rattle.typing_functions.specs.Wanted.{result_type};

use crate::bodies::{answered, function_of};
use crate::nodes::{copy, plain};
use crate::refuse::refuse;
use crate::wanted::{Wanted, method_in, method_of, parameter_of, result_type, taken};
use allowlist::{Allow, MemberType};
use pl_types::{Fail, rules};
use plain_data::{Items, Text};
use std::alloc::{AllocError, Global};
use typed_tree::{Named, Node, TypedFunction};
use typing_rules::rules::calls;
use typing_rules::{Header, Part, Step};

// ---- which function it means

fn there(found: Option<usize>, at: u32) -> Result<usize, Fail>
    ensures { Keeps (spec.there found at) result }
{
    match found {
        None => Err(refuse(rules::UNKNOWN_FUNCTION, at)),
        Some(number) => Ok(number),
    }
}

fn first_of(headers: &[Header], name: &Text) -> Option<usize>
    ensures { result ≡ position (spec.has_name name.now) headers.now }
{
    headers
        .iter()
        .position(|h| h.name.as_str() == name.as_str())
}

fn is_any(headers: &[Header], name: &Text) -> bool
    ensures { result ≡ list_any (spec.has_name name.now) headers.now }
{
    headers.iter().any(|h| h.name.as_str() == name.as_str())
}

/// Whether another function behind one has its name.
fn has_other(headers: &[Header], name: &Text) -> bool
    ensures { result ≡ spec.has_other name.now headers.now }
{
    match headers {
        [] => false,
        [_, rest @ ..] => is_any(rest, name),
    }
}

fn from(headers: &[Header], number: usize) -> &[Header]
    ensures { result.now ≡ drop number headers.now }
{
    match headers.get(number..) {
        Some(rest) => rest,
        None => &[],
    }
}

/// The one function of a name.
fn only(headers: &[Header], name: &Text, at: u32) -> Result<usize, Fail>
    ensures { Keeps (spec.only headers.now name.now at) result }
{
    let number = there(first_of(headers, name), at)?;
    if has_other(from(headers, number), name) {
        return Err(refuse(rules::BAD_FUNCTION_VALUE, at));
    }
    Ok(number)
}

fn as_method(
    headers: &[Header],
    name: &Text,
    at: u32,
    method: Option<&MemberType>,
) -> Result<usize, Fail>
    ensures { Keeps (spec.as_method headers.now name.now at (option_copied method.entry)) result }
{
    match method {
        None => Err(refuse(rules::BAD_FUNCTION_VALUE, at)),
        Some(method) => there(calls::function_of(headers, name, method.params.len()), at),
    }
}

fn chosen(
    allow: &Allow,
    headers: &[Header],
    wanted: Wanted,
    at: u32,
    name: &Text,
) -> Result<usize, Fail>
    ensures { Keeps (spec.chosen allow.now headers.now wanted at name.now) result }
{
    match wanted {
        Wanted::Nothing => Err(refuse(rules::BAD_FUNCTION_VALUE, at)),
        Wanted::Any => only(headers, name, at),
        Wanted::Interface(class) => as_method(headers, name, at, method_in(allow, class)),
    }
}

// ---- what it runs

fn parameter(
    alloc: Global,
    method: Option<&MemberType>,
    at: usize,
    x: &Named,
) -> Result<Named, AllocError>
    ensures { IfOk result (λ n. n ≡ spec.parameter (option_copied method.entry) at x.now) }
{
    let of = parameter_of(alloc, method, at)?;
    let name = copy(alloc, &x.name)?;
    Ok(Named { name, of })
}

/// Parameters with the names of the function's, and the types of the method's.
fn parameters(
    alloc: Global,
    method: Option<&MemberType>,
    names: &[Named],
) -> Result<Items<Named>, AllocError>
    ensures { IfOk result (λ all. all ≡ spec.parameters (option_copied method.entry) names.now []) }
{
    let mut all = Items::new(alloc);
    for x in names {
        let next = parameter(alloc, method, all.len(), x)?;
        all.push(next)?;
    }
    Ok(all)
}

fn argument(alloc: Global, at: u32, x: &Named) -> Result<Part, Fail>
    ensures { Keeps (Ok (spec.argument at x.now)) result }
{
    let name = copy(alloc, &x.name)?;
    let of = x.of.share(alloc)?;
    plain(alloc, at, of, Node::Local(name))
}

/// The parameters as what is passed on, behind what is there.
fn arguments(alloc: Global, at: u32, names: &[Named], given: &mut Vec<Part>) -> Result<(), Fail>
    ensures { KeepsIn (Ok (given.old.items ++ spec.arguments at names.now)) result given.new.items }
{
    for x in names {
        let next = argument(alloc, at, x)?;
        given.push(next)?;
    }
    Ok(())
}

fn one_step(steps: &mut Vec<Step>, y: Step) -> Result<(), Fail>
    ensures { KeepsIn (Ok (steps.old.items ++ y ∷ [])) result steps.new.items }
{
    match steps.push(y) {
        Ok(()) => Ok(()),
        Err(_) => Err(Fail::NoMemory),
    }
}

fn call(
    alloc: Global,
    headers: &[Header],
    at: u32,
    name: &Text,
    parameters: &[Named],
) -> Result<Part, Fail>
    ensures { Keeps (call_of headers.now at name.now (spec.arguments at parameters.now)) result }
{
    let mut given = Vec::new(alloc);
    arguments(alloc, at, parameters, &mut given)?;
    calls::call_of(alloc, headers, at, name, given)
}

fn running(
    alloc: Global,
    at: u32,
    method: Option<&MemberType>,
    parameters: &[Named],
    y: Step,
) -> Result<TypedFunction, Fail>
    ensures { Keeps (bodies.function_of at [] parameters.now (result_type (option_copied method.entry)) (y ∷ [])) result }
{
    let mut steps = Vec::new(alloc);
    one_step(&mut steps, y)?;
    let of = result_type(alloc, method)?;
    function_of(alloc, at, Items::new(alloc), parameters, &of, steps)
}

fn answering(
    alloc: Global,
    at: u32,
    method: Option<&MemberType>,
    parameters: &[Named],
    x: Part,
) -> Result<TypedFunction, Fail>
    ensures { Keeps (spec.answering at (option_copied method.entry) parameters.now x) result }
{
    let y = answered(alloc, at, method, x)?;
    running(alloc, at, method, parameters, y)
}

fn calling(
    alloc: Global,
    headers: &[Header],
    at: u32,
    name: &Text,
    method: Option<&MemberType>,
    parameters: &[Named],
) -> Result<TypedFunction, Fail>
    ensures { Keeps (spec.calling headers.now at name.now (option_copied method.entry) parameters.now) result }
{
    let x = call(alloc, headers, at, name, parameters)?;
    answering(alloc, at, method, parameters, x)
}

/// The same, with the names of the function's parameters.
fn calling_as(
    alloc: Global,
    headers: &[Header],
    at: u32,
    name: &Text,
    method: Option<&MemberType>,
    names: &[Named],
) -> Result<TypedFunction, Fail>
    ensures { Keeps (spec.calling_as headers.now at name.now (option_copied method.entry) names.now) result }
{
    let parameters = parameters(alloc, method, names)?;
    calling(alloc, headers, at, name, method, parameters.as_slice())
}

fn calls_of(
    alloc: Global,
    allow: &Allow,
    headers: &[Header],
    wanted: Wanted,
    at: u32,
    name: &Text,
    header: &Header,
) -> Result<TypedFunction, Fail>
    ensures { Keeps (spec.calls allow.now headers.now wanted at name.now (Some header.now)) result }
{
    let names = header.parameters.as_slice();
    let method = method_of(allow, wanted, names.len());
    calling_as(alloc, headers, at, name, method, names)
}

/// `this::f`, at `this`: which interface it has, and what it runs.
///
/// BadFunctionValue (16): the place takes no function value, or the interface is found when the script runs and several functions have
/// the name. UnknownFunction (8): none has it, or none of it has as many parameters as the interface's method. BadCast (9): an argument
/// or the result has another type.
pub fn this_of(
    alloc: Global,
    allow: &Allow,
    headers: &[Header],
    wanted: Wanted,
    at: u32,
    name: &Text,
) -> Result<(Option<u32>, TypedFunction), Fail>
    ensures { Keeps (spec.this_of allow.now headers.now wanted at name.now) result }
{
    let number = chosen(allow, headers, wanted, at, name)?;
    let interface = taken(wanted, at)?;
    let Some(header) = headers.get(number) else {
        return Err(refuse(rules::UNKNOWN_FUNCTION, at));
    };
    let function = calls_of(alloc, allow, headers, wanted, at, name, header)?;
    Ok((interface, function))
}
