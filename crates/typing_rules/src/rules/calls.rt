//! Calls of the script's own functions.

ghost use Rattle.std.specs.Prelude.{◌≡◌, ◌≤◌, ◌+◌, MatchOption, Some};
ghost use Rattle.typing_rules.specs.Outcomes.{Keeps};
ghost use Rattle.typing_rules.specs.Rules.Calls as spec;

use crate::header::Header;
use crate::part::{Form, Part};
use crate::refuse::refuse;
use crate::rules::casts::cast_next;
use crate::rules::nodes::part;
use pl_types::{Fail, rules};
use plain_data::{Items, Subtree, Text};
use std::alloc::Global;
use typed_tree::{Named, Node, Operation, Typed};

/// The number of the function with a name and a number of parameters, from 0, if there is one.
pub fn function_of(headers: &[Header], name: &Text, arity: usize) -> Option<usize>
    ensures { result ≡ spec.function_of headers.now name.now arity }
{
    headers.iter().position(|h| h.name.as_str() == name.as_str() && h.parameters.len() == arity)
}

/// Each argument cast to its parameter's type.
fn arguments(
    alloc: Global,
    parameters: &[Named],
    mut given: Vec<Part>,
) -> Result<Items<Subtree<Typed>>, Fail>
    ensures { Keeps (spec.arguments parameters.now given.items) result }
{
    let mut casts = Items::new(alloc);
    given.reverse();
    for parameter in parameters {
        cast_next(alloc, &parameter.of, &mut given, &mut casts)?;
    }
    Ok(casts)
}

/// What calls say of a function that is the so-manieth, from 0. `None` where a number of 32 bits does not count so far.
fn number_of(index: usize) -> Option<u32>
    ensures { MatchOption result (4294967295 ≤ index) (λ number. number ≡ index + 1) }
{
    match u32::try_from(index) {
        Ok(place) => place.checked_add(1),
        Err(_) => None,
    }
}

fn called(
    alloc: Global,
    header: &Header,
    at: u32,
    index: usize,
    given: Vec<Part>,
) -> Result<Part, Fail>
    ensures { Keeps (spec.called (Some header.now) at index given.items) result }
{
    let Some(number) = number_of(index) else {
        return Err(Fail::NoMemory);
    };
    let parts = arguments(alloc, header.parameters.as_slice(), given)?;
    let of = header.result.share(alloc)?;
    let operation = Operation::Function(number);
    part(alloc, at, Form::Deed, of, Node::Apply { operation, parts })
}

/// A call of a function of the script, at its name, with arguments that are typed.
///
/// UnknownFunction (8): no function has this name and takes so many arguments. BadCast (9): an argument has another type.
pub fn call_of(
    alloc: Global,
    headers: &[Header],
    at: u32,
    name: &Text,
    given: Vec<Part>,
) -> Result<Part, Fail>
    ensures { Keeps (spec.call_of headers.now at name.now given.items) result }
{
    let Some(index) = function_of(headers, name, given.len()) else {
        return Err(refuse(rules::UNKNOWN_FUNCTION, at));
    };
    match headers.get(index) {
        Some(header) => called(alloc, header, at, index, given),
        None => Err(refuse(rules::UNKNOWN_FUNCTION, at)),
    }
}
