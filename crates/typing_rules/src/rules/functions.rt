//! The headers of functions.

ghost use Rattle.std.specs.Prelude.{◌≡◌, []};
ghost use Rattle.typing_rules.specs.Outcomes.{Keeps};
ghost use Rattle.typing_rules.specs.Rules.Functions as spec;

use crate::header::Header;
use crate::refuse::refuse;
use crate::rules::calls::function_of;
use crate::rules::places::copy;
use crate::rules::types::{result_of, type_of};
use pl_tree::{Function, Parameter, TypeName};
use pl_types::{Fail, Ty, rules};
use plain_data::{Items, Text};
use std::alloc::Global;
use typed_tree::Named;

fn parameter_type(alloc: Global, at: u32, of: &Option<TypeName>) -> Result<Ty, Fail>
    ensures { Keeps (spec.parameter_type at of.now) result }
{
    match of {
        None => Err(refuse(rules::OUT_OF_PROFILE, at)),
        Some(of) => type_of(alloc, of),
    }
}

fn is_named(name: &Text, names: &[Named]) -> bool
    ensures { result ≡ spec.is_named name.now names.now }
{
    names.iter().any(|n| n.name.as_str() == name.as_str())
}

/// One parameter, behind others.
fn parameter(alloc: Global, parameter: &Parameter, before: &[Named]) -> Result<Named, Fail>
    ensures { Keeps (spec.parameter parameter.now before.now) result }
{
    let of = parameter_type(alloc, parameter.name.at, &parameter.of)?;
    if is_named(&parameter.name.spelling, before) {
        return Err(refuse(rules::ALREADY_DEFINED, parameter.name.at));
    }
    let name = copy(alloc, &parameter.name.spelling)?;
    Ok(Named { name, of })
}

fn parameters(alloc: Global, all: &[Parameter]) -> Result<Items<Named>, Fail>
    ensures { Keeps (spec.parameters all.now []) result }
{
    let mut names = Items::new(alloc);
    for one in all {
        let named = parameter(alloc, one, names.as_slice())?;
        names.push(named)?;
    }
    Ok(names)
}

/// A function's header, behind those of the functions before it.
///
/// UnknownType (6), OutOfProfile (19): a type that means none, or is not built. AlreadyDefined (5): two parameters have one name, or a
/// function before has this name and so many parameters.
pub fn header_of(alloc: Global, f: &Function, before: &[Header]) -> Result<Header, Fail>
    ensures { Keeps (spec.header_of f.now before.now) result }
{
    let result = result_of(alloc, &f.result)?;
    let parameters = parameters(alloc, f.parameters.as_slice())?;
    if function_of(before, &f.name.spelling, parameters.len()).is_some() {
        return Err(refuse(rules::ALREADY_DEFINED, f.name.at));
    }
    let name = copy(alloc, &f.name.spelling)?;
    Ok(Header {
        name,
        parameters,
        result,
    })
}

/// The headers of all functions, in their order. The refusals are those of [`header_of`].
pub fn headers(alloc: Global, functions: &[Function]) -> Result<Items<Header>, Fail>
    ensures { Keeps (spec.headers functions.now []) result }
{
    let mut headers = Items::new(alloc);
    for f in functions {
        let header = header_of(alloc, f, headers.as_slice())?;
        headers.push(header)?;
    }
    Ok(headers)
}
