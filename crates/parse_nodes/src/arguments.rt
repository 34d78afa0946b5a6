//! Lambdas and references to functions.

ghost use Rattle.std.specs.Prelude.{◌≡◌, IfOk};
ghost use Rattle.pl_grammar.specs.Making as making;

use crate::lists::single;
use pl_tree::{Argument, LambdaBody, Parameter, Spelled, TypeName};
use std::alloc::{AllocError, Global};

/// Where a parameter begins.
fn parameter_start(one: &Parameter) -> u32
    ensures { result ≡ making.parameter_start one.now.of one.now.name }
{
    match &one.of {
        None => one.name.at,
        Some(of) => of.at,
    }
}

/// A lambda of one parameter.
pub fn lambda_of(alloc: Global, one: Parameter, body: LambdaBody) -> Result<Argument, AllocError>
    ensures { IfOk result (λ argument. argument ≡ making.lambda_of one body) }
{
    let at = parameter_start(&one);
    let parameters = single(alloc, one)?;
    Ok(Argument::Lambda {
        at,
        parameters,
        body,
    })
}

/// A reference to a method of a type, or to its constructor.
pub fn reference_of(of: TypeName, name: Option<Spelled>) -> Argument
    ensures { result ≡ making.reference_of of name }
{
    match name {
        None => Argument::NewReference { of },
        Some(name) => Argument::Reference {
            of,
            spelling: name.spelling,
        },
    }
}
