//! Types, parameters and functions.

ghost use Rattle.std.specs.Prelude.{OnOk};
ghost use Rattle.pl_grammar.specs.Grammar as g;
ghost use Rattle.parse_values.specs.Stack.{AreOnTop, Reduces};

use parse_nodes::{base_of, before, or_none};
use parse_stack::Stack;
use parse_values::Value;
use pl_tree::{Function, Parameter, Spelled, TypeBase, TypeName};
use plain_data::Items;
use std::alloc::{AllocError, Global};

/// `of name(parameters) body`
pub fn function_of(alloc: Global, stack: &mut Stack) -> Result<(), AllocError>
    requires { AreOnTop g.function_of stack.old }
    ensures { OnOk result (Reduces g.function_of stack.old stack.new) }
{
    let body = stack.block();
    stack.skip();
    let parameters = or_none(alloc, stack.parameters_if_any());
    stack.skip();
    let name = stack.spelled();
    let of = stack.type_name();
    stack.push(
        alloc,
        Value::Function(Some(Function {
            result: of,
            name,
            parameters,
            body,
        })),
    )
}

/// The parameters of a function.
pub fn formal_list(alloc: Global, stack: &mut Stack) -> Result<(), AllocError>
    requires { AreOnTop g.formal_list stack.old }
    ensures { OnOk result (Reduces g.formal_list stack.old stack.new) }
{
    let others = stack.parameters();
    let one = stack.parameter();
    stack.push(alloc, Value::Parameters(Some(before(alloc, one, others)?)))
}

/// `of name`
pub fn formal_of(alloc: Global, stack: &mut Stack) -> Result<(), AllocError>
    requires { AreOnTop g.formal_of stack.old }
    ensures { OnOk result (Reduces g.formal_of stack.old stack.new) }
{
    let name = stack.spelled();
    let of = stack.type_name();
    stack.push(
        alloc,
        Value::Parameter(Some(Parameter { of: Some(of), name })),
    )
}

/// A parameter with no type.
pub fn bare_param(alloc: Global, stack: &mut Stack) -> Result<(), AllocError>
    requires { AreOnTop g.bare_param stack.old }
    ensures { OnOk result (Reduces g.bare_param stack.old stack.new) }
{
    let name = stack.spelled();
    stack.push(alloc, Value::Parameter(Some(Parameter { of: None, name })))
}

/// A type that a name begins.
pub fn name_type(alloc: Global, stack: &mut Stack) -> Result<(), AllocError>
    requires { AreOnTop g.name_type stack.old }
    ensures { OnOk result (Reduces g.name_type stack.old stack.new) }
{
    let brackets = stack.places();
    let Spelled { at, spelling } = stack.spelled();
    stack.push(
        alloc,
        Value::TypeName(Some(TypeName {
            at,
            base: TypeBase::Name(spelling),
            brackets,
        })),
    )
}

/// A type that begins with no name.
pub fn cast_type_of(alloc: Global, stack: &mut Stack) -> Result<(), AllocError>
    requires { AreOnTop g.cast_type_of stack.old }
    ensures { OnOk result (Reduces g.cast_type_of stack.old stack.new) }
{
    let brackets = stack.places();
    let token = stack.token();
    stack.push(
        alloc,
        Value::TypeName(Some(TypeName {
            at: token.start,
            base: base_of(token.kind),
            brackets,
        })),
    )
}

/// `[ ]`
pub fn square(alloc: Global, stack: &mut Stack) -> Result<(), AllocError>
    requires { AreOnTop g.square stack.old }
    ensures { OnOk result (Reduces g.square stack.old stack.new) }
{
    stack.skip();
    let at = stack.token().start;
    stack.push(alloc, Value::Place(Some(at)))
}

/// A name after `new`.
pub fn name_element(alloc: Global, stack: &mut Stack) -> Result<(), AllocError>
    requires { AreOnTop g.name_element stack.old }
    ensures { OnOk result (Reduces g.name_element stack.old stack.new) }
{
    let Spelled { at, spelling } = stack.spelled();
    stack.push(
        alloc,
        Value::TypeName(Some(TypeName {
            at,
            base: TypeBase::Name(spelling),
            brackets: Items::new(alloc),
        })),
    )
}

/// A type that is no name, after `new`.
pub fn known_element(alloc: Global, stack: &mut Stack) -> Result<(), AllocError>
    requires { AreOnTop g.known_element stack.old }
    ensures { OnOk result (Reduces g.known_element stack.old stack.new) }
{
    let token = stack.token();
    stack.push(
        alloc,
        Value::TypeName(Some(TypeName {
            at: token.start,
            base: base_of(token.kind),
            brackets: Items::new(alloc),
        })),
    )
}
