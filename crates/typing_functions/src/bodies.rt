//! What a function value runs.

ghost use Rattle.std.specs.Prelude.{◌≡◌, [], ◌∷◌, ◌++◌, map, false, IfOk, Ok};
ghost use Rattle.std.specs.Option.{option_copied};
ghost use Rattle.typing_rules.specs.Outcomes.{Keeps, bind};
ghost use Rattle.typing_rules.specs.Rules.Nodes as nodes;
ghost use Rattle.typing_rules.specs.Rules.Nodes.{is_void};
ghost use Rattle.typing_rules.specs.Rules.Statements as statements;
ghost use Rattle.pl_types.specs.declared.ty.Ty.{out-Ty};
ghost use Rattle.pl_types.specs.declared.ty.Ty.TheVariants as t;
ghost use Rattle.typed_tree.specs.declared.operation.Constant.TheVariants as k;
ghost use Rattle.typed_tree.specs.declared.typed.Node.TheVariants as n;
ghost use Rattle.typing_functions.specs.Bodies as spec;

use crate::nodes::{copy, plain};
use crate::refuse::refuse;
use crate::wanted::{Wanted, accepted, method_of, result_type, value_type};
use allowlist::{Allow, MemberType};
use pl_types::{Fail, Primitive, Ty, rules};
use plain_data::{Items, Subtree, Text};
use std::alloc::{AllocError, Global};
use typed_tree::{
    Constant, FunctionKind, Named, Node, StatementNode, Typed, TypedFunction, TypedStatement,
    TypedVariable,
};
use typing_rules::rules::casts::cast_to;
use typing_rules::rules::statements::statements_of;
use typing_rules::{Form, Part, Step};

fn step(alloc: Global, escapes: bool, at: u32, node: StatementNode) -> Result<Step, Fail>
    ensures { Keeps (Ok (statements.step escapes false at node)) result }
{
    let breaks = false;
    match TypedStatement::held(alloc, TypedStatement { at, node }) {
        Ok(statement) => Ok(Step {
            escapes,
            breaks,
            statement,
        }),
        Err(_) => Err(Fail::NoMemory),
    }
}

// ---- what is given back

fn returned(alloc: Global, at: u32, x: Subtree<Typed>) -> Result<Step, Fail>
    ensures { Keeps (Ok (spec.returned at x)) result }
{
    step(alloc, true, at, StatementNode::Return(Some(x)))
}

fn as_def(alloc: Global, at: u32, x: Part) -> Result<Step, Fail>
    ensures { Keeps (spec.as_def at x) result }
{
    let y = cast_to(alloc, &Ty::Def, x)?;
    returned(alloc, at, y)
}

/// What stands at a place, and is no literal and no statement.
fn plainly(at: u32, typed: Subtree<Typed>) -> Part
    ensures { result ≡ nodes.plain at typed }
{
    Part {
        at,
        form: Form::Other,
        typed,
    }
}

/// A `return` of a value where one of a type is wanted.
///
/// BadCast (9): the value has another type, or none is wanted.
pub fn given_back(alloc: Global, at: u32, of: &Ty, x: Part) -> Result<Step, Fail>
    ensures { Keeps (spec.given_back at of.now x) result }
{
    let stands = x.at;
    let y = cast_to(alloc, of, x)?;
    as_def(alloc, at, plainly(stands, y))
}

fn is_void(of: &Ty) -> bool
    ensures { result ≡ is_void of.now }
{
    match of {
        Ty::Void => true,
        _ => false,
    }
}

fn null(alloc: Global, at: u32) -> Result<Part, Fail>
    ensures { Keeps (Ok (nodes.plain at (nodes.typed at t.Def (n.Constant k.Null)))) result }
{
    plain(alloc, at, Ty::Def, Node::Constant(Constant::Null))
}

/// A `return` without a value.
///
/// MissingReturn (13): one is wanted.
pub fn nothing_given(alloc: Global, at: u32, of: &Ty) -> Result<Step, Fail>
    ensures { Keeps (spec.nothing_given at of.now) result }
{
    if !is_void(of) {
        return Err(refuse(rules::MISSING_RETURN, at));
    }
    let null = null(alloc, at)?;
    returned(alloc, at, null.into_typed())
}

fn given_or(alloc: Global, drops: bool, at: u32, of: &Ty, x: Part) -> Result<Step, Fail>
    ensures { Keeps (spec.given_or drops at of.now x) result }
{
    if drops {
        return step(alloc, false, at, StatementNode::Expression(x.into_typed()));
    }
    given_back(alloc, at, of, x)
}

/// The expression behind `->`.
///
/// BadCast (9): it does not go to the type that the method gives.
pub fn answered(alloc: Global, at: u32, method: Option<&MemberType>, x: Part) -> Result<Step, Fail>
    ensures { Keeps (spec.answered at (option_copied method.entry) x) result }
{
    match method {
        None => {
            let drops = is_void(x.of());
            given_or(alloc, drops, at, &Ty::Def, x)
        }
        Some(method) => given_or(alloc, is_void(&method.result), at, &method.result, x),
    }
}

// ---- where the body ends

fn zero_of(primitive: Primitive) -> Constant
    ensures { result ≡ spec.zero_of primitive }
{
    match primitive {
        Primitive::Boolean => Constant::Boolean(false),
        Primitive::Byte => Constant::Byte(0),
        Primitive::Short => Constant::Short(0),
        Primitive::Char => Constant::Char(0),
        Primitive::Int => Constant::Int(0),
        Primitive::Long => Constant::Long(0),
    }
}

fn default_of(alloc: Global, at: u32, primitive: Primitive) -> Result<Step, Fail>
    ensures { Keeps (spec.as_def at (spec.default_of at primitive)) result }
{
    let node = Node::Constant(zero_of(primitive));
    let default = plain(alloc, at, Ty::Prim(primitive), node)?;
    as_def(alloc, at, default)
}

fn last_escapes(steps: &[Step]) -> bool
    ensures { result ≡ statements.last_escapes steps.now }
{
    match steps.last() {
        Some(step) => step.escapes,
        None => false,
    }
}

/// A body that ends without a return gives the default of the type that is wanted, and null for a reference.
fn ending(
    alloc: Global,
    at: u32,
    of: &Ty,
    body: Items<Subtree<TypedStatement>>,
) -> Result<Items<Subtree<TypedStatement>>, Fail>
    ensures { Keeps (spec.ending_layer at (out-Ty of.now) body) result }
{
    match of {
        Ty::Prim(primitive) => ending_by(alloc, at, *primitive, body),
        _ => Ok(body),
    }
}

fn ending_by(
    alloc: Global,
    at: u32,
    primitive: Primitive,
    mut body: Items<Subtree<TypedStatement>>,
) -> Result<Items<Subtree<TypedStatement>>, Fail>
    ensures { Keeps (bind (spec.as_def at (spec.default_of at primitive)) (λ y. Ok (body ++ y.statement ∷ []))) result }
{
    let step = default_of(alloc, at, primitive)?;
    match body.push(step.into_statement()) {
        Ok(()) => Ok(body),
        Err(_) => Err(Fail::NoMemory),
    }
}

fn ended(
    alloc: Global,
    at: u32,
    of: &Ty,
    escapes: bool,
    body: Items<Subtree<TypedStatement>>,
) -> Result<Items<Subtree<TypedStatement>>, Fail>
    ensures { Keeps (spec.ended at of.now escapes body) result }
{
    if escapes {
        return Ok(body);
    }
    ending(alloc, at, of, body)
}

// ---- where it begins

fn is_def(of: &Ty) -> bool
    ensures { result ≡ spec.is_def of.now }
{
    match of {
        Ty::Def => true,
        _ => false,
    }
}

/// A name as the call gives it.
fn raw(alloc: Global, at: u32, x: &Named) -> Result<Part, Fail>
    ensures { Keeps (Ok (spec.raw at x.now)) result }
{
    let name = copy(alloc, &x.name)?;
    plain(alloc, at, Ty::Def, Node::Local(name))
}

fn variable(
    alloc: Global,
    at: u32,
    x: &Named,
    value: Subtree<Typed>,
) -> Result<TypedVariable, AllocError>
    ensures { IfOk result (λ v. v ≡ spec.variable at x.now value) }
{
    let name = copy(alloc, &x.name)?;
    let of = x.of.share(alloc)?;
    let value = Some(value);
    Ok(TypedVariable {
        at,
        name,
        of,
        value,
    })
}

fn opened(alloc: Global, at: u32, x: &Named, value: Subtree<Typed>) -> Result<Step, Fail>
    ensures { Keeps (Ok (spec.opened at x.now value)) result }
{
    let mut variables = Items::new(alloc);
    variables.push(variable(alloc, at, x, value)?)?;
    step(alloc, false, at, StatementNode::Declare(variables))
}

/// The cast of a name that is of another type, behind what is there.
fn opening(
    alloc: Global,
    at: u32,
    x: &Named,
    mut before: Items<Subtree<TypedStatement>>,
) -> Result<Items<Subtree<TypedStatement>>, Fail>
    ensures { Keeps (spec.opening at x.now before) result }
{
    if is_def(&x.of) {
        return Ok(before);
    }
    let raw = raw(alloc, at, x)?;
    let value = cast_to(alloc, &x.of, raw)?;
    let step = opened(alloc, at, x, value)?;
    match before.push(step.into_statement()) {
        Ok(()) => Ok(before),
        Err(_) => Err(Fail::NoMemory),
    }
}

fn openings(
    alloc: Global,
    at: u32,
    names: &[Named],
    before: Items<Subtree<TypedStatement>>,
) -> Result<Items<Subtree<TypedStatement>>, Fail>
    ensures { Keeps (spec.openings at names.now before) result }
{
    let mut body = before;
    for x in names {
        body = opening(alloc, at, x, body)?;
    }
    Ok(body)
}

// ---- the function

fn untyped(alloc: Global, x: &Named) -> Result<Named, AllocError>
    ensures { IfOk result (λ n. n ≡ spec.untyped x.now) }
{
    let name = copy(alloc, &x.name)?;
    Ok(Named { name, of: Ty::Def })
}

fn all_untyped(alloc: Global, names: &[Named]) -> Result<Items<Named>, AllocError>
    ensures { IfOk result (λ all. all ≡ map spec.untyped names.now) }
{
    let mut all = Items::new(alloc);
    for x in names {
        all.push(untyped(alloc, x)?)?;
    }
    Ok(all)
}

fn function(
    alloc: Global,
    at: u32,
    captured: Items<Named>,
    parameters: &[Named],
    body: Items<Subtree<TypedStatement>>,
) -> Result<TypedFunction, AllocError>
    ensures { IfOk result (λ f. f ≡ spec.function at captured parameters.now body) }
{
    let parameters = all_untyped(alloc, parameters)?;
    let name = Text::new(alloc, "")?;
    Ok(TypedFunction {
        kind: FunctionKind::Lambda,
        at,
        name,
        captured,
        parameters,
        result: Ty::Def,
        body,
    })
}

fn whole_body(
    alloc: Global,
    at: u32,
    captured: &[Named],
    parameters: &[Named],
    of: &Ty,
    steps: Vec<Step>,
) -> Result<Items<Subtree<TypedStatement>>, Fail>
    ensures { Keeps (spec.body_of at captured.now parameters.now of.now steps.items) result }
{
    let escapes = last_escapes(&steps);
    let first = openings(alloc, at, captured, Items::new(alloc))?;
    let mut body = openings(alloc, at, parameters, first)?;
    let statements = statements_of(alloc, steps)?;
    let behind = ended(alloc, at, of, escapes, statements)?;
    match body.append(behind) {
        Ok(()) => Ok(body),
        Err(_) => Err(Fail::NoMemory),
    }
}

/// What a function value runs, at its place: the names that it copies, its parameters with types of their own, the type that its
/// returns give, and the statements of its body.
///
/// BadCast (9): def does not go to the type of a parameter.
pub fn function_of(
    alloc: Global,
    at: u32,
    captured: Items<Named>,
    parameters: &[Named],
    of: &Ty,
    steps: Vec<Step>,
) -> Result<TypedFunction, Fail>
    ensures { Keeps (spec.function_of at captured parameters.now of.now steps.items) result }
{
    let body = whole_body(alloc, at, captured.as_slice(), parameters, of, steps)?;
    match function(alloc, at, captured, parameters, body) {
        Ok(function) => Ok(function),
        Err(_) => Err(Fail::NoMemory),
    }
}

/// A lambda whose body is typed: which interface it has, and what it runs.
///
/// BadFunctionValue (16): the place takes no function value, or one with another number of parameters.
pub fn lambda_of(
    alloc: Global,
    allow: &Allow,
    wanted: Wanted,
    at: u32,
    captured: Items<Named>,
    parameters: &[Named],
    steps: Vec<Step>,
) -> Result<(Option<u32>, TypedFunction), Fail>
    ensures { Keeps (spec.lambda_of allow.now wanted at captured parameters.now steps.items) result }
{
    let count = parameters.len();
    let interface = accepted(allow, wanted, count, at)?;
    let of = result_type(alloc, method_of(allow, wanted, count))?;
    let function = function_of(alloc, at, captured, parameters, &of, steps)?;
    Ok((interface, function))
}

/// A function value, by the number of what it runs.
pub fn value(alloc: Global, interface: Option<u32>, at: u32, function: u32) -> Result<Part, Fail>
    ensures { Keeps (Ok (spec.value interface at function)) result }
{
    let node = Node::Lambda {
        interface,
        function,
    };
    plain(alloc, at, value_type(interface), node)
}
