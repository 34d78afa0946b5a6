//! Acts on statements.

ghost use Rattle.std.specs.Prelude.{◌≡◌};
ghost use Rattle.typing_rules.specs.Outcomes.{KeepsIn};
ghost use Rattle.typing_actions.specs.Statements as spec;
ghost use Rattle.typing_actions.specs.Stacks.{TakesIf};

use crate::config::Config;
use crate::stack::{put, put_given, stuck, take_top, take_up};
use pl_tree::{Spelled, TypeName};
use pl_types::{Fail, Refusal, Ty, rules};
use plain_data::{Items, Text};
use plain_stack::Stack;
use std::alloc::Global;
use typing_rules::rules::{casts, loops, statements, types};
use typing_rules::{Form, Part, Step};

/// The test of an `if`.
pub fn test(alloc: Global, config: &mut Config) -> Result<(), Fail>
    ensures { KeepsIn (spec.test config.old) result config.new }
{
    let x = config.take_part()?;
    config.put_test(statements::test(alloc, x))
}

/// The test of a loop.
pub fn loop_test(alloc: Global, config: &mut Config) -> Result<(), Fail>
    ensures { KeepsIn (spec.loop_test config.old) result config.new }
{
    let x = config.take_part()?;
    put_given(&mut config.tests, statements::loop_test(alloc, x))
}

/// A test, an update or a first value that is missing.
pub fn no_test(config: &mut Config) -> Result<(), Fail>
    ensures { KeepsIn (spec.no_test config.old) result config.new }
{
    put(&mut config.tests, None)
}

/// What a `for` begins with.
pub fn deed(alloc: Global, config: &mut Config, at: u32) -> Result<(), Fail>
    ensures { KeepsIn (spec.deed at config.old) result config.new }
{
    let x = config.take_part()?;
    config.put_step(statements::deed(alloc, at, x))
}

/// What a `for` goes on with.
pub fn update(config: &mut Config, at: u32) -> Result<(), Fail>
    ensures { KeepsIn (spec.update at config.old) result config.new }
{
    let x = config.take_part()?;
    let Form::Deed = x.form else {
        return Err(Fail::Refused(Refusal {
            number: rules::NOT_A_STATEMENT,
            offset: at,
        }));
    };
    put(&mut config.tests, Some(x.into_typed()))
}

/// What a variable begins with.
pub fn initial(alloc: Global, config: &mut Config, of: &TypeName) -> Result<(), Fail>
    ensures { KeepsIn (spec.initial of.now config.old) result config.new }
{
    let x = config.take_part()?;
    let to = types::type_of(alloc, of)?;
    config.put_test(casts::cast_to(alloc, &to, x))
}

/// A variable, whose value is typed.
pub fn variable(
    alloc: Global,
    config: &mut Config,
    name: &Spelled,
    of: &TypeName,
) -> Result<(), Fail>
    ensures { KeepsIn (spec.variable name.now of.now config.old) result config.new }
{
    let value = take_top(&mut config.tests)?;
    let to = types::type_of(alloc, of)?;
    put_given(
        &mut config.variables,
        statements::variable_of(alloc, name, &to, value, &mut config.state),
    )
}

/// An expression statement.
pub fn expression(alloc: Global, config: &mut Config, at: u32, last: bool) -> Result<(), Fail>
    ensures { KeepsIn (spec.expression at last config.old) result config.new }
{
    let x = config.take_part()?;
    let step = statements::expression_of(alloc, at, last, x, &config.state);
    config.put_step(step)
}

/// A `return` with a value.
pub fn return_value(alloc: Global, config: &mut Config, at: u32) -> Result<(), Fail>
    ensures { KeepsIn (spec.return_value at config.old) result config.new }
{
    let x = config.take_part()?;
    let step = statements::return_of(alloc, at, x, &config.state);
    config.put_step(step)
}

/// A `throw`.
pub fn throw(alloc: Global, config: &mut Config, at: u32) -> Result<(), Fail>
    ensures { KeepsIn (spec.throw at config.old) result config.new }
{
    let x = config.take_part()?;
    config.put_step(statements::throw_of(alloc, at, x))
}

/// A `return` without a value.
pub fn return_nothing(alloc: Global, config: &mut Config, at: u32) -> Result<(), Fail>
    ensures { KeepsIn (spec.return_nothing at config.old) result config.new }
{
    let step = statements::nothing_returned(alloc, at, &config.state);
    config.put_step(step)
}

/// A `break`.
pub fn break_loop(alloc: Global, config: &mut Config, at: u32) -> Result<(), Fail>
    ensures { KeepsIn (spec.break_loop at config.old) result config.new }
{
    let step = statements::break_of(alloc, at, &config.state);
    config.put_step(step)
}

/// A `continue`.
pub fn continue_loop(alloc: Global, config: &mut Config, at: u32) -> Result<(), Fail>
    ensures { KeepsIn (spec.continue_loop at config.old) result config.new }
{
    let step = statements::continue_of(alloc, at, &config.state);
    config.put_step(step)
}

/// A block of the statements above a height.
pub fn block(alloc: Global, config: &mut Config, at: u32, height: usize) -> Result<(), Fail>
    ensures { KeepsIn (spec.block at height config.old) result config.new }
{
    let steps = take_up(alloc, &mut config.steps, height)?;
    config.put_built(statements::block_of(alloc, at, steps))
}

/// A declaration of the variables above a height.
pub fn declaration(alloc: Global, config: &mut Config, at: u32, height: usize) -> Result<(), Fail>
    ensures { KeepsIn (spec.declaration at height config.old) result config.new }
{
    let variables = take_up(alloc, &mut config.variables, height)?;
    config.put_built(statements::declaration_of(alloc, at, Items::from_vec(variables)))
}

/// An `if` without an `else`.
pub fn if_alone(alloc: Global, config: &mut Config, at: u32) -> Result<(), Fail>
    ensures { KeepsIn (spec.if_alone at config.old) result config.new }
{
    let test = take_top(&mut config.tests)?;
    let then = take_top(&mut config.steps)?;
    let Some(condition) = test else {
        return Err(stuck());
    };
    config.put_built(statements::if_of(alloc, at, condition, then, None))
}

/// An `if` with an `else`.
pub fn if_else(alloc: Global, config: &mut Config, at: u32) -> Result<(), Fail>
    ensures { KeepsIn (spec.if_else at config.old) result config.new }
{
    let test = take_top(&mut config.tests)?;
    let otherwise = take_top(&mut config.steps)?;
    let then = take_top(&mut config.steps)?;
    let Some(condition) = test else {
        return Err(stuck());
    };
    config.put_built(statements::if_of(alloc, at, condition, then, Some(otherwise)))
}

/// Takes a step off, if one is there.
fn take_if(steps: &mut Stack<Step>, there: bool) -> Result<Option<Step>, Fail>
    ensures { TakesIf there steps.old steps.new result }
{
    if !there {
        return Ok(None);
    }
    match take_top(steps) {
        Ok(step) => Ok(Some(step)),
        Err(fail) => Err(fail),
    }
}

/// A loop, with its test and its update, and with a first step and a body where there are some.
pub fn whole_loop(
    alloc: Global,
    config: &mut Config,
    at: u32,
    has_first: bool,
    has_body: bool,
) -> Result<(), Fail>
    ensures { KeepsIn (spec.whole_loop at has_first has_body config.old) result config.new }
{
    let update = take_top(&mut config.tests)?;
    let test = take_top(&mut config.tests)?;
    let body = take_if(&mut config.steps, has_body)?;
    let first = take_if(&mut config.steps, has_first)?;
    config.put_built(statements::loop_of(alloc, at, first, test, update, body))
}

/// How a loop over the elements of a value begins.
fn each_begun(
    alloc: Global,
    config: &mut Config,
    at: u32,
    name: &Spelled,
    to: Ty,
    x: Part,
) -> Result<(), Fail>
    ensures { KeepsIn (spec.each_begun at name.now to x config.old) result config.new }
{
    let each = loops::each_of(alloc, at, &name.spelling, &to, x, &config.state)?;
    let (first, element) = each.into_steps();
    config.state.declare(alloc, name.at, &name.spelling, to)?;
    put(&mut config.steps, first)?;
    put(&mut config.steps, element)
}

/// The same, with a variable of a type that was looked at before.
pub fn each(
    alloc: Global,
    config: &mut Config,
    at: u32,
    name: &Spelled,
    of: &TypeName,
) -> Result<(), Fail>
    ensures { KeepsIn (spec.each at name.now of.now config.old) result config.new }
{
    let x = config.take_part()?;
    let to = types::type_of(alloc, of)?;
    each_begun(alloc, config, at, name, to, x)
}

/// The same, with a variable of type def.
pub fn each_def(alloc: Global, config: &mut Config, at: u32, name: &Spelled) -> Result<(), Fail>
    ensures { KeepsIn (spec.each_def at name.now config.old) result config.new }
{
    let x = config.take_part()?;
    each_begun(alloc, config, at, name, Ty::Def, x)
}

/// A loop over elements, whose body is typed.
pub fn each_loop(alloc: Global, config: &mut Config, at: u32) -> Result<(), Fail>
    ensures { KeepsIn (spec.each_loop at config.old) result config.new }
{
    let body = take_top(&mut config.steps)?;
    let element = take_top(&mut config.steps)?;
    let first = take_top(&mut config.steps)?;
    config.put_step(loops::each_loop(alloc, at, first, element, body))
}

/// A `do`.
pub fn do_loop(alloc: Global, config: &mut Config, at: u32) -> Result<(), Fail>
    ensures { KeepsIn (spec.do_loop at config.old) result config.new }
{
    let test = take_top(&mut config.tests)?;
    let body = take_top(&mut config.steps)?;
    config.put_built(statements::do_of(alloc, at, body, test))
}

/// The name of a catch, which is in sight in its block.
///
/// What `caught_class` refuses. AlreadyDefined (5): the name is in sight.
pub fn catching(
    alloc: Global,
    config: &mut Config,
    of: &TypeName,
    name: &Spelled,
) -> Result<(), Fail>
    ensures { KeepsIn (spec.catching of.now name.now config.old) result config.new }
{
    let class = types::caught_class(of)?;
    config
        .state
        .declare(alloc, name.at, &name.spelling, Ty::Class(class))
}

/// A catch, whose block is typed.
pub fn catch(
    alloc: Global,
    config: &mut Config,
    at: u32,
    of: &TypeName,
    name: &Text,
) -> Result<(), Fail>
    ensures { KeepsIn (spec.catch at of.now name.now config.old) result config.new }
{
    let body = take_top(&mut config.steps)?;
    let class = types::caught_class(of)?;
    match statements::caught(alloc, at, class, name, body) {
        Ok(caught) => put(&mut config.catches, caught),
        Err(_) => Err(Fail::NoMemory),
    }
}

/// A `try`, whose block is typed, with the catches above a height.
pub fn whole_try(alloc: Global, config: &mut Config, at: u32, height: usize) -> Result<(), Fail>
    ensures { KeepsIn (spec.whole_try at height config.old) result config.new }
{
    let catches = take_up(alloc, &mut config.catches, height)?;
    let body = take_top(&mut config.steps)?;
    config.put_built(statements::try_of(alloc, at, body, catches))
}
