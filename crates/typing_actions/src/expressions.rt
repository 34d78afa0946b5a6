//! Acts on expressions.

ghost use Rattle.std.specs.Prelude.{◌≡◌};
ghost use Rattle.typing_rules.specs.Outcomes.{KeepsIn};
ghost use Rattle.typing_actions.specs.Expressions as spec;

use crate::config::Config;
use crate::stack::{put, take_up};
use pl_tree::{BinaryOperator, Constant, TypeName, UnaryOperator};
use pl_types::Fail;
use plain_data::Text;
use std::alloc::Global;
use typing_rules::Header;
use typing_rules::rules::{calls, casts, containers, literals, operators, places, types};

/// An integer literal.
pub fn integer(alloc: Global, config: &mut Config, at: u32, spelling: &Text) -> Result<(), Fail>
    ensures { KeepsIn (spec.integer at spelling.now config.old) result config.new }
{
    config.put_part(literals::integer(alloc, at, spelling.as_str()))
}

/// One directly behind a minus.
pub fn negated_integer(
    alloc: Global,
    config: &mut Config,
    minus: u32,
    at: u32,
    spelling: &Text,
) -> Result<(), Fail>
    ensures { KeepsIn (spec.negated_integer minus at spelling.now config.old) result config.new }
{
    config.put_part(literals::negated_integer(alloc, minus, at, spelling.as_str()))
}

/// A text.
pub fn text(alloc: Global, config: &mut Config, at: u32, spelling: &Text) -> Result<(), Fail>
    ensures { KeepsIn (spec.text at spelling.now config.old) result config.new }
{
    config.put_part(literals::text(alloc, at, spelling.as_str()))
}

/// A literal that is a keyword.
pub fn constant(alloc: Global, config: &mut Config, at: u32, constant: Constant) -> Result<(), Fail>
    ensures { KeepsIn (spec.constant at constant config.old) result config.new }
{
    config.put_part(literals::constant(alloc, at, constant))
}

/// A name's value.
pub fn local(alloc: Global, config: &mut Config, at: u32, name: &Text) -> Result<(), Fail>
    ensures { KeepsIn (spec.local at name.now config.old) result config.new }
{
    let x = places::local(alloc, at, name, &config.state);
    config.put_part(x)
}

/// An operator between two operands.
pub fn binary(
    alloc: Global,
    config: &mut Config,
    operator: BinaryOperator,
    at: u32,
) -> Result<(), Fail>
    ensures { KeepsIn (spec.binary operator at config.old) result config.new }
{
    let y = config.take_part()?;
    let x = config.take_part()?;
    config.put_part(operators::binary_of(alloc, operator, at, x, y))
}

/// An operator before its operand.
pub fn unary(
    alloc: Global,
    config: &mut Config,
    operator: UnaryOperator,
    at: u32,
) -> Result<(), Fail>
    ensures { KeepsIn (spec.unary operator at config.old) result config.new }
{
    let x = config.take_part()?;
    config.put_part(operators::unary_of(alloc, operator, at, x))
}

/// A conditional.
pub fn choice(alloc: Global, config: &mut Config, at: u32) -> Result<(), Fail>
    ensures { KeepsIn (spec.choice at config.old) result config.new }
{
    let no = config.take_part()?;
    let yes = config.take_part()?;
    let condition = config.take_part()?;
    config.put_part(operators::choice_of(alloc, at, condition, yes, no))
}

/// `?:`.
pub fn elvis(alloc: Global, config: &mut Config, at: u32) -> Result<(), Fail>
    ensures { KeepsIn (spec.elvis at config.old) result config.new }
{
    let y = config.take_part()?;
    let x = config.take_part()?;
    config.put_part(operators::elvis_of(alloc, at, x, y))
}

/// `instanceof`.
pub fn instance_of(alloc: Global, config: &mut Config, at: u32, of: &TypeName) -> Result<(), Fail>
    ensures { KeepsIn (spec.instance_of at of.now config.old) result config.new }
{
    let x = config.take_part()?;
    let of = types::type_of(alloc, of)?;
    config.put_part(operators::instance_of(alloc, at, x, &of))
}

/// Brackets.
pub fn bracketed(config: &mut Config, at: u32) -> Result<(), Fail>
    ensures { KeepsIn (spec.bracketed at config.old) result config.new }
{
    let x = config.take_part()?;
    put(&mut config.parts, x.bracketed(at))
}

/// A list of the elements above a height.
pub fn list(alloc: Global, config: &mut Config, at: u32, height: usize) -> Result<(), Fail>
    ensures { KeepsIn (spec.list at height config.old) result config.new }
{
    let given = take_up(alloc, &mut config.parts, height)?;
    config.put_part(containers::list_of(alloc, at, given))
}

/// A map of the keys and values above a height.
pub fn map(alloc: Global, config: &mut Config, at: u32, height: usize) -> Result<(), Fail>
    ensures { KeepsIn (spec.map_ at height config.old) result config.new }
{
    let given = take_up(alloc, &mut config.parts, height)?;
    config.put_part(containers::map_of(alloc, at, given))
}

/// An array of the sizes above a height.
pub fn array(
    alloc: Global,
    config: &mut Config,
    at: u32,
    of: &TypeName,
    height: usize,
) -> Result<(), Fail>
    ensures { KeepsIn (spec.array at of.now height config.old) result config.new }
{
    let given = take_up(alloc, &mut config.parts, height)?;
    let of = types::type_of(alloc, of)?;
    config.put_part(containers::array_of(alloc, at, of, given))
}

/// An array of the elements above a height.
pub fn array_with(
    alloc: Global,
    config: &mut Config,
    at: u32,
    of: &TypeName,
    height: usize,
) -> Result<(), Fail>
    ensures { KeepsIn (spec.array_with at of.now height config.old) result config.new }
{
    let given = take_up(alloc, &mut config.parts, height)?;
    let of = types::type_of(alloc, of)?;
    config.put_part(containers::array_with(alloc, at, of, given))
}

/// A cast that is written.
pub fn asked(alloc: Global, config: &mut Config, at: u32, of: &TypeName) -> Result<(), Fail>
    ensures { KeepsIn (spec.asked at of.now config.old) result config.new }
{
    let x = config.take_part()?;
    let to = types::type_of(alloc, of)?;
    config.put_part(casts::asked(alloc, at, &to, x))
}

/// A call of a function of the script with the arguments above a height.
pub fn call(
    alloc: Global,
    headers: &[Header],
    config: &mut Config,
    at: u32,
    name: &Text,
    height: usize,
) -> Result<(), Fail>
    ensures { KeepsIn (spec.call headers.now at name.now height config.old) result config.new }
{
    let given = take_up(alloc, &mut config.parts, height)?;
    config.put_part(calls::call_of(alloc, headers, at, name, given))
}
