//! Acts on what is written to.

ghost use Rattle.std.specs.Prelude.{◌≡◌};
ghost use Rattle.typing_rules.specs.Outcomes.{KeepsIn};
ghost use Rattle.typing_actions.specs.Places as spec;

use crate::config::Config;
use crate::stack::{put, put_given, take_top};
use allowlist::Allow;
use pl_tree::{BinaryOperator, Step};
use pl_types::Fail;
use plain_data::Text;
use std::alloc::Global;
use typed_tree::Gives;
use typing_rules::Place;
use typing_rules::rules::{locations, places};

/// A name.
pub fn written(alloc: Global, config: &mut Config, at: u32, name: &Text) -> Result<(), Fail>
    ensures { KeepsIn (spec.written at name.now config.old) result config.new }
{
    let place = places::written(alloc, at, name, &config.state);
    put_given(&mut config.places, place)
}

/// What is no name.
pub fn fixed(config: &mut Config) -> Result<(), Fail>
    ensures { KeepsIn (spec.fixed config.old) result config.new }
{
    let _part = config.take_part()?;
    put(&mut config.places, Place::Fixed)
}

/// A name of a value.
pub fn named(
    alloc: Global,
    allow: &Allow,
    config: &mut Config,
    by: Option<u32>,
    at: u32,
    name: &Text,
) -> Result<(), Fail>
    ensures { KeepsIn (spec.named allow.now by at name.now config.old) result config.new }
{
    let x = config.take_part()?;
    let place = locations::name_location(alloc, allow, by, at, name, x);
    put_given(&mut config.places, place)
}

/// An element by its number.
pub fn numbered(
    alloc: Global,
    allow: &Allow,
    config: &mut Config,
    by: Option<u32>,
    at: u32,
    digits: &Text,
) -> Result<(), Fail>
    ensures { KeepsIn (spec.numbered allow.now by at digits.now config.old) result config.new }
{
    let x = config.take_part()?;
    let place = locations::number_location(alloc, allow, by, at, digits, x);
    put_given(&mut config.places, place)
}

/// An element in brackets.
pub fn indexed(
    alloc: Global,
    allow: &Allow,
    config: &mut Config,
    by: Option<u32>,
    at: u32,
) -> Result<(), Fail>
    ensures { KeepsIn (spec.indexed allow.now by at config.old) result config.new }
{
    let i = config.take_part()?;
    let x = config.take_part()?;
    let place = locations::index_location(alloc, allow, by, at, x, i);
    put_given(&mut config.places, place)
}

/// An assignment.
pub fn assign(
    alloc: Global,
    config: &mut Config,
    at: u32,
    operator: Option<BinaryOperator>,
) -> Result<(), Fail>
    ensures { KeepsIn (spec.assign at operator config.old) result config.new }
{
    let x = config.take_part()?;
    let place = take_top(&mut config.places)?;
    config.put_part(places::assign_of(alloc, at, operator, place, x))
}

/// `++` or `--`.
pub fn step(
    alloc: Global,
    config: &mut Config,
    at: u32,
    step: Step,
    gives: Gives,
) -> Result<(), Fail>
    ensures { KeepsIn (spec.step at step gives config.old) result config.new }
{
    let place = take_top(&mut config.places)?;
    config.put_part(places::step_of(alloc, at, step, gives, place))
}
