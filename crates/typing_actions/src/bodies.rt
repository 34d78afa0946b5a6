//! Acts on what is known.

ghost use Rattle.std.specs.Prelude.{◌≡◌};
ghost use Rattle.typing_rules.specs.Outcomes.{KeepsIn};
ghost use Rattle.typing_actions.specs.Bodies as spec;

use crate::config::Config;
use pl_tree::{Spelled, TypeName};
use pl_types::{Fail, Ty};
use std::alloc::Global;
use typing_rules::rules::types::type_of;

/// Names declared since there were so many are forgotten.
pub fn close(config: &mut Config, height: usize)
    ensures { config.new ≡ spec.close height config.old }
{
    config.state.close(height);
}

/// Whether a loop is around.
pub fn looped(config: &mut Config, is: bool)
    ensures { config.new ≡ spec.looped is config.old }
{
    config.state.looped = is;
}

/// The body of a function value.
pub fn enter(config: &mut Config)
    ensures { config.new ≡ spec.enter config.old }
{
    config.state.base = config.state.scopes.len();
    config.state.result = Ty::Def;
    config.state.looped = false;
}

/// A type, which is only looked at.
pub fn look_at(alloc: Global, _config: &Config, of: &TypeName) -> Result<(), Fail>
    ensures { KeepsIn (spec.look_at of.now _config.now) result _config.now }
{
    match type_of(alloc, of) {
        Ok(_) => Ok(()),
        Err(fail) => Err(fail),
    }
}

/// A name that a construct which is not built declares.
///
/// AlreadyDefined (5): the name is in sight.
pub fn declare(alloc: Global, config: &mut Config, name: &Spelled, of: Ty) -> Result<(), Fail>
    ensures { KeepsIn (spec.declare name.now of config.old) result config.new }
{
    config.state.declare(alloc, name.at, &name.spelling, of)
}

/// The same, of a type that is written.
pub fn declare_of(
    alloc: Global,
    config: &mut Config,
    name: &Spelled,
    of: &TypeName,
) -> Result<(), Fail>
    ensures { KeepsIn (spec.declare_of name.now of.now config.old) result config.new }
{
    let of = type_of(alloc, of)?;
    declare(alloc, config, name, of)
}
