//! Acts on members.

ghost use Rattle.std.specs.Prelude.{◌≡◌};
ghost use Rattle.typing_rules.specs.Outcomes.{KeepsIn};
ghost use Rattle.typing_actions.specs.Members as spec;

use crate::config::Config;
use crate::stack::take_up;
use allowlist::Allow;
use pl_tree::{Access, TypeName};
use pl_types::Fail;
use plain_data::Text;
use std::alloc::Global;
use typing_rules::rules::{accesses, members, types};

/// A call on a value, which stands below the arguments above a height.
pub fn method(
    alloc: Global,
    allow: &Allow,
    config: &mut Config,
    at: u32,
    access: Access,
    name: &Text,
    height: usize,
) -> Result<(), Fail>
    ensures { KeepsIn (spec.method allow.now at access name.now height config.old) result config.new }
{
    let given = take_up(alloc, &mut config.parts, height)?;
    let x = config.take_part()?;
    config.put_part(members::method_of(alloc, allow, access, at, name, x, given))
}

/// A call on a type with the arguments above a height.
pub fn static_call(
    alloc: Global,
    allow: &Allow,
    config: &mut Config,
    at: u32,
    access: Access,
    of: &TypeName,
    name: &Text,
    height: usize,
) -> Result<(), Fail>
    ensures { KeepsIn (spec.static allow.now at access of.now name.now height config.old) result config.new }
{
    let given = take_up(alloc, &mut config.parts, height)?;
    let of = types::type_of(alloc, of)?;
    config.put_part(members::static_of(alloc, allow, access, at, name, &of, given))
}

/// `new` with the arguments above a height.
pub fn made(
    alloc: Global,
    allow: &Allow,
    config: &mut Config,
    at: u32,
    of: &TypeName,
    height: usize,
) -> Result<(), Fail>
    ensures { KeepsIn (spec.made allow.now at of.now height config.old) result config.new }
{
    let given = take_up(alloc, &mut config.parts, height)?;
    let of = types::type_of(alloc, of)?;
    config.put_part(members::new_of(alloc, allow, at, &of, given))
}

/// A name of a value.
pub fn read(
    alloc: Global,
    allow: &Allow,
    config: &mut Config,
    at: u32,
    access: Access,
    name: &Text,
) -> Result<(), Fail>
    ensures { KeepsIn (spec.read allow.now at access name.now config.old) result config.new }
{
    let x = config.take_part()?;
    config.put_part(accesses::read_of(alloc, allow, access, at, name, x))
}

/// An element by its number.
pub fn numbered(
    alloc: Global,
    allow: &Allow,
    config: &mut Config,
    at: u32,
    access: Access,
    digits: &Text,
) -> Result<(), Fail>
    ensures { KeepsIn (spec.numbered allow.now at access digits.now config.old) result config.new }
{
    let x = config.take_part()?;
    config.put_part(accesses::numbered_of(alloc, allow, access, at, digits, x))
}

/// An element in brackets.
pub fn indexed(alloc: Global, allow: &Allow, config: &mut Config, at: u32) -> Result<(), Fail>
    ensures { KeepsIn (spec.indexed allow.now at config.old) result config.new }
{
    let i = config.take_part()?;
    let x = config.take_part()?;
    config.put_part(accesses::index_of(alloc, allow, at, x, i))
}

/// A name of a type.
pub fn field(
    alloc: Global,
    allow: &Allow,
    config: &mut Config,
    at: u32,
    access: Access,
    of: &TypeName,
    name: &Text,
) -> Result<(), Fail>
    ensures { KeepsIn (spec.field allow.now at access of.now name.now config.old) result config.new }
{
    let of = types::type_of(alloc, of)?;
    config.put_part(members::field_of(alloc, allow, access, at, name, &of))
}
