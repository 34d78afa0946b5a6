//! The body of a lambda: what is known in it, and behind it.

ghost use Rattle.std.specs.Prelude.{◌≡◌, IfOk, OnOk};
ghost use Rattle.std.specs.Option.{option_copied};
ghost use Rattle.typing_rules.specs.Outcomes.{KeepsBoth};
ghost use Rattle.typing_rules.specs.Rules.Functions.{named};
ghost use Rattle.typing_functions.specs.Entering as spec;

use crate::nodes::copy;
use crate::wanted::{parameter_type, result_type};
use allowlist::MemberType;
use pl_tree::Parameter;
use pl_types::{Fail, Ty};
use std::alloc::{AllocError, Global};
use typed_tree::Named;
use typing_rules::State;

/// What is known around a lambda while its body is typed.
pub struct Around {
    /// How many names are in sight.
    pub height: usize,
    /// How many of them were declared around the function value in which it stands.
    pub base: usize,
    /// What a `return` is to give.
    pub result: Ty,
    /// Whether a loop is around.
    pub looped: bool,
}

impl Drop for Around {
    fn drop(self) {
        let Around {
            height: _,
            base: _,
            result: _result,
            looped: _,
        } = self;
    }
}

impl Around {
    /// The four, in this order.
    fn into_parts(self) -> (usize, usize, Ty, bool)
        ensures { result ≡ (self.height, self.base, self.result, self.looped) }
    {
        let Around {
            height,
            base,
            result,
            looped,
        } = self;
        (height, base, result, looped)
    }
}

fn surroundings(alloc: Global, state: &State) -> Result<Around, AllocError>
    ensures { IfOk result (λ a. a ≡ spec.around state.now) }
{
    let result = state.result.share(alloc)?;
    Ok(Around {
        height: state.scopes.len(),
        base: state.base,
        result,
        looped: state.looped,
    })
}

/// The body of a lambda begins. What is known around it is given back, for [`leave`].
pub fn enter(
    alloc: Global,
    method: Option<&MemberType>,
    state: &mut State,
) -> Result<Around, AllocError>
    ensures around { IfOk result (λ a. a ≡ spec.around state.old) }
    ensures inside { OnOk result (state.new ≡ spec.entered (option_copied method.entry) state.old) }
{
    let around = surroundings(alloc, state)?;
    let result = result_type(alloc, method)?;
    state.base = around.height;
    state.result = result;
    state.looped = false;
    Ok(around)
}

/// A parameter with a type.
fn named(alloc: Global, p: &Parameter, of: Ty) -> Result<Named, AllocError>
    ensures { IfOk result (λ n. n ≡ named p.now.name.spelling of) }
{
    let name = copy(alloc, &p.name.spelling)?;
    Ok(Named { name, of })
}

/// A parameter of a lambda, counted from 0.
///
/// UnknownType (6), OutOfProfile (19): its type means none, or is not built. AlreadyDefined (5): its name is in sight.
pub fn parameter(
    alloc: Global,
    method: Option<&MemberType>,
    at: usize,
    p: &Parameter,
    state: &mut State,
) -> Result<Named, Fail>
    ensures { KeepsBoth (spec.parameter (option_copied method.entry) at p.now state.old) result state.new }
{
    let of = parameter_type(alloc, method, at, &p.of)?;
    let own = of.share(alloc)?;
    state.declare(alloc, p.name.at, &p.name.spelling, own)?;
    match named(alloc, p, of) {
        Ok(named) => Ok(named),
        Err(_) => Err(Fail::NoMemory),
    }
}

/// The body of a lambda ends.
pub fn leave(state: &mut State, around: Around)
    ensures { state.new ≡ spec.left around state.old }
{
    let (height, base, result, looped) = around.into_parts();
    state.close(height);
    state.base = base;
    state.result = result;
    state.looped = looped;
}
