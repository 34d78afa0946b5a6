//! What acts do with a stack.

ghost use Rattle.std.specs.Prelude.{◌≡◌, ◌-◌, ◌∷◌, length, Ok};
ghost use Rattle.typing_actions.specs.Stacks.{Puts, TakesTop, TakesUp};
ghost use Rattle.typing_rules.specs.Outcomes.{KeepsIn, refusal};

use pl_types::{Fail, Refusal};
use plain_stack::Stack;
use std::alloc::Global;

/// A part that an act takes is not there.
pub(crate) fn stuck() -> Fail
    ensures { result ≡ Fail.Refused (refusal 0 0) }
{
    Fail::Refused(Refusal {
        number: 0,
        offset: 0,
    })
}

/// Takes the top off, as an act begins.
pub fn take_top<T>(stack: &mut Stack<T>) -> Result<T, Fail>
    ensures { TakesTop stack.old stack.new result }
{
    match stack.pop() {
        Some(top) => Ok(top),
        None => Err(stuck()),
    }
}

/// Takes off what lies above a height, the uppermost last.
pub fn take_up<T: Drop>(alloc: Global, stack: &mut Stack<T>, height: usize) -> Result<Vec<T>, Fail>
    ensures { TakesUp (length stack.old - height) stack.old stack.new result }
{
    match stack.take_above(alloc, height) {
        Ok(Some(taken)) => Ok(taken),
        Ok(None) => Err(stuck()),
        Err(_) => Err(Fail::NoMemory),
    }
}

/// Puts an item on the top, as an act ends.
pub(crate) fn put<T: Drop>(stack: &mut Stack<T>, item: T) -> Result<(), Fail>
    ensures { KeepsIn (Ok (item ∷ stack.old)) result stack.new }
{
    match stack.push(item) {
        Ok(()) => Ok(()),
        Err(_) => Err(Fail::NoMemory),
    }
}

/// Puts what a rule gives on the top, as an act ends, or passes on what the rule refuses.
pub(crate) fn put_given<T: Drop>(stack: &mut Stack<T>, given: Result<T, Fail>) -> Result<(), Fail>
    ensures { Puts given stack.old result stack.new }
{
    match given {
        Ok(item) => put(stack, item),
        Err(fail) => Err(fail),
    }
}
