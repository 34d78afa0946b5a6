//! What is asked of the texts whose functions are called.
ghost use Rattle.std.specs.Prelude.{◌≡◌};
ghost use Rattle.function_calls.specs.Targets as spec;

use object_values::Owner;
use plain_data::Items;

/// A member whose work is a function of the prelude's text.
#[derive(Clone, Copy)]
pub struct Work {
    /// The number of the member.
    pub member: u32,
    /// The number of the function.
    pub function: u32,
}

/// How many parameters the functions of both texts have, each by its number and with what it captures, and which functions of the
/// prelude's text are the work of members.
#[derive(Drop)]
pub struct Texts {
    /// Of the script's text.
    pub script: Items<u32>,
    /// Of the prelude's text.
    pub prelude: Items<u32>,
    /// The members whose work is a function of the prelude's.
    pub works: Items<Work>,
}

/// How many parameters a function has. `None` where there is none of this number.
pub(crate) fn parameters_in(texts: &Texts, owner: Owner, number: u32) -> Option<u32>
    ensures { result ≡ spec.parameters_in texts.now owner number }
{
    match owner {
        Owner::Script => texts.script.get(number as usize).copied(),
        Owner::Prelude => texts.prelude.get(number as usize).copied(),
    }
}

/// Whether a function takes so many values.
pub(crate) fn is_count(parameters: Option<u32>, count: usize) -> bool
    ensures { result ≡ spec.is_count parameters count }
{
    match parameters {
        Some(parameters) => parameters as usize == count,
        None => false,
    }
}

/// The function of the prelude's text that is the work of a member.
pub(crate) fn function_in(works: &[Work], member: u32) -> Option<u32>
    ensures { result ≡ spec.function_in works.now member }
{
    let mut left = works;
    'works: while let [work, others @ ..] = left {
        if work.member == member {
            return Some(work.function);
        }
        left = others;
    }
    None
}
