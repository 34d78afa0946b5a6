//! The states of shards.

ghost use Rattle.std.specs.Prelude.{◌≡◌, IfOk, option_map};
ghost use Rattle.serde_json.specs.View.{view};
ghost use Rattle.metric_ctx.specs.States.{AreStates, state_of, states_from};

use json_bridge::{GiveErr, give};
use object_heap::{End, Outcome};
use serde_json::Value as Json;
use std::alloc::{AllocError, AllocFailed, Global};

/// Why shards have no states.
#[derive(Clone, Copy, Debug, PartialEq, Eq, thiserror::Error)]
pub enum StateErr {
    /// The lowest shard that has failed is the one of this number.
    #[error("shard {0} has failed")]
    Failed(usize),
    /// Memory ran out.
    #[error("out of memory")]
    NoMemory,
}

impl From<AllocError> for StateErr {
    ghost use Rattle.metric_ctx.specs.declared.states.StateErr.TheVariants.{NoMemory};

    ghost from_gives = { λ _ e. e ≡ NoMemory };

    fn from(_error: AllocError) -> StateErr {
        StateErr::NoMemory
    }
}

impl<T: Drop> From<AllocFailed<T>> for StateErr {
    ghost use Rattle.metric_ctx.specs.declared.states.StateErr.TheVariants.{NoMemory};

    ghost from_gives = { λ _ e. e ≡ NoMemory };

    fn from(_error: AllocFailed<T>) -> StateErr {
        StateErr::NoMemory
    }
}

/// The state of a shard that came to this, if it has one.
fn state_of(outcome: &Outcome) -> Result<Option<Json>, AllocError>
    ensures { IfOk result (λ state. option_map view state ≡ state_of outcome.now) }
{
    match &outcome.end {
        End::Value(value) => match give(&outcome.heap, value) {
            Ok(state) => Ok(Some(state)),
            Err(GiveErr::NoMemory) => Err(AllocError),
            Err(GiveErr::Key | GiveErr::Depth | GiveErr::Size | GiveErr::Kind) => Ok(None),
        },
        End::Thrown { .. } | End::Limit { .. } => Ok(None),
    }
}

/// The states of shards, in their order: the JSON form of the value that each has ended with. A shard has failed that ended with an
/// error, or with a value that has no JSON form.
///
/// # Errors
///
/// `Failed` with the lowest shard that has failed, whichever failed first; want of memory.
pub fn states_of(alloc: Global, outcomes: &[Outcome]) -> Result<Vec<Json>, StateErr>
    ensures { AreStates result (states_from 0 outcomes.now) }
{
    let mut states = Vec::with_capacity(alloc, outcomes.len())?;
    for (number, outcome) in outcomes.iter().enumerate() {
        let Some(state) = state_of(outcome)? else {
            return Err(StateErr::Failed(number));
        };
        states.push(state)?;
    }
    Ok(states)
}
