//! The statements of a body.

ghost use Rattle.std.specs.Prelude.{◌≡◌, reverse, IfOk, Ok};
ghost use Rattle.typing_driver.specs.Machine as worklist;
ghost use Rattle.static_types.specs.Bodies as spec;

use allowlist::Allow;
use pl_tree::Statement;
use pl_types::Fail;
use plain_data::{Items, Subtree};
use plain_stack::Stack;
use std::alloc::{AllocError, Global};
use typing_actions::{Config, take_up};
use typing_driver::{StatementItem, WorkItem, Worklist, run};
use typing_rules::{Header, State, Step};

/// Nothing is typed so far.
fn fresh(alloc: Global, state: State) -> Config
    ensures { result ≡ spec.fresh state }
{
    Config {
        state,
        parts: Stack::new(alloc),
        places: Stack::new(alloc),
        tests: Stack::new(alloc),
        variables: Stack::new(alloc),
        steps: Stack::new(alloc),
        catches: Stack::new(alloc),
    }
}

/// What is to be done for a body.
fn worklist_of<'a>(
    alloc: Global,
    all: &'a Items<Subtree<Statement>>,
    in_main: bool,
) -> Result<Worklist<'a>, AllocError>
    ensures { IfOk result (λ worklist. worklist ≡ spec.items_of in_main all.now) }
{
    let mut worklist = Worklist::new(alloc);
    let item = WorkItem::Statement(StatementItem::Statements(all, 0, in_main, false));
    worklist.push(item)?;
    Ok(worklist)
}

/// What is known, and the statements, where a body ends.
fn ended(
    alloc: Global,
    allow: &Allow,
    headers: &[Header],
    state: State,
    all: &Items<Subtree<Statement>>,
    in_main: bool,
) -> Result<Config, Fail>
    ensures { spec.Ends (worklist.run allow.now headers.now (spec.items_of in_main all.now) (spec.fresh state)) result }
{
    let mut config = fresh(alloc, state);
    let mut worklist = worklist_of(alloc, all, in_main)?;
    run(alloc, allow, headers, &mut config, &mut worklist)?;
    Ok(config)
}

/// The statements that are typed.
#[tactic(auto, using(crate::proofs::Ends::taken_all))]
fn steps_in(alloc: Global, mut config: Config) -> Result<Vec<Step>, Fail>
    ensures { spec.KeepsSteps (Ok (reverse config.steps)) result }
{
    take_up(alloc, &mut config.steps, 0)
}

/// The statements of a body, in what is known where it begins.
#[tactic(auto, using(crate::proofs::Ends::body_ends, crate::proofs::Ends::body_fails))]
pub fn body(
    alloc: Global,
    allow: &Allow,
    headers: &[Header],
    state: State,
    all: &Items<Subtree<Statement>>,
    in_main: bool,
) -> Result<Vec<Step>, Fail>
    ensures { spec.KeepsSteps (spec.steps_of allow.now headers.now in_main all.now state) result }
{
    let config = ended(alloc, allow, headers, state, all, in_main)?;
    steps_in(alloc, config)
}
