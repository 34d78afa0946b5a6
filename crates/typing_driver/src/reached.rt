//! What is behind a statement that is typed.

ghost use Rattle.std.specs.Prelude.{◌∷◌, ◌<◌, OnOk};
ghost use Rattle.typing_worklist.specs.Going.{Goes};
ghost use Rattle.typing_worklist.specs.Item as j;
ghost use Rattle.typing_worklist.specs.Machine.{run};
ghost use Rattle.typing_worklist.specs.Weights.{weights};

use allowlist::Allow;
use pl_tree::Statement;
use pl_types::Fail;
use plain_data::{Items, Subtree};
use typing_actions::{Config, take_top};
use typing_rules::Header;
use typing_rules::rules::statements::reached;
use typing_worklist::{StatementItem, WorkItem, Worklist};

/// Goes on behind a statement that is typed and stands at a place: behind one that escapes none is reached.
#[tactic(auto, unfolding(typing_worklist::specs::Machine::run))]
pub fn behind<'a>(
    _allow: &Allow,
    _headers: &[Header],
    config: &mut Config,
    worklist: &mut Worklist<'a>,
    all: &'a Items<Subtree<Statement>>,
    at: usize,
    place: u32,
    in_main: bool,
    after: bool,
) -> Result<(), Fail>
    ensures goes { Goes (run _allow.now _headers.now (j.Reached all.now at place in_main after ∷ worklist.old) config.old) result (run _allow.now _headers.now worklist.new config.new) }
    ensures falls { OnOk result (weights worklist.new < weights (j.Reached all.now at place in_main after ∷ worklist.old)) }
{
    let x = take_top(&mut config.steps)?;
    let x = reached(after, place, x)?;
    let escapes = x.escapes;
    config.steps.push(x)?;
    worklist.push(WorkItem::Statement(StatementItem::Statements(all, at, in_main, escapes)))?;
    Ok(())
}
