//! The pass: items until none is left.

ghost use Rattle.std.specs.Prelude.{◌∷◌, ◌<◌, OnOk};
ghost use Rattle.typing_worklist.specs.Going.{Goes};
ghost use Rattle.typing_worklist.specs.Items.{item_of};
ghost use Rattle.typing_worklist.specs.Machine as spec;
ghost use Rattle.typing_worklist.specs.Weights.{weights};

use crate::{done, planned, reached};
use allowlist::Allow;
use pl_types::Fail;
use std::alloc::Global;
use typing_actions::Config;
use typing_rules::Header;
use typing_worklist::{WorkItem, Worklist};

/// Goes on with an item.
fn step<'a>(
    alloc: Global,
    allow: &Allow,
    headers: &[Header],
    config: &mut Config,
    worklist: &mut Worklist<'a>,
    item: WorkItem<'a>,
) -> Result<(), Fail>
    ensures goes { Goes (spec.run allow.now headers.now (item_of item.entry ∷ worklist.old) config.old) result (spec.run allow.now headers.now worklist.new config.new) }
    ensures falls { OnOk result (weights worklist.new < weights (item_of item.entry ∷ worklist.old)) }
{
    match item {
        WorkItem::Expression(e) => return planned::expression(allow, headers, config, worklist, e),
        WorkItem::Word(e) => return done::word(alloc, allow, headers, config, worklist, e),
        WorkItem::Binding(e) => return done::binding(alloc, allow, headers, config, worklist, e),
        WorkItem::Do(what) => return done::act(alloc, allow, headers, config, worklist, what),
        WorkItem::Statement(e) => return planned::statement(allow, headers, config, worklist, e),
        WorkItem::Loop(e) => return planned::loop_part(allow, headers, config, worklist, e),
        WorkItem::Declaration(e) => return planned::declaration(
            allow, headers, config, worklist, e,
        ),
        WorkItem::DoStatement(what) => return done::statement_act(
            alloc, allow, headers, config, worklist, what,
        ),
        WorkItem::Catch(e) => return planned::catch(allow, headers, config, worklist, e),
        WorkItem::Unbuilt(e) => return planned::unbuilt(allow, headers, config, worklist, e),
        WorkItem::Reached(all, at, place, in_main, after) => return reached::behind(
            allow, headers, config, worklist, all, at, place, in_main, after,
        ),
    }
}

/// Does items until none is left: with each, what is left weighs less.
#[tactic(auto, using(typing_worklist::proofs::Runs::run_none))]
pub fn run<'a>(
    alloc: Global,
    allow: &Allow,
    headers: &[Header],
    config: &mut Config,
    worklist: &mut Worklist<'a>,
) -> Result<(), Fail>
    ensures { Goes (spec.run allow.now headers.now worklist.old config.old) result (spec.ended config.new) }
{
    while let Some(item) = worklist.pop() {
        step(alloc, allow, headers, config, worklist, item)?;
    }
    Ok(())
}
