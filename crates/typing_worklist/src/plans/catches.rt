//! What is to be done for the catches of a `try`.

ghost use Rattle.std.specs.Prelude.{◌≡◌, ◌++◌, slice_get, OnOk};
ghost use Rattle.pl_tree.specs.declared.tree.Catch.{out-Catch};
ghost use Rattle.typing_worklist.specs.Plans as spec;

use crate::item::{BindingItem, CatchItem, StatementAct, StatementItem, WorkItem, Worklist};
use pl_tree::Catch;
use plain_data::Items;
use std::alloc::AllocError;
use typing_actions::Config;

/// Catches from one on: this one, and then the rest.
fn catches<'a>(
    worklist: &mut Worklist<'a>,
    all: &'a Items<Catch>,
    at: usize,
) -> Result<(), AllocError>
    ensures { OnOk result (worklist.new ≡ spec.catches_plan all.now at (slice_get all.now at) ++ worklist.old) }
{
    let _count = all.len();
    match all.get(at) {
        None => Ok(()),
        Some(one) => worklist.put(&[
            WorkItem::Catch(CatchItem::One(one)),
            WorkItem::Catch(CatchItem::All(all, at + 1)),
        ]),
    }
}

/// A catch, before which so many names are in sight and so many steps are done: its name, which is in sight in its block, and the block.
fn catch<'a>(
    worklist: &mut Worklist<'a>,
    e: &'a Catch,
    names: usize,
    steps: usize,
) -> Result<(), AllocError>
    ensures { OnOk result (worklist.new ≡ spec.catch_plan names steps (out-Catch e.now) ++ worklist.old) }
{
    worklist.put(&[
        WorkItem::Binding(BindingItem::Catching(&e.of, &e.name)),
        WorkItem::Statement(StatementItem::Statements(&e.block.statements, 0, false, false)),
        WorkItem::DoStatement(StatementAct::Block(e.block.at, steps)),
        WorkItem::Binding(BindingItem::Caught(e.at, &e.of, &e.name.spelling)),
        WorkItem::DoStatement(StatementAct::Close(names)),
    ])
}

/// Puts on what is to be done for catches, in what is known.
pub fn plan<'a>(
    config: &Config,
    worklist: &mut Worklist<'a>,
    item: CatchItem<'a>,
) -> Result<(), AllocError>
    ensures { OnOk result (worklist.new ≡ spec.catch_items config.now item.entry ++ worklist.old) }
{
    match item {
        CatchItem::Try(at, all) => worklist.put(&[
            WorkItem::Catch(CatchItem::All(all, 0)),
            WorkItem::DoStatement(StatementAct::Try(at, config.catches.len())),
        ]),
        CatchItem::All(all, at) => catches(worklist, all, at),
        CatchItem::One(e) => catch(worklist, e, config.state.scopes.len(), config.steps.len()),
    }
}
