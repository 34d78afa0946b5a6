//! What is to be done for a loop, and for its parts.

ghost use Rattle.std.specs.Prelude.{◌≡◌, ◌∷◌, ◌++◌, true, OnOk};
ghost use Rattle.pl_tree.specs.declared.tree.First.{out-First};
ghost use Rattle.typing_worklist.specs.Going.{is_there};
ghost use Rattle.typing_worklist.specs.Item as Item;
ghost use Rattle.typing_worklist.specs.Items.{statement_item};
ghost use Rattle.typing_worklist.specs.Plans as spec;
ghost use Rattle.typing_worklist.specs.declared.item.StatementAct.TheVariants as Acts;

use crate::item::{
    BindingItem, DeclarationItem, ExpressionItem, LoopItem, StatementAct, StatementItem, WordItem,
    WorkItem, Worklist,
};
use crate::plans::statements::{deed, has_body};
use pl_tree::{Body, Expr, First, Spelled, TypeName};
use plain_data::Subtree;
use std::alloc::AllocError;
use typing_actions::Config;

/// Whether a `for` does something first.
fn has_first(e: &Option<First>) -> bool
    ensures { result ≡ is_there e.now }
{
    match e {
        Some(_) => true,
        None => false,
    }
}

/// Puts on what is to be done for what a `for` does first.
fn first<'a>(worklist: &mut Worklist<'a>, e: &'a First) -> Result<(), AllocError>
    ensures { OnOk result (worklist.new ≡ spec.first_plan (out-First e.now) ++ worklist.old) }
{
    match e {
        First::Declare(declaration) => worklist.push(WorkItem::Declaration(DeclarationItem::Whole(
            declaration,
        ))),
        First::Expression(value) => worklist.push(WorkItem::Loop(LoopItem::Deed(value))),
    }
}

/// The same, for the body of a loop, if it has one.
fn loop_body<'a>(worklist: &mut Worklist<'a>, e: &'a Option<Body>) -> Result<(), AllocError>
    ensures { OnOk result (worklist.new ≡ spec.loop_body_plan e.now ++ worklist.old) }
{
    match e {
        None => Ok(()),
        Some(e) => worklist.push(WorkItem::Loop(LoopItem::Looping(e))),
    }
}

/// The same, for what a `for` does first, if anything.
fn first_if<'a>(worklist: &mut Worklist<'a>, e: &'a Option<First>) -> Result<(), AllocError>
    ensures { OnOk result (worklist.new ≡ spec.first_if_plan e.now ++ worklist.old) }
{
    match e {
        None => Ok(()),
        Some(e) => worklist.push(WorkItem::Loop(LoopItem::First(e))),
    }
}

/// The same, for the test of a `for`, if it has one.
fn condition<'a>(
    worklist: &mut Worklist<'a>,
    e: &'a Option<Subtree<Expr>>,
) -> Result<(), AllocError>
    ensures { OnOk result (worklist.new ≡ spec.condition_plan e.now ++ worklist.old) }
{
    match e {
        None => worklist.push(WorkItem::DoStatement(StatementAct::NoTest)),
        Some(e) => deed(worklist, e, StatementAct::LoopTest),
    }
}

/// The same, for its update, if it has one.
fn update_if<'a>(
    worklist: &mut Worklist<'a>,
    e: &'a Option<Subtree<Expr>>,
) -> Result<(), AllocError>
    ensures { OnOk result (worklist.new ≡ spec.update_if_plan e.now ++ worklist.old) }
{
    match e {
        None => worklist.push(WorkItem::DoStatement(StatementAct::NoTest)),
        Some(e) => worklist.push(WorkItem::Loop(LoopItem::Update(e))),
    }
}

/// The same, for the parts of a `for`.
fn for_parts<'a>(
    worklist: &mut Worklist<'a>,
    at: u32,
    first: &'a Option<First>,
    condition: &'a Option<Subtree<Expr>>,
    update: &'a Option<Subtree<Expr>>,
    body: &'a Option<Body>,
) -> Result<(), AllocError>
    ensures { OnOk result (worklist.new ≡ spec.for_plan at first.now condition.now update.now body.now ++ worklist.old) }
{
    worklist.put(&[
        WorkItem::Loop(LoopItem::FirstIf(first)),
        WorkItem::Loop(LoopItem::Condition(condition)),
        WorkItem::Loop(LoopItem::UpdateIf(update)),
        WorkItem::Loop(LoopItem::Body(body)),
        WorkItem::DoStatement(StatementAct::Loop(at, has_first(first), has_body(body))),
    ])
}

/// A part with a loop around it, behind which a loop is around or not, as before.
fn looping<'a>(
    worklist: &mut Worklist<'a>,
    part: StatementItem<'a>,
    before: bool,
) -> Result<(), AllocError>
    ensures { OnOk result (worklist.new ≡ Item.DoStatement (Acts.Looped true) ∷ statement_item part.entry ∷ Item.DoStatement (Acts.Looped before) ∷ worklist.old) }
{
    worklist.put(&[
        WorkItem::DoStatement(StatementAct::Looped(true)),
        WorkItem::Statement(part),
        WorkItem::DoStatement(StatementAct::Looped(before)),
    ])
}

/// The same, for a loop over elements in a scope of its own, where so many names are in sight.
fn each<'a>(
    worklist: &mut Worklist<'a>,
    names: usize,
    at: u32,
    of: &'a TypeName,
    name: &'a Spelled,
    over: &'a Subtree<Expr>,
    body: &'a Body,
) -> Result<(), AllocError>
    ensures { OnOk result (worklist.new ≡ spec.each_plan names at of.now name.now over.now body.now ++ worklist.old) }
{
    worklist.put(&[
        WorkItem::Word(WordItem::TypeOf(of)),
        WorkItem::Expression(ExpressionItem::Value(over)),
        WorkItem::Binding(BindingItem::Each(at, name, of)),
        WorkItem::Loop(LoopItem::Looping(body)),
        WorkItem::DoStatement(StatementAct::EachLoop(at)),
        WorkItem::DoStatement(StatementAct::Close(names)),
    ])
}

/// The same, with a variable of type def.
fn each_def<'a>(
    worklist: &mut Worklist<'a>,
    names: usize,
    at: u32,
    name: &'a Spelled,
    over: &'a Subtree<Expr>,
    body: &'a Body,
) -> Result<(), AllocError>
    ensures { OnOk result (worklist.new ≡ spec.each_def_plan names at name.now over.now body.now ++ worklist.old) }
{
    worklist.put(&[
        WorkItem::Expression(ExpressionItem::Value(over)),
        WorkItem::Binding(BindingItem::EachDef(at, name)),
        WorkItem::Loop(LoopItem::Looping(body)),
        WorkItem::DoStatement(StatementAct::EachLoop(at)),
        WorkItem::DoStatement(StatementAct::Close(names)),
    ])
}

/// Puts on what is to be done for a loop or a part of one, in what is known.
pub fn plan<'a>(
    config: &Config,
    worklist: &mut Worklist<'a>,
    item: LoopItem<'a>,
) -> Result<(), AllocError>
    ensures { OnOk result (worklist.new ≡ spec.loop_items config.now item.entry ++ worklist.old) }
{
    match item {
        LoopItem::Looping(e) => looping(worklist, StatementItem::Body(e), config.state.looped),
        LoopItem::Body(e) => loop_body(worklist, e),
        LoopItem::Block(e) => looping(worklist, StatementItem::Block(e), config.state.looped),
        LoopItem::For(at, first, condition, update, body) => worklist.put(&[
            WorkItem::Loop(LoopItem::ForParts(at, first, condition, update, body)),
            WorkItem::DoStatement(StatementAct::Close(config.state.scopes.len())),
        ]),
        LoopItem::ForParts(at, first, condition, update, body) => {
            for_parts(worklist, at, first, condition, update, body)
        }
        LoopItem::Each(at, of, name, over, body) => {
            each(
                worklist,
                config.state.scopes.len(),
                at,
                of,
                name,
                over,
                body,
            )
        }
        LoopItem::EachDef(at, name, over, body) => {
            each_def(worklist, config.state.scopes.len(), at, name, over, body)
        }
        LoopItem::FirstIf(e) => first_if(worklist, e),
        LoopItem::First(e) => first(worklist, e),
        LoopItem::Deed(e) => worklist.put(&[
            WorkItem::Expression(ExpressionItem::Value(e)),
            WorkItem::Word(WordItem::Begun(e)),
        ]),
        LoopItem::Condition(e) => condition(worklist, e),
        LoopItem::UpdateIf(e) => update_if(worklist, e),
        LoopItem::Update(e) => worklist.put(&[
            WorkItem::Expression(ExpressionItem::Value(e)),
            WorkItem::Word(WordItem::Updated(e)),
        ]),
    }
}
