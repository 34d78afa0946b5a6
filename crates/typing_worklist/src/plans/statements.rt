//! What is to be done for each kind of statement.

ghost use Rattle.std.specs.Prelude.{◌≡◌, ◌∷◌, ◌++◌, ◌&&◌, slice_get, OnOk};
ghost use Rattle.pl_tree.specs.declared.tree.Body.{out-Body};
ghost use Rattle.pl_tree.specs.declared.tree.Block.{out-Block};
ghost use Rattle.pl_tree.specs.declared.tree.Statement.{out-Statement};
ghost use Rattle.typing_worklist.specs.Going.{is_there, none_left};
ghost use Rattle.typing_worklist.specs.Item as Item;
ghost use Rattle.typing_worklist.specs.Plans as spec;

use crate::item::{
    CatchItem, DeclarationItem, ExpressionItem, LoopItem, StatementAct, StatementItem, WorkItem,
    Worklist,
};
use pl_tree::{Argument, Block, Body, Expr, Statement};
use plain_data::{Items, Subtree};
use std::alloc::AllocError;
use typing_actions::Config;

/// Whether a loop has a body.
pub(crate) fn has_body(e: &Option<Body>) -> bool
    ensures { result ≡ is_there e.now }
{
    match e {
        Some(_) => true,
        None => false,
    }
}

/// Puts on a value, and then what is done with it.
pub(crate) fn deed<'a>(
    worklist: &mut Worklist<'a>,
    e: &'a Subtree<Expr>,
    then: StatementAct,
) -> Result<(), AllocError>
    ensures { OnOk result (worklist.new ≡ Item.Value e.now ∷ Item.DoStatement then ∷ worklist.old) }
{
    worklist.put(&[
        WorkItem::Expression(ExpressionItem::Value(e)),
        WorkItem::DoStatement(then),
    ])
}

/// Puts on what is to be done for a statement, which may be the last of the main script.
fn statement<'a>(
    worklist: &mut Worklist<'a>,
    e: &'a Subtree<Statement>,
    last: bool,
) -> Result<(), AllocError>
    ensures { OnOk result (worklist.new ≡ spec.statement_plan last (out-Statement e.now) ++ worklist.old) }
{
    match e.get() {
        Statement::If {
            at,
            condition,
            then,
            otherwise,
        } => worklist.put(&[
            WorkItem::Expression(ExpressionItem::Value(condition)),
            WorkItem::DoStatement(StatementAct::Test),
            WorkItem::Statement(StatementItem::Body(then)),
            WorkItem::Statement(StatementItem::Otherwise(*at, otherwise)),
        ]),
        Statement::While {
            at,
            condition,
            body,
        } => worklist.put(&[
            WorkItem::Expression(ExpressionItem::Value(condition)),
            WorkItem::DoStatement(StatementAct::LoopTest),
            WorkItem::DoStatement(StatementAct::NoTest),
            WorkItem::Loop(LoopItem::Body(body)),
            WorkItem::DoStatement(StatementAct::Loop(*at, false, has_body(body))),
        ]),
        Statement::For {
            at,
            first,
            condition,
            update,
            body,
        } => worklist.push(WorkItem::Loop(LoopItem::For(*at, first, condition, update, body))),
        Statement::ForEach {
            at,
            of,
            name,
            over,
            body,
        } => worklist.push(WorkItem::Loop(LoopItem::Each(*at, of, name, over, body))),
        Statement::ForIn {
            at,
            name,
            over,
            body,
        } => worklist.push(WorkItem::Loop(LoopItem::EachDef(*at, name, over, body))),
        Statement::Try { at, block, catches } => {
            worklist.put(&[
                WorkItem::Statement(StatementItem::Block(block)),
                WorkItem::Catch(CatchItem::Try(*at, catches)),
            ])
        },
        Statement::Do {
            at,
            block,
            condition,
        } => worklist.put(&[
            WorkItem::Loop(LoopItem::Block(block)),
            WorkItem::Expression(ExpressionItem::Value(condition)),
            WorkItem::DoStatement(StatementAct::LoopTest),
            WorkItem::DoStatement(StatementAct::DoLoop(*at)),
        ]),
        Statement::Declare(declaration) => worklist.push(WorkItem::Declaration(
            DeclarationItem::Whole(declaration),
        )),
        Statement::Continue { at } => worklist.push(WorkItem::DoStatement(StatementAct::Continue(
            *at,
        ))),
        Statement::Break { at } => worklist.push(WorkItem::DoStatement(StatementAct::Break(*at))),
        Statement::Return { at, value } => worklist.push(WorkItem::Statement(
            StatementItem::Returned(*at, value),
        )),
        Statement::Throw { at, value } => deed(worklist, value, StatementAct::Throw(*at)),
        Statement::Expression { at, value } => deed(
            worklist,
            value,
            StatementAct::Expression(*at, last),
        ),
    }
}

/// The same, for what an `if` or a loop runs.
fn body<'a>(worklist: &mut Worklist<'a>, e: &'a Body) -> Result<(), AllocError>
    ensures { OnOk result (worklist.new ≡ spec.body_plan (out-Body e.now) ++ worklist.old) }
{
    match e {
        Body::Block(block) => worklist.push(WorkItem::Statement(StatementItem::Block(block))),
        Body::Statement(statement) => worklist.push(WorkItem::Statement(StatementItem::Scoped(
            statement,
        ))),
    }
}

/// The same, for an `else`, if there is one.
fn otherwise<'a>(
    worklist: &mut Worklist<'a>,
    at: u32,
    e: &'a Option<Body>,
) -> Result<(), AllocError>
    ensures { OnOk result (worklist.new ≡ spec.otherwise_plan at e.now ++ worklist.old) }
{
    match e {
        None => worklist.push(WorkItem::DoStatement(StatementAct::IfAlone(at))),
        Some(e) => worklist.put(&[
            WorkItem::Statement(StatementItem::Body(e)),
            WorkItem::DoStatement(StatementAct::IfElse(at)),
        ]),
    }
}

/// The same, for what a `return` gives, if anything.
fn returned<'a>(
    worklist: &mut Worklist<'a>,
    at: u32,
    e: &'a Option<Argument>,
) -> Result<(), AllocError>
    ensures { OnOk result (worklist.new ≡ spec.returned_plan at e.now ++ worklist.old) }
{
    match e {
        None => worklist.push(WorkItem::DoStatement(StatementAct::ReturnNothing(at))),
        Some(e) => worklist.put(&[
            WorkItem::Expression(ExpressionItem::Given(e)),
            WorkItem::DoStatement(StatementAct::ReturnValue(at)),
        ]),
    }
}

/// Where a statement stands.
fn place_of(e: &Statement) -> u32
    ensures { result ≡ spec.statement_place (out-Statement e.now) }
{
    match e {
        Statement::If { at, .. } => *at,
        Statement::While { at, .. } => *at,
        Statement::For { at, .. } => *at,
        Statement::ForEach { at, .. } => *at,
        Statement::ForIn { at, .. } => *at,
        Statement::Try { at, .. } => *at,
        Statement::Do { at, .. } => *at,
        Statement::Declare(declaration) => declaration.of.at,
        Statement::Continue { at } => *at,
        Statement::Break { at } => *at,
        Statement::Return { at, .. } => *at,
        Statement::Throw { at, .. } => *at,
        Statement::Expression { at, .. } => *at,
    }
}

/// Whether nothing more follows in the main script.
fn is_last(all: &Items<Subtree<Statement>>, at: usize, in_main: bool) -> bool
    ensures { result ≡ (in_main && none_left (slice_get all.now at)) }
{
    match all.get(at) {
        Some(_) => false,
        None => in_main,
    }
}

/// Statements from one on: this one, and then what is behind it.
fn statements<'a>(
    worklist: &mut Worklist<'a>,
    all: &'a Items<Subtree<Statement>>,
    at: usize,
    in_main: bool,
    after: bool,
) -> Result<(), AllocError>
    ensures { OnOk result (worklist.new ≡ spec.statements_plan all.now at in_main after (slice_get all.now at) ++ worklist.old) }
{
    let _count = all.len();
    match all.get(at) {
        None => Ok(()),
        Some(one) => worklist.put(&[
            WorkItem::Statement(StatementItem::One(one, is_last(all, at + 1, in_main))),
            WorkItem::Reached(all, at + 1, place_of(one.get()), in_main, after),
        ]),
    }
}

/// A block in a scope of its own, where so many names are in sight and so many steps are done.
fn block<'a>(
    worklist: &mut Worklist<'a>,
    e: &'a Block,
    names: usize,
    steps: usize,
) -> Result<(), AllocError>
    ensures { OnOk result (worklist.new ≡ spec.block_plan names steps (out-Block e.now) ++ worklist.old) }
{
    worklist.put(&[
        WorkItem::Statement(StatementItem::Statements(&e.statements, 0, false, false)),
        WorkItem::DoStatement(StatementAct::Close(names)),
        WorkItem::DoStatement(StatementAct::Block(e.at, steps)),
    ])
}

/// Puts on what is to be done for a statement or a part of one, in what is known.
pub fn plan<'a>(
    config: &Config,
    worklist: &mut Worklist<'a>,
    item: StatementItem<'a>,
) -> Result<(), AllocError>
    ensures { OnOk result (worklist.new ≡ spec.statement_items config.now item.entry ++ worklist.old) }
{
    match item {
        StatementItem::One(e, last) => statement(worklist, e, last),
        StatementItem::Body(e) => body(worklist, e),
        StatementItem::Scoped(e) => worklist.put(&[
            WorkItem::Statement(StatementItem::One(e, false)),
            WorkItem::DoStatement(StatementAct::Close(config.state.scopes.len())),
        ]),
        StatementItem::Block(e) => {
            block(worklist, e, config.state.scopes.len(), config.steps.len())
        }
        StatementItem::Statements(all, at, in_main, after) => {
            statements(worklist, all, at, in_main, after)
        }
        StatementItem::Otherwise(at, e) => otherwise(worklist, at, e),
        StatementItem::Returned(at, e) => returned(worklist, at, e),
    }
}
