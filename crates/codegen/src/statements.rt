//! Statements: what is to be written for one.

ghost use Rattle.std.specs.Prelude.{◌≡◌, ◌<◌, ◌≤◌, ◌+◌, ◌∷◌, OnOk, map};
ghost use Rattle.codegen.specs.Worklist as w;
ghost use Rattle.codegen.specs.Worklist.{Back, item_of, items_of, maybe_in};
ghost use Rattle.codegen.specs.Opened.{body_of, body_if, statement_of};
ghost use Rattle.codegen.specs.Sound.{Keeps};
ghost use Rattle.source_meaning.specs.Programs.{program_of, declared, expr_of, maybe_of, stmts_of};
ghost use Rattle.source_meaning.specs.Tree as tree;
ghost use Rattle.codegen.specs.Weights as weight;

use crate::config::{Config, Flow};
use crate::error::CodeError;
use crate::expressions::{representation_in, represented_as};
use crate::pieces::Piece;
use crate::representation::{Representation, alike};
use crate::tries::attempt;
use crate::work_item::{Exits, Tail, WorkItem};
use pl_code::{Numbered, Plain};
use plain_data::{Items, Subtree};
use plain_stack::Stack;
use typed_tree::{Program, StatementNode, Typed, TypedStatement, TypedVariable};

/// What is to be written for a statement that declares nothing, without what is done before a loop.
pub fn one<'a>(
    program: &'a Program,
    config: &mut Config,
    worklist: &mut Stack<WorkItem<'a>>,
    s: &'a TypedStatement,
    exits: Option<Exits>,
) -> Result<(), CodeError>
    ensures back { OnOk result (Back (program_of program.now) (w.One (statement_of s.now) exits ∷ items_of worklist.old) config.old (items_of worklist.new) config.new) }
    ensures sound { Keeps (program_of program.now) (w.One (statement_of s.now) exits ∷ items_of worklist.old) config.old result (items_of worklist.new) config.new }
    ensures falls { OnOk result (weight.weights worklist.new < weight.alone s.now + weight.weights worklist.old) }
{
    match &s.node {
        StatementNode::Expression(value) => {
            expression(program, config, worklist, value.get(), exits)
        }
        StatementNode::Block(statements) => block(program, config, worklist, statements, exits),
        StatementNode::If {
            condition,
            then,
            otherwise,
        } => choice(
            program,
            config,
            worklist,
            condition.get(),
            then.get(),
            otherwise,
            exits,
        ),
        StatementNode::Loop {
            first: _,
            condition,
            update,
            body,
        } => turns(program, config, worklist, condition, update, body, exits),
        StatementNode::Do { body, condition } => {
            turns_at_least_once(program, config, worklist, body.get(), condition, exits)
        }
        StatementNode::Break => leave(program, config, worklist, exits),
        StatementNode::Continue => go_on(program, config, worklist, exits),
        StatementNode::Return(value) => give(program, config, worklist, value, exits),
        StatementNode::Declare(all) => variables(program, config, worklist, all, exits),
        StatementNode::Try { body, catches } => {
            attempt(program, config, worklist, body.get(), catches, exits)
        }
        StatementNode::Throw(value) => throw(program, config, worklist, value.get(), exits),
    }
}

/// A part that may be missing.
pub fn part<'a>(it: &'a Option<Subtree<Typed>>) -> Option<&'a Typed>
    ensures part { maybe_in result ≡ maybe_of it.now }
    ensures weight { weight.value_in result ≡ weight.value_if it.now }
{
    match it {
        Some(part) => Some(part.get()),
        None => None,
    }
}

/// A statement by itself.
fn body<'a>(it: &'a TypedStatement, exits: Option<Exits>) -> WorkItem<'a>
    ensures item { item_of result ≡ w.Run (body_of it.now) exits }
    ensures weight { weight.weight_of result ≡ 4 + weight.statement it.now }
{
    WorkItem::Statement(it, Tail::Nothing, exits)
}

/// A statement by itself that may be missing.
fn body_if_any<'a>(it: &'a Option<Subtree<TypedStatement>>, exits: Option<Exits>) -> WorkItem<'a>
    ensures item { item_of result ≡ w.Run (body_if it.now) exits }
    ensures weight { weight.weight_of result ≤ 4 + weight.statement_if it.now }
{
    match it {
        Some(it) => body(it.get(), exits),
        None => WorkItem::Rest(Tail::Nothing, exits),
    }
}

fn expression<'a>(
    program: &'a Program,
    config: &Config,
    worklist: &mut Stack<WorkItem<'a>>,
    value: &'a Typed,
    exits: Option<Exits>,
) -> Result<(), CodeError>
    ensures back { OnOk result (Back (program_of program.now) (w.One (tree.Do (expr_of value.now)) exits ∷ items_of worklist.old) config.now (items_of worklist.new) config.now) }
    ensures sound { Keeps (program_of program.now) (w.One (tree.Do (expr_of value.now)) exits ∷ items_of worklist.old) config.now result (items_of worklist.new) config.now }
    ensures falls { OnOk result (weight.weights worklist.new < (20 + weight.value value.now) + weight.weights worklist.old) }
{
    worklist.push_three(
        WorkItem::Value(value),
        WorkItem::Put(Piece::Pop(representation_in(value))),
        WorkItem::Flows(Flow {
            falls: true,
            continues: false,
        }),
    )?;
    Ok(())
}

fn block<'a>(
    program: &'a Program,
    config: &Config,
    worklist: &mut Stack<WorkItem<'a>>,
    statements: &'a Items<Subtree<TypedStatement>>,
    exits: Option<Exits>,
) -> Result<(), CodeError>
    ensures back { OnOk result (Back (program_of program.now) (w.One (tree.Block (stmts_of statements.now)) exits ∷ items_of worklist.old) config.now (items_of worklist.new) config.now) }
    ensures sound { Keeps (program_of program.now) (w.One (tree.Block (stmts_of statements.now)) exits ∷ items_of worklist.old) config.now result (items_of worklist.new) config.now }
    ensures falls { OnOk result (weight.weights worklist.new < (20 + weight.row (map weight.statement statements.now)) + weight.weights worklist.old) }
{
    let height = config.scope.len();
    worklist.push_two(
        WorkItem::Rest(Tail::Row(statements, 0), exits),
        WorkItem::Close(height),
    )?;
    Ok(())
}

/// Variables alone, in a scope of their own.
fn variables<'a>(
    program: &'a Program,
    config: &Config,
    worklist: &mut Stack<WorkItem<'a>>,
    all: &'a Items<TypedVariable>,
    exits: Option<Exits>,
) -> Result<(), CodeError>
    ensures back { OnOk result (Back (program_of program.now) (w.One (tree.Block (declared all.now tree.Finish)) exits ∷ items_of worklist.old) config.now (items_of worklist.new) config.now) }
    ensures sound { Keeps (program_of program.now) (w.One (tree.Block (declared all.now tree.Finish)) exits ∷ items_of worklist.old) config.now result (items_of worklist.new) config.now }
    ensures falls { OnOk result (weight.weights worklist.new < (20 + weight.variables all.now) + weight.weights worklist.old) }
{
    let height = config.scope.len();
    worklist.push_two(
        WorkItem::Variables(all, 0, Tail::Nothing, exits),
        WorkItem::Close(height),
    )?;
    Ok(())
}

fn choice<'a>(
    program: &'a Program,
    config: &mut Config,
    worklist: &mut Stack<WorkItem<'a>>,
    condition: &'a Typed,
    then: &'a TypedStatement,
    otherwise: &'a Option<Subtree<TypedStatement>>,
    exits: Option<Exits>,
) -> Result<(), CodeError>
    ensures back { OnOk result (Back (program_of program.now) (w.One (tree.If (expr_of condition.now) (body_of then.now) (body_if otherwise.now)) exits ∷ items_of worklist.old) config.old (items_of worklist.new) config.new) }
    ensures sound { Keeps (program_of program.now) (w.One (tree.If (expr_of condition.now) (body_of then.now) (body_if otherwise.now)) exits ∷ items_of worklist.old) config.old result (items_of worklist.new) config.new }
    ensures falls { OnOk result (weight.weights worklist.new < (20 + (weight.value condition.now + weight.statement then.now + weight.statement_if otherwise.now)) + weight.weights worklist.old) }
{
    represented_as(condition, Representation::Unboxed)?;
    let height = config.scope.len();
    let yes = body(then, exits);
    let no = body_if_any(otherwise, exits);
    let end = config.labels.fresh()?;
    let over = config.labels.fresh()?;
    worklist.push_three(
        WorkItem::Close(height),
        WorkItem::Bind(end),
        WorkItem::Either,
    )?;
    worklist.push_three(WorkItem::Skip(end), WorkItem::Bind(over), no)?;
    worklist.push_four(
        WorkItem::Value(condition),
        WorkItem::Jump(Numbered::IfZero, over),
        yes,
        WorkItem::Close(height),
    )?;
    Ok(())
}

fn turns<'a>(
    program: &'a Program,
    config: &mut Config,
    worklist: &mut Stack<WorkItem<'a>>,
    condition: &'a Option<Subtree<Typed>>,
    update: &'a Option<Subtree<Typed>>,
    turn: &'a Option<Subtree<TypedStatement>>,
    exits: Option<Exits>,
) -> Result<(), CodeError>
    ensures back { OnOk result (Back (program_of program.now) (w.One (tree.While (maybe_of condition.now) (maybe_of update.now) (body_if turn.now)) exits ∷ items_of worklist.old) config.old (items_of worklist.new) config.new) }
    ensures sound { Keeps (program_of program.now) (w.One (tree.While (maybe_of condition.now) (maybe_of update.now) (body_if turn.now)) exits ∷ items_of worklist.old) config.old result (items_of worklist.new) config.new }
    ensures falls { OnOk result (weight.weights worklist.new < (20 + (weight.value_if condition.now + weight.value_if update.now + weight.statement_if turn.now)) + weight.weights worklist.old) }
{
    let height = config.scope.len();
    let test = part(condition);
    let behind = part(update);
    let out = config.labels.fresh()?;
    let first = config.labels.fresh()?;
    let on = config.labels.fresh()?;
    let start = config.labels.fresh()?;
    let within = body_if_any(turn, Some(Exits { out, on }));
    worklist.push_three(
        WorkItem::Jump(Numbered::Loop, start),
        WorkItem::Bind(out),
        WorkItem::Turned,
    )?;
    worklist.push_four(
        WorkItem::Bind(on),
        WorkItem::Update(behind),
        WorkItem::Bind(first),
        WorkItem::Test(test),
    )?;
    worklist.push_four(
        WorkItem::Jump(Numbered::Goto, first),
        WorkItem::Bind(start),
        within,
        WorkItem::Close(height),
    )?;
    Ok(())
}

fn turns_at_least_once<'a>(
    program: &'a Program,
    config: &mut Config,
    worklist: &mut Stack<WorkItem<'a>>,
    turn: &'a TypedStatement,
    condition: &'a Option<Subtree<Typed>>,
    exits: Option<Exits>,
) -> Result<(), CodeError>
    ensures back { OnOk result (Back (program_of program.now) (w.One (tree.DoWhile (body_of turn.now) (maybe_of condition.now)) exits ∷ items_of worklist.old) config.old (items_of worklist.new) config.new) }
    ensures sound { Keeps (program_of program.now) (w.One (tree.DoWhile (body_of turn.now) (maybe_of condition.now)) exits ∷ items_of worklist.old) config.old result (items_of worklist.new) config.new }
    ensures falls { OnOk result (weight.weights worklist.new < (20 + (weight.statement turn.now + weight.value_if condition.now)) + weight.weights worklist.old) }
{
    let height = config.scope.len();
    let test = part(condition);
    let out = config.labels.fresh()?;
    let first = config.labels.fresh()?;
    let on = config.labels.fresh()?;
    let start = config.labels.fresh()?;
    let within = body(turn, Some(Exits { out, on }));
    worklist.push_three(
        WorkItem::Jump(Numbered::Loop, start),
        WorkItem::Bind(out),
        WorkItem::Turned,
    )?;
    worklist.push_four(
        WorkItem::Bind(on),
        WorkItem::Last(test, out),
        WorkItem::Bind(first),
        WorkItem::Put(Piece::Int(1)),
    )?;
    worklist.push_four(
        WorkItem::Jump(Numbered::Goto, first),
        WorkItem::Bind(start),
        within,
        WorkItem::Close(height),
    )?;
    Ok(())
}

fn leave<'a>(
    program: &'a Program,
    config: &Config,
    worklist: &mut Stack<WorkItem<'a>>,
    exits: Option<Exits>,
) -> Result<(), CodeError>
    ensures back { OnOk result (Back (program_of program.now) (w.One tree.Break exits ∷ items_of worklist.old) config.now (items_of worklist.new) config.now) }
    ensures sound { Keeps (program_of program.now) (w.One tree.Break exits ∷ items_of worklist.old) config.now result (items_of worklist.new) config.now }
    ensures falls { OnOk result (weight.weights worklist.new < 20 + weight.weights worklist.old) }
{
    let Some(to) = exits else {
        return Err(CodeError::Malformed);
    };
    worklist.push_two(
        WorkItem::Jump(Numbered::Goto, to.out),
        WorkItem::Flows(Flow {
            falls: false,
            continues: false,
        }),
    )?;
    Ok(())
}

fn go_on<'a>(
    program: &'a Program,
    config: &Config,
    worklist: &mut Stack<WorkItem<'a>>,
    exits: Option<Exits>,
) -> Result<(), CodeError>
    ensures back { OnOk result (Back (program_of program.now) (w.One tree.Continue exits ∷ items_of worklist.old) config.now (items_of worklist.new) config.now) }
    ensures sound { Keeps (program_of program.now) (w.One tree.Continue exits ∷ items_of worklist.old) config.now result (items_of worklist.new) config.now }
    ensures falls { OnOk result (weight.weights worklist.new < 20 + weight.weights worklist.old) }
{
    let Some(to) = exits else {
        return Err(CodeError::Malformed);
    };
    worklist.push_two(
        WorkItem::Jump(Numbered::Goto, to.on),
        WorkItem::Flows(Flow {
            falls: false,
            continues: true,
        }),
    )?;
    Ok(())
}

fn give<'a>(
    program: &'a Program,
    config: &Config,
    worklist: &mut Stack<WorkItem<'a>>,
    value: &'a Option<Subtree<Typed>>,
    exits: Option<Exits>,
) -> Result<(), CodeError>
    ensures back { OnOk result (Back (program_of program.now) (w.One (tree.Return (maybe_of value.now)) exits ∷ items_of worklist.old) config.now (items_of worklist.new) config.now) }
    ensures sound { Keeps (program_of program.now) (w.One (tree.Return (maybe_of value.now)) exits ∷ items_of worklist.old) config.now result (items_of worklist.new) config.now }
    ensures falls { OnOk result (weight.weights worklist.new < (20 + weight.value_if value.now) + weight.weights worklist.old) }
{
    match value {
        Some(value) => give_value(program, config, worklist, value.get(), exits),
        None => give_nothing(program, config, worklist, exits),
    }
}

fn give_value<'a>(
    program: &'a Program,
    config: &Config,
    worklist: &mut Stack<WorkItem<'a>>,
    value: &'a Typed,
    exits: Option<Exits>,
) -> Result<(), CodeError>
    ensures back { OnOk result (Back (program_of program.now) (w.One (tree.Return (tree.Given (expr_of value.now))) exits ∷ items_of worklist.old) config.now (items_of worklist.new) config.now) }
    ensures sound { Keeps (program_of program.now) (w.One (tree.Return (tree.Given (expr_of value.now))) exits ∷ items_of worklist.old) config.now result (items_of worklist.new) config.now }
    ensures falls { OnOk result (weight.weights worklist.new < (20 + weight.value value.now) + weight.weights worklist.old) }
{
    represented_as(value, config.result)?;
    worklist.push_three(
        WorkItem::Value(value),
        WorkItem::Put(Piece::Plain(Plain::Ret)),
        WorkItem::Flows(Flow {
            falls: false,
            continues: false,
        }),
    )?;
    Ok(())
}

fn give_nothing<'a>(
    program: &'a Program,
    config: &Config,
    worklist: &mut Stack<WorkItem<'a>>,
    exits: Option<Exits>,
) -> Result<(), CodeError>
    ensures back { OnOk result (Back (program_of program.now) (w.One (tree.Return tree.Missing) exits ∷ items_of worklist.old) config.now (items_of worklist.new) config.now) }
    ensures sound { Keeps (program_of program.now) (w.One (tree.Return tree.Missing) exits ∷ items_of worklist.old) config.now result (items_of worklist.new) config.now }
    ensures falls { OnOk result (weight.weights worklist.new < 20 + weight.weights worklist.old) }
{
    alike(config.result, Representation::Absent)?;
    worklist.push_two(
        WorkItem::Put(Piece::Plain(Plain::Ret)),
        WorkItem::Flows(Flow {
            falls: false,
            continues: false,
        }),
    )?;
    Ok(())
}

fn throw<'a>(
    program: &'a Program,
    config: &Config,
    worklist: &mut Stack<WorkItem<'a>>,
    value: &'a Typed,
    exits: Option<Exits>,
) -> Result<(), CodeError>
    ensures back { OnOk result (Back (program_of program.now) (w.One (tree.Throw (expr_of value.now)) exits ∷ items_of worklist.old) config.now (items_of worklist.new) config.now) }
    ensures sound { Keeps (program_of program.now) (w.One (tree.Throw (expr_of value.now)) exits ∷ items_of worklist.old) config.now result (items_of worklist.new) config.now }
    ensures falls { OnOk result (weight.weights worklist.new < (20 + weight.value value.now) + weight.weights worklist.old) }
{
    represented_as(value, Representation::Boxed)?;
    worklist.push_three(
        WorkItem::Value(value),
        WorkItem::Put(Piece::Plain(Plain::Throw)),
        WorkItem::Flows(Flow {
            falls: false,
            continues: false,
        }),
    )?;
    Ok(())
}
