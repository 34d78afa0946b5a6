//! Statements that stand in one scope, the variables that they declare, and how control goes on behind them.

ghost use Rattle.std.specs.Prelude.{◌≡◌, ◌≢◌, ◌<◌, ◌≤◌, ◌+◌, ◌∷◌, drop, IfOk, MatchResult, OnOk, map};
ghost use Rattle.codegen.specs.Worklist as w;
ghost use Rattle.codegen.specs.Worklist.{Back, IsFirst, entry, item_of, items_of, next_in, tail_of};
ghost use Rattle.codegen.specs.Opened.{statement_of, opened_before, loop_before};
ghost use Rattle.codegen.specs.Errors.{OnlyMemory};
ghost use Rattle.codegen.specs.Sound.{BeginRepresented, Keeps};
ghost use Rattle.typed_tree.specs.declared.statement.StatementNode.{out-StatementNode};
ghost use Rattle.typed_tree.specs.declared.statement.TypedStatement.{out-TypedStatement};
ghost use Rattle.compiler_relation.specs.Representation.{Absent, representation_of};
ghost use Rattle.source_meaning.specs.Programs.{program_of, before, declared, maybe_of, stmts_of};
ghost use Rattle.source_meaning.specs.Tree as tree;
ghost use Rattle.codegen.specs.Weights as weight;

use crate::config::{Config, Flow, next_local};
use crate::error::CodeError;
use crate::expressions::represented_as;
use crate::labels::Line;
use crate::pieces::Piece;
use crate::representation::{Representation, representation_of, slot};
use crate::symbols::Entry;
use crate::work_item::{Exits, Tail, WorkItem};
use pl_code::{Instruction, Numbered};
use pl_types::Ty;
use plain_data::{Items, Subtree, Text};
use plain_stack::Stack;
use std::alloc::Global;
use typed_tree::{Program, StatementNode, TypedStatement, TypedVariable};

/// A statement, and what stands behind it.
pub fn statement<'a>(
    program: &'a Program,
    config: &Config,
    worklist: &mut Stack<WorkItem<'a>>,
    s: &'a TypedStatement,
    tail: Tail<'a>,
    exits: Option<Exits>,
) -> Result<(), CodeError>
    ensures back { OnOk result (Back (program_of program.now) (w.Run (before s.now (tail_of tail.entry)) exits ∷ items_of worklist.old) config.now (items_of worklist.new) config.now) }
    ensures sound { Keeps (program_of program.now) (w.Run (before s.now (tail_of tail.entry)) exits ∷ items_of worklist.old) config.now result (items_of worklist.new) config.now }
    ensures falls { OnOk result (weight.weights worklist.new < (4 + (weight.statement s.now + weight.behind tail.entry)) + weight.weights worklist.old) }
{
    by_kind(program, config, worklist, s, tail, exits)
}

fn by_kind<'a>(
    program: &'a Program,
    config: &Config,
    worklist: &mut Stack<WorkItem<'a>>,
    s: &'a TypedStatement,
    tail: Tail<'a>,
    exits: Option<Exits>,
) -> Result<(), CodeError>
    ensures back { OnOk result (Back (program_of program.now) (w.Run (opened_before (out-StatementNode (out-TypedStatement s.now).node) (tail_of tail.entry)) exits ∷ items_of worklist.old) config.now (items_of worklist.new) config.now) }
    ensures sound { Keeps (program_of program.now) (w.Run (opened_before (out-StatementNode (out-TypedStatement s.now).node) (tail_of tail.entry)) exits ∷ items_of worklist.old) config.now result (items_of worklist.new) config.now }
    ensures falls { OnOk result (weight.weights worklist.new < (4 + (weight.node_step (weight.over (out-StatementNode (out-TypedStatement s.now).node)) + weight.behind tail.entry)) + weight.weights worklist.old) }
{
    match &s.node {
        StatementNode::Expression(_) => simple(program, config, worklist, s, tail, exits),
        StatementNode::Declare(all) => declaration(program, config, worklist, all, tail, exits),
        StatementNode::Block(_) => simple(program, config, worklist, s, tail, exits),
        StatementNode::If { .. } => simple(program, config, worklist, s, tail, exits),
        StatementNode::Loop { first, .. } => begun(
            program, config, worklist, s, first, tail, exits,
        ),
        StatementNode::Do { .. } => simple(program, config, worklist, s, tail, exits),
        StatementNode::Try { .. } => simple(program, config, worklist, s, tail, exits),
        StatementNode::Break => simple(program, config, worklist, s, tail, exits),
        StatementNode::Continue => simple(program, config, worklist, s, tail, exits),
        StatementNode::Return(_) => simple(program, config, worklist, s, tail, exits),
        StatementNode::Throw(_) => simple(program, config, worklist, s, tail, exits),
    }
}

fn simple<'a>(
    program: &'a Program,
    config: &Config,
    worklist: &mut Stack<WorkItem<'a>>,
    s: &'a TypedStatement,
    tail: Tail<'a>,
    exits: Option<Exits>,
) -> Result<(), CodeError>
    ensures back { OnOk result (Back (program_of program.now) (w.Run (tree.Then (statement_of s.now) (tail_of tail.entry)) exits ∷ items_of worklist.old) config.now (items_of worklist.new) config.now) }
    ensures sound { Keeps (program_of program.now) (w.Run (tree.Then (statement_of s.now) (tail_of tail.entry)) exits ∷ items_of worklist.old) config.now result (items_of worklist.new) config.now }
    ensures falls { OnOk result (weight.weights worklist.new < (4 + (weight.alone s.now + weight.behind tail.entry)) + weight.weights worklist.old) }
{
    worklist.push_three(
        WorkItem::One(s, exits),
        WorkItem::Rest(tail, exits),
        WorkItem::Both,
    )?;
    Ok(())
}

fn declaration<'a>(
    program: &'a Program,
    config: &Config,
    worklist: &mut Stack<WorkItem<'a>>,
    all: &'a Items<TypedVariable>,
    tail: Tail<'a>,
    exits: Option<Exits>,
) -> Result<(), CodeError>
    ensures back { OnOk result (Back (program_of program.now) (w.Run (declared all.now (tail_of tail.entry)) exits ∷ items_of worklist.old) config.now (items_of worklist.new) config.now) }
    ensures sound { Keeps (program_of program.now) (w.Run (declared all.now (tail_of tail.entry)) exits ∷ items_of worklist.old) config.now result (items_of worklist.new) config.now }
    ensures falls { OnOk result (weight.weights worklist.new < (4 + (weight.variables all.now + weight.behind tail.entry)) + weight.weights worklist.old) }
{
    worklist.push(WorkItem::Variables(all, 0, tail, exits))?;
    Ok(())
}

/// What is done before a loop, the loop in its scope, and what stands behind it.
fn begun<'a>(
    program: &'a Program,
    config: &Config,
    worklist: &mut Stack<WorkItem<'a>>,
    s: &'a TypedStatement,
    first: &'a Option<Subtree<TypedStatement>>,
    tail: Tail<'a>,
    exits: Option<Exits>,
) -> Result<(), CodeError>
    ensures back { OnOk result (Back (program_of program.now) (w.Run (loop_before first.now (statement_of s.now) (tail_of tail.entry)) exits ∷ items_of worklist.old) config.now (items_of worklist.new) config.now) }
    ensures sound { Keeps (program_of program.now) (w.Run (loop_before first.now (statement_of s.now) (tail_of tail.entry)) exits ∷ items_of worklist.old) config.now result (items_of worklist.new) config.now }
    ensures falls { OnOk result (weight.weights worklist.new < (4 + (weight.begun first.now + weight.alone s.now + weight.behind tail.entry)) + weight.weights worklist.old) }
{
    match first {
        Some(first) => begun_by(program, config, worklist, s, first.get(), tail, exits),
        None => simple(program, config, worklist, s, tail, exits),
    }
}

fn begun_by<'a>(
    program: &'a Program,
    config: &Config,
    worklist: &mut Stack<WorkItem<'a>>,
    s: &'a TypedStatement,
    first: &'a TypedStatement,
    tail: Tail<'a>,
    exits: Option<Exits>,
) -> Result<(), CodeError>
    ensures back { OnOk result (Back (program_of program.now) (w.Run (tree.Then (tree.Block (before first.now (tree.Then (statement_of s.now) tree.Finish))) (tail_of tail.entry)) exits ∷ items_of worklist.old) config.now (items_of worklist.new) config.now) }
    ensures sound { Keeps (program_of program.now) (w.Run (tree.Then (tree.Block (before first.now (tree.Then (statement_of s.now) tree.Finish))) (tail_of tail.entry)) exits ∷ items_of worklist.old) config.now result (items_of worklist.new) config.now }
    ensures falls { OnOk result (weight.weights worklist.new < (24 + (weight.statement first.now + weight.alone s.now + weight.behind tail.entry)) + weight.weights worklist.old) }
{
    let height = config.scope.len();
    worklist.push_four(
        WorkItem::Statement(first, Tail::Loop(s), exits),
        WorkItem::Close(height),
        WorkItem::Rest(tail, exits),
        WorkItem::Both,
    )?;
    Ok(())
}

/// What stands behind a statement.
pub fn rest<'a>(
    program: &'a Program,
    config: &Config,
    worklist: &mut Stack<WorkItem<'a>>,
    tail: Tail<'a>,
    exits: Option<Exits>,
) -> Result<(), CodeError>
    ensures back { OnOk result (Back (program_of program.now) (w.Run (tail_of tail.entry) exits ∷ items_of worklist.old) config.now (items_of worklist.new) config.now) }
    ensures sound { Keeps (program_of program.now) (w.Run (tail_of tail.entry) exits ∷ items_of worklist.old) config.now result (items_of worklist.new) config.now }
    ensures falls { OnOk result (weight.weights worklist.new < (2 + weight.behind tail.entry) + weight.weights worklist.old) }
{
    match tail {
        Tail::Nothing => {
            return finish(program, config, worklist, exits);
        }
        Tail::Row(all, at) => {
            return row(program, config, worklist, all, at, exits);
        }
        Tail::Loop(s) => {
            return last(program, config, worklist, s, exits);
        }
    }
}

fn finish<'a>(
    program: &'a Program,
    config: &Config,
    worklist: &mut Stack<WorkItem<'a>>,
    exits: Option<Exits>,
) -> Result<(), CodeError>
    ensures back { OnOk result (Back (program_of program.now) (w.Run tree.Finish exits ∷ items_of worklist.old) config.now (items_of worklist.new) config.now) }
    ensures sound { Keeps (program_of program.now) (w.Run tree.Finish exits ∷ items_of worklist.old) config.now result (items_of worklist.new) config.now }
    ensures falls { OnOk result (weight.weights worklist.new < 2 + weight.weights worklist.old) }
{
    worklist.push(WorkItem::Flows(Flow {
        falls: true,
        continues: false,
    }))?;
    Ok(())
}

fn last<'a>(
    program: &'a Program,
    config: &Config,
    worklist: &mut Stack<WorkItem<'a>>,
    s: &'a TypedStatement,
    exits: Option<Exits>,
) -> Result<(), CodeError>
    ensures back { OnOk result (Back (program_of program.now) (w.Run (tree.Then (statement_of s.now) tree.Finish) exits ∷ items_of worklist.old) config.now (items_of worklist.new) config.now) }
    ensures sound { Keeps (program_of program.now) (w.Run (tree.Then (statement_of s.now) tree.Finish) exits ∷ items_of worklist.old) config.now result (items_of worklist.new) config.now }
    ensures falls { OnOk result (weight.weights worklist.new < (4 + weight.alone s.now) + weight.weights worklist.old) }
{
    worklist.push_three(
        WorkItem::One(s, exits),
        WorkItem::Rest(Tail::Nothing, exits),
        WorkItem::Both,
    )?;
    Ok(())
}

/// Some statements, from one on.
fn row<'a>(
    program: &'a Program,
    config: &Config,
    worklist: &mut Stack<WorkItem<'a>>,
    all: &'a Items<Subtree<TypedStatement>>,
    at: usize,
    exits: Option<Exits>,
) -> Result<(), CodeError>
    ensures back { OnOk result (Back (program_of program.now) (w.Run (stmts_of (drop at all.now)) exits ∷ items_of worklist.old) config.now (items_of worklist.new) config.now) }
    ensures sound { Keeps (program_of program.now) (w.Run (stmts_of (drop at all.now)) exits ∷ items_of worklist.old) config.now result (items_of worklist.new) config.now }
    ensures falls { OnOk result (weight.weights worklist.new < (2 + weight.row (map weight.statement (drop at all.now))) + weight.weights worklist.old) }
{
    let _count = all.len();
    let Some(s) = all.get(at) else {
        return finish(program, config, worklist, exits);
    };
    let s = s.get();
    worklist.push(WorkItem::Statement(s, Tail::Row(all, at + 1), exits))?;
    Ok(())
}

/// Variables from one on, and what stands behind them.
pub fn variables<'a>(
    program: &'a Program,
    config: &Config,
    worklist: &mut Stack<WorkItem<'a>>,
    all: &'a Items<TypedVariable>,
    at: usize,
    tail: Tail<'a>,
    exits: Option<Exits>,
) -> Result<(), CodeError>
    ensures back { OnOk result (Back (program_of program.now) (w.Run (declared (drop at all.now) (tail_of tail.entry)) exits ∷ items_of worklist.old) config.now (items_of worklist.new) config.now) }
    ensures sound { Keeps (program_of program.now) (w.Run (declared (drop at all.now) (tail_of tail.entry)) exits ∷ items_of worklist.old) config.now result (items_of worklist.new) config.now }
    ensures falls { OnOk result (weight.weights worklist.new < (3 + (weight.variables (drop at all.now) + weight.behind tail.entry)) + weight.weights worklist.old) }
{
    let _count = all.len();
    let Some(variable) = all.get(at) else {
        worklist.push(WorkItem::Rest(tail, exits))?;
        return Ok(());
    };
    let first = first_value(variable)?;
    worklist.push_three(
        first,
        WorkItem::Declared(variable),
        WorkItem::Variables(all, at + 1, tail, exits),
    )?;
    Ok(())
}

/// What a variable begins with.
fn first_value<'a>(variable: &'a TypedVariable) -> Result<WorkItem<'a>, CodeError>
    ensures first { MatchResult result (λ first. IsFirst variable.now (item_of first)) (λ _. BeginRepresented (maybe_of variable.now.value) variable.now.of → ⊥) }
    ensures weight { IfOk result (λ first. weight.weight_of first ≤ 1 + weight.value_if variable.now.value) }
{
    match &variable.value {
        Some(value) => {
            let value = value.get();
            represented_as(value, representation_of(&variable.of))?;
            Ok(WorkItem::Value(value))
        }
        None => Ok(WorkItem::Put(Piece::Default(&variable.of))),
    }
}

/// A variable is in scope from here on.
pub fn declare<'a>(
    alloc: Global,
    program: &'a Program,
    config: &mut Config,
    worklist: &Stack<WorkItem<'a>>,
    name: &Text,
    of: &Ty,
) -> Result<(), CodeError>
    ensures back { OnOk result (Back (program_of program.now) (w.Declared name.now of.now ∷ items_of worklist.now) config.old (items_of worklist.now) config.new) }
    ensures sound { Keeps (program_of program.now) (w.Declared name.now of.now ∷ items_of worklist.now) config.old result (items_of worklist.now) config.new }
{
    present(of)?;
    let local = next_local(config)?;
    let one = entry_for(alloc, name, of, local)?;
    config.scope.push(alloc, one)?;
    config.locals.push(slot(of))?;
    config
        .lines
        .push(Line::Fixed(Instruction::Numbered(Numbered::Store, local)))?;
    Ok(())
}

/// The entry of a name.
pub fn entry_for(alloc: Global, name: &Text, of: &Ty, local: u32) -> Result<Entry, CodeError>
    ensures entry { IfOk result (λ one. entry one ≡ record { name = name.now; of = of.now; local = local }) }
    ensures memory { OnlyMemory result }
{
    let name = Text::new(alloc, name.as_str())?;
    let of = of.share(alloc)?;
    Ok(Entry { name, of, local })
}

/// A type has values.
pub fn present(of: &Ty) -> Result<(), CodeError>
    ensures { MatchResult result (λ _. representation_of of.now ≢ Absent) (λ _. representation_of of.now ≡ Absent) }
{
    match representation_of(of) {
        Representation::Absent => Err(CodeError::Malformed),
        _ => Ok(()),
    }
}

/// The names above so many are gone.
pub fn close<'a>(
    program: &'a Program,
    config: &mut Config,
    worklist: &Stack<WorkItem<'a>>,
    height: usize,
) -> Result<(), CodeError>
    ensures back { OnOk result (Back (program_of program.now) (w.Close height ∷ items_of worklist.now) config.old (items_of worklist.now) config.new) }
    ensures sound { Keeps (program_of program.now) (w.Close height ∷ items_of worklist.now) config.old result (items_of worklist.now) config.new }
{
    config.scope.lower(height);
    Ok(())
}
