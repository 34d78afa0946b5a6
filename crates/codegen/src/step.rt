//! Goes on with an item of the worklist.

ghost use Rattle.std.specs.Prelude.{◌<◌, ◌+◌, ◌∷◌, map, MatchResult, OnOk};
ghost use Rattle.codegen.specs.Checks.{denoted};
ghost use Rattle.codegen.specs.Worklist as w;
ghost use Rattle.codegen.specs.Worklist.{Back, IsLocal, item_of, items_of, entry};
ghost use Rattle.codegen.specs.Pieces as pieces;
ghost use Rattle.codegen.specs.Sound.{IsNamed, Keeps, variable};
ghost use Rattle.source_meaning.specs.Programs.{program_of, expr_of};
ghost use Rattle.codegen.specs.Weights as weight;

use crate::config::{Config, next_line};
use crate::conversions::put_cast;
use crate::error::CodeError;
use crate::expressions::value;
use crate::flows::{add, both, either, end, last, skip, test, turned, update};
use crate::labels::Line;
use crate::naming::put_member;
use crate::operations::{put_operation, put_write};
use crate::pieces::{Piece, put};
use crate::representation::{Representation, alike, representation_of};
use crate::scopes::{close, declare, rest, statement, variables};
use crate::statements::one;
use crate::symbols::{Entry, SymbolTable};
use crate::tries::{caught, named, over, tried};
use crate::values::values;
use crate::work_item::WorkItem;
use allowlist::{Allow, MemberKind};
use pl_code::{Instruction, Numbered};
use pl_types::{Cast, Ty};
use plain_data::Text;
use plain_stack::Stack;
use std::alloc::Global;
use typed_tree::{Operation, Program, Typed, TypedVariable};

/// Goes on with an item of the worklist.
#[tactic(auto, using(crate::proofs::Lighter::one_less))]
pub fn step<'a>(
    alloc: Global,
    catalogue: &'a Allow,
    program: &'a Program,
    config: &mut Config,
    worklist: &mut Stack<WorkItem<'a>>,
    item: WorkItem<'a>,
) -> Result<(), CodeError>
    ensures back { OnOk result (Back (program_of program.now) (item_of item.entry ∷ items_of worklist.old) config.old (items_of worklist.new) config.new) }
    ensures sound { Keeps (program_of program.now) (item_of item.entry ∷ items_of worklist.old) config.old result (items_of worklist.new) config.new }
    ensures falls { OnOk result (weight.weights worklist.new < weight.weight_of item.entry + weight.weights worklist.old) }
{
    match item {
        WorkItem::Value(e) => {
            return expression(alloc, catalogue, program, config, worklist, e);
        }
        WorkItem::Put(what) => {
            return piece(alloc, program, config, worklist, what);
        }
        WorkItem::Convert(cast, to) => {
            return convert(alloc, program, config, worklist, cast, to);
        }
        WorkItem::Operate(does, of, count) => {
            return operate(alloc, program, config, worklist, does, of, count);
        }
        WorkItem::Write(does, of) => {
            return write(alloc, program, config, worklist, does, of);
        }
        WorkItem::Call(kind, text) => {
            return call(alloc, program, config, worklist, kind, text);
        }
        WorkItem::Jump(kind, label) => {
            return jump(program, config, worklist, kind, label);
        }
        WorkItem::Bind(label) => {
            return bind(program, config, worklist, label);
        }
        WorkItem::Values(parts, at, kind) => {
            return values(program, config, worklist, parts, at, kind);
        }
        WorkItem::Load(name, representation) => {
            return load(program, config, worklist, name, representation);
        }
        WorkItem::Store(name, representation) => {
            return store(program, config, worklist, name, representation);
        }
        WorkItem::One(s, exits) => {
            return one(program, config, worklist, s, exits);
        }
        WorkItem::Statement(s, tail, exits) => {
            return statement(program, config, worklist, s, tail, exits);
        }
        WorkItem::Rest(tail, exits) => {
            return rest(program, config, worklist, tail, exits);
        }
        WorkItem::Variables(all, at, tail, exits) => {
            return variables(program, config, worklist, all, at, tail, exits);
        }
        WorkItem::Declared(variable) => {
            return declared(alloc, program, config, worklist, variable);
        }
        WorkItem::Close(height) => {
            return close(program, config, worklist, height);
        }
        WorkItem::Flows(flow) => {
            return add(program, config, worklist, flow);
        }
        WorkItem::Both => {
            return both(program, config, worklist);
        }
        WorkItem::Either => {
            return either(program, config, worklist);
        }
        WorkItem::Skip(label) => {
            return skip(program, config, worklist, label);
        }
        WorkItem::Update(what) => {
            return update(program, config, worklist, what);
        }
        WorkItem::Test(what) => {
            return test(program, config, worklist, what);
        }
        WorkItem::Last(what, label) => {
            return last(program, config, worklist, what, label);
        }
        WorkItem::Turned => {
            return turned(program, config, worklist);
        }
        WorkItem::Named(one) => {
            return named(alloc, program, config, worklist, one);
        }
        WorkItem::Tried(catches, from, label, exits) => {
            return tried(program, config, worklist, catches, from, label, exits);
        }
        WorkItem::Caught(catches, at, from, to, label, exits) => {
            return caught(
                alloc, program, config, worklist, catches, at, from, to, label, exits,
            );
        }
        WorkItem::Over(catches, at, label) => {
            return over(program, config, worklist, catches, at, label);
        }
        WorkItem::End(of) => {
            return end(program, config, worklist, of);
        }
    }
}

fn expression<'a>(
    alloc: Global,
    catalogue: &'a Allow,
    program: &'a Program,
    config: &mut Config,
    worklist: &mut Stack<WorkItem<'a>>,
    e: &'a Typed,
) -> Result<(), CodeError>
    ensures back { OnOk result (Back (program_of program.now) (w.Value (expr_of e.now) ∷ items_of worklist.old) config.old (items_of worklist.new) config.new) }
    ensures sound { Keeps (program_of program.now) (w.Value (expr_of e.now) ∷ items_of worklist.old) config.old result (items_of worklist.new) config.new }
    ensures falls { OnOk result (weight.weights worklist.new < weight.value e.now + weight.weights worklist.old) }
{
    value(alloc, catalogue, program, config, worklist, e)
}

fn declared<'a>(
    alloc: Global,
    program: &'a Program,
    config: &mut Config,
    worklist: &Stack<WorkItem<'a>>,
    variable: &TypedVariable,
) -> Result<(), CodeError>
    ensures back { OnOk result (Back (program_of program.now) (w.Declared variable.now.name variable.now.of ∷ items_of worklist.now) config.old (items_of worklist.now) config.new) }
    ensures sound { Keeps (program_of program.now) (w.Declared variable.now.name variable.now.of ∷ items_of worklist.now) config.old result (items_of worklist.now) config.new }
{
    declare(
        alloc,
        program,
        config,
        worklist,
        &variable.name,
        &variable.of,
    )
}

fn piece<'a>(
    alloc: Global,
    program: &'a Program,
    config: &mut Config,
    worklist: &Stack<WorkItem<'a>>,
    what: Piece<'a>,
) -> Result<(), CodeError>
    ensures back { OnOk result (Back (program_of program.now) (w.Put (pieces.piece what.entry) ∷ items_of worklist.now) config.old (items_of worklist.now) config.new) }
    ensures sound { Keeps (program_of program.now) (w.Put (pieces.piece what.entry) ∷ items_of worklist.now) config.old result (items_of worklist.now) config.new }
{
    put(alloc, &mut config.lines, what)?;
    Ok(())
}

fn convert<'a>(
    alloc: Global,
    program: &'a Program,
    config: &mut Config,
    worklist: &Stack<WorkItem<'a>>,
    cast: Cast,
    to: &Ty,
) -> Result<(), CodeError>
    ensures back { OnOk result (Back (program_of program.now) (w.Convert cast to.now ∷ items_of worklist.now) config.old (items_of worklist.now) config.new) }
    ensures sound { Keeps (program_of program.now) (w.Convert cast to.now ∷ items_of worklist.now) config.old result (items_of worklist.now) config.new }
{
    put_cast(alloc, &mut config.lines, cast, to)?;
    Ok(())
}

fn operate<'a>(
    alloc: Global,
    program: &'a Program,
    config: &mut Config,
    worklist: &Stack<WorkItem<'a>>,
    does: &Operation,
    of: &Ty,
    count: u32,
) -> Result<(), CodeError>
    ensures back { OnOk result (Back (program_of program.now) (w.Operate does.now of.now count ∷ items_of worklist.now) config.old (items_of worklist.now) config.new) }
    ensures sound { Keeps (program_of program.now) (w.Operate does.now of.now count ∷ items_of worklist.now) config.old result (items_of worklist.now) config.new }
{
    put_operation(alloc, &mut config.lines, does, of, count)?;
    Ok(())
}

fn write<'a>(
    alloc: Global,
    program: &'a Program,
    config: &mut Config,
    worklist: &Stack<WorkItem<'a>>,
    does: &Operation,
    of: &Ty,
) -> Result<(), CodeError>
    ensures back { OnOk result (Back (program_of program.now) (w.Write does.now of.now ∷ items_of worklist.now) config.old (items_of worklist.now) config.new) }
    ensures sound { Keeps (program_of program.now) (w.Write does.now of.now ∷ items_of worklist.now) config.old result (items_of worklist.now) config.new }
{
    put_write(alloc, &mut config.lines, does, of)?;
    Ok(())
}

fn call<'a>(
    alloc: Global,
    program: &'a Program,
    config: &mut Config,
    worklist: &Stack<WorkItem<'a>>,
    kind: MemberKind,
    text: &Text,
) -> Result<(), CodeError>
    ensures back { OnOk result (Back (program_of program.now) (w.Call kind text.now ∷ items_of worklist.now) config.old (items_of worklist.now) config.new) }
    ensures sound { Keeps (program_of program.now) (w.Call kind text.now ∷ items_of worklist.now) config.old result (items_of worklist.now) config.new }
{
    put_member(alloc, &mut config.lines, kind, text)?;
    Ok(())
}

fn jump<'a>(
    program: &'a Program,
    config: &mut Config,
    worklist: &Stack<WorkItem<'a>>,
    kind: Numbered,
    label: usize,
) -> Result<(), CodeError>
    ensures back { OnOk result (Back (program_of program.now) (w.Jump kind label ∷ items_of worklist.now) config.old (items_of worklist.now) config.new) }
    ensures sound { Keeps (program_of program.now) (w.Jump kind label ∷ items_of worklist.now) config.old result (items_of worklist.now) config.new }
{
    config.lines.push(Line::Jump(kind, label))?;
    Ok(())
}

fn bind<'a>(
    program: &'a Program,
    config: &mut Config,
    worklist: &Stack<WorkItem<'a>>,
    label: usize,
) -> Result<(), CodeError>
    ensures back { OnOk result (Back (program_of program.now) (w.Bind label ∷ items_of worklist.now) config.old (items_of worklist.now) config.new) }
    ensures sound { Keeps (program_of program.now) (w.Bind label ∷ items_of worklist.now) config.old result (items_of worklist.now) config.new }
{
    let line = next_line(config)?;
    config.labels.bind(label, line)?;
    Ok(())
}

/// The number of a name's local. Its values have to be represented so.
fn local(scope: &SymbolTable, name: &Text, wanted: Representation) -> Result<u32, CodeError>
    ensures { MatchResult result (λ local. IsLocal (map entry scope.now) name.now (denoted wanted) local) (λ _. IsNamed (map variable (map entry scope.now)) name.now (denoted wanted) → ⊥) }
{
    let Some(found) = scope.find(name) else {
        return Err(CodeError::Malformed);
    };
    alike(wanted, representation_of(&found.of))?;
    Ok(found.local)
}

fn load<'a>(
    program: &'a Program,
    config: &mut Config,
    worklist: &Stack<WorkItem<'a>>,
    name: &Text,
    wanted: Representation,
) -> Result<(), CodeError>
    ensures back { OnOk result (Back (program_of program.now) (w.Load name.now (denoted wanted) ∷ items_of worklist.now) config.old (items_of worklist.now) config.new) }
    ensures sound { Keeps (program_of program.now) (w.Load name.now (denoted wanted) ∷ items_of worklist.now) config.old result (items_of worklist.now) config.new }
{
    let local = local(&config.scope, name, wanted)?;
    config
        .lines
        .push(Line::Fixed(Instruction::Numbered(Numbered::Load, local)))?;
    Ok(())
}

fn store<'a>(
    program: &'a Program,
    config: &mut Config,
    worklist: &Stack<WorkItem<'a>>,
    name: &Text,
    wanted: Representation,
) -> Result<(), CodeError>
    ensures back { OnOk result (Back (program_of program.now) (w.Store name.now (denoted wanted) ∷ items_of worklist.now) config.old (items_of worklist.now) config.new) }
    ensures sound { Keeps (program_of program.now) (w.Store name.now (denoted wanted) ∷ items_of worklist.now) config.old result (items_of worklist.now) config.new }
{
    let local = local(&config.scope, name, wanted)?;
    config
        .lines
        .push(Line::Fixed(Instruction::Numbered(Numbered::Store, local)))?;
    Ok(())
}
