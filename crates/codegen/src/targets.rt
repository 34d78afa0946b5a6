//! Places that one operation reads and another writes.

ghost use Rattle.std.specs.Prelude.{◌≡◌, ◌<◌, ◌+◌, ◌∷◌, map, Some, IfOk, OnOk};
ghost use Rattle.codegen.specs.Operands.{PlaceWanted, ArePlace};
ghost use Rattle.codegen.specs.Pieces.{parts_below};
ghost use Rattle.codegen.specs.Worklist as w;
ghost use Rattle.codegen.specs.Worklist.{Back, items_of};
ghost use Rattle.codegen.specs.Sound.{Keeps};
ghost use Rattle.source_meaning.specs.Programs.{program_of, expr_of, exprs_of};
ghost use Rattle.source_meaning.specs.Tree as tree;
ghost use Rattle.typed_tree.specs.declared.operation.Operation.TheVariants as operation;
ghost use Rattle.typed_tree.specs.declared.operation.Operator.TheVariants as operator;
ghost use Rattle.typed_tree.specs.declared.operation.Target.TheVariants as target;
ghost use Rattle.codegen.specs.Weights as weight;

use crate::checks::{change_fits, known};
use crate::config::Config;
use crate::error::CodeError;
use crate::expressions::{representation_in, represented_as};
use crate::members::named_member;
use crate::operands::operands;
use crate::pieces::{Below, Piece};
use crate::representation::{Representation, alike, representation_of};
use crate::scopes::present;
use crate::values::place;
use crate::work_item::{Wanted, WorkItem};
use allowlist::{Allow, MemberKind};
use member_names::names_of_members;
use pl_types::Ty;
use plain_data::{Items, Subtree, Text};
use plain_stack::Stack;
use std::alloc::Global;
use typed_tree::{Change, Gives, Member, Operation, Operator, Program, Typed};

/// How the parts of a place have to be represented, at which an operation writes a value of a type.
fn place_operands<'a>(
    alloc: Global,
    catalogue: &'a Allow,
    program: &'a Program,
    does: &'a Operation,
    of: &Ty,
) -> Result<Wanted<'a>, CodeError>
    ensures fits { IfOk result (λ w. PlaceWanted does.now of.now w) }
    ensures total { ArePlace (program_of program.now) does.now of.now result }
{
    match does {
        Operation::Operator(it) => of_operator(program, *it, of),
        Operation::Instance(it) => of_setter(alloc, catalogue, program, it, of),
        Operation::PutDefName(name) => of_name(program, name, of),
        Operation::PutDefIndex => of_index(program, of),
        _ => Err(CodeError::Unbuilt),
    }
}

fn of_operator<'a>(
    program: &'a Program,
    operator: Operator,
    of: &Ty,
) -> Result<Wanted<'a>, CodeError>
    ensures fits { IfOk result (λ w. PlaceWanted (operation.Operator operator) of.now w) }
    ensures total { ArePlace (program_of program.now) (operation.Operator operator) of.now result }
{
    match operator {
        Operator::PutElement => of_element(program, of),
        _ => Err(CodeError::Malformed),
    }
}

/// An array, and an index.
fn of_element<'a>(program: &'a Program, of: &Ty) -> Result<Wanted<'a>, CodeError>
    ensures fits { IfOk result (λ w. PlaceWanted (operation.Operator operator.PutElement) of.now w) }
    ensures total { ArePlace (program_of program.now) (operation.Operator operator.PutElement) of.now result }
{
    known(of)?;
    Ok(Wanted::Indexed)
}

/// What a member takes before the value that it writes.
fn of_setter<'a>(
    alloc: Global,
    catalogue: &'a Allow,
    program: &'a Program,
    named: &Member,
    of: &Ty,
) -> Result<Wanted<'a>, CodeError>
    ensures fits { IfOk result (λ w. PlaceWanted (operation.Instance named.now) of.now w) }
    ensures total { ArePlace (program_of program.now) (operation.Instance named.now) of.now result }
{
    let member = named_member(alloc, catalogue, MemberKind::Instance, named)?;
    Ok(Wanted::Setter(&member.params, representation_of(of)))
}

/// What has a name, at which a reference is written.
fn of_name<'a>(program: &'a Program, name: &Text, of: &Ty) -> Result<Wanted<'a>, CodeError>
    ensures fits { IfOk result (λ w. PlaceWanted (operation.PutDefName name.now) of.now w) }
    ensures total { ArePlace (program_of program.now) (operation.PutDefName name.now) of.now result }
{
    alike(representation_of(of), Representation::Boxed)?;
    Ok(Wanted::All(Representation::Boxed))
}

/// What has an index, and that, at which a reference is written.
fn of_index<'a>(program: &'a Program, of: &Ty) -> Result<Wanted<'a>, CodeError>
    ensures fits { IfOk result (λ w. PlaceWanted operation.PutDefIndex of.now w) }
    ensures total { ArePlace (program_of program.now) operation.PutDefIndex of.now result }
{
    alike(representation_of(of), Representation::Boxed)?;
    Ok(Wanted::All(Representation::Boxed))
}

/// What is to be written for an assignment to a place.
pub fn assign_place<'a>(
    alloc: Global,
    catalogue: &'a Allow,
    program: &'a Program,
    config: &Config,
    worklist: &mut Stack<WorkItem<'a>>,
    at: u32,
    of: &'a Ty,
    read: &'a Option<Operation>,
    write: &'a Operation,
    parts: &'a Items<Subtree<Typed>>,
    value: &'a Typed,
) -> Result<(), CodeError>
    ensures back { OnOk result (Back (program_of program.now) (w.Value (tree.Assign at of.now (target.Place read.now write.now) (exprs_of (map expr_of parts.now)) (expr_of value.now)) ∷ items_of worklist.old) config.now (items_of worklist.new) config.now) }
    ensures sound { Keeps (program_of program.now) (w.Value (tree.Assign at of.now (target.Place read.now write.now) (exprs_of (map expr_of parts.now)) (expr_of value.now)) ∷ items_of worklist.old) config.now result (items_of worklist.new) config.now }
    ensures falls { OnOk result (weight.weights worklist.new < weight.expression (tree.Assign at of.now (target.Place read.now write.now) (exprs_of (map expr_of parts.now)) (expr_of value.now)) + weight.weights worklist.old) }
{
    names_of_members();
    present(of)?;
    represented_as(value, representation_of(of))?;
    let wanted = place_operands(alloc, catalogue, program, write, of)?;
    let below = place(parts, wanted)?;
    worklist.push_four(
        WorkItem::Values(parts, 0, wanted),
        WorkItem::Value(value),
        WorkItem::Put(Piece::Under(below)),
        WorkItem::Write(write, of),
    )?;
    Ok(())
}

/// How many parts lie below, as an instruction has it.
fn count(below: Below) -> u32
    ensures { result ≡ parts_below below }
{
    match below {
        Below::Nothing => 0,
        Below::One => 1,
        Below::Two => 2,
    }
}

/// What is to be written for a compound assignment to a place, by what reads it.
fn modify_read<'a>(
    alloc: Global,
    catalogue: &'a Allow,
    program: &'a Program,
    config: &Config,
    worklist: &mut Stack<WorkItem<'a>>,
    at: u32,
    of: &'a Ty,
    read: &'a Operation,
    write: &'a Operation,
    parts: &'a Items<Subtree<Typed>>,
    change: Change,
    right: &'a Typed,
    gives: Gives,
) -> Result<(), CodeError>
    ensures back { OnOk result (Back (program_of program.now) (w.Value (tree.Modify at of.now (target.Place (Some read.now) write.now) (exprs_of (map expr_of parts.now)) change (expr_of right.now) gives) ∷ items_of worklist.old) config.now (items_of worklist.new) config.now) }
    ensures sound { Keeps (program_of program.now) (w.Value (tree.Modify at of.now (target.Place (Some read.now) write.now) (exprs_of (map expr_of parts.now)) change (expr_of right.now) gives) ∷ items_of worklist.old) config.now result (items_of worklist.new) config.now }
    ensures falls { OnOk result (weight.weights worklist.new < weight.expression (tree.Modify at of.now (target.Place (Some read.now) write.now) (exprs_of (map expr_of parts.now)) change (expr_of right.now) gives) + weight.weights worklist.old) }
{
    names_of_members();
    change_fits(change, of, representation_in(right))?;
    let reading = operands(alloc, catalogue, program, read, of, parts.len())?;
    let writing = place_operands(alloc, catalogue, program, write, of)?;
    place(parts, reading)?;
    let below = place(parts, writing)?;
    worklist.push_three(
        WorkItem::Convert(change.after, of),
        WorkItem::Put(Piece::Behind(below, gives)),
        WorkItem::Write(write, of),
    )?;
    worklist.push_four(
        WorkItem::Put(Piece::Before(below, gives)),
        WorkItem::Convert(change.before, of),
        WorkItem::Value(right),
        WorkItem::Put(Piece::Operator(change.operator)),
    )?;
    worklist.push_three(
        WorkItem::Values(parts, 0, writing),
        WorkItem::Put(Piece::Copies(below)),
        WorkItem::Operate(read, of, count(below)),
    )?;
    Ok(())
}

/// What is to be written for a compound assignment to a place.
pub fn modify_place<'a>(
    alloc: Global,
    catalogue: &'a Allow,
    program: &'a Program,
    config: &Config,
    worklist: &mut Stack<WorkItem<'a>>,
    at: u32,
    of: &'a Ty,
    read: &'a Option<Operation>,
    write: &'a Operation,
    parts: &'a Items<Subtree<Typed>>,
    change: Change,
    right: &'a Typed,
    gives: Gives,
) -> Result<(), CodeError>
    ensures back { OnOk result (Back (program_of program.now) (w.Value (tree.Modify at of.now (target.Place read.now write.now) (exprs_of (map expr_of parts.now)) change (expr_of right.now) gives) ∷ items_of worklist.old) config.now (items_of worklist.new) config.now) }
    ensures sound { Keeps (program_of program.now) (w.Value (tree.Modify at of.now (target.Place read.now write.now) (exprs_of (map expr_of parts.now)) change (expr_of right.now) gives) ∷ items_of worklist.old) config.now result (items_of worklist.new) config.now }
    ensures falls { OnOk result (weight.weights worklist.new < weight.expression (tree.Modify at of.now (target.Place read.now write.now) (exprs_of (map expr_of parts.now)) change (expr_of right.now) gives) + weight.weights worklist.old) }
{
    match read {
        Some(read) => modify_read(
            alloc, catalogue, program, config, worklist, at, of, read, write, parts, change, right,
            gives,
        ),
        None => Err(CodeError::Malformed),
    }
}
