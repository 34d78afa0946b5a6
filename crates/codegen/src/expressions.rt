//! Expressions: what is to be written for a node.

ghost use Rattle.std.specs.Prelude.{◌≡◌, ◌≢◌, ◌<◌, ◌+◌, ◌∷◌, map, MatchResult, OnOk};
ghost use Rattle.codegen.specs.Checks.{denoted, jump_of};
ghost use Rattle.codegen.specs.Worklist as w;
ghost use Rattle.codegen.specs.Worklist.{Back, items_of};
ghost use Rattle.codegen.specs.Opened.{opened};
ghost use Rattle.codegen.specs.Functions.{function_at};
ghost use Rattle.codegen.specs.Sound.{Keeps};
ghost use Rattle.std.specs.Option.{option_copied};
ghost use Rattle.compiler_relation.specs.Representation.{representation_of};
ghost use Rattle.compiler_relation.specs.Stands as stands;
ghost use Rattle.source_meaning.specs.Programs.{program_of, expr_of, exprs_of};
ghost use Rattle.source_meaning.specs.Tree.{type_of};
ghost use Rattle.source_meaning.specs.Tree as tree;
ghost use Rattle.typed_tree.specs.declared.operation.Target.TheVariants as target;
ghost use Rattle.codegen.specs.Weights as weight;

use crate::checks::change_fits;
use crate::config::{Config, number_of};
use crate::error::CodeError;
use crate::members::guarded;
use crate::operands::operands;
use crate::pieces::{Below, Piece};
use crate::representation::{Representation, alike, representation_of};
use crate::targets::{assign_place, modify_place};
use crate::work_item::WorkItem;
use allowlist::Allow;
use member_names::names_of_members;
use pl_code::{Numbered, Plain};
use pl_types::Ty;
use plain_data::{Items, Subtree, Text};
use plain_stack::Stack;
use std::alloc::Global;
use typed_tree::{
    Change, Constant, Gives, Logical, Node, Operation, Program, Target, Typed, TypedFunction,
};

/// How an expression's values are represented.
pub fn representation_in(e: &Typed) -> Representation
    ensures { denoted result ≡ representation_of (type_of (expr_of e.now)) }
{
    representation_of(&e.of)
}

/// An expression's values have to be represented so.
pub fn represented_as(e: &Typed, wanted: Representation) -> Result<(), CodeError>
    ensures { MatchResult result (λ _. representation_of (type_of (expr_of e.now)) ≡ denoted wanted) (λ _. representation_of (type_of (expr_of e.now)) ≢ denoted wanted) }
{
    alike(representation_in(e), wanted)
}

/// What is to be written for an expression.
pub fn value<'a>(
    alloc: Global,
    catalogue: &'a Allow,
    program: &'a Program,
    config: &mut Config,
    worklist: &mut Stack<WorkItem<'a>>,
    e: &'a Typed,
) -> Result<(), CodeError>
    ensures back { OnOk result (Back (program_of program.now) (w.Value (opened e.now) ∷ items_of worklist.old) config.old (items_of worklist.new) config.new) }
    ensures sound { Keeps (program_of program.now) (w.Value (opened e.now) ∷ items_of worklist.old) config.old result (items_of worklist.new) config.new }
    ensures falls { OnOk result (weight.weights worklist.new < weight.expression (opened e.now) + weight.weights worklist.old) }
{
    match &e.node {
        Node::Constant(it) => constant(program, config, worklist, e.at, &e.of, *it),
        Node::Text(text) => quoted(program, config, worklist, e.at, &e.of, text),
        Node::Local(name) => local(program, config, worklist, e.at, &e.of, name),
        Node::Conditional { condition, yes, no } => conditional(
            program,
            config,
            worklist,
            e.at,
            &e.of,
            condition.get(),
            yes.get(),
            no.get(),
        ),
        Node::Elvis { left, right } => elvis(
            program,
            config,
            worklist,
            e.at,
            &e.of,
            left.get(),
            right.get(),
        ),
        Node::Apply { operation, parts } => {
            apply(
                alloc, catalogue, program, config, worklist, e.at, &e.of, operation, parts,
            )
        }
        Node::Logical {
            operator,
            left,
            right,
        } => logical(
            program,
            config,
            worklist,
            e.at,
            &e.of,
            *operator,
            left.get(),
            right.get(),
        ),
        Node::Assign {
            target,
            parts,
            value,
        } => assign(
            alloc,
            catalogue,
            program,
            config,
            worklist,
            e.at,
            &e.of,
            target,
            parts,
            value.get(),
        ),
        Node::Change {
            target,
            parts,
            change,
            right,
            gives,
        } => modify(
            alloc,
            catalogue,
            program,
            config,
            worklist,
            e.at,
            &e.of,
            target,
            parts,
            *change,
            right.get(),
            *gives,
        ),
        Node::Guarded { operation, parts } => {
            guarded(
                alloc, catalogue, program, config, worklist, e.at, &e.of, operation, parts,
            )
        }
        Node::Lambda { .. } => Err(CodeError::Unbuilt),
        Node::Reference { .. } => Err(CodeError::Unbuilt),
        Node::NewReference { .. } => Err(CodeError::Unbuilt),
    }
}

fn constant<'a>(
    program: &'a Program,
    config: &mut Config,
    worklist: &mut Stack<WorkItem<'a>>,
    at: u32,
    of: &Ty,
    it: Constant,
) -> Result<(), CodeError>
    ensures back { OnOk result (Back (program_of program.now) (w.Value (tree.Literal at of.now it) ∷ items_of worklist.old) config.old (items_of worklist.new) config.new) }
    ensures sound { Keeps (program_of program.now) (w.Value (tree.Literal at of.now it) ∷ items_of worklist.old) config.old result (items_of worklist.new) config.new }
    ensures falls { OnOk result (weight.weights worklist.new < weight.expression (tree.Literal at of.now it) + weight.weights worklist.old) }
{
    alike(representation_of(of), literal_representation(it))?;
    worklist.push(WorkItem::Put(Piece::Constant(it)))?;
    Ok(())
}

fn quoted<'a>(
    program: &'a Program,
    config: &Config,
    worklist: &mut Stack<WorkItem<'a>>,
    at: u32,
    of: &Ty,
    text: &'a Text,
) -> Result<(), CodeError>
    ensures back { OnOk result (Back (program_of program.now) (w.Value (tree.Quoted at of.now text.now) ∷ items_of worklist.old) config.now (items_of worklist.new) config.now) }
    ensures sound { Keeps (program_of program.now) (w.Value (tree.Quoted at of.now text.now) ∷ items_of worklist.old) config.now result (items_of worklist.new) config.now }
    ensures falls { OnOk result (weight.weights worklist.new < weight.expression (tree.Quoted at of.now text.now) + weight.weights worklist.old) }
{
    alike(representation_of(of), Representation::Boxed)?;
    worklist.push(WorkItem::Put(Piece::Text(text)))?;
    Ok(())
}

fn literal_representation(it: Constant) -> Representation
    ensures { denoted result ≡ stands.literal_representation it }
{
    match it {
        Constant::Null => Representation::Boxed,
        _ => Representation::Unboxed,
    }
}

fn local<'a>(
    program: &'a Program,
    config: &Config,
    worklist: &mut Stack<WorkItem<'a>>,
    at: u32,
    of: &Ty,
    name: &'a Text,
) -> Result<(), CodeError>
    ensures back { OnOk result (Back (program_of program.now) (w.Value (tree.Local at of.now name.now) ∷ items_of worklist.old) config.now (items_of worklist.new) config.now) }
    ensures sound { Keeps (program_of program.now) (w.Value (tree.Local at of.now name.now) ∷ items_of worklist.old) config.now result (items_of worklist.new) config.now }
    ensures falls { OnOk result (weight.weights worklist.new < weight.expression (tree.Local at of.now name.now) + weight.weights worklist.old) }
{
    worklist.push(WorkItem::Load(name, representation_of(of)))?;
    Ok(())
}

fn conditional<'a>(
    program: &'a Program,
    config: &mut Config,
    worklist: &mut Stack<WorkItem<'a>>,
    at: u32,
    of: &Ty,
    condition: &'a Typed,
    yes: &'a Typed,
    no: &'a Typed,
) -> Result<(), CodeError>
    ensures back { OnOk result (Back (program_of program.now) (w.Value (tree.Conditional at of.now (expr_of condition.now) (expr_of yes.now) (expr_of no.now)) ∷ items_of worklist.old) config.old (items_of worklist.new) config.new) }
    ensures sound { Keeps (program_of program.now) (w.Value (tree.Conditional at of.now (expr_of condition.now) (expr_of yes.now) (expr_of no.now)) ∷ items_of worklist.old) config.old result (items_of worklist.new) config.new }
    ensures falls { OnOk result (weight.weights worklist.new < weight.expression (tree.Conditional at of.now (expr_of condition.now) (expr_of yes.now) (expr_of no.now)) + weight.weights worklist.old) }
{
    represented_as(condition, Representation::Unboxed)?;
    represented_as(yes, representation_of(of))?;
    represented_as(no, representation_of(of))?;
    let end = config.labels.fresh()?;
    let other = config.labels.fresh()?;
    worklist.push_three(
        WorkItem::Bind(other),
        WorkItem::Value(no),
        WorkItem::Bind(end),
    )?;
    worklist.push_four(
        WorkItem::Value(condition),
        WorkItem::Jump(Numbered::IfZero, other),
        WorkItem::Value(yes),
        WorkItem::Jump(Numbered::Goto, end),
    )?;
    Ok(())
}

fn elvis<'a>(
    program: &'a Program,
    config: &mut Config,
    worklist: &mut Stack<WorkItem<'a>>,
    at: u32,
    of: &Ty,
    left: &'a Typed,
    right: &'a Typed,
) -> Result<(), CodeError>
    ensures back { OnOk result (Back (program_of program.now) (w.Value (tree.Elvis at of.now (expr_of left.now) (expr_of right.now)) ∷ items_of worklist.old) config.old (items_of worklist.new) config.new) }
    ensures sound { Keeps (program_of program.now) (w.Value (tree.Elvis at of.now (expr_of left.now) (expr_of right.now)) ∷ items_of worklist.old) config.old result (items_of worklist.new) config.new }
    ensures falls { OnOk result (weight.weights worklist.new < weight.expression (tree.Elvis at of.now (expr_of left.now) (expr_of right.now)) + weight.weights worklist.old) }
{
    represented_as(left, Representation::Boxed)?;
    represented_as(right, Representation::Boxed)?;
    alike(representation_of(of), Representation::Boxed)?;
    let end = config.labels.fresh()?;
    let other = config.labels.fresh()?;
    worklist.push_three(
        WorkItem::Put(Piece::Plain(Plain::Pop)),
        WorkItem::Value(right),
        WorkItem::Bind(end),
    )?;
    worklist.push_two(WorkItem::Jump(Numbered::Goto, end), WorkItem::Bind(other))?;
    worklist.push_three(
        WorkItem::Value(left),
        WorkItem::Put(Piece::Plain(Plain::Dup)),
        WorkItem::Jump(Numbered::IfNull, other),
    )?;
    Ok(())
}

fn logical<'a>(
    program: &'a Program,
    config: &mut Config,
    worklist: &mut Stack<WorkItem<'a>>,
    at: u32,
    of: &Ty,
    operator: Logical,
    left: &'a Typed,
    right: &'a Typed,
) -> Result<(), CodeError>
    ensures back { OnOk result (Back (program_of program.now) (w.Value (tree.Logic at of.now operator (expr_of left.now) (expr_of right.now)) ∷ items_of worklist.old) config.old (items_of worklist.new) config.new) }
    ensures sound { Keeps (program_of program.now) (w.Value (tree.Logic at of.now operator (expr_of left.now) (expr_of right.now)) ∷ items_of worklist.old) config.old result (items_of worklist.new) config.new }
    ensures falls { OnOk result (weight.weights worklist.new < weight.expression (tree.Logic at of.now operator (expr_of left.now) (expr_of right.now)) + weight.weights worklist.old) }
{
    represented_as(left, Representation::Unboxed)?;
    represented_as(right, Representation::Unboxed)?;
    alike(representation_of(of), Representation::Unboxed)?;
    let end = config.labels.fresh()?;
    let settled = config.labels.fresh()?;
    worklist.push_three(
        WorkItem::Bind(settled),
        WorkItem::Put(Piece::Settled(operator)),
        WorkItem::Bind(end),
    )?;
    worklist.push_four(
        WorkItem::Value(left),
        WorkItem::Jump(settling(operator), settled),
        WorkItem::Value(right),
        WorkItem::Jump(Numbered::Goto, end),
    )?;
    Ok(())
}

/// The jump at the value of the left side that settles the whole.
fn settling(operator: Logical) -> Numbered
    ensures { result ≡ jump_of operator }
{
    match operator {
        Logical::And => Numbered::IfZero,
        Logical::Or => Numbered::IfNotZero,
    }
}

fn assign_local<'a>(
    program: &'a Program,
    config: &Config,
    worklist: &mut Stack<WorkItem<'a>>,
    at: u32,
    of: &Ty,
    name: &'a Text,
    parts: &Items<Subtree<Typed>>,
    value: &'a Typed,
) -> Result<(), CodeError>
    ensures back { OnOk result (Back (program_of program.now) (w.Value (tree.Assign at of.now (target.Local name.now) (exprs_of (map expr_of parts.now)) (expr_of value.now)) ∷ items_of worklist.old) config.now (items_of worklist.new) config.now) }
    ensures sound { Keeps (program_of program.now) (w.Value (tree.Assign at of.now (target.Local name.now) (exprs_of (map expr_of parts.now)) (expr_of value.now)) ∷ items_of worklist.old) config.now result (items_of worklist.new) config.now }
    ensures falls { OnOk result (weight.weights worklist.new < weight.expression (tree.Assign at of.now (target.Local name.now) (exprs_of (map expr_of parts.now)) (expr_of value.now)) + weight.weights worklist.old) }
{
    let representation = representation_of(of);
    represented_as(value, representation)?;
    worklist.push_three(
        WorkItem::Value(value),
        WorkItem::Put(Piece::Plain(Plain::Dup)),
        WorkItem::Store(name, representation),
    )?;
    Ok(())
}

fn assign<'a>(
    alloc: Global,
    catalogue: &'a Allow,
    program: &'a Program,
    config: &Config,
    worklist: &mut Stack<WorkItem<'a>>,
    at: u32,
    of: &'a Ty,
    target: &'a Target,
    parts: &'a Items<Subtree<Typed>>,
    value: &'a Typed,
) -> Result<(), CodeError>
    ensures back { OnOk result (Back (program_of program.now) (w.Value (tree.Assign at of.now target.now (exprs_of (map expr_of parts.now)) (expr_of value.now)) ∷ items_of worklist.old) config.now (items_of worklist.new) config.now) }
    ensures sound { Keeps (program_of program.now) (w.Value (tree.Assign at of.now target.now (exprs_of (map expr_of parts.now)) (expr_of value.now)) ∷ items_of worklist.old) config.now result (items_of worklist.new) config.now }
    ensures falls { OnOk result (weight.weights worklist.new < weight.expression (tree.Assign at of.now target.now (exprs_of (map expr_of parts.now)) (expr_of value.now)) + weight.weights worklist.old) }
{
    match target {
        Target::Local(name) => assign_local(program, config, worklist, at, of, name, parts, value),
        Target::Place { read, write } => assign_place(
            alloc, catalogue, program, config, worklist, at, of, read, write, parts, value,
        ),
    }
}

fn modify_local<'a>(
    program: &'a Program,
    config: &Config,
    worklist: &mut Stack<WorkItem<'a>>,
    at: u32,
    of: &'a Ty,
    name: &'a Text,
    parts: &Items<Subtree<Typed>>,
    change: Change,
    right: &'a Typed,
    gives: Gives,
) -> Result<(), CodeError>
    ensures back { OnOk result (Back (program_of program.now) (w.Value (tree.Modify at of.now (target.Local name.now) (exprs_of (map expr_of parts.now)) change (expr_of right.now) gives) ∷ items_of worklist.old) config.now (items_of worklist.new) config.now) }
    ensures sound { Keeps (program_of program.now) (w.Value (tree.Modify at of.now (target.Local name.now) (exprs_of (map expr_of parts.now)) change (expr_of right.now) gives) ∷ items_of worklist.old) config.now result (items_of worklist.new) config.now }
    ensures falls { OnOk result (weight.weights worklist.new < weight.expression (tree.Modify at of.now (target.Local name.now) (exprs_of (map expr_of parts.now)) change (expr_of right.now) gives) + weight.weights worklist.old) }
{
    let representation = representation_of(of);
    change_fits(change, of, representation_in(right))?;
    worklist.push_four(
        WorkItem::Put(Piece::Operator(change.operator)),
        WorkItem::Convert(change.after, of),
        WorkItem::Put(Piece::Behind(Below::Nothing, gives)),
        WorkItem::Store(name, representation),
    )?;
    worklist.push_four(
        WorkItem::Load(name, representation),
        WorkItem::Put(Piece::Before(Below::Nothing, gives)),
        WorkItem::Convert(change.before, of),
        WorkItem::Value(right),
    )?;
    Ok(())
}

fn modify<'a>(
    alloc: Global,
    catalogue: &'a Allow,
    program: &'a Program,
    config: &Config,
    worklist: &mut Stack<WorkItem<'a>>,
    at: u32,
    of: &'a Ty,
    target: &'a Target,
    parts: &'a Items<Subtree<Typed>>,
    change: Change,
    right: &'a Typed,
    gives: Gives,
) -> Result<(), CodeError>
    ensures back { OnOk result (Back (program_of program.now) (w.Value (tree.Modify at of.now target.now (exprs_of (map expr_of parts.now)) change (expr_of right.now) gives) ∷ items_of worklist.old) config.now (items_of worklist.new) config.now) }
    ensures sound { Keeps (program_of program.now) (w.Value (tree.Modify at of.now target.now (exprs_of (map expr_of parts.now)) change (expr_of right.now) gives) ∷ items_of worklist.old) config.now result (items_of worklist.new) config.now }
    ensures falls { OnOk result (weight.weights worklist.new < weight.expression (tree.Modify at of.now target.now (exprs_of (map expr_of parts.now)) change (expr_of right.now) gives) + weight.weights worklist.old) }
{
    match target {
        Target::Local(name) => modify_local(
            program, config, worklist, at, of, name, parts, change, right, gives,
        ),
        Target::Place { read, write } => modify_place(
            alloc, catalogue, program, config, worklist, at, of, read, write, parts, change, right,
            gives,
        ),
    }
}

fn apply<'a>(
    alloc: Global,
    catalogue: &'a Allow,
    program: &'a Program,
    config: &Config,
    worklist: &mut Stack<WorkItem<'a>>,
    at: u32,
    of: &'a Ty,
    does: &'a Operation,
    parts: &'a Items<Subtree<Typed>>,
) -> Result<(), CodeError>
    ensures back { OnOk result (Back (program_of program.now) (w.Value (tree.Apply at of.now does.now (exprs_of (map expr_of parts.now))) ∷ items_of worklist.old) config.now (items_of worklist.new) config.now) }
    ensures sound { Keeps (program_of program.now) (w.Value (tree.Apply at of.now does.now (exprs_of (map expr_of parts.now))) ∷ items_of worklist.old) config.now result (items_of worklist.new) config.now }
    ensures falls { OnOk result (weight.weights worklist.new < weight.expression (tree.Apply at of.now does.now (exprs_of (map expr_of parts.now))) + weight.weights worklist.old) }
{
    names_of_members();
    let wanted = operands(alloc, catalogue, program, does, of, parts.len())?;
    let count = number_of(parts.len())?;
    worklist.push_two(
        WorkItem::Values(parts, 0, wanted),
        WorkItem::Operate(does, of, count),
    )?;
    Ok(())
}

/// A function by its number.
pub fn function<'a>(program: &'a Program, number: u32) -> Option<&'a TypedFunction>
    ensures { option_copied result ≡ function_at program.now number }
{
    if number == 0 {
        Some(&program.main)
    } else {
        program.functions.get(number as usize - 1)
    }
}
