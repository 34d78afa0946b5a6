//! Members that are called, made or read.

ghost use Rattle.std.specs.Prelude.{◌≡◌, ◌≢◌, ◌<◌, ◌+◌, ◌∷◌, map, slice_get, string_bytes, true, false, IfOk, MatchResult, OnOk};
ghost use Rattle.std.specs.Option.{option_map};
ghost use Rattle.std.specs.Str.{bytes_eq};
ghost use Rattle.allowlist.specs.declared.member.MemberType.{MemberType};
ghost use Rattle.codegen.specs.Called.{IsMember, IsCalled, IsFound};
ghost use Rattle.codegen.specs.Checks.{denoted};
ghost use Rattle.codegen.specs.Errors.{OnlyMemory};
ghost use Rattle.codegen.specs.Worklist as w;
ghost use Rattle.codegen.specs.Worklist.{Back, items_of, member_takes};
ghost use Rattle.codegen.specs.Sound.{Keeps};
ghost use Rattle.compiler_relation.specs.Representation.{Unboxed, representation_of};
ghost use Rattle.source_meaning.specs.Programs.{program_of, expr_of, exprs_of};
ghost use Rattle.source_meaning.specs.Tree as tree;
ghost use Rattle.typed_tree.specs.declared.operation.Member.{Member};
ghost use Rattle.typed_tree.specs.declared.operation.Operation.TheVariants as operation;
ghost use Rattle.codegen.specs.Weights as weight;

use crate::config::{Config, number_of};
use crate::error::CodeError;
use crate::expressions::represented_as;
use crate::pieces::Piece;
use crate::representation::{Representation, alike, representation_of};
use crate::work_item::{Wanted, WorkItem};
use allowlist::{Allow, MemberKind, MemberType};
use member_names::{member_text, names_of_members};
use pl_code::{Numbered, Plain};
use pl_types::Ty;
use plain_data::{Items, Subtree, Text};
use plain_stack::Stack;
use std::alloc::Global;
use typed_tree::{Member, Operation, Program, Typed};

/// How the part at a place of a member with these parameters is represented: before the arguments comes the receiver, where there is one.
pub fn parameter(kind: MemberKind, params: &Items<Ty>, at: usize) -> Option<Representation>
    ensures { option_map denoted result ≡ slice_get (member_takes kind params.now) at }
{
    match kind {
        MemberKind::Instance => {
            if at == 0 {
                Some(Representation::Boxed)
            } else {
                argument(params, at - 1)
            }
        }
        MemberKind::Constructor => argument(params, at),
        MemberKind::Static => argument(params, at),
        MemberKind::Field => argument(params, at),
    }
}

fn argument(params: &Items<Ty>, at: usize) -> Option<Representation>
    ensures { option_map denoted result ≡ slice_get (map representation_of params.now) at }
{
    match params.get(at) {
        Some(of) => Some(representation_of(of)),
        None => None,
    }
}

/// Two kinds have to be one.
fn same_kind(left: MemberKind, right: MemberKind) -> Result<(), CodeError>
    ensures { MatchResult result (λ _. left ≡ right) (λ _. left ≢ right) }
{
    match (left, right) {
        (MemberKind::Constructor, MemberKind::Constructor) => Ok(()),
        (MemberKind::Static, MemberKind::Static) => Ok(()),
        (MemberKind::Instance, MemberKind::Instance) => Ok(()),
        (MemberKind::Field, MemberKind::Field) => Ok(()),
        _ => Err(CodeError::Malformed),
    }
}

/// Two texts have to be one.
fn same_text(left: &String, right: &Text) -> Result<(), CodeError>
    ensures { MatchResult result (λ _. bytes_eq (string_bytes left.now) right.now ≡ true) (λ _. bytes_eq (string_bytes left.now) right.now ≡ false) }
{
    if left.as_str() == right.as_str() {
        Ok(())
    } else {
        Err(CodeError::Malformed)
    }
}

/// The list's member that an operation names, of this kind. `Malformed` where there is none.
pub fn named_member<'a>(
    alloc: Global,
    catalogue: &'a Allow,
    kind: MemberKind,
    named: &Member,
) -> Result<&'a MemberType, CodeError>
    ensures found { IfOk result (λ member. IsMember kind named.now member.now) }
    ensures total { (member : MemberType) → IsMember kind named.now member → OnlyMemory result }
{
    let count = catalogue.member_count();
    if named.number >= count {
        return Err(CodeError::Malformed);
    }
    let member = catalogue.member_type(named.number);
    same_kind(member.kind, kind)?;
    let text = member_text(alloc, catalogue, named.number)?;
    same_text(&text, &named.text)?;
    Ok(member)
}

/// The list's member that a call names, of this kind, which gives a value of a type. `Malformed` where there is none.
pub fn called<'a>(
    alloc: Global,
    catalogue: &'a Allow,
    kind: MemberKind,
    named: &Member,
    of: &Ty,
) -> Result<&'a MemberType, CodeError>
    ensures found { IfOk result (λ member. IsCalled kind named.now of.now member.now) }
    ensures total { (member : MemberType) → IsCalled kind named.now of.now member → OnlyMemory result }
{
    let member = named_member(alloc, catalogue, kind, named)?;
    alike(representation_of(of), representation_of(&member.result))?;
    Ok(member)
}

/// A value is not represented as a number.
fn not_unboxed(of: &Ty) -> Result<(), CodeError>
    ensures { MatchResult result (λ _. representation_of of.now ≢ Unboxed) (λ _. representation_of of.now ≡ Unboxed) }
{
    match of {
        Ty::Prim(_) => Err(CodeError::Malformed),
        _ => Ok(()),
    }
}

/// What is to be written for a call of a member that a null receiver leaves out.
fn guarded_member<'a>(
    alloc: Global,
    catalogue: &'a Allow,
    program: &'a Program,
    config: &mut Config,
    worklist: &mut Stack<WorkItem<'a>>,
    at: u32,
    of: &Ty,
    named: &'a Member,
    parts: &'a Items<Subtree<Typed>>,
) -> Result<(), CodeError>
    ensures back { OnOk result (Back (program_of program.now) (w.Value (tree.Guarded at of.now (operation.Instance named.now) (exprs_of (map expr_of parts.now))) ∷ items_of worklist.old) config.old (items_of worklist.new) config.new) }
    ensures sound { Keeps (program_of program.now) (w.Value (tree.Guarded at of.now (operation.Instance named.now) (exprs_of (map expr_of parts.now))) ∷ items_of worklist.old) config.old result (items_of worklist.new) config.new }
    ensures falls { OnOk result (weight.weights worklist.new < weight.expression (tree.Guarded at of.now (operation.Instance named.now) (exprs_of (map expr_of parts.now))) + weight.weights worklist.old) }
{
    names_of_members();
    let Some(receiver) = parts.get(0) else {
        return Err(CodeError::Malformed);
    };
    let receiver = receiver.get();
    represented_as(receiver, Representation::Boxed)?;
    not_unboxed(of)?;
    let member = called(alloc, catalogue, MemberKind::Instance, named, of)?;
    let end = config.labels.fresh()?;
    worklist.push_two(
        WorkItem::Bind(end),
        WorkItem::Put(Piece::WithoutNull(representation_of(of))),
    )?;
    worklist.push_three(
        WorkItem::Jump(Numbered::IfNull, end),
        WorkItem::Values(
            parts,
            1,
            Wanted::Member(MemberKind::Instance, &member.params),
        ),
        WorkItem::Call(MemberKind::Instance, &named.text),
    )?;
    worklist.push_two(
        WorkItem::Value(receiver),
        WorkItem::Put(Piece::Plain(Plain::Dup)),
    )?;
    Ok(())
}

/// A call whose member is found when the code runs.
fn is_found(does: &Operation) -> Result<(), CodeError>
    ensures { MatchResult result (λ _. IsFound does.now) (λ _. IsFound does.now → ⊥) }
{
    match does {
        Operation::DefCall(_) => Ok(()),
        Operation::DefName(_) => Ok(()),
        _ => Err(CodeError::Unbuilt),
    }
}

/// What is to be written for a call that a null receiver leaves out, whose member is found when the code runs.
fn guarded_found<'a>(
    program: &'a Program,
    config: &mut Config,
    worklist: &mut Stack<WorkItem<'a>>,
    at: u32,
    of: &'a Ty,
    does: &'a Operation,
    parts: &'a Items<Subtree<Typed>>,
) -> Result<(), CodeError>
    ensures back { OnOk result (Back (program_of program.now) (w.Value (tree.Guarded at of.now does.now (exprs_of (map expr_of parts.now))) ∷ items_of worklist.old) config.old (items_of worklist.new) config.new) }
    ensures sound { IsFound does.now → Keeps (program_of program.now) (w.Value (tree.Guarded at of.now does.now (exprs_of (map expr_of parts.now))) ∷ items_of worklist.old) config.old result (items_of worklist.new) config.new }
    ensures falls { OnOk result (weight.weights worklist.new < weight.expression (tree.Guarded at of.now does.now (exprs_of (map expr_of parts.now))) + weight.weights worklist.old) }
{
    is_found(does)?;
    let Some(receiver) = parts.get(0) else {
        return Err(CodeError::Malformed);
    };
    let receiver = receiver.get();
    represented_as(receiver, Representation::Boxed)?;
    alike(representation_of(of), Representation::Boxed)?;
    let count = number_of(parts.len())?;
    let end = config.labels.fresh()?;
    worklist.push_three(
        WorkItem::Operate(does, of, count),
        WorkItem::Bind(end),
        WorkItem::Put(Piece::WithoutNull(representation_of(of))),
    )?;
    worklist.push_two(
        WorkItem::Jump(Numbered::IfNull, end),
        WorkItem::Values(parts, 1, Wanted::All(Representation::Boxed)),
    )?;
    worklist.push_two(
        WorkItem::Value(receiver),
        WorkItem::Put(Piece::Plain(Plain::Dup)),
    )?;
    Ok(())
}

/// What is to be written for a call that a null receiver leaves out.
pub fn guarded<'a>(
    alloc: Global,
    catalogue: &'a Allow,
    program: &'a Program,
    config: &mut Config,
    worklist: &mut Stack<WorkItem<'a>>,
    at: u32,
    of: &'a Ty,
    operation: &'a Operation,
    parts: &'a Items<Subtree<Typed>>,
) -> Result<(), CodeError>
    ensures back { OnOk result (Back (program_of program.now) (w.Value (tree.Guarded at of.now operation.now (exprs_of (map expr_of parts.now))) ∷ items_of worklist.old) config.old (items_of worklist.new) config.new) }
    ensures sound { Keeps (program_of program.now) (w.Value (tree.Guarded at of.now operation.now (exprs_of (map expr_of parts.now))) ∷ items_of worklist.old) config.old result (items_of worklist.new) config.new }
    ensures falls { OnOk result (weight.weights worklist.new < weight.expression (tree.Guarded at of.now operation.now (exprs_of (map expr_of parts.now))) + weight.weights worklist.old) }
{
    match operation {
        Operation::Instance(named) => guarded_member(
            alloc, catalogue, program, config, worklist, at, of, named, parts,
        ),
        _ => guarded_found(program, config, worklist, at, of, operation, parts),
    }
}
