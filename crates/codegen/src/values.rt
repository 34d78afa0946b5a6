//! Parts, from the left to the right.

ghost use Rattle.std.specs.Prelude.{◌≡◌, ◌<◌, ◌+◌, [], ◌∷◌, drop, slice_get, MatchResult, OnOk};
ghost use Rattle.std.specs.Option.{option_map};
ghost use Rattle.allowlist.specs.declared.member.MemberKind.TheVariants as kinds;
ghost use Rattle.codegen.specs.Checks.{denoted};
ghost use Rattle.codegen.specs.Operands.{Lies, representations_of};
ghost use Rattle.codegen.specs.Pieces.{parts_below};
ghost use Rattle.codegen.specs.Worklist as spec;
ghost use Rattle.compiler_relation.specs.Stands.{AreOneOrTwo};
ghost use Rattle.codegen.specs.Worklist.{Back, Before, Wants, Taken, items_of, member_takes, parts_from, wanted};
ghost use Rattle.codegen.specs.Sound.{Keeps, Refuses};
ghost use Rattle.compiler_relation.specs.Representation.{representation_of};
ghost use Rattle.source_meaning.specs.Programs.{program_of, expr_of};
ghost use Rattle.source_meaning.specs.Tree.{type_of};
ghost use Rattle.codegen.specs.Weights as weight;

use crate::config::Config;
use crate::error::CodeError;
use crate::expressions::represented_as;
use crate::members::parameter;
use crate::pieces::Below;
use crate::representation::{Representation, alike, representation_of};
use crate::work_item::{Wanted, WorkItem};
use allowlist::MemberKind;
use pl_types::Ty;
use plain_data::{Items, Subtree};
use plain_stack::Stack;
use typed_tree::{Program, Typed};

/// Parts from one on: this one, and then the rest.
pub fn values<'a>(
    program: &'a Program,
    config: &Config,
    worklist: &mut Stack<WorkItem<'a>>,
    parts: &'a Items<Subtree<Typed>>,
    at: usize,
    kind: Wanted<'a>,
) -> Result<(), CodeError>
    ensures back { OnOk result (Back (program_of program.now) (spec.Values (parts_from at parts.now) (wanted at kind.entry) ∷ items_of worklist.old) config.now (items_of worklist.new) config.now) }
    ensures sound { Keeps (program_of program.now) (spec.Values (parts_from at parts.now) (wanted at kind.entry) ∷ items_of worklist.old) config.now result (items_of worklist.new) config.now }
    ensures falls { OnOk result (weight.weights worklist.new < weight.parts (parts_from at parts.now) + weight.weights worklist.old) }
{
    let _count = parts.len();
    let Some(part) = parts.get(at) else {
        last(kind, at)?;
        return Ok(());
    };
    let part = part.get();
    fits(part, kind, at)?;
    worklist.push_two(WorkItem::Value(part), WorkItem::Values(parts, at + 1, kind))?;
    Ok(())
}

/// No parameter is left.
fn last<'a>(kind: Wanted<'a>, at: usize) -> Result<(), CodeError>
    ensures { MatchResult result (λ _. Wants (wanted at kind.entry) []) (λ _. Wants (wanted at kind.entry) [] → ⊥) }
{
    match kind {
        Wanted::As(params) => match params.get(at) {
            None => Ok(()),
            Some(_) => Err(CodeError::Malformed),
        },
        Wanted::Member(kind, params) => match parameter(kind, params, at) {
            None => Ok(()),
            Some(_) => Err(CodeError::Malformed),
        },
        Wanted::Indexed => match indexed(at) {
            None => Ok(()),
            Some(_) => Err(CodeError::Malformed),
        },
        Wanted::Setter(params, value) => value_left(params, at, value),
        Wanted::All(_) => Ok(()),
    }
}

/// How the part at a place of an array and an index is represented.
fn indexed(at: usize) -> Option<Representation>
    ensures { option_map denoted result ≡ slice_get spec.indexed at }
{
    if at == 0 {
        Some(Representation::Boxed)
    } else if at == 1 {
        Some(Representation::Unboxed)
    } else {
        None
    }
}

/// The last parameter of a member is left, which is represented so.
fn value_left(params: &Items<Ty>, at: usize, value: Representation) -> Result<(), CodeError>
    ensures { MatchResult result (λ _. Wants (Before (drop at (member_takes kinds.Instance params.now)) (denoted value)) []) (λ _. Wants (Before (drop at (member_takes kinds.Instance params.now)) (denoted value)) [] → ⊥) }
{
    let Some(last) = parameter(MemberKind::Instance, params, at) else {
        return Err(CodeError::Malformed);
    };
    if params.len() != at {
        return Err(CodeError::Malformed);
    }
    alike(last, value)
}

/// A part is represented as it has to be.
fn fits<'a>(part: &Typed, kind: Wanted<'a>, at: usize) -> Result<(), CodeError>
    ensures { MatchResult result (λ _. Taken (wanted at kind.entry) (wanted (at + 1) kind.entry) (representation_of (type_of (expr_of part.now)))) (λ _. Refuses (wanted at kind.entry) (representation_of (type_of (expr_of part.now)))) }
{
    match kind {
        Wanted::All(representation) => represented_as(part, representation),
        Wanted::As(params) => match params.get(at) {
            Some(param) => represented_as(part, representation_of(&param.of)),
            None => Err(CodeError::Malformed),
        },
        Wanted::Member(kind, params) => match parameter(kind, params, at) {
            Some(representation) => represented_as(part, representation),
            None => Err(CodeError::Malformed),
        },
        Wanted::Indexed => match indexed(at) {
            Some(representation) => represented_as(part, representation),
            None => Err(CodeError::Malformed),
        },
        Wanted::Setter(params, _) => match parameter(MemberKind::Instance, params, at) {
            Some(representation) => represented_as(part, representation),
            None => Err(CodeError::Malformed),
        },
    }
}

/// One part or two, represented as is wanted.
pub fn place<'a>(parts: &Items<Subtree<Typed>>, kind: Wanted<'a>) -> Result<Below, CodeError>
    ensures { MatchResult result (λ below. Lies (representations_of parts.now) (wanted 0 kind.entry) (parts_below below)) (λ _. AreOneOrTwo (representations_of parts.now) → Wants (wanted 0 kind.entry) (representations_of parts.now) → ⊥) }
{
    let Some(first) = parts.get(0) else {
        return Err(CodeError::Malformed);
    };
    fits(first.get(), kind, 0)?;
    let Some(second) = parts.get(1) else {
        last(kind, 1)?;
        return Ok(Below::One);
    };
    fits(second.get(), kind, 1)?;
    if parts.len() != 2 {
        return Err(CodeError::Malformed);
    }
    last(kind, 2)?;
    Ok(Below::Two)
}
