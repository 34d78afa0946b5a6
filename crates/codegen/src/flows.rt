//! How control goes on behind what is written, and what depends on it.

ghost use Rattle.std.specs.Prelude.{◌≡◌, ◌≢◌, ◌<◌, ◌+◌, [], ◌∷◌, IfOk, OnOk};
ghost use Rattle.codegen.specs.Worklist as w;
ghost use Rattle.codegen.specs.Worklist.{Back, IsTop, items_of, maybe_in};
ghost use Rattle.codegen.specs.Errors.{OnlyMemory};
ghost use Rattle.codegen.specs.Sound.{Keeps};
ghost use Rattle.source_meaning.specs.Programs.{program_of};
ghost use Rattle.codegen.specs.Weights as weight;

use crate::config::{Config, Flow};
use crate::error::CodeError;
use crate::expressions::{representation_in, represented_as};
use crate::pieces::Piece;
use crate::representation::Representation;
use crate::work_item::WorkItem;
use pl_code::{Numbered, Plain};
use pl_types::Ty;
use plain_stack::Stack;
use typed_tree::{Program, Typed};

fn top(flows: &mut Stack<Flow>) -> Result<Flow, CodeError>
    ensures top { IfOk result (λ x. IsTop flows.old x) }
    ensures same { OnOk result (flows.new ≡ flows.old) }
    ensures memory { flows.old ≢ [] → OnlyMemory result }
{
    let Some(flow) = flows.pop() else {
        return Err(CodeError::Malformed);
    };
    flows.push(flow)?;
    Ok(flow)
}

fn turns_on(flow: Flow) -> bool
    ensures { result ≡ w.turns_on flow }
{
    flow.falls || flow.continues
}

/// One more.
pub fn add<'a>(
    program: &'a Program,
    config: &mut Config,
    worklist: &Stack<WorkItem<'a>>,
    flow: Flow,
) -> Result<(), CodeError>
    ensures back { OnOk result (Back (program_of program.now) (w.Flows flow ∷ items_of worklist.now) config.old (items_of worklist.now) config.new) }
    ensures sound { Keeps (program_of program.now) (w.Flows flow ∷ items_of worklist.now) config.old result (items_of worklist.now) config.new }
{
    config.flows.push(flow)?;
    Ok(())
}

/// A statement and those behind it go on as one.
pub fn both<'a>(
    program: &'a Program,
    config: &mut Config,
    worklist: &Stack<WorkItem<'a>>,
) -> Result<(), CodeError>
    ensures back { OnOk result (Back (program_of program.now) (w.Both ∷ items_of worklist.now) config.old (items_of worklist.now) config.new) }
    ensures sound { Keeps (program_of program.now) (w.Both ∷ items_of worklist.now) config.old result (items_of worklist.now) config.new }
{
    let Some(rest) = config.flows.pop() else {
        return Err(CodeError::Malformed);
    };
    let Some(first) = config.flows.pop() else {
        return Err(CodeError::Malformed);
    };
    let flow = in_row(first, rest);
    config.flows.push(flow)?;
    Ok(())
}

fn in_row(first: Flow, rest: Flow) -> Flow
    ensures { result ≡ w.both first rest }
{
    Flow {
        falls: first.falls && rest.falls,
        continues: first.continues || rest.continues,
    }
}

/// Two ways go on as one.
pub fn either<'a>(
    program: &'a Program,
    config: &mut Config,
    worklist: &Stack<WorkItem<'a>>,
) -> Result<(), CodeError>
    ensures back { OnOk result (Back (program_of program.now) (w.Either ∷ items_of worklist.now) config.old (items_of worklist.now) config.new) }
    ensures sound { Keeps (program_of program.now) (w.Either ∷ items_of worklist.now) config.old result (items_of worklist.now) config.new }
{
    let Some(no) = config.flows.pop() else {
        return Err(CodeError::Malformed);
    };
    let Some(yes) = config.flows.pop() else {
        return Err(CodeError::Malformed);
    };
    let flow = in_choice(yes, no);
    config.flows.push(flow)?;
    Ok(())
}

fn in_choice(yes: Flow, no: Flow) -> Flow
    ensures { result ≡ w.either yes no }
{
    Flow {
        falls: yes.falls || no.falls,
        continues: yes.continues || no.continues,
    }
}

/// A loop is left.
pub fn turned<'a>(
    program: &'a Program,
    config: &mut Config,
    worklist: &Stack<WorkItem<'a>>,
) -> Result<(), CodeError>
    ensures back { OnOk result (Back (program_of program.now) (w.Turned ∷ items_of worklist.now) config.old (items_of worklist.now) config.new) }
    ensures sound { Keeps (program_of program.now) (w.Turned ∷ items_of worklist.now) config.old result (items_of worklist.now) config.new }
{
    let Some(_body) = config.flows.pop() else {
        return Err(CodeError::Malformed);
    };
    config.flows.push(Flow {
        falls: true,
        continues: false,
    })?;
    Ok(())
}

/// A jump over what follows, where it is reached.
pub fn skip<'a>(
    program: &'a Program,
    config: &mut Config,
    worklist: &mut Stack<WorkItem<'a>>,
    label: usize,
) -> Result<(), CodeError>
    ensures back { OnOk result (Back (program_of program.now) (w.Skip label ∷ items_of worklist.old) config.old (items_of worklist.new) config.new) }
    ensures sound { Keeps (program_of program.now) (w.Skip label ∷ items_of worklist.old) config.old result (items_of worklist.new) config.new }
    ensures falls { OnOk result (weight.weights worklist.new < 2 + weight.weights worklist.old) }
{
    let flow = top(&mut config.flows)?;
    if flow.falls {
        worklist.push(WorkItem::Jump(Numbered::Goto, label))?;
        return Ok(());
    }
    Ok(())
}

/// What is done behind a turn, where that is reached.
pub fn update<'a>(
    program: &'a Program,
    config: &mut Config,
    worklist: &mut Stack<WorkItem<'a>>,
    what: Option<&'a Typed>,
) -> Result<(), CodeError>
    ensures back { OnOk result (Back (program_of program.now) (w.Update (maybe_in what.entry) ∷ items_of worklist.old) config.old (items_of worklist.new) config.new) }
    ensures sound { Keeps (program_of program.now) (w.Update (maybe_in what.entry) ∷ items_of worklist.old) config.old result (items_of worklist.new) config.new }
    ensures falls { OnOk result (weight.weights worklist.new < (2 + weight.value_in what.entry) + weight.weights worklist.old) }
{
    let flow = top(&mut config.flows)?;
    let Some(e) = what else {
        return Ok(());
    };
    if turns_on(flow) {
        let representation = representation_in(e);
        worklist.push_two(
            WorkItem::Value(e),
            WorkItem::Put(Piece::Pop(representation)),
        )?;
        return Ok(());
    }
    Ok(())
}

/// The test before a turn.
pub fn test<'a>(
    program: &'a Program,
    config: &Config,
    worklist: &mut Stack<WorkItem<'a>>,
    what: Option<&'a Typed>,
) -> Result<(), CodeError>
    ensures back { OnOk result (Back (program_of program.now) (w.Test (maybe_in what.entry) ∷ items_of worklist.old) config.now (items_of worklist.new) config.now) }
    ensures sound { Keeps (program_of program.now) (w.Test (maybe_in what.entry) ∷ items_of worklist.old) config.now result (items_of worklist.new) config.now }
    ensures falls { OnOk result (weight.weights worklist.new < (2 + weight.value_in what.entry) + weight.weights worklist.old) }
{
    let Some(e) = what else {
        worklist.push(WorkItem::Put(Piece::Int(1)))?;
        return Ok(());
    };
    represented_as(e, Representation::Unboxed)?;
    worklist.push(WorkItem::Value(e))?;
    Ok(())
}

/// The test behind a turn, where that is reached, and the jump out of the loop.
pub fn last<'a>(
    program: &'a Program,
    config: &mut Config,
    worklist: &mut Stack<WorkItem<'a>>,
    what: Option<&'a Typed>,
    label: usize,
) -> Result<(), CodeError>
    ensures back { OnOk result (Back (program_of program.now) (w.Last (maybe_in what.entry) label ∷ items_of worklist.old) config.old (items_of worklist.new) config.new) }
    ensures sound { Keeps (program_of program.now) (w.Last (maybe_in what.entry) label ∷ items_of worklist.old) config.old result (items_of worklist.new) config.new }
    ensures falls { OnOk result (weight.weights worklist.new < (2 + weight.value_in what.entry) + weight.weights worklist.old) }
{
    let flow = top(&mut config.flows)?;
    let Some(e) = what else {
        return Ok(());
    };
    if turns_on(flow) {
        represented_as(e, Representation::Unboxed)?;
        worklist.push_two(WorkItem::Value(e), WorkItem::Jump(Numbered::IfZero, label))?;
        return Ok(());
    }
    Ok(())
}

/// The end of a function with this result.
pub fn end<'a>(
    program: &'a Program,
    config: &mut Config,
    worklist: &mut Stack<WorkItem<'a>>,
    of: &'a Ty,
) -> Result<(), CodeError>
    ensures back { OnOk result (Back (program_of program.now) (w.End of.now ∷ items_of worklist.old) config.old (items_of worklist.new) config.new) }
    ensures sound { Keeps (program_of program.now) (w.End of.now ∷ items_of worklist.old) config.old result (items_of worklist.new) config.new }
    ensures falls { OnOk result (weight.weights worklist.new < 3 + weight.weights worklist.old) }
{
    let flow = top(&mut config.flows)?;
    if flow.falls {
        worklist.push_two(
            WorkItem::Put(Piece::Default(of)),
            WorkItem::Put(Piece::Plain(Plain::Ret)),
        )?;
        return Ok(());
    }
    Ok(())
}
