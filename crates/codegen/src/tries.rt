//! Blocks whose exceptions are caught, and their catches.

ghost use Rattle.std.specs.Prelude.{◌≡◌, ◌<◌, ◌+◌, ◌∷◌, length, IfOk, OnOk, drop, map};
ghost use Rattle.codegen.specs.Errors.{OnlyMemory};
ghost use Rattle.codegen.specs.Worklist as w;
ghost use Rattle.codegen.specs.Worklist.{Back, catches_from, items_of};
ghost use Rattle.codegen.specs.Opened.{body_of};
ghost use Rattle.codegen.specs.Sound.{Keeps};
ghost use Rattle.pl_types.specs.Classes.{full_name};
ghost use Rattle.pl_types.specs.declared.ty.Ty.TheVariants as t;
ghost use Rattle.compiler_relation.specs.Stands.{trap_of};
ghost use Rattle.source_meaning.specs.Programs.{program_of};
ghost use Rattle.source_meaning.specs.Tree as tree;
ghost use Rattle.program_typing.specs.Types.{IsNamed};
ghost use Rattle.typed_tree.specs.declared.statement.TypedCatch.{out-TypedCatch};
ghost use Rattle.codegen.specs.Weights as weight;

use crate::config::{Config, Flow, next_line};
use crate::error::CodeError;
use crate::scopes::declare;
use crate::work_item::{Exits, Tail, WorkItem};
use listing_parts::ClassName;
use pl_code::Trap;
use pl_types::Ty;
use pl_types::classes::{CLASS_COUNT, class_full};
use plain_data::Items;
use plain_stack::Stack;
use std::alloc::Global;
use typed_tree::{Program, TypedCatch, TypedStatement};

/// A block and a jump over its catches, and then these.
pub fn attempt<'a>(
    program: &'a Program,
    config: &mut Config,
    worklist: &mut Stack<WorkItem<'a>>,
    body: &'a TypedStatement,
    catches: &'a Items<TypedCatch>,
    exits: Option<Exits>,
) -> Result<(), CodeError>
    ensures back { OnOk result (Back (program_of program.now) (w.One (tree.Try (body_of body.now) (catches_from 0 catches.now)) exits ∷ items_of worklist.old) config.old (items_of worklist.new) config.new) }
    ensures sound { Keeps (program_of program.now) (w.One (tree.Try (body_of body.now) (catches_from 0 catches.now)) exits ∷ items_of worklist.old) config.old result (items_of worklist.new) config.new }
    ensures falls { OnOk result (weight.weights worklist.new < (20 + (weight.statement body.now + weight.handlers (map weight.handler catches.now))) + weight.weights worklist.old) }
{
    let height = config.scope.len();
    let from = next_line(config)?;
    let end = config.labels.fresh()?;
    worklist.push_three(
        WorkItem::Tried(catches, from, end, exits),
        WorkItem::Bind(end),
        WorkItem::Either,
    )?;
    worklist.push_three(
        WorkItem::Statement(body, Tail::Nothing, exits),
        WorkItem::Close(height),
        WorkItem::Skip(end),
    )?;
    Ok(())
}

/// The catches of a block that begins at a line and ends here.
pub fn tried<'a>(
    program: &'a Program,
    config: &Config,
    worklist: &mut Stack<WorkItem<'a>>,
    catches: &'a Items<TypedCatch>,
    from: u32,
    label: usize,
    exits: Option<Exits>,
) -> Result<(), CodeError>
    ensures back { OnOk result (Back (program_of program.now) (w.Tried (catches_from 0 catches.now) from label exits ∷ items_of worklist.old) config.now (items_of worklist.new) config.now) }
    ensures sound { Keeps (program_of program.now) (w.Tried (catches_from 0 catches.now) from label exits ∷ items_of worklist.old) config.now result (items_of worklist.new) config.now }
    ensures falls { OnOk result (weight.weights worklist.new < (3 + weight.handlers (map weight.handler catches.now)) + weight.weights worklist.old) }
{
    let to = next_line(config)?;
    worklist.push(WorkItem::Caught(catches, 0, from, to, label, exits))?;
    Ok(())
}

/// The catches, from one on, of the lines from one on and before another.
pub fn caught<'a>(
    alloc: Global,
    program: &'a Program,
    config: &mut Config,
    worklist: &mut Stack<WorkItem<'a>>,
    catches: &'a Items<TypedCatch>,
    at: usize,
    from: u32,
    to: u32,
    label: usize,
    exits: Option<Exits>,
) -> Result<(), CodeError>
    ensures back { OnOk result (Back (program_of program.now) (w.Caught (catches_from at catches.now) from to label exits ∷ items_of worklist.old) config.old (items_of worklist.new) config.new) }
    ensures sound { Keeps (program_of program.now) (w.Caught (catches_from at catches.now) from to label exits ∷ items_of worklist.old) config.old result (items_of worklist.new) config.new }
    ensures falls { OnOk result (weight.weights worklist.new < (2 + weight.handlers (map weight.handler (drop at catches.now))) + weight.weights worklist.old) }
{
    let _count = catches.len();
    let Some(one) = catches.get(at) else {
        worklist.push(WorkItem::Flows(Flow {
            falls: false,
            continues: false,
        }))?;
        return Ok(());
    };
    let height = config.scope.len();
    let line = next_line(config)?;
    let trap = trap(alloc, one.class, from, to, line)?;
    config.traps.push(trap)?;
    worklist.push_three(
        WorkItem::Over(catches, at + 1, label),
        WorkItem::Caught(catches, at + 1, from, to, label, exits),
        WorkItem::Either,
    )?;
    worklist.push_three(
        WorkItem::Named(one),
        WorkItem::Statement(one.body.get(), Tail::Nothing, exits),
        WorkItem::Close(height),
    )?;
    Ok(())
}

/// A trap line. `Malformed` where code has no name for the class.
fn trap(alloc: Global, class: u32, from: u32, to: u32, at: u32) -> Result<Trap, CodeError>
    ensures known { IfOk result (λ trap. class < 57) }
    ensures trap { IfOk result (λ trap. trap ≡ trap_of from to at class) }
    ensures total { IsNamed (t.Class class) → OnlyMemory result }
{
    if class >= CLASS_COUNT {
        return Err(CodeError::Malformed);
    }
    let class = class_name(alloc, class)?;
    Ok(Trap {
        from,
        to,
        at,
        class,
    })
}

/// The full name of a class. `Malformed` where it has not the form of one.
fn class_name(alloc: Global, class: u32) -> Result<ClassName, CodeError>
    requires { class < CLASS_COUNT }
    ensures name { IfOk result (λ name. name ≡ full_name class) }
    ensures total { IsNamed (t.Class class) → OnlyMemory result }
{
    let Some(name) = ClassName::new(alloc, class_full(class))? else {
        return Err(CodeError::Malformed);
    };
    Ok(name)
}

/// The name of a catch is in scope from here on.
pub fn named<'a>(
    alloc: Global,
    program: &'a Program,
    config: &mut Config,
    worklist: &Stack<WorkItem<'a>>,
    one: &TypedCatch,
) -> Result<(), CodeError>
    ensures back { OnOk result (Back (program_of program.now) (w.Declared (out-TypedCatch one.now).name (t.Class (out-TypedCatch one.now).class) ∷ items_of worklist.now) config.old (items_of worklist.now) config.new) }
    ensures sound { Keeps (program_of program.now) (w.Declared (out-TypedCatch one.now).name (t.Class (out-TypedCatch one.now).class) ∷ items_of worklist.now) config.old result (items_of worklist.now) config.new }
{
    let of = Ty::Class(one.class);
    declare(alloc, program, config, worklist, &one.name, &of)
}

/// A jump over the catches from one on, if there are any, where it is reached.
pub fn over<'a>(
    program: &'a Program,
    config: &Config,
    worklist: &mut Stack<WorkItem<'a>>,
    catches: &'a Items<TypedCatch>,
    at: usize,
    label: usize,
) -> Result<(), CodeError>
    ensures back { OnOk result (Back (program_of program.now) (w.Over (catches_from at catches.now) label ∷ items_of worklist.old) config.now (items_of worklist.new) config.now) }
    ensures sound { Keeps (program_of program.now) (w.Over (catches_from at catches.now) label ∷ items_of worklist.old) config.now result (items_of worklist.new) config.now }
    ensures falls { OnOk result (weight.weights worklist.new < 3 + weight.weights worklist.old) }
{
    let _count = catches.len();
    let Some(_next) = catches.get(at) else {
        return Ok(());
    };
    worklist.push(WorkItem::Skip(label))?;
    Ok(())
}
