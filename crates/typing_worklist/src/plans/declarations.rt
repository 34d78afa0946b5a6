//! What is to be done for a declaration, and for its parts.

ghost use Rattle.std.specs.Prelude.{◌≡◌, ◌++◌, slice_get, OnOk};
ghost use Rattle.pl_tree.specs.declared.tree.Declaration.{out-Declaration};
ghost use Rattle.typing_worklist.specs.Plans as spec;

use crate::item::{
    BindingItem, DeclarationItem, ExpressionItem, StatementAct, WordItem, WorkItem, Worklist,
};
use pl_tree::{Argument, Declaration, TypeName, Variable};
use plain_data::Items;
use std::alloc::AllocError;
use typing_actions::Config;

/// A declaration, before which there are so many variables: its variables, and then the statement.
fn declaration<'a>(
    worklist: &mut Worklist<'a>,
    e: &'a Declaration,
    variables: usize,
) -> Result<(), AllocError>
    ensures { OnOk result (worklist.new ≡ spec.declaration_plan variables (out-Declaration e.now) ++ worklist.old) }
{
    worklist.put(&[
        WorkItem::Declaration(DeclarationItem::Variables(&e.of, &e.variables, 0)),
        WorkItem::DoStatement(StatementAct::Declaration(e.of.at, variables)),
    ])
}

/// Variables from one on: this one, and then the rest.
fn variables<'a>(
    worklist: &mut Worklist<'a>,
    of: &'a TypeName,
    all: &'a Items<Variable>,
    at: usize,
) -> Result<(), AllocError>
    ensures { OnOk result (worklist.new ≡ spec.variables_plan of.now all.now at (slice_get all.now at) ++ worklist.old) }
{
    let _count = all.len();
    match all.get(at) {
        None => worklist.push(WorkItem::Word(WordItem::TypeOf(of))),
        Some(one) => worklist.put(&[
            WorkItem::Declaration(DeclarationItem::Variable(of, one)),
            WorkItem::Declaration(DeclarationItem::Variables(of, all, at + 1)),
        ]),
    }
}

/// A variable: what it begins with, and then its name.
fn variable<'a>(
    worklist: &mut Worklist<'a>,
    of: &'a TypeName,
    e: &'a Variable,
) -> Result<(), AllocError>
    ensures { OnOk result (worklist.new ≡ spec.variable_plan of.now e.now ++ worklist.old) }
{
    worklist.put(&[
        WorkItem::Word(WordItem::TypeOf(of)),
        WorkItem::Declaration(DeclarationItem::Initial(of, &e.value)),
        WorkItem::Binding(BindingItem::Declare(&e.name, of)),
    ])
}

/// What a variable of a type begins with, if it has a value.
fn initial<'a>(
    worklist: &mut Worklist<'a>,
    of: &'a TypeName,
    e: &'a Option<Argument>,
) -> Result<(), AllocError>
    ensures { OnOk result (worklist.new ≡ spec.initial_plan of.now e.now ++ worklist.old) }
{
    match e {
        None => worklist.push(WorkItem::DoStatement(StatementAct::NoTest)),
        Some(e) => worklist.put(&[
            WorkItem::Expression(ExpressionItem::Given(e)),
            WorkItem::Binding(BindingItem::CastInitial(of)),
        ]),
    }
}

/// Puts on what is to be done for a declaration or a part of one, in what is known.
pub fn plan<'a>(
    config: &Config,
    worklist: &mut Worklist<'a>,
    item: DeclarationItem<'a>,
) -> Result<(), AllocError>
    ensures { OnOk result (worklist.new ≡ spec.declaration_items config.now item.entry ++ worklist.old) }
{
    match item {
        DeclarationItem::Whole(e) => declaration(worklist, e, config.variables.len()),
        DeclarationItem::Variables(of, all, at) => variables(worklist, of, all, at),
        DeclarationItem::Variable(of, e) => variable(worklist, of, e),
        DeclarationItem::Initial(of, e) => initial(worklist, of, e),
    }
}
