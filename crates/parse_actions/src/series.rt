//! Repeated phrases.

ghost use Rattle.std.specs.Prelude.{◌≡◌, [], ◌∷◌, OnOk};
ghost use Rattle.parse_tables.specs.Names.{series_form, listed_form};
ghost use Rattle.pl_grammar.specs.Grammar.{comma};
ghost use Rattle.parse_values.specs.declared.value.Value.TheVariants as v;
ghost use Rattle.parse_values.specs.Values.{list_value, value_of, held};
ghost use Rattle.parse_values.specs.Stack.{IsOnSeveral, Extends};

use parse_stack::Stack;
use parse_tables::{Listed, Series};
use parse_values::Value;
use plain_data::Items;
use std::alloc::{AllocError, Global};

fn empty(alloc: Global, series: Series) -> Value
    ensures { result ≡ list_value (series_form series) [] }
{
    match series {
        Series::Statement => Value::Statements(Some(Items::new(alloc))),
        Series::Inner => Value::Statements(Some(Items::new(alloc))),
        Series::Pair => Value::Places(Some(Items::new(alloc))),
        Series::Handler => Value::Catches(Some(Items::new(alloc))),
        Series::Postfix => Value::Suffixes(Some(Items::new(alloc))),
        Series::Size => Value::Exprs(Some(Items::new(alloc))),
        Series::Operation(_) => Value::Operations(Some(Items::new(alloc))),
        Series::Comma(listed) => empty_listed(alloc, listed),
    }
}

fn empty_listed(alloc: Global, listed: Listed) -> Value
    ensures { result ≡ list_value (comma (listed_form listed)) [] }
{
    match listed {
        Listed::Formal => Value::Parameters(Some(Items::new(alloc))),
        Listed::Var => Value::Variables(Some(Items::new(alloc))),
        Listed::Item => Value::Exprs(Some(Items::new(alloc))),
        Listed::Entry => Value::Entries(Some(Items::new(alloc))),
        Listed::Arg => Value::Arguments(Some(Items::new(alloc))),
        Listed::Param => Value::Parameters(Some(Items::new(alloc))),
    }
}

/// Puts the value of no phrases on the top of the stack.
#[inline(never)]
pub fn push_none(alloc: Global, series: Series, stack: &mut Stack) -> Result<(), AllocError>
    ensures { OnOk result (stack.new ≡ list_value (series_form series) [] ∷ stack.old) }
{
    stack.push(alloc, empty(alloc, series))
}

/// Statements, and one more.
fn statements(alloc: Global, stack: &mut Stack) -> Result<(), AllocError>
    requires { IsOnSeveral (held v.Statements) (held v.Statement) stack.old }
    ensures { OnOk result (Extends (held v.Statements) (held v.Statement) stack.old stack.new) }
{
    let one = stack.statement();
    let mut all = stack.statements();
    all.push(one)?;
    stack.push(alloc, Value::Statements(Some(all)))
}

/// Places, and one more.
fn places(alloc: Global, stack: &mut Stack) -> Result<(), AllocError>
    requires { IsOnSeveral (held v.Places) (held v.Place) stack.old }
    ensures { OnOk result (Extends (held v.Places) (held v.Place) stack.old stack.new) }
{
    let one = stack.place();
    let mut all = stack.places();
    all.push(one)?;
    stack.push(alloc, Value::Places(Some(all)))
}

/// Catches, and one more.
fn catches(alloc: Global, stack: &mut Stack) -> Result<(), AllocError>
    requires { IsOnSeveral (held v.Catches) (held v.Catch) stack.old }
    ensures { OnOk result (Extends (held v.Catches) (held v.Catch) stack.old stack.new) }
{
    let one = stack.catch_clause();
    let mut all = stack.catches();
    all.push(one)?;
    stack.push(alloc, Value::Catches(Some(all)))
}

/// Suffixes, and one more.
fn suffixes(alloc: Global, stack: &mut Stack) -> Result<(), AllocError>
    requires { IsOnSeveral (held v.Suffixes) (held v.Suffix) stack.old }
    ensures { OnOk result (Extends (held v.Suffixes) (held v.Suffix) stack.old stack.new) }
{
    let one = stack.suffix();
    let mut all = stack.suffixes();
    all.push(one)?;
    stack.push(alloc, Value::Suffixes(Some(all)))
}

/// Expressions, and one more.
fn exprs(alloc: Global, stack: &mut Stack) -> Result<(), AllocError>
    requires { IsOnSeveral (held v.Exprs) (held v.Expr) stack.old }
    ensures { OnOk result (Extends (held v.Exprs) (held v.Expr) stack.old stack.new) }
{
    let one = stack.expr();
    let mut all = stack.exprs();
    all.push(one)?;
    stack.push(alloc, Value::Exprs(Some(all)))
}

/// Operations, and one more.
fn operations(alloc: Global, stack: &mut Stack) -> Result<(), AllocError>
    requires { IsOnSeveral (held v.Operations) (held v.Operation) stack.old }
    ensures { OnOk result (Extends (held v.Operations) (held v.Operation) stack.old stack.new) }
{
    let one = stack.operation();
    let mut all = stack.operations();
    all.push(one)?;
    stack.push(alloc, Value::Operations(Some(all)))
}

/// Parameters, and one more.
fn parameters(alloc: Global, stack: &mut Stack) -> Result<(), AllocError>
    requires { IsOnSeveral (held v.Parameters) (held v.Parameter) stack.old }
    ensures { OnOk result (Extends (held v.Parameters) (held v.Parameter) stack.old stack.new) }
{
    let one = stack.parameter();
    let mut all = stack.parameters();
    all.push(one)?;
    stack.push(alloc, Value::Parameters(Some(all)))
}

/// Variables, and one more.
fn variables(alloc: Global, stack: &mut Stack) -> Result<(), AllocError>
    requires { IsOnSeveral (held v.Variables) (held v.Variable) stack.old }
    ensures { OnOk result (Extends (held v.Variables) (held v.Variable) stack.old stack.new) }
{
    let one = stack.variable();
    let mut all = stack.variables();
    all.push(one)?;
    stack.push(alloc, Value::Variables(Some(all)))
}

/// Entries, and one more.
fn entries(alloc: Global, stack: &mut Stack) -> Result<(), AllocError>
    requires { IsOnSeveral (held v.Entries) (held v.Entry) stack.old }
    ensures { OnOk result (Extends (held v.Entries) (held v.Entry) stack.old stack.new) }
{
    let one = stack.entry();
    let mut all = stack.entries();
    all.push(one)?;
    stack.push(alloc, Value::Entries(Some(all)))
}

/// Arguments, and one more.
fn arguments(alloc: Global, stack: &mut Stack) -> Result<(), AllocError>
    requires { IsOnSeveral (held v.Arguments) (held v.Argument) stack.old }
    ensures { OnOk result (Extends (held v.Arguments) (held v.Argument) stack.old stack.new) }
{
    let one = stack.argument();
    let mut all = stack.arguments();
    all.push(one)?;
    stack.push(alloc, Value::Arguments(Some(all)))
}

/// Joins the phrase on the top of the stack to those below it.
#[inline(never)]
pub fn extend(alloc: Global, series: Series, stack: &mut Stack) -> Result<(), AllocError>
    requires { IsOnSeveral (list_value (series_form series)) (value_of (series_form series)) stack.old }
    ensures { OnOk result (Extends (list_value (series_form series)) (value_of (series_form series)) stack.old stack.new) }
{
    match series {
        Series::Statement => statements(alloc, stack),
        Series::Inner => statements(alloc, stack),
        Series::Pair => places(alloc, stack),
        Series::Handler => catches(alloc, stack),
        Series::Postfix => suffixes(alloc, stack),
        Series::Size => exprs(alloc, stack),
        Series::Operation(_) => operations(alloc, stack),
        Series::Comma(listed) => extend_listed(alloc, listed, stack),
    }
}

fn extend_listed(alloc: Global, listed: Listed, stack: &mut Stack) -> Result<(), AllocError>
    requires { IsOnSeveral (list_value (comma (listed_form listed))) (value_of (listed_form listed)) stack.old }
    ensures { OnOk result (Extends (list_value (comma (listed_form listed))) (value_of (listed_form listed)) stack.old stack.new) }
{
    match listed {
        Listed::Formal => parameters(alloc, stack),
        Listed::Var => variables(alloc, stack),
        Listed::Item => exprs(alloc, stack),
        Listed::Entry => entries(alloc, stack),
        Listed::Arg => arguments(alloc, stack),
        Listed::Param => parameters(alloc, stack),
    }
}
