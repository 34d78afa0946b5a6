//! Scripts that break no rule, and scripts that break one.

mod crossing;
mod element_rows;
mod pairs;
mod reading;
mod rows;

use crossing::table_holds;
use reading::{Reader, Wanted, are_refused, are_typed};
use std::test::Fail as TestFail;

#[test]
fn scripts_are_typed(rt: HostRuntime) -> Result<(), TestFail> {
    let reader = Reader::new(rt.alloc(), Wanted::Number)?;
    are_typed(&rt, &reader, &rows::TYPED);
    Ok(())
}

#[test]
fn names_and_types_are_refused(rt: HostRuntime) -> Result<(), TestFail> {
    let reader = Reader::new(rt.alloc(), Wanted::Number)?;
    are_refused(&rt, &reader, &rows::NAMES);
    are_refused(&rt, &reader, &rows::DECLARED_AGAIN);
    are_refused(&rt, &reader, &rows::FUNCTIONS);
    are_refused(&rt, &reader, &rows::TYPES);
    are_refused(&rt, &reader, &rows::NOT_BUILT);
    are_refused(&rt, &reader, &rows::MEMBERS);
    Ok(())
}

#[test]
fn expressions_are_refused(rt: HostRuntime) -> Result<(), TestFail> {
    let reader = Reader::new(rt.alloc(), Wanted::Number)?;
    are_refused(&rt, &reader, &rows::CASTS);
    are_refused(&rt, &reader, &rows::OPERANDS);
    are_refused(&rt, &reader, &rows::NEVER_NULL);
    are_refused(&rt, &reader, &rows::NOT_WRITTEN_TO);
    are_refused(&rt, &reader, &rows::RANGES);
    Ok(())
}

#[test]
fn statements_are_refused(rt: HostRuntime) -> Result<(), TestFail> {
    let reader = Reader::new(rt.alloc(), Wanted::Number)?;
    are_refused(&rt, &reader, &rows::NO_STATEMENTS);
    are_refused(&rt, &reader, &rows::UNREACHABLE);
    are_refused(&rt, &reader, &rows::MISSING_RETURNS);
    are_refused(&rt, &reader, &rows::JUMPS);
    are_refused(&rt, &reader, &rows::FIRST_OF_TWO);
    Ok(())
}

#[test]
fn catches_are_typed_or_refused(rt: HostRuntime) -> Result<(), TestFail> {
    let reader = Reader::new(rt.alloc(), Wanted::Number)?;
    are_typed(&rt, &reader, &rows::TYPED_TRIES);
    are_refused(&rt, &reader, &rows::TRIES);
    Ok(())
}

#[test]
fn elements_are_typed_or_refused(rt: HostRuntime) -> Result<(), TestFail> {
    let reader = Reader::new(rt.alloc(), Wanted::Number)?;
    are_typed(&rt, &reader, &element_rows::TYPED_ELEMENTS);
    are_refused(&rt, &reader, &element_rows::ELEMENTS);
    are_refused(&rt, &reader, &element_rows::CONTAINERS);
    are_refused(&rt, &reader, &element_rows::LOOPS);
    are_refused(&rt, &reader, &element_rows::DYNAMIC);
    Ok(())
}

#[test]
fn contexts_may_want_no_result(rt: HostRuntime) -> Result<(), TestFail> {
    let reader = Reader::new(rt.alloc(), Wanted::Nothing)?;
    are_typed(&rt, &reader, &rows::TYPED_WITHOUT_RESULT);
    are_refused(&rt, &reader, &rows::WITHOUT_RESULT);
    Ok(())
}

#[test]
fn worked_examples(rt: HostRuntime) -> Result<(), TestFail> {
    let reader = Reader::new(rt.alloc(), Wanted::Number)?;
    are_typed(&rt, &reader, &rows::WORKED);
    are_refused(&rt, &reader, &rows::WORKED_REFUSED);
    Ok(())
}

/// A function of two parameters that returns what stands in a form.
const OF_TWO: (&str, &str) = ("def f(X x, Y y) { return ", " } 1");

#[test]
fn types_are_cast(rt: HostRuntime) -> Result<(), TestFail> {
    let reader = Reader::new(rt.alloc(), Wanted::Number)?;
    table_holds(&rt, &reader, ("", ""), pairs::CASTS)?;
    Ok(())
}

#[test]
fn constants_and_operators_of_one_side(rt: HostRuntime) -> Result<(), TestFail> {
    let reader = Reader::new(rt.alloc(), Wanted::Number)?;
    let declared = ("void f() { Y y = ", " } 1");
    table_holds(&rt, &reader, declared, pairs::CONSTANTS)?;
    let of_one = ("def f(Y y) { return ", " } 1");
    table_holds(&rt, &reader, of_one, pairs::ONE_SIDE)?;
    Ok(())
}

#[test]
fn operators_of_two_types(rt: HostRuntime) -> Result<(), TestFail> {
    let reader = Reader::new(rt.alloc(), Wanted::Number)?;
    table_holds(&rt, &reader, OF_TWO, pairs::OPERATORS)?;
    Ok(())
}

#[test]
fn comparisons_of_two_types(rt: HostRuntime) -> Result<(), TestFail> {
    let reader = Reader::new(rt.alloc(), Wanted::Number)?;
    table_holds(&rt, &reader, OF_TWO, pairs::COMPARISONS)?;
    Ok(())
}

#[test]
fn choices_of_two_types(rt: HostRuntime) -> Result<(), TestFail> {
    let reader = Reader::new(rt.alloc(), Wanted::Number)?;
    table_holds(&rt, &reader, OF_TWO, pairs::CHOICES)?;
    Ok(())
}

#[test]
fn changes_of_two_types(rt: HostRuntime) -> Result<(), TestFail> {
    let reader = Reader::new(rt.alloc(), Wanted::Number)?;
    table_holds(&rt, &reader, OF_TWO, pairs::CHANGES)?;
    Ok(())
}
