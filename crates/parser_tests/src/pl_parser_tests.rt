//! What the parser makes of scripts, and what it refuses.

mod deep;
mod piece;
mod pieces;
mod places;
mod printer;
mod reading;
mod refused;
mod shapes;
mod words;

use printer::Detail;
use reading::{
    are_deep, are_one_statement, are_read, are_refused, has_parts, have_one_statement, have_shapes,
    nest, nested,
};
use std::test::Fail as TestFail;

#[test]
fn scripts_have_their_trees(rt: HostRuntime) -> Result<(), TestFail> {
    let alloc = rt.alloc();
    have_shapes(&rt, alloc, &shapes::SCRIPTS_AND_FUNCTIONS)?;
    have_shapes(&rt, alloc, &shapes::STATEMENTS)?;
    have_shapes(&rt, alloc, &shapes::FOR_LOOPS)?;
    have_shapes(&rt, alloc, &shapes::DECLARATIONS_AND_EXPRESSIONS)?;
    Ok(())
}

#[test]
fn expressions_have_their_trees(rt: HostRuntime) -> Result<(), TestFail> {
    let alloc = rt.alloc();
    have_shapes(&rt, alloc, &shapes::NEIGHBOURING_LEVELS)?;
    have_shapes(&rt, alloc, &shapes::OPERATORS_IN_A_ROW)?;
    have_shapes(&rt, alloc, &shapes::UNARY_OPERATORS_AND_CASTS)?;
    have_shapes(&rt, alloc, &shapes::PRIMARIES_AND_MEMBERS)?;
    have_shapes(&rt, alloc, &shapes::CREATIONS)?;
    have_shapes(&rt, alloc, &shapes::LAMBDAS_AND_REFERENCES)?;
    Ok(())
}

#[test]
fn nodes_have_their_places(rt: HostRuntime) -> Result<(), TestFail> {
    let alloc = rt.alloc();
    are_read(&rt, alloc, Detail::Places, &places::PLACES_OF_EXPRESSIONS)?;
    are_read(&rt, alloc, Detail::Places, &places::PLACES_OF_STATEMENTS)?;
    Ok(())
}

#[test]
fn scripts_are_refused(rt: HostRuntime) -> Result<(), TestFail> {
    let alloc = rt.alloc();
    are_refused(&rt, alloc, &refused::REFUSED_STATEMENTS);
    are_refused(&rt, alloc, &refused::REFUSED_DECLARATIONS);
    are_refused(&rt, alloc, &refused::REFUSED_EXPRESSIONS);
    are_refused(&rt, alloc, &refused::REFUSED_CREATIONS_AND_ARGUMENTS);
    Ok(())
}

#[test]
fn nesting_is_bounded(rt: HostRuntime) -> Result<(), TestFail> {
    let alloc = rt.alloc();
    nest(&rt, alloc, &deep::DEEP_BRACKETS)?;
    nest(&rt, alloc, &deep::FAR_TOKENS)?;
    are_deep(&rt, alloc, &deep::TOO_DEEP_SCRIPTS)?;
    Ok(())
}

// A `}` separates, so behind one the tokens before it no longer count: such scripts nest as deep as their length allows.
#[test]
fn separators_let_trees_be_deep(rt: HostRuntime) -> Result<(), TestFail> {
    have_one_statement(&rt, rt.alloc(), &deep::DEEP_TREES)?;
    Ok(())
}

// What only follows one another is read at any length.
#[test]
fn long_scripts(rt: HostRuntime) -> Result<(), TestFail> {
    let alloc = rt.alloc();
    let statements = nested(alloc, 20_000, ("x;", "", ""))?;
    assert!(rt; has_parts(&rt, alloc, statements.as_str(), 0, 20_000));
    let functions = nested(alloc, 7_000, ("int f(){}", "x", ""))?;
    assert!(rt; has_parts(&rt, alloc, functions.as_str(), 7_000, 1));
    Ok(())
}

#[test]
fn long_lists(rt: HostRuntime) -> Result<(), TestFail> {
    are_one_statement(&rt, rt.alloc(), &deep::LONG_LISTS)?;
    Ok(())
}
