//! What function values run, and what they copy.

use allowlist::{Allow, Catalogue};
use pl_types::{Fail, Primitive, Ty, classes, rules};
use plain_data::{Items, Text};
use std::alloc::{AllocError, Global};
use std::process::Abort;
use std::test::Fail as TestFail;
use typed_tree::Named;
use typing_functions::captures::captured;
use typing_functions::chosen::this_of;
use typing_functions::wanted::Wanted;
use typing_rules::{Entry, Header, Scopes, Standing};

fn int(alloc: Global, name: &str) -> Result<Named, AllocError> {
    let name = Text::new(alloc, name)?;
    Ok(Named {
        name,
        of: Ty::Prim(Primitive::Int),
    })
}

/// The header of a function `f` with so many ints.
fn header(alloc: Global, names: &[&str]) -> Result<Header, AllocError> {
    let mut parameters = Items::new(alloc);
    for name in names {
        parameters.push(int(alloc, name)?)?;
    }
    let name = Text::new(alloc, "f")?;
    Ok(Header {
        name,
        parameters,
        result: Ty::Prim(Primitive::Int),
    })
}

/// The rule that is broken at 7, and 0 where none is.
fn rule_of(
    alloc: Global,
    allow: &Allow,
    headers: &[Header],
    wanted: Wanted,
) -> Result<u8, AllocError> {
    let name = Text::new(alloc, "f")?;
    match this_of(alloc, allow, headers, wanted, 7, &name) {
        Ok(_) => Ok(0),
        Err(Fail::Refused(refusal)) if refusal.offset == 7 => Ok(refusal.number),
        Err(_) => Ok(255),
    }
}

#[test]
fn functions_are_found_by_the_arity_of_the_interface(rt: HostRuntime) -> Result<(), TestFail> {
    let alloc = rt.alloc();
    let allow = Catalogue::full(alloc)?;
    let mut headers = Items::new(alloc);
    let none = rule_of(alloc, &allow, headers.as_slice(), Wanted::Any)?;
    assert!(rt; none == rules::UNKNOWN_FUNCTION);
    headers.push(header(alloc, &["a"])?)?;
    let one = rule_of(alloc, &allow, headers.as_slice(), Wanted::Any)?;
    assert!(rt; one == 0);
    let known = rule_of(
        alloc,
        &allow,
        headers.as_slice(),
        Wanted::Interface(classes::TO_INT_FUNCTION),
    )?;
    assert!(rt; known == 0);
    let other = rule_of(
        alloc,
        &allow,
        headers.as_slice(),
        Wanted::Interface(classes::SUPPLIER),
    )?;
    assert!(rt; other == rules::UNKNOWN_FUNCTION);
    headers.push(header(alloc, &["a", "b"])?)?;
    let several = rule_of(alloc, &allow, headers.as_slice(), Wanted::Any)?;
    assert!(rt; several == rules::BAD_FUNCTION_VALUE);
    Ok(())
}

/// A name and its type in sight.
fn entry(alloc: Global, name: &str) -> Result<Entry, AllocError> {
    let name = Text::new(alloc, name)?;
    Ok(Entry {
        name,
        of: Ty::Def,
        standing: Standing::Variable,
    })
}

#[test]
fn names_around_are_copied_once_by_their_first_mention(rt: HostRuntime) -> Result<(), TestFail> {
    let alloc = rt.alloc();
    let mut scopes = Scopes::new(alloc);
    for name in &["a", "b", "c"] {
        scopes.push(alloc, entry(alloc, name)?)?;
    }
    let mut names = Items::new(alloc);
    for name in &["b", "c", "d", "a", "b"] {
        names.push(Text::new(alloc, name)?)?;
    }
    let copied = captured(alloc, &scopes, 2, names.as_slice())?;
    assert!(rt; copied.len() == 2);
    let first = matches!(copied.get(0), Some(n) if n.name.as_str() == "b");
    let second = matches!(copied.get(1), Some(n) if n.name.as_str() == "a");
    assert!(rt; first && second);
    Ok(())
}
