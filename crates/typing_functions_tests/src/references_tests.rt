//! `T::m` and `T::new`, by the interface that is wanted.

use allowlist::{Allow, Catalogue};
use pl_types::{Fail, Primitive, Ty, classes, rules};
use plain_data::{Boxed, Text};
use std::alloc::{AllocError, Global};
use std::process::Abort;
use std::test::Fail as TestFail;
use typing_functions::references::{new_reference_of, reference_of};
use typing_functions::wanted::Wanted;
use typing_rules::Part;

/// The number of the rule that is broken at 7, and 0 where none is.
fn rule_of(given: Result<Part, Fail>) -> u8 {
    match given {
        Ok(_) => 0,
        Err(Fail::Refused(refusal)) if refusal.offset == 7 => refusal.number,
        Err(_) => 255,
    }
}

/// An interface, a class, a name, and the rule that is broken.
const MEMBERS: [(u32, u32, &str, u8); 9] = [
    (classes::FUNCTION, classes::STRING, "length", 0),
    (
        classes::FUNCTION,
        classes::STRING,
        "charAt",
        rules::UNKNOWN_MEMBER,
    ),
    (classes::BI_FUNCTION, classes::STRING, "charAt", 0),
    (
        classes::SUPPLIER,
        classes::STRING,
        "length",
        rules::UNKNOWN_MEMBER,
    ),
    (classes::FUNCTION, classes::INTEGER, "parseInt", 0),
    (
        classes::BI_FUNCTION,
        classes::INTEGER,
        "parseInt",
        rules::UNKNOWN_MEMBER,
    ),
    (
        classes::FUNCTION,
        classes::STRING,
        "nope",
        rules::UNKNOWN_MEMBER,
    ),
    (classes::PREDICATE, classes::LIST, "isEmpty", 0),
    (
        classes::BI_PREDICATE,
        classes::LIST,
        "removeIf",
        rules::OUT_OF_PROFILE,
    ),
];

fn member(
    alloc: Global,
    allow: &Allow,
    wanted: Wanted,
    class: u32,
    name: &str,
) -> Result<u8, AllocError> {
    let name = Text::new(alloc, name)?;
    Ok(rule_of(reference_of(alloc, allow, wanted, 7, &name, &Ty::Class(class))))
}

#[test]
fn members_are_found_by_the_arity_of_the_interface(rt: HostRuntime) -> Result<(), TestFail> {
    let alloc = rt.alloc();
    let allow = Catalogue::full(alloc)?;
    for (interface, class, name, rule) in &MEMBERS {
        let wanted = Wanted::Interface(*interface);
        let found = member(alloc, &allow, wanted, *class, name)?;
        assert!(rt; found == *rule, "{name:?}");
    }
    let any = member(alloc, &allow, Wanted::Any, classes::STRING, "nope")?;
    assert!(rt; any == 0);
    let none = member(alloc, &allow, Wanted::Nothing, classes::STRING, "nope")?;
    assert!(rt; none == rules::BAD_FUNCTION_VALUE);
    Ok(())
}

/// An interface, a class, and the rule that is broken.
const CONSTRUCTORS: [(u32, u32, u8); 4] = [
    (classes::SUPPLIER, classes::ARRAY_LIST, 0),
    (classes::FUNCTION, classes::ARRAY_LIST, 0),
    (
        classes::BI_FUNCTION,
        classes::ARRAY_LIST,
        rules::UNKNOWN_MEMBER,
    ),
    (classes::SUPPLIER, classes::LIST, rules::UNKNOWN_MEMBER),
];

fn made(alloc: Global, allow: &Allow, interface: u32, of: Ty) -> u8 {
    rule_of(new_reference_of(alloc, allow, Wanted::Interface(interface), 7, of))
}

#[test]
fn constructors_are_the_class_s_own(rt: HostRuntime) -> Result<(), TestFail> {
    let alloc = rt.alloc();
    let allow = Catalogue::full(alloc)?;
    for (interface, class, rule) in &CONSTRUCTORS {
        let found = made(alloc, &allow, *interface, Ty::Class(*class));
        assert!(rt; found == *rule, "{interface}");
    }
    let ints = Ty::Array(Boxed::new(alloc, Ty::Prim(Primitive::Int))?);
    let array = made(alloc, &allow, classes::FUNCTION, ints);
    assert!(rt; array == 0);
    let primitive = made(alloc, &allow, classes::FUNCTION, Ty::Prim(Primitive::Int));
    assert!(rt; primitive == rules::UNKNOWN_MEMBER);
    Ok(())
}
