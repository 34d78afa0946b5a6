//! Prints what it takes to find the member that a call on a value means, in nanoseconds, under the full catalogue: `rt run -- times`.
//! With no argument it does nothing.
#![tactic(auto)]

use allowlist::{Allow, Catalogue};
use def_resolve::resolve;
use pl_types::classes::{COMPARATOR, FUNCTION, LINKED_HASH_MAP, SCRIPT_DOC_VALUES, STRING};
use std::rt::Clock;
use std::time::Instant;
use std::{env, io};

const TIMES: u32 = 1_000_000;

const CALLS: [(&str, u32, &str, u32); 7] = [
    ("a member of the class", STRING, "substring", 2),
    ("a member of the parent's parent", LINKED_HASH_MAP, "get", 1),
    (
        "a member of the farthest parent",
        SCRIPT_DOC_VALUES,
        "toString",
        0,
    ),
    ("no member", SCRIPT_DOC_VALUES, "nope", 1),
    ("another number of arguments", STRING, "substring", 3),
    ("the method of an interface", FUNCTION, "apply", 1),
    ("another member of an interface", COMPARATOR, "reversed", 0),
];

// How many of so many calls find something.
fn found_often(allow: &Allow, class: u32, name: &str, arity: u32) -> u32 {
    let mut found = 0u32;
    for _ in 0..TIMES {
        if resolve(allow, class, name, arity).is_some() {
            found = found.saturating_add(1);
        }
    }
    found
}

fn measure(rt: &(impl Clock + Print), allow: &Allow) -> io::Result<()> {
    for (what, class, name, arity) in &CALLS {
        let start = Instant::now(rt)?;
        let found = found_often(allow, *class, *name, *arity);
        let spent = start.elapsed(rt)?.as_nanos() / u128::from(TIMES);
        println!(rt; "{what}: {spent} ns ({found} of {TIMES} found)")?;
    }
    Ok(())
}

fn main(rt: HostRuntime) -> io::Result<()> {
    let mut args = env::args(&rt)?;
    if args.nth(1).is_none() {
        return Ok(());
    }
    match Catalogue::full(rt.alloc()) {
        Ok(allow) => measure(&rt, &allow),
        Err(_) => println!(rt; "no memory"),
    }
}
