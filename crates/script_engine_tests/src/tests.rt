//! Scripts from their texts to their outcomes.

mod allowed;
mod arrays;
mod catches;
mod containers;
mod counts;
mod dynamic;
mod elements;
mod ending;
mod instances;
mod literals;
mod places;
mod references;
mod rows;

use ending::{all_counted, all_end};
use script_rows::{Compiler, USUAL, prelude_is_listed};
use std::test::Fail;

#[test]
fn scripts_end(rt: HostRuntime) -> Result<(), Fail> {
    let compiler = Compiler::new(rt.alloc())?;
    for table in &[
        rows::VALUES,
        rows::SHORT_CIRCUITS,
        rows::ZERO_DIVISORS,
        rows::BRANCHES,
        rows::LOOPS,
        rows::FUNCTIONS,
    ] {
        all_end(&rt, &compiler, USUAL, *table)?;
    }
    Ok(())
}

#[test]
fn scripts_end_within_bounds(rt: HostRuntime) -> Result<(), Fail> {
    let compiler = Compiler::new(rt.alloc())?;
    for (bounds, table) in &rows::BOUNDED {
        all_end(&rt, &compiler, *bounds, *table)?;
    }
    Ok(())
}

#[test]
fn references_end(rt: HostRuntime) -> Result<(), Fail> {
    let compiler = Compiler::new(rt.alloc())?;
    for table in &[
        references::TEXTS,
        references::CASTS,
        references::RELATIONS,
        references::CHOICES,
        references::THROWN,
        references::MEMBERS,
    ] {
        all_end(&rt, &compiler, USUAL, *table)?;
    }
    Ok(())
}

#[test]
fn references_end_within_bounds(rt: HostRuntime) -> Result<(), Fail> {
    let compiler = Compiler::new(rt.alloc())?;
    for (bounds, table) in references::bounded() {
        all_end(&rt, &compiler, bounds, table)?;
    }
    Ok(())
}

#[test]
fn catches_end(rt: HostRuntime) -> Result<(), Fail> {
    let compiler = Compiler::new(rt.alloc())?;
    for table in [catches::CATCHES, catches::NESTED, catches::LEFT] {
        all_end(&rt, &compiler, USUAL, table)?;
    }
    Ok(())
}

#[test]
fn catches_end_within_bounds(rt: HostRuntime) -> Result<(), Fail> {
    let compiler = Compiler::new(rt.alloc())?;
    for (bounds, table) in &catches::BOUNDED {
        all_end(&rt, &compiler, *bounds, *table)?;
    }
    Ok(())
}

#[test]
fn containers_end(rt: HostRuntime) -> Result<(), Fail> {
    let compiler = Compiler::new(rt.alloc())?;
    for table in &[
        containers::LISTS,
        containers::MAPS,
        containers::ITERATORS,
        containers::CLASSES,
        containers::THROWN,
    ] {
        all_end(&rt, &compiler, USUAL, *table)?;
    }
    Ok(())
}

#[test]
fn containers_end_within_bounds(rt: HostRuntime) -> Result<(), Fail> {
    let compiler = Compiler::new(rt.alloc())?;
    for (bounds, table) in &containers::BOUNDED {
        all_end(&rt, &compiler, *bounds, *table)?;
    }
    Ok(())
}

#[test]
fn literals_arrays_and_places_end(rt: HostRuntime) -> Result<(), Fail> {
    let compiler = Compiler::new(rt.alloc())?;
    for table in &[
        literals::LISTS,
        literals::MAPS,
        literals::SETS,
        arrays::MADE,
        arrays::READ,
        arrays::WRITTEN,
        arrays::RELATED,
        places::ITEMS,
        places::KEYS,
        places::PROPERTIES,
        places::ONCE,
        places::ELEMENTS,
    ] {
        all_end(&rt, &compiler, USUAL, *table)?;
    }
    Ok(())
}

#[test]
fn loops_over_elements_end(rt: HostRuntime) -> Result<(), Fail> {
    let compiler = Compiler::new(rt.alloc())?;
    for table in [elements::OVER, elements::LEFT, elements::CHANGED] {
        all_end(&rt, &compiler, USUAL, table)?;
    }
    Ok(())
}

#[test]
fn elements_end_within_bounds(rt: HostRuntime) -> Result<(), Fail> {
    let compiler = Compiler::new(rt.alloc())?;
    for (bounds, table) in [literals::BOUNDED, arrays::BOUNDED, elements::LIMITED] {
        all_end(&rt, &compiler, bounds, table)?;
    }
    Ok(())
}

#[test]
fn values_of_any_type_end(rt: HostRuntime) -> Result<(), Fail> {
    let compiler = Compiler::new(rt.alloc())?;
    for table in &[
        dynamic::OPERATORS,
        dynamic::CALLS,
        dynamic::ACCESSES,
        dynamic::INDEXES,
        dynamic::REACHED,
        instances::INSTANCES,
    ] {
        all_end(&rt, &compiler, USUAL, *table)?;
    }
    Ok(())
}

/// Allowlist files, and scripts under them.
const ALLOWED: [(&str, &str); 2] = [
    (
        "class java.util.List {\n  def get(int)\n}\n",
        allowed::GET_OF_LISTS,
    ),
    (
        "class java.util.Collection {\n  int size()\n}\nclass java.util.Map {\n  def get(def)\n}\nclass java.util.List {\n  def set(int, def)\n}\n",
        allowed::PARENTS,
    ),
];

#[test]
fn what_is_left_out_is_not_found(rt: HostRuntime) -> Result<(), Fail> {
    for (file, table) in &ALLOWED {
        let compiler = Compiler::reading(rt.alloc(), *file)?;
        all_end(&rt, &compiler, USUAL, *table)?;
    }
    Ok(())
}

#[test]
fn instructions_are_counted(rt: HostRuntime) -> Result<(), Fail> {
    let compiler = Compiler::new(rt.alloc())?;
    all_counted(&rt, &compiler, counts::FEW, &counts::COUNTED)?;
    let good = prelude_is_listed(&compiler, "1", counts::PRELUDE)?;
    assert!(rt; good);
    Ok(())
}
