//! Operators over each pair of types of values, of boxes, and of `def`.

use crate::cells::all_cells_end;
use crate::pairs::{all_casts_end, all_pairs_end};
use crate::{boxes, operands, operators, pair_tables};
use script_rows::{Compiler, USUAL, script_ends};
use std::alloc::AllocError;
use std::process::Abort;
use std::test::Fail;

/// Each script of a table ends as its line says: `END: SCRIPT`.
fn all_end(rt: &impl Abort, compiler: &Compiler, table: &str) -> Result<(), AllocError> {
    for line in table.lines() {
        let (wanted, script) = line.split_once(':').unwrap_or(("", line));
        let good = script_ends(compiler, script, USUAL, wanted)?;
        assert!(rt; good, "{line}");
    }
    Ok(())
}

#[test]
fn operators_over_each_pair_of_types(rt: HostRuntime) -> Result<(), Fail> {
    let compiler = Compiler::new(rt.alloc())?;
    for table in &[
        operators::BYTES,
        operators::SHORTS,
        operators::CHARS,
        operators::INTS,
        operators::LONGS,
        operands::UNARY,
        operands::BOOLEANS,
    ] {
        all_cells_end(&rt, &compiler, *table)?;
    }
    Ok(())
}

#[test]
fn boxes_end(rt: HostRuntime) -> Result<(), Fail> {
    let compiler = Compiler::new(rt.alloc())?;
    for table in &[
        boxes::UNBOXED,
        boxes::BOXED,
        boxes::FOUND,
        boxes::ABSENT,
        boxes::PAIRS,
        boxes::MIXED,
        boxes::SINGLE,
    ] {
        all_cells_end(&rt, &compiler, *table)?;
    }
    for table in [boxes::MEMBERS, boxes::RELATED] {
        all_end(&rt, &compiler, table)?;
    }
    Ok(())
}

#[test]
fn pairs_of_values_end(rt: HostRuntime) -> Result<(), Fail> {
    let compiler = Compiler::new(rt.alloc())?;
    all_pairs_end(&rt, &compiler, pair_tables::PAIRS)?;
    all_casts_end(&rt, &compiler, pair_tables::CASTS)?;
    all_cells_end(&rt, &compiler, pair_tables::STEPS)?;
    Ok(())
}
