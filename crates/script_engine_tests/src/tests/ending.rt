//! How tables of scripts run.

use script_rows::{Bounds, Compiler, listed_and_counted, script_ends};
use std::alloc::AllocError;
use std::process::Abort;

/// Each script of a table ends as its line says, within bounds: `END: SCRIPT`.
pub fn all_end(
    rt: &impl Abort,
    compiler: &Compiler,
    bounds: Bounds,
    table: &str,
) -> Result<(), AllocError> {
    for line in table.lines() {
        let (wanted, script) = line.split_once(':').unwrap_or(("", line));
        let good = script_ends(compiler, script, bounds, wanted)?;
        assert!(rt; good, "{line}");
    }
    Ok(())
}

/// Each script of a table has its listing and ends within bounds as its row says: a script, its listing, its end, and how many instructions are run.
pub fn all_counted(
    rt: &impl Abort,
    compiler: &Compiler,
    bounds: Bounds,
    table: &[(&str, &str, &str, u64)],
) -> Result<(), AllocError> {
    for row in table {
        let good = listed_and_counted(compiler, bounds, *row)?;
        let script = row.0;
        assert!(rt; good, "{script}");
    }
    Ok(())
}
