//! How tables of expressions behind what they declare run.

use script_rows::{Compiler, USUAL, script_ends};
use std::alloc::AllocError;
use std::process::Abort;

/// Each cell of a line ends as it says behind what is declared: `EXPRESSION: END`.
fn cells_end(
    rt: &impl Abort,
    compiler: &Compiler,
    declared: &str,
    line: &str,
) -> Result<(), AllocError> {
    let alloc = compiler.alloc();
    for cell in line.split(',') {
        let (expression, wanted) = cell.rsplit_once(": ").unwrap_or((cell, ""));
        let script = format!(in alloc; "{declared} {expression}")?;
        let good = script_ends(compiler, script.as_str(), USUAL, wanted)?;
        assert!(rt; good, "{declared}{cell}");
    }
    Ok(())
}

/// Each cell of a block ends as it says behind the block's first line.
fn block_ends(rt: &impl Abort, compiler: &Compiler, block: &str) -> Result<(), AllocError> {
    let (declared, lines) = block.split_once('\n').unwrap_or((block, ""));
    for line in lines.lines() {
        cells_end(rt, compiler, declared, line)?;
    }
    Ok(())
}

/// Each cell of a table ends as it says behind the first line of its block. A `#` stands before each block.
pub fn all_cells_end(rt: &impl Abort, compiler: &Compiler, table: &str) -> Result<(), AllocError> {
    for block in table.split('#') {
        block_ends(rt, compiler, block)?;
    }
    Ok(())
}
