//! How tables of operators and casts of `def` values run.

use script_rows::{Compiler, USUAL, script_ends};
use std::alloc::{AllocError, Global};
use std::process::Abort;

/// What makes a value of each kind, and its class.
const KINDS: [(&str, &str); 9] = [
    ("true", "Boolean"),
    ("(byte)-7", "Byte"),
    ("(short)300", "Short"),
    ("(char)65", "Character"),
    ("2147483647", "Integer"),
    ("5000000000L", "Long"),
    ("'a'", "String"),
    ("[1]", "ArrayList"),
    ("null", ""),
];

/// How a cast of a value of a class ends: `n` is null where a value is wanted, `c` a value that does not go there.
fn cast_text(alloc: Global, class: &str, to: &str, cell: &str) -> Result<String, AllocError> {
    match cell {
        "c" => format!(in alloc; "thrown ClassCastException Cannot cast from [{class}] to [{to}]"),
        "n" => String::from_str(alloc, "thrown NullPointerException"),
        _ => String::from_str(alloc, cell),
    }
}

/// How an operator between values of two classes ends: `n` is an operand that is null, `c` one of a kind that the operator does not
/// take; `l` and `r` are a left and a right side that are no truth values.
fn pair_text(
    alloc: Global,
    operator: &str,
    left: &str,
    right: &str,
    cell: &str,
) -> Result<String, AllocError> {
    match cell {
        "c" => {
            format!(in alloc;
                "thrown ClassCastException Cannot apply [{operator}] to [{left}] and [{right}]"
            )
        }
        "l" => cast_text(alloc, left, "boolean", "c"),
        "r" => cast_text(alloc, right, "boolean", "c"),
        _ => cast_text(alloc, "", "", cell),
    }
}

/// An operator between a value and each of the kinds ends as the cells of a row say.
fn pairs_end(
    rt: &impl Abort,
    compiler: &Compiler,
    operator: &str,
    left: (&str, &str),
    row: &str,
) -> Result<(), AllocError> {
    let alloc = compiler.alloc();
    let (value, class) = left;
    for (cell, (other, other_class)) in row.split(',').zip(KINDS) {
        let wanted = pair_text(alloc, operator, class, other_class, cell)?;
        let script = format!(in alloc; "def x = {value}; def y = {other}; x {operator} y")?;
        let good = script_ends(compiler, script.as_str(), USUAL, wanted.as_str())?;
        assert!(rt; good, "{value} {operator} {other}: {cell}");
    }
    Ok(())
}

fn operator_ends(rt: &impl Abort, compiler: &Compiler, block: &str) -> Result<(), AllocError> {
    let (operator, rows) = block.split_once('\n').unwrap_or((block, ""));
    for (row, left) in rows.lines().zip(KINDS) {
        pairs_end(rt, compiler, operator, left, row)?;
    }
    Ok(())
}

/// Each operator between two values ends as its cell says. A `#` stands before each block but the first.
pub fn all_pairs_end(rt: &impl Abort, compiler: &Compiler, table: &str) -> Result<(), AllocError> {
    for block in table.split('#') {
        operator_ends(rt, compiler, block)?;
    }
    Ok(())
}

/// A value goes to a type as a line says, by a cast that is not written and by one that is.
fn goes(
    rt: &impl Abort,
    compiler: &Compiler,
    value: &str,
    class: &str,
    line: &str,
) -> Result<(), AllocError> {
    let alloc = compiler.alloc();
    let (to, cells) = line.split_once(": ").unwrap_or((line, ""));
    let (plain, written) = cells.split_once(", ").unwrap_or((cells, cells));
    let wanted = cast_text(alloc, class, to, plain)?;
    let script = format!(in alloc; "def x = {value}; {to} y = x; y")?;
    let good = script_ends(compiler, script.as_str(), USUAL, wanted.as_str())?;
    assert!(rt; good, "{value} to {line}");
    let wanted = cast_text(alloc, class, to, written)?;
    let script = format!(in alloc; "def x = {value}; ({to})x")?;
    let good = script_ends(compiler, script.as_str(), USUAL, wanted.as_str())?;
    assert!(rt; good, "({to}){value}: {line}");
    Ok(())
}

fn value_goes(rt: &impl Abort, compiler: &Compiler, block: &str) -> Result<(), AllocError> {
    let (head, lines) = block.split_once('\n').unwrap_or((block, ""));
    let (value, class) = head.split_once("; ").unwrap_or((head, ""));
    for line in lines.lines() {
        goes(rt, compiler, value, class, line)?;
    }
    Ok(())
}

/// Each value of a table goes to each type as its line says. A `#` stands before each block but the first.
pub fn all_casts_end(rt: &impl Abort, compiler: &Compiler, table: &str) -> Result<(), AllocError> {
    for block in table.split('#') {
        value_goes(rt, compiler, block)?;
    }
    Ok(())
}
