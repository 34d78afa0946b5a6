//! Prints what verifying listings takes that are made to take time, in milliseconds, at some 250 KB and 1 MB: `rt run -- times`. With no
//! argument it does nothing.
#![tactic(auto)]

use allowlist::{Allow, Catalogue};
use pl_code::read_listing;
use std::alloc::{AllocError, Global};
use std::rt::Clock;
use std::time::Instant;
use std::{env, io};
use verifier::verify;

// A row of function values of a function with so many parameters.
fn lambdas(alloc: Global, lines: u32, params: u32) -> Result<String, AllocError> {
    let mut text = String::from_str(alloc, "painless 1\nfun 0 loop V - -\n")?;
    for _ in 0..lines {
        text.push_str("lambda - 1 0\npop\n")?;
    }
    text.push_str("ret\nend\nfun 1 loop R ")?;
    for _ in 0..params {
        text.push_str("R")?;
    }
    text.push_str(" -\nnull\nret\nend\n")?;
    Ok(text)
}

// So many operands, and lines that each take them off: a branch leads to each from the same stack.
fn takers(
    alloc: Global,
    operand: &str,
    operands: u32,
    depth: u32,
    takers: u32,
    line: &str,
) -> Result<String, AllocError> {
    let mut text = String::from_str(alloc, "painless 1\nfun 0 loop V - -\n")?;
    for _ in 0..operands {
        text.push_str(operand)?;
    }
    let first = u64::from(depth) + 2 * u64::from(takers) + 1;
    for at in 0..takers {
        let target = first + 2 * u64::from(at);
        let branch = format!(in alloc; "null\nifnull {target}\n")?;
        text.push_str(branch.as_str())?;
    }
    text.push_str("ret\n")?;
    for _ in 0..takers {
        text.push_str(line)?;
        text.push_str("ret\n")?;
    }
    text.push_str("end\n")?;
    Ok(text)
}

// Calls of a function whose parameters are an int and a long in turn.
fn calls(alloc: Global, pairs: u32, callers: u32) -> Result<String, AllocError> {
    let depth = pairs.saturating_mul(2);
    let mut text = takers(alloc, "i 1\nj 1\n", pairs, depth, callers, "call 1\n")?;
    text.push_str("fun 1 loop V ")?;
    for _ in 0..pairs {
        text.push_str("IJ")?;
    }
    text.push_str(" -\nret\nend\n")?;
    Ok(text)
}

fn measure(
    rt: &(impl Clock + Print),
    alloc: Global,
    allow: &Allow,
    what: &str,
    text: &str,
) -> io::Result<()> {
    let size = text.len();
    let Ok(code) = read_listing(alloc, text.as_bytes()) else {
        return println!(rt; "{what}: no listing");
    };
    let start = Instant::now(rt)?;
    let good = verify(alloc, allow, code).is_ok();
    let spent = start.elapsed(rt)?.as_millis();
    println!(rt; "{what}: {size} bytes, {spent} ms (verified: {good})")
}

// Each shape at a size: 4 quarters are some 1 MB.
fn shapes(
    rt: &(impl Clock + Print),
    alloc: Global,
    allow: &Allow,
    quarters: u32,
) -> io::Result<()> {
    let size = quarters.saturating_mul(5_000);
    if let Ok(text) = lambdas(alloc, size.saturating_mul(2), size.saturating_mul(30)) {
        measure(rt, alloc, allow, "function values", text.as_str())?;
    }
    let operands = size.saturating_mul(3);
    if let Ok(line) = format!(in alloc; "list {operands}\n") {
        if let Ok(text) = takers(alloc, "null\n", operands, operands, size, line.as_str()) {
            measure(rt, alloc, allow, "list literals", text.as_str())?;
        }
    }
    if let Ok(text) = calls(alloc, size.saturating_mul(2), size) {
        measure(rt, alloc, allow, "calls", text.as_str())?;
    }
    Ok(())
}

fn main(rt: HostRuntime) -> io::Result<()> {
    let mut args = env::args(&rt)?;
    if args.nth(1).is_none() {
        return Ok(());
    }
    match Catalogue::full(rt.alloc()) {
        Ok(allow) => {
            shapes(&rt, rt.alloc(), &allow, 1)?;
            shapes(&rt, rt.alloc(), &allow, 4)
        }
        Err(_) => println!(rt; "no memory"),
    }
}
