//! Conversations over lines, and what they are told where the input ends, is too long or fails.

use crate::talks::{Kinds, Numbers};
use line_run::run_lines;
use outer_io::{MemSource, SureSink, SureSource};
use std::test::Fail;

/// An input, its limit, the exit status, and what its lines are told by their numbers.
const NUMBERED: [(&str, u64, u8, &str); 5] = [
    ("", 9, 0, "0\n"),
    ("a\nb\n", 9, 0, "1\n2\n2\n"),
    ("a\n\nb", 9, 0, "1\n2\n3\n3\n"),
    // Nothing stands behind the last line of an input that is too long.
    ("a\nb\nc\n", 4, 6, "1\n2\n"),
    ("a\nb\nc\n", 6, 0, "1\n2\n3\n3\n"),
];

#[test]
fn numbers(rt: HostRuntime) -> Result<(), Fail> {
    let alloc = rt.alloc();
    let talker = Numbers { alloc };
    for row in &NUMBERED {
        let (text, limit, status, told) = *row;
        let mut input = SureSource::new(Vec::from_slice(alloc, text.as_bytes())?, 3);
        let mut out = SureSink::new(alloc, 2);
        let ran = run_lines(alloc, &talker, Vec::new(alloc), limit, &mut input, &mut out);
        assert!(rt; ran.status.exit_status() == status, "{text}");
        assert!(rt; out.bytes() == told.as_bytes(), "{text}");
    }
    Ok(())
}

#[test]
fn numbers_over_a_fault(rt: HostRuntime) -> Result<(), Fail> {
    let alloc = rt.alloc();
    let talker = Numbers { alloc };
    let mut input = MemSource::new(b"a\nb\nc\n".to_vec(alloc)?, 2, [3].to_vec(alloc)?);
    let mut out = SureSink::new(alloc, 2);
    let ran = run_lines(alloc, &talker, Vec::new(alloc), 9, &mut input, &mut out);
    assert!(rt; ran.status.exit_status() == 3);
    assert!(rt; out.bytes() == b"1\n2\n".as_slice());
    Ok(())
}

/// More bytes than a line may have.
const TOO_MANY: usize = 1_048_577;

#[test]
fn kinds(rt: HostRuntime) -> Result<(), Fail> {
    let alloc = rt.alloc();
    let talker = Kinds { alloc };
    let mut text = b"a\n".to_vec(alloc)?;
    let long = vec![in alloc; b'x'; TOO_MANY]?;
    for _ in 0..2 {
        text.extend_from_slice(long.as_slice())?;
        text.extend_from_slice(b"\nb\n")?;
    }
    let mut input = SureSource::new(text, 65_536);
    let mut out = SureSink::new(alloc, 9);
    let ran = run_lines(
        alloc,
        &talker,
        Vec::new(alloc),
        9_000_000,
        &mut input,
        &mut out,
    );
    assert!(rt; ran.status.exit_status() == 0);
    assert!(rt; out.bytes() == b"0\n0\n1\n1\n2\n".as_slice());
    Ok(())
}
