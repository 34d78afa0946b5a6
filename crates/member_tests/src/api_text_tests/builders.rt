//! Rows of the members of StringBuilder.
use super::rows::Arg::{Char, Int, Null, Object, Word};
use super::rows::{Row, Wanted};
use super::running::first_wrong;
use std::test::Fail;

const BUILDERS: [Row; 31] = [
    (79, &[], Wanted::NewBuilder(&[]), 1),
    (80, &[Word("hi")], Wanted::NewBuilder(&[104, 105]), 3),
    (80, &[Object(0)], Wanted::NewBuilder(&[97, 98, 99]), 4),
    (80, &[Null], Wanted::NullPointer, 1),
    (
        81,
        &[Object(0), Word("d")],
        Wanted::Builder(&[97, 98, 99, 100]),
        1,
    ),
    (
        81,
        &[Object(0), Word("")],
        Wanted::Builder(&[97, 98, 99]),
        0,
    ),
    (
        81,
        &[Object(0), Char(0xD83D)],
        Wanted::Builder(&[97, 98, 99, 0xD83D]),
        1,
    ),
    (
        81,
        &[Object(0), Null],
        Wanted::Builder(&[97, 98, 99, 110, 117, 108, 108]),
        4,
    ),
    (
        81,
        &[Object(0), Int(-1)],
        Wanted::Builder(&[97, 98, 99, 45, 49]),
        2,
    ),
    (
        81,
        &[Object(0), Object(0)],
        Wanted::Builder(&[97, 98, 99, 97, 98, 99]),
        3,
    ),
    (
        81,
        &[Object(0), Object(10)],
        Wanted::State("value nested too deeply"),
        24,
    ),
    (82, &[Object(0), Int(0)], Wanted::Builder(&[98, 99]), 0),
    (82, &[Object(0), Int(2)], Wanted::Builder(&[97, 98]), 0),
    (
        82,
        &[Object(0), Int(3)],
        Wanted::Index("Index 3 out of bounds for length 3"),
        35,
    ),
    (
        82,
        &[Object(0), Int(-1)],
        Wanted::Index("Index -1 out of bounds for length 3"),
        36,
    ),
    (83, &[Object(0), Word("bc")], Wanted::Int(1), 0),
    (83, &[Object(0), Word("")], Wanted::Int(0), 0),
    (83, &[Object(0), Word("x")], Wanted::Int(-1), 0),
    (83, &[Object(0), Null], Wanted::NullPointer, 1),
    (
        84,
        &[Object(0), Int(1), Word("x")],
        Wanted::Builder(&[97, 120, 98, 99]),
        1,
    ),
    (
        84,
        &[Object(0), Int(0), Int(7)],
        Wanted::Builder(&[55, 97, 98, 99]),
        1,
    ),
    (
        84,
        &[Object(0), Int(3), Word("x")],
        Wanted::Builder(&[97, 98, 99, 120]),
        1,
    ),
    (
        84,
        &[Object(0), Int(4), Word("x")],
        Wanted::Index("Index 4 out of bounds for length 3"),
        35,
    ),
    (
        84,
        &[Object(0), Int(-1), Null],
        Wanted::Index("Index -1 out of bounds for length 3"),
        36,
    ),
    (
        84,
        &[Object(0), Int(-1), Object(10)],
        Wanted::State("value nested too deeply"),
        24,
    ),
    (85, &[Object(0), Int(1)], Wanted::Set(&[97]), 0),
    (85, &[Object(0), Int(0)], Wanted::Set(&[]), 0),
    (85, &[Object(0), Int(3)], Wanted::Set(&[97, 98, 99]), 0),
    (
        85,
        &[Object(0), Int(5)],
        Wanted::Set(&[97, 98, 99, 0, 0]),
        2,
    ),
    (
        85,
        &[Object(0), Int(-1)],
        Wanted::Index("Index -1 out of bounds for length 3"),
        36,
    ),
    (
        84,
        &[Object(0), Int(1), Object(0)],
        Wanted::Builder(&[97, 97, 98, 99, 98, 99]),
        3,
    ),
];

#[test]
fn builders(rt: HostRuntime) -> Result<(), Fail> {
    let wrong = first_wrong(rt.alloc(), &BUILDERS)?;
    assert!(rt; wrong == 0, "row {wrong}");
    Ok(())
}
