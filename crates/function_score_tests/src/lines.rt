//! Lines with their scores.

use super::fixed::Fixed;
use function_score::{BoostMode, Functions, ScoreErr, ScoreMode, score};
use serde_json::Value;
use std::alloc::Global;

/// What a line comes to: its score, or the number of the function that ends it.
#[derive(Clone, Copy)]
enum Wanted {
    Score(i64),
    Ended(usize),
}

/// A list of functions, what each filter and each script gives, how values are combined and the score with them, the score
/// before, what comes of it, and how many filters and scripts are evaluated.
type Row = (
    &'static str,
    [bool; 2],
    [i64; 2],
    ScoreMode,
    BoostMode,
    i64,
    Wanted,
    usize,
);

/// A filter with a script, and a weight.
const TWO: &str = "[{\"filter\":\"f\",\"script\":\"s\"},{\"weight\":5}]";

/// A script with a weight.
const WEIGHED: &str = "[{\"script\":\"s\",\"weight\":2}]";

/// A filter with a weight.
const FILTERED: &str = "[{\"filter\":\"f\",\"weight\":3}]";

/// A weight, and a script.
const LATER: &str = "[{\"weight\":1},{\"script\":\"s\"}]";

/// Two scripts.
const BOTH: &str = "[{\"script\":\"s\"},{\"script\":\"t\"}]";

const MOST: i64 = 9_223_372_036_854_775_807;

const ROWS: [Row; 22] = [
    (
        TWO,
        [true, false],
        [6, 0],
        ScoreMode::Multiply,
        BoostMode::Multiply,
        4,
        Wanted::Score(120),
        2,
    ),
    (
        TWO,
        [false, false],
        [6, 0],
        ScoreMode::Multiply,
        BoostMode::Multiply,
        4,
        Wanted::Score(20),
        1,
    ),
    (
        TWO,
        [true, false],
        [6, 0],
        ScoreMode::First,
        BoostMode::Replace,
        4,
        Wanted::Score(6),
        2,
    ),
    (
        TWO,
        [false, false],
        [6, 0],
        ScoreMode::First,
        BoostMode::Replace,
        4,
        Wanted::Score(5),
        1,
    ),
    (
        TWO,
        [true, false],
        [6, 0],
        ScoreMode::Sum,
        BoostMode::Sum,
        4,
        Wanted::Score(15),
        2,
    ),
    (
        TWO,
        [true, false],
        [6, 0],
        ScoreMode::Max,
        BoostMode::Max,
        4,
        Wanted::Score(6),
        2,
    ),
    (
        TWO,
        [true, false],
        [6, 0],
        ScoreMode::Min,
        BoostMode::Max,
        7,
        Wanted::Score(7),
        2,
    ),
    (
        TWO,
        [true, false],
        [6, 0],
        ScoreMode::Min,
        BoostMode::Min,
        7,
        Wanted::Score(5),
        2,
    ),
    (
        WEIGHED,
        [true, true],
        [MOST, 0],
        ScoreMode::Multiply,
        BoostMode::Multiply,
        1,
        Wanted::Score(MOST),
        1,
    ),
    (
        WEIGHED,
        [true, true],
        [MOST, 0],
        ScoreMode::Sum,
        BoostMode::Sum,
        1,
        Wanted::Score(MOST),
        1,
    ),
    (
        WEIGHED,
        [true, true],
        [0, 0],
        ScoreMode::Sum,
        BoostMode::Sum,
        3,
        Wanted::Score(3),
        1,
    ),
    (
        FILTERED,
        [false, false],
        [0, 0],
        ScoreMode::Multiply,
        BoostMode::Multiply,
        9,
        Wanted::Score(9),
        1,
    ),
    (
        FILTERED,
        [false, false],
        [0, 0],
        ScoreMode::Multiply,
        BoostMode::Replace,
        9,
        Wanted::Score(1),
        1,
    ),
    (
        FILTERED,
        [true, false],
        [0, 0],
        ScoreMode::Multiply,
        BoostMode::Replace,
        9,
        Wanted::Score(3),
        1,
    ),
    (
        LATER,
        [true, true],
        [0, -1],
        ScoreMode::Multiply,
        BoostMode::Multiply,
        1,
        Wanted::Ended(1),
        1,
    ),
    (
        LATER,
        [true, true],
        [0, -1],
        ScoreMode::First,
        BoostMode::Multiply,
        1,
        Wanted::Score(1),
        0,
    ),
    (
        BOTH,
        [true, true],
        [-1, -1],
        ScoreMode::Sum,
        BoostMode::Multiply,
        1,
        Wanted::Ended(0),
        1,
    ),
    (
        BOTH,
        [true, true],
        [MOST, MOST],
        ScoreMode::Sum,
        BoostMode::Multiply,
        2,
        Wanted::Score(MOST),
        2,
    ),
    (
        BOTH,
        [true, true],
        [4611686018427387904, 2],
        ScoreMode::Multiply,
        BoostMode::Replace,
        2,
        Wanted::Score(MOST),
        2,
    ),
    (
        BOTH,
        [true, true],
        [2147483648, 2147483648],
        ScoreMode::Multiply,
        BoostMode::Replace,
        2,
        Wanted::Score(4611686018427387904),
        2,
    ),
    (
        "[]",
        [true, true],
        [0, 0],
        ScoreMode::Min,
        BoostMode::Sum,
        8,
        Wanted::Score(9),
        0,
    ),
    (
        "[]",
        [true, true],
        [0, 0],
        ScoreMode::First,
        BoostMode::Replace,
        8,
        Wanted::Score(1),
        0,
    ),
];

/// Whether this is what was wanted.
fn is_wanted(answer: Result<i64, ScoreErr<i64>>, wanted: Wanted) -> bool {
    match (answer, wanted) {
        (Ok(score), Wanted::Score(other)) => score == other,
        (Err(ScoreErr::At(number, _)), Wanted::Ended(other)) => number == other,
        _ => false,
    }
}

/// Whether a row's line comes to what it says.
fn row_holds(alloc: Global, row: &Row) -> bool {
    let before = row.5;
    let Ok(value) = Value::from_str(alloc, row.0) else {
        return false;
    };
    let Ok(functions) = Functions::read(alloc, &value) else {
        return false;
    };
    let mut line = Fixed {
        functions: &functions,
        matches: &row.1,
        gives: &row.2,
        calls: 0,
    };
    if before < 0 {
        return false;
    }
    let answer = score(&functions, row.3, row.4, before, &mut line);
    is_wanted(answer, row.6) && line.calls == row.7
}

#[test]
fn lines_are_scored(rt: HostRuntime) {
    for (number, row) in ROWS.iter().enumerate() {
        assert!(rt; row_holds(rt.alloc(), row), "row {number}");
    }
}
