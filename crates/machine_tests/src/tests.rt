//! The listings of the rows, run turn by turn; and what a run keeps of the heap that it begins with.

use crate::rows::{ROWS, Row};
use allowlist::{Allow, Catalogue};
use code_meaning::Word;
use machine::{Activation, Executable, Limits, LinkedText, RunEnd, RunOutcome};
use object_heap::{Heap, Which};
use object_values::{Elements, Seed, Value};
use pl_code::{Code, read_listing};
use std::alloc::{AllocError, Global};
use std::rc::Rc;
use std::test::Fail;
use task_core::Turn;

// How many words each frame may have.
const FRAME: usize = 16;

fn limit_text(which: Which) -> &'static str {
    match which {
        Which::Loop => "loop",
        Which::Depth => "depth",
        Which::Ticks => "ticks",
        Which::Room => "room",
    }
}

fn value_text(alloc: Global, value: &Value) -> Result<String, AllocError> {
    match value {
        Value::Byte(number) => format!(in alloc; "byte {number}"),
        Value::Char(unit) => format!(in alloc; "char {unit}"),
        Value::Int(number) => format!(in alloc; "int {number}"),
        Value::Long(number) => format!(in alloc; "long {number}"),
        Value::Str(text) => {
            let text = text.to_utf8()?;
            format!(in alloc; "text {text}")
        }
        _ => String::from_str(alloc, "another value"),
    }
}

fn word_text(alloc: Global, word: &Word) -> Result<String, AllocError> {
    match word {
        Word::I(number) => format!(in alloc; "i {number}"),
        Word::J(number) => format!(in alloc; "j {number}"),
        Word::R(value) => value_text(alloc, value),
    }
}

fn end_text(alloc: Global, end: &RunEnd) -> Result<String, AllocError> {
    match end {
        RunEnd::Result(Some(word)) => word_text(alloc, word),
        RunEnd::Result(None) => String::from_str(alloc, "nothing"),
        RunEnd::Thrown { .. } => String::from_str(alloc, "thrown"),
        RunEnd::Limit { limit, .. } => String::from_str(alloc, limit_text(*limit)),
        RunEnd::Stuck => String::from_str(alloc, "stuck"),
    }
}

fn left_text(alloc: Global, outcome: Option<RunOutcome>) -> Result<String, AllocError> {
    match &outcome {
        Some(outcome) => {
            let end = end_text(alloc, &outcome.end)?;
            let steps = outcome.steps;
            let ticks = outcome.ticks;
            format!(in alloc; "{end}; steps {steps}; ticks {ticks}")
        }
        None => String::from_str(alloc, "goes on"),
    }
}

/// A prelude whose one function does nothing.
pub const PRELUDE: &[u8] = b"painless 1\nfun 0 free V - -\nret\nend\n";

/// Code of a script beside that prelude, ready to run.
fn ready(alloc: Global, code: Code, allow: &Allow) -> Result<Executable, AllocError> {
    let Ok(beside) = read_listing(alloc, PRELUDE) else {
        return Err(AllocError);
    };
    let text = LinkedText::new(alloc, beside, allow.share(alloc)?)?;
    let prelude = Rc::new(alloc, text)?;
    Executable::new(alloc, code, allow.share(alloc)?, prelude, FRAME)
}

/// Runs code in turns of `q` instructions, and tells what it leaves.
fn run_in_turns(
    alloc: Global,
    executable: &Executable,
    row: &Row,
    q: u64,
) -> Result<String, AllocError> {
    let limits = Limits {
        loops: row.loops,
        depth: row.depth,
        ticks: row.ticks,
    };
    let heap = Heap::new(alloc, row.room, Seed::of(b"test"));
    let mut activation = Activation::start(executable, heap, Elements::new(alloc), limits)?;
    for _ in 0..10_000 {
        if activation.turn(q) != Turn::More {
            break;
        }
    }
    left_text(alloc, activation.outcome())
}

fn leaves(alloc: Global, allow: &Allow, row: &Row, q: u64) -> Result<bool, AllocError> {
    match read_listing(alloc, row.listing.as_bytes()) {
        Ok(code) => {
            let executable = ready(alloc, code, allow)?;
            let left = run_in_turns(alloc, &executable, row, q)?;
            Ok(left.as_str() == row.left)
        }
        Err(_) => Ok(false),
    }
}

fn all_leave(alloc: Global, q: u64) -> Result<bool, AllocError> {
    let allow = Catalogue::full(alloc)?;
    for row in ROWS.iter() {
        if !leaves(alloc, &allow, row, q)? {
            return Ok(false);
        }
    }
    Ok(true)
}

#[test]
fn runs_in_turns_of_one(rt: HostRuntime) -> Result<(), Fail> {
    let all = all_leave(rt.alloc(), 1)?;
    assert!(rt; all);
    Ok(())
}

#[test]
fn runs_in_turns_of_seven(rt: HostRuntime) -> Result<(), Fail> {
    let all = all_leave(rt.alloc(), 7)?;
    assert!(rt; all);
    Ok(())
}

#[test]
fn runs_at_once(rt: HostRuntime) -> Result<(), Fail> {
    let all = all_leave(rt.alloc(), 1_000_000)?;
    assert!(rt; all);
    Ok(())
}

// The length of a text in a list, and the same under a list that lacks it.
const LENGTH: Row = Row {
    listing: "painless 1\nfun 0 loop I - -\ntext \"abc\"\ninvoke java.lang.CharSequence.length/0\nret\nend\n",
    loops: 100,
    depth: 100,
    ticks: 100,
    room: 100,
    left: "i 3; steps 3; ticks 1",
};

const NO_LENGTH: Row = Row {
    left: "stuck; steps 2; ticks 0",
    ..LENGTH
};

const WITH_LENGTH: &[u8] = b"class java.lang.CharSequence {\n int length()\n}\n";

const WITHOUT_LENGTH: &[u8] = b"class java.lang.CharSequence {\n char charAt(int)\n}\n";

#[test]
fn members_of_the_list_alone_are_called(rt: HostRuntime) -> Result<(), Fail> {
    let Ok(with) = Allow::read(rt.alloc(), WITH_LENGTH) else {
        return Err("no list")?;
    };
    let Ok(without) = Allow::read(rt.alloc(), WITHOUT_LENGTH) else {
        return Err("no list")?;
    };
    let called = leaves(rt.alloc(), &with, &LENGTH, 1)?;
    let stuck = leaves(rt.alloc(), &without, &NO_LENGTH, 1)?;
    assert!(rt; called && stuck);
    Ok(())
}

// charAt, length and charAt once more
const REACHES: &[u8] =
    b"painless 1\nfun 0 loop I - -\ntext \"abc\"\ni 1\ninvoke java.lang.CharSequence.charAt/1\ntext \"abc\"\ninvoke java.lang.CharSequence.length/0\ntext \"abc\"\ni 1\ninvoke java.lang.CharSequence.charAt/1\nadd.i\nadd.i\nret\nend\n";

#[test]
fn members_are_reached_once(rt: HostRuntime) -> Result<(), Fail> {
    let alloc = rt.alloc();
    let allow = Catalogue::full(alloc)?;
    let Ok(code) = read_listing(alloc, REACHES) else {
        return Err("no code")?;
    };
    let limits = Limits {
        loops: 0,
        depth: 0,
        ticks: 100,
    };
    let heap = Heap::new(alloc, 100, Seed::of(b"test"));
    let executable = ready(alloc, code, &allow)?;
    let mut activation = Activation::start(&executable, heap, Elements::new(alloc), limits)?;
    activation.turn(100);
    let reached = match &activation.outcome() {
        Some(outcome) => outcome.reached.as_slice() == [3, 4].as_slice(),
        None => false,
    };
    assert!(rt; reached);
    Ok(())
}

// A builder of three characters stays in a local. Each of 20,000 turns adds its length and 1, by a call: nothing is made in the loop.
const STEADY: Row = Row {
    listing: "painless 1\nfun 0 loop I - RII\nnew java.lang.StringBuilder/0\ntext \"abc\"\ninvoke java.lang.StringBuilder.append/1\nstore 0\ni 0\nstore 1\ni 0\nstore 2\ngoto 19\nload 1\nload 0\ninvoke java.lang.CharSequence.length/0\nadd.i\ncall 1\nstore 1\nload 2\ni 1\nadd.i\nstore 2\nload 2\ni 20000\nlt.i\nloop 9\nload 1\nret\nend\nfun 1 loop I I -\nload 0\ni 1\nadd.i\nret\nend\n",
    loops: 20_000,
    depth: 1,
    ticks: 70_000,
    room: 1000,
    left: "i 80000; steps 360015; ticks 60002",
};

// It passes under `rt try --test --fail-alloc 20000` too: there are fewer allocations than turns.
#[test]
fn a_loop_that_makes_nothing_ends(rt: HostRuntime) -> Result<(), Fail> {
    let allow = Catalogue::full(rt.alloc())?;
    let ends = leaves(rt.alloc(), &allow, &STEADY, 1000)?;
    assert!(rt; ends);
    Ok(())
}

// Each of 1,000 turns throws. 2,000 traps are over the line and catch another class, 2,000 are over other lines; then comes the one that
// catches, and behind it one of any class.
const OTHER_CLASS: &str = "trap 3 6 17 java.lang.NullPointerException\n";

const OTHER_LINES: &str = "trap 13 16 17 java.lang.Exception\n";

const THROWS: &str =
    "trap 3 6 8 java.lang.ArithmeticException\ntrap 0 19 17 java.lang.Exception\ni 0\nstore 0\ngoto 13\ni 1\ni 0\ndiv.i\npop\ngoto 9\npop\nload 0\ni 1\nadd.i\nstore 0\nload 0\ni 1000\nlt.i\nloop 3\nload 0\nret\nend\n";

const CAUGHT: Row = Row {
    listing: "",
    loops: 1000,
    depth: 0,
    ticks: 1000,
    room: 1_000_000,
    left: "i 1000; steps 12009; ticks 1000",
};

#[test]
fn the_first_trap_that_fits_catches(rt: HostRuntime) -> Result<(), Fail> {
    let alloc = rt.alloc();
    let classes = OTHER_CLASS.repeat(alloc, 2000)?;
    let lines = OTHER_LINES.repeat(alloc, 2000)?;
    let classes = classes.as_str();
    let lines = lines.as_str();
    let listing = format!(in alloc; "painless 1\nfun 0 loop I - I\n{classes}{lines}{THROWS}")?;
    let Ok(code) = read_listing(alloc, listing.as_str().as_bytes()) else {
        return Err("no code")?;
    };
    let executable = ready(alloc, code, &Catalogue::full(alloc)?)?;
    let left = run_in_turns(alloc, &executable, &CAUGHT, 1000)?;
    assert!(rt; left.as_str() == CAUGHT.left);
    Ok(())
}

// int f(int n) with 15 locals more, 80,000 frames deep: more words than are taken at the start. The limit of depth is the greatest: memory
// for as many frames is not there.
const DEEP: Row = Row {
    listing: "painless 1\nfun 0 loop R - -\ni 80000\ncall 1\nbox int\nret\nend\nfun 1 loop I I IIIIIIIIIIIIIII\nload 0\ni 0\neq.i\nifz 6\ni 0\nret\nload 0\ni 1\nsub.i\ncall 1\ni 1\nadd.i\nret\nend\n",
    loops: 0,
    depth: 4_294_967_295,
    ticks: 100_000,
    room: 1000,
    left: "int 80000; steps 880010; ticks 80001",
};

#[test]
fn frames_are_taken_as_they_come(rt: HostRuntime) -> Result<(), Fail> {
    let allow = Catalogue::full(rt.alloc())?;
    let ends = leaves(rt.alloc(), &allow, &DEEP, 1000)?;
    assert!(rt; ends);
    Ok(())
}
