//! Listings from outside, verified and run.

ghost use Rattle.std.specs.Prelude.{◌<◌};

use crate::tests::PRELUDE;
use allowlist::{Allow, Catalogue};
use code_meaning::Word;
use machine::{Limits, RunEnd, RunOutcome};
use object_heap::{Heap, Which};
use object_values::{Elements, Object, Seed, Value};
use pl_code::read_listing;
use pl_types::classes::{CLASS_CAST_EXCEPTION, NULL_POINTER_EXCEPTION};
use std::alloc::{AllocError, Global};
use std::test::Fail;
use task_core::run_order;
use verified_machine::{VerifiedActivation, VerifiedExecutable, VerifiedText};
use verifier::{Verified, verify};
use verifier_soundness::{fit_main, have_rows};

/// `int s = 0; for (int i = 0; i < 5; i++) { s += i } s`
const SUM: &str =
    "painless 1\nfun 0 loop R - II\ni 0\nstore 0\ni 0\nstore 1\ngoto 13\nload 0\nload 1\nadd.i\nstore 0\nload 1\ni 1\nadd.i\nstore 1\nload 1\ni 5\nlt.i\nloop 5\nload 0\nbox int\nret\nend\n";

/// `int f(int n) { return n == 0 ? 0 : f(n-1) + 1 } f(9)`
const CALLS: &str =
    "painless 1\nfun 0 loop R - -\ni 9\ncall 1\nbox int\nret\nend\nfun 1 loop I I -\nload 0\ni 0\neq.i\nifz 6\ni 0\nret\nload 0\ni 1\nsub.i\ncall 1\ni 1\nadd.i\nret\nend\n";

/// A method as a value, for which no row is built yet.
const METHOD: &str = "painless 1\nfun 0 loop R - -\nref - java.lang.String length\nret\nend\n";

/// A loop of a function without a limit of turns, and of one with it.
const HEADERS: [(&str, Which); 2] = [
    (
        "painless 1\nfun 0 free R - -\ni 1\nloop 0\nnull\nret\nend\n",
        Which::Ticks,
    ),
    (
        "painless 1\nfun 0 loop R - -\ni 1\nloop 0\nnull\nret\nend\n",
        Which::Loop,
    ),
];

/// Calls of members with receivers and arguments of other classes, of null, and of the classes that are asked for, and which class
/// of exception ends the run where no tick may be paid: where there is none, the call comes to its tick.
const CALLED: [(&str, Option<u32>); 13] = [
    (
        "painless 1\nfun 0 loop R - -\ntext \"a\"\ninvoke java.lang.Exception.getMessage/0\nret\nend\n",
        Some(CLASS_CAST_EXCEPTION),
    ),
    (
        "painless 1\nfun 0 loop R - -\nnull\ninvoke java.lang.Exception.getMessage/0\nret\nend\n",
        Some(NULL_POINTER_EXCEPTION),
    ),
    (
        "painless 1\nfun 0 loop R - -\ni 1\nbox int\ninvoke java.lang.CharSequence.length/0\nbox int\nret\nend\n",
        Some(CLASS_CAST_EXCEPTION),
    ),
    (
        "painless 1\nfun 0 loop R - -\nnull\ninvoke java.lang.CharSequence.length/0\nbox int\nret\nend\n",
        Some(NULL_POINTER_EXCEPTION),
    ),
    (
        "painless 1\nfun 0 loop R - -\ntext \"a\"\ninvoke java.lang.CharSequence.length/0\nbox int\nret\nend\n",
        None,
    ),
    (
        "painless 1\nfun 0 loop R - -\ntext \"a\"\ni 1\nbox int\ninvoke java.lang.String.concat/1\nret\nend\n",
        Some(CLASS_CAST_EXCEPTION),
    ),
    (
        "painless 1\nfun 0 loop R - -\ntext \"a\"\nnull\ninvoke java.lang.String.concat/1\nret\nend\n",
        None,
    ),
    (
        "painless 1\nfun 0 loop R - -\ni 1\nbox int\ntext \"a\"\ninvoke java.lang.String.concat/1\nret\nend\n",
        Some(CLASS_CAST_EXCEPTION),
    ),
    (
        "painless 1\nfun 0 loop R - -\ni 1\nbox int\nnew java.lang.Exception/1\nret\nend\n",
        Some(CLASS_CAST_EXCEPTION),
    ),
    (
        "painless 1\nfun 0 loop R - -\nnull\nnew java.lang.Exception/1\nret\nend\n",
        None,
    ),
    // whether a list has more, the length of a map, and an int out of an array of longs
    (
        "painless 1\nfun 0 loop I - -\nlist 0\nhas\nret\nend\n",
        Some(CLASS_CAST_EXCEPTION),
    ),
    (
        "painless 1\nfun 0 loop I - -\nmap 0\nalen\nret\nend\n",
        Some(CLASS_CAST_EXCEPTION),
    ),
    (
        "painless 1\nfun 0 loop I - -\ni 1\nnewarray long[] 1\ni 0\naload int\nret\nend\n",
        Some(CLASS_CAST_EXCEPTION),
    ),
];

const LIMITS: Limits = Limits {
    loops: 5,
    depth: 100,
    ticks: 100,
};

/// The prelude, verified and made ready.
fn prelude(alloc: Global, allow: &Allow) -> Result<Option<VerifiedText>, AllocError> {
    let Ok(code) = read_listing(alloc, PRELUDE) else {
        return Ok(None);
    };
    match verify(alloc, allow, code) {
        Ok(verified) => {
            if have_rows(verified.allow(), verified.code()) {
                Ok(Some(VerifiedText::new(alloc, verified)?))
            } else {
                Ok(None)
            }
        }
        Err(_) => Ok(None),
    }
}

fn beside(
    alloc: Global,
    allow: &Allow,
    verified: Verified,
) -> Result<Option<VerifiedExecutable>, AllocError> {
    match prelude(alloc, allow)? {
        Some(text) => Ok(Some(VerifiedExecutable::new(alloc, verified, &text)?)),
        None => Ok(None),
    }
}

/// The code of a listing, verified, beside that prelude.
fn verified(
    alloc: Global,
    allow: &Allow,
    text: &str,
) -> Result<Option<VerifiedExecutable>, AllocError> {
    match read_listing(alloc, text.as_bytes()) {
        Ok(code) => match verify(alloc, allow, code) {
            Ok(verified) => beside(alloc, allow, verified),
            Err(_) => Ok(None),
        },
        Err(_) => Ok(None),
    }
}

/// A run without arguments, where the code takes none and has rows.
fn started<'c>(
    alloc: Global,
    code: &'c VerifiedExecutable,
    limits: Limits,
) -> Result<Option<VerifiedActivation<'c>>, AllocError> {
    let arguments = Elements::new(alloc);
    if !have_rows(code.allow(), code.code()) {
        return Ok(None);
    }
    if !fit_main(code.code(), arguments.as_slice()) {
        return Ok(None);
    }
    let heap = Heap::new(alloc, 1000, Seed::of(b"test"));
    match VerifiedActivation::start(code, heap, arguments, limits) {
        Ok(activation) => Ok(Some(activation)),
        Err(error) => Err(error),
    }
}

fn is_int(end: &RunEnd, wanted: i32) -> bool {
    match end {
        RunEnd::Result(Some(Word::R(Value::Int(number)))) => *number == wanted,
        _ => false,
    }
}

fn leaves(activation: VerifiedActivation<'_>, number: i32, steps: u64, ticks: u64) -> bool {
    match activation.outcome() {
        Some(outcome) => leaves_so(&outcome, number, steps, ticks),
        None => false,
    }
}

fn left(activation: Option<VerifiedActivation<'_>>, number: i32, steps: u64, ticks: u64) -> bool {
    match activation {
        Some(activation) => leaves(activation, number, steps, ticks),
        None => false,
    }
}

fn leaves_so(outcome: &RunOutcome, number: i32, steps: u64, ticks: u64) -> bool {
    is_int(&outcome.end, number) && outcome.steps == steps && outcome.ticks == ticks
}

/// Two runs take turns of `q` instructions: first the second, then twice the first, and then both until they end.
fn take_turns(
    first: &VerifiedExecutable,
    second: &VerifiedExecutable,
    alloc: Global,
    q: u64,
) -> Result<bool, AllocError>
    requires { 0 < q }
{
    match (
        started(alloc, first, LIMITS)?,
        started(alloc, second, LIMITS)?,
    ) {
        (Some(sum), Some(calls)) => {
            let mut tasks = Vec::new(alloc);
            tasks.push(sum)?;
            tasks.push(calls)?;
            run_order(&mut tasks, &[1, 0, 0], q)?;
            Ok(left(tasks.pop(), 9, 109, 10) && left(tasks.pop(), 10, 72, 5))
        }
        _ => Ok(false),
    }
}

fn both_end(alloc: Global, q: u64) -> Result<bool, AllocError>
    requires { 0 < q }
{
    let allow = Catalogue::full(alloc)?;
    match (
        verified(alloc, &allow, SUM)?,
        verified(alloc, &allow, CALLS)?,
    ) {
        (Some(sum), Some(calls)) => take_turns(&sum, &calls, alloc, q),
        _ => Ok(false),
    }
}

#[test]
fn turns_of_one_instruction(rt: HostRuntime) -> Result<(), Fail> {
    let end = both_end(rt.alloc(), 1)?;
    assert!(rt; end);
    Ok(())
}

#[test]
fn turns_of_seven_instructions(rt: HostRuntime) -> Result<(), Fail> {
    let end = both_end(rt.alloc(), 7)?;
    assert!(rt; end);
    Ok(())
}

#[test]
fn one_turn(rt: HostRuntime) -> Result<(), Fail> {
    let end = both_end(rt.alloc(), 1_000)?;
    assert!(rt; end);
    Ok(())
}

#[test]
fn to_the_end(rt: HostRuntime) -> Result<(), Fail> {
    let allow = Catalogue::full(rt.alloc())?;
    let Some(code) = verified(rt.alloc(), &allow, SUM)? else {
        return Err("not verified")?;
    };
    let Some(activation) = started(rt.alloc(), &code, LIMITS)? else {
        return Err("not started")?;
    };
    let outcome = activation.finish()?;
    assert!(rt; leaves_so(&outcome, 10, 72, 5));
    Ok(())
}

/// Code without rows does not start.
#[test]
fn a_row_is_wanting(rt: HostRuntime) -> Result<(), Fail> {
    let allow = Catalogue::full(rt.alloc())?;
    let refused = match verified(rt.alloc(), &allow, METHOD)? {
        Some(code) => !have_rows(code.allow(), code.code()),
        None => false,
    };
    assert!(rt; refused);
    Ok(())
}

fn is_limit(end: &RunEnd, wanted: Which) -> bool {
    match end {
        RunEnd::Limit { limit, .. } => *limit == wanted,
        _ => false,
    }
}

fn ends_at(activation: VerifiedActivation<'_>, wanted: Which) -> bool {
    match activation.outcome() {
        Some(outcome) => is_limit(&outcome.end, wanted),
        None => false,
    }
}

fn passes(alloc: Global, listing: &str, wanted: Which) -> Result<bool, AllocError> {
    let allow = Catalogue::full(alloc)?;
    match verified(alloc, &allow, listing)? {
        Some(code) => match started(alloc, &code, LIMITS)? {
            Some(mut activation) => {
                activation.advance(1_000);
                Ok(ends_at(activation, wanted))
            }
            None => Ok(false),
        },
        None => Ok(false),
    }
}

/// Where the header says so there is no limit of turns, and a loop ends for want of ticks.
#[test]
fn limits_of_turns(rt: HostRuntime) -> Result<(), Fail> {
    for (listing, wanted) in HEADERS.iter() {
        let ends = passes(rt.alloc(), listing, *wanted)?;
        assert!(rt; ends);
    }
    Ok(())
}

/// Whether a run has paid no tick and called no member, and has ended with an exception of a class without a message, or, where there
/// is none, for want of ticks.
fn is_refused(outcome: &RunOutcome, wanted: Option<u32>) -> bool {
    outcome.ticks == 0 && outcome.reached.as_slice().is_empty() && ends_so(outcome, wanted)
}

fn ends_so(outcome: &RunOutcome, wanted: Option<u32>) -> bool {
    match (&outcome.end, wanted) {
        (RunEnd::Thrown { id, .. }, Some(class)) => is_bare_exception(&outcome.heap, *id, class),
        (RunEnd::Limit { limit, .. }, None) => *limit == Which::Ticks,
        _ => false,
    }
}

fn is_bare_exception(heap: &Heap, id: u32, wanted: u32) -> bool {
    match heap.get(id) {
        Some(Object::Exc { class, message }) => *class == wanted && message.is_none(),
        _ => false,
    }
}

fn called_without_ticks(
    alloc: Global,
    listing: &str,
    wanted: Option<u32>,
) -> Result<bool, AllocError> {
    let limits = Limits {
        loops: 5,
        depth: 100,
        ticks: 0,
    };
    let allow = Catalogue::full(alloc)?;
    match verified(alloc, &allow, listing)? {
        Some(code) => match started(alloc, &code, limits)? {
            Some(activation) => Ok(is_refused(&activation.finish()?, wanted)),
            None => Ok(false),
        },
        None => Ok(false),
    }
}

/// The classes of receivers and arguments are tested before a call is paid.
#[test]
fn classes_of_calls(rt: HostRuntime) -> Result<(), Fail> {
    for (listing, wanted) in CALLED.iter() {
        let refused = called_without_ticks(rt.alloc(), listing, *wanted)?;
        assert!(rt; refused);
    }
    Ok(())
}
