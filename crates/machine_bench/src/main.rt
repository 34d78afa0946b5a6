//! Prints, in nanoseconds an instruction, what listings take that mostly do one thing each, as the script above each says; what a straight
//! line of a million instructions takes; and what a run of eleven instructions takes, in new memory and in the memory of the run before.
//! It measures where it is given an argument, and else prints nothing: `rt run -- times`.
#![tactic(auto)]

use allowlist::{Allow, Catalogue};
use machine::{Activation, Executable, Finished, Limits, LinkedText, RunMemory};
use object_heap::Heap;
use object_values::{Elements, Seed};
use pl_code::read_listing;
use std::alloc::{AllocError, Global};
use std::rc::Rc;
use std::rt::Clock;
use std::time::Instant;
use std::{env, io};
use task_core::Turn;

// int s = 0; for (int i = 0; i < 1000000; i++) { s += i } s
const LOOP: &str =
    "painless 1\nfun 0 loop R - II\ni 0\nstore 0\ni 0\nstore 1\ngoto 13\nload 0\nload 1\nadd.i\nstore 0\nload 1\ni 1\nadd.i\nstore 1\nload 1\ni 1000000\nlt.i\nloop 5\nload 0\nbox int\nret\nend\n";

// int n = 0; int a = 3; for (int i = 0; i < 1000000; i++) { n = n + a } n
const INT_ADDITIONS: &str =
    "painless 1\nfun 0 loop R - III\ni 0\nstore 0\ni 3\nstore 1\ni 0\nstore 2\ngoto 15\nload 0\nload 1\nadd.i\nstore 0\nload 2\ni 1\nadd.i\nstore 2\nload 2\ni 1000000\nlt.i\nloop 7\nload 0\nbox int\nret\nend\n";

// def n = 0; def a = 3; for (int i = 0; i < 1000000; i++) { n = n + a } n
const DEF_ADDITIONS: &str =
    "painless 1\nfun 0 loop R - RRI\ni 0\nbox int\nstore 0\ni 3\nbox int\nstore 1\ni 0\nstore 2\ngoto 17\nload 0\nload 1\ndef.add\nstore 0\nload 2\ni 1\nadd.i\nstore 2\nload 2\ni 1000000\nlt.i\nloop 9\nload 0\nret\nend\n";

// int f(int n) { return n } for (int i = 0; i < 1000000; i++) { f(i) }
const CALLS: &str =
    "painless 1\nfun 0 loop V - I\ni 0\nstore 0\ngoto 10\nload 0\ncall 1\npop\nload 0\ni 1\nadd.i\nstore 0\nload 0\ni 1000000\nlt.i\nloop 3\nret\nend\nfun 1 loop I I -\nload 0\nret\nend\n";

// int fib(int n) { if (n < 2) { return n } return fib(n - 1) + fib(n - 2) } fib(24)
const FIB: &str =
    "painless 1\nfun 0 loop R - -\ni 24\ncall 1\nbox int\nret\nend\nfun 1 loop I I -\nload 0\ni 2\nlt.i\nifz 6\nload 0\nret\nload 0\ni 1\nsub.i\ncall 1\nload 0\ni 2\nsub.i\ncall 1\nadd.i\nret\nend\n";

// StringBuilder b = new StringBuilder(); for (int i = 0; i < 100000; i++) { b.append('ab') }
const APPEND: &str =
    "painless 1\nfun 0 loop R - RI\nnew java.lang.StringBuilder/0\nstore 0\ni 0\nstore 1\ngoto 13\nload 0\ntext \"ab\"\ninvoke java.lang.StringBuilder.append/1\npop\nload 1\ni 1\nadd.i\nstore 1\nload 1\ni 100000\nlt.i\nloop 5\nload 1\nbox int\nret\nend\n";

// List l = new ArrayList(); for (int i = 0; i < 300000; i++) { l.size() }
const STATIC_METHOD: &str =
    "painless 1\nfun 0 loop R - RI\nnew java.util.ArrayList/0\nstore 0\ni 0\nstore 1\ngoto 12\nload 0\ninvoke java.util.Collection.size/0\npop\nload 1\ni 1\nadd.i\nstore 1\nload 1\ni 300000\nlt.i\nloop 5\nload 1\nbox int\nret\nend\n";

// def l = new ArrayList(); for (int i = 0; i < 300000; i++) { l.size() }
const DEF_METHOD: &str =
    "painless 1\nfun 0 loop R - RI\nnew java.util.ArrayList/0\nstore 0\ni 0\nstore 1\ngoto 12\nload 0\ndefcall size 0\npop\nload 1\ni 1\nadd.i\nstore 1\nload 1\ni 300000\nlt.i\nloop 5\nload 1\nbox int\nret\nend\n";

// List l = [1, 2, 3, 4]; for (int i = 0; i < 300000; i++) { l[i & 3] }
const ITEMS: &str =
    "painless 1\nfun 0 loop R - RI\ni 1\nbox int\ni 2\nbox int\ni 3\nbox int\ni 4\nbox int\nlist 4\nstore 0\ni 0\nstore 1\ngoto 24\nload 0\nload 1\ni 3\nand.i\nbox int\ngetidx\npop\nload 1\ni 1\nadd.i\nstore 1\nload 1\ni 300000\nlt.i\nloop 13\nload 1\nbox int\nret\nend\n";

// Map m = ['k': 7]; for (int i = 0; i < 300000; i++) { m.k }
const KEYS: &str =
    "painless 1\nfun 0 loop R - RI\ntext \"k\"\ni 7\nbox int\nmap 1\nstore 0\ni 0\nstore 1\ngoto 15\nload 0\ngetname \"k\"\npop\nload 1\ni 1\nadd.i\nstore 1\nload 1\ni 300000\nlt.i\nloop 8\nload 1\nbox int\nret\nend\n";

// List l of 15,625 elements, six times l.addAll(l), for (def e : l) { e }: a million elements
const EACH: &str =
    "painless 1\nfun 0 loop R - RIR\nnew java.util.ArrayList/0\nstore 0\ni 0\nstore 1\ngoto 14\nload 0\nload 1\nbox int\ninvoke java.util.Collection.add/1\npop\nload 1\ni 1\nadd.i\nstore 1\nload 1\ni 15625\nlt.i\nloop 5\nload 0\nload 0\ninvoke java.util.Collection.addAll/1\npop\nload 0\nload 0\ninvoke java.util.Collection.addAll/1\npop\nload 0\nload 0\ninvoke java.util.Collection.addAll/1\npop\nload 0\nload 0\ninvoke java.util.Collection.addAll/1\npop\nload 0\nload 0\ninvoke java.util.Collection.addAll/1\npop\nload 0\nload 0\ninvoke java.util.Collection.addAll/1\npop\nload 0\niter\nstore 2\ngoto 49\nload 2\nnext\npop\nload 2\nhas\nloop 46\nload 1\nbox int\nret\nend\n";

// int a = 2; int b = 3; a * b + 1, with sixteen locals
const SHORT: &str =
    "painless 1\nfun 0 loop R - IIIIIIIIIIIIIIII\ni 2\nstore 0\ni 3\nstore 1\nload 0\nload 1\nmul.i\ni 1\nadd.i\nbox int\nret\nend\n";

// How often it is run.
const RUNS: u32 = 200_000;

// So often stands s += 1 in a straight line.
const SUMS: usize = 250_000;

// A prelude whose one function does nothing.
const PRELUDE: &[u8] = b"painless 1\nfun 0 free V - -\nret\nend\n";

const LIMITS: Limits = Limits {
    loops: 2_000_000,
    depth: 256,
    ticks: 4_000_000,
};

// How much room the objects of a run have.
const ROOM: u64 = 2_000_000;

// How many words each frame may have.
const FRAME: usize = 20;

/// The listing of int s = 0; s += 1; s += 1; .. s
fn straight(alloc: Global) -> Result<String, AllocError> {
    let sums = "load 0\ni 1\nadd.i\nstore 0\n".repeat(alloc, SUMS)?;
    let lines = sums.as_str();
    format!(in alloc;
        "painless 1\nfun 0 loop R - I\ni 0\nstore 0\n{lines}load 0\nbox int\nret\nend\n"
    )
}

/// How many instructions a run takes, in turns of so many. It is 0 where the run does not end.
fn run(alloc: Global, executable: &Executable, q: u64) -> Result<u64, AllocError> {
    let heap = Heap::new(alloc, ROOM, Seed::of(b"bench"));
    let mut activation = Activation::start(executable, heap, Elements::new(alloc), LIMITS)?;
    for _ in 0..100_000_000 {
        if activation.turn(q) != Turn::More {
            break;
        }
    }
    Ok(match activation.outcome() {
        Some(outcome) => outcome.steps,
        None => 0,
    })
}

/// The code of a listing beside a prelude whose one function does nothing, ready to run. What is no listing counts as want of memory.
fn ready(alloc: Global, listing: &str, allow: &Allow) -> Result<Executable, AllocError> {
    let Ok(code) = read_listing(alloc, listing.as_bytes()) else {
        return Err(AllocError);
    };
    let Ok(beside) = read_listing(alloc, PRELUDE) else {
        return Err(AllocError);
    };
    let text = LinkedText::new(alloc, beside, allow.share(alloc)?)?;
    let prelude = Rc::new(alloc, text)?;
    Executable::new(alloc, code, allow.share(alloc)?, prelude, FRAME)
}

fn measure(
    rt: &(impl Clock + Print),
    alloc: Global,
    name: &str,
    executable: &Executable,
    q: u64,
) -> io::Result<()> {
    let start = Instant::now(rt)?;
    let Ok(steps) = run(alloc, executable, q) else {
        return Ok(());
    };
    let spent = start.elapsed(rt)?.as_nanos();
    let each = spent / u128::from(steps.max(1));
    println!(rt; "{name} in turns of {q}: {steps} instructions, {each} ns each, {spent} ns in all")
}

/// One run in this memory, and what it leaves of it.
fn run_in(
    alloc: Global,
    executable: &Executable,
    memory: RunMemory,
) -> Result<RunMemory, AllocError> {
    let heap = Heap::new(alloc, ROOM, Seed::of(b"bench"));
    let mut activation = Activation::start_in(
        executable,
        memory,
        heap,
        Elements::new(alloc),
        LIMITS,
    )?;
    let _turn = activation.turn(1_000);
    let Finished {
        outcome: _outcome,
        memory,
    } = activation.finish();
    Ok(memory)
}

/// Many runs, each in new memory.
fn runs_anew(alloc: Global, executable: &Executable) -> Result<(), AllocError> {
    for _ in 0..RUNS {
        let _memory = run_in(alloc, executable, RunMemory::new(alloc))?;
    }
    Ok(())
}

/// Many runs, each in the memory of the one before.
fn runs_on(alloc: Global, executable: &Executable) -> Result<(), AllocError> {
    let mut memory = RunMemory::new(alloc);
    for _ in 0..RUNS {
        memory = run_in(alloc, executable, memory)?;
    }
    Ok(())
}

fn measure_runs(
    rt: &(impl Clock + Print),
    alloc: Global,
    executable: &Executable,
) -> io::Result<()> {
    let start = Instant::now(rt)?;
    let Ok(()) = runs_anew(alloc, executable) else {
        return Ok(());
    };
    let anew = start.elapsed(rt)?.as_nanos() / u128::from(RUNS);
    let start = Instant::now(rt)?;
    let Ok(()) = runs_on(alloc, executable) else {
        return Ok(());
    };
    let on = start.elapsed(rt)?.as_nanos() / u128::from(RUNS);
    println!(rt;
        "a run of eleven instructions: {anew} ns in new memory, {on} ns in that of the run before"
    )
}

fn main(rt: HostRuntime) -> io::Result<()> {
    if env::args(&rt)?.nth(1).is_none() {
        return Ok(());
    }
    let Ok(line) = straight(rt.alloc()) else {
        return Ok(());
    };
    let Ok(allow) = Catalogue::full(rt.alloc()) else {
        return Ok(());
    };
    for (name, listing) in [
        ("a loop", LOOP),
        ("int additions", INT_ADDITIONS),
        ("def additions", DEF_ADDITIONS),
        ("calls", CALLS),
        ("fib(24)", FIB),
        ("append", APPEND),
        ("size() on a list", STATIC_METHOD),
        ("size() on a def", DEF_METHOD),
        ("l[i & 3]", ITEMS),
        ("m.k", KEYS),
        ("for-each", EACH),
        ("a straight line", line.as_str()),
    ] {
        let Ok(executable) = ready(rt.alloc(), listing, &allow) else {
            return Ok(());
        };
        for q in [1, 1_000, 100_000_000] {
            measure(&rt, rt.alloc(), name, &executable, q)?;
        }
    }
    let Ok(executable) = ready(rt.alloc(), SHORT, &allow) else {
        return Ok(());
    };
    measure_runs(&rt, rt.alloc(), &executable)
}
