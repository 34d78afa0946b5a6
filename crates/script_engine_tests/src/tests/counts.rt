//! Scripts and their listings, and how many of the instructions are run: each is counted, also the one that throws or passes a limit.

use script_rows::Bounds;

/// Few turns of a loop.
pub const FEW: Bounds = Bounds {
    loops: 5,
    depth: 256,
    ticks: 10_000_000,
    room: 16_000_000,
};

/// A script, its listing, how its run ends, and after how many instructions.
pub const COUNTED: [(&str, &str, &str, u64); 5] = [
    // Each line once.
    (
        "1 + 2 * 3",
        "painless 1
fun 0 loop R - -
i 1
i 2
i 3
mul.i
add.i
box int
ret
end
",
        "I 7",
        7,
    ),
    // Three of the caller, four of the function, and two of the caller.
    (
        "int f(int x) { return x + 1 } int n = 4; f(n)",
        "painless 1
fun 0 loop R - I
i 4
store 0
load 0
call 1
box int
ret
end
fun 1 loop I I -
load 0
i 1
add.i
ret
end
",
        "I 5",
        10,
    ),
    // Three lines once, the four of the test four times, the six of a turn three times, and three lines once.
    (
        "int n = 0; while (n < 3) { n += 1 } n",
        "painless 1
fun 0 loop R - I
i 0
store 0
goto 9
load 0
i 1
add.i
dup
store 0
pop
load 0
i 3
lt.i
loop 3
load 0
box int
ret
end
",
        "I 3",
        40,
    ),
    // The division throws.
    (
        "int n = 0; 1 / n",
        "painless 1
fun 0 loop R - I
i 0
store 0
i 1
load 0
div.i
box int
ret
end
",
        "thrown ArithmeticException / by zero",
        5,
    ),
    // One line once, and two lines six times: the sixth turn passes the limit.
    (
        "while (true) { }",
        "painless 1
fun 0 loop R - -
goto 1
i 1
loop 1
null
ret
end
",
        "limit loop, 5 ticks",
        13,
    ),
];

/// The listing of the prelude's code.
pub const PRELUDE: &str = "painless 1
fun 0 free V - -
ret
end
";
