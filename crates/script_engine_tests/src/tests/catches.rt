//! `try` and `catch`.

use script_rows::Bounds;

/// Which catch takes what is thrown, and what it finds.
pub const CATCHES: &str =
    "T x: try { throw new IllegalStateException('x') } catch (RuntimeException e) { return e.getMessage() }
T x: try { throw new IllegalStateException('x') } catch (IllegalStateException e) { return e.message } catch (RuntimeException e) { return 'second' }
T second: try { throw new IllegalArgumentException() } catch (IllegalStateException e) { return 'first' } catch (RuntimeException e) { return 'second' }
T first: try { throw new IllegalStateException() } catch (RuntimeException e) { return 'first' } catch (IllegalStateException e) { return 'second' }
T other: try { throw new IllegalStateException() } catch (ArithmeticException e) { return 'zero' } catch (Exception e) { return 'other' }
thrown IllegalStateException a: try { throw new IllegalStateException('a') } catch (ArithmeticException e) { return 1 }
T / by zero: try { return 1 / 0 } catch (ArithmeticException e) { return e.message }
null: String s = null; try { return s.length() } catch (NullPointerException e) { return e.message }
T a: try { throw new Exception('a') } catch (Object o) { return ((Exception)o).message }
thrown Exception a: try { throw new Exception('a') } catch (List l) { return 1 }
T a: try { throw new Exception('a') } catch (List l) { return 'list' } catch (Exception e) { return e.message }
I 1: try { return 1 } catch (Exception e) { return 2 }
I 7: int n = 0; try { n = 7 } catch (Exception e) { n = 8 } n
I 5: try { } catch (Exception e) { return 1 } 5
T a: Exception kept = null; try { throw new ArithmeticException('a') } catch (Exception e) { kept = e } kept.message
another value: try { throw new Exception('a') } catch (Exception e) { return e }
I 3: int n = 0; try { throw new Exception() } catch (ArithmeticException e) { n = 1 } catch (Exception e) { n = 2 } int e = 1; n + e";

/// Catches in callers, in other catches and in other `try`s.
pub const NESTED: &str =
    "T deep: int g() { throw new IllegalStateException('deep') } int f() { return g() } try { return f() } catch (Exception e) { return e.message }
I 12, 2 ticks: int f(int n) { try { return 10 / n } catch (ArithmeticException e) { return 2 } } f(1) + f(0)
I 6: int f() { throw new Exception() } int n = 1; try { n = 1 + 2 * f() } catch (Exception e) { n = 6 } n
thrown ArithmeticException a: try { throw new ArithmeticException('a') } catch (Exception e) { throw e }
thrown IllegalStateException b: try { throw new ArithmeticException('a') } catch (ArithmeticException e) { throw new IllegalStateException('b') } catch (IllegalStateException e) { return 1 }
T outer a: try { try { throw new ArithmeticException('a') } catch (IllegalStateException e) { return 'inner' } } catch (ArithmeticException e) { return 'outer ' + e.message }
I 3: int n = 0; try { try { throw new ArithmeticException() } catch (ArithmeticException e) { n = 1 } n += 2 } catch (Exception e) { n = 100 } n
T b: try { try { throw new ArithmeticException('a') } catch (ArithmeticException e) { throw new IllegalStateException('b') } } catch (IllegalStateException e) { return e.message }
T inner: try { try { throw new ArithmeticException('a') } catch (Exception e) { return 'inner' } } catch (Exception e) { return 'outer' }
T ab: String s = ''; try { try { s += 'a'; throw new ArithmeticException() } catch (IllegalStateException e) { s += 'x' } s += 'y' } catch (Exception e) { s += 'b' } s";

/// What is left by a `break`, a `continue` or what is thrown: variables are as they were then.
pub const LEFT: &str =
    "I 4: int n = 0; for (int i = 0; i < 10; i++) { try { if (i == 2) { continue } if (i == 5) { break } n++ } catch (Exception e) { n = 100 } } n
I 3: int n = 0; for (int i = 0; i < 4; i++) { try { if (i == 1) { throw new Exception() } n++ } catch (Exception e) { continue } } n
I 1: int n = 0; while (true) { try { n++; throw new Exception() } catch (Exception e) { break } } n
I 2: int n = 1; try { n = 2; throw new Exception() } catch (Exception e) { } n
I 1: int n = 1; try { n += 1 / (n - 1) } catch (ArithmeticException e) { } n
I 5: int n = 0; do { try { n++; if (n == 3) { throw new Exception() } n++ } catch (Exception e) { n = 5 } } while (n < 5); n
I 30: int n = 0; for (int i = 0; i < 3; i++) { try { throw new Exception() } catch (Exception e) { n += 10 } } n";

/// Limits pass every `try`, and what was paid stays paid.
pub const BOUNDED: [(Bounds, &str); 3] = [
    (
        Bounds {
            loops: 5,
            depth: 10,
            ticks: 1_000,
            room: 100,
        },
        "I 9, 10 ticks: int f(int n) { return n == 0 ? 0 : f(n-1) + 1 } try { return f(9) } catch (Exception e) { return -1 }
limit depth: int f(int n) { return n == 0 ? 0 : f(n-1) + 1 } try { return f(10) } catch (Exception e) { return -1 }
limit loop, 5 ticks: try { while (true) { } } catch (Exception e) { return -1 }
limit loop: for (;;) { try { throw new Exception() } catch (Exception e) { } }",
    ),
    (
        Bounds {
            loops: 5,
            depth: 10,
            ticks: 3,
            room: 100,
        },
        "I 1, 3 ticks: int f() { return 1 } try { f(); f(); return f() } catch (Exception e) { return -1 }
limit ticks: int f() { return 1 } try { f(); f(); f(); return f() } catch (Exception e) { return -1 }",
    ),
    (
        Bounds {
            loops: 5,
            depth: 10,
            ticks: 1_000,
            room: 1,
        },
        "null: try { throw null } catch (Exception e) { return e.message }
limit room: try { throw null } catch (Exception e) { throw null }
limit room: try { throw null } catch (Exception e) { try { throw null } catch (Exception f) { return 1 } }",
    ),
];
