//! Scripts and how they end: `END: SCRIPT`, or `END, N ticks: SCRIPT` where the ticks that were paid are told.

use script_rows::Bounds;

/// Values, what is declared, and assignments.
pub const VALUES: &str = "I 1: 1
J 5: 5L
true: true
B 7: (byte)7
S 7: (short)7
C 7: (char)7
null: // nothing
null: int x;
I 0: int x; x
J 0: long y; y
false: boolean b; b
C 0: char c; c
B 0: byte b; b
I 1: return 1
J 7: return 7L
true: return true
J 2: int x = 1; return x + 1L
I 7: 1 + 2 * 3;
I 14: int x = 7; x <<= 33; x
J 8589934592: long y = 1; y << 33
J 2: long y = 1; y <<= 65; y
B -56: byte b = (byte)200; b
B 127: byte b = 127; b
B -128: byte b = -128; b
B 2: byte b = 1; b = 2
B -55: byte b = 1; b += 200
B -56: byte b = 100; b += 100; b
B -24: byte b = 10; b *= 100L; b
C 66: char c = 65; c += 1; c
C 65535: char c = 0; c--; c
C 0: char c = 65535; ++c
S 32767: short s = -32768; s -= 1; s
S 4095: short s = -1; s >>>= 20; s
B -1: byte b = -1; b >>>= 1; b
C 14464: char c = 40000; c <<= 1; c
I 705032705: int i = 1; i += 5000000000L; i
I -2147483648: int i = 2147483647; i++; i
J -9223372036854775808: long l = 9223372036854775807L; ++l
C 65: (char)65601
C 65535: (char)-1
B -1: (byte)(char)65535
I 65535: (int)(char)(byte)-1
J 65534: (long)(char)(short)-2
S -32768: (short)98304
I 1: (int)4294967297L
I 2147483647: (int)-2147483649L
B -128: (byte)384L
J -1: (long)-1
I -2147483648: -2147483648
J -9223372036854775808: -9223372036854775808L
I -2147483648: - 2147483648
I -2147483648: 0x7fffffff + 1
J 255: 0xFFL
I 24: 010 + 0x10
I -2147483648: -0X80000000
I -2147483648: 2147483647 + 1
J 2147483648: 2147483647L + 1
J 4294967294: 2147483647 * 2L
J -1: 2147483647 * 2 + 1L
J -1: 1L + 2147483647 * 2
I -2147483648: -2147483648 / -1
I 0: -2147483648 % -1
J -9223372036854775808: -9223372036854775808L / -1
J 0: -9223372036854775808L % -1
J -9223372036854775808: -9223372036854775808L / -1L
I -3: -7 / 2
I -3: 7 / -2
I -1: -7 % 2
I 1: 7 % -2
J -3: -7L / 2
J -1: -7L % 2
I 1: 1 << 32
I 2: 1 << 33
I -2147483648: 1 << -1
J 1: 1L << 64
J -9223372036854775808: 1L << -1
I 2: 1 << 33L
I 2: 1 << 4294967297L
J 8589934592: 1L << 33
I -1: -1 >> 31
I 1: -1 >>> 31
I 15: -1 >>> 28
J 15: -1L >>> 60
I -1: -1 >>> 32
I 255: (byte)-128 >>> 24
I -65536: (char)65535 << 16
I -1: ~0
J 0: ~-1L
I -6: ~(byte)5
I 128: -(byte)-128
I -1: -(char)1
I 65: +(char)65
I 1: - -1
I -2147483648: - -2147483648
I -2147483648: -(-2147483648)
false: !true
false: !(1 < 2)
I 2: int a, b = 2, c; a + b + c
I 3: int a = 1, b = a + 1, c = a + b; c
I 55: int a; int b; a = b = 5; a * 10 + b
I 14: int a = 1; int b = a = 7; a + b
J 5: long a; int b; a = b = 5; a
I 81: int a = 3; a = a * a; a = a * a; a
I 12: int i = 5; i = i++ + ++i; i
I 5: int i = 5; i = i++; i
I 12: int i = 5; i = ++i + i++; i
I 10: int i = 5; i += i++; i
I 11: int i = 5; i += ++i; i
I 11: int i = 5; i++ + i++
I 506: int i = 5; i++ * 100 + i
I -12: int i = 5; -i++ + ~i
I 12: int i = 5; (i = 6) + i
I 11: int i = 5; i + (i = 6)
I 35: int i = 5; i *= i += 2
I 2: int i = 5; i -= i = 3; i
I 8: int i = 2; i <<= i; i
I 23: int i = 5; int j = i-- - --i; j * 10 + i
I -1: byte b = 127; b++ + b
I 65535: char c = 65535; c++ + c
J 3: long l = 1; l = l++ + l
I 5: int x = 1; x += x += x += 2; x
I 10: int a = 2; a == 2 ? 10 : 20
J 1: true ? 1 : 2L
J 2: false ? 1L : 2
I 1: true ? (byte)1 : (short)2
B 1: true ? (byte)1 : (byte)2
I 65: true ? (char)65 : (byte)1
I 65: true ? (char)65 : 1
S 2: false ? (short)1 : (short)2
J 2147483648: (true ? 2147483647 : 1L) + 1
I -2147483648: (true ? 2147483647 : 1) + 1
I 2: true ? false ? 1 : 2 : 3
I 2: false ? 1 : true ? 2 : 3
false: true ? false : true
true: (char)65 == 65
true: 1 == 1L
false: (byte)-1 == (char)65535
true: (byte)-1 == (short)-1
true: 1 === 1L
true: 1 !== 2
true: true == true
true: true != false
false: true === false
false: 4294967296L == 0
true: -1 < (char)0
true: (char)65535 > (byte)-1
true: 9223372036854775807L > 2147483647
true: 1 < 2 == true
I 5: 5 & 3 | 4 ^ 1
true: true | false & false
true: true ^ true ^ true
J 2: 6 & 3L
J 0: -1 ^ -1L
I 65535: (byte)-1 & (char)65535
I 10: 2 + 3 << 1
I 8: 1 << 2 + 1
true: 1 + 2 > 2 & true
I 5: 10 - 3 - 2
I 10: 100 / 5 / 2
I 6: 7 / 2 * 2
I 7: 7 * 2 / 2
I 1: 2147483647 * 2147483647
I -2147483648: -2147483648 * -1
I 0: 65536 * 65536
J 4294967296: 65536L * 65536
J -2: 9223372036854775807L * 2
J -9223372036854775808: 9223372036854775807L + 1
J -9223372036709301616: 3037000500L * 3037000500L";

/// What is not reached does not throw.
pub const SHORT_CIRCUITS: &str = "false: false && 1 / 0 == 0
true: true || 1 / 0 == 0
thrown ArithmeticException / by zero: true && 1 / 0 == 0
thrown ArithmeticException / by zero: false || 1 / 0 == 0
I 1: true ? 1 : 1 / 0
I 2: false ? 1 / 0 : 2
thrown ArithmeticException / by zero: false ? 1 : 1 / 0
thrown ArithmeticException / by zero: true ? 1 / 0 : 2
true: false && 1 / 0 == 0 || true
true: true || 1 / 0 == 0 && 1 / 0 == 0
false: (true || 1 / 0 == 0) && false
true: !(false && 1 % 0 == 0)
thrown ArithmeticException / by zero: false & 1 / 0 == 0
thrown ArithmeticException / by zero: true | 1 / 0 == 0
false: int x = 0; x != 0 && 10 / x > 1
true: int x = 0; x == 0 || 10 / x > 1
true: int x = 5; x != 0 && 10 / x > 1
I 0: int i = 0; boolean b = false && i++ == 0; i
I 0: int i = 0; boolean b = true || i++ == 0; i
I 1: int i = 0; boolean b = true && i++ == 0; i
I 1: int i = 0; boolean b = false || i++ == 0; i
I 1: int i = 0; boolean b = false & i++ == 0; i
I 1: int i = 0; boolean b = true | i++ == 0; i
I 0: int i = 0; int j = true ? 7 : i++; i
I 1: int i = 0; int j = false ? 7 : i++; i
I 11: int i = 0; if (i++ == 0 || i++ == 1) { i += 10 } i
I 1: int i = 0; if (i++ == 1 && i++ == 1) { i += 10 } i
I 3: int i = 0; while (i < 3 && 6 / (3 - i) > 0) { i++ } i
false, 0 ticks: boolean f() { return 1 / 0 == 0 } false && f()
true, 1 ticks: boolean f() { return true } f() || f()
false, 2 ticks: boolean f() { return false } f() || f()
false, 1 ticks: boolean f() { return false } f() && f()
I 1, 1 ticks: int f() { return 1 } int g() { return 1 / 0 } true ? f() : g()";

/// Where a divisor is zero.
pub const ZERO_DIVISORS: &str = "thrown ArithmeticException / by zero: 1 / 0
thrown ArithmeticException / by zero: 1 % 0
thrown ArithmeticException / by zero: 1L / 0
thrown ArithmeticException / by zero: 1 / 0L
thrown ArithmeticException / by zero: 1L % 0L
thrown ArithmeticException / by zero: 0 / 0
thrown ArithmeticException / by zero: 0 % 0
thrown ArithmeticException / by zero: 0L / 0L
thrown ArithmeticException / by zero: -2147483648 / 0
thrown ArithmeticException / by zero: -9223372036854775808L % 0
thrown ArithmeticException / by zero: (byte)1 / (byte)0
thrown ArithmeticException / by zero: (char)1 % (char)0
thrown ArithmeticException / by zero: 1 / 0 * (1 / 0)
thrown ArithmeticException / by zero: (1 - 1 / 0) * 2147483647
thrown ArithmeticException / by zero: -(1 / (2 - 2))
thrown ArithmeticException / by zero: ~(1 % (2 - 2))
thrown ArithmeticException / by zero: !(1 / 0 == 0)
thrown ArithmeticException / by zero: (long)(1 / 0)
thrown ArithmeticException / by zero: (byte)(1L % 0)
thrown ArithmeticException / by zero: 1 + 2 * (3 / (1 - 1))
thrown ArithmeticException / by zero: (1 / 0) + 5
thrown ArithmeticException / by zero: 5 + (1 / 0)
thrown ArithmeticException / by zero: 1 / 0 < 1
thrown ArithmeticException / by zero: 1 < 1 / 0
thrown ArithmeticException / by zero: 1 / 0 == 1 / 0
thrown ArithmeticException / by zero: 1 << 1 / 0
thrown ArithmeticException / by zero: 1 / 0 << 1
thrown ArithmeticException / by zero: 1 / 0 & 1
thrown ArithmeticException / by zero: int x = 1 / 0; x
thrown ArithmeticException / by zero: long x = 1 % 0L; x
thrown ArithmeticException / by zero: int a = 1, b = a / 0; a
thrown ArithmeticException / by zero: byte b = (byte)(1 / 0); b
thrown ArithmeticException / by zero: int x = 3; x = x / 0; x
thrown ArithmeticException / by zero: int x = 3; x /= 0; x
thrown ArithmeticException / by zero: int x = 3; x %= 0; x
thrown ArithmeticException / by zero: long x = 3; x /= 0; x
thrown ArithmeticException / by zero: long x = 3; x %= 0; x
thrown ArithmeticException / by zero: long x = 3; x /= 0L; x
thrown ArithmeticException / by zero: int x = 3; x %= 0L; x
thrown ArithmeticException / by zero: byte x = 3; x /= 0; x
thrown ArithmeticException / by zero: short x = 3; x %= 0; x
thrown ArithmeticException / by zero: char x = 3; x /= 0; x
thrown ArithmeticException / by zero: int x = 3; x += 1 / 0; x
thrown ArithmeticException / by zero: int x = 3; x = 1 / 0 + (x = 7); x
thrown ArithmeticException / by zero: int x = 3; x <<= 1 / 0
thrown ArithmeticException / by zero: int x = 0; x /= x
thrown ArithmeticException / by zero: int x = 1; x /= --x
thrown ArithmeticException / by zero: 1 / 0 == 1 ? 2 : 3
thrown ArithmeticException / by zero: true ? 1 / 0 : 3
thrown ArithmeticException / by zero: false ? 3 : 1 % 0
thrown ArithmeticException / by zero: if (1 / 0 == 0) { return 1 }
thrown ArithmeticException / by zero: if (false) { return 1 } else if (1 % 0 == 0) { return 2 } 3
thrown ArithmeticException / by zero: while (1 / 0 == 0) { }
thrown ArithmeticException / by zero: do { } while (1L % 0 == 0)
thrown ArithmeticException / by zero: for (int i = 1 / 0; ; ) { }
thrown ArithmeticException / by zero: for (; 1 / 0 == 0; ) { }
thrown ArithmeticException / by zero, 1 ticks: for (int i = 0; ; i = 1 / 0) { }
thrown ArithmeticException / by zero, 1 ticks: for (int i = 0; ; i /= 0) { }
thrown ArithmeticException / by zero, 4 ticks: for (int i = 3; ; i--) { int x = 6 / i; }
thrown ArithmeticException / by zero: return 1 / 0
thrown ArithmeticException / by zero: return 1L % 0
thrown ArithmeticException / by zero: return (byte)(1 / 0)
thrown ArithmeticException / by zero: int f() { return 1 / 0 } f()
thrown ArithmeticException / by zero: long f() { return 1L % 0 } f()
thrown ArithmeticException / by zero: void f() { int x = 1 / 0; } f()
thrown ArithmeticException / by zero: int f(int a) { return 5 } f(1 / 0)
thrown ArithmeticException / by zero: int f(int a, int b) { return 5 } f(1, 1 % 0)
thrown ArithmeticException / by zero, 1 ticks: int f() { return 1 } int g(int a, int b) { return a } g(f(), 1 / 0)
thrown ArithmeticException / by zero, 0 ticks: int f() { return 1 } int g(int a, int b) { return a } g(1 / 0, f())
thrown ArithmeticException / by zero, 3 ticks: int f() { return 1 } f() + f() / (f() - 1) + f()
thrown ArithmeticException / by zero, 4 ticks: long f(int n) { return n == 0 ? 1L / n : f(n - 1) } f(3)
thrown ArithmeticException / by zero, 3 ticks: void f(int n) { if (n == 0) { n /= 0; } else { f(n - 1); } } f(2)
thrown ArithmeticException / by zero: int x = 5; if (x == 5) { int y = x / (x - 5); } x
thrown ArithmeticException / by zero: int s = 0; while (true) { s += 10 / (3 - s); if (s > 100) { break } } s";

/// Branches and blocks.
pub const BRANCHES: &str = "I 1: if (true) { return 1 } 2
I 2: if (false) { return 1 } 2
I 1: if (true) return 1; else return 2
I 2: if (false) return 1; else return 2
I 1: int x = 0; if (true) x = 1; x
I 2: int x = 0; if (false) x = 1; else x = 2; x
I 2: int x = 0; if (false) { x = 1 } else if (true) { x = 2 } else { x = 3 } x
I 3: int x = 0; if (false) { x = 1 } else if (false) { x = 2 } else { x = 3 } x
I 1: int x = 5; if (x > 3) if (x > 4) x = 1; else x = 2; x
I 2: int x = 4; if (x > 3) if (x > 4) x = 1; else x = 2; x
I 3: int x = 3; if (x > 3) if (x > 4) x = 1; else x = 2; x
I 2: if (true) { int y = 1; } int y = 2; y
I 1: int s = 0; if (true) { int y = 1; s += y } if (true) { int y; s += y * 10 } s
I 6: int s = 0; if (true) { int y = 3; if (true) { int z = y; s = z + y } } s
null: if (true) { }";

/// Loops.
pub const LOOPS: &str = "I 10, 5 ticks: int s = 0; for (int i = 0; i < 5; i++) { s += i } s
I 16, 9 ticks: int s = 0; for (int i = 0; i < 9; ++i) { if (i % 2 == 0) { continue } s += i } s
I 7, 8 ticks: int x = 0; while (x < 10) { if (x == 7) { break } x++ } x
I 0, 3 ticks: int x = 3; do { x-- } while (x > 0); x
I 1, 1 ticks: int x = 0; do { x++ } while (false); x
I 3, 3 ticks: int x = 0; do { x++; continue; } while (x < 3); x
I 2, 2 ticks: int x = 0; do { x++; if (x == 2) { break } } while (true); x
I 5, 5 ticks: int x = 0; do { x++; if (x < 5) { continue } break; } while (x < 100); x
I 22, 2 ticks: int x = 0; do { if (x++ == 1) { continue } x += 10 } while (x < 12); x
I 11, 1 ticks: int x = 10; do { x += 1 } while (x < 10); x
null, 0 ticks: while (false) { }
I 5, 0 ticks: int x = 5; while (x > 5) { x = 0 } x
I 3, 3 ticks: int i = 0; while (i < 3) i++; i
I 4, 3 ticks: int i = 0; while (i++ < 3); i
I 3, 2 ticks: int i = 0; while (++i < 3); i
I 4, 4 ticks: int i = 0; for (; i < 4; i++); i
I 6, 2 ticks: int i = 0; for (; i < 4; ) { i += 3 } i
I 4, 5 ticks: int i = 0; for (;;) { if (i == 4) { break } i++ } i
I 6, 5 ticks: int s = 0; for (int i = 0; ; i++) { if (i == 4) { break } s += i } s
I 6, 4 ticks: int s = 0; for (int i = 0; i < 4; ) { s += i; i++ } s
I 2, 2 ticks: int i = 9; for (i = 0; i < 2; i++) { } i
I 5, 0 ticks: int i = 9; for (i = 5; i < 2; i++) { } i
I 6, 7 ticks: int i = 0; for (; ; i++) { if (i > 5) { return i } }
I 6, 1 ticks: int i = 0; for (i++; i < 3; ) { i += 5 } i
I 35, 5 ticks: int s = 0; for (int i = 0, j = 10; i < j; i++) { j--; s += j } s
I 3, 3 ticks: int s = 0; for (int i = 0; i < 3; i++) s += i; s
I 12, 15 ticks: int s = 0; for (int i = 0; i < 3; i++) { for (int j = 0; j < 4; j++) { s++ } } s
I 6, 14 ticks: int s = 0; for (int i = 0; i < 4; i++) { for (int j = 0; j < 4; j++) { if (j == i) { break } s++ } } s
I 12, 20 ticks: int s = 0; for (int i = 0; i < 4; i++) { for (int j = 0; j < 4; j++) { if (j == i) { continue } s++ } } s
I 53, 9 ticks: int s = 0; for (int i = 0; i < 4; i++) { if (i == 1) { continue } for (int j = 0; j < i; j++) { s += 10 } s++ } s
I 8, 10 ticks: int s = 0; for (int i = 0; i < 4; i++) { for (int j = 0; j < 4; j++) { s++ } if (i == 1) { break } } s
I 3, 9 ticks: int s = 0; int i = 0; while (i < 3) { int j = 0; while (j < 3) { if (j == 1) { j += 2; continue } s += i; j++ } i++ } s
I 6, 12 ticks: int s = 0; int i = 0; while (true) { int j = 0; while (true) { if (j == 2) { break } j++; s++ } i++; if (i == 3) { break } } s
I 7, 11 ticks: int s = 0; int i = 0; do { int j = 0; do { s++; j++ } while (j < i); i++ } while (i < 4); s
I 10, 15 ticks: int s = 0; int i = 0; do { i++; for (int j = 0; j < 5; j++) { if (j > i) { break } if (j == 0) { continue } s += j } } while (i < 3); s
I 303, 9 ticks: int s = 0; for (int i = 0; i < 3; i++) { int j = 0; do { if (j == i) { break } s += 100; j++ } while (true); s++ } s
I 2, 6 ticks: int s = 0; for (int i = 0; i < 3; i++) { int j = i; while (j > 0) { j--; if (j == 1) { continue } s += 1 } } s
I 24, 14 ticks: int s = 0; for (int i = 0; i < 2; i++) { for (int j = 0; j < 2; j++) { for (int k = 0; k < 3; k++) { if (k == 1) { break } s++ } if (j == 1) { continue } s += 10 } } s
I 0, 3 ticks: int s = 0; for (int i = 0; i < 3; i++) { int x; s += x; x = 5 } s
I 6, 3 ticks: int s = 0; for (int i = 0; i < 3; i++) { int x = i; x++; s += x } s
I 0, 3 ticks: int s = 0; int i = 0; while (i < 3) { boolean b; if (b) { s += 100 } b = true; i++ } s
I 6, 4 ticks: int s = 0; int i = 0; do { long x; x += i; s += (int)x; i++ } while (i < 4); s
I 4, 6 ticks: int s = 0; int i = 0; while (i < 2) { int j; while (j < 2) { int k; k++; s += k; j++ } i++ } s
I 2, 2 ticks: int s = 0; for (int i = 0; i < 2; i++) { int x, y = 1, z; s += x + y + z; x = y = z = 9; } s
I 32, 5 ticks: int s = 0; for (int i = 0; i < 2; i++) { s += 1 } for (int i = 0; i < 3; i++) { s += 10 } s
I 10, 2 ticks: for (int i = 0; i < 3; i++) { if (i == 1) { return i * 10 } } 99
I 5, 2 ticks: for (int i = 0; i < 3; i++) { while (true) { return 5 } } 99
I 6, 2 ticks: for (int i = 0; i < 3; i++) { do { return 6 } while (true) }
null, 5 ticks: int i = 0; while (true) { i++; if (i > 3) { if (i > 4) { break } else { continue } } }
I 8, 6 ticks: int i = 0; while (i < 10) { if (i == 3) { i = 7; continue } if (i == 8) { break } i++ } i
I 2872, 3 ticks: byte b = 125; int n = 0; while (b > 0) { b++; n++ } n * 1000 + b
I 465535, 4 ticks: char c = 3; int n = 0; while (c < 10) { c--; n++ } n * 100000 + c
J 2432902008176640000, 20 ticks: long f = 1; for (int i = 1; i <= 20; i++) { f *= i } f
J 7034535277573963776, 25 ticks: long f = 1; for (int i = 1; i <= 25; i++) { f *= i } f
I 1836311903, 46 ticks: int a = 0, b = 1; for (int i = 0; i < 46; i++) { int t = a + b; a = b; b = t } a
I -1323752223, 47 ticks: int a = 0, b = 1; for (int i = 0; i < 47; i++) { int t = a + b; a = b; b = t } a
I 21, 3 ticks: int a = 1071, b = 462; while (b != 0) { int t = a % b; a = b; b = t } a
I 111, 111 ticks: int n = 27, k = 0; while (n != 1) { n = n % 2 == 0 ? n / 2 : 3 * n + 1; k++ } k
I 328, 142 ticks: int s = 0; for (int i = 2; i < 50; i++) { boolean p = true; for (int j = 2; j * j <= i; j++) { if (i % j == 0) { p = false; break } } if (p) { s += i } } s
I -1, 32 ticks: int x = 0, y = 1; for (int i = 0; i < 32; i++) { x ^= y; y <<= 1 } x
I -660622008, 20 ticks: int h = 17; for (int i = 0; i < 20; i++) { h = h * 31 + (h >>> 7) - i } h
J 8151248378210211420, 20 ticks: long h = 1; for (int i = 0; i < 20; i++) { h ^= h << 13; h ^= h >>> 7; h ^= h << 17 } h
I -11067879, 20 ticks: int h = 1; for (int i = 0; i < 20; i++) { h ^= h << 13; h ^= h >>> 17; h ^= h << 5 } h";

/// Functions.
pub const FUNCTIONS: &str = "I 2, 2 ticks: int f() { return 1 } f() + f()
I 2, 0 ticks: int f() { return 1 } 2
null, 1 ticks: void f() { return; } f()
null, 1 ticks: void f() { } f()
I 3, 1 ticks: void f() { } f(); 3
I 4, 2 ticks: void f() { int x = 1; } f(); f(); 4
I 7, 1 ticks: int f(int a) { return a } f(7)
J 7, 1 ticks: long f(long a) { return a } f(7)
J 7, 1 ticks: long f(int a) { return a } f(7)
B 5, 1 ticks: byte f() { return 5 } f()
B 44, 1 ticks: byte f() { return (byte)300 } f()
S -3, 1 ticks: short f(byte b) { return b } f(-3)
C 65, 1 ticks: char f() { return 65 } f()
I 97, 1 ticks: int f(char c) { return c } f(97)
J 10, 1 ticks: long f(byte a, short b, char c, int d) { return a + b + c + d } f(1, 2, 3, 4)
true, 1 ticks: boolean f(boolean b) { return !b } f(false)
I 7, 1 ticks: int f(int a, int b) { return a - b } f(10, 3)
I -1, 1 ticks: int f(int a, int b) { return a - b } int i = 1; f(i++, i++)
I 33, 1 ticks: int f(int a, int b) { return a * 10 + b } int i = 5; f(i = 3, i)
I 53, 1 ticks: int f(int a, int b) { return a * 10 + b } int i = 5; f(i, i = 3)
I 51, 2 ticks: int f(int a) { return a } int f(int a, int b) { return a + b } f(1) + f(2, 3) * 10
I 6, 2 ticks: int f() { return 1 } int f(int a) { return a } f() + f(5)
I 15, 1 ticks: int f(int a) { a = a * 2; return a } int a = 5; f(a) + a
I 21, 1 ticks: int f(int a) { a++; return a } int x = 1; f(x) * 10 + x
I 657, 1 ticks: int f(int a) { int b = a + 1; return b } int b = 5; int a = 7; f(b) * 100 + b * 10 + a
I 614, 5 ticks: int f(int x) { int s = 0; for (int i = 0; i < x; i++) { s += i } return s } int s = 1; int i = 4; f(i) * 100 + s * 10 + i
I 11, 2 ticks: int f(int a) { return g(a) + 1 } int g(int b) { return b * 2 } f(5)
I 22, 4 ticks: int g(int b) { return b * 2 } int f(int a) { return g(g(a)) + g(1) } f(5)
true, 11 ticks: boolean even(int n) { return n == 0 ? true : odd(n - 1) } boolean odd(int n) { return n == 0 ? false : even(n - 1) } even(10)
false, 11 ticks: boolean even(int n) { return n == 0 ? true : odd(n - 1) } boolean odd(int n) { return n == 0 ? false : even(n - 1) } odd(10)
false, 8 ticks: boolean even(int n) { if (n == 0) { return true } return odd(n - 1) } boolean odd(int n) { return n != 0 && even(n - 1) } even(7)
I 91, 17 ticks: int a(int n) { return n <= 0 ? 1 : b(n - 1) + 1 } int b(int n) { return n <= 0 ? 2 : c(n - 2) * 2 } int c(int n) { return n <= 0 ? 3 : a(n - 1) + b(n - 1) } a(9)
I 55, 177 ticks: int fib(int n) { return n < 2 ? n : fib(n - 1) + fib(n - 2) } fib(10)
I 479001600, 13 ticks: int fac(int n) { return n == 0 ? 1 : n * fac(n - 1) } fac(12)
I 1932053504, 14 ticks: int fac(int n) { return n == 0 ? 1 : n * fac(n - 1) } fac(13)
J 2432902008176640000, 21 ticks: long fac(long n) { return n == 0 ? 1 : n * fac(n - 1) } fac(20)
I 9, 44 ticks: int ack(int m, int n) { return m == 0 ? n + 1 : n == 0 ? ack(m - 1, 1) : ack(m - 1, ack(m, n - 1)) } ack(2, 3)
I 21, 4 ticks: int gcd(int a, int b) { if (b == 0) { return a } return gcd(b, a % b) } gcd(1071, 462)
I 9, 2 ticks: int f(int n) { if (n > 0) { return 1 } else { return -1 } } f(3) * 10 + f(-3)
I 6, 6 ticks: int f(int n) { while (true) { if (n > 5) { return n } n++ } } f(2)
I 9, 8 ticks: int f(int n) { for (;;) { n++; if (n == 9) { return n } } } f(2)
I 9, 8 ticks: int f(int n) { do { n++; if (n == 9) { return n } } while (true) } f(2)
I 67, 76 ticks: int f(int n) { for (int i = 0; i < 10; i++) { for (int j = 0; j < 10; j++) { if (i * j == n) { return i * 10 + j } } } return -1 } f(42)
I -1, 111 ticks: int f(int n) { for (int i = 0; i < 10; i++) { for (int j = 0; j < 10; j++) { if (i * j == n) { return i * 10 + j } } } return -1 } f(11)
I 8, 5 ticks: void f(int n) { if (n > 3) { return } n++; f(n); } f(0); 8
I 9, 5 ticks: void f(int n) { while (true) { if (n == 3) { return } n++ } } f(0); 9
I 255, 256 ticks: int f(int n) { return n == 0 ? 0 : f(n - 1) + 1 } f(255)
limit depth: int f(int n) { return n == 0 ? 0 : f(n - 1) + 1 } f(256)
I 256, 256 ticks: int f(int n) { return n == 1 ? 1 : f(n - 1) + 1 } f(256)
limit depth: int f(int n) { return n == 1 ? 1 : f(n - 1) + 1 } f(257)
I 1, 256 ticks: void f(int n) { if (n > 1) { f(n - 1); } } f(256); 1
limit depth: void f(int n) { if (n > 1) { f(n - 1); } } f(257); 1
I 256, 256 ticks: int f(int n) { return n <= 1 ? 1 : g(n - 1) + 1 } int g(int n) { return n <= 1 ? 1 : f(n - 1) + 1 } f(256)
limit depth: int f(int n) { return n <= 1 ? 1 : g(n - 1) + 1 } int g(int n) { return n <= 1 ? 1 : f(n - 1) + 1 } f(257)
limit depth: int f() { return f() } f()
I 512, 512 ticks: int f(int n) { return n == 1 ? 1 : f(n - 1) + 1 } f(256) + f(256)
I 1, 4 ticks: int f(int a) { return a } f(f(f(f(1))))
I 6, 13 ticks: int f(int a) { return a + 1 } int s = 0; for (int i = 0; f(i) < 4; i = f(i)) { s += f(i) } s
I 3, 7 ticks: int f(int a) { return a + 1 } int i = 0; while (f(i) < 4) { i++ } i
I 31, 63 ticks: int f(int n) { int s = 0; for (int i = 0; i < n; i++) { s += f(i) + 1 } return s } f(5)
I 3: int f(int a) { return a } return f(3)
I 3: int f() { int a; a++; return a } f() + f() + f()";

/// Within bounds, scripts and how they end.
pub const BOUNDED: [(Bounds, &str); 28] = [
    (
        Bounds {
            loops: 5,
            depth: 10,
            ticks: 1_000,
            room: 100,
        },
        "I 10, 5 ticks: int s = 0; for (int i = 0; i < 5; i++) { s += i } s
limit loop, 5 ticks: int s = 0; for (int i = 0; i < 6; i++) { s += i } s
limit loop, 5 ticks: int s = 0; for (int i = 0; i < 3; i++) { s++ } for (int i = 0; i < 3; i++) { s++ } s
I 6, 8 ticks: int g() { int s = 0; for (int i = 0; i < 3; i++) { s++ } return s } int h() { int s = 0; for (int i = 0; i < 3; i++) { s++ } return s } g() + h()
limit loop, 6 ticks: int g() { int s = 0; for (int i = 0; i < 3; i++) { s++ } for (int i = 0; i < 3; i++) { s++ } return s } g()
I 25, 35 ticks: int g() { int s = 0; for (int i = 0; i < 5; i++) { s++ } return s } int s = 0; for (int i = 0; i < 5; i++) { s += g() } s
limit loop, 35 ticks: int g() { int s = 0; for (int i = 0; i < 5; i++) { s++ } return s } int s = 0; for (int i = 0; i < 6; i++) { s += g() } s
limit loop, 5 ticks: int s = 0; for (int i = 0; i < 2; i++) { for (int j = 0; j < 2; j++) { s++ } } s
limit loop, 5 ticks: for (;;) { }
limit loop, 5 ticks: while (true) { }
limit loop, 5 ticks: do { } while (true)
I 9, 10 ticks: int f(int n) { return n == 0 ? 0 : f(n-1) + 1 } f(9)
limit depth: int f(int n) { return n == 0 ? 0 : f(n-1) + 1 } f(10)
I 2, 2 ticks: int f() { return 1 } f() + f()",
    ),
    (
        Bounds {
            loops: 6,
            depth: 10,
            ticks: 1_000,
            room: 100,
        },
        "I 6, 6 ticks: int s = 0; for (int i = 0; i < 3; i++) { s++ } for (int i = 0; i < 3; i++) { s++ } s
I 4, 6 ticks: int s = 0; for (int i = 0; i < 2; i++) { for (int j = 0; j < 2; j++) { s++ } } s",
    ),
    (
        Bounds {
            loops: 3,
            depth: 10,
            ticks: 1_000,
            room: 100,
        },
        "I 6, 8 ticks: int g() { int s = 0; for (int i = 0; i < 3; i++) { s++ } return s } int h() { int s = 0; for (int i = 0; i < 3; i++) { s++ } return s } g() + h()
I 3, 3 ticks: int i = 0; while (i < 3) { i++; continue; } i
I 3, 3 ticks: int i = 0; while (true) { i++; if (i == 3) { break } } i",
    ),
    (
        Bounds {
            loops: 2,
            depth: 10,
            ticks: 1_000,
            room: 100,
        },
        "limit loop, 3 ticks: int g() { int s = 0; for (int i = 0; i < 3; i++) { s++ } return s } int h() { int s = 0; for (int i = 0; i < 3; i++) { s++ } return s } g() + h()
I 2, 2 ticks: int i = 0; do { i++ } while (i < 2); i
limit loop, 2 ticks: int i = 0; while (i < 3) { i++; continue; } i
limit loop, 2 ticks: int i = 0; while (true) { i++; if (i == 3) { break } } i",
    ),
    (
        Bounds {
            loops: 1,
            depth: 10,
            ticks: 1_000,
            room: 100,
        },
        "null, 1 ticks: do { } while (false)
limit loop, 1 ticks: int i = 0; do { i++ } while (i < 2); i
I 5, 0 ticks: while (false) { } for (; false; ) { } 5",
    ),
    (
        Bounds {
            loops: 5,
            depth: 1,
            ticks: 1_000,
            room: 100,
        },
        "I 2, 2 ticks: int f() { return 1 } f() + f()
limit depth: int g() { return 1 } int f() { return g() } f()
I 1, 3 ticks: int f(int n) { return n } f(f(f(1)))",
    ),
    (
        Bounds {
            loops: 5,
            depth: 2,
            ticks: 1_000,
            room: 100,
        },
        "I 1, 2 ticks: int g() { return 1 } int f() { return g() } f()",
    ),
    (
        Bounds {
            loops: 5,
            depth: 10,
            ticks: 2,
            room: 100,
        },
        "I 2, 2 ticks: int f() { return 1 } f() + f()
limit ticks, 2 ticks: for (int i = 0; i < 3; i++) { }",
    ),
    (
        Bounds {
            loops: 5,
            depth: 10,
            ticks: 1,
            room: 100,
        },
        "limit ticks, 1 ticks: int f() { return 1 } f() + f()
I 1, 1 ticks: int f() { return 1 } f()
limit ticks, 1 ticks: for (int i = 0; i < 3; i++) { }",
    ),
    (
        Bounds {
            loops: 5,
            depth: 10,
            ticks: 3,
            room: 100,
        },
        "null, 3 ticks: for (int i = 0; i < 3; i++) { }",
    ),
    (
        Bounds {
            loops: 5,
            depth: 10,
            ticks: 5,
            room: 100,
        },
        "limit loop, 5 ticks: for (;;) { }",
    ),
    (
        Bounds {
            loops: 5,
            depth: 10,
            ticks: 4,
            room: 100,
        },
        "limit ticks, 4 ticks: for (;;) { }",
    ),
    (
        Bounds {
            loops: 5,
            depth: 10,
            ticks: 6,
            room: 100,
        },
        "limit loop, 5 ticks: for (;;) { }",
    ),
    (
        Bounds {
            loops: 3,
            depth: 10,
            ticks: 3,
            room: 100,
        },
        "limit loop, 3 ticks: while (true) { }
limit loop, 3 ticks: do { } while (true)",
    ),
    (
        Bounds {
            loops: 3,
            depth: 10,
            ticks: 2,
            room: 100,
        },
        "limit ticks, 2 ticks: do { } while (true)",
    ),
    (
        Bounds {
            loops: 9,
            depth: 3,
            ticks: 3,
            room: 100,
        },
        "limit ticks, 3 ticks: int f() { return f() } f()",
    ),
    (
        Bounds {
            loops: 9,
            depth: 3,
            ticks: 4,
            room: 100,
        },
        "limit depth: int f() { return f() } f()",
    ),
    (
        Bounds {
            loops: 9,
            depth: 3,
            ticks: 2,
            room: 100,
        },
        "limit ticks, 2 ticks: int f() { return f() } f()",
    ),
    (
        Bounds {
            loops: 9,
            depth: 3,
            ticks: 5,
            room: 100,
        },
        "limit depth: int f() { return f() } f()",
    ),
    (
        Bounds {
            loops: 1,
            depth: 1,
            ticks: 1,
            room: 100,
        },
        "limit ticks, 1 ticks: int f() { while (true) { } } f()
limit ticks, 1 ticks: int f() { return 1 } while (true) { f(); }
I 7, 0 ticks: 7
thrown ArithmeticException / by zero, 0 ticks: 1 / 0
thrown ArithmeticException / by zero, 1 ticks: int f() { return 1 / 0 } f()
thrown ArithmeticException / by zero, 1 ticks: int f() { return 1 } f() / 0
limit ticks, 1 ticks: int f() { return 1 } f() / (f() - 1)
limit ticks, 1 ticks: int f(int a) { return a } f(f(1))
thrown ArithmeticException / by zero, 0 ticks: int f(int a) { return a } f(1 / 0)",
    ),
    (
        Bounds {
            loops: 1,
            depth: 1,
            ticks: 2,
            room: 100,
        },
        "limit loop, 2 ticks: int f() { while (true) { } } f()
limit loop, 2 ticks: int f() { return 1 } while (true) { f(); }",
    ),
    (
        Bounds {
            loops: 1,
            depth: 1,
            ticks: 3,
            room: 100,
        },
        "limit loop, 2 ticks: int f() { while (true) { } } f()
limit loop, 2 ticks: int f() { return 1 } while (true) { f(); }",
    ),
    (
        Bounds {
            loops: 9,
            depth: 9,
            ticks: 4,
            room: 100,
        },
        "I 1, 4 ticks: int f(int a) { return a } int s = 0; for (int i = 0; i < 2; i++) { s += f(i) } s",
    ),
    (
        Bounds {
            loops: 9,
            depth: 9,
            ticks: 3,
            room: 100,
        },
        "limit ticks, 3 ticks: int f(int a) { return a } int s = 0; for (int i = 0; i < 2; i++) { s += f(i) } s",
    ),
    (
        Bounds {
            loops: 9,
            depth: 9,
            ticks: 9,
            room: 9,
        },
        "limit room, 0 ticks: 1 / 0
limit room, 1 ticks: int f() { return 1 / 0 } f()",
    ),
    (
        Bounds {
            loops: 9,
            depth: 9,
            ticks: 9,
            room: 10,
        },
        "thrown ArithmeticException / by zero, 0 ticks: 1 % 0L
thrown ArithmeticException / by zero, 1 ticks: int f() { return 1 / 0 } f()",
    ),
    (
        Bounds {
            loops: 9,
            depth: 9,
            ticks: 9,
            room: 0,
        },
        "I 2, 2 ticks: int f() { return 1 } f() + f()
limit room, 0 ticks: 1 % 0",
    ),
    (
        Bounds {
            loops: 9,
            depth: 9,
            ticks: 2,
            room: 100,
        },
        "limit ticks, 2 ticks: int f(int a) { return a } int s = 0; for (int i = 0; i < 2; i++) { s += f(i) } s",
    ),
];
