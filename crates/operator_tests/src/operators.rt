//! Operators over each pair of types: what is declared, and then expressions and what they give.

/// A left side of type byte.
pub const BYTES: &str = "# byte a = -128; byte b = -1;
a * b: I 128, a / b: I 128, a % b: I 0, a + b: I -129, a - b: I -127, a << b: I 0, a >> b: I -1, a >>> b: I 1
a < b: true, a <= b: true, a > b: false, a >= b: false, a == b: false, a != b: true, a === b: false, a !== b: true
a & b: I -128, a ^ b: I 127, a | b: I -1, a *= b: B -128, a /= b: B -128, a %= b: B 0, a += b: B 127, a -= b: B -127
a <<= b: B 0, a >>= b: B -1, a >>>= b: B 1, a &= b: B -128, a ^= b: B 127, a |= b: B -1, true ? a : b: B -128
false ? a : b: B -1
# byte a = 127; byte b = 127;
a * b: I 16129, a / b: I 1, a % b: I 0, a + b: I 254, a - b: I 0, a << b: I -2147483648, a >> b: I 0, a >>> b: I 0
a < b: false, a <= b: true, a > b: false, a >= b: true, a == b: true, a != b: false, a === b: true, a !== b: false
a & b: I 127, a ^ b: I 0, a | b: I 127, a *= b: B 1, a /= b: B 1, a %= b: B 0, a += b: B -2, a -= b: B 0
a <<= b: B 0, a >>= b: B 0, a >>>= b: B 0, a &= b: B 127, a ^= b: B 0, a |= b: B 127, true ? a : b: B 127
false ? a : b: B 127
# byte a = 7; byte b = 0;
a * b: I 0, a / b: thrown ArithmeticException / by zero, a % b: thrown ArithmeticException / by zero, a + b: I 7
a - b: I 7, a << b: I 7, a >> b: I 7, a >>> b: I 7, a < b: false, a <= b: false, a > b: true, a >= b: true
a == b: false, a != b: true, a === b: false, a !== b: true, a & b: I 0, a ^ b: I 7, a | b: I 7, a *= b: B 0
a /= b: thrown ArithmeticException / by zero, a %= b: thrown ArithmeticException / by zero, a += b: B 7, a -= b: B 7
a <<= b: B 7, a >>= b: B 7, a >>>= b: B 7, a &= b: B 0, a ^= b: B 7, a |= b: B 7, true ? a : b: B 7
false ? a : b: B 0
# byte a = 7; byte b = 100;
a * b: I 700, a / b: I 0, a % b: I 7, a + b: I 107, a - b: I -93, a << b: I 112, a >> b: I 0, a >>> b: I 0
a < b: true, a <= b: true, a > b: false, a >= b: false, a == b: false, a != b: true, a === b: false, a !== b: true
a & b: I 4, a ^ b: I 99, a | b: I 103, a *= b: B -68, a /= b: B 0, a %= b: B 7, a += b: B 107, a -= b: B -93
a <<= b: B 112, a >>= b: B 0, a >>>= b: B 0, a &= b: B 4, a ^= b: B 99, a |= b: B 103, true ? a : b: B 7
false ? a : b: B 100
# byte a = -128; short b = -1;
a * b: I 128, a / b: I 128, a % b: I 0, a + b: I -129, a - b: I -127, a << b: I 0, a >> b: I -1, a >>> b: I 1
a < b: true, a <= b: true, a > b: false, a >= b: false, a == b: false, a != b: true, a === b: false, a !== b: true
a & b: I -128, a ^ b: I 127, a | b: I -1, a *= b: B -128, a /= b: B -128, a %= b: B 0, a += b: B 127, a -= b: B -127
a <<= b: B 0, a >>= b: B -1, a >>>= b: B 1, a &= b: B -128, a ^= b: B 127, a |= b: B -1, true ? a : b: I -128
false ? a : b: I -1
# byte a = 127; short b = 32767;
a * b: I 4161409, a / b: I 0, a % b: I 127, a + b: I 32894, a - b: I -32640, a << b: I -2147483648, a >> b: I 0
a >>> b: I 0, a < b: true, a <= b: true, a > b: false, a >= b: false, a == b: false, a != b: true, a === b: false
a !== b: true, a & b: I 127, a ^ b: I 32640, a | b: I 32767, a *= b: B -127, a /= b: B 0, a %= b: B 127
a += b: B 126, a -= b: B -128, a <<= b: B 0, a >>= b: B 0, a >>>= b: B 0, a &= b: B 127, a ^= b: B -128, a |= b: B -1
true ? a : b: I 127, false ? a : b: I 32767
# byte a = -128; short b = 0;
a * b: I 0, a / b: thrown ArithmeticException / by zero, a % b: thrown ArithmeticException / by zero, a + b: I -128
a - b: I -128, a << b: I -128, a >> b: I -128, a >>> b: I -128, a < b: true, a <= b: true, a > b: false
a >= b: false, a == b: false, a != b: true, a === b: false, a !== b: true, a & b: I 0, a ^ b: I -128, a | b: I -128
a *= b: B 0, a /= b: thrown ArithmeticException / by zero, a %= b: thrown ArithmeticException / by zero
a += b: B -128, a -= b: B -128, a <<= b: B -128, a >>= b: B -128, a >>>= b: B -128, a &= b: B 0, a ^= b: B -128
a |= b: B -128, true ? a : b: I -128, false ? a : b: I 0
# byte a = -7; short b = 9;
a * b: I -63, a / b: I 0, a % b: I -7, a + b: I 2, a - b: I -16, a << b: I -3584, a >> b: I -1, a >>> b: I 8388607
a < b: true, a <= b: true, a > b: false, a >= b: false, a == b: false, a != b: true, a === b: false, a !== b: true
a & b: I 9, a ^ b: I -16, a | b: I -7, a *= b: B -63, a /= b: B 0, a %= b: B -7, a += b: B 2, a -= b: B -16
a <<= b: B 0, a >>= b: B -1, a >>>= b: B -1, a &= b: B 9, a ^= b: B -16, a |= b: B -7, true ? a : b: I -7
false ? a : b: I 9
# byte a = -128; char b = 65535;
a * b: I -8388480, a / b: I 0, a % b: I -128, a + b: I 65407, a - b: I -65663, a << b: I 0, a >> b: I -1
a >>> b: I 1, a < b: true, a <= b: true, a > b: false, a >= b: false, a == b: false, a != b: true, a === b: false
a !== b: true, a & b: I 65408, a ^ b: I -65409, a | b: I -1, a *= b: B -128, a /= b: B 0, a %= b: B -128
a += b: B 127, a -= b: B -127, a <<= b: B 0, a >>= b: B -1, a >>>= b: B 1, a &= b: B -128, a ^= b: B 127
a |= b: B -1, true ? a : b: I -128, false ? a : b: I 65535
# byte a = 127; char b = 65535;
a * b: I 8322945, a / b: I 0, a % b: I 127, a + b: I 65662, a - b: I -65408, a << b: I -2147483648, a >> b: I 0
a >>> b: I 0, a < b: true, a <= b: true, a > b: false, a >= b: false, a == b: false, a != b: true, a === b: false
a !== b: true, a & b: I 127, a ^ b: I 65408, a | b: I 65535, a *= b: B -127, a /= b: B 0, a %= b: B 127
a += b: B 126, a -= b: B -128, a <<= b: B 0, a >>= b: B 0, a >>>= b: B 0, a &= b: B 127, a ^= b: B -128, a |= b: B -1
true ? a : b: I 127, false ? a : b: I 65535
# byte a = 7; char b = 0;
a * b: I 0, a / b: thrown ArithmeticException / by zero, a % b: thrown ArithmeticException / by zero, a + b: I 7
a - b: I 7, a << b: I 7, a >> b: I 7, a >>> b: I 7, a < b: false, a <= b: false, a > b: true, a >= b: true
a == b: false, a != b: true, a === b: false, a !== b: true, a & b: I 0, a ^ b: I 7, a | b: I 7, a *= b: B 0
a /= b: thrown ArithmeticException / by zero, a %= b: thrown ArithmeticException / by zero, a += b: B 7, a -= b: B 7
a <<= b: B 7, a >>= b: B 7, a >>>= b: B 7, a &= b: B 0, a ^= b: B 7, a |= b: B 7, true ? a : b: I 7
false ? a : b: I 0
# byte a = 0; char b = 32768;
a * b: I 0, a / b: I 0, a % b: I 0, a + b: I 32768, a - b: I -32768, a << b: I 0, a >> b: I 0, a >>> b: I 0
a < b: true, a <= b: true, a > b: false, a >= b: false, a == b: false, a != b: true, a === b: false, a !== b: true
a & b: I 0, a ^ b: I 32768, a | b: I 32768, a *= b: B 0, a /= b: B 0, a %= b: B 0, a += b: B 0, a -= b: B 0
a <<= b: B 0, a >>= b: B 0, a >>>= b: B 0, a &= b: B 0, a ^= b: B 0, a |= b: B 0, true ? a : b: I 0
false ? a : b: I 32768
# byte a = -128; int b = -1;
a * b: I 128, a / b: I 128, a % b: I 0, a + b: I -129, a - b: I -127, a << b: I 0, a >> b: I -1, a >>> b: I 1
a < b: true, a <= b: true, a > b: false, a >= b: false, a == b: false, a != b: true, a === b: false, a !== b: true
a & b: I -128, a ^ b: I 127, a | b: I -1, a *= b: B -128, a /= b: B -128, a %= b: B 0, a += b: B 127, a -= b: B -127
a <<= b: B 0, a >>= b: B -1, a >>>= b: B 1, a &= b: B -128, a ^= b: B 127, a |= b: B -1, true ? a : b: I -128
false ? a : b: I -1
# byte a = 127; int b = 2147483647;
a * b: I 2147483521, a / b: I 0, a % b: I 127, a + b: I -2147483522, a - b: I -2147483520, a << b: I -2147483648
a >> b: I 0, a >>> b: I 0, a < b: true, a <= b: true, a > b: false, a >= b: false, a == b: false, a != b: true
a === b: false, a !== b: true, a & b: I 127, a ^ b: I 2147483520, a | b: I 2147483647, a *= b: B -127, a /= b: B 0
a %= b: B 127, a += b: B 126, a -= b: B -128, a <<= b: B 0, a >>= b: B 0, a >>>= b: B 0, a &= b: B 127
a ^= b: B -128, a |= b: B -1, true ? a : b: I 127, false ? a : b: I 2147483647
# byte a = -7; int b = 0;
a * b: I 0, a / b: thrown ArithmeticException / by zero, a % b: thrown ArithmeticException / by zero, a + b: I -7
a - b: I -7, a << b: I -7, a >> b: I -7, a >>> b: I -7, a < b: true, a <= b: true, a > b: false, a >= b: false
a == b: false, a != b: true, a === b: false, a !== b: true, a & b: I 0, a ^ b: I -7, a | b: I -7, a *= b: B 0
a /= b: thrown ArithmeticException / by zero, a %= b: thrown ArithmeticException / by zero, a += b: B -7
a -= b: B -7, a <<= b: B -7, a >>= b: B -7, a >>>= b: B -7, a &= b: B 0, a ^= b: B -7, a |= b: B -7
true ? a : b: I -7, false ? a : b: I 0
# byte a = 1; int b = 31;
a * b: I 31, a / b: I 0, a % b: I 1, a + b: I 32, a - b: I -30, a << b: I -2147483648, a >> b: I 0, a >>> b: I 0
a < b: true, a <= b: true, a > b: false, a >= b: false, a == b: false, a != b: true, a === b: false, a !== b: true
a & b: I 1, a ^ b: I 30, a | b: I 31, a *= b: B 31, a /= b: B 0, a %= b: B 1, a += b: B 32, a -= b: B -30
a <<= b: B 0, a >>= b: B 0, a >>>= b: B 0, a &= b: B 1, a ^= b: B 30, a |= b: B 31, true ? a : b: I 1
false ? a : b: I 31
# byte a = -128; long b = -1;
a * b: J 128, a / b: J 128, a % b: J 0, a + b: J -129, a - b: J -127, a << b: I 0, a >> b: I -1, a >>> b: I 1
a < b: true, a <= b: true, a > b: false, a >= b: false, a == b: false, a != b: true, a === b: false, a !== b: true
a & b: J -128, a ^ b: J 127, a | b: J -1, a *= b: B -128, a /= b: B -128, a %= b: B 0, a += b: B 127, a -= b: B -127
a <<= b: B 0, a >>= b: B -1, a >>>= b: B 1, a &= b: B -128, a ^= b: B 127, a |= b: B -1, true ? a : b: J -128
false ? a : b: J -1
# byte a = 127; long b = 9223372036854775807L;
a * b: J 9223372036854775681, a / b: J 0, a % b: J 127, a + b: J -9223372036854775682, a - b: J -9223372036854775680
a << b: I -2147483648, a >> b: I 0, a >>> b: I 0, a < b: true, a <= b: true, a > b: false, a >= b: false
a == b: false, a != b: true, a === b: false, a !== b: true, a & b: J 127, a ^ b: J 9223372036854775680
a | b: J 9223372036854775807, a *= b: B -127, a /= b: B 0, a %= b: B 127, a += b: B 126, a -= b: B -128, a <<= b: B 0
a >>= b: B 0, a >>>= b: B 0, a &= b: B 127, a ^= b: B -128, a |= b: B -1, true ? a : b: J 127
false ? a : b: J 9223372036854775807
# byte a = -7; long b = 0;
a * b: J 0, a / b: thrown ArithmeticException / by zero, a % b: thrown ArithmeticException / by zero, a + b: J -7
a - b: J -7, a << b: I -7, a >> b: I -7, a >>> b: I -7, a < b: true, a <= b: true, a > b: false, a >= b: false
a == b: false, a != b: true, a === b: false, a !== b: true, a & b: J 0, a ^ b: J -7, a | b: J -7, a *= b: B 0
a /= b: thrown ArithmeticException / by zero, a %= b: thrown ArithmeticException / by zero, a += b: B -7
a -= b: B -7, a <<= b: B -7, a >>= b: B -7, a >>>= b: B -7, a &= b: B 0, a ^= b: B -7, a |= b: B -7
true ? a : b: J -7, false ? a : b: J 0
# byte a = 1; long b = 1;
a * b: J 1, a / b: J 1, a % b: J 0, a + b: J 2, a - b: J 0, a << b: I 2, a >> b: I 0, a >>> b: I 0, a < b: false
a <= b: true, a > b: false, a >= b: true, a == b: true, a != b: false, a === b: true, a !== b: false, a & b: J 1
a ^ b: J 0, a | b: J 1, a *= b: B 1, a /= b: B 1, a %= b: B 0, a += b: B 2, a -= b: B 0, a <<= b: B 2, a >>= b: B 0
a >>>= b: B 0, a &= b: B 1, a ^= b: B 0, a |= b: B 1, true ? a : b: J 1, false ? a : b: J 1";

/// A left side of type short.
pub const SHORTS: &str = "# short a = -32768; byte b = -1;
a * b: I 32768, a / b: I 32768, a % b: I 0, a + b: I -32769, a - b: I -32767, a << b: I 0, a >> b: I -1, a >>> b: I 1
a < b: true, a <= b: true, a > b: false, a >= b: false, a == b: false, a != b: true, a === b: false, a !== b: true
a & b: I -32768, a ^ b: I 32767, a | b: I -1, a *= b: S -32768, a /= b: S -32768, a %= b: S 0, a += b: S 32767
a -= b: S -32767, a <<= b: S 0, a >>= b: S -1, a >>>= b: S 1, a &= b: S -32768, a ^= b: S 32767, a |= b: S -1
true ? a : b: I -32768, false ? a : b: I -1
# short a = 32767; byte b = 127;
a * b: I 4161409, a / b: I 258, a % b: I 1, a + b: I 32894, a - b: I 32640, a << b: I -2147483648, a >> b: I 0
a >>> b: I 0, a < b: false, a <= b: false, a > b: true, a >= b: true, a == b: false, a != b: true, a === b: false
a !== b: true, a & b: I 127, a ^ b: I 32640, a | b: I 32767, a *= b: S 32641, a /= b: S 258, a %= b: S 1
a += b: S -32642, a -= b: S 32640, a <<= b: S 0, a >>= b: S 0, a >>>= b: S 0, a &= b: S 127, a ^= b: S 32640
a |= b: S 32767, true ? a : b: I 32767, false ? a : b: I 127
# short a = 255; byte b = 0;
a * b: I 0, a / b: thrown ArithmeticException / by zero, a % b: thrown ArithmeticException / by zero, a + b: I 255
a - b: I 255, a << b: I 255, a >> b: I 255, a >>> b: I 255, a < b: false, a <= b: false, a > b: true, a >= b: true
a == b: false, a != b: true, a === b: false, a !== b: true, a & b: I 0, a ^ b: I 255, a | b: I 255, a *= b: S 0
a /= b: thrown ArithmeticException / by zero, a %= b: thrown ArithmeticException / by zero, a += b: S 255
a -= b: S 255, a <<= b: S 255, a >>= b: S 255, a >>>= b: S 255, a &= b: S 0, a ^= b: S 255, a |= b: S 255
true ? a : b: I 255, false ? a : b: I 0
# short a = 255; byte b = 100;
a * b: I 25500, a / b: I 2, a % b: I 55, a + b: I 355, a - b: I 155, a << b: I 4080, a >> b: I 15, a >>> b: I 15
a < b: false, a <= b: false, a > b: true, a >= b: true, a == b: false, a != b: true, a === b: false, a !== b: true
a & b: I 100, a ^ b: I 155, a | b: I 255, a *= b: S 25500, a /= b: S 2, a %= b: S 55, a += b: S 355, a -= b: S 155
a <<= b: S 4080, a >>= b: S 15, a >>>= b: S 15, a &= b: S 100, a ^= b: S 155, a |= b: S 255, true ? a : b: I 255
false ? a : b: I 100
# short a = -32768; short b = -1;
a * b: I 32768, a / b: I 32768, a % b: I 0, a + b: I -32769, a - b: I -32767, a << b: I 0, a >> b: I -1, a >>> b: I 1
a < b: true, a <= b: true, a > b: false, a >= b: false, a == b: false, a != b: true, a === b: false, a !== b: true
a & b: I -32768, a ^ b: I 32767, a | b: I -1, a *= b: S -32768, a /= b: S -32768, a %= b: S 0, a += b: S 32767
a -= b: S -32767, a <<= b: S 0, a >>= b: S -1, a >>>= b: S 1, a &= b: S -32768, a ^= b: S 32767, a |= b: S -1
true ? a : b: S -32768, false ? a : b: S -1
# short a = 32767; short b = 32767;
a * b: I 1073676289, a / b: I 1, a % b: I 0, a + b: I 65534, a - b: I 0, a << b: I -2147483648, a >> b: I 0
a >>> b: I 0, a < b: false, a <= b: true, a > b: false, a >= b: true, a == b: true, a != b: false, a === b: true
a !== b: false, a & b: I 32767, a ^ b: I 0, a | b: I 32767, a *= b: S 1, a /= b: S 1, a %= b: S 0, a += b: S -2
a -= b: S 0, a <<= b: S 0, a >>= b: S 0, a >>>= b: S 0, a &= b: S 32767, a ^= b: S 0, a |= b: S 32767
true ? a : b: S 32767, false ? a : b: S 32767
# short a = 255; short b = 0;
a * b: I 0, a / b: thrown ArithmeticException / by zero, a % b: thrown ArithmeticException / by zero, a + b: I 255
a - b: I 255, a << b: I 255, a >> b: I 255, a >>> b: I 255, a < b: false, a <= b: false, a > b: true, a >= b: true
a == b: false, a != b: true, a === b: false, a !== b: true, a & b: I 0, a ^ b: I 255, a | b: I 255, a *= b: S 0
a /= b: thrown ArithmeticException / by zero, a %= b: thrown ArithmeticException / by zero, a += b: S 255
a -= b: S 255, a <<= b: S 255, a >>= b: S 255, a >>>= b: S 255, a &= b: S 0, a ^= b: S 255, a |= b: S 255
true ? a : b: S 255, false ? a : b: S 0
# short a = 255; short b = -300;
a * b: I -76500, a / b: I 0, a % b: I 255, a + b: I -45, a - b: I 555, a << b: I 267386880, a >> b: I 0, a >>> b: I 0
a < b: false, a <= b: false, a > b: true, a >= b: true, a == b: false, a != b: true, a === b: false, a !== b: true
a & b: I 212, a ^ b: I -469, a | b: I -257, a *= b: S -10964, a /= b: S 0, a %= b: S 255, a += b: S -45
a -= b: S 555, a <<= b: S 0, a >>= b: S 0, a >>>= b: S 0, a &= b: S 212, a ^= b: S -469, a |= b: S -257
true ? a : b: S 255, false ? a : b: S -300
# short a = -32768; char b = 65535;
a * b: I -2147450880, a / b: I 0, a % b: I -32768, a + b: I 32767, a - b: I -98303, a << b: I 0, a >> b: I -1
a >>> b: I 1, a < b: true, a <= b: true, a > b: false, a >= b: false, a == b: false, a != b: true, a === b: false
a !== b: true, a & b: I 32768, a ^ b: I -32769, a | b: I -1, a *= b: S -32768, a /= b: S 0, a %= b: S -32768
a += b: S 32767, a -= b: S -32767, a <<= b: S 0, a >>= b: S -1, a >>>= b: S 1, a &= b: S -32768, a ^= b: S 32767
a |= b: S -1, true ? a : b: I -32768, false ? a : b: I 65535
# short a = 32767; char b = 65535;
a * b: I 2147385345, a / b: I 0, a % b: I 32767, a + b: I 98302, a - b: I -32768, a << b: I -2147483648, a >> b: I 0
a >>> b: I 0, a < b: true, a <= b: true, a > b: false, a >= b: false, a == b: false, a != b: true, a === b: false
a !== b: true, a & b: I 32767, a ^ b: I 32768, a | b: I 65535, a *= b: S -32767, a /= b: S 0, a %= b: S 32767
a += b: S 32766, a -= b: S -32768, a <<= b: S 0, a >>= b: S 0, a >>>= b: S 0, a &= b: S 32767, a ^= b: S -32768
a |= b: S -1, true ? a : b: I 32767, false ? a : b: I 65535
# short a = -300; char b = 0;
a * b: I 0, a / b: thrown ArithmeticException / by zero, a % b: thrown ArithmeticException / by zero, a + b: I -300
a - b: I -300, a << b: I -300, a >> b: I -300, a >>> b: I -300, a < b: true, a <= b: true, a > b: false
a >= b: false, a == b: false, a != b: true, a === b: false, a !== b: true, a & b: I 0, a ^ b: I -300, a | b: I -300
a *= b: S 0, a /= b: thrown ArithmeticException / by zero, a %= b: thrown ArithmeticException / by zero
a += b: S -300, a -= b: S -300, a <<= b: S -300, a >>= b: S -300, a >>>= b: S -300, a &= b: S 0, a ^= b: S -300
a |= b: S -300, true ? a : b: I -300, false ? a : b: I 0
# short a = -1; char b = 5;
a * b: I -5, a / b: I 0, a % b: I -1, a + b: I 4, a - b: I -6, a << b: I -32, a >> b: I -1, a >>> b: I 134217727
a < b: true, a <= b: true, a > b: false, a >= b: false, a == b: false, a != b: true, a === b: false, a !== b: true
a & b: I 5, a ^ b: I -6, a | b: I -1, a *= b: S -5, a /= b: S 0, a %= b: S -1, a += b: S 4, a -= b: S -6
a <<= b: S -32, a >>= b: S -1, a >>>= b: S -1, a &= b: S 5, a ^= b: S -6, a |= b: S -1, true ? a : b: I -1
false ? a : b: I 5
# short a = -32768; int b = -1;
a * b: I 32768, a / b: I 32768, a % b: I 0, a + b: I -32769, a - b: I -32767, a << b: I 0, a >> b: I -1, a >>> b: I 1
a < b: true, a <= b: true, a > b: false, a >= b: false, a == b: false, a != b: true, a === b: false, a !== b: true
a & b: I -32768, a ^ b: I 32767, a | b: I -1, a *= b: S -32768, a /= b: S -32768, a %= b: S 0, a += b: S 32767
a -= b: S -32767, a <<= b: S 0, a >>= b: S -1, a >>>= b: S 1, a &= b: S -32768, a ^= b: S 32767, a |= b: S -1
true ? a : b: I -32768, false ? a : b: I -1
# short a = 32767; int b = 2147483647;
a * b: I 2147450881, a / b: I 0, a % b: I 32767, a + b: I -2147450882, a - b: I -2147450880, a << b: I -2147483648
a >> b: I 0, a >>> b: I 0, a < b: true, a <= b: true, a > b: false, a >= b: false, a == b: false, a != b: true
a === b: false, a !== b: true, a & b: I 32767, a ^ b: I 2147450880, a | b: I 2147483647, a *= b: S -32767
a /= b: S 0, a %= b: S 32767, a += b: S 32766, a -= b: S -32768, a <<= b: S 0, a >>= b: S 0, a >>>= b: S 0
a &= b: S 32767, a ^= b: S -32768, a |= b: S -1, true ? a : b: I 32767, false ? a : b: I 2147483647
# short a = 9; int b = 0;
a * b: I 0, a / b: thrown ArithmeticException / by zero, a % b: thrown ArithmeticException / by zero, a + b: I 9
a - b: I 9, a << b: I 9, a >> b: I 9, a >>> b: I 9, a < b: false, a <= b: false, a > b: true, a >= b: true
a == b: false, a != b: true, a === b: false, a !== b: true, a & b: I 0, a ^ b: I 9, a | b: I 9, a *= b: S 0
a /= b: thrown ArithmeticException / by zero, a %= b: thrown ArithmeticException / by zero, a += b: S 9, a -= b: S 9
a <<= b: S 9, a >>= b: S 9, a >>>= b: S 9, a &= b: S 0, a ^= b: S 9, a |= b: S 9, true ? a : b: I 9
false ? a : b: I 0
# short a = 255; int b = 31;
a * b: I 7905, a / b: I 8, a % b: I 7, a + b: I 286, a - b: I 224, a << b: I -2147483648, a >> b: I 0, a >>> b: I 0
a < b: false, a <= b: false, a > b: true, a >= b: true, a == b: false, a != b: true, a === b: false, a !== b: true
a & b: I 31, a ^ b: I 224, a | b: I 255, a *= b: S 7905, a /= b: S 8, a %= b: S 7, a += b: S 286, a -= b: S 224
a <<= b: S 0, a >>= b: S 0, a >>>= b: S 0, a &= b: S 31, a ^= b: S 224, a |= b: S 255, true ? a : b: I 255
false ? a : b: I 31
# short a = -32768; long b = -1;
a * b: J 32768, a / b: J 32768, a % b: J 0, a + b: J -32769, a - b: J -32767, a << b: I 0, a >> b: I -1, a >>> b: I 1
a < b: true, a <= b: true, a > b: false, a >= b: false, a == b: false, a != b: true, a === b: false, a !== b: true
a & b: J -32768, a ^ b: J 32767, a | b: J -1, a *= b: S -32768, a /= b: S -32768, a %= b: S 0, a += b: S 32767
a -= b: S -32767, a <<= b: S 0, a >>= b: S -1, a >>>= b: S 1, a &= b: S -32768, a ^= b: S 32767, a |= b: S -1
true ? a : b: J -32768, false ? a : b: J -1
# short a = 32767; long b = 9223372036854775807L;
a * b: J 9223372036854743041, a / b: J 0, a % b: J 32767, a + b: J -9223372036854743042
a - b: J -9223372036854743040, a << b: I -2147483648, a >> b: I 0, a >>> b: I 0, a < b: true, a <= b: true
a > b: false, a >= b: false, a == b: false, a != b: true, a === b: false, a !== b: true, a & b: J 32767
a ^ b: J 9223372036854743040, a | b: J 9223372036854775807, a *= b: S -32767, a /= b: S 0, a %= b: S 32767
a += b: S 32766, a -= b: S -32768, a <<= b: S 0, a >>= b: S 0, a >>>= b: S 0, a &= b: S 32767, a ^= b: S -32768
a |= b: S -1, true ? a : b: J 32767, false ? a : b: J 9223372036854775807
# short a = 32767; long b = 0;
a * b: J 0, a / b: thrown ArithmeticException / by zero, a % b: thrown ArithmeticException / by zero, a + b: J 32767
a - b: J 32767, a << b: I 32767, a >> b: I 32767, a >>> b: I 32767, a < b: false, a <= b: false, a > b: true
a >= b: true, a == b: false, a != b: true, a === b: false, a !== b: true, a & b: J 0, a ^ b: J 32767, a | b: J 32767
a *= b: S 0, a /= b: thrown ArithmeticException / by zero, a %= b: thrown ArithmeticException / by zero
a += b: S 32767, a -= b: S 32767, a <<= b: S 32767, a >>= b: S 32767, a >>>= b: S 32767, a &= b: S 0, a ^= b: S 32767
a |= b: S 32767, true ? a : b: J 32767, false ? a : b: J 0
# short a = -1; long b = 63;
a * b: J -63, a / b: J 0, a % b: J -1, a + b: J 62, a - b: J -64, a << b: I -2147483648, a >> b: I -1, a >>> b: I 1
a < b: true, a <= b: true, a > b: false, a >= b: false, a == b: false, a != b: true, a === b: false, a !== b: true
a & b: J 63, a ^ b: J -64, a | b: J -1, a *= b: S -63, a /= b: S 0, a %= b: S -1, a += b: S 62, a -= b: S -64
a <<= b: S 0, a >>= b: S -1, a >>>= b: S 1, a &= b: S 63, a ^= b: S -64, a |= b: S -1, true ? a : b: J -1
false ? a : b: J 63";

/// A left side of type char.
pub const CHARS: &str = "# char a = 0; byte b = -1;
a * b: I 0, a / b: I 0, a % b: I 0, a + b: I -1, a - b: I 1, a << b: I 0, a >> b: I 0, a >>> b: I 0, a < b: false
a <= b: false, a > b: true, a >= b: true, a == b: false, a != b: true, a === b: false, a !== b: true, a & b: I 0
a ^ b: I -1, a | b: I -1, a *= b: C 0, a /= b: C 0, a %= b: C 0, a += b: C 65535, a -= b: C 1, a <<= b: C 0
a >>= b: C 0, a >>>= b: C 0, a &= b: C 0, a ^= b: C 65535, a |= b: C 65535, true ? a : b: I 0, false ? a : b: I -1
# char a = 65535; byte b = 127;
a * b: I 8322945, a / b: I 516, a % b: I 3, a + b: I 65662, a - b: I 65408, a << b: I -2147483648, a >> b: I 0
a >>> b: I 0, a < b: false, a <= b: false, a > b: true, a >= b: true, a == b: false, a != b: true, a === b: false
a !== b: true, a & b: I 127, a ^ b: I 65408, a | b: I 65535, a *= b: C 65409, a /= b: C 516, a %= b: C 3
a += b: C 126, a -= b: C 65408, a <<= b: C 0, a >>= b: C 0, a >>>= b: C 0, a &= b: C 127, a ^= b: C 65408
a |= b: C 65535, true ? a : b: I 65535, false ? a : b: I 127
# char a = 1; byte b = 0;
a * b: I 0, a / b: thrown ArithmeticException / by zero, a % b: thrown ArithmeticException / by zero, a + b: I 1
a - b: I 1, a << b: I 1, a >> b: I 1, a >>> b: I 1, a < b: false, a <= b: false, a > b: true, a >= b: true
a == b: false, a != b: true, a === b: false, a !== b: true, a & b: I 0, a ^ b: I 1, a | b: I 1, a *= b: C 0
a /= b: thrown ArithmeticException / by zero, a %= b: thrown ArithmeticException / by zero, a += b: C 1, a -= b: C 1
a <<= b: C 1, a >>= b: C 1, a >>>= b: C 1, a &= b: C 0, a ^= b: C 1, a |= b: C 1, true ? a : b: I 1
false ? a : b: I 0
# char a = 1; byte b = 100;
a * b: I 100, a / b: I 0, a % b: I 1, a + b: I 101, a - b: I -99, a << b: I 16, a >> b: I 0, a >>> b: I 0
a < b: true, a <= b: true, a > b: false, a >= b: false, a == b: false, a != b: true, a === b: false, a !== b: true
a & b: I 0, a ^ b: I 101, a | b: I 101, a *= b: C 100, a /= b: C 0, a %= b: C 1, a += b: C 101, a -= b: C 65437
a <<= b: C 16, a >>= b: C 0, a >>>= b: C 0, a &= b: C 0, a ^= b: C 101, a |= b: C 101, true ? a : b: I 1
false ? a : b: I 100
# char a = 0; short b = -1;
a * b: I 0, a / b: I 0, a % b: I 0, a + b: I -1, a - b: I 1, a << b: I 0, a >> b: I 0, a >>> b: I 0, a < b: false
a <= b: false, a > b: true, a >= b: true, a == b: false, a != b: true, a === b: false, a !== b: true, a & b: I 0
a ^ b: I -1, a | b: I -1, a *= b: C 0, a /= b: C 0, a %= b: C 0, a += b: C 65535, a -= b: C 1, a <<= b: C 0
a >>= b: C 0, a >>>= b: C 0, a &= b: C 0, a ^= b: C 65535, a |= b: C 65535, true ? a : b: I 0, false ? a : b: I -1
# char a = 65535; short b = 32767;
a * b: I 2147385345, a / b: I 2, a % b: I 1, a + b: I 98302, a - b: I 32768, a << b: I -2147483648, a >> b: I 0
a >>> b: I 0, a < b: false, a <= b: false, a > b: true, a >= b: true, a == b: false, a != b: true, a === b: false
a !== b: true, a & b: I 32767, a ^ b: I 32768, a | b: I 65535, a *= b: C 32769, a /= b: C 2, a %= b: C 1
a += b: C 32766, a -= b: C 32768, a <<= b: C 0, a >>= b: C 0, a >>>= b: C 0, a &= b: C 32767, a ^= b: C 32768
a |= b: C 65535, true ? a : b: I 65535, false ? a : b: I 32767
# char a = 1; short b = 0;
a * b: I 0, a / b: thrown ArithmeticException / by zero, a % b: thrown ArithmeticException / by zero, a + b: I 1
a - b: I 1, a << b: I 1, a >> b: I 1, a >>> b: I 1, a < b: false, a <= b: false, a > b: true, a >= b: true
a == b: false, a != b: true, a === b: false, a !== b: true, a & b: I 0, a ^ b: I 1, a | b: I 1, a *= b: C 0
a /= b: thrown ArithmeticException / by zero, a %= b: thrown ArithmeticException / by zero, a += b: C 1, a -= b: C 1
a <<= b: C 1, a >>= b: C 1, a >>>= b: C 1, a &= b: C 0, a ^= b: C 1, a |= b: C 1, true ? a : b: I 1
false ? a : b: I 0
# char a = 32768; short b = 9;
a * b: I 294912, a / b: I 3640, a % b: I 8, a + b: I 32777, a - b: I 32759, a << b: I 16777216, a >> b: I 64
a >>> b: I 64, a < b: false, a <= b: false, a > b: true, a >= b: true, a == b: false, a != b: true, a === b: false
a !== b: true, a & b: I 0, a ^ b: I 32777, a | b: I 32777, a *= b: C 32768, a /= b: C 3640, a %= b: C 8
a += b: C 32777, a -= b: C 32759, a <<= b: C 0, a >>= b: C 64, a >>>= b: C 64, a &= b: C 0, a ^= b: C 32777
a |= b: C 32777, true ? a : b: I 32768, false ? a : b: I 9
# char a = 0; char b = 65535;
a * b: I 0, a / b: I 0, a % b: I 0, a + b: I 65535, a - b: I -65535, a << b: I 0, a >> b: I 0, a >>> b: I 0
a < b: true, a <= b: true, a > b: false, a >= b: false, a == b: false, a != b: true, a === b: false, a !== b: true
a & b: I 0, a ^ b: I 65535, a | b: I 65535, a *= b: C 0, a /= b: C 0, a %= b: C 0, a += b: C 65535, a -= b: C 1
a <<= b: C 0, a >>= b: C 0, a >>>= b: C 0, a &= b: C 0, a ^= b: C 65535, a |= b: C 65535, true ? a : b: C 0
false ? a : b: C 65535
# char a = 65535; char b = 65535;
a * b: I -131071, a / b: I 1, a % b: I 0, a + b: I 131070, a - b: I 0, a << b: I -2147483648, a >> b: I 0
a >>> b: I 0, a < b: false, a <= b: true, a > b: false, a >= b: true, a == b: true, a != b: false, a === b: true
a !== b: false, a & b: I 65535, a ^ b: I 0, a | b: I 65535, a *= b: C 1, a /= b: C 1, a %= b: C 0, a += b: C 65534
a -= b: C 0, a <<= b: C 0, a >>= b: C 0, a >>>= b: C 0, a &= b: C 65535, a ^= b: C 0, a |= b: C 65535
true ? a : b: C 65535, false ? a : b: C 65535
# char a = 33; char b = 0;
a * b: I 0, a / b: thrown ArithmeticException / by zero, a % b: thrown ArithmeticException / by zero, a + b: I 33
a - b: I 33, a << b: I 33, a >> b: I 33, a >>> b: I 33, a < b: false, a <= b: false, a > b: true, a >= b: true
a == b: false, a != b: true, a === b: false, a !== b: true, a & b: I 0, a ^ b: I 33, a | b: I 33, a *= b: C 0
a /= b: thrown ArithmeticException / by zero, a %= b: thrown ArithmeticException / by zero, a += b: C 33
a -= b: C 33, a <<= b: C 33, a >>= b: C 33, a >>>= b: C 33, a &= b: C 0, a ^= b: C 33, a |= b: C 33
true ? a : b: C 33, false ? a : b: C 0
# char a = 32768; char b = 33;
a * b: I 1081344, a / b: I 992, a % b: I 32, a + b: I 32801, a - b: I 32735, a << b: I 65536, a >> b: I 16384
a >>> b: I 16384, a < b: false, a <= b: false, a > b: true, a >= b: true, a == b: false, a != b: true, a === b: false
a !== b: true, a & b: I 0, a ^ b: I 32801, a | b: I 32801, a *= b: C 32768, a /= b: C 992, a %= b: C 32
a += b: C 32801, a -= b: C 32735, a <<= b: C 0, a >>= b: C 16384, a >>>= b: C 16384, a &= b: C 0, a ^= b: C 32801
a |= b: C 32801, true ? a : b: C 32768, false ? a : b: C 33
# char a = 0; int b = -1;
a * b: I 0, a / b: I 0, a % b: I 0, a + b: I -1, a - b: I 1, a << b: I 0, a >> b: I 0, a >>> b: I 0, a < b: false
a <= b: false, a > b: true, a >= b: true, a == b: false, a != b: true, a === b: false, a !== b: true, a & b: I 0
a ^ b: I -1, a | b: I -1, a *= b: C 0, a /= b: C 0, a %= b: C 0, a += b: C 65535, a -= b: C 1, a <<= b: C 0
a >>= b: C 0, a >>>= b: C 0, a &= b: C 0, a ^= b: C 65535, a |= b: C 65535, true ? a : b: I 0, false ? a : b: I -1
# char a = 65535; int b = 2147483647;
a * b: I 2147418113, a / b: I 0, a % b: I 65535, a + b: I -2147418114, a - b: I -2147418112, a << b: I -2147483648
a >> b: I 0, a >>> b: I 0, a < b: true, a <= b: true, a > b: false, a >= b: false, a == b: false, a != b: true
a === b: false, a !== b: true, a & b: I 65535, a ^ b: I 2147418112, a | b: I 2147483647, a *= b: C 1, a /= b: C 0
a %= b: C 65535, a += b: C 65534, a -= b: C 0, a <<= b: C 0, a >>= b: C 0, a >>>= b: C 0, a &= b: C 65535
a ^= b: C 0, a |= b: C 65535, true ? a : b: I 65535, false ? a : b: I 2147483647
# char a = 97; int b = 0;
a * b: I 0, a / b: thrown ArithmeticException / by zero, a % b: thrown ArithmeticException / by zero, a + b: I 97
a - b: I 97, a << b: I 97, a >> b: I 97, a >>> b: I 97, a < b: false, a <= b: false, a > b: true, a >= b: true
a == b: false, a != b: true, a === b: false, a !== b: true, a & b: I 0, a ^ b: I 97, a | b: I 97, a *= b: C 0
a /= b: thrown ArithmeticException / by zero, a %= b: thrown ArithmeticException / by zero, a += b: C 97
a -= b: C 97, a <<= b: C 97, a >>= b: C 97, a >>>= b: C 97, a &= b: C 0, a ^= b: C 97, a |= b: C 97
true ? a : b: I 97, false ? a : b: I 0
# char a = 5; int b = 1;
a * b: I 5, a / b: I 5, a % b: I 0, a + b: I 6, a - b: I 4, a << b: I 10, a >> b: I 2, a >>> b: I 2, a < b: false
a <= b: false, a > b: true, a >= b: true, a == b: false, a != b: true, a === b: false, a !== b: true, a & b: I 1
a ^ b: I 4, a | b: I 5, a *= b: C 5, a /= b: C 5, a %= b: C 0, a += b: C 6, a -= b: C 4, a <<= b: C 10, a >>= b: C 2
a >>>= b: C 2, a &= b: C 1, a ^= b: C 4, a |= b: C 5, true ? a : b: I 5, false ? a : b: I 1
# char a = 0; long b = -1;
a * b: J 0, a / b: J 0, a % b: J 0, a + b: J -1, a - b: J 1, a << b: I 0, a >> b: I 0, a >>> b: I 0, a < b: false
a <= b: false, a > b: true, a >= b: true, a == b: false, a != b: true, a === b: false, a !== b: true, a & b: J 0
a ^ b: J -1, a | b: J -1, a *= b: C 0, a /= b: C 0, a %= b: C 0, a += b: C 65535, a -= b: C 1, a <<= b: C 0
a >>= b: C 0, a >>>= b: C 0, a &= b: C 0, a ^= b: C 65535, a |= b: C 65535, true ? a : b: J 0, false ? a : b: J -1
# char a = 65535; long b = 9223372036854775807L;
a * b: J 9223372036854710273, a / b: J 0, a % b: J 65535, a + b: J -9223372036854710274
a - b: J -9223372036854710272, a << b: I -2147483648, a >> b: I 0, a >>> b: I 0, a < b: true, a <= b: true
a > b: false, a >= b: false, a == b: false, a != b: true, a === b: false, a !== b: true, a & b: J 65535
a ^ b: J 9223372036854710272, a | b: J 9223372036854775807, a *= b: C 1, a /= b: C 0, a %= b: C 65535
a += b: C 65534, a -= b: C 0, a <<= b: C 0, a >>= b: C 0, a >>>= b: C 0, a &= b: C 65535, a ^= b: C 0
a |= b: C 65535, true ? a : b: J 65535, false ? a : b: J 9223372036854775807
# char a = 97; long b = 0;
a * b: J 0, a / b: thrown ArithmeticException / by zero, a % b: thrown ArithmeticException / by zero, a + b: J 97
a - b: J 97, a << b: I 97, a >> b: I 97, a >>> b: I 97, a < b: false, a <= b: false, a > b: true, a >= b: true
a == b: false, a != b: true, a === b: false, a !== b: true, a & b: J 0, a ^ b: J 97, a | b: J 97, a *= b: C 0
a /= b: thrown ArithmeticException / by zero, a %= b: thrown ArithmeticException / by zero, a += b: C 97
a -= b: C 97, a <<= b: C 97, a >>= b: C 97, a >>>= b: C 97, a &= b: C 0, a ^= b: C 97, a |= b: C 97
true ? a : b: J 97, false ? a : b: J 0
# char a = 97; long b = 65;
a * b: J 6305, a / b: J 1, a % b: J 32, a + b: J 162, a - b: J 32, a << b: I 194, a >> b: I 48, a >>> b: I 48
a < b: false, a <= b: false, a > b: true, a >= b: true, a == b: false, a != b: true, a === b: false, a !== b: true
a & b: J 65, a ^ b: J 32, a | b: J 97, a *= b: C 6305, a /= b: C 1, a %= b: C 32, a += b: C 162, a -= b: C 32
a <<= b: C 194, a >>= b: C 48, a >>>= b: C 48, a &= b: C 65, a ^= b: C 32, a |= b: C 97, true ? a : b: J 97
false ? a : b: J 65";

/// A left side of type int.
pub const INTS: &str = "# int a = -2147483648; byte b = -1;
a * b: I -2147483648, a / b: I -2147483648, a % b: I 0, a + b: I 2147483647, a - b: I -2147483647, a << b: I 0
a >> b: I -1, a >>> b: I 1, a < b: true, a <= b: true, a > b: false, a >= b: false, a == b: false, a != b: true
a === b: false, a !== b: true, a & b: I -2147483648, a ^ b: I 2147483647, a | b: I -1, a *= b: I -2147483648
a /= b: I -2147483648, a %= b: I 0, a += b: I 2147483647, a -= b: I -2147483647, a <<= b: I 0, a >>= b: I -1
a >>>= b: I 1, a &= b: I -2147483648, a ^= b: I 2147483647, a |= b: I -1, true ? a : b: I -2147483648
false ? a : b: I -1
# int a = 2147483647; byte b = 127;
a * b: I 2147483521, a / b: I 16909320, a % b: I 7, a + b: I -2147483522, a - b: I 2147483520, a << b: I -2147483648
a >> b: I 0, a >>> b: I 0, a < b: false, a <= b: false, a > b: true, a >= b: true, a == b: false, a != b: true
a === b: false, a !== b: true, a & b: I 127, a ^ b: I 2147483520, a | b: I 2147483647, a *= b: I 2147483521
a /= b: I 16909320, a %= b: I 7, a += b: I -2147483522, a -= b: I 2147483520, a <<= b: I -2147483648, a >>= b: I 0
a >>>= b: I 0, a &= b: I 127, a ^= b: I 2147483520, a |= b: I 2147483647, true ? a : b: I 2147483647
false ? a : b: I 127
# int a = -77; byte b = 0;
a * b: I 0, a / b: thrown ArithmeticException / by zero, a % b: thrown ArithmeticException / by zero, a + b: I -77
a - b: I -77, a << b: I -77, a >> b: I -77, a >>> b: I -77, a < b: true, a <= b: true, a > b: false, a >= b: false
a == b: false, a != b: true, a === b: false, a !== b: true, a & b: I 0, a ^ b: I -77, a | b: I -77, a *= b: I 0
a /= b: thrown ArithmeticException / by zero, a %= b: thrown ArithmeticException / by zero, a += b: I -77
a -= b: I -77, a <<= b: I -77, a >>= b: I -77, a >>>= b: I -77, a &= b: I 0, a ^= b: I -77, a |= b: I -77
true ? a : b: I -77, false ? a : b: I 0
# int a = 1000003; byte b = 1;
a * b: I 1000003, a / b: I 1000003, a % b: I 0, a + b: I 1000004, a - b: I 1000002, a << b: I 2000006
a >> b: I 500001, a >>> b: I 500001, a < b: false, a <= b: false, a > b: true, a >= b: true, a == b: false
a != b: true, a === b: false, a !== b: true, a & b: I 1, a ^ b: I 1000002, a | b: I 1000003, a *= b: I 1000003
a /= b: I 1000003, a %= b: I 0, a += b: I 1000004, a -= b: I 1000002, a <<= b: I 2000006, a >>= b: I 500001
a >>>= b: I 500001, a &= b: I 1, a ^= b: I 1000002, a |= b: I 1000003, true ? a : b: I 1000003, false ? a : b: I 1
# int a = -2147483648; short b = -1;
a * b: I -2147483648, a / b: I -2147483648, a % b: I 0, a + b: I 2147483647, a - b: I -2147483647, a << b: I 0
a >> b: I -1, a >>> b: I 1, a < b: true, a <= b: true, a > b: false, a >= b: false, a == b: false, a != b: true
a === b: false, a !== b: true, a & b: I -2147483648, a ^ b: I 2147483647, a | b: I -1, a *= b: I -2147483648
a /= b: I -2147483648, a %= b: I 0, a += b: I 2147483647, a -= b: I -2147483647, a <<= b: I 0, a >>= b: I -1
a >>>= b: I 1, a &= b: I -2147483648, a ^= b: I 2147483647, a |= b: I -1, true ? a : b: I -2147483648
false ? a : b: I -1
# int a = 2147483647; short b = 32767;
a * b: I 2147450881, a / b: I 65538, a % b: I 1, a + b: I -2147450882, a - b: I 2147450880, a << b: I -2147483648
a >> b: I 0, a >>> b: I 0, a < b: false, a <= b: false, a > b: true, a >= b: true, a == b: false, a != b: true
a === b: false, a !== b: true, a & b: I 32767, a ^ b: I 2147450880, a | b: I 2147483647, a *= b: I 2147450881
a /= b: I 65538, a %= b: I 1, a += b: I -2147450882, a -= b: I 2147450880, a <<= b: I -2147483648, a >>= b: I 0
a >>>= b: I 0, a &= b: I 32767, a ^= b: I 2147450880, a |= b: I 2147483647, true ? a : b: I 2147483647
false ? a : b: I 32767
# int a = 1000003; short b = 0;
a * b: I 0, a / b: thrown ArithmeticException / by zero, a % b: thrown ArithmeticException / by zero
a + b: I 1000003, a - b: I 1000003, a << b: I 1000003, a >> b: I 1000003, a >>> b: I 1000003, a < b: false
a <= b: false, a > b: true, a >= b: true, a == b: false, a != b: true, a === b: false, a !== b: true, a & b: I 0
a ^ b: I 1000003, a | b: I 1000003, a *= b: I 0, a /= b: thrown ArithmeticException / by zero
a %= b: thrown ArithmeticException / by zero, a += b: I 1000003, a -= b: I 1000003, a <<= b: I 1000003
a >>= b: I 1000003, a >>>= b: I 1000003, a &= b: I 0, a ^= b: I 1000003, a |= b: I 1000003, true ? a : b: I 1000003
false ? a : b: I 0
# int a = 1000003; short b = -300;
a * b: I -300000900, a / b: I -3333, a % b: I 103, a + b: I 999703, a - b: I 1000303, a << b: I 607125504
a >> b: I 0, a >>> b: I 0, a < b: false, a <= b: false, a > b: true, a >= b: true, a == b: false, a != b: true
a === b: false, a !== b: true, a & b: I 1000000, a ^ b: I -1000297, a | b: I -297, a *= b: I -300000900
a /= b: I -3333, a %= b: I 103, a += b: I 999703, a -= b: I 1000303, a <<= b: I 607125504, a >>= b: I 0
a >>>= b: I 0, a &= b: I 1000000, a ^= b: I -1000297, a |= b: I -297, true ? a : b: I 1000003, false ? a : b: I -300
# int a = -2147483648; char b = 65535;
a * b: I -2147483648, a / b: I -32768, a % b: I -32768, a + b: I -2147418113, a - b: I 2147418113, a << b: I 0
a >> b: I -1, a >>> b: I 1, a < b: true, a <= b: true, a > b: false, a >= b: false, a == b: false, a != b: true
a === b: false, a !== b: true, a & b: I 0, a ^ b: I -2147418113, a | b: I -2147418113, a *= b: I -2147483648
a /= b: I -32768, a %= b: I -32768, a += b: I -2147418113, a -= b: I 2147418113, a <<= b: I 0, a >>= b: I -1
a >>>= b: I 1, a &= b: I 0, a ^= b: I -2147418113, a |= b: I -2147418113, true ? a : b: I -2147483648
false ? a : b: I 65535
# int a = 2147483647; char b = 65535;
a * b: I 2147418113, a / b: I 32768, a % b: I 32767, a + b: I -2147418114, a - b: I 2147418112, a << b: I -2147483648
a >> b: I 0, a >>> b: I 0, a < b: false, a <= b: false, a > b: true, a >= b: true, a == b: false, a != b: true
a === b: false, a !== b: true, a & b: I 65535, a ^ b: I 2147418112, a | b: I 2147483647, a *= b: I 2147418113
a /= b: I 32768, a %= b: I 32767, a += b: I -2147418114, a -= b: I 2147418112, a <<= b: I -2147483648, a >>= b: I 0
a >>>= b: I 0, a &= b: I 65535, a ^= b: I 2147418112, a |= b: I 2147483647, true ? a : b: I 2147483647
false ? a : b: I 65535
# int a = 1; char b = 0;
a * b: I 0, a / b: thrown ArithmeticException / by zero, a % b: thrown ArithmeticException / by zero, a + b: I 1
a - b: I 1, a << b: I 1, a >> b: I 1, a >>> b: I 1, a < b: false, a <= b: false, a > b: true, a >= b: true
a == b: false, a != b: true, a === b: false, a !== b: true, a & b: I 0, a ^ b: I 1, a | b: I 1, a *= b: I 0
a /= b: thrown ArithmeticException / by zero, a %= b: thrown ArithmeticException / by zero, a += b: I 1, a -= b: I 1
a <<= b: I 1, a >>= b: I 1, a >>>= b: I 1, a &= b: I 0, a ^= b: I 1, a |= b: I 1, true ? a : b: I 1
false ? a : b: I 0
# int a = 65536; char b = 33;
a * b: I 2162688, a / b: I 1985, a % b: I 31, a + b: I 65569, a - b: I 65503, a << b: I 131072, a >> b: I 32768
a >>> b: I 32768, a < b: false, a <= b: false, a > b: true, a >= b: true, a == b: false, a != b: true, a === b: false
a !== b: true, a & b: I 0, a ^ b: I 65569, a | b: I 65569, a *= b: I 2162688, a /= b: I 1985, a %= b: I 31
a += b: I 65569, a -= b: I 65503, a <<= b: I 131072, a >>= b: I 32768, a >>>= b: I 32768, a &= b: I 0
a ^= b: I 65569, a |= b: I 65569, true ? a : b: I 65536, false ? a : b: I 33
# int a = -2147483648; int b = -1;
a * b: I -2147483648, a / b: I -2147483648, a % b: I 0, a + b: I 2147483647, a - b: I -2147483647, a << b: I 0
a >> b: I -1, a >>> b: I 1, a < b: true, a <= b: true, a > b: false, a >= b: false, a == b: false, a != b: true
a === b: false, a !== b: true, a & b: I -2147483648, a ^ b: I 2147483647, a | b: I -1, a *= b: I -2147483648
a /= b: I -2147483648, a %= b: I 0, a += b: I 2147483647, a -= b: I -2147483647, a <<= b: I 0, a >>= b: I -1
a >>>= b: I 1, a &= b: I -2147483648, a ^= b: I 2147483647, a |= b: I -1, true ? a : b: I -2147483648
false ? a : b: I -1
# int a = 2147483647; int b = 2147483647;
a * b: I 1, a / b: I 1, a % b: I 0, a + b: I -2, a - b: I 0, a << b: I -2147483648, a >> b: I 0, a >>> b: I 0
a < b: false, a <= b: true, a > b: false, a >= b: true, a == b: true, a != b: false, a === b: true, a !== b: false
a & b: I 2147483647, a ^ b: I 0, a | b: I 2147483647, a *= b: I 1, a /= b: I 1, a %= b: I 0, a += b: I -2
a -= b: I 0, a <<= b: I -2147483648, a >>= b: I 0, a >>>= b: I 0, a &= b: I 2147483647, a ^= b: I 0
a |= b: I 2147483647, true ? a : b: I 2147483647, false ? a : b: I 2147483647
# int a = 33; int b = 0;
a * b: I 0, a / b: thrown ArithmeticException / by zero, a % b: thrown ArithmeticException / by zero, a + b: I 33
a - b: I 33, a << b: I 33, a >> b: I 33, a >>> b: I 33, a < b: false, a <= b: false, a > b: true, a >= b: true
a == b: false, a != b: true, a === b: false, a !== b: true, a & b: I 0, a ^ b: I 33, a | b: I 33, a *= b: I 0
a /= b: thrown ArithmeticException / by zero, a %= b: thrown ArithmeticException / by zero, a += b: I 33
a -= b: I 33, a <<= b: I 33, a >>= b: I 33, a >>>= b: I 33, a &= b: I 0, a ^= b: I 33, a |= b: I 33
true ? a : b: I 33, false ? a : b: I 0
# int a = 1000003; int b = 65536;
a * b: I 1111687168, a / b: I 15, a % b: I 16963, a + b: I 1065539, a - b: I 934467, a << b: I 1000003
a >> b: I 1000003, a >>> b: I 1000003, a < b: false, a <= b: false, a > b: true, a >= b: true, a == b: false
a != b: true, a === b: false, a !== b: true, a & b: I 65536, a ^ b: I 934467, a | b: I 1000003, a *= b: I 1111687168
a /= b: I 15, a %= b: I 16963, a += b: I 1065539, a -= b: I 934467, a <<= b: I 1000003, a >>= b: I 1000003
a >>>= b: I 1000003, a &= b: I 65536, a ^= b: I 934467, a |= b: I 1000003, true ? a : b: I 1000003
false ? a : b: I 65536
# int a = -2147483648; long b = -1;
a * b: J 2147483648, a / b: J 2147483648, a % b: J 0, a + b: J -2147483649, a - b: J -2147483647, a << b: I 0
a >> b: I -1, a >>> b: I 1, a < b: true, a <= b: true, a > b: false, a >= b: false, a == b: false, a != b: true
a === b: false, a !== b: true, a & b: J -2147483648, a ^ b: J 2147483647, a | b: J -1, a *= b: I -2147483648
a /= b: I -2147483648, a %= b: I 0, a += b: I 2147483647, a -= b: I -2147483647, a <<= b: I 0, a >>= b: I -1
a >>>= b: I 1, a &= b: I -2147483648, a ^= b: I 2147483647, a |= b: I -1, true ? a : b: J -2147483648
false ? a : b: J -1
# int a = 2147483647; long b = 9223372036854775807L;
a * b: J 9223372034707292161, a / b: J 0, a % b: J 2147483647, a + b: J -9223372034707292162
a - b: J -9223372034707292160, a << b: I -2147483648, a >> b: I 0, a >>> b: I 0, a < b: true, a <= b: true
a > b: false, a >= b: false, a == b: false, a != b: true, a === b: false, a !== b: true, a & b: J 2147483647
a ^ b: J 9223372034707292160, a | b: J 9223372036854775807, a *= b: I -2147483647, a /= b: I 0, a %= b: I 2147483647
a += b: I 2147483646, a -= b: I -2147483648, a <<= b: I -2147483648, a >>= b: I 0, a >>>= b: I 0
a &= b: I 2147483647, a ^= b: I -2147483648, a |= b: I -1, true ? a : b: J 2147483647
false ? a : b: J 9223372036854775807
# int a = 1000003; long b = 0;
a * b: J 0, a / b: thrown ArithmeticException / by zero, a % b: thrown ArithmeticException / by zero
a + b: J 1000003, a - b: J 1000003, a << b: I 1000003, a >> b: I 1000003, a >>> b: I 1000003, a < b: false
a <= b: false, a > b: true, a >= b: true, a == b: false, a != b: true, a === b: false, a !== b: true, a & b: J 0
a ^ b: J 1000003, a | b: J 1000003, a *= b: I 0, a /= b: thrown ArithmeticException / by zero
a %= b: thrown ArithmeticException / by zero, a += b: I 1000003, a -= b: I 1000003, a <<= b: I 1000003
a >>= b: I 1000003, a >>>= b: I 1000003, a &= b: I 0, a ^= b: I 1000003, a |= b: I 1000003, true ? a : b: J 1000003
false ? a : b: J 0
# int a = 31; long b = -2147483649L;
a * b: J -66571993119, a / b: J 0, a % b: J 31, a + b: J -2147483618, a - b: J 2147483680, a << b: I -2147483648
a >> b: I 0, a >>> b: I 0, a < b: false, a <= b: false, a > b: true, a >= b: true, a == b: false, a != b: true
a === b: false, a !== b: true, a & b: J 31, a ^ b: J -2147483680, a | b: J -2147483649, a *= b: I 2147483617
a /= b: I 0, a %= b: I 31, a += b: I -2147483618, a -= b: I -2147483616, a <<= b: I -2147483648, a >>= b: I 0
a >>>= b: I 0, a &= b: I 31, a ^= b: I 2147483616, a |= b: I 2147483647, true ? a : b: J 31
false ? a : b: J -2147483649";

/// A left side of type long.
pub const LONGS: &str = "# long a = -9223372036854775808L; byte b = -1;
a * b: J -9223372036854775808, a / b: J -9223372036854775808, a % b: J 0, a + b: J 9223372036854775807
a - b: J -9223372036854775807, a << b: J 0, a >> b: J -1, a >>> b: J 1, a < b: true, a <= b: true, a > b: false
a >= b: false, a == b: false, a != b: true, a === b: false, a !== b: true, a & b: J -9223372036854775808
a ^ b: J 9223372036854775807, a | b: J -1, a *= b: J -9223372036854775808, a /= b: J -9223372036854775808
a %= b: J 0, a += b: J 9223372036854775807, a -= b: J -9223372036854775807, a <<= b: J 0, a >>= b: J -1
a >>>= b: J 1, a &= b: J -9223372036854775808, a ^= b: J 9223372036854775807, a |= b: J -1
true ? a : b: J -9223372036854775808, false ? a : b: J -1
# long a = 9223372036854775807L; byte b = 127;
a * b: J 9223372036854775681, a / b: J 72624976668147841, a % b: J 0, a + b: J -9223372036854775682
a - b: J 9223372036854775680, a << b: J -9223372036854775808, a >> b: J 0, a >>> b: J 0, a < b: false, a <= b: false
a > b: true, a >= b: true, a == b: false, a != b: true, a === b: false, a !== b: true, a & b: J 127
a ^ b: J 9223372036854775680, a | b: J 9223372036854775807, a *= b: J 9223372036854775681
a /= b: J 72624976668147841, a %= b: J 0, a += b: J -9223372036854775682, a -= b: J 9223372036854775680
a <<= b: J -9223372036854775808, a >>= b: J 0, a >>>= b: J 0, a &= b: J 127, a ^= b: J 9223372036854775680
a |= b: J 9223372036854775807, true ? a : b: J 9223372036854775807, false ? a : b: J 127
# long a = 1; byte b = 0;
a * b: J 0, a / b: thrown ArithmeticException / by zero, a % b: thrown ArithmeticException / by zero, a + b: J 1
a - b: J 1, a << b: J 1, a >> b: J 1, a >>> b: J 1, a < b: false, a <= b: false, a > b: true, a >= b: true
a == b: false, a != b: true, a === b: false, a !== b: true, a & b: J 0, a ^ b: J 1, a | b: J 1, a *= b: J 0
a /= b: thrown ArithmeticException / by zero, a %= b: thrown ArithmeticException / by zero, a += b: J 1, a -= b: J 1
a <<= b: J 1, a >>= b: J 1, a >>>= b: J 1, a &= b: J 0, a ^= b: J 1, a |= b: J 1, true ? a : b: J 1
false ? a : b: J 0
# long a = -2147483649L; byte b = 100;
a * b: J -214748364900, a / b: J -21474836, a % b: J -49, a + b: J -2147483549, a - b: J -2147483749
a << b: J -68719476736, a >> b: J -1, a >>> b: J 268435455, a < b: true, a <= b: true, a > b: false, a >= b: false
a == b: false, a != b: true, a === b: false, a !== b: true, a & b: J 100, a ^ b: J -2147483749, a | b: J -2147483649
a *= b: J -214748364900, a /= b: J -21474836, a %= b: J -49, a += b: J -2147483549, a -= b: J -2147483749
a <<= b: J -68719476736, a >>= b: J -1, a >>>= b: J 268435455, a &= b: J 100, a ^= b: J -2147483749
a |= b: J -2147483649, true ? a : b: J -2147483649, false ? a : b: J 100
# long a = -9223372036854775808L; short b = -1;
a * b: J -9223372036854775808, a / b: J -9223372036854775808, a % b: J 0, a + b: J 9223372036854775807
a - b: J -9223372036854775807, a << b: J 0, a >> b: J -1, a >>> b: J 1, a < b: true, a <= b: true, a > b: false
a >= b: false, a == b: false, a != b: true, a === b: false, a !== b: true, a & b: J -9223372036854775808
a ^ b: J 9223372036854775807, a | b: J -1, a *= b: J -9223372036854775808, a /= b: J -9223372036854775808
a %= b: J 0, a += b: J 9223372036854775807, a -= b: J -9223372036854775807, a <<= b: J 0, a >>= b: J -1
a >>>= b: J 1, a &= b: J -9223372036854775808, a ^= b: J 9223372036854775807, a |= b: J -1
true ? a : b: J -9223372036854775808, false ? a : b: J -1
# long a = 9223372036854775807L; short b = 32767;
a * b: J 9223372036854743041, a / b: J 281483566907400, a % b: J 7, a + b: J -9223372036854743042
a - b: J 9223372036854743040, a << b: J -9223372036854775808, a >> b: J 0, a >>> b: J 0, a < b: false, a <= b: false
a > b: true, a >= b: true, a == b: false, a != b: true, a === b: false, a !== b: true, a & b: J 32767
a ^ b: J 9223372036854743040, a | b: J 9223372036854775807, a *= b: J 9223372036854743041, a /= b: J 281483566907400
a %= b: J 7, a += b: J -9223372036854743042, a -= b: J 9223372036854743040, a <<= b: J -9223372036854775808
a >>= b: J 0, a >>>= b: J 0, a &= b: J 32767, a ^= b: J 9223372036854743040, a |= b: J 9223372036854775807
true ? a : b: J 9223372036854775807, false ? a : b: J 32767
# long a = 4294967296L; short b = 0;
a * b: J 0, a / b: thrown ArithmeticException / by zero, a % b: thrown ArithmeticException / by zero
a + b: J 4294967296, a - b: J 4294967296, a << b: J 4294967296, a >> b: J 4294967296, a >>> b: J 4294967296
a < b: false, a <= b: false, a > b: true, a >= b: true, a == b: false, a != b: true, a === b: false, a !== b: true
a & b: J 0, a ^ b: J 4294967296, a | b: J 4294967296, a *= b: J 0, a /= b: thrown ArithmeticException / by zero
a %= b: thrown ArithmeticException / by zero, a += b: J 4294967296, a -= b: J 4294967296, a <<= b: J 4294967296
a >>= b: J 4294967296, a >>>= b: J 4294967296, a &= b: J 0, a ^= b: J 4294967296, a |= b: J 4294967296
true ? a : b: J 4294967296, false ? a : b: J 0
# long a = -2147483649L; short b = -300;
a * b: J 644245094700, a / b: J 7158278, a % b: J -249, a + b: J -2147483949, a - b: J -2147483349
a << b: J -2251799814733824, a >> b: J -2049, a >>> b: J 17592186042367, a < b: true, a <= b: true, a > b: false
a >= b: false, a == b: false, a != b: true, a === b: false, a !== b: true, a & b: J -2147483948, a ^ b: J 2147483947
a | b: J -1, a *= b: J 644245094700, a /= b: J 7158278, a %= b: J -249, a += b: J -2147483949, a -= b: J -2147483349
a <<= b: J -2251799814733824, a >>= b: J -2049, a >>>= b: J 17592186042367, a &= b: J -2147483948
a ^= b: J 2147483947, a |= b: J -1, true ? a : b: J -2147483649, false ? a : b: J -300
# long a = -9223372036854775808L; char b = 65535;
a * b: J -9223372036854775808, a / b: J -140739635871744, a % b: J -32768, a + b: J -9223372036854710273
a - b: J 9223372036854710273, a << b: J 0, a >> b: J -1, a >>> b: J 1, a < b: true, a <= b: true, a > b: false
a >= b: false, a == b: false, a != b: true, a === b: false, a !== b: true, a & b: J 0, a ^ b: J -9223372036854710273
a | b: J -9223372036854710273, a *= b: J -9223372036854775808, a /= b: J -140739635871744, a %= b: J -32768
a += b: J -9223372036854710273, a -= b: J 9223372036854710273, a <<= b: J 0, a >>= b: J -1, a >>>= b: J 1
a &= b: J 0, a ^= b: J -9223372036854710273, a |= b: J -9223372036854710273, true ? a : b: J -9223372036854775808
false ? a : b: J 65535
# long a = 9223372036854775807L; char b = 65535;
a * b: J 9223372036854710273, a / b: J 140739635871744, a % b: J 32767, a + b: J -9223372036854710274
a - b: J 9223372036854710272, a << b: J -9223372036854775808, a >> b: J 0, a >>> b: J 0, a < b: false, a <= b: false
a > b: true, a >= b: true, a == b: false, a != b: true, a === b: false, a !== b: true, a & b: J 65535
a ^ b: J 9223372036854710272, a | b: J 9223372036854775807, a *= b: J 9223372036854710273, a /= b: J 140739635871744
a %= b: J 32767, a += b: J -9223372036854710274, a -= b: J 9223372036854710272, a <<= b: J -9223372036854775808
a >>= b: J 0, a >>>= b: J 0, a &= b: J 65535, a ^= b: J 9223372036854710272, a |= b: J 9223372036854775807
true ? a : b: J 9223372036854775807, false ? a : b: J 65535
# long a = 4294967296L; char b = 0;
a * b: J 0, a / b: thrown ArithmeticException / by zero, a % b: thrown ArithmeticException / by zero
a + b: J 4294967296, a - b: J 4294967296, a << b: J 4294967296, a >> b: J 4294967296, a >>> b: J 4294967296
a < b: false, a <= b: false, a > b: true, a >= b: true, a == b: false, a != b: true, a === b: false, a !== b: true
a & b: J 0, a ^ b: J 4294967296, a | b: J 4294967296, a *= b: J 0, a /= b: thrown ArithmeticException / by zero
a %= b: thrown ArithmeticException / by zero, a += b: J 4294967296, a -= b: J 4294967296, a <<= b: J 4294967296
a >>= b: J 4294967296, a >>>= b: J 4294967296, a &= b: J 0, a ^= b: J 4294967296, a |= b: J 4294967296
true ? a : b: J 4294967296, false ? a : b: J 0
# long a = -1; char b = 5;
a * b: J -5, a / b: J 0, a % b: J -1, a + b: J 4, a - b: J -6, a << b: J -32, a >> b: J -1
a >>> b: J 576460752303423487, a < b: true, a <= b: true, a > b: false, a >= b: false, a == b: false, a != b: true
a === b: false, a !== b: true, a & b: J 5, a ^ b: J -6, a | b: J -1, a *= b: J -5, a /= b: J 0, a %= b: J -1
a += b: J 4, a -= b: J -6, a <<= b: J -32, a >>= b: J -1, a >>>= b: J 576460752303423487, a &= b: J 5, a ^= b: J -6
a |= b: J -1, true ? a : b: J -1, false ? a : b: J 5
# long a = -9223372036854775808L; int b = -1;
a * b: J -9223372036854775808, a / b: J -9223372036854775808, a % b: J 0, a + b: J 9223372036854775807
a - b: J -9223372036854775807, a << b: J 0, a >> b: J -1, a >>> b: J 1, a < b: true, a <= b: true, a > b: false
a >= b: false, a == b: false, a != b: true, a === b: false, a !== b: true, a & b: J -9223372036854775808
a ^ b: J 9223372036854775807, a | b: J -1, a *= b: J -9223372036854775808, a /= b: J -9223372036854775808
a %= b: J 0, a += b: J 9223372036854775807, a -= b: J -9223372036854775807, a <<= b: J 0, a >>= b: J -1
a >>>= b: J 1, a &= b: J -9223372036854775808, a ^= b: J 9223372036854775807, a |= b: J -1
true ? a : b: J -9223372036854775808, false ? a : b: J -1
# long a = 9223372036854775807L; int b = 2147483647;
a * b: J 9223372034707292161, a / b: J 4294967298, a % b: J 1, a + b: J -9223372034707292162
a - b: J 9223372034707292160, a << b: J -9223372036854775808, a >> b: J 0, a >>> b: J 0, a < b: false, a <= b: false
a > b: true, a >= b: true, a == b: false, a != b: true, a === b: false, a !== b: true, a & b: J 2147483647
a ^ b: J 9223372034707292160, a | b: J 9223372036854775807, a *= b: J 9223372034707292161, a /= b: J 4294967298
a %= b: J 1, a += b: J -9223372034707292162, a -= b: J 9223372034707292160, a <<= b: J -9223372036854775808
a >>= b: J 0, a >>>= b: J 0, a &= b: J 2147483647, a ^= b: J 9223372034707292160, a |= b: J 9223372036854775807
true ? a : b: J 9223372036854775807, false ? a : b: J 2147483647
# long a = 65; int b = 0;
a * b: J 0, a / b: thrown ArithmeticException / by zero, a % b: thrown ArithmeticException / by zero, a + b: J 65
a - b: J 65, a << b: J 65, a >> b: J 65, a >>> b: J 65, a < b: false, a <= b: false, a > b: true, a >= b: true
a == b: false, a != b: true, a === b: false, a !== b: true, a & b: J 0, a ^ b: J 65, a | b: J 65, a *= b: J 0
a /= b: thrown ArithmeticException / by zero, a %= b: thrown ArithmeticException / by zero, a += b: J 65
a -= b: J 65, a <<= b: J 65, a >>= b: J 65, a >>>= b: J 65, a &= b: J 0, a ^= b: J 65, a |= b: J 65
true ? a : b: J 65, false ? a : b: J 0
# long a = -1; int b = 65536;
a * b: J -65536, a / b: J 0, a % b: J -1, a + b: J 65535, a - b: J -65537, a << b: J -1, a >> b: J -1, a >>> b: J -1
a < b: true, a <= b: true, a > b: false, a >= b: false, a == b: false, a != b: true, a === b: false, a !== b: true
a & b: J 65536, a ^ b: J -65537, a | b: J -1, a *= b: J -65536, a /= b: J 0, a %= b: J -1, a += b: J 65535
a -= b: J -65537, a <<= b: J -1, a >>= b: J -1, a >>>= b: J -1, a &= b: J 65536, a ^= b: J -65537, a |= b: J -1
true ? a : b: J -1, false ? a : b: J 65536
# long a = -9223372036854775808L; long b = -1;
a * b: J -9223372036854775808, a / b: J -9223372036854775808, a % b: J 0, a + b: J 9223372036854775807
a - b: J -9223372036854775807, a << b: J 0, a >> b: J -1, a >>> b: J 1, a < b: true, a <= b: true, a > b: false
a >= b: false, a == b: false, a != b: true, a === b: false, a !== b: true, a & b: J -9223372036854775808
a ^ b: J 9223372036854775807, a | b: J -1, a *= b: J -9223372036854775808, a /= b: J -9223372036854775808
a %= b: J 0, a += b: J 9223372036854775807, a -= b: J -9223372036854775807, a <<= b: J 0, a >>= b: J -1
a >>>= b: J 1, a &= b: J -9223372036854775808, a ^= b: J 9223372036854775807, a |= b: J -1
true ? a : b: J -9223372036854775808, false ? a : b: J -1
# long a = 9223372036854775807L; long b = 9223372036854775807L;
a * b: J 1, a / b: J 1, a % b: J 0, a + b: J -2, a - b: J 0, a << b: J -9223372036854775808, a >> b: J 0
a >>> b: J 0, a < b: false, a <= b: true, a > b: false, a >= b: true, a == b: true, a != b: false, a === b: true
a !== b: false, a & b: J 9223372036854775807, a ^ b: J 0, a | b: J 9223372036854775807, a *= b: J 1, a /= b: J 1
a %= b: J 0, a += b: J -2, a -= b: J 0, a <<= b: J -9223372036854775808, a >>= b: J 0, a >>>= b: J 0
a &= b: J 9223372036854775807, a ^= b: J 0, a |= b: J 9223372036854775807, true ? a : b: J 9223372036854775807
false ? a : b: J 9223372036854775807
# long a = 1; long b = 0;
a * b: J 0, a / b: thrown ArithmeticException / by zero, a % b: thrown ArithmeticException / by zero, a + b: J 1
a - b: J 1, a << b: J 1, a >> b: J 1, a >>> b: J 1, a < b: false, a <= b: false, a > b: true, a >= b: true
a == b: false, a != b: true, a === b: false, a !== b: true, a & b: J 0, a ^ b: J 1, a | b: J 1, a *= b: J 0
a /= b: thrown ArithmeticException / by zero, a %= b: thrown ArithmeticException / by zero, a += b: J 1, a -= b: J 1
a <<= b: J 1, a >>= b: J 1, a >>>= b: J 1, a &= b: J 0, a ^= b: J 1, a |= b: J 1, true ? a : b: J 1
false ? a : b: J 0
# long a = 0; long b = 1;
a * b: J 0, a / b: J 0, a % b: J 0, a + b: J 1, a - b: J -1, a << b: J 0, a >> b: J 0, a >>> b: J 0, a < b: true
a <= b: true, a > b: false, a >= b: false, a == b: false, a != b: true, a === b: false, a !== b: true, a & b: J 0
a ^ b: J 1, a | b: J 1, a *= b: J 0, a /= b: J 0, a %= b: J 0, a += b: J 1, a -= b: J -1, a <<= b: J 0, a >>= b: J 0
a >>>= b: J 0, a &= b: J 0, a ^= b: J 1, a |= b: J 1, true ? a : b: J 0, false ? a : b: J 1";
