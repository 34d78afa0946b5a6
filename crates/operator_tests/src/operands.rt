//! Operators before one operand, casts, and truth values: what is declared, and then expressions and what they give.

/// One operand, and casts.
pub const UNARY: &str = "# byte a = -128;
+a: I -128, -a: I 128, ~a: I 127, a++: B -128, ++a: B -127, a--: B -128, --a: B 127, a++; a: B -127, ++a; a: B -127
a--; a: B 127, --a; a: B 127, (byte)a: B -128, (short)a: S -128, (char)a: C 65408, (int)a: I -128, (long)a: J -128
byte b = a; b: B -128, short b = a; b: S -128, int b = a; b: I -128, long b = a; b: J -128
# byte a = 127;
+a: I 127, -a: I -127, ~a: I -128, a++: B 127, ++a: B -128, a--: B 127, --a: B 126, a++; a: B -128, ++a; a: B -128
a--; a: B 126, --a; a: B 126, (byte)a: B 127, (short)a: S 127, (char)a: C 127, (int)a: I 127, (long)a: J 127
byte b = a; b: B 127, short b = a; b: S 127, int b = a; b: I 127, long b = a; b: J 127
# byte a = -1;
+a: I -1, -a: I 1, ~a: I 0, a++: B -1, ++a: B 0, a--: B -1, --a: B -2, a++; a: B 0, ++a; a: B 0, a--; a: B -2
--a; a: B -2, (byte)a: B -1, (short)a: S -1, (char)a: C 65535, (int)a: I -1, (long)a: J -1, byte b = a; b: B -1
short b = a; b: S -1, int b = a; b: I -1, long b = a; b: J -1
# byte a = 0;
+a: I 0, -a: I 0, ~a: I -1, a++: B 0, ++a: B 1, a--: B 0, --a: B -1, a++; a: B 1, ++a; a: B 1, a--; a: B -1
--a; a: B -1, (byte)a: B 0, (short)a: S 0, (char)a: C 0, (int)a: I 0, (long)a: J 0, byte b = a; b: B 0
short b = a; b: S 0, int b = a; b: I 0, long b = a; b: J 0
# byte a = 1;
+a: I 1, -a: I -1, ~a: I -2, a++: B 1, ++a: B 2, a--: B 1, --a: B 0, a++; a: B 2, ++a; a: B 2, a--; a: B 0
--a; a: B 0, (byte)a: B 1, (short)a: S 1, (char)a: C 1, (int)a: I 1, (long)a: J 1, byte b = a; b: B 1
short b = a; b: S 1, int b = a; b: I 1, long b = a; b: J 1
# byte a = 7;
+a: I 7, -a: I -7, ~a: I -8, a++: B 7, ++a: B 8, a--: B 7, --a: B 6, a++; a: B 8, ++a; a: B 8, a--; a: B 6
--a; a: B 6, (byte)a: B 7, (short)a: S 7, (char)a: C 7, (int)a: I 7, (long)a: J 7, byte b = a; b: B 7
short b = a; b: S 7, int b = a; b: I 7, long b = a; b: J 7
# short a = -32768;
+a: I -32768, -a: I 32768, ~a: I 32767, a++: S -32768, ++a: S -32767, a--: S -32768, --a: S 32767, a++; a: S -32767
++a; a: S -32767, a--; a: S 32767, --a; a: S 32767, (byte)a: B 0, (short)a: S -32768, (char)a: C 32768
(int)a: I -32768, (long)a: J -32768, short b = a; b: S -32768, int b = a; b: I -32768, long b = a; b: J -32768
# short a = 32767;
+a: I 32767, -a: I -32767, ~a: I -32768, a++: S 32767, ++a: S -32768, a--: S 32767, --a: S 32766, a++; a: S -32768
++a; a: S -32768, a--; a: S 32766, --a; a: S 32766, (byte)a: B -1, (short)a: S 32767, (char)a: C 32767
(int)a: I 32767, (long)a: J 32767, short b = a; b: S 32767, int b = a; b: I 32767, long b = a; b: J 32767
# short a = -1;
+a: I -1, -a: I 1, ~a: I 0, a++: S -1, ++a: S 0, a--: S -1, --a: S -2, a++; a: S 0, ++a; a: S 0, a--; a: S -2
--a; a: S -2, (byte)a: B -1, (short)a: S -1, (char)a: C 65535, (int)a: I -1, (long)a: J -1, short b = a; b: S -1
int b = a; b: I -1, long b = a; b: J -1
# short a = 0;
+a: I 0, -a: I 0, ~a: I -1, a++: S 0, ++a: S 1, a--: S 0, --a: S -1, a++; a: S 1, ++a; a: S 1, a--; a: S -1
--a; a: S -1, (byte)a: B 0, (short)a: S 0, (char)a: C 0, (int)a: I 0, (long)a: J 0, short b = a; b: S 0
int b = a; b: I 0, long b = a; b: J 0
# short a = 1;
+a: I 1, -a: I -1, ~a: I -2, a++: S 1, ++a: S 2, a--: S 1, --a: S 0, a++; a: S 2, ++a; a: S 2, a--; a: S 0
--a; a: S 0, (byte)a: B 1, (short)a: S 1, (char)a: C 1, (int)a: I 1, (long)a: J 1, short b = a; b: S 1
int b = a; b: I 1, long b = a; b: J 1
# short a = 9;
+a: I 9, -a: I -9, ~a: I -10, a++: S 9, ++a: S 10, a--: S 9, --a: S 8, a++; a: S 10, ++a; a: S 10, a--; a: S 8
--a; a: S 8, (byte)a: B 9, (short)a: S 9, (char)a: C 9, (int)a: I 9, (long)a: J 9, short b = a; b: S 9
int b = a; b: I 9, long b = a; b: J 9
# char a = 0;
+a: I 0, -a: I 0, ~a: I -1, a++: C 0, ++a: C 1, a--: C 0, --a: C 65535, a++; a: C 1, ++a; a: C 1, a--; a: C 65535
--a; a: C 65535, (byte)a: B 0, (short)a: S 0, (char)a: C 0, (int)a: I 0, (long)a: J 0, char b = a; b: C 0
int b = a; b: I 0, long b = a; b: J 0
# char a = 65535;
+a: I 65535, -a: I -65535, ~a: I -65536, a++: C 65535, ++a: C 0, a--: C 65535, --a: C 65534, a++; a: C 0, ++a; a: C 0
a--; a: C 65534, --a; a: C 65534, (byte)a: B -1, (short)a: S -1, (char)a: C 65535, (int)a: I 65535, (long)a: J 65535
char b = a; b: C 65535, int b = a; b: I 65535, long b = a; b: J 65535
# char a = 1;
+a: I 1, -a: I -1, ~a: I -2, a++: C 1, ++a: C 2, a--: C 1, --a: C 0, a++; a: C 2, ++a; a: C 2, a--; a: C 0
--a; a: C 0, (byte)a: B 1, (short)a: S 1, (char)a: C 1, (int)a: I 1, (long)a: J 1, char b = a; b: C 1
int b = a; b: I 1, long b = a; b: J 1
# char a = 97;
+a: I 97, -a: I -97, ~a: I -98, a++: C 97, ++a: C 98, a--: C 97, --a: C 96, a++; a: C 98, ++a; a: C 98, a--; a: C 96
--a; a: C 96, (byte)a: B 97, (short)a: S 97, (char)a: C 97, (int)a: I 97, (long)a: J 97, char b = a; b: C 97
int b = a; b: I 97, long b = a; b: J 97
# char a = 32768;
+a: I 32768, -a: I -32768, ~a: I -32769, a++: C 32768, ++a: C 32769, a--: C 32768, --a: C 32767, a++; a: C 32769
++a; a: C 32769, a--; a: C 32767, --a; a: C 32767, (byte)a: B 0, (short)a: S -32768, (char)a: C 32768
(int)a: I 32768, (long)a: J 32768, char b = a; b: C 32768, int b = a; b: I 32768, long b = a; b: J 32768
# char a = 5;
+a: I 5, -a: I -5, ~a: I -6, a++: C 5, ++a: C 6, a--: C 5, --a: C 4, a++; a: C 6, ++a; a: C 6, a--; a: C 4
--a; a: C 4, (byte)a: B 5, (short)a: S 5, (char)a: C 5, (int)a: I 5, (long)a: J 5, char b = a; b: C 5
int b = a; b: I 5, long b = a; b: J 5
# int a = -2147483648;
+a: I -2147483648, -a: I -2147483648, ~a: I 2147483647, a++: I -2147483648, ++a: I -2147483647, a--: I -2147483648
--a: I 2147483647, a++; a: I -2147483647, ++a; a: I -2147483647, a--; a: I 2147483647, --a; a: I 2147483647
(byte)a: B 0, (short)a: S 0, (char)a: C 0, (int)a: I -2147483648, (long)a: J -2147483648, int b = a; b: I -2147483648
long b = a; b: J -2147483648
# int a = 2147483647;
+a: I 2147483647, -a: I -2147483647, ~a: I -2147483648, a++: I 2147483647, ++a: I -2147483648, a--: I 2147483647
--a: I 2147483646, a++; a: I -2147483648, ++a; a: I -2147483648, a--; a: I 2147483646, --a; a: I 2147483646
(byte)a: B -1, (short)a: S -1, (char)a: C 65535, (int)a: I 2147483647, (long)a: J 2147483647
int b = a; b: I 2147483647, long b = a; b: J 2147483647
# int a = -1;
+a: I -1, -a: I 1, ~a: I 0, a++: I -1, ++a: I 0, a--: I -1, --a: I -2, a++; a: I 0, ++a; a: I 0, a--; a: I -2
--a; a: I -2, (byte)a: B -1, (short)a: S -1, (char)a: C 65535, (int)a: I -1, (long)a: J -1, int b = a; b: I -1
long b = a; b: J -1
# int a = 0;
+a: I 0, -a: I 0, ~a: I -1, a++: I 0, ++a: I 1, a--: I 0, --a: I -1, a++; a: I 1, ++a; a: I 1, a--; a: I -1
--a; a: I -1, (byte)a: B 0, (short)a: S 0, (char)a: C 0, (int)a: I 0, (long)a: J 0, int b = a; b: I 0
long b = a; b: J 0
# int a = 1;
+a: I 1, -a: I -1, ~a: I -2, a++: I 1, ++a: I 2, a--: I 1, --a: I 0, a++; a: I 2, ++a; a: I 2, a--; a: I 0
--a; a: I 0, (byte)a: B 1, (short)a: S 1, (char)a: C 1, (int)a: I 1, (long)a: J 1, int b = a; b: I 1
long b = a; b: J 1
# int a = 31;
+a: I 31, -a: I -31, ~a: I -32, a++: I 31, ++a: I 32, a--: I 31, --a: I 30, a++; a: I 32, ++a; a: I 32, a--; a: I 30
--a; a: I 30, (byte)a: B 31, (short)a: S 31, (char)a: C 31, (int)a: I 31, (long)a: J 31, int b = a; b: I 31
long b = a; b: J 31
# long a = -9223372036854775808L;
+a: J -9223372036854775808, -a: J -9223372036854775808, ~a: J 9223372036854775807, a++: J -9223372036854775808
++a: J -9223372036854775807, a--: J -9223372036854775808, --a: J 9223372036854775807, a++; a: J -9223372036854775807
++a; a: J -9223372036854775807, a--; a: J 9223372036854775807, --a; a: J 9223372036854775807, (byte)a: B 0
(short)a: S 0, (char)a: C 0, (int)a: I 0, (long)a: J -9223372036854775808, long b = a; b: J -9223372036854775808
# long a = 9223372036854775807L;
+a: J 9223372036854775807, -a: J -9223372036854775807, ~a: J -9223372036854775808, a++: J 9223372036854775807
++a: J -9223372036854775808, a--: J 9223372036854775807, --a: J 9223372036854775806, a++; a: J -9223372036854775808
++a; a: J -9223372036854775808, a--; a: J 9223372036854775806, --a; a: J 9223372036854775806, (byte)a: B -1
(short)a: S -1, (char)a: C 65535, (int)a: I -1, (long)a: J 9223372036854775807, long b = a; b: J 9223372036854775807
# long a = -1;
+a: J -1, -a: J 1, ~a: J 0, a++: J -1, ++a: J 0, a--: J -1, --a: J -2, a++; a: J 0, ++a; a: J 0, a--; a: J -2
--a; a: J -2, (byte)a: B -1, (short)a: S -1, (char)a: C 65535, (int)a: I -1, (long)a: J -1, long b = a; b: J -1
# long a = 0;
+a: J 0, -a: J 0, ~a: J -1, a++: J 0, ++a: J 1, a--: J 0, --a: J -1, a++; a: J 1, ++a; a: J 1, a--; a: J -1
--a; a: J -1, (byte)a: B 0, (short)a: S 0, (char)a: C 0, (int)a: I 0, (long)a: J 0, long b = a; b: J 0
# long a = 1;
+a: J 1, -a: J -1, ~a: J -2, a++: J 1, ++a: J 2, a--: J 1, --a: J 0, a++; a: J 2, ++a; a: J 2, a--; a: J 0
--a; a: J 0, (byte)a: B 1, (short)a: S 1, (char)a: C 1, (int)a: I 1, (long)a: J 1, long b = a; b: J 1
# long a = 63;
+a: J 63, -a: J -63, ~a: J -64, a++: J 63, ++a: J 64, a--: J 63, --a: J 62, a++; a: J 64, ++a; a: J 64, a--; a: J 62
--a; a: J 62, (byte)a: B 63, (short)a: S 63, (char)a: C 63, (int)a: I 63, (long)a: J 63, long b = a; b: J 63";

/// Truth values.
pub const BOOLEANS: &str = "# boolean a = false; boolean b = false;
a & b: false, a ^ b: false, a | b: false, a && b: false, a || b: false, a == b: true, a != b: false, a === b: true
a !== b: false, a &= b: false, a &= b; a: false, a ^= b: false, a ^= b; a: false, a |= b: false, a |= b; a: false
!a: true, !!b: false, a ? !b : b: false
# boolean a = false; boolean b = true;
a & b: false, a ^ b: true, a | b: true, a && b: false, a || b: true, a == b: false, a != b: true, a === b: false
a !== b: true, a &= b: false, a &= b; a: false, a ^= b: true, a ^= b; a: true, a |= b: true, a |= b; a: true
!a: true, !!b: true, a ? !b : b: true
# boolean a = true; boolean b = false;
a & b: false, a ^ b: true, a | b: true, a && b: false, a || b: true, a == b: false, a != b: true, a === b: false
a !== b: true, a &= b: false, a &= b; a: false, a ^= b: true, a ^= b; a: true, a |= b: true, a |= b; a: true
!a: false, !!b: false, a ? !b : b: true
# boolean a = true; boolean b = true;
a & b: true, a ^ b: false, a | b: true, a && b: true, a || b: true, a == b: true, a != b: false, a === b: true
a !== b: false, a &= b: true, a &= b; a: true, a ^= b: false, a ^= b; a: false, a |= b: true, a |= b; a: true
!a: false, !!b: true, a ? !b : b: false";
