//! Arrays: `END: SCRIPT`.

use script_rows::Bounds;

/// How arrays are made, and what is in them.
pub const MADE: &str = "T [0, 0, 0]: '' + new int[3]
T [[0, 0], [0, 0]]: '' + new int[2][2]
T [1, 2]: '' + new int[] {1, 2}
T []: '' + new int[] {}
T []: '' + new int[0]
T [null, null]: '' + new String[2]
T [false]: '' + new boolean[1]
T [null]: '' + new Integer[1]
T [null]: '' + new def[1]
T [[null]]: '' + new def[1][1]
B 0: byte[] a = new byte[1]; a[0]
S 0: short[] a = new short[1]; a[0]
C 0: char[] a = new char[1]; a[0]
I 0: int[] a = new int[1]; a[0]
J 0: long[] a = new long[1]; a[0]
false: boolean[] a = new boolean[1]; a[0]
null: Long[] a = new Long[1]; a[0]
another value: new int[1]
I 3: int[][] x = new int[2][3]; x[1].length
I 4: int[][][] x = new int[2][3][4]; x[1][2].length
T [[[], []]]: '' + new int[1][2][0]
I 0: int[][] x = new int[0][5]; x.length
T [1, 2]: '' + new long[] {1, 2L}
J 2: long[] a = new long[] {1, 2}; a[1]
B -1: byte[] a = new byte[] {1, -1}; a[1]
C 97: char[] a = new char[] {97, (char)'b'}; a[0]
T [1, a, [2]]: '' + new def[] {1, 'a', [2]}
I 5: Integer[] a = new Integer[] {5}; a[0]
J 5: Long[] a = new Long[] {5}; a[0]
T x: Object[] a = new Object[] {1, 'x'}; a[1]
I 1: def d = 1; int[] a = new int[] {d}; a[0]
thrown ClassCastException Cannot cast from [Long] to [int]: def d = 1L; new int[] {2, d}
T [1, 2] 2: int i = 0; int[] a = new int[] {++i, ++i}; '' + a + ' ' + i
thrown ArithmeticException / by zero: new int[] {1, 1 / 0, (int)'a'.charAt(9)}
thrown NegativeArraySizeException -1: new int[-1]
thrown NegativeArraySizeException -1: new int[0][-1]
thrown NegativeArraySizeException -2: new int[-2][-1]
thrown NegativeArraySizeException -2147483648: new def[-2147483648]
thrown ArithmeticException / by zero: new int[-1][1 / 0]
I 2: byte n = 2; new int[n].length
I 97: new int[(char)97].length
I 2: Integer n = 2; new int[n].length
I 2: def n = 2; new int[n].length
thrown ClassCastException Cannot cast from [Long] to [int]: def n = 2L; new int[n]
thrown NullPointerException: Integer n = null; new int[n]
T b: String[] a = 'a,b'.splitOnToken(','); a[1]
I 3: 'a,b,c'.splitOnToken(',').length
C 98: char[] a = 'ab'.toCharArray(); a[1]
I 2: def[] a = [1, 2].toArray(); a[1]
I 6: int total(int[] a) { int s = 0; for (int i = 0; i < a.length; i++) { s += a[i] } return s } total(new int[] {1, 2, 3})
T [0, 1, 4]: int[] squares(int n) { int[] a = new int[n]; for (int i = 0; i < n; i++) { a[i] = i * i } return a } '' + squares(3)
null: int[] a; a
I 1: int[] a; (a ?: new int[1]).length
refused by 9 at 9: new int[1L]
refused by 9 at 15: new int[] {1, 2L}
refused by 9 at 13: new Byte[] {1}
refused by 9 at 11: int[] a = new long[1]
refused by 9 at 14: Object[] a = new String[1]
refused by 9 at 41: Object o = new int[1]; int[] a = (int[])o
refused by 6 at 5: new foo[1]";

/// Elements that are read; an index below 0 counts from the end.
pub const READ: &str = "I 1: int[] a = new int[] {1, 2, 3}; a[0]
I 3: int[] a = new int[] {1, 2, 3}; a[2]
I 3: int[] a = new int[] {1, 2, 3}; a[-1]
I 1: int[] a = new int[] {1, 2, 3}; a[-3]
thrown ArrayIndexOutOfBoundsException Index -1 out of bounds for length 3: int[] a = new int[] {1, 2, 3}; a[-4]
thrown ArrayIndexOutOfBoundsException Index 3 out of bounds for length 3: int[] a = new int[] {1, 2, 3}; a[3]
thrown ArrayIndexOutOfBoundsException Index -2147483645 out of bounds for length 3: int[] a = new int[] {1, 2, 3}; a[-2147483648]
thrown ArrayIndexOutOfBoundsException Index 2147483647 out of bounds for length 3: int[] a = new int[] {1, 2, 3}; a[2147483647]
thrown ArrayIndexOutOfBoundsException Index 0 out of bounds for length 0: int[] a = new int[0]; a[0]
thrown ArrayIndexOutOfBoundsException Index -1 out of bounds for length 0: int[] a = new int[0]; a[-1]
thrown NullPointerException: int[] a; a[0]
thrown NullPointerException: int[] a; a.length
thrown NullPointerException: String[][] a = new String[1][1]; a[0] = null; a[0][0]
thrown ArithmeticException / by zero: int[] a; a[1 / 0]
I 5: int[] a = new int[] {4, 5}; byte i = 1; a[i]
I 5: int[] a = new int[] {4, 5}; Short i = (short)1; a[i]
I 5: int[] a = new int[] {4, 5}; def i = (char)1; a[i]
thrown ClassCastException Cannot cast from [Long] to [int]: int[] a = new int[] {4, 5}; def i = 1L; a[i]
thrown NullPointerException: int[] a = new int[] {4, 5}; Integer i = null; a[i]
I 3, 0 ticks: int[] a = new int[] {1, 2}; a[0] + a[1]
I 2, 0 ticks: new int[] {1, 2}.length
I 6: int[][] a = new int[2][2]; a[1][0] = 6; a[-1][-2]
T b: String[] a = new String[] {'a', 'b'}; a[1].trim()
T c: new String[] {'a', 'b', 'c'}[2]
I 2: (new int[] {1, 2})[1]
I 1: Map[] a = new Map[] {['x': 1]}; a[0].x
I 4: List[] a = new List[] {[3, 4]}; a[0][1]
refused by 9 at 25: int[] a = new int[1]; a[1L]
refused by 9 at 25: int[] a = new int[1]; a['0']
refused by 7 at 25: int[] a = new int[1]; a.size()
refused by 7 at 25: int[] a = new int[1]; a.foo
refused by 17 at 26: int[] a = new int[1]; a?.length
refused by 7 at 9: int a; a[0]
refused by 7 at 6: 'abc'[0]
refused by 7 at 9: Set s; s[0]
refused by 7 at 16: Collection s; s[0]";

/// Elements that are written, and arrays with more than one name.
pub const WRITTEN: &str = "I 9: int[] a = new int[2]; a[1] = 9; a[1]
T [0, 9]: int[] a = new int[2]; a[-1] = 9; '' + a
J 5: long[] a = new long[1]; a[0] = 5
I 5: byte[] a = new byte[1]; int x = a[0] = 5; x
B -56: byte[] a = new byte[1]; a[0] = (byte)200; a[0]
T a: Object[] a = new Object[1]; a[0] = 'a'; a[0]
I 5: def[] a = new def[1]; a[0] = 5
I 5: int[] a = new int[1]; def d = 5; a[0] = d; a[0]
thrown ClassCastException Cannot cast from [String] to [int]: int[] a = new int[1]; def d = 'x'; a[0] = d
T [1, 9]: int[] a = new int[] {1, 2}; int[] b = a; b[1] = 9; '' + a
I 5: int[][] x = new int[2][1]; x[1] = x[0]; x[0][0] = 5; x[1][0]
I 0: int[][] x = new int[2][1]; x[0][0] = 5; x[1][0]
I 1: int[][] x = new int[2][3]; x[0] = new int[] {7}; x[0].length
T [7]: void f(int[] a) { a[0] = 7 } int[] a = new int[1]; f(a); '' + a
T [3, 2, 1]: int[] a = new int[] {1, 2, 3}; int t = a[0]; a[0] = a[2]; a[2] = t; '' + a
thrown ArrayIndexOutOfBoundsException Index 1 out of bounds for length 1: int[] a = new int[1]; a[1] = 1
thrown ArrayIndexOutOfBoundsException Index -1 out of bounds for length 1: int[] a = new int[1]; a[-2] = 1
thrown NullPointerException: int[] a; a[0] = 1
thrown ArithmeticException / by zero: int[] a; a[0] = 1 / 0
thrown ArithmeticException / by zero: int[] a = new int[1]; a[5] = 1 / 0
I 1: int[] a = new int[1]; int i = 0; try { a[5] = ++i } catch (ArrayIndexOutOfBoundsException e) { } i
T [0]: int[] a = new int[1]; try { a[0] = 1 / 0 } catch (Exception e) { } '' + a
true: def[] a = new def[1]; a[0] = a; a == a
thrown IllegalStateException value nested too deeply: def[] a = new def[1]; a[0] = a; '' + a
refused by 9 at 30: int[] a = new int[1]; a[0] = 1L
refused by 9 at 32: byte[] a = new byte[1]; a[0] = 200
refused by 15 at 32: int[] a = new int[1]; a.length = 1
refused by 15 at 23: int[] a = new int[1]; a.length++";

/// Casts, classes, equality and identity of arrays.
pub const RELATED: &str =
    "true: Object o = new int[1]; o instanceof int[] && o instanceof Object && !(o instanceof long[]) && !(o instanceof List)
true: Object o = new String[1]; o instanceof String[] && !(o instanceof Object[]) && !(o instanceof def[])
true: Object o = new int[1][1]; o instanceof int[][] && !(o instanceof int[])
I 1: def d = new int[1]; int[] a = d; a.length
thrown ClassCastException Cannot cast from [int[]] to [long[]]: def d = new int[1]; long[] a = d; a
thrown ClassCastException Cannot cast from [ArrayList] to [int[]]: def d = [1]; int[] a = d; a
thrown ClassCastException Cannot cast from [String[]] to [List]: def d = new String[1]; List l = d; l
null: def d = null; int[] a = d; a
true: new int[] {1, 2} == new int[] {1, 2}
false: new int[] {1, 2} == new int[] {2, 1}
false: new int[] {1} == new long[] {1}
true: new int[0] == new long[0]
true: new int[] {1} == new def[] {1}
false: new int[] {1} != new Integer[] {1}
true: new int[1][2] == new int[1][2]
false: new int[1] === new int[1]
true: int[] a = new int[1]; int[] b = a; a === b && a !== new int[1]
false: new int[1] === [0]
true: int[] a; a === null && a == null
false: new int[1] == null
T a: try { int x = new int[] {1}[1]; } catch (IndexOutOfBoundsException e) { return 'a' } return 'b'
refused by 10 at 12: new int[1] === 'a'
refused by 10 at 12: new int[1] + 1
refused by 9 at 29: def f(int a) { return a } f(new int[1])";

/// An array weighs 1 and 1 an element, and those that it holds weigh as much each.
pub const BOUNDED: (Bounds, &str) = (
    Bounds {
        loops: 1000,
        depth: 10,
        ticks: 1000,
        room: 9,
    },
    "I 2, 0 ticks: int[][] x = new int[2][2]; x.length
limit room: new int[2][3]
limit room: new int[4][1]
I 8: new int[8].length
limit room: new int[9]
I 8: new int[] {1, 2, 3, 4, 5, 6, 7, 8}.length
limit room: new int[] {1, 2, 3, 4, 5, 6, 7, 8, 9}
I 0: int[][] x = new int[0][1000000000]; x.length
limit room: new int[1000000000]
limit room: new int[1000000000][1000000000]
limit room: new int[2147483647][2147483647][2147483647]
I 4: int[] a = new int[4]; int[] b = new int[3]; a[0] = 1; a[0]++; b[1] = a[0]; a.length
thrown NegativeArraySizeException -1234567: new int[-1234567]
limit room: new int[-12345678]
limit room: int[] a = new int[] {}; a[0]",
);
