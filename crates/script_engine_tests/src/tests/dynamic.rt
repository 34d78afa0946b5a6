//! Values of type `def`: operators, calls and accesses that are found when the script runs. `END: SCRIPT`.

/// Operators, and assignments with a `def` on a side.
pub const OPERATORS: &str = "J 3: def x = 1; def y = 2L; x + y
thrown ClassCastException Cannot cast from [Long] to [int]: def x = 1; def y = 2L; int z = x + y; z
thrown ClassCastException Cannot apply [+] to [Integer] and [Boolean]: def x = 1; x + true
thrown ClassCastException Cannot apply [+] to [Boolean] and [Integer]: def x = 1; true + x
I 3: def x = 1; x + 2
I 3: def x = 1; 2 + x
I 3: def x = 1; Integer y = 2; x + y
T a1: def x = 1; 'a' + x
T 1a: def x = 1; x + 'a'
T x[1]: def x = 'x'; x + [1]
T [1]x: def x = 'x'; [1] + x
thrown ClassCastException Cannot apply [+] to [ArrayList] and [ArrayList]: def x = [1]; x + [2]
thrown ClassCastException Cannot apply [-] to [HashMap] and [Integer]: def x = [:]; x - 1
thrown ClassCastException Cannot apply [*] to [int[]] and [Integer]: def x = new int[1]; x * 2
thrown ClassCastException Cannot apply [/] to [Integer] and [StringBuilder]: def x = new StringBuilder('a'); 1 / x
thrown ClassCastException Cannot apply [<] to [String] and [String]: def x = 'a'; x < 'b'
thrown ClassCastException Cannot apply [>>>] to [Integer] and [String]: def x = 1; x >>> 'b'
thrown ClassCastException Cannot apply [-] to [int[][]]: def x = new int[1][1]; -x
thrown ArithmeticException / by zero: def x = 1; x / 0
thrown ArithmeticException / by zero: def x = 1L; def y = (byte)0; x % y
thrown NullPointerException: def x = null; x + 1
thrown NullPointerException: def x = null; true & x
thrown NullPointerException: def x = null; [1] < x
T nulla: def x = null; x + 'a'
T xnull: def x = 'x'; def y = null; x + y
I -2147483648: def x = 2147483647; x + 1
J -9223372036854775808: def x = 9223372036854775807L; x + 1
I -2147483648: def x = -2147483648; x / -1
I 0: def x = -2147483648; x % -1
I 10: def i = 5; i <<= 33L; i
I 10: def i = 5; int j = i <<= 33L; j
J 10: def i = 5L; i <<= 65; i
T a11: def s = 'a'; s += 1; s++; s
I 2: def b = (byte)1; b++; b
B 1: def b = (byte)1; b++
I 12: def i = 5; i = i++ + ++i; i
I 11: def i = 5; i += ++i; i
I 3: int i = 1; def d = 2L; i += d; i
B 45: byte b = 1; def d = 300; b += d; b
J 3: long l = 1; def d = 2; l += d
C 98: char c = 97; def d = 1; c += d
I 6: Integer i = 5; def d = 1; i += d
T a1: String s = 'a'; def d = 1; s += d
T a1: def s = 'a'; String t = s += 1; t
I 3: Object o = 1; def d = 2; o += d
false: boolean b = true; def d = false; b &= d
I 8: int i = 2; def d = 2L; i <<= d; i
thrown ClassCastException Cannot cast from [String] to [int]: int i = 1; def d = 'x'; i += d
thrown ClassCastException Cannot apply [+] to [Boolean] and [Integer]: boolean b = true; def d = 1; b += d
thrown ClassCastException Cannot apply [-] to [String] and [Integer]: String s = 'a'; def d = 1; s -= d
thrown NullPointerException: Integer i = null; def d = 1; i += d
I 1: int i = 1; def d = 'x'; try { i += d } catch (Exception e) { } i
true: def x = 1; x == 1L && x == (byte)1 && 1 == x && x != 2
true: def x = (char)97; x == 97 && x != 'a'
false: def x = true; x == 1
true: def x = [1]; x == [1] && x != [1L] && x != new int[] {1}
true: def x = null; x == null && x === null
false: def x = 1; x === null
true: def l = []; l.add(l); l == l
thrown IllegalStateException value nested too deeply: def a = []; a.add(a); def b = []; b.add(b); a == b
thrown IllegalStateException value nested too deeply: def a = []; a.add(a); def b = []; b.add(b); a != b
I 1: def c = true; c ? 1 : 2
J 1: def c = 1 < 2; def d = c ? 1L : 'x'; d
thrown NullPointerException: def c = null; c ? 1 : 2
false: def x = false; x && 1 / 0 == 0
true: def x = true; x || 1 / 0 == 0
false: def x = false; def y = 1; x && y
thrown ClassCastException Cannot cast from [Integer] to [boolean]: def x = true; def y = 1; x && y
thrown ClassCastException Cannot cast from [String] to [boolean]: def x = 'true'; if (x) { return 1 } return 2
thrown NullPointerException: def x = null; while (x) { }
I 3: def i = 0; while (i < 3) { i++ } i
I 6: def s = 0; for (def i = 1; i <= 3; ++i) { s += i } s
T yes: def d = 'yes'; d ?: 'no'
T no: def d = null; d ?: 'no'
I 120: def fact(def n) { return n <= 1 ? 1 : n * fact(n - 1) } fact(5)
T abab: def twice(def x) { return x + x } twice('ab')
thrown ArithmeticException / by zero: def x = true; x + 1 / 0
refused by 10 at 14: def x = 1; x === x
refused by 10 at 27: void f() { } def x = 1; x + f()
refused by 9 at 26: def x = 1; List l = [1]; l ? x : 2";

/// Calls of members.
pub const CALLS: &str = "I 2: def a = [1]; def b = a; b.add(2); a.size()
I 3: def x = 'abc'; x.length()
T bc: def x = 'abc'; x.substring(1)
T b: def x = 'abc'; x.substring(1, 2)
T A: def x = 'a'; x.toUpperCase().trim()
thrown IllegalArgumentException dynamic method [java.lang.String, nope/1] not found: def x = 'a'; x.nope(1)
thrown IllegalArgumentException dynamic method [java.util.ArrayList, add/3] not found: def x = [1]; x.add(1, 2, 3)
thrown IllegalArgumentException dynamic method [int[], size/0] not found: def x = new int[1]; x.size()
thrown IllegalArgumentException dynamic method [String[][], size/0] not found: def x = new String[1][1]; x.size()
thrown IllegalArgumentException dynamic method [java.util.Map$Entry, size/0] not found: def x = ['a': 1].entrySet().iterator().next(); x.size()
thrown IllegalArgumentException dynamic method [java.lang.Integer, toString/1] not found: def x = 5; x.toString(7)
thrown IllegalArgumentException dynamic method [java.lang.Integer, MAX_VALUE/0] not found: def x = 5; x.MAX_VALUE()
thrown IllegalArgumentException dynamic method [java.util.Collection, add/2] not found: def x = [:].values(); x.add(1, 2)
thrown IllegalArgumentException dynamic method [java.util.Set, get/1] not found: def x = [:].keySet(); x.get(1)
thrown IllegalArgumentException dynamic method [java.lang.Boolean, not/0] not found: def x = true; x.not()
T 5: def x = 5; x.toString()
true: def x = 5; x.equals(5)
I -1: def x = 5; x.compareTo(6)
C 98: def x = 'abc'; x.charAt((byte)1)
C 98: def x = 'abc'; x.charAt((char)1)
thrown ClassCastException Cannot cast from [Long] to [int]: def x = 'abc'; x.charAt(1L)
thrown ClassCastException Cannot cast from [String] to [int]: def x = 'abc'; x.charAt('1')
thrown ClassCastException Cannot cast from [Integer] to [String]: def x = 'abc'; x.concat(1)
thrown ClassCastException Cannot cast from [ArrayList] to [CharSequence]: def x = 'abc'; x.contains([1])
thrown ClassCastException Cannot cast from [HashMap] to [Collection]: def x = [1]; x.addAll([:])
thrown ClassCastException Cannot cast from [Boolean] to [int], 0 ticks: def x = 'abc'; x.substring(true, 'x')
thrown ClassCastException Cannot cast from [String] to [int], 0 ticks: def x = 'abc'; x.substring(1, 'x')
thrown NullPointerException, 0 ticks: def x = 'abc'; x.charAt(null)
thrown NullPointerException, 1 ticks: def x = 'abc'; x.concat(null)
thrown NullPointerException, 0 ticks: def x = null; x.nope(1)
thrown ArithmeticException / by zero: def x = null; x.nope(1 / 0)
thrown ArithmeticException / by zero: def x = 'a'; x.nope(1 / 0)
thrown IllegalArgumentException dynamic method [java.lang.String, nope/1] not found, 0 ticks: def x = 'a'; x.nope(1)
thrown StringIndexOutOfBoundsException Index 5 out of bounds for length 3, 1 ticks: def x = 'abc'; x.charAt(5)
null, 1 ticks: def x = [1]; x.clear()
I 3, 1 ticks: def x = 'abc'; x.length()
T [6, 7]: def l = [5, 6, 7]; l.remove(0); '' + l
true: def c = new HashSet([5]); c.remove(5)
thrown ClassCastException Cannot cast from [String] to [int]: def l = ['a']; l.remove('a')
thrown IndexOutOfBoundsException Index 5 out of bounds for length 1: def l = [5]; l.remove(5)
true: def m = ['a': 1]; m.remove('a', 1)
I 0: def l = ['a', 'b', 'a']; l.indexOf('a')
I 1: def s = 'abab'; s.indexOf('b')
I 3: def s = 'abab'; s.indexOf('b', 2)
I -1: def l = ['a']; l.indexOf(1)
T [1, 5]: def l = [5]; l.add(0, 1); '' + l
T ab1: def b = new StringBuilder('a'); b.append('b').append(1).toString()
T b: def x = 'a,b'; x.splitOnToken(',')[1]
I 2: def x = 'ab'; x.toCharArray().length
T 1: def e = ['a': 1].entrySet().iterator().next(); '' + e.getValue()
I 1: def it = [1].iterator(); it.hasNext() ? it.next() : 0
T x: def e = new Exception('x'); e.getMessage()
B 5: def n = 5L; n.byteValue()
I 2: int f(def x) { return x.size() } f([1, 2])
I 4: def f(def x) { return x } f([1, 2]).size() * 2
I 1: def x = [1, 2]; int n = x.indexOf(2); n
thrown ClassCastException Cannot cast from [Integer] to [String]: def x = [1, 2]; String s = x.indexOf(2); s
I 2: int t(List o, int v) { o.add(v); return v } List o = []; def x = 'abc'; try { x.nope(t(o, 1), t(o, 2), 1 / 0) } catch (ArithmeticException e) { } o.size()
I 2: int t(List o, int v) { o.add(v); return v } List o = []; def x = 'abc'; try { x.nope(t(o, 1), t(o, 2)) } catch (IllegalArgumentException e) { } o.size()
I 2: int t(List o, int v) { o.add(v); return v } List o = []; def x; try { x.nope(t(o, 1), t(o, 2)) } catch (NullPointerException e) { } o.size()
I 2: int t(List o, int v) { o.add(v); return v } List o = []; def x = 'abc'; try { x.concat(t(o, 1) + t(o, 2)) } catch (ClassCastException e) { } o.size()
null, 0 ticks: def d = null; d?.length()
I 3: def d = 'abc'; d?.length()
null: def d = null; d?.f(1 / 0)
T none: def d = null; d?.f(1 / 0) ?: 'none'
thrown IllegalArgumentException dynamic method [java.lang.String, f/0] not found: def d = 'a'; d?.f()
refused by 19 at 16: def l = [1]; l.each(null)
refused by 19 at 16: def l = [1]; l.sort(null)
refused by 19 at 14: def l = 1; l.compute(1, 2)
refused by 4 at 19: def l = 1; l.each(y)
refused by 9 at 32: void f() { } def l = 1; l.size(f())";

/// Names behind a dot.
pub const ACCESSES: &str = "I 2: def m = ['k': [1, 2]]; m.k[-1]
I 1, 1 ticks: def m = ['a': 1]; m.a
null: def m = ['a': 1]; m.size
null: def m = ['a': 1]; m.keySet
T {a=2}: def m = ['a': 1]; m.a = 2; '' + m
I 2, 1 ticks: def m = [:]; m.a = 2
J 3, 2 ticks: def m = ['a': 1]; m.a += 2L
I 1: def m = ['a': 1]; m.a++
T {1=x}: def m = [:]; m.1 = 'x'; '' + m
I 7: def m = [:]; m.x = 1; m.x <<= 3; m['x']--; m.x
thrown NullPointerException: def m = [:]; m.n++
thrown NullPointerException: def m = [:]; m.n.o
T {a={b=1}}: def m = ['a': [:]]; m.a.b = 1; '' + m
I 1, 1 ticks: def l = [1, 2]; l.0
T [1, 9]: def l = [1, 2]; l.1 = 9; '' + l
T [1, 3]: def l = [1, 2]; l.1++; '' + l
thrown IndexOutOfBoundsException Index 2 out of bounds for length 2: def l = [1, 2]; l.2
thrown IndexOutOfBoundsException Index 2 out of bounds for length 2: def l = [1, 2]; l.2 = 5
thrown IndexOutOfBoundsException Index 2147483648 out of bounds for length 2: def l = [1, 2]; l.2147483648
thrown IndexOutOfBoundsException Index 99999999999999999999 out of bounds for length 2: def l = [1, 2]; l.99999999999999999999 = 1
I 2, 1 ticks: def l = [1, 2]; l.length
false: def l = [1, 2]; l.empty
thrown IllegalArgumentException dynamic getter [java.util.ArrayList, foo] not found, 0 ticks: def l = [1]; l.foo
thrown IllegalArgumentException dynamic setter [java.util.ArrayList, foo] not found: def l = [1]; l.foo = 1
thrown IllegalArgumentException dynamic setter [java.util.ArrayList, length] not found: def l = [1]; l.length = 1
I 2, 0 ticks: def a = new int[] {1, 2}; a.length
thrown IllegalArgumentException dynamic getter [int[], foo] not found: def a = new int[1]; a.foo
thrown IllegalArgumentException dynamic getter [int[], 0] not found: def a = new int[1]; a.0
thrown IllegalArgumentException dynamic setter [int[], length] not found: def a = new int[1]; a.length = 1
thrown IllegalArgumentException dynamic setter [int[][], 0] not found: def a = new int[1][1]; a.0 = 1
thrown IllegalArgumentException dynamic getter [java.lang.String, length] not found: def s = 'ab'; s.length
true: def s = ''; s.empty
thrown IllegalArgumentException dynamic getter [java.lang.Integer, MAX_VALUE] not found: def d = 5; d.MAX_VALUE
thrown IllegalArgumentException dynamic getter [java.lang.String, 0] not found: def s = 'ab'; s.0
thrown IllegalArgumentException dynamic getter [java.util.HashSet, 0] not found: def s = new HashSet(); s.0
T x: def e = new Exception('x'); e.message
thrown IllegalArgumentException dynamic setter [java.lang.Exception, message] not found: def e = new Exception('x'); e.message = 'y'
T a5: def e = ['a': 1].entrySet().iterator().next(); e.value = 5; e.key + e.value
T a6: def e = ['a': 1].entrySet().iterator().next(); e.value += 4; e.value++; '' + e.key + e.value
thrown IllegalArgumentException dynamic setter [java.util.Map$Entry, key] not found: def e = ['a': 1].entrySet().iterator().next(); e.key = 'b'
T ab: def b = new StringBuilder('abc'); b.length = 2; b.toString()
I 2: def b = new StringBuilder('abc'); b.length = 2
B 2: def b = new StringBuilder('abc'); b.length = (byte)2
thrown ClassCastException Cannot cast from [Long] to [int]: def b = new StringBuilder('abc'); b.length = 1L
thrown NullPointerException: def b = new StringBuilder('abc'); b.length = null
thrown IllegalArgumentException dynamic getter [java.lang.StringBuilder, length] not found: def b = new StringBuilder('abc'); b.length += 1
thrown NullPointerException, 0 ticks: def d = null; d.a
thrown NullPointerException, 0 ticks: def d = null; d.a = 1
thrown ArithmeticException / by zero: def d = null; d.a = 1 / 0
thrown ArithmeticException / by zero: def d = 5; d.a = 1 / 0
thrown NullPointerException: def d = null; d.a += 1 / 0
null: def d = null; d?.a
thrown NullPointerException: def d = null; d?.a.b
I 1: def d = ['a': 1]; d?.a
refused by 15 at 20: def d = null; d?.a = 1";

/// Indexes in brackets.
pub const INDEXES: &str = "I 2, 1 ticks: def l = [1, 2]; l[-1]
I 2: def l = [1, 2]; l[(byte)1]
I 2: def l = [1, 2]; l[(char)1]
I 2: def l = [1, 2]; def i = 1; l[i]
thrown ClassCastException Cannot cast from [Long] to [int]: def l = [1, 2]; l[1L]
thrown ClassCastException Cannot cast from [String] to [int]: def l = [1, 2]; l['1']
thrown NullPointerException: def l = [1, 2]; l[null]
thrown IndexOutOfBoundsException Index -1 out of bounds for length 2: def l = [1, 2]; l[-3]
thrown IndexOutOfBoundsException Index 2 out of bounds for length 2: def l = [1, 2]; l[2]
T [1, 9]: def l = [1, 2]; l[-1] = 9; '' + l
I 9, 1 ticks: def l = [1, 2]; l[0] = 9
thrown IndexOutOfBoundsException Index 2 out of bounds for length 2: def l = [1, 2]; l[2] = 9
thrown ClassCastException Cannot cast from [Long] to [int]: def l = [1, 2]; l[1L] = 9
I 3, 2 ticks: def l = [1, 2]; l[0] += 2
T [2, 2]: def l = [1, 2]; l[0]++; '' + l
I 1: def m = ['a': 1]; m['a']
null: def m = [1: 2]; m[1L]
I 2: def m = [1: 2]; m[1]
T {a=1, 1=2}: def m = ['a': 1]; m[1] = 2; '' + m
thrown IllegalArgumentException key must be a simple value: def m = [:]; m[[1]]
I 3, 0 ticks: def a = new int[] {1, 2}; a[0] + a[-1]
thrown ArrayIndexOutOfBoundsException Index 2 out of bounds for length 2: def a = new int[2]; a[2]
thrown ArrayIndexOutOfBoundsException Index -1 out of bounds for length 2: def a = new int[2]; a[-3]
thrown ClassCastException Cannot cast from [Long] to [int]: def a = new int[2]; a[1L]
thrown NullPointerException: def a = new int[2]; a[null]
I 5: def a = new int[1]; a[0] = (byte)5; a[0]
B 5: def a = new int[1]; a[0] = (byte)5
J 5: def a = new long[1]; a[0] = 5; a[0]
I 5: def a = new long[1]; a[0] = 5
I 65: def a = new int[1]; a[0] = (char)65; a[0]
thrown ClassCastException Cannot cast from [String] to [int]: def a = new int[1]; a[0] = 'x'
thrown ClassCastException Cannot cast from [Long] to [int]: def a = new int[1]; a[0] = 5L
thrown ClassCastException Cannot cast from [Boolean] to [int]: def a = new int[1]; a[0] = true
thrown ClassCastException Cannot cast from [Integer] to [byte]: def a = new byte[1]; a[0] = 5
thrown ClassCastException Cannot cast from [Integer] to [char]: def a = new char[1]; a[0] = 5
thrown ClassCastException Cannot cast from [Integer] to [boolean]: def a = new boolean[1]; a[0] = 1
thrown ClassCastException Cannot cast from [Integer] to [String]: def a = new String[1]; a[0] = 1
thrown ClassCastException Cannot cast from [ArrayList] to [int[]]: def a = new int[1][1]; a[0] = [1]
thrown ClassCastException Cannot cast from [String] to [int]: def a = new int[1]; a[7] = 'x'
thrown NullPointerException: def a = new int[1]; a[7] = null
thrown ClassCastException Cannot cast from [Boolean] to [int]: def a = new long[1]; a[true] = 'x'
thrown ArrayIndexOutOfBoundsException Index 7 out of bounds for length 1: def a = new int[1]; a[7] = 5
null: def a = new String[1]; a[0] = null; a[0]
T x: def a = new Object[1]; a[0] = 'x'; a[0]
I 3: def a = new int[] {1}; a[0] += 2; a[0]
thrown ClassCastException Cannot cast from [Long] to [int]: def a = new int[] {1}; a[0] += 2L
thrown ClassCastException Cannot cast from [Integer] to [byte]: def a = new byte[] {1}; a[0]++
I 2: def a = new int[] {1}; a[0]++; a[0]
I 4: def a = new int[2][2]; a[1][1] = 4; a[-1][-1]
I 7: def l = [[1], ['k': 7]]; l[1]['k']
thrown IllegalArgumentException not a list, map or array: def d = 'ab'; d[0]
thrown IllegalArgumentException not a list, map or array: def d = new HashSet([1]); d[0]
thrown IllegalArgumentException not a list, map or array: def d = 5; d[0]
thrown IllegalArgumentException not a list, map or array: def d = 5; d['x'] = 1
thrown IllegalArgumentException not a list, map or array: def d = [1].iterator(); d[1L]
thrown NullPointerException: def d = null; d[0]
thrown NullPointerException: def d = null; d[0] = 1
thrown ArithmeticException / by zero: def d = null; d[1 / 0]
thrown ArithmeticException / by zero: def d = null; d[0] = 1 / 0
thrown UnsupportedOperationException: def d = Collections.emptyList(); d[0] = 1
T [1, 3]: def l = [1, 2]; int i = 0; l[++i] += 1; '' + l
thrown IllegalStateException value nested too deeply: def l = [1]; for (int i = 0; i < 99; i++) { l = [l] } '' + [l]";

/// The members that a run reaches, by their numbers in the catalogue, in the order in which they first pay. Literals, operators, loops over elements and elements of arrays reach none.
pub const REACHED: &str = "I 2, reached 97 106: def a = [1]; a.add(2); a.size()
true, reached 106 97: def a = [1]; a.size(); a.add(2); a.size(); a.add(3)
I 6, reached: int s = 0; for (int x : [1, 2, 3]) { s += x } s
true, reached: Map m = ['a': [1]]; m == ['a': [1]]
T [1]x, reached: def l = [1]; l + 'x'
I 1, reached: def a = new int[] {1}; a[0] + a.length - 1
I 1, reached 115: List l = [1]; l[0]
I 1, reached 115: def l = [1]; l.0
I 2, reached 115 121: def l = [1]; l[0] += 1
I 1, reached 133: Map m = ['a': 1]; m.a
I 2, reached 137: Map m = [:]; m.a = 2
I 2, reached 133 137: def m = ['a': 1]; ++m.a
I 1, reached 116: def l = [1]; l.length
I 1, reached 4: def f(def x) { return x.length() } f('a'); f('b')
thrown StringIndexOutOfBoundsException Index 5 out of bounds for length 1, reached 3: def x = 'a'; x.charAt(5)
thrown ClassCastException Cannot cast from [Long] to [int], reached: def x = 'a'; x.charAt(5L)
thrown NullPointerException, reached: def x = null; x.charAt(5)
thrown IllegalArgumentException dynamic method [java.lang.String, size/0] not found, reached: def x = 'a'; x.size()
I 1, reached 106: def l = [1]; if (l == null) { l.clear() } l.size()
null, reached: def l = null; l?.size()
null, reached: Map m; m?.a";
