//! Places that are read, written and changed: elements of arrays, items of lists, keys of maps and properties. `END: SCRIPT`.

/// Items of lists, by brackets and by places behind a dot.
pub const ITEMS: &str = "T [9, 4]: List a = [3, 4]; a[0] = 9; '' + a
I 3, 1 ticks: List l = [3]; l[0]
I 5, 1 ticks: List l = [3]; l[0] = 5
I 3, 2 ticks: ArrayList l = [2]; l[0] += 1
I 2, 2 ticks: List l = [2]; l[0]++
I 4: List l = [3, 4]; l[-1]
I 3: List l = [3, 4]; l[-2]
thrown IndexOutOfBoundsException Index -1 out of bounds for length 2: List l = [3, 4]; l[-3]
thrown IndexOutOfBoundsException Index 2 out of bounds for length 2: List l = [3, 4]; l[2]
thrown IndexOutOfBoundsException Index -1 out of bounds for length 2: List l = [3, 4]; l.get(-1)
thrown IndexOutOfBoundsException Index -1 out of bounds for length 2: List l = [3, 4]; l.set(-1, 5)
thrown IndexOutOfBoundsException Index -2147483646 out of bounds for length 2: List l = [3, 4]; l[-2147483648]
T [3, 9]: List l = [3, 4]; l[-1] = 9; '' + l
thrown IndexOutOfBoundsException Index 1 out of bounds for length 1: List l = [3]; l[1] = 9
thrown NullPointerException, 0 ticks: List l; l[0]
thrown ArithmeticException / by zero: List l; l[0] = 1 / 0
thrown NullPointerException, 0 ticks: List l; l[0] = 1
thrown UnsupportedOperationException: List l = Collections.singletonList(1); l[0] = 2
I 5: List l = [[4, 5]]; l[0][1]
T [[4, 9]]: List l = [[4, 5]]; l[0][1] = 9; '' + l
J 3: List l = [1]; l[0] += 2L; l[0]
I 2: List l = [(byte)1]; l[0]++; l[0]
B 1: List l = [(byte)1]; l[0]++
I 98: List l = [(char)97]; ++l[0]
T a1: List l = ['a']; l[0] += 1
T a1: List l = ['a']; l[0]++; l[0]
thrown ClassCastException Cannot apply [-] to [String] and [Integer]: List l = ['a']; l[0]--
thrown NullPointerException: List l = [null]; l[0] += 1
T nullx: List l = [null]; l[0] += 'x'
false: List l = [true]; l[0] &= false; l[0]
I 10: List l = [5]; l[0] <<= 33L; l[0]
I 5, 1 ticks: List l = [5, 6]; l.0
T [5, 9]: List l = [5, 6]; l.1 = 9; '' + l
I 6: List l = [5]; l.0++; l.0
I 50: List l = [5]; l.0 *= 10
thrown IndexOutOfBoundsException Index 1 out of bounds for length 1: List l = [5]; l.1
thrown IndexOutOfBoundsException Index 1 out of bounds for length 1: List l = [5]; l.1 = 2
I 7: List l = [5, [6, 7]]; l.1.1
thrown NullPointerException: List l; l.0
null: List l; l?.0
I 5: List l = [5]; l?.0
I 2: List l = [5, 6]; byte i = -2; i += 2; int n = l[i]; n - 3
refused by 9 at 17: List l = [1]; l[1L]
refused by 9 at 17: List l = [1]; l['0'] = 1
refused by 18 at 17: List l = [1]; l.2147483648
refused by 7 at 23: Collection c = [1]; c.0";

/// Keys of maps, by brackets and by names behind a dot.
pub const KEYS: &str = "T {b=1, a=2}: Map m = ['b': 1]; m.a = 2; '' + m
I 1, 1 ticks: Map m = ['b': 1]; m.b
I 1, 1 ticks: Map m = ['b': 1]; m['b']
I 2, 1 ticks: Map m = [:]; m.b = 2
I 3, 2 ticks: Map m = ['b': 1]; m.b += 2
null: Map m = ['b': 1]; m.c
null: Map m = ['b': 1]; m.size
I 9: Map m = ['size': 9]; m.size
I 1: Map m = ['size': 9]; m.size()
null: Map m = ['1': 'a']; m[1]
T a: Map m = ['1': 'a']; m.1
T {1=x, 1=y}: Map m = [1: 'x']; m.1 = 'y'; '' + m
I 4: HashMap m = ['k': 4]; m.k
I 3: Map m = [1: 2]; m[1] = 3; m[1]
null: Map m = [1: 2]; m[1L]
null: Map m = [97: 2]; m[(char)97]
I 1: Map m = [null: 1]; m[null]
thrown IllegalArgumentException key must be a simple value: Map m = [:]; m[[1]]
thrown IllegalArgumentException key must be a simple value: Map m = [:]; m[[1]] = 2
thrown NullPointerException, 0 ticks: Map m; m.a
thrown NullPointerException, 0 ticks: Map m; m['a'] = 1
thrown ArithmeticException / by zero: Map m; m.a = 1 / 0
thrown NullPointerException: Map m = [:]; m.n = m.n + 1
I 1: Map m = [:]; m.n = (m.n ?: 0) + 1
T {a={b=1}}: Map m = ['a': [:]]; m['a']['b'] = 1; '' + m
T {a={b={c=3}}}: Map m = ['a': ['b': [:]]]; m.a.b.c = 3; '' + m
thrown NullPointerException: Map m = [:]; m.x.y
thrown ArithmeticException / by zero: Map m = [:]; m.x.y = 1 / 0
thrown NullPointerException: Map m = [:]; m.x.y = 1
null: Map m = [:]; m.x?.y
I 40: Map m = ['a': 1]; m.a += 2; m.a++; m['a'] *= 10; m.a
I 1: Map m = ['a': 1]; m.a++
I 2: Map m = ['a': 1]; ++m['a']
thrown NullPointerException: Map m = [:]; m.a++
T nullx: Map m = [:]; m.a += 'x'
T {b=3, a=3}: Map m = [:]; m.a = m.b = 3; '' + m
T {b=1, a=2}: Map m = ['b': 0, 'a': 2]; m.b = 1; '' + m
T {a=1, b=2}: Map m = ['b': 0, 'a': 1]; m.remove('b'); m.b = 2; '' + m
thrown UnsupportedOperationException: Map m = Collections.emptyMap(); m.a = 1
null: Map m; m?.b
I 1, 1 ticks: Map m = ['b': 1]; m?.b
T {new=1, if=2}: Map m = [:]; m.new = 1; m.if = 2; '' + m
I 6: Map m = ['l': [5, 6]]; m.l[-1]
I 9: void bump(Map m, String k) { m[k] = (m[k] ?: 0) + 1 } Map m = ['v': 8]; bump(m, 'v'); m.v
I 1: void bump(Map m, String k) { m[k] = (m[k] ?: 0) + 1 } Map m = ['v': 8]; bump(m, 'w'); m.w
refused by 15 at 19: Map m = [:]; m?.a = 1";

/// Getters and setters by a name behind a dot.
pub const PROPERTIES: &str =
    "T a1: Map.Entry e = ['a': 1].entrySet().iterator().next(); '' + e.key + e.value
T {a=5}: Map m = ['a': 1]; Map.Entry e = m.entrySet().iterator().next(); e.value = 5; '' + m
T {a=7}: Map m = ['a': 1]; Map.Entry e = m.entrySet().iterator().next(); e.value += 5; e.value++; '' + m
I 5: Map m = ['a': 1]; Map.Entry e = m.entrySet().iterator().next(); e.value = 5
T ab: StringBuilder b = new StringBuilder('abc'); b.length = 2; b.toString()
I 2: StringBuilder b = new StringBuilder('abc'); b.length = (byte)2
I 2: List l = [1, 2]; l.length
true: List l = []; l.empty
false: Set s = new HashSet([1]); s.empty
true: ''.empty
false: ['a': 1].entrySet().empty
T x: new Exception('x').message
null: Exception e; e?.message
thrown NullPointerException: Exception e; e.message
refused by 7 at 16: List l = []; l.length = 1
refused by 7 at 20: StringBuilder b; b.length
refused by 7 at 20: StringBuilder b; b.length += 1
refused by 7 at 16: Map.Entry e; e.key = 1
refused by 7 at 16: List l = []; l.size
refused by 9 at 29: StringBuilder b; b.length = 1L
refused by 7 at 17: List l = []; l?.foo";

/// Receiver, index and value are evaluated once each, from the left to the right, and then is written.
pub const ONCE: &str =
    "T [r, 1, 9] [1, 9, 3]: int[] r(List o, int[] a) { o.add('r'); return a } int t(List o, int v) { o.add(v); return v } List o = []; int[] a = new int[] {1, 2, 3}; r(o, a)[t(o, 1)] = t(o, 9); '' + o + ' ' + a
T [r, 1, 9] [1, 11, 3]: int[] r(List o, int[] a) { o.add('r'); return a } int t(List o, int v) { o.add(v); return v } List o = []; int[] a = new int[] {1, 2, 3}; r(o, a)[t(o, 1)] += t(o, 9); '' + o + ' ' + a
T [r, 1] [1, 3, 3]: int[] r(List o, int[] a) { o.add('r'); return a } int t(List o, int v) { o.add(v); return v } List o = []; int[] a = new int[] {1, 2, 3}; r(o, a)[t(o, 1)]++; '' + o + ' ' + a
T [r, 1, 9] [1, 11, 3]: List r(List o, List a) { o.add('r'); return a } int t(List o, int v) { o.add(v); return v } List o = []; List a = [1, 2, 3]; r(o, a)[t(o, 1)] += t(o, 9); '' + o + ' ' + a
T [r, 1] [1, 1, 3]: List r(List o, List a) { o.add('r'); return a } int t(List o, int v) { o.add(v); return v } List o = []; List a = [1, 2, 3]; --r(o, a)[t(o, 1)]; '' + o + ' ' + a
T [r, 1, 9] {1=11}: Map r(List o, Map a) { o.add('r'); return a } int t(List o, int v) { o.add(v); return v } List o = []; Map a = [1: 2]; r(o, a)[t(o, 1)] += t(o, 9); '' + o + ' ' + a
T [r, 9] {k=11}: Map r(List o, Map a) { o.add('r'); return a } int t(List o, int v) { o.add(v); return v } List o = []; Map a = ['k': 2]; r(o, a).k += t(o, 9); '' + o + ' ' + a
T [r, 9] [11]: List r(List o, List a) { o.add('r'); return a } int t(List o, int v) { o.add(v); return v } List o = []; List a = [2]; r(o, a).0 += t(o, 9); '' + o + ' ' + a
T [r, 1, 9] [1, 11, 3]: def r(List o, def a) { o.add('r'); return a } int t(List o, int v) { o.add(v); return v } List o = []; def a = new int[] {1, 2, 3}; r(o, a)[t(o, 1)] += t(o, 9); '' + o + ' ' + a
T [r, 1, 9] [1, 9, 3]: def r(List o, def a) { o.add('r'); return a } int t(List o, int v) { o.add(v); return v } List o = []; def a = [1, 2, 3]; r(o, a)[t(o, 1)] = t(o, 9); '' + o + ' ' + a
T [r, 9] {k=11}: def r(List o, def a) { o.add('r'); return a } int t(List o, int v) { o.add(v); return v } List o = []; def a = ['k': 2]; r(o, a).k += t(o, 9); '' + o + ' ' + a
T [r] {k=3}: def r(List o, def a) { o.add('r'); return a } List o = []; def a = ['k': 2]; r(o, a).k++; '' + o + ' ' + a
T [r, 1, 2, 3]: def r(List o, def a) { o.add('r'); return a } int t(List o, int v) { o.add(v); return v } List o = []; r(o, 'abcd').replace('' + t(o, 1), '' + t(o, 2)).substring(t(o, 3)); '' + o
T [10, 2] 1: int[] a = new int[] {1, 2}; int i = 0; a[i++] = i * 10; '' + a + ' ' + i
T [2, 2] 1: int[] a = new int[] {1, 2}; int i = 0; a[i++] += i; '' + a + ' ' + i
T [6, 6] 1: int[] a = new int[] {5, 6}; int i = 0; a[i++]++; '' + a + ' ' + i
T [5, 7] 2: int[] a = new int[] {5, 6}; int i = 0; ++a[++i]; i++; '' + a + ' ' + i
T [1, 2]: int[] a = new int[] {0, 2}; int i = 0; a[i] = i = 1; '' + a
T [7] [5]: int[] a = new int[] {1}; int[] b = a; a[0] = (a = new int[] {7}).length + 4; '' + a + ' ' + b
T [7] [5]: List a = [1]; List b = a; a[0] = (a = [7]).size() + 4; '' + a + ' ' + b
I 6: int[] a = new int[] {1}; a[0] += a[0] = 5; a[0]
I 9: int[] a = new int[] {1}; a[0] += a[0]++ + a[0] + (a[0] = 5); a[0]
I 12: int[] a = new int[] {5}; a[0] = a[0]++ + ++a[0]; a[0]
T [3, 3, 3]: int[] a = new int[3]; a[0] = a[1] = a[2] = 3; '' + a
thrown IndexOutOfBoundsException Index 0 out of bounds for length 0: List a = [1]; a[0] = (int)a.remove(0) + a.size()
thrown IndexOutOfBoundsException Index 0 out of bounds for length 0: def a = [1]; a[0] = a.remove(0) + a.size()
T [1, 2, 9]: List a = [1, 2]; a[-1] = a.add(3) ? 9 : 0; '' + a
T [1, 2, 12]: List a = [1, 2]; a[-1] += a.add(3) ? 10 : 0; '' + a
T [1, 2, 12]: def a = [1, 2]; a[-1] += a.add(3) ? 10 : 0; '' + a
T [1]: List l = [1]; try { l[0] = 1 / 0 } catch (Exception e) { } '' + l
T [1]: List l = [1]; try { l[0] += 1 / 0 } catch (Exception e) { } '' + l";

/// Compound assignments and steps of elements of arrays: a calculated value is cast to the type of the element.
pub const ELEMENTS: &str = "B -56: byte[] a = new byte[] {100}; a[0] += 100; a[0]
B -128: byte[] a = new byte[] {127}; ++a[0]
B 127: byte[] a = new byte[] {127}; a[0]++
B -24: byte[] a = new byte[] {10}; a[0] *= 100L
S 4095: short[] a = new short[] {-1}; a[0] >>>= 20
C 66: char[] a = new char[] {65}; a[0] += 1
C 65535: char[] a = new char[1]; --a[0]
I 705032705: int[] a = new int[] {1}; a[0] += 5000000000L
J 3: long[] a = new long[] {1}; a[0] += 2; a[0]
I 2: int[] a = new int[] {8}; a[0] >>= 33L + 1
false: boolean[] a = new boolean[] {true}; a[0] ^= true; a[0]
T xy: String[] a = new String[] {'x'}; a[0] += 'y'; a[0]
T xnull1: String[] a = new String[] {'x'}; a[0] += null; a[0] += 1; a[0]
I 2: Integer[] a = new Integer[] {1}; a[0]++; a[0]
thrown NullPointerException: Integer[] a = new Integer[1]; a[0]++
thrown NullPointerException: int f(List o) { o.add(1); return 1 } List o = []; Integer[] a = new Integer[1]; a[0] += f(o)
I 0: int f(List o) { o.add(1); return 1 } List o = []; Integer[] a = new Integer[1]; try { a[0] += f(o) } catch (NullPointerException e) { } o.size()
J 3: def[] a = new def[] {1}; a[0] += 2L; a[0]
I 3: int[] a = new int[] {1}; def d = 2L; a[0] += d; a[0]
thrown ClassCastException Cannot cast from [String] to [int]: int[] a = new int[] {1}; def d = 'x'; a[0] += d
thrown ClassCastException Cannot apply [+] to [Integer] and [Boolean]: int[] a = new int[] {1}; def d = true; a[0] += d
I 5: Object[] a = new Object[] {2}; def d = 3; a[0] += d
I 4: int[][] a = new int[2][2]; a[1][1] += 3; a[1][1]++; a[-1][-1]
thrown ArithmeticException / by zero: int[] a = new int[] {1}; a[0] /= 0
thrown ArrayIndexOutOfBoundsException Index 1 out of bounds for length 1: int[] a = new int[1]; a[1] += 1 / 0
thrown ArrayIndexOutOfBoundsException Index 1 out of bounds for length 1: int[] a = new int[1]; a[1]++
thrown NullPointerException: int[] a; a[0] += 1 / 0
refused by 9 at 25: int[] a = new int[1]; a['x'] += 1
refused by 10 at 31: boolean[] a = new boolean[1]; a[0]++
refused by 10 at 33: int[][] a = new int[1][1]; a[0] += 1
refused by 15 at 12: new int[1] = 1";
