//! Loops over elements: `END: SCRIPT`.

use script_rows::Bounds;

/// What is gone over, and what the variable is.
pub const OVER: &str = "I 6, 3 ticks: int s = 0; for (int x : [1, 2, 3]) { s += x } s
I 6, 3 ticks: int s = 0; for (int x : new int[] {1, 2, 3}) { s += x } s
I 6: int s = 0; for (x in [1, 2, 3]) { s += x } s
I 6: int s = 0; for (def x : [1, 2, 3]) { s += (int)x } s
I 6: def l = [1, 2, 3]; int s = 0; for (int x : l) { s += x } s
I 6: def l = new int[] {1, 2, 3}; int s = 0; for (x in l) { s += x } s
I 6: Iterable l = [1, 2, 3]; int s = 0; for (int x : l) s += x; s
I 0, 0 ticks: int s = 0; for (x in []) { s++ } s
I 0, 0 ticks: int s = 0; for (x in new int[0]) { s++ } s
J 3: long s = 0; for (long x : new int[] {1, 2}) { s += x } s
I 195: int s = 0; for (int x : 'ab'.toCharArray()) { s += x } s
T abnull: String s = ''; for (String x : ['a', 'b', null]) { s += x } s
T a-b-: String s = ''; for (String x : 'a,b'.splitOnToken(',')) { s += x + '-' } s
I 3: int s = 0; for (Integer x : [1, 2]) { s += x } s
T [1][2, 3]: String s = ''; for (List x : [[1], [2, 3]]) { s += x } s
I 21: int s = 0; for (int[] x : new int[2][3]) { for (int i = 0; i < x.length; i++) { x[i] = 7 } s += x[-1] + x.length - 3 } s + 7
T 31: String s = ''; for (x in new HashSet([3, 1, 3])) { s += x } s
T ab12: Map m = ['a': 1, 'b': 2]; String s = ''; for (k in m.keySet()) { s += k } for (v in m.values()) { s += v } s
T a=1;b=2;: String s = ''; for (Map.Entry e : ['a': 1, 'b': 2].entrySet()) { s += e.key + '=' + e.value + ';' } s
T a=1;b=2;: String s = ''; for (e in ['a': 1, 'b': 2].entrySet()) { s += e + ';' } s
I 90, 6 ticks: int s = 0; for (int x : [1, 2]) { for (int y : [10, 20]) { s += x * y } } s
I 1: List f(List o) { o.add(1); return [1, 2] } List o = []; for (x in f(o)) { } o.size()
I 2: List l = [1, 2]; int n = 0; for (x in l) { l = []; n++ } n
T [1, 2]: int[] a = new int[] {1, 2}; for (int x : a) { x = 5 } '' + a
I 10: int s = 0; for (int x : [1, 2]) { x += 1; s += x * 2 } s
I 3: for (x in [1]) { } for (x in [2]) { } int x = 3; x
T [1, 2, 3]: List o = []; for (int x : [1, 2, 3]) { o.add(x) } '' + o
thrown ClassCastException Cannot cast from [String] to [int]: for (int x : ['a']) { }
thrown ClassCastException Cannot cast from [Long] to [int]: for (int x : [1, 2L]) { }
thrown NullPointerException: for (int x : [1, null]) { }
thrown ClassCastException Cannot cast from [ArrayList] to [Map]: for (Map x : [[1]]) { }
I 1: int n = 0; try { for (int x : [1, 'a', 2]) { n++ } } catch (ClassCastException e) { } n
thrown ClassCastException: def m = ['a': 1]; for (x in m) { }
thrown ClassCastException: def m = 'abc'; for (x in m) { }
thrown ClassCastException: def m = 5; for (x in m) { }
thrown ClassCastException: def m = [1].iterator(); for (x in m) { }
thrown ClassCastException: def m = new StringBuilder('a'); for (x in m) { }
thrown NullPointerException: def m; for (x in m) { }
thrown NullPointerException: List m; for (x in m) { }
thrown NullPointerException: int[] m; for (x in m) { }
thrown ArithmeticException / by zero: for (x in [1 / 0]) { }
refused by 9 at 11: for (x in 5) { }
refused by 9 at 11: for (x in [:]) { }
refused by 9 at 11: for (x in 'abc') { }
refused by 9 at 11: for (x in null) { }
refused by 9 at 15: for (x in [1].iterator()) { }
refused by 9 at 17: for (String x : new int[1]) { }
refused by 9 at 14: for (int x : new long[1]) { }
refused by 5 at 13: int x; for (x in [1]) { y }
refused by 5 at 17: int x; for (int x : [1]) { y }
refused by 4 at 18: for (x in [1]) { y }
refused by 4 at 20: for (x in [1]) { } x
refused by 4 at 11: for (x in x) { }
refused by 6 at 6: for (foo x : 5) { }";

/// What leaves a loop, or one of its turns.
pub const LEFT: &str =
    "I 4: int s = 0; for (int x : [1, 2, 3, 4]) { if (x == 2) { continue } if (x == 4) { break } s += x } s
I 1: for (int x : [1, 2]) { return x } return 0
I 0: for (int x : []) { return x } return 0
T 2: try { for (int x : [1, 2]) { if (x == 2) { throw new Exception('' + x) } } } catch (Exception e) { return e.message } 'none'
I 13: int s = 0; for (int x : [1, 2, 3]) { try { if (x == 2) { throw new Exception() } s += x } catch (Exception e) { s += 9 } } s
I 4: int s = 0; for (int x : [1, 2, 3]) { try { if (x == 2) { continue } s += x } catch (Exception e) { s = 100 } } s
I 1: int s = 0; for (int x : [1, 2, 3]) { try { if (x == 2) { break } s += x } catch (Exception e) { s = 100 } } s
I 3: int n = 0; for (x in [1, 2, 3]) { for (y in [1, 2, 3]) { if (y == 2) { break } n++ } } n
I 6: int n = 0; for (x in [1, 2, 3]) { for (y in [1, 2, 3]) { if (y == 2) { continue } n++ } } n
I 2: int at(List l, def v) { int i = 0; for (x in l) { if (x == v) { return i } i++ } return -1 } at([5, 6, 7], 7)
I -1: int at(List l, def v) { int i = 0; for (x in l) { if (x == v) { return i } i++ } return -1 } at([5, 6, 7], 8)
I 2: int n = 0; while (true) { for (x in [1, 2]) { n++; if (n == 2) { return n } } }
I 5: for (x in [1, 2]) { break } 5
refused by 12 at 25: for (x in [1]) { break; int y = 1 }
refused by 13 at 5: int f(List l) { for (x in l) { return 1 } } f([1])";

/// What is changed while it is gone over.
pub const CHANGED: &str =
    "thrown ConcurrentModificationException: def l = [1, 2, 3]; for (def x : l) { l.add(x) }
thrown ConcurrentModificationException, 3 ticks: List l = [1]; for (x in l) { l.add(2) }
T [1, 3]: def l = [1, 2, 3]; for (def x : l) { if (x == 2) { l.remove(1) } } '' + l
thrown ConcurrentModificationException: List l = [1, 2, 3]; for (x in l) { if (x == 1) { l.remove(0) } }
thrown ConcurrentModificationException: List l = [1, 2]; for (x in l) { l.clear() }
thrown ConcurrentModificationException: List l = [1]; for (x in l) { l.clear() }
T [2, 1]: List l = [1]; for (x in l) { l.add(0, 2); l.add(3); l.remove(2); break } '' + l
T [9, 2, 3]: List l = [1, 2, 3]; for (x in l) { l.set(0, 9) } '' + l
I 12: List l = [1, 2, 3]; int s = 0; for (int x : l) { s += x; l[-1] = 9 } s
I 13: int[] a = new int[] {1, 2, 3}; int s = 0; for (int x : a) { s += x; a[2] = 10 } s
I 1: Set s = new HashSet([1, 2]); int n = 0; for (x in s) { s.remove(2); n++ } n
I 2: Set s = new HashSet([1, 2]); int n = 0; for (x in s) { s.add(1); n++ } n
thrown ConcurrentModificationException: Set s = new HashSet([1, 2]); for (x in s) { s.add(x + 5) }
T {a=5, b=5}: Map m = ['a': 1, 'b': 2]; for (k in m.keySet()) { m[k] = 5 } '' + m
thrown ConcurrentModificationException: Map m = ['a': 1, 'b': 2]; for (k in m.keySet()) { m.c = 1 }
thrown ConcurrentModificationException: Map m = ['a': 1, 'b': 2]; for (v in m.values()) { m.c = 1 }
T {a=7, b=7}: Map m = ['a': 1, 'b': 2]; for (Map.Entry e : m.entrySet()) { e.value = 7 } '' + m
T {a=2, b=4}: Map m = ['a': 1, 'b': 2]; for (e in m.entrySet()) { e.value *= 2 } '' + m
T changed: List l = [1]; try { for (x in l) { l.add(2) } } catch (ConcurrentModificationException e) { return 'changed' } 'not'
T [1, 2]: List l = [1, 2]; for (x in new ArrayList(l)) { l.add(x); l.remove(2) } '' + l";

/// Within 5 turns, 8 ticks and a room of 9: a turn is counted before its element is taken, and an iterator weighs 1.
pub const LIMITED: (Bounds, &str) = (
    Bounds {
        loops: 5,
        depth: 10,
        ticks: 8,
        room: 9,
    },
    "I 15, 5 ticks: int s = 0; for (int x : [1, 2, 3, 4, 5]) { s += x } s
limit loop, 5 ticks: int s = 0; for (int x : [1, 2, 3, 4, 5, 6]) { s += x } s
limit loop, 5 ticks: for (x in new byte[6]) { } 1
I 5, 5 ticks: int n = 0; for (x in [1, 2]) { n++ } for (x in new int[3]) { n++ } n
limit loop: int n = 0; for (x in [1, 2]) { n++ } for (int i = 0; i < 4; i++) { n++ } n
I 6, 8 ticks: int f(List l) { int n = 0; for (x in l) { n++ } return n } List l = [1, 2, 3]; f(l) + f(l)
limit ticks, 8 ticks: int f(List l) { int n = 0; for (x in l) { n++ } return n } List l = [1, 2, 3, 4]; f(l) + f(l)
limit loop, 5 ticks: for (x in [1, 'a', 2, 3, 4, 5]) { } 1
limit loop: try { for (x in new int[6]) { } } catch (Exception e) { return 1 }
I 7: int n = 0; for (x in new int[7]) { n = 7; break } n
limit room: for (x in new int[8]) { } 1
I 1: for (int x : new int[1]) { return 1 } 2
I 8: int n = 0; for (x in [1]) { n = 8 } [1, 2, 3, 4].size() + n - 4
I 5: for (x in [1]) { } [1, 2, 3, 4, 5].size()
limit room: for (x in [1]) { } [1, 2, 3, 4, 5, 6]
I 3: Map m = ['a': 1]; int n = 0; for (e in m.entrySet()) { n = 3 } n
limit room: Map m = ['a': 1]; for (e in m.entrySet()) { Object o = []; o = []; } 1
limit room: Map m = ['a': 1, 'b': 2]; for (e in m.entrySet()) { } 1
I 2: Map m = ['a': 1, 'b': 2]; int n = 0; for (k in m.keySet()) { n++ } n",
);
