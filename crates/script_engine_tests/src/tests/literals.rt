//! Literals of lists and maps: `END: SCRIPT`.

use script_rows::Bounds;

/// Lists.
pub const LISTS: &str = "T [1, a, true, null]: '' + [1, 'a', true, null]
T []: '' + []
T [[1], [], [[2]]]: '' + [[1], [], [[2]]]
I 3, 1 ticks: [1, 2, 3].size()
I 0, 0 ticks: List l = [1]; int x; x
another value: [1]
true: [1] == [1]
false: [1] == [1L]
false: [1] == [2]
false: [1] == [1, 1]
false: [1] === [1]
true: List a = [1]; a === a
true: [] == new ArrayList() && [] == Collections.emptyList()
false: [1] == new int[] {1}
true: Object o = []; o instanceof ArrayList && o instanceof Iterable && !(o instanceof Set)
true: List a = [1]; List b = a; b.add(2); a == [1, 2] && a === b
T [1, 2] [1]: List a = [1]; List b = new ArrayList(a); a.add(2); '' + a + ' ' + b
true: List l = [1]; l.add(l); l == l
false: List l = [1]; l.add(l); l != l
thrown IllegalStateException value nested too deeply: List l = [1]; l.add(l); '' + l
thrown IllegalStateException value nested too deeply: List a = []; a.add(a); List b = []; b.add(b); a == b
thrown IllegalStateException value nested too deeply: List a = []; a.add(a); List b = []; b.add(b); a != b
T [1, 2, 3] 3: int i = 0; List l = [++i, ++i, ++i]; '' + l + ' ' + i
thrown ArithmeticException / by zero: [1, 1 / 0, 'a'.charAt(9)]
thrown StringIndexOutOfBoundsException Index 9 out of bounds for length 1: [1, 'a'.charAt(9), 1 / 0]
T [a, b]: String[] s = 'a,b'.splitOnToken(','); '' + [s[0], s[1]]
B 1: List l = [(byte)1]; l[0]
C 97: List l = [(char)97]; l[0]
J 5: List l = [5L]; l[0]
true: [null][0] == null
I 2: ArrayList l = [1, 2]; l.size()
I 2: Collection l = [1, 2]; l.size()
I 2: Iterable l = [1, 2]; l.asList().size()
I 7: int f(List l) { l.add(4); return l.size() } List l = [1, 2]; f(l) + f(l)
T [0, 1, 2]: List f(int n) { List l = []; for (int i = 0; i < n; i++) { l.add(i) } return l } '' + f(3)
T [1, 2, 3]: List l = [3, 1, 2]; Collections.sort(l); '' + l
T a-1: ['a', 1].join('-')
I 2: Set s = new HashSet([1, 1, 2]); s.size()
null: List l = [1]; l.clear()
I 1: List l; (l ?: [1]).size()
refused by 17 at 5: [1] ?: 2
refused by 9 at 9: int x = [1]
refused by 9 at 18: void f() { } [1, f()]
refused by 4 at 5: [1, y, z]
refused by 11 at 1: [1]; 2";

/// Maps, whose keys keep the place of their first value.
pub const MAPS: &str = "T {a=1, b=2}: '' + ['a': 1, 'b': 2]
T {}: '' + [:]
T {a=3, b=2}: '' + ['a': 1, 'b': 2, 'a': 3]
T {null=1, true=2, x=3, 4=5}: '' + [null: 1, true: 2, (char)120: 3, 4L: 5]
T {a={b=[1]}}: '' + ['a': ['b': [1]]]
I 2: [1: 'a', 1L: 'b'].size()
I 3: [97: 1, (char)97: 2, 'a': 3].size()
I 1: [1: 'a', 1: 'b'].size()
T {1=2, 3=4} 4: int i = 0; Map m = [++i: ++i, ++i: ++i]; '' + m + ' ' + i
true: ['a': 1, 'b': 2] == ['b': 2, 'a': 1]
false: ['a': 1] == ['a': 1L]
false: ['a': 1] == ['b': 1]
false: ['a': 1] == ['a': 1, 'b': null]
true: [:] == new LinkedHashMap()
false: [:] === [:]
true: Object o = [:]; o instanceof HashMap && o instanceof Map && !(o instanceof LinkedHashMap) && !(o instanceof Iterable)
true: Map a = ['x': 1]; Map b = a; b.y = 2; a.y == 2 && a === b
thrown IllegalArgumentException key must be a simple value: Map m = [[1]: 2]; m
thrown IllegalArgumentException key must be a simple value: [new int[0]: 2]
thrown IllegalArgumentException key must be a simple value: [1: 2, [:]: 3]
thrown ArithmeticException / by zero: [[1]: 1 / 0]
thrown ArithmeticException / by zero: [1 / 0: 'a'.charAt(9)]
I 1: ['a': 1].a
I 2: ['a': 1].size() + ['b': 1].size()
I 0, 0 ticks: Map m = ['a': 1]; int x; x
I 2: ['b': 1, 'a': [2, null]].keySet().size()
refused by 17 at 5: [:] ?: 2
refused by 9 at 24: void f() { } [1: 2, 3: f()]
refused by 4 at 5: [1: y, z: 2]
refused by 9 at 10: List l = [:]";

/// Sets, views and entries, beside literals.
pub const SETS: &str = "I 1: Set s = new HashSet([1, 1]); s.size()
T [3, 1]: '' + new HashSet([3, 1, 3])
true: new HashSet([1, 2]) == new LinkedHashSet([2, 1])
false: new HashSet([1, 2]) == [1, 2]
true: ['a': 1, 'b': 2].keySet() == new HashSet(['b', 'a'])
false: ['a': 1].values() == [1]
thrown IllegalArgumentException key must be a simple value: new HashSet([[1]])
T {b=2}: Map m = ['a': 1, 'b': 2]; m.keySet().remove('a'); '' + m
T {a=1}: Map m = ['a': 1, 'b': 2]; m.values().remove(2); '' + m
T {b=2}: Map m = ['a': 1, 'b': 2]; Iterator it = m.entrySet().iterator(); it.next(); it.remove(); '' + m
T [a, b] [1, 2] [a=1, b=2]: Map m = ['a': 1]; Set k = m.keySet(); Collection v = m.values(); Set e = m.entrySet(); m.b = 2; '' + k + ' ' + v + ' ' + e
thrown IllegalStateException entry is gone: Map m = ['a': 1]; Map.Entry e = m.entrySet().iterator().next(); m.clear(); e.setValue(3)
null: Map m = ['a': 1]; Map.Entry e = m.entrySet().iterator().next(); m.clear(); e.getValue()
T a: Map m = ['a': 1]; Map.Entry e = m.entrySet().iterator().next(); m.clear(); e.getKey()
I 5: Map m = ['a': 1]; Map.Entry e = m.entrySet().iterator().next(); m.a = 5; e.value
thrown UnsupportedOperationException: ['a': 1].keySet().add('b')";

/// At the edge of a room of 9: a list weighs 1 and 1 an element, a map 1 and 2 a pair, whatever its keys were when it was made.
pub const BOUNDED: (Bounds, &str) = (
    Bounds {
        loops: 1000,
        depth: 10,
        ticks: 1000,
        room: 9,
    },
    "I 8, 1 ticks: [1, 2, 3, 4, 5, 6, 7, 8].size()
limit room: [1, 2, 3, 4, 5, 6, 7, 8, 9]
I 4, 1 ticks: [1: 1, 2: 2, 3: 3, 4: 4].size()
limit room: [1: 1, 2: 2, 3: 3, 4: 4, 5: 5]
I 4: [1: 1, 2: 2, 3: 3, 4: 4, 1: 5, 2: 6].size()
I 4: [[], [], [], []].size()
limit room: [[], [], [], [1]]
limit room: [[], [], [], [], []]
T abc: 'abc'
I 5: List l = [1, 2, 3]; for (int i = 0; i < 5; i++) { l.add(i) } l.remove(0); l.remove(0); l.remove(0); l.size()
limit room: List l = [1, 2, 3]; for (int i = 0; i < 5; i++) { l.add(i) } l.remove(0); l.remove(0); l.remove(0); l.add(9); l.size()
I 4: Map m = [1: 1, 2: 2, 3: 3]; m[4] = 4; m[1] = 5; m.size()
limit room: Map m = [1: 1, 2: 2, 3: 3]; m[4] = 4; m[5] = 5; m.size()
I 4: Map m = [1: 1, 2: 2, 3: 3]; m.a = 4; m.a = 5; m.size()
limit room: Map m = [1: 1, 2: 2, 3: 3]; m.a = 4; m.b = 5; m.size()
limit room: try { List l = [1, 2, 3, 4, 5, 6, 7, 8, 9]; } catch (Exception e) { return 1 } 2",
);
