//! Lists, sets, maps, entries and iterators, by their members: `END: SCRIPT`.

use script_rows::Bounds;

/// Lists, which names share.
pub const LISTS: &str = "T [1, a]: List l = new ArrayList(); l.add(1); l.add('a'); '' + l
true: List l = new ArrayList(); l.add(1)
T [2]: List a = new ArrayList(); List b = a; b.add(2); '' + a
T [2] []: List a = new ArrayList(); a.add(2); List b = new ArrayList(a); a.clear(); '' + b + ' ' + a
T [9, 1, 2]: ArrayList l = new ArrayList(); l.add(1); l.add(2); l.add(0, 9); '' + l
I 3: List l = new ArrayList(); l.add(3); int x = l.get(0); x
thrown ClassCastException Cannot cast from [String] to [int]: List l = new ArrayList(); l.add('3'); int x = l.get(0); x
T 1 [5]: List l = new ArrayList(); l.add(1); l.set(0, 5) + ' ' + l
T b [a]: List l = new ArrayList(); l.add('a'); l.add('b'); l.remove(1) + ' ' + l
true: Collection c = new ArrayList(); c.add('a'); c.remove('a') && c.isEmpty()
I 2: List l = new ArrayList(); l.add(1); l.add(1); l.length
I 1: List l = new ArrayList(); l.add(7); l.add(8); l.add(8); l.indexOf(8)
I 2: List l = new ArrayList(); l.add(7); l.add(8); l.add(8); l.lastIndexOf(8)
I -1: List l = new ArrayList(); l.add(7L); l.indexOf(7)
T [1, 1]: List l = new ArrayList(); l.add(1); l.addAll(l); '' + l
T [1, 2, 3]: List l = new ArrayList(); l.add(3); l.add(1); l.add(2); Collections.sort(l); '' + l
T 3 1: List l = new ArrayList(); l.add(3); l.add(1); Collections.max(l) + ' ' + Collections.min(l)
T [b, a]: List l = new ArrayList(); l.add('a'); l.add('b'); Collections.swap(l, 0, 1); '' + l
T a-1: List l = new ArrayList(); l.add('a'); l.add(1); String.join('-', l)
T a-1: List l = new ArrayList(); l.add('a'); l.add(1); l.join('-')
T [x]: '' + Collections.singletonList('x')
true: List a = new ArrayList(); a.add(1); List b = new ArrayList(); b.add(1); a == b && a !== b
false: List a = new ArrayList(); a.add(1); List b = new ArrayList(); b.add(1L); a == b
true: List a = new ArrayList(); Collection b = a; a === b && a.asList() === a
I 2: int f(List l) { l.add(1); return l.size() } List l = new ArrayList(); f(l); f(l)
T [0, 1, 2]: List f(int n) { List l = new ArrayList(); for (int i = 0; i < n; i++) { l.add(i) } return l } '' + f(3)
I 0: List l; (l ?: new ArrayList()).size()
null: List l; l?.asList()";

/// Maps and sets, and what shows their parts.
pub const MAPS: &str =
    "T {a=1, b=null}: Map m = new HashMap(); m.put('a', 1); m.put('b', null); '' + m
I 1: Map m = new HashMap(); m.put('a', 1); m.put('a', 2)
T null 3: Map m = new LinkedHashMap(); m.get('x') + ' ' + m.getOrDefault('x', 3)
T {a=1}: Map m = new HashMap(); m.put('a', 1); m.putIfAbsent('a', 2); '' + m
false: Map m = new HashMap(); m.put('a', 1); m.remove('a', 1L)
I 2: Map m = new HashMap(); m.put(1, 'x'); m.put(1L, 'y'); m.size()
T {b=2}: Map m = new HashMap(); m.put('a', 1); m.put('b', 2); m.keySet().remove('a'); '' + m
T {a=1}: Map m = new HashMap(); m.put('a', 1); m.put('b', 2); m.values().remove(2); '' + m
I 2: Map m = new HashMap(); Set k = m.keySet(); m.put('a', 1); m.put('b', 2); k.size()
T a=1;b=2;: Map m = new HashMap(); m.put('a', 1); m.put('b', 2); String s = ''; Iterator it = m.entrySet().iterator(); while (it.hasNext()) { Map.Entry e = (Map.Entry)it.next(); s += e.key + '=' + e.getValue() + ';' } s
T {a=5}: Map m = new HashMap(); m.put('a', 1); Map.Entry e = m.entrySet().iterator().next(); e.setValue(5); '' + m
true: Map a = new HashMap(); a.put('x', 1); a == new LinkedHashMap(a)
I 2: Set s = new HashSet(); s.add(1); s.add(1); s.add(1L); s.size()
T [2, 1]: List l = new ArrayList(); l.add(2); l.add(1); l.add(2); '' + new LinkedHashSet(l)
true: Set a = new HashSet(); a.add(1); a.add(2); Set b = new HashSet(); b.add(2); b.add(1); a == b
T {}: '' + Collections.emptyMap()";

/// Iterators by hand.
pub const ITERATORS: &str =
    "I 6, 15 ticks: List l = new ArrayList(); l.add(1); l.add(2); l.add(3); int n = 0; Iterator it = l.iterator(); while (it.hasNext()) { n += (int)it.next() } n
T [1, 3]: List l = new ArrayList(); l.add(1); l.add(2); l.add(3); Iterator it = l.iterator(); while (it.hasNext()) { if (it.next() == 2) { it.remove() } } '' + l
thrown NoSuchElementException: new ArrayList().iterator().next()
thrown ConcurrentModificationException: List l = new ArrayList(); l.add(1); Iterator it = l.iterator(); l.add(2); it.next()
true: List l = new ArrayList(); Iterator it = l.iterator(); l.add(2); it.hasNext()
thrown IllegalStateException no element: List l = new ArrayList(); l.add(1); Iterator it = l.iterator(); it.remove()";

/// Classes and casts.
pub const CLASSES: &str =
    "true: Object o = new ArrayList(); o instanceof List && o instanceof Collection && o instanceof Iterable
false: Object o = new ArrayList(); o instanceof Map || o instanceof Set
true: Object o = new LinkedHashSet(); o instanceof Set && !(o instanceof HashMap)
true: Object o = new HashMap().keySet(); o instanceof Set
false: Object o = new HashMap().values(); o instanceof Set
I 0: Object o = new ArrayList(); ((List)o).size()
thrown ClassCastException Cannot cast from [HashSet] to [List]: Object o = new HashSet(); List l = (List)o; l
thrown ClassCastException Cannot cast from [Integer] to [Map]: def d = 1; Map m = d; m
null: def d = null; List l = d; l
T b: try { new ArrayList().get(0) } catch (ClassCastException e) { return 'a' } catch (IndexOutOfBoundsException e) { return 'b' }";

/// What is thrown.
pub const THROWN: &str =
    "thrown IndexOutOfBoundsException Index 0 out of bounds for length 0: new ArrayList().get(0)
thrown IndexOutOfBoundsException Index -1 out of bounds for length 0: new ArrayList().remove(-1)
thrown IllegalArgumentException key must be a simple value: new HashMap().put(new ArrayList(), 1)
thrown UnsupportedOperationException: Collections.emptyList().add(1)
thrown UnsupportedOperationException: new HashMap().values().add(1)
thrown NullPointerException: List l; l.size()
thrown NullPointerException: new ArrayList(null)
thrown IllegalStateException value nested too deeply: List l = new ArrayList(); l.add(l); '' + l
thrown IllegalStateException value nested too deeply: List a = new ArrayList(); a.add(a); List b = new ArrayList(); b.add(b); a == b
thrown IllegalStateException entry is gone: Map m = new HashMap(); m.put(1, 2); Map.Entry e = m.entrySet().iterator().next(); m.clear(); e.setValue(3)";

const TIGHT: Bounds = Bounds {
    loops: 10,
    depth: 5,
    ticks: 10,
    room: 4,
};

/// A list weighs 1 and 1 an element, a set as much, a map 1 and 2 a pair, an iterator 1, and an entry that it gives 3.
const EDGES: &str = "I 3, 5 ticks: List l = new ArrayList(); l.add(1); l.add(2); l.add(3); l.size()
limit room: List l = new ArrayList(); l.add(1); l.add(2); l.add(3); l.add(4); l.size()
limit room: List l = new ArrayList(); l.add(1); l.addAll(l); l.addAll(l); l.size()
I 1, 3 ticks: Map m = new HashMap(); m.put(1, 2); m.size()
limit room: Map m = new HashMap(); m.put(1, 2); m.put(2, 3); m.size()
true, 4 ticks: Set s = new HashSet(); s.add(1); Iterator it = s.iterator(); it.hasNext()
limit room: Map m = new HashMap(); m.put(1, 2); m.entrySet().iterator()
limit room: new ArrayList().get(0)
limit ticks: List l = new ArrayList(); for (int i = 0; i < 10; i++) { l.clear() } 0";

/// Each table with what its runs are bounded by.
pub const BOUNDED: [(Bounds, &str); 1] = [(TIGHT, EDGES)];
