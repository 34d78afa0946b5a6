//! What allowlists leave out: `END: SCRIPT` under the members of a file.

/// Of lists `get` alone is allowed.
pub const GET_OF_LISTS: &str = "refused by 7 at 16: List l = []; l.add(1)
thrown IllegalArgumentException dynamic method [java.util.ArrayList, add/1] not found: def l = []; l.add(1)
I 5: List l = [5]; l[0]
I 5: def l = [5]; l[-1]
I 5: def l = [5]; l.0
I 5: List l = [5]; l.0
I 5: def l = [5]; l.get(0)
thrown IllegalArgumentException dynamic method [java.util.ArrayList, set/2] not found: def l = [5]; l[0] = 1
thrown IllegalArgumentException dynamic method [java.util.ArrayList, set/2] not found: def l = [5]; l[0] += 1
thrown IllegalArgumentException dynamic setter [java.util.ArrayList, 0] not found: def l = [5]; l.0 = 1
thrown IllegalArgumentException dynamic method [java.util.ArrayList, set/2] not found: def l = [5]; l['x'] = 1
thrown IllegalArgumentException dynamic getter [java.util.ArrayList, length] not found: def l = [5]; l.length
thrown IllegalArgumentException dynamic method [java.util.HashMap, get/1] not found: def m = [1: 2]; m[1]
thrown IllegalArgumentException dynamic method [java.util.HashMap, put/2] not found: def m = [1: 2]; m[1] = 3
thrown IllegalArgumentException dynamic getter [java.util.HashMap, k] not found: def m = ['k': 2]; m.k
thrown IllegalArgumentException dynamic setter [java.util.HashMap, k] not found: def m = ['k': 2]; m.k = 3
thrown IllegalArgumentException dynamic getter [java.util.HashMap, k] not found: def m = ['k': 2]; m.k++
thrown IllegalArgumentException dynamic method [java.util.HashMap, size/0] not found: def m = ['k': 2]; m.size()
thrown IllegalArgumentException dynamic method [java.lang.String, length/0] not found: def s = 'a'; s.length()
thrown IllegalArgumentException dynamic getter [java.lang.Integer, k] not found: def s = 1; s.k
thrown IllegalArgumentException not a list, map or array: def s = 1; s[0]
thrown NullPointerException: def l = null; l.add(1)
I 1: def a = new int[] {1}; a[0] * a.length
I 6: int s = 0; for (int x : [1, 2, 3]) { s += x } s
T [1]x: def l = [1]; l + 'x'
true: def l = [1]; l == [1] && l instanceof List
refused by 7 at 16: List l = [5]; l[0] = 1
refused by 7 at 16: List l = [5]; l[0]++
refused by 7 at 17: List l = [5]; l.0 = 1
refused by 7 at 17: List l = [5]; l.length
refused by 7 at 10: ['a': 1].a
refused by 7 at 9: ['a': 1]['a']
refused by 6 at 1: Map m = [:]
refused by 4 at 1: Integer.MAX_VALUE";

/// Of collections `size` alone is allowed, of maps reading and of lists writing.
pub const PARENTS: &str = "I 2: def l = [1, 2]; l.size()
I 1: def s = ['a': 1]; s.a
I 1: def s = ['a': 1]; s['a']
thrown IllegalArgumentException dynamic setter [java.util.HashMap, a] not found: def s = ['a': 1]; s.a = 2
thrown IllegalArgumentException dynamic method [java.util.HashMap, put/2] not found: def s = ['a': 1]; s['a'] = 2
thrown IllegalArgumentException dynamic setter [java.util.HashMap, a] not found: def s = ['a': 1]; s.a += 2
I 3: def l = [1]; l[0] = 3
I 3: def l = [1]; l.0 = 3
thrown IllegalArgumentException dynamic method [java.util.ArrayList, get/1] not found: def l = [1]; l[0]
thrown IllegalArgumentException dynamic method [java.util.ArrayList, get/1] not found: def l = [1]; l[0]++
thrown IllegalArgumentException dynamic getter [java.util.ArrayList, 0] not found: def l = [1]; l.0
refused by 7 at 16: List l = [1]; l[0]
refused by 7 at 17: List l = [1]; l.0
I 4: List l = [1]; l[0] = 4
refused by 7 at 16: Map m = [:]; m.a = 1
refused by 7 at 15: Map m = [:]; m['a'] += 1
null: Map m = [:]; m.a";
