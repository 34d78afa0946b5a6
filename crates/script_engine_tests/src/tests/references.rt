//! Texts, references and what is thrown: `END: SCRIPT`, a text behind `T`.

use script_rows::Bounds;

/// Texts, and what is joined to them.
pub const TEXTS: &str = r#"T a: 'a'
T a: "a"
T : ''
T it's: 'it\'s'
T it's: "it's"
T say "x": "say \"x\""
T back\slash: 'back\\slash'
T ab1null: 'ab' + 1 + null
T 3ab: 1 + 2 + 'ab'
T ab12: 'ab' + 1 + 2
T truefalse: '' + true + false
T 1-2: '' + 1L + (byte)-2
T xA: 'x' + (char)65
T nullnull: null + 'null'
T true: '' + (1 == 1)
T -9223372036854775808: -9223372036854775808L + ''
T aéß: 'a' + 'é' + 'ß'
T a: String s = 'a'; s
null: String s; s
null: null
null: def d; d
T aXX: String s = 'a'; for (int i = 0; i < 2; i++) { s += 'X' } s
T a1: String s = 'a'; s += 1; s
T a1: String s = 'a'; s += 1
T nulla: String s; s += 'a'; s
T anull: String s = 'a'; s += null; s
T 1a: Object o = 1; o += 'a'; o
T xy: CharSequence s = 'x'; s += 'y'; s
T 7x: def d = 7; d += 'x'; d
T ab: def x = 'a'; def y = x + 'b'; y
T x7: def d = 7; 'x' + d
C 120: char c = (char)'x'; c += ''; c
T a-1: String f(String x, int y) { return x + '-' + y } f('a', 1)
T nullx: String f() { String s; return s + 'x' } f()
T bab: String s = 'a'; String t = s; s = 'b'; s + t + s
I 3: int i = 1; String s = 'a' + i++ + i++; i
T a12: int i = 1; String s = 'a' + i++ + i++; s"#;

/// Casts of references, some of which are done when the script runs.
pub const CASTS: &str = "C 97: (char)'a'
thrown ClassCastException Cannot cast from [String] to [char]: (char)'ab'
thrown ClassCastException Cannot cast from [String] to [char]: (char)''
thrown NullPointerException: String s; (char)s
T a: (String)(char)97
C 97: def d = 'a'; (char)d
T a: def d = (char)97; (String)d
T x: Object o = 'x'; (String)o
T x: CharSequence o = 'x'; (String)o
thrown ClassCastException Cannot cast from [Integer] to [String]: Object o = 1; (String)o
thrown ClassCastException Cannot cast from [String] to [int]: Object o = 'x'; (int)o
thrown ClassCastException Cannot cast from [String] to [StringBuilder]: Object o = 'x'; (StringBuilder)o
I 5: Object o = 5L; (int)o
J 5: Object o = 5; (long)o
B 5: Object o = 261; (byte)o
I 97: Object o = (char)97; (int)o
true: Object o = true; (boolean)o
thrown ClassCastException Cannot cast from [Boolean] to [int]: Object o = true; (int)o
thrown ClassCastException Cannot cast from [Integer] to [boolean]: Object o = 1; (boolean)o
thrown NullPointerException: Object o; (int)o
null: Object o; (String)o
I 5: def d = 5; int i = d; i
J 5: def d = 5; long l = d; l
thrown ClassCastException Cannot cast from [Long] to [int]: def d = 5L; int i = d; i
I 5: def d = 5L; (int)d
thrown NullPointerException: def d; int i = d; i
thrown ClassCastException Cannot cast from [Integer] to [boolean]: def d = 1; if (d) { return 1 } return 2
I 1: def d = true; if (d) { return 1 } return 2
true: def d = false; !d
false: def d = true; d && false
false: def d = false; d && 1 / 0 == 0
T s: def d = 's'; String s = d; s
thrown ClassCastException Cannot cast from [Integer] to [String]: def d = 1; String s = d; s
null: def d; String s = d; s
thrown ClassCastException Cannot cast from [String] to [char]: char c = (char)'x'; c += 'y'; c
T x: Comparable c = 'x'; (String)c
I 3: Comparable c = 3; Object o = c; o
I 7: int f(def x) { return x } f(7)
T a: def f(String s) { return s } f('a')
I 1: def f(int i) { return i } f(1)
T s: Object f(def d) { return d } (String)f('s')
thrown ClassCastException Cannot cast from [Integer] to [String]: String f(def d) { return d } f(1)
null: String f(String s) { return s } f(null)
null: void f(def d) { } f(1)
I 2: int i = 1; Object o = i; i = 2; i
I 1: int i = 1; Object o = i; i = 2; o";

/// Equality, identity and instances.
pub const RELATIONS: &str = "true: 'a' == 'a'
false: 'a' != 'a'
true: 'a' + 'b' == 'ab'
false: 'a' == 'b'
false: 'a' == null
true: null == null
false: null != null
true: String s; s == null
false: String s; s != null
true: Object o = 1; o == 1
true: Object o = 1; o == 1L
true: 1L == (Object)1
false: Object o = 1; o == 2L
true: Object o = 1; o != 2L
true: Object o = (char)97; o == 97
false: Object o = '1'; o == 1
false: Object o = 'a'; o == (char)97
true: def a = 1; def b = 1L; a == b
false: Object o = true; o == 1
true: Object o = true; o == true
true: def a; def b; a == b
true: String s = null; s === null
false: 'a' === null
true: null === null
true: 'a' !== null
false: Object o = 'a'; o === null
true: null === (def)null
true: 'a' instanceof String
true: 'a' instanceof CharSequence
true: 'a' instanceof Comparable
true: 'a' instanceof Object
false: 'a' instanceof StringBuilder
false: null instanceof Object
false: String s; s instanceof String
true: Object o = 1; o instanceof Comparable
true: Object o = 1; o instanceof Object
false: Object o = 1; o instanceof CharSequence
false: Object o = 1; o instanceof Exception
true: !('a' instanceof Exception)
true: def d = 'x'; d instanceof String && d == 'x'";

/// Conditionals and `?:`.
pub const CHOICES: &str = "T a: true ? 'a' : 'b'
T b: 1 > 2 ? 'a' : 'b'
null: true ? null : 'a'
T a: true ? 'a' : null
I 1: true ? 1 : 'a'
T a: false ? 1 : 'a'
I 1: Object o = true ? 1 : 'a'; o
T x: Object o = true ? 'x' : null; o
T b: String s; s ?: 'b'
T a: String s = 'a'; s ?: 'b'
I 1: String s; s ?: 1
T c: String s; String t; s ?: t ?: 'c'
T t: String s; String t = 't'; s ?: t ?: 'c'
T a: String s = 'a'; s ?: 'b' + 1 / 0
thrown ArithmeticException / by zero: String s; s ?: 'b' + 1 / 0
null: String s; s ?: null
I 2: def d; d ?: 2
I 1: def d = 1; int i = d ?: 2; i
T x: (null) ?: 'x'
T ax: String s; 'a' + (s ?: 'x')
I 3: int n = 0; String f; def g = f ?: 3; g";

/// What is thrown.
pub const THROWN: &str = "thrown NullPointerException: throw null
thrown NullPointerException: Exception e; throw e
thrown NullPointerException: IllegalArgumentException e = null; throw e
thrown ClassCastException Cannot cast from [String] to [Exception]: def d = 'x'; throw d
thrown ArithmeticException / by zero: int f(int n) { return n == 0 ? 1 / n : f(n - 1) } f(5)
thrown NullPointerException: int f(Exception e) { throw e } f(null)
I 1: int f(boolean b) { if (b) { return 1 } throw null } f(true)
thrown NullPointerException: int f(boolean b) { if (b) { return 1 } throw null } f(false)
I 2: for (int i = 0; i < 3; i++) { if (i == 2) { return i } } throw null";

/// Members, `new` and `?.`, with the ticks that they pay.
pub const MEMBERS: &str = "I 3: 'Ann'.length()
T 3 N: 'Ann'.length() + ' ' + 'Ann'.toUpperCase().charAt(1)
I 1: String.valueOf(1).concat('2').indexOf('2')
T a1b: new StringBuilder('a').append(1).append('b').toString()
T a: StringBuilder b = new StringBuilder(); b.append('abc').setLength(1); b.toString()
T off: new IllegalStateException('off').message
thrown NullPointerException: String s = null; s.length()
thrown ArithmeticException / by zero: String s = null; s.concat('' + 1 / 0)
thrown StringIndexOutOfBoundsException Index 2 out of bounds for length 1: 'a'.substring(2)
thrown StringIndexOutOfBoundsException Index 1 out of bounds for length 1: 'a'.charAt(1)
null: String s; s?.trim()
T none: String s; s?.concat('' + 1 / 0) ?: 'none'
thrown IllegalArgumentException no: throw new IllegalArgumentException('no')
thrown IllegalArgumentException: throw new IllegalArgumentException()
T NOBODY: String name; name?.trim() ?: 'nobody'.toUpperCase()
null: new Exception().message
true: 'a'.equals('a')
false: Object o = 1; o.equals(1L)
T 1: Object o = 1; o.toString()
thrown NullPointerException: Object o; o.toString()
I -1: 'a'.compareTo('b')
I 4: CharSequence s = 'abcd'; s.length()
C 98: CharSequence s = 'abcd'; s.charAt(1)
T a0b1b2b: StringBuilder b = new StringBuilder('a'); for (int i = 0; i < 3; i++) { b.append(i).append('b') } b.toString()
T cba: StringBuilder b = new StringBuilder(); b.insert(0, 'a').insert(0, 'b').insert(0, (char)99); b.toString()
true: StringBuilder b = new StringBuilder(); b.append(1) === null ? false : true
null: void f(StringBuilder b) { b.setLength(0) } f(new StringBuilder('x'))
T xyz: void f(StringBuilder b) { b.append('yz') } StringBuilder b = new StringBuilder('x'); f(b); b.toString()
thrown RuntimeException deep: int f(int n) { if (n == 0) { throw new RuntimeException('deep') } return f(n - 1) } f(9)
T a: StringBuilder b = null; b?.toString() ?: 'a'
true: new Exception('x') instanceof Exception && !(new Exception('x') instanceof RuntimeException)
T m: Exception e = new NumberFormatException('m'); e.getMessage()
thrown ClassCastException Cannot cast from [Exception] to [RuntimeException]: Exception e = new Exception('m'); (RuntimeException)e
T m: Exception e = new NumberFormatException('m'); RuntimeException r = (RuntimeException)e; r.getMessage()
I 3, 1 ticks: 'Ann'.length()
I 0, 2 ticks: new StringBuilder().length()
thrown NullPointerException, 0 ticks: String s = null; s.length()
thrown StringIndexOutOfBoundsException Index 1 out of bounds for length 1, 1 ticks: 'a'.charAt(1)
I 2, 2 ticks: int f() { return 'ab'.length() } f()
null, 0 ticks: String s; s?.trim()
T ab, 1 ticks: String s = ' ab '; s?.trim()
B 1: Object o = (byte)1; o";

fn room(room: u64) -> Bounds {
    Bounds {
        loops: 1_000,
        depth: 10,
        ticks: 1_000,
        room,
    }
}

/// Scripts at the edge of their room: a text costs its units and 1, an exception the units of its message and 1.
pub fn bounded() -> [(Bounds, &'static str); 9] {
    [
        (
            room(0),
            "limit room: throw null
limit room: '' + ''
T abc: 'abc'
I 1: Object o = 1; o
limit room: def d; int i = d; i",
        ),
        (
            room(1),
            "thrown NullPointerException: throw null
T : '' + ''
limit room: (String)(char)97
limit room: '' + 'a'",
        ),
        (
            room(2),
            "T a: (String)(char)97
T a: '' + 'a'
limit room: 'a' + 'b'",
        ),
        (
            room(7),
            "T abcdef: 'abc' + 'def'
limit room: 'abc' + 'defg'
T abc: 'a' + 'b' + 'c'
limit room: 'a' + 'b' + 'c' + ''",
        ),
        (
            room(5),
            "I 4: new StringBuilder('ab').append('cd').length()
limit room: new StringBuilder('ab').append('cde').length()
T abcd: new StringBuilder('abcd').append('').length() == 4 ? 'abcd' : ''
limit room: throw new Exception('abcde')
thrown Exception abcd: throw new Exception('abcd')
limit room: 'abc'.concat('de')
T abcd: 'abc'.concat('d')",
        ),
        (room(9), "limit room: 1 / 0"),
        (room(10), "thrown ArithmeticException / by zero: 1 / 0"),
        (
            room(11),
            "limit room: String s = 'a'; while (s != 'abcd') { s = s == 'a' ? s + 'b' : s == 'ab' ? s + 'c' : s + 'd' } s",
        ),
        (
            room(12),
            "T abcd, 3 ticks: String s = 'a'; while (s != 'abcd') { s = s == 'a' ? s + 'b' : s == 'ab' ? s + 'c' : s + 'd' } s",
        ),
    ]
}
