//! Scripts and the shapes of their trees.

/// Whole scripts, with functions, and their trees.
pub const SCRIPTS_AND_FUNCTIONS: [(&str, &str); 11] = [
    ("", ""),
    (" // nothing", ""),
    ("1", "1"),
    ("1;", "1"),
    ("x; y", "x y"),
    ("x; y;", "x y"),
    (
        "int f(int a, List b) { return a } f(1, null)",
        "(fun int f (int a, List b) {(return a)}) (call f 1 null)",
    ),
    ("void f() {}", "(fun void f () {})"),
    (
        "def[] f(int[][] a, Foo b) {} Foo[] g() {} g()",
        "(fun def[] f (int[][] a, Foo b) {}) (fun Foo[] g () {}) (call g)",
    ),
    (
        "Map.Entry f() { x; y } List x; f()",
        "(fun Map.Entry f () {x y}) (declare List x) (call f)",
    ),
    (
        "int f() { if (a) b; c; } f",
        "(fun int f () {(if a b) c}) f",
    ),
];

/// Statements and their trees.
pub const STATEMENTS: [(&str, &str); 20] = [
    ("if (a) b", "(if a b)"),
    ("if (a) b; else c", "(if a b else c)"),
    ("if (a) {} else {}", "(if a {} else {})"),
    ("if (a) if (b) c; else d", "(if a (if b c else d))"),
    ("if (a) { if (b) c; } else d", "(if a {(if b c)} else d)"),
    (
        "if (a) while (b) if (c) d; else e",
        "(if a (while b (if c d else e)))",
    ),
    (
        "if (a) b; else if (c) d; else e;",
        "(if a b else (if c d else e))",
    ),
    ("if (a) {x; y} z", "(if a {x y}) z"),
    ("while (a) b", "(while a b)"),
    ("while (a) {b} c", "(while a {b}) c"),
    ("while (a);", "(while a ;)"),
    ("do {x} while (y)", "(do {x} y)"),
    ("do {} while (y); do {} while (z)", "(do {} y) (do {} z)"),
    (
        "try {} catch (Exception e) {} catch (Object o) {}",
        "(try {} (catch Exception e {}) (catch Object o {}))",
    ),
    (
        "try {x} catch (Foo e) {y} z",
        "(try {x} (catch Foo e {y})) z",
    ),
    ("continue; break", "continue break"),
    ("return; return 1", "(return) (return 1)"),
    ("return x -> x", "(return (-> (x) x))"),
    ("throw x", "(throw x)"),
    (
        "while (a) {if (b) {continue} break}",
        "(while a {(if b {continue}) break})",
    ),
];

/// Loops with `for` and their trees.
pub const FOR_LOOPS: [(&str, &str); 17] = [
    ("for (;;) {}", "(for _ _ _ {})"),
    ("for (;;);", "(for _ _ _ ;)"),
    (
        "for (int i = 0; i < 3; i++) x",
        "(for (declare int i=0) (< i 3) (post++ i) x)",
    ),
    ("for (i = 0;;) x", "(for (= i 0) _ _ x)"),
    ("for (;a;) x", "(for _ a _ x)"),
    ("for (;;a) x", "(for _ _ a x)"),
    ("for (x;;) {}", "(for x _ _ {})"),
    ("for (x[0] = 1;;) {}", "(for (= (index x 0) 1) _ _ {})"),
    ("for (List.x;;) {}", "(for (. List x) _ _ {})"),
    (
        "for (Foo x = 1, y;;) {}",
        "(for (declare Foo x=1 y) _ _ {})",
    ),
    ("for (x[] y;;) {}", "(for (declare x[] y) _ _ {})"),
    ("for (def x : l) x++;", "(each def x l (post++ x))"),
    ("for (List[] x : l) {}", "(each List[] x l {})"),
    ("for (Foo x : l) {}", "(each Foo x l {})"),
    ("for (Foo[] x : l) {}", "(each Foo[] x l {})"),
    ("for (x in l) { }", "(in x l {})"),
    ("for (x in l) for (y in x) z", "(in x l (in y x z))"),
];

/// Declarations, conditionals and assignments, and their trees.
pub const DECLARATIONS_AND_EXPRESSIONS: [(&str, &str); 18] = [
    ("int x, y = 1", "(declare int x y=1)"),
    ("List x", "(declare List x)"),
    ("List.of(1)", "(. List of() 1)"),
    ("int[] x", "(declare int[] x)"),
    ("int[].length", "(. int[] length)"),
    ("int[][].x.y", "(. (. int[][] x) y)"),
    ("Foo x", "(declare Foo x)"),
    ("Foo.x", "(. Foo x)"),
    ("Foo x = 1, y", "(declare Foo x=1 y)"),
    ("x[0] = 1", "(= (index x 0) 1)"),
    ("x[] y", "(declare x[] y)"),
    ("x[][] y = [1]", "(declare x[][] y=[1])"),
    (
        "boolean a; byte b; short c; char d; int e; long f; def g",
        "(declare boolean a) (declare byte b) (declare short c) (declare char d) (declare int e) (declare long f) (declare def g)",
    ),
    ("int x = y = 1", "(declare int x=(= y 1))"),
    (
        "def f = x -> x, g = List::size",
        "(declare def f=(-> (x) x) g=(:: List size))",
    ),
    ("return (x, y) -> x", "(return (-> (x, y) x))"),
    ("Map.Entry x", "(declare Map.Entry x)"),
    ("Map.x", "(. Map x)"),
];

/// The tighter operator binds on either side.
pub const NEIGHBOURING_LEVELS: [(&str, &str); 25] = [
    ("-a * b", "(* (neg a) b)"),
    ("a * -b", "(* a (neg b))"),
    ("a * b + c", "(+ (* a b) c)"),
    ("a + b * c", "(+ a (* b c))"),
    ("a + b << c", "(<< (+ a b) c)"),
    ("a << b + c", "(<< a (+ b c))"),
    ("a << b < c", "(< (<< a b) c)"),
    ("a < b << c", "(< a (<< b c))"),
    ("a < b instanceof List", "(instanceof (< a b) List)"),
    ("a instanceof List == b", "(== (instanceof a List) b)"),
    ("a == b instanceof List", "(== a (instanceof b List))"),
    ("a == b & c", "(& (== a b) c)"),
    ("a & b == c", "(& a (== b c))"),
    ("a & b ^ c", "(^ (& a b) c)"),
    ("a ^ b & c", "(^ a (& b c))"),
    ("a ^ b | c", "(| (^ a b) c)"),
    ("a | b ^ c", "(| a (^ b c))"),
    ("a | b && c", "(&& (| a b) c)"),
    ("a && b | c", "(&& a (| b c))"),
    ("a && b || c", "(|| (&& a b) c)"),
    ("a || b && c", "(|| a (&& b c))"),
    ("a || b ?: c", "(?: (|| a b) c)"),
    ("a ?: b || c", "(?: a (|| b c))"),
    ("a ?: b ? c : d", "(? (?: a b) c d)"),
    ("a ? b : c ?: d", "(? a b (?: c d))"),
];

/// Operators of one level, and their trees.
pub const OPERATORS_IN_A_ROW: [(&str, &str); 25] = [
    ("8-3-2;", "(- (- 8 3) 2)"),
    ("a + b - c", "(- (+ a b) c)"),
    ("8*3/2%5", "(% (/ (* 8 3) 2) 5)"),
    ("a<<b>>c>>>d", "(>>> (>> (<< a b) c) d)"),
    ("a<b<=c>d>=e", "(>= (> (<= (< a b) c) d) e)"),
    (
        "a instanceof List instanceof int",
        "(instanceof (instanceof a List) int)",
    ),
    ("a==b!=c===d!==e", "(!== (=== (!= (== a b) c) d) e)"),
    ("a&b&c", "(& (& a b) c)"),
    ("a^b^c", "(^ (^ a b) c)"),
    ("a|b|c", "(| (| a b) c)"),
    ("a&&b&&c", "(&& (&& a b) c)"),
    ("a||b||c", "(|| (|| a b) c)"),
    ("a ?: b ?: c", "(?: a (?: b c))"),
    ("a ? b : c ? d : e", "(? a b (? c d e))"),
    ("a ? b ? c : d : e", "(? a (? b c d) e)"),
    ("x = y = 1", "(= x (= y 1))"),
    ("x = a ? b : c", "(= x (? a b c))"),
    ("a ? x = 1 : y = 2", "(? a (= x 1) (= y 2))"),
    ("a + b = c ?: d", "(= (+ a b) (?: c d))"),
    ("x += y -= 1", "(+= x (-= y 1))"),
    ("a *= b /= c %= 1", "(*= a (/= b (%= c 1)))"),
    ("a &= b ^= c |= 1", "(&= a (^= b (|= c 1)))"),
    ("a <<= b >>= c >>>= 1", "(<<= a (>>= b (>>>= c 1)))"),
    ("a instanceof int[][] == b", "(== (instanceof a int[][]) b)"),
    ("a instanceof Foo[]", "(instanceof a Foo[])"),
];

/// Unary operators and casts, and their trees.
pub const UNARY_OPERATORS_AND_CASTS: [(&str, &str); 25] = [
    ("-x.y[0]++", "(neg (post++ (index (. x y) 0)))"),
    ("!a instanceof B", "(instanceof (! a) B)"),
    ("+-!~x", "(pos (neg (! (~ x))))"),
    ("- -x", "(neg (neg x))"),
    ("++x.y", "(pre++ (. x y))"),
    ("--x + x--", "(+ (pre-- x) (post-- x))"),
    ("x++ + ++x", "(+ (post++ x) (pre++ x))"),
    ("(x)++", "(post++ (paren x))"),
    ("-++x", "(neg (pre++ x))"),
    ("(int)-1", "(cast int (neg 1))"),
    ("(x)-1", "(- (paren x) 1)"),
    ("(int) x * y", "(* (cast int x) y)"),
    ("(int) x.y++", "(cast int (post++ (. x y)))"),
    ("(int) (long) x", "(cast int (cast long x))"),
    ("-(int) x", "(neg (cast int x))"),
    ("(List) x", "(cast List x)"),
    ("(int[]) x", "(cast int[] x)"),
    ("(Map.Entry[][]) x", "(cast Map.Entry[][] x)"),
    ("(def) x", "(cast def x)"),
    ("(def) (x)", "(cast def (paren x))"),
    ("(Math.max(1, 2))", "(paren (. Math max() 1 2))"),
    ("(List.x) + 2", "(+ (paren (. List x)) 2)"),
    ("(int[].length)", "(paren (. int[] length))"),
    ("((List) x).y", "(. (paren (cast List x)) y)"),
    ("(x = 1)", "(paren (= x 1))"),
];

/// Literals, brackets, names, calls and members, and their trees.
pub const PRIMARIES_AND_MEMBERS: [(&str, &str); 22] = [
    ("[true, false, null]", "[true false null]"),
    ("0x1F; 010L; 'a'; \"b\"", "0x1F 010L 'a' \"b\""),
    ("[]", "[]"),
    ("[1]", "[1]"),
    ("[:]", "[:]"),
    ("[1:2]", "[1:2]"),
    ("[1:2,3:4]", "[1:2 3:4]"),
    ("[a ? b : c : d]", "[(? a b c):d]"),
    ("[[1], [:]]", "[[1] [:]]"),
    ("[1][0].x", "(. (index [1] 0) x)"),
    ("f()", "(call f)"),
    ("f(1, g(x))", "(call f 1 (call g x))"),
    ("'a'.length()", "(. 'a' length())"),
    ("x.y", "(. x y)"),
    ("x?.y?.z()", "(?. (?. x y) z())"),
    ("x.0.1", "(. (. x 0) 1)"),
    ("x?.0", "(?. x 0)"),
    ("x.if(1)", "(. x if() 1)"),
    (
        "x.y(1, z -> z)[2].w",
        "(. (index (. x y() 1 (-> (z) z)) 2) w)",
    ),
    ("List?.of", "(?. List of)"),
    ("def.x[0]", "(index (. def x) 0)"),
    ("x[y = 1]", "(index x (= y 1))"),
];

/// New objects and arrays, and their trees.
pub const CREATIONS: [(&str, &str); 14] = [
    ("new List()", "(new List)"),
    ("new Foo(1, x -> x)", "(new Foo 1 (-> (x) x))"),
    ("new List(x).y[0]", "(index (. (new List x) y) 0)"),
    ("new List[](1)", "(new List[] 1)"),
    ("new int[][](1)", "(new int[][] 1)"),
    ("new int[][][]()", "(new int[][][])"),
    ("new int[2]", "(array int 2)"),
    ("new int[2][3]", "(array int 2 3)"),
    ("new Foo[x + 1]", "(array Foo (+ x 1))"),
    ("new int[2].x[0]", "(index (. (array int 2) x) 0)"),
    ("new int[] {}", "(items int)"),
    ("new int[] {1, 2}", "(items int 1 2)"),
    ("new def[] {1}[0].x", "(. (index (items def 1) 0) x)"),
    (
        "-new int[] {1}[0]++",
        "(neg (post++ (index (items int 1) 0)))",
    ),
];

/// Lambdas and references to functions, and their trees.
pub const LAMBDAS_AND_REFERENCES: [(&str, &str); 23] = [
    (
        "f(x -> x, (a,b) -> { return a }, this::g, List::size, int[]::new)",
        "(call f (-> (x) x) (-> (a, b) {(return a)}) (:: this g) (:: List size) (:: int[] new))",
    ),
    ("f(int x -> x)", "(call f (-> (int x) x))"),
    ("f(Foo[] x -> x)", "(call f (-> (Foo[] x) x))"),
    ("f(x -> {})", "(call f (-> (x) {}))"),
    ("f(x -> a ? b : c)", "(call f (-> (x) (? a b c)))"),
    ("f(() -> 1)", "(call f (-> () 1))"),
    ("f((x) -> x)", "(call f (-> (x) x))"),
    ("f((int x) -> x)", "(call f (-> (int x) x))"),
    (
        "f((List x, y, Foo z) -> x)",
        "(call f (-> (List x, y, Foo z) x))",
    ),
    ("f((int[] x) -> x)", "(call f (-> (int[] x) x))"),
    ("f((Foo[] x) -> x)", "(call f (-> (Foo[] x) x))"),
    ("f((x))", "(call f (paren x))"),
    (
        "f((x)[0], (x) + 1)",
        "(call f (index (paren x) 0) (+ (paren x) 1))",
    ),
    ("f((x[0]))", "(call f (paren (index x 0)))"),
    ("f((int) x)", "(call f (cast int x))"),
    ("f((int[]) x)", "(call f (cast int[] x))"),
    ("f((List.of(1)))", "(call f (paren (. List of() 1)))"),
    (
        "f(x[0], x.y, x = y)",
        "(call f (index x 0) (. x y) (= x y))",
    ),
    ("f(List.x, int[].y)", "(call f (. List x) (. int[] y))"),
    ("f(Foo::bar)", "(call f (:: Foo bar))"),
    ("f(Foo[]::new)", "(call f (:: Foo[] new))"),
    ("f(def::x, int::new)", "(call f (:: def x) (:: int new))"),
    (
        "f(this::if, List::int)",
        "(call f (:: this if) (:: List int))",
    ),
];
