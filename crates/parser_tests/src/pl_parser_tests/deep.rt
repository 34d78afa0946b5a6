//! Scripts that nest.

/// What nests is read as deep as the nesting rule allows.
pub const DEEP_BRACKETS: [(usize, (&str, &str, &str), (&str, &str, &str)); 9] = [
    (200, ("(", "1", ")"), ("(paren ", "1", ")")),
    (200, ("[", "1", "]"), ("[", "1", "]")),
    (200, ("x[", "1", "]"), ("(index x ", "1", ")")),
    (200, ("f(", "1", ")"), ("(call f ", "1", ")")),
    (200, ("if(x){", "x", "}"), ("(if x {", "x", "})")),
    (100, ("([", "1", "])"), ("(paren [", "1", "])")),
    (
        100,
        ("f(()->{", "x", "})"),
        ("(call f (-> () {", "x", "}))"),
    ),
    (199, ("(a?b:", "c", ")"), ("(paren (? a b ", "c", "))")),
    (
        199,
        ("f(x->!", "x", ")"),
        ("(call f (-> (x) (! ", "x", ")))"),
    ),
];

/// And as far as a token may reach.
pub const FAR_TOKENS: [(usize, (&str, &str, &str), (&str, &str, &str)); 10] = [
    (999, ("!", "x", ""), ("(! ", "x", ")")),
    (990, ("- ", "x", ""), ("(neg ", "x", ")")),
    (499, ("(int)", "x", ""), ("(cast int ", "x", ")")),
    (249, ("a?b:", "c", ""), ("(? a b ", "c", ")")),
    (499, ("a?:", "a", ""), ("(?: a ", "a", ")")),
    (499, ("x=", "1", ""), ("(= x ", "1", ")")),
    (499, ("", "1", "+1"), ("(+ ", "1", " 1)")),
    (499, ("", "x", ".y"), ("(. ", "x", " y)")),
    (333, ("if(a)", "x", ""), ("(if a ", "x", ")")),
    (
        166,
        ("if(x)y;else ", "if(x)y", ""),
        ("(if x y else ", "(if x y)", ")"),
    ),
];

/// What nests deeper than the nesting rule allows: so many times the parts around the middle, and the place of the refusal.
pub const TOO_DEEP_SCRIPTS: [(usize, (&str, &str, &str), u32); 14] = [
    (201, ("(", "1", ")"), 200),
    (201, ("[", "1", "]"), 200),
    (201, ("f(", "1", ")"), 401),
    (201, ("if(x){", "x", "}"), 1202),
    (100, ("([", "(1)", "])"), 200),
    (101, ("f(()->{", "x", "})"), 701),
    (1000, ("!", "x", ""), 1000),
    (250, ("a?b:", "c", ""), 1000),
    (500, ("", "1", "+1"), 1000),
    (500, ("", "x", ".y"), 1000),
    // An `else` goes on after the `;` before it, and after a `}`.
    (167, ("if(x)y;else ", "x", ""), 1998),
    (167, ("if(x){}else ", "x", ""), 1998),
    // This rule comes before Syntax.
    (201, (";(", "1", ")"), 401),
    (1001, ("x ", "", ""), 2000),
];

/// Lists: what opens one, what is repeated, and what closes it.
pub const LONG_LISTS: [(&str, &str, &str); 8] = [
    ("[", "x,", "x]"),
    ("[", "1:2,", "3:4]"),
    ("f(", "x,", "x)"),
    ("f((", "x,", "x) -> x)"),
    ("new int[] {", "x,", "x}"),
    ("int x", ",x=1", ""),
    ("if (a) {", "x;", "}"),
    ("try {} ", "catch(Object o){}", ""),
];

/// Scripts of some 65,000 bytes that are one statement each. What stands before the middle is so many times a part so many times and
/// a part with a `}`; what stands behind it is such a part too.
pub const DEEP_TREES: [(usize, usize, (&str, &str, &str), &str, (&str, &str, &str)); 8] = [
    // 32,000 levels to the left and to the right.
    (80, 400, ("", "", ""), "a", ("+a", "+new a[]{}", "")),
    (80, 400, ("a=", "new a[]{}=", ""), "a", ("", "", "")),
    (53, 400, ("a?:", "new a[]{}?:", ""), "a", ("", "", "")),
    // 16,000 levels in the middle.
    (
        40,
        400,
        ("a?", "new a[]{}?", ""),
        "a",
        (":a", ":new a[]{}", ""),
    ),
    // To the left and to the right in turns.
    (40, 200, ("a=a+", "new a[]{}=", ""), "a", ("", "", "")),
    (
        52,
        200,
        ("a?a:", "new a[]{}?a:", ""),
        "a",
        ("+a", "+new a[]{}", ""),
    ),
    // Statements.
    (
        38,
        280,
        ("if(a)", "try{}catch(Object o){", ""),
        "x;",
        ("", "}", ""),
    ),
    (
        2800,
        1,
        ("if(a)", "do{}while(a);else ", ""),
        "x",
        ("", "", ""),
    ),
];
