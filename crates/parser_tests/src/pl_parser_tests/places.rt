//! Scripts and the places of their nodes.

/// Scripts of one expression, and their trees with places.
pub const PLACES_OF_EXPRESSIONS: [(&str, &str); 25] = [
    (" 8-3-2", "@1(-@4 (-@2 8@1 3@3) 2@5)"),
    ("a ? b : c", "@0(?@2 a@0 b@4 c@8)"),
    ("a ?: b", "@0(?:@2 a@0 b@5)"),
    ("x = y += 1", "@0(=@2 x@0 (+=@6 y@4 1@9))"),
    ("a instanceof int[]", "@0(instanceof@2 a@0 int@13[]@16)"),
    (" -x", "@1(neg@1 x@2)"),
    ("++ x", "@0(pre++@0 x@3)"),
    ("x.y++", "@0(post++@0 (. x@0 y@2))"),
    ("-x++", "@0(neg@0 (post++@1 x@1))"),
    ("1 + (int) x", "@0(+@2 1@0 (cast@4 int@5 x@10))"),
    (" (x)", "@1(paren@1 x@2)"),
    ("[1, 'a']", "@0[1@1 'a'@4]@0"),
    (" [1:true]", "@1[1@2:true@4]@1"),
    (" [:]", "@1[:]@1"),
    ("1 + f(x)", "@0(+@2 1@0 (call f@4 x@6))"),
    ("x. y", "@0(. x@0 y@3)"),
    ("x?.y(1)", "@0(?. x@0 y()@3 1@5)"),
    ("x.0", "@0(. x@0 0@2)"),
    ("x[0][1]", "@0(index@4 (index@1 x@0 0@2) 1@5)"),
    ("1 + new List(x)", "@0(+@2 1@0 (new@4 List@8 x@13))"),
    ("new List[](x)", "@0(new@0 List@4[]@8 x@11)"),
    (" new int[2]", "@1(array@1 int@5 2@9)"),
    (" new int[] {2}", "@1(items@1 int@5 2@12)"),
    ("int[].x", "@0(. int@0[]@3 x@6)"),
    ("'\u{e9}' + 1", "@0(+@5 '\u{e9}'@0 1@7)"),
];

/// Scripts of statements and functions, and their trees with places.
pub const PLACES_OF_STATEMENTS: [(&str, &str); 15] = [
    (
        " int[] f(List a) {x}",
        "(fun int@1[]@4 f@7 (List@9 a@14) {@18x@18}@17)",
    ),
    (" if (a) {} else b", "(if@1 a@5 {}@8 else @16b@16)"),
    (" while (a);", "(while@1 a@8 ;)"),
    (" for (i;;) {}", "(for@1 i@6 _ _ {}@11)"),
    (" for (int x : l) {}", "(each@1 int@6 x@10 l@14 {}@17)"),
    (" for (x in l) {}", "(in@1 x@6 l@11 {}@14)"),
    (
        "try {} catch (Foo e) {}",
        "(try@0 {}@4 (catch@7 Foo@14 e@18 {}@21))",
    ),
    (" do {} while (y)", "(do@1 {}@4 y@14)"),
    (" int x, y = 1", "(declare int@1 x@5 y@8=1@12)"),
    (" continue; break", "continue@1 break@11"),
    (" return 1", "(return@1 1@8)"),
    (" throw x", "(throw@1 x@7)"),
    (
        "f(x -> x, (a, int b) -> {})",
        "@0(call f@0 (->@2 (x@2) x@7) (->@10 (a@11, int@14 b@18) {}@24))",
    ),
    ("f(int x -> x)", "@0(call f@0 (->@2 (int@2 x@6) x@11))"),
    (
        "f(this::g, List::h, int::new)",
        "@0(call f@0 (:: this@2 g) (:: List@11 h) (:: int@20 new))",
    ),
];
