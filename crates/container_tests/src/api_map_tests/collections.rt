//! Rows of the members of Collection, of sets and of views, that take or ask for one element.
use super::sample::{Maps, OBJECTS};
use member_rows::first_wrong;
use std::test::Fail;

const ROWS: &str = "\
# Collection: boolean add(def)
97 @6 2 | true | 1 | @6 3 [x, 1, 2]
97 @6 1 | false | 0 | @6 2 [x, 1]
97 @6 1L | true | 1 | @6 3 [x, 1, 1]
97 @6 null | true | 1 | @6 3 [x, 1, null]
97 @28 'a' | true | 1 | @28 4 [a]
97 @6 @10 | !IllegalArgumentException: key must be a simple value | 27 | @6 2 [x, 1]
97 @15 'x' | !UnsupportedOperationException | 1 | @15 0 [x]
97 @15 @10 | !UnsupportedOperationException | 1 | @15 0 [x]
97 @1 'c' | !UnsupportedOperationException | 1 | @0 5 {a=1, b=null}
97 null 1 | !NullPointerException | 1 | @0 5 {a=1, b=null}
97 @34 1 | false | 0 | @34 0 [null, true, a, 1, 1, 1, 1, 1]
97 @34 null | false | 0 | @34 0 [null, true, a, 1, 1, 1, 1, 1]
97 @34 'a' | true | 1 | @34 1 [null, true, a, 1, 1, 1, 1, 1, a]
97 @34 '1'c | true | 1 | @34 1 [null, true, a, 1, 1, 1, 1, 1, 1]
97 @34 2b | true | 1 | @34 1 [null, true, a, 1, 1, 1, 1, 1, 2]
97 @6 @6 | !IllegalArgumentException: key must be a simple value | 27 | @6 2 [x, 1]
97 @2 1 | !UnsupportedOperationException | 1 | @0 5 {a=1, b=null}
97 @3 @4 | !UnsupportedOperationException | 1 | @0 5 {a=1, b=null}
97 @12 1 | !NullPointerException | 1 | @12 0 {}
# Collection: boolean addAll(Collection)
98 @6 @10 | true | 1 | @6 3 [x, 1, 2]
98 @6 @6 | false | 0 | @6 2 [x, 1]
98 @6 @1 | true | 2 | @6 4 [x, 1, a, b]
98 @6 @2 | true | 1 | @6 3 [x, 1, null]
98 @6 @28 | false | 0 | @6 2 [x, 1]
98 @6 @11 | !IllegalArgumentException: key must be a simple value | 27 | @6 2 [x, 1]
98 @6 @3 | !IllegalArgumentException: key must be a simple value | 27 | @6 2 [x, 1]
98 @6 null | !NullPointerException | 1 | @6 2 [x, 1]
98 @15 null | !UnsupportedOperationException | 1 | @15 0 [x]
98 @1 @6 | !UnsupportedOperationException | 1 | @0 5 {a=1, b=null}
98 @28 @34 | true | 8 | @28 11 [null, true, a, 1, 1, 1, 1, 1]
98 @34 @6 | true | 1 | @34 1 [null, true, a, 1, 1, 1, 1, 1, x]
98 @6 @14 | true | 1 | @6 3 [x, 1, k]
98 @6 @12 | !NullPointerException | 1 | @6 2 [x, 1]
98 @15 @28 | !UnsupportedOperationException | 1 | @15 0 [x]
98 @2 @28 | !UnsupportedOperationException | 1 | @0 5 {a=1, b=null}
98 null @6 | !NullPointerException | 1 | @6 2 [x, 1]
# Collection: void clear()
99 @6 | null | 0 | @6 3 []
99 @28 | null | 0 | @28 3 []
99 @1 | null | 0 | @0 6 {}
99 @15 | !UnsupportedOperationException | 1 | @15 0 [x]
99 @14 | !UnsupportedOperationException | 1 | @7 0 {k=7}
99 @2 | null | 0 | @0 6 {}
99 @3 | null | 0 | @0 6 {}
99 @35 | !UnsupportedOperationException | 1 | @9 0 {op=index, id=3}
99 null | !NullPointerException | 1 | @6 2 [x, 1]
# Collection: boolean contains(def)
100 @6 'x' | true | 0 | @6 2 [x, 1]
100 @6 1L | false | 0 | @6 2 [x, 1]
100 @28 null | false | 0 | @28 3 []
100 @6 @10 | !IllegalArgumentException: key must be a simple value | 27 | @6 2 [x, 1]
100 @1 'b' | true | 0 | @0 5 {a=1, b=null}
100 @2 null | true | 0 | @0 5 {a=1, b=null}
100 @2 1L | false | 0 | @0 5 {a=1, b=null}
100 @3 @4 | true | 0 | @0 5 {a=1, b=null}
100 @3 @5 | false | 0 | @0 5 {a=1, b=null}
100 @21 @4 | false | 0 | @0 5 {a=1, b=null}
100 @3 1 | false | 0 | @0 5 {a=1, b=null}
100 @25 @27 | true | 0 | @24 1 {p=[x, 2, x]}
100 @32 @18 | !IllegalStateException: value nested too deeply | 24 | @12 0 {}
100 @34 null | true | 0 | @34 0 [null, true, a, 1, 1, 1, 1, 1]
100 @34 1s | true | 0 | @34 0 [null, true, a, 1, 1, 1, 1, 1]
100 @34 'a' | false | 0 | @34 0 [null, true, a, 1, 1, 1, 1, 1]
100 @34 false | false | 0 | @34 0 [null, true, a, 1, 1, 1, 1, 1]
100 @1 null | false | 0 | @0 5 {a=1, b=null}
100 @1 @10 | !IllegalArgumentException: key must be a simple value | 27 | @0 5 {a=1, b=null}
100 @3 null | false | 0 | @0 5 {a=1, b=null}
100 @35 'op' | true | 0 | @9 0 {op=index, id=3}
100 null 1 | !NullPointerException | 1 | @6 2 [x, 1]
# Collection: boolean containsAll(Collection)
101 @6 @28 | true | 0 | @6 2 [x, 1]
101 @6 @6 | true | 0 | @6 2 [x, 1]
101 @6 @10 | false | 0 | @6 2 [x, 1]
101 @6 @19 | false | 0 | @6 2 [x, 1]
101 @1 @19 | true | 0 | @0 5 {a=1, b=null}
101 @19 @1 | true | 0 | @19 0 [a, b]
101 @2 @22 | true | 0 | @0 5 {a=1, b=null}
101 @6 @11 | false | 0 | @6 2 [x, 1]
101 @6 @23 | !IllegalArgumentException: key must be a simple value | 27 | @6 2 [x, 1]
101 @6 @3 | !IllegalArgumentException: key must be a simple value | 27 | @6 2 [x, 1]
101 @3 @3 | true | 0 | @0 5 {a=1, b=null}
101 @21 @3 | false | 0 | @0 5 {a=1, b=null}
101 @3 @23 | false | 0 | @0 5 {a=1, b=null}
101 @31 @3 | false | 0 | @30 0 {a=a=1}
101 @25 @26 | true | 0 | @24 1 {p=[x, 2, x]}
101 @32 @33 | !IllegalStateException: value nested too deeply | 24 | @12 0 {}
101 @6 null | !NullPointerException | 1 | @6 2 [x, 1]
101 @15 @15 | true | 0 | @15 0 [x]
101 @34 @34 | true | 0 | @34 0 [null, true, a, 1, 1, 1, 1, 1]
101 @28 @6 | false | 0 | @28 3 []
101 null @6 | !NullPointerException | 1 | @6 2 [x, 1]
# Collection: boolean isEmpty()
102 @28 | true | 0 | @28 3 []
102 @6 | false | 0 | @6 2 [x, 1]
102 @1 | false | 0 | @0 5 {a=1, b=null}
102 null | !NullPointerException | 1 | @0 5 {a=1, b=null}
102 @35 | false | 0 | @9 0 {op=index, id=3}
# Collection: boolean remove(def)
103 @6 'x' | true | 0 | @6 3 [1]
103 @6 1L | false | 0 | @6 2 [x, 1]
103 @6 @10 | !IllegalArgumentException: key must be a simple value | 27 | @6 2 [x, 1]
103 @15 'z' | !UnsupportedOperationException | 1 | @15 0 [x]
103 @1 'a' | true | 0 | @0 6 {b=null}
103 @2 null | true | 0 | @0 6 {a=1}
103 @3 @4 | true | 0 | @0 6 {b=null}
103 @3 @5 | false | 0 | @0 5 {a=1, b=null}
103 @14 'k' | !UnsupportedOperationException | 1 | @7 0 {k=7}
103 @25 @27 | true | 0 | @24 2 {}
103 @34 1 | true | 0 | @34 1 [null, true, a, 1, 1, 1, 1]
103 @34 null | true | 0 | @34 1 [true, a, 1, 1, 1, 1, 1]
103 @28 1 | false | 0 | @28 3 []
103 @1 'z' | false | 0 | @0 5 {a=1, b=null}
103 @1 @10 | !IllegalArgumentException: key must be a simple value | 27 | @0 5 {a=1, b=null}
103 @2 5 | false | 0 | @0 5 {a=1, b=null}
103 @3 null | false | 0 | @0 5 {a=1, b=null}
103 @35 'op' | !UnsupportedOperationException | 1 | @9 0 {op=index, id=3}
103 null 1 | !NullPointerException | 1 | @6 2 [x, 1]";

#[test]
fn collections(rt: HostRuntime) -> Result<(), Fail> {
    let wrong = first_wrong::<Maps>(rt.alloc(), OBJECTS, ROWS);
    assert!(rt; wrong == 0, "line {wrong}");
    Ok(())
}
