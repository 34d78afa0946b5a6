//! Rows of removeAll, retainAll and size.
use super::sample::{Maps, OBJECTS};
use member_rows::first_wrong;
use std::test::Fail;

const ROWS: &str = "\
# Collection: boolean removeAll(Collection)
104 @6 @10 | true | 0 | @6 3 [1]
104 @6 @6 | true | 0 | @6 4 []
104 @6 @28 | false | 0 | @6 2 [x, 1]
104 @28 @6 | false | 0 | @28 3 []
104 @6 @11 | false | 0 | @6 2 [x, 1]
104 @6 @3 | false | 0 | @6 2 [x, 1]
104 @19 @1 | true | 0 | @19 2 []
104 @1 @19 | true | 0 | @0 7 {}
104 @1 @1 | true | 0 | @0 7 {}
104 @2 @22 | true | 0 | @0 7 {}
104 @3 @3 | true | 0 | @0 7 {}
104 @3 @21 | true | 0 | @0 6 {a=1}
104 @3 @23 | true | 0 | @0 6 {b=null}
104 @25 @26 | true | 0 | @24 2 {}
104 @15 @28 | !UnsupportedOperationException | 1 | @15 0 [x]
104 @15 null | !UnsupportedOperationException | 1 | @15 0 [x]
104 @6 null | !NullPointerException | 1 | @6 2 [x, 1]
104 @29 @3 | !UnsupportedOperationException | 1 | @7 0 {k=7}
104 @32 @33 | !IllegalStateException: value nested too deeply | 24 | @12 0 {}
104 @34 @6 | true | 0 | @34 1 [null, true, a, 1, 1, 1, 1]
104 @34 @34 | true | 0 | @34 8 []
104 @1 @2 | false | 0 | @0 5 {a=1, b=null}
104 @1 @10 | false | 0 | @0 5 {a=1, b=null}
104 @35 @28 | !UnsupportedOperationException | 1 | @9 0 {op=index, id=3}
104 null @6 | !NullPointerException | 1 | @6 2 [x, 1]
# Collection: boolean retainAll(Collection)
105 @6 @10 | true | 0 | @6 3 [x]
105 @6 @6 | false | 0 | @6 2 [x, 1]
105 @6 @28 | true | 0 | @6 4 []
105 @28 @6 | false | 0 | @28 3 []
105 @1 @1 | false | 0 | @0 5 {a=1, b=null}
105 @1 @6 | true | 0 | @0 7 {}
105 @2 @22 | false | 0 | @0 5 {a=1, b=null}
105 @3 @21 | true | 0 | @0 6 {b=null}
105 @31 @3 | false | 0 | @30 0 {a=a=1}
105 @25 @26 | false | 0 | @24 1 {p=[x, 2, x]}
105 @15 @15 | !UnsupportedOperationException | 1 | @15 0 [x]
105 @14 null | !UnsupportedOperationException | 1 | @7 0 {k=7}
105 @6 null | !NullPointerException | 1 | @6 2 [x, 1]
105 @32 @33 | !IllegalStateException: value nested too deeply | 24 | @12 0 {}
105 @34 @6 | true | 0 | @34 7 [1]
105 @34 @34 | false | 0 | @34 0 [null, true, a, 1, 1, 1, 1, 1]
105 @2 @28 | true | 0 | @0 7 {}
105 @35 @35 | !UnsupportedOperationException | 1 | @9 0 {op=index, id=3}
105 null @6 | !NullPointerException | 1 | @6 2 [x, 1]
# Collection: int size()
106 @6 | 2 | 0 | @6 2 [x, 1]
106 @28 | 0 | 0 | @28 3 []
106 @3 | 2 | 0 | @0 5 {a=1, b=null}
106 @1 | 2 | 0 | @0 5 {a=1, b=null}
106 @35 | 2 | 0 | @9 0 {op=index, id=3}
106 null | !NullPointerException | 1 | @6 2 [x, 1]";

#[test]
fn bulk(rt: HostRuntime) -> Result<(), Fail> {
    let wrong = first_wrong::<Maps>(rt.alloc(), OBJECTS, ROWS);
    assert!(rt; wrong == 0, "line {wrong}");
    Ok(())
}
