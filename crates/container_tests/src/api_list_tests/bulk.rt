//! Rows of the members that ask for each element of another collection, or for each of a list's own items in one.
use super::sample::{Lists, OBJECTS};
use member_rows::first_wrong;
use std::test::Fail;

const ROWS: &str = "\
# Collection: boolean containsAll(Collection)
101 @0 @1 | true | 0 | @0 5 [1, b, 1, null]
101 @0 @0 | true | 0 | @0 5 [1, b, 1, null]
101 @0 @3 | false | 0 | @0 5 [1, b, 1, null]
101 @0 @7 | true | 0 | @0 5 [1, b, 1, null]
101 @13 @7 | false | 0 | @13 4 [3, 1, 2, 1]
101 @14 @6 | true | 0 | @14 0 [b, , ab, a]
101 @0 @9 | false | 0 | @0 5 [1, b, 1, null]
101 @0 @12 | true | 0 | @0 5 [1, b, 1, null]
101 @1 @8 | false | 0 | @1 0 []
101 @2 @2 | true | 0 | @2 0 [7]
101 @0 null | !NullPointerException | 1 | @0 5 [1, b, 1, null]
101 @0 @10 | !NullPointerException | 1 | @0 5 [1, b, 1, null]
101 @25 @25 | true | 0 | @1 0 []
101 @1 @0 | false | 0 | @1 0 []
101 @3 @13 | false | 0 | @3 2 [1, 1, true]
101 null @0 | !NullPointerException | 1 | @1 0 []
# Collection: boolean removeAll(Collection)
104 @0 @3 | true | 0 | @0 7 [b, null]
104 @0 @0 | true | 0 | @0 9 []
104 @0 @1 | false | 0 | @0 5 [1, b, 1, null]
104 @0 @9 | true | 0 | @0 7 [b, null]
104 @0 @7 | true | 0 | @0 8 [b]
104 @14 @6 | true | 0 | @14 2 [, ab]
104 @16 @4 | true | 0 | @16 1 [[]]
104 @2 @1 | !UnsupportedOperationException | 1 | @2 0 [7]
104 @2 null | !UnsupportedOperationException | 1 | @2 0 [7]
104 @0 null | !NullPointerException | 1 | @0 5 [1, b, 1, null]
104 @0 @10 | !NullPointerException | 1 | @0 5 [1, b, 1, null]
104 @3 @13 | true | 0 | @3 3 [1, true]
104 @4 @16 | true | 0 | @4 1 [x]
104 @25 @25 | true | 0 | @25 1 []
104 @1 @0 | false | 0 | @1 0 []
104 null @0 | !NullPointerException | 1 | @1 0 []
# Collection: boolean retainAll(Collection)
105 @0 @3 | true | 0 | @0 7 [1, 1]
105 @0 @0 | false | 0 | @0 5 [1, b, 1, null]
105 @0 @1 | true | 0 | @0 9 []
105 @0 @9 | true | 0 | @0 7 [1, 1]
105 @0 @8 | true | 0 | @0 9 []
105 @13 @7 | true | 0 | @13 6 [1, 1]
105 @15 @3 | true | 0 | @15 1 [true, true]
105 @1 @0 | false | 0 | @1 0 []
105 @2 @2 | !UnsupportedOperationException | 1 | @2 0 [7]
105 @0 null | !NullPointerException | 1 | @0 5 [1, b, 1, null]
105 @3 @13 | true | 0 | @3 4 [1]
105 @4 @16 | true | 0 | @4 1 [[1, b, 1, null]]
105 @25 @25 | false | 0 | @1 0 []
105 @2 null | !UnsupportedOperationException | 1 | @2 0 [7]
105 null @0 | !NullPointerException | 1 | @1 0 []";

#[test]
fn bulk(rt: HostRuntime) -> Result<(), Fail> {
    let wrong = first_wrong::<Lists>(rt.alloc(), OBJECTS, ROWS);
    assert!(rt; wrong == 0, "line {wrong}");
    Ok(())
}
