//! Rows of the members that take all elements of a collection.
use super::sample::{Lists, OBJECTS};
use member_rows::first_wrong;
use std::test::Fail;

const ROWS: &str = "\
# Collection: boolean addAll(Collection)
98 @0 @3 | true | 3 | @0 8 [1, b, 1, null, 1, 1, true]
98 @0 @0 | true | 4 | @0 9 [1, b, 1, null, 1, b, 1, null]
98 @0 @1 | false | 0 | @0 5 [1, b, 1, null]
98 @1 @0 | true | 4 | @1 4 [1, b, 1, null]
98 @1 @2 | true | 1 | @1 1 [7]
98 @1 @6 | true | 2 | @1 2 [a, b]
98 @1 @7 | true | 2 | @1 2 [1, null]
98 @1 @8 | true | 8 | @1 2 [a=1, b=null]
98 @0 @8 | true | 8 | @0 7 [1, b, 1, null, a=1, b=null]
98 @0 @12 | false | 0 | @0 5 [1, b, 1, null]
98 @1 @9 | true | 2 | @1 2 [x, 1]
98 @0 @10 | !NullPointerException | 1 | @0 5 [1, b, 1, null]
98 @0 null | !NullPointerException | 1 | @0 5 [1, b, 1, null]
98 null @0 | !NullPointerException | 1 | @0 5 [1, b, 1, null]
98 @2 @0 | !UnsupportedOperationException | 1 | @2 0 [7]
98 @2 @1 | !UnsupportedOperationException | 1 | @2 0 [7]
98 @2 @8 | !UnsupportedOperationException | 1 | @2 0 [7]
98 @2 null | !UnsupportedOperationException | 1 | @2 0 [7]
98 @1 @1 | false | 0 | @1 0 []
98 @1 @26 | false | 0 | @1 0 []
98 @25 @25 | true | 1 | @1 0 []
98 @4 @4 | true | 2 | @4 2 [[1, b, 1, null], x, [1, b, 1, null], x]
98 @0 @5 | !NullPointerException | 1 | @0 5 [1, b, 1, null]
# List: boolean addAll(int, Collection)
114 @0 0 @3 | true | 3 | @0 8 [1, 1, true, 1, b, 1, null]
114 @0 4 @3 | true | 3 | @0 8 [1, b, 1, null, 1, 1, true]
114 @0 1 @0 | true | 4 | @0 9 [1, 1, b, 1, null, b, 1, null]
114 @0 2 @8 | true | 8 | @0 7 [1, b, a=1, b=null, 1, null]
114 @0 2 @1 | false | 0 | @0 5 [1, b, 1, null]
114 @0 5 @3 | !IndexOutOfBoundsException: Index 5 out of bounds for length 4 | 35 | @0 5 [1, b, 1, null]
114 @0 -1 @8 | !IndexOutOfBoundsException: Index -1 out of bounds for length 4 | 36 | @0 5 [1, b, 1, null]
114 @0 -2147483648 null | !IndexOutOfBoundsException: Index -2147483648 out of bounds for length 4 | 45 | @0 5 [1, b, 1, null]
114 @0 0 null | !NullPointerException | 1 | @0 5 [1, b, 1, null]
114 @2 9 null | !UnsupportedOperationException | 1 | @2 0 [7]
114 @1 0 @1 | false | 0 | @1 0 []
114 @1 0 @2 | true | 1 | @1 1 [7]
114 @13 1 @13 | true | 4 | @13 8 [3, 3, 1, 2, 1, 1, 2, 1]
114 @0 4 @0 | true | 4 | @0 9 [1, b, 1, null, 1, b, 1, null]
114 @0 0 @6 | true | 2 | @0 7 [a, b, 1, b, 1, null]
114 @1 1 @2 | !IndexOutOfBoundsException: Index 1 out of bounds for length 0 | 35 | @1 0 []
114 @0 2147483647 @3 | !IndexOutOfBoundsException: Index 2147483647 out of bounds for length 4 | 44 | @0 5 [1, b, 1, null]
114 @0 null @3 | !NullPointerException | 1 | @0 5 [1, b, 1, null]
114 null 0 @3 | !NullPointerException | 1 | @1 0 []
# ArrayList: ArrayList(Collection)
124 @0 | @28 | 5 | @28 0 [1, b, 1, null]
124 @1 | @28 | 1 | @28 0 []
124 @2 | @28 | 2 | @28 0 [7]
124 @6 | @28 | 3 | @28 0 [a, b]
124 @8 | @30 | 9 | @30 0 [a=1, b=null]
124 @9 | @28 | 3 | @28 0 [x, 1]
124 @12 | @28 | 1 | @28 0 []
124 @10 | !NullPointerException | 1 | @0 5 [1, b, 1, null]
124 null | !NullPointerException | 1 | @0 5 [1, b, 1, null]
124 @4 | @28 | 3 | @28 0 [[1, b, 1, null], x]
124 @26 | @28 | 1 | @28 0 []
124 @5 | !NullPointerException | 1 | @1 0 []
# Iterable: List asList()
89 @6 | @28 | 3 | @28 0 [a, b]
89 @8 | @30 | 9 | @30 0 [a=1, b=null]
89 @9 | @28 | 3 | @28 0 [x, 1]
89 @5 | !NullPointerException | 1 | @0 5 [1, b, 1, null]
89 @7 | @28 | 3 | @28 0 [1, null]
89 @12 | @28 | 1 | @28 0 []
# Collection: def[] toArray()
107 @7 | @28 | 3 | @28 0 [1, null]
107 @8 | @30 | 9 | @30 0 [a=1, b=null]
107 @9 | @28 | 3 | @28 0 [x, 1]
107 @12 | @28 | 1 | @28 0 []
107 @5 | !NullPointerException | 1 | @0 5 [1, b, 1, null]";

#[test]
fn taking(rt: HostRuntime) -> Result<(), Fail> {
    let wrong = first_wrong::<Lists>(rt.alloc(), OBJECTS, ROWS);
    assert!(rt; wrong == 0, "line {wrong}");
    Ok(())
}
