//! Rows of indexes in brackets, of lists and of arrays: 1000 reads one, and 1001 writes one.
use super::sample::{Lists, OBJECTS};
use member_rows::first_wrong;
use std::test::Fail;

const ROWS: &str = "\
# Of lists and arrays: an index in brackets that is read
1000 @0 1 | 'b' | 0 | @0 5 [1, b, 1, null]
1000 @0 -1 | null | 0 | @0 5 [1, b, 1, null]
1000 @0 -4 | 1 | 0 | @0 5 [1, b, 1, null]
1000 @0 4 | !IndexOutOfBoundsException: Index 4 out of bounds for length 4 | 35 | @0 5 [1, b, 1, null]
1000 @0 -5 | !IndexOutOfBoundsException: Index -1 out of bounds for length 4 | 36 | @0 5 [1, b, 1, null]
1000 @0 -2147483648 | !IndexOutOfBoundsException: Index -2147483644 out of bounds for length 4 | 45 | @0 5 [1, b, 1, null]
1000 @0 2147483647 | !IndexOutOfBoundsException: Index 2147483647 out of bounds for length 4 | 44 | @0 5 [1, b, 1, null]
1000 @1 0 | !IndexOutOfBoundsException: Index 0 out of bounds for length 0 | 35 | @1 0 []
1000 @1 -1 | !IndexOutOfBoundsException: Index -1 out of bounds for length 0 | 36 | @1 0 []
1000 @2 -1 | 7 | 0 | @2 0 [7]
1000 @10 -2 | 4 | 0 | @10 0 [4, 5]
1000 @10 1 | 5 | 0 | @10 0 [4, 5]
1000 @10 2 | !ArrayIndexOutOfBoundsException: Index 2 out of bounds for length 2 | 35 | @10 0 [4, 5]
1000 @10 -3 | !ArrayIndexOutOfBoundsException: Index -1 out of bounds for length 2 | 36 | @10 0 [4, 5]
1000 null 0 | !NullPointerException | 1 | @0 5 [1, b, 1, null]
1000 @5 0 | !NullPointerException | 1 | @0 5 [1, b, 1, null]
# Of lists and arrays: an index in brackets that is written
1001 @0 -1 9 | null | 0 | @0 5 [1, b, 1, 9]
1001 @0 1 null | 'b' | 0 | @0 5 [1, null, 1, null]
1001 @0 4 9 | !IndexOutOfBoundsException: Index 4 out of bounds for length 4 | 35 | @0 5 [1, b, 1, null]
1001 @0 -5 9 | !IndexOutOfBoundsException: Index -1 out of bounds for length 4 | 36 | @0 5 [1, b, 1, null]
1001 @2 0 9 | !UnsupportedOperationException | 1 | @2 0 [7]
1001 @2 5 9 | !UnsupportedOperationException | 1 | @2 0 [7]
1001 @10 -1 9 | 5 | 0 | @10 0 [4, 9]
1001 @10 2 9 | !ArrayIndexOutOfBoundsException: Index 2 out of bounds for length 2 | 35 | @10 0 [4, 5]
1001 @10 -3 9 | !ArrayIndexOutOfBoundsException: Index -1 out of bounds for length 2 | 36 | @10 0 [4, 5]
1001 null 0 9 | !NullPointerException | 1 | @0 5 [1, b, 1, null]";

#[test]
fn indexes(rt: HostRuntime) -> Result<(), Fail> {
    let wrong = first_wrong::<Lists>(rt.alloc(), OBJECTS, ROWS);
    assert!(rt; wrong == 0, "line {wrong}");
    Ok(())
}
