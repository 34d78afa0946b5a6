//! Rows of accesses.
use super::sample::{Accesses, OBJECTS};
use member_rows::first_wrong;
use std::test::Fail;

const ROWS: &str = "\
# An index: of a list it counts from the end, of a map it is a key
0 @0 1 | 'b' | 0 | @0 5 [1, b, 1, null]
0 @0 -1 | null | 0 | @0 5 [1, b, 1, null]
0 @0 1b | 'b' | 0 | @0 5 [1, b, 1, null]
0 @0 4 | !IndexOutOfBoundsException: Index 4 out of bounds for length 4 | 35 | @0 5 [1, b, 1, null]
0 @0 -5 | !IndexOutOfBoundsException: Index -1 out of bounds for length 4 | 36 | @0 5 [1, b, 1, null]
0 @0 null | !NullPointerException | 1 | @0 5 [1, b, 1, null]
0 @1 'a' | 1 | 0 | @1 3 {a=1, b=null}
0 @1 -1 | null | 0 | @1 3 {a=1, b=null}
0 @2 -1 | 5 | 0 | @2 0 [4, 5]
0 @2 2 | !ArrayIndexOutOfBoundsException: Index 2 out of bounds for length 2 | 35 | @2 0 [4, 5]
0 @2 -3 | !ArrayIndexOutOfBoundsException: Index -1 out of bounds for length 2 | 36 | @2 0 [4, 5]
0 @6 -1 | 4 | 0 | @6 0 [3, 4]
0 null 0 | !NullPointerException | 1 | @0 5 [1, b, 1, null]
0 null 'a' | !NullPointerException | 1 | @0 5 [1, b, 1, null]
0 @3 0 | !IllegalArgumentException: not a list, map or array | 25 | @3 0 [x, 1]
0 'abc' 0 | !IllegalArgumentException: not a list, map or array | 25 | @0 5 [1, b, 1, null]
# An index that is written
1 @0 -1 'z' | null | 0 | @0 5 [1, b, 1, z]
1 @0 -5 'z' | !IndexOutOfBoundsException: Index -1 out of bounds for length 4 | 36 | @0 5 [1, b, 1, null]
1 @1 'a' 2 | 1 | 0 | @1 3 {a=2, b=null}
1 @1 'c' 2 | null | 2 | @1 4 {a=1, b=null, c=2}
1 @2 -1 'z' | 5 | 0 | @2 0 [4, z]
1 @2 9 'z' | !ArrayIndexOutOfBoundsException: Index 9 out of bounds for length 2 | 35 | @2 0 [4, 5]
1 @4 5 'z' | !UnsupportedOperationException | 1 | @4 0 [7]
1 null 0 1 | !NullPointerException | 1 | @0 5 [1, b, 1, null]
1 @3 0 1 | !IllegalArgumentException: not a list, map or array | 25 | @3 0 [x, 1]
# A name
2 @1 'a' | 1 | 0 | @1 3 {a=1, b=null}
2 @1 'size' | null | 0 | @1 3 {a=1, b=null}
2 @0 '1' | 'b' | 0 | @0 5 [1, b, 1, null]
2 @0 '4' | !IndexOutOfBoundsException: Index 4 out of bounds for length 4 | 35 | @0 5 [1, b, 1, null]
2 @0 '2147483648' | !IndexOutOfBoundsException: Index 2147483648 out of bounds for length 4 | 44 | @0 5 [1, b, 1, null]
2 @0 'length' | 4 | 0 | @0 5 [1, b, 1, null]
2 @0 'empty' | false | 0 | @0 5 [1, b, 1, null]
2 @2 'length' | 2 | 0 | @2 0 [4, 5]
2 @5 'key' | 'a' | 0 | @1 3 {a=1, b=null}
2 null 'a' | !NullPointerException | 1 | @0 5 [1, b, 1, null]
# A name that is written
3 @1 'c' 2 | null | 2 | @1 4 {a=1, b=null, c=2}
3 @0 '0' 2 | 1 | 0 | @0 5 [2, b, 1, null]
3 @5 'value' 2 | 1 | 0 | @1 3 {a=2, b=null}
3 null 'a' 1 | !NullPointerException | 1 | @0 5 [1, b, 1, null]
# A call: the arguments are cast to what the member takes
4 @0 'size' | 4 | 0 | @0 5 [1, b, 1, null]
4 @0 'add' 2 | true | 1 | @0 6 [1, b, 1, null, 2]
4 @0 'get' 1b | 'b' | 0 | @0 5 [1, b, 1, null]
4 @0 'get' -1 | !IndexOutOfBoundsException: Index -1 out of bounds for length 4 | 36 | @0 5 [1, b, 1, null]
4 @0 'get' null | !NullPointerException | 1 | @0 5 [1, b, 1, null]
4 @1 'put' 'c' 2 | null | 2 | @1 4 {a=1, b=null, c=2}
4 'abc' 'length' | 3 | 0 | @0 5 [1, b, 1, null]
4 null 'size' | !NullPointerException | 1 | @0 5 [1, b, 1, null]
4 @2 'size' | !IllegalArgumentException: dynamic method [def[], size/0] not found | 41 | @2 0 [4, 5]";

#[test]
fn accesses(rt: HostRuntime) -> Result<(), Fail> {
    let wrong = first_wrong::<Accesses>(rt.alloc(), OBJECTS, ROWS);
    assert!(rt; wrong == 0, "line {wrong}");
    Ok(())
}
