//! Rows of the members of Collection, List and Collections that read or change a list.
use super::sample::{Lists, OBJECTS};
use member_rows::first_wrong;
use std::test::Fail;

const ROWS: &str = "\
# Collection: boolean add(def)
97 @0 9 | true | 1 | @0 6 [1, b, 1, null, 9]
97 @1 null | true | 1 | @1 1 [null]
97 @1 @1 | true | 1 | @2 0 [7]
97 @2 9 | !UnsupportedOperationException | 1 | @2 0 [7]
97 null 9 | !NullPointerException | 1 | @0 5 [1, b, 1, null]
97 @0 @0 | true | 1 | @1 0 []
97 @5 1 | !NullPointerException | 1 | @5 3 {a=1, b=null}
# Collection: void clear()
99 @0 | null | 0 | @0 6 []
99 @1 | null | 0 | @1 0 []
99 @2 | !UnsupportedOperationException | 1 | @2 0 [7]
99 @13 | null | 0 | @13 5 []
99 null | !NullPointerException | 1 | @1 0 []
# Collection: boolean contains(def)
100 @0 1 | true | 0 | @0 5 [1, b, 1, null]
100 @0 1L | false | 0 | @0 5 [1, b, 1, null]
100 @0 null | true | 0 | @0 5 [1, b, 1, null]
100 @1 null | false | 0 | @0 5 [1, b, 1, null]
100 @4 @0 | true | 0 | @0 5 [1, b, 1, null]
100 @3 1 | true | 0 | @3 2 [1, 1, true]
100 @3 1s | false | 0 | @3 2 [1, 1, true]
100 @4 @25 | false | 0 | @1 0 []
100 @25 @25 | true | 0 | @1 0 []
100 null 1 | !NullPointerException | 1 | @1 0 []
# Collection: boolean isEmpty()
102 @0 | false | 0 | @0 5 [1, b, 1, null]
102 @1 | true | 0 | @1 0 []
102 null | !NullPointerException | 1 | @1 0 []
# Collection: boolean remove(def)
103 @0 1 | true | 0 | @0 6 [b, 1, null]
103 @0 1L | false | 0 | @0 5 [1, b, 1, null]
103 @3 1 | true | 0 | @3 3 [1, true]
103 @2 7 | !UnsupportedOperationException | 1 | @2 0 [7]
103 @0 null | true | 0 | @0 6 [1, b, 1]
103 @1 1 | false | 0 | @1 0 []
103 @4 @0 | true | 0 | @4 1 [x]
103 @13 3 | true | 0 | @13 5 [1, 2, 1]
103 @2 9 | !UnsupportedOperationException | 1 | @2 0 [7]
103 null 1 | !NullPointerException | 1 | @1 0 []
# Collection: int size()
106 @0 | 4 | 0 | @0 5 [1, b, 1, null]
106 @1 | 0 | 0 | @1 0 []
106 @2 | 1 | 0 | @2 0 [7]
106 null | !NullPointerException | 1 | @1 0 []
# List: int getLength()
116 @1 | 0 | 0 | @1 0 []
116 @2 | 1 | 0 | @2 0 [7]
116 @0 | 4 | 0 | @0 5 [1, b, 1, null]
116 null | !NullPointerException | 1 | @1 0 []
# List: void add(int, def)
113 @0 0 9 | null | 1 | @0 6 [9, 1, b, 1, null]
113 @0 4 9 | null | 1 | @0 6 [1, b, 1, null, 9]
113 @0 5 9 | !IndexOutOfBoundsException: Index 5 out of bounds for length 4 | 35 | @0 5 [1, b, 1, null]
113 @0 -1 9 | !IndexOutOfBoundsException: Index -1 out of bounds for length 4 | 36 | @0 5 [1, b, 1, null]
113 @2 9 1 | !UnsupportedOperationException | 1 | @2 0 [7]
113 @1 0 null | null | 1 | @1 1 [null]
113 @0 1 @0 | null | 1 | @1 0 []
113 @0 2147483647 9 | !IndexOutOfBoundsException: Index 2147483647 out of bounds for length 4 | 44 | @0 5 [1, b, 1, null]
113 @0 -2147483648 9 | !IndexOutOfBoundsException: Index -2147483648 out of bounds for length 4 | 45 | @0 5 [1, b, 1, null]
113 @0 null 9 | !NullPointerException | 1 | @0 5 [1, b, 1, null]
113 null 0 9 | !NullPointerException | 1 | @1 0 []
# List: def get(int)
115 @0 0 | 1 | 0 | @0 5 [1, b, 1, null]
115 @0 1 | 'b' | 0 | @0 5 [1, b, 1, null]
115 @0 3 | null | 0 | @0 5 [1, b, 1, null]
115 @0 4 | !IndexOutOfBoundsException: Index 4 out of bounds for length 4 | 35 | @0 5 [1, b, 1, null]
115 @0 -1 | !IndexOutOfBoundsException: Index -1 out of bounds for length 4 | 36 | @0 5 [1, b, 1, null]
115 @0 2147483647 | !IndexOutOfBoundsException: Index 2147483647 out of bounds for length 4 | 44 | @0 5 [1, b, 1, null]
115 @0 -2147483648 | !IndexOutOfBoundsException: Index -2147483648 out of bounds for length 4 | 45 | @0 5 [1, b, 1, null]
115 @1 0 | !IndexOutOfBoundsException: Index 0 out of bounds for length 0 | 35 | @1 0 []
115 @2 0 | 7 | 0 | @2 0 [7]
115 null 0 | !NullPointerException | 1 | @1 0 []
# List: int indexOf(def)
117 @0 1 | 0 | 0 | @0 5 [1, b, 1, null]
117 @0 null | 3 | 0 | @0 5 [1, b, 1, null]
117 @0 'z' | -1 | 0 | @0 5 [1, b, 1, null]
117 @1 null | -1 | 0 | @1 0 []
117 @3 1 | 1 | 0 | @3 2 [1, 1, true]
117 @3 1s | -1 | 0 | @3 2 [1, 1, true]
117 @4 @0 | 0 | 0 | @1 0 []
117 null 1 | !NullPointerException | 1 | @1 0 []
# List: int lastIndexOf(def)
118 @0 1 | 2 | 0 | @0 5 [1, b, 1, null]
118 @0 'b' | 1 | 0 | @0 5 [1, b, 1, null]
118 @0 null | 3 | 0 | @0 5 [1, b, 1, null]
118 @0 1L | -1 | 0 | @0 5 [1, b, 1, null]
118 @3 1L | 0 | 0 | @0 5 [1, b, 1, null]
118 @1 null | -1 | 0 | @1 0 []
118 @13 1 | 3 | 0 | @13 4 [3, 1, 2, 1]
118 null 1 | !NullPointerException | 1 | @1 0 []
# List: def remove(int)
119 @0 1 | 'b' | 0 | @0 6 [1, 1, null]
119 @0 4 | !IndexOutOfBoundsException: Index 4 out of bounds for length 4 | 35 | @0 5 [1, b, 1, null]
119 @2 5 | !UnsupportedOperationException | 1 | @2 0 [7]
119 @0 3 | null | 0 | @0 6 [1, b, 1]
119 @13 3 | 1 | 0 | @13 5 [3, 1, 2]
119 @0 -1 | !IndexOutOfBoundsException: Index -1 out of bounds for length 4 | 36 | @0 5 [1, b, 1, null]
119 @0 2147483647 | !IndexOutOfBoundsException: Index 2147483647 out of bounds for length 4 | 44 | @0 5 [1, b, 1, null]
119 @1 0 | !IndexOutOfBoundsException: Index 0 out of bounds for length 0 | 35 | @1 0 []
119 null 0 | !NullPointerException | 1 | @1 0 []
# List: def set(int, def)
121 @0 1 8 | 'b' | 0 | @0 5 [1, 8, 1, null]
121 @0 4 8 | !IndexOutOfBoundsException: Index 4 out of bounds for length 4 | 35 | @0 5 [1, b, 1, null]
121 @2 0 8 | !UnsupportedOperationException | 1 | @2 0 [7]
121 @0 0 null | 1 | 0 | @0 5 [null, b, 1, null]
121 @0 0 @0 | 1 | 0 | @1 0 []
121 @0 -1 8 | !IndexOutOfBoundsException: Index -1 out of bounds for length 4 | 36 | @0 5 [1, b, 1, null]
121 @1 0 8 | !IndexOutOfBoundsException: Index 0 out of bounds for length 0 | 35 | @1 0 []
121 @2 5 8 | !UnsupportedOperationException | 1 | @2 0 [7]
121 null 0 8 | !NullPointerException | 1 | @1 0 []
# Collections: void reverse(List)
173 @0 | null | 0 | @0 5 [null, 1, b, 1]
173 @1 | null | 0 | @1 0 []
173 @2 | !UnsupportedOperationException | 1 | @2 0 [7]
173 null | !NullPointerException | 1 | @0 5 [1, b, 1, null]
173 @3 | null | 0 | @3 2 [true, 1, 1]
173 @19 | null | 0 | @19 0 [null]
# Collections: void swap(List, int, int)
177 @0 0 1 | null | 0 | @0 5 [b, 1, 1, null]
177 @0 3 1 | null | 0 | @0 5 [1, null, 1, b]
177 @0 3 3 | null | 0 | @0 5 [1, b, 1, null]
177 @0 4 -1 | !IndexOutOfBoundsException: Index 4 out of bounds for length 4 | 35 | @0 5 [1, b, 1, null]
177 @0 0 -1 | !IndexOutOfBoundsException: Index -1 out of bounds for length 4 | 36 | @0 5 [1, b, 1, null]
177 @2 9 9 | !UnsupportedOperationException | 1 | @2 0 [7]
177 @0 -1 0 | !IndexOutOfBoundsException: Index -1 out of bounds for length 4 | 36 | @0 5 [1, b, 1, null]
177 @1 0 0 | !IndexOutOfBoundsException: Index 0 out of bounds for length 0 | 35 | @1 0 []
177 null 0 0 | !NullPointerException | 1 | @1 0 []";

#[test]
fn lists(rt: HostRuntime) -> Result<(), Fail> {
    let wrong = first_wrong::<Lists>(rt.alloc(), OBJECTS, ROWS);
    assert!(rt; wrong == 0, "line {wrong}");
    Ok(())
}
