//! Rows of literals and of arrays that are made.
use super::sample::{Forms, OBJECTS};
use member_rows::first_wrong;
use std::test::Fail;

const ROWS: &str = "\
# A literal of a list
0 | @8 | 1 | @8 0 []
0 1 'a' null | @8 | 4 | @8 0 [1, a, null]
0 @0 @0 | @8 | 3 | @8 0 [[1, b, 1, null], [1, b, 1, null]]
# A literal of a map: an equal key that comes again keeps its place
1 | @8 | 1 | @8 0 {}
1 'b' 1 'a' 2 'b' 3 | @8 | 5 | @8 0 {b=3, a=2}
1 1 'i' 1L 'l' | @8 | 5 | @8 0 {1=i, 1=l}
1 null @0 | @8 | 3 | @8 0 {null=[1, b, 1, null]}
1 'a' 1 @0 2 | !IllegalArgumentException: key must be a simple value | 27 | @0 5 [1, b, 1, null]
# An array of elements
2 'int' | @8 | 1 | @8 0 []
2 'int' 1 2 | @8 | 3 | @8 0 [1, 2]
2 'int' 1 2L | !ClassCastException | 1 | @0 5 [1, b, 1, null]
2 'int' null | !ClassCastException | 1 | @0 5 [1, b, 1, null]
2 'java.lang.String' 'a' null | @8 | 3 | @8 0 [a, null]
2 'java.lang.String' 'a' 1 | !ClassCastException | 1 | @0 5 [1, b, 1, null]
2 'java.util.List' @0 | @8 | 2 | @8 0 [[1, b, 1, null]]
2 'java.util.Map' @0 | !ClassCastException | 1 | @0 5 [1, b, 1, null]
2 'def' 1 'a' @0 | @8 | 4 | @8 0 [1, a, [1, b, 1, null]]
2 'def[]' @6 | @8 | 2 | @8 0 [[4, 5]]
2 'int[]' @6 | !ClassCastException | 1 | @0 5 [1, b, 1, null]
2 'void' | !ClassCastException | 1 | @0 5 [1, b, 1, null]
# An array with its sizes
3 'int[]' 3 | @8 | 4 | @8 0 [0, 0, 0]
3 'boolean[]' 1 | @8 | 2 | @8 0 [false]
3 'java.lang.String[]' 2 | @8 | 3 | @8 0 [null, null]
3 'def[]' 1 | @8 | 2 | @8 0 [null]
3 'int[][]' 2 3 | @8 | 11 | @8 0 [[0, 0, 0], [0, 0, 0]]
3 'int[][]' 2 3 | @8 | 11 | @10 0 [0, 0, 0]
3 'int[][]' 2 | @8 | 3 | @8 0 [null, null]
3 'int[][][]' 2 1 2 | @8 | 13 | @8 0 [[[0, 0]], [[0, 0]]]
3 'int[][][]' 1 2 | @8 | 5 | @8 0 [[null, null]]
3 'int[][]' 0 5 | @8 | 1 | @8 0 []
3 'int[][][]' 2 0 9 | @8 | 5 | @8 0 [[], []]
3 'int[]' -1 | !NegativeArraySizeException: -1 | 3 | @0 5 [1, b, 1, null]
3 'int[][]' 0 -1 | !NegativeArraySizeException: -1 | 3 | @0 5 [1, b, 1, null]
3 'int[][]' -2 -1 | !NegativeArraySizeException: -2 | 3 | @0 5 [1, b, 1, null]
3 'int[]' -2147483648 | !NegativeArraySizeException: -2147483648 | 12 | @0 5 [1, b, 1, null]
3 'int' 1 | !ClassCastException | 1 | @0 5 [1, b, 1, null]
3 'int[]' 1 1 | !ClassCastException | 1 | @0 5 [1, b, 1, null]
3 'int[]' | !ClassCastException | 1 | @0 5 [1, b, 1, null]
3 'void[]' 1 | !ClassCastException | 1 | @0 5 [1, b, 1, null]
# of which there is room for none
room 100
then 3 'int[][]' 2147483647 2147483647 | Room | 0 | @0 5 [1, b, 1, null]
then 3 'int[][][][]' 2147483647 2147483647 2147483647 2147483647 | Room | 0 | @0 5 [1, b, 1, null]
then 3 'int[][]' 33 1 | @8 | 100 | @40 0 [0]";

#[test]
fn made(rt: HostRuntime) -> Result<(), Fail> {
    let wrong = first_wrong::<Forms>(rt.alloc(), OBJECTS, ROWS);
    assert!(rt; wrong == 0, "line {wrong}");
    Ok(())
}
