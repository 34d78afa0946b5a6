//! Rows of elements that are read and written, and of lengths.
use super::sample::{Forms, OBJECTS};
use member_rows::first_wrong;
use std::test::Fail;

const ROWS: &str = "\
# Of what is no array
4 'int' null 0 | !NullPointerException | 1 | @0 5 [1, b, 1, null]
4 'int' @0 0 | !ClassCastException | 1 | @0 5 [1, b, 1, null]
4 'int' 7 0 | !ClassCastException | 1 | @0 5 [1, b, 1, null]
5 'int' null 0 1 | !NullPointerException | 1 | @0 5 [1, b, 1, null]
5 'int' @0 0 1 | !ClassCastException | 1 | @0 5 [1, b, 1, null]
6 null | !NullPointerException | 1 | @0 5 [1, b, 1, null]
6 @0 | !ClassCastException | 1 | @0 5 [1, b, 1, null]
6 'a' | !ClassCastException | 1 | @0 5 [1, b, 1, null]
10 @0 0 | !ClassCastException | 1 | @0 5 [1, b, 1, null]
10 null 0 | !NullPointerException | 1 | @0 5 [1, b, 1, null]
# Of an array of any values: a negative index counts from the end
6 @6 | 2 | 0 | @6 0 [4, 5]
4 'def' @6 1 | 5 | 0 | @6 0 [4, 5]
4 'def' @6 -2 | 4 | 0 | @6 0 [4, 5]
4 'java.util.List' @6 0 | 4 | 0 | @6 0 [4, 5]
4 'int' @6 0 | !ClassCastException | 1 | @6 0 [4, 5]
4 'def' @6 2 | !ArrayIndexOutOfBoundsException: Index 2 out of bounds for length 2 | 35 | @6 0 [4, 5]
4 'def' @6 -3 | !ArrayIndexOutOfBoundsException: Index -1 out of bounds for length 2 | 36 | @6 0 [4, 5]
5 'def' @6 -1 'x' | 5 | 0 | @6 0 [4, x]
5 'def' @6 -3 'x' | !ArrayIndexOutOfBoundsException: Index -1 out of bounds for length 2 | 36 | @6 0 [4, 5]
10 @6 -1 | 5 | 0 | @6 0 [4, 5]
10 @6 2 | !ArrayIndexOutOfBoundsException: Index 2 out of bounds for length 2 | 35 | @6 0 [4, 5]
# Of an array of ints: the type is tested before the place
room 100
then 3 'int[]' 3 | @8 | 4 | @8 0 [0, 0, 0]
then 5 'int' @8 -1 7 | 0 | 0 | @8 0 [0, 0, 7]
then 5 'int' @8 0 7L | !ClassCastException | 1 | @8 0 [0, 0, 7]
then 5 'int' @8 9 7L | !ClassCastException | 1 | @8 0 [0, 0, 7]
then 5 'int' @8 0 null | !ClassCastException | 1 | @8 0 [0, 0, 7]
then 5 'long' @8 0 7L | !ClassCastException | 1 | @8 0 [0, 0, 7]
then 5 'def' @8 0 7 | !ClassCastException | 1 | @8 0 [0, 0, 7]
then 4 'int' @8 2 | 7 | 0 | @8 0 [0, 0, 7]
then 4 'long' @8 2 | !ClassCastException | 1 | @8 0 [0, 0, 7]
then 4 'def' @8 2 | !ClassCastException | 1 | @8 0 [0, 0, 7]
then 10 @8 2 | 7 | 0 | @8 0 [0, 0, 7]
then 6 @8 | 3 | 0 | @8 0 [0, 0, 7]
# Of an array of lists: no other object goes in
room 100
then 3 'java.util.List[]' 1 | @8 | 2 | @8 0 [null]
then 5 'java.util.List' @8 0 @0 | null | 0 | @8 0 [[1, b, 1, null]]
then 5 'java.util.List' @8 0 @1 | !ClassCastException | 1 | @8 0 [[1, b, 1, null]]
then 5 'def' @8 0 'a' | !ClassCastException | 1 | @8 0 [[1, b, 1, null]]
then 5 'def' @8 0 null | @0 | 0 | @8 0 [null]";

#[test]
fn elements(rt: HostRuntime) -> Result<(), Fail> {
    let wrong = first_wrong::<Forms>(rt.alloc(), OBJECTS, ROWS);
    assert!(rt; wrong == 0, "line {wrong}");
    Ok(())
}
