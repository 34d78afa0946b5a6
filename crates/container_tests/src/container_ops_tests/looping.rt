//! Rows of loops over elements.
use super::sample::{Forms, OBJECTS};
use member_rows::first_wrong;
use std::test::Fail;

const ROWS: &str = "\
# What has elements, and what has none
7 @0 | @8 | 1 | @0 5 [1, b, 1, null]
7 @5 | @8 | 1 | @0 5 [1, b, 1, null]
7 @6 | @8 | 1 | @0 5 [1, b, 1, null]
7 @1 | !ClassCastException | 1 | @0 5 [1, b, 1, null]
7 'a' | !ClassCastException | 1 | @0 5 [1, b, 1, null]
7 null | !NullPointerException | 1 | @0 5 [1, b, 1, null]
8 @0 | !ClassCastException | 1 | @0 5 [1, b, 1, null]
8 null | !NullPointerException | 1 | @0 5 [1, b, 1, null]
9 @0 | !ClassCastException | 1 | @0 5 [1, b, 1, null]
9 null | !NullPointerException | 1 | @0 5 [1, b, 1, null]
# Over an array
room 100
then 7 @6 | @8 | 1 | @6 0 [4, 5]
then 8 @8 | true | 0 | @6 0 [4, 5]
then 9 @8 | 4 | 0 | @6 0 [4, 5]
then 9 @8 | 5 | 0 | @6 0 [4, 5]
then 8 @8 | false | 0 | @6 0 [4, 5]
then 9 @8 | !NoSuchElementException | 1 | @6 0 [4, 5]
# Over the entries, the keys and the values of a map
room 100
then 7 @4 | @8 | 1 | @4 0 [a=1, b=null]
then 9 @8 | @9 | 3 | @9 0 a=1
then 9 @8 | @10 | 3 | @10 0 b=null
then 8 @8 | false | 0 | @10 0 b=null
then 7 @2 | @11 | 1 | @2 0 [a, b]
then 9 @11 | 'a' | 0 | @2 0 [a, b]
then 7 @3 | @12 | 1 | @3 0 [1, null]
then 9 @12 | 1 | 0 | @3 0 [1, null]
# Over nothing
room 100
then 7 @7 | @8 | 1 | @7 0 []
then 8 @8 | false | 0 | @7 0 []
# An element over which an array is written
room 100
then 7 @6 | @8 | 1 | @6 0 [4, 5]
then 5 'def' @6 0 9 | 4 | 0 | @6 0 [9, 5]
then 9 @8 | 9 | 0 | @6 0 [9, 5]";

#[test]
fn loops(rt: HostRuntime) -> Result<(), Fail> {
    let wrong = first_wrong::<Forms>(rt.alloc(), OBJECTS, ROWS);
    assert!(rt; wrong == 0, "line {wrong}");
    Ok(())
}
