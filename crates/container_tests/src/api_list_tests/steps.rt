//! Sequences of calls, each on what the one before left.
use super::sample::{Lists, OBJECTS};
use member_rows::first_wrong;
use std::test::Fail;

const ROWS: &str = "\
# a list that holds itself
room 2
then 97 @1 @1 | true | 1 | @2 0 [7]
then 106 @1 | 1 | 0 | @2 0 [7]
then 115 @1 0 | @1 | 0 | @2 0 [7]
then 98 @1 @1 | true | 1 | @2 0 [7]
then 103 @1 @1 | true | 0 | @2 0 [7]
then 119 @1 0 | @1 | 0 | @1 4 []
# an element is removed once, by its value and by its place
room 0
then 103 @13 1 | true | 0 | @13 5 [3, 2, 1]
then 103 @13 1 | true | 0 | @13 6 [3, 2]
then 103 @13 1 | false | 0 | @13 6 [3, 2]
then 119 @13 1 | 2 | 0 | @13 7 [3]
then 119 @13 0 | 3 | 0 | @13 8 []
then 99 @13 | null | 0 | @13 8 []
then 97 @13 1 | Room | 0 | @13 8 []
# all of itself is as much as there was
room 12
then 98 @13 @13 | true | 4 | @13 8 [3, 1, 2, 1, 3, 1, 2, 1]
then 114 @13 8 @13 | true | 8 | @13 16 [3, 1, 2, 1, 3, 1, 2, 1, 3, 1, 2, 1, 3, 1, 2, 1]
then 98 @13 @13 | Room | 0 | @13 16 [3, 1, 2, 1, 3, 1, 2, 1, 3, 1, 2, 1, 3, 1, 2, 1]
# a copy stands alone
room 10
then 124 @13 | @28 | 5 | @28 0 [3, 1, 2, 1]
then 175 @28 | null | 0 | @28 0 [1, 1, 2, 3]
then 173 @28 | null | 0 | @28 0 [3, 2, 1, 1]
then 89 @28 | @28 | 0 | @13 4 [3, 1, 2, 1]
then 107 @28 | @29 | 5 | @29 0 [3, 2, 1, 1]
then 121 @28 0 9 | 3 | 0 | @29 0 [3, 2, 1, 1]
# what is frozen stays so, and a copy of it is open
room 10
then 174 null | @28 | 2 | @28 0 [null]
then 97 @28 1 | !UnsupportedOperationException | 1 | @28 0 [null]
then 124 @28 | @30 | 2 | @30 0 [null]
then 97 @30 1 | true | 1 | @30 1 [null, 1]
then 169 | @31 | 1 | @31 0 []
then 98 @31 @31 | !UnsupportedOperationException | 1 | @31 0 []";

#[test]
fn steps(rt: HostRuntime) -> Result<(), Fail> {
    let wrong = first_wrong::<Lists>(rt.alloc(), OBJECTS, ROWS);
    assert!(rt; wrong == 0, "line {wrong}");
    Ok(())
}
