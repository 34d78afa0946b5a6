//! Iterators, step by step, by the numbers of their members.
use super::sample::{Iterables, OBJECTS};
use member_rows::first_wrong;
use std::test::Fail;

const ROWS: &str = "\
room 100
# an iterator whose element is removed twice
then 86 @0 | @16 | 1 | @0 0 [10, 20, 30]
then 166 @16 | true | 0 | @0 0 [10, 20, 30]
then 167 @16 | 10 | 0 | @0 0 [10, 20, 30]
then 168 @16 | null | 0 | @0 1 [20, 30]
then 168 @16 | !IllegalStateException: no element | 11 | @0 1 [20, 30]
then 167 @16 | 20 | 0 | @0 1 [20, 30]
then 167 @16 | 30 | 0 | @0 1 [20, 30]
then 166 @16 | false | 0 | @0 1 [20, 30]
then 167 @16 | !NoSuchElementException | 1 | @0 1 [20, 30]
# over the keys of a map that gets another
then 86 @4 | @19 | 1 | @3 0 {1=7, 2=8}
then 167 @19 | 1 | 0 | @3 0 {1=7, 2=8}
then 137 @3 9 9 | null | 2 | @3 1 {1=7, 2=8, 9=9}
then 167 @19 | !ConcurrentModificationException | 1 | @3 1 {1=7, 2=8, 9=9}
then 168 @19 | !ConcurrentModificationException | 1 | @3 1 {1=7, 2=8, 9=9}
# over entries, of which one is set, removed, and set once more
then 86 @5 | @22 | 1 | @3 1 {1=7, 2=8, 9=9}
then 167 @22 | @23 | 3 | @3 1 {1=7, 2=8, 9=9}
then 165 @23 70 | 7 | 0 | @3 1 {1=70, 2=8, 9=9}
then 168 @22 | null | 0 | @3 2 {2=8, 9=9}
then 165 @23 71 | !IllegalStateException: entry is gone | 14 | @3 2 {2=8, 9=9}
then 164 @23 | null | 0 | @3 2 {2=8, 9=9}
then 166 @22 | true | 0 | @3 2 {2=8, 9=9}
then 167 @22 | @25 | 3 | @3 2 {2=8, 9=9}
# over a set that is cut by retainAll
then 86 @6 | @26 | 1 | @6 0 [1, 2]
then 167 @26 | 1 | 0 | @6 0 [1, 2]
then 105 @6 @4 | true | 0 | @6 1 [2]
then 167 @26 | !NoSuchElementException | 1 | @6 1 [2]
# over what is frozen, and over an array
then 86 @1 | @28 | 1 | @1 0 [5, 6]
then 168 @28 | !UnsupportedOperationException | 1 | @1 0 [5, 6]
then 86 @7 | @30 | 1 | @7 0 [5]
then 167 @30 | 5 | 0 | @7 0 [5]
then 168 @30 | !UnsupportedOperationException | 1 | @7 0 [5]
# two over a list that shrinks below the place of the first
then 86 @0 | @32 | 1 | @0 1 [20, 30]
then 86 @0 | @33 | 1 | @0 1 [20, 30]
then 167 @32 | 20 | 0 | @0 1 [20, 30]
then 167 @32 | 30 | 0 | @0 1 [20, 30]
then 167 @33 | 20 | 0 | @0 1 [20, 30]
then 168 @33 | null | 0 | @0 2 [30]
then 167 @33 | 30 | 0 | @0 2 [30]
then 168 @33 | null | 0 | @0 3 []
then 166 @32 | true | 0 | @0 3 []
then 167 @32 | !ConcurrentModificationException | 1 | @0 3 []
then 168 @32 | !ConcurrentModificationException | 1 | @0 3 []
then 166 @33 | false | 0 | @0 3 []
# receivers that are null or of another kind
then 86 null | !NullPointerException | 1 | @0 3 []
then 166 null | !NullPointerException | 1 | @0 3 []
then 167 @0 | !NullPointerException | 1 | @0 3 []
then 168 @0 | !NullPointerException | 1 | @0 3 []
then 166 @0 | !NullPointerException | 1 | @0 3 []
then 86 @16 | !NullPointerException | 1 | @0 3 []
then 225 @1 | 5 | 0 | @1 0 [5, 6]
then 225 null | !NullPointerException | 1 | @1 0 [5, 6]
# with room for one entry and nothing else, and without it
room 4
then 86 @5 | @16 | 1 | @3 0 {1=7, 2=8}
then 167 @16 | @17 | 3 | @3 0 {1=7, 2=8}
then 168 @16 | null | 0 | @3 1 {2=8}
then 168 @16 | Room | 0 | @3 1 {2=8}
room 3
then 86 @5 | @16 | 1 | @3 0 {1=7, 2=8}
then 167 @16 | Room | 0 | @3 0 {1=7, 2=8}
then 225 @2 | Room | 0 | @3 0 {1=7, 2=8}
# over what is empty
room 14
then 86 @8 | @16 | 1 | @8 0 []
then 166 @16 | false | 0 | @8 0 []
then 167 @16 | !NoSuchElementException | 1 | @8 0 []
then 168 @16 | !IllegalStateException: no element | 11 | @8 0 []
then 166 @16 | false | 0 | @8 0 []
# over values: one that is put under a key that is there is no change, and what is removed is removed from the map
room 12
then 86 @9 | @16 | 1 | @9 0 [7, 8]
then 137 @3 1 70 | 7 | 0 | @9 0 [70, 8]
then 167 @16 | 70 | 0 | @9 0 [70, 8]
then 168 @16 | null | 0 | @3 1 {2=8}
then 167 @16 | 8 | 0 | @3 1 {2=8}
then 168 @16 | null | 0 | @3 2 {}
then 166 @16 | false | 0 | @4 0 []
then 168 @16 | !IllegalStateException: no element | 11 | @3 2 {}
# over views of what is frozen, and of what has guarded keys
room 6
then 86 @11 | @16 | 1 | @11 0 [k]
then 167 @16 | 'k' | 0 | @11 0 [k]
then 168 @16 | !UnsupportedOperationException | 1 | @10 0 {k=1}
then 86 @13 | @18 | 1 | @13 0 [a=1]
then 168 @18 | !UnsupportedOperationException | 1 | @12 0 {a=1}
then 166 @18 | true | 0 | @12 0 {a=1}
then 167 @18 | Room | 0 | @12 0 {a=1}";

#[test]
fn iterators_step_by_step(rt: HostRuntime) -> Result<(), Fail> {
    let wrong = first_wrong::<Iterables>(rt.alloc(), OBJECTS, ROWS);
    assert!(rt; wrong == 0, "line {wrong}");
    Ok(())
}
