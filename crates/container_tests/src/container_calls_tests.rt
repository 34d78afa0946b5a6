//! Rows of the members of containers, and of which are built.
use container_calls::{call, is_of_containers};
use member_rows::{Members, first_wrong};
use object_heap::{Answer, Heap};
use object_values::Value;
use std::test::Fail;

/// The members of containers.
struct Containers;

impl Members for Containers {
    fn call(number: u32, heap: &mut Heap, args: &[Value]) -> Answer {
        call(number, heap, args)
    }
}

/// A new object is 11.
const OBJECTS: &str = "\
list open 0
set open 0
map open 0
list open 0 10 20 30
map open 0 'a'=1 'b'=null
keys @4
values @4
entries @4
set open 0 1 2
list frozen 0 5
list open 0 3 1 2";

const ROWS: &str = "\
# members of Collection go by their receiver: a list, a set, a set in the order of its keys
room 12
then 123 | @11 | 1 | @11 0 []
then 97 @11 7 | true | 1 | @11 1 [7]
then 97 @11 7 | true | 1 | @11 2 [7, 7]
then 100 @11 7 | true | 0 | @11 2 [7, 7]
then 106 @11 | 2 | 0 | @11 2 [7, 7]
then 103 @11 7 | true | 0 | @11 3 [7]
then 102 @11 | false | 0 | @11 3 [7]
then 99 @11 | null | 0 | @11 4 []
then 125 | @12 | 1 | @12 0 []
then 97 @12 7 | true | 1 | @12 1 [7]
then 97 @12 7 | false | 0 | @12 1 [7]
then 100 @12 7 | true | 0 | @12 1 [7]
then 106 @12 | 1 | 0 | @12 1 [7]
then 103 @12 7 | true | 0 | @12 2 []
then 102 @12 | true | 0 | @12 2 []
then 127 | @13 | 1 | @13 0 []
then 97 @13 7 | true | 1 | @13 1 [7]
then 100 @13 7 | true | 0 | @13 1 [7]
then 106 @13 | 1 | 0 | @13 1 [7]
then 103 @13 7 | true | 0 | @13 2 []
then 102 @13 | true | 0 | @13 2 []
then 97 @13 7 | true | 1 | @13 3 [7]
then 99 @13 | null | 0 | @13 4 []
# a list takes the element of a set, which then takes none of the list's
then 97 @12 7 | true | 1 | @12 3 [7]
then 98 @11 @12 | true | 1 | @11 5 [7]
then 98 @12 @11 | false | 0 | @12 3 [7]
# what takes all of a collection is of lists
89 @8 | @11 | 3 | @11 0 [1, 2]
107 @8 | @11 | 3 | @11 0 [1, 2]
124 @8 | @11 | 3 | @11 0 [1, 2]
89 @3 | @3 | 0 | @3 0 [10, 20, 30]
107 @7 | @13 | 9 | @13 0 [a=1, b=null]
# to a view nothing is added
97 @5 7 | !UnsupportedOperationException | 1 | @4 0 {a=1, b=null}
98 @5 @8 | !UnsupportedOperationException | 1 | @4 0 {a=1, b=null}
# the view of a map without keys takes none, and an iterator over it has no next
room 4
then 136 @2 | @11 | 1 | @11 0 []
then 97 @11 7 | !UnsupportedOperationException | 1 | @2 0 {}
then 86 @11 | @13 | 1 | @11 0 []
then 166 @13 | false | 0 | @11 0 []
# setting, sorting and reversing are no changes for an iterator
room 1
then 86 @10 | @11 | 1 | @10 0 [3, 1, 2]
then 167 @11 | 3 | 0 | @10 0 [3, 1, 2]
then 121 @10 0 5 | 3 | 0 | @10 0 [5, 1, 2]
then 175 @10 | null | 0 | @10 0 [1, 2, 5]
then 167 @11 | 2 | 0 | @10 0 [1, 2, 5]
then 173 @10 | null | 0 | @10 0 [5, 2, 1]
then 177 @10 0 2 | null | 0 | @10 0 [1, 2, 5]
then 167 @11 | 5 | 0 | @10 0 [1, 2, 5]
then 166 @11 | false | 0 | @10 0 [1, 2, 5]
# adding, inserting, removing and clearing are
room 12
then 86 @3 | @11 | 1 | @3 0 [10, 20, 30]
then 167 @11 | 10 | 0 | @3 0 [10, 20, 30]
then 97 @3 9 | true | 1 | @3 1 [10, 20, 30, 9]
then 167 @11 | !ConcurrentModificationException | 1 | @3 1 [10, 20, 30, 9]
then 168 @11 | !ConcurrentModificationException | 1 | @3 1 [10, 20, 30, 9]
then 119 @3 3 | 9 | 0 | @3 2 [10, 20, 30]
then 98 @3 @3 | true | 3 | @3 5 [10, 20, 30, 10, 20, 30]
then 86 @3 | @14 | 1 | @3 5 [10, 20, 30, 10, 20, 30]
then 167 @14 | 10 | 0 | @3 5 [10, 20, 30, 10, 20, 30]
then 168 @14 | null | 0 | @3 6 [20, 30, 10, 20, 30]
then 113 @3 0 1 | null | 1 | @3 7 [1, 20, 30, 10, 20, 30]
then 167 @14 | !ConcurrentModificationException | 1 | @3 7 [1, 20, 30, 10, 20, 30]
then 86 @3 | @16 | 1 | @3 7 [1, 20, 30, 10, 20, 30]
then 99 @3 | null | 0 | @3 8 []
then 166 @16 | false | 0 | @3 8 []
then 166 @14 | false | 0 | @3 8 []
then 166 @11 | true | 0 | @3 8 []
then 167 @11 | !ConcurrentModificationException | 1 | @3 8 []
then 167 @16 | Room | 0 | @3 8 []
# two iterators over views of one map: what the one removes the other sees as a change
room 20
then 86 @5 | @11 | 1 | @5 0 [a, b]
then 86 @7 | @12 | 1 | @7 0 [a=1, b=null]
then 167 @12 | @13 | 3 | @13 0 a=1
then 168 @12 | null | 0 | @4 1 {b=null}
then 167 @11 | !ConcurrentModificationException | 1 | @4 1 {b=null}
then 163 @13 | 'a' | 0 | @13 0 a=null
then 164 @13 | null | 0 | @13 0 a=null
then 165 @13 2 | !IllegalStateException: entry is gone | 14 | @4 1 {b=null}
then 166 @12 | true | 0 | @6 0 [null]
# lists of Collections are frozen
room 9
then 174 7 | @11 | 2 | @11 0 [7]
then 97 @11 8 | !UnsupportedOperationException | 1 | @11 0 [7]
then 169 | @13 | 1 | @13 0 []
then 99 @13 | !UnsupportedOperationException | 1 | @13 0 []
then 170 | @15 | 1 | @15 0 {}
then 137 @15 1 1 | !UnsupportedOperationException | 1 | @15 0 {}
then 175 @11 | !UnsupportedOperationException | 1 | @11 0 [7]
then 115 @11 0 | 7 | 0 | @11 0 [7]";

#[test]
fn members_of_containers(rt: HostRuntime) -> Result<(), Fail> {
    let wrong = first_wrong::<Containers>(rt.alloc(), OBJECTS, ROWS);
    assert!(rt; wrong == 0, "line {wrong}");
    Ok(())
}

/// Members at the ends of the catalogue's parts, and whether they are built.
const BUILT: [(u32, bool); 25] = [
    (0, false),
    (85, false),
    (86, true),
    (87, false),
    (89, true),
    (95, false),
    (96, true),
    (98, true),
    (101, true),
    (104, true),
    (105, true),
    (107, true),
    (108, false),
    (114, true),
    (120, false),
    (124, true),
    (144, true),
    (145, false),
    (165, true),
    (168, true),
    (171, true),
    (176, false),
    (177, true),
    (225, true),
    (4_294_967_295, false),
];

#[test]
fn parts_that_are_built(rt: HostRuntime) -> Result<(), Fail> {
    for (number, wanted) in BUILT {
        assert!(rt; is_of_containers(number) == wanted, "{number}");
    }
    Ok(())
}
