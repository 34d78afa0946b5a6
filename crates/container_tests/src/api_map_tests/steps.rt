//! Sequences of calls, each on what the one before left.
use super::sample::{Maps, OBJECTS};
use member_rows::first_wrong;
use std::test::Fail;

const ROWS: &str = "\
# equal boxes of several types are several keys; a key that is put again keeps its place, and one that was removed goes last
room 15
then 137 @12 1 'i' | null | 2 | @12 1 {1=i}
then 137 @12 1L 'l' | null | 2 | @12 2 {1=i, 1=l}
then 137 @12 1s 's' | null | 2 | @12 3 {1=i, 1=l, 1=s}
then 137 @12 1b 'b' | null | 2 | @12 4 {1=i, 1=l, 1=s, 1=b}
then 137 @12 '1' 't' | null | 2 | @12 5 {1=i, 1=l, 1=s, 1=b, 1=t}
then 137 @12 '1'c 'c' | null | 2 | @12 6 {1=i, 1=l, 1=s, 1=b, 1=t, 1=c}
then 137 @12 1 'j' | 'i' | 0 | @12 6 {1=j, 1=l, 1=s, 1=b, 1=t, 1=c}
then 140 @12 1 | 'j' | 0 | @12 7 {1=l, 1=s, 1=b, 1=t, 1=c}
then 140 @12 1 | null | 0 | @12 7 {1=l, 1=s, 1=b, 1=t, 1=c}
then 137 @12 1 'k' | null | 2 | @12 8 {1=l, 1=s, 1=b, 1=t, 1=c, 1=k}
then 133 @12 1b | 'b' | 0 | @12 8 {1=l, 1=s, 1=b, 1=t, 1=c, 1=k}
then 137 @12 true 1 | Room | 0 | @12 8 {1=l, 1=s, 1=b, 1=t, 1=c, 1=k}
# what is given back of room is not paid back
then 129 @12 | null | 0 | @12 9 {}
then 137 @12 true 1 | Room | 0 | @12 9 {}
# an element is removed once
room 0
then 103 @6 'x' | true | 0 | @6 3 [1]
then 103 @6 'x' | false | 0 | @6 3 [1]
then 103 @1 'a' | true | 0 | @0 6 {b=null}
then 103 @1 'a' | false | 0 | @0 6 {b=null}
then 103 @2 null | true | 0 | @0 7 {}
then 103 @2 null | false | 0 | @0 7 {}
then 99 @3 | null | 0 | @0 7 {}
# the entry of a key that is gone, and that comes back
room 16
then 140 @0 'a' | 1 | 0 | @0 6 {b=null}
then 165 @4 8 | !IllegalStateException: entry is gone | 14 | @0 6 {b=null}
then 164 @4 | null | 0 | @0 6 {b=null}
then 163 @4 | 'a' | 0 | @0 6 {b=null}
then 137 @0 'a' 2 | null | 2 | @0 7 {b=null, a=2}
then 165 @4 8 | 2 | 0 | @0 7 {b=null, a=8}
then 164 @4 | 8 | 0 | @0 7 {b=null, a=8}
# a view shows what its map has now, and removes from it
room 5
then 136 @0 | @38 | 1 | @38 0 [a, b]
then 137 @0 'c' 3 | null | 2 | @38 0 [a, b, c]
then 103 @38 'b' | true | 0 | @0 7 {a=1, c=3}
then 106 @38 | 2 | 0 | @38 0 [a, c]
then 105 @38 @19 | true | 0 | @0 8 {a=1}
then 100 @2 1 | true | 0 | @38 0 [a]
then 129 @0 | null | 0 | @38 0 []
then 102 @38 | true | 0 | @0 9 {}
# a copy of what is frozen is open, and stands alone
room 6
then 160 @7 | @38 | 3 | @38 0 {k=7}
then 137 @38 'k' 8 | 7 | 0 | @38 0 {k=8}
then 133 @7 'k' | 7 | 0 | @7 0 {k=7}
then 126 @15 | @39 | 2 | @39 0 [x]
then 97 @39 'y' | true | 1 | @39 1 [x, y]
then 97 @39 'x' | false | 0 | @15 0 [x]
# a map that holds itself, and takes all of itself
room 6
then 137 @12 'm' @12 | null | 2 | @28 3 []
then 138 @12 @12 | null | 0 | @28 3 []
then 133 @12 'm' | @12 | 0 | @28 3 []
then 131 @12 @12 | true | 0 | @28 3 []
then 141 @12 'm' @12 | true | 0 | @12 2 {}
# putAll goes by the order of what is put, and present keys keep their places
then 138 @12 @9 | null | 4 | @12 4 {op=index, id=3}
then 138 @12 @0 | Room | 0 | @12 4 {op=index, id=3}";

#[test]
fn steps(rt: HostRuntime) -> Result<(), Fail> {
    let wrong = first_wrong::<Maps>(rt.alloc(), OBJECTS, ROWS);
    assert!(rt; wrong == 0, "line {wrong}");
    Ok(())
}
