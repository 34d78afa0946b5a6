//! The objects of the rows, and the members that they call.
use member_rows::Members;
use object_heap::{Answer, Heap};
use object_values::Value;

/// The members of sets, maps and entries.
pub struct Maps;

impl Members for Maps {
    fn call(number: u32, heap: &mut Heap, args: &[Value]) -> Answer {
        api_map::call(number, heap, args)
    }
}

/// 8 is a document's map, 9 has guarded keys, and 16 and 18 are lists that hold themselves. A new object is 38.
pub const OBJECTS: &str = "\
map open 5 'a'=1 'b'=null
keys @0
values @0
entries @0
entry @0 'a'
entry @0 'z'
set open 2 'x' 1
map frozen 0 'k'=7
map mapped 0 'f'=9
map _source,op 0 'op'='index' 'id'=3
list open 0 'x' 2 'x'
list open 0 'q' @10
map open 0
entry @7 'k'
keys @7
set frozen 0 'x'
list open 0 @16
map open 0 'm'=@16
list open 0 @18
set open 0 'a' 'b'
map open 0 'a'=1L 'b'=null
entries @20
list open 0 1 null
list open 0 @4 7
map open 1 'p'=@10
values @24
list open 0 @27
list open 0 'x' 2 'x'
set open 3
entries @7
map open 0 'a'=@4
values @30
values @17
list open 0 @18
set open 0 null true 'a'c 1b 1s 1 1L '1'
keys @9
entry @9 'id'
entry @9 'op'";
