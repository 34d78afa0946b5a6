//! The objects of the rows, and the members that they call.
use member_rows::Members;
use object_heap::{Answer, Heap};
use object_values::Value;

/// The members of lists, natural order, and indexes in brackets.
pub struct Lists;

impl Members for Lists {
    fn call(number: u32, heap: &mut Heap, args: &[Value]) -> Answer {
        match number {
            226 => api_list::compare(heap, args),
            1000 => api_list::read_index(heap, args),
            1001 => api_list::write_index(heap, args),
            _ => api_list::call(number, heap, args),
        }
    }
}

/// 25 is a list that holds itself. A new object is 28.
pub const OBJECTS: &str = "\
list open 5 1 'b' 1 null
list open 0
list frozen 0 7
list open 2 1L 1 true
list open 0 @0 'x'
map open 3 'a'=1 'b'=null
keys @5
values @5
entries @5
set open 0 'x' 1
array 4 5
map open 3
entries @11
list open 4 3 1 2 1
list open 0 'b' '' 'ab' 'a'
list open 0 true false true
list open 0 @0 @1
map open 3 'k'=1
entries @17
list open 0 null
list open 0 2147483647 -2147483648 0
list open 0 '～' '𐀀'
list open 0 1b 1s
list open 0 'a'c 'B'c
list open 0 9223372036854775807L -9223372036854775808L
list open 0 @25
set open 0
list open 0 5s -5s";
