//! The objects of the rows, and the members that they call.
use member_rows::Members;
use object_heap::{Answer, Heap};
use object_values::Value;

/// The members of Iterable, Iterator and ScriptDocValues, and of sets, maps and entries those that rows call besides.
pub struct Iterables;

impl Members for Iterables {
    fn call(number: u32, heap: &mut Heap, args: &[Value]) -> Answer {
        match number {
            105 | 137 | 164 | 165 => api_map::call(number, heap, args),
            _ => api_iter::call(number, heap, args),
        }
    }
}

/// A new object is 16.
pub const OBJECTS: &str = "\
list open 0 10 20 30
doc frozen 0 5 6
doc frozen 0
map open 0 1=7 2=8
keys @3
entries @3
set open 0 1 2
array 5
list open 0
values @3
map frozen 0 'k'=1
keys @10
map a,b 0 'a'=1
entries @12
doc frozen 0 'a' 'b'
list open 0 @15";
