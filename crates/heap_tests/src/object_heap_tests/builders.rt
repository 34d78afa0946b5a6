//! Builders, step by step.

use super::making::{Shape, placed};
use object_heap::{Heap, HeapErr};
use pl_types::classes::ARRAY_LIST;
use pl_units::UText;
use std::alloc::AllocError;
use std::test::Fail;

// A run of a builder that holds `A`, and what stands in its place afterwards; then whether there is room for it, what the builder
// holds and the room that is left. What has no such run stays as it is.
const ROWS: [(u32, usize, usize, &str, bool, &str, u64); 14] = [
    (0, 0, 0, "bc", true, "bcA", 8),
    (0, 1, 1, "de", true, "bdecA", 6),
    (0, 5, 5, "f", true, "bdecAf", 5),
    (0, 1, 3, "", true, "bcAf", 5),
    (0, 0, 4, "ghij", true, "ghij", 5),
    (0, 3, 4, "", true, "ghi", 5),
    (0, 0, 1, "", true, "hi", 5),
    (0, 2, 1, "x", true, "hi", 5),
    (0, 1, 3, "x", true, "hi", 5),
    (0, 1, 1, "123456", false, "hi", 5),
    (1, 0, 0, "x", true, "hi", 5),
    (0, 1, 2, "123456", true, "h123456", 0),
    (0, 0, 3, "", true, "3456", 0),
    (0, 0, 1, "7", true, "7456", 0),
];

fn spliced(
    heap: &mut Heap,
    id: u32,
    from: usize,
    to: usize,
    text: &str,
) -> Result<bool, AllocError> {
    let text = UText::from_utf8(heap.alloc(), text)?;
    match heap.splice_units(id, from, to, text.units()) {
        Ok(()) => Ok(true),
        Err(HeapErr::Room) => Ok(false),
        Err(HeapErr::NoMemory) => Err(AllocError),
    }
}

fn holds(heap: &Heap, text: &str) -> Result<bool, AllocError> {
    let text = UText::from_utf8(heap.alloc(), text)?;
    Ok(heap.units(0) == text.units())
}

#[test]
fn builders(rt: HostRuntime) -> Result<(), Fail> {
    let objects = [Shape::Builder(1), Shape::List(ARRAY_LIST, 2)];
    let mut heap = placed(rt.alloc(), 10, &objects)?;
    for (id, from, to, text, goes, after, room) in &ROWS {
        let went = spliced(&mut heap, *id, *from, *to, text)?;
        assert!(rt; went == *goes);
        let same = holds(&heap, after)?;
        assert!(rt; same);
        let left = heap.room_left();
        assert!(rt; left == *room);
    }
    let size = heap.size(1);
    assert!(rt; size == 2);
    Ok(())
}
