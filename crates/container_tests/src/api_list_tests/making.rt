//! Rows of what makes lists and arrays.
use super::sample::{Lists, OBJECTS};
use member_rows::first_wrong;
use std::test::Fail;

const ROWS: &str = "\
# Iterable: List asList()
89 @0 | @0 | 0 | @0 5 [1, b, 1, null]
89 @2 | @2 | 0 | @2 0 [7]
89 null | !NullPointerException | 1 | @0 5 [1, b, 1, null]
# Collection: def[] toArray()
107 @0 | @28 | 5 | @28 0 [1, b, 1, null]
107 @1 | @28 | 1 | @28 0 []
107 @2 | @28 | 2 | @28 0 [7]
107 null | !NullPointerException | 1 | @0 5 [1, b, 1, null]
# ArrayList: ArrayList()
123 | @28 | 1 | @28 0 []
# Collections: List emptyList()
169 | @28 | 1 | @28 0 []
# Collections: Map emptyMap()
170 | @28 | 1 | @28 0 {}
# Collections: List singletonList(def)
174 1 | @28 | 2 | @28 0 [1]
174 null | @28 | 2 | @28 0 [null]
174 @0 | @28 | 2 | @28 0 [[1, b, 1, null]]";

#[test]
fn making(rt: HostRuntime) -> Result<(), Fail> {
    let wrong = first_wrong::<Lists>(rt.alloc(), OBJECTS, ROWS);
    assert!(rt; wrong == 0, "line {wrong}");
    Ok(())
}
