//! Rows of the members of Map from `putAll` on.
use super::sample::{Maps, OBJECTS};
use member_rows::first_wrong;
use std::test::Fail;

const ROWS: &str = "\
# Map: void putAll(Map)
138 @0 @0 | null | 0 | @0 5 {a=1, b=null}
138 @0 @20 | null | 0 | @0 5 {a=1, b=null}
138 @0 @7 | null | 2 | @0 6 {a=1, b=null, k=7}
138 @12 @0 | null | 4 | @12 2 {a=1, b=null}
138 @0 @12 | null | 0 | @0 5 {a=1, b=null}
138 @0 null | !NullPointerException | 1 | @0 5 {a=1, b=null}
138 @7 null | !UnsupportedOperationException | 1 | @7 0 {k=7}
138 @7 @12 | !UnsupportedOperationException | 1 | @7 0 {k=7}
138 @9 @0 | !UnsupportedOperationException | 1 | @9 0 {op=index, id=3}
138 @9 @12 | null | 0 | @9 0 {op=index, id=3}
138 @0 @9 | null | 4 | @0 7 {a=1, b=null, op=index, id=3}
138 @12 @8 | null | 2 | @12 1 {f=9}
138 @0 @24 | null | 2 | @0 6 {a=1, b=null, p=[x, 2, x]}
138 @17 @17 | null | 0 | @12 0 {}
138 @0 @6 | !NullPointerException | 1 | @0 5 {a=1, b=null}
138 @0 @1 | !NullPointerException | 1 | @0 5 {a=1, b=null}
138 @8 @12 | !UnsupportedOperationException | 1 | @8 0 {f=9}
138 null @0 | !NullPointerException | 1 | @0 5 {a=1, b=null}
# Map: def putIfAbsent(def, def)
139 @0 'a' 3 | 1 | 0 | @0 5 {a=1, b=null}
139 @0 'b' 3 | null | 0 | @0 5 {a=1, b=3}
139 @0 'c' 3 | null | 2 | @0 6 {a=1, b=null, c=3}
139 @7 'k' 3 | !UnsupportedOperationException | 1 | @7 0 {k=7}
139 @9 'id' 1 | !UnsupportedOperationException | 1 | @9 0 {op=index, id=3}
139 @9 'op' 1 | 'index' | 0 | @9 0 {op=index, id=3}
139 @12 null null | null | 2 | @12 1 {null=null}
139 @0 'c' @0 | null | 2 | @12 0 {}
139 @0 @10 3 | !IllegalArgumentException: key must be a simple value | 27 | @0 5 {a=1, b=null}
139 @7 @10 3 | !UnsupportedOperationException | 1 | @7 0 {k=7}
139 @8 'f' 3 | !UnsupportedOperationException | 1 | @8 0 {f=9}
139 null 'a' 3 | !NullPointerException | 1 | @0 5 {a=1, b=null}
# Map: def remove(def)
140 @0 'a' | 1 | 0 | @0 6 {b=null}
140 @0 'b' | null | 0 | @0 6 {a=1}
140 @0 'c' | null | 0 | @0 5 {a=1, b=null}
140 @0 @10 | !IllegalArgumentException: key must be a simple value | 27 | @0 5 {a=1, b=null}
140 @9 'op' | !UnsupportedOperationException | 1 | @9 0 {op=index, id=3}
140 @7 'z' | !UnsupportedOperationException | 1 | @7 0 {k=7}
140 @7 @10 | !UnsupportedOperationException | 1 | @7 0 {k=7}
140 @0 null | null | 0 | @0 5 {a=1, b=null}
140 @24 'p' | @10 | 0 | @24 2 {}
140 @12 1 | null | 0 | @12 0 {}
140 @8 'f' | !UnsupportedOperationException | 1 | @8 0 {f=9}
140 null 'a' | !NullPointerException | 1 | @0 5 {a=1, b=null}
# Map: boolean remove(def, def)
141 @0 'a' 1 | true | 0 | @0 6 {b=null}
141 @0 'a' 1L | false | 0 | @0 5 {a=1, b=null}
141 @0 'b' null | true | 0 | @0 6 {a=1}
141 @0 'c' null | false | 0 | @0 5 {a=1, b=null}
141 @24 'p' @27 | true | 0 | @24 2 {}
141 @0 @10 1 | !IllegalArgumentException: key must be a simple value | 27 | @0 5 {a=1, b=null}
141 @7 'k' 9 | !UnsupportedOperationException | 1 | @7 0 {k=7}
141 @12 null null | false | 0 | @12 0 {}
141 @17 'm' @18 | !IllegalStateException: value nested too deeply | 24 | @12 0 {}
141 @17 'm' @16 | true | 0 | @17 1 {}
141 @9 'op' 'index' | !UnsupportedOperationException | 1 | @9 0 {op=index, id=3}
141 @7 @10 1 | !UnsupportedOperationException | 1 | @7 0 {k=7}
141 null 'a' 1 | !NullPointerException | 1 | @0 5 {a=1, b=null}
# Map: def replace(def, def)
142 @0 'a' 2 | 1 | 0 | @0 5 {a=2, b=null}
142 @0 'c' 2 | null | 0 | @0 5 {a=1, b=null}
142 @0 'b' 2 | null | 0 | @0 5 {a=1, b=2}
142 @7 'k' 1 | !UnsupportedOperationException | 1 | @7 0 {k=7}
142 @9 'id' 1 | !UnsupportedOperationException | 1 | @9 0 {op=index, id=3}
142 @12 null 1 | null | 0 | @12 0 {}
142 @9 'op' 1 | 'index' | 0 | @9 0 {op=1, id=3}
142 @9 '_source' 1 | null | 0 | @9 0 {op=index, id=3}
142 @0 @10 2 | !IllegalArgumentException: key must be a simple value | 27 | @0 5 {a=1, b=null}
142 @8 'g' 1 | !UnsupportedOperationException | 1 | @8 0 {f=9}
142 null 'a' 2 | !NullPointerException | 1 | @0 5 {a=1, b=null}
# Map: int size()
143 @0 | 2 | 0 | @0 5 {a=1, b=null}
143 @12 | 0 | 0 | @12 0 {}
143 @8 | 1 | 0 | @8 0 {f=9}
143 null | !NullPointerException | 1 | @0 5 {a=1, b=null}";

#[test]
fn maps_further(rt: HostRuntime) -> Result<(), Fail> {
    let wrong = first_wrong::<Maps>(rt.alloc(), OBJECTS, ROWS);
    assert!(rt; wrong == 0, "line {wrong}");
    Ok(())
}
