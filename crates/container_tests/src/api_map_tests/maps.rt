//! Rows of the members of Map, from `clear` to `put`.
use super::sample::{Maps, OBJECTS};
use member_rows::first_wrong;
use std::test::Fail;

const ROWS: &str = "\
# Map: void clear()
129 @0 | null | 0 | @0 6 {}
129 @12 | null | 0 | @12 0 {}
129 @7 | !UnsupportedOperationException | 1 | @7 0 {k=7}
129 @9 | !UnsupportedOperationException | 1 | @9 0 {op=index, id=3}
129 @8 | !UnsupportedOperationException | 1 | @8 0 {f=9}
129 null | !NullPointerException | 1 | @12 0 {}
129 @24 | null | 0 | @24 2 {}
# Map: boolean containsKey(def)
130 @0 'b' | true | 0 | @0 5 {a=1, b=null}
130 @0 null | false | 0 | @0 5 {a=1, b=null}
130 @12 'a' | false | 0 | @12 0 {}
130 @0 @10 | !IllegalArgumentException: key must be a simple value | 27 | @0 5 {a=1, b=null}
130 @8 'g' | false | 0 | @8 0 {f=9}
130 @12 null | false | 0 | @12 0 {}
130 @7 'k' | true | 0 | @7 0 {k=7}
130 @8 'f' | true | 0 | @8 0 {f=9}
130 @8 @10 | !IllegalArgumentException: key must be a simple value | 27 | @8 0 {f=9}
130 null 'a' | !NullPointerException | 1 | @12 0 {}
# Map: boolean containsValue(def)
131 @0 null | true | 0 | @0 5 {a=1, b=null}
131 @0 1L | false | 0 | @0 5 {a=1, b=null}
131 @0 1 | true | 0 | @0 5 {a=1, b=null}
131 @12 null | false | 0 | @12 0 {}
131 @24 @27 | true | 0 | @24 1 {p=[x, 2, x]}
131 @17 @18 | !IllegalStateException: value nested too deeply | 24 | @12 0 {}
131 @0 1s | false | 0 | @0 5 {a=1, b=null}
131 @0 'a' | false | 0 | @0 5 {a=1, b=null}
131 @20 1L | true | 0 | @20 0 {a=1, b=null}
131 @17 @16 | true | 0 | @12 0 {}
131 null 1 | !NullPointerException | 1 | @12 0 {}
# Map: def get(def)
133 @0 'a' | 1 | 0 | @0 5 {a=1, b=null}
133 @0 'b' | null | 0 | @0 5 {a=1, b=null}
133 @0 'c' | null | 0 | @0 5 {a=1, b=null}
133 @0 @10 | !IllegalArgumentException: key must be a simple value | 27 | @0 5 {a=1, b=null}
133 @8 'f' | 9 | 0 | @8 0 {f=9}
133 @8 'g' | !IllegalArgumentException: No field found for [g] in mapping | 34 | @8 0 {f=9}
133 @8 1 | !IllegalArgumentException: No field found for [1] in mapping | 34 | @8 0 {f=9}
133 @9 'op' | 'index' | 0 | @9 0 {op=index, id=3}
133 @0 null | null | 0 | @0 5 {a=1, b=null}
133 @12 1 | null | 0 | @12 0 {}
133 @7 'k' | 7 | 0 | @7 0 {k=7}
133 @24 'p' | @10 | 0 | @24 1 {p=[x, 2, x]}
133 @8 null | !IllegalArgumentException: No field found for [null] in mapping | 37 | @8 0 {f=9}
133 null 'a' | !NullPointerException | 1 | @12 0 {}
# Map: def getOrDefault(def, def)
134 @0 'b' 4 | null | 0 | @0 5 {a=1, b=null}
134 @0 'c' 4 | 4 | 0 | @0 5 {a=1, b=null}
134 @8 'g' 4 | 4 | 0 | @8 0 {f=9}
134 @0 @10 4 | !IllegalArgumentException: key must be a simple value | 27 | @0 5 {a=1, b=null}
134 @0 'a' 4 | 1 | 0 | @0 5 {a=1, b=null}
134 @0 'c' null | null | 0 | @0 5 {a=1, b=null}
134 @8 'f' 4 | 9 | 0 | @8 0 {f=9}
134 null 'a' 4 | !NullPointerException | 1 | @12 0 {}
# Map: boolean isEmpty()
135 @12 | true | 0 | @12 0 {}
135 @0 | false | 0 | @0 5 {a=1, b=null}
135 @8 | false | 0 | @8 0 {f=9}
135 null | !NullPointerException | 1 | @12 0 {}
# Map: def put(def, def)
137 @0 'a' 7 | 1 | 0 | @0 5 {a=7, b=null}
137 @0 'c' 7 | null | 2 | @0 6 {a=1, b=null, c=7}
137 @0 null 7 | null | 2 | @0 6 {a=1, b=null, null=7}
137 @12 1 7 | null | 2 | @12 1 {1=7}
137 @0 @10 1 | !IllegalArgumentException: key must be a simple value | 27 | @0 5 {a=1, b=null}
137 @7 'k' 7 | !UnsupportedOperationException | 1 | @7 0 {k=7}
137 @7 @10 1 | !UnsupportedOperationException | 1 | @7 0 {k=7}
137 @9 'op' 'n' | 'index' | 0 | @9 0 {op=n, id=3}
137 @9 '_source' 1 | null | 2 | @9 1 {op=index, id=3, _source=1}
137 @9 'id' 1 | !UnsupportedOperationException | 1 | @9 0 {op=index, id=3}
137 @9 3 1 | !UnsupportedOperationException | 1 | @9 0 {op=index, id=3}
137 @8 'f' 1 | !UnsupportedOperationException | 1 | @8 0 {f=9}
137 @12 'm' @12 | null | 2 | @28 3 []
137 @20 'a' 1 | 1L | 0 | @20 0 {a=1, b=null}
137 @9 '_id' 1 | !UnsupportedOperationException | 1 | @9 0 {op=index, id=3}
137 @9 @10 1 | !UnsupportedOperationException | 1 | @9 0 {op=index, id=3}
137 @8 @10 1 | !UnsupportedOperationException | 1 | @8 0 {f=9}
137 null 'a' 1 | !NullPointerException | 1 | @12 0 {}";

#[test]
fn maps(rt: HostRuntime) -> Result<(), Fail> {
    let wrong = first_wrong::<Maps>(rt.alloc(), OBJECTS, ROWS);
    assert!(rt; wrong == 0, "line {wrong}");
    Ok(())
}
