//! Rows of constructors, views and the members of Map.Entry.
use super::sample::{Maps, OBJECTS};
use member_rows::first_wrong;
use std::test::Fail;

const ROWS: &str = "\
# HashMap: HashMap()
159 | @38 | 1 | @38 0 {}
# HashMap: HashMap(Map)
160 @0 | @38 | 5 | @38 0 {a=1, b=null}
160 @7 | @38 | 3 | @38 0 {k=7}
160 null | !NullPointerException | 1 | @0 5 {a=1, b=null}
160 @8 | @38 | 3 | @38 0 {f=9}
160 @9 | @38 | 5 | @38 0 {op=index, id=3}
160 @1 | !NullPointerException | 1 | @0 5 {a=1, b=null}
# LinkedHashMap: LinkedHashMap()
161 | @38 | 1 | @38 0 {}
# LinkedHashMap: LinkedHashMap(Map)
162 @12 | @38 | 1 | @38 0 {}
# HashSet: HashSet()
125 | @38 | 1 | @38 0 []
# HashSet: HashSet(Collection)
126 @10 | @38 | 3 | @38 0 [x, 2]
126 @1 | @38 | 3 | @38 0 [a, b]
126 @2 | @38 | 3 | @38 0 [1, null]
126 @3 | !IllegalArgumentException: key must be a simple value | 27 | @0 5 {a=1, b=null}
126 @11 | !IllegalArgumentException: key must be a simple value | 27 | @0 5 {a=1, b=null}
126 null | !NullPointerException | 1 | @0 5 {a=1, b=null}
126 @34 | @38 | 9 | @38 0 [null, true, a, 1, 1, 1, 1, 1]
126 @15 | @38 | 2 | @38 0 [x]
126 @28 | @38 | 1 | @38 0 []
126 @16 | !IllegalArgumentException: key must be a simple value | 27 | @0 5 {a=1, b=null}
126 @0 | !NullPointerException | 1 | @0 5 {a=1, b=null}
# LinkedHashSet: LinkedHashSet()
127 | @38 | 1 | @38 0 []
# LinkedHashSet: LinkedHashSet(Collection)
128 @6 | @38 | 3 | @38 0 [x, 1]
# Map: Set keySet()
136 @0 | @38 | 1 | @38 0 [a, b]
# Map: Collection values()
144 @0 | @38 | 1 | @38 0 [1, null]
144 @12 | @38 | 1 | @38 0 []
144 null | !NullPointerException | 1 | @0 5 {a=1, b=null}
# Map: Set entrySet()
132 @0 | @38 | 1 | @38 0 [a=1, b=null]
132 @7 | @38 | 1 | @38 0 [k=7]
132 null | !NullPointerException | 1 | @0 5 {a=1, b=null}
# Map: Set keySet()
136 null | !NullPointerException | 1 | @0 5 {a=1, b=null}
# Map.Entry: def getKey()
163 @4 | 'a' | 0 | @0 5 {a=1, b=null}
163 @5 | 'z' | 0 | @0 5 {a=1, b=null}
163 null | !NullPointerException | 1 | @0 5 {a=1, b=null}
163 @0 | !NullPointerException | 1 | @0 5 {a=1, b=null}
# Map.Entry: def getValue()
164 @4 | 1 | 0 | @0 5 {a=1, b=null}
164 @5 | null | 0 | @0 5 {a=1, b=null}
164 @13 | 7 | 0 | @7 0 {k=7}
164 null | !NullPointerException | 1 | @0 5 {a=1, b=null}
# Map.Entry: def setValue(def)
165 @4 8 | 1 | 0 | @0 5 {a=8, b=null}
165 @5 8 | !IllegalStateException: entry is gone | 14 | @0 5 {a=1, b=null}
165 @13 1 | !UnsupportedOperationException | 1 | @7 0 {k=7}
165 @4 @0 | 1 | 0 | @12 0 {}
165 @36 5 | !UnsupportedOperationException | 1 | @9 0 {op=index, id=3}
165 @37 'n' | 'index' | 0 | @9 0 {op=n, id=3}
165 null 1 | !NullPointerException | 1 | @0 5 {a=1, b=null}";

#[test]
fn making(rt: HostRuntime) -> Result<(), Fail> {
    let wrong = first_wrong::<Maps>(rt.alloc(), OBJECTS, ROWS);
    assert!(rt; wrong == 0, "line {wrong}");
    Ok(())
}
