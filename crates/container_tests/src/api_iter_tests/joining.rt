//! Rows of `join` and of `getValue`.
use super::sample::{Iterables, OBJECTS};
use member_rows::first_wrong;
use std::test::Fail;

const ROWS: &str = "\
# Iterable: String join(String)
96 @0 ',' | '10,20,30' | 9 | @0 0 [10, 20, 30]
96 @0 '' | '102030' | 7 | @0 0 [10, 20, 30]
96 @2 '-' | '' | 1 | @0 0 [10, 20, 30]
96 @8 '-' | '' | 1 | @0 0 [10, 20, 30]
96 @4 '-' | '1-2' | 4 | @0 0 [10, 20, 30]
96 @9 '-' | '7-8' | 4 | @0 0 [10, 20, 30]
96 @5 ';' | '1=7;2=8' | 8 | @0 0 [10, 20, 30]
96 @6 '+' | '1+2' | 4 | @0 0 [10, 20, 30]
96 @1 '56' | '5566' | 5 | @0 0 [10, 20, 30]
96 @15 '-' | !IllegalStateException: value nested too deeply | 24 | @0 0 [10, 20, 30]
96 @0 null | !NullPointerException | 1 | @0 0 [10, 20, 30]
96 null '-' | !NullPointerException | 1 | @0 0 [10, 20, 30]
# ScriptDocValues: def getValue()
225 @1 | 5 | 0 | @0 0 [10, 20, 30]
225 @14 | 'a' | 0 | @0 0 [10, 20, 30]
225 @2 | !IllegalStateException: A document doesn't have a value for a field! Use doc[<field>].size()==0 to check if a document is missing a field! | 115 | @0 0 [10, 20, 30]
225 null | !NullPointerException | 1 | @0 0 [10, 20, 30]";

#[test]
fn joined_texts(rt: HostRuntime) -> Result<(), Fail> {
    let wrong = first_wrong::<Iterables>(rt.alloc(), OBJECTS, ROWS);
    assert!(rt; wrong == 0, "line {wrong}");
    Ok(())
}
