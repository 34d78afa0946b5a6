//! Rows of names behind a dot, and of indices in brackets.
use crate::members::owner;
use crate::sample::{Listed, Row, allow, heap, value};
use allowlist::Allow;
use def_resolve::{IndexAccess, NameAccess, Place, Purpose, index_access, name_access, place_of};
use object_heap::Heap;
use pl_types::classes::{
    CHAR_SEQUENCE, COLLECTION, ENTRY, EXCEPTION, LIST, MAP, SCRIPT_DOC_VALUES, STRING,
    STRING_BUILDER,
};
use std::alloc::{AllocError, Global};
use std::test::Fail;

/// What a name means; a member by the class that has it.
#[derive(Clone, Copy)]
enum Named {
    Nothing,
    Key(u32),
    Item(u32, i32),
    /// An item past every place.
    Far(u32),
    Property(u32),
    Length,
}

const READS: [(Listed, Row, &str, Named); 55] = [
    // of a map each name is a key
    (Listed::All, Row::Object(1), "k", Named::Key(MAP)),
    (Listed::All, Row::Object(1), "size", Named::Key(MAP)),
    (Listed::All, Row::Object(1), "empty", Named::Key(MAP)),
    (Listed::All, Row::Object(1), "0", Named::Key(MAP)),
    (Listed::GetAlone, Row::Object(1), "k", Named::Nothing),
    // of a list an index is an item
    (Listed::All, Row::Object(0), "0", Named::Item(LIST, 0)),
    (Listed::All, Row::Object(0), "12", Named::Item(LIST, 12)),
    (
        Listed::All,
        Row::Object(0),
        "2147483647",
        Named::Item(LIST, 2_147_483_647),
    ),
    (Listed::All, Row::Object(0), "2147483648", Named::Far(LIST)),
    (
        Listed::All,
        Row::Object(0),
        "99999999999999999999999999",
        Named::Far(LIST),
    ),
    (Listed::All, Row::Object(0), "05", Named::Nothing),
    (Listed::All, Row::Object(0), "1x", Named::Nothing),
    (Listed::All, Row::Object(0), "-1", Named::Nothing),
    (Listed::All, Row::Object(0), "+1", Named::Nothing),
    (Listed::GetAlone, Row::Object(0), "0", Named::Item(LIST, 0)),
    (Listed::ParentAlone, Row::Object(0), "0", Named::Nothing),
    (Listed::All, Row::Object(6), "0", Named::Item(LIST, 0)),
    // and every other name a property
    (Listed::All, Row::Object(0), "length", Named::Property(LIST)),
    (Listed::GetAlone, Row::Object(0), "length", Named::Nothing),
    (
        Listed::All,
        Row::Object(0),
        "empty",
        Named::Property(COLLECTION),
    ),
    (Listed::All, Row::Object(0), "size", Named::Nothing),
    (Listed::All, Row::Object(0), "", Named::Nothing),
    (
        Listed::All,
        Row::Object(6),
        "value",
        Named::Property(SCRIPT_DOC_VALUES),
    ),
    // arrays have a length alone
    (Listed::All, Row::Object(3), "length", Named::Length),
    (Listed::Nothing, Row::Object(5), "length", Named::Length),
    (Listed::All, Row::Object(3), "Length", Named::Nothing),
    (Listed::All, Row::Object(3), "0", Named::Nothing),
    (Listed::All, Row::Object(3), "empty", Named::Nothing),
    // getters of all else
    (Listed::All, Row::Object(10), "key", Named::Property(ENTRY)),
    (Listed::All, Row::Object(10), "Key", Named::Property(ENTRY)),
    (Listed::All, Row::Object(10), "kEY", Named::Nothing),
    (Listed::All, Row::Object(10), "_x", Named::Nothing),
    (Listed::All, Row::Object(10), "9", Named::Nothing),
    (Listed::All, Row::Object(10), "0", Named::Nothing),
    (Listed::All, Row::Object(10), "ékey", Named::Nothing),
    (Listed::All, Row::Object(10), "setValue", Named::Nothing),
    (
        Listed::All,
        Row::Object(16),
        "message",
        Named::Property(EXCEPTION),
    ),
    (
        Listed::All,
        Row::Object(2),
        "empty",
        Named::Property(COLLECTION),
    ),
    (
        Listed::All,
        Row::Object(7),
        "empty",
        Named::Property(COLLECTION),
    ),
    (
        Listed::All,
        Row::Object(8),
        "empty",
        Named::Property(COLLECTION),
    ),
    (Listed::All, Row::Object(12), "length", Named::Nothing),
    (
        Listed::All,
        Row::Word("a"),
        "empty",
        Named::Property(STRING),
    ),
    (Listed::All, Row::Word("a"), "length", Named::Nothing),
    (Listed::All, Row::Int(1), "value", Named::Nothing),
    (Listed::All, Row::Int(1), "0", Named::Nothing),
    (Listed::Nothing, Row::Word("a"), "empty", Named::Nothing),
    // a Supplier has no property by its `get`
    (Listed::All, Row::Object(13), "x", Named::Nothing),
    (Listed::All, Row::Object(14), "x", Named::Nothing),
    (Listed::All, Row::Object(15), "length", Named::Nothing),
    (Listed::All, Row::Object(11), "next", Named::Nothing),
    (Listed::All, Row::Null, "x", Named::Nothing),
    (Listed::All, Row::Null, "length", Named::Nothing),
    (Listed::All, Row::Flag(true), "x", Named::Nothing),
    (Listed::All, Row::Object(17), "x", Named::Nothing),
    (Listed::All, Row::Object(17), "length", Named::Nothing),
];

const WRITES: [(Listed, Row, &str, Named); 17] = [
    (Listed::All, Row::Object(1), "k", Named::Key(MAP)),
    (Listed::All, Row::Object(1), "7", Named::Key(MAP)),
    (Listed::GetAlone, Row::Object(1), "k", Named::Nothing),
    (Listed::All, Row::Object(0), "0", Named::Item(LIST, 0)),
    (Listed::All, Row::Object(0), "2147483648", Named::Far(LIST)),
    (Listed::GetAlone, Row::Object(0), "0", Named::Nothing),
    (Listed::All, Row::Object(0), "length", Named::Nothing),
    (Listed::All, Row::Object(0), "empty", Named::Nothing),
    (Listed::All, Row::Object(3), "length", Named::Nothing),
    (Listed::All, Row::Object(3), "0", Named::Nothing),
    (
        Listed::All,
        Row::Object(10),
        "value",
        Named::Property(ENTRY),
    ),
    (Listed::All, Row::Object(10), "key", Named::Nothing),
    (
        Listed::All,
        Row::Object(12),
        "length",
        Named::Property(STRING_BUILDER),
    ),
    (Listed::All, Row::Word("a"), "empty", Named::Nothing),
    (Listed::All, Row::Object(16), "message", Named::Nothing),
    (Listed::All, Row::Object(13), "x", Named::Nothing),
    (Listed::All, Row::Null, "x", Named::Nothing),
];

fn is_at(place: Place, wanted: i32) -> bool {
    match place {
        Place::At(at) => at == wanted,
        Place::Beyond => false,
    }
}

fn is_beyond(place: Place) -> bool {
    match place {
        Place::At(_) => false,
        Place::Beyond => true,
    }
}

fn is_named(allow: &Allow, found: Option<NameAccess>, wanted: Named) -> bool {
    match (found, wanted) {
        (None, Named::Nothing) => true,
        (Some(NameAccess::Length), Named::Length) => true,
        (Some(NameAccess::Key(number)), Named::Key(class)) => owner(allow, number) == Some(class),
        (Some(NameAccess::Accessor(number)), Named::Property(class)) => {
            owner(allow, number) == Some(class)
        }
        (Some(NameAccess::Item(number, place)), Named::Item(class, at)) => {
            owner(allow, number) == Some(class) && is_at(place, at)
        }
        (Some(NameAccess::Item(number, place)), Named::Far(class)) => {
            owner(allow, number) == Some(class) && is_beyond(place)
        }
        _ => false,
    }
}

fn name_means(
    alloc: Global,
    heap: &Heap,
    row: (Listed, Row, &str, Named),
    purpose: Purpose,
) -> Result<bool, AllocError> {
    let (listed, receiver, name, wanted) = row;
    let receiver = value(alloc, receiver)?;
    let allow = allow(alloc, listed)?;
    let found = name_access(&allow, heap, &receiver, name, purpose);
    Ok(is_named(&allow, found, wanted))
}

#[test]
fn names_are_read(rt: HostRuntime) -> Result<(), Fail> {
    let heap = heap(rt.alloc(), 100)?;
    let mut at = 0u32;
    for row in &READS {
        let holds = name_means(rt.alloc(), &heap, *row, Purpose::Read)?;
        assert!(rt; holds, "{at}");
        at = at.wrapping_add(1);
    }
    Ok(())
}

#[test]
fn names_are_written(rt: HostRuntime) -> Result<(), Fail> {
    let heap = heap(rt.alloc(), 100)?;
    let mut at = 0u32;
    for row in &WRITES {
        let holds = name_means(rt.alloc(), &heap, *row, Purpose::Write)?;
        assert!(rt; holds, "{at}");
        at = at.wrapping_add(1);
    }
    Ok(())
}

/// What an index in brackets means.
#[derive(Clone, Copy)]
enum Indexed {
    Nothing,
    Key(u32),
    Item(u32),
    Element,
}

const INDICES: [(Listed, Row, Indexed, Indexed); 17] = [
    (
        Listed::All,
        Row::Object(0),
        Indexed::Item(LIST),
        Indexed::Item(LIST),
    ),
    (
        Listed::All,
        Row::Object(1),
        Indexed::Key(MAP),
        Indexed::Key(MAP),
    ),
    (
        Listed::All,
        Row::Object(6),
        Indexed::Item(LIST),
        Indexed::Item(LIST),
    ),
    (
        Listed::GetAlone,
        Row::Object(0),
        Indexed::Item(LIST),
        Indexed::Nothing,
    ),
    (
        Listed::GetAlone,
        Row::Object(1),
        Indexed::Nothing,
        Indexed::Nothing,
    ),
    (
        Listed::Nothing,
        Row::Object(3),
        Indexed::Element,
        Indexed::Element,
    ),
    (
        Listed::All,
        Row::Object(4),
        Indexed::Element,
        Indexed::Element,
    ),
    (
        Listed::All,
        Row::Object(2),
        Indexed::Nothing,
        Indexed::Nothing,
    ),
    (
        Listed::All,
        Row::Object(7),
        Indexed::Nothing,
        Indexed::Nothing,
    ),
    (
        Listed::All,
        Row::Object(8),
        Indexed::Nothing,
        Indexed::Nothing,
    ),
    (
        Listed::All,
        Row::Object(10),
        Indexed::Nothing,
        Indexed::Nothing,
    ),
    (
        Listed::All,
        Row::Object(12),
        Indexed::Nothing,
        Indexed::Nothing,
    ),
    (
        Listed::All,
        Row::Object(13),
        Indexed::Nothing,
        Indexed::Nothing,
    ),
    (
        Listed::All,
        Row::Object(14),
        Indexed::Nothing,
        Indexed::Nothing,
    ),
    (
        Listed::All,
        Row::Word("abc"),
        Indexed::Nothing,
        Indexed::Nothing,
    ),
    (Listed::All, Row::Null, Indexed::Nothing, Indexed::Nothing),
    (Listed::All, Row::Int(1), Indexed::Nothing, Indexed::Nothing),
];

fn is_indexed(allow: &Allow, found: Option<IndexAccess>, wanted: Indexed) -> bool {
    match (found, wanted) {
        (None, Indexed::Nothing) => true,
        (Some(IndexAccess::Element), Indexed::Element) => true,
        (Some(IndexAccess::Key(number)), Indexed::Key(class)) => owner(allow, number)
            == Some(class),
        (Some(IndexAccess::Item(number)), Indexed::Item(class)) => {
            owner(allow, number) == Some(class)
        }
        _ => false,
    }
}

fn index_means(
    alloc: Global,
    heap: &Heap,
    row: (Listed, Row, Indexed, Indexed),
) -> Result<bool, AllocError> {
    let (listed, receiver, read, written) = row;
    let receiver = value(alloc, receiver)?;
    let allow = allow(alloc, listed)?;
    let reads = index_access(&allow, heap, &receiver, Purpose::Read);
    let writes = index_access(&allow, heap, &receiver, Purpose::Write);
    Ok(is_indexed(&allow, reads, read) && is_indexed(&allow, writes, written))
}

#[test]
fn indices_mean_items_keys_and_elements(rt: HostRuntime) -> Result<(), Fail> {
    let heap = heap(rt.alloc(), 100)?;
    let mut at = 0u32;
    for row in &INDICES {
        let holds = index_means(rt.alloc(), &heap, *row)?;
        assert!(rt; holds, "{at}");
        at = at.wrapping_add(1);
    }
    Ok(())
}

#[test]
fn digits_are_places(rt: HostRuntime) {
    let zero = place_of("0").is_some();
    let name = place_of("a").is_none();
    assert!(rt; zero && name);
}
