//! What an object may be replaced by, what is gone when a script ends, and the parts of objects.

use super::making::{Shape, placed, renew};
use object_heap::Heap;
use object_values::{Owner, Target};
use pl_types::Ty;
use pl_types::classes::{
    ARRAY_LIST, COMPARATOR, EXCEPTION, FUNCTION, HASH_MAP, HASH_SET, LINKED_HASH_MAP,
    LINKED_HASH_SET, SCRIPT_DOC_VALUES,
};
use std::test::Fail;

// How much an object holds, in whichever part it holds it.
fn held(heap: &Heap) -> usize {
    let message = match heap.message(0) {
        Some(text) => text.len(),
        None => 0,
    };
    heap.size(0)
        .max(heap.captures(0).len())
        .max(heap.units(0).len())
        .max(message)
}

// An object, what is to replace it, and how much there is afterwards.
const RENEWALS: [(Shape, Shape, usize); 18] = [
    (Shape::List(ARRAY_LIST, 1), Shape::List(ARRAY_LIST, 3), 3),
    (
        Shape::List(ARRAY_LIST, 1),
        Shape::List(SCRIPT_DOC_VALUES, 3),
        1,
    ),
    (Shape::List(ARRAY_LIST, 1), Shape::Set(HASH_SET, 3), 1),
    (Shape::Map(HASH_MAP, 2), Shape::Map(HASH_MAP, 0), 0),
    (Shape::Map(HASH_MAP, 2), Shape::Map(LINKED_HASH_MAP, 0), 2),
    (Shape::Set(HASH_SET, 2), Shape::Set(HASH_SET, 4), 4),
    (Shape::Set(HASH_SET, 2), Shape::Set(LINKED_HASH_SET, 4), 2),
    (Shape::Set(HASH_SET, 2), Shape::Map(HASH_MAP, 4), 2),
    (Shape::Ints(2), Shape::Ints(3), 3),
    (Shape::Ints(2), Shape::Longs(3), 2),
    (Shape::Function(None, 1), Shape::Function(None, 2), 2),
    (
        Shape::Function(None, 1),
        Shape::Function(Some(FUNCTION), 2),
        2,
    ),
    (
        Shape::Function(Some(FUNCTION), 1),
        Shape::Function(Some(FUNCTION), 2),
        2,
    ),
    (
        Shape::Function(Some(FUNCTION), 1),
        Shape::Function(Some(COMPARATOR), 2),
        1,
    ),
    (
        Shape::Function(Some(FUNCTION), 1),
        Shape::Function(None, 2),
        1,
    ),
    (Shape::Builder(1), Shape::Builder(5), 5),
    (
        Shape::Exception(EXCEPTION, Some("a")),
        Shape::Exception(EXCEPTION, Some("ab")),
        2,
    ),
    (Shape::Exception(EXCEPTION, Some("a")), Shape::Builder(5), 1),
];

#[test]
fn renewals(rt: HostRuntime) -> Result<(), Fail> {
    for (before, after, left) in &RENEWALS {
        let mut heap = placed(rt.alloc(), 50, &[*before])?;
        let went = renew(&mut heap, 0, *after)?;
        assert!(rt; went);
        let count = held(&heap);
        assert!(rt; count == *left);
        let went = renew(&mut heap, 1, *after)?;
        assert!(rt; went);
        let count = heap.len();
        assert!(rt; count == 1);
    }
    Ok(())
}

fn called(target: Option<&Target>) -> u8 {
    match target {
        None => 0,
        Some(Target::Lambda(Owner::Script, _)) => 1,
        Some(Target::Lambda(Owner::Prelude, _)) => 2,
        Some(Target::Member(_, _)) => 3,
        Some(Target::New(_)) => 4,
        Some(Target::Gone) => 5,
    }
}

const FUNCTIONS: [Shape; 5] = [
    Shape::Function(None, 1),
    Shape::Given(1),
    Shape::Reference(ARRAY_LIST),
    Shape::Constructor,
    Shape::Function(Some(FUNCTION), 2),
];

// What they call, before and after the script has ended.
const CALLED: [(u32, u8, u8); 6] = [
    (0, 1, 5),
    (1, 2, 2),
    (2, 3, 3),
    (3, 4, 4),
    (4, 1, 5),
    (5, 0, 0),
];

#[test]
fn lambdas_are_gone(rt: HostRuntime) -> Result<(), Fail> {
    let mut heap = placed(rt.alloc(), 0, &FUNCTIONS)?;
    for (id, before, _) in &CALLED {
        let target = called(heap.target(*id));
        assert!(rt; target == *before);
    }
    heap.refill(50);
    let left = heap.room_left();
    assert!(rt; left == 50);
    for (id, _, after) in &CALLED {
        let target = called(heap.target(*id));
        assert!(rt; target == *after);
    }
    let captured = heap.captures(4).len();
    assert!(rt; captured == 2);
    Ok(())
}

const GUARDED: [Shape; 5] = [
    Shape::Guarded(0),
    Shape::Guarded(1),
    Shape::Guarded(2),
    Shape::Guarded(3),
    Shape::Defs(0),
];

// Objects, whether nothing may change them, and whether they have a guard.
const GUARDS: [(u32, bool, bool); 5] = [
    (0, false, true),
    (1, true, true),
    (2, false, true),
    (3, true, true),
    (4, false, false),
];

#[test]
fn guards(rt: HostRuntime) -> Result<(), Fail> {
    let heap = placed(rt.alloc(), 0, &GUARDED)?;
    for (id, frozen, guarded) in &GUARDS {
        let found = heap.is_frozen(*id);
        assert!(rt; found == *frozen);
        let there = heap.guard(*id).is_some();
        assert!(rt; there == *guarded);
    }
    let typed = match heap.elem(4) {
        Some(elem) => elem.is(&Ty::Def),
        None => false,
    };
    assert!(rt; typed);
    let there = heap.pairs(0).is_some();
    assert!(rt; there);
    let there = heap.get(4).is_some();
    assert!(rt; there);
    Ok(())
}
