//! The constructor of lists, and the makers of frozen lists and maps.
ghost use Rattle.std.specs.Prelude.{◌≡◌, [], ◌∷◌, IfOk};
ghost use Rattle.container_outcomes.specs.Outcomes.{Tells};
ghost use Rattle.api_list.specs.Making as spec;

use container_outcomes::{Outcome, null_error};
use member_arguments::value_at;
use object_heap::Heap;
use object_values::{Elements, Guard, Object, Pairs, Value};
use pl_types::classes::{ARRAY_LIST, HASH_MAP};
use std::alloc::{AllocError, Global};

/// `ArrayList()`.
pub fn new_list(heap: &Heap) -> Outcome
    ensures { result ≡ spec.new_list }
{
    Outcome::New(Object::List {
        class: ARRAY_LIST,
        items: Elements::new(heap.alloc()),
        guard: Guard::Open,
        changes: 0,
    })
}

/// `Collections.emptyList()`.
pub fn empty_list(heap: &Heap) -> Outcome
    ensures { result ≡ spec.empty_list }
{
    Outcome::New(Object::List {
        class: ARRAY_LIST,
        items: Elements::new(heap.alloc()),
        guard: Guard::Frozen,
        changes: 0,
    })
}

/// `Collections.emptyMap()`.
pub fn empty_map(heap: &Heap) -> Outcome
    ensures { result ≡ spec.empty_map }
{
    Outcome::New(Object::Map {
        class: HASH_MAP,
        pairs: Pairs::new(heap.alloc(), heap.seed()),
        guard: Guard::Frozen,
        changes: 0,
    })
}

fn one(alloc: Global, item: &Value) -> Result<Elements<Value>, AllocError>
    ensures { IfOk result (λ items. items ≡ item.now ∷ []) }
{
    let item = item.share()?;
    let mut items = Elements::new(alloc);
    items.push(item)?;
    Ok(items)
}

fn list_of_one(heap: &Heap, item: &Value) -> Outcome
    ensures { Tells (spec.list_of_one item.now) result }
{
    match one(heap.alloc(), item) {
        Ok(items) => Outcome::New(Object::List {
            class: ARRAY_LIST,
            items,
            guard: Guard::Frozen,
            changes: 0,
        }),
        Err(_) => Outcome::NoMemory,
    }
}

/// `Collections.singletonList(def)`.
pub fn singleton_list(heap: &Heap, args: &[Value]) -> Outcome
    ensures { Tells (spec.singleton_list args.now) result }
{
    match value_at(args, 0) {
        Some(item) => list_of_one(heap, item),
        None => null_error(),
    }
}
