//! The members that take all elements of a collection into a new list, a new array, or a list that is there.
ghost use Rattle.std.specs.Prelude.{◌≡◌, length};
ghost use Rattle.object_heap.specs.Parts.{items_of};
ghost use Rattle.object_values.specs.declared.value.Value.TheVariants as v;
ghost use Rattle.container_outcomes.specs.declared.outcome.Outcome.{Outcome};
ghost use Rattle.container_outcomes.specs.Outcomes.{Tells};
ghost use Rattle.container_values.specs.Elements as elements;
ghost use Rattle.api_list.specs.Lists.{place_into};
ghost use Rattle.api_list.specs.Taking as spec;
ghost use Rattle.api_list.specs.Taking.{Comes};

use crate::arguments::list_at;
use crate::lists::place_into;
use crate::told::Told;
use container_outcomes::{Outcome, index_error, is_open, null_error, unsupported};
use container_parts::Container;
use container_values::{collection_at, entries, entry_count, taken};
use member_arguments::int_at;
use object_heap::Heap;
use object_values::{Elements, Guard, Object, Value};
use pl_types::Ty;
use pl_types::classes::ARRAY_LIST;

fn list_taken(heap: &Heap, container: Container) -> Outcome
    ensures { Tells (spec.list_taken heap.now.objects container) result }
{
    match (entries(heap, container), taken(heap, container)) {
        (Ok(made), Ok(items)) => Outcome::Makes(
            made,
            Object::List {
                class: ARRAY_LIST,
                items,
                guard: Guard::Open,
                changes: 0,
            },
        ),
        _ => Outcome::NoMemory,
    }
}

fn array_taken(heap: &Heap, container: Container) -> Outcome
    ensures { Tells (spec.array_taken heap.now.objects container) result }
{
    match (entries(heap, container), taken(heap, container)) {
        (Ok(made), Ok(items)) => Outcome::Makes(
            made,
            Object::Array {
                elem: Ty::Def,
                items,
            },
        ),
        _ => Outcome::NoMemory,
    }
}

fn as_list_of(heap: &Heap, container: Container) -> Outcome
    ensures { Tells (spec.as_list_of heap.now.objects container) result }
{
    match container {
        Container::Items(id) => Outcome::Gives(Value::Ref(id)),
        Container::Array(id) => list_taken(heap, Container::Array(id)),
        Container::Keys(id) => list_taken(heap, Container::Keys(id)),
        Container::Shown(map, part) => list_taken(heap, Container::Shown(map, part)),
    }
}

fn extends(list: u32, at: usize, items: Elements<Value>) -> Outcome
    ensures { result ≡ Outcome.Extends list at items (v.Bool (spec.has_any items)) }
{
    let any = 0 < items.len();
    Outcome::Extends(list, at, items, Value::Bool(any))
}

fn values_added(heap: &Heap, list: u32, at: usize, container: Container) -> Outcome
    ensures { Tells (Outcome.Extends list at (elements.taken heap.now.objects container) (v.Bool (spec.has_any (elements.taken heap.now.objects container)))) result }
{
    match taken(heap, container) {
        Ok(items) => extends(list, at, items),
        Err(_) => Outcome::NoMemory,
    }
}

fn all_added(heap: &Heap, list: u32, at: usize, container: Container) -> Told
    ensures { Comes (spec.all_added heap.now.objects list at container) result }
{
    if entry_count(heap, container) == 0 {
        Told::Says(values_added(heap, list, at, container))
    } else {
        Told::Enters(list, at, container)
    }
}

fn added_from(heap: &Heap, list: u32, source: Option<Container>, at: usize) -> Told
    ensures { Comes (spec.added_from heap.now.objects list source at) result }
{
    match source {
        Some(container) => all_added(heap, list, at, container),
        None => Told::Says(null_error()),
    }
}

fn end_added(heap: &Heap, source: Option<Container>, list: u32) -> Told
    ensures { Comes (spec.end_added heap.now.objects source list) result }
{
    if is_open(heap, list) {
        added_from(heap, list, source, heap.items(list).len())
    } else {
        Told::Says(unsupported())
    }
}

fn open_place_added(heap: &Heap, source: Option<Container>, list: u32, at: i32) -> Told
    ensures { Comes (spec.told_place (length (items_of heap.now.objects list)) at (place_into (length (items_of heap.now.objects list)) at) (spec.added_from heap.now.objects list source)) result }
{
    let count = heap.items(list).len();
    match place_into(count, at) {
        Some(place) => added_from(heap, list, source, place),
        None => Told::Says(index_error(heap, at, count)),
    }
}

fn place_added(heap: &Heap, source: Option<Container>, list: u32, at: i32) -> Told
    ensures { Comes (spec.place_added heap.now.objects source list at) result }
{
    if is_open(heap, list) {
        open_place_added(heap, source, list, at)
    } else {
        Told::Says(unsupported())
    }
}

/// `ArrayList(Collection)`.
pub fn new_list_of(heap: &Heap, args: &[Value]) -> Outcome
    ensures { Tells (spec.new_list_of heap.now.objects args.now) result }
{
    match collection_at(heap, args, 0) {
        Some(container) => list_taken(heap, container),
        None => null_error(),
    }
}

/// `toArray()`, of any collection.
pub fn to_array(heap: &Heap, args: &[Value]) -> Outcome
    ensures { Tells (spec.to_array heap.now.objects args.now) result }
{
    match collection_at(heap, args, 0) {
        Some(container) => array_taken(heap, container),
        None => null_error(),
    }
}

/// `asList()`, which is a list itself, and of another collection a new list.
pub fn as_list(heap: &Heap, args: &[Value]) -> Outcome
    ensures { Tells (spec.as_list heap.now.objects args.now) result }
{
    match collection_at(heap, args, 0) {
        Some(container) => as_list_of(heap, container),
        None => null_error(),
    }
}

/// `addAll(Collection)`.
pub fn add_all(heap: &Heap, args: &[Value]) -> Told
    ensures { Comes (spec.add_all heap.now.objects args.now) result }
{
    match list_at(heap, args, 0) {
        Some(list) => end_added(heap, collection_at(heap, args, 1), list),
        None => Told::Says(null_error()),
    }
}

/// `addAll(int, Collection)`.
pub fn add_all_at(heap: &Heap, args: &[Value]) -> Told
    ensures { Comes (spec.add_all_at heap.now.objects args.now) result }
{
    match (list_at(heap, args, 0), int_at(args, 1)) {
        (Some(list), Some(at)) => place_added(heap, collection_at(heap, args, 2), list, at),
        _ => Told::Says(null_error()),
    }
}
