//! Heaps by lines, each of which is an object.
use crate::values::{first_word, object_of, value_of, values_of};
use object_heap::Heap;
use object_values::{Elements, Guard, Object, Pairs, Part, Seed};
use pl_types::Ty;
use pl_types::classes::{ARRAY_LIST, HASH_MAP, HASH_SET, SCRIPT_DOC_VALUES};
use pl_units::UText;
use plain_data::Boxed;
use std::alloc::Global;

fn keys_of(alloc: Global, names: &str) -> Option<Guard> {
    let mut keys = Elements::new(alloc);
    for name in names.split(',') {
        keys.push(UText::from_utf8(alloc, name).ok()?).ok()?;
    }
    Some(Guard::Keys(Boxed::new(alloc, keys).ok()?))
}

fn guard_of(alloc: Global, word: &str) -> Option<Guard> {
    match word {
        "open" => Some(Guard::Open),
        "frozen" => Some(Guard::Frozen),
        "mapped" => Some(Guard::Mapped),
        _ => keys_of(alloc, word),
    }
}

fn put_pair(alloc: Global, pairs: &mut Pairs, word: &str) -> Option<()> {
    let (key, value) = word.split_once('=').unwrap_or((word, "null"));
    let key = value_of(alloc, key)?;
    let value = value_of(alloc, value)?;
    pairs.put(key, value).ok()?;
    Some(())
}

fn pairs_of(alloc: Global, words: &str) -> Option<Pairs> {
    let mut pairs = Pairs::new(alloc, Seed::of(b"test"));
    for word in words.split(' ') {
        if !word.is_empty() {
            put_pair(alloc, &mut pairs, word)?;
        }
    }
    Some(pairs)
}

fn list_of(alloc: Global, class: u32, guard: Guard, changes: u64, words: &str) -> Option<Object> {
    Some(Object::List {
        class,
        items: values_of(alloc, words)?,
        guard,
        changes,
    })
}

fn map_of(alloc: Global, guard: Guard, changes: u64, words: &str) -> Option<Object> {
    Some(Object::Map {
        class: HASH_MAP,
        pairs: pairs_of(alloc, words)?,
        guard,
        changes,
    })
}

fn set_of(alloc: Global, guard: Guard, changes: u64, words: &str) -> Option<Object> {
    Some(Object::Set {
        class: HASH_SET,
        items: pairs_of(alloc, words)?,
        guard,
        changes,
    })
}

// What has a guard and a change count.
fn guarded_of(alloc: Global, kind: &str, rest: &str) -> Option<Object> {
    let (guard, rest) = first_word(rest);
    let (changes, words) = first_word(rest);
    let changes = changes.parse::<u64>().ok()?;
    let guard = guard_of(alloc, guard)?;
    match kind {
        "list" => list_of(alloc, ARRAY_LIST, guard, changes, words),
        "doc" => list_of(alloc, SCRIPT_DOC_VALUES, guard, changes, words),
        "map" => map_of(alloc, guard, changes, words),
        "set" => set_of(alloc, guard, changes, words),
        _ => None,
    }
}

fn view_of(part: Part, word: &str) -> Option<Object> {
    Some(Object::View {
        map: object_of(word)?,
        part,
    })
}

fn array_of(alloc: Global, words: &str) -> Option<Object> {
    Some(Object::Array {
        elem: Ty::Def,
        items: values_of(alloc, words)?,
    })
}

fn entry_of(alloc: Global, words: &str) -> Option<Object> {
    let (map, key) = first_word(words);
    Some(Object::Entry {
        map: object_of(map)?,
        key: value_of(alloc, key)?,
    })
}

fn object_in(alloc: Global, line: &str) -> Option<Object> {
    let (kind, rest) = first_word(line);
    match kind {
        "keys" => view_of(Part::Keys, rest),
        "values" => view_of(Part::Values, rest),
        "entries" => view_of(Part::Entries, rest),
        "array" => array_of(alloc, rest),
        "entry" => entry_of(alloc, rest),
        _ => guarded_of(alloc, kind, rest),
    }
}

/// The heap of these objects, with so much room.
pub fn heap_of(alloc: Global, objects: &str, room: u64) -> Option<Heap> {
    let mut heap = Heap::new(alloc, room, Seed::of(b"test"));
    for line in objects.lines() {
        let object = object_in(alloc, line)?;
        heap.place(object).ok()?;
    }
    Some(heap)
}
