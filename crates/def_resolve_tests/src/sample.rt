//! Lists of what is allowed, and a heap with objects of every kind.
use allowlist::{Allow, Catalogue};
use object_heap::Heap;
use object_values::{Elements, Guard, Object, Owner, Pairs, Part, Seed, Target, Value};
use pl_types::classes::{
    ARRAY_LIST, COMPARATOR, FUNCTION, HASH_MAP, HASH_SET, ILLEGAL_ARGUMENT_EXCEPTION,
    SCRIPT_DOC_VALUES, STRING,
};
use pl_types::{Primitive, Ty};
use pl_units::UText;
use plain_data::Boxed;
use std::alloc::{AllocError, Global};

/// What is allowed.
#[derive(Clone, Copy)]
pub enum Listed {
    /// The whole catalogue.
    All,
    /// Nothing.
    Nothing,
    /// `List.get(int)`.
    GetAlone,
    /// `Collection.size()` and `Collection.add(def)`: lists and sets are left out.
    ParentAlone,
    /// `Integer.toString(int)`, which is static, and `Object.toString()`.
    Texts,
    /// The constructor of ArrayList without parameters.
    EmptyLists,
}

/// The list of what is allowed.
pub fn allow(alloc: Global, listed: Listed) -> Result<Allow, AllocError> {
    let file: &[u8] = match listed {
        Listed::All => return Catalogue::full(alloc),
        Listed::Nothing => b"",
        Listed::GetAlone => b"class java.util.List {\ndef get(int)\n}\n",
        Listed::ParentAlone => {
            b"class java.util.Collection {\nint size()\nboolean add(def)\n}\n"
        }
        Listed::Texts => {
            b"class java.lang.Integer {\nString toString(int)\n}\nclass java.lang.Object {\nString toString()\n}\n"
        }
        Listed::EmptyLists => b"class java.util.ArrayList {\n()\n}\n",
    };
    match Allow::read(alloc, file) {
        Ok(allow) => Ok(allow),
        Err(_) => Err(AllocError),
    }
}

/// A value: null, a box, a text, or an object of the heap of [`heap`].
#[derive(Clone, Copy)]
pub enum Row {
    Null,
    Flag(bool),
    Byte(i8),
    Short(i16),
    Char(u16),
    Int(i32),
    Long(i64),
    Word(&'static str),
    Object(u32),
}

/// The value of a row.
pub fn value(alloc: Global, row: Row) -> Result<Value, AllocError> {
    match row {
        Row::Null => Ok(Value::Null),
        Row::Flag(flag) => Ok(Value::Bool(flag)),
        Row::Byte(number) => Ok(Value::Byte(number)),
        Row::Short(number) => Ok(Value::Short(number)),
        Row::Char(unit) => Ok(Value::Char(unit)),
        Row::Int(number) => Ok(Value::Int(number)),
        Row::Long(number) => Ok(Value::Long(number)),
        Row::Word(text) => Ok(Value::Str(UText::from_utf8(alloc, text)?)),
        Row::Object(id) => Ok(Value::Ref(id)),
    }
}

fn list(alloc: Global, class: u32) -> Result<Object, AllocError> {
    let mut items = Elements::new(alloc);
    items.push(Value::Int(7))?;
    items.push(Value::Null)?;
    Ok(Object::List {
        class,
        items,
        guard: Guard::Open,
        changes: 0,
    })
}

fn array(alloc: Global, elem: Ty) -> Object {
    Object::Array {
        elem,
        items: Elements::new(alloc),
    }
}

/// A function value that captured so many nulls.
pub fn function(
    alloc: Global,
    iface: Option<u32>,
    target: Target,
    captured: u32,
) -> Result<Object, AllocError> {
    let mut captures = Elements::new(alloc);
    for _ in 0..captured {
        captures.push(Value::Null)?;
    }
    Ok(Object::Fun {
        iface,
        target,
        captures,
    })
}

fn place_collections(alloc: Global, heap: &mut Heap) -> Result<(), AllocError> {
    heap.place(list(alloc, ARRAY_LIST)?)?;
    heap.place(Object::Map {
        class: HASH_MAP,
        pairs: Pairs::new(alloc, Seed::of(b"test")),
        guard: Guard::Open,
        changes: 0,
    })?;
    heap.place(Object::Set {
        class: HASH_SET,
        items: Pairs::new(alloc, Seed::of(b"test")),
        guard: Guard::Open,
        changes: 0,
    })?;
    heap.place(array(alloc, Ty::Prim(Primitive::Int)))?;
    heap.place(array(alloc, Ty::Class(STRING)))?;
    let ints = Boxed::new(alloc, Ty::Prim(Primitive::Int))?;
    heap.place(array(alloc, Ty::Array(ints)))?;
    heap.place(list(alloc, SCRIPT_DOC_VALUES)?)?;
    Ok(())
}

fn place_others(alloc: Global, heap: &mut Heap) -> Result<(), AllocError> {
    for part in [Part::Keys, Part::Values, Part::Entries] {
        heap.place(Object::View { map: 1, part })?;
    }
    heap.place(Object::Entry {
        map: 1,
        key: Value::Null,
    })?;
    heap.place(Object::Iter {
        over: 0,
        cursor: 0,
        seen: 0,
        last: None,
    })?;
    heap.place(Object::Builder {
        units: Elements::new(alloc),
    })?;
    for iface in [None, Some(FUNCTION), Some(COMPARATOR)] {
        let target = Target::Lambda(Owner::Script, 0);
        heap.place(function(alloc, iface, target, 1)?)?;
    }
    heap.place(Object::Exc {
        class: ILLEGAL_ARGUMENT_EXCEPTION,
        message: None,
    })?;
    Ok(())
}

/// The objects that rows name: 0 a list of two, 1 a map, 2 a set, 3 `int[]`, 4 `String[]`, 5 `int[][]`, 6 the values of a field,
/// 7 to 9 views of keys, values and entries, 10 an entry, 11 an iterator, 12 a builder, 13 a lambda, 14 a Function, 15 a
/// Comparator, 16 an exception.
pub fn heap(alloc: Global, room: u64) -> Result<Heap, AllocError> {
    let mut heap = Heap::new(alloc, room, Seed::of(b"test"));
    place_collections(alloc, &mut heap)?;
    place_others(alloc, &mut heap)?;
    Ok(heap)
}
