//! Values and objects of the rows.

use object_heap::{Heap, HeapErr};
use object_values::{Elements, Guard, Object, Owner, Pairs, Part, Seed, Target, Value};
use pl_types::classes::HASH_MAP;
use pl_types::{Primitive, Ty};
use pl_units::UText;
use plain_data::{Boxed, Text};
use std::alloc::{AllocError, Global};

/// A value, as a row writes it.
#[derive(Clone, Copy)]
pub enum Plain {
    Null,
    Bool(bool),
    Byte(i8),
    Short(i16),
    Char(u16),
    Int(i32),
    Long(i64),
    Text(&'static str),
    Ref(u32),
}

/// The value of a row.
pub fn made(alloc: Global, plain: Plain) -> Result<Value, AllocError> {
    match plain {
        Plain::Null => Ok(Value::Null),
        Plain::Bool(flag) => Ok(Value::Bool(flag)),
        Plain::Byte(number) => Ok(Value::Byte(number)),
        Plain::Short(number) => Ok(Value::Short(number)),
        Plain::Char(unit) => Ok(Value::Char(unit)),
        Plain::Int(number) => Ok(Value::Int(number)),
        Plain::Long(number) => Ok(Value::Long(number)),
        Plain::Text(text) => Ok(Value::Str(UText::from_utf8(alloc, text)?)),
        Plain::Ref(id) => Ok(Value::Ref(id)),
    }
}

/// What a row expects of a value that may be there: an int, 0 for null, -2 for any other, -1 for none.
pub fn number(value: Option<&Value>) -> i32 {
    match value {
        Some(Value::Int(number)) => *number,
        Some(Value::Null) => 0,
        Some(_) => -2,
        None => -1,
    }
}

/// The number in an int that was taken out, and -1 for anything else.
pub fn taken(value: Option<Value>) -> i32 {
    number(value.as_ref())
}

/// So many ints from one on.
pub fn counted(alloc: Global, first: i32, count: i32) -> Result<Elements<Value>, AllocError> {
    let mut items = Elements::new(alloc);
    for at in 0..count {
        items.push(Value::Int(first.wrapping_add(at)))?;
    }
    Ok(items)
}

fn values(alloc: Global, count: i32) -> Result<Elements<Value>, AllocError> {
    counted(alloc, 0, count)
}

fn pairs(alloc: Global, count: i32, value: Plain) -> Result<Pairs, AllocError> {
    let mut pairs = Pairs::new(alloc, Seed::of(b"test"));
    for at in 0..count {
        let value = made(alloc, value)?;
        pairs.put(Value::Int(at), value)?;
    }
    Ok(pairs)
}

/// An object, as a row writes it: often its class, and how much it holds.
#[derive(Clone, Copy)]
pub enum Shape {
    /// A list of the ints from 0.
    List(u32, i32),
    /// A map with the keys from 0, each with the value 7.
    Map(u32, i32),
    /// An empty map with one of the guards.
    Guarded(u8),
    Set(u32, i32),
    Ints(i32),
    Longs(i32),
    Defs(i32),
    View,
    Entry,
    Iterator,
    Builder(usize),
    /// A function value of the script, perhaps of an interface.
    Function(Option<u32>, i32),
    /// One of the prelude.
    Given(i32),
    Reference(u32),
    Constructor,
    Exception(u32, Option<&'static str>),
}

fn list(alloc: Global, class: u32, count: i32) -> Result<Object, AllocError> {
    let items = values(alloc, count)?;
    Ok(Object::List {
        class,
        items,
        guard: Guard::Open,
        changes: 0,
    })
}

fn map(alloc: Global, class: u32, count: i32, guard: Guard) -> Result<Object, AllocError> {
    let pairs = pairs(alloc, count, Plain::Int(7))?;
    Ok(Object::Map {
        class,
        pairs,
        guard,
        changes: 0,
    })
}

fn guard(alloc: Global, number: u8) -> Result<Guard, AllocError> {
    match number {
        0 => Ok(Guard::Open),
        1 => Ok(Guard::Frozen),
        2 => Ok(Guard::Keys(Boxed::new(alloc, Elements::new(alloc))?)),
        _ => Ok(Guard::Mapped),
    }
}

fn set(alloc: Global, class: u32, count: i32) -> Result<Object, AllocError> {
    let items = pairs(alloc, count, Plain::Null)?;
    Ok(Object::Set {
        class,
        items,
        guard: Guard::Open,
        changes: 0,
    })
}

fn array(alloc: Global, elem: Ty, count: i32) -> Result<Object, AllocError> {
    let items = values(alloc, count)?;
    Ok(Object::Array { elem, items })
}

fn builder(alloc: Global, count: usize) -> Result<Object, AllocError> {
    let mut units = Elements::new(alloc);
    for _ in 0..count {
        units.push(65)?;
    }
    Ok(Object::Builder { units })
}

fn function(
    alloc: Global,
    owner: Owner,
    iface: Option<u32>,
    count: i32,
) -> Result<Object, AllocError> {
    let captures = values(alloc, count)?;
    Ok(Object::Fun {
        iface,
        target: Target::Lambda(owner, 3),
        captures,
    })
}

fn reference(alloc: Global, class: u32) -> Result<Object, AllocError> {
    let name = Text::new(alloc, "size")?;
    Ok(Object::Fun {
        iface: None,
        target: Target::Member(class, Boxed::new(alloc, name)?),
        captures: Elements::new(alloc),
    })
}

fn exception(alloc: Global, class: u32, message: Option<&str>) -> Result<Object, AllocError> {
    let message = match message {
        Some(text) => Some(UText::from_utf8(alloc, text)?),
        None => None,
    };
    Ok(Object::Exc { class, message })
}

/// The object of a row.
pub fn object(alloc: Global, shape: Shape) -> Result<Object, AllocError> {
    match shape {
        Shape::List(class, count) => list(alloc, class, count),
        Shape::Map(class, count) => map(alloc, class, count, Guard::Open),
        Shape::Guarded(number) => map(alloc, HASH_MAP, 0, guard(alloc, number)?),
        Shape::Set(class, count) => set(alloc, class, count),
        Shape::Ints(count) => array(alloc, Ty::Prim(Primitive::Int), count),
        Shape::Longs(count) => array(alloc, Ty::Prim(Primitive::Long), count),
        Shape::Defs(count) => array(alloc, Ty::Def, count),
        Shape::View => Ok(Object::View {
            map: 0,
            part: Part::Entries,
        }),
        Shape::Entry => Ok(Object::Entry {
            map: 0,
            key: Value::Int(1),
        }),
        Shape::Iterator => Ok(Object::Iter {
            over: 0,
            cursor: 9,
            seen: 0,
            last: None,
        }),
        Shape::Builder(count) => builder(alloc, count),
        Shape::Function(iface, count) => function(alloc, Owner::Script, iface, count),
        Shape::Given(count) => function(alloc, Owner::Prelude, None, count),
        Shape::Reference(class) => reference(alloc, class),
        Shape::Constructor => Ok(Object::Fun {
            iface: None,
            target: Target::New(Boxed::new(alloc, Ty::Def)?),
            captures: Elements::new(alloc),
        }),
        Shape::Exception(class, message) => exception(alloc, class, message),
    }
}

/// The number of a new object, which is not charged.
pub fn place(heap: &mut Heap, shape: Shape) -> Result<u32, AllocError> {
    let made = object(heap.alloc(), shape)?;
    heap.place(made)
}

/// A heap of these objects, which are not charged, with so much room left.
pub fn placed(alloc: Global, room: u64, shapes: &[Shape]) -> Result<Heap, AllocError> {
    let mut heap = Heap::new(alloc, room, Seed::of(b"test"));
    for shape in shapes {
        place(&mut heap, *shape)?;
    }
    Ok(heap)
}

/// The number of a new object, which is charged.
pub fn add(heap: &mut Heap, shape: Shape) -> Result<u32, HeapErr> {
    match object(heap.alloc(), shape) {
        Ok(made) => heap.add(made),
        Err(_) => Err(HeapErr::NoMemory),
    }
}

/// Puts an object in the place of one that is there, and says whether there was room for it.
pub fn renew(heap: &mut Heap, id: u32, shape: Shape) -> Result<bool, AllocError> {
    let made = object(heap.alloc(), shape)?;
    Ok(heap.renew(id, made))
}
