//! Objects: every kind, what guards them, and what function values call.
ghost use Rattle.std.specs.Prelude.{◌≡◌, IfOk};

use crate::elements::Elements;
use crate::pairs::Pairs;
use crate::value::Value;
use pl_types::Ty;
use pl_units::UText;
use plain_data::{Boxed, Text};
use std::alloc::{AllocError, Global};

/// What may change a list, a map or a set.
pub enum Guard {
    /// Anything that changes its kind.
    Open,
    /// Nothing.
    Frozen,
    /// Puts under these keys alone.
    Keys(Boxed<Elements<UText>>),
    /// Nothing, and only the keys that it has may be asked for.
    Mapped,
}

impl Drop for Guard {
    fn drop(self) {
        match self {
            Guard::Open => {}
            Guard::Frozen => {}
            Guard::Keys(_keys) => {}
            Guard::Mapped => {}
        }
    }
}

/// Which part of a map a view shows.
#[derive(Clone, Copy, Debug, PartialEq, Eq)]
pub enum Part {
    /// The keys.
    Keys,
    /// The values.
    Values,
    /// The pairs, each as an entry.
    Entries,
}

/// Whose lambda it is.
#[derive(Clone, Copy, Debug, PartialEq, Eq)]
pub enum Owner {
    /// The script's.
    Script,
    /// The prelude's.
    Prelude,
}

/// What a function value calls.
pub enum Target {
    /// A function of its owner's, by its number.
    Lambda(Owner, u32),
    /// The member of this name of a class.
    Member(u32, Boxed<Text>),
    /// The constructor of a class, or the making of an array.
    New(Boxed<Ty>),
    /// Nothing any more: the script whose lambda it was has ended.
    Gone,
}

impl Drop for Target {
    fn drop(self) {
        match self {
            Target::Lambda(_owner, _number) => {}
            Target::Member(_class, _name) => {}
            Target::New(_made) => {}
            Target::Gone => {}
        }
    }
}

impl Target {
    /// The same target once more.
    pub fn share(&self, alloc: Global) -> Result<Target, AllocError>
        ensures { IfOk result (λ copy. copy ≡ self.now) }
    {
        match self {
            Target::Lambda(owner, number) => Ok(Target::Lambda(*owner, *number)),
            Target::Member(class, name) => {
                let name = Text::new(alloc, name.get().as_str())?;
                Ok(Target::Member(*class, Boxed::new(alloc, name)?))
            }
            Target::New(made) => {
                let made = made.get().share(alloc)?;
                Ok(Target::New(Boxed::new(alloc, made)?))
            }
            Target::Gone => Ok(Target::Gone),
        }
    }
}

/// An object of the heap. Classes and interfaces go by their numbers, and objects by theirs. A change count is counted
/// modulo 2^64.
pub enum Object {
    /// A list.
    List {
        class: u32,
        items: Elements<Value>,
        guard: Guard,
        changes: u64,
    },
    /// A map.
    Map {
        class: u32,
        pairs: Pairs,
        guard: Guard,
        changes: u64,
    },
    /// A set. Its items are the keys, each with the value null.
    Set {
        class: u32,
        items: Pairs,
        guard: Guard,
        changes: u64,
    },
    /// An array, with the type of its elements.
    Array {
        elem: Ty,
        items: Elements<Value>,
    },
    /// A live view of a map.
    View {
        map: u32,
        part: Part,
    },
    /// A key of a map, whose value is the one that the map has now.
    Entry {
        map: u32,
        key: Value,
    },
    /// An iterator: the place of the next element, the change count that it saw, and the place of the element that it gave
    /// last.
    Iter {
        over: u32,
        cursor: u64,
        seen: u64,
        last: Option<u64>,
    },
    /// A text that is being built.
    Builder {
        units: Elements<u16>,
    },
    /// A function value, with the interface that it has taken.
    Fun {
        iface: Option<u32>,
        target: Target,
        captures: Elements<Value>,
    },
    /// An exception.
    Exc {
        class: u32,
        message: Option<UText>,
    },
}

impl Drop for Object {
    fn drop(self) {
        match self {
            Object::List {
                class: _class,
                items: _items,
                guard: _guard,
                changes: _changes,
            } => {}
            Object::Map {
                class: _class,
                pairs: _pairs,
                guard: _guard,
                changes: _changes,
            } => {}
            Object::Set {
                class: _class,
                items: _items,
                guard: _guard,
                changes: _changes,
            } => {}
            Object::Array {
                elem: _elem,
                items: _items,
            } => {}
            Object::View {
                map: _map,
                part: _part,
            } => {}
            Object::Entry {
                map: _map,
                key: _key,
            } => {}
            Object::Iter {
                over: _over,
                cursor: _cursor,
                seen: _seen,
                last: _last,
            } => {}
            Object::Builder { units: _units } => {}
            Object::Fun {
                iface: _iface,
                target: _target,
                captures: _captures,
            } => {}
            Object::Exc {
                class: _class,
                message: _message,
            } => {}
        }
    }
}
