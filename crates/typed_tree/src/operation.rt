//! What is done with values that are there.

use arithmetic::Op;
use pl_types::{Cast, Ty};
use plain_data::Text;

/// A constant of a type: each is in the range of its type. Texts stand apart.
#[derive(Clone, Copy)]
pub enum Constant {
    Null,
    Boolean(bool),
    Byte(i8),
    Short(i16),
    /// The unit of a char.
    Char(u16),
    Int(i32),
    Long(i64),
}

/// What is done with parts by their values alone.
#[derive(Clone, Copy)]
pub enum Operator {
    /// An operator of one or two ints. A comparison gives a boolean.
    Int(Op),
    /// The same of longs; the right side of a shift is an int.
    Long(Op),
    /// `&`, `|`, `^`, `==`, `!=` of two booleans, and `Not` of one.
    Boolean(Op),
    /// An operator whose sides have types that are found when the script runs. It is not `Eq` or `Ne`. A comparison gives a boolean.
    Def(Op),
    /// `==` of two values: they are equal at every depth.
    Equal,
    /// `!=` of two values.
    NotEqual,
    /// `===` of two values: they are one.
    Same,
    /// `!==` of two values.
    NotSame,
    /// The texts of two values, joined.
    Concat,
    /// A list of the parts.
    List,
    /// A map of the parts, which are keys and values by turns.
    Map,
    /// An array of the node's type whose parts are its sizes, the outermost first.
    NewArray,
    /// An array of the node's type with the parts as its elements.
    ArrayOf,
    /// An element of an array, which is of the node's type: the array, and an int.
    Element,
    /// Writes an element of an array, which is of the node's type: the array, an int, and the value.
    PutElement,
    /// The length of an array.
    Length,
    /// An iterator over an array, an Iterable, or a value whose type is found when the script runs.
    Iterate,
    /// Whether an iterator has an element left.
    HasNext,
    /// The next element of an iterator.
    Next,
}

/// A member that a script calls or reads.
pub struct Member {
    /// Its number in the catalogue, or that of a function of the host behind them.
    pub number: u32,
    /// Its text in listings.
    pub text: Text,
}

impl Drop for Member {
    fn drop(self) {
        let Member {
            number: _,
            text: _text,
        } = self;
    }
}

/// What a strict node does with its parts.
pub enum Operation {
    Operator(Operator),
    /// A cast of the one part to the node's type.
    Cast(Cast),
    /// Whether the one part is an instance of a type.
    InstanceOf(Ty),
    /// A call of a function of the script, by its number.
    Function(u32),
    /// A call of a member of a value: the receiver, and the arguments.
    Instance(Member),
    /// A call of a member of a class.
    Static(Member),
    /// A new object.
    Constructor(Member),
    /// A field of a class; it has no parts.
    Field(Member),
    /// A call of a function of the host.
    Host(Member),
    /// A call of a member that is found when the script runs: the receiver, and the arguments.
    DefCall(Text),
    /// An access by name that is found when the script runs.
    DefName(Text),
    /// Writes what a name means that is found when the script runs: the value, and what is written.
    PutDefName(Text),
    /// An index in brackets of a value whose type is found when the script runs: the value, and the index.
    DefIndex,
    /// Writes at such an index: the value, the index, and what is written.
    PutDefIndex,
}

impl Drop for Operation {
    fn drop(self) {
        match self {
            Operation::Operator(_) => {}
            Operation::Cast(_) => {}
            Operation::InstanceOf(_of) => {}
            Operation::Function(_) => {}
            Operation::Instance(_member) => {}
            Operation::Static(_member) => {}
            Operation::Constructor(_member) => {}
            Operation::Field(_member) => {}
            Operation::Host(_member) => {}
            Operation::DefCall(_name) => {}
            Operation::DefName(_name) => {}
            Operation::PutDefName(_name) => {}
            Operation::DefIndex => {}
            Operation::PutDefIndex => {}
        }
    }
}

/// `&&` or `||`.
#[derive(Clone, Copy, Debug, PartialEq, Eq)]
pub enum Logical {
    /// The right side is taken where the left is true.
    And,
    /// The right side is taken where the left is false.
    Or,
}

/// What is written to, apart from the parts of it that are values.
pub enum Target {
    /// A variable; it has no parts.
    Local(Text),
    /// What one operation reads and another writes. Both take the target's parts, and the second behind them the value that is
    /// written; what it gives is dropped. A plain assignment reads nothing.
    Place {
        read: Option<Operation>,
        write: Operation,
    },
}

impl Drop for Target {
    fn drop(self) {
        match self {
            Target::Local(_name) => {}
            Target::Place {
                read: _read,
                write: _write,
            } => {}
        }
    }
}

/// How the value that is read from a target becomes the one that is written to it.
#[derive(Clone, Copy)]
pub struct Change {
    /// The cast of the value that is read, to the type of the operator's left side.
    pub before: Cast,
    pub operator: Operator,
    /// The cast of what the operator gives, to the type of the target.
    pub after: Cast,
}

/// What a change of a target gives.
#[derive(Clone, Copy, Debug, PartialEq, Eq)]
pub enum Gives {
    /// The value that was read.
    Old,
    /// The value that is written.
    New,
}
