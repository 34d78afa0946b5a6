//! What members come to, and how that is paid.
ghost use Rattle.std.specs.Prelude.{◌≡◌};
ghost use Rattle.object_heap.specs.Effects.{Answers};
ghost use Rattle.object_heap.specs.Store.{Store};
ghost use Rattle.api_text.specs.declared.outcome.Outcome.{Outcome};
ghost use Rattle.api_text.specs.Outcomes as spec;
ghost use Rattle.api_text.specs.Outcomes.{effect, Tells, WantsMemory};

use crate::paying::{add, extend, pay_texts, renew};
use member_arguments::pay_text;
use object_heap::{Answer, Heap, throw};
use object_values::{Elements, Object, Value};
use pl_types::classes::{
    ARITHMETIC_EXCEPTION, ARRAY_INDEX_OUT_OF_BOUNDS_EXCEPTION, CLASS_CAST_EXCEPTION,
    CONCURRENT_MODIFICATION_EXCEPTION, EXCEPTION, ILLEGAL_ARGUMENT_EXCEPTION,
    ILLEGAL_STATE_EXCEPTION, INDEX_OUT_OF_BOUNDS_EXCEPTION, NEGATIVE_ARRAY_SIZE_EXCEPTION,
    NO_SUCH_ELEMENT_EXCEPTION, NULL_POINTER_EXCEPTION, NUMBER_FORMAT_EXCEPTION, RUNTIME_EXCEPTION,
    STRING_INDEX_OUT_OF_BOUNDS_EXCEPTION, UNSUPPORTED_OPERATION_EXCEPTION,
};
use pl_types::{Primitive, Ty};
use pl_units::UText;

/// A class of exceptions.
#[derive(Clone, Copy)]
pub enum ExceptionClass {
    Exception,
    Runtime,
    Arithmetic,
    ClassCast,
    ConcurrentModification,
    IllegalArgument,
    IllegalState,
    IndexOutOfBounds,
    NegativeArraySize,
    NoSuchElement,
    NullPointer,
    UnsupportedOperation,
    NumberFormat,
    ArrayIndexOutOfBounds,
    StringIndexOutOfBounds,
}

impl ExceptionClass {
    /// Its number in the catalogue.
    pub fn number(self) -> u32
        ensures { result ≡ spec.number_of self }
    {
        match self {
            ExceptionClass::Exception => EXCEPTION,
            ExceptionClass::Runtime => RUNTIME_EXCEPTION,
            ExceptionClass::Arithmetic => ARITHMETIC_EXCEPTION,
            ExceptionClass::ClassCast => CLASS_CAST_EXCEPTION,
            ExceptionClass::ConcurrentModification => CONCURRENT_MODIFICATION_EXCEPTION,
            ExceptionClass::IllegalArgument => ILLEGAL_ARGUMENT_EXCEPTION,
            ExceptionClass::IllegalState => ILLEGAL_STATE_EXCEPTION,
            ExceptionClass::IndexOutOfBounds => INDEX_OUT_OF_BOUNDS_EXCEPTION,
            ExceptionClass::NegativeArraySize => NEGATIVE_ARRAY_SIZE_EXCEPTION,
            ExceptionClass::NoSuchElement => NO_SUCH_ELEMENT_EXCEPTION,
            ExceptionClass::NullPointer => NULL_POINTER_EXCEPTION,
            ExceptionClass::UnsupportedOperation => UNSUPPORTED_OPERATION_EXCEPTION,
            ExceptionClass::NumberFormat => NUMBER_FORMAT_EXCEPTION,
            ExceptionClass::ArrayIndexOutOfBounds => ARRAY_INDEX_OUT_OF_BOUNDS_EXCEPTION,
            ExceptionClass::StringIndexOutOfBounds => STRING_INDEX_OUT_OF_BOUNDS_EXCEPTION,
        }
    }
}

/// What a member comes to, before it is paid.
pub enum Outcome {
    /// A value that is there already.
    Gives(Value),
    /// A text that is made.
    Makes(UText),
    /// A new builder of these units.
    NewBuilder(Elements<u16>),
    /// A new exception with a message or none.
    NewException(ExceptionClass, Option<UText>),
    /// A new array of chars.
    Chars(Elements<Value>),
    /// A new array of texts that are made, which cost so much.
    Texts(Elements<Value>, u64),
    /// A builder, which is the value, gets these units at its end.
    Extends(u32, UText),
    /// A builder gets these units in place of its own; and the value.
    Becomes(u32, Elements<u16>, Value),
    /// An exception with a message or none is thrown.
    Throws(ExceptionClass, Option<UText>),
    /// The charge is above the room that is left.
    NoRoom,
    /// There was no memory.
    NoMemory,
}

impl Drop for Outcome {
    fn drop(self) {
        match self {
            Outcome::Gives(_value) => {}
            Outcome::Makes(_text) => {}
            Outcome::NewBuilder(_units) => {}
            Outcome::NewException(_class, _message) => {}
            Outcome::Chars(_items) => {}
            Outcome::Texts(_items, _made) => {}
            Outcome::Extends(_builder, _more) => {}
            Outcome::Becomes(_builder, _units, _value) => {}
            Outcome::Throws(_class, _message) => {}
            Outcome::NoRoom => {}
            Outcome::NoMemory => {}
        }
    }
}

impl Outcome {
    /// A text of these units that is made, unless there is no memory for it.
    pub(crate) fn made_of(units: Vec<u16>) -> Outcome
        ensures { (store : Store) → Tells store (Outcome.Makes units.items) result }
    {
        match UText::from_units(units) {
            Ok(text) => Outcome::Makes(text),
            Err(_) => Outcome::NoMemory,
        }
    }

    /// Pays for it, and changes the heap.
    pub fn settle(self, heap: &mut Heap) -> Answer
        ensures does { (told : Outcome) → Tells heap.old told self → Answers (effect heap.old told) heap.old heap.new result }
        ensures memory { (told : Outcome) → Tells heap.old told self → WantsMemory told result }
    {
        match self {
            Outcome::Gives(value) => Answer::Value(value),
            Outcome::Makes(text) => pay_text(heap, text),
            Outcome::NewBuilder(units) => add(heap, Object::Builder { units }),
            Outcome::NewException(class, message) => {
                add(
                    heap,
                    Object::Exc {
                        class: class.number(),
                        message,
                    },
                )
            }
            Outcome::Chars(items) => {
                add(
                    heap,
                    Object::Array {
                        elem: Ty::Prim(Primitive::Char),
                        items,
                    },
                )
            }
            Outcome::Texts(items, made) => pay_texts(heap, items, made),
            Outcome::Extends(builder, more) => extend(heap, builder, more.units()),
            Outcome::Becomes(builder, units, value) => renew(heap, builder, units, value),
            Outcome::Throws(class, message) => throw(heap, class.number(), message),
            Outcome::NoRoom => Answer::Room,
            Outcome::NoMemory => Answer::NoMemory,
        }
    }
}
