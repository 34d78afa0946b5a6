//! What operators, casts and members come to, and how that is paid.
ghost use Rattle.std.specs.Prelude.{◌≡◌};
ghost use Rattle.object_heap.specs.Effects.{Answers};
ghost use Rattle.number_ops.specs.Outcomes.{class_raised, effect, Tells, WantsMemory};
ghost use Rattle.number_ops.specs.declared.outcome.Outcome.{Outcome};

use member_arguments::pay_text;
use object_heap::{Answer, Heap, throw};
use object_values::Value;
use pl_types::classes::{
    ARITHMETIC_EXCEPTION, CLASS_CAST_EXCEPTION, ILLEGAL_STATE_EXCEPTION, NULL_POINTER_EXCEPTION,
    NUMBER_FORMAT_EXCEPTION,
};
use pl_units::UText;

/// The class of an exception that is thrown here.
#[derive(Clone, Copy, Debug, PartialEq, Eq)]
pub enum Raised {
    Arithmetic,
    ClassCast,
    IllegalState,
    NullPointer,
    NumberFormat,
}

/// What an operator, a cast or a member comes to, before it is paid.
pub enum Outcome {
    Gives(Value),
    /// A text that is made.
    Makes(UText),
    /// An exception with a message or none.
    Throws(Raised, Option<UText>),
    /// There was no memory.
    NoMemory,
}

impl Drop for Outcome {
    fn drop(self) {
        match self {
            Outcome::Gives(_value) => {}
            Outcome::Makes(_text) => {}
            Outcome::Throws(_raised, _message) => {}
            Outcome::NoMemory => {}
        }
    }
}

fn class_raised(raised: Raised) -> u32
    ensures { result ≡ class_raised raised }
{
    match raised {
        Raised::Arithmetic => ARITHMETIC_EXCEPTION,
        Raised::ClassCast => CLASS_CAST_EXCEPTION,
        Raised::IllegalState => ILLEGAL_STATE_EXCEPTION,
        Raised::NullPointer => NULL_POINTER_EXCEPTION,
        Raised::NumberFormat => NUMBER_FORMAT_EXCEPTION,
    }
}

impl Outcome {
    /// Pays for it: a value is free, a text costs its units and 1, and an exception the units of its message and 1.
    pub fn settle(self, heap: &mut Heap) -> Answer
        ensures exact { (told : Outcome) → Tells told self → Answers (effect heap.old told) heap.old heap.new result }
        ensures memory { (told : Outcome) → Tells told self → WantsMemory told result }
    {
        match self {
            Outcome::Gives(value) => Answer::Value(value),
            Outcome::Makes(text) => pay_text(heap, text),
            Outcome::Throws(raised, message) => throw(heap, class_raised(raised), message),
            Outcome::NoMemory => Answer::NoMemory,
        }
    }
}
