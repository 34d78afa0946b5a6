//! Why a JSON value or a line is not bound, and why a value is not given as JSON.

ghost use Rattle.std.specs.Prelude.{◌≡◌};

use json_reading::ReadErr;
use std::alloc::AllocError;

/// Why a JSON value is not bound.
#[derive(Clone, Copy, Debug, PartialEq, Eq, thiserror::Error)]
pub enum NumErr {
    /// Some number is no whole one of 64 bits with a sign.
    #[error("a number is outside signed 64 bits")]
    Number,
    /// Memory ran out.
    #[error("out of memory")]
    NoMemory,
}

impl From<AllocError> for NumErr {
    ghost use Rattle.json_bridge.specs.declared.error.NumErr.TheVariants.{NoMemory};

    ghost from_gives = { λ _ e. e ≡ NoMemory };

    fn from(_error: AllocError) -> NumErr {
        NumErr::NoMemory
    }
}

/// Why a line is not bound. The causes are tried in this order.
#[derive(Clone, Copy, Debug, PartialEq, Eq, thiserror::Error)]
pub enum BindErr {
    /// It is no JSON.
    #[error("the line is no JSON")]
    Syntax,
    /// Some number is no whole one of 64 bits with a sign.
    #[error("a number is outside signed 64 bits")]
    Number,
    /// It is no object, or breaks a rule of the context.
    #[error("the line breaks a rule of the context")]
    Field,
    /// Memory ran out.
    #[error("out of memory")]
    NoMemory,
}

impl From<AllocError> for BindErr {
    ghost use Rattle.json_bridge.specs.declared.error.BindErr.TheVariants.{NoMemory};

    ghost from_gives = { λ _ e. e ≡ NoMemory };

    fn from(_error: AllocError) -> BindErr {
        BindErr::NoMemory
    }
}

impl From<ReadErr> for BindErr {
    ghost use Rattle.json_bridge.specs.Errors.{bind_of_reading};

    ghost from_gives = { λ cause e. e ≡ bind_of_reading cause };

    fn from(error: ReadErr) -> BindErr {
        match error {
            ReadErr::Syntax => BindErr::Syntax,
            ReadErr::NoMemory => BindErr::NoMemory,
        }
    }
}

impl From<NumErr> for BindErr {
    ghost use Rattle.json_bridge.specs.Errors.{bind_of_number};

    ghost from_gives = { λ cause e. e ≡ bind_of_number cause };

    fn from(error: NumErr) -> BindErr {
        match error {
            NumErr::Number => BindErr::Number,
            NumErr::NoMemory => BindErr::NoMemory,
        }
    }
}

/// Why a value is not given as JSON: the first fault of a walk from the front, and at one node in the order depth, size, kind.
#[derive(Clone, Copy, Debug, PartialEq, Eq, thiserror::Error)]
pub enum GiveErr {
    /// A map has a key that is no text, or two keys of one UTF-8 form.
    #[error("a key of a map is no name of its own")]
    Key,
    /// A value stands deeper than 100, the given one being at depth 1.
    #[error("a value stands deeper than 100")]
    Depth,
    /// There are more than 1,000,000 values; keys of maps are not counted.
    #[error("there are more than 1,000,000 values")]
    Size,
    /// An entry, an iterator, a builder, a function value or an exception has no JSON form.
    #[error("a value has no JSON form")]
    Kind,
    /// Memory ran out.
    #[error("out of memory")]
    NoMemory,
}

impl From<AllocError> for GiveErr {
    ghost use Rattle.json_bridge.specs.declared.error.GiveErr.TheVariants.{NoMemory};

    ghost from_gives = { λ _ e. e ≡ NoMemory };

    fn from(_error: AllocError) -> GiveErr {
        GiveErr::NoMemory
    }
}
