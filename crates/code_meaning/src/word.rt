//! Words.
ghost use Rattle.std.specs.Prelude.{◌≡◌, IfOk};
ghost use Rattle.code_meaning.specs.Words.{plain_value};

use object_values::Value;
use std::alloc::AllocError;

/// What lies on the operand stack and in locals.
pub enum Word {
    /// A boolean, byte, short, char or int.
    I(i32),
    /// A long.
    J(i64),
    /// Every other value.
    R(Value),
}

impl Drop for Word {
    fn drop(self) {
        match self {
            Word::I(_number) => {}
            Word::J(_number) => {}
            Word::R(_value) => {}
        }
    }
}

impl Word {
    /// The same word once more. It takes memory for a text alone.
    pub fn share(&self) -> Result<Word, AllocError>
        ensures { IfOk result (λ copy. copy ≡ self.now) }
    {
        match self {
            Word::I(number) => Ok(Word::I(*number)),
            Word::J(number) => Ok(Word::J(*number)),
            Word::R(value) => Ok(Word::R(value.share()?)),
        }
    }

    /// The value of a word, where a number is an Integer or a Long. No text is copied.
    pub fn into_value(self) -> Value
        ensures { result ≡ plain_value self }
    {
        match self {
            Word::I(number) => Value::Int(number),
            Word::J(number) => Value::Long(number),
            Word::R(value) => value,
        }
    }
}
