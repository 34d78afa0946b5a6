//! Copies of words.
ghost use Rattle.std.specs.Prelude.{◌≡◌, false, IfOk, IsOk};
ghost use Rattle.code_meaning.specs.declared.word.Word.TheVariants.{R};
ghost use Rattle.machine_parts.specs.Copies.{is_text};

use code_meaning::Word;
use object_values::Value;
use std::alloc::AllocError;

/// The same word once more. A text is copied, which takes memory; nothing else does.
#[inline(always)]
pub fn copy_of(word: &Word) -> Result<Word, AllocError>
    ensures copy { IfOk result (λ copy. copy ≡ word.now) }
    ensures memory { is_text word.now ≡ false → IsOk result }
{
    match word {
        Word::I(number) => Ok(Word::I(*number)),
        Word::J(number) => Ok(Word::J(*number)),
        Word::R(value) => copy_of_value(value),
    }
}

#[inline(never)]
fn copy_of_value(value: &Value) -> Result<Word, AllocError>
    ensures copy { IfOk result (λ copy. copy ≡ R value.now) }
    ensures memory { is_text (R value.now) ≡ false → IsOk result }
{
    match value {
        Value::Null => Ok(Word::R(Value::Null)),
        Value::Bool(flag) => Ok(Word::R(Value::Bool(*flag))),
        Value::Byte(number) => Ok(Word::R(Value::Byte(*number))),
        Value::Short(number) => Ok(Word::R(Value::Short(*number))),
        Value::Char(unit) => Ok(Word::R(Value::Char(*unit))),
        Value::Int(number) => Ok(Word::R(Value::Int(*number))),
        Value::Long(number) => Ok(Word::R(Value::Long(*number))),
        Value::Str(_) => Ok(Word::R(value.share()?)),
        Value::Ref(id) => Ok(Word::R(Value::Ref(*id))),
    }
}

/// The same, with the numbers in boxes and the references that are frequent chosen at once.
#[inline(always)]
pub fn quick_copy_of(word: &Word) -> Result<Word, AllocError>
    ensures { IfOk result (λ copy. copy ≡ word.now) }
{
    match word {
        Word::I(number) => Ok(Word::I(*number)),
        Word::J(number) => Ok(Word::J(*number)),
        Word::R(Value::Int(number)) => Ok(Word::R(Value::Int(*number))),
        Word::R(Value::Long(number)) => Ok(Word::R(Value::Long(*number))),
        Word::R(Value::Ref(id)) => Ok(Word::R(Value::Ref(*id))),
        Word::R(value) => copy_of_value(value),
    }
}
