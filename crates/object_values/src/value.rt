//! Values of scripts: which of them are one, and how they are hashed.
ghost use Rattle.std.specs.Prelude.{◌≡◌, IfOk, fold};
ghost use Rattle.object_values.specs.Keys.{word, four_units, text_fed, units_fed};

use pl_units::UText;
use std::alloc::AllocError;
use std::hash::{Hash, Hasher};

/// A value of a script. Two values are equal where they are of one kind and have one content, so `1` as an int and `1` as
/// a long are two, and a reference is equal to itself alone.
pub enum Value {
    /// No object.
    Null,
    /// A truth value.
    Bool(bool),
    /// A number of 8 bits.
    Byte(i8),
    /// A number of 16 bits.
    Short(i16),
    /// A UTF-16 unit.
    Char(u16),
    /// A number of 32 bits.
    Int(i32),
    /// A number of 64 bits.
    Long(i64),
    /// A text.
    Str(UText),
    /// An object of the heap, by its number.
    Ref(u32),
}

impl Drop for Value {
    fn drop(self) {
        match self {
            Value::Null => {}
            Value::Bool(_flag) => {}
            Value::Byte(_number) => {}
            Value::Short(_number) => {}
            Value::Char(_unit) => {}
            Value::Int(_number) => {}
            Value::Long(_number) => {}
            Value::Str(_text) => {}
            Value::Ref(_id) => {}
        }
    }
}

impl Default for Value {
    ghost use Rattle.object_values.specs.declared.value.Value.TheVariants.{Null};

    ghost is_default = { λ value. value ≡ Null };

    fn default() -> Value {
        Value::Null
    }
}

impl Value {
    ghost use Rattle.object_values.specs.Values.{is_simple};

    /// The same value once more. It takes memory for a text alone.
    pub fn share(&self) -> Result<Value, AllocError>
        ensures { IfOk result (λ copy. copy ≡ self.now) }
    {
        match self {
            Value::Null => Ok(Value::Null),
            Value::Bool(flag) => Ok(Value::Bool(*flag)),
            Value::Byte(number) => Ok(Value::Byte(*number)),
            Value::Short(number) => Ok(Value::Short(*number)),
            Value::Char(unit) => Ok(Value::Char(*unit)),
            Value::Int(number) => Ok(Value::Int(*number)),
            Value::Long(number) => Ok(Value::Long(*number)),
            Value::Str(text) => Ok(Value::Str(text.share()?)),
            Value::Ref(id) => Ok(Value::Ref(*id)),
        }
    }

    /// Whether it may be a key of a map or a set: null, a text, a truth value, a char or a whole number.
    pub fn is_simple(&self) -> bool
        ensures { result ≡ is_simple self.now }
    {
        match self {
            Value::Ref(_) => false,
            _ => true,
        }
    }
}

impl PartialEq for Value {
    ghost use Rattle.std.specs.Cmp.{partial_equiv_from_equiv};
    ghost use Rattle.object_values.specs.Values.{same_value};
    ghost use Rattle.object_values.specs.Keys.{values_equiv};

    ghost eq = { same_value };

    ghost laws = { partial_equiv_from_equiv values_equiv };

    fn eq(&self, other: &Value) -> bool {
        match (self, other) {
            (Value::Null, Value::Null) => true,
            (Value::Bool(a), Value::Bool(b)) => a == b,
            (Value::Byte(a), Value::Byte(b)) => a == b,
            (Value::Short(a), Value::Short(b)) => a == b,
            (Value::Char(a), Value::Char(b)) => a == b,
            (Value::Int(a), Value::Int(b)) => a == b,
            (Value::Long(a), Value::Long(b)) => a == b,
            (Value::Str(a), Value::Str(b)) => a.units() == b.units(),
            (Value::Ref(a), Value::Ref(b)) => a == b,
            _ => false,
        }
    }
}

impl Eq for Value {
    ghost use Rattle.object_values.specs.Keys.{values_equiv};

    ghost laws = { values_equiv };
}

// Each value gives one word, and a text further words of its units. `FoldHasher` takes the 8 bytes of a word in by one product of two
// factors: what it holds, which no one who chooses keys knows, joined with the word, and a number that is fixed and not 0. So
// no word makes that product 0 but the one that is what it holds. A write of 9 to 16 bytes joins its second half with a number
// that everybody knows: a chosen half would make that product 0, and all texts with that half would collide.
impl Hash for Value {
    ghost use Rattle.object_values.specs.Keys.{value_fed, equal_fed};

    ghost hash_input = { value_fed };

    ghost respects_eq = { equal_fed };

    fn hash<H: Hasher>(&self, state: &mut H) {
        match self {
            Value::Null => state.write_u64(word(0, 0)),
            Value::Bool(flag) => state.write_u64(word(1, u64::from(*flag))),
            Value::Byte(number) => state.write_u64(word(2, u64::from(number.cast_unsigned()))),
            Value::Short(number) => state.write_u64(word(3, u64::from(number.cast_unsigned()))),
            Value::Char(unit) => state.write_u64(word(4, u64::from(*unit))),
            Value::Int(number) => state.write_u64(word(5, u64::from(number.cast_unsigned()))),
            Value::Long(number) => state.write_u64(word(6, number.cast_unsigned())),
            Value::Str(text) => feed_text(text.units(), state),
            Value::Ref(id) => state.write_u64(word(8, u64::from(*id))),
        }
    }
}

// The number of a kind in the highest byte, joined with a content. A word stands for one long at most and for one other value.
fn word(kind: u8, content: u64) -> u64
    ensures { result ≡ word kind content }
{
    content ^ (kind as u64) << 56
}

// Up to four units as one word, the first lowest.
fn four_units(a: u16, b: u16, c: u16, d: u16) -> u64
    ensures { result ≡ four_units a b c d }
{
    a as u64 | (b as u64) << 16 | (c as u64) << 32 | (d as u64) << 48
}

// Feeds the kind and the length of a text, and then its units.
fn feed_text<H: Hasher>(units: &[u16], state: &mut H)
    ensures { state.new ≡ fold H.write state.old (text_fed units.now) }
{
    state.write_u64(word(7, units.len() as u64));
    feed_units(units, state);
}

// Feeds units, four at a time, and then those that are left.
fn feed_units<H: Hasher>(units: &[u16], state: &mut H)
    ensures { state.new ≡ fold H.write state.old (units_fed units.now) }
{
    let mut rest = units;
    while let [a, b, c, d, more @ ..] = rest {
        state.write_u64(four_units(*a, *b, *c, *d));
        rest = more;
    }
    match rest {
        [a, b, c] => state.write_u64(four_units(*a, *b, *c, 0)),
        [a, b] => state.write_u64(four_units(*a, *b, 0, 0)),
        [a] => state.write_u64(four_units(*a, 0, 0, 0)),
        _ => {}
    }
}
