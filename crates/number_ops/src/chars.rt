//! The members of Character, which know ASCII alone, and of Boolean.
ghost use Rattle.std.specs.Prelude.{◌≡◌};
ghost use Rattle.number_ops.specs.Chars as spec;
ghost use Rattle.number_ops.specs.Chars.{of_char, parse_flag, flag_order};

use object_values::Value;

/// A member of Character.
#[derive(Clone, Copy, Debug, PartialEq, Eq)]
pub enum OneChar {
    CharValue,
    IsDigit,
    IsLetter,
    IsLetterOrDigit,
    IsLowerCase,
    IsUpperCase,
    IsWhitespace,
    ToLowerCase,
    ToUpperCase,
}

fn is_digit(unit: u16) -> bool
    ensures { result ≡ spec.is_digit unit }
{
    48 <= unit && unit <= 57
}

fn is_upper(unit: u16) -> bool
    ensures { result ≡ spec.is_upper unit }
{
    65 <= unit && unit <= 90
}

fn is_lower(unit: u16) -> bool
    ensures { result ≡ spec.is_lower unit }
{
    97 <= unit && unit <= 122
}

fn is_space(unit: u16) -> bool
    ensures { result ≡ spec.is_space unit }
{
    (9 <= unit && unit <= 13) || (28 <= unit && unit <= 32)
}

fn to_lower(unit: u16) -> u16
    ensures { result ≡ spec.to_lower unit }
{
    if 65 <= unit && unit <= 90 {
        unit + 32
    } else {
        unit
    }
}

fn to_upper(unit: u16) -> u16
    ensures { result ≡ spec.to_upper unit }
{
    if 97 <= unit && unit <= 122 {
        unit - 32
    } else {
        unit
    }
}

/// What a member of Character with one char comes to.
pub fn of_char(member: OneChar, unit: u16) -> Value
    ensures { result ≡ of_char member unit }
{
    match member {
        OneChar::CharValue => Value::Char(unit),
        OneChar::IsDigit => Value::Bool(is_digit(unit)),
        OneChar::IsLetter => Value::Bool(is_upper(unit) || is_lower(unit)),
        OneChar::IsLetterOrDigit => {
            Value::Bool(is_upper(unit) || is_lower(unit) || is_digit(unit))
        }
        OneChar::IsLowerCase => Value::Bool(is_lower(unit)),
        OneChar::IsUpperCase => Value::Bool(is_upper(unit)),
        OneChar::IsWhitespace => Value::Bool(is_space(unit)),
        OneChar::ToLowerCase => Value::Char(to_lower(unit)),
        OneChar::ToUpperCase => Value::Char(to_upper(unit)),
    }
}

fn spells_true(text: &[u16]) -> bool
    ensures { result ≡ spec.spells_true text.now }
{
    match text {
        [t, r, u, e] => is_true(to_lower(*t), to_lower(*r), to_lower(*u), to_lower(*e)),
        _ => false,
    }
}

fn is_true(t: u16, r: u16, u: u16, e: u16) -> bool
    ensures { result ≡ spec.is_true t r u e }
{
    t == 116 && r == 114 && u == 117 && e == 101
}

/// Whether a text is `true`, in whatever case.
pub fn parse_flag(value: &Value) -> bool
    ensures { result ≡ parse_flag value.now }
{
    match value {
        Value::Str(text) => spells_true(text.units()),
        _ => false,
    }
}

/// The order of two truth values: false comes first.
pub fn flag_order(a: bool, b: bool) -> i32
    ensures { result ≡ flag_order a b }
{
    if a == b {
        0
    } else if a {
        1
    } else {
        -1
    }
}
