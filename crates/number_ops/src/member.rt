//! The members of Object, Comparable, Number, Byte to Long, Character, Boolean and Math.
ghost use Rattle.std.specs.Prelude.{◌≡◌};
ghost use Rattle.object_heap.specs.Effects.{Answers};
ghost use Rattle.number_ops.specs.Outcomes.{Affords, Tells, WantsMemory, effect, nothing};
ghost use Rattle.number_ops.specs.Members as spec;
ghost use Rattle.number_ops.specs.Members.{does, does_numbered, members, numbered, number_value};

use crate::affording::Afforded;
use crate::casts::number_as;
use crate::chars::{OneChar, flag_order, of_char, parse_flag};
use crate::errors::null_error;
use crate::numbers::{
    Constant, OneInt, OneLong, Two, constant_of, of_int, of_ints, of_long, of_longs, parse_int_of,
    parse_long_of, unsigned_byte,
};
use crate::order::{compare, equals, to_text};
use crate::outcome::Outcome;
use crate::values::number_in;
use member_arguments::{byte_at, char_at, flag_at, int_at, long_at};
use object_heap::{Answer, Heap};
use object_values::Value;
use pl_types::Primitive;

/// A member, by its arguments and what it does with them.
#[derive(Clone, Copy, Debug, PartialEq, Eq)]
pub enum Member {
    Equals,
    ToText,
    CompareTo,
    NumberAs(Primitive),
    Field(Constant),
    UnsignedByte,
    OfInt(OneInt),
    OfInts(Two),
    OfLong(OneLong),
    OfLongs(Two),
    ParseInt,
    ParseLong,
    OfChar(OneChar),
    BooleanValue,
    BooleanCompare,
    ParseBoolean,
}

fn equals_of(heap: &Heap, args: &[Value]) -> Outcome
    ensures { Tells (spec.equals_of heap.now.objects args.now) result }
{
    match (args.get(0), args.get(1)) {
        (Some(a), Some(b)) => equals(heap, a, b),
        _ => null_error(),
    }
}

fn compare_of(heap: &Heap, args: &[Value]) -> Outcome
    ensures { Tells (spec.compare_of heap.now.objects args.now) result }
{
    match (args.get(0), args.get(1)) {
        (Some(a), Some(b)) => compare(heap, a, b),
        _ => null_error(),
    }
}

fn text_of(heap: &Heap, args: &[Value]) -> Afforded
    ensures { Affords heap.now (spec.text_member heap.now.objects args.now) result }
{
    match args.get(0) {
        Some(value) => to_text(heap, value),
        None => Afforded::Told(null_error()),
    }
}

fn nothing() -> Outcome
    ensures { result ≡ nothing }
{
    Outcome::Gives(Value::Null)
}

fn number_of(primitive: Primitive, args: &[Value]) -> Outcome
    ensures { result ≡ spec.number_of primitive args.now }
{
    match args.get(0) {
        Some(value) => number_value(primitive, value),
        None => null_error(),
    }
}

fn number_value(primitive: Primitive, value: &Value) -> Outcome
    ensures { result ≡ number_value primitive value.now }
{
    match number_in(value) {
        Some(number) => Outcome::Gives(number_as(primitive, number)),
        None => null_error(),
    }
}

fn byte_member(args: &[Value]) -> Outcome
    ensures { result ≡ spec.byte_member args.now }
{
    match byte_at(args, 0) {
        Some(number) => unsigned_byte(number),
        None => null_error(),
    }
}

fn int_member(heap: &Heap, member: OneInt, args: &[Value]) -> Outcome
    ensures { Tells (spec.int_member member args.now) result }
{
    match int_at(args, 0) {
        Some(a) => of_int(heap, member, a),
        None => null_error(),
    }
}

fn ints_member(member: Two, args: &[Value]) -> Outcome
    ensures { result ≡ spec.ints_member member args.now }
{
    match (int_at(args, 0), int_at(args, 1)) {
        (Some(a), Some(b)) => of_ints(member, a, b),
        _ => null_error(),
    }
}

fn long_member(heap: &Heap, member: OneLong, args: &[Value]) -> Outcome
    ensures { Tells (spec.long_member member args.now) result }
{
    match long_at(args, 0) {
        Some(a) => of_long(heap, member, a),
        None => null_error(),
    }
}

fn longs_member(heap: &Heap, member: Two, args: &[Value]) -> Outcome
    ensures { Tells (spec.longs_member member args.now) result }
{
    match (long_at(args, 0), long_at(args, 1)) {
        (Some(a), Some(b)) => of_longs(heap, member, a, b),
        _ => null_error(),
    }
}

fn parse_int_member(heap: &Heap, args: &[Value]) -> Outcome
    ensures { Tells (spec.parse_int_member args.now) result }
{
    match args.get(0) {
        Some(value) => parse_int_of(heap, value),
        None => null_error(),
    }
}

fn parse_long_member(heap: &Heap, args: &[Value]) -> Outcome
    ensures { Tells (spec.parse_long_member args.now) result }
{
    match args.get(0) {
        Some(value) => parse_long_of(heap, value),
        None => null_error(),
    }
}

fn char_member(member: OneChar, args: &[Value]) -> Outcome
    ensures { result ≡ spec.chars_member member args.now }
{
    match char_at(args, 0) {
        Some(unit) => Outcome::Gives(of_char(member, unit)),
        None => null_error(),
    }
}

fn flag_value(args: &[Value]) -> Outcome
    ensures { result ≡ spec.flag_value args.now }
{
    match flag_at(args, 0) {
        Some(flag) => Outcome::Gives(Value::Bool(flag)),
        None => null_error(),
    }
}

fn flag_compare(args: &[Value]) -> Outcome
    ensures { result ≡ spec.flag_compare args.now }
{
    match (flag_at(args, 0), flag_at(args, 1)) {
        (Some(a), Some(b)) => Outcome::Gives(Value::Int(flag_order(a, b))),
        _ => null_error(),
    }
}

fn parse_flag_member(args: &[Value]) -> Outcome
    ensures { result ≡ spec.parse_flag_member args.now }
{
    match args.get(0) {
        Some(value) => Outcome::Gives(Value::Bool(parse_flag(value))),
        None => null_error(),
    }
}

fn does(heap: &Heap, member: Member, args: &[Value]) -> Afforded
    ensures { Affords heap.now (does heap.now.objects member args.now) result }
{
    match member {
        Member::Equals => Afforded::Told(equals_of(heap, args)),
        Member::ToText => text_of(heap, args),
        Member::CompareTo => Afforded::Told(compare_of(heap, args)),
        Member::NumberAs(primitive) => Afforded::Told(number_of(primitive, args)),
        Member::Field(field) => Afforded::Told(Outcome::Gives(constant_of(field))),
        Member::UnsignedByte => Afforded::Told(byte_member(args)),
        Member::OfInt(member) => Afforded::Told(int_member(heap, member, args)),
        Member::OfInts(member) => Afforded::Told(ints_member(member, args)),
        Member::OfLong(member) => Afforded::Told(long_member(heap, member, args)),
        Member::OfLongs(member) => Afforded::Told(longs_member(heap, member, args)),
        Member::ParseInt => Afforded::Told(parse_int_member(heap, args)),
        Member::ParseLong => Afforded::Told(parse_long_member(heap, args)),
        Member::OfChar(member) => Afforded::Told(char_member(member, args)),
        Member::BooleanValue => Afforded::Told(flag_value(args)),
        Member::BooleanCompare => Afforded::Told(flag_compare(args)),
        Member::ParseBoolean => Afforded::Told(parse_flag_member(args)),
    }
}

/// The members in the order of their numbers in the catalogue.
static MEMBERS: [Option<Member>; 58] = [
    Some(Member::Equals),
    Some(Member::ToText),
    Some(Member::CompareTo),
    None,
    None,
    Some(Member::NumberAs(Primitive::Byte)),
    Some(Member::NumberAs(Primitive::Short)),
    Some(Member::NumberAs(Primitive::Int)),
    Some(Member::NumberAs(Primitive::Long)),
    Some(Member::Field(Constant::ByteMost)),
    Some(Member::Field(Constant::ByteLeast)),
    Some(Member::UnsignedByte),
    Some(Member::Field(Constant::ShortMost)),
    Some(Member::Field(Constant::ShortLeast)),
    Some(Member::Field(Constant::IntMost)),
    Some(Member::Field(Constant::IntLeast)),
    Some(Member::OfInt(OneInt::BitCount)),
    Some(Member::OfInts(Two::Compare)),
    Some(Member::OfInts(Two::Max)),
    Some(Member::OfInts(Two::Min)),
    Some(Member::ParseInt),
    Some(Member::OfInt(OneInt::Signum)),
    Some(Member::OfInt(OneInt::ToBinary)),
    Some(Member::OfInt(OneInt::ToHex)),
    Some(Member::OfInt(OneInt::ToText)),
    Some(Member::OfInt(OneInt::ValueOf)),
    Some(Member::Field(Constant::LongMost)),
    Some(Member::Field(Constant::LongLeast)),
    Some(Member::OfLong(OneLong::BitCount)),
    Some(Member::OfLongs(Two::Compare)),
    Some(Member::OfLongs(Two::Max)),
    Some(Member::OfLongs(Two::Min)),
    Some(Member::ParseLong),
    Some(Member::OfLong(OneLong::Signum)),
    Some(Member::OfLong(OneLong::ToBinary)),
    Some(Member::OfLong(OneLong::ToHex)),
    Some(Member::OfLong(OneLong::ToText)),
    Some(Member::OfLong(OneLong::ValueOf)),
    Some(Member::Field(Constant::CharMost)),
    Some(Member::Field(Constant::CharLeast)),
    Some(Member::OfChar(OneChar::CharValue)),
    Some(Member::OfChar(OneChar::IsDigit)),
    Some(Member::OfChar(OneChar::IsLetter)),
    Some(Member::OfChar(OneChar::IsLetterOrDigit)),
    Some(Member::OfChar(OneChar::IsLowerCase)),
    Some(Member::OfChar(OneChar::IsUpperCase)),
    Some(Member::OfChar(OneChar::IsWhitespace)),
    Some(Member::OfChar(OneChar::ToLowerCase)),
    Some(Member::OfChar(OneChar::ToUpperCase)),
    Some(Member::BooleanValue),
    Some(Member::BooleanCompare),
    Some(Member::ParseBoolean),
    Some(Member::OfLong(OneLong::Abs)),
    Some(Member::OfLongs(Two::FloorDiv)),
    Some(Member::OfLongs(Two::FloorMod)),
    Some(Member::OfLongs(Two::Max)),
    Some(Member::OfLongs(Two::Min)),
    Some(Member::OfLong(OneLong::ToIntExact)),
];

#[tactic(auto, unfolding(crate::specs::Members::members))]
fn members() -> &'static [Option<Member>]
    ensures { result.now ≡ members }
{
    &MEMBERS
}

#[tactic(auto, unfolding(crate::specs::Members::numbered))]
fn member_of(number: u32) -> Option<Member>
    ensures { result ≡ numbered number }
{
    match members().get(number as usize) {
        Some(member) => *member,
        None => None,
    }
}

fn does_numbered(heap: &Heap, number: u32, args: &[Value]) -> Afforded
    ensures { Affords heap.now (does_numbered heap.now.objects number args.now) result }
{
    match member_of(number) {
        Some(member) => does(heap, member, args),
        None => Afforded::Told(nothing()),
    }
}

/// The call of a member of Object, Comparable, Number, Byte, Short, Integer, Long, Character, Boolean or Math, by its number in
/// the catalogue; a field is a member without arguments. The receiver is the first argument. Where the number is another
/// member's, it gives null.
///
/// `Thrown`: by `docs/CATALOGUE.md`, as the member says; NullPointerException where an argument is missing or of another kind. `Room`: the charge, of a text its units and 1 and of an exception the
/// units of its message and 1, is above the room left. `NoMemory`: there was none for a text or an exception.
pub fn call(number: u32, heap: &mut Heap, args: &[Value]) -> Answer
    ensures exact { Answers (effect heap.old (does_numbered heap.old.objects number args.now)) heap.old heap.new result }
    ensures memory { WantsMemory (does_numbered heap.old.objects number args.now) result }
{
    does_numbered(heap, number, args).settle(heap)
}
