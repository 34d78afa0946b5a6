//! The members of CharSequence, String and StringBuilder, the constructors of exceptions, and getMessage.
ghost use Rattle.std.specs.Prelude.{◌≡◌, false, length, slice_get};
ghost use Rattle.object_heap.specs.Effects.{Answers};
ghost use Rattle.object_heap.specs.Fits.{Rules, Fits, AllFit, AnswerFits};
ghost use Rattle.api_text.specs.Outcomes.{Tells, WantsMemory, effect};
ghost use Rattle.api_text.specs.Members as spec;
ghost use Rattle.api_text.specs.Members.{changes_builder, does, does_numbered, numbered};

use crate::outcome::{ExceptionClass, Outcome};
use crate::{builders, exceptions, joining, making, sequences, texts};
use object_heap::{Answer, Heap};
use object_values::Value;

/// A member.
#[derive(Clone, Copy)]
pub enum Member {
    CharAt,
    Length,
    Join,
    ValueOf,
    Concat,
    Contains,
    EndsWith,
    EqualsIgnoreCase,
    IndexOf,
    IndexOfFrom,
    IsEmpty,
    LastIndexOf,
    Replace,
    SplitOnToken,
    SplitOnTokenLimited,
    StartsWith,
    StartsWithAt,
    SubstringFrom,
    Substring,
    ToCharArray,
    ToLowerCase,
    ToUpperCase,
    Trim,
    NewBuilder,
    NewBuilderOf,
    Append,
    DeleteCharAt,
    BuilderIndexOf,
    Insert,
    SetLength,
    NewException(ExceptionClass),
    NewExceptionSaying(ExceptionClass),
    GetMessage,
}

// What a member comes to that changes no builder.
fn does(heap: &Heap, member: Member, args: &[Value]) -> Outcome
    requires { changes_builder member ≡ false }
    ensures { Tells heap.now (does heap.now.objects member args.now) result }
{
    match member {
        Member::CharAt => sequences::char_at(heap, args),
        Member::Length => sequences::sequence_length(heap, args),
        Member::Join => joining::join(heap, args),
        Member::ValueOf => making::value_of(heap, args),
        Member::Concat => making::concat(heap, args),
        Member::Contains => texts::contains(heap, args),
        Member::EndsWith => texts::ends_with(heap, args),
        Member::EqualsIgnoreCase => texts::equals_ignore_case(heap, args),
        Member::IndexOf => texts::index_of(heap, args),
        Member::IndexOfFrom => texts::index_of_from(heap, args),
        Member::IsEmpty => texts::is_empty(heap, args),
        Member::LastIndexOf => texts::last_index_of(heap, args),
        Member::Replace => making::replace(heap, args),
        Member::SplitOnToken => making::split_on_token(heap, args),
        Member::SplitOnTokenLimited => making::split_on_token_limited(heap, args),
        Member::StartsWith => texts::starts_with(heap, args),
        Member::StartsWithAt => texts::starts_with_at(heap, args),
        Member::SubstringFrom => making::substring_from(heap, args),
        Member::Substring => making::substring(heap, args),
        Member::ToCharArray => making::to_char_array(heap, args),
        Member::ToLowerCase => making::to_lower_case(heap, args),
        Member::ToUpperCase => making::to_upper_case(heap, args),
        Member::Trim => making::trim(heap, args),
        Member::NewBuilder => builders::new_builder(heap),
        Member::NewBuilderOf => builders::new_builder_of(heap, args),
        Member::BuilderIndexOf => builders::builder_index_of(heap, args),
        Member::NewException(class) => exceptions::new_exception(class),
        Member::NewExceptionSaying(class) => exceptions::new_exception_saying(heap, class, args),
        Member::GetMessage => exceptions::get_message(heap, args),
        Member::Append | Member::DeleteCharAt | Member::Insert | Member::SetLength =>
            unreachable!(),
    }
}

/// The members of CharSequence in the order of their numbers in the catalogue, from 3.
static OF_SEQUENCES: [Member; 2] = [Member::CharAt, Member::Length];

/// Those of String and StringBuilder, from 58.
static OF_TEXTS: [Member; 28] = [
    Member::Join,
    Member::ValueOf,
    Member::Concat,
    Member::Contains,
    Member::EndsWith,
    Member::EqualsIgnoreCase,
    Member::IndexOf,
    Member::IndexOfFrom,
    Member::IsEmpty,
    Member::LastIndexOf,
    Member::Replace,
    Member::SplitOnToken,
    Member::SplitOnTokenLimited,
    Member::StartsWith,
    Member::StartsWithAt,
    Member::SubstringFrom,
    Member::Substring,
    Member::ToCharArray,
    Member::ToLowerCase,
    Member::ToUpperCase,
    Member::Trim,
    Member::NewBuilder,
    Member::NewBuilderOf,
    Member::Append,
    Member::DeleteCharAt,
    Member::BuilderIndexOf,
    Member::Insert,
    Member::SetLength,
];

/// Those of exceptions, from 194.
static OF_EXCEPTIONS: [Member; 31] = [
    Member::NewException(ExceptionClass::Exception),
    Member::NewExceptionSaying(ExceptionClass::Exception),
    Member::GetMessage,
    Member::NewException(ExceptionClass::Runtime),
    Member::NewExceptionSaying(ExceptionClass::Runtime),
    Member::NewException(ExceptionClass::Arithmetic),
    Member::NewExceptionSaying(ExceptionClass::Arithmetic),
    Member::NewException(ExceptionClass::ClassCast),
    Member::NewExceptionSaying(ExceptionClass::ClassCast),
    Member::NewException(ExceptionClass::ConcurrentModification),
    Member::NewExceptionSaying(ExceptionClass::ConcurrentModification),
    Member::NewException(ExceptionClass::IllegalArgument),
    Member::NewExceptionSaying(ExceptionClass::IllegalArgument),
    Member::NewException(ExceptionClass::IllegalState),
    Member::NewExceptionSaying(ExceptionClass::IllegalState),
    Member::NewException(ExceptionClass::IndexOutOfBounds),
    Member::NewExceptionSaying(ExceptionClass::IndexOutOfBounds),
    Member::NewException(ExceptionClass::NegativeArraySize),
    Member::NewExceptionSaying(ExceptionClass::NegativeArraySize),
    Member::NewException(ExceptionClass::NoSuchElement),
    Member::NewExceptionSaying(ExceptionClass::NoSuchElement),
    Member::NewException(ExceptionClass::NullPointer),
    Member::NewExceptionSaying(ExceptionClass::NullPointer),
    Member::NewException(ExceptionClass::UnsupportedOperation),
    Member::NewExceptionSaying(ExceptionClass::UnsupportedOperation),
    Member::NewException(ExceptionClass::NumberFormat),
    Member::NewExceptionSaying(ExceptionClass::NumberFormat),
    Member::NewException(ExceptionClass::ArrayIndexOutOfBounds),
    Member::NewExceptionSaying(ExceptionClass::ArrayIndexOutOfBounds),
    Member::NewException(ExceptionClass::StringIndexOutOfBounds),
    Member::NewExceptionSaying(ExceptionClass::StringIndexOutOfBounds),
];

#[tactic(auto, unfolding(crate::specs::Members::of_sequences))]
fn of_sequences() -> &'static [Member]
    ensures { result.now ≡ spec.of_sequences }
{
    &OF_SEQUENCES
}

#[tactic(auto, unfolding(crate::specs::Members::of_texts))]
fn of_texts() -> &'static [Member]
    ensures { result.now ≡ spec.of_texts }
{
    &OF_TEXTS
}

#[tactic(auto, unfolding(crate::specs::Members::of_exceptions))]
fn of_exceptions() -> &'static [Member]
    ensures { result.now ≡ spec.of_exceptions }
{
    &OF_EXCEPTIONS
}

fn member_at(members: &[Member], at: usize) -> Option<Member>
    ensures { result ≡ slice_get members.now at }
{
    match members.get(at) {
        Some(member) => Some(*member),
        None => None,
    }
}

#[tactic(auto, unfolding(crate::specs::Members::numbered))]
fn member_of(number: u32) -> Option<Member>
    ensures { result ≡ numbered number }
{
    if number < 3 {
        None
    } else if number < 58 {
        member_at(of_sequences(), (number - 3) as usize)
    } else if number < 194 {
        member_at(of_texts(), (number - 58) as usize)
    } else {
        member_at(of_exceptions(), (number - 194) as usize)
    }
}

// The call of a member. Those that change a builder change it in place.
fn called(member: Member, heap: &mut Heap, args: &[Value]) -> Answer
    ensures does { Answers (effect heap.old (does heap.old.objects member args.now)) heap.old heap.new result }
    ensures memory { WantsMemory (does heap.old.objects member args.now) result }
{
    match member {
        Member::Append => builders::append(heap, args),
        Member::DeleteCharAt => builders::delete_char_at(heap, args),
        Member::Insert => builders::insert(heap, args),
        Member::SetLength => builders::set_length(heap, args),
        _ => does(heap, member, args).settle(heap),
    }
}

/// The call of a member of CharSequence, String, StringBuilder or an exception, by its number in the catalogue. The receiver is
/// the first argument; a constructor and a static member have none. A number that is no such member's gives null, and an
/// argument that is missing or of another kind counts as null.
///
/// `Thrown`: by `docs/CATALOGUE.md`, as the member says. `Room`: the charge is above the room left; it is for a text its units
/// and 1, for a new builder, array or exception its weight, and for a builder that changes what it grows by. `NoMemory`: there
/// was none for what is made; a member that gives what is there already takes none.
pub fn call(number: u32, heap: &mut Heap, args: &[Value]) -> Answer
    ensures does { Answers (effect heap.old (does_numbered heap.old.objects number args.now)) heap.old heap.new result }
    ensures memory { WantsMemory (does_numbered heap.old.objects number args.now) result }
    ensures keeps { (rules : Rules) → Fits rules heap.old.objects → AllFit (length heap.old.objects) args.now → AnswerFits rules heap.new result }
{
    match member_of(number) {
        Some(member) => called(member, heap, args),
        None => Answer::Value(Value::Null),
    }
}
