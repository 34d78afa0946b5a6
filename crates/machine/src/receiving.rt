//! What a member is called with: the words of its call as values.
ghost use Rattle.std.specs.Prelude.{◌≡◌, ◌≤◌, ◌<◌, ◌+◌, List, length, Some, IfOk, IsOk};
ghost use Rattle.allowlist.specs.declared.member.MemberKind.TheVariants as kind;
ghost use Rattle.object_values.specs.declared.value.Value.{Value};
ghost use Rattle.code_meaning.specs.Members as members;
ghost use Rattle.machine.specs.Members.{behind, filled, is_null, received_with, receiving_of};

use allowlist::{MemberKind, MemberType};
use code_meaning::Word;
use machine_parts::{Values, Words};
use machine_paths::boxed;
use object_values::Value;
use pl_types::Ty;
use std::alloc::AllocError;
use std::mem::replace;

/// What a member is called with.
#[derive(Clone, Copy)]
pub enum Receiving {
    /// The words do not fit.
    Unfit,
    /// The receiver is null.
    OnNull,
    /// The arguments, the receiver first.
    Receives,
    /// A field is read.
    Reads,
}

/// The words of a call, the receiver's on the top, as what the member is called with. They are moved, and what they become stands in
/// `values` alone.
pub fn received(
    called: &MemberType,
    words: &mut Words,
    values: &mut Values,
) -> Result<Receiving, AllocError>
    ensures exact { IfOk result (λ r. receiving_of r values.new.items ≡ members.received called.now words.old.items) }
    ensures memory { length words.old.items ≤ values.old.room → IsOk result }
    ensures room { (words.new.room ≡ words.old.room) × (values.new.room ≡ values.old.room) }
{
    match called.kind {
        MemberKind::Instance => received_on(called.params.as_slice(), words, values),
        MemberKind::Static => received_all(called.params.as_slice(), words, values),
        MemberKind::Constructor => received_all(called.params.as_slice(), words, values),
        MemberKind::Field => {
            if words.len() == 0 {
                Ok(Receiving::Reads)
            } else {
                Ok(Receiving::Unfit)
            }
        }
    }
}

fn received_all(
    params: &[Ty],
    words: &mut Words,
    values: &mut Values,
) -> Result<Receiving, AllocError>
    ensures exact { IfOk result (λ r. receiving_of r values.new.items ≡ members.receives (members.taken_all params.now words.old.items)) }
    ensures memory { length words.old.items ≤ values.old.room → IsOk result }
    ensures room { (words.new.room ≡ words.old.room) × (values.new.room ≡ values.old.room) }
{
    values.clear();
    if take_arguments(params, words, values)? {
        Ok(Receiving::Receives)
    } else {
        Ok(Receiving::Unfit)
    }
}

fn received_on(
    params: &[Ty],
    words: &mut Words,
    values: &mut Values,
) -> Result<Receiving, AllocError>
    ensures exact { IfOk result (λ r. receiving_of r values.new.items ≡ members.received_by kind.Instance params.now words.old.items) }
    ensures memory { length words.old.items ≤ values.old.room → IsOk result }
    ensures room { (words.new.room ≡ words.old.room) × (values.new.room ≡ values.old.room) }
{
    match words.pop() {
        Some(word) => match reference_in(word) {
            Some(receiver) => received_by(params, words, values, receiver),
            None => Ok(Receiving::Unfit),
        },
        None => Ok(Receiving::Unfit),
    }
}

fn received_by(
    params: &[Ty],
    words: &mut Words,
    values: &mut Values,
    receiver: Value,
) -> Result<Receiving, AllocError>
    ensures exact { IfOk result (λ r. receiving_of r values.new.items ≡ members.receives_on (Some receiver) (members.taken_all params.now words.old.items)) }
    ensures memory { length words.old.items < values.old.room → IsOk result }
    ensures room { (words.new.room ≡ words.old.room) × (values.new.room ≡ values.old.room) }
{
    let null = is_null(&receiver);
    values.clear();
    values.push(receiver)?;
    if take_arguments(params, words, values)? {
        Ok(on_receiver(null))
    } else {
        Ok(Receiving::Unfit)
    }
}

fn on_receiver(null: bool) -> Receiving
    ensures { (values : List Value) → receiving_of result values ≡ received_with null values }
{
    if null {
        Receiving::OnNull
    } else {
        Receiving::Receives
    }
}

fn is_null(value: &Value) -> bool
    ensures { result ≡ is_null value.now }
{
    matches!(value, Value::Null)
}

// The arguments of these types, behind values that are there. It is false where the words do not fit.
fn take_arguments(params: &[Ty], words: &mut Words, values: &mut Values) -> Result<bool, AllocError>
    ensures exact { IfOk result (λ fit. filled fit values.new.items ≡ behind values.old.items (members.taken_all params.now words.old.items)) }
    ensures memory { length values.old.items + length words.old.items ≤ values.old.room → IsOk result }
    ensures room { (words.new.room ≡ words.old.room) × (values.new.room ≡ values.old.room) }
{
    let mut rest = params;
    'params: while let [of, others @ ..] = rest {
        match words.pop() {
            Some(word) => match taken(of, word) {
                Some(value) => values.push(value)?,
                None => return Ok(false),
            },
            None => return Ok(false),
        }
        rest = others;
    }
    if words.len() == 0 {
        Ok(true)
    } else {
        Ok(false)
    }
}

/// An argument of a type: a number goes in the box of its primitive.
pub(crate) fn taken(of: &Ty, word: Word) -> Option<Value>
    ensures { result ≡ members.taken of.now word }
{
    match of {
        Ty::Void => reference_in(word),
        Ty::Null => reference_in(word),
        Ty::Def => reference_in(word),
        Ty::Prim(primitive) => boxed(*primitive, &word),
        Ty::Class(_) => reference_in(word),
        Ty::Array(_) => reference_in(word),
    }
}

/// The value of a word that is a reference.
pub(crate) fn reference_in(mut word: Word) -> Option<Value>
    ensures { result ≡ members.reference_in word }
{
    match &mut word {
        Word::R(value) => Some(replace(value, Value::Null)),
        _ => None,
    }
}
