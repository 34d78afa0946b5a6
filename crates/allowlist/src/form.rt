//! What a line of an allowlist file says.

ghost use Rattle.std.specs.Prelude.{◌≡◌, ◌==◌, ◌≤◌, IfOk, None, if◌then◌else◌, false, true, length, option_map};
ghost use Rattle.std.specs.List.{position_or_len};
ghost use Rattle.std.specs.Str.{bytes_eq, is_utf8};
ghost use Rattle.allowlist.specs.Lines.{types_at, params_at, called, augmented_at, after_name, named_at, opening_at, import_at, member_at, form_or, after_word, constructor_at, content_form, form_of, at_end, augmentation, is_name, is_class_name};
ghost use Rattle.allowlist.specs.Seen.{seen_text, seen_list, seen_form};

use crate::scan::{
    TypeText, brackets_at, class_name_at, is_class_name, is_name, mark_at, name_at, past_blanks,
    type_at, word_at,
};
use std::alloc::{AllocError, Global};

/// What a line says.
#[derive(Drop)]
pub(crate) enum Form<'a> {
    /// Nothing.
    Blank,
    /// A class is opened, by its full name.
    Opens(&'a [u8]),
    /// The part of the host's functions is opened.
    Imports,
    /// What is open ends.
    Closes,
    /// A constructor with these parameters.
    Makes(Vec<TypeText<'a>>),
    /// A member that is called: its result, whether the augmentation word stands there, its name and its parameters.
    Calls(TypeText<'a>, bool, &'a [u8], Vec<TypeText<'a>>),
    /// A field: its type and its name.
    Has(TypeText<'a>, &'a [u8]),
}

/// Types with commas between, and the closing bracket.
fn types_at<'a>(
    alloc: Global,
    text: &'a [u8],
) -> Result<Option<(Vec<TypeText<'a>>, &'a [u8])>, AllocError>
    ensures { IfOk result (λ found. option_map seen_list found ≡ types_at (length text.now) text.now) }
{
    let mut made = Vec::new(alloc);
    let mut rest = text;
    for _turn in 0..text.len() {
        let Some((ty, after)) = type_at(rest) else {
            return Ok(None);
        };
        made.push(ty)?;
        if let Some(end) = mark_at(after, b')') {
            return Ok(Some((made, end)));
        }
        let Some(next) = mark_at(after, b',') else {
            return Ok(None);
        };
        rest = next;
    }
    Ok(None)
}

/// The types in round brackets, after the opening one.
#[tactic(auto, unfolding(crate::specs::Lines::params_at))]
fn params_at<'a>(
    alloc: Global,
    text: &'a [u8],
) -> Result<Option<(Vec<TypeText<'a>>, &'a [u8])>, AllocError>
    ensures { IfOk result (λ found. option_map seen_list found ≡ params_at text.now) }
{
    match mark_at(text, b')') {
        Some(rest) => Ok(Some((Vec::new(alloc), rest))),
        None => types_at(alloc, text),
    }
}

/// A form, where the line ends here.
fn at_end<'a>(text: &[u8], form: Form<'a>) -> Option<Form<'a>>
    ensures { option_map seen_form result ≡ at_end text.now (seen_form form.entry) }
{
    match text {
        [] => Some(form),
        [_, ..] => None,
    }
}

/// A member's parameters, to the end of the line.
#[tactic(auto, unfolding(crate::specs::Lines::called))]
fn called<'a>(
    alloc: Global,
    gives: TypeText<'a>,
    augmented: bool,
    name: &'a [u8],
    text: &'a [u8],
) -> Result<Option<Form<'a>>, AllocError>
    ensures { IfOk result (λ form. option_map seen_form form ≡ called (seen_text gives.entry) augmented name.now text.now) }
{
    let Some(inner) = mark_at(text, b'(') else {
        return Ok(None);
    };
    match params_at(alloc, inner)? {
        Some((params, rest)) => Ok(at_end(rest, Form::Calls(gives, augmented, name, params))),
        None => Ok(None),
    }
}

/// What follows the augmentation word.
#[tactic(auto, unfolding(crate::specs::Lines::augmented_at))]
fn augmented_at<'a>(
    alloc: Global,
    gives: TypeText<'a>,
    text: &'a [u8],
) -> Result<Option<Form<'a>>, AllocError>
    ensures { IfOk result (λ form. option_map seen_form form ≡ augmented_at (seen_text gives.entry) text.now) }
{
    match name_at(text) {
        Some((name, rest)) => called(alloc, gives, true, name, rest),
        None => Ok(None),
    }
}

/// A member's parameters after its name, where the word is a name.
fn called_by<'a>(
    alloc: Global,
    gives: TypeText<'a>,
    name: &'a [u8],
    text: &'a [u8],
) -> Result<Option<Form<'a>>, AllocError>
    ensures { IfOk result (λ form. option_map seen_form form ≡ (if is_name name.now then called (seen_text gives.entry) false name.now text.now else None)) }
{
    if is_name(name) {
        called(alloc, gives, false, name, text)
    } else {
        Ok(None)
    }
}

/// What follows a word after a type: the end of the line, or parameters, where the word is a name, or else an augmented
/// member.
#[tactic(auto, unfolding(crate::specs::Lines::after_name))]
fn after_name<'a>(
    alloc: Global,
    gives: TypeText<'a>,
    name: &'a [u8],
    text: &'a [u8],
) -> Result<Option<Form<'a>>, AllocError>
    ensures { IfOk result (λ form. option_map seen_form form ≡ after_name (seen_text gives.entry) name.now text.now) }
{
    match text {
        [] => {
            if is_name(name) {
                Ok(Some(Form::Has(gives, name)))
            } else {
                Ok(None)
            }
        }
        [first, ..] => {
            if *first == b'(' {
                return called_by(alloc, gives, name, text);
            }
            if is_augmentation(name) {
                return augmented_at(alloc, gives, text);
            }
            Ok(None)
        }
    }
}

fn is_augmentation(word: &[u8]) -> bool
    ensures { result ≡ bytes_eq word.now augmentation }
{
    word == b"org.elasticsearch.painless.api.Augmentation".as_slice()
}

/// What follows a type.
#[tactic(auto, unfolding(crate::specs::Lines::named_at))]
fn named_at<'a>(
    alloc: Global,
    gives: TypeText<'a>,
    text: &'a [u8],
) -> Result<Option<Form<'a>>, AllocError>
    ensures { IfOk result (λ form. option_map seen_form form ≡ named_at (seen_text gives.entry) text.now) }
{
    match word_at(text) {
        Some((name, rest)) => after_name(alloc, gives, name, rest),
        None => Ok(None),
    }
}

/// What follows `class`.
#[tactic(auto, unfolding(crate::specs::Lines::opening_at))]
fn opening_at(text: &[u8]) -> Option<Form<'_>>
    ensures { option_map seen_form result ≡ opening_at text.now }
{
    let (name, rest) = class_name_at(text)?;
    let end = mark_at(rest, b'{')?;
    at_end(end, Form::Opens(name))
}

/// What follows `static_import`.
#[tactic(auto, unfolding(crate::specs::Lines::import_at))]
fn import_at(text: &[u8]) -> Option<Form<'_>>
    ensures { option_map seen_form result ≡ import_at text.now }
{
    let end = mark_at(text, b'{')?;
    at_end(end, Form::Imports)
}

/// What follows the word of a type.
#[tactic(auto, unfolding(crate::specs::Lines::member_at))]
fn member_at<'a>(
    alloc: Global,
    word: &'a [u8],
    text: &'a [u8],
) -> Result<Option<Form<'a>>, AllocError>
    ensures { IfOk result (λ form. option_map seen_form form ≡ member_at word.now text.now) }
{
    match brackets_at(text) {
        Some((depth, rest)) => named_at(alloc, TypeText { word, depth }, rest),
        None => Ok(None),
    }
}

/// What follows `static_import`, which is the word of a type where no bracket follows.
fn after_import<'a>(
    alloc: Global,
    word: &'a [u8],
    text: &'a [u8],
) -> Result<Option<Form<'a>>, AllocError>
    ensures { IfOk result (λ form. option_map seen_form form ≡ form_or (import_at text.now) (member_at word.now text.now)) }
{
    match import_at(text) {
        Some(form) => Ok(Some(form)),
        None => member_at(alloc, word, text),
    }
}

/// What follows the first word of a line.
#[tactic(auto, unfolding(crate::specs::Lines::after_word))]
fn after_word<'a>(
    alloc: Global,
    word: &'a [u8],
    text: &'a [u8],
) -> Result<Option<Form<'a>>, AllocError>
    ensures { IfOk result (λ form. option_map seen_form form ≡ after_word word.now text.now) }
{
    if word == b"class".as_slice() {
        return Ok(opening_at(text));
    }
    if word == b"static_import".as_slice() {
        return after_import(alloc, word, text);
    }
    if is_class_name(word) {
        member_at(alloc, word, text)
    } else {
        Ok(None)
    }
}

/// A constructor's parameters, after the opening bracket.
#[tactic(auto, unfolding(crate::specs::Lines::constructor_at))]
fn constructor_at<'a>(alloc: Global, text: &'a [u8]) -> Result<Option<Form<'a>>, AllocError>
    ensures { IfOk result (λ form. option_map seen_form form ≡ constructor_at text.now) }
{
    match params_at(alloc, text)? {
        Some((params, rest)) => Ok(at_end(rest, Form::Makes(params))),
        None => Ok(None),
    }
}

/// A line without its comment and the blanks at its front.
#[tactic(auto, unfolding(crate::specs::Lines::content_form))]
fn content_form<'a>(alloc: Global, text: &'a [u8]) -> Result<Option<Form<'a>>, AllocError>
    ensures { IfOk result (λ form. option_map seen_form form ≡ content_form text.now) }
{
    match text {
        [] => Ok(Some(Form::Blank)),
        [first, rest @ ..] => {
            if *first == b'}' {
                return Ok(at_end(past_blanks(rest), Form::Closes));
            }
            if *first == b'(' {
                return constructor_at(alloc, past_blanks(rest));
            }
            match word_at(text) {
                Some((word, after)) => after_word(alloc, word, after),
                None => Ok(None),
            }
        }
    }
}

/// How many bytes stand before the first of one kind.
pub(crate) fn bytes_before(text: &[u8], byte: u8) -> usize
    ensures value { result ≡ position_or_len (λ b. b == byte) text.now }
    ensures within { result ≤ length text.now }
{
    for (at, other) in text.iter().enumerate() {
        if *other == byte {
            return at;
        }
    }
    text.len()
}

/// What a line says. `None` where it has no form.
#[tactic(auto, unfolding(crate::specs::Lines::form_of))]
pub(crate) fn form_of<'a>(alloc: Global, line: &'a [u8]) -> Result<Option<Form<'a>>, AllocError>
    ensures { IfOk result (λ form. option_map seen_form form ≡ form_of line.now) }
{
    if !is_text(line) {
        return Ok(None);
    }
    let content = &line[..bytes_before(line, b'#')];
    content_form(alloc, past_blanks(content))
}

fn is_text(line: &[u8]) -> bool
    ensures { result ≡ is_utf8 line.now }
{
    match std::str::from_utf8(line) {
        Ok(_) => true,
        Err(_) => false,
    }
}
