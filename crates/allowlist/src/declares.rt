//! Whether a line of an allowlist file is that of a member.

ghost use Rattle.std.specs.Prelude.{◌≡◌, ◌==◌, ◌&&◌, not, if◌then◌else◌, map};
ghost use Rattle.std.specs.Str.{bytes_eq};
ghost use Rattle.allowlist.specs.Files.{spells, spells_all, is_word_of, is_augmented, is_constructor, is_field, is_call, declares};
ghost use Rattle.pl_types.specs.Texts.{primitive_word};
ghost use Rattle.allowlist.specs.Seen.{seen_text, seen_form};

use crate::form::Form;
use crate::member::{MemberKind, MemberType, Origin};
use crate::names::is_dotted;
use crate::scan::TypeText;
use pl_types::classes::CLASS_COUNT;
use pl_types::{Primitive, Ty, class_full, class_short, primitive_word};

/// Whether a line is that of a member.
pub(crate) fn declares(form: &Form<'_>, member: &MemberType) -> bool
    ensures { result ≡ declares (seen_form form.now) member.now }
{
    match form {
        Form::Blank => false,
        Form::Opens(_) => false,
        Form::Imports => false,
        Form::Closes => false,
        Form::Makes(params) => makes(member, params.as_slice()),
        Form::Calls(gives, augmented, name, params) => {
            calls(member, gives, *augmented, name, params.as_slice())
        }
        Form::Has(gives, name) => has(member, gives, name),
    }
}

fn makes(member: &MemberType, params: &[TypeText<'_>]) -> bool
    ensures { result ≡ (is_constructor member.now.kind && spells_all member.now.params (map seen_text params.now)) }
{
    let kind = matches!(member.kind, MemberKind::Constructor);
    let spelled = spells_all(member.params.as_slice(), params);
    kind && spelled
}

fn calls(
    member: &MemberType,
    gives: &TypeText<'_>,
    augmented: bool,
    name: &[u8],
    params: &[TypeText<'_>],
) -> bool
    ensures { result ≡ (is_call member.now.kind && bytes_eq member.now.name name.now
        && (if is_augmented member.now.origin then augmented else not augmented)
        && spells member.now.result gives.now.depth gives.now.word.now && spells_all member.now.params (map seen_text params.now)) }
{
    let kind = is_call(member.kind);
    let named = same(member.name.as_str().as_bytes(), name);
    let marked = is_marked(member.origin, augmented);
    let gives = spells(&member.result, gives.depth, gives.word);
    let spelled = spells_all(member.params.as_slice(), params);
    kind && named && marked && gives && spelled
}

fn has(member: &MemberType, gives: &TypeText<'_>, name: &[u8]) -> bool
    ensures { result ≡ (is_field member.now.kind && bytes_eq member.now.name name.now
        && spells member.now.result gives.now.depth gives.now.word.now) }
{
    let kind = matches!(member.kind, MemberKind::Field);
    let named = same(member.name.as_str().as_bytes(), name);
    let gives = spells(&member.result, gives.depth, gives.word);
    kind && named && gives
}

fn is_call(kind: MemberKind) -> bool
    ensures { result ≡ is_call kind }
{
    match kind {
        MemberKind::Static | MemberKind::Instance => true,
        MemberKind::Constructor | MemberKind::Field => false,
    }
}

/// Whether the augmentation word stands where the member has it.
fn is_marked(origin: Origin, augmented: bool) -> bool
    ensures { result ≡ (if is_augmented origin then augmented else not augmented) }
{
    match origin {
        Origin::Augmented | Origin::AugmentedPrelude => augmented,
        Origin::Java | Origin::Prelude => !augmented,
    }
}

pub(crate) fn same(a: &[u8], b: &[u8]) -> bool
    ensures { result ≡ bytes_eq a.now b.now }
{
    a == b
}

fn spells_all(types: &[Ty], texts: &[TypeText<'_>]) -> bool
    ensures { result ≡ spells_all types.now (map seen_text texts.now) }
{
    if types.len() != texts.len() {
        return false;
    }
    for at in 0..types.len() {
        if !spells(&types[at], texts[at].depth, texts[at].word) {
            return false;
        }
    }
    true
}

/// Whether a word with so many `[]` is a type.
fn spells(ty: &Ty, depth: usize, word: &[u8]) -> bool
    ensures { result ≡ spells ty.now depth word.now }
{
    match ty {
        Ty::Void => plain(depth, same(word, b"void".as_slice())),
        Ty::Null => false,
        Ty::Def => plain(depth, same(word, b"def".as_slice())),
        Ty::Prim(primitive) => plain(depth, is_primitive(*primitive, word)),
        Ty::Class(class) => plain(depth, is_word_of(*class, word)),
        Ty::Array(element) => {
            if depth == 0 {
                false
            } else {
                spells(element.get(), depth - 1, word)
            }
        }
    }
}

/// A test of a word that has no `[]`.
fn plain(depth: usize, test: bool) -> bool
    ensures { result ≡ ((depth == 0) && test) }
{
    depth == 0 && test
}

fn is_primitive(primitive: Primitive, word: &[u8]) -> bool
    ensures { result ≡ bytes_eq word.now (primitive_word primitive) }
{
    same(word, primitive_word(primitive).as_bytes())
}

/// Whether a word is a class: its full or its short name, with `$` or `.` before the name of a nested one.
fn is_word_of(class: u32, word: &[u8]) -> bool
    ensures { result ≡ is_word_of class word.now }
{
    if class >= CLASS_COUNT {
        return false;
    }
    let full = class_full(class).as_bytes();
    let short = class_short(class).as_bytes();
    let plain = same(word, full) || same(word, short);
    plain || is_dotted(full, word) || is_dotted(short, word)
}
