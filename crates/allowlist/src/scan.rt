//! Words, marks and types at the front of a line.

ghost use Rattle.std.specs.Prelude.{◌≡◌, ◌≤◌, length, option_map};
ghost use Rattle.std.specs.Option.{option_copied};
ghost use Rattle.std.specs.List.{list_any, prefix_len};
ghost use Rattle.allowlist.specs.Lines.{is_blank, is_word_byte, past_blanks, word_at, is_letter, is_digit, is_joint, joined_after, is_class_name, is_name, class_name_at, name_at, mark_at, brackets_at, type_at};
ghost use Rattle.allowlist.specs.Seen.{seen_pair, seen_counted, seen_typed};

/// A type as a line has it: a word and the number of its `[]`.
#[derive(Clone, Copy)]
pub(crate) struct TypeText<'a> {
    pub word: &'a [u8],
    pub depth: usize,
}

fn is_blank(byte: u8) -> bool
    ensures { result ≡ is_blank byte }
{
    byte == b' ' || byte == b'\t'
}

fn is_word_byte(byte: u8) -> bool
    ensures { result ≡ is_word_byte byte }
{
    (97 <= byte && byte <= 122)
        || (65 <= byte && byte <= 90)
        || (48 <= byte && byte <= 57)
        || byte == b'_'
        || byte == b'$'
        || byte == b'.'
}

/// How many blanks a text begins with.
fn blanks(text: &[u8]) -> usize
    ensures value { result ≡ prefix_len is_blank text.now }
    ensures within { result ≤ length text.now }
{
    for (at, byte) in text.iter().enumerate() {
        if !is_blank(*byte) {
            return at;
        }
    }
    text.len()
}

/// How many bytes of a word a text begins with.
fn word_len(text: &[u8]) -> usize
    ensures value { result ≡ prefix_len is_word_byte text.now }
    ensures within { result ≤ length text.now }
{
    for (at, byte) in text.iter().enumerate() {
        if !is_word_byte(*byte) {
            return at;
        }
    }
    text.len()
}

/// What follows the blanks at the front.
#[tactic(auto, unfolding(crate::specs::Lines::past_blanks))]
pub(crate) fn past_blanks(text: &[u8]) -> &[u8]
    ensures { result.now ≡ past_blanks text.now }
{
    let front = blanks(text);
    &text[front..]
}

/// The word at the front, and what follows it and the blanks after it.
#[tactic(auto, unfolding(crate::specs::Lines::word_at))]
pub(crate) fn word_at(text: &[u8]) -> Option<(&[u8], &[u8])>
    ensures { option_map seen_pair result ≡ word_at text.now }
{
    let len = word_len(text);
    if len == 0 {
        return None;
    }
    Some((&text[..len], past_blanks(&text[len..])))
}

fn is_letter(byte: u8) -> bool
    ensures { result ≡ is_letter byte }
{
    (97 <= byte && byte <= 122) || (65 <= byte && byte <= 90) || byte == b'_'
}

/// What stands between the names in the name of a class.
fn is_joint(byte: u8) -> bool
    ensures { result ≡ is_joint byte }
{
    byte == b'.' || byte == b'$'
}

fn is_digit(byte: u8) -> bool
    ensures { result ≡ is_digit byte }
{
    48 <= byte && byte <= 57
}

/// Whether a name has to begin after a byte. `None` where the byte may not stand there.
fn joined_after(begins: bool, byte: u8) -> Option<bool>
    ensures { result ≡ joined_after begins byte }
{
    if is_letter(byte) {
        return Some(false);
    }
    if begins {
        return None;
    }
    if is_joint(byte) {
        return Some(true);
    }
    if is_digit(byte) { Some(false) } else { None }
}

/// Whether a word is names with `.` or `$` between them, as a class's name is.
pub(crate) fn is_class_name(word: &[u8]) -> bool
    ensures { result ≡ is_class_name word.now }
{
    let mut begins = true;
    for byte in word {
        let Some(next) = joined_after(begins, *byte) else {
            return false;
        };
        begins = next;
    }
    !begins
}

/// Whether a word is one name, as a member's is.
pub(crate) fn is_name(word: &[u8]) -> bool
    ensures { result ≡ is_name word.now }
{
    let named = is_class_name(word);
    let joined = has_joint(word);
    named && !joined
}

fn has_joint(word: &[u8]) -> bool
    ensures { result ≡ list_any is_joint word.now }
{
    word.iter().any(|byte| is_joint(*byte))
}

/// The word at the front that is the name of a class or of a type, and what follows it.
#[tactic(auto, unfolding(crate::specs::Lines::class_name_at))]
pub(crate) fn class_name_at(text: &[u8]) -> Option<(&[u8], &[u8])>
    ensures { option_map seen_pair result ≡ class_name_at text.now }
{
    let (word, rest) = word_at(text)?;
    if is_class_name(word) {
        Some((word, rest))
    } else {
        None
    }
}

/// The word at the front that is the name of a member, and what follows it.
#[tactic(auto, unfolding(crate::specs::Lines::name_at))]
pub(crate) fn name_at(text: &[u8]) -> Option<(&[u8], &[u8])>
    ensures { option_map seen_pair result ≡ name_at text.now }
{
    let (word, rest) = word_at(text)?;
    if is_name(word) {
        Some((word, rest))
    } else {
        None
    }
}

/// What follows one byte and the blanks after it, where the text begins with that byte.
#[tactic(auto, unfolding(crate::specs::Lines::mark_at))]
pub(crate) fn mark_at(text: &[u8], mark: u8) -> Option<&[u8]>
    ensures { option_copied result ≡ mark_at mark text.now }
{
    match text {
        [] => None,
        [first, rest @ ..] => {
            if *first == mark {
                Some(past_blanks(rest))
            } else {
                None
            }
        }
    }
}

/// How many `[]` stand at the front, and what follows. `None` where one is not closed.
pub(crate) fn brackets_at(text: &[u8]) -> Option<(usize, &[u8])>
    ensures { option_map seen_counted result ≡ brackets_at (length text.now) 0 text.now }
{
    let mut rest = text;
    for depth in 0..text.len() {
        let Some(opened) = mark_at(rest, b'[') else {
            return Some((depth, rest));
        };
        let Some(closed) = mark_at(opened, b']') else {
            return None;
        };
        rest = closed;
    }
    Some((text.len(), rest))
}

/// The type at the front, and what follows it.
#[tactic(auto, unfolding(crate::specs::Lines::type_at))]
pub(crate) fn type_at(text: &[u8]) -> Option<(TypeText<'_>, &[u8])>
    ensures { option_map seen_typed result ≡ type_at text.now }
{
    let (word, after) = class_name_at(text)?;
    let (depth, rest) = brackets_at(after)?;
    Some((TypeText { word, depth }, rest))
}
