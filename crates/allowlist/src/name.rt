//! Names of members, whole or as those of accessors.

ghost use Rattle.std.specs.Prelude.{◌≡◌, ◌++◌, ◌∷◌};
ghost use Rattle.std.specs.Cmp.Lexicographic.{slice_cmp};
ghost use Rattle.std.specs.Ordering.{nat_cmp};
ghost use Rattle.allowlist.specs.Accessors.{prefix_of, arity_of, capitalized, seen_name};

use std::cmp::Ordering;

/// The members by which a property is read and written.
#[derive(Clone, Copy)]
pub enum Accessor {
    /// `get` before the name, with no argument.
    Get,
    /// `is` before the name, with no argument.
    Is,
    /// `set` before the name, with one argument.
    Set,
}

/// The name of a member.
#[derive(Clone, Copy)]
pub(crate) enum Name<'a> {
    /// The name itself.
    Whole(&'a [u8]),
    /// That of the accessor of a property.
    Of(Accessor, &'a [u8]),
}

/// How many arguments an accessor takes.
pub(crate) fn arity_of(accessor: Accessor) -> u32
    ensures { result ≡ arity_of accessor }
{
    match accessor {
        Accessor::Get => 0,
        Accessor::Is => 0,
        Accessor::Set => 1,
    }
}

fn prefix_of(accessor: Accessor) -> &'static [u8]
    ensures { result.now ≡ prefix_of accessor }
{
    match accessor {
        Accessor::Get => b"get".as_slice(),
        Accessor::Is => b"is".as_slice(),
        Accessor::Set => b"set".as_slice(),
    }
}

/// How a text stands to a name, by their bytes.
pub(crate) fn compare(text: &[u8], name: &Name<'_>) -> Ordering
    ensures { result ≡ slice_cmp nat_cmp text.now (seen_name name.now) }
{
    match name {
        Name::Whole(name) => compare_bytes(text, name),
        Name::Of(accessor, property) => compare_accessor(text, prefix_of(*accessor), property),
    }
}

fn compare_bytes(text: &[u8], other: &[u8]) -> Ordering
    ensures { result ≡ slice_cmp nat_cmp text.now other.now }
{
    text.cmp(&other)
}

/// How a text stands to a prefix and a property in upper case after it.
fn compare_accessor(text: &[u8], prefix: &[u8], property: &[u8]) -> Ordering
    ensures { result ≡ slice_cmp nat_cmp text.now (prefix.now ++ capitalized property.now) }
{
    if text.len() < prefix.len() {
        return compare_bytes(text, prefix);
    }
    let (front, back) = text.split_at(prefix.len());
    compare_bytes(front, prefix).then(compare_capital(back, property))
}

/// How a text stands to a property in upper case.
fn compare_capital(text: &[u8], property: &[u8]) -> Ordering
    ensures { result ≡ slice_cmp nat_cmp text.now (capitalized property.now) }
{
    match property {
        [] => compare_bytes(text, property),
        [first, others @ ..] => compare_after(text, first.to_ascii_uppercase(), others),
    }
}

/// How a text stands to a byte and others after it.
fn compare_after(text: &[u8], first: u8, others: &[u8]) -> Ordering
    ensures { result ≡ slice_cmp nat_cmp text.now (first ∷ others.now) }
{
    match text {
        [] => Ordering::Less,
        [byte, rest @ ..] => byte.cmp(&first).then(compare_bytes(rest, others)),
    }
}
