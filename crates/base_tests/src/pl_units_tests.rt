//! Texts as UTF-16 units, and numbers as texts, against values of the Unicode standard and of the Java Language Specification.

use pl_units::{UText, decimal, order_is_total, parse_int, parse_long, utf8_is_kept};
use std::alloc::{AllocError, Global};
use std::cmp::Ordering;
use std::test::Fail;

/// UTF-8 and its units.
const SPELLED: [(&str, &[u16]); 6] = [
    ("", &[]),
    ("az", &[97, 122]),
    ("\u{7F}\u{80}\u{7FF}", &[0x7F, 0x80, 0x7FF]),
    (
        "\u{800}\u{D7FF}\u{E000}\u{FFFF}",
        &[0x800, 0xD7FF, 0xE000, 0xFFFF],
    ),
    ("\u{10000}\u{10FFFF}", &[0xD800, 0xDC00, 0xDBFF, 0xDFFF]),
    ("a\u{1F600}\u{20AC}", &[97, 0xD83D, 0xDE00, 0x20AC]),
];

fn is_spelled(alloc: Global, utf8: &str, units: &[u16]) -> Result<bool, AllocError> {
    let made = UText::from_utf8(alloc, utf8)?;
    let written = made.to_utf8()?;
    utf8_is_kept(utf8);
    let whole = made.len() == units.len() && made.is_empty() == utf8.is_empty();
    Ok(whole && made.units() == units && written.as_str() == utf8)
}

#[test]
fn utf8_to_units_and_back(rt: HostRuntime) -> Result<(), Fail> {
    for (utf8, units) in &SPELLED {
        let spelled = is_spelled(rt.alloc(), *utf8, *units)?;
        assert!(rt; spelled, "{utf8}");
    }
    Ok(())
}

/// Units and the UTF-8 that they are written as.
const WRITTEN: [(&[u16], &str); 10] = [
    (&[0xD800], "\u{FFFD}"),
    (&[0xDFFF], "\u{FFFD}"),
    (&[0xD83D, 97], "\u{FFFD}a"),
    (&[0xDE00, 97], "\u{FFFD}a"),
    (&[97, 0xD83D, 98], "a\u{FFFD}b"),
    (&[97, 0xDE00, 98], "a\u{FFFD}b"),
    (&[97, 0xD83D], "a\u{FFFD}"),
    (&[97, 0xDE00], "a\u{FFFD}"),
    (&[0xDE00, 0xD83D], "\u{FFFD}\u{FFFD}"),
    (
        &[0xD83D, 0xD83D, 0xDE00, 0xDE00],
        "\u{FFFD}\u{1F600}\u{FFFD}",
    ),
];

fn is_written(alloc: Global, units: &[u16], utf8: &str) -> Result<bool, AllocError> {
    let made = UText::from_slice(alloc, units)?;
    let written = made.to_utf8()?;
    Ok(written.as_str() == utf8)
}

#[test]
fn unpaired_surrogates(rt: HostRuntime) -> Result<(), Fail> {
    for (units, utf8) in &WRITTEN {
        let written = is_written(rt.alloc(), *units, *utf8)?;
        assert!(rt; written, "{utf8}");
    }
    Ok(())
}

/// Parts of `a`, a pair of surrogates and `b`.
const PARTS: [(usize, usize, &str); 6] = [
    (0, 0, ""),
    (0, 2, "a\u{FFFD}"),
    (1, 3, "\u{1F600}"),
    (2, 4, "\u{FFFD}b"),
    (0, 4, "a\u{1F600}b"),
    (4, 4, ""),
];

fn is_part(whole: &UText, from: usize, to: usize, utf8: &str) -> Result<bool, AllocError> {
    if from > to || to > whole.len() {
        return Ok(false);
    }
    let part = whole.sub(from, to)?.to_utf8()?;
    let joined = whole.sub(0, from)?.joined(&whole.sub(from, whole.len())?)?;
    Ok(part.as_str() == utf8 && joined.is(whole))
}

#[test]
fn parts(rt: HostRuntime) -> Result<(), Fail> {
    let whole = UText::from_utf8(rt.alloc(), "a\u{1F600}b")?;
    for (from, to, utf8) in &PARTS {
        let part = is_part(&whole, *from, *to, *utf8)?;
        assert!(rt; part, "{from} to {to}");
    }
    let again = UText::from_slice(rt.alloc(), whole.share()?.units())?;
    assert!(rt; again.is(&whole) && 2 < again.len());
    assert!(rt; again.at(2) == 0xDE00);
    let none = UText::empty(rt.alloc());
    assert!(rt; none.is_empty() && none.share()?.is_empty() && none.is(&whole.sub(0, 0)?));
    Ok(())
}

/// A text of so many units is shared as often as here in no time, since no unit is copied.
#[test]
fn shares(rt: HostRuntime) -> Result<(), Fail> {
    let mut units = Vec::new(rt.alloc());
    units.resize(1_000_000, 97)?;
    let whole = UText::from_units(units)?;
    let mut shared = whole.share()?;
    for _ in 0..100_000 {
        shared = shared.share()?;
    }
    assert!(rt; shared.len() == 1_000_000 && shared.is(&whole));
    Ok(())
}

/// A text, a part, a start, and the first and the last place.
const PLACES: [(&str, &str, usize, Option<usize>, Option<usize>); 35] = [
    ("", "", 0, Some(0), Some(0)),
    ("", "", 1, None, Some(0)),
    ("abc", "", 0, Some(0), Some(3)),
    ("abc", "", 2, Some(2), Some(3)),
    ("abc", "", 3, Some(3), Some(3)),
    ("abc", "", 4, None, Some(3)),
    ("abc", "x", 0, None, None),
    ("abc", "abcd", 0, None, None),
    ("abc", "abc", 0, Some(0), Some(0)),
    ("abc", "abc", 1, None, Some(0)),
    ("abcabc", "bc", 0, Some(1), Some(4)),
    ("abcabc", "bc", 1, Some(1), Some(4)),
    ("abcabc", "bc", 2, Some(4), Some(4)),
    ("abcabc", "bc", 5, None, Some(4)),
    ("aaaa", "aa", 0, Some(0), Some(2)),
    ("aaaa", "aa", 1, Some(1), Some(2)),
    ("aab", "ab", 0, Some(1), Some(1)),
    ("\u{1F600}b", "b", 0, Some(2), Some(2)),
    ("aaaaaaab", "aaaab", 0, Some(3), Some(3)),
    ("aaaaaaaaaa", "aaaaab", 0, None, None),
    ("baaaaaaaaa", "baaaaa", 0, Some(0), Some(0)),
    ("aaaaaaaaaa", "aaaaaa", 3, Some(3), Some(4)),
    ("aaaaaaaaaa", "aaaaaa", 5, None, Some(4)),
    ("abababababac", "ababac", 0, Some(6), Some(6)),
    ("ababababab", "ababab", 1, Some(2), Some(4)),
    ("ababababab", "bababb", 0, None, None),
    (
        "abaababaabaababaababaabaababaabaab",
        "abaababaabaababaababa",
        0,
        Some(0),
        Some(0),
    ),
    (
        "abaababaabaababaababaabaababaabaab",
        "abaababaabaababaababa",
        1,
        None,
        Some(0),
    ),
    (
        "abaababaabaababaababaabaababaabaab",
        "abaababaabaababaababab",
        0,
        None,
        None,
    ),
    (
        "abaababaabaababaababaabaababaabaab",
        "abaababaabaababaababaabaababaabaab",
        0,
        Some(0),
        Some(0),
    ),
    (
        "abaababaabaababaababaabaababaabaab",
        "abaababaabaababaababaabaababaabaab",
        34,
        None,
        Some(0),
    ),
    (
        "abaababaabaababaababaabaababaabaab",
        "",
        34,
        Some(34),
        Some(34),
    ),
    (
        "aaabaaabaaabaaabaaabaaab",
        "aaabaaabaaabaaaa",
        0,
        None,
        None,
    ),
    (
        "aaabaaabaaabaaabaaabaaabaaaa",
        "aaabaaabaaabaaaa",
        0,
        Some(12),
        Some(12),
    ),
    (
        "aaaabaaabaaabaaabaaabaaab",
        "aaabaaabaaabaaab",
        2,
        Some(5),
        Some(9),
    ),
];

fn stands(
    alloc: Global,
    whole: &str,
    part: &str,
    from: usize,
) -> Result<(Option<usize>, Option<usize>, bool), AllocError> {
    let whole = UText::from_utf8(alloc, whole)?;
    let part = UText::from_utf8(alloc, part)?;
    let here = whole.stands_at(&part, from);
    Ok((whole.find(&part, from), whole.rfind(&part), here))
}

#[test]
fn places(rt: HostRuntime) -> Result<(), Fail> {
    for (whole, part, from, first, last) in &PLACES {
        let (found, found_last, here) = stands(rt.alloc(), *whole, *part, *from)?;
        assert!(rt; found == *first && found_last == *last, "{part} in {whole}");
        assert!(rt;
            here == (*first == Some(*from)),
            "{part} in {whole} at {from}"
        );
    }
    Ok(())
}

const ORDER: [(&str, &str, Ordering); 7] = [
    ("", "", Ordering::Equal),
    ("", "a", Ordering::Less),
    ("ab", "ab", Ordering::Equal),
    ("ab", "a", Ordering::Greater),
    ("b", "ab", Ordering::Greater),
    ("Z", "a", Ordering::Less),
    ("\u{FFFF}", "\u{10000}", Ordering::Greater),
];

#[test]
fn order(rt: HostRuntime) -> Result<(), Fail> {
    order_is_total();
    for (one, other, wanted) in &ORDER {
        let one = UText::from_utf8(rt.alloc(), *one)?;
        let other = UText::from_utf8(rt.alloc(), *other)?;
        let order = one.compare(&other);
        assert!(rt; order == *wanted && one.is(&other) == (*wanted == Ordering::Equal));
    }
    Ok(())
}

const NUMBERS: [(&str, Option<i32>, Option<i64>); 19] = [
    ("", None, None),
    ("+", None, None),
    ("-", None, None),
    ("+-1", None, None),
    ("1 ", None, None),
    ("1.0", None, None),
    ("\u{661}", None, None),
    ("+5", Some(5), Some(5)),
    ("-0", Some(0), Some(0)),
    ("007", Some(7), Some(7)),
    ("2147483647", Some(2147483647), Some(2147483647)),
    ("2147483648", None, Some(2147483648)),
    ("-2147483648", Some(-2147483648), Some(-2147483648)),
    ("-2147483649", None, Some(-2147483649)),
    ("9223372036854775807", None, Some(i64::MAX)),
    ("9223372036854775808", None, None),
    ("-9223372036854775808", None, Some(i64::MIN)),
    ("-9223372036854775809", None, None),
    ("18446744073709551617", None, None),
];

#[test]
fn numbers(rt: HostRuntime) -> Result<(), Fail> {
    for (digits, int, long) in &NUMBERS {
        let text = UText::from_utf8(rt.alloc(), *digits)?;
        assert!(rt;
            parse_int(&text) == *int && parse_long(&text) == *long,
            "{digits}"
        );
    }
    Ok(())
}

const DECIMALS: [(i64, &str); 5] = [
    (0, "0"),
    (7, "7"),
    (-10, "-10"),
    (i64::MAX, "9223372036854775807"),
    (i64::MIN, "-9223372036854775808"),
];

#[test]
fn decimals(rt: HostRuntime) -> Result<(), Fail> {
    for (n, digits) in &DECIMALS {
        let written = decimal(rt.alloc(), *n)?.to_utf8()?;
        assert!(rt; written.as_str() == *digits, "{n}");
    }
    Ok(())
}
