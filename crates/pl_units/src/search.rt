//! Where one text stands in another: the first place and the last.
ghost use Rattle.std.specs.Prelude.{◌≡◌, ◌+◌, ◌<◌, ◌≤◌, ◌↔◌, ℕ, IsTrue, IfNone, IfSome, length};
ghost use Rattle.pl_units.specs.Periods.{unit_of, IsTableOf, Matches, IsFirstMatch};
ghost use Rattle.pl_units.specs.Places.{StandsAt, IsFirstPlace, IsLastPlace, first_place};

use crate::direction::{Direction, matched};
use crate::periods::{PeriodTable, table_of};

// Parts of at most so many units are searched place by place.
const SHORT_PART: usize = 4;

/// The least place at or after `from` at which the part stands in these units, or `None` if there is none; as
/// [`UText::find`](crate::UText::find), for units that no text owns. It takes no memory.
pub fn find_units(text: &[u16], part: &[u16], from: usize) -> Option<usize>
    ensures { result ≡ first_place text.now part.now from }
{
    find_in(text, part, from)
}

/// The least place at or after `from` at which the part stands, in time that is linear in both lengths.
pub fn find_in(text: &[u16], part: &[u16], from: usize) -> Option<usize>
    ensures found { IfSome result (IsFirstPlace text.now part.now from) }
    ensures none { IfNone result ((place : ℕ) → from ≤ place → ¬ StandsAt text.now part.now place) }
{
    match table_for(part, Direction::Forward) {
        Some(table) => search(text, part, Direction::Forward, from, &table),
        None => find_by_place(text, part, from),
    }
}

/// The greatest place at which the part stands, in time that is linear in both lengths.
pub fn rfind_in(text: &[u16], part: &[u16]) -> Option<usize>
    ensures found { IfSome result (IsLastPlace text.now part.now) }
    ensures none { IfNone result ((place : ℕ) → ¬ StandsAt text.now part.now place) }
{
    match table_for(part, Direction::Backward) {
        Some(table) => {
            let end = search(text, part, Direction::Backward, 0, &table)?;
            Some(text.len() - part.len() - end)
        }
        None => rfind_by_place(text, part),
    }
}

// The table that a search for the part goes by, or `None` where it goes by place: for a short part, and where the table is
// full.
fn table_for(part: &[u16], direction: Direction) -> Option<PeriodTable>
    ensures { IfSome result (λ table. IsTableOf (unit_of direction part.now) (length part.now) table) }
{
    if part.len() <= SHORT_PART {
        return None;
    }
    table_of(part, direction)
}

// The least number of a place, counted from the direction's end, at or after `from` at which the part stands. Its time is
// linear in both lengths.
fn search(
    text: &[u16],
    part: &[u16],
    direction: Direction,
    from: usize,
    table: &PeriodTable,
) -> Option<usize>
    requires { IsTableOf (unit_of direction part.now) (length part.now) table.now }
    ensures found { IfSome result (λ place. IsFirstMatch direction text.now part.now from place) }
    ensures none { IfNone result ((place : ℕ) → from ≤ place → ¬ Matches direction text.now part.now place) }
{
    let places = place_count(text, part);
    let mut place = from;
    let mut known = 0;
    while place < places {
        let count = matched(text, part, direction, place, known);
        if count == part.len() {
            return Some(place);
        }
        let skip = table.skip(count);
        place += skip.by;
        known = skip.known;
    }
    None
}

// The same as `find_in`, place by place: in the time of the product of both lengths at worst.
fn find_by_place(text: &[u16], part: &[u16], from: usize) -> Option<usize>
    ensures found { IfSome result (IsFirstPlace text.now part.now from) }
    ensures none { IfNone result ((place : ℕ) → from ≤ place → ¬ StandsAt text.now part.now place) }
{
    for place in from..place_count(text, part) {
        if stands_at(text, part, place) {
            return Some(place);
        }
    }
    None
}

// The same as `rfind_in`, place by place.
fn rfind_by_place(text: &[u16], part: &[u16]) -> Option<usize>
    ensures found { IfSome result (IsLastPlace text.now part.now) }
    ensures none { IfNone result ((place : ℕ) → ¬ StandsAt text.now part.now place) }
{
    for place in (0..place_count(text, part)).rev() {
        if stands_at(text, part, place) {
            return Some(place);
        }
    }
    None
}

/// Whether the part stands at a place.
pub fn stands_in(text: &[u16], part: &[u16], place: usize) -> bool
    ensures { IsTrue result ↔ StandsAt text.now part.now place }
{
    if place < place_count(text, part) {
        stands_at(text, part, place)
    } else {
        false
    }
}

// How many places leave room for the part in the text.
fn place_count(text: &[u16], part: &[u16]) -> usize
    ensures { (place : ℕ) → (place < result) ↔ (place + length part.now ≤ length text.now) }
{
    if part.len() > text.len() {
        return 0;
    }
    text.len() - part.len() + 1
}

// Whether the part stands at a place that leaves room for it.
fn stands_at(text: &[u16], part: &[u16], place: usize) -> bool
    requires { place + length part.now ≤ length text.now }
    ensures { IsTrue result ↔ StandsAt text.now part.now place }
{
    &text[place..place + part.len()] == part
}
