//! The periods of a text's beginnings, and how far a search may skip by them: string searching in linear time, with a
//! table of a fixed size, by the highly repeating prefixes of the part (Crochemore and Rytter).
ghost use Rattle.std.specs.Prelude.{◌≡◌, ℕ, ◌+◌, ◌*◌, ◌<◌, ◌≤◌, length, IfNone, IfSome, IsTrue, slice_index};
ghost use Rattle.pl_units.specs.Periods.{unit_of, IsPeriod, IsLeastPeriod, IsTable, AreRowsBelow, ArePeriods, CoversUpTo, IsExtended, IsSkip, IsTableOf};

use crate::direction::{Direction, matched};

const ROWS: usize = 64;

/// Rows of a period of a text and the end up to which it is one, periods rising. Only the first `count` rows are meant.
#[derive(Drop)]
pub struct PeriodTable {
    periods: [usize; ROWS],
    ends: [usize; ROWS],
    count: usize,
}

/// How far a search may go on, and how many units are known to match there.
#[derive(Clone, Copy)]
pub struct Skip {
    /// How many places.
    pub by: usize,
    /// How many of the part's first units match at the new place.
    pub known: usize,
}

impl PeriodTable {
    fn new() -> PeriodTable
        ensures { result.count ≡ 0 }
    {
        PeriodTable {
            periods: [0; ROWS],
            ends: [0; ROWS],
            count: 0,
        }
    }

    // Whether the last row's end is this end or one beyond it.
    fn reaches(&self, end: usize) -> bool
        requires { IsTable self.now }
        ensures { IsTrue result → (row : ℕ) × (row < self.now.count) × (end ≤ slice_index self.now.ends row) }
    {
        self.count > 0 && end <= self.ends[self.count - 1]
    }

    // The table with one more row; `None` where it is full.
    fn with_row(self, period: usize, end: usize) -> Option<PeriodTable>
        requires table { IsTable self }
        requires below { AreRowsBelow self period }
        ensures extended { IfSome result (IsExtended self period end) }
        ensures full { IfNone result (self.count ≡ 64) }
    {
        if self.count == ROWS {
            return None;
        }
        let mut table = self;
        table.periods[table.count] = period;
        table.ends[table.count] = end;
        table.count += 1;
        Some(table)
    }

    // The table that knows of a period up to its end too; `None` where it is full. A beginning that is shorter than three
    // periods needs no row, nor does one that the last row reaches.
    fn extended(self, period: usize, end: usize) -> Option<PeriodTable>
        requires table { IsTable self }
        requires below { AreRowsBelow self period }
        ensures { IfSome result (IsExtended self period end) }
    {
        if period > end / 3 || self.reaches(end) {
            return Some(self);
        }
        self.with_row(period, end)
    }

    // The least period of the first `matched` units of the text that the table is of, if it is at most a third of them.
    fn least_period(&self, matched: usize) -> Option<usize>
        requires { IsTable self.now }
        ensures found { IfSome result (λ period. (x : ℕ → ℕ) → ArePeriods x self.now → CoversUpTo x self.now matched
            → IsLeastPeriod x matched period) }
        ensures none { IfNone result ((x : ℕ → ℕ) → CoversUpTo x self.now matched
            → (period : ℕ) → IsPeriod x matched period → matched < 3 * period) }
        ensures third { IfSome result (λ period. 3 * period ≤ matched) }
    {
        for row in 0..self.count {
            if self.periods[row] > matched / 3 {
                return None;
            }
            if matched <= self.ends[row] {
                return Some(self.periods[row]);
            }
        }
        None
    }

    /// How far a search may go on from a place where the first `matched` units of the part match and no more: by their
    /// least period, or by a third of them where that is longer. No place between can be one of a match.
    pub fn skip(&self, matched: usize) -> Skip
        requires { IsTable self.now }
        ensures { (x : ℕ → ℕ) → ArePeriods x self.now → CoversUpTo x self.now matched
            → IsSkip x matched result.by result.known }
    {
        match self.least_period(matched) {
            Some(period) => Skip {
                by: period,
                known: matched - period,
            },
            None => Skip {
                by: matched / 3 + 1,
                known: 0,
            },
        }
    }
}

/// The table of a part's beginnings, in time that is linear in its length: the part is searched for in itself, by the table as
/// far as it is made. It is `None` where the table is full, and a search then goes place by place. That never comes, since
/// each row's period is at least twice the one before it; this is not proved, and no answer rests on it.
pub fn table_of(part: &[u16], direction: Direction) -> Option<PeriodTable>
    ensures { IfSome result (λ table. IsTableOf (unit_of direction part.now) (length part.now) table) }
{
    let mut table = PeriodTable::new();
    let mut place = 1;
    let mut known = 0;
    while place <= part.len() / 3 {
        let count = matched(part, part, direction, place, known);
        table = table.extended(place, place + count)?;
        if place + count == part.len() {
            return Some(table);
        }
        let skip = table.skip(count);
        place += skip.by;
        known = skip.known;
    }
    Some(table)
}
