//! Units of a text, counted from either end.
ghost use Rattle.std.specs.Prelude.{◌≡◌, ◌+◌, ◌<◌, ◌≤◌, ◌≢◌, length};
ghost use Rattle.pl_units.specs.Periods.{unit_of, Agree};

/// The end of a text from which its units are counted.
#[derive(Clone, Copy)]
pub enum Direction {
    /// From the first unit on.
    Forward,
    /// From the last unit back.
    Backward,
}

// The unit with a number, counted from 0 at the direction's end.
fn unit_at(text: &[u16], direction: Direction, number: usize) -> u16
    requires { number < length text.now }
    ensures { result ≡ unit_of direction text.now number }
{
    match direction {
        Direction::Forward => text[number],
        Direction::Backward => text[text.len() - 1 - number],
    }
}

/// How many of the part's first units are those of the text from a place on, where `known` of them are known to be.
pub fn matched(
    text: &[u16],
    part: &[u16],
    direction: Direction,
    place: usize,
    known: usize,
) -> usize
    requires in_text { place + known ≤ length text.now }
    requires in_part { known ≤ length part.now }
    requires agree { Agree (unit_of direction part.now) (unit_of direction text.now) place known }
    ensures in_text { place + result ≤ length text.now }
    ensures in_part { result ≤ length part.now }
    ensures agree { Agree (unit_of direction part.now) (unit_of direction text.now) place result }
    ensures differ { result < length part.now → place + result < length text.now
        → unit_of direction part.now result ≢ unit_of direction text.now (place + result) }
{
    let end = part.len().min(text.len() - place);
    for number in known..end {
        if unit_at(part, direction, number) != unit_at(text, direction, place + number) {
            return number;
        }
    }
    end
}
