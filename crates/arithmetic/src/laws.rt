//! What holds of the arithmetic of numbers as a whole.

ghost use Rattle.arithmetic.specs.Laws.{Divides, StaysInRange, NoneAtZero};

/// A law, which runs nothing: at either width a quotient and a remainder give the dividend back, every result is in range, and
/// there is no quotient exactly where the divisor is zero.
pub fn arithmetic_laws()
    ensures division { Divides }
    ensures range { StaysInRange }
    ensures zero { NoneAtZero }
{}
