//! What holds of every run of code.
ghost use Rattle.machine.specs.Laws.{ComesToItsEnd, TurnsAdd, TurnsFit};

/// How a run is cut into turns makes no difference, and it comes to the end that its code comes to. Where the heap and the words fit, they
/// do behind each turn.
pub fn activation_laws()
    ensures turns { TurnsAdd }
    ensures ends { ComesToItsEnd }
    ensures fit { TurnsFit }
{}
