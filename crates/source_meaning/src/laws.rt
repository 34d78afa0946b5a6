//! What holds of every meaning.
ghost use Rattle.source_meaning.specs.Laws.{StaysAbove};

/// What a program comes to at one bound, it comes to at every greater one.
pub fn meaning_laws()
    ensures { StaysAbove }
{}
