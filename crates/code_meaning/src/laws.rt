//! What holds of every run of code.
ghost use Rattle.code_meaning.specs.Laws.{RunsOn, EndsOnce};

/// Steps add up, and a run that has ended stays as it has ended.
pub fn code_laws()
    ensures steps { RunsOn }
    ensures ends { EndsOnce }
{}
