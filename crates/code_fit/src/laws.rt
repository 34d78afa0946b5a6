//! That a run of code fits, from its start to its end.
ghost use Rattle.code_fit.specs.Laws.{CodesFit, RunsFit, StartsFit, StepsFit};

/// Laws that callers may cite: where the objects at the start fit the codes, and the words of the arguments fit, so does each moment of
/// the run, and its end: the objects fit the codes, those of the start are still there, each of its kind and of its class, or with an
/// interface that it has taken, words name objects that are there, and what is thrown is an exception.
pub fn code_fits()
    ensures starts { StartsFit }
    ensures steps { StepsFit }
    ensures runs { RunsFit }
    ensures codes { CodesFit }
{}
