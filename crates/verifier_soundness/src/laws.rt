//! What holds of every run of verified code.
ghost use Rattle.verifier_soundness.specs.Laws.{StartsFit, NeverStuck, RunsEnd, StartsEnd, FramesFit, FramesAreWithin, NoOtherRows};

/// A run of a script's code and a prelude's, both verified, on arguments of the kinds of the script's is never stuck, and ends within a
/// bound that is known before it runs, where each instruction of the two has a row. No frame of it has more words than the verifier has
/// found.
pub fn verified_run_laws()
    ensures starts { StartsFit }
    ensures never_stuck { NeverStuck }
    ensures ends { RunsEnd }
    ensures starts_end { StartsEnd }
    ensures frames { FramesFit }
    ensures within { FramesAreWithin }
    ensures no_other_rows { NoOtherRows }
{}
