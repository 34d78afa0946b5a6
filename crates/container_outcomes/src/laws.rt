//! Laws on what outcomes keep.
ghost use Rattle.container_outcomes.specs.Laws.{OutcomesKeepFit};

/// A law that callers may cite: where the heap and an outcome fit a program or a code, what is left and given fits it too.
pub fn outcomes_keep_fit()
    ensures { OutcomesKeepFit }
{}
