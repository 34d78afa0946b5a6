//! Laws on what iterators keep.
ghost use Rattle.container_parts.specs.Laws.{IterateFits, NextFits, RemoveFits};

/// Laws that callers may cite: where the heap fits a program or a code, so does what is left after a step of an iterator, and what
/// is given or thrown fits it.
pub fn iterators_keep_fit()
    ensures next { NextFits }
    ensures remove { RemoveFits }
    ensures iterate { IterateFits }
{}
