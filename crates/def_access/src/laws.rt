//! What holds of accesses.
ghost use Rattle.def_access.specs.Laws.{AccessesAreConfined, AccessesFit, AccessesLeave};

/// Laws that callers may cite: nothing is called but what the list allows and what is built; where the heap and what is handed in fit a
/// program or a code, so does what comes of an access; and each object is there afterwards, of the same kind.
pub fn def_access_laws()
    ensures confined { AccessesAreConfined }
    ensures fit { AccessesFit }
    ensures leave { AccessesLeave }
{}
