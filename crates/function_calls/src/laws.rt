//! What holds of calls that a function value may come into.
ghost use Rattle.function_calls.specs.Laws.{CallsAreConfined, CallsAreTaken, CallsFit, CallsLeave, ChainsEnd};

/// Laws that callers may cite: nothing is called but what the lists allow, and is built; a function that is called is there, and takes the
/// values; where the store and what is handed in fit a program or a code whose lambdas the texts have, so does what comes of a call; and
/// each object is there afterwards, with an interface that it may have taken.
pub fn function_calls_laws()
    ensures confined { CallsAreConfined }
    ensures takes { CallsAreTaken }
    ensures fit { CallsFit }
    ensures leave { CallsLeave }
{}

/// A law that callers may cite: a function value with at most two arguments, which no interface's method has more of, comes to the same by
/// a longer chain of references.
pub fn chains_end()
    ensures { ChainsEnd }
{}
