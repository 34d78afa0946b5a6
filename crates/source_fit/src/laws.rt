//! That the meaning of a program fits, from its start to its end.
ghost use Rattle.source_fit.specs.Laws.{MainsFit, MeaningsFit};

/// Laws that callers may cite: where the objects fit the program, and the values of the names fit, so does what an expression or a
/// statement comes to: the objects fit the program, those of the start are still there, each of its kind and of its class, or with an
/// interface that it has taken, values name objects that are there, and what is thrown is an exception. So a run of a main script from
/// a store that fits its program leaves one that does.
pub fn source_fits()
    ensures meanings { MeaningsFit }
    ensures mains { MainsFit }
{}
