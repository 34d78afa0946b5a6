//! What operators, casts, members and `throw` keep of a world.
ghost use Rattle.run_fit.specs.Laws.{BeginningsFit, CastsFit, ConcatenationFits, EqualityFits, MembersFit, OutcomesFit, ThrowingFits};

/// Laws that callers may cite: a world whose objects fit is a beginning, and what operators, casts, members and `throw` come to in a
/// world of a run leaves a world of that run, with a value or an exception that is there.
pub fn effects_fit()
    ensures beginnings { BeginningsFit }
    ensures outcomes { OutcomesFit }
    ensures casts { CastsFit }
    ensures concatenation { ConcatenationFits }
    ensures equality { EqualityFits }
    ensures members { MembersFit }
    ensures throwing { ThrowingFits }
{}
