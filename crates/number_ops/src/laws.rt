//! Laws on what operators and members keep.
ghost use Rattle.number_ops.specs.Relations.{EqualityGivesFlags, EqualityMakesNothing, CastsGivePrimitives, CastsToPrimitivesMakeNothing, ThrowsAlone};
ghost use Rattle.number_ops.specs.Laws.{OperatorsKeepFit, ConcatenationKeepsFit, CastsKeepFit, MembersKeepFit};

/// Laws that callers may cite: where the heap, and for a cast the value, fit a program or a code, what comes of an operator, a
/// cast or a member fits it too.
pub fn operators_keep_fit()
    ensures operators { OperatorsKeepFit }
    ensures concatenation { ConcatenationKeepsFit }
    ensures casts { CastsKeepFit }
    ensures members { MembersKeepFit }
{}

/// Laws that callers may cite: `==` gives a truth value if anything, a cast to a primitive type a value of it, and `throw` nothing.
pub fn relation_laws()
    ensures flags { EqualityGivesFlags }
    ensures makes_nothing { EqualityMakesNothing }
    ensures primitives { CastsGivePrimitives }
    ensures casts_make_nothing { CastsToPrimitivesMakeNothing }
    ensures throws { ThrowsAlone }
{}
