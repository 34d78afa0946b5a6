//! That the meaning of a program keeps the types of values.
ghost use Rattle.source_typing.specs.Laws.{CastsGiveStaticTypes, MeaningsAreTyped, NodesGiveTypes, OperatorsGiveTypes, ResultsAreTyped};

/// Laws that callers may cite: operators whose operands' types are known, and casts, come to values of their types, or throw. And in a
/// well-formed program, from a store that fits the program and names with values of their types, each expression comes to a value of
/// its type in the store that it leaves, which fits the program, each statement keeps the types of the names, and what is thrown is an
/// exception that is there.
pub fn source_keeps_types()
    ensures operators { OperatorsGiveTypes }
    ensures nodes { NodesGiveTypes }
    ensures casts { CastsGiveStaticTypes }
    ensures each { MeaningsAreTyped }
    ensures results { ResultsAreTyped }
{}
