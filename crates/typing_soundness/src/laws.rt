//! What holds of every program that typing gives.
ghost use Rattle.typing_soundness.specs.Laws.{TypingIsSound, TypingKeepsTypes, TypingReaches};

/// A program that typing gives is well formed, and each of its statements is reached.
pub fn typed_programs_are_well_formed()
    ensures formed { TypingIsSound }
    ensures reached { TypingReaches }
{}

/// In a program that typing gives each value is of its type: from a store that fits it and names with values of their types, an expression
/// comes to a value of its static type in the store that it leaves, and a statement keeps the types of the names.
pub fn typed_programs_keep_types()
    ensures each { TypingKeepsTypes }
{}
