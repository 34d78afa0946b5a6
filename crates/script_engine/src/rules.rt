//! What runs keep by the rules of their programs.
ghost use Rattle.script_engine.specs.Keeping.{ProgramsKeepTheirRules};

/// A law that callers may cite: a run of a text's program, from a store that fits the program and on arguments of the types of the
/// context's variables, leaves a store that fits it, and what it gives is of the result's type there.
pub fn programs_keep_their_rules()
    ensures { ProgramsKeepTheirRules }
{}
