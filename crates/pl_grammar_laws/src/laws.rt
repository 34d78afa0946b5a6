//! What holds of the grammar, whatever the tokens.

ghost use Rattle.pl_grammar_laws.specs.Laws.{Sound, Complete, Exact, Begun, Ends, Unique, Answered};

/// What holds of the grammar and of the function that reads by it. It runs nothing.
pub fn grammar_laws()
    // What is read derives.
    ensures sound { Sound }
    // What derives is read.
    ensures complete { Complete }
    // Where reading stops, no script goes on.
    ensures exact { Exact }
    // What goes on to a script begins one.
    ensures begun { Begun }
    // Reading never runs out of levels.
    ensures ends { Ends }
    // The tokens of a text have at most one reading.
    ensures unique { Unique }
    // .. and they have one.
    ensures answered { Answered }
{}
