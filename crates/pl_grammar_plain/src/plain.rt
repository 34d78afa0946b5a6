//! What the rows of the grammar derive without conditions on the tokens ahead.

ghost use Rattle.pl_grammar_plain.specs.Plain.{NothingBarred, NothingAdded};
ghost use Rattle.pl_grammar_plain.specs.PlainParses.{BeginningsGoOn, SameReadings, OneReading, SomeReading};

use pl_grammar_laws::grammar_laws;

/// What holds of the plain grammar. It runs nothing.
pub fn plain_laws()
    // The conditions on the tokens ahead bar no script that the rows derive.
    ensures barred { NothingBarred }
    // What meets them is derived by the rows, with the same tree.
    ensures added { NothingAdded }
    // They bar no beginning of a script, and each beginning goes on to one.
    ensures begun { BeginningsGoOn }
    // The tokens of a text are the same script with them, or are refused at the same place.
    ensures same { SameReadings }
    // The tokens of a text have at most one reading.
    ensures unique { OneReading }
    // .. and they have one.
    ensures answered { SomeReading }
{
    grammar_laws();
}
