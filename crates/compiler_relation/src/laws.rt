//! The compiler theorem.
ghost use Rattle.compiler_relation.specs.Correct.{EndsAlike, ProgramsEndAlike};
ghost use Rattle.compiler_relation.specs.Example.{IsExample};

use member_names::names_of_members;
use pl_types::text_laws;

/// Where a program comes to an end at some bound, code of the program comes to the same end, and has a next step at each moment before.
pub fn compiler_laws()
    ensures trees { EndsAlike }
    ensures programs { ProgramsEndAlike }
{
    text_laws();
    names_of_members();
}

/// A small program has the code that one would write by hand.
pub fn small_program()
    ensures { IsExample }
{}
