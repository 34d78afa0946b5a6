//! What holds of all texts and of their programs.
ghost use Rattle.script_engine.specs.Laws.{CodesAreListed, CodesCountOnce, ListedCodesCount, PreludeIsListed, TextsAreAnswered, TextsAreAnsweredOnce, ProgramsAreTyped, ProgramsEnd, ProgramsEndOnce, ProgramsFit};

use compiled_outcome::programs_end;
use compiled_runs::{programs_run, verified_run_laws};
use pl_parser::{each_text_has_one_reading, plain_laws};

/// A text is a program or is refused by one rule, and the run of its program comes to one end, which fits where
/// its start does. What is given is then of the result's type in the store that is left, on arguments of the types of the variables.
pub fn script_laws()
    ensures answered { TextsAreAnswered }
    ensures answered_once { TextsAreAnsweredOnce }
    ensures ends { ProgramsEnd }
    ensures ends_once { ProgramsEndOnce }
    ensures fit { ProgramsFit }
    ensures typed { ProgramsAreTyped }
{
    each_text_has_one_reading();
    plain_laws();
}

/// The code of a script may be listed for its program: no fault is in it, it ends as the program does, and it calls members of the list
/// alone. The prelude's may be listed for the prelude: each of its functions ends as that of the prelude's program does. From one start
/// instructions are counted in one way.
pub fn code_laws()
    ensures listed { CodesAreListed }
    ensures prelude { PreludeIsListed }
    ensures once { CodesCountOnce }
    ensures counted { ListedCodesCount }
{
    programs_end();
    programs_run();
    verified_run_laws();
}
