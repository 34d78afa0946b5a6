//! What holds of the runs of the code of every program that is well formed.
ghost use Rattle.compiled_runs.specs.Laws.{CodeHasRows, ProgramsRun};

use compiled_shapes::code_is_well_shaped;
use member_names::names_of_members;

/// Each instruction of the code of a well-formed program has a row, so its runs are never stuck and end within the bound.
pub fn programs_run()
    ensures rows { CodeHasRows }
    ensures ends { ProgramsRun }
{
    names_of_members();
    code_is_well_shaped();
}
