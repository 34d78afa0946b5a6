//! What holds of the code of every program that is well formed.
ghost use Rattle.compiled_shapes.specs.Laws.{CodeIsWellShaped, CodeBreaksNowhere};

use member_names::names_of_members;

/// Code of a well-formed program, in which each statement is reached, is well shaped under the list by which the program is well
/// formed, so the verifier finds no fault in it.
pub fn code_is_well_shaped()
    ensures shaped { CodeIsWellShaped }
    ensures sound { CodeBreaksNowhere }
{
    names_of_members();
}
