//! With what the runs of a job start.
ghost use Rattle.job_commands.specs.Starts.{LinesRunTyped, LinesStartWell};

use document_replies::{changes_are_typed, changes_fit};
use script_engine::programs_keep_their_rules;
use search_ctx::{lines_are_typed, lines_fit, params_are_objects};

/// Laws that callers may cite: what a line of a job is bound to fits the job's program and its code, and its arguments are of the types
/// of the context's variables. So a run over it leaves a store that fits the program, and gives a value of the context's result type.
pub fn lines_start_well()
    ensures starts { LinesStartWell }
    ensures runs { LinesRunTyped }
{
    lines_fit();
    lines_are_typed();
    changes_fit();
    changes_are_typed();
    params_are_objects();
    programs_keep_their_rules();
}
