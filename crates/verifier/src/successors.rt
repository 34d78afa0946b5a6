//! The successors of a line, into which what lies on the stack is merged.

ghost use Rattle.std.specs.Prelude.{◌+◌, ◌^◌, ◌<◌, ◌==◌, ◌||◌, false};
ghost use Rattle.verifier.specs.Acts.{MergesInto};
ghost use Rattle.verifier.specs.Meets.{goes_to, turns_to};

use instruction_types::Flow;
use verifier_table::ShapeTable;

/// What lies on the stack is merged into a line.
pub(crate) fn merge_into(table: &mut ShapeTable, line: usize)
    ensures { MergesInto table.old table.new (λ to. to == line) }
{
    table.merge(line)
}

fn merge_into_both(table: &mut ShapeTable, next: usize, line: usize)
    ensures { MergesInto table.old table.new (λ to. (to == next) || (to == line)) }
{
    merge_into(table, next);
    merge_into(table, line)
}

fn merge_nowhere(table: &mut ShapeTable)
    ensures { MergesInto table.old table.new (λ to. false) }
{
    let _table = table;
}

/// What lies on the stack is merged into where the instruction of a line goes on.
pub(crate) fn merge_into_successors(table: &mut ShapeTable, flow: Flow, line: usize)
    requires { line + 1 < 2 ^ 64 }
    ensures { MergesInto table.old table.new (goes_to flow line) }
{
    match flow {
        Flow::GoesOn => merge_into(table, line + 1),
        Flow::Jumps(to) => merge_into(table, to as usize),
        Flow::Branches(to) => merge_into_both(table, line + 1, to as usize),
        Flow::Turns(_) => merge_into(table, line + 1),
        Flow::Ends => merge_nowhere(table),
    }
}

/// What lies on the stack is merged into where an instruction turns back.
pub(crate) fn merge_into_loop_head(table: &mut ShapeTable, flow: Flow)
    ensures { MergesInto table.old table.new (turns_to flow) }
{
    match flow {
        Flow::Turns(to) => merge_into(table, to as usize),
        Flow::GoesOn => merge_nowhere(table),
        Flow::Jumps(_) => merge_nowhere(table),
        Flow::Branches(_) => merge_nowhere(table),
        Flow::Ends => merge_nowhere(table),
    }
}
