//! What holds of every program that is well formed, and of its code.
ghost use Rattle.compiled_outcome.specs.Outcome.{CodeEndsAsPrograms};

use compiler_relation::compiler_laws;

/// A well-formed program has one end beside a well-formed prelude, at a bound that is known before it runs, and its code beside the
/// prelude's comes to that end with a next step at each moment before, whatever the functions of the host give.
pub fn programs_end()
    ensures ends { CodeEndsAsPrograms }
{
    compiler_laws();
}
