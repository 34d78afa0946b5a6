//! The trap lines of a function.
ghost use Rattle.compiler_relation.specs.Placed.{CatchesCover};

use pl_types::name_laws;

/// Where the trap lines of a function are those of its body too, what is thrown at each line goes to the handlers of its part.
pub fn covering_laws()
    ensures { CatchesCover }
{
    name_laws();
}
