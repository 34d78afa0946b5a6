//! What holds of calls whose receiver's class is found when they run.

ghost use Rattle.def_resolve.specs.Laws.{IsOfItsClass, MethodArity, OneMember, SameMember, TakesInterface};

use allowlist::catalogue_laws;
use pl_types::class_laws;

/// The laws that callers may cite.
pub fn resolution_laws()
    ensures same { SameMember }
    ensures one { OneMember }
    ensures class { IsOfItsClass }
    ensures arity { MethodArity }
    ensures takes { TakesInterface }
{
    class_laws();
    catalogue_laws();
}
