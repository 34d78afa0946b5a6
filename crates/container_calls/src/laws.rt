//! What holds of all members of containers.
ghost use Rattle.container_calls.specs.Laws.{BuiltAlone, BuiltOwners, BuiltStand, JoinIsNamed, MembersKeepFit, MembersLeaveObjects, RenewalsLeaveObjects};
ghost use Rattle.container_calls.specs.Types.{MembersGiveTypes};

/// Laws that callers may cite: where the heap and the arguments fit a program or a code, what comes of a member fits it too; and
/// each object is there afterwards, of its kind, or with an interface that it had not. So it is where an object is renewed.
pub fn members_keep_fit()
    ensures fit { MembersKeepFit }
    ensures objects { MembersLeaveObjects }
    ensures renewals { RenewalsLeaveObjects }
{}

/// Laws of the members that are built: of the classes that are built they are those that the prelude does not have, of no class is
/// one of the prelude's, and each stands in the catalogue. And the member that `join` of containers goes to by its number is
/// `String.join`.
pub fn built_laws()
    ensures owners { BuiltOwners }
    ensures alone { BuiltAlone }
    ensures stand { BuiltStand }
    ensures join { JoinIsNamed }
{}

/// A law that callers may cite: whatever a member is called with, a result of a primitive type is of it.
pub fn members_give_types()
    ensures { MembersGiveTypes }
{}
