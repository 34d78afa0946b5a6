//! What holds of all members.
ghost use Rattle.member_calls.specs.Laws.{BuiltAct, BuiltAlone, BuiltOwners, BuiltStand, HostStands, MembersKeepFit, MembersLeaveObjects};
ghost use Rattle.member_calls.specs.Types.{MembersGiveTypes};

/// Laws that callers may cite: where the heap and the arguments fit a program or a code, what comes of a member fits it too; and
/// each object is there afterwards, of the same kind.
pub fn members_keep_fit()
    ensures fit { MembersKeepFit }
    ensures objects { MembersLeaveObjects }
{}

/// Laws of the members that are built: what they do is said of them and of the functions of the host alone; of the classes up to
/// StringBuilder, of exceptions and of most containers they are those that the prelude does not have, and of no class is one of the
/// prelude's; and behind the catalogue's members stand the host's functions.
pub fn built_laws()
    ensures act { BuiltAct }
    ensures owners { BuiltOwners }
    ensures alone { BuiltAlone }
    ensures stand { BuiltStand }
    ensures host { HostStands }
{}

/// A law that callers may cite: whatever a member is called with, a result of a primitive type is of it.
pub fn members_give_types()
    ensures { MembersGiveTypes }
{}
