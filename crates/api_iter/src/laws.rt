//! Laws on what members keep.
ghost use Rattle.api_iter.specs.Laws.{MembersKeepFit};

/// A law that callers may cite: where the heap and the arguments fit a program or a code, what comes of a member fits it too.
pub fn members_keep_fit()
    ensures { MembersKeepFit }
{}
