//! Laws on the limits of walks.
ghost use Rattle.std.specs.Prelude.{◌≡◌};
ghost use Rattle.value_walks.specs.declared.TheConstants.{LEVELS, VISITS};
ghost use Rattle.value_walks.specs.Equality.{EntriesCompareAsObjects};

/// Laws that callers may cite: the limits of walks, as numbers.
pub fn walk_limits()
    ensures levels { LEVELS ≡ 100 }
    ensures visits { VISITS ≡ 1000000 }
{}

/// A law that callers may cite: an entry that is no object is compared with another as one that is an object would be.
#[tactic(auto, using(crate::proofs::Stepping::entries_compare_as_objects))]
pub fn entries_compare_as_objects()
    ensures { EntriesCompareAsObjects }
{}
