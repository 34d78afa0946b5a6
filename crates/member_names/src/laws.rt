//! What holds of the names of members.
ghost use Rattle.member_names.specs.Names.{TextsName, TextsHaveForms};

/// The text of a member names that member in code, under every list that allows it.
pub fn names_of_members()
    ensures names { TextsName }
    ensures forms { TextsHaveForms }
{}
