//! Laws on what members keep, and on pieces of texts.
ghost use Rattle.api_text.specs.Laws.{MembersKeepFit, PiecesJoin, ReplacedJoins, CutsEnd};

/// A law that callers may cite: where the heap and the arguments fit a program or a code, what comes of a member fits it too.
pub fn members_keep_fit()
    ensures { MembersKeepFit }
{}

/// Laws of the pieces of a text: they join to the text, what is replaced stands between them, and there are no more cuts than
/// units.
pub fn piece_laws()
    ensures join { PiecesJoin }
    ensures replaced { ReplacedJoins }
    ensures end { CutsEnd }
{}
