//! What leads a text.

use crate::Kind;

/// What leads a text: the longest that its first bytes spell.
#[derive(Clone, Copy, Debug, PartialEq, Eq)]
pub enum Found {
    /// They spell nothing.
    Nothing,
    /// They spell what the language leaves out.
    Foreign,
    /// So many of them are a blank or a comment.
    Blank(usize),
    /// So many of them are a token of this kind.
    Leading(Kind, usize),
}
