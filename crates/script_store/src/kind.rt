//! For which context a script is stored.

/// The context for which a script is stored, and by whose names and result it is compiled.
#[derive(Clone, Copy, Debug, PartialEq, Eq, Hash)]
pub enum ServeKind {
    /// Whether a document is kept.
    Filter,
    /// The score of a document.
    Score,
    /// A field of a document.
    Field,
    /// What becomes of a document that is stored.
    Update,
    /// What becomes of a document before it is stored.
    Ingest,
}
