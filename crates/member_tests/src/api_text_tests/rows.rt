//! Values and answers as rows write them.

/// An argument.
#[derive(Clone, Copy)]
pub enum Arg {
    Null,
    Int(i32),
    Char(u16),
    Word(&'static str),
    /// A text by its units.
    Units(&'static [u16]),
    /// An object of the sample heap, by its number.
    Object(u32),
}

/// What a call is to come to.
#[derive(Clone, Copy)]
pub enum Wanted {
    Null,
    Flag(bool),
    Char(u16),
    Int(i32),
    Word(&'static str),
    /// A text by its units.
    Units(&'static [u16]),
    /// The builder 0, with these units.
    Builder(&'static [u16]),
    /// Null, and the builder 0 has these units.
    Set(&'static [u16]),
    /// A new builder of these units.
    NewBuilder(&'static [u16]),
    /// A new array of texts.
    Texts(&'static [&'static str]),
    /// A new array of chars.
    Chars(&'static [u16]),
    /// A new exception of this class, with a message or with none.
    NewException(u32, Option<&'static str>),
    /// A null is thrown.
    NullPointer,
    /// A place that is out of range is thrown, with this message.
    Index(&'static str),
    /// A walk that stopped is thrown, with this message.
    State(&'static str),
}

/// A member's number, its arguments, what it comes to, and what it costs.
pub type Row = (u32, &'static [Arg], Wanted, u64);
