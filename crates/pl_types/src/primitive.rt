//! The primitive types.

/// A primitive type.
#[derive(Clone, Copy, Debug, PartialEq, Eq)]
pub enum Primitive {
    /// `true` or `false`.
    Boolean,
    /// 8 bits, signed.
    Byte,
    /// 16 bits, signed.
    Short,
    /// 16 bits, unsigned.
    Char,
    /// 32 bits, signed.
    Int,
    /// 64 bits, signed.
    Long,
}
