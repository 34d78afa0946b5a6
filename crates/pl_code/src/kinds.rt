//! What instructions there are, by what stands behind their words.

/// Instructions without operands.
#[derive(Clone, Copy)]
pub enum Plain {
    /// `null`: the null reference.
    Null,
    /// `pop`: takes one value off.
    Pop,
    /// `dup`: a copy of the value on the top.
    Dup,
    /// `dup2`: a copy of the two values on the top.
    Dup2,
    /// `dupx1`: a copy of the value on the top, below the one under it.
    DupX1,
    /// `dupx2`: a copy of the value on the top, below the two under it.
    DupX2,
    /// `i2j`: int to long.
    IntToLong,
    /// `j2i`: long to int.
    LongToInt,
    /// `i2b`: int to byte.
    IntToByte,
    /// `i2s`: int to short.
    IntToShort,
    /// `i2c`: int to char.
    IntToChar,
    /// `concat`: two texts joined.
    Concat,
    /// `same`: whether two references are the same.
    Same,
    /// `equal`: whether two values are equal.
    Equal,
    /// `alen`: the length of an array.
    ArrayLength,
    /// `getidx`: an element of a list, map or array that is known only at run time.
    GetIndex,
    /// `putidx`: puts an element into what is known only at run time.
    PutIndex,
    /// `iter`: an iterator.
    Iter,
    /// `has`: whether an iterator has more.
    Has,
    /// `next`: the next value of an iterator.
    Next,
    /// `throw`: throws.
    Throw,
    /// `ret`: returns.
    Ret,
}

/// Operators on numbers.
#[derive(Clone, Copy)]
pub enum ArithmeticOp {
    /// `add`: sum.
    Add,
    /// `sub`: difference.
    Sub,
    /// `mul`: product.
    Mul,
    /// `div`: quotient.
    Div,
    /// `rem`: remainder.
    Rem,
    /// `and`: bits in both.
    And,
    /// `or`: bits in either.
    Or,
    /// `xor`: bits in one of both.
    Xor,
    /// `neg`: negation.
    Neg,
    /// `not`: bits inverted.
    Not,
    /// `shl`: shift to the left.
    Shl,
    /// `shr`: shift to the right, with the sign.
    Shr,
    /// `ushr`: shift to the right, with zeros.
    Ushr,
    /// `lt`: less.
    Lt,
    /// `le`: less or equal.
    Le,
    /// `gt`: greater.
    Gt,
    /// `ge`: greater or equal.
    Ge,
    /// `eq`: equal.
    Eq,
    /// `ne`: not equal.
    Ne,
}

/// Operators on values whose types are known only at run time.
#[derive(Clone, Copy)]
pub enum DynamicOp {
    /// `add`: sum.
    Add,
    /// `sub`: difference.
    Sub,
    /// `mul`: product.
    Mul,
    /// `div`: quotient.
    Div,
    /// `rem`: remainder.
    Rem,
    /// `and`: bits in both.
    And,
    /// `or`: bits in either.
    Or,
    /// `xor`: bits in one of both.
    Xor,
    /// `neg`: negation.
    Neg,
    /// `not`: bits inverted.
    Not,
    /// `pos`: the value, promoted.
    Pos,
    /// `shl`: shift to the left.
    Shl,
    /// `shr`: shift to the right, with the sign.
    Shr,
    /// `ushr`: shift to the right, with zeros.
    Ushr,
    /// `lt`: less.
    Lt,
    /// `le`: less or equal.
    Le,
    /// `gt`: greater.
    Gt,
    /// `ge`: greater or equal.
    Ge,
}

/// Instructions with a number.
#[derive(Clone, Copy)]
pub enum Numbered {
    /// `load`: loads a local.
    Load,
    /// `store`: stores a local.
    Store,
    /// `goto`: jumps.
    Goto,
    /// `ifz`: jumps at 0.
    IfZero,
    /// `ifnz`: jumps at another number than 0.
    IfNotZero,
    /// `ifnull`: jumps at null.
    IfNull,
    /// `loop`: jumps back at another number than 0, and counts a turn.
    Loop,
    /// `list`: a list of so many values.
    List,
    /// `map`: a map of so many keys and values.
    Map,
    /// `call`: calls a function.
    Call,
}

/// Instructions with a text.
#[derive(Clone, Copy)]
pub enum Quoting {
    /// `text`: a text.
    Constant,
    /// `getname`: what a name of a value stands for, known only at run time.
    GetName,
    /// `putname`: puts a value under a name, known only at run time.
    PutName,
}

/// Instructions with a type.
#[derive(Clone, Copy)]
pub enum Typed {
    /// `isa`: whether a value is of a type.
    IsA,
    /// `aload`: an element of an array of this type.
    LoadElement,
    /// `astore`: puts an element into an array of this type.
    StoreElement,
}

/// Instructions with a type and a number.
#[derive(Clone, Copy)]
pub enum Sized {
    /// `array`: an array of so many values.
    Filled,
    /// `newarray`: an array with so many dimensions given.
    Empty,
}

/// Of what an operator is.
#[derive(Clone, Copy)]
pub enum Width {
    /// int.
    Int,
    /// long.
    Long,
}

/// How a cast is written.
#[derive(Clone, Copy)]
pub enum Way {
    /// `imp`: not at all.
    Implicit,
    /// `exp`: in the script.
    Explicit,
}

/// What a local, an operand, a parameter or a result holds.
#[derive(Clone, Copy)]
pub enum Slot {
    /// boolean, byte, short, char and int.
    I,
    /// long.
    J,
    /// Every other value.
    R,
}
