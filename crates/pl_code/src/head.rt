//! The first words of lines.

ghost use Rattle.std.specs.Prelude.{◌≡◌};
ghost use Rattle.std.specs.Str.{bytes_eq};
ghost use Rattle.pl_code.specs.Words.{head_word, head_of, plain_word, int_word, long_word, dynamic_word, quoting_word, numbered_word, typed_word, sized_word};

use crate::kinds::{ArithmeticOp, DynamicOp, Numbered, Plain, Quoting, Sized, Typed, Width};

/// What the first word of a line says.
#[derive(Clone, Copy)]
pub enum Head {
    /// An instruction without operands.
    Plain(Plain),
    /// An operator on numbers.
    Arithmetic(ArithmeticOp, Width),
    /// An operator on values whose types are known only at run time.
    Dynamic(DynamicOp),
    /// `i`
    Int,
    /// `j`
    Long,
    /// An instruction with a text.
    Quoted(Quoting),
    /// An instruction with a number.
    Numbered(Numbered),
    /// `box`
    Boxing,
    /// `unbox`
    Unboxing,
    /// `cast`
    Cast,
    /// An instruction with a type.
    Typed(Typed),
    /// An instruction with a type and a number.
    Sized(Sized),
    /// `defcall`
    DefCall,
    /// `invoke`
    Invoke,
    /// `new`
    New,
    /// `field`
    Field,
    /// `lambda`
    Lambda,
    /// `ref`
    Ref,
    /// `newref`
    NewRef,
    /// `fun`
    Fun,
    /// `trap`
    Trap,
    /// `end`
    End,
}

/// Every head.
pub const HEADS: [Head; 111] = [
    Head::Plain(Plain::Null),
    Head::Plain(Plain::Pop),
    Head::Plain(Plain::Dup),
    Head::Plain(Plain::Dup2),
    Head::Plain(Plain::DupX1),
    Head::Plain(Plain::DupX2),
    Head::Plain(Plain::IntToLong),
    Head::Plain(Plain::LongToInt),
    Head::Plain(Plain::IntToByte),
    Head::Plain(Plain::IntToShort),
    Head::Plain(Plain::IntToChar),
    Head::Plain(Plain::Concat),
    Head::Plain(Plain::Same),
    Head::Plain(Plain::Equal),
    Head::Plain(Plain::ArrayLength),
    Head::Plain(Plain::GetIndex),
    Head::Plain(Plain::PutIndex),
    Head::Plain(Plain::Iter),
    Head::Plain(Plain::Has),
    Head::Plain(Plain::Next),
    Head::Plain(Plain::Throw),
    Head::Plain(Plain::Ret),
    Head::Arithmetic(ArithmeticOp::Add, Width::Int),
    Head::Arithmetic(ArithmeticOp::Add, Width::Long),
    Head::Arithmetic(ArithmeticOp::Sub, Width::Int),
    Head::Arithmetic(ArithmeticOp::Sub, Width::Long),
    Head::Arithmetic(ArithmeticOp::Mul, Width::Int),
    Head::Arithmetic(ArithmeticOp::Mul, Width::Long),
    Head::Arithmetic(ArithmeticOp::Div, Width::Int),
    Head::Arithmetic(ArithmeticOp::Div, Width::Long),
    Head::Arithmetic(ArithmeticOp::Rem, Width::Int),
    Head::Arithmetic(ArithmeticOp::Rem, Width::Long),
    Head::Arithmetic(ArithmeticOp::And, Width::Int),
    Head::Arithmetic(ArithmeticOp::And, Width::Long),
    Head::Arithmetic(ArithmeticOp::Or, Width::Int),
    Head::Arithmetic(ArithmeticOp::Or, Width::Long),
    Head::Arithmetic(ArithmeticOp::Xor, Width::Int),
    Head::Arithmetic(ArithmeticOp::Xor, Width::Long),
    Head::Arithmetic(ArithmeticOp::Neg, Width::Int),
    Head::Arithmetic(ArithmeticOp::Neg, Width::Long),
    Head::Arithmetic(ArithmeticOp::Not, Width::Int),
    Head::Arithmetic(ArithmeticOp::Not, Width::Long),
    Head::Arithmetic(ArithmeticOp::Shl, Width::Int),
    Head::Arithmetic(ArithmeticOp::Shl, Width::Long),
    Head::Arithmetic(ArithmeticOp::Shr, Width::Int),
    Head::Arithmetic(ArithmeticOp::Shr, Width::Long),
    Head::Arithmetic(ArithmeticOp::Ushr, Width::Int),
    Head::Arithmetic(ArithmeticOp::Ushr, Width::Long),
    Head::Arithmetic(ArithmeticOp::Lt, Width::Int),
    Head::Arithmetic(ArithmeticOp::Lt, Width::Long),
    Head::Arithmetic(ArithmeticOp::Le, Width::Int),
    Head::Arithmetic(ArithmeticOp::Le, Width::Long),
    Head::Arithmetic(ArithmeticOp::Gt, Width::Int),
    Head::Arithmetic(ArithmeticOp::Gt, Width::Long),
    Head::Arithmetic(ArithmeticOp::Ge, Width::Int),
    Head::Arithmetic(ArithmeticOp::Ge, Width::Long),
    Head::Arithmetic(ArithmeticOp::Eq, Width::Int),
    Head::Arithmetic(ArithmeticOp::Eq, Width::Long),
    Head::Arithmetic(ArithmeticOp::Ne, Width::Int),
    Head::Arithmetic(ArithmeticOp::Ne, Width::Long),
    Head::Dynamic(DynamicOp::Add),
    Head::Dynamic(DynamicOp::Sub),
    Head::Dynamic(DynamicOp::Mul),
    Head::Dynamic(DynamicOp::Div),
    Head::Dynamic(DynamicOp::Rem),
    Head::Dynamic(DynamicOp::And),
    Head::Dynamic(DynamicOp::Or),
    Head::Dynamic(DynamicOp::Xor),
    Head::Dynamic(DynamicOp::Neg),
    Head::Dynamic(DynamicOp::Not),
    Head::Dynamic(DynamicOp::Pos),
    Head::Dynamic(DynamicOp::Shl),
    Head::Dynamic(DynamicOp::Shr),
    Head::Dynamic(DynamicOp::Ushr),
    Head::Dynamic(DynamicOp::Lt),
    Head::Dynamic(DynamicOp::Le),
    Head::Dynamic(DynamicOp::Gt),
    Head::Dynamic(DynamicOp::Ge),
    Head::Int,
    Head::Long,
    Head::Quoted(Quoting::Constant),
    Head::Quoted(Quoting::GetName),
    Head::Quoted(Quoting::PutName),
    Head::Numbered(Numbered::Load),
    Head::Numbered(Numbered::Store),
    Head::Numbered(Numbered::Goto),
    Head::Numbered(Numbered::IfZero),
    Head::Numbered(Numbered::IfNotZero),
    Head::Numbered(Numbered::IfNull),
    Head::Numbered(Numbered::Loop),
    Head::Numbered(Numbered::List),
    Head::Numbered(Numbered::Map),
    Head::Numbered(Numbered::Call),
    Head::Boxing,
    Head::Unboxing,
    Head::Cast,
    Head::Typed(Typed::IsA),
    Head::Typed(Typed::LoadElement),
    Head::Typed(Typed::StoreElement),
    Head::Sized(Sized::Filled),
    Head::Sized(Sized::Empty),
    Head::DefCall,
    Head::Invoke,
    Head::New,
    Head::Field,
    Head::Lambda,
    Head::Ref,
    Head::NewRef,
    Head::Fun,
    Head::Trap,
    Head::End,
];

/// The word of a head.
#[tactic(auto, unfolding(crate::specs::Words::head_word))]
pub fn head_word(head: Head) -> &'static str
    ensures { result.now ≡ head_word head }
{
    match head {
        Head::Plain(plain) => plain_word(plain),
        Head::Arithmetic(op, Width::Int) => int_word(op),
        Head::Arithmetic(op, Width::Long) => long_word(op),
        Head::Dynamic(op) => dynamic_word(op),
        Head::Quoted(quoting) => quoting_word(quoting),
        Head::Numbered(numbered) => numbered_word(numbered),
        Head::Typed(typed) => typed_word(typed),
        Head::Sized(sized) => sized_word(sized),
        Head::Int => "i",
        Head::Long => "j",
        Head::Boxing => "box",
        Head::Unboxing => "unbox",
        Head::Cast => "cast",
        Head::DefCall => "defcall",
        Head::Invoke => "invoke",
        Head::New => "new",
        Head::Field => "field",
        Head::Lambda => "lambda",
        Head::Ref => "ref",
        Head::NewRef => "newref",
        Head::Fun => "fun",
        Head::Trap => "trap",
        Head::End => "end",
    }
}

fn plain_word(plain: Plain) -> &'static str
    ensures { result.now ≡ plain_word plain }
{
    match plain {
        Plain::Null => "null",
        Plain::Pop => "pop",
        Plain::Dup => "dup",
        Plain::Dup2 => "dup2",
        Plain::DupX1 => "dupx1",
        Plain::DupX2 => "dupx2",
        Plain::IntToLong => "i2j",
        Plain::LongToInt => "j2i",
        Plain::IntToByte => "i2b",
        Plain::IntToShort => "i2s",
        Plain::IntToChar => "i2c",
        Plain::Concat => "concat",
        Plain::Same => "same",
        Plain::Equal => "equal",
        Plain::ArrayLength => "alen",
        Plain::GetIndex => "getidx",
        Plain::PutIndex => "putidx",
        Plain::Iter => "iter",
        Plain::Has => "has",
        Plain::Next => "next",
        Plain::Throw => "throw",
        Plain::Ret => "ret",
    }
}

fn int_word(op: ArithmeticOp) -> &'static str
    ensures { result.now ≡ int_word op }
{
    match op {
        ArithmeticOp::Add => "add.i",
        ArithmeticOp::Sub => "sub.i",
        ArithmeticOp::Mul => "mul.i",
        ArithmeticOp::Div => "div.i",
        ArithmeticOp::Rem => "rem.i",
        ArithmeticOp::And => "and.i",
        ArithmeticOp::Or => "or.i",
        ArithmeticOp::Xor => "xor.i",
        ArithmeticOp::Neg => "neg.i",
        ArithmeticOp::Not => "not.i",
        ArithmeticOp::Shl => "shl.i",
        ArithmeticOp::Shr => "shr.i",
        ArithmeticOp::Ushr => "ushr.i",
        ArithmeticOp::Lt => "lt.i",
        ArithmeticOp::Le => "le.i",
        ArithmeticOp::Gt => "gt.i",
        ArithmeticOp::Ge => "ge.i",
        ArithmeticOp::Eq => "eq.i",
        ArithmeticOp::Ne => "ne.i",
    }
}

fn long_word(op: ArithmeticOp) -> &'static str
    ensures { result.now ≡ long_word op }
{
    match op {
        ArithmeticOp::Add => "add.j",
        ArithmeticOp::Sub => "sub.j",
        ArithmeticOp::Mul => "mul.j",
        ArithmeticOp::Div => "div.j",
        ArithmeticOp::Rem => "rem.j",
        ArithmeticOp::And => "and.j",
        ArithmeticOp::Or => "or.j",
        ArithmeticOp::Xor => "xor.j",
        ArithmeticOp::Neg => "neg.j",
        ArithmeticOp::Not => "not.j",
        ArithmeticOp::Shl => "shl.j",
        ArithmeticOp::Shr => "shr.j",
        ArithmeticOp::Ushr => "ushr.j",
        ArithmeticOp::Lt => "lt.j",
        ArithmeticOp::Le => "le.j",
        ArithmeticOp::Gt => "gt.j",
        ArithmeticOp::Ge => "ge.j",
        ArithmeticOp::Eq => "eq.j",
        ArithmeticOp::Ne => "ne.j",
    }
}

fn dynamic_word(op: DynamicOp) -> &'static str
    ensures { result.now ≡ dynamic_word op }
{
    match op {
        DynamicOp::Add => "def.add",
        DynamicOp::Sub => "def.sub",
        DynamicOp::Mul => "def.mul",
        DynamicOp::Div => "def.div",
        DynamicOp::Rem => "def.rem",
        DynamicOp::And => "def.and",
        DynamicOp::Or => "def.or",
        DynamicOp::Xor => "def.xor",
        DynamicOp::Neg => "def.neg",
        DynamicOp::Not => "def.not",
        DynamicOp::Pos => "def.pos",
        DynamicOp::Shl => "def.shl",
        DynamicOp::Shr => "def.shr",
        DynamicOp::Ushr => "def.ushr",
        DynamicOp::Lt => "def.lt",
        DynamicOp::Le => "def.le",
        DynamicOp::Gt => "def.gt",
        DynamicOp::Ge => "def.ge",
    }
}

fn quoting_word(quoting: Quoting) -> &'static str
    ensures { result.now ≡ quoting_word quoting }
{
    match quoting {
        Quoting::Constant => "text",
        Quoting::GetName => "getname",
        Quoting::PutName => "putname",
    }
}

fn numbered_word(numbered: Numbered) -> &'static str
    ensures { result.now ≡ numbered_word numbered }
{
    match numbered {
        Numbered::Load => "load",
        Numbered::Store => "store",
        Numbered::Goto => "goto",
        Numbered::IfZero => "ifz",
        Numbered::IfNotZero => "ifnz",
        Numbered::IfNull => "ifnull",
        Numbered::Loop => "loop",
        Numbered::List => "list",
        Numbered::Map => "map",
        Numbered::Call => "call",
    }
}

fn typed_word(typed: Typed) -> &'static str
    ensures { result.now ≡ typed_word typed }
{
    match typed {
        Typed::IsA => "isa",
        Typed::LoadElement => "aload",
        Typed::StoreElement => "astore",
    }
}

fn sized_word(sized: Sized) -> &'static str
    ensures { result.now ≡ sized_word sized }
{
    match sized {
        Sized::Filled => "array",
        Sized::Empty => "newarray",
    }
}

fn is_word_of(head: Head, word: &str) -> bool
    ensures { result ≡ bytes_eq (head_word head) word.now }
{
    head_word(head) == word
}

/// The head with this word.
#[tactic(auto, unfolding(crate::specs::Words::head_of))]
pub fn head_of(word: &str) -> Option<Head>
    ensures { result ≡ head_of word.now }
{
    HEADS.iter().copied().find(|head| is_word_of(*head, word))
}
