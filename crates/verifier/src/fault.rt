//! What can be wrong with code.

ghost use Rattle.std.specs.Prelude.{◌≡◌, Some};
ghost use Rattle.verifier.specs.Verified.{Refuses};

use std::alloc::AllocError;

/// What breaks at a line.
#[derive(Clone, Copy)]
pub enum FaultKind {
    /// The stack.
    BadShape,
    /// A number out of range.
    BadTarget,
    /// A member that the list lacks, or a class, a type or an interface that the catalogue lacks.
    BadMember,
    /// A jump the wrong way.
    BackJump,
}

/// Why code may not run, with the line of its listing, counted from 1, at which it breaks first. Numbers past 32 bits stand
/// still.
#[derive(Clone, Copy, Debug)]
pub enum VerifyErr {
    /// The line has no list of kinds that lie on the stack there: nothing leads to it, or what leads to it differs. Or its
    /// instruction does not fit them, or it is a function's last and goes on. Or it is the line `fun` of a function that has no
    /// instruction.
    BadShape(u32),
    /// A number of a function, a local, an instruction or a trap is out of range, or how many sizes of an array are given. Or a
    /// `lambda` has a function that takes or gives other than references, or takes fewer than are given, or not as many beyond
    /// them as its interface's method. At line 1: there is no function 0.
    BadTarget(u32),
    /// The list lacks a member, or the catalogue lacks a class, a type or an interface.
    BadMember(u32),
    /// A jump to its own line or before, a `loop` to a later line, or a trap over no line or that goes on before its end.
    BackJump(u32),
    /// Memory was wanting.
    NoMemory,
}

impl FaultKind {
    /// The refusal for this at a line.
    pub(crate) fn at(self, line: u32) -> VerifyErr
        ensures { Refuses result (Some (line, self)) }
    {
        match self {
            FaultKind::BadShape => VerifyErr::BadShape(line),
            FaultKind::BadTarget => VerifyErr::BadTarget(line),
            FaultKind::BadMember => VerifyErr::BadMember(line),
            FaultKind::BackJump => VerifyErr::BackJump(line),
        }
    }
}

impl From<AllocError> for VerifyErr {
    ghost use Rattle.verifier.specs.declared.fault.VerifyErr.TheVariants.{NoMemory};

    ghost from_gives = { λ _ e. e ≡ NoMemory };

    fn from(_error: AllocError) -> VerifyErr {
        VerifyErr::NoMemory
    }
}
