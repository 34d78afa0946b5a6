//! Code that breaks nowhere, verified.

ghost use Rattle.std.specs.Prelude.{◌≡◌, IfOk, None};
ghost use Rattle.verified_machine.specs.Faults.{shape_fault};
ghost use Rattle.verified_machine.specs.Verified.{Refuses};

use pl_code::Code;
use static_types::Allow;
use std::alloc::{AllocError, Global};
use verified_machine::{Verified, VerifyErr, verify};

/// Code that breaks nowhere under a list. The verifier tells how many words a frame of it has.
pub(crate) fn verified_code(
    alloc: Global,
    allow: &Allow,
    code: Code,
) -> Result<Verified, AllocError>
    requires { shape_fault allow.now code ≡ None }
    ensures { IfOk result (λ verified. verified ≡ record { code = code; allow = allow.now }) }
{
    match verify(alloc, allow, code) {
        Ok(verified) => Ok(verified),
        Err((_code, error)) => Err(no_fault(error)),
    }
}

/// Why code that breaks nowhere is not verified: for want of memory alone.
fn no_fault(error: VerifyErr) -> AllocError
    requires { Refuses error None }
{
    match error {
        VerifyErr::NoMemory => AllocError,
        VerifyErr::BadShape(_) => unreachable!(),
        VerifyErr::BadTarget(_) => unreachable!(),
        VerifyErr::BadMember(_) => unreachable!(),
        VerifyErr::BackJump(_) => unreachable!(),
    }
}
