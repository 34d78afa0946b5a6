//! Code that may run.

ghost use Rattle.std.specs.Prelude.{◌≡◌, None, IfOk, MatchResult};
ghost use Rattle.verifier.specs.Faults.{shape_fault};
ghost use Rattle.verifier.specs.Shaped.{IsWellShapedCode};
ghost use Rattle.verifier.specs.Verified.{IsSound, FrameWords, LeastWords, Refuses};

use crate::fault::VerifyErr;
use crate::functions::code_fault;
use crate::laws::shape_laws;
use allowlist::Allow;
use pl_code::Code;
use std::alloc::{AllocError, Global};
use std::marker::Model;

/// Code that breaks nowhere, with its share of the list under which it was verified.
#[derive(Drop)]
pub struct Verified {
    kept: Code,
    under: Allow,
    words: usize,
}

impl Model for Verified {
    ghost use Rattle.verifier.specs.Verified.{CodeUnder, IsSound, FrameWords, LeastWords};

    ghost Value = { CodeUnder };

    ghost view = { λ v. record { code = v.kept; allow = v.under } };

    ghost invariant = { λ v. IsSound (record { code = v.kept; allow = v.under }) × FrameWords v.words (record { code = v.kept; allow = v.under }) × LeastWords v.words (record { code = v.kept; allow = v.under }) };
}

impl Verified {
    /// The code.
    pub fn code(&self) -> &Code
        ensures code { result.now ≡ self.now.code }
        ensures sound { IsSound self.now }
        ensures shaped { IsWellShapedCode self.now.allow self.now.code.functions }
    {
        shape_laws();
        &self.kept
    }

    /// The list.
    pub fn allow(&self) -> &Allow
        ensures allow { result.now ≡ self.now.allow }
        ensures sound { IsSound self.now }
    {
        &self.under
    }

    /// How many words a frame of the code has at most: its locals, and the operands at any of its lines.
    pub fn frame_words(&self) -> usize
        ensures words { FrameWords result self.now }
        ensures least { LeastWords result self.now }
    {
        self.words
    }

    /// The code, and the list.
    pub fn into_parts(self) -> (Code, Allow)
        ensures code { result.0 ≡ self.code }
        ensures allow { result.1 ≡ self.allow }
        ensures sound { IsSound self }
    {
        let Verified {
            kept,
            under,
            words: _words,
        } = self;
        (kept, under)
    }
}

/// A share of the list, and how many words a frame has. No memory has a frame of 2^64 words or more.
fn share(alloc: Global, allow: &Allow, words: u128) -> Result<(Allow, usize), AllocError>
    ensures { IfOk result (λ shared. (shared.0 ≡ allow.now) × (shared.1 ≡ words)) }
{
    let Ok(words) = usize::try_from(words) else {
        return Err(AllocError);
    };
    Ok((allow.share(alloc)?, words))
}

/// Code that may run under a list: it breaks nowhere. Else the code is handed back, with the first line of its listing, counted
/// from 1, at which it breaks. At one line BadTarget is tried first, then BadMember, BackJump and BadShape.
///
/// # Errors
///
/// The first fault, or `NoMemory` where memory is wanting.
#[tactic(auto, unfolding(crate::specs::Faults::shape_fault))]
pub fn verify(alloc: Global, allow: &Allow, code: Code) -> Result<Verified, (Code, VerifyErr)>
    ensures same { MatchResult result (λ verified. verified ≡ record { code = code; allow = allow.now }) (λ refused. refused.0 ≡ code) }
    ensures shaped { IfOk result (λ verified. IsWellShapedCode allow.now code.functions) }
    ensures exact { MatchResult result (λ verified. shape_fault allow.now code ≡ None) (λ refused. Refuses refused.1 (shape_fault allow.now code)) }
{
    shape_laws();
    let mut words: u128 = 0;
    match code_fault(alloc, allow, code.functions.as_slice(), &mut words) {
        Err(_) => Err((code, VerifyErr::NoMemory)),
        Ok(Some((line, kind))) => Err((code, kind.at(line))),
        Ok(None) => match share(alloc, allow, words) {
            Err(_) => Err((code, VerifyErr::NoMemory)),
            Ok((under, words)) => Ok(Verified {
                kept: code,
                under,
                words,
            }),
        },
    }
}
