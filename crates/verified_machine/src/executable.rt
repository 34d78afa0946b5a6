//! Verified code that is ready to run.
ghost use Rattle.std.specs.Prelude.{◌≡◌, ◌≤◌, IfOk};
ghost use Rattle.verifier.specs.Verified.{FrameWords, IsSound};
ghost use Rattle.verifier_soundness.specs.Rows.{HaveRows};
ghost use Rattle.verified_machine.specs.Tasks.{IsReady, code_under};

use allowlist::Allow;
use machine::{Executable, LinkedText};
use pl_code::Code;
use std::alloc::{AllocError, Global};
use std::marker::Model;
use std::rc::Rc;
use verifier::Verified;

/// The code of a text that was verified and made ready once, for all scripts that run beside it. Each of its instructions has a row.
#[derive(Drop)]
pub struct VerifiedText {
    text: Rc<LinkedText>,
    frame: usize,
}

impl Model for VerifiedText {
    ghost use Rattle.pl_types.specs.contracts.ty.Ty as ty;
    ghost use Rattle.std.specs.Coded.{codes};
    ghost use Rattle.verifier.specs.Verified.{FrameWords, IsSound};
    ghost use Rattle.verifier_soundness.specs.Rows.{HaveRows};
    ghost use Rattle.verified_machine.specs.Tasks.{ReadyText, code_under};

    ghost Value = { ReadyText };

    ghost coded = { Prim.hlevel (codes, ty.the_row.coded) };

    ghost view = { λ t. record { text = t.text.value; frame = t.frame } };

    ghost invariant = { λ t. IsSound (code_under t.text.value) × FrameWords t.frame (code_under t.text.value) × HaveRows t.text.value.allow t.text.value.code.functions };
}

impl VerifiedText {
    /// Verified code of a text, made ready to run.
    ///
    /// # Errors
    ///
    /// Want of memory.
    pub fn new(alloc: Global, verified: Verified) -> Result<VerifiedText, AllocError>
        requires { HaveRows verified.allow verified.code.functions }
        ensures { IfOk result (λ t. code_under t.text ≡ verified) }
    {
        let frame = verified.frame_words();
        let (code, allow) = verified.into_parts();
        let linked = LinkedText::new(alloc, code, allow)?;
        let held = Rc::new(alloc, linked)?;
        Ok(VerifiedText { text: held, frame })
    }

    // For how many words there is memory in each frame of it.
    fn frame(&self) -> usize
        ensures words { FrameWords result (code_under self.now.text) }
        ensures sound { IsSound (code_under self.now.text) }
        ensures rows { HaveRows self.now.text.allow self.now.text.code.functions }
    {
        self.frame
    }

    // The same text, held once more.
    fn held(&self) -> Result<Rc<LinkedText>, AllocError>
        ensures { IfOk result (λ text. text.value ≡ self.now.text) }
    {
        self.text.clone()
    }
}

/// Verified code of a script that is ready to run beside a prelude's. There is memory in each frame of a run for as many words as the
/// verifier has found.
#[derive(Drop)]
pub struct VerifiedExecutable {
    executable: Executable,
}

impl Model for VerifiedExecutable {
    ghost use Rattle.machine.specs.Code.{Executable};
    ghost use Rattle.pl_types.specs.contracts.ty.Ty as ty;
    ghost use Rattle.std.specs.Coded.{codes};
    ghost use Rattle.verifier_soundness.specs.Rows.{HaveRows};
    ghost use Rattle.verified_machine.specs.Tasks.{IsReady};

    ghost Value = { Executable };

    ghost coded = { Prim.hlevel (codes, ty.the_row.coded) };

    ghost view = { λ v. v.executable };

    ghost invariant = { λ v. IsReady v.executable × HaveRows v.executable.prelude.allow v.executable.prelude.code.functions };
}

impl VerifiedExecutable {
    /// Code of a script that runs beside this prelude's, which many scripts share.
    ///
    /// # Errors
    ///
    /// Want of memory.
    pub fn new(
        alloc: Global,
        verified: Verified,
        prelude: &VerifiedText,
    ) -> Result<VerifiedExecutable, AllocError>
        ensures same { IfOk result (λ e. code_under e.script ≡ verified) }
        ensures prelude { IfOk result (λ e. e.prelude ≡ prelude.now.text) }
        // There is memory in each frame of a run for as many words as one has at most, of either text.
        ensures frames { IfOk result (λ e. FrameWords e.frame (code_under e.script) × FrameWords e.frame (code_under e.prelude)) }
    {
        let own = verified.frame_words();
        let kept = prelude.frame();
        let frame = larger(own, kept);
        let (code, allow) = verified.into_parts();
        let beside = prelude.held()?;
        Ok(VerifiedExecutable {
            executable: Executable::new(alloc, code, allow, beside, frame)?,
        })
    }

    /// The script's code.
    pub fn code(&self) -> &Code
        ensures { result.now ≡ self.now.script.code }
    {
        self.executable.script().code()
    }

    /// The members that it may call.
    pub fn allow(&self) -> &Allow
        ensures { result.now ≡ self.now.script.allow }
    {
        self.executable.script().allow()
    }

    /// The code of the prelude.
    pub fn prelude_code(&self) -> &Code
        ensures { result.now ≡ self.now.prelude.code }
    {
        self.executable.prelude().code()
    }

    // What the machine runs.
    pub(crate) fn executable(&self) -> &Executable
        ensures is { result.now ≡ self.now }
        ensures ready { IsReady self.now }
        ensures rows { HaveRows self.now.prelude.allow self.now.prelude.code.functions }
    {
        &self.executable
    }
}

// The larger of two numbers.
fn larger(one: usize, other: usize) -> usize
    ensures one { one ≤ result }
    ensures other { other ≤ result }
{
    one.max(other)
}
