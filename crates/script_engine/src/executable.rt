//! Code of scripts that is ready to run beside the prelude's.

ghost use Rattle.std.specs.Prelude.{◌≡◌, IfOk};
ghost use Rattle.verified_machine.specs.Verified.{FrameWords};
ghost use Rattle.script_engine.specs.Executables.{executable_of};
ghost use Rattle.script_engine.specs.Preludes.{prelude_code};

use crate::prelude::VerifiedPrelude;
use pl_code::Code;
use static_types::Allow;
use std::alloc::{AllocError, Global};
use std::marker::Model;
use verified_machine::{Verified, VerifiedExecutable};

/// The code of a script, verified and ready to run beside the prelude's.
#[derive(Drop)]
pub struct ScriptExecutable {
    executable: VerifiedExecutable,
}

impl Model for ScriptExecutable {
    ghost use Rattle.pl_types.specs.contracts.ty.Ty as ty;
    ghost use Rattle.std.specs.Coded.{codes};
    ghost use Rattle.std.specs.Prelude.{◌≡◌};
    ghost use Rattle.script_engine.specs.Executables.{ScriptCode};
    ghost use Rattle.script_engine.specs.Preludes.{prelude_text};

    ghost Value = { ScriptCode };

    ghost coded = { Prim.hlevel (codes, ty.the_row.coded) };

    ghost view = { λ e. record { code = e.executable.script.code; allow = e.executable.script.allow; frame = e.executable.frame } };

    ghost invariant = { λ e. e.executable.prelude ≡ prelude_text };
}

impl ScriptExecutable {
    /// Verified code of a script, made ready to run beside the prelude's.
    ///
    /// # Errors
    ///
    /// Want of memory.
    pub(crate) fn new(
        alloc: Global,
        verified: Verified,
        prelude: &VerifiedPrelude,
    ) -> Result<ScriptExecutable, AllocError>
        ensures same { IfOk result (λ e. record { code = e.code; allow = e.allow } ≡ verified) }
        ensures frames { IfOk result (λ e. FrameWords e.frame (record { code = e.code; allow = e.allow })) }
    {
        Ok(ScriptExecutable {
            executable: VerifiedExecutable::new(alloc, verified, prelude.text())?,
        })
    }

    /// The script's code.
    pub(crate) fn code(&self) -> &Code
        ensures { result.now ≡ self.now.code }
    {
        self.executable.code()
    }

    /// The members that it may call.
    pub(crate) fn allow(&self) -> &Allow
        ensures { result.now ≡ self.now.allow }
    {
        self.executable.allow()
    }

    /// The code of the prelude.
    pub(crate) fn prelude_code(&self) -> &Code
        ensures { result.now ≡ prelude_code }
    {
        self.executable.prelude_code()
    }

    /// What is run.
    pub(crate) fn verified(&self) -> &VerifiedExecutable
        ensures { result.now ≡ executable_of self.now }
    {
        &self.executable
    }
}
