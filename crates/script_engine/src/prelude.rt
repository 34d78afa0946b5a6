//! The prelude, which has no function yet.

ghost use Rattle.std.specs.Prelude.{◌≡◌, IfOk};
ghost use Rattle.script_engine.specs.Preludes.{prelude_code, prelude_text};

use crate::verifying::verified_code;
use compiled_runs::programs_run;
use pl_code::{Code, FunCode, Instruction, Plain};
use static_types::Allow;
use std::alloc::{AllocError, Global};
use std::marker::Model;
use typed_tree::Items;
use verified_machine::VerifiedText;

/// What scripts run beside: the prelude's code, verified and made ready once for all of them.
#[derive(Drop)]
pub struct VerifiedPrelude {
    text: VerifiedText,
}

impl Model for VerifiedPrelude {
    ghost use Rattle.pl_types.specs.contracts.ty.Ty as ty;
    ghost use Rattle.std.specs.Coded.{codes};
    ghost use Rattle.std.specs.Prelude.{◌≡◌};
    ghost use Rattle.verified_machine.specs.Code.{TextCode};
    ghost use Rattle.script_engine.specs.Preludes.{prelude_text};

    ghost Value = { TextCode };

    ghost coded = { Prim.hlevel (codes, ty.the_row.coded) };

    ghost view = { λ p. p.text.text };

    ghost invariant = { λ p. p.text.text ≡ prelude_text };
}

impl VerifiedPrelude {
    /// The prelude's code, verified and made ready to run.
    ///
    /// # Errors
    ///
    /// Want of memory.
    pub fn new(alloc: Global) -> Result<VerifiedPrelude, AllocError>
        ensures { IfOk result (λ p. p ≡ prelude_text) }
    {
        programs_run();
        let code = prelude_code(alloc)?;
        let allow = Allow::empty(alloc)?;
        let verified = verified_code(alloc, &allow, code)?;
        Ok(VerifiedPrelude {
            text: VerifiedText::new(alloc, verified)?,
        })
    }

    /// What is run beside a script's code.
    pub(crate) fn text(&self) -> &VerifiedText
        ensures { result.now.text ≡ prelude_text }
    {
        &self.text
    }
}

/// The code of the prelude.
fn prelude_code(alloc: Global) -> Result<Code, AllocError>
    ensures { IfOk result (λ code. code ≡ prelude_code) }
{
    let mut lines = Items::new(alloc);
    lines.push(Instruction::Plain(Plain::Ret))?;
    let mut functions = Items::new(alloc);
    functions.push(FunCode {
        loops: false,
        result: None,
        params: Items::new(alloc),
        locals: Items::new(alloc),
        traps: Items::new(alloc),
        lines,
    })?;
    Ok(Code { functions })
}
