//! Code whose traps were linked.
ghost use Rattle.std.specs.Prelude.{◌≡◌, IfOk, slice_get, option_map};
ghost use Rattle.std.specs.Option.{option_copied};
ghost use Rattle.machine_parts.specs.Handlers.{handlers_in, linked_traps};

use crate::handlers::Handlers;
use pl_code::{Code, FunCode};
use plain_data::Items;
use std::alloc::{AllocError, Global};
use std::marker::Model;

/// Code with the handlers of each function. Contracts see the code.
#[derive(Drop)]
pub struct LinkedCode {
    code: Code,
    handlers: Items<Handlers>,
}

impl Model for LinkedCode {
    ghost use Rattle.machine_parts.specs.Handlers.{handlers_in};
    ghost use Rattle.pl_code.specs.declared.code.Code.{Code};
    ghost use Rattle.pl_types.specs.contracts.ty.Ty as ty;
    ghost use Rattle.std.specs.Coded.{codes};
    ghost use Rattle.std.specs.Prelude.{◌≡◌};

    ghost Value = { Code };

    ghost coded = { Prim.hlevel (codes, ty.the_row.coded) };

    ghost view = { λ c. c.code };

    ghost invariant = { λ c. c.handlers ≡ handlers_in c.code.functions };
}

impl LinkedCode {
    /// # Errors
    ///
    /// Want of memory.
    pub fn new(alloc: Global, code: Code) -> Result<LinkedCode, AllocError>
        ensures { IfOk result (λ linked. linked ≡ code) }
    {
        let handlers = handlers_in(alloc, code.functions.as_slice())?;
        Ok(LinkedCode { code, handlers })
    }

    /// The code.
    pub fn code(&self) -> &Code
        ensures { result.now ≡ self.now }
    {
        &self.code
    }

    /// The function of a number.
    #[inline(always)]
    pub fn function(&self, number: u32) -> Option<&FunCode>
        ensures { option_copied result ≡ slice_get self.now.functions number }
    {
        self.code.functions.get(number as usize)
    }

    /// The handlers of the function of a number.
    #[tactic(auto, using(crate::proofs::Handling::of_function))]
    pub fn handlers(&self, number: u32) -> Option<&Handlers>
        ensures { option_copied result ≡ option_map linked_traps (slice_get self.now.functions number) }
    {
        self.handlers.get(number as usize)
    }
}

fn handlers_in(alloc: Global, functions: &[FunCode]) -> Result<Items<Handlers>, AllocError>
    ensures { IfOk result (λ handlers. handlers ≡ handlers_in functions.now) }
{
    let mut handlers = Items::new(alloc);
    for function in functions {
        handlers.push(Handlers::new(alloc, function.traps.as_slice(), function.lines.len())?)?;
    }
    Ok(handlers)
}
