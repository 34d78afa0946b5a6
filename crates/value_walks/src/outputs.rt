//! What texts are written to.
ghost use Rattle.std.specs.Prelude.{◌≡◌, ◌++◌, [], IfOk, IfErr, OnOk};
ghost use Rattle.value_walks.specs.declared.outputs.Output.{Output};
ghost use Rattle.value_walks.specs.Outputs.{kept_in, put};

use crate::error::TextErr;
use object_values::Elements;
use pl_units::UText;
use std::alloc::Global;

/// What texts are written to, with room for so many units.
pub enum Output {
    /// The units that were written, and how many more there is room for.
    Kept(Elements<u16>, u64),
    /// There were more than there was room for, and none of them is kept.
    Over,
}

impl Drop for Output {
    fn drop(self) {
        match self {
            Output::Kept(_units, _room) => {}
            Output::Over => {}
        }
    }
}

fn extend(kept: &mut Elements<u16>, units: &[u16]) -> Result<(), TextErr>
    ensures ok { OnOk result (kept.new ≡ kept.old ++ units.now) }
    ensures err { IfErr result (λ cause. cause ≡ TextErr.NoMemory) }
{
    match kept.extend(units) {
        Ok(()) => Ok(()),
        Err(_) => Err(TextErr::NoMemory),
    }
}

impl Output {
    /// Nothing is written, and there is room for so many units. It takes no memory.
    pub fn new(alloc: Global, room: u64) -> Output
        ensures { result ≡ Output.Kept [] room }
    {
        Output::Kept(Elements::new(alloc), room)
    }

    /// Writes units. Where there is no room for them, what was written is let go, and nothing is kept from then on. `NoMemory`:
    /// there was none for them.
    #[tactic(auto, using(crate::proofs::Putting::put_within, crate::proofs::Putting::put_beyond, crate::proofs::Putting::put_over))]
    pub fn write(&mut self, units: &[u16]) -> Result<(), TextErr>
        ensures ok { OnOk result (self.new ≡ put self.old units.now) }
        ensures err { IfErr result (λ cause. cause ≡ TextErr.NoMemory) }
    {
        match self {
            Output::Kept(kept, room) => {
                if units.len() as u64 <= *room {
                    extend(kept, units)?;
                    *room -= units.len() as u64;
                    Ok(())
                } else {
                    *self = Output::Over;
                    Ok(())
                }
            }
            Output::Over => Ok(()),
        }
    }

    /// The text of all that was written; none where it is longer than there was room for. `NoMemory`: there was none for the text.
    pub fn text(self) -> Result<Option<UText>, TextErr>
        ensures ok { IfOk result (λ text. text ≡ kept_in self) }
        ensures err { IfErr result (λ cause. cause ≡ TextErr.NoMemory) }
    {
        match self {
            Output::Kept(units, _room) => match UText::from_units(units.into_vec()) {
                Ok(text) => Ok(Some(text)),
                Err(_) => Err(TextErr::NoMemory),
            },
            Output::Over => Ok(None),
        }
    }
}
