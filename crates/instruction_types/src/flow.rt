//! Where an instruction goes on.

ghost use Rattle.std.specs.Prelude.{◌≡◌};
ghost use Rattle.instruction_types.specs.Effects.{plain_flow, numbered_flow, flow_of};

use pl_code::{Instruction, Numbered, Plain};

/// Where an instruction goes on.
#[derive(Clone, Copy)]
pub enum Flow {
    /// At the next line.
    GoesOn,
    /// At a line.
    Jumps(u32),
    /// At the next line or at this one.
    Branches(u32),
    /// At the next line, or back at this one, with nothing on the stack.
    Turns(u32),
    /// Nowhere.
    Ends,
}

/// Where an instruction goes on.
#[tactic(auto, unfolding(crate::specs::Effects::flow_of))]
pub fn flow_of(instruction: &Instruction) -> Flow
    ensures { result ≡ flow_of instruction.now }
{
    match instruction {
        Instruction::Plain(plain) => plain_flow(*plain),
        Instruction::Numbered(numbered, number) => numbered_flow(*numbered, *number),
        Instruction::Arithmetic(_, _) => Flow::GoesOn,
        Instruction::Dynamic(_) => Flow::GoesOn,
        Instruction::Int(_) => Flow::GoesOn,
        Instruction::Long(_) => Flow::GoesOn,
        Instruction::Quoted(_, _) => Flow::GoesOn,
        Instruction::Boxing(_) => Flow::GoesOn,
        Instruction::Unboxing(_, _) => Flow::GoesOn,
        Instruction::Cast(_, _) => Flow::GoesOn,
        Instruction::Typed(_, _) => Flow::GoesOn,
        Instruction::Sized(_, _, _) => Flow::GoesOn,
        Instruction::DefCall(_, _) => Flow::GoesOn,
        Instruction::Invoke(_) => Flow::GoesOn,
        Instruction::New(_) => Flow::GoesOn,
        Instruction::Field(_) => Flow::GoesOn,
        Instruction::Lambda(_, _, _) => Flow::GoesOn,
        Instruction::Ref(_, _, _) => Flow::GoesOn,
        Instruction::NewRef(_, _) => Flow::GoesOn,
    }
}

fn plain_flow(plain: Plain) -> Flow
    ensures { result ≡ plain_flow plain }
{
    match plain {
        Plain::Throw | Plain::Ret => Flow::Ends,
        _ => Flow::GoesOn,
    }
}

fn numbered_flow(numbered: Numbered, number: u32) -> Flow
    ensures { result ≡ numbered_flow numbered number }
{
    match numbered {
        Numbered::Goto => Flow::Jumps(number),
        Numbered::IfZero | Numbered::IfNotZero | Numbered::IfNull => Flow::Branches(number),
        Numbered::Loop => Flow::Turns(number),
        _ => Flow::GoesOn,
    }
}
