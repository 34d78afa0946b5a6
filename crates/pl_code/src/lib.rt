//! Code: functions of instructions, and its listing, which is written and read.
#![tactic(auto)]

mod code;
mod error;
mod fields;
mod head;
mod kinds;
mod laws;
mod line;
mod reading;
mod writing;

pub use code::{Code, FunCode, Instruction, Trap};
pub use error::ListingErr;
pub use head::{HEADS, Head, head_of, head_word};
pub use kinds::{
    ArithmeticOp, DynamicOp, Numbered, Plain, Quoting, Sized, Slot, Typed, Way, Width,
};
pub use laws::{code_is_formed, listing_laws, read_back, word_laws};
pub use listing_parts::{TypeName, Word};
pub use reading::read_listing;
pub use writing::listing;
