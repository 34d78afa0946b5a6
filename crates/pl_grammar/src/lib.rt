//! The grammar of the whole language, as data: its productions, what they derive and begin, how it is read, and how deep
//! brackets may nest. The parser's functions read by it.
#![tactic(auto)]

mod ahead;
mod level;
mod parts;
mod stop;
mod terminal;

pub use ahead::{Seen, is_final, look, sees};
pub use level::{Level, Looser, sign_of, tighter};
pub use parts::{
    Contents, ElvisRest, ExprRest, ForRest, Member, More, New, Operation, Placed, Suffix, Tail,
    Three,
};
pub use stop::Stop;
pub use terminal::{Terminal, matches, terminal_of};
