//! What members of all classes share: their arguments, found by their places, and how a text that they make is paid.
#![tactic(auto)]

mod arguments;
mod paying;

pub use arguments::{
    byte_at, char_at, flag_at, int_at, long_at, object_at, sequence_at, text_at, value_at,
};
pub use paying::{pay_text, text_room};
