//! What members of lists, sets and maps come to, before it is paid: one `Outcome` for all of them, how it is paid, and what it keeps.
#![tactic(auto)]

mod comparing;
mod errors;
mod guards;
mod laws;
mod outcome;
mod paying;
mod values;

pub use comparing::{Compared, Found, compare, compare_entries};
pub use errors::{
    array_index_error, fails, index_error, not_simple, null_error, says, too_deep, too_large,
    unsupported,
};
pub use guards::is_open;
pub use laws::outcomes_keep_fit;
pub use outcome::{Outcome, Raised};
pub use paying::{cut_key, cut_pair, drop_key};
pub use values::{copied, given, shared};
