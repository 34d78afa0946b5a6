//! Scores by functions: reading a list of functions, and the score that a line is given by them.
#![tactic(auto)]

mod error;
mod function;
mod functions;
mod modes;
mod reading;
mod runner;
mod scores;
mod scoring;

pub use error::{FunErr, RunErr, ScoreErr};
pub use function::ScoreFun;
pub use functions::Functions;
pub use modes::{BoostMode, ScoreMode};
pub use runner::FunctionRunner;
pub use scores::{boost, combine, weigh};
pub use scoring::score;
