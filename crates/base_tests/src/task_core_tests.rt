//! Tasks that note their turns, and tasks that take steps over what they share.

mod adding;
mod noting;
mod steps;
mod tests;
