//! Small codes, from their listings to what their runs leave, and runs of verified code that take turns in an order.
#![tactic(auto)]

#[cfg(test)]
mod rows;
#[cfg(test)]
mod tests;
#[cfg(test)]
mod verified;
