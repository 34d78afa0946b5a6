//! Listings of the code of small programs.
#![tactic(auto)]

#[cfg(test)]
mod accesses;
#[cfg(test)]
mod build;
#[cfg(test)]
mod containers;
#[cfg(test)]
mod members;
#[cfg(test)]
mod references;
#[cfg(test)]
mod tests;
#[cfg(test)]
mod tries;
