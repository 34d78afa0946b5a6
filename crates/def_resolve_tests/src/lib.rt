//! What the clauses of `def_resolve` and `function_calls` do not say: which members calls, names, indices and references mean, what a
//! function value calls, by rows of values, and what is thrown where there is none.
#![tactic(auto)]

#[cfg(test)]
mod accesses;
#[cfg(test)]
mod calls;
#[cfg(test)]
mod failures;
#[cfg(test)]
mod functions;
#[cfg(test)]
mod members;
#[cfg(test)]
mod sample;
