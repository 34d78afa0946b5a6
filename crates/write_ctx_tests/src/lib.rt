//! What the clauses of `write_ctx` do not say, by texts: lines with what they are bound to, and what a script leaves with its reply.
#![tactic(auto)]

#[cfg(test)]
mod binding;
#[cfg(test)]
mod changes;
#[cfg(test)]
mod lines;
#[cfg(test)]
mod replies;
#[cfg(test)]
mod shown;
