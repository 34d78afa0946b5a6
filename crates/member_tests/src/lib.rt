//! What the clauses of texts, of calls by number and of members found while running do not say, by rows of values.
#![tactic(auto)]

#[cfg(test)]
mod api_text_tests;
#[cfg(test)]
mod def_access_tests;
#[cfg(test)]
mod member_calls_tests;
