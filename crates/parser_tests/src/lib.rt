//! What the clauses of the lexer and the parser do not say: scripts with their tokens and their trees.
#![tactic(auto)]

#[cfg(test)]
mod pl_lexer_tests;
#[cfg(test)]
mod pl_parser_tests;
