//! What a script and its code change while they run: the store, and what is left to count. One definition serves both meanings.
#![tactic(auto)]
