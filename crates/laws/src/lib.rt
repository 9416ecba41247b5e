// Definitions that every crate shares, and their laws.
#![tactic(auto)]
