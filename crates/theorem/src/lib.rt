//! The proofs of the statements in crates/claims: one theorem for each. It has no code.
#![tactic(auto)]
