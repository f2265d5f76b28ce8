//! What is claimed, and nothing of how it is proved. It has no code; read specs/Demand3.antt first, and crates/theorem for the proofs.
#![tactic(auto)]
