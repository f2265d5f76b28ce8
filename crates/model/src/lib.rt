//! The abstract state machine behind demand 3: a batch as functions of job and cell, its invariant, and one lemma for
//! each action, which says that the action keeps the invariant. It has no code.
#![tactic(auto)]
