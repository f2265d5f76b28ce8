//! Where a speculative run's values come from: for each cell of its job a walk back over the earlier jobs that are not
//! committed, past the maybe-writers, to the nearest writer. A predicted cell needs no walk.
#![tactic(auto)]

pub mod origins;
