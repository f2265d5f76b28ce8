//! The rules as definitions, written once: what a run is handed and what of its report counts, which jobs a
//! speculative run depends on, and what is refused. It has no code. The engine's contracts cite them, and so does the
//! judge of the ledger.
#![tactic(auto)]
