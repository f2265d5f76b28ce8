//! The rules' worked examples as one table, shown by one theorem about the definitions. It has no code.
#![tactic(auto)]
