//! Jobs made by hand, for the programs.
#![tactic(auto)]

ghost use Rattle.std.specs.Prelude.{◌≡◌, replicate, pos};

use dependence::{Access, Job};

pub fn access(cell: u8, mode: u8) -> Access
    ensures { (result.cell ≡ cell) × (result.mode ≡ mode) }
{
    Access { cell, mode }
}

/// A job of the kind with these four places, of which the first `arity` are in use. It predicts nothing.
pub fn job(kind: u8, parameter: i32, arity: u8, accesses: [Access; 4]) -> Job
    ensures { result ≡ record { kind = kind; arity = arity; accesses = accesses; parameter = parameter; predicted = replicate 4 (pos 0) } }
{
    Job {
        kind,
        arity,
        accesses,
        parameter,
        predicted: [0; 4],
    }
}
