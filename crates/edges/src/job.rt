//! Jobs to ask about: outside jobs, of kind 0.

use dependence::{Access, Job, READ};
use sample::{access, job};

/// A job of one access. The unused places hold a read of cell 0.
pub fn of_one(cell: u8, mode: u8) -> Job {
    let unused = access(0, READ);
    job(0, 0, 1, [access(cell, mode), unused, unused, unused])
}

/// A job of two accesses, to cells 5 and 6.
pub fn of_two(of_5: u8, of_6: u8) -> Job {
    let unused = access(0, READ);
    job(0, 0, 2, [access(5, of_5), access(6, of_6), unused, unused])
}

/// A job that reads cells 1 to 3 and has the access in its last place; the first `arity` places are in use.
pub fn last_place(arity: u8, last: Access) -> Job {
    let accesses = [access(1, READ), access(2, READ), access(3, READ), last];
    job(0, 0, arity, accesses)
}
