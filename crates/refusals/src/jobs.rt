//! Jobs to insert.

use dependence::{Access, Job, READ, UNCERTAIN_WRITE, WRITE};
use kinds::{FLOOR, SHIFT};
use sample::{access, job};

/// A job of the kind that has the first `arity` of these accesses, and behind them reads of cells 2 and 3.
fn of_kind(kind: u8, arity: u8, a: Access, b: Access) -> Job {
    job(kind, 20, arity, [a, b, access(2, READ), access(3, READ)])
}

/// A job of the kind with one access.
pub fn of_one(kind: u8, cell: u8, mode: u8) -> Job {
    of_kind(kind, 1, access(cell, mode), access(cell, mode))
}

pub fn floor() -> Job {
    of_one(FLOOR, 0, UNCERTAIN_WRITE)
}

pub fn shift() -> Job {
    of_one(SHIFT, 0, WRITE)
}

/// An outside job that reads the first cells, `arity` of them.
pub fn reader(arity: u8) -> Job {
    of_kind(0, arity, access(0, READ), access(1, READ))
}

/// An outside job of four accesses: it reads cells 0 to 2, and has the mode on cell 3 in its fourth place.
pub fn of_four(mode: u8) -> Job {
    let mut job = reader(4);
    job.accesses[3].mode = mode;
    job
}

/// An outside job that has cell 0 twice.
pub fn twice() -> Job {
    of_kind(0, 2, access(0, READ), access(0, READ))
}
