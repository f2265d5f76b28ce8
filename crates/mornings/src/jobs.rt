//! The jobs of the mornings. The places that are not in use hold a read of cell 0.

use dependence::{Job, PREDICTED_WRITE, READ, UNCERTAIN_WRITE, WRITE};
use kinds::{FLOOR, MEAN, SHIFT, SPIKE};
use sample::{access, job};

/// A job of the kind with one access.
fn of_one(kind: u8, parameter: i32, cell: u8, mode: u8) -> Job {
    let unused = access(0, READ);
    job(
        kind,
        parameter,
        1,
        [access(cell, mode), unused, unused, unused],
    )
}

/// Puts the height of cell 1 into cell 0 if they are more than 1000 apart.
pub fn spike() -> Job {
    let unused = access(0, READ);
    let accesses = [access(0, UNCERTAIN_WRITE), access(1, READ), unused, unused];
    job(SPIKE, 1000, 2, accesses)
}

/// Moves the height of the cell.
pub fn shift(cell: u8, by: i32) -> Job {
    of_one(SHIFT, by, cell, WRITE)
}

/// Raises cell 0 to 1400.
pub fn floor() -> Job {
    of_one(FLOOR, 1400, 0, UNCERTAIN_WRITE)
}

/// Puts the mean of cells 0 and 1 into cell 2.
pub fn mean() -> Job {
    let read = access(0, READ);
    job(MEAN, 0, 3, [access(2, WRITE), read, access(1, READ), read])
}

/// An outside job that writes cell 0, and predicts the height that it will find there.
pub fn forecast(height: i32) -> Job {
    let mut job = of_one(0, 0, 0, PREDICTED_WRITE);
    job.predicted[0] = height;
    job
}
