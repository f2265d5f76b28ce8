//! Batches at the points where the calls are made.

use crate::jobs;
use dependence::{Job, READ, UNCERTAIN_WRITE, WRITE};
use engine::{Batch, Report};

/// A point of a batch.
#[derive(Clone, Copy)]
pub enum Point {
    /// Four cells and no job.
    Opened,
    /// The same, sealed.
    SealedEmpty,
    /// The same, and then a floor inserted.
    SealedThenOne,
    /// A floor and two shifts behind it on one cell.
    Unsealed,
    /// These, sealed with guessing off.
    GuessingOff,
    /// Sealed with guessing on.
    Sealed,
    /// The own run of job 0 is out.
    OwnOut,
    /// The guess of job 1 is out too.
    GuessOut,
    /// The guess of job 1 is reported.
    GuessStored,
    /// Job 0 is settled with mark 0.
    Standing,
    /// Job 0 is settled with mark 1.
    Fallen,
    /// Job 1 is settled by its guess.
    TakenOver,
    /// The own run of job 1 is out in place of its fallen guess.
    ThrownAway,
}

/// The batch at the point.
pub fn at(point: Point) -> Batch {
    match point {
        Point::Opened => opened(),
        Point::SealedEmpty => opened().seal(1).batch,
        Point::SealedThenOne => opened().seal(1).batch.insert(jobs::floor()).batch,
        Point::Unsealed => unsealed(),
        Point::GuessingOff => unsealed().seal(0).batch,
        Point::Sealed => sealed(),
        Point::OwnOut => own_out(),
        Point::GuessOut => guess_out(),
        Point::GuessStored => guess_stored(),
        Point::Standing => settled(0),
        Point::Fallen => settled(1),
        Point::TakenOver => settled(0).commit(1).batch,
        Point::ThrownAway => settled(1).start_own(1).batch,
    }
}

fn opened() -> Batch {
    Batch::open(&[1500, 1480, 1460, 1440]).batch
}

fn with_jobs(jobs: &[Job]) -> Batch {
    jobs.iter()
        .fold(opened(), |batch, job| batch.insert(*job).batch)
}

/// With 127 jobs.
pub fn nearly_full() -> Batch {
    with_jobs(&[jobs::floor(); 127])
}

/// Sealed, with four jobs of four accesses. In the fourth place they maybe-write, write, maybe-write and read.
pub fn of_four() -> Batch {
    let modes = [UNCERTAIN_WRITE, WRITE, UNCERTAIN_WRITE, READ];
    with_jobs(&modes.map(jobs::of_four)).seal(1).batch
}

fn unsealed() -> Batch {
    with_jobs(&[jobs::floor(), jobs::shift(), jobs::shift()])
}

fn sealed() -> Batch {
    unsealed().seal(1).batch
}

/// The report of a height, by a job whose first access writes it.
pub fn report(height: i32, wrote: u8) -> Report {
    Report {
        values: [height, 0, 0, 0],
        wrote,
    }
}

fn own_out() -> Batch {
    sealed().start_own(0).batch
}

fn guess_out() -> Batch {
    own_out().start_speculation(1).batch
}

fn guess_stored() -> Batch {
    guess_out().report_speculation(1, report(1520, 0)).batch
}

/// Job 0 settled with the mark, below the stored guess of job 1.
fn settled(mark: u8) -> Batch {
    guess_stored().report_own(0, report(1600, mark)).batch
}
