//! The planner's refusals, 1 to 9.

use crate::batches::{Point, at, nearly_full};
use crate::jobs::{floor, of_one, reader, twice};
use dependence::{PREDICTED_WRITE, READ, UNCERTAIN_WRITE};
use engine::Batch;
use kinds::SHIFT;
use std::io;

pub fn opening(rt: &impl Print) -> io::Result<()> {
    let most = [0; 64];
    println!(rt; "# the planner: opening")?;
    for (cells, heights) in [
        ("no cells", &most[..0]),
        ("1 cell", &most[..1]),
        ("64 cells", &most),
        ("65 cells", &[0; 65]),
    ] {
        println!(rt; "open with {cells}: {}", Batch::open(heights).refusal)?;
    }
    Ok(())
}

pub fn inserting(rt: &impl Print) -> io::Result<()> {
    println!(rt; "# the planner: inserting")?;
    let full = nearly_full().insert(floor());
    println!(rt; "insert the 128th job: {}", full.refusal)?;
    let batch = full.batch;
    for (what, batch, job) in [
        ("one job more", batch, floor()),
        ("after sealing", at(Point::Sealed), floor()),
        ("with runs out", at(Point::GuessOut), floor()),
        (
            "a job of no access after sealing",
            at(Point::Sealed),
            reader(0),
        ),
        ("one job more after sealing", batch.seal(1).batch, floor()),
    ] {
        println!(rt; "insert {what}: {}", batch.insert(job).refusal)?;
    }
    Ok(())
}

/// Refusals 4 to 8.
pub fn of_a_job(rt: &impl Print) -> io::Result<()> {
    for (what, job) in [
        ("a job of no access", reader(0)),
        ("a job of 1 access", reader(1)),
        ("a job of 4 accesses", reader(4)),
        ("a job of 5 accesses", reader(5)),
        ("an access to cell 3", of_one(0, 3, READ)),
        ("an access to cell 4", of_one(0, 4, READ)),
        ("an access of mode 2", of_one(0, 0, UNCERTAIN_WRITE)),
        ("an access of mode 3", of_one(0, 0, PREDICTED_WRITE)),
        ("an access of mode 4", of_one(0, 0, 4)),
        ("a job with cell 0 twice", twice()),
        ("a shift that only reads", of_one(SHIFT, 0, READ)),
        (
            "a shift with a prediction",
            of_one(SHIFT, 0, PREDICTED_WRITE),
        ),
        ("a job of kind 7", of_one(7, 0, READ)),
    ] {
        println!(rt; "insert {what}: {}", at(Point::Opened).insert(job).refusal)?;
    }
    for kind in [0, 7] {
        let outcome = kinds::result(kind, 20, [1500, 0, 0, 0]);
        println!(rt; "result of kind {kind}: {}", outcome.refusal)?;
    }
    Ok(())
}

pub fn sealing(rt: &impl Print) -> io::Result<()> {
    println!(rt; "# the planner: sealing")?;
    for (when, point, switch) in [
        ("with guess switch 0", Point::Unsealed, 0),
        ("with guess switch 1", Point::Unsealed, 1),
        ("with guess switch 2", Point::Unsealed, 2),
        ("after sealing", Point::Sealed, 1),
        ("after sealing and an insert", Point::SealedThenOne, 1),
    ] {
        println!(rt; "seal {when}: {}", at(point).seal(switch).refusal)?;
    }
    Ok(())
}
