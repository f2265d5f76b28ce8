//! Refusal 32: a sound record with one field damaged, and what the entries answer.

use crate::batches::{Point, at};
use crate::jobs::{floor, of_one};
use dependence::READ;
use engine::{Batch, Report};
use std::io;

/// Job 0 is settled, and the stored guess of job 1 stands.
fn sound() -> Batch {
    at(Point::Standing)
}

fn answers(rt: &impl Print, what: &str, batch: Batch) -> io::Result<()> {
    println!(rt;
        "{what}: step {}, choose {}, insert {}, seal {}, cell {}, job {}, progress {}, copy out {}",
        batch.step(4, 1, Report::default()).refusal,
        batch.choose().refusal,
        batch.insert(floor()).refusal,
        batch.seal(1).refusal,
        batch.cell(0).refusal,
        batch.job(0).refusal,
        batch.progress().refusal,
        batch.copy_out(&mut [9; 7], 0)
    )
}

/// The answers for the sound record, once a field of it is damaged.
fn damaged<F: FnOnce(&mut Batch)>(rt: &impl Print, what: &str, damage: F) -> io::Result<()>
    requires { F.IsAlwaysCallable damage }
{
    let mut batch = sound();
    damage(&mut batch);
    answers(rt, what, batch)
}

pub fn records(rt: &impl Print) -> io::Result<()> {
    println!(rt; "# any caller: a record with one field damaged")?;
    answers(rt, "nothing damaged", sound())?;
    damaged(rt, "0 cells", |batch| batch.cell_count = 0)?;
    damaged(rt, "65 cells", |batch| batch.cell_count = 65)?;
    damaged(rt, "129 jobs", |batch| batch.job_count = 129)?;
    damaged(rt, "sealed 2", |batch| batch.sealed = 2)?;
    damaged(rt, "guess switch 2", |batch| batch.speculating = 2)?;
    damaged(
        rt,
        "a job with mode 4",
        |batch| batch.jobs[1] = of_one(0, 0, 4),
    )?;
    damaged(
        rt,
        "a job of kind 7",
        |batch| batch.jobs[1] = of_one(7, 0, READ),
    )?;
    damaged(rt, "settled 3", |batch| batch.committed[1] = 3)?;
    damaged(rt, "own run 2", |batch| batch.running[1] = 2)?;
    damaged(rt, "guess 4", |batch| batch.phase[1] = 4)?;
    damaged(rt, "mark 2", |batch| batch.runs[1].wrote = 2)?;
    damaged(
        rt,
        "job 1 took from job 1",
        |batch| batch.runs[1].sources[0] = 2,
    )?;
    damaged(
        rt,
        "job 1 looked past job 1",
        |batch| batch.runs[1].bypassed.low = 3,
    )
}
