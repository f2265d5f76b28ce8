//! A morning in which the chooser names every start and every settling.

use crate::jobs;
use crate::tell::Told;
use engine::{Batch, Choice};
use say::Run;
use std::io;

/// The number of jobs of the morning.
const JOBS: usize = 4;
/// More turns than the four jobs can take: each has at most four steps.
const MOST_TURNS: usize = 17;

fn planned<P: Print>(rt: &P) -> io::Result<Told<'_, P>> {
    let mut day = Told::open(rt, &[1390, 1480, 1600])?;
    day.insert("floor 1400 on cell 0", jobs::floor())?;
    day.insert("shift 20 on cell 0", jobs::shift(0, 20))?;
    day.insert("mean on cell 2 of cells 0 1", jobs::mean())?;
    day.insert("shift -5 on cell 1", jobs::shift(1, -5))?;
    day.seal()?;
    Ok(day)
}

/// The run of the job that is out, if one is.
fn run_out(batch: Batch, j: usize) -> Option<Run> {
    let asked = batch.job(j);
    if asked.running == 1 {
        Some(Run::Own)
    } else if asked.phase == 1 {
        Some(Run::Guess)
    } else {
        None
    }
}

/// The last job with a run out, and which run that is.
fn last_out(batch: Batch) -> Option<(usize, Run)> {
    (0..JOBS)
        .rev()
        .find_map(|j| run_out(batch, j).map(|run| (j, run)))
}

/// The step that the chooser named, by its number in the C interface's record.
fn follow<P: Print>(day: &mut Told<'_, P>, choice: Choice) -> io::Result<()> {
    let j = usize::from(choice.job);
    match choice.step {
        4 => day.settle(j),
        0 => day.start(Run::Own, j),
        _ => day.start(Run::Guess, j),
    }
}

/// What the chooser names, or where it names nothing a report.
pub fn turn<P: Print>(day: &mut Told<'_, P>) -> io::Result<()> {
    let choice = day.batch.choose();
    if choice.refusal == 0 {
        println!(day.rt;
            "chosen: step {}, job {}, chain {}",
            choice.step, choice.job, choice.chain
        )?;
        return follow(day, choice);
    }
    println!(day.rt; "chosen: none, {}", choice.refusal)?;
    match last_out(day.batch) {
        Some((j, run)) => day.report(run, j),
        None => Ok(()),
    }
}

/// Turns until the batch is finished.
fn work<P: Print>(day: &mut Told<'_, P>) -> io::Result<()> {
    for _turn in 0..MOST_TURNS {
        if day.batch.progress().finished {
            break;
        }
        turn(day)?;
    }
    Ok(())
}

pub fn morning(rt: &impl Print) -> io::Result<()> {
    println!(rt;
        "# a third morning, by the chooser: 1390, 1480 and 1600, and the first is below its floor"
    )?;
    let mut day = planned(rt)?;
    work(&mut day)?;
    day.finished()?;
    day.ended(3, JOBS)
}
