//! Monday again, with corrections that the harbour master rings in when the batch is sealed.

use crate::tell::Told;
use crate::week::{SHIFT, TEST};
use crate::{chosen, jobs, week};
use say::Run;
use std::io;

/// The first correction's job number.
const CORRECTION: usize = 2;

/// With the test and the guess of the shift out: the correction behind them is guessed too, once the shift has reported.
fn with_runs_out<P: Print>(day: &mut Told<'_, P>) -> io::Result<()> {
    day.start(Run::Own, TEST)?;
    day.start(Run::Guess, SHIFT)?;
    day.insert("shift 5 on cell 0", jobs::shift(0, 5))?;
    day.start(Run::Guess, CORRECTION)?;
    day.report(Run::Guess, SHIFT)?;
    day.start(Run::Guess, CORRECTION)?;
    day.report(Run::Guess, CORRECTION)?;
    day.report(Run::Own, TEST)?;
    day.settle(SHIFT)?;
    day.settle(CORRECTION)
}

/// With all jobs settled: the batch goes on.
fn when_finished<P: Print>(day: &mut Told<'_, P>) -> io::Result<()> {
    day.finished()?;
    day.insert("shift -3 on cell 1", jobs::shift(1, -3))?;
    day.finished()?;
    chosen::turn(day)?;
    chosen::turn(day)
}

pub fn morning(rt: &impl Print) -> io::Result<()> {
    println!(rt;
        "# Monday again: one correction rings in with runs out, another when all is settled"
    )?;
    let mut day = week::planned(rt, [1500, 1480])?;
    with_runs_out(&mut day)?;
    when_finished(&mut day)?;
    day.finished()?;
    day.ended(2, 4)
}
