//! Monday and Thursday: a spike test at the gauge, and a datum shift behind it that is guessed.

use crate::jobs;
use crate::tell::Told;
use say::Run;
use std::io;

/// The spike test's job number.
pub const TEST: usize = 0;
/// The datum shift's job number.
pub const SHIFT: usize = 1;

pub fn what_to_look_for(rt: &impl Print) -> io::Result<()> {
    for line in [
        "# what to look for",
        "A guess runs a job early, as if the check before it passed the height.",
        "Monday: the check passes 1500, and the guess built on it is taken over.",
        "Thursday: the check strikes out 2900, so the guess built on it has fallen and none of it stays in a cell.",
        "The third morning: the chooser names each step, and where it names none a run is reported.",
        "Monday again: jobs that come late, at whatever moment, are the last of the list.",
        "Two forecasts: a guess is handed a predicted height, and a wrong one changes no height at the end.",
        "After each call: 0 or the refusal, then what was handed out or reported, or the job's first cell after it.",
    ] {
        rt.println(line)?;
    }
    Ok(())
}

/// The two jobs inserted and sealed.
pub fn planned<P: Print>(rt: &P, heights: [i32; 2]) -> io::Result<Told<'_, P>> {
    let mut day = Told::open(rt, &heights)?;
    day.insert("spike 1000 on cells 0 1", jobs::spike())?;
    day.insert("shift 20 on cell 0", jobs::shift(0, 20))?;
    day.seal()?;
    Ok(day)
}

/// Up to the report of the spike test: by then the shift has been guessed.
fn guessed<P: Print>(rt: &P, heights: [i32; 2]) -> io::Result<Told<'_, P>> {
    let mut day = planned(rt, heights)?;
    day.start(Run::Own, TEST)?;
    day.start(Run::Guess, SHIFT)?;
    day.report(Run::Guess, SHIFT)?;
    day.report(Run::Own, TEST)?;
    Ok(day)
}

/// The test finds the height sound, and the guess is taken over.
pub fn monday(rt: &impl Print) -> io::Result<()> {
    println!(rt; "# Monday: 1500 at the gauge, 1480 beside it")?;
    let mut day = guessed(rt, [1500, 1480])?;
    day.settle(SHIFT)?;
    day.ended(2, 2)
}

/// The test strikes the height out, and the shift runs again.
pub fn thursday(rt: &impl Print) -> io::Result<()> {
    println!(rt; "# Thursday: 2900 at the gauge, 1500 beside it")?;
    let mut day = guessed(rt, [2900, 1500])?;
    day.settle(SHIFT)?;
    day.start(Run::Own, SHIFT)?;
    day.report(Run::Own, SHIFT)?;
    day.ended(2, 2)
}
