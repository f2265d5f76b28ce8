//! A forecast: the table's job does not wait for the shift before it, since the height that the shift will leave is predicted.

use crate::jobs;
use crate::tell::Told;
use say::Run;
use std::io;

/// The shift's job number.
const SHIFT: usize = 0;
/// The table's job number: it adds 5.
const TABLE: usize = 1;

/// Up to the report of the shift: by then the table has been guessed, with the height predicted.
fn guessed<'a, P: Print>(
    rt: &'a P,
    insert_table: &str,
    predicted: i32,
    guess: i32,
) -> io::Result<Told<'a, P>> {
    let mut day = Told::open(rt, &[1500])?;
    day.insert("shift 20 on cell 0", jobs::shift(0, 20))?;
    day.insert(insert_table, jobs::forecast(predicted))?;
    day.seal()?;
    day.start(Run::Own, SHIFT)?;
    day.start(Run::Guess, TABLE)?;
    day.report_height(Run::Guess, TABLE, guess)?;
    day.report(Run::Own, SHIFT)?;
    Ok(day)
}

/// The shift leaves what was predicted, and the guess is taken over.
fn right(rt: &impl Print) -> io::Result<()> {
    println!(rt; "# a right forecast")?;
    let table = "an outside job on cell 0, predicted 1520";
    let mut day = guessed(rt, table, 1520, 1525)?;
    day.settle(TABLE)?;
    day.ended(1, 2)
}

/// It does not, and the table's job runs again.
fn wrong(rt: &impl Print) -> io::Result<()> {
    println!(rt; "# a wrong forecast")?;
    let table = "an outside job on cell 0, predicted 1510";
    let mut day = guessed(rt, table, 1510, 1515)?;
    day.settle(TABLE)?;
    day.start(Run::Own, TABLE)?;
    day.report_height(Run::Own, TABLE, 1525)?;
    day.ended(1, 2)
}

pub fn mornings(rt: &impl Print) -> io::Result<()> {
    right(rt)?;
    wrong(rt)
}
