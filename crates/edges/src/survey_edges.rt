//! The words of a job's cells, and the survey of 128 jobs.

ghost use Rattle.std.specs.Prelude.{◌≤◌};

use crate::job::{last_place, of_one, of_two};
use cellset::Cells;
use cellset::survey::{judged_rank, survey};
use dependence::{PREDICTED_WRITE, READ, UNCERTAIN_WRITE, WRITE};
use sample::access;
use std::io;

/// No job settled, or no guess out.
const NONE: [u8; 128] = [0; 128];

pub fn words(rt: &impl Print) -> io::Result<()> {
    println!(rt; "# the words of a job's cells")?;
    let first = Cells::of(of_one(0, READ));
    let last = Cells::of(of_one(63, WRITE));
    let past = Cells::of(of_one(64, WRITE));
    let both = Cells::of(of_two(UNCERTAIN_WRITE, PREDICTED_WRITE));
    let unused = Cells::of(last_place(3, access(5, WRITE)));
    for (what, word) in [
        ("read 0, named", first.named),
        ("read 0, written", first.written),
        ("read 0, looked back for", first.back),
        ("write 63, written", last.written),
        ("write 64, past the word, named", past.named),
        ("maybe-write 5 and predicted write 6, named", both.named),
        (
            "maybe-write 5 and predicted write 6, surely written",
            both.sure,
        ),
        (
            "maybe-write 5 and predicted write 6, looked back for",
            both.back,
        ),
        (
            "write 5 at place 3 of 3, not in use, written",
            unused.written,
        ),
    ] {
        println!(rt; "Cells::of: {what} = {word}")?;
    }
    Ok(())
}

/// What the survey tells of the first `n` jobs, of which the last of 128 has cells of its own. Their own runs are not out.
fn told(
    n: usize,
    on: bool,
    cells: Cells,
    last: Cells,
    settled: [u8; 128],
    phases: [u8; 128],
) -> [u8; 128]
    requires { n ≤ 128 }
{
    // A column for each word of the cells: so `survey` takes them.
    let mut named = [cells.named; 128];
    let mut written = [cells.written; 128];
    let mut sure = [cells.sure; 128];
    let mut back = [cells.back; 128];
    named[127] = last.named;
    written[127] = last.written;
    sure[127] = last.sure;
    back[127] = last.back;
    let mut ranks = [0u8; 128];
    survey(
        on, n, &named, &written, &sure, &back, &settled, &NONE, &phases, &mut ranks,
    );
    ranks
}

/// A line for each of these ranks.
fn ranks(rt: &impl Print, rows: &[(&str, u8)]) -> io::Result<()> {
    for (what, rank) in rows {
        println!(rt; "survey: {what} = {rank}")?;
    }
    Ok(())
}

pub fn writers(rt: &impl Print) -> io::Result<()> {
    println!(rt;
        "# the survey of 128 writers of one cell: 4 to be judged, 2 for step 0, 1 for step 1"
    )?;
    let writer = Cells::of(of_one(5, WRITE));
    let early = told(128, false, writer, writer, NONE, NONE);
    let mut settled = [1; 128];
    settled[127] = 0;
    let late = told(128, false, writer, writer, settled, NONE);
    settled[0] = 0;
    let held = told(128, false, writer, writer, settled, NONE);
    ranks(
        rt,
        &[
            ("none settled, job 0", early[0]),
            ("none settled, job 1", early[1]),
            ("none settled, job 127", early[127]),
            ("all others settled, job 126", late[126]),
            ("all others settled, job 127", late[127]),
            ("job 0 not settled, job 127", held[127]),
        ],
    )
}

pub fn readers(rt: &impl Print) -> io::Result<()> {
    println!(rt; "# the survey of 127 readers of one cell and then a writer, none settled")?;
    let reader = Cells::of(of_one(5, READ));
    let writer = Cells::of(of_one(5, WRITE));
    let mixed = told(128, true, reader, writer, NONE, NONE);
    let calm = told(128, false, reader, writer, NONE, NONE);
    ranks(
        rt,
        &[
            ("job 126", mixed[126]),
            ("job 127, guessing on", mixed[127]),
            ("job 127, guessing off", calm[127]),
        ],
    )
}

pub fn runs(rt: &impl Print) -> io::Result<()> {
    println!(rt;
        "# the survey of 127 writers of one cell and then a reader, by the guesses of the writers"
    )?;
    let writer = Cells::of(of_one(5, WRITE));
    let reader = Cells::of(of_one(5, READ));
    let mut phases = [2; 128];
    phases[127] = 0;
    let stored = told(128, true, writer, reader, NONE, phases);
    phases[126] = 1;
    let last_out = told(128, true, writer, reader, NONE, phases);
    phases[126] = 2;
    phases[0] = 1;
    let first_out = told(128, true, writer, reader, NONE, phases);
    ranks(
        rt,
        &[
            ("all stored, job 0", stored[0]),
            ("all stored, job 127", stored[127]),
            ("the last one out, job 127", last_out[127]),
            ("the first one out, job 0", first_out[0]),
            ("the first one out, job 127", first_out[127]),
        ],
    )
}

pub fn judged(rt: &impl Print) -> io::Result<()> {
    println!(rt; "# the rank of a job whose guess is judged: 3 for step 4, 2 for step 0")?;
    for (what, running, phase, stale) in [
        ("stored, stands", 0, 2, false),
        ("stored, has fallen", 0, 2, true),
        ("out, stands", 0, 1, false),
        ("out, has fallen", 0, 1, true),
        ("out, has fallen, its own run out", 1, 1, true),
    ] {
        println!(rt;
            "judged_rank: {what} = {}",
            judged_rank(running, phase, stale)
        )?;
    }
    Ok(())
}

pub fn counts(rt: &impl Print) -> io::Result<()> {
    println!(rt; "# the survey of readers of one cell, by the number of jobs")?;
    let reader = Cells::of(of_one(5, READ));
    for (n, j) in [(0, 0), (127, 126), (127, 127)] {
        let ranks = told(n, false, reader, reader, NONE, NONE);
        println!(rt; "survey: {n} jobs, job {j} = {}", ranks[j])?;
    }
    Ok(())
}
