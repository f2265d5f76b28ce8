//! Four jobs of four accesses through every step: the values handed out, and the cells after each call.
//!
//! Only the fourth places differ, so that every answer turns on them.

use crate::batches;
use engine::{Batch, Report};
use say::{Run, Values};
use std::io;

/// One of the jobs: its number, what it does to cell 3, and what it reports of it.
#[derive(Clone, Copy)]
struct Worker {
    job: usize,
    who: &'static str,
    fourth: i32,
}

const FIRST: Worker = Worker {
    job: 0,
    who: "a maybe-writer",
    fourth: 1444,
};

const WRITER: Worker = Worker {
    job: 1,
    who: "a writer",
    fourth: 1450,
};

const SECOND: Worker = Worker {
    job: 2,
    who: "a maybe-writer",
    fourth: 1475,
};

const READER: Worker = Worker {
    job: 3,
    who: "a reader",
    fourth: 1490,
};

fn all(run: &[i32; 4]) -> Values<'_> {
    Values { run, arity: 4 }
}

/// The batch, and where its calls are told.
#[derive(Drop)]
struct Told<'a, P> {
    rt: &'a P,
    batch: Batch,
}

impl<'a, P: Print> Told<'a, P> {
    /// A start, with the values handed out.
    fn start(&mut self, run: Run, j: usize) -> io::Result<()> {
        let answer = match run {
            Run::Own => self.batch.start_own(j),
            Run::Guess => self.batch.start_speculation(j),
        };
        self.batch = answer.batch;
        println!(self.rt;
            "start {run} {j}: {}, handed{}",
            answer.refusal,
            all(&answer.handed)
        )
    }

    /// A report, with the cells after it. In the places that a job only reads it has values that must not count.
    fn report(&mut self, run: Run, worker: Worker, mark: u8) -> io::Result<()> {
        let j = worker.job;
        let report = Report {
            values: [1, 2, 3, worker.fourth],
            wrote: mark,
        };
        let answer = match run {
            Run::Own => self.batch.report_own(j, report),
            Run::Guess => self.batch.report_speculation(j, report),
        };
        self.batch = answer.batch;
        print!(self.rt;
            "report {run} {j}, {}, with mark {mark}: {}",
            worker.who, answer.refusal
        )?;
        self.cells()
    }

    /// A settling, with the cells after it.
    fn settle(&mut self, j: usize, when: &str) -> io::Result<()> {
        let answer = self.batch.commit(j);
        self.batch = answer.batch;
        print!(self.rt; "settle {j}{when}: {}", answer.refusal)?;
        self.cells()
    }

    fn cells(&self) -> io::Result<()> {
        let mut cells = [0; 4];
        self.batch.copy_out(&mut cells, 0);
        println!(self.rt; ", cells{}", all(&cells))
    }

    /// What is stored of the job's report.
    fn stored(&self, j: usize) -> io::Result<()> {
        println!(self.rt; "stored of job {j}:{}", all(&self.batch.job(j).reported))
    }

    /// The guess of job 2, a maybe-writer, and that of job 3, a reader.
    fn later_guesses(&mut self) -> io::Result<()> {
        self.start(Run::Guess, 2)?;
        self.report(Run::Guess, SECOND, 1)?;
        self.stored(2)?;
        self.start(Run::Guess, 3)?;
        self.report(Run::Guess, READER, 1)?;
        self.report(Run::Guess, READER, 0)?;
        self.stored(3)
    }
}

/// The own run of job 0 is out, and the guess of job 1, a writer, is reported.
fn first_guess<P: Print>(rt: &P) -> io::Result<Told<'_, P>> {
    let mut four = Told {
        rt,
        batch: batches::of_four(),
    };
    four.start(Run::Own, 0)?;
    four.start(Run::Guess, 1)?;
    four.report(Run::Guess, WRITER, 1)?;
    four.report(Run::Guess, WRITER, 0)?;
    four.stored(1)?;
    Ok(four)
}

/// Job 0 writes nothing, so the guesses of jobs 1 and 2 stand. Job 2 wrote, so that of job 3 has fallen.
pub fn guesses_settled(rt: &impl Print) -> io::Result<()> {
    println!(rt;
        "# four jobs that access cells 0 to 3, in the fourth place a maybe-write, a write, a maybe-write, a read"
    )?;
    let mut four = first_guess(rt)?;
    four.later_guesses()?;
    four.report(Run::Own, FIRST, 0)?;
    four.stored(0)?;
    four.settle(1, "")?;
    four.settle(2, "")?;
    four.settle(3, ", its guess has fallen")?;
    four.start(Run::Own, 3)?;
    four.report(Run::Own, READER, 1)?;
    four.report(Run::Own, READER, 0)
}

/// Job 0 writes its cell, so the guess of job 1 has fallen, and the jobs run in their order.
pub fn guess_fallen(rt: &impl Print) -> io::Result<()> {
    println!(rt; "# the same four jobs, and the first writes")?;
    let mut four = first_guess(rt)?;
    four.report(Run::Own, FIRST, 1)?;
    four.settle(1, ", its guess has fallen")?;
    four.start(Run::Own, 1)?;
    four.report(Run::Own, WRITER, 1)?;
    four.report(Run::Own, WRITER, 0)?;
    four.start(Run::Own, 2)?;
    four.report(Run::Own, SECOND, 1)
}
