//! Calls of the engine, each told in a line with what it answers.

use dependence::Job;
use engine::{Batch, Report};
use kinds::Outcome;
use say::{Height, Run, Values, yes_no};
use std::{fmt, io};

/// The first cell of a job and its height, to be written.
#[derive(Clone, Copy)]
struct FirstCell {
    cell: u8,
    height: Height,
}

impl fmt::Display for FirstCell {
    fn fmt<W: fmt::Write>(&self, f: &mut fmt::Formatter<W>) -> fmt::Result {
        write!(f, "cell {} is {}", self.cell, self.height)
    }
}

/// A batch, and where its calls are told.
#[derive(Drop)]
pub struct Told<'a, P> {
    pub rt: &'a P,
    pub batch: Batch,
}

impl<'a, P: Print> Told<'a, P> {
    pub fn open(rt: &'a P, heights: &[i32]) -> io::Result<Told<'a, P>> {
        let answer = Batch::open(heights);
        println!(rt; "open: {}", answer.refusal)?;
        Ok(Told {
            rt,
            batch: answer.batch,
        })
    }

    pub fn insert(&mut self, what: &str, job: Job) -> io::Result<()> {
        let answer = self.batch.insert(job);
        self.batch = answer.batch;
        println!(self.rt; "insert {what}: {}", answer.refusal)
    }

    pub fn seal(&mut self) -> io::Result<()> {
        let answer = self.batch.seal(1);
        self.batch = answer.batch;
        println!(self.rt; "seal, guessing on: {}", answer.refusal)
    }

    pub fn start(&mut self, run: Run, j: usize) -> io::Result<()> {
        let answer = match run {
            Run::Own => self.batch.start_own(j),
            Run::Guess => self.batch.start_speculation(j),
        };
        self.batch = answer.batch;
        let handed = Values {
            run: &answer.handed,
            arity: self.batch.job(j).job.arity,
        };
        println!(self.rt; "start {run}, job {j}: {}, handed{handed}", answer.refusal)
    }

    /// Reports what the job's kind makes of the heights that its run was handed.
    pub fn report(&mut self, run: Run, j: usize) -> io::Result<()> {
        let asked = self.batch.job(j);
        let outcome = kinds::result(asked.job.kind, asked.job.parameter, asked.handed);
        self.report_outcome(run, j, outcome)
    }

    /// Reports a height for an outside job of one cell.
    pub fn report_height(&mut self, run: Run, j: usize, height: i32) -> io::Result<()> {
        let outcome = Outcome {
            refusal: 0,
            values: [height, 0, 0, 0],
            wrote: 0,
        };
        self.report_outcome(run, j, outcome)
    }

    fn report_outcome(&mut self, run: Run, j: usize, outcome: Outcome) -> io::Result<()> {
        let Outcome { values, wrote, .. } = outcome;
        let report = Report { values, wrote };
        let answer = match run {
            Run::Own => self.batch.report_own(j, report),
            Run::Guess => self.batch.report_speculation(j, report),
        };
        self.batch = answer.batch;
        let values = Values {
            run: &outcome.values,
            arity: self.batch.job(j).job.arity,
        };
        println!(self.rt;
            "report {run}, job {j}: {}, reported{values} mark {}, {}",
            answer.refusal,
            outcome.wrote,
            self.first_cell(j)
        )
    }

    pub fn settle(&mut self, j: usize) -> io::Result<()> {
        let answer = self.batch.commit(j);
        self.batch = answer.batch;
        println!(self.rt;
            "settle, job {j}: {}, {}",
            answer.refusal,
            self.first_cell(j)
        )
    }

    /// The first cell of the job, as it stands now.
    fn first_cell(&self, j: usize) -> FirstCell {
        let cell = self.batch.job(j).job.accesses[0].cell;
        FirstCell {
            cell,
            height: Height(self.batch.cell(usize::from(cell)).height),
        }
    }

    /// Whether the morning has come to its end.
    pub fn finished(&self) -> io::Result<()> {
        println!(self.rt; "finished: {}", yes_no(self.batch.progress().finished))
    }

    /// Lines for the first cells and the first jobs, at the end of the morning.
    pub fn ended(&self, cells: usize, jobs: usize) -> io::Result<()> {
        for x in 0..cells {
            println!(self.rt; "cell {x}: {}", Height(self.batch.cell(x).height))?;
        }
        for j in 0..jobs {
            let asked = self.batch.job(j);
            println!(self.rt; "job {j}: {}, mark {}", how(asked.committed), asked.wrote)?;
        }
        Ok(())
    }
}

/// How a job was settled. The numbers are those of the C interface's record.
fn how(committed: u8) -> &'static str {
    match committed {
        0 => "unsettled",
        1 => "settled by its own run",
        _ => "settled by its guess",
    }
}
