//! One line after the other: how each changes the reading.
#![tactic(auto, using(text::specs::SameTextLaws::equal_is_same, crate::specs::LineLaws::cell_bounded), unfolding(crate::specs::Plan::start, crate::specs::Plan::with_height, crate::specs::Plan::answered, crate::specs::Plan::cell_names_read, crate::specs::Plan::job_names_read, crate::specs::Plan::cell_read, crate::specs::Plan::cell_part_read, crate::specs::Plan::job_read, crate::specs::Plan::job_part_read, crate::specs::Plan::switch_read, crate::specs::Plan::step_names_read, crate::specs::Plan::step_read, crate::specs::Plan::line_read, crate::specs::Plan::ended))]

ghost use Rattle.std.specs.Prelude.{◌<◌, ◌≡◌};
ghost use Rattle.plan.specs.Plan.{start, faulty, part_after, next_part, steps_begin, with_height, answered, cell_names_read, job_names_read, cell_read, cell_part_read, job_read, job_part_read, switch_read, step_names_read, step_read, line_read, ended};

use crate::{Fault, Part, Reading, cell_lines, job_lines};
use engine::{Answer, Batch};
use refusal::Refusal;

// The faults of a plan go by the numbers that its answer prints, and most of them come as numbers from the engine.

/// A line not in form.
const OUT_OF_FORM: u8 = 21;
/// A cell count that is not 1 to 64.
const WRONG_CELL_COUNT: u8 = Refusal::CellCount as u8;

impl Part {
    /// The part after this one. The steps are the last.
    fn next(self) -> Part
        ensures { result ≡ part_after self }
    {
        match self {
            Part::CellNames => Part::Cells,
            Part::Cells => Part::Jobs,
            Part::Jobs => Part::Switch,
            Part::Switch => Part::StepNames,
            Part::StepNames | Part::Steps => Part::Steps,
        }
    }
}

impl Reading {
    /// Before the first line. No batch is open: its place holds what a refused opening hands back.
    pub fn new() -> Reading
        ensures { result ≡ start }
    {
        Reading {
            part: Part::CellNames,
            fault: None,
            heights: [0; 64],
            cell_count: 0,
            batch: Batch::open(&[]).batch,
            step_line: 0,
        }
    }

    /// Line `n` is at fault.
    fn faulty(mut self, number: u8, n: usize) -> Reading
        ensures { result ≡ faulty self number n }
    {
        self.fault = Some(Fault { number, line: n });
        self
    }

    /// The next part begins.
    fn next_part(mut self) -> Reading
        ensures { result ≡ next_part self }
    {
        self.part = self.part.next();
        self
    }

    /// The steps begin after line `n`.
    fn steps_begin(mut self, n: usize) -> Reading
        ensures { result ≡ steps_begin self n }
    {
        self.part = Part::Steps;
        self.step_line = n;
        self
    }

    /// One more cell line, with this height. Past the 64th it is not stored: the batch will not be opened.
    fn with_height(mut self, height: i32) -> Reading
        requires { self.cell_count < 2147483648 }
        ensures { result ≡ with_height self height }
    {
        let k = self.cell_count;
        self.cell_count = k + 1;
        if k < self.heights.len() {
            self.heights[k] = height;
        }
        self
    }

    /// What the engine answered on line `n`: the changed batch, or a refusal, which is the line's fault.
    fn answered(mut self, answer: Answer, n: usize) -> Reading
        ensures { result ≡ answered self answer n }
    {
        if answer.refusal != 0 {
            return self.faulty(answer.refusal, n);
        }
        self.batch = answer.batch;
        self
    }

    /// Line `n` is to be the names of the cells.
    fn cell_names_read(self, line: &[u8], n: usize) -> Reading
        ensures { result ≡ cell_names_read self line.now n }
    {
        if line == b"cell value".as_slice() {
            return self.next_part();
        }
        self.faulty(OUT_OF_FORM, n)
    }

    /// Line `n` is the names of the jobs: the batch is opened with the heights so far.
    fn job_names_read(self, n: usize) -> Reading
        ensures { result ≡ job_names_read self n }
    {
        let count = self.cell_count;
        let Some(heights) = self.heights.get(..count) else {
            return self.faulty(WRONG_CELL_COUNT, n);
        };
        let answer = Batch::open(heights);
        self.next_part().answered(answer, n)
    }

    /// Line `n` is a cell line.
    fn cell_read(self, line: &[u8], n: usize) -> Reading
        ensures { result ≡ cell_read self line.now n }
    {
        match cell_lines::cell_in(line) {
            Some(said) if said.cell == self.cell_count => self.with_height(said.height),
            _ => self.faulty(OUT_OF_FORM, n),
        }
    }

    /// Line `n` is to be a cell line or the names of the jobs.
    fn cell_part_read(self, line: &[u8], n: usize) -> Reading
        ensures { result ≡ cell_part_read self line.now n }
    {
        if line == b"kind p a b c".as_slice() {
            return self.job_names_read(n);
        }
        self.cell_read(line, n)
    }

    /// Line `n` is a job line: the engine inserts the job.
    fn job_read(self, line: &[u8], n: usize) -> Reading
        ensures { result ≡ job_read self line.now n }
    {
        let Some(job) = job_lines::job_in(line) else {
            return self.faulty(OUT_OF_FORM, n);
        };
        let answer = self.batch.insert(job);
        self.answered(answer, n)
    }

    /// Line `n` is to be a job line or the name of the switch.
    fn job_part_read(self, line: &[u8], n: usize) -> Reading
        ensures { result ≡ job_part_read self line.now n }
    {
        if line == b"guess".as_slice() {
            return self.next_part();
        }
        self.job_read(line, n)
    }

    /// Line `n` is to be the switch: the engine seals the batch with it.
    fn switch_read(self, line: &[u8], n: usize) -> Reading
        ensures { result ≡ switch_read self line.now n }
    {
        let Some(switch) = number::count_in(line) else {
            return self.faulty(OUT_OF_FORM, n);
        };
        let answer = self.batch.seal(job_lines::capped(switch));
        self.next_part().answered(answer, n)
    }

    /// Line `n` is to be the names of the steps.
    fn step_names_read(self, line: &[u8], n: usize) -> Reading
        ensures { result ≡ step_names_read self line.now n }
    {
        if line == b"step job".as_slice() {
            return self.steps_begin(n);
        }
        self.faulty(OUT_OF_FORM, n)
    }

    /// Line `n` is to be a step line. It is tried later, when the whole plan is known to be in form.
    fn step_read(self, line: &[u8], n: usize) -> Reading
        ensures { result ≡ step_read self line.now n }
    {
        if steplines::step_in(line).is_none() {
            return self.faulty(OUT_OF_FORM, n);
        }
        self
    }

    /// Line `n`, counted from 1. After a fault nothing changes any more.
    pub fn line_read(self, line: &[u8], n: usize) -> Reading
        ensures { result ≡ line_read self line.now n }
    {
        if self.fault.is_some() {
            return self;
        }
        match self.part {
            Part::CellNames => self.cell_names_read(line, n),
            Part::Cells => self.cell_part_read(line, n),
            Part::Jobs => self.job_part_read(line, n),
            Part::Switch => self.switch_read(line, n),
            Part::StepNames => self.step_names_read(line, n),
            Part::Steps => self.step_read(line, n),
        }
    }

    /// What follows the last line feed, which would be line `n`: nothing, once the steps have begun.
    pub fn ended(self, rest: &[u8], n: usize) -> Reading
        ensures { result ≡ ended self rest.now n }
    {
        if self.fault.is_some() || self.part == Part::Steps && rest.is_empty() {
            return self;
        }
        self.faulty(OUT_OF_FORM, n)
    }
}
