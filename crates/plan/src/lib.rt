//! The reader of plans: from the bytes of the input to a sealed batch, or to the first fault and its line.
#![tactic(auto, using(crate::specs::PlanLaws::read_next), unfolding(crate::specs::Plan::lines_read))]

ghost use Rattle.std.specs.Prelude.{◌≡◌};
ghost use Rattle.plan.specs.Plan.{plan_of};

use engine::Batch;

mod cell_lines;
mod job_lines;
mod line_by_line;

/// What a line of a plan belongs to.
#[derive(Clone, Copy, PartialEq, Eq, Debug)]
pub enum Part {
    CellNames,
    Cells,
    Jobs,
    Switch,
    StepNames,
    Steps,
}

/// A fault of a plan: its number, and the line that has it, counted from 1.
#[derive(Clone, Copy)]
pub struct Fault {
    pub number: u8,
    pub line: usize,
}

/// The plan as far as it is read.
#[derive(Clone, Copy)]
pub struct Reading {
    /// What the next line belongs to.
    pub part: Part,
    /// The first fault, once there is one.
    pub fault: Option<Fault>,
    /// The heights of the first 64 cell lines.
    pub heights: [i32; 64],
    /// How many cell lines there were.
    pub cell_count: usize,
    /// The batch: without cells until it is opened with the heights, sealed once the switch is read.
    pub batch: Batch,
    /// The number of the line after which the steps stand.
    pub step_line: usize,
}

/// Reads the whole input.
pub fn read_plan(bytes: &[u8]) -> Reading
    ensures { result ≡ plan_of bytes.now }
{
    let mut reading = Reading::new();
    let mut rest = bytes;
    let mut n: usize = 1;
    while let Some((line, after)) = text::split_once(rest, text::LINE_FEED) {
        reading = reading.line_read(line, n);
        rest = after;
        n += 1;
    }
    reading.ended(rest, n)
}
