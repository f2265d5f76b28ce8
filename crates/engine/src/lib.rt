//! The batch engine: a record that goes into a step by value and comes back with its answer, and is lent to who asks of it.
#![tactic(auto)]

use dependence::Job;
use jobset::JobSet;

mod ask;
mod by_number;
mod change;
mod chooser;
mod columns;
mod form;
mod insert_all;
mod opening;
pub mod speculation;
mod steps;
mod turn;

// The records that hosts in C hold and are handed keep numbers for refusals, kinds, modes, states and steps, columns of them in
// fixed arrays, and counts beside these: any bytes may come back in them, and what is out of form is refused with 32.

/// A run of a job: the values handed out and the report on it. Of a speculative run also where its values came from:
/// for each place one more than the number of the job it was forwarded from, 0 for the cell itself, and the jobs bypassed.
#[repr(C)]
#[derive(Clone, Copy)]
pub struct Run {
    pub handed: [i32; 4],
    pub reported: [i32; 4],
    pub wrote: u8,
    pub sources: [u8; 4],
    pub bypassed: JobSet,
}

/// A batch. The first `cell_count` cells and the first `job_count` places of each column are in use.
/// A job has one run at a time: starting its own run takes the place of its speculative one.
#[repr(C)]
#[derive(Clone, Copy)]
pub struct Batch {
    pub cell_count: u8,
    pub job_count: u8,
    /// 1 once the batch is sealed.
    pub sealed: u8,
    /// 1 if speculative runs may be started.
    pub speculating: u8,
    pub cells: [i32; 64],
    pub jobs: [Job; 128],
    pub runs: [Run; 128],
    /// How the job was committed: 0 not yet, 1 by its own run, 2 by its speculative run.
    pub committed: [u8; 128],
    /// 1 while the job's own run is out.
    pub running: [u8; 128],
    /// The job's speculative run: 0 never started, 1 out, 2 with a stored report, 3 discarded.
    pub phase: [u8; 128],
}

/// What a worker reports: a value for each access, and 1 if the maybe-write cells were written, else 0.
#[repr(C)]
#[derive(Clone, Copy)]
pub struct Report {
    pub values: [i32; 4],
    pub wrote: u8,
}

/// What a call answers that hands nothing out: 0 or the number of its refusal, and the batch.
#[repr(C)]
#[derive(Clone, Copy)]
pub struct Answer {
    pub refusal: u8,
    pub batch: Batch,
}

/// A list of jobs: the first `count` of `jobs`, in their order. What stands after them means nothing.
#[repr(C)]
#[derive(Clone, Copy)]
pub struct JobList {
    pub count: usize,
    pub jobs: [Job; 128],
}

/// What inserting a list answers: 0, or the number of the refusal and which job of the list it was, and the batch.
#[repr(C)]
#[derive(Clone, Copy)]
pub struct InsertedAll {
    pub refusal: u8,
    pub at: u8,
    pub batch: Batch,
}

/// A step that a turn took: its number 4, 0 or 1, its job, and the values handed to the run that it started, 0 each for step 4.
#[repr(C)]
#[derive(Clone, Copy)]
pub struct Taken {
    pub step: u8,
    pub job: u8,
    pub handed: [i32; 4],
}

/// The steps of a turn, in their order. The places after the last one hold zeros.
#[repr(C)]
#[derive(Clone, Copy)]
pub struct StepList {
    pub taken: [Taken; 16],
}

/// A job and the run that it holds after a step on it.
#[derive(Clone, Copy)]
pub struct JobRun {
    pub job: u8,
    pub run: Run,
}

// Told with the number beside the rest, and not as a Result: `turn_change` says every field of a refused turn too.

/// What a turn comes to: the number of its refusal, or 0 and then its steps and what is to be stored of it: the first `stored`
/// of the runs `changed`, each in the place of its job, the cells and the jobs' states. Where the number is not 0, nothing is
/// changed, and what else stands here is blank.
#[derive(Clone, Copy)]
pub struct TurnChange {
    pub refusal: u8,
    pub count: u8,
    pub stored: u8,
    pub steps: StepList,
    pub changed: [JobRun; 17],
    pub cells: [i32; 64],
    pub committed: [u8; 128],
    pub running: [u8; 128],
    pub phase: [u8; 128],
}

/// What a start answers: the values handed to the run too, 0 each where it is refused.
#[repr(C)]
#[derive(Clone, Copy)]
pub struct Started {
    pub refusal: u8,
    pub handed: [i32; 4],
    pub batch: Batch,
}

/// What asking a cell answers: its height, 0 where it is refused.
#[repr(C)]
#[derive(Clone, Copy, Default)]
pub struct CellAnswer {
    pub refusal: u8,
    pub height: i32,
}

/// What asking a job answers: how it was committed and its mark, whether its own run is out, the phase of its
/// speculative run and its validity (0 no such run is out or stored, 1 not decided yet, 2 valid, 3 invalid), the values
/// of the run it holds, and the job as inserted. All are 0 where it is refused.
#[repr(C)]
#[derive(Clone, Copy)]
pub struct JobAnswer {
    pub refusal: u8,
    pub committed: u8,
    pub wrote: u8,
    pub running: u8,
    pub phase: u8,
    pub validity: u8,
    pub handed: [i32; 4],
    pub reported: [i32; 4],
    pub job: Job,
}

/// What asking for the batch's progress answers. All are 0, and `finished` is false, where it is refused.
#[repr(C)]
#[derive(Clone, Copy, Default)]
pub struct BatchAnswer {
    pub refusal: u8,
    pub cell_count: u8,
    pub job_count: u8,
    pub sealed: u8,
    pub speculating: u8,
    pub finished: bool,
}

/// What the chooser answers: the step, the job and the length of its chain, or the number of the refusal and zeros.
#[repr(C)]
#[derive(Clone, Copy, Default)]
pub struct Choice {
    pub refusal: u8,
    pub step: u8,
    pub job: u8,
    pub chain: u8,
}
