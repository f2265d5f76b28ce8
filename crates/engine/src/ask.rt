//! The reader of results: asking a cell, a job and the batch, and copying the cells out.

ghost use Rattle.std.specs.Prelude.{◌≡◌, ◌++◌, ◌≤◌, ◌<◌, length, take, drop, true};
ghost use Rattle.dependence.specs.Job.{job_at};
ghost use Rattle.refusal.specs.Refusal.{told};
ghost use Rattle.rules.specs.Values.{value_at, is_stale};
ghost use Rattle.rules.specs.Speculation.{is_ready, judged_as};
ghost use Rattle.engine.specs.Record.{run_at, snapshot_of};
ghost use Rattle.engine.specs.Ask.{cell_refusal, asked_cell};
ghost use Rattle.engine.specs.Ask.{shown_mark, job_ask_refusal, shown_job, refused_job, asked_job};
ghost use Rattle.engine.specs.Ask.{any_uncommitted, is_finished, asked_batch, copy_answer, buffer_after};

use crate::speculation::is_live;
use crate::{Batch, BatchAnswer, CellAnswer, JobAnswer};
use dependence::Job;
use refusal::{Refusal, told};

/// The mark that is shown of a job: before it is committed the one its run holds may still change.
fn shown_mark(committed: u8, wrote: u8) -> u8
    ensures { result ≡ shown_mark committed wrote }
{
    if committed == 0 {
        return 0;
    }
    wrote
}

/// What asking a job answers where it is refused.
fn refused_job(refusal: u8) -> JobAnswer
    ensures { result ≡ refused_job refusal }
{
    let job = Job::default();
    JobAnswer {
        refusal,
        committed: 0,
        wrote: 0,
        running: 0,
        phase: 0,
        validity: 0,
        handed: [0; 4],
        reported: [0; 4],
        job,
    }
}

/// Puts the first `n` cells at the front of the places lent.
fn put(places: &mut [i32], cells: &[i32; 64], n: usize)
    requires { (n ≤ 64) × (n ≤ length places.old) }
    ensures { places.new ≡ take n cells.now ++ drop n places.old }
{
    places[..n].copy_from_slice(&cells[..n]);
}

impl Batch {
    // The entries make the number of a refusal at once, and test that: `asked_cell` and the like say their answer by the number.

    /// Whether there is the cell.
    #[tactic(auto, unfolding(laws::specs::Refusal::first_of, crate::specs::Ask::cell_refusal))]
    fn has_cell(&self, x: usize) -> Result<(), Refusal>
        ensures { told result ≡ cell_refusal self.now x }
    {
        self.in_form()?;
        if self.cell_count as usize <= x {
            return Err(Refusal::NoSuchCell);
        }
        Ok(())
    }

    /// R71: the height of cell `x`. Refused with 5 or 32.
    #[tactic(auto, unfolding(crate::specs::Ask::asked_cell))]
    pub fn cell(&self, x: usize) -> CellAnswer
        ensures { result ≡ asked_cell self.now x }
    {
        let refusal = told(self.has_cell(x));
        if refusal != 0 {
            return CellAnswer { refusal, height: 0 };
        }
        let height = self.cells[x];
        CellAnswer { refusal, height }
    }

    // One function for this and `has_cell` would take the count and the refusal, and say less.

    /// Whether there is the job.
    #[tactic(auto, unfolding(laws::specs::Refusal::first_of, crate::specs::Ask::job_ask_refusal))]
    fn has_job(&self, j: usize) -> Result<(), Refusal>
        ensures { told result ≡ job_ask_refusal self.now j }
    {
        self.in_form()?;
        if self.job_count as usize <= j {
            return Err(Refusal::NoSuchJob);
        }
        Ok(())
    }

    // A number, as the C record `JobAnswer` holds it.

    /// R45: how the speculative run of job `j` is judged, where it is out or stored and the job not committed.
    fn live_validity(&self, j: usize) -> u8
        requires { (j < self.now.job_count) × (self.now.job_count ≤ 128) }
        ensures { result ≡ judged_as true (is_ready (snapshot_of self.now) j) (is_stale (job_at self.now.jobs j) (value_at (run_at self.now j).handed) (value_at self.now.cells)) }
    {
        let jobs = self.jobs;
        let committed = self.committed;
        if !dependence::is_ready(jobs, committed, j) {
            return 1;
        }
        let job = jobs[j];
        let handed = self.runs[j].handed;
        if runs::is_stale(job, handed, &self.cells) {
            return 3;
        }
        2
    }

    /// What is held of job `j`, with its mark once it is committed.
    fn shown_job(&self, j: usize) -> JobAnswer
        requires { (j < self.now.job_count) × (self.now.job_count ≤ 128) }
        ensures { result ≡ shown_job self.now j }
    {
        let job = self.jobs[j];
        let run = self.runs[j];
        let committed = self.committed[j];
        let running = self.running[j];
        let phase = self.phase[j];
        let mut validity = 0;
        if committed == 0 && is_live(phase) {
            validity = self.live_validity(j);
        }
        let handed = run.handed;
        let reported = run.reported;
        JobAnswer {
            refusal: 0,
            committed,
            wrote: shown_mark(committed, run.wrote),
            running,
            phase,
            validity,
            handed,
            reported,
            job,
        }
    }

    /// R72: how job `j` stands. Refused with 11 or 32.
    #[tactic(auto, unfolding(crate::specs::Ask::asked_job))]
    pub fn job(&self, j: usize) -> JobAnswer
        ensures { result ≡ asked_job self.now j }
    {
        let refusal = told(self.has_job(j));
        if refusal != 0 {
            return refused_job(refusal);
        }
        self.shown_job(j)
    }

    /// Whether one of the jobs held is not committed.
    fn any_uncommitted(&self) -> bool
        requires { self.now.job_count ≤ 128 }
        ensures { result ≡ any_uncommitted self.now }
    {
        for j in 0..self.job_count as usize {
            if self.committed[j] == 0 {
                return true;
            }
        }
        false
    }

    /// Whether the batch is sealed and every job of it committed.
    #[tactic(auto, unfolding(crate::specs::Ask::is_finished))]
    fn is_finished(&self) -> bool
        requires { self.now.job_count ≤ 128 }
        ensures { result ≡ is_finished self.now }
    {
        self.sealed != 0 && !self.any_uncommitted()
    }

    /// R73: how the batch as a whole stands. Refused with 32.
    #[tactic(auto, unfolding(crate::specs::Ask::asked_batch))]
    pub fn progress(&self) -> BatchAnswer
        ensures { result ≡ asked_batch self.now }
    {
        if !self.is_in_form() {
            return BatchAnswer {
                refusal: Refusal::OutOfForm as u8,
                ..BatchAnswer::default()
            };
        }
        BatchAnswer {
            refusal: 0,
            cell_count: self.cell_count,
            job_count: self.job_count,
            sealed: self.sealed,
            speculating: self.speculating,
            finished: self.is_finished(),
        }
    }

    /// Whether the cells have room in a buffer of the size from the place `at` on.
    #[tactic(auto, unfolding(laws::specs::Refusal::first_of, crate::specs::Ask::copy_answer))]
    fn has_room(&self, size: usize, at: usize) -> Result<(), Refusal>
        ensures { told result ≡ copy_answer self.now size at }
    {
        self.in_form()?;
        if size.saturating_sub(at) < self.cell_count as usize {
            return Err(Refusal::NoRoom);
        }
        Ok(())
    }

    /// R74: copies the cells to the buffer from the place `at` on. Refused with 20 or 32.
    pub fn copy_out(&self, buffer: &mut [i32], at: usize) -> u8
        ensures { (result ≡ copy_answer self.now (length buffer.old) at) × (buffer.new ≡ buffer_after self.now buffer.old at) }
    {
        let refusal = told(self.has_room(buffer.len(), at));
        if refusal != 0 {
            return refusal;
        }
        put(&mut buffer[at..], &self.cells, self.cell_count as usize);
        0
    }
}
