//! Opening, inserting and sealing a batch.

ghost use Rattle.std.specs.Prelude.{◌≡◌, ◌≤◌, ◌<◌, length};
ghost use Rattle.refusal.specs.Refusal.{told};
ghost use Rattle.engine.specs.Record.{blank_run};
ghost use Rattle.engine.specs.Opening.{fresh, padded, opened, insert_refusal, with_inserted, inserted, seal_refusal, with_sealed, sealed_with};

use crate::{Answer, Batch, Run};
use dependence::Job;
use jobset::JobSet;
use refusal::{Refusal, told};

/// The heights in the first cells, and 0 in those after them.
fn padded_cells(heights: &[i32]) -> [i32; 64]
    requires { length heights.now ≤ 64 }
    ensures { result ≡ padded heights.now }
{
    let mut cells = [0; 64];
    cells[..heights.len()].copy_from_slice(heights);
    cells
}

impl Default for Run {
    /// What a job that has not run holds. (Derived, it would tell of its arrays place by place.)
    fn default() -> Run
        ensures { result ≡ blank_run }
    {
        Run {
            handed: [0; 4],
            reported: [0; 4],
            wrote: 0,
            sources: [0; 4],
            bypassed: JobSet::empty(),
        }
    }
}

impl Batch {
    /// A batch with the cells, unsealed and without jobs.
    fn fresh(cell_count: u8, cells: [i32; 64]) -> Batch
        ensures { result ≡ fresh cell_count cells }
    {
        let job = Job::default();
        let run = Run::default();
        Batch {
            cell_count,
            job_count: 0,
            sealed: 0,
            speculating: 0,
            cells,
            jobs: [job; 128],
            runs: [run; 128],
            committed: [0; 128],
            running: [0; 128],
            phase: [0; 128],
        }
    }

    /// R5: opens a batch whose cells hold the heights: 1 to 64 of them, else refusal 1.
    #[tactic(auto, unfolding(crate::specs::Opening::opened))]
    pub fn open(heights: &[i32]) -> Answer
        ensures { result ≡ opened heights.now }
    {
        let n = heights.len();
        if n == 0 || 64 < n {
            return Answer {
                refusal: Refusal::CellCount as u8,
                batch: Batch::fresh(0, [0; 64]),
            };
        }
        Answer {
            refusal: 0,
            batch: Batch::fresh(n as u8, padded_cells(heights)),
        }
    }

    /// Whether the job may be inserted.
    #[tactic(auto, unfolding(laws::specs::Refusal::first_of, admission::specs::Admission::job_refusal))]
    fn may_insert(&self, job: Job) -> Result<(), Refusal>
        ensures { told result ≡ insert_refusal self.now job }
    {
        self.in_form()?;
        if 128 <= self.job_count {
            return Err(Refusal::Full);
        }
        admission::check(job, self.cell_count)
    }

    /// Adds the job as the last one.
    #[tactic(auto, unfolding(crate::specs::Opening::with_inserted))]
    pub(crate) fn add(&mut self, job: Job)
        requires { self.old.job_count < 128 }
        ensures { self.new ≡ with_inserted self.old job }
    {
        let n = self.job_count as usize;
        let run = Run::default();
        self.jobs[n] = job;
        self.runs[n] = run;
        self.committed[n] = 0;
        self.running[n] = 0;
        self.phase[n] = 0;
        self.job_count += 1;
    }

    /// R6: inserts the job as the last one, before sealing or after it. Refused with 3 to 8, or 32.
    #[tactic(auto, unfolding(crate::specs::Opening::inserted))]
    pub fn insert(mut self, job: Job) -> Answer
        ensures { result ≡ inserted self job }
    {
        let refusal = told(self.may_insert(job));
        if refusal != 0 {
            return Answer {
                refusal,
                batch: self,
            };
        }
        self.add(job);
        Answer {
            refusal: 0,
            batch: self,
        }
    }

    /// Whether the batch may be sealed.
    #[tactic(auto, unfolding(laws::specs::Refusal::first_of))]
    fn may_seal(&self, switch: u8) -> Result<(), Refusal>
        ensures { told result ≡ seal_refusal self.now switch }
    {
        self.in_form()?;
        if self.sealed != 0 {
            return Err(Refusal::Sealed);
        }
        if 1 < switch {
            return Err(Refusal::Switch);
        }
        Ok(())
    }

    /// R7: from now on steps are taken; `switch` says whether speculative runs may be started. Refused with 2, 9 or 32.
    #[tactic(auto, unfolding(crate::specs::Opening::sealed_with, crate::specs::Opening::with_sealed))]
    pub fn seal(mut self, switch: u8) -> Answer
        ensures { result ≡ sealed_with self switch }
    {
        let refusal = told(self.may_seal(switch));
        if refusal == 0 {
            self.sealed = 1;
            self.speculating = switch;
        }
        Answer {
            refusal,
            batch: self,
        }
    }
}
