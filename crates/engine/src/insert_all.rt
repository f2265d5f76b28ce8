//! Inserting a list of jobs in one call.

ghost use Rattle.std.specs.Prelude.{◌≡◌, ◌≤◌};
ghost use Rattle.engine.specs.InsertAll.{inserted_all};
ghost use Rattle.engine.specs.InsertAllPass.{refused_from};

use crate::{Batch, InsertedAll, JobList};
use refusal::{Refusal, told};

// Not an Option: the definition `refused_from` has this record for its value, with zeros where no job is refused.

/// The refusal of a job of a list, and its place there; zeros where no job is refused.
#[derive(Clone, Copy, Default)]
struct FirstRefused {
    refusal: u8,
    at: u8,
}

/// The first of the jobs that is refused, where they are inserted one after the other and `held` jobs are held before.
fn first_refused(list: &JobList, held: usize, cell_count: u8) -> FirstRefused
    requires { held ≤ 128 }
    ensures { result ≡ refused_from held cell_count list.now.jobs 0 list.now.count }
{
    for k in 0..list.count {
        let at = k as u8;
        if 128 <= held + k {
            return FirstRefused {
                refusal: Refusal::Full as u8,
                at,
            };
        }
        let job = list.jobs[k];
        if admission::is_refused(job, cell_count) {
            let refusal = told(admission::check(job, cell_count));
            return FirstRefused { refusal, at };
        }
    }
    FirstRefused::default()
}

impl Batch {
    /// R25: inserts the jobs of the list, one after the other. The first that is refused ends it: then nothing is changed.
    /// Refused with 3 to 8 for a job, which is named by its place in the list, or with 32. Of more than 128 jobs one is refused
    /// with 3, if none before it is refused.
    pub fn insert_all(mut self, list: JobList) -> InsertedAll
        ensures { result ≡ inserted_all self list.jobs list.count }
    {
        if !self.is_in_form() {
            return InsertedAll {
                refusal: Refusal::OutOfForm as u8,
                at: 0,
                batch: self,
            };
        }
        let refused = first_refused(&list, self.job_count as usize, self.cell_count);
        if refused.refusal != 0 {
            return InsertedAll {
                refusal: refused.refusal,
                at: refused.at,
                batch: self,
            };
        }
        for k in 0..list.count {
            self.add(list.jobs[k]);
        }
        InsertedAll {
            refusal: 0,
            at: 0,
            batch: self,
        }
    }
}
