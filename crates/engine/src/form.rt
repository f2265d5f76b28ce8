//! Whether a record is in form: refusal 32.

ghost use Rattle.std.specs.Prelude.{◌≡◌, ◌≤◌, cond};
ghost use Rattle.refusal.specs.Refusal.{told};
ghost use Rattle.engine.specs.Form.{counts_out, in_form};
ghost use Rattle.engine.specs.FormPass.{top_below, run_out};

use crate::{Batch, Run};
use refusal::Refusal;

/// Whether a count or a switch is outside its limits.
fn counts_out(cells: u8, jobs: u8, sealed: u8, speculating: u8) -> bool
    ensures { result ≡ counts_out cells jobs sealed speculating }
{
    cells == 0 || 64 < cells || 128 < jobs || 1 < sealed || 1 < speculating
}

/// The largest of the first `n` numbers of a column. (The loop has no exit but its end, so that it is compiled to vector
/// instructions.)
pub(crate) fn top_of(column: &[u8; 128], n: usize) -> u8
    requires { n ≤ 128 }
    ensures { result ≡ top_below n column.now }
{
    let mut top = 0;
    for j in 0..n {
        top = column[j].max(top);
    }
    top
}

/// Whether the run's mark is outside its list, or it was forwarded from or bypassed a job that is not before job `j`.
#[tactic(auto, unfolding(laws::specs::Search::any_below))]
fn run_out(run: Run, j: usize) -> bool
    ensures { result ≡ run_out run j }
{
    let [a, b, c, d] = run.sources;
    let late = j < d as usize || j < c as usize || j < b as usize || j < a as usize;
    1 < run.wrote || late || run.bypassed.reaches(j)
}

impl Batch {
    /// R91: whether the record is in form; every entry refuses another one with 32.
    pub fn is_in_form(&self) -> bool
        ensures { result ≡ in_form self.now }
    {
        if counts_out(
            self.cell_count,
            self.job_count,
            self.sealed,
            self.speculating,
        ) {
            return false;
        }
        let n = self.job_count as usize;
        if 2 < top_of(&self.committed, n) {
            return false;
        }
        if 1 < top_of(&self.running, n) {
            return false;
        }
        if 3 < top_of(&self.phase, n) {
            return false;
        }
        for j in 0..n {
            let job = self.jobs[j];
            if admission::is_refused(job, self.cell_count) {
                return false;
            }
        }
        for k in 0..n {
            let run = self.runs[k];
            if run_out(run, k) {
                return false;
            }
        }
        true
    }

    /// The same as a test, which each call makes before all others.
    pub(crate) fn in_form(&self) -> Result<(), Refusal>
        ensures { told result ≡ cond (in_form self.now) 0 32 }
    {
        if self.is_in_form() {
            return Ok(());
        }
        Err(Refusal::OutOfForm)
    }
}
