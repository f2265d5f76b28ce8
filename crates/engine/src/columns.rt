//! The jobs as columns of numbers, which the chooser and the turn read in place of the jobs.

ghost use Rattle.std.specs.Prelude.{◌≡◌, ◌≤◌, not, eqb};
ghost use Rattle.cellset.specs.Survey.{columns, Surveyed};
ghost use Rattle.engine.specs.ChooserPass.{Columned};

use crate::Batch;
use cellset::Cells;
use cellset::survey::survey;

// Columns and no array of `Cells`: `survey` takes them one by one. (Both could go over to one array together: not tried.)

/// Of each job that is not committed the words of its cells, and how many accesses it has; zeros of the others.
#[derive(Clone, Copy)]
pub(crate) struct Columns {
    pub named: [u64; 128],
    pub written: [u64; 128],
    pub sure: [u64; 128],
    pub back: [u64; 128],
    pub arities: [u8; 128],
}

/// The rank of each of the first `n` jobs.
#[derive(Clone, Copy)]
pub(crate) struct Ranks {
    pub of: [u8; 128],
    pub n: usize,
    ghost few: { n ≤ 128 },
}

impl Columns {
    /// Of no jobs.
    pub(crate) fn none() -> Columns {
        Columns {
            named: [0; 128],
            written: [0; 128],
            sure: [0; 128],
            back: [0; 128],
            arities: [0; 128],
        }
    }
}

impl Batch {
    // That the count is in form is asked here and in `ask.rt`: a type for a checked record would be made anew after each store of a
    // turn, for six private methods whose callers know the fact by one law (`form_counts`).

    /// Fills the columns by the jobs held. (They are lent: as a result they would be copied.)
    pub(crate) fn fill(&self, columns: &mut Columns)
        requires { self.now.job_count ≤ 128 }
        ensures { Columned self.now self.now.job_count columns.new.named columns.new.written columns.new.sure columns.new.back columns.new.arities }
    {
        for j in 0..self.job_count as usize {
            if self.committed[j] == 0 {
                let job = self.jobs[j];
                let cells = Cells::of(job);
                columns.named[j] = cells.named;
                columns.written[j] = cells.written;
                columns.sure[j] = cells.sure;
                columns.back[j] = cells.back;
                columns.arities[j] = job.arity;
            }
        }
    }

    /// The rank of each job held, by its columns: which step is allowed on it, or that its guess is to be judged.
    pub(crate) fn ranks(&self, by: &Columns) -> Ranks
        requires { self.now.job_count ≤ 128 }
        ensures { (result.n ≡ self.now.job_count) × Surveyed (not (eqb self.now.speculating 0)) (columns by.now.named by.now.written by.now.sure by.now.back self.now.committed self.now.running self.now.phase) self.now.job_count result.of }
    {
        let n = self.job_count as usize;
        let mut of = [0; 128];
        survey(
            self.speculating != 0,
            n,
            &by.named,
            &by.written,
            &by.sure,
            &by.back,
            &self.committed,
            &self.running,
            &self.phase,
            &mut of,
        );
        Ranks { of, n }
    }
}
