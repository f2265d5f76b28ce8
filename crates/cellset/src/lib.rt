//! Sets of cells, for cell numbers below 64: a word each, so that the cells of two jobs are compared without a loop.
#![tactic(auto)]

ghost use Rattle.std.specs.Prelude.{◌≡◌, cond};
ghost use Rattle.std.specs.Int.Bits.{bit_or};
ghost use Rattle.cellset.specs.Cells.{with_access, cells_of};

use dependence::{Access, Job};

pub mod survey;

/// Of the cells of a job, each as a bit of a word: those that it names, those that it may write, those that it surely writes,
/// and those that a speculative run of it looks back for.
#[derive(Clone, Copy, Default)]
pub struct Cells {
    pub named: u64,
    pub written: u64,
    pub sure: u64,
    pub back: u64,
}

/// The word with the bit, where the test holds.
fn with_if(word: u64, test: bool, bit: u64) -> u64
    ensures { result ≡ cond test (bit_or word bit) word }
{
    if test { word | bit } else { word }
}

impl Cells {
    /// These cells and the access's. A cell past the last bit is left out.
    fn with(self, access: Access) -> Cells
        ensures { result ≡ with_access access self }
    {
        if 64 <= access.cell {
            return self;
        }
        let bit = 1u64 << access.cell;
        let sure_write = dependence::counts_as(access.mode) == dependence::WRITE;
        Cells {
            named: self.named | bit,
            written: with_if(self.written, access.mode != dependence::READ, bit),
            sure: with_if(self.sure, sure_write, bit),
            back: with_if(self.back, access.mode != dependence::PREDICTED_WRITE, bit),
        }
    }

    /// The cells of the job. (A loop over the places in use is short enough to be inlined wherever it is called.)
    #[tactic(auto, using(crate::specs::CellLaws::cells_none))]
    pub fn of(job: Job) -> Cells
        ensures { result ≡ cells_of job }
    {
        let used = (job.arity as usize).min(4);
        let mut cells = Cells::default();
        for access in &job.accesses[..used] {
            cells = cells.with(*access);
        }
        cells
    }
}
