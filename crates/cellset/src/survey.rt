//! One pass over the jobs that tells which step is allowed on each, as a rank: the jobs and their states as columns of numbers.

ghost use Rattle.std.specs.Prelude.{◌≡◌, ◌≤◌};
ghost use Rattle.cellset.specs.Survey.{is_ready_after, misses_source, after_job};
ghost use Rattle.cellset.specs.Survey.{may_speculate, own_rank, rank_of, judged_rank};
ghost use Rattle.cellset.specs.Survey.{columns, Surveyed};

use crate::Cells;

/// Of the jobs passed that are not committed: the cells that they name, those that they may write, and those whose nearest
/// sure writer among them has no stored report.
#[derive(Clone, Copy, Default)]
struct Earlier {
    named: u64,
    written: u64,
    unusable: u64,
}

impl Earlier {
    /// Whether a job with these cells conflicts with none of the earlier ones.
    fn admits(self, cells: Cells) -> bool
        ensures { result ≡ is_ready_after self cells }
    {
        (cells.named & self.written) | (cells.written & self.named) == 0
    }

    /// Whether a speculative run of the job would take a value from a job without a stored report.
    fn withholds(self, cells: Cells) -> bool
        ensures { result ≡ misses_source self cells }
    {
        cells.back & self.unusable != 0
    }

    /// With a job that is not committed. It is the nearest writer of the cells that it surely writes.
    fn with(self, cells: Cells, phase: u8) -> Earlier
        ensures { result ≡ after_job self cells phase }
    {
        let either = self.unusable | cells.sure;
        Earlier {
            named: self.named | cells.named,
            written: self.written | cells.written,
            unusable: if phase == 2 {
                either ^ cells.sure
            } else {
                either
            },
        }
    }
}

/// The rank of a ready job on which step 0 is all that may be allowed: 2, or 0 where its own run is out.
fn own_rank(running: u8) -> u8
    ensures { result ≡ own_rank running }
{
    if running == 0 { 2 } else { 0 }
}

/// Whether a speculative run of a job that is not ready may be started: no run of it ever was, and no source is missing.
fn may_speculate(on: bool, running: u8, phase: u8, missing: bool) -> bool
    ensures { result ≡ may_speculate on running phase missing }
{
    on && running == 0 && phase == 0 && !missing
}

/// The rank of a job that is not committed: 2 where step 0 is allowed on it, 1 where step 1 is, 0 where none is. It is 4 of a
/// ready job with a live speculative run: that is to be judged by the values handed to it.
fn rank(on: bool, running: u8, phase: u8, ready: bool, missing: bool) -> u8
    ensures { result ≡ rank_of on running phase ready missing }
{
    if ready {
        if phase == 1 || phase == 2 {
            4
        } else {
            own_rank(running)
        }
    } else if may_speculate(on, running, phase, missing) {
        1
    } else {
        0
    }
}

/// The rank of a job that is to be judged, by whether a value handed to its speculative run is stale: 3 where step 4 is allowed
/// on it, 2 where step 0 is, 0 where none is.
pub fn judged_rank(running: u8, phase: u8, stale: bool) -> u8
    ensures { result ≡ judged_rank running phase stale }
{
    if stale {
        own_rank(running)
    } else if phase == 2 {
        3
    } else {
        0
    }
}

// Ranks, phases and runs are bytes, as the columns of the C record are, and jobs are gone through by number: a zip of nine
// columns is no plainer. (The four columns of words could be one array of `Cells`, here and in the engine: not tried.)

/// Fills `ranks` for the first `n` jobs with the rank of each, 0 of a committed one. The words are those of the jobs' cells, and
/// read for jobs that are not committed alone.
pub fn survey<'a>(
    on: bool,
    n: usize,
    named: &[u64; 128],
    written: &[u64; 128],
    sure: &[u64; 128],
    back: &[u64; 128],
    committed: &'a [u8; 128],
    running: &'a [u8; 128],
    phases: &'a [u8; 128],
    ranks: &mut [u8; 128],
)
    requires { n ≤ 128 }
    ensures { Surveyed on (columns named.now written.now sure.now back.now committed.now running.now phases.now) n ranks.new }
{
    let mut earlier = Earlier::default();
    for j in 0..n {
        let mut told = 0;
        let open = committed[j] == 0;
        if open {
            let cells = Cells {
                named: named[j],
                written: written[j],
                sure: sure[j],
                back: back[j],
            };
            let phase = phases[j];
            let ready = earlier.admits(cells);
            let missing = earlier.withholds(cells);
            told = rank(on, running[j], phase, ready, missing);
            earlier = earlier.with(cells, phase);
        }
        ranks[j] = told;
    }
}
