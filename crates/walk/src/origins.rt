//! The same walk from all places of a job at once: one pass back over the earlier jobs, with the cells that are looked back
//! for as the bits of a word.

ghost use Rattle.std.specs.Prelude.{◌≡◌, ◌<◌};
ghost use Rattle.cellset.specs.ConflictWords.{Within};
ghost use Rattle.walk.specs.Origins.{AllPlain, wanted_at, is_met, source_or, noted_in, found_by, walk_past, origins_of};

use cellset::Cells;
use dependence::{Job, PREDICTED_WRITE};
use jobset::JobSet;

/// Where the values of a speculative run come from: for each place the job whose report gives the value, as one more than its
/// number, 0 for the cell itself; and the jobs bypassed.
#[derive(Clone, Copy)]
pub struct Origins {
    pub sources: [u8; 4],
    pub bypassed: JobSet,
}

/// The walk so far: the cells for which no sure writer was met yet, and what was found.
#[derive(Clone, Copy)]
struct Walk {
    wanted: u64,
    sources: [u8; 4],
    bypassed: JobSet,
}

/// Whether the job's cell at the place is one of those wanted. (That each cell has a bit is asked of the job here and below, and
/// not tested: the walk meets every earlier job.)
#[tactic(auto, unfolding(jobset::specs::JobSet::bit))]
fn wanted_at(job: Job, wanted: u64, place: usize) -> bool
    requires { (place < 4) × Within job }
    ensures { result ≡ wanted_at job wanted place }
{
    place < job.arity as usize && (wanted >> job.accesses[place].cell) % 2 == 1
}

/// Whether the earlier job is not committed (`how` is 0) and names one of the cells wanted. Any other is passed by.
fn is_met(earlier: Job, how: u8, wanted: u64) -> bool
    requires { Within earlier }
    ensures { result ≡ is_met earlier how wanted }
{
    let open = how == 0;
    open && (0..4).any(|place| wanted_at(earlier, wanted, place))
}

/// The number where the place looks back for one of the cells met, else the old one. It does where it is in use and its cell not
/// predicted.
#[tactic(auto, unfolding(jobset::specs::JobSet::bit))]
fn source_or(job: Job, met: u64, number: u8, place: usize, old: u8) -> u8
    requires { (place < 4) × Within job }
    ensures { result ≡ source_or job met number place old }
{
    let access = job.accesses[place];
    if place < job.arity as usize
        && access.mode != PREDICTED_WRITE
        && (met >> access.cell) % 2 == 1
    {
        number
    } else {
        old
    }
}

/// The sources with the number noted at the places that look back for the cells met.
fn noted(job: Job, met: u64, number: u8, sources: [u8; 4]) -> [u8; 4]
    requires { Within job }
    ensures { result ≡ noted_in job met number sources }
{
    std::array::from_fn(|place| source_or(job, met, number, place, sources[place]))
}

impl Walk {
    /// The walk of `job` past the earlier one, of number `k`. That is the source of the cells wanted which it surely writes, and
    /// bypassed where it may write one of the others.
    fn past(self, job: Job, earlier: Job, k: usize) -> Walk
        requires { (k < 128) × Within job }
        ensures { result ≡ walk_past self job earlier k }
    {
        let cells = Cells::of(earlier);
        let met = self.wanted & cells.sure;
        let wanted = (self.wanted | cells.sure) ^ cells.sure;
        let sources = noted(job, met, (k + 1) as u8, self.sources);
        let bypassed = if wanted & cells.written == 0 {
            self.bypassed
        } else {
            self.bypassed.with(k)
        };
        Walk {
            wanted,
            sources,
            bypassed,
        }
    }
}

impl From<Walk> for Origins {
    /// What was found.
    fn from(walk: Walk) -> Origins
        ensures { result ≡ found_by walk }
    {
        let Walk {
            sources,
            bypassed,
            ..
        } = walk;
        Origins { sources, bypassed }
    }
}

impl Origins {
    /// Where the values of the speculative run of job `j` come from.
    pub fn of(jobs: [Job; 128], committed: [u8; 128], j: usize) -> Origins
        requires { (j < 128) × AllPlain jobs j }
        ensures { result ≡ origins_of jobs committed j }
    {
        let job = jobs[j];
        let cells = Cells::of(job);
        let mut walk = Walk {
            wanted: cells.back,
            sources: [0; 4],
            bypassed: JobSet::empty(),
        };
        for i in (0..j).rev() {
            if walk.wanted == 0 {
                break;
            }
            let earlier = jobs[i];
            if is_met(earlier, committed[i], walk.wanted) {
                walk = walk.past(job, earlier, i);
            }
        }
        Origins::from(walk)
    }
}
