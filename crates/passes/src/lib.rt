//! Chain lengths of all jobs of a list, in one pass from the last one back.
//! It keeps a table of one number a cell: the length of the longest chain that starts with a job passed that names the cell.
#![tactic(auto)]

ghost use Rattle.std.specs.Prelude.{◌≡◌, ◌<◌, drop};
ghost use Rattle.laws.specs.Fold.{column};
ghost use Rattle.dependence.specs.Job.{access_at, ByteCells};
ghost use Rattle.passes.specs.Chain.{chain_length_at};
ghost use Rattle.passes.specs.Tables.{met_at, met, noted};

use dependence::Job;

/// What the job meets by way of its access at place `i`: 0 where that place is not in use, and where it only reads. No height
/// flows from a cell that is read, so no chain goes on there. (That the cell is a byte is what the table's laws ask.)
fn met_at(named: &[u8; 256], job: Job, i: usize) -> u8
    requires { i < 4 }
    ensures { (result ≡ met_at named.now job i) × ((access_at job i).cell < 256) }
{
    let access = job.accesses[i];
    let cell = access.cell as usize;
    if i < job.arity as usize && access.mode != dependence::READ {
        named[cell]
    } else {
        0
    }
}

/// The largest number that the job meets.
#[tactic(auto, using(laws::specs::FoldLaws::max_none, laws::specs::FoldLaws::max_more), unfolding(crate::specs::Tables::met))]
fn met_by(named: &[u8; 256], job: Job) -> u8
    ensures { (result ≡ met named.now job) × ByteCells job }
{
    let mut most = 0;
    for i in 0..4 {
        most = most.max(met_at(named, job, i));
    }
    most
}

/// Notes the number at each cell of the job, where none is larger.
#[tactic(auto, using(laws::specs::FoldLaws::fold_none, laws::specs::FoldLaws::fold_more), unfolding(crate::specs::Tables::noted))]
fn note(job: Job, number: u8, named: &mut [u8; 256])
    ensures { named.new ≡ noted job number named.old }
{
    for i in 0..4 {
        if i < job.arity as usize {
            let cell = job.accesses[i].cell as usize;
            named[cell] = named[cell].max(number);
        }
    }
}

/// For each of the first `job_count` jobs from job `first` on the length of the longest chain of later jobs, each naming a cell
/// that the one before it may write, the job itself counted; 0 in the places after them. The places before are left at 0: a
/// chain needs the later jobs alone.
pub fn chain_lengths_from(jobs: [Job; 128], job_count: usize, first: usize) -> [u8; 128]
    ensures { drop first result ≡ drop first (column 128 job_count (chain_length_at jobs job_count) 0) }
{
    let mut lengths = [0u8; 128];
    let mut named = [0u8; 256];
    for j in (first..job_count.min(128)).rev() {
        let job = jobs[j];
        let next = met_by(&named, job);
        let length = next + 1;
        lengths[j] = length;
        note(job, length, &mut named);
    }
    lengths
}

/// The same for all of them.
pub fn chain_lengths(jobs: [Job; 128], job_count: usize) -> [u8; 128]
    ensures { result ≡ column 128 job_count (chain_length_at jobs job_count) 0 }
{
    chain_lengths_from(jobs, job_count, 0)
}
