//! What a speculative run bypassed: how many jobs and the lowest of them, and the same of those that are still open, which
//! are not committed.
#![tactic(auto)]

ghost use Rattle.std.specs.Prelude.{◌≡◌};
ghost use Rattle.jobset.specs.JobSet.{has_job};
ghost use Rattle.refusal.specs.Refusal.{number_of};
ghost use Rattle.bypass.specs.Bypass.{told_of, told_run, refused_speculation, asked_speculation};
ghost use Rattle.bypass.specs.BypassLaws.{open_in};

use engine::Batch;
use engine::speculation::is_live;
use jobset::JobSet;
use refusal::Refusal;

/// R78: what is told of a set of jobs: its size, whether it has a lowest job, and that job, 0 where there is none.
// C interface: an exported function cannot answer with an `Option`.
#[repr(C)]
#[derive(Clone, Copy, PartialEq, Eq, Debug, Default)]
pub struct SetAnswer {
    pub size: u8,
    pub present: bool,
    pub lowest: u8,
}

/// What asking a job's speculative run answers: the jobs that it bypassed, and the open ones among them. All are 0 where it
/// is refused.
#[repr(C)]
#[derive(Clone, Copy, PartialEq, Eq, Debug, Default)]
pub struct SpeculationAnswer {
    pub refusal: u8,
    pub bypassed: SetAnswer,
    pub open: SetAnswer,
}

impl From<JobSet> for SetAnswer {
    ghost from_gives = { λ set answer. answer ≡ told_of (has_job set) };

    /// R78: the size of the set and its lowest job.
    #[tactic(auto, unfolding(crate::specs::Bypass::shown_set, jobset::specs::JobSet::size_of, jobset::specs::JobSet::lowest_of))]
    fn from(set: JobSet) -> SetAnswer {
        let lowest = set.lowest();
        SetAnswer {
            size: set.size(),
            present: lowest.is_some(),
            lowest: lowest.unwrap_or(0),
        }
    }
}

/// The jobs of the set that are not committed. The walk goes from one job of the set to the next.
fn open_in(set: JobSet, committed: &[u8; 128]) -> JobSet
    ensures { result ≡ open_in set committed.now }
{
    let mut open = JobSet::empty();
    let mut from: usize = 0;
    while let Some(job) = set.next(from) {
        let j = job as usize;
        let is_open = committed[j] == 0;
        if is_open {
            open = open.with(j);
        }
        from = j + 1;
    }
    open
}

/// What is told of a run that bypassed the jobs, speculative in the phase.
#[tactic(auto, using(crate::specs::BypassLaws::told_open))]
fn told_run(bypassed: JobSet, phase: u8, committed: &[u8; 128]) -> SpeculationAnswer
    ensures { result ≡ told_run bypassed phase committed.now }
{
    let known = if is_live(phase) {
        bypassed
    } else {
        JobSet::empty()
    };
    let open = open_in(known, committed);
    SpeculationAnswer {
        refusal: 0,
        bypassed: known.into(),
        open: open.into(),
    }
}

impl From<Refusal> for SpeculationAnswer {
    ghost from_gives = { λ why answer. answer ≡ refused_speculation (number_of why) };

    /// The answer of a refused call.
    fn from(why: Refusal) -> SpeculationAnswer {
        SpeculationAnswer {
            refusal: u8::from(why),
            ..SpeculationAnswer::default()
        }
    }
}

impl SpeculationAnswer {
    /// R79: what the speculative run of job `j` bypassed. Refused with 11 or 32.
    #[tactic(auto, using(crate::specs::BypassLaws::asking))]
    pub fn of(batch: Batch, j: usize) -> SpeculationAnswer
        ensures { result ≡ asked_speculation batch j }
    {
        if !batch.is_in_form() {
            return Refusal::OutOfForm.into();
        }
        if (batch.job_count as usize) <= j {
            return Refusal::NoSuchJob.into();
        }
        told_run(batch.runs[j].bypassed, batch.phase[j], &batch.committed)
    }
}
