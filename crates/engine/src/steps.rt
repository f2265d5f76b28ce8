//! The five steps by their names, and the tests of each. What a step changes is in `change.rt`.

ghost use Rattle.std.specs.Prelude.{◌≡◌, not, ◌&&◌, ◌||◌, [], ◌∷◌, eqb};
ghost use Rattle.laws.specs.Refusal.{when, first_of};
ghost use Rattle.refusal.specs.Refusal.{told};
ghost use Rattle.dependence.specs.Ready.{is_committed};
ghost use Rattle.rules.specs.Snapshot.{never_started, is_stored, is_live};
ghost use Rattle.rules.specs.Values.{wrote_refused};
ghost use Rattle.engine.specs.Steps.{new_run, reported_run, discarded_phase};
ghost use Rattle.engine.specs.Steps.{started_own, started_speculation, reported_own, reported_speculation, committed_by};

use crate::change::Standing;
use crate::speculation::is_live;
use crate::{Answer, Batch, Report, Run, Started};
use dependence::Job;
use jobset::JobSet;
use refusal::Refusal;

/// A run that was handed the values, before any report.
pub(crate) fn new_run(handed: [i32; 4], sources: [u8; 4], bypassed: JobSet) -> Run
    ensures { result ≡ new_run handed sources bypassed }
{
    Run {
        handed,
        reported: [0; 4],
        wrote: 0,
        sources,
        bypassed,
    }
}

/// The phase of a speculative run that is thrown away, if there was one.
pub(crate) fn discarded_phase(phase: u8) -> u8
    ensures { result ≡ discarded_phase phase }
{
    if phase == 0 {
        return 0;
    }
    3
}

/// Whether the own run of a job held may be started.
#[tactic(auto, unfolding(laws::specs::Refusal::first_of))]
pub(crate) fn may_start_own(now: Standing, ready: bool, invalid: bool) -> Result<(), Refusal>
    ensures { told result ≡ first_of (when (is_committed now.committed || not (eqb now.running 0)) 13 ∷ when (not ready) 15 ∷ when ((ready && is_live now.phase) && not invalid) 17 ∷ []) }
{
    if now.committed != 0 || now.running != 0 {
        return Err(Refusal::State);
    }
    if !ready {
        return Err(Refusal::NotReady);
    }
    if is_live(now.phase) && !invalid {
        return Err(Refusal::Valid);
    }
    Ok(())
}

/// Whether the speculative run of a job held may be started.
#[tactic(auto, unfolding(laws::specs::Refusal::first_of))]
pub(crate) fn may_start_speculation(
    on: bool,
    now: Standing,
    ready: bool,
    missing: bool,
) -> Result<(), Refusal>
    ensures { told result ≡ first_of (when (not on) 12 ∷ when (is_committed now.committed || (not (eqb now.running 0) || not (never_started now.phase))) 13 ∷ when ready 14 ∷ when missing 15 ∷ []) }
{
    if !on {
        return Err(Refusal::SpeculationOff);
    }
    if now.committed != 0 || now.running != 0 || now.phase != 0 {
        return Err(Refusal::State);
    }
    if ready {
        return Err(Refusal::Ready);
    }
    if missing {
        return Err(Refusal::NotReady);
    }
    Ok(())
}

/// Whether a report may be taken, whichever run it is on: that run is out, and the mark fits the job.
#[tactic(auto, unfolding(laws::specs::Refusal::first_of))]
pub(crate) fn may_report(out: bool, job: Job, wrote: u8) -> Result<(), Refusal>
    ensures { told result ≡ first_of (when (not out) 13 ∷ when (wrote_refused job wrote) 16 ∷ []) }
{
    if !out {
        return Err(Refusal::State);
    }
    if runs::wrote_refused(job, wrote) {
        return Err(Refusal::Mark);
    }
    Ok(())
}

/// Whether the speculative run of a job held may be committed.
#[tactic(auto, unfolding(laws::specs::Refusal::first_of))]
pub(crate) fn may_commit(now: Standing, ready: bool, invalid: bool) -> Result<(), Refusal>
    ensures { told result ≡ first_of (when (is_committed now.committed || not (is_stored now.phase)) 13 ∷ when (not ready) 15 ∷ when invalid 18 ∷ []) }
{
    if now.committed != 0 || now.phase != 2 {
        return Err(Refusal::State);
    }
    if !ready {
        return Err(Refusal::NotReady);
    }
    if invalid {
        return Err(Refusal::Invalid);
    }
    Ok(())
}

/// The run with a report.
pub(crate) fn reported_run(job: Job, run: Run, report: Report) -> Run
    ensures { result ≡ reported_run job run report.values report.wrote }
{
    let reported = runs::stored_values(job, run.handed, report.values, report.wrote);
    Run {
        reported,
        wrote: report.wrote,
        ..run
    }
}

impl From<Started> for Answer {
    /// The answer of a step that hands nothing out.
    fn from(started: Started) -> Answer
        ensures { result ≡ record { refusal = started.refusal; batch = started.batch } }
    {
        let Started { refusal, batch, .. } = started;
        Answer { refusal, batch }
    }
}

impl Batch {
    /// R51, step 0: starts the own run of job `j` and hands out the present values of its cells.
    #[tactic(auto, unfolding(crate::specs::ByNumber::stepped))]
    pub fn start_own(self, j: usize) -> Started
        ensures { result ≡ started_own self j }
    {
        self.step(0, j, Report::default())
    }

    /// R52, step 1: starts the speculative run of job `j`, as if the uncertain writers before it wrote nothing and its
    /// predictions were right.
    #[tactic(auto, unfolding(crate::specs::ByNumber::stepped))]
    pub fn start_speculation(self, j: usize) -> Started
        ensures { result ≡ started_speculation self j }
    {
        self.step(1, j, Report::default())
    }

    /// R53, step 2: takes the report on the own run of job `j`, writes its cells and commits the job.
    #[tactic(auto, unfolding(crate::specs::ByNumber::stepped))]
    pub fn report_own(self, j: usize, report: Report) -> Answer
        ensures { result ≡ reported_own self j report.values report.wrote }
    {
        Answer::from(self.step(2, j, report))
    }

    // As `report_own` but for the number: both are entries of their own.

    /// R54, step 3: stores the report on the speculative run of job `j`; no cell changes.
    #[tactic(auto, unfolding(crate::specs::ByNumber::stepped))]
    pub fn report_speculation(self, j: usize, report: Report) -> Answer
        ensures { result ≡ reported_speculation self j report.values report.wrote }
    {
        Answer::from(self.step(3, j, report))
    }

    /// R55, step 4: commits job `j` by its speculative run, whose stored report is written into the cells.
    #[tactic(auto, unfolding(crate::specs::ByNumber::stepped))]
    pub fn commit(self, j: usize) -> Answer
        ensures { result ≡ committed_by self j }
    {
        Answer::from(self.step(4, j, Report::default()))
    }
}
