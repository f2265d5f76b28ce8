//! What a step changes: it is decided and told here, and stored by who asked. The record is only read, and lent to each helper:
//! handed by value it would be copied.

ghost use Rattle.std.specs.Prelude.{◌≡◌, not, ◌&&◌, eqb, ◌-◌, ◌<◌, ◌≤◌};
ghost use Rattle.laws.specs.Search.{any_below};
ghost use Rattle.dependence.specs.Ready.{blocks};
ghost use Rattle.walk.specs.Origins.{AllPlain, origins_of};
ghost use Rattle.rules.specs.Speculation.{source_missing};
ghost use Rattle.dependence.specs.Job.{job_at};
ghost use Rattle.engine.specs.Record.{run_at, snapshot_of};
ghost use Rattle.engine.specs.Speculation.{forwarded_at};
ghost use Rattle.engine.specs.Change.{own_report, speculation_report, own_start, commit_change, speculation_start, standing_at, guess_at, plain_change, asked_below, refused_change, change_on};

use crate::speculation::{is_invalid, unusable_any};
use crate::steps::{
    discarded_phase, may_commit, may_report, may_start_own, may_start_speculation, new_run,
    reported_run,
};
use crate::{Batch, Report, Run};
use dependence::Job;
use jobset::JobSet;
use refusal::told;
use walk::origins::Origins;

/// How a job stands: how it was committed, whether its own run is out, and the phase of its speculative one.
#[derive(Clone, Copy, Default)]
pub struct Standing {
    pub committed: u8,
    pub running: u8,
    pub phase: u8,
}

/// A job as a step meets it: as it was inserted, with the run that it holds, and how it stands.
#[derive(Clone, Copy)]
pub(crate) struct Held {
    pub job: Job,
    pub run: Run,
    pub now: Standing,
}

// Told with the number beside the rest, and not as a Result: `change_on` says every field of a refused step too.

/// What a step comes to: the number of its refusal, or 0 and then the values handed out, the cells, and the run and the
/// standing of its job. Where the number is not 0, nothing is changed, and what else stands here means nothing.
#[derive(Clone, Copy)]
pub struct Change {
    pub refusal: u8,
    pub handed: [i32; 4],
    pub cells: [i32; 64],
    pub run: Run,
    pub now: Standing,
}

/// What is refused before a job is looked at.
fn refused_change(refusal: u8) -> Change
    ensures { result ≡ refused_change refusal }
{
    Change {
        refusal,
        handed: [0; 4],
        cells: [0; 64],
        run: Run::default(),
        now: Standing::default(),
    }
}

impl Held {
    /// Step 2.
    fn own_report(self, cells: [i32; 64], report: Report) -> Change
        ensures { result ≡ own_report self.job self.run self.now cells report.values report.wrote }
    {
        let out = self.now.running != 0;
        let refusal = told(may_report(out, self.job, report.wrote));
        let run = reported_run(self.job, self.run, report);
        let reported = run.reported;
        let written = runs::write_back(self.job, reported, report.wrote, cells);
        Change {
            refusal,
            handed: [0; 4],
            cells: written,
            run,
            now: Standing {
                committed: 1,
                running: 0,
                ..self.now
            },
        }
    }

    /// Step 3.
    fn speculation_report(self, cells: [i32; 64], report: Report) -> Change
        ensures { result ≡ speculation_report self.job self.run self.now cells report.values report.wrote }
    {
        let out = self.now.phase == 1;
        let refusal = told(may_report(out, self.job, report.wrote));
        let run = reported_run(self.job, self.run, report);
        Change {
            refusal,
            handed: [0; 4],
            cells,
            run,
            now: Standing {
                phase: 2,
                ..self.now
            },
        }
    }

    /// Step 0 on a job that is ready or not.
    fn own_start(self, cells: [i32; 64], ready: bool) -> Change
        ensures { result ≡ own_start self.job self.run self.now cells ready }
    {
        let invalid = is_invalid(ready, self.now.phase, self.job, self.run, &cells);
        let refusal = told(may_start_own(self.now, ready, invalid));
        let handed = runs::present_values(self.job, cells);
        let run = new_run(handed, [0; 4], JobSet::empty());
        Change {
            refusal,
            handed,
            cells,
            run,
            now: Standing {
                committed: 0,
                running: 1,
                phase: discarded_phase(self.now.phase),
            },
        }
    }

    /// Step 4.
    fn commit(self, cells: [i32; 64], ready: bool) -> Change
        ensures { result ≡ commit_change self.job self.run self.now cells ready }
    {
        let invalid = is_invalid(ready, self.now.phase, self.job, self.run, &cells);
        let refusal = told(may_commit(self.now, ready, invalid));
        let reported = self.run.reported;
        let written = runs::write_back(self.job, reported, self.run.wrote, cells);
        Change {
            refusal,
            handed: [0; 4],
            cells: written,
            run: self.run,
            now: Standing {
                committed: 2,
                phase: 2,
                ..self.now
            },
        }
    }

    /// What a step other than 1 comes to. Reports ask nothing of the other jobs.
    pub(crate) fn plain_change(
        self,
        number: u8,
        cells: [i32; 64],
        report: Report,
        ready: bool,
    ) -> Change
        ensures { result ≡ plain_change number self.job self.run self.now cells report ready }
    {
        // by the number, which the exported steps have from the host
        match number {
            0 => self.own_start(cells, ready),
            2 => self.own_report(cells, report),
            3 => self.speculation_report(cells, report),
            _ => self.commit(cells, ready),
        }
    }
}

/// Step 1, with where the values come from.
pub(crate) fn speculation_start(
    on: bool,
    now: Standing,
    cells: [i32; 64],
    ready: bool,
    missing: bool,
    run: Run,
) -> Change
    ensures { result ≡ speculation_start on now cells ready missing run }
{
    let refusal = told(may_start_speculation(on, now, ready, missing));
    let handed = run.handed;
    Change {
        refusal,
        handed,
        cells,
        run,
        now: Standing {
            committed: 0,
            running: 0,
            phase: 1,
        },
    }
}

// By the number, as above.

/// How many of the jobs before job `j` the step asks about: of a report none.
fn asked_below(number: u8, j: usize) -> usize
    ensures { result ≡ asked_below number j }
{
    match number {
        2 | 3 => 0,
        _ => j,
    }
}

impl Batch {
    /// What step 1 comes to on job `j`, which stands so and is ready or not.
    fn speculation_change(&self, j: usize, now: Standing, ready: bool) -> Change
        requires { (j < 128) × AllPlain self.now.jobs j }
        ensures { result ≡ speculation_start (not (eqb self.now.speculating 0)) now self.now.cells ready (source_missing (snapshot_of self.now) j) (guess_at self.now j) }
    {
        let origins = Origins::of(self.jobs, self.committed, j);
        let missing = unusable_any(origins.sources, &self.phase);
        let guess = self.guess(j, origins);
        let on = self.speculating != 0;
        let cells = self.cells;
        speculation_start(on, now, cells, ready, missing, guess)
    }

    /// What a guess is handed at a place of its job: forwarded from the report of the place's source, or what is presumed there.
    fn forwarded(&self, job: Job, place: usize, source: u8, presumed: [i32; 4]) -> i32
        requires { (place < 4) × (source ≤ 128) }
        ensures { result ≡ forwarded_at job place source (job_at self.now.jobs (source - 1)) (run_at self.now (source - 1)) presumed }
    {
        if source == 0 {
            return presumed[place];
        }
        let writer = source as usize - 1;
        let values = self.runs[writer].reported;
        runs::value_for(self.jobs[writer], values, job.accesses[place].cell)
    }

    // (Four calls and no `from_fn`: each asks that its source is a job's place, which a closure would have to be told.)

    /// The guess that is started on job `j`, given where its values come from.
    pub(crate) fn guess(&self, j: usize, origins: Origins) -> Run
        requires { (j < 128) × (origins ≡ origins_of self.now.jobs self.now.committed j) }
        ensures { result ≡ guess_at self.now j }
    {
        let job = self.jobs[j];
        let sources = origins.sources;
        let presumed = runs::presumed_values(job, self.cells);
        let first = self.forwarded(job, 0, sources[0], presumed);
        let second = self.forwarded(job, 1, sources[1], presumed);
        let third = self.forwarded(job, 2, sources[2], presumed);
        let fourth = self.forwarded(job, 3, sources[3], presumed);
        new_run([first, second, third, fourth], sources, origins.bypassed)
    }

    // That job `j` has a place is asked here and beside: a type for such a number would be made in each entry beside the test that
    // the job is held, and be unmade for each column, and no clause would be shorter.

    /// Job `j` as a step meets it.
    pub(crate) fn held(&self, j: usize) -> Held
        requires { j < 128 }
        ensures { (result.job ≡ job_at self.now.jobs j) × (result.run ≡ run_at self.now j) × (result.now ≡ standing_at self.now j) }
    {
        let job = self.jobs[j];
        let run = self.runs[j];
        let now = Standing {
            committed: self.committed[j],
            running: self.running[j],
            phase: self.phase[j],
        };
        Held { job, run, now }
    }

    /// Whether each job before job `j` that conflicts with it is committed, as far as the first `far` of them go.
    fn is_ready_below(&self, j: usize, far: usize) -> bool
        requires { (j < 128) × (far ≤ 128) }
        ensures { result ≡ not (any_below far (blocks self.now.jobs self.now.committed j)) }
    {
        let job = self.jobs[j];
        for m in 0..far {
            if job.waits_for(self.jobs[m], self.committed[m]) {
                return false;
            }
        }
        true
    }

    /// What the step with the number changes on job `j`, or with which number it is refused: R50 as `step` has it.
    pub fn change_for(&self, number: u8, j: usize, report: Report) -> Change
        ensures { result ≡ change_on self.now number j report }
    {
        let refusal = told(self.may_step(number, j));
        if refusal != 0 {
            return refused_change(refusal);
        }
        let held = self.held(j);
        let ready = self.is_ready_below(j, asked_below(number, j));
        if number == 1 {
            return self.speculation_change(j, held.now, ready);
        }
        let cells = self.cells;
        held.plain_change(number, cells, report, ready)
    }
}
