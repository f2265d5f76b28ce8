//! A worker's turn: a report or none, and then the steps that the chooser names. Like a step it tells what is to be stored. The
//! jobs are surveyed after the report and after a step that may take something from another job, and not after each step.

ghost use Rattle.std.specs.Prelude.{◌≡◌, true, false, cond, not, ◌&&◌, ◌||◌, eqb, ltb, get_or, ◌<◌, ◌≤◌, min};
ghost use Rattle.dependence.specs.Job.{job_at};
ghost use Rattle.walk.specs.Origins.{AllPlain};
ghost use Rattle.engine.specs.Record.{run_at};
ghost use Rattle.engine.specs.Change.{standing_at, guess_at, plain_change, speculation_start};
ghost use Rattle.engine.specs.Ranks.{step_of};
ghost use Rattle.engine.specs.Chooser.{pick_below};
ghost use Rattle.engine.specs.Form.{in_form};
ghost use Rattle.engine.specs.Turn.{no_report, is_report, no_step, no_steps, blank_report};
ghost use Rattle.engine.specs.TurnChange.{no_job_run, refused_turn, changes_from, turn_change};

use crate::change::{Change, speculation_start};
use crate::chooser::step_of;
use crate::columns::{Columns, Ranks};
use crate::{Batch, JobRun, Report, Run, StepList, Taken, TurnChange};
use cellset::survey::judged_rank;
use refusal::Refusal;
use walk::origins::Origins;

/// The number of a turn that brings no report, as hosts give it.
const NO_REPORT: u8 = 255;

impl Default for Taken {
    /// A place in which no step stands. (Derived, it would tell of its array place by place.)
    fn default() -> Taken
        ensures { result ≡ no_step }
    {
        Taken {
            step: 0,
            job: 0,
            handed: [0; 4],
        }
    }
}

impl Default for JobRun {
    /// A place in which no run stands. (By hand as that of `Run` is, so that its contract is one equation.)
    fn default() -> JobRun
        ensures { result ≡ no_job_run }
    {
        let run = Run::default();
        JobRun { job: 0, run }
    }
}

impl Default for Report {
    /// The report of a step that brings none. (Derived, it would tell of its array place by place.)
    fn default() -> Report
        ensures { result ≡ blank_report }
    {
        Report {
            values: [0; 4],
            wrote: 0,
        }
    }
}

/// What is refused changes nothing.
fn refused_turn(refusal: u8) -> TurnChange
    ensures { result ≡ refused_turn refusal }
{
    let step = Taken::default();
    let run = JobRun::default();
    TurnChange {
        refusal,
        count: 0,
        stored: 0,
        steps: StepList { taken: [step; 16] },
        changed: [run; 17],
        cells: [0; 64],
        committed: [0; 128],
        running: [0; 128],
        phase: [0; 128],
    }
}

// By the number, which hosts give.

/// Whether a turn may begin with the number: it is that of a report, or says that there is none.
fn begins_turn(number: u8) -> bool
    ensures { result ≡ (eqb number no_report || is_report number) }
{
    match number {
        NO_REPORT | 2 | 3 => true,
        _ => false,
    }
}

/// Whether a step of the rank, on a job whose guess is in the phase, may change what is allowed on other jobs: a commit does, and
/// an own run that throws a stored guess away.
fn touches_others(rank: u8, phase: u8) -> bool
    ensures { result ≡ (eqb rank 3 || (eqb rank 2 && eqb phase 2)) }
{
    rank == 3 || rank == 2 && phase == 2
}

/// From which job on chains are needed, where they are known from job `known` on: of one job with the largest rank none is.
fn needed_from(lowest: usize, highest: usize, known: usize) -> usize
    ensures { result ≡ cond (ltb lowest highest) (min lowest known) known }
{
    if lowest < highest {
        return lowest.min(known);
    }
    known
}

impl Ranks {
    /// The job picked of those with the rank, of which the lowest and the highest are given.
    fn picked(
        &self,
        rank: u8,
        lowest: u8,
        highest: u8,
        chains: &[u8; 128],
        arities: &[u8; 128],
    ) -> u8
        ensures { result ≡ cond (ltb lowest highest) (pick_below self.now.n (λ j. eqb (get_or self.now.of j 0) rank) (λ j. get_or chains.now j 0) (λ j. get_or arities.now j 0)).job lowest }
    {
        if lowest < highest {
            let pick = self.pick(rank, chains, arities);
            return pick.job;
        }
        lowest
    }
}

impl Batch {
    /// What the step of the rank changes on job `p`, on which it is allowed: rank 1 is a guess's start.
    fn chosen_change(&self, rank: u8, p: usize) -> Change
        requires held { p < 128 }
        requires walks { AllPlain self.now.jobs p }
        ensures { result ≡ cond (eqb rank 1) (speculation_start (not (eqb self.now.speculating 0)) (standing_at self.now p) self.now.cells false false (guess_at self.now p)) (plain_change (step_of rank) (job_at self.now.jobs p) (run_at self.now p) (standing_at self.now p) self.now.cells blank_report true) }
    {
        let held = self.held(p);
        let cells = self.cells;
        if rank == 1 {
            let origins = Origins::of(self.jobs, self.committed, p);
            let guess = self.guess(p, origins);
            return speculation_start(self.speculating != 0, held.now, cells, false, false, guess);
        }
        held.plain_change(step_of(rank), cells, Report::default(), true)
    }

    /// The steps of a turn, at most `most` of them, where `start` runs are noted for storing already.
    fn take_steps(mut self, noted: [JobRun; 17], start: usize, most: usize) -> TurnChange
        requires { (in_form self ≡ true) × (eqb self.sealed 0 ≡ false) × (start ≤ 1) × (most ≤ 16) }
        ensures { result ≡ changes_from self no_steps noted 0 start most }
    {
        let n = self.job_count as usize;
        let mut columns = Columns::none();
        self.fill(&mut columns);
        let mut ranks = self.ranks(&columns);
        let none = Taken::default();
        let mut taken = [none; 16];
        let mut changed = noted;
        let mut count: usize = 0;
        let mut stored = start;
        let mut chains = [0u8; 128];
        let mut known = n;
        // no `for`: a turn of the loop that judges a guess takes no step
        while count < most {
            let top = ranks.top();
            if top == 0 {
                break;
            }
            let lowest = ranks.lowest(top);
            if top == 4 {
                let at = lowest as usize;
                let job = self.jobs[at];
                let handed = self.runs[at].handed;
                let stale = runs::is_stale(job, handed, &self.cells);
                ranks.of[at] = judged_rank(self.running[at], self.phase[at], stale);
                continue;
            }
            let highest = ranks.highest(top);
            let from = needed_from(lowest as usize, highest as usize, known);
            if from < known {
                chains = passes::chain_lengths_from(self.jobs, n, from);
                known = from;
            }
            let pick = ranks.picked(top, lowest, highest, &chains, &columns.arities);
            let p = pick as usize;
            let number = step_of(top);
            let phase = self.phase[p];
            let change = self.chosen_change(top, p);
            let run = change.run;
            let handed = change.handed;
            self.store(p, change);
            taken[count] = Taken {
                step: number,
                job: pick,
                handed,
            };
            changed[stored] = JobRun { job: pick, run };
            count += 1;
            stored += 1;
            ranks.of[p] = 0;
            if touches_others(top, phase) {
                ranks = self.ranks(&columns);
            }
        }
        let cells = self.cells;
        let committed = self.committed;
        let running = self.running;
        let phase = self.phase;
        TurnChange {
            refusal: 0,
            count: count as u8,
            stored: stored as u8,
            steps: StepList { taken },
            changed,
            cells,
            committed,
            running,
            phase,
        }
    }

    /// R64: what a turn changes, or with which number it is refused: a report with the number 2 or 3, or none with 255, and then the
    /// steps that the chooser names, up to the limit, and 16 at most. Refused with 21 for another number, with 10 or 32, and as the
    /// report is.
    pub fn turn(mut self, number: u8, j: usize, report: Report, limit: usize) -> TurnChange
        ensures { result ≡ turn_change self number j report limit }
    {
        if !self.is_in_form() {
            return refused_turn(Refusal::OutOfForm as u8);
        }
        let begins = begins_turn(number);
        if !begins {
            return refused_turn(Refusal::NoSuchStep as u8);
        }
        if self.sealed == 0 {
            return refused_turn(Refusal::NotSealed as u8);
        }
        let none = JobRun::default();
        let mut noted = [none; 17];
        let mut first: usize = 0;
        if number != NO_REPORT {
            if self.job_count as usize <= j {
                return refused_turn(Refusal::NoSuchJob as u8);
            }
            let present = self.cells;
            let change = self.held(j).plain_change(number, present, report, true);
            if change.refusal != 0 {
                return refused_turn(change.refusal);
            }
            let run = change.run;
            self.store(j, change);
            noted[0] = JobRun { job: j as u8, run };
            first = 1;
        }
        self.take_steps(noted, first, limit.min(16))
    }
}
