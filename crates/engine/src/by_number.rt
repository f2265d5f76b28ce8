//! The steps by their numbers 0 to 4, which serve plans, the chooser and the five steps by their names.

ghost use Rattle.std.specs.Prelude.{◌≡◌, ◌<◌};
ghost use Rattle.refusal.specs.Refusal.{told};
ghost use Rattle.engine.specs.ByNumber.{stepped};
ghost use Rattle.engine.specs.Change.{early_refusal};
ghost use Rattle.engine.specs.Change.{with_change};

use crate::change::Change;
use crate::{Batch, Report, Started};
use refusal::Refusal;

impl Batch {
    /// Whether the step may be taken, as far as that is known before its job is looked at.
    #[tactic(auto, unfolding(laws::specs::Refusal::first_of))]
    pub(crate) fn may_step(&self, number: u8, j: usize) -> Result<(), Refusal>
        ensures { told result ≡ early_refusal self.now number j }
    {
        self.in_form()?;
        if 4 < number {
            return Err(Refusal::NoSuchStep);
        }
        if self.sealed == 0 {
            return Err(Refusal::NotSealed);
        }
        if self.job_count as usize <= j {
            return Err(Refusal::NoSuchJob);
        }
        Ok(())
    }

    /// Stores what a step changes on job `j`.
    #[tactic(auto, unfolding(crate::specs::Steps::with_job_changed))]
    pub(crate) fn store(&mut self, j: usize, change: Change)
        requires { j < 128 }
        ensures { self.new ≡ with_change self.old j change }
    {
        let cells = change.cells;
        self.cells = cells;
        self.runs[j] = change.run;
        self.committed[j] = change.now.committed;
        self.running[j] = change.now.running;
        self.phase[j] = change.now.phase;
    }

    // Number, job and report come one by one from the host, here and in the exported entries.

    /// R50: the step with the number, on job `j`. The report is ignored by the steps that bring none. Refused as that step is, and
    /// with 21 for a number above 4.
    pub fn step(mut self, number: u8, j: usize, report: Report) -> Started
        ensures { result ≡ stepped self number j report.values report.wrote }
    {
        let change = self.change_for(number, j, report);
        let refusal = change.refusal;
        if refusal != 0 {
            return Started {
                refusal,
                handed: [0; 4],
                batch: self,
            };
        }
        let handed = change.handed;
        self.store(j, change);
        Started {
            refusal: 0,
            handed,
            batch: self,
        }
    }
}
