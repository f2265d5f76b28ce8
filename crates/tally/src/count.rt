//! The tally of one batch.

ghost use Rattle.std.specs.Prelude.{◌≡◌, ◌<◌, ◌≤◌, length};
ghost use Rattle.tally.specs.Tally.{is_pending, tally_below, tallied};
ghost use Rattle.tally.specs.TallyLaws.{with_job};
ghost use Rattle.tally.specs.Total.{largest, most};

use crate::{Tally, TallyAnswer};
use engine::Batch;
use engine::speculation::is_live;
use refusal::Refusal;

// The columns of the C record hold bytes.

/// A job committed by its speculative run, in the record's column `committed`.
const BY_SPECULATION: u8 = 2;

/// The phases of a speculative run, in the record's column `phase`.
const NEVER_STARTED: u8 = 0;

const DISCARDED: u8 = 3;

/// Whether the job's speculative run is still out or stored, and the job not committed.
fn is_pending(committed: u8, phase: u8) -> bool
    ensures { result ≡ is_pending committed phase }
{
    committed == 0 && is_live(phase)
}

impl Tally {
    /// The tally with one job more, by the job's states.
    fn with_job(self, committed: u8, phase: u8) -> Tally
        requires { largest self < most }
        ensures { result ≡ with_job self committed phase }
    {
        Tally {
            jobs: self.jobs + 1,
            started: self.started + u32::from(phase != NEVER_STARTED),
            kept: self.kept + u32::from(committed == BY_SPECULATION),
            discarded: self.discarded + u32::from(phase == DISCARDED),
            pending: self.pending + u32::from(is_pending(committed, phase)),
        }
    }

    /// The tally of some jobs, by their states.
    fn of_states(committed: &[u8], phase: &[u8]) -> Tally
        requires few { length committed.now ≤ 128 }
        requires each_has_both { length phase.now ≡ length committed.now }
        ensures { result ≡ tally_below (length committed.now) committed.now phase.now }
    {
        let mut tally = Tally::default();
        for (how, guess) in committed.iter().zip(phase) {
            tally = tally.with_job(*how, *guess);
        }
        tally
    }

    /// R75: how many jobs the batch holds, and what became of their speculative runs. Refused with 32.
    #[tactic(auto, using(crate::specs::TallyLaws::counting))]
    pub fn count(batch: Batch) -> TallyAnswer
        ensures { result ≡ tallied batch }
    {
        if !batch.is_in_form() {
            return Err(Refusal::OutOfForm).into();
        }
        let jobs = batch.job_count as usize;
        Ok(Tally::of_states(&batch.committed[..jobs], &batch.phase[..jobs])).into()
    }
}
