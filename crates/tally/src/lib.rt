//! Guesses over a month: what became of a batch's speculative runs, and of those of many batches together.
#![tactic(auto)]

ghost use Rattle.std.specs.Prelude.{◌≡◌};
ghost use Rattle.tally.specs.Tally.{answered};

use refusal::Refusal;

mod count;
mod kept_share;
mod total;

/// R75: how many jobs there are, and how many of their speculative runs were started, are kept (the job is committed by
/// it), are discarded, and are pending: still out or with a stored report, their job not committed.
#[repr(C)]
#[derive(Clone, Copy, PartialEq, Eq, Debug, Default)]
pub struct Tally {
    pub jobs: u32,
    pub started: u32,
    pub kept: u32,
    pub discarded: u32,
    pub pending: u32,
}

/// What counting and adding up answer: 0 or the number of the refusal, and a tally, all 0 where it is refused.
#[repr(C)]
#[derive(Clone, Copy, PartialEq, Eq, Debug, Default)]
pub struct TallyAnswer {
    pub refusal: u8,
    pub tally: Tally,
}

impl From<Result<Tally, Refusal>> for TallyAnswer {
    ghost from_gives = { λ outcome answer. answer ≡ answered outcome };

    fn from(outcome: Result<Tally, Refusal>) -> TallyAnswer {
        match outcome {
            Ok(tally) => TallyAnswer { refusal: 0, tally },
            Err(refusal) => TallyAnswer {
                refusal: u8::from(refusal),
                tally: Tally::default(),
            },
        }
    }
}
