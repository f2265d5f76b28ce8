//! The total of many tallies.

ghost use Rattle.std.specs.Prelude.{◌≡◌, ltb, ◌+◌};
ghost use Rattle.tally.specs.Total.{sum_of_two, most, fitting, added, no_total, added_to};

use crate::{Tally, TallyAnswer};
use refusal::Refusal;

/// Whether the sum does not fit.
fn is_over(a: u32, b: u32) -> bool
    ensures { result ≡ ltb most (a + b) }
{
    a.checked_add(b).is_none()
}

impl Tally {
    /// The five sums, where all of them fit. All are tested before a tally is made of them: four of the tests are then one
    /// comparison of vectors, and four of the sums one addition. (With a `?` behind each the total of many takes a third more time.)
    #[tactic(auto, unfolding(crate::specs::Total::fitting))]
    fn checked_add(self, other: Tally) -> Option<Tally>
        ensures { result ≡ fitting (sum_of_two self other) }
    {
        if is_over(self.jobs, other.jobs)
            || is_over(self.started, other.started)
            || is_over(self.kept, other.kept)
            || is_over(self.discarded, other.discarded)
            || is_over(self.pending, other.pending)
        {
            return None;
        }
        Some(Tally {
            jobs: self.jobs + other.jobs,
            started: self.started + other.started,
            kept: self.kept + other.kept,
            discarded: self.discarded + other.discarded,
            pending: self.pending + other.pending,
        })
    }

    /// R76: the two tallies added up. Refused with 23.
    #[tactic(auto, unfolding(crate::specs::Total::fitting, crate::specs::Total::fitted))]
    pub fn add(self, other: Tally) -> TallyAnswer
        ensures { result ≡ added self other }
    {
        self.checked_add(other).ok_or(Refusal::Overflow).into()
    }
}

impl TallyAnswer {
    /// The total of no tallies.
    pub fn none() -> TallyAnswer
        ensures { result ≡ no_total }
    {
        TallyAnswer::default()
    }

    /// The total with one tally more; a refused total stays so.
    pub fn plus(self, tally: Tally) -> TallyAnswer
        ensures { result ≡ added_to self tally }
    {
        if self.refusal != 0 {
            return self;
        }
        self.tally.add(tally)
    }
}
