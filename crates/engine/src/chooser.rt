//! The chooser: which step to take next, and on which job.

ghost use Rattle.std.specs.Prelude.{◌≡◌, ◌≤◌, eqb, get_or};
ghost use Rattle.refusal.specs.Refusal.{number_of};
ghost use Rattle.engine.specs.Chooser.{better, pick_below, refused, named, chosen};
ghost use Rattle.engine.specs.FormPass.{top_below};
ghost use Rattle.engine.specs.Ranks.{step_of, lowest_below, highest_below};

use crate::columns::{Columns, Ranks};
use crate::form::top_of;
use crate::{Batch, Choice};
use cellset::survey::judged_rank;
use refusal::Refusal;

// No Option for no job: `pick_below` begins with a pick of length 0, which each allowed job betters.

/// A job, the length of its chain and how many accesses it has; length 0 where no job is picked.
#[derive(Clone, Copy, Default)]
pub(crate) struct Pick {
    pub job: u8,
    chain: u8,
    arity: u8,
}

/// The answer where nothing is chosen.
fn refused(why: Refusal) -> Choice
    ensures { result ≡ refused (number_of why) }
{
    Choice {
        refusal: why as u8,
        ..Choice::default()
    }
}

/// The answer that names the step on the job picked.
fn named(step: u8, pick: Pick) -> Choice
    ensures { result ≡ named step pick }
{
    Choice {
        refusal: 0,
        step,
        job: pick.job,
        chain: pick.chain,
    }
}

/// The pick, or the job if it is allowed and its chain is longer, or as long with fewer accesses: the earlier of two equals
/// stays.
fn better(pick: Pick, allowed: bool, job: u8, chain: u8, arity: u8) -> Pick
    ensures { result ≡ better pick allowed job chain arity }
{
    if allowed && (pick.chain < chain || pick.chain == chain && arity < pick.arity) {
        return Pick { job, chain, arity };
    }
    pick
}

// By the rank, a number in a column, of which the largest is taken.

/// The number of the step with the rank: 4, 0 or 1.
pub(crate) fn step_of(rank: u8) -> u8
    ensures { result ≡ step_of rank }
{
    match rank {
        3 => 4,
        2 => 0,
        _ => 1,
    }
}

impl Ranks {
    /// The largest of them.
    pub(crate) fn top(&self) -> u8
        ensures { result ≡ top_below self.now.n self.now.of }
    {
        top_of(&self.of, self.n)
    }

    /// The lowest job that has the rank; 255 where there is none. (As in `top_of`, the loop has no exit but its end.)
    pub(crate) fn lowest(&self, rank: u8) -> u8
        ensures { result ≡ lowest_below self.now.n rank self.now.of }
    {
        let mut lowest: u8 = 255;
        for j in 0..self.n {
            let here = if self.of[j] == rank { j as u8 } else { 255 };
            lowest = here.min(lowest);
        }
        lowest
    }

    // Its twin `lowest` differs in the choice and in what no place counts as: one method of both would take the two as arguments.
    // Each answers a number where there is no such job, and no Option: the definitions do, and it is asked for where there is one.

    /// The highest of them; 0 where there is none.
    pub(crate) fn highest(&self, rank: u8) -> u8
        ensures { result ≡ highest_below self.now.n rank self.now.of }
    {
        let mut highest: u8 = 0;
        for j in 0..self.n {
            let here = if self.of[j] == rank { j as u8 } else { 0 };
            highest = here.max(highest);
        }
        highest
    }

    /// The pick among the jobs with the rank.
    pub(crate) fn pick(&self, rank: u8, chains: &[u8; 128], arities: &[u8; 128]) -> Pick
        ensures { result ≡ pick_below self.now.n (λ j. eqb (get_or self.now.of j 0) rank) (λ j. get_or chains.now j 0) (λ j. get_or arities.now j 0) }
    {
        let mut pick = Pick::default();
        for j in 0..self.n {
            let is_allowed = self.of[j] == rank;
            pick = better(pick, is_allowed, j as u8, chains[j], arities[j]);
        }
        pick
    }
}

impl Batch {
    /// R60 to R62: names an allowed step 4, else 0, else 1, on the job with the longest chain; of equal chains on the job with
    /// the fewest accesses, and of those on the lowest. Refused with 10, with 19 where there is none, or with 32.
    pub fn choose(&self) -> Choice
        ensures { result ≡ chosen self.now }
    {
        if !self.is_in_form() {
            return refused(Refusal::OutOfForm);
        }
        if self.sealed == 0 {
            return refused(Refusal::NotSealed);
        }
        let n = self.job_count as usize;
        let mut columns = Columns::none();
        self.fill(&mut columns);
        let mut ranks = self.ranks(&columns);
        for p in 0..n {
            if ranks.of[p] == 4 {
                let job = self.jobs[p];
                let handed = self.runs[p].handed;
                let stale = runs::is_stale(job, handed, &self.cells);
                ranks.of[p] = judged_rank(self.running[p], self.phase[p], stale);
            }
        }
        let top = ranks.top();
        if top == 0 {
            return refused(Refusal::NothingToDo);
        }
        let first = ranks.lowest(top);
        let jobs = self.jobs;
        let chains = passes::chain_lengths_from(jobs, n, first as usize);
        let pick = ranks.pick(top, &chains, &columns.arities);
        named(step_of(top), pick)
    }
}
