//! Meets each refusal of the engine's entries, and the limits of a batch: a line for each call.
#![tactic(auto)]

mod batches;
mod damaged;
mod four_accesses;
mod guesses;
mod jobs;
mod planner;
mod reader;
mod worker;

use say::Onward;
use std::io;

fn what_to_look_for(rt: &impl Print) -> io::Result<()> {
    println!(rt; "# what to look for")?;
    println!(rt;
        "A line is a call in words and what it answers: 0 if it is accepted, else the number of the refusal."
    )?;
    println!(rt;
        "Where nothing else is said, a batch has 4 cells, guessing is on, and on cell 0 job 0 is a floor and jobs 1 and 2 are shifts."
    )
}

fn lines(rt: &impl Print) -> io::Result<()> {
    what_to_look_for(rt)?;
    planner::opening(rt)?;
    planner::inserting(rt)?;
    planner::of_a_job(rt)?;
    planner::sealing(rt)?;
    worker::before_any_run(rt)?;
    worker::too_early(rt)?;
    worker::too_late(rt)?;
    guesses::reports(rt)?;
    guesses::standing_and_fallen(rt)?;
    four_accesses::guesses_settled(rt)?;
    four_accesses::guess_fallen(rt)?;
    reader::asking(rt)?;
    reader::copying(rt)?;
    reader::finishing(rt)?;
    damaged::records(rt)
}

fn main(rt: HostRuntime) {
    // no line of it fails
    let _ = lines(&Onward(&rt));
}
