//! Calls the public functions of the lower layers at their edges and prints what they answer, a line each.
#![tactic(auto)]

mod admission_edges;
mod conflict_edges;
mod job;
mod kind_edges;
mod pass_edges;
mod ready_edges;
mod survey_edges;

use say::Onward;
use std::io;

fn lines(rt: &impl Print) -> io::Result<()> {
    conflict_edges::accesses(rt)?;
    conflict_edges::places(rt)?;
    conflict_edges::jobs(rt)?;
    conflict_edges::places_of_jobs(rt)?;
    ready_edges::writers(rt)?;
    ready_edges::readers(rt)?;
    survey_edges::words(rt)?;
    survey_edges::writers(rt)?;
    survey_edges::readers(rt)?;
    survey_edges::runs(rt)?;
    survey_edges::judged(rt)?;
    survey_edges::counts(rt)?;
    pass_edges::chains_of_writers(rt)?;
    pass_edges::chains_of_readers(rt)?;
    pass_edges::chains_of_a_writer(rt)?;
    pass_edges::chains_of_counts(rt)?;
    admission_edges::counts(rt)?;
    admission_edges::accesses(rt)?;
    admission_edges::kinds_and_modes(rt)?;
    admission_edges::order(rt)?;
    kind_edges::shifts(rt)?;
    kind_edges::spikes(rt)?;
    kind_edges::floors_and_pairs(rt)?;
    kind_edges::means(rt)?;
    kind_edges::results(rt)?;
    kind_edges::refusals(rt)
}

fn main(rt: HostRuntime) {
    // no line of it fails
    let _ = lines(&Onward(&rt));
}
