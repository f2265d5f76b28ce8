//! Two mornings of the harbour, a third by the chooser, one with late jobs and two with a forecast, told call by call.
#![tactic(auto)]

mod chosen;
mod forecast;
mod jobs;
mod late;
mod tell;
mod week;

use say::Onward;
use std::io;

fn lines(rt: &impl Print) -> io::Result<()> {
    week::what_to_look_for(rt)?;
    week::monday(rt)?;
    week::thursday(rt)?;
    chosen::morning(rt)?;
    late::morning(rt)?;
    forecast::mornings(rt)
}

fn main(rt: HostRuntime) {
    // no line of it fails
    let _ = lines(&Onward(&rt));
}
