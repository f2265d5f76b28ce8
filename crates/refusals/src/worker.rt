//! The worker host's refusals for a step that comes too early or too late.

use crate::batches::{Point, at, report};
use engine::{Batch, Report};
use std::{fmt, io};

/// A call of the worker host, with its job and of a report also its mark.
#[derive(Clone, Copy)]
pub enum Call {
    StartOwn(usize),
    StartGuess(usize),
    ReportOwn(usize, u8),
    ReportGuess(usize, u8),
    Settle(usize),
    Choose,
}

impl fmt::Display for Call {
    fn fmt<W: fmt::Write>(&self, f: &mut fmt::Formatter<W>) -> fmt::Result {
        match self {
            Call::StartOwn(j) => write!(f, "start own {j}"),
            Call::StartGuess(j) => write!(f, "start guess {j}"),
            Call::ReportOwn(j, _) => write!(f, "report own {j}"),
            Call::ReportGuess(j, _) => write!(f, "report guess {j}"),
            Call::Settle(j) => write!(f, "settle {j}"),
            Call::Choose => write!(f, "choose"),
        }
    }
}

impl Call {
    /// What the batch answers: 0 or the number of the refusal.
    fn refusal(self, batch: Batch) -> u8 {
        match self {
            Call::StartOwn(j) => batch.start_own(j).refusal,
            Call::StartGuess(j) => batch.start_speculation(j).refusal,
            Call::ReportOwn(j, mark) => batch.report_own(j, report(1600, mark)).refusal,
            Call::ReportGuess(j, mark) => {
                batch.report_speculation(j, report(1520, mark)).refusal
            }
            Call::Settle(j) => batch.commit(j).refusal,
            Call::Choose => batch.choose().refusal,
        }
    }
}

/// A line for each call: at which point it comes, in words, and what is answered.
pub fn told(rt: &impl Print, calls: &[(Call, &str, Point)]) -> io::Result<()> {
    for (call, when, point) in calls {
        println!(rt; "{call}, {when}: {}", call.refusal(at(*point)))?;
    }
    Ok(())
}

pub fn before_any_run(rt: &impl Print) -> io::Result<()> {
    println!(rt; "# the worker host: before any run")?;
    told(
        rt,
        &[
            (Call::StartOwn(0), "before sealing", Point::Unsealed),
            (Call::StartGuess(1), "before sealing", Point::Unsealed),
            (Call::ReportOwn(0, 0), "before sealing", Point::Unsealed),
            (Call::ReportGuess(1, 0), "before sealing", Point::Unsealed),
            (Call::Settle(1), "before sealing", Point::Unsealed),
            (Call::Choose, "before sealing", Point::Unsealed),
            (Call::StartOwn(2), "not ready", Point::Sealed),
            (Call::StartOwn(3), "of three jobs", Point::Sealed),
            (Call::StartGuess(1), "guessing off", Point::GuessingOff),
            (Call::StartGuess(0), "ready", Point::Sealed),
            (
                Call::StartGuess(2),
                "job 1 without a stored report",
                Point::Sealed,
            ),
        ],
    )?;
    let stepped = at(Point::Sealed).step(5, 0, Report::default());
    println!(rt; "step 5: {}", stepped.refusal)
}

/// The run that the step needs is not out or not reported, or it is out already.
pub fn too_early(rt: &impl Print) -> io::Result<()> {
    println!(rt; "# the worker host: wrong state")?;
    told(
        rt,
        &[
            (Call::ReportOwn(0, 0), "not started", Point::Sealed),
            (Call::ReportGuess(1, 0), "not started", Point::Sealed),
            (Call::Settle(1), "not guessed", Point::Sealed),
            (Call::StartOwn(0), "its own run out", Point::OwnOut),
            (Call::StartGuess(0), "its own run out", Point::OwnOut),
            (Call::StartGuess(1), "its guess out", Point::GuessOut),
            (Call::Settle(1), "its guess out", Point::GuessOut),
        ],
    )
}

/// The run is reported, settled or thrown away.
pub fn too_late(rt: &impl Print) -> io::Result<()> {
    told(
        rt,
        &[
            (Call::ReportGuess(1, 0), "reported", Point::GuessStored),
            (Call::StartOwn(0), "settled", Point::Standing),
            (Call::StartGuess(0), "settled", Point::Standing),
            (Call::ReportOwn(0, 0), "settled", Point::Standing),
            (Call::Settle(1), "settled by its guess", Point::TakenOver),
            (Call::ReportGuess(1, 0), "thrown away", Point::ThrownAway),
            (Call::Settle(1), "thrown away", Point::ThrownAway),
        ],
    )
}
