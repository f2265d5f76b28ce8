//! The worker host's refusals for a report, and for a guess that stands or has fallen.

use crate::batches::Point;
use crate::worker::{Call, told};
use std::io;

pub fn reports(rt: &impl Print) -> io::Result<()> {
    println!(rt; "# the worker host: reports")?;
    told(
        rt,
        &[
            (Call::ReportOwn(0, 1), "a floor, with mark 1", Point::OwnOut),
            (Call::ReportOwn(0, 2), "a floor, with mark 2", Point::OwnOut),
            (
                Call::ReportGuess(1, 0),
                "a shift, with mark 0",
                Point::GuessOut,
            ),
            (
                Call::ReportGuess(1, 1),
                "a shift, with mark 1",
                Point::GuessOut,
            ),
            (
                Call::ReportGuess(1, 2),
                "a shift, with mark 2",
                Point::GuessOut,
            ),
        ],
    )
}

pub fn standing_and_fallen(rt: &impl Print) -> io::Result<()> {
    println!(rt; "# the worker host: guesses that stand and that have fallen")?;
    told(
        rt,
        &[
            (Call::Settle(1), "stored but not ready", Point::GuessStored),
            (Call::StartOwn(1), "its guess stands", Point::Standing),
            (Call::Settle(1), "its guess stands", Point::Standing),
            (Call::Settle(1), "its guess has fallen", Point::Fallen),
            (Call::StartOwn(1), "its guess has fallen", Point::Fallen),
            (Call::StartOwn(2), "job 1 not settled", Point::Fallen),
            (Call::StartGuess(2), "from a fallen guess", Point::Fallen),
            (Call::Choose, "a guess stands", Point::Standing),
            (Call::Choose, "all runs out", Point::GuessOut),
        ],
    )
}
