//! The refusals of asking and of copying out, and when a batch is finished.

use crate::batches::{Point, at};
use crate::worker::{Call, told};
use say::Values;
use std::io;

pub fn asking(rt: &impl Print) -> io::Result<()> {
    println!(rt; "# the reader of results")?;
    for (what, refusal) in [
        ("cell 3", at(Point::Sealed).cell(3).refusal),
        ("cell 4", at(Point::Sealed).cell(4).refusal),
        (
            "cell 0, before sealing",
            at(Point::Unsealed).cell(0).refusal,
        ),
        ("job 2", at(Point::Sealed).job(2).refusal),
        ("job 3", at(Point::Sealed).job(3).refusal),
        ("job 0, before sealing", at(Point::Unsealed).job(0).refusal),
    ] {
        println!(rt; "ask {what}: {refusal}")?;
    }
    Ok(())
}

pub fn copying(rt: &impl Print) -> io::Result<()> {
    for place in [0, 3, 4, 8] {
        let mut buffer = [9; 7];
        let refusal = at(Point::Opened).copy_out(&mut buffer, place);
        let held = Values {
            run: &buffer,
            arity: 7,
        };
        println!(rt;
            "copy out 4 cells into 7 places from place {place}: {refusal}, they hold{held}"
        )?;
    }
    Ok(())
}

fn progress(rt: &impl Print, what: &str, point: Point) -> io::Result<()> {
    let finished = if at(point).progress().finished {
        "finished"
    } else {
        "not finished"
    };
    println!(rt; "{what}: {finished}")
}

pub fn finishing(rt: &impl Print) -> io::Result<()> {
    progress(rt, "no jobs, not sealed", Point::Opened)?;
    progress(rt, "no jobs, sealed", Point::SealedEmpty)?;
    told(rt, &[(Call::Choose, "no jobs", Point::SealedEmpty)])?;
    progress(rt, "no jobs, sealed, and then one", Point::SealedThenOne)?;
    told(
        rt,
        &[
            (Call::Choose, "that job", Point::SealedThenOne),
            (Call::StartOwn(0), "that job", Point::SealedThenOne),
        ],
    )
}
