//! Conflict: of two accesses, of an access and a job, of two jobs.

use crate::job::{last_place, of_one, of_two};
use dependence::{Job, PREDICTED_WRITE, READ, UNCERTAIN_WRITE, WRITE};
use sample::access;
use say::yes_no;
use std::io;

pub fn accesses(rt: &impl Print) -> io::Result<()> {
    println!(rt; "# two accesses: the same cell, and not both reads")?;
    let read = access(5, READ);
    let write = access(5, WRITE);
    let maybe = access(5, UNCERTAIN_WRITE);
    let predicted = access(5, PREDICTED_WRITE);
    for (what, earlier, later) in [
        ("read 5, read 5", read, read),
        ("read 5, write 5", read, write),
        ("read 5, maybe-write 5", read, maybe),
        ("maybe-write 5, read 5", maybe, read),
        ("maybe-write 5, maybe-write 5", maybe, maybe),
        ("write 5, write 5", write, write),
        ("write 5, write 6", write, access(6, WRITE)),
        ("read 5, predicted write 5", read, predicted),
        ("predicted write 5, read 5", predicted, read),
    ] {
        let conflict = yes_no(earlier.conflicts_with(later));
        println!(rt; "Access::conflicts_with: {what} = {conflict}")?;
    }
    Ok(())
}

pub fn places(rt: &impl Print) -> io::Result<()> {
    println!(rt; "# an access and a job: a place of the job that is in use")?;
    let read = access(5, READ);
    let write = access(5, WRITE);
    for (what, access, job) in [
        ("write 5, read at place 0", write, of_one(5, READ)),
        ("write 5, read at place 3 of 4", write, last_place(4, read)),
        (
            "write 5, read at place 3 of 3, not in use",
            write,
            last_place(3, read),
        ),
        (
            "write 1, the first place of 0, not in use",
            access(1, WRITE),
            last_place(0, read),
        ),
        ("read 5, read at place 3 of 4", read, last_place(4, read)),
    ] {
        println!(rt; "Access::touches: {what} = {}", yes_no(access.touches(job)))?;
    }
    Ok(())
}

/// A line for each pair of an earlier and a later job.
fn sorts(rt: &impl Print, pairs: &[(&str, Job, Job)]) -> io::Result<()> {
    for (what, earlier, later) in pairs {
        println!(rt;
            "Job::conflict_sort: {what} = {}",
            earlier.conflict_sort(*later)
        )?;
    }
    Ok(())
}

pub fn jobs(rt: &impl Print) -> io::Result<()> {
    println!(rt;
        "# two jobs: 1 if the later names what the earlier may write, else 2 if it may write what the earlier reads"
    )?;
    let reader = of_one(5, READ);
    let maybe = of_one(5, UNCERTAIN_WRITE);
    let predicting = of_one(5, PREDICTED_WRITE);
    sorts(
        rt,
        &[
            ("read and read", reader, reader),
            ("read and maybe-write", reader, maybe),
            ("maybe-write and read", maybe, reader),
            ("maybe-write and maybe-write", maybe, maybe),
            ("read and predicted write", reader, predicting),
            ("predicted write and read", predicting, reader),
            ("write 5 and write 6", of_one(5, WRITE), of_one(6, WRITE)),
        ],
    )
}

pub fn places_of_jobs(rt: &impl Print) -> io::Result<()> {
    println!(rt; "# two jobs: places in use, and two cells in common")?;
    let reader = of_one(5, READ);
    let last = last_place(4, access(5, WRITE));
    let unused = last_place(3, access(5, WRITE));
    let first = of_two(READ, WRITE);
    let second = of_two(WRITE, READ);
    sorts(
        rt,
        &[
            ("read, and write in place 3 of 4", reader, last),
            ("write in place 3 of 4, and read", last, reader),
            ("read, and write in a place not in use", reader, unused),
            ("write in a place not in use, and read", unused, reader),
            ("write in place 3 of 4, and the same", last, last),
            ("read 5 and write 6, then write 5 and read 6", first, second),
            ("write 5 and read 6, then read 5 and write 6", second, first),
        ],
    )
}
