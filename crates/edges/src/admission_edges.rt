//! What inserting refuses with 4 to 8, in a batch of 64 cells.

use crate::job::{last_place, of_one};
use admission::job_refusal;
use dependence::{Job, PREDICTED_WRITE, READ, UNCERTAIN_WRITE, WRITE};
use kinds::{FLOOR, MEAN, PAIR, SET, SHIFT, SPIKE};
use sample::{access, job};
use std::io;

fn refusal(rt: &impl Print, what: &str, asked: Job) -> io::Result<()> {
    println!(rt; "job_refusal: {what} = {}", job_refusal(asked, 64))
}

/// A job of the kind whose first `arity` cells, 0 upwards, have these modes.
fn with_modes(kind: u8, arity: u8, [a, b, c]: [u8; 3]) -> Job {
    let accesses = [access(0, a), access(1, b), access(2, c), access(3, READ)];
    job(kind, 0, arity, accesses)
}

pub fn counts(rt: &impl Print) -> io::Result<()> {
    println!(rt; "# refusal 4: the access count")?;
    for (what, arity) in [
        ("no access", 0),
        ("1 access", 1),
        ("4 accesses", 4),
        ("5 accesses", 5),
        ("255 accesses", 255),
    ] {
        refusal(rt, what, with_modes(0, arity, [READ; 3]))?;
    }
    Ok(())
}

pub fn accesses(rt: &impl Print) -> io::Result<()> {
    println!(rt; "# refusals 5, 6 and 7: the accesses")?;
    let past = access(64, READ);
    let again = access(1, WRITE);
    for (what, asked) in [
        ("cell 63", of_one(63, READ)),
        ("cell 64", of_one(64, READ)),
        ("cell 64 in the last place", last_place(4, past)),
        ("cell 64 in a place not in use", last_place(3, past)),
        ("mode 2", of_one(5, 2)),
        ("mode 3", of_one(5, 3)),
        ("mode 4", of_one(5, 4)),
        ("mode 4 in a place not in use", last_place(3, access(5, 4))),
        ("a cell twice", last_place(4, again)),
        (
            "a cell twice, once in a place not in use",
            last_place(3, again),
        ),
    ] {
        refusal(rt, what, asked)?;
    }
    println!(rt;
        "job_refusal: cell 0 of no cells = {}",
        job_refusal(of_one(0, READ), 0)
    )
}

/// Jobs of which each is of a kind that has modes of its own.
fn modes_of_kinds(rt: &impl Print) -> io::Result<()> {
    for (what, kind, arity, modes) in [
        (
            "outside, free modes 1 2 0",
            0,
            3,
            [WRITE, UNCERTAIN_WRITE, READ],
        ),
        ("set 1", SET, 1, [WRITE, READ, READ]),
        ("shift 1", SHIFT, 1, [WRITE, READ, READ]),
        ("shift 0", SHIFT, 1, [READ, READ, READ]),
        ("spike 2 0", SPIKE, 2, [UNCERTAIN_WRITE, READ, READ]),
        ("spike 0 2", SPIKE, 2, [READ, UNCERTAIN_WRITE, READ]),
        ("floor 2", FLOOR, 1, [UNCERTAIN_WRITE, READ, READ]),
        (
            "floor 2 0, one too many",
            FLOOR,
            2,
            [UNCERTAIN_WRITE, READ, READ],
        ),
        ("mean 1 0 0", MEAN, 3, [WRITE, READ, READ]),
        ("mean 1 0, one too few", MEAN, 2, [WRITE, READ, READ]),
        (
            "pair 2 2",
            PAIR,
            2,
            [UNCERTAIN_WRITE, UNCERTAIN_WRITE, READ],
        ),
        ("pair 1 1", PAIR, 2, [WRITE, WRITE, READ]),
        ("kind 7", 7, 1, [WRITE, READ, READ]),
        ("kind 255", 255, 1, [WRITE, READ, READ]),
    ] {
        refusal(rt, what, with_modes(kind, arity, modes))?;
    }
    Ok(())
}

/// Only an outside job may have them.
fn predicted_writes(rt: &impl Print) -> io::Result<()> {
    let all = with_modes(0, 3, [PREDICTED_WRITE; 3]);
    refusal(rt, "outside, modes 3 3 3", all)?;
    for (what, kind, arity) in [
        ("set 3", SET, 1),
        ("shift 3", SHIFT, 1),
        ("spike 3 0", SPIKE, 2),
        ("floor 3", FLOOR, 1),
        ("mean 3 0 0", MEAN, 3),
        ("pair 3 0", PAIR, 2),
    ] {
        refusal(
            rt,
            what,
            with_modes(kind, arity, [PREDICTED_WRITE, READ, READ]),
        )?;
    }
    Ok(())
}

pub fn kinds_and_modes(rt: &impl Print) -> io::Result<()> {
    println!(rt; "# refusal 8: the kind and its modes")?;
    modes_of_kinds(rt)?;
    predicted_writes(rt)
}

pub fn order(rt: &impl Print) -> io::Result<()> {
    println!(rt; "# the lowest number where several apply")?;
    for (what, asked) in [
        ("5 accesses, cell 64", last_place(5, access(64, READ))),
        ("cell 64, mode 4", last_place(4, access(64, 4))),
        ("mode 4, a cell twice", last_place(4, access(1, 4))),
        ("a cell twice, kind 7", job(7, 0, 2, [access(1, READ); 4])),
    ] {
        refusal(rt, what, asked)?;
    }
    Ok(())
}
