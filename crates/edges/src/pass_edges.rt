//! The pass over a list of jobs.

use crate::job::of_one;
use dependence::{Job, READ, WRITE};
use passes::chain_lengths;
use std::io;

/// 127 readers of a cell, and a writer of it in the place that is left.
fn readers_and_writer(place: usize) -> [Job; 128] {
    std::array::from_fn(|j| of_one(5, if j == place { WRITE } else { READ }))
}

pub fn chains_of_writers(rt: &impl Print) -> io::Result<()> {
    println!(rt; "# the pass for chains, 128 writers of one cell")?;
    let lengths = chain_lengths([of_one(5, WRITE); 128], 128);
    for j in [0, 1, 127] {
        println!(rt; "chain_lengths: job {j} = {}", lengths[j])?;
    }
    Ok(())
}

pub fn chains_of_readers(rt: &impl Print) -> io::Result<()> {
    println!(rt; "# the pass for chains, 127 readers of one cell and then a writer")?;
    let lengths = chain_lengths(readers_and_writer(127), 128);
    for j in [0, 126, 127] {
        println!(rt; "chain_lengths: job {j} = {}", lengths[j])?;
    }
    Ok(())
}

pub fn chains_of_a_writer(rt: &impl Print) -> io::Result<()> {
    println!(rt; "# the pass for chains, a writer of one cell and then 127 readers")?;
    let lengths = chain_lengths(readers_and_writer(0), 128);
    for j in [0, 1, 127] {
        println!(rt; "chain_lengths: job {j} = {}", lengths[j])?;
    }
    let alone = chain_lengths(readers_and_writer(0), 1);
    println!(rt; "chain_lengths: without the readers, job 0 = {}", alone[0])
}

pub fn chains_of_counts(rt: &impl Print) -> io::Result<()> {
    println!(rt; "# the pass for chains, writers of one cell, by the number of jobs")?;
    let writers = [of_one(5, WRITE); 128];
    for (jobs, n, j) in [
        ("0 jobs", 0, 0),
        ("1 job", 1, 0),
        ("1 job", 1, 1),
        ("1000 jobs", 1000, 0),
        ("1000 jobs", 1000, 127),
    ] {
        println!(rt;
            "chain_lengths: {jobs}, job {j} = {}",
            chain_lengths(writers, n)[j]
        )?;
    }
    Ok(())
}
