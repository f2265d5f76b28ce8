//! Readiness of a single job, in a full list.

use crate::job::of_one;
use dependence::{Job, READ, WRITE, is_ready};
use say::yes_no;
use std::io;

fn ready(
    rt: &impl Print,
    what: &str,
    jobs: [Job; 128],
    settled: [u8; 128],
    j: usize,
) -> io::Result<()> {
    println!(rt; "is_ready: {what} = {}", yes_no(is_ready(jobs, settled, j)))
}

pub fn writers(rt: &impl Print) -> io::Result<()> {
    println!(rt; "# readiness among 128 writers of one cell")?;
    let jobs = [of_one(5, WRITE); 128];
    for (what, j) in [
        ("job 0, none settled", 0),
        ("job 1, none settled", 1),
        ("job 127, none settled", 127),
        ("job 128, past the list, none settled", 128),
    ] {
        ready(rt, what, jobs, [0; 128], j)?;
    }
    let mut settled = [1u8; 128];
    settled[127] = 0;
    ready(rt, "job 127, all others settled", jobs, settled, 127)?;
    settled[126] = 0;
    ready(rt, "job 127, all before 126 settled", jobs, settled, 127)?;
    ready(rt, "job 126, all before it settled", jobs, settled, 126)?;
    settled[126] = 2;
    ready(
        rt,
        "job 127, job 126 settled by its guess",
        jobs,
        settled,
        127,
    )?;
    settled[0] = 0;
    ready(rt, "job 127, job 0 not settled", jobs, settled, 127)
}

pub fn readers(rt: &impl Print) -> io::Result<()> {
    println!(rt; "# readiness among 127 readers of one cell and a writer, none settled")?;
    let mut jobs = [of_one(5, READ); 128];
    jobs[127] = of_one(5, WRITE);
    ready(rt, "the last reader", jobs, [0; 128], 126)?;
    ready(rt, "the writer after the readers", jobs, [0; 128], 127)
}
