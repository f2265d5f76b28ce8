//! The three parts of the output of a plan without a fault: the steps, the jobs and the cells.

ghost use Rattle.std.specs.Prelude.{◌+◌, ◌*◌, ◌≤◌, length, drop};
ghost use Rattle.text.specs.Pieces.{line_feed, pieces};
ghost use Rattle.render.specs.Put.{Wrote};
ghost use Rattle.answer.specs.Output.{jobs_text, cells_text, parts_text};

use engine::Batch;
use render::Writer;

/// Writes a line for each job. Its number, how it was committed and its mark are bytes: 255 lines of 12 bytes are the most.
pub fn put_jobs(batch: Batch, writer: &mut Writer<'_>)
    ensures wrote { Wrote writer.old (jobs_text batch) writer.new }
    ensures batch_len_bound { length (jobs_text batch) ≤ 3060 }
{
    for j in 0..batch.progress().job_count {
        let shown = batch.job(usize::from(j));
        let (how, mark) = (shown.committed, shown.wrote);
        writer.triple(u64::from(j), u64::from(how), u64::from(mark));
    }
}

/// Writes a line for each cell. Its number is a byte and its height has 32 bits: 255 lines of 16 bytes are the most.
pub fn put_cells(batch: Batch, writer: &mut Writer<'_>)
    ensures wrote { Wrote writer.old (cells_text batch) writer.new }
    ensures batch_len_bound { length (cells_text batch) ≤ 4080 }
{
    for x in 0..batch.progress().cell_count {
        let told = batch.cell(usize::from(x));
        writer.height_line(u64::from(x), told.height);
    }
}

/// Writes the three parts: the steps from byte `from` on, tried on the batch, and what they left.
/// The names take 36 bytes, the jobs and the cells at most 3,060 and 4,080, each step at most 5.
pub(crate) fn put_parts(bytes: &[u8], from: usize, batch: Batch, writer: &mut Writer<'_>)
    ensures wrote { Wrote writer.old (parts_text batch (pieces line_feed (drop from bytes.now))) writer.new }
    ensures bytes_len_bound { length (parts_text batch (pieces line_feed (drop from bytes.now))) ≤ 7176 + 5 * length (pieces line_feed (drop from bytes.now)) }
{
    writer.text(b"step answer\n");
    let left = stepping::run_steps(bytes, from, batch, writer);
    writer.text(b"job how mark\n");
    put_jobs(left, writer);
    writer.text(b"cell value\n");
    put_cells(left, writer);
}
