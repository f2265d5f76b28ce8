//! The second pass over a plan: each step line is performed on the batch, and its answer written.
#![tactic(auto, unfolding(crate::specs::Stepping::report_of, crate::specs::Stepping::performed))]

ghost use Rattle.std.specs.Prelude.{◌≡◌, drop};
ghost use Rattle.text.specs.Pieces.{line_feed, pieces};
ghost use Rattle.render.specs.Put.{Wrote};
ghost use Rattle.stepping.specs.Stepping.{report_of, performed, steps_text, batch_after_lines};

use engine::{Batch, Report, Started};
use kinds::Outcome;
use render::Writer;
use steplines::StepLine;

/// What job `j` reports of the values handed to its run. Asking the job is total: past the last job all is 0.
fn report_of(batch: Batch, j: usize) -> Outcome
    ensures { result ≡ report_of batch j }
{
    let shown = batch.job(j);
    kinds::result(shown.job.kind, shown.job.parameter, shown.handed)
}

/// The step that the line names, on the job that it names.
fn perform(batch: Batch, line: StepLine) -> Started
    ensures { result ≡ performed batch line }
{
    let Outcome { values, wrote, .. } = report_of(batch, line.job);
    batch.step(line.step, line.job, Report { values, wrote })
}

/// Tries each step line from byte `from` on, also after a refusal, writes the answers, and gives the batch that the steps left.
/// Past the last byte there are no lines. A line that is not in form is tried as step 0 on job 0.
pub fn run_steps(bytes: &[u8], from: usize, batch: Batch, writer: &mut Writer<'_>) -> Batch
    ensures wrote { Wrote writer.old (steps_text batch (pieces line_feed (drop from bytes.now))) writer.new }
    ensures batch_value { result ≡ batch_after_lines batch (pieces line_feed (drop from bytes.now)) }
{
    let mut left = batch;
    let mut rest = &bytes[from.min(bytes.len())..];
    while let Some((line, after)) = text::split_once(rest, text::LINE_FEED) {
        let tried = steplines::step_in(line).unwrap_or_default();
        let done = perform(left, tried);
        writer.pair(u64::from(tried.step), u64::from(done.refusal));
        left = done.batch;
        rest = after;
    }
    left
}
