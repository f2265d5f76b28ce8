//! The five steps by their numbers, with the batch by value and with the batch lent.

ghost use Rattle.std.specs.Prelude.{◌≡◌};
ghost use Rattle.sorghemi.specs.Step.{stepped_for, handed_by};

use crate::Handed;
use engine::{Batch, Report, Started};

/// The step with the number on the job, with the batch by value. Steps 0, 1 and 4 ignore the report.
#[unsafe(no_mangle)]
pub extern "C" fn sorghemi_step_by_value(
    batch: Batch,
    number: u8,
    job: usize,
    report: Report,
) -> Started
    ensures { result ≡ stepped_for batch number job report }
{
    batch.step(number, job, report)
}

/// R9: the same step on a batch that the host lends: it holds what the by-value step hands back. A refusal leaves it as it was.
/// Only what the step changes is stored.
#[unsafe(no_mangle)]
pub extern "C" fn sorghemi_step(batch: &mut Batch, number: u8, job: usize, report: Report) -> Handed
    ensures { (batch.new ≡ (stepped_for batch.old number job report).batch) × (result ≡ handed_by (stepped_for batch.old number job report)) }
{
    let change = (*batch).change_for(number, job, report);
    if change.refusal != 0 {
        return Handed {
            refusal: change.refusal,
            values: [0; 4],
        };
    }
    // stored here and not by the engine: a store asks that the job is held, and no public function of the engine asks anything;
    // tried: stored straight from the field, the cells are not covered by the borrow checker
    let cells = change.cells;
    batch.cells = cells;
    batch.runs[job] = change.run;
    batch.committed[job] = change.now.committed;
    batch.running[job] = change.now.running;
    batch.phase[job] = change.now.phase;
    let values = change.handed;
    Handed { refusal: 0, values }
}
