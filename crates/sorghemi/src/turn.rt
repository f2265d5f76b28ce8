//! A worker's turn in one call, with the batch and the list of its steps lent.

ghost use Rattle.std.specs.Prelude.{◌≡◌};
ghost use Rattle.sorghemi.specs.Turn.{turned_for, list_after, told_of};

use crate::Turned;
use engine::{Batch, Report, StepList};

/// R64: a report or none, and then the steps that the chooser names, up to the limit: they stand in the list afterwards.
/// Only what the turn changes is stored. A refusal leaves the batch and the list as they were.
#[tactic(auto, using(engine::specs::TurnPlaces::turn_few))]
#[unsafe(no_mangle)]
pub extern "C" fn sorghemi_turn(
    batch: &mut Batch,
    number: u8,
    job: usize,
    report: Report,
    limit: usize,
    steps: &mut StepList,
) -> Turned
    ensures { (batch.new ≡ (turned_for batch.old number job report limit).batch) × (steps.new ≡ list_after (turned_for batch.old number job report limit) steps.old) × (result ≡ told_of (turned_for batch.old number job report limit)) }
{
    let change = (*batch).turn(number, job, report, limit);
    // no `From` for two fields of a record that the rest of the body takes apart
    let told = Turned {
        refusal: change.refusal,
        count: change.count,
    };
    if change.refusal != 0 {
        return told;
    }
    batch.cells = change.cells;
    batch.committed = change.committed;
    batch.running = change.running;
    batch.phase = change.phase;
    for held in &change.changed[..change.stored as usize] {
        batch.runs[held.job as usize] = held.run;
    }
    *steps = change.steps;
    told
}
