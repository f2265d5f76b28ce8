//! Opening, inserting and sealing.

ghost use Rattle.std.specs.Prelude.{◌≡◌};
ghost use Rattle.engine.specs.Opening.{opened, inserted, sealed_with};
ghost use Rattle.sorghemi.specs.InsertAll.{list_inserted, told_of};

use crate::Inserted;
use dependence::Job;
use engine::{Answer, Batch, JobList};

/// A batch whose cells hold the heights. Refused with 1; the record handed back then has no cells.
#[unsafe(no_mangle)]
pub extern "C" fn sorghemi_open(heights: &[i32]) -> Answer
    ensures { result ≡ opened heights.now }
{
    Batch::open(heights)
}

/// The batch with the job as its last one, sealed or not. Refused with 3 to 8, or 32.
#[unsafe(no_mangle)]
pub extern "C" fn sorghemi_insert(batch: Batch, job: Job) -> Answer
    ensures { result ≡ inserted batch job }
{
    batch.insert(job)
}

/// R25: inserts the jobs of the list that the host lends, one after the other, into a batch that it lends. The first that is
/// refused ends it: then the batch is left as it was. Refused with 3 to 8 for the job `at` of the list, or with 32.
#[unsafe(no_mangle)]
pub extern "C" fn sorghemi_insert_all(batch: &mut Batch, list: &JobList) -> Inserted
    ensures { (batch.new ≡ (list_inserted batch.old list.now).batch) × (result ≡ told_of (list_inserted batch.old list.now)) }
{
    let inserted = (*batch).insert_all(*list);
    *batch = inserted.batch;
    // no `From`: it would take the whole record by value for two fields
    Inserted {
        refusal: inserted.refusal,
        at: inserted.at,
    }
}

/// The batch sealed: steps may be taken; `switch` 1 allows speculative runs, 0 does not. Refused with 2, 9 or 32.
#[unsafe(no_mangle)]
pub extern "C" fn sorghemi_seal(batch: Batch, switch: u8) -> Answer
    ensures { result ≡ sealed_with batch switch }
{
    batch.seal(switch)
}
