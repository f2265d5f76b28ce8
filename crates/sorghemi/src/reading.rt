//! What changes no batch: choosing the next step, asking, and copying the cells out.

ghost use Rattle.std.specs.Prelude.{◌≡◌, length};
ghost use Rattle.engine.specs.Chooser.{chosen};
ghost use Rattle.bypass.specs.Bypass.{asked_speculation};
ghost use Rattle.engine.specs.Ask.{asked_cell, asked_job, asked_batch, copy_answer, buffer_after};

use bypass::SpeculationAnswer;
use engine::{Batch, BatchAnswer, CellAnswer, Choice, JobAnswer};

/// The step to take next, its job and the length of the job's chain. Refused with 10, 19 or 32.
#[unsafe(no_mangle)]
pub extern "C" fn sorghemi_choose(batch: Batch) -> Choice
    ensures { result ≡ chosen batch }
{
    batch.choose()
}

/// The height of a cell. Refused with 5 or 32.
#[unsafe(no_mangle)]
pub extern "C" fn sorghemi_ask_cell(batch: Batch, cell: usize) -> CellAnswer
    ensures { result ≡ asked_cell batch cell }
{
    batch.cell(cell)
}

/// How a job stands. Refused with 11 or 32.
#[unsafe(no_mangle)]
pub extern "C" fn sorghemi_ask_job(batch: Batch, job: usize) -> JobAnswer
    ensures { result ≡ asked_job batch job }
{
    batch.job(job)
}

/// R79: what a job's guess looked past, and which of these jobs are not settled. Refused with 11 or 32.
#[unsafe(no_mangle)]
pub extern "C" fn sorghemi_ask_speculation(batch: Batch, job: usize) -> SpeculationAnswer
    ensures { result ≡ asked_speculation batch job }
{
    SpeculationAnswer::of(batch, job)
}

/// How the batch as a whole stands. Refused with 32.
#[unsafe(no_mangle)]
pub extern "C" fn sorghemi_ask_batch(batch: Batch) -> BatchAnswer
    ensures { result ≡ asked_batch batch }
{
    batch.progress()
}

/// Copies the cells to the buffer from the place `at` on; all other places keep their values. Refused with 20 or 32.
#[unsafe(no_mangle)]
pub extern "C" fn sorghemi_copy_out(batch: Batch, buffer: &mut [i32], at: usize) -> u8
    ensures { (result ≡ copy_answer batch (length buffer.old) at) × (buffer.new ≡ buffer_after batch buffer.old at) }
{
    batch.copy_out(buffer, at)
}
