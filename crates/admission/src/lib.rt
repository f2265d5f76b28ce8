//! Admission: which jobs may be inserted into a batch, as far as the job and the number of cells decide it.
#![tactic(auto)]

ghost use Rattle.std.specs.Prelude.{◌≡◌, not, eqb, take};
ghost use Rattle.std.specs.List.{list_any};
ghost use Rattle.refusal.specs.Refusal.{told};
ghost use Rattle.dependence.specs.Job.{any_access};
ghost use Rattle.admission.specs.Admission.{cell_outside, mode_outside, cell_twice, kind_fits, job_refusal};
ghost use Rattle.admission.specs.ByKind.{access_out, shape_of, has_shape, shape_refused};

use dependence::{Access, Job, PREDICTED_WRITE, READ, UNCERTAIN_WRITE, WRITE};
use refusal::{Refusal, told};

/// Stands for the mode of an access that the kind does not have.
const NONE: u8 = 0;

/// Whether one of the accesses has a cell that is not one of the first `cell_count`.
fn names_outside(job: Job, cell_count: u8) -> bool
    ensures { result ≡ any_access job (cell_outside cell_count) }
{
    job.used().iter().any(|access| cell_count <= access.cell)
}

/// Whether one of the accesses has a mode that there is not.
fn has_unknown_mode(job: Job) -> bool
    ensures { result ≡ any_access job mode_outside }
{
    job.used()
        .iter()
        .any(|access| PREDICTED_WRITE < access.mode)
}

/// Whether one of the first `i` accesses has the cell.
fn is_before(accesses: &[Access], i: usize, cell: u8) -> bool
    ensures { result ≡ list_any (λ access. eqb access.cell cell) (take i accesses.now) }
{
    accesses.iter().take(i).any(|access| access.cell == cell)
}

/// Whether two of the accesses have the same cell.
fn repeats(job: Job) -> bool
    ensures { result ≡ cell_twice job }
{
    let used = job.used();
    used.iter()
        .enumerate()
        .any(|(i, access)| is_before(used, i, access.cell))
}

/// What a kind asks of its jobs: how many accesses, and the modes of the first and of the second. A third is a read.
#[derive(Clone, Copy)]
struct Shape {
    count: u8,
    first: u8,
    second: u8,
}

/// What the kind asks for. Kind 0 leaves it to the job, and other kinds there are not. (An arm for each kind: with `1 | 2` it
/// would be compiled to a jump.)
fn shape_of(kind: u8) -> Option<Shape>
    ensures { result ≡ shape_of kind }
{
    let (count, first, second) = match kind {
        0 => return None,
        1 => (1, WRITE, NONE),
        2 => (1, WRITE, NONE),
        3 => (2, UNCERTAIN_WRITE, READ),
        4 => (1, UNCERTAIN_WRITE, NONE),
        5 => (3, WRITE, READ),
        6 => (2, UNCERTAIN_WRITE, UNCERTAIN_WRITE),
        7..=255 => return None,
    };
    Some(Shape {
        count,
        first,
        second,
    })
}

/// Whether the job has as many accesses as the shape, of the same modes.
#[tactic(auto, unfolding(crate::specs::ByKind::has_shape))]
fn has_shape(job: Job, shape: Shape) -> bool
    ensures { result ≡ has_shape job shape }
{
    job.arity == shape.count
        && job.accesses[0].mode == shape.first
        && (shape.count < 2 || job.accesses[1].mode == shape.second)
        && (shape.count < 3 || job.accesses[2].mode == READ)
}

/// Whether the kind is one of the seven and the job's modes are the kind's.
#[tactic(auto, using(crate::specs::ByKind::fits_law))]
fn kind_fits(job: Job) -> bool
    ensures { result ≡ kind_fits job }
{
    match shape_of(job.kind) {
        Some(shape) => has_shape(job, shape),
        None => job.kind == 0,
    }
}

/// Why the job is not inserted into a batch of `cell_count` cells, where it is not.
#[tactic(auto, unfolding(crate::specs::Admission::job_refusal, laws::specs::Refusal::first_of))]
pub fn check(job: Job, cell_count: u8) -> Result<(), Refusal>
    ensures { told result ≡ job_refusal job cell_count }
{
    if job.arity == 0 || 4 < job.arity {
        return Err(Refusal::AccessCount);
    }
    if names_outside(job, cell_count) {
        return Err(Refusal::NoSuchCell);
    }
    if has_unknown_mode(job) {
        return Err(Refusal::NoSuchMode);
    }
    if repeats(job) {
        return Err(Refusal::RepeatedCell);
    }
    if !kind_fits(job) {
        return Err(Refusal::Kind);
    }
    Ok(())
}

/// The number of the refusal, 4 to 8, or 0 where the job may be inserted.
pub fn job_refusal(job: Job, cell_count: u8) -> u8
    ensures { result ≡ job_refusal job cell_count }
{
    told(check(job, cell_count))
}

/// Whether the access has another mode than the one given, or a cell that is not one of the first `cell_count`.
fn access_out(access: Access, cell_count: u8, mode: u8) -> bool
    ensures { result ≡ access_out access cell_count mode }
{
    access.mode != mode || cell_count <= access.cell
}

/// Whether a job of a kind that asks for the shape is refused: only the cells are left to test where the modes are those.
#[tactic(auto, unfolding(crate::specs::ByKind::shape_refused))]
fn shape_refused(job: Job, cell_count: u8, shape: Shape) -> bool
    ensures { result ≡ shape_refused job cell_count shape }
{
    let [a, b, c, _] = job.accesses;
    job.arity != shape.count
        || access_out(a, cell_count, shape.first)
        || shape.count != 1
            && (access_out(b, cell_count, shape.second)
                || a.cell == b.cell
                || shape.count != 2
                    && (access_out(c, cell_count, READ) || a.cell == c.cell || b.cell == c.cell))
}

/// Whether a job of any kind is refused. (A function of its own, so that a job is copied for this alone.)
fn other_refused(job: Job, cell_count: u8) -> bool
    ensures { result ≡ not (eqb (job_refusal job cell_count) 0) }
{
    job_refusal(job, cell_count) != 0
}

/// Whether the job is refused, and not why. (A match with the tests in its arms would jump by the kind, and such jumps are
/// foreseen badly: what a kind asks for is looked up instead.)
#[tactic(auto, using(crate::specs::ByKind::shape_law))]
pub fn is_refused(job: Job, cell_count: u8) -> bool
    ensures { result ≡ not (eqb (job_refusal job cell_count) 0) }
{
    match shape_of(job.kind) {
        Some(shape) => shape_refused(job, cell_count, shape),
        None => other_refused(job, cell_count),
    }
}
