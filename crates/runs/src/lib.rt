//! The four values of a run: what is handed out of the cells, what of a report is stored, what is written back.
#![tactic(auto)]

ghost use Rattle.std.specs.Prelude.{◌≡◌, not, ◌<◌, set};
ghost use Rattle.laws.specs.SameHeight.{same_height};
ghost use Rattle.dependence.specs.Job.{in_use, any_access};
ghost use Rattle.rules.specs.Values.{value_at, present_values, presumed_values, is_stale, is_uncertain, wrote_refused, writes_at, stored_values, write_back, value_for};

use dependence::{Job, PREDICTED_WRITE, UNCERTAIN_WRITE, WRITE};

/// The height of the cell: 0 for a cell past the last.
fn height(cells: &[i32; 64], cell: u8) -> i32
    ensures { result ≡ value_at cells.now cell }
{
    cells.get(cell as usize).copied().unwrap_or(0)
}

/// Writes the height into the cell. A cell past the last is left out.
fn store(cells: &mut [i32; 64], cell: u8, height: i32)
    ensures { cells.new ≡ set cells.old cell height }
{
    let cell = cell as usize;
    if cell < cells.len() {
        cells[cell] = height;
    }
}

/// Whether the two heights differ.
#[tactic(auto, using(laws::specs::SameHeightLaws::same_words))]
fn differ(one: i32, other: i32) -> bool
    ensures { result ≡ not (same_height one other) }
{
    one != other
}

/// Whether the place is in use.
fn in_use(job: Job, place: usize) -> bool
    ensures { result ≡ in_use job place }
{
    place < job.arity as usize
}

/// What is handed out of the cells, a value for each of the job's places: 0 where the place is not in use.
pub fn present_values(job: Job, cells: [i32; 64]) -> [i32; 4]
    ensures { result ≡ present_values job cells }
{
    std::array::from_fn(|place| {
        if in_use(job, place) {
            height(&cells, job.accesses[place].cell)
        } else {
            0
        }
    })
}

/// R46: what a speculative run goes by where it meets no writer, a value for each of the job's places: the prediction, where
/// there is one, else the present value.
pub fn presumed_values(job: Job, cells: [i32; 64]) -> [i32; 4]
    ensures { result ≡ presumed_values job cells }
{
    std::array::from_fn(|place| {
        let access = job.accesses[place];
        if !in_use(job, place) {
            0
        } else if access.mode == PREDICTED_WRITE {
            job.predicted[place]
        } else {
            height(&cells, access.cell)
        }
    })
}

/// R43: whether a value handed, at a place in use, is not the height that its cell holds.
pub fn is_stale(job: Job, handed: [i32; 4], cells: &[i32; 64]) -> bool
    ensures { result ≡ is_stale job (value_at handed) (value_at cells.now) }
{
    (0..4).any(|place| {
        let cell = job.accesses[place].cell;
        in_use(job, place) && differ(handed[place], height(cells, cell))
    })
}

/// Of the run's values the one for the cell, and 0 for a cell that the job does not name.
#[tactic(auto, unfolding(rules::specs::Values::value_below))]
pub fn value_for(job: Job, values: [i32; 4], cell: u8) -> i32
    ensures { result ≡ value_for job values cell }
{
    for place in (0..4).rev() {
        if in_use(job, place) && job.accesses[place].cell == cell {
            return values[place];
        }
    }
    0
}

/// Whether the run writes the cell at the place: a write always, predicted or not, an uncertain write if the report says so.
fn writes_at(job: Job, wrote: u8, place: usize) -> bool
    requires { place < 4 }
    ensures { result ≡ writes_at job wrote place }
{
    let mode = job.accesses[place].mode;
    in_use(job, place)
        && (dependence::counts_as(mode) == WRITE || mode == UNCERTAIN_WRITE && wrote == 1)
}

/// What of a report is stored, a value for each of the job's places: the reported one if the run wrote its cell, else the one
/// handed out; 0 where the place is not in use.
pub fn stored_values(job: Job, handed: [i32; 4], reported: [i32; 4], wrote: u8) -> [i32; 4]
    ensures { result ≡ stored_values job handed reported wrote }
{
    std::array::from_fn(|place| {
        if writes_at(job, wrote, place) {
            reported[place]
        } else if in_use(job, place) {
            handed[place]
        } else {
            0
        }
    })
}

/// The cells after the run's writes. A cell past the last is left out.
#[tactic(auto, using(laws::specs::FoldLaws::fold_none, laws::specs::FoldLaws::fold_more), unfolding(rules::specs::Values::write_back))]
pub fn write_back(job: Job, values: [i32; 4], wrote: u8, cells: [i32; 64]) -> [i32; 64]
    ensures { result ≡ write_back job values wrote cells }
{
    let mut after = cells;
    for place in 0..4 {
        if writes_at(job, wrote, place) {
            store(&mut after, job.accesses[place].cell, values[place]);
        }
    }
    after
}

/// Whether one of the job's accesses is an uncertain write.
fn has_uncertain(job: Job) -> bool
    ensures { result ≡ any_access job is_uncertain }
{
    job.used()
        .iter()
        .any(|access| access.mode == UNCERTAIN_WRITE)
}

/// Whether the report's mark does not fit the job: 0 and 1 are marks, and 1 needs an uncertain write.
pub fn wrote_refused(job: Job, wrote: u8) -> bool
    ensures { result ≡ wrote_refused job wrote }
{
    1 < wrote || wrote == 1 && !has_uncertain(job)
}
