//! Job lines: a kind, its parameter and up to three cells. The modes follow the kind.
#![tactic(auto, using(text::specs::SameTextLaws::equal_is_same), unfolding(crate::specs::Lines::cell_field_of, crate::specs::Lines::job_with, crate::specs::Lines::job_line_of))]

ghost use Rattle.std.specs.Prelude.{◌≡◌};
ghost use Rattle.plan.specs.Lines.{capped, cell_field_of, cells_from, modes_of, job_with, job_line_of};

use dependence::{Access, Job, UNCERTAIN_WRITE, WRITE};

/// What a field of a job line says about a cell.
#[derive(Clone, Copy)]
pub enum CellField {
    Given(u8),
    Absent,
}

/// The cells of a job line; those not given are 0.
#[derive(Clone, Copy)]
pub struct Cells {
    pub arity: u8,
    pub cells: [u8; 4],
}

/// The number, held to 8 bits. A kind, a cell or a switch past them is refused as 255 is.
pub fn capped(number: u64) -> u8
    ensures { result ≡ capped number }
{
    u8::try_from(number).unwrap_or(u8::MAX)
}

/// What the field says about a cell, where it is in form.
fn cell_field_in(field: &[u8]) -> Option<CellField>
    ensures { result ≡ cell_field_of field.now }
{
    if field == b"-".as_slice() {
        return Some(CellField::Absent);
    }
    Some(CellField::Given(capped(number::count_in(field)?)))
}

/// The cells in the three fields, where they go from given to absent.
fn cells_from(a: CellField, b: CellField, c: CellField) -> Option<Cells>
    ensures { result ≡ cells_from a b c }
{
    use CellField::{Absent, Given};
    let (arity, cells) = match (a, b, c) {
        (Given(a), Given(b), Given(c)) => (3, [a, b, c, 0]),
        (Given(a), Given(b), Absent) => (2, [a, b, 0, 0]),
        (Given(a), Absent, Absent) => (1, [a, 0, 0, 0]),
        (Absent, Absent, Absent) => (0, [0; 4]),
        _ => return None,
    };
    Some(Cells { arity, cells })
}

// A line has no modes: they are made here from the kind's number, and held to admission's table by the engine, which refuses a
// kind that there is not.

/// The modes of the kind's accesses, 0 in places that it has not.
fn modes_of(kind: u8) -> [u8; 4]
    ensures { result ≡ modes_of kind }
{
    match kind {
        1 | 2 | 5 => [WRITE, 0, 0, 0],
        3 | 4 => [UNCERTAIN_WRITE, 0, 0, 0],
        6 => [UNCERTAIN_WRITE, UNCERTAIN_WRITE, 0, 0],
        _ => [0; 4],
    }
}

/// The job of the kind, with the modes that follow the kind.
fn job_with(number: u64, parameter: i32, cells: Cells) -> Job
    ensures { result ≡ job_with number parameter cells }
{
    let kind = capped(number);
    let modes = modes_of(kind);
    Job {
        kind,
        arity: cells.arity,
        accesses: std::array::from_fn(|place| Access {
            cell: cells.cells[place],
            mode: modes[place],
        }),
        parameter,
        predicted: [0; 4],
    }
}

/// The job that the line asks for, where it is in form. Kind 0 is for workers of one's own and stands in no plan.
pub fn job_in(line: &[u8]) -> Option<Job>
    ensures { result ≡ job_line_of line.now }
{
    if text::field_count(line) != 5 {
        return None;
    }
    let kind = number::count_in(text::field(line, 0))?;
    let parameter = number::signed_in(text::field(line, 1))?;
    let a = cell_field_in(text::field(line, 2))?;
    let b = cell_field_in(text::field(line, 3))?;
    let c = cell_field_in(text::field(line, 4))?;
    let cells = cells_from(a, b, c)?;
    if kind == 0 {
        return None;
    }
    Some(job_with(kind, parameter, cells))
}
