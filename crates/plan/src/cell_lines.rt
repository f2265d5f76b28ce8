//! Cell lines: the number of a cell and its height.
#![tactic(auto, unfolding(crate::specs::Lines::cell_line_of))]

ghost use Rattle.std.specs.Prelude.{◌≡◌};
ghost use Rattle.plan.specs.Lines.{cell_line_of};

/// What a cell line says.
#[derive(Clone, Copy)]
pub struct CellLine {
    pub cell: usize,
    pub height: i32,
}

/// What the line says as a cell line, where it is in form.
pub fn cell_in(line: &[u8]) -> Option<CellLine>
    ensures { result ≡ cell_line_of line.now }
{
    if text::field_count(line) != 2 {
        return None;
    }
    let cell = number::count_in(text::field(line, 0))?;
    let height = number::signed_in(text::field(line, 1))?;
    Some(CellLine {
        cell: cell as usize,
        height,
    })
}
