//! A step line of a plan: the number of a step and a job.
#![tactic(auto, unfolding(crate::specs::StepLines::step_line_of))]

ghost use Rattle.std.specs.Prelude.{◌≡◌};
ghost use Rattle.steplines.specs.StepLines.{step_line_of};

/// The steps have the numbers 0 to 4.
const LAST_STEP: u64 = 4;

/// What a step line says.
#[derive(Clone, Copy, Default)]
pub struct StepLine {
    pub step: u8,
    pub job: usize,
}

/// What the line says as a step line, where it is in form.
pub fn step_in(line: &[u8]) -> Option<StepLine>
    ensures { result ≡ step_line_of line.now }
{
    if text::field_count(line) != 2 {
        return None;
    }
    let step = number::count_in(text::field(line, 0))?;
    let job = number::count_in(text::field(line, 1))?;
    if LAST_STEP < step {
        return None;
    }
    Some(StepLine {
        step: step as u8,
        job: job as usize,
    })
}
