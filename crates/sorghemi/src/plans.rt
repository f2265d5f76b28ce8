//! The program `gaugebatch` as a function: its answer to a plan, byte for byte.

ghost use Rattle.std.specs.Prelude.{◌≡◌};
ghost use Rattle.sorghemi.specs.Plan.{plan_answered, buffer_answered};

use crate::PlanAnswer;
use refusal::Refusal;

/// A buffer of so many bytes takes every answer.
const ENOUGH: usize = 334861;

/// R153: writes the answer to the plan at the buffer's beginning and tells its length. Refused with 20 where the buffer might be too small.
#[unsafe(no_mangle)]
pub extern "C" fn sorghemi_answer_plan(plan: &[u8], buffer: &mut [u8]) -> PlanAnswer
    ensures value { result ≡ plan_answered plan.now buffer.old }
    ensures buffer_after { buffer.new ≡ buffer_answered plan.now buffer.old }
{
    if buffer.len() < ENOUGH {
        return PlanAnswer {
            refusal: u8::from(Refusal::NoRoom),
            length: 0,
        };
    }
    let length = answer::answer(plan, buffer);
    PlanAnswer { refusal: 0, length }
}
