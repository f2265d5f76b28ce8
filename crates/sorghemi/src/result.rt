//! What the six kinds of check make of the heights handed to them.

ghost use Rattle.std.specs.Prelude.{◌≡◌};
ghost use Rattle.kinds.specs.Kinds.{result_of};

use kinds::Outcome;

/// R18: what a job of the kind reports of the four values handed to it. Refused with 8.
#[unsafe(no_mangle)]
pub extern "C" fn sorghemi_result(kind: u8, parameter: i32, handed: &[i32; 4]) -> Outcome
    ensures { result ≡ result_of kind parameter handed.now }
{
    kinds::result(kind, parameter, *handed)
}
