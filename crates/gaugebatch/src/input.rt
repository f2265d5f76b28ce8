//! Reading the plan.

ghost use Rattle.std.specs.Prelude.{IfErr, IfOk};
ghost use Rattle.io.specs.Counts.{IsPrefixLen};

use std::io::{Error, Read, Stdin};

/// How a read failed, and how many bytes had come: they are not the whole plan.
#[derive(Clone, Copy)]
pub struct Failed {
    pub length: usize,
    pub error: Error,
}

/// Reads until the buffer is full, the input ends or a read fails, and gives how many bytes came. (`read_exact` does not tell how
/// much came before the end.)
pub fn read_input(stdin: &mut Stdin, buffer: &mut [u8]) -> Result<usize, Failed>
    ensures whole { IfOk result (λ length. IsPrefixLen length buffer.new) }
    ensures part { IfErr result (λ failed. IsPrefixLen failed.length buffer.new) }
{
    let mut length: usize = 0;
    while length < buffer.len() {
        let came = match stdin.read(&mut buffer[length..]) {
            Ok(came) => came,
            Err(error) => return Err(Failed { length, error }),
        };
        if came == 0 {
            break;
        }
        length += came;
    }
    Ok(length)
}
