//! The whole program: from the bytes it reads to the bytes it writes.
#![tactic(auto)]

ghost use Rattle.std.specs.Prelude.{◌≤◌, ◌≡◌, length, take};
ghost use Rattle.io.specs.Counts.{IsPrefixLen};
ghost use Rattle.render.specs.Put.{Put, Wrote};
ghost use Rattle.answer.specs.Output.{output_of};

use render::Writer;

mod lines;
mod parts;

/// A plan has at most so many bytes.
const LONGEST: usize = 65536;

/// The fault of a longer one.
const TOO_LONG: u64 = 22;

/// Writes the output. A plan of 65,536 bytes has at most 65,537 steps, so that 7,176 and 5 for each of them are enough.
fn run(bytes: &[u8], writer: &mut Writer<'_>)
    ensures wrote { Wrote writer.old (output_of bytes.now) writer.new }
    ensures bytes_len_bound { length (output_of bytes.now) ≤ 334861 }
{
    if LONGEST < bytes.len() {
        writer.fault(TOO_LONG, 0);
        return;
    }
    let reading = plan::read_plan(bytes);
    if let Some(fault) = reading.fault {
        writer.fault(u64::from(fault.number), fault.line as u64);
        return;
    }
    let from = lines::line_start(bytes, reading.step_line);
    parts::put_parts(bytes, from, reading.batch, writer);
}

/// Writes the output for the bytes read, as much of it as the buffer takes, and answers the place after it.
/// A buffer of 334,861 bytes takes every output.
#[tactic(auto, using(render::specs::PutLaws::put_fits))]
pub fn answer(bytes: &[u8], out: &mut [u8]) -> usize
    ensures put { Put out.old 0 (output_of bytes.now) out.new result }
    ensures out_after { 334861 ≤ length out.old → take result out.new ≡ output_of bytes.now }
    ensures prefix_len { IsPrefixLen result out.new }
{
    let mut writer = Writer::new(out);
    run(bytes, &mut writer);
    writer.at
}
