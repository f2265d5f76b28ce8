//! Speculative runs: which are invalid, and whether a new one can start.

ghost use Rattle.std.specs.Prelude.{◌≡◌, ◌<◌};
ghost use Rattle.rules.specs.Snapshot.{is_live};
ghost use Rattle.engine.specs.Speculation.{invalid_run, unusable_at, unusable_any};

use crate::Run;
use dependence::Job;

/// Whether there is a speculative run in this phase: it is out, or its report is stored.
pub fn is_live(phase: u8) -> bool
    ensures { result ≡ is_live phase }
{
    phase == 1 || phase == 2
}

/// R44: whether the run, speculative in the phase given, of a job that is ready or not, is invalid: a value that it was
/// handed is not present any more.
pub(crate) fn is_invalid(ready: bool, phase: u8, job: Job, run: Run, cells: &[i32; 64]) -> bool
    ensures { result ≡ invalid_run ready phase job run cells.now }
{
    ready && is_live(phase) && runs::is_stale(job, run.handed, cells)
}

/// Whether the value at the place has a source that cannot be forwarded from: it has no stored report.
fn unusable_at(sources: [u8; 4], phases: &[u8; 128], place: usize) -> bool
    requires { place < 4 }
    ensures { result ≡ unusable_at sources phases.now place }
{
    let source = sources[place] as usize;
    if source == 0 {
        return false;
    }
    128 < source || phases[source - 1] != 2
}

/// Whether one of the four places has such a source.
pub(crate) fn unusable_any(sources: [u8; 4], phases: &[u8; 128]) -> bool
    ensures { result ≡ unusable_any sources phases.now }
{
    for place in 0..4 {
        if unusable_at(sources, phases, place) {
            return true;
        }
    }
    false
}
