//! Where a line of the plan begins.

ghost use Rattle.std.specs.Prelude.{◌≤◌, ◌≡◌, length, drop};
ghost use Rattle.text.specs.Pieces.{line_feed, pieces};
ghost use Rattle.answer.specs.Lines.{lines_after};

/// The byte at which the line after the first `k` begins; in a plan of fewer lines, the byte after its last line feed.
pub fn line_start(bytes: &[u8], k: usize) -> usize
    ensures bytes_value { pieces line_feed (drop result bytes.now) ≡ lines_after k (pieces line_feed bytes.now) }
    ensures upper_bound { result ≤ length bytes.now }
{
    let mut at: usize = 0;
    for _ in 0..k {
        let stop = text::cut(bytes, at, text::LINE_FEED);
        if stop == bytes.len() {
            return at;
        }
        at = stop + 1;
    }
    at
}
