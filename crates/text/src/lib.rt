//! Bytes cut into pieces: a text into its lines, a line into its fields.
#![tactic(auto)]

ghost use Rattle.std.specs.Prelude.{◌<◌, ◌≤◌, [], ◌∷◌, ◌≡◌, MatchOption, length, get_or};
ghost use Rattle.text.specs.Pieces.{pieces, piece_end, space};

/// The byte between two fields.
const SPACE: u8 = b' ';

/// The byte at the end of a line.
pub const LINE_FEED: u8 = b'\n';

/// Where the piece that starts at `at` ends: the next separator from there on, or the end of the bytes.
/// For a place past the end it is the end.
pub fn cut(bytes: &[u8], at: usize, separator: u8) -> usize
    ensures value { result ≡ piece_end separator bytes.now at }
    ensures upper_bound { result ≤ length bytes.now }
{
    let from = at.min(bytes.len());
    let rest = &bytes[from..];
    match rest.iter().position(|byte| *byte == separator) {
        Some(place) => from + place,
        None => bytes.len(),
    }
}

/// The first piece and the bytes after its separator; none where no separator stands in the bytes, which are then one piece.
pub fn split_once(bytes: &[u8], separator: u8) -> Option<(&[u8], &[u8])>
    ensures { MatchOption result (pieces separator bytes.now ≡ bytes.now ∷ []) (λ p. (length p.1.now < length bytes.now) × (pieces separator bytes.now ≡ p.0.now ∷ pieces separator p.1.now)) }
{
    let stop = cut(bytes, 0, separator);
    if stop == bytes.len() {
        return None;
    }
    Some((&bytes[..stop], &bytes[stop + 1..]))
}

/// Field `k` of the line, counted from 0; empty where the line has fewer.
pub fn field(line: &[u8], k: usize) -> &[u8]
    ensures { result.now ≡ get_or (pieces space line.now) k [] }
{
    line.split(|byte| *byte == SPACE).nth(k).unwrap_or(&[])
}

/// How many fields the line has. An empty line has one, which is empty.
pub fn field_count(line: &[u8]) -> usize
    ensures { result ≡ length (pieces space line.now) }
{
    line.split(|byte| *byte == SPACE).count()
}
