//! Numbers and lines of the program's output, written into a buffer that the caller lends.
#![tactic(auto, using(crate::specs::PutLaws::wrote_none, crate::specs::TextLaws::decimal_one))]

ghost use Rattle.std.specs.Prelude.{◌≡◌, [], ◌∷◌};
ghost use Rattle.render.specs.Put.{Wrote};
ghost use Rattle.render.specs.Text.{decimal, height_text, pair_line, triple_line, height_line, fault_lines};

/// What stands between two fields.
const SPACE: u8 = b' ';

/// What ends a line.
const LINE_FEED: u8 = b'\n';

/// What stands before the digits of a height below 0.
const MINUS: u8 = b'-';

/// The first of the ten digits.
const ZERO: u8 = b'0';

/// A buffer and the place in it where the next text goes.
/// What does not fit in the buffer is not written, so no method asks for room.
#[derive(Drop)]
pub struct Writer<'a> {
    pub out: &'a mut [u8],
    pub at: usize,
}

impl<'a> Writer<'a> {
    /// The next text goes to the front of the buffer.
    pub fn new(out: &'a mut [u8]) -> Writer<'a>
        ensures out_now { result.out.now ≡ out.old }
        ensures at { result.at ≡ 0 }
        ensures same_reference { result.out.ghost_name ≡ out.entry.ghost_name }
    {
        Writer { out, at: 0 }
    }

    /// Writes one byte.
    pub fn byte(&mut self, byte: u8)
        ensures { Wrote self.old (byte ∷ []) self.new }
    {
        if self.at < self.out.len() {
            self.out[self.at] = byte;
            self.at += 1;
        }
    }

    /// Writes the bytes of a text.
    pub fn text(&mut self, text: &[u8])
        ensures { Wrote self.old text.now self.new }
    {
        for byte in text {
            self.byte(*byte);
        }
    }

    /// Writes a number without a sign: the digits before the last one, and the last one.
    pub fn count(&mut self, n: u64)
        ensures { Wrote self.old (decimal n) self.new }
    {
        if n < 10 {
            self.byte(ZERO + n as u8);
            return;
        }
        self.count(n / 10);
        self.byte(ZERO + (n % 10) as u8);
    }

    /// Writes a height: a minus sign where it is below 0, and its distance from 0.
    pub fn height(&mut self, height: i32)
        ensures { Wrote self.old (height_text height) self.new }
    {
        if height < 0 {
            self.byte(MINUS);
        }
        self.count(u64::from(height.unsigned_abs()));
    }

    /// Writes a line of two counts, as below `step answer`.
    pub fn pair(&mut self, first: u64, second: u64)
        ensures { Wrote self.old (pair_line first second) self.new }
    {
        self.count(first);
        self.byte(SPACE);
        self.count(second);
        self.byte(LINE_FEED);
    }

    /// Writes a line of three counts, as below `job how mark`.
    pub fn triple(&mut self, first: u64, second: u64, third: u64)
        ensures { Wrote self.old (triple_line first second third) self.new }
    {
        self.count(first);
        self.byte(SPACE);
        self.pair(second, third);
    }

    // As `pair` but for the height: one function of both would take the last number as a closure.

    /// Writes a line of a count and a height, as below `cell value`.
    pub fn height_line(&mut self, cell: u64, height: i32)
        ensures { Wrote self.old (height_line cell height) self.new }
    {
        self.count(cell);
        self.byte(SPACE);
        self.height(height);
        self.byte(LINE_FEED);
    }

    /// Writes what a faulty plan gives: the names `fault line`, and the fault's number with its line.
    pub fn fault(&mut self, number: u64, line: u64)
        ensures { Wrote self.old (fault_lines number line) self.new }
    {
        self.text(b"fault line\n");
        self.pair(number, line);
    }
}
