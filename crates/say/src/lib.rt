//! How the programs write heights, runs, and answers that are yes or no, and go on after a line that could not be written.
#![tactic(auto)]

ghost use Rattle.std.specs.Prelude.{◌≡◌, cond, [], ◌∷◌};
ghost use Rattle.std.specs.Fmt.{WritesOnOk};
ghost use Rattle.render.specs.Text.{height_text};

use std::{fmt, io};

/// What the programs print to: where a line could not be written, there is nobody to tell, and the next one is tried.
#[derive(Drop)]
pub struct Onward<'a, P: Print>(pub &'a P);

impl<P: Print> Print for Onward<'_, P> {
    fn print<D: fmt::Display + Drop>(&self, value: D) -> io::Result<()> {
        let _ = self.0.print(value);
        Ok(())
    }

    fn println<D: fmt::Display + Drop>(&self, value: D) -> io::Result<()> {
        let _ = self.0.println(value);
        Ok(())
    }

    fn write_all(&self, bytes: &[u8]) -> io::Result<()> {
        let _ = self.0.write_all(bytes);
        Ok(())
    }
}

/// Writes a height as the answer to a plan has it.
fn spell<W: fmt::Write>(height: i32, f: &mut fmt::Formatter<W>) -> fmt::Result
    ensures { WritesOnOk W.write_str_gives f.old result (height_text height) f.new }
{
    write!(f, "{height}")
}

/// A height, to be written.
#[derive(Clone, Copy)]
pub struct Height(pub i32);

impl fmt::Display for Height {
    fn fmt<W: fmt::Write>(&self, f: &mut fmt::Formatter<W>) -> fmt::Result {
        spell(self.0, f)
    }
}

/// The heights in the first `arity` places of a run, to be written with a space before each.
#[derive(Clone, Copy)]
pub struct Values<'a> {
    pub run: &'a [i32],
    pub arity: u8,
}

impl fmt::Display for Values<'_> {
    fn fmt<W: fmt::Write>(&self, f: &mut fmt::Formatter<W>) -> fmt::Result {
        for height in self.run.iter().take(usize::from(self.arity)) {
            write!(f, " {}", Height(*height))?;
        }
        Ok(())
    }
}

/// Which of a job's runs: its own, or its guess.
#[derive(Clone, Copy)]
pub enum Run {
    Own,
    Guess,
}

impl fmt::Display for Run {
    fn fmt<W: fmt::Write>(&self, f: &mut fmt::Formatter<W>) -> fmt::Result {
        match self {
            Run::Own => write!(f, "own"),
            Run::Guess => write!(f, "guess"),
        }
    }
}

/// The word for an answer.
pub fn yes_no(holds: bool) -> &'static str
    ensures { result.now ≡ cond holds (121 ∷ 101 ∷ 115 ∷ []) (110 ∷ 111 ∷ []) }
{
    if holds { "yes" } else { "no" }
}
