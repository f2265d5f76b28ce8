//! The program `gaugebatch`: reads a plan from standard input and writes the answers to standard output.
#![tactic(auto)]

ghost use Rattle.std.specs.Prelude.{◌≤◌, ◌≡◌, length, take};
ghost use Rattle.io.specs.Counts.{IsPrefixLen};
ghost use Rattle.answer.specs.Output.{output_of};

use std::env::{Env, FillError};
use std::io;
use std::io::Write;

mod input;

/// How the program is used.
const USAGE: [u8; 193] =
    *b"usage: gaugebatch < PLAN\nReads a plan and writes its answer. The answer to a faulty plan is 'fault line', a number and a line.\nFor words in place of numbers, and an exit status, use gaugeplan.\n";

/// One byte more than a plan may have, so that a longer one shows.
const LONGEST_INPUT: usize = 65537;

/// As much as any output takes.
const LONGEST_OUTPUT: usize = 334861;

/// The whole output, in a buffer that is large enough for it.
fn respond(input: &[u8], output: &mut [u8]) -> usize
    requires { 334861 ≤ length output.old }
    ensures output_after { take result output.new ≡ output_of input.now }
    ensures prefix_len { IsPrefixLen result output.new }
{
    answer::answer(input, output)
}

/// What comes before the system's number of an error.
fn words_of(told: &str) -> &str {
    told.split_once(" (os error ")
        .map_or(told, |(words, _)| words)
}

/// R154: says on standard error what could not be done, and the system's reason.
fn say_why(rt: &HostRuntime, what: &str, error: io::Error) -> io::Result<()> {
    let told = format!(in rt.alloc(); "{error}")?;
    let words = words_of(told.as_str());
    eprintln!(rt; "gaugebatch: {what}: {words}")
}

/// The same, without the reason where there is no memory for its words. With standard error closed too nothing can be said.
fn complain(rt: &HostRuntime, what: &str, error: io::Error) {
    if say_why(rt, what, error).is_err() {
        let _ = eprintln!(rt; "gaugebatch: {what}");
    }
}

/// R154: writes all of the text to standard output, or says why it could not.
fn write_out(rt: &HostRuntime, text: &[u8]) {
    if let Err(error) = rt.stdout().write_all(text) {
        complain(rt, "the answer could not be written whole", error);
    }
}

/// Whether the program was given an argument with that number. Number 0 is its own name.
fn is_given(rt: &HostRuntime, number: usize) -> bool {
    let mut word = [0u8; 1];
    !matches!(rt.arg(number, &mut word), Err(FillError::NotPresent))
}

/// R155: whether the only argument asks how the program is used. A longer word than the buffer takes is another one.
fn asks_for_help(rt: &HostRuntime) -> bool {
    if is_given(rt, 2) {
        return false;
    }
    let mut word = [0u8; 8];
    match rt.arg(1, &mut word) {
        Ok(n) => {
            let asked = &word[..n];
            asked == b"--help".as_slice() || asked == b"-h".as_slice()
        }
        Err(_) => false,
    }
}

fn main(rt: HostRuntime) {
    if asks_for_help(&rt) {
        write_out(&rt, &USAGE);
        return;
    }
    if is_given(&rt, 1) {
        let _ = rt.stderr().write_all(b"gaugebatch: no such argument\n");
        let _ = rt.stderr().write_all(&USAGE);
        return;
    }
    let mut input = [0u8; LONGEST_INPUT];
    let n = match input::read_input(&mut rt.stdin(), &mut input) {
        Ok(length) => length,
        Err(failed) => {
            complain(&rt, "the plan could not be read", failed.error);
            return;
        }
    };
    let mut output = [0u8; LONGEST_OUTPUT];
    let m = respond(&input[..n], &mut output);
    write_out(&rt, &output[..m]);
}
