//! The six kinds of check: what a job reports of the heights handed to it, in exact whole numbers.
#![tactic(auto)]

ghost use Rattle.std.specs.Prelude.{◌≡◌};
ghost use Rattle.kinds.specs.Kinds.{shifted, is_spike, is_below, mean_of, exceeds, reported, sure_write, uncertain_write, ordered, refused, result_of};

use refusal::Refusal;

// A kind is a byte of the C record `Job`, and the record below is one too: an enum would be made of the byte for one match.

/// The kind that writes the parameter.
pub const SET: u8 = 1;
/// The kind that moves a height by the parameter.
pub const SHIFT: u8 = 2;
/// The kind that replaces a height too far from the one beside it.
pub const SPIKE: u8 = 3;
/// The kind that raises a height to the parameter.
pub const FLOOR: u8 = 4;
/// The kind that writes the mean of two other heights.
pub const MEAN: u8 = 5;
/// The kind that puts two heights in ascending order.
pub const PAIR: u8 = 6;

/// What a job of some kind reports: one value for each access, and whether its uncertain writes took place (1) or not (0).
#[repr(C)]
#[derive(Clone, Copy)]
pub struct Outcome {
    pub refusal: u8,
    pub values: [i32; 4],
    pub wrote: u8,
}

/// The height moved by the parameter, and held at the ends of the range.
pub fn shift(height: i32, parameter: i32) -> i32
    ensures { result ≡ shifted height parameter }
{
    height.saturating_add(parameter)
}

/// Whether the heights are further apart than the parameter. Two heights can be nearly 2^32 apart, and a parameter below 0, so
/// that the two are compared in 64 bits.
pub fn is_spike(height: i32, beside: i32, parameter: i32) -> bool
    ensures { result ≡ is_spike height beside parameter }
{
    i64::from(parameter) < i64::from(height.abs_diff(beside))
}

/// Whether the height is below the floor.
pub fn is_below(height: i32, floor: i32) -> bool
    ensures { result ≡ is_below height floor }
{
    height < floor
}

/// Half the sum, a half away from zero: one step away first, since a division goes towards zero. The sum needs 64 bits.
pub fn mean(left: i32, right: i32) -> i32
    ensures { result ≡ mean_of left right }
{
    let sum = i64::from(left) + i64::from(right);
    // by a test, and not by `signum`: a wrong step is then refused for what it is
    let away = if sum < 0 { -1 } else { 1 };
    ((sum + away) / 2) as i32
}

/// Whether the first height of a pair is above the second, so that they are to be exchanged.
pub fn is_above(first: i32, second: i32) -> bool
    ensures { result ≡ exceeds first second }
{
    second < first
}

/// An accepted answer.
fn report(values: [i32; 4], wrote: u8) -> Outcome
    ensures { result ≡ reported values wrote }
{
    Outcome {
        refusal: 0,
        values,
        wrote,
    }
}

/// The first place gets the height in every case.
fn sure_write(handed: [i32; 4], height: i32) -> Outcome
    ensures { result ≡ sure_write handed height }
{
    let mut values = handed;
    values[0] = height;
    report(values, 0)
}

/// The first place gets the height only if the kind's test says so.
fn uncertain_write(handed: [i32; 4], happens: bool, height: i32) -> Outcome
    ensures { result ≡ uncertain_write handed happens height }
{
    if happens {
        Outcome {
            wrote: 1,
            ..sure_write(handed, height)
        }
    } else {
        report(handed, 0)
    }
}

/// The first two places in ascending order; the rest as handed.
fn in_order(handed: [i32; 4], first: i32, second: i32) -> Outcome
    ensures { result ≡ ordered handed first second }
{
    if is_above(first, second) {
        let mut values = handed;
        values[0] = second;
        values[1] = first;
        report(values, 1)
    } else {
        report(handed, 0)
    }
}

/// No result; the values go back as handed.
fn refuse(handed: [i32; 4]) -> Outcome
    ensures { result ≡ refused handed }
{
    Outcome {
        refusal: Refusal::Kind as u8,
        values: handed,
        wrote: 0,
    }
}

/// R18: what a job of the kind reports of the values handed to it.
/// Kind 0 is refused because its result is the worker's own, and a kind above 6 because there is none.
#[tactic(auto, unfolding(crate::specs::Kinds::result_of, crate::specs::Kinds::table_of))]
pub fn result(kind: u8, parameter: i32, handed: [i32; 4]) -> Outcome
    ensures { result ≡ result_of kind parameter handed }
{
    let [a, b, c, _] = handed;
    match kind {
        SET => sure_write(handed, parameter),
        SHIFT => sure_write(handed, shift(a, parameter)),
        SPIKE => uncertain_write(handed, is_spike(a, b, parameter), b),
        FLOOR => uncertain_write(handed, is_below(a, parameter), parameter),
        MEAN => sure_write(handed, mean(b, c)),
        PAIR => in_order(handed, a, b),
        0 | 7..=255 => refuse(handed),
    }
}
