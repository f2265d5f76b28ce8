//! The kinds at the ends of the 32-bit range and where their tests turn.

use kinds::{FLOOR, MEAN, PAIR, SET, SHIFT, SPIKE, is_above, is_below, is_spike, mean, shift};
use say::{Height, Values, yes_no};
use std::io;

const LOWEST: i32 = i32::MIN;

const HIGHEST: i32 = i32::MAX;

pub fn shifts(rt: &impl Print) -> io::Result<()> {
    println!(rt; "# shift: held at the ends of the range")?;
    for (height, by) in [
        (2147483640, 20),
        (2147483640, 7),
        (HIGHEST, 1),
        (HIGHEST, HIGHEST),
        (-HIGHEST, -1),
        (LOWEST, -1),
        (LOWEST, LOWEST),
        (HIGHEST, LOWEST),
    ] {
        println!(rt; "shift: {height} by {by} = {}", Height(shift(height, by)))?;
    }
    Ok(())
}

pub fn spikes(rt: &impl Print) -> io::Result<()> {
    println!(rt; "# spike: a distance above p")?;
    for (height, beside, p) in [
        (2900, 1500, 1399),
        (2900, 1500, 1400),
        (1500, 2900, 1399),
        (HIGHEST, LOWEST, HIGHEST),
        (LOWEST, HIGHEST, HIGHEST),
        (HIGHEST, 0, HIGHEST),
        (5, 5, 0),
        (5, 5, -1),
        (5, 5, LOWEST),
    ] {
        let spike = yes_no(is_spike(height, beside, p));
        println!(rt; "is_spike: {height} beside {beside}, p {p} = {spike}")?;
    }
    Ok(())
}

pub fn floors_and_pairs(rt: &impl Print) -> io::Result<()> {
    println!(rt; "# floor: a height below p; pair: the first above the second")?;
    for (height, p) in [(1399, 1400), (1400, 1400), (LOWEST, HIGHEST)] {
        println!(rt;
            "is_below: {height}, p {p} = {}",
            yes_no(is_below(height, p))
        )?;
    }
    for (first, second) in [(1720, 1480), (1480, 1480), (-1, -2)] {
        println!(rt;
            "is_above: {first}, {second} = {}",
            yes_no(is_above(first, second))
        )?;
    }
    Ok(())
}

pub fn means(rt: &impl Print) -> io::Result<()> {
    println!(rt; "# mean: a half away from zero")?;
    for (left, right) in [
        (3, 4),
        (-3, -4),
        (-1, 0),
        (0, -1),
        (0, 1),
        (-2, 1),
        (-1, 2),
        (-5, 5),
        (-4, -2),
        (HIGHEST, LOWEST),
        (HIGHEST, 0),
        (HIGHEST, 2147483646),
        (HIGHEST, HIGHEST),
        (-HIGHEST, LOWEST),
        (LOWEST, LOWEST),
    ] {
        println!(rt; "mean: {left}, {right} = {}", Height(mean(left, right)))?;
    }
    Ok(())
}

/// A line with all that a kind reports.
fn report(
    rt: &impl Print,
    what: &str,
    kind: u8,
    parameter: i32,
    handed: [i32; 4],
) -> io::Result<()> {
    let outcome = kinds::result(kind, parameter, handed);
    let values = Values {
        run: &outcome.values,
        arity: 4,
    };
    println!(rt;
        "result: {what} ={values}, mark {}, refusal {}",
        outcome.wrote, outcome.refusal
    )
}

pub fn results(rt: &impl Print) -> io::Result<()> {
    println!(rt; "# the result of a kind: four values, the mark, the refusal")?;
    let ends = "spike 2147483647 of the two ends";
    for (what, kind, parameter, first, second, third) in [
        ("set 1500 of 7", SET, 1500, 7, 0, 0),
        ("shift 20 of 2147483640", SHIFT, 20, 2147483640, 0, 0),
        ("spike 1399 of 2900 beside 1500", SPIKE, 1399, 2900, 1500, 0),
        ("spike 1400 of 2900 beside 1500", SPIKE, 1400, 2900, 1500, 0),
        (ends, SPIKE, HIGHEST, HIGHEST, LOWEST, 0),
        ("spike -1 of 5 beside 5", SPIKE, -1, 5, 5, 0),
        ("floor 1400 of 1399", FLOOR, 1400, 1399, 0, 0),
        ("floor 1400 of 1400", FLOOR, 1400, 1400, 0, 0),
        ("mean of 3 and 4", MEAN, 0, 9, 3, 4),
        ("mean of -3 and -4", MEAN, 0, 9, -3, -4),
        ("mean of -1 and 0", MEAN, 0, 9, -1, 0),
        ("pair 1720, 1480", PAIR, 0, 1720, 1480, 0),
        ("pair 1480, 1480", PAIR, 0, 1480, 1480, 0),
    ] {
        report(rt, what, kind, parameter, [first, second, third, 0])?;
    }
    Ok(())
}

pub fn refusals(rt: &impl Print) -> io::Result<()> {
    println!(rt; "# the result of a kind that has none: the values as handed")?;
    for (what, kind) in [("kind 0", 0), ("kind 7", 7), ("kind 255", 255)] {
        report(rt, what, kind, 1, [5, 6, 7, 8])?;
    }
    Ok(())
}
