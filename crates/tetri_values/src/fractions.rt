// Fractions, divisors and multiples.
ghost use Rattle.tetri_algebra.specs.Range.{IsWithin};

use std::alloc::{AllocError, Global};
use tetri_num::{Frac, Past, gcd, lcm};
use tetri_tables::{Tally, debug_text, halves};

fn number(text: &str) -> i128
    ensures { IsWithin result }
{
    text.parse::<i128>().unwrap_or(0).max(-i128::MAX)
}

// The fraction of a text as `3/4` or `3`; a denominator that is not above 0 is taken for 1.
fn fraction(text: &str) -> Frac {
    let (num, den) = text.split_once('/').unwrap_or((text, "1"));
    Frac::new(number(num), number(den).max(1))
}

fn fraction_told(alloc: Global, x: Frac) -> Result<String, AllocError> {
    format!(in alloc; "{}/{}", x.num, x.den)
}

fn past_told(alloc: Global, past: &Past) -> Result<String, AllocError> {
    let op = debug_text(alloc, &past.op)?;
    let left = fraction_told(alloc, past.left)?;
    let right = fraction_told(alloc, past.right)?;
    format!(in alloc; "past {op} {left} {right}")
}

fn answer_told(alloc: Global, answer: Result<Frac, Past>) -> Result<String, AllocError> {
    match answer {
        Ok(x) => fraction_told(alloc, x),
        Err(past) => past_told(alloc, &past),
    }
}

fn quotient_told(alloc: Global, x: Frac, y: Frac) -> Result<String, AllocError> {
    if y.num == 0 {
        return String::from_str(alloc, "no divisor");
    }
    answer_told(alloc, x.div(y))
}

// What is told of two whole numbers.
fn of_numbers(alloc: Global, word: &str, left: i128, right: i128) -> Result<String, AllocError>
    requires left { IsWithin left }
    requires right { IsWithin right }
{
    match word {
        "gcd" => format!(in alloc; "{}", gcd(left, right)),
        "lcm" => format!(in alloc; "{:?}", lcm(left.max(1), right.max(1))),
        _ => String::from_str(alloc, "no such word"),
    }
}

fn of_two(alloc: Global, word: &str, left: &str, right: &str) -> Result<String, AllocError> {
    let (x, y) = (fraction(left), fraction(right));
    match word {
        "add" => answer_told(alloc, x.add(y)),
        "sub" => answer_told(alloc, x.sub(y)),
        "mul" => answer_told(alloc, x.mul(y)),
        "div" => quotient_told(alloc, x, y),
        "compare" => debug_text(alloc, &x.compare(y)),
        _ => of_numbers(alloc, word, number(left), number(right)),
    }
}

fn of_one(alloc: Global, word: &str, text: &str) -> Result<String, AllocError> {
    match word {
        "new" => fraction_told(alloc, fraction(text)),
        "floor" => format!(in alloc; "{}", fraction(text).floor()),
        "whole" => fraction_told(alloc, Frac::whole(number(text))),
        _ => String::from_str(alloc, "no such word"),
    }
}

fn told(alloc: Global, what: &str) -> Result<String, AllocError> {
    let (word, rest) = what.split_once(' ').unwrap_or((what, ""));
    match rest.split_once(' ') {
        Some((left, right)) => of_two(alloc, word, left, right),
        None => of_one(alloc, word, rest),
    }
}

/// Rows `WORD NUMBERS => ANSWER`, with the words new, floor, whole, add, sub, mul, div, compare, gcd and lcm.
pub fn fractions(alloc: Global, tally: &mut Tally, body: &str) -> Result<(), AllocError> {
    for row in body.lines() {
        let (what, wanted) = halves(row);
        let found = told(alloc, what)?;
        tally.expect(row, found.as_str(), wanted)?;
    }
    Ok(())
}
