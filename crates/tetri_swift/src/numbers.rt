// Whole numbers of one word, and of two.

use tetri_ip::add_product;

const LIMIT: i128 = 1 << 62;

/// The number as one word, where it is below 2^62 in size.
pub(crate) fn narrow(x: i128) -> Option<i64> {
    if -LIMIT < x && x < LIMIT {
        Some(x as i64)
    } else {
        None
    }
}

/// The number with a product added, where that is below 2^62 in size.
pub(crate) fn plus(x: i64, by: i64, y: i64) -> Option<i64> {
    narrow(add_product(x as i128, by as i128, y as i128)?)
}

/// The greatest common divisor by Euclid's algorithm, and 0 for 0 and 0.
pub(crate) fn common(a: u64, b: u64) -> u64 {
    let mut x = a;
    let mut y = b;
    for _ in 0..100 {
        if y == 0 {
            return x;
        }
        let rest = x % y;
        x = y;
        y = rest;
    }
    1
}

/// The greatest common divisor of two numbers that are not both 0, and 1 for 0 and 0.
pub(crate) fn divisor(a: i64, b: i64) -> i64 {
    let found = common(a.unsigned_abs(), b.unsigned_abs());
    i64::try_from(found).unwrap_or(1).max(1)
}

/// The quotient by a number above 0.
pub(crate) fn part(x: i64, by: i64) -> i64 {
    if by <= 1 { x } else { x / by }
}

/// A number of a list, and 0 past its end.
pub(crate) fn at(numbers: &[i64], place: usize) -> i64 {
    if place < numbers.len() {
        numbers[place]
    } else {
        0
    }
}

/// The same of numbers of two words.
pub(crate) fn wide_at(numbers: &[i128], place: usize) -> i128 {
    if place < numbers.len() {
        numbers[place]
    } else {
        0
    }
}

/// A name of a list, and 0 past its end.
pub(crate) fn name_at(names: &[u32], place: usize) -> usize {
    if place < names.len() {
        names[place] as usize
    } else {
        0
    }
}
