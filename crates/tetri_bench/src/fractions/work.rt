// The work that is timed.

use tetri_num::{Frac, Past};

/// How many results left the range, and a checksum of the others.
#[derive(Clone, Copy)]
pub struct Tally {
    pub past: u64,
    pub checksum: u64,
}

// The low word of a number's size.
fn low_word(n: i128) -> u64 {
    (n.unsigned_abs() & 0xffff_ffff_ffff_ffff) as u64
}

fn mixed(checksum: u64, word: u64) -> u64 {
    checksum.wrapping_mul(31).wrapping_add(word)
}

impl Tally {
    fn with(self, outcome: Result<Frac, Past>) -> Tally {
        match outcome {
            Ok(x) => Tally {
                past: self.past,
                checksum: mixed(self.checksum, low_word(x.num) ^ low_word(x.den)),
            },
            Err(_) => Tally {
                past: self.past.wrapping_add(1),
                checksum: self.checksum,
            },
        }
    }
}

/// Adds each pair, `rounds` times.
#[inline(never)]
pub fn sums(left: &[Frac], right: &[Frac], rounds: u64) -> Tally {
    let mut tally = Tally {
        past: 0,
        checksum: 0,
    };
    for _ in 0..rounds {
        for (x, y) in left.iter().zip(right) {
            tally = tally.with(x.add(*y));
        }
    }
    tally
}

/// Multiplies each pair, `rounds` times.
#[inline(never)]
pub fn products(left: &[Frac], right: &[Frac], rounds: u64) -> Tally {
    let mut tally = Tally {
        past: 0,
        checksum: 0,
    };
    for _ in 0..rounds {
        for (x, y) in left.iter().zip(right) {
            tally = tally.with(x.mul(*y));
        }
    }
    tally
}
