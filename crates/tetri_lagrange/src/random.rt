// Numbers that look random, the same ones in each run.
use rand_core::utils::NextWord;
use rand_pcg::Pcg32;

/// A generator with a fixed seed. O'Neill 2014.
#[derive(Drop)]
pub struct Random {
    words: Pcg32,
}

impl Random {
    /// The generator at its start.
    pub fn new() -> Random {
        Random {
            words: Pcg32::new(42, 54),
        }
    }

    /// Any number but 0.
    pub fn salt(&mut self) -> u64 {
        u64::from(self.words.next_word()) << 8 | 1
    }

    /// The binary logarithm of one over a number by chance between 0 and 1, in parts of 1024, about.
    pub fn logarithm(&mut self) -> u64 {
        let mut word = u64::from(self.words.next_word());
        let mut whole: u64 = 1;
        for _ in 0..32 {
            if word >= 2_147_483_648 {
                break;
            }
            word = word.saturating_mul(2);
            whole = whole.saturating_add(1);
        }
        whole
            .saturating_mul(1024)
            .saturating_sub((word >> 21) & 1023)
    }

    /// A number below the count, or 0.
    pub fn below(&mut self, count: usize) -> usize {
        let word = u64::from(self.words.next_word());
        (word.wrapping_mul(count as u64) >> 32) as usize
    }
}
