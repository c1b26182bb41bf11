// Numbers in words.
ghost use Rattle.std.specs.Prelude.{◌≡◌, IfSome};
ghost use Rattle.tetri_algebra.specs.Range.{IsWithin};
ghost use Rattle.tetri_cert.specs.Numbers.{frac_in, frac_of, frac_of_halves, negative_number, small_number, whole_number};

use tetri_io::{halves_at, number_below};
use tetri_num::Frac;

pub(crate) fn small_number(word: &[u8]) -> Option<u32>
    ensures { result ≡ small_number word.now }
{
    let number = number_below(1 << 32, word)?;
    Some(number as u32)
}

#[tactic(auto, using(crate::proofs::NumbersSigned::signed), unfolding(crate::specs::Numbers::negative_number))]
fn negative_number(digits: &[u8]) -> Option<i128>
    ensures value { result ≡ negative_number digits.now }
    ensures within { IfSome result IsWithin }
{
    let size = number_below(1 << 127, digits)?;
    if size == 0 {
        return None;
    }
    Some(-(size as i128))
}

#[tactic(auto, using(crate::proofs::NumbersSigned::signed), unfolding(crate::specs::Numbers::whole_number))]
pub(crate) fn whole_number(word: &[u8]) -> Option<i128>
    ensures value { result ≡ whole_number word.now }
    ensures within { IfSome result IsWithin }
{
    match word.strip_prefix(b"-") {
        Some(digits) => negative_number(digits),
        None => {
            let size = number_below(1 << 127, word)?;
            Some(size as i128)
        }
    }
}

// The fraction of these parts, where they are in lowest terms.
#[tactic(auto, using(crate::proofs::NumbersSigned::signed))]
fn frac_of(num: i128, den: i128) -> Option<Frac>
    requires num { IsWithin num }
    requires den { IsWithin den }
    ensures { result ≡ frac_of num den }
{
    if den <= 0 {
        return None;
    }
    let reduced = Frac::new(num, den);
    if reduced.num == num && reduced.den == den {
        Some(reduced)
    } else {
        None
    }
}

fn frac_of_halves(num: &[u8], den: &[u8]) -> Option<Frac>
    ensures { result ≡ frac_of_halves (num.now, den.now) }
{
    let num = whole_number(num)?;
    let den = whole_number(den)?;
    frac_of(num, den)
}

pub(crate) fn frac_in(word: &[u8]) -> Option<Frac>
    ensures { result ≡ frac_in word.now }
{
    let (num, den) = halves_at(b'/', word)?;
    frac_of_halves(num, den)
}
