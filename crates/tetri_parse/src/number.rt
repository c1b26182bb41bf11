// Numbers.
ghost use Rattle.std.specs.Prelude.{◌≡◌, ◌-◌, ◌^◌, ◌≤◌, min, IfOk};
ghost use Rattle.tetri_parse.specs.Answers.{Gives};
ghost use Rattle.tetri_parse.specs.LeafNumbers.{comma_number_at};
ghost use Rattle.tetri_parse.specs.Tokens.{numeral, number_at};

use crate::fault::{Fault, Stop};
use crate::token::{Class, mark, missed, missing, run_of, skip_blanks};

// The number that digits write, or the last one of its type where that is less.
fn numeral(digits: &[u8]) -> u64
    ensures { result ≡ min (2 ^ 64 - 1) (numeral digits.now) }
{
    let mut value = 0u64;
    for digit in digits {
        value = value
            .saturating_mul(10)
            .saturating_add(u64::from(digit.saturating_sub(b'0')));
    }
    value
}

/// The number that stands first, from `low` to `high`, and what stands behind it.
pub(crate) fn number(low: u64, high: u64, text: &[u8]) -> Result<(u64, &[u8]), Stop>
    requires { high ≤ 1000000000000 }
    ensures value { Gives (λ x. (x.0, x.1.now)) result (number_at low high text.now) }
    ensures within { IfOk result (λ x. (low ≤ x.0) × (x.0 ≤ high)) }
{
    let text = skip_blanks(text);
    let count = run_of(Class::Digit, text);
    if count == 0 {
        return Err(missing(text));
    }
    let (digits, rest) = text.split_at(count);
    let value = numeral(digits);
    if value < low || high < value {
        return Err(missed(Fault::NumberRange, text));
    }
    Ok((value, rest))
}

/// The number behind a comma, from `low` to `high`, and what stands behind it.
pub(crate) fn comma_number(low: u32, high: u32, text: &[u8]) -> Result<(u32, &[u8]), Stop>
    ensures value { Gives (λ x. (x.0, x.1.now)) result (comma_number_at low high text.now) }
    ensures within { IfOk result (λ x. (low ≤ x.0) × (x.0 ≤ high)) }
{
    let (value, rest) = number(u64::from(low), u64::from(high), mark(b',', text)?)?;
    Ok((value as u32, rest))
}
