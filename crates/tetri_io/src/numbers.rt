// Whole numbers as text.
ghost use Rattle.std.specs.Prelude.{◌≡◌, ◌<◌, ◌≤◌, ◌-◌, ◌^◌, true, false, length, IfSome, MatchOption};
ghost use Rattle.std.specs.Char.{is_ascii_digit};
ghost use Rattle.std.specs.List.{list_all};
ghost use Rattle.std.specs.Str.Parse.{digits_value};
ghost use Rattle.tetri_io.specs.Numbers.{digits_below, has_leading_zero, number_below};

/// The number below a limit whose decimal digits these bytes are, without a sign or a leading zero. `None` exactly
/// where they are no such number. It takes no memory.
pub fn number_below(limit: u128, bytes: &[u8]) -> Option<u128>
    requires { limit ≤ 2 ^ 127 }
    ensures value { result ≡ number_below limit bytes.now }
    ensures below { IfSome result (λ n. n < limit) }
{
    if bytes.is_empty() || has_leading_zero(bytes) {
        return None;
    }
    let number = number_of(bytes)?;
    if number < limit { Some(number) } else { None }
}

/// The number below a limit that 1 to 10 decimal digits are, leading zeros among them. `None` exactly
/// where they are no such number. It takes no memory.
pub fn digits_below(limit: u64, bytes: &[u8]) -> Option<u64>
    requires { limit ≤ 2 ^ 32 }
    ensures value { result ≡ digits_below limit bytes.now }
    ensures below { IfSome result (λ n. n < limit) }
{
    if bytes.is_empty() || 10 < bytes.len() {
        return None;
    }
    let number = short_number(bytes)?;
    if number < limit { Some(number) } else { None }
}

// As many digits as each number of them is one of 64 bits.
const SHORT: usize = 18;

fn has_leading_zero(bytes: &[u8]) -> bool
    ensures { result ≡ has_leading_zero bytes.now }
{
    1 < bytes.len() && bytes[0] == b'0'
}

fn digit_of(byte: u8) -> Option<u8>
    ensures { MatchOption result (is_ascii_digit byte ≡ false) (λ digit. (is_ascii_digit byte ≡ true) × (digit ≡ byte - 48)) }
{
    if byte.is_ascii_digit() {
        Some(byte - b'0')
    } else {
        None
    }
}

// The number that digits are; `None` exactly where a byte is no digit or the number has more than 128 bits.
fn number_of(bytes: &[u8]) -> Option<u128>
    ensures { MatchOption result (list_all is_ascii_digit bytes.now ≡ true → 2 ^ 128 ≤ digits_value 10 bytes.now)
        (λ n. (list_all is_ascii_digit bytes.now ≡ true) × (n ≡ digits_value 10 bytes.now)) }
{
    if bytes.len() <= SHORT {
        Some(u128::from(short_number(bytes)?))
    } else {
        long_number(bytes)
    }
}

// The number that at most 18 digits are; `None` exactly where a byte is no digit.
fn short_number(bytes: &[u8]) -> Option<u64>
    requires { length bytes.now ≤ 18 }
    ensures { MatchOption result (list_all is_ascii_digit bytes.now ≡ false)
        (λ n. (list_all is_ascii_digit bytes.now ≡ true) × (n ≡ digits_value 10 bytes.now)) }
{
    let mut number = 0u64;
    for byte in bytes {
        let digit = digit_of(*byte)?;
        number = number * 10 + u64::from(digit);
    }
    Some(number)
}

// The number that digits are; `None` exactly where a byte is no digit or the number has more than 128 bits.
fn long_number(bytes: &[u8]) -> Option<u128>
    ensures { MatchOption result (list_all is_ascii_digit bytes.now ≡ true → 2 ^ 128 ≤ digits_value 10 bytes.now)
        (λ n. (list_all is_ascii_digit bytes.now ≡ true) × (n ≡ digits_value 10 bytes.now)) }
{
    let mut number = 0u128;
    for byte in bytes {
        let digit = digit_of(*byte)?;
        number = number.checked_mul(10)?.checked_add(u128::from(digit))?;
    }
    Some(number)
}
