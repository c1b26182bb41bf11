// Where a byte comes next, found by vectors of 64 bytes or of 16, and of 8 at the end.
ghost use Rattle.std.specs.Prelude.{◌≡◌, ◌+◌, ◌≤◌, ◌==◌, ◌<◌, drop, length, map, take};
ghost use Rattle.std.specs.List.{position_or_len};
ghost use Rattle.std.specs.Simd.Lanes.{mask_l};

use std::simd::prelude::*;

// Of each byte whether it is this one: bit k says it of byte k.
#[inline(always)]
fn marks(bytes: u8x16, byte: u8) -> u64
    ensures { result ≡ mask_l (map (λ b. b == byte) bytes) }
{
    bytes.simd_eq(u8x16::splat(byte)).to_bitmask()
}

// The same of 64 bytes.
#[inline(always)]
fn marks_of_64(bytes: u8x64, byte: u8) -> u64
    ensures { result ≡ mask_l (map (λ b. b == byte) bytes) }
{
    bytes.simd_eq(u8x64::splat(byte)).to_bitmask()
}

// The same of 8 bytes.
#[inline(always)]
fn marks_of_8(bytes: u8x8, byte: u8) -> u64
    ensures { result ≡ mask_l (map (λ b. b == byte) bytes) }
{
    bytes.simd_eq(u8x8::splat(byte)).to_bitmask()
}

// The same as `next_place`, byte by byte.
#[inline(always)]
fn next_slowly(text: &[u8], from: usize, byte: u8) -> usize
    requires { from ≤ length text.now }
    ensures { result ≡ from + position_or_len (λ b. b == byte) (drop from text.now) }
{
    let mut i = from;
    while i < text.len() && text[i] != byte {
        i += 1;
    }
    i
}

// The same, the first 8 bytes at once, where there are as many.
#[inline(always)]
fn next_shortly(text: &[u8], from: usize, byte: u8) -> usize
    requires { from ≤ length text.now }
    ensures { result ≡ from + position_or_len (λ b. b == byte) (drop from text.now) }
{
    if text.len() - from < 8 {
        return next_slowly(text, from, byte);
    }
    let found = marks_of_8(u8x8::from_slice(&text[from..]), byte);
    if found != 0 {
        return from + found.trailing_zeros() as usize;
    }
    next_slowly(text, from + 8, byte)
}

/// The place of the next such byte from one place on, or the length of the text.
#[inline(always)]
pub(crate) fn next_place(text: &[u8], from: usize, byte: u8) -> usize
    requires { from ≤ length text.now }
    ensures { result ≡ from + position_or_len (λ b. b == byte) (drop from text.now) }
{
    let mut i = from;
    while text.len() - i >= 16 {
        let found = marks(u8x16::from_slice(&text[i..]), byte);
        if found != 0 {
            return i + found.trailing_zeros() as usize;
        }
        i += 16;
    }
    next_shortly(text, i, byte)
}

/// The same where the byte is some way off: 64 bytes at once, as long as there are as many.
#[inline(always)]
pub(crate) fn next_far(text: &[u8], from: usize, byte: u8) -> usize
    requires { from ≤ length text.now }
    ensures { result ≡ from + position_or_len (λ b. b == byte) (drop from text.now) }
{
    let mut i = from;
    while text.len() - i >= 64 {
        let found = marks_of_64(u8x64::from_slice(&text[i..]), byte);
        if found != 0 {
            return i + found.trailing_zeros() as usize;
        }
        i += 64;
    }
    next_place(text, i, byte)
}

/// Of each of the next 64 bytes from one place on whether it is this one, or of each that is left, in a text of 64 bytes or more.
#[inline(always)]
pub(crate) fn marks_from(text: &[u8], at: usize, byte: u8) -> u64
    requires long { 64 ≤ length text.now }
    requires inside { at < length text.now }
    ensures { result ≡ mask_l (map (λ b. b == byte) (take 64 (drop at text.now))) }
{
    let left = text.len() - at;
    if left >= 64 {
        return marks_of_64(u8x64::from_slice(&text[at..]), byte);
    }
    marks_of_64(u8x64::from_slice(&text[text.len() - 64..]), byte) >> (64 - left)
}
