// Texts with escapes and repetitions.
ghost use Rattle.std.specs.Prelude.{◌<◌};

use crate::texts::text_in;
use std::alloc::{AllocError, Global};

fn digit(byte: u8) -> u8
    ensures { result < 16 }
{
    match byte {
        b'0'..=b'9' => byte - b'0',
        b'a'..=b'f' => byte - b'a' + 10,
        _ => 0,
    }
}

const BLANKS: [u8; 1000] = [b' '; 1000];

// Puts in the byte that two digits behind an x say, and gives what stands behind them.
fn put_digits<'t>(out: &mut Vec<u8>, text: &'t [u8]) -> Result<&'t [u8], AllocError> {
    match text {
        [_, high, low, rest @ ..] => {
            out.push(16 * digit(*high) + digit(*low))?;
            Ok(rest)
        }
        _ => Ok(text),
    }
}

// The bytes of an escape, put in, and what stands behind it. An escape is b, n, t, r or x with two digits.
fn put_escape<'t>(out: &mut Vec<u8>, text: &'t [u8]) -> Result<&'t [u8], AllocError> {
    let Some((letter, rest)) = text.split_first() else {
        return Ok(text);
    };
    match *letter {
        b'b' => out.extend_from_slice(&BLANKS)?,
        b'n' => out.push(b'\n')?,
        b't' => out.push(b'\t')?,
        b'r' => out.push(b'\r')?,
        b'x' => return put_digits(out, text),
        _ => return Ok(text),
    }
    Ok(rest)
}

fn put_escaped(out: &mut Vec<u8>, text: &str) -> Result<(), AllocError> {
    for (place, piece) in text.split('\\').enumerate() {
        if place == 0 {
            out.extend_from_slice(piece.as_bytes())?;
        } else {
            let rest = put_escape(out, piece.as_bytes())?;
            out.extend_from_slice(rest)?;
        }
    }
    Ok(())
}

// A text with a number in the place of each `#`.
fn put_numbered(
    alloc: Global,
    out: &mut Vec<u8>,
    text: &str,
    number: u32,
) -> Result<(), AllocError> {
    for (place, piece) in text.split('#').enumerate() {
        if place > 0 {
            let digits = format!(in alloc; "{number}")?;
            out.extend_from_slice(digits.as_bytes())?;
        }
        put_escaped(out, piece)?;
    }
    Ok(())
}

/// The bytes of a text: `\n`, `\t`, `\r` and `\xff` are one byte, `\b` is a thousand blanks, and `<5*t#>` is t0t1t2t3t4.
pub fn expand(alloc: Global, text: &str) -> Result<Vec<u8>, AllocError> {
    let mut out = Vec::new(alloc);
    for (place, piece) in text.split('<').enumerate() {
        if place == 0 {
            put_escaped(&mut out, piece)?;
        } else {
            let (made, rest) = piece.split_once('>').unwrap_or(("", piece));
            let (count, item) = made.split_once('*').unwrap_or(("", ""));
            for number in 0..count.parse::<u32>().unwrap_or(0) {
                put_numbered(alloc, &mut out, item, number)?;
            }
            put_escaped(&mut out, rest)?;
        }
    }
    Ok(out)
}

/// The same as text.
pub fn expand_text(alloc: Global, text: &str) -> Result<String, AllocError> {
    let bytes = expand(alloc, text)?;
    text_in(alloc, &bytes)
}
