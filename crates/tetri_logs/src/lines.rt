// The lines of a log.
ghost use Rattle.std.specs.Prelude.{◌≡◌, ◌<◌, ◌∷◌, [], IfOk, IfSome, MatchOption, length, map};
ghost use Rattle.tetri_logs.specs.Lines.{ends_empty, log_lines};

use crate::scan::next_far;
use std::alloc::{AllocError, Global};
use tetri_io::parts_at;

/// The lines of a log, without their line feeds; the last line feed may be missing. Its only error is want of memory.
pub fn log_lines(alloc: Global, log: &[u8]) -> Result<Vec<&[u8]>, AllocError>
    ensures { IfOk result (λ v. map (λ x. x.now) v.items ≡ log_lines log.now) }
{
    let mut parts = parts_at(alloc, b'\n', log)?;
    if ends_empty(&parts) {
        parts.truncate(parts.len() - 1);
    }
    Ok(parts)
}

/// The first line of a log without its line feed, and what stands behind it. `None` exactly where there is no line.
pub fn next_line(log: &[u8]) -> Option<(&[u8], &[u8])>
    ensures lines { MatchOption result (log_lines log.now ≡ []) (λ parts. log_lines log.now ≡ parts.0.now ∷ log_lines parts.1.now) }
    ensures shorter { IfSome result (λ parts. length parts.1.now < length log.now) }
{
    if log.is_empty() {
        return None;
    }
    let end = next_far(log, 0, b'\n');
    if end < log.len() {
        Some((&log[..end], &log[end + 1..]))
    } else {
        Some((log, b""))
    }
}

/// Whether the last part has no byte.
pub(crate) fn ends_empty(parts: &[&[u8]]) -> bool
    ensures { result ≡ ends_empty (map (λ x. x.now) parts.now) }
{
    match parts.last() {
        Some(last) => last.is_empty(),
        None => false,
    }
}
