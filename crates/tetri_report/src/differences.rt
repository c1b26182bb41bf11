// Where a cycle tells something else than a run has there.
ghost use Rattle.std.specs.Prelude.{◌≡◌, ◌+◌, ◌<◌, ◌≤◌, ◌^◌, length, IfSome};
ghost use Rattle.tetri_cert.specs.declared.certificate.Certificate.{Certificate};
ghost use Rattle.tetri_report.specs.Block.{headed};
ghost use Rattle.tetri_report.specs.BlockLines.{certificate_lines, count_events, end_place};
ghost use Rattle.tetri_report.specs.Differences.{ForCertificates, IsDifference, IsEventDifference, IsLineDifference, corrected};
ghost use Rattle.tetri_state.specs.Begin.{occurrences};

use crate::cycle::Head;
use tetri_state::{Happened, PieceId};

// The first place at which two lists of numbers differ.
fn first_difference(told: &[u32], expected: &[u32]) -> Option<usize>
    ensures { IsDifference told.now expected.now result }
{
    let both = told.len().min(expected.len());
    for place in 0..both {
        if told[place] != expected[place] {
            return Some(place);
        }
    }
    if told.len() == expected.len() {
        return None;
    }
    Some(both)
}

// The same of pieces.
fn first_other_piece(told: &[PieceId], expected: &[PieceId]) -> Option<usize>
    ensures { IsDifference told.now expected.now result }
{
    let both = told.len().min(expected.len());
    for place in 0..both {
        if told[place] != expected[place] {
            return Some(place);
        }
    }
    if told.len() == expected.len() {
        return None;
    }
    Some(both)
}

// The place of the first event that differs among the events.
fn first_other_event(told: &Happened, expected: &Happened) -> Option<u64>
    requires { count_events (occurrences told.now) < 2 ^ 64 }
    ensures first { IsEventDifference (occurrences told.now) (occurrences expected.now) result }
    ensures within { IfSome result (λ place. place ≤ count_events (occurrences told.now)) }
{
    if let Some(place) = first_other_piece(&told.ended, &expected.ended) {
        return Some(place as u64);
    }
    let mut before = told.ended.len() as u64;
    if let Some(place) = first_difference(&told.cancelled, &expected.cancelled) {
        return Some(before + place as u64);
    }
    before += told.cancelled.len() as u64;
    if let Some(place) = first_difference(&told.failed, &expected.failed) {
        return Some(before + place as u64);
    }
    before += told.failed.len() as u64;
    if let Some(place) = first_other_piece(&told.over, &expected.over) {
        return Some(before + place as u64);
    }
    before += told.over.len() as u64;
    if let Some(place) = first_difference(&told.expired, &expected.expired) {
        return Some(before + place as u64);
    }
    None
}

/// The place of the `plan` line among the lines of a cycle at whose beginning this happened.
pub fn plan_place_behind(happened: &Happened) -> u64
    requires { 1 + count_events (occurrences happened.now) < 2 ^ 64 }
    ensures { result ≡ 1 + count_events (occurrences happened.now) }
{
    let pieces = happened.ended.len() as u64 + happened.over.len() as u64;
    let jobs = happened.cancelled.len() as u64
        + happened.failed.len() as u64
        + happened.expired.len() as u64;
    1 + pieces + jobs
}

/// What a run has beside the plan of a cycle: its number, the events of its slot, by grant the slot at which it starts, and
/// the jobs that are launched, ascending.
#[derive(Clone, Copy)]
pub struct Expected<'a> {
    pub number: u32,
    pub happened: &'a Happened,
    pub starts: &'a [u32],
    pub launched: &'a [u32],
}

/// The place of the first line of a cycle that differs from the one that a run has there, and none where all are the same, by the
/// cycle's head and the number of its certificate's lines. Places count from the `cycle` line, which has the place 0; where a line is
/// missing it is that of the line which stands there instead, perhaps the one behind the cycle.
pub fn first_other_line_by_head(head: &Head, certificate: u64, expected: Expected) -> Option<u64>
    requires few { (c : Certificate) × (length (certificate_lines c) ≡ certificate) × (end_place (headed head.now c) < 2 ^ 64) }
    requires starts { length head.now.starts.items ≡ length head.now.grants }
    requires as_many { length expected.starts.now ≡ length head.now.grants }
    ensures first { ForCertificates certificate (λ c. IsLineDifference (headed head.entry.now c)
        (corrected (headed head.entry.now c) expected.entry.number (occurrences expected.entry.happened.now) expected.entry.starts.now
        expected.entry.launched.now) result) }
    ensures within { ForCertificates certificate (λ c. IfSome result (λ place. place ≤ end_place (headed head.entry.now c))) }
{
    if head.number != expected.number {
        return Some(0);
    }
    if let Some(place) = first_other_event(&head.happened, expected.happened) {
        return Some(1 + place);
    }
    let grants = plan_place_behind(&head.happened) + 1;
    if let Some(place) = first_difference(&head.starts, expected.starts) {
        return Some(grants + place as u64);
    }
    let launches = grants + head.grants.as_slice().len() as u64 + certificate;
    match first_difference(&head.launched, expected.launched) {
        Some(place) => Some(launches + place as u64),
        None => None,
    }
}
