// By how much worths are multiplied before a delay is charged.
ghost use Rattle.std.specs.Prelude.{◌≡◌, ◌*◌, ◌≤◌};
ghost use Rattle.tetri_delay.specs.Factors.{grain, times, waited};
ghost use Rattle.tetri_strl.specs.WellMade.{PEAK};

// No worth is above it.
const PEAK: u64 = 1_000_000_000_000;

/// The greatest power of two up to 64 with which the greatest worth of an instance, `most`, is
/// still a worth. All worths are multiplied by it, so that small ones are not lost to rounding.
pub(crate) fn grain(most: u64) -> u64
    ensures exact { result ≡ grain most }
    ensures some { 1 ≤ result }
    ensures few { result ≤ 64 }
{
    match PEAK / most.max(1) {
        64.. => 64,
        32.. => 32,
        16.. => 16,
        8.. => 8,
        4.. => 4,
        2.. => 2,
        _ => 1,
    }
}

/// For how many slots a job has waited, where `first` has by job the slot in which it was first
/// seen.
pub(crate) fn waited(first: &[u32], now: u32, job: u32) -> u32
    ensures { result ≡ waited first.now now job }
{
    match first.get(job as usize) {
        Some(slot) => now.saturating_sub(*slot),
        None => 0,
    }
}

/// By how much the worths of a job are multiplied: by the grain, and with ageing by as much again
/// for each so many slots for which it has waited, as far as its greatest worth stays a worth.
pub(crate) fn times(grain: u64, ageing: Option<u32>, waited: u32, peak: u64) -> u64
    requires { grain ≤ 64 }
    ensures exact { result ≡ times grain ageing waited peak }
    ensures in_range { result ≤ PEAK }
    ensures within { result * peak ≤ PEAK }
{
    let most = PEAK / peak.max(1);
    match ageing {
        Some(slots) => {
            let slots = u64::from(slots.max(1));
            (grain * (slots + u64::from(waited)) / slots).min(most)
        }
        None => grain.min(most),
    }
}
