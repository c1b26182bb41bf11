// What is suspicious in an ask or a leaf.
ghost use Rattle.std.specs.Prelude.{◌≡◌, ◌<◌, ◌≤◌, length};
ghost use Rattle.tetri_lint.specs.Rules.{end_worth, is_more_than_set, past_deadline, rounds_to_zero};

use tetri_cluster::Sets;
use tetri_request::{Ask, Class};

/// Whether more nodes are wanted than a set has.
pub fn is_more_than_set(sets: &Sets, set: u32, k: u32) -> bool
    requires { set < length sets.now }
    ensures { result ≡ is_more_than_set sets.now set k }
{
    (sets.nodes_of(set).as_slice().len() as u64) < u64::from(k)
}

/// A run of an ask that is longer than its deadline: that on its own set, or else that on the preferred one.
pub fn durs_past_deadline(ask: &Ask) -> Option<u32>
    ensures { result ≡ past_deadline ask.now }
{
    if ask.deadline < ask.dur {
        return Some(ask.dur);
    }
    match ask.prefer {
        Some(prefer) => {
            if ask.deadline < prefer.dur {
                Some(prefer.dur)
            } else {
                None
            }
        }
        None => None,
    }
}

// What is left of the worth of a run that ends at the deadline.
fn end_worth(ask: &Ask) -> u64
    requires { 1 ≤ ask.now.deadline }
    ensures { result ≡ end_worth ask.now }
{
    match ask.class {
        Class::Steady => ask.value,
        Class::Decay => ask.value / u64::from(ask.deadline),
    }
}

/// Whether an ask is worth something, and a run that ends at its deadline 0.
pub fn rounds_to_zero(ask: &Ask) -> bool
    requires time { 1 ≤ ask.now.deadline }
    requires nodes { 1 ≤ ask.now.k }
    ensures { result ≡ rounds_to_zero ask.now }
{
    let worth = end_worth(ask);
    let kept = if ask.elastic {
        worth / u64::from(ask.k)
    } else {
        worth
    };
    0 < ask.value && kept == 0
}
