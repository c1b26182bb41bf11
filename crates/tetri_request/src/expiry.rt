// Whether an ask can still earn anything.
ghost use Rattle.std.specs.Prelude.{◌≡◌, ◌↔◌, ◌==◌, ◌≤◌, IsTrue, option_to_list};
ghost use Rattle.std.specs.List.{list_all};
ghost use Rattle.tetri_request.specs.Options.{HasExpired, IsSoundAsk, has_expired};

use crate::ask::Ask;
use crate::choices::{general_option, preferred_option};
use tetri_strl::Leaf;

/// Whether no option that starts in slot `now` or later is worth more than 0. It looks at the options
/// that start now alone, since later ones are worth no more, and takes no memory.
pub fn expired(ask: &Ask, arrival: u32, now: u32) -> bool
    requires sound { IsSoundAsk ask.now }
    requires arrived { arrival ≤ now }
    requires early { now ≤ 10000 }
    ensures value { result ≡ has_expired ask.now arrival now }
    ensures exact { IsTrue result ↔ HasExpired ask.now arrival now }
{
    earns_nothing_at(ask, arrival, now)
}

fn earns_nothing_at(ask: &Ask, arrival: u32, start: u32) -> bool
    requires sound { IsSoundAsk ask.now }
    requires arrived { arrival ≤ start }
    requires early { start ≤ 10000 }
    ensures { result ≡ has_expired ask.now arrival start }
{
    let num = 2 * (start - arrival);
    let preferred = preferred_option(ask, arrival, start, num);
    let general = general_option(ask, arrival, start, num + 1);
    is_worthless(preferred) && is_worthless(general)
}

fn is_worthless(leaf: Option<Leaf>) -> bool
    ensures { result ≡ list_all (λ l. l.v == 0) (option_to_list leaf) }
{
    match leaf {
        Some(leaf) => leaf.v == 0,
        None => true,
    }
}
