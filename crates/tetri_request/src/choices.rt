// One option of an ask: a start, and a set on which to run.
ghost use Rattle.std.specs.Prelude.{◌≡◌, ◌+◌, ◌-◌, ◌*◌, ◌≤◌, option_to_list};
ghost use Rattle.tetri_request.specs.Options.{IsSoundAsk, IsSoundPrefer, class_worth, option_on, option_worth, preferred};

use crate::ask::{Ask, Class, Prefer};
use tetri_strl::Leaf;

// The worth of an option that ends so many slots after the arrival.
fn worth_of_end(ask: &Ask, end: u32) -> u64
    requires sound { IsSoundAsk ask.now }
    requires some { 1 ≤ end }
    requires in_time { end ≤ ask.now.deadline }
    ensures { result ≡ option_worth ask.now end }
{
    let worth = left_at(ask, end);
    if ask.elastic {
        let k = u64::from(ask.k);
        worth / k * k
    } else {
        worth
    }
}

fn left_at(ask: &Ask, end: u32) -> u64
    requires sound { IsSoundAsk ask.now }
    requires some { 1 ≤ end }
    requires in_time { end ≤ ask.now.deadline }
    ensures { result ≡ class_worth ask.now.class ask.now.value ask.now.deadline end }
{
    match ask.class {
        Class::Steady => ask.value,
        Class::Decay => ask.value * u64::from(ask.deadline - end + 1) / u64::from(ask.deadline),
    }
}

// The option that starts then and runs there, where it ends in time.
fn option_at(ask: &Ask, arrival: u32, start: u32, num: u32, place: Prefer) -> Option<Leaf>
    requires sound { IsSoundAsk ask.now }
    requires place { IsSoundPrefer place }
    requires arrived { arrival ≤ start }
    requires early { start ≤ 20000 }
    ensures { option_to_list result ≡ option_on ask.now arrival start num place.set place.dur }
{
    let end = start + place.dur - arrival;
    if end <= ask.deadline {
        Some(Leaf {
            num,
            set: place.set,
            k: ask.k,
            start,
            dur: place.dur,
            v: worth_of_end(ask, end),
            linear: ask.elastic,
        })
    } else {
        None
    }
}

/// The option on the preferred set.
pub fn preferred_option(ask: &Ask, arrival: u32, start: u32, num: u32) -> Option<Leaf>
    requires sound { IsSoundAsk ask.now }
    requires arrived { arrival ≤ start }
    requires early { start ≤ 20000 }
    ensures { option_to_list result ≡ preferred ask.now arrival start num ask.now.prefer }
{
    match ask.prefer {
        Some(place) => option_at(ask, arrival, start, num, place),
        None => None,
    }
}

/// The option on the set that the ask may use in any case.
pub fn general_option(ask: &Ask, arrival: u32, start: u32, num: u32) -> Option<Leaf>
    requires sound { IsSoundAsk ask.now }
    requires arrived { arrival ≤ start }
    requires early { start ≤ 20000 }
    ensures { option_to_list result ≡ option_on ask.now arrival start num ask.now.set ask.now.dur }
{
    let place = Prefer {
        set: ask.set,
        dur: ask.dur,
    };
    option_at(ask, arrival, start, num, place)
}
