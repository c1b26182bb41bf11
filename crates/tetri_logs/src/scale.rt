// Seconds as slots, and processors as nodes.
ghost use Rattle.std.specs.Prelude.{◌≡◌, ◌≤◌, ◌<◌, ◌^◌};
ghost use Rattle.tetri_logs.specs.Options.{AreGood};
ghost use Rattle.tetri_logs.specs.Scale.{is_part_node, moment_of, nodes_of, nodes_with, room_of, slot_of, slots_of, worth_of};

use crate::account::Account;
use crate::options::{Settings, Worth};

/// The second since 1970 at which a job was submitted.
pub fn moment_of(settings: &Settings, account: Account) -> u64
    ensures value { result ≡ moment_of settings.now account }
    ensures small { result < 2 ^ 33 }
{
    u64::from(settings.start) + u64::from(account.submit)
}

/// The slot of a second.
pub(crate) fn slot_of(settings: &Settings, moment: u64) -> u64
    requires { AreGood settings.now }
    ensures { result ≡ slot_of settings.now moment }
{
    moment.saturating_sub(settings.origin) / u64::from(settings.slot)
}

/// In how many slots so many seconds fit, one at least.
pub(crate) fn slots_of(settings: &Settings, seconds: u32) -> u64
    requires { AreGood settings.now }
    ensures value { result ≡ slots_of settings.now seconds }
    ensures some { 1 ≤ result }
    ensures small { result < 2 ^ 33 }
{
    let slot = u64::from(settings.slot);
    ((u64::from(seconds) + slot - 1) / slot).max(1)
}

// How many nodes have so many processors.
fn nodes_with(settings: &Settings, processors: u32) -> u64
    requires { AreGood settings.now }
    ensures { result ≡ nodes_with settings.now processors }
{
    let size = u64::from(settings.processors);
    (u64::from(processors) + size - 1) / size
}

/// How many nodes a job asks for: those that the log counts, or so many that they have its processors.
pub(crate) fn nodes_of(settings: &Settings, account: Account) -> u64
    requires { AreGood settings.now }
    ensures { result ≡ nodes_of settings.now account }
{
    match account.nodes {
        Some(nodes) => u64::from(nodes),
        None => nodes_with(settings, account.processors.unwrap_or(0)),
    }
}

/// How many nodes a job may have: those of its set, and no more than there are.
pub(crate) fn room_of(settings: &Settings, account: Account) -> u64
    requires { AreGood settings.now }
    ensures value { result ≡ room_of settings.now account }
    ensures few { result ≤ 4096 }
{
    let all = u64::from(settings.nodes);
    match account.room {
        Some(room) => all.min(u64::from(room)),
        None => all,
    }
}

/// Whether a job asks for fewer processors than a node has.
pub(crate) fn is_part_node(settings: &Settings, account: Account) -> bool
    ensures { result ≡ is_part_node settings.now account }
{
    account.processors.unwrap_or(settings.processors) < settings.processors
}

/// What so many nodes for so many slots are worth.
pub(crate) fn worth_of(settings: &Settings, nodes: u32, slots: u32) -> u64
    ensures { result ≡ worth_of settings.now nodes slots }
{
    match settings.worth {
        Worth::NodeSlots => u64::from(nodes) * u64::from(slots),
        Worth::Job => 1,
    }
}
