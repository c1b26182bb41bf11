// What a caller asks for.
ghost use Rattle.std.specs.Prelude.{◌≡◌};
ghost use Rattle.tetri_queue.specs.Asking.{fault_of, is_out_of_range};

use tetri_request::Class;

/// How the worth of a job is made.
#[derive(Clone, Copy, Debug, PartialEq, Eq)]
pub enum QueueWorth {
    /// Its nodes times its slots.
    NodeSlots,
    /// Its priority, 1 at least.
    Priority,
}

/// What a caller asks for.
#[derive(Clone, Copy, Debug, PartialEq, Eq)]
pub struct Asked {
    /// The seconds of a slot, 1 to 1,000,000.
    pub slot: u32,
    /// In how many slots leaves may start, 1 to 64.
    pub window: u32,
    /// How many nodes a search tree may have, 1 to 10,000.
    pub budget: u32,
    /// How many slots longer than it asks for a job may take to its end, at most 10,000.
    pub slack: u32,
    /// For so many slots of waiting, 1 to 10,000, a job is worth as much again; none: it is worth the same however long it waits.
    pub ageing: Option<u32>,
    pub worth: QueueWorth,
    pub class: Class,
    /// Whether each job is given whole nodes, whatever it asks for.
    pub whole: bool,
    /// The second since 1970 with which slot 0 begins, by the manager's clock.
    pub now: Option<u32>,
}

/// Why what is asked for cannot be.
#[derive(Clone, Copy, Debug, PartialEq, Eq)]
pub enum AskedFault {
    Slot,
    Window,
    Budget,
    Slack,
    Ageing,
    /// There are reservations, but it is not said when slot 0 begins.
    Now,
}

// Whether ageing takes too few slots or too many.
fn is_out_of_range(ageing: Option<u32>) -> bool
    ensures { result ≡ is_out_of_range ageing }
{
    match ageing {
        Some(slots) => slots == 0 || 10_000 < slots,
        None => false,
    }
}

impl Asked {
    /// The first thing that cannot be.
    pub(crate) fn fault(&self, reserved: bool) -> Option<AskedFault>
        ensures { result ≡ fault_of self.entry.now reserved }
    {
        if self.slot == 0 || 1_000_000 < self.slot {
            Some(AskedFault::Slot)
        } else if self.window == 0 || 64 < self.window {
            Some(AskedFault::Window)
        } else if self.budget == 0 || 10_000 < self.budget {
            Some(AskedFault::Budget)
        } else if 10_000 < self.slack {
            Some(AskedFault::Slack)
        } else if is_out_of_range(self.ageing) {
            Some(AskedFault::Ageing)
        } else if reserved && self.now.is_none() {
            Some(AskedFault::Now)
        } else {
            None
        }
    }
}
