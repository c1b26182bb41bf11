// What a report says.
use tetri_cert::{Certificate, PlanMark};
use tetri_state::Happened;
use tetri_strl::Allotment;

/// A cycle of a run: its number, what happened at its beginning, its plan and what was launched. `starts` has
/// one slot for each grant, and `launched` the numbers of jobs, ascending. Worths are whole numbers, `nodes`
/// counts the nodes of the certificate's tree other than rests.
#[derive(Drop)]
pub struct Cycle {
    pub number: u32,
    pub happened: Happened,
    pub value: u64,
    pub bound: u64,
    pub mark: PlanMark,
    pub nodes: u32,
    pub grants: Allotment,
    pub starts: Vec<u32>,
    pub certificate: Certificate,
    pub launched: Vec<u32>,
}

/// A cycle without its certificate, which may be far longer than all else.
#[derive(Drop)]
pub struct Head {
    pub number: u32,
    pub happened: Happened,
    pub value: u64,
    pub bound: u64,
    pub mark: PlanMark,
    pub nodes: u32,
    pub grants: Allotment,
    pub starts: Vec<u32>,
    pub launched: Vec<u32>,
}

/// A run in numbers: its cycles, the jobs that were launched, that ended, that were cancelled and that
/// expired, the worth of the launched jobs, and the cycles whose plan is optimal.
#[derive(Clone, Copy, Debug, PartialEq, Eq)]
pub struct Summary {
    pub cycles: u64,
    pub launched: u64,
    pub ended: u64,
    pub cancelled: u64,
    pub expired: u64,
    pub worth: u128,
    pub optimal: u64,
}
