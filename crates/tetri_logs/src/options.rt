// What a caller asks for, and what follows from it and the log.
ghost use Rattle.std.specs.Prelude.{◌≡◌, ◌≤◌, Bool, Err, List, ℕ, IfOk, IfSome};
ghost use Rattle.tetri_logs.specs.Options.{AreGood, cluster_of, early_fault, early_of, nodes_fault, processors_of, settings_of, within};
ghost use Rattle.tetri_logs.specs.Reading.{entries, facts_in, no_facts};
ghost use Rattle.tetri_logs.specs.declared.entry.Format.{Format};

use crate::reading::{Facts, NO_FACTS};
use tetri_request::Class;

/// How the worth of a job is made.
#[derive(Clone, Copy, Debug, PartialEq, Eq)]
pub enum Worth {
    /// Its nodes times its slots.
    NodeSlots,
    /// 1 for each job.
    Job,
}

/// What a caller asks for.
#[derive(Clone, Copy, Debug, PartialEq, Eq)]
pub struct Options {
    /// The seconds of a slot, 1 to 1,000,000.
    pub slot: u32,
    /// The processors of a node; by default what the log says of them.
    pub processors: Option<u32>,
    /// How many nodes there are, 1 to 4,096; by default what the log says.
    pub nodes: Option<u32>,
    /// In how many slots leaves may start, 1 to 64.
    pub window: u32,
    /// How many nodes a search tree may have, 1 to 10,000.
    pub budget: u32,
    /// What each worth is multiplied by, 1 to 1,000,000.
    pub unit: u32,
    /// The first second since 1970 of the part that is wanted.
    pub from: Option<u32>,
    /// The second since 1970 with which that part ends.
    pub to: Option<u32>,
    /// How many jobs are wanted at most.
    pub jobs: Option<u32>,
    pub worth: Worth,
    /// How many slots longer than it asks for a job may take from its arrival to its end, at most 10,000.
    pub slack: u32,
    pub class: Class,
    /// Whether jobs that ask for fewer processors than a node has are left out. Else they take a whole node.
    pub whole_nodes_only: bool,
}

/// Why a log is not imported as asked for.
#[derive(Clone, Copy, Debug, PartialEq, Eq)]
pub enum OptionFault {
    Slot,
    Processors,
    Window,
    Budget,
    Unit,
    Slack,
    /// The caller asks for more than 4,096 nodes or none.
    Nodes,
    /// The caller does not say how many nodes there are, and the log does not say it, or says more than 4,096 or none.
    LogNodes,
}

/// How jobs become a trace: what was asked for, and what the log says.
#[derive(Clone, Copy, Debug, PartialEq, Eq)]
pub struct Settings {
    pub slot: u32,
    pub processors: u32,
    pub nodes: u32,
    pub window: u32,
    pub budget: u32,
    pub unit: u32,
    /// The second since 1970 with which the log's clock begins.
    pub start: u32,
    /// The second since 1970 with which slot 0 begins.
    pub origin: u64,
    pub from: u64,
    pub to: u64,
    pub most: u32,
    pub worth: Worth,
    pub slack: u32,
    pub class: Class,
    pub whole_nodes_only: bool,
}

// The number, if it is within its limits.
fn within(number: u32, low: u32, high: u32, fault: OptionFault) -> Result<u32, OptionFault>
    ensures value { result ≡ within number low high fault }
    ensures good { IfOk result (λ n. (low ≤ n) × (n ≤ high)) }
{
    if low <= number && number <= high {
        Ok(number)
    } else {
        Err(fault)
    }
}

// The processors of a node: by default so many that the log's nodes have the log's processors.
fn processors_of(options: &Options, facts: Facts) -> u32
    ensures { result ≡ processors_of options.now facts }
{
    match (options.processors, facts.processors, facts.nodes) {
        (Some(processors), _, _) => processors,
        (None, Some(processors), Some(nodes)) if nodes > 0 => (processors / nodes).max(1),
        _ => 1,
    }
}

// The number of nodes, of so many processors each: by default what the log says of them.
fn cluster_of(options: &Options, facts: Facts, processors: u32) -> u32
    requires { 1 ≤ processors }
    ensures { result ≡ cluster_of options.now facts processors }
{
    match (
        options.nodes,
        options.processors,
        facts.nodes,
        facts.processors,
    ) {
        (Some(nodes), _, _, _) => nodes,
        (None, Some(_), _, Some(all)) => all / processors,
        (None, Some(_), nodes, None) => nodes.unwrap_or(0),
        (None, None, Some(nodes), _) => nodes,
        (None, None, None, all) => all.unwrap_or(0) / processors,
    }
}

// Whose number of nodes it is that cannot be.
fn nodes_fault(given: Option<u32>) -> OptionFault
    ensures { result ≡ nodes_fault given }
{
    match given {
        Some(_) => OptionFault::Nodes,
        None => OptionFault::LogNodes,
    }
}

/// How jobs become a trace, where slot 0 is not known. The first option that cannot be is its fault.
#[tactic(auto, unfolding(crate::specs::Options::settings_of))]
pub fn settings_of(options: &Options, facts: Facts) -> Result<Settings, OptionFault>
    ensures value { result ≡ settings_of options.now facts }
    ensures good { IfOk result AreGood }
{
    let slot = within(options.slot, 1, 1_000_000, OptionFault::Slot)?;
    let processors = processors_of(options, facts);
    let processors = within(processors, 1, u32::MAX, OptionFault::Processors)?;
    let nodes = cluster_of(options, facts, processors);
    let nodes = within(nodes, 1, 4096, nodes_fault(options.nodes))?;
    let window = within(options.window, 1, 64, OptionFault::Window)?;
    let budget = within(options.budget, 1, 10_000, OptionFault::Budget)?;
    let unit = within(options.unit, 1, 1_000_000, OptionFault::Unit)?;
    let slack = within(options.slack, 0, 10_000, OptionFault::Slack)?;
    let from = options.from.unwrap_or(0);
    let to = match options.to {
        Some(to) => u64::from(to),
        None => u64::MAX,
    };
    Ok(Settings {
        slot,
        processors,
        nodes,
        window,
        budget,
        unit,
        start: facts.start,
        origin: 0,
        from: u64::from(from),
        to,
        most: options.jobs.unwrap_or(u32::MAX),
        worth: options.worth,
        slack,
        class: options.class,
        whole_nodes_only: options.whole_nodes_only,
    })
}

// What a fault says where no log is read: a log may say how many nodes there are.
fn early_of(settings: Result<Settings, OptionFault>) -> Option<OptionFault>
    ensures { result ≡ early_of settings }
{
    match settings {
        Ok(_) | Err(OptionFault::LogNodes) => None,
        Err(fault) => Some(fault),
    }
}

/// The first option that cannot be, where that is known before a log is read.
pub fn early_fault(options: &Options) -> Option<OptionFault>
    ensures value { result ≡ early_fault options.now }
    ensures early { IfSome result (λ fault. (mixed : Bool) → (format : Format) → (log : List ℕ)
        → settings_of options.now (facts_in no_facts (entries mixed format log)) ≡ Err fault) }
{
    early_of(settings_of(options, NO_FACTS))
}
