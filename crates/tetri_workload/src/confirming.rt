// A text that is read as the trace which it is to say.
ghost use Rattle.std.specs.Prelude.{◌≡◌, ◌↔◌, All, IsTrue, OnOk, Some, map, IfOk};
ghost use Rattle.tetri_cluster.specs.Cluster.{names_of};
ghost use Rattle.tetri_trace.specs.Scenario.{demand_of, scenario, submission};
ghost use Rattle.tetri_workload.specs.Saying.{AreSeated, IsAsked, IsReadAs, Says, SaysMost, bare, bare_ask, bare_demand, header_of, nodes_asked, nodes_by, nodes_wanted};
ghost use Rattle.tetri_workload.specs.Known.{AreKnown};
ghost use Rattle.tetri_workload.specs.Taking.{so_far};

use crate::kinds::{Kinds, are_mixed};
use crate::shelf::TextShelf;
use crate::taking::Taken;
use std::alloc::{AllocError, Global};
use tetri_cluster::{Cluster, Name, NodeSet, NodeText, Sets};
use tetri_logs::{SetText, Settings};
use tetri_request::Ask;
use tetri_trace::{Event, Header, Job, Trace, TraceFault, Work, read_trace};

fn same_name(read: &Name, meant: &Name) -> bool
    ensures { IsTrue result ↔ (read.now ≡ meant.now) }
{
    read.bytes() == meant.bytes()
}

fn same_ask(read: Ask, meant: Ask) -> bool
    ensures { IsTrue result ↔ (read ≡ meant) }
{
    read == meant
}

// An ask, where set 0 stands for its own if nodes differ.
fn bare_ask(mixed: bool, ask: Ask) -> Ask
    ensures { result ≡ bare_ask mixed ask }
{
    if mixed {
        return Ask { set: 0, ..ask };
    }
    ask
}

fn same_work(mixed: bool, read: &Work, meant: &Work) -> bool
    requires { IsAsked (demand_of meant.now) }
    ensures { IsTrue result ↔ (bare_demand mixed (demand_of read.now) ≡ demand_of meant.now) }
{
    match (read, meant) {
        (Work::Asked(one), Work::Asked(other)) => same_ask(bare_ask(mixed, *one), *other),
        _ => false,
    }
}

fn same_job(mixed: bool, read: &Job, meant: &Job) -> bool
    requires { IsAsked (demand_of meant.now.work) }
    ensures { IsTrue result ↔ (bare mixed (submission read.now) ≡ submission meant.now) }
{
    read.arrival == meant.arrival
        && read.late == meant.late
        && same_name(&read.name, &meant.name)
        && same_work(mixed, &read.work, &meant.work)
}

fn same_jobs(mixed: bool, read: &[Job], meant: &[Job]) -> bool
    requires { All (λ u. IsAsked u.demand) (map submission meant.now) }
    ensures { IsTrue result ↔ (map (λ j. bare mixed (submission j)) read.now ≡ map submission meant.now) }
{
    if read.len() != meant.len() {
        return false;
    }
    for (i, job) in read.iter().enumerate() {
        if !same_job(mixed, job, &meant[i]) {
            return false;
        }
    }
    true
}

fn same_submissions(mixed: bool, read: &[Job], meant: &[Job]) -> bool
    requires { All (λ u. IsAsked u.demand) (map submission meant.now) }
    ensures { IsTrue result ↔ (map (bare mixed) (map submission read.now) ≡ map submission meant.now) }
{
    same_jobs(mixed, read, meant)
}

// Whether two clusters have the same nodes by their names.
#[tactic(auto, using(crate::proofs::SameLemmas::name_more))]
fn same_names(read: &Cluster, meant: &[NodeText]) -> bool
    ensures { IsTrue result ↔ (names_of read.now ≡ names_of meant.now) }
{
    if read.count() as usize != meant.len() {
        return false;
    }
    for node in 0..read.count() {
        if !same_name(read.name_of(node), &meant[node as usize].name) {
            return false;
        }
    }
    true
}

fn same_set(read: &[u32], meant: &[u32]) -> bool
    ensures { IsTrue result ↔ (read.now ≡ meant.now) }
{
    read == meant
}

// Whether these are the nodes that a job may use.
fn may_use(sets: &Sets, work: &Work, nodes: &NodeSet) -> bool
    ensures { IsTrue result ↔ (nodes_by sets.now (demand_of work.now) ≡ Some nodes.now) }
{
    match work {
        Work::Asked(ask) => {
            ask.set < sets.len() && same_set(sets.nodes_of(ask.set).as_slice(), nodes.as_slice())
        }
        Work::Strl(_) => false,
    }
}

// Whether a job may use the nodes of a set.
fn has_seat(
    alloc: Global,
    kinds: &mut Kinds,
    nodes: &[NodeText],
    sets: &Sets,
    job: &Job,
    set: &SetText,
) -> Result<bool, AllocError>
    requires { AreKnown nodes.now kinds.old }
    ensures known { OnOk result (AreKnown nodes.now kinds.new) }
    ensures seat { IfOk result (λ alike. IsTrue alike ↔ (nodes_asked sets.now (submission job.now) ≡ nodes_wanted nodes.now set.now)) }
{
    let number = kinds.number(alloc, nodes, set.text().as_bytes())?;
    Ok(may_use(sets, &job.work, kinds.nodes_of(number)))
}

// Whether each job may use the nodes of its set.
fn have_seats(
    alloc: Global,
    kinds: &mut Kinds,
    nodes: &[NodeText],
    sets: &Sets,
    jobs: &[Job],
    wanted: &[SetText],
) -> Result<bool, AllocError>
    requires { AreKnown nodes.now kinds.old }
    ensures { IfOk result (λ alike. IsTrue alike ↔ (map (λ j. nodes_asked sets.now (submission j)) jobs.now ≡ map (nodes_wanted nodes.now) wanted.now)) }
{
    if jobs.len() != wanted.len() {
        return Ok(false);
    }
    for (i, job) in jobs.iter().enumerate() {
        let alike = has_seat(alloc, kinds, nodes, sets, job, &wanted[i])?;
        if !alike {
            return Ok(false);
        }
    }
    Ok(true)
}

// The same in the trace's own words.
fn have_all_seats(
    alloc: Global,
    kinds: &mut Kinds,
    nodes: &[NodeText],
    sets: &Sets,
    jobs: &[Job],
    wanted: &[SetText],
) -> Result<bool, AllocError>
    requires { AreKnown nodes.now kinds.old }
    ensures { IfOk result (λ alike. IsTrue alike ↔ (map (nodes_asked sets.now) (map submission jobs.now) ≡ map (nodes_wanted nodes.now) wanted.now)) }
{
    have_seats(alloc, kinds, nodes, sets, jobs, wanted)
}

fn same_event(read: Event, meant: Event) -> bool
    ensures { IsTrue result ↔ (read ≡ meant) }
{
    read == meant
}

fn same_events(read: &[Event], meant: &[Event]) -> bool
    ensures { IsTrue result ↔ (read.now ≡ meant.now) }
{
    if read.len() != meant.len() {
        return false;
    }
    for (i, event) in read.iter().enumerate() {
        if !same_event(*event, meant[i]) {
            return false;
        }
    }
    true
}

fn same_header(header: Header, settings: &Settings, until: u32) -> bool
    ensures { IsTrue result ↔ (header ≡ header_of settings.now until) }
{
    header.window == settings.window
        && header.budget == settings.budget
        && header.until == until
        && header.unit == u64::from(settings.unit)
}

// Whether a trace says what was taken, but for the nodes that a job may use.
fn says_most(trace: &Trace, settings: &Settings, mixed: bool, taken: &Taken) -> bool
    requires { All (λ u. IsAsked u.demand) (so_far taken.now).jobs }
    ensures { IsTrue result ↔ SaysMost settings.now mixed (so_far taken.now) (scenario trace.now) }
{
    same_header(trace.header, settings, taken.until)
        && trace.cluster.count() == settings.nodes
        && same_submissions(mixed, trace.jobs.as_slice(), taken.jobs.as_slice())
        && same_events(&trace.events, &taken.events)
}

// Whether a trace has the nodes that are given, and each job may use those of its set.
fn is_seated(
    alloc: Global,
    kinds: &mut Kinds,
    nodes: &[NodeText],
    trace: &Trace,
    taken: &Taken,
) -> Result<bool, AllocError>
    requires { AreKnown nodes.now kinds.old }
    ensures { IfOk result (λ alike. IsTrue alike ↔ AreSeated nodes.now (so_far taken.now).sets (scenario trace.now)) }
{
    if !are_mixed(nodes) {
        return Ok(true);
    }
    if !same_names(&trace.cluster, nodes) {
        return Ok(false);
    }
    have_all_seats(
        alloc,
        kinds,
        nodes,
        &trace.sets,
        trace.jobs.as_slice(),
        &taken.sets,
    )
}

// Whether a trace says what was taken.
fn says(
    alloc: Global,
    kinds: &mut Kinds,
    trace: &Trace,
    settings: &Settings,
    nodes: &[NodeText],
    taken: &Taken,
) -> Result<bool, AllocError>
    requires known { AreKnown nodes.now kinds.old }
    requires asked { All (λ u. IsAsked u.demand) (so_far taken.now).jobs }
    ensures { IfOk result (λ alike. IsTrue alike ↔ Says settings.now nodes.now (so_far taken.now) (scenario trace.now)) }
{
    if !says_most(trace, settings, are_mixed(nodes), taken) {
        return Ok(false);
    }
    is_seated(alloc, kinds, nodes, trace, taken)
}

/// Whether a text is read as the trace that says what was taken. Its only error is want of memory.
pub(crate) fn is_read_as(
    alloc: Global,
    kinds: &mut Kinds,
    settings: &Settings,
    nodes: &[NodeText],
    taken: &Taken,
    text: &str,
) -> Result<bool, AllocError>
    requires known { AreKnown nodes.now kinds.old }
    requires asked { All (λ u. IsAsked u.demand) (so_far taken.now).jobs }
    ensures { IfOk result (λ alike. IsTrue alike ↔ IsReadAs settings.now nodes.now (so_far taken.now) text.now) }
{
    let mut shelf = TextShelf {
        text: text.as_bytes(),
    };
    match read_trace(alloc, &mut shelf, "trace") {
        Ok(trace) => says(alloc, kinds, &trace, settings, nodes, taken),
        Err(TraceFault::NoMemory) => Err(AllocError),
        Err(TraceFault::Bad { .. } | TraceFault::Read) => Ok(false),
    }
}
