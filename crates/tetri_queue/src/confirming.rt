// A text that is read as the trace of a cycle.
ghost use Rattle.std.specs.Prelude.{◌≡◌, [], IfOk, IsTrue, map, slice_index_or};
ghost use Rattle.tetri_cluster.specs.Cluster.{names_of};
ghost use Rattle.tetri_queue.specs.Queues.{IsCycle, IsReadAs, header_of, wanted, wanted_of};
ghost use Rattle.tetri_trace.specs.Scenario.{scenario, submission};

use crate::gathering::{Cycle, TakenJob};
use crate::shelf::TextShelf;
use std::alloc::{AllocError, Global};
use tetri_cluster::{Cluster, Name, Sets};
use tetri_notice::Header;
use tetri_request::Ask;
use tetri_space::Closure;
use tetri_trace::{Event, Job, Trace, TraceFault, Work, read_trace};

fn same_name(read: &Name, meant: &Name) -> bool
    ensures { IsTrue result → read.now ≡ meant.now }
{
    read.bytes() == meant.bytes()
}

fn same_nodes(read: &Cluster, meant: &Cluster) -> bool
    ensures { IsTrue result → names_of read.now ≡ names_of meant.now }
{
    if read.count() != meant.count() {
        return false;
    }
    for node in 0..read.count() {
        if !same_name(read.name_of(node), meant.name_of(node)) {
            return false;
        }
    }
    true
}

fn same_closure(read: Closure, meant: Closure) -> bool
    ensures { IsTrue result → read ≡ meant }
{
    read == meant
}

fn same_closures(read: &[Closure], meant: &[Closure]) -> bool
    ensures { IsTrue result → read.now ≡ meant.now }
{
    if read.len() != meant.len() {
        return false;
    }
    for (i, closure) in read.iter().enumerate() {
        if !same_closure(*closure, meant[i]) {
            return false;
        }
    }
    true
}

fn same_event(read: Event, meant: Event) -> bool
    ensures { IsTrue result → read ≡ meant }
{
    read == meant
}

fn same_events(read: &[Event], meant: &[Event]) -> bool
    ensures { IsTrue result → read.now ≡ meant.now }
{
    if read.len() != meant.len() {
        return false;
    }
    for (i, event) in read.iter().enumerate() {
        if !same_event(*event, meant[i]) {
            return false;
        }
    }
    true
}

// The ask, where set 0 stands for its own.
fn without_set(ask: Ask) -> Ask
    ensures { result ≡ record ask { set = 0 } }
{
    Ask { set: 0, ..ask }
}

fn same_ask(read: Ask, meant: Ask) -> bool
    ensures { IsTrue result → read ≡ meant }
{
    read == meant
}

fn same_set(read: &[u32], meant: &[u32]) -> bool
    ensures { IsTrue result → read.now ≡ meant.now }
{
    read == meant
}

fn same_wish(sets: &Sets, read: Ask, meant: &TakenJob) -> bool
    ensures { IsTrue result → (record read { set = 0 } ≡ meant.now.ask) × (slice_index_or sets.now read.set [] ≡ meant.now.nodes) }
{
    read.set < sets.len()
        && same_ask(without_set(read), meant.ask)
        && same_set(sets.nodes_of(read.set).as_slice(), meant.nodes.as_slice())
}

fn same_job(sets: &Sets, read: &Job, meant: &TakenJob) -> bool
    ensures { IsTrue result → wanted_of sets.now (submission read.now) ≡ wanted meant.now }
{
    if read.arrival != 0 || read.late != 0 || !same_name(&read.name, &meant.name) {
        return false;
    }
    match &read.work {
        Work::Asked(ask) => same_wish(sets, *ask, meant),
        Work::Strl(_) => false,
    }
}

fn same_jobs(sets: &Sets, read: &[Job], meant: &[TakenJob]) -> bool
    ensures { IsTrue result → map (λ j. wanted_of sets.now (submission j)) read.now ≡ map wanted meant.now }
{
    if read.len() != meant.len() {
        return false;
    }
    for (i, job) in read.iter().enumerate() {
        if !same_job(sets, job, &meant[i]) {
            return false;
        }
    }
    true
}

fn same_wishes(sets: &Sets, read: &[Job], meant: &[TakenJob]) -> bool
    ensures { IsTrue result → map (wanted_of sets.now) (map submission read.now) ≡ map wanted meant.now }
{
    same_jobs(sets, read, meant)
}

fn same_header(header: Header, cycle: &Cycle) -> bool
    ensures { IsTrue result → header ≡ header_of cycle.now }
{
    header.window == cycle.window
        && header.budget == cycle.budget
        && header.until == 1
        && header.unit == 1
}

fn closures_agree(trace: &Trace, cycle: &Cycle) -> bool
    ensures { IsTrue result → (scenario trace.now).closures ≡ cycle.now.closures.items }
{
    same_closures(trace.closures.as_slice(), &cycle.closures)
}

fn jobs_agree(trace: &Trace, cycle: &Cycle) -> bool
    ensures { IsTrue result → map (wanted_of (scenario trace.now).sets) (scenario trace.now).submissions ≡ map wanted cycle.now.jobs.items }
{
    same_wishes(&trace.sets, trace.jobs.as_slice(), &cycle.jobs)
}

fn events_agree(trace: &Trace, cycle: &Cycle) -> bool
    ensures { IsTrue result → (scenario trace.now).events ≡ cycle.now.events.items }
{
    same_events(&trace.events, &cycle.events)
}

// Whether a trace is that of a cycle.
fn is_cycle(trace: &Trace, cycle: &Cycle) -> bool
    ensures { IsTrue result → IsCycle cycle.now (scenario trace.now) }
{
    if !same_header(trace.header, cycle) {
        return false;
    }
    if !same_nodes(&trace.cluster, &cycle.cluster) {
        return false;
    }
    if !closures_agree(trace, cycle) {
        return false;
    }
    if !jobs_agree(trace, cycle) {
        return false;
    }
    events_agree(trace, cycle)
}

/// Whether a text is read as the trace of a cycle. Its only error is want of memory.
pub(crate) fn is_read_as(alloc: Global, cycle: &Cycle, text: &str) -> Result<bool, AllocError>
    ensures { IfOk result (λ alike. IsTrue alike → IsReadAs cycle.now text.now) }
{
    let mut shelf = TextShelf {
        text: text.as_bytes(),
    };
    match read_trace(alloc, &mut shelf, "trace") {
        Ok(trace) => Ok(is_cycle(&trace, cycle)),
        Err(TraceFault::NoMemory) => Err(AllocError),
        Err(TraceFault::Bad { .. } | TraceFault::Read) => Ok(false),
    }
}
