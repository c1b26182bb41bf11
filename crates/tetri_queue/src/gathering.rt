// What is gathered of a queue for one cycle.
ghost use Rattle.std.specs.Prelude.{◌≡◌, ◌+◌, ◌&&◌, IfOk, OnOk, false, is_ok, length};
ghost use Rattle.tetri_base.specs.Lists.{bit};
ghost use Rattle.tetri_queue.specs.Arrays.{is_full, throttles, with_used_if};
ghost use Rattle.tetri_queue.specs.Queues.{is_taken};
ghost use Rattle.tetri_queue.specs.Worths.{aged_worth, value_of, waited_of, worth_of};

use crate::arrays::Limits;
use crate::asked::{Asked, QueueWorth};
use crate::cause::{Cause, Fate, ReservationFate};
use crate::constraint::{Shape, key_of, mark_hosts, shape_of};
use crate::line::{Said, Waiting, said_of};
use crate::reserved::{Reserved, reserved_of};
use crate::span::slots_of;
use std::alloc::{AllocError, Global};
use tetri_cluster::{Cluster, Name, NameTable, NodeSet};
use tetri_hosts::{NodeState, columns_of};
use tetri_request::Ask;
use tetri_space::Closure;
use tetri_trace::{Event, Happening};

// The jobs, the sets and the closures that a trace has at most, and the greatest worth.
const MOST_JOBS: usize = 100_000;

const MOST_SETS: usize = 4096;

const MOST_CLOSURES: usize = 4096;

const PEAK: u64 = 1_000_000_000_000;

/// A job that is taken: its name, what it asks for, where set 0 stands for its own, and the nodes that it may use.
#[derive(Drop)]
pub struct TakenJob {
    pub name: Name,
    pub ask: Ask,
    pub nodes: NodeSet,
    /// The text of the set of these nodes.
    pub set: String,
}

/// What one cycle plans for: the nodes, the slots in which they are closed, the jobs, and what happens in its slot.
#[derive(Drop)]
pub struct Cycle {
    pub window: u32,
    pub budget: u32,
    pub cluster: Cluster,
    pub closures: Vec<Closure>,
    pub jobs: Vec<TakenJob>,
    /// Nodes that take no jobs are drained, and each job arrives.
    pub events: Vec<Event>,
}

/// What is gathered so far.
#[derive(Drop)]
pub(crate) struct Gathering {
    asked: Asked,
    // For each node in how many slots from slot 0 on it is closed, and whether it takes no jobs.
    closed: Vec<u32>,
    shut: Vec<bool>,
    later: Vec<Closure>,
    keys: NameTable,
    shapes: Vec<Result<Shape, Cause>>,
    names: NameTable,
    limits: Limits,
    pub(crate) jobs: Vec<TakenJob>,
}

// What a job asks for.
fn ask_of(asked: &Asked, job: &Waiting<'_>) -> Ask
    ensures { result.value ≡ value_of asked.entry.now job.now.width result.dur job.now.priority job.now.submitted }
{
    let slots = slots_of(job.limit, asked.slot);
    let worth = worth_of(asked.worth, job.width, slots, job.priority);
    let waited = waited_of(asked.slot, asked.now, job.submitted);
    Ask {
        k: job.width,
        set: 0,
        dur: slots,
        value: aged_worth(asked.ageing, waited, worth),
        deadline: slots.saturating_add(asked.slack),
        prefer: None,
        class: asked.class,
        elastic: false,
    }
}

// What a job is worth that has not waited.
fn worth_of(worth: QueueWorth, nodes: u32, slots: u32, priority: u32) -> u64
    ensures { result ≡ worth_of worth nodes slots priority }
{
    match worth {
        QueueWorth::NodeSlots => u64::from(nodes) * u64::from(slots),
        QueueWorth::Priority => u64::from(priority.max(1)),
    }
}

// For how many slots a job has waited.
fn waited_of(slot: u32, now: Option<u32>, submitted: Option<u32>) -> u32
    ensures { result ≡ waited_of slot now submitted }
{
    match (now, submitted) {
        (Some(now), Some(submitted)) => now.saturating_sub(submitted) / slot.max(1),
        _ => 0,
    }
}

// A worth behind so many slots of waiting.
fn aged_worth(ageing: Option<u32>, waited: u32, worth: u64) -> u64
    ensures { result ≡ aged_worth ageing waited worth }
{
    let worth = u128::from(worth);
    let aged = match ageing {
        Some(slots) => {
            let slots = u128::from(slots.max(1));
            worth * (slots + u128::from(waited)) / slots
        }
        None => worth,
    };
    aged.min(u128::from(PEAK)) as u64
}

impl Gathering {
    /// Nothing but the nodes, which have these states, and the limits of arrays.
    pub(crate) fn new(
        alloc: Global,
        asked: Asked,
        states: &[NodeState],
        limits: Limits,
    ) -> Result<Gathering, AllocError>
        ensures { IfOk result (λ g. length g.jobs.items ≡ 0) }
    {
        let mut closed = Vec::new(alloc);
        let mut shut = Vec::new(alloc);
        for state in states {
            closed.push(if *state == NodeState::Taken { 1 } else { 0 })?;
            shut.push(*state == NodeState::Shut)?;
        }
        Ok(Gathering {
            asked,
            closed,
            shut,
            later: Vec::new(alloc),
            keys: NameTable::new(alloc),
            shapes: Vec::new(alloc),
            names: NameTable::new(alloc),
            limits,
            jobs: Vec::new(alloc),
        })
    }

    // Closes a node for so many slots from slot 0 on.
    fn close(&mut self, node: usize, slots: u32)
        ensures { self.new.jobs.items ≡ self.old.jobs.items }
    {
        if node < self.closed.len() {
            self.closed[node] = self.closed[node].max(slots);
        }
    }

    // Closes hosts for so many seconds. False where this is no list of hosts.
    fn close_hosts(
        &mut self,
        alloc: Global,
        cluster: &Cluster,
        hosts: &[u8],
        seconds: u64,
    ) -> Result<bool, AllocError>
        ensures { OnOk result (self.new.jobs.items ≡ self.old.jobs.items) }
    {
        let slots = slots_of(seconds, self.asked.slot);
        let mut marked = vec![in alloc; false; self.closed.len()]?;
        if !mark_hosts(alloc, cluster, hosts, &mut marked)? {
            return Ok(false);
        }
        for node in 0..marked.len() {
            if marked[node] {
                self.close(node, slots);
            }
        }
        Ok(true)
    }

    // The number of the shape of a kind, which is made where it is new. None where there are as many as can be.
    fn shape_number(
        &mut self,
        alloc: Global,
        cluster: &Cluster,
        job: &Waiting<'_>,
    ) -> Result<Option<usize>, AllocError>
        ensures jobs { OnOk result (self.new.jobs.items ≡ self.old.jobs.items) }
        ensures limits { OnOk result (throttles self.new.limits ≡ throttles self.old.limits) }
    {
        let key = key_of(alloc, job.kind)?;
        if let Some(number) = self.keys.number(&key) {
            return Ok(Some(number));
        }
        if MOST_SETS <= self.shapes.len() {
            return Ok(None);
        }
        let shape = shape_of(alloc, cluster, job.kind)?;
        let number = self.shapes.len();
        self.shapes.push(shape)?;
        self.keys.add(&key)?;
        Ok(Some(number))
    }

    // The shape of the nodes that a job may use, if it is taken: its name and its array count it then. Else why it is left out.
    fn shape_for(
        &mut self,
        alloc: Global,
        cluster: &Cluster,
        job: &Waiting<'_>,
    ) -> Result<Result<Shape, Cause>, AllocError>
        ensures jobs { OnOk result (self.new.jobs.items ≡ self.old.jobs.items) }
        ensures room { IfOk result (λ shape. (is_ok shape && is_full (throttles self.old.limits) job.now.name) ≡ false) }
        ensures counted { IfOk result (λ shape. throttles self.new.limits ≡ with_used_if (is_ok shape) (throttles self.old.limits) job.now.name) }
    {
        let number = match self.shape_number(alloc, cluster, job)? {
            Some(number) if number < self.shapes.len() => number,
            _ => return Ok(Err(Cause::Beyond)),
        };
        let shape = match &self.shapes[number] {
            Ok(shape) => shape,
            Err(cause) => return Ok(Err(*cause)),
        };
        if shape.nodes.as_slice().len() < job.width as usize {
            return Ok(Err(Cause::TooLarge));
        }
        if self.limits.is_full(job.name.bytes()) {
            return Ok(Err(Cause::Throttled));
        }
        if MOST_JOBS <= self.jobs.len() {
            return Ok(Err(Cause::Beyond));
        }
        if !self.names.add(job.name.bytes())? {
            return Ok(Err(Cause::Repeated));
        }
        self.limits.count(job.name.bytes());
        Ok(Ok(shape.copied(alloc)?))
    }

    // What becomes of a job that waits for an order. A task is taken only where its array has room for it, and counts there.
    fn take(
        &mut self,
        alloc: Global,
        cluster: &Cluster,
        job: Waiting<'_>,
    ) -> Result<Fate, AllocError>
        ensures jobs { IfOk result (λ fate. length self.new.jobs.items ≡ length self.old.jobs.items + bit (is_taken fate)) }
        ensures room { IfOk result (λ fate. (is_taken fate && is_full (throttles self.old.limits) job.entry.name) ≡ false) }
        ensures counted { IfOk result (λ fate. throttles self.new.limits ≡ with_used_if (is_taken fate) (throttles self.old.limits) job.entry.name) }
    {
        let shape = match self.shape_for(alloc, cluster, &job)? {
            Ok(shape) => shape,
            Err(cause) => return Ok(Fate::Left(cause)),
        };
        let ask = ask_of(&self.asked, &job);
        self.jobs.push(TakenJob {
            name: job.name,
            ask,
            nodes: shape.nodes,
            set: shape.text,
        })?;
        Ok(Fate::Taken)
    }

    // What becomes of what a line says.
    fn fate_of(
        &mut self,
        alloc: Global,
        cluster: &Cluster,
        said: Said<'_>,
    ) -> Result<Fate, AllocError>
        ensures { IfOk result (λ fate. length self.new.jobs.items ≡ length self.old.jobs.items + bit (is_taken fate)) }
    {
        match said {
            Said::Asks(job) => self.take(alloc, cluster, job),
            Said::Holds(hosts, seconds, runs) => {
                if !self.close_hosts(alloc, cluster, hosts, seconds)? {
                    return Ok(Fate::Left(Cause::Unreadable));
                }
                Ok(if runs { Fate::Running } else { Fate::Released })
            }
            Said::Left(cause) => Ok(Fate::Left(cause)),
        }
    }

    /// What becomes of one line of the queue more.
    pub(crate) fn add_line(
        &mut self,
        alloc: Global,
        cluster: &Cluster,
        line: &[u8],
    ) -> Result<Fate, AllocError>
        ensures { IfOk result (λ fate. length self.new.jobs.items ≡ length self.old.jobs.items + bit (is_taken fate)) }
    {
        if line.is_empty() {
            return Ok(Fate::Blank);
        }
        let columns = columns_of(alloc, line)?;
        let said = said_of(alloc, &columns, self.asked.whole)?;
        self.fate_of(alloc, cluster, said)
    }

    // Closes hosts in these slots. False where this is no list of hosts.
    fn close_later(
        &mut self,
        alloc: Global,
        cluster: &Cluster,
        reserved: &Reserved<'_>,
    ) -> Result<bool, AllocError>
        ensures { OnOk result (self.new.jobs.items ≡ self.old.jobs.items) }
    {
        let mut marked = vec![in alloc; false; self.closed.len()]?;
        if !mark_hosts(alloc, cluster, reserved.hosts, &mut marked)? {
            return Ok(false);
        }
        for node in 0..marked.len() {
            if marked[node] && node < MOST_CLOSURES {
                if reserved.from == 0 {
                    self.close(node, reserved.to.saturating_add(1));
                } else {
                    self.later.push(Closure {
                        node: node as u32,
                        from: reserved.from,
                        to: reserved.to,
                    })?;
                }
            }
        }
        Ok(true)
    }

    /// What becomes of one line more that tells of a reservation.
    pub(crate) fn add_reservation(
        &mut self,
        alloc: Global,
        cluster: &Cluster,
        line: &[u8],
    ) -> Result<ReservationFate, AllocError>
        ensures { OnOk result (self.new.jobs.items ≡ self.old.jobs.items) }
    {
        match reserved_of(alloc, line, &self.asked)? {
            Ok(reserved) => {
                if self.close_later(alloc, cluster, &reserved)? {
                    Ok(ReservationFate::Closed)
                } else {
                    Ok(ReservationFate::Unread)
                }
            }
            Err(fate) => Ok(fate),
        }
    }

    /// What is planned for of all this but the jobs: the closures, by node those from slot 0 on first, and how many nodes are drained since
    /// there are more of them than a trace may have; and what happens.
    pub(crate) fn planned(&mut self, alloc: Global) -> Result<Planned, AllocError>
        ensures { OnOk result (self.new.jobs.items ≡ self.old.jobs.items) }
    {
        let mut closures = closures_of(alloc, &self.closed)?;
        let crowded = add_later(&self.later, &mut closures, &mut self.shut)?;
        let events = events_of(alloc, &self.shut, self.jobs.len())?;
        Ok(Planned {
            closures,
            events,
            crowded,
        })
    }
}

/// What is planned for but the jobs.
#[derive(Drop)]
pub(crate) struct Planned {
    pub(crate) closures: Vec<Closure>,
    pub(crate) events: Vec<Event>,
    pub(crate) crowded: usize,
}

// A closure from slot 0 on of each node that is closed then.
fn closures_of(alloc: Global, closed: &[u32]) -> Result<Vec<Closure>, AllocError> {
    let mut closures = Vec::new(alloc);
    for (node, slots) in closed.iter().enumerate() {
        if *slots != 0 && node < MOST_CLOSURES {
            closures.push(Closure {
                node: node as u32,
                from: 0,
                to: *slots - 1,
            })?;
        }
    }
    Ok(closures)
}

// Adds closures while there may be more; the nodes of the others take no jobs. Says how many these are.
fn add_later(
    later: &[Closure],
    closures: &mut Vec<Closure>,
    shut: &mut [bool],
) -> Result<usize, AllocError> {
    let mut crowded = 0usize;
    for closure in later {
        let node = closure.node as usize;
        if closures.len() < MOST_CLOSURES {
            closures.push(*closure)?;
        } else if node < shut.len() && !shut[node] {
            shut[node] = true;
            crowded = crowded.saturating_add(1);
        }
    }
    Ok(crowded)
}

// Nodes that take no jobs are drained, and then the jobs arrive.
fn events_of(alloc: Global, shut: &[bool], jobs: usize) -> Result<Vec<Event>, AllocError> {
    let mut events = Vec::new(alloc);
    for (node, is_shut) in shut.iter().enumerate() {
        if *is_shut && node < MOST_CLOSURES {
            events.push(Event {
                at: 0,
                what: Happening::Drain(node as u32),
            })?;
        }
    }
    for job in 0..jobs.min(MOST_JOBS) {
        events.push(Event {
            at: 0,
            what: Happening::Arrive(job as u32),
        })?;
    }
    Ok(events)
}
