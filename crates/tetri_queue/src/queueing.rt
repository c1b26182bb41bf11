// From a queue to the trace of one cycle.
ghost use Rattle.std.specs.Prelude.{◌≡◌, ◌+◌, IfOk, IfSome, IsTrue, None, OnOk, is_some, length, string_bytes};
ghost use Rattle.tetri_base.specs.Lists.{count};
ghost use Rattle.tetri_hosts.specs.Nodes.{nodes_in, told};
ghost use Rattle.tetri_io.specs.Words.{parts_at};
ghost use Rattle.tetri_queue.specs.Queues.{AnswersQueue, IsReadAs, are_nodes, fault_in, is_taken};

use crate::arrays::Limits;
use crate::asked::{Asked, AskedFault};
use crate::cause::{Fate, ReservationFate};
use crate::confirming::is_read_as;
use crate::gathering::{Cycle, Gathering, Planned, TakenJob};
use crate::text::{nodes_text, write_trace};
use std::alloc::{AllocError, Global};
use tetri_cluster::{Cluster, ClusterFault, NodeText};
use tetri_hosts::{NodeFate, NodeState, Nodes, read_nodes};
use tetri_io::parts_at;

/// Why a queue does not become a trace.
#[derive(Clone, Copy, Debug, PartialEq, Eq)]
pub enum QueueFault {
    /// What is asked for cannot be.
    Asked(AskedFault),
    /// There is no node, or there are more than 4,096.
    Nodes,
    /// The trace that was made is not read as it should be.
    Unlike,
    NoMemory,
}

impl From<AllocError> for QueueFault {
    ghost use Rattle.std.specs.Prelude.{◌≡◌};
    ghost use Rattle.tetri_queue.specs.declared.queueing.QueueFault.TheVariants as fault;

    ghost from_gives = { λ _ e. e ≡ fault.NoMemory };

    fn from(_: AllocError) -> Self {
        QueueFault::NoMemory
    }
}

/// The lines that tell of a queue, as a resource manager prints them.
#[derive(Clone, Copy)]
pub struct QueueTexts<'a> {
    pub jobs: &'a [u8],
    /// The identifiers of pending arrays, as `6_[0-3%2]`: how many tasks of each may run at once.
    pub arrays: &'a [u8],
    pub nodes: &'a [u8],
    pub reservations: &'a [u8],
}

/// A trace that was made of a queue.
#[derive(Drop)]
pub struct Queue {
    pub trace: String,
    /// What the trace says.
    pub cycle: Cycle,
    /// What becomes of each line of the queue, and of what stands behind its last line feed.
    pub fates: Vec<Fate>,
    /// The same of each line that tells of a node.
    pub nodes: Vec<NodeFate>,
    /// The same of each line that tells of a reservation.
    pub reservations: Vec<ReservationFate>,
    /// How many nodes are drained since there are more closures than a trace may have.
    pub crowded: usize,
}

// What becomes of the lines of a queue.
#[tactic(auto, using(crate::proofs::CountLemmas::count_push))]
fn add_lines(
    alloc: Global,
    cluster: &Cluster,
    gathering: &mut Gathering,
    text: &[u8],
) -> Result<Vec<Fate>, AllocError>
    ensures lines { IfOk result (λ fates. length fates.items ≡ length (parts_at 10 text.now)) }
    ensures taken { IfOk result (λ fates. length gathering.new.jobs.items ≡ length gathering.old.jobs.items + count is_taken fates.items) }
{
    let lines = parts_at(alloc, b'\n', text)?;
    let mut fates = Vec::new(alloc);
    for line in &lines {
        fates.push(gathering.add_line(alloc, cluster, line)?)?;
    }
    Ok(fates)
}

// What becomes of the lines that tell of reservations.
fn add_reservations(
    alloc: Global,
    cluster: &Cluster,
    gathering: &mut Gathering,
    text: &[u8],
) -> Result<Vec<ReservationFate>, AllocError>
    ensures lines { IfOk result (λ fates. length fates.items ≡ length (parts_at 10 text.now)) }
    ensures same { OnOk result (gathering.new.jobs.items ≡ gathering.old.jobs.items) }
{
    let lines = parts_at(alloc, b'\n', text)?;
    let mut fates = Vec::new(alloc);
    for line in &lines {
        fates.push(gathering.add_reservation(alloc, cluster, line)?)?;
    }
    Ok(fates)
}

// What becomes of each line of a queue, and of each that tells of a reservation.
#[derive(Drop)]
struct Fates {
    lines: Vec<Fate>,
    reservations: Vec<ReservationFate>,
}

// What becomes of all lines.
fn add_all(
    alloc: Global,
    cluster: &Cluster,
    gathering: &mut Gathering,
    texts: QueueTexts<'_>,
) -> Result<Fates, AllocError>
    ensures lines { IfOk result (λ fates. length fates.lines.items ≡ length (parts_at 10 texts.entry.jobs.now)) }
    ensures taken { IfOk result (λ fates. length gathering.new.jobs.items ≡ length gathering.old.jobs.items + count is_taken fates.lines.items) }
    ensures reservations { IfOk result (λ fates. length fates.reservations.items ≡ length (parts_at 10 texts.entry.reservations.now)) }
{
    let lines = add_lines(alloc, cluster, gathering, texts.jobs)?;
    let reservations = add_reservations(alloc, cluster, gathering, texts.reservations)?;
    Ok(Fates {
        lines,
        reservations,
    })
}

// What is gathered, and what becomes of each line.
#[derive(Drop)]
struct Whole {
    planned: Planned,
    jobs: Vec<TakenJob>,
    fates: Fates,
}

// What is gathered of all lines, on these nodes in these states.
fn gather(
    alloc: Global,
    asked: &Asked,
    cluster: &Cluster,
    states: &[NodeState],
    texts: QueueTexts<'_>,
) -> Result<Whole, AllocError>
    ensures lines { IfOk result (λ w. length w.fates.lines.items ≡ length (parts_at 10 texts.entry.jobs.now)) }
    ensures taken { IfOk result (λ w. count is_taken w.fates.lines.items ≡ length w.jobs.items) }
    ensures reservations { IfOk result (λ w. length w.fates.reservations.items ≡ length (parts_at 10 texts.entry.reservations.now)) }
{
    let limits = Limits::of_lines(alloc, texts.arrays, texts.jobs)?;
    let mut gathering = Gathering::new(alloc, *asked, states, limits)?;
    let fates = add_all(alloc, cluster, &mut gathering, texts)?;
    let planned = gathering.planned(alloc)?;
    Ok(Whole {
        planned,
        jobs: gathering.jobs,
        fates,
    })
}

// The nodes, if there are as many as a trace may have.
#[tactic(auto, using(std::proofs::lemmas::Bool::Decides::nat_tests))]
fn cluster_of(alloc: Global, nodes: Vec<NodeText>) -> Result<Option<Cluster>, AllocError>
    ensures can { IfOk result (λ cluster. is_some cluster ≡ are_nodes nodes.items) }
    ensures nodes { IfOk result (λ cluster. IfSome cluster (λ c. c ≡ nodes.items)) }
{
    match Cluster::build(alloc, nodes) {
        Ok(cluster) if cluster.count() != 0 => Ok(Some(cluster)),
        Err(ClusterFault::NoMemory) => Err(AllocError),
        Ok(_) | Err(ClusterFault::TooManyNodes(_) | ClusterFault::NameTaken(_)) => Ok(None),
    }
}

// The queue on a cluster whose nodes are in these states, without its trace.
fn untold(
    alloc: Global,
    asked: &Asked,
    texts: QueueTexts<'_>,
    cluster: Cluster,
    states: &[NodeState],
    nodes: Vec<NodeFate>,
) -> Result<Queue, AllocError>
    ensures window { IfOk result (λ q. q.cycle.window ≡ asked.entry.now.window) }
    ensures budget { IfOk result (λ q. q.cycle.budget ≡ asked.entry.now.budget) }
    ensures cluster { IfOk result (λ q. q.cycle.cluster ≡ cluster) }
    ensures fates { IfOk result (λ q. length q.fates.items ≡ length (parts_at 10 texts.entry.jobs.now)) }
    ensures taken { IfOk result (λ q. count is_taken q.fates.items ≡ length q.cycle.jobs.items) }
    ensures nodes { IfOk result (λ q. q.nodes.items ≡ nodes.items) }
    ensures reservations { IfOk result (λ q. length q.reservations.items ≡ length (parts_at 10 texts.entry.reservations.now)) }
{
    let Whole {
        planned,
        jobs,
        fates,
    } = gather(alloc, asked, &cluster, states, texts)?;
    Ok(Queue {
        trace: String::new(alloc),
        cycle: Cycle {
            window: asked.window,
            budget: asked.budget,
            cluster,
            closures: planned.closures,
            jobs,
            events: planned.events,
        },
        fates: fates.lines,
        nodes,
        reservations: fates.reservations,
        crowded: planned.crowded,
    })
}

// The same on nodes that lines tell of, if there are as many as a trace may have.
fn untold_on(
    alloc: Global,
    asked: &Asked,
    texts: QueueTexts<'_>,
    nodes: Nodes,
) -> Result<Option<Queue>, AllocError>
    ensures can { IfOk result (λ queue. is_some queue ≡ are_nodes nodes.nodes.items) }
    ensures window { IfOk result (λ queue. IfSome queue (λ q. q.cycle.window ≡ asked.entry.now.window)) }
    ensures budget { IfOk result (λ queue. IfSome queue (λ q. q.cycle.budget ≡ asked.entry.now.budget)) }
    ensures cluster { IfOk result (λ queue. IfSome queue (λ q. q.cycle.cluster ≡ nodes.nodes.items)) }
    ensures fates { IfOk result (λ queue. IfSome queue (λ q. length q.fates.items ≡ length (parts_at 10 texts.entry.jobs.now))) }
    ensures taken { IfOk result (λ queue. IfSome queue (λ q. count is_taken q.fates.items ≡ length q.cycle.jobs.items)) }
    ensures nodes { IfOk result (λ queue. IfSome queue (λ q. q.nodes.items ≡ nodes.fates.items)) }
    ensures reservations { IfOk result (λ queue. IfSome queue (λ q. length q.reservations.items ≡ length (parts_at 10 texts.entry.reservations.now))) }
{
    let Nodes {
        nodes: told,
        states,
        fates,
    } = nodes;
    let Some(cluster) = cluster_of(alloc, told)? else {
        return Ok(None);
    };
    let queue = untold(alloc, asked, texts, cluster, &states, fates)?;
    Ok(Some(queue))
}

// Writes the trace of a cycle, where this is the list of its nodes, and says whether it is read as it should be.
fn add_trace(
    alloc: Global,
    cycle: &Cycle,
    list: &str,
    trace: &mut String,
) -> Result<bool, AllocError>
    ensures { IfOk result (λ alike. IsTrue alike → IsReadAs cycle.now (string_bytes trace.new)) }
{
    write_trace(trace, cycle, list)?;
    is_read_as(alloc, cycle, trace.as_str())
}

// The queue on nodes that lines tell of, where this is the list of them.
fn queue_on(
    alloc: Global,
    asked: &Asked,
    texts: QueueTexts<'_>,
    nodes: Nodes,
    list: &str,
) -> Result<Queue, QueueFault>
    requires asked { fault_in asked.now texts.reservations.now ≡ None }
    requires told { told nodes ≡ nodes_in texts.nodes.now }
    ensures { AnswersQueue asked.entry.now texts.entry.jobs.now texts.entry.nodes.now texts.entry.reservations.now result }
{
    let Some(mut queue) = untold_on(alloc, asked, texts, nodes)? else {
        return Err(QueueFault::Nodes);
    };
    if !add_trace(alloc, &queue.cycle, list, &mut queue.trace)? {
        return Err(QueueFault::Unlike);
    }
    Ok(queue)
}

/// The trace of one cycle of a queue, of the lines that tell of it, and what becomes of each line. The trace is read back before it is
/// handed out, and `Unlike` says that it is not read as it should be.
pub fn queue_trace(alloc: Global, asked: &Asked, texts: QueueTexts<'_>) -> Result<Queue, QueueFault>
    ensures { AnswersQueue asked.entry.now texts.entry.jobs.now texts.entry.nodes.now texts.entry.reservations.now result }
{
    if let Some(fault) = asked.fault(!texts.reservations.is_empty()) {
        return Err(QueueFault::Asked(fault));
    }
    let nodes = read_nodes(alloc, texts.nodes)?;
    let list = nodes_text(alloc, &nodes.nodes)?;
    queue_on(alloc, asked, texts, nodes, &list)
}
