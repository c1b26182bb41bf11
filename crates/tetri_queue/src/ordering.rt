// The launches of a report as commands.
ghost use Rattle.std.specs.Prelude.{◌≡◌, ◌<◌, ◌++◌, [], All, IfOk, OnOk, drop, length, map, string_bytes};
ghost use Rattle.tetri_queue.specs.Orders.{IsOrder, hosts_text, json_line, launch_of, order_line, order_of, orders_text, release_text, slurm_line, update_text, with_host};
ghost use Rattle.tetri_trace.specs.Scenario.{scenario};

use crate::line::is_id;
use std::alloc::{AllocError, Global};
use tetri_cluster::{Cluster, NodeSet};
use tetri_cycles::{Observer, SeenSlot};
use tetri_report::Head;
use tetri_state::{Piece, State};
use tetri_trace::Trace;

/// A piece of a job that a cycle launches: its job and its nodes by number.
#[derive(Drop)]
pub struct Launch {
    pub job: u32,
    pub nodes: NodeSet,
}

/// What looks on while a report is checked, and keeps the pieces that the last cycle launches.
#[derive(Drop)]
pub struct Launches {
    pub pieces: Vec<Launch>,
}

impl Launches {
    /// No cycle was seen.
    pub fn new(alloc: Global) -> Launches
        ensures { result.pieces.items ≡ [] }
    {
        Launches {
            pieces: Vec::new(alloc),
        }
    }
}

// What a piece is as a launch.
fn launch_of(alloc: Global, piece: &Piece) -> Result<Launch, AllocError>
    ensures { IfOk result (λ launch. launch ≡ launch_of piece.now) }
{
    let nodes = NodeSet::of_slice(alloc, piece.nodes.as_slice())?;
    Ok(Launch {
        job: piece.job,
        nodes,
    })
}

// The pieces of a state from this place on.
fn pieces_from(alloc: Global, state: &State, from: usize) -> Result<Vec<Launch>, AllocError>
    ensures { IfOk result (λ v. v.items ≡ map launch_of (drop from state.entry.now.pieces)) }
{
    let mut pieces = Vec::new(alloc);
    for place in from..usize::MAX {
        match state.piece(place) {
            Some(piece) => pieces.push(launch_of(alloc, piece)?)?,
            None => return Ok(pieces),
        }
    }
    Err(AllocError)
}

impl Observer for Launches {
    ghost use Rattle.tetri_queue.specs.Orders.{KeepsLaunches};

    ghost saw = { KeepsLaunches };

    fn see(
        &mut self,
        alloc: Global,
        _trace: &Trace,
        state: &State,
        slot: SeenSlot<'_>,
        _head: &Head,
    ) -> Result<(), AllocError> {
        self.pieces = pieces_from(alloc, state, slot.held)?;
        Ok(())
    }
}

/// How orders are written.
#[derive(Clone, Copy, Debug, PartialEq, Eq)]
pub enum OrderForm {
    /// As commands of Slurm.
    Slurm,
    /// As JSON objects.
    Json,
}

/// Why there are no orders.
#[derive(Clone, Copy, Debug, PartialEq, Eq)]
pub enum OrderFault {
    /// A job's name cannot be an identifier of the manager, or a piece is none of the trace.
    NotOrder,
    NoMemory,
}

impl From<AllocError> for OrderFault {
    ghost use Rattle.std.specs.Prelude.{◌≡◌};
    ghost use Rattle.tetri_queue.specs.declared.ordering.OrderFault.TheVariants as fault;

    ghost from_gives = { λ _ e. e ≡ fault.NoMemory };

    fn from(_: AllocError) -> Self {
        OrderFault::NoMemory
    }
}

// Puts the name of a node behind the others.
fn add_host(hosts: &mut String, name: &str) -> Result<(), AllocError>
    ensures { OnOk result (string_bytes hosts.new ≡ with_host (string_bytes hosts.old) name.now) }
{
    if !hosts.as_str().is_empty() {
        hosts.push_str(",")?;
    }
    hosts.push_str(name)
}

// The names of nodes, with commas between.
fn hosts_text(alloc: Global, cluster: &Cluster, nodes: &[u32]) -> Result<String, OrderFault>
    ensures known { IfOk result (λ _. All (λ node. node < length cluster.now) nodes.now) }
    ensures text { IfOk result (λ text. string_bytes text ≡ hosts_text cluster.now nodes.now) }
{
    let mut hosts = String::new(alloc);
    for node in nodes {
        if cluster.count() <= *node {
            return Err(OrderFault::NotOrder);
        }
        add_host(&mut hosts, cluster.name_of(*node).text())?;
    }
    Ok(hosts)
}

// The command that names the hosts of a job.
#[tactic(auto, unfolding(crate::specs::Orders::update_text))]
fn add_update(text: &mut String, job: &str, hosts: &str) -> Result<(), AllocError>
    ensures { OnOk result (string_bytes text.new ≡ string_bytes text.old ++ update_text job.now hosts.now) }
{
    write!(text, "scontrol update JobId={job} ReqNodeList={hosts}")
}

// The command that releases a job, where the one before was taken.
#[tactic(auto, unfolding(crate::specs::Orders::release_text))]
fn add_release(text: &mut String, job: &str) -> Result<(), AllocError>
    ensures { OnOk result (string_bytes text.new ≡ string_bytes text.old ++ release_text job.now) }
{
    writeln!(text, " && scontrol release {job}")
}

// The command that starts a job on hosts.
fn add_slurm(text: &mut String, job: &str, hosts: &str) -> Result<(), AllocError>
    ensures { OnOk result (string_bytes text.new ≡ string_bytes text.old ++ slurm_line job.now hosts.now) }
{
    add_update(text, job, hosts)?;
    add_release(text, job)
}

// The same as an object.
#[tactic(auto, unfolding(crate::specs::Orders::json_line))]
fn add_json(text: &mut String, job: &str, hosts: &str) -> Result<(), AllocError>
    ensures { OnOk result (string_bytes text.new ≡ string_bytes text.old ++ json_line job.now hosts.now) }
{
    writeln!(text, "{{\"job\":\"{job}\",\"nodes\":\"{hosts}\"}}")
}

fn add_line(text: &mut String, form: OrderForm, job: &str, hosts: &str) -> Result<(), AllocError>
    ensures { OnOk result (string_bytes text.new ≡ string_bytes text.old ++ order_line form job.now hosts.now) }
{
    match form {
        OrderForm::Slurm => add_slurm(text, job, hosts),
        OrderForm::Json => add_json(text, job, hosts),
    }
}

// The order of a piece.
fn add_order(
    alloc: Global,
    text: &mut String,
    form: OrderForm,
    trace: &Trace,
    piece: &Launch,
) -> Result<(), OrderFault>
    ensures order { OnOk result (IsOrder (scenario trace.now) piece.now) }
    ensures text { OnOk result (string_bytes text.new ≡ string_bytes text.old ++ order_of form (scenario trace.now) piece.now) }
{
    if trace.jobs.len() <= piece.job as usize {
        return Err(OrderFault::NotOrder);
    }
    let job = trace.job(piece.job);
    if !is_id(job.name.bytes()) {
        return Err(OrderFault::NotOrder);
    }
    let hosts = hosts_text(alloc, &trace.cluster, piece.nodes.as_slice())?;
    add_line(text, form, job.name.text(), hosts.as_str())?;
    Ok(())
}

/// The orders of pieces of a trace, a line each. `NotOrder` comes only where a piece is none of the trace, or its job's name is not made of
/// digits and _.
pub fn orders_text(
    alloc: Global,
    form: OrderForm,
    trace: &Trace,
    launches: &Launches,
) -> Result<String, OrderFault>
    ensures orders { IfOk result (λ _. All (IsOrder (scenario trace.now)) launches.now.pieces.items) }
    ensures text { IfOk result (λ text. string_bytes text ≡ orders_text form (scenario trace.now) launches.now.pieces.items) }
{
    let mut text = String::new(alloc);
    for piece in &launches.pieces {
        add_order(alloc, &mut text, form, trace, piece)?;
    }
    Ok(text)
}
