// What a trace says.
ghost use Rattle.std.specs.Prelude.{◌≡◌, ◌<◌, length};
ghost use Rattle.tetri_trace.specs.Scenario.{scenario, submission, submission_of};

use crate::jobs::Jobs;
use std::rc::Rc;
use tetri_cluster::{Cluster, Name, Sets};
use tetri_notice::Header;
use tetri_request::Ask;
use tetri_space::Closures;
use tetri_strl::Expr;

/// What a job asks for.
#[derive(Drop)]
pub enum Work {
    /// An expression, with absolute starts.
    Strl(Expr),
    /// An ask, whose requests are made anew in each cycle.
    Asked(Ask),
}

/// A job. It arrives at the slot `arrival`, and a launched piece of it runs `late` slots longer than it
/// asked for.
#[derive(Drop)]
pub struct Job {
    pub name: Name,
    pub arrival: u32,
    pub late: i32,
    pub work: Work,
}

/// What happens to a job or a node of this number.
#[derive(Clone, Copy, Debug, PartialEq, Eq)]
pub enum Happening {
    Arrive(u32),
    Cancel(u32),
    Drain(u32),
    Undrain(u32),
    Fail(u32),
}

/// What happens at a slot.
#[derive(Clone, Copy, Debug, PartialEq, Eq)]
pub struct Event {
    pub at: u32,
    pub what: Happening,
}

/// A whole trace: the nodes, the sets of nodes that the jobs name, the slots in which nodes are closed in
/// the header's order, the jobs in order of arrival, and the events in order of slot.
#[derive(Drop)]
pub struct Trace {
    pub header: Header,
    pub cluster: Cluster,
    pub sets: Rc<Sets>,
    pub closures: Rc<Closures>,
    pub jobs: Jobs,
    pub events: Vec<Event>,
}

impl Trace {
    /// The job with this number. To look at what it asks for takes no copy.
    pub fn job(&self, number: u32) -> &Job
        requires { number < length (scenario self.now).submissions }
        ensures { submission result.now ≡ submission_of (scenario self.now) number }
    {
        &self.jobs.as_slice()[number as usize]
    }
}
