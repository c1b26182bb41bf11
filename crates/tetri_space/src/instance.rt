// What one cycle is given.
use crate::Closures;
use std::rc::Rc;
use tetri_cluster::Sets;
use tetri_strl::Expr;

/// What a pending job asks for.
#[derive(Drop)]
pub struct Offer {
    /// The number of the job.
    pub job: u32,
    /// What it asks for, well made.
    pub expr: Expr,
}

/// What one cycle plans for: its slots, its nodes and its pending jobs.
#[derive(Drop)]
pub struct Instance {
    /// The slot of the cycle, which is the first of the window.
    pub now: u32,
    /// How many slots the window has, in which leaves may start.
    pub window: u32,
    /// How many nodes there are.
    pub nodes: u32,
    /// The sets of nodes, by their numbers.
    pub sets: Rc<Sets>,
    /// By node, the first slot in which nothing runs on it any more.
    pub busy_until: Vec<u32>,
    /// By node, whether it takes no new work.
    pub drained: Vec<bool>,
    /// When nodes are closed.
    pub closures: Rc<Closures>,
    /// What the pending jobs ask for, ascending strictly by job.
    pub jobs: Vec<Offer>,
}
