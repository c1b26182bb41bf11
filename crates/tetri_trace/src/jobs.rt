// The jobs of a trace.
ghost use Rattle.std.specs.Prelude.{◌≡◌, ◌<◌, ◌≤◌, ◌++◌, ◌∷◌, [], false, true, is_some, length, map, not, if◌then◌else◌, IfOk, IfSome, OnOk, OnErr};
ghost use Rattle.tetri_cluster.specs.Names.{differ, is_among, number_of};

use crate::trace::Job;
use std::alloc::{AllocError, Global};
use std::marker::Model;
use tetri_cluster::NameTable;

/// At most 100,000 jobs whose names differ. A job's number is its place, from 0 on, and a look-up by
/// name goes by an index.
#[derive(Drop)]
pub struct Jobs {
    items: Vec<Job>,
    names: NameTable,
}

impl Model for Jobs {
    ghost use Rattle.std.specs.Prelude.{◌≡◌, ◌≤◌, List, length, map};
    ghost use Rattle.std.specs.Coded.{codes};
    ghost use Rattle.tetri_strl.specs.contracts.expr.Expr as expr;
    ghost use Rattle.tetri_trace.specs.declared.trace.Job.{Job};

    ghost Value = { List Job };

    ghost coded = { Prim.hlevel (codes, expr.the_row.coded) };

    ghost view = { λ j. j.items.items };

    ghost invariant = { λ j. (j.names ≡ map (λ (k : Job). k.name) j.items.items) × (length j.items.items ≤ 100000) };
}

impl Jobs {
    ghost use Rattle.tetri_trace.specs.Scenario.{job_names, submission};

    /// No jobs. It takes no memory.
    pub fn new(alloc: Global) -> Jobs
        ensures { result ≡ [] }
    {
        Jobs {
            items: Vec::new(alloc),
            names: NameTable::new(alloc),
        }
    }

    /// How many jobs there are.
    pub fn len(&self) -> usize
        ensures value { result ≡ length self.now }
        ensures most { result ≤ 100000 }
    {
        self.items.len()
    }

    /// The jobs in the order of their numbers.
    pub fn as_slice(&self) -> &[Job]
        ensures { result.now ≡ self.now }
    {
        self.items.as_slice()
    }

    /// The number of the job with a name. `None` exactly where no job has it.
    pub fn find(&self, name: &[u8]) -> Option<u32>
        ensures value { result ≡ number_of name.now (job_names (map submission self.now)) }
        ensures found { is_some result ≡ is_among name.now (job_names (map submission self.now)) }
        ensures within { IfSome result (λ job. job < length self.now) }
    {
        let number = self.names.number(name)?;
        Some(number as u32)
    }

    /// Gives a job with a new name the next number. Without memory the jobs stay as they were.
    pub fn push(&mut self, job: Job) -> Result<(), AllocError>
        requires few { length self.old < 100000 }
        requires new { is_among job.name (job_names (map submission self.old)) ≡ false }
        ensures ok { OnOk result (self.new ≡ self.old ++ job ∷ []) }
        ensures err { OnErr result (self.new ≡ self.old) }
        ensures differ { OnOk result (differ (job_names (map submission self.new)) ≡ true) }
    {
        let _new = self.add(job)?;
        Ok(())
    }

    /// Gives a job the next number, and says whether its name is new. A job whose name is taken is let go. Without memory the jobs stay as
    /// they were.
    pub(crate) fn add(&mut self, job: Job) -> Result<bool, AllocError>
        requires few { length self.old < 100000 }
        ensures fresh { IfOk result (λ new. new ≡ not (is_among job.name (job_names (map submission self.old)))) }
        ensures ok { IfOk result (λ new. self.new ≡ (if new then self.old ++ job ∷ [] else self.old)) }
        ensures err { OnErr result (self.new ≡ self.old) }
        ensures differ { OnOk result (differ (job_names (map submission self.new)) ≡ true) }
    {
        self.items.reserve(1)?;
        if !self.names.add(job.name.bytes())? {
            return Ok(false);
        }
        self.items.push(job)?;
        Ok(true)
    }
}
