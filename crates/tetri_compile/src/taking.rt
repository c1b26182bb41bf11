// The counts of a point.
ghost use Rattle.std.specs.Prelude.{◌≡◌, length, IfOk};
ghost use Rattle.tetri_ip.specs.Points.{IsBetween};
ghost use Rattle.tetri_compile.specs.Counting.{AreCountsOf, taken_at};

use crate::Compiled;
use std::alloc::{AllocError, Global};

/// How many nodes of a partition a leaf of a job takes.
#[derive(Clone, Copy, Debug, PartialEq, Eq)]
pub struct Taken {
    /// The number of the job.
    pub job: u32,
    /// The number of the leaf in the job's expression.
    pub leaf: u32,
    /// The number of the partition.
    pub part: u32,
    /// How many nodes.
    pub nodes: u32,
}

/// The counts of a point that are above 0, in the order of the columns.
pub fn counts_of(alloc: Global, c: &Compiled, point: &[i128]) -> Result<Vec<Taken>, AllocError>
    requires counts { AreCountsOf c.now.program c.now.counts.items }
    requires count { length point.now ≡ length c.now.program.costs.items }
    requires inside { IsBetween (length c.now.program.costs.items) c.now.program.lower.items point.now c.now.program.upper.items }
    ensures { IfOk result (λ v. v.items ≡ taken_at point.now c.now.counts.items) }
{
    let mut taken = Vec::new(alloc);
    for count in &c.counts {
        let nodes = point[count.column as usize].unsigned_abs() as u32;
        if nodes > 0 {
            taken.push(Taken {
                job: count.job,
                leaf: count.leaf,
                part: count.part,
                nodes,
            })?;
        }
    }
    Ok(taken)
}
