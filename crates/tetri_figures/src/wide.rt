// Wide jobs: those that want at least a quarter of the nodes.
use crate::sums::is_picked;
use std::alloc::{AllocError, Global};
use tetri_accounts::Row;
use tetri_strl::Expr;
use tetri_trace::{Trace, Work};

// The most nodes that an expression asks for at once: of the parts of a `max` the most, and of a `min` and a sum all parts together.
fn width_of(expr: &Expr) -> u64 {
    match expr {
        Expr::One(leaf) => u64::from(leaf.k),
        Expr::Max(parts) => {
            let mut width: u64 = 0;
            for part in parts {
                width = width_of(part).max(width);
            }
            width
        }
        Expr::Min(parts) | Expr::Sum(parts) => {
            let mut width: u64 = 0;
            for part in parts {
                width = width.saturating_add(width_of(part));
            }
            width
        }
        Expr::Scale(part, _) | Expr::Barrier(part, _) => width_of(part),
    }
}

// Whether a job wants at least a quarter of the nodes.
fn is_wide(trace: &Trace, job: u32) -> bool {
    let width = match trace.jobs.as_slice().get(job as usize) {
        Some(job) => match &job.work {
            Work::Strl(expr) => width_of(expr),
            Work::Asked(ask) => u64::from(ask.k),
        },
        None => 0,
    };
    width.saturating_mul(4) >= u64::from(trace.cluster.count())
}

/// By place, whether a row is picked and its job wide.
pub(crate) fn wide_among(
    alloc: Global,
    trace: &Trace,
    rows: &[Row],
    marks: &[bool],
) -> Result<Vec<bool>, AllocError> {
    let mut wide = Vec::new(alloc);
    for (place, row) in rows.iter().enumerate() {
        wide.push(is_picked(marks, place) && is_wide(trace, row.job))?;
    }
    Ok(wide)
}
