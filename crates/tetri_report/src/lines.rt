// The lines of a cycle.
ghost use Rattle.std.specs.Prelude.{◌≡◌, ◌++◌, ◌<◌, ◌≤◌, OnOk, string_bytes, length, All, map, flat_map};
ghost use Rattle.tetri_cert.specs.Text.{mark_text};
ghost use Rattle.tetri_cluster.specs.Cluster.{name_at};
ghost use Rattle.tetri_report.specs.Printable.{AreJobs, ArePieces, IsPrintableGrant};
ghost use Rattle.tetri_report.specs.Text.{cycle_line, plan_line, name_line, leaf_line, joined, granted_line, job_name, job_line, piece_line, grant_line, grant_lines};
ghost use Rattle.tetri_trace.specs.Scenario.{scenario};

use std::alloc::AllocError;
use std::fmt::Write;
use tetri_cert::PlanMark;
use tetri_cluster::Cluster;
use tetri_state::PieceId;
use tetri_strl::Grant;
use tetri_trace::Trace;

#[tactic(auto, unfolding(crate::specs::Text::cycle_line))]
pub(crate) fn add_cycle_line(out: &mut String, number: u32) -> Result<(), AllocError>
    ensures { OnOk result (string_bytes out.new ≡ string_bytes out.old ++ cycle_line number) }
{
    write!(out, "cycle {number}\n")
}

#[tactic(auto, unfolding(crate::specs::Text::plan_line))]
pub(crate) fn add_plan_line(
    out: &mut String,
    value: u64,
    bound: u64,
    mark: PlanMark,
    nodes: u32,
) -> Result<(), AllocError>
    ensures { OnOk result (string_bytes out.new ≡ string_bytes out.old ++ plan_line value bound mark nodes) }
{
    write!(out, "plan {value} {bound} {mark} {nodes}\n")
}

#[tactic(auto, unfolding(crate::specs::Text::name_line))]
fn add_name_line(out: &mut String, word: &str, name: &str) -> Result<(), AllocError>
    ensures { OnOk result (string_bytes out.new ≡ string_bytes out.old ++ name_line word.now name.now) }
{
    write!(out, "{word} {name}\n")
}

#[tactic(auto, unfolding(crate::specs::Text::leaf_line))]
fn add_leaf_line(out: &mut String, word: &str, name: &str, leaf: u32) -> Result<(), AllocError>
    ensures { OnOk result (string_bytes out.new ≡ string_bytes out.old ++ leaf_line word.now name.now leaf) }
{
    write!(out, "{word} {name} {leaf}\n")
}

/// The name of a job of the trace.
pub fn name_of(trace: &Trace, job: u32) -> &str
    requires { job < length (scenario trace.now).submissions }
    ensures { result.now ≡ job_name (scenario trace.entry.now) job }
{
    trace.jobs.as_slice()[job as usize].name.text()
}

pub(crate) fn add_job_lines(
    out: &mut String,
    trace: &Trace,
    word: &str,
    jobs: &[u32],
) -> Result<(), AllocError>
    requires { AreJobs (scenario trace.now) jobs.now }
    ensures { OnOk result (string_bytes out.new ≡ string_bytes out.old ++ flat_map (job_line (scenario trace.entry.now) word.now) jobs.now) }
{
    for job in jobs {
        add_name_line(out, word, name_of(trace, *job))?;
    }
    Ok(())
}

pub(crate) fn add_piece_lines(
    out: &mut String,
    trace: &Trace,
    word: &str,
    pieces: &[PieceId],
) -> Result<(), AllocError>
    requires { ArePieces (scenario trace.now) pieces.now }
    ensures { OnOk result (string_bytes out.new ≡ string_bytes out.old ++ flat_map (piece_line (scenario trace.entry.now) word.now) pieces.now) }
{
    for piece in pieces {
        add_leaf_line(out, word, name_of(trace, piece.job), piece.leaf)?;
    }
    Ok(())
}

// The names of nodes, with commas between.
fn add_nodes(out: &mut String, cluster: &Cluster, nodes: &[u32]) -> Result<(), AllocError>
    requires { All (λ n. n < length cluster.now) nodes.now }
    ensures { OnOk result (string_bytes out.new ≡ string_bytes out.old ++ joined (map (name_at cluster.entry.now) nodes.now)) }
{
    let Some((first, others)) = nodes.split_first() else {
        return Ok(());
    };
    out.push_str(cluster.name_of(*first).text())?;
    for node in others {
        let name = cluster.name_of(*node).text();
        write!(out, ",{name}")?;
    }
    Ok(())
}

#[tactic(auto, unfolding(crate::specs::Text::granted_line))]
fn add_grant_line(
    out: &mut String,
    trace: &Trace,
    grant: &Grant,
    start: u32,
) -> Result<(), AllocError>
    requires { IsPrintableGrant (scenario trace.now) grant.now }
    ensures { OnOk result (string_bytes out.new ≡ string_bytes out.old ++ grant_line (scenario trace.entry.now) grant.now start) }
{
    let name = name_of(trace, grant.job);
    let leaf = grant.leaf;
    write!(out, "grant {name} {leaf} {start} ")?;
    add_nodes(out, &trace.cluster, grant.nodes.as_slice())?;
    out.push_str("\n")
}

pub(crate) fn add_grant_lines(
    out: &mut String,
    trace: &Trace,
    grants: &[Grant],
    starts: &[u32],
) -> Result<(), AllocError>
    requires printable { All (IsPrintableGrant (scenario trace.now)) grants.now }
    requires starts { length starts.now ≡ length grants.now }
    ensures { OnOk result (string_bytes out.new ≡ string_bytes out.old ++ grant_lines (scenario trace.entry.now) grants.now starts.now) }
{
    for (i, grant) in grants.iter().enumerate() {
        add_grant_line(out, trace, grant, starts[i])?;
    }
    Ok(())
}
