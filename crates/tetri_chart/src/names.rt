// The names of jobs and nodes.
ghost use Rattle.std.specs.Prelude.{◌≡◌};
ghost use Rattle.tetri_cluster.specs.Cluster.{name_at};
ghost use Rattle.tetri_report.specs.Text.{job_name};
ghost use Rattle.tetri_trace.specs.Scenario.{scenario};

use tetri_report::name_of;
use tetri_trace::Trace;

/// The name of a job, which is empty where the trace has no such job.
pub(crate) fn job_name(trace: &Trace, job: u32) -> &str
    ensures { result.now ≡ job_name (scenario trace.entry.now) job }
{
    if (job as usize) < trace.jobs.len() {
        name_of(trace, job)
    } else {
        ""
    }
}

/// The name of a node, which is empty where the trace has no such node.
pub(crate) fn node_name(trace: &Trace, node: u32) -> &str
    ensures { result.now ≡ name_at (scenario trace.entry.now).nodes node }
{
    if node < trace.cluster.count() {
        trace.cluster.name_of(node).text()
    } else {
        ""
    }
}
