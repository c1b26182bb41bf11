// Jobs by name.
ghost use Rattle.std.specs.Prelude.{◌≡◌, ◌<◌, length, IfSome};
ghost use Rattle.tetri_cluster.specs.Names.{number_of};
ghost use Rattle.tetri_trace.specs.Scenario.{job_names, scenario};

use crate::trace::Trace;

/// The job with a name. `None` exactly where no job has it. It is looked up by an index.
pub fn job_of(trace: &Trace, name: &[u8]) -> Option<u32>
    ensures value { result ≡ number_of name.now (job_names (scenario trace.now).submissions) }
    ensures within { IfSome result (λ job. job < length (scenario trace.now).submissions) }
{
    trace.jobs.find(name)
}
