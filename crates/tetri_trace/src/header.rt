// The trace that a header begins.
ghost use Rattle.std.specs.Prelude.{◌≡◌, ◌≤◌, length, true, IfOk};
ghost use Rattle.tetri_cluster.specs.Cluster.{names_of};
ghost use Rattle.tetri_cluster.specs.Names.{differ};
ghost use Rattle.tetri_notice.specs.Answers.{Gives};
ghost use Rattle.tetri_notice.specs.Headers.{header_text, IsSoundHeaderText};
ghost use Rattle.tetri_trace.specs.Draft.{so_far, IsSoundDraft};
ghost use Rattle.tetri_trace.specs.Lines.{begun, named_apart};

use crate::closures::closures_at;
use crate::draft::Draft;
use crate::jobs::Jobs;
use std::alloc::Global;
use tetri_cluster::{Cluster, ClusterFault, NodeText};
use tetri_notice::{HeaderText, Stop, TraceWhy};
use tetri_parse::ClusterReader;

fn cluster_of(alloc: Global, nodes: Vec<NodeText>) -> Result<Cluster, Stop>
    requires { length nodes.items ≤ 4096 }
    ensures value { Gives (λ c. c) result (named_apart nodes.items) }
    ensures same { IfOk result (λ c. c ≡ nodes.items) }
    ensures differ { IfOk result (λ c. differ (names_of c) ≡ true) }
{
    match Cluster::build(alloc, nodes) {
        Ok(cluster) => Ok(cluster),
        Err(ClusterFault::TooManyNodes(_)) => unreachable!(),
        Err(ClusterFault::NameTaken(_)) => Err(Stop::Because(TraceWhy::NameTaken)),
        Err(ClusterFault::NoMemory) => Err(Stop::NoMemory),
    }
}

/// The trace that a header begins.
pub(crate) fn begun(alloc: Global, header: HeaderText) -> Result<Draft, Stop>
    requires { IsSoundHeaderText (header_text header) }
    ensures gives { Gives so_far result (begun (header_text header)) }
    ensures sound { IfOk result IsSoundDraft }
{
    let cluster = cluster_of(alloc, header.nodes)?;
    let closures = closures_at(alloc, &cluster, &header.closures)?;
    Ok(Draft {
        header: header.header,
        reader: ClusterReader::new(alloc, cluster),
        closures,
        jobs: Jobs::new(alloc),
        events: Vec::new(alloc),
    })
}
