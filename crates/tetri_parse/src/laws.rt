// Laws of the definitions.
ghost use Rattle.tetri_parse.specs.Ascending.{FaultsAscend};
ghost use Rattle.tetri_parse.specs.Faults.{MeetsFirst};
ghost use Rattle.tetri_parse.specs.FirstPass.{FaultIsWithin, FaultStays};

use tetri_cluster::{Cluster, Sets};

/// Where the grammar is not kept, its fault stands in the text and depends on nothing behind the faulty word: another
/// text with the same bytes before the fault, and there the same run of a name's bytes or the same one other byte, has
/// the same fault at the same offset.
pub fn grammar_fault_stays(text: &[u8], cluster: &Cluster)
    ensures within { FaultIsWithin cluster.entry.now text.entry.now }
    ensures stays { FaultStays cluster.entry.now text.entry.now }
{}

/// Where the grammar is kept, `ClusterReader::read_expr` answers the first of all faults of sets, values, starts and
/// peaks in the order of the text, each of which the definition states by itself.
pub fn reading_meets_the_first_fault(
    text: &[u8],
    unit: u64,
    arrival: u32,
    cluster: &Cluster,
    sets: &Sets,
)
    ensures { MeetsFirst text.entry.now unit arrival cluster.entry.now sets.entry.now }
{}

/// Where the grammar is kept, the faults of sets, values, starts and peaks stand in the order of the text:
/// their offsets ascend, and at one offset their numbers.
pub fn faults_ascend(text: &[u8], unit: u64, cluster: &Cluster, sets: &Sets)
    ensures { FaultsAscend text.entry.now unit cluster.entry.now sets.entry.now }
{}
