// The nodes that texts are over.
use std::alloc::{AllocError, Global};
use tetri_cluster::Cluster;
use tetri_tables::{Given, Tally, answer};

/// The nodes of the trace. One that is refused is noted, and gives none.
pub fn cluster_of(
    alloc: Global,
    given: &Given,
    tally: &mut Tally,
) -> Result<Option<Cluster>, AllocError> {
    match answer(alloc, given.trace.as_bytes())? {
        Ok(trace) => Ok(Some(trace.cluster)),
        Err(_) => {
            tally.expect("a trace", "refused", "read")?;
            Ok(None)
        }
    }
}
