// The two lists: of nodes, and of grants.
use tetri_base::Items;

/// Node numbers, in the order in which they were put.
pub type NodeList = Items<u32>;

/// Nodes for one leaf of one job.
#[derive(Drop)]
pub struct Grant {
    /// The number of the job.
    pub job: u32,
    /// The number of the leaf in the job's expression.
    pub leaf: u32,
    /// The nodes that it grants; a lawful grant has them ascending.
    pub nodes: NodeList,
}

/// Grants, in the order in which they were put.
pub type Allotment = Items<Grant>;
