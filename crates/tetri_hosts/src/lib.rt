//! What a resource manager calls its nodes: lists of hosts with numbers in brackets, and the lines that tell of nodes.
#![tactic(auto)]

mod expansion;
mod hosts;
mod node;
mod nodes;
mod state;

pub use hosts::{HostsFault, expand};
pub use node::{NodeLine, columns_of, is_feature, partition_name, partition_tag, read_node_line};
pub use nodes::{NodeFate, Nodes, read_nodes};
pub use state::NodeState;
