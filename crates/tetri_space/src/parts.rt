// What is found of an instance.
ghost use Rattle.std.specs.Prelude.{◌≤◌, length, All};
ghost use Rattle.std.specs.List.Sorted.{IsStrictlyIncreasing};

use crate::Offer;
use tetri_strl::NodeList;

/// The largest groups of nodes which the live leaves and the closures cannot tell apart: nodes that
/// are in exactly the same of their sets, and closed in exactly the same slots from now on. The
/// groups go by their least nodes. Nodes in no such set are in no group. A leaf is live where it
/// starts in the window and is left of its job's expression there.
#[derive(Drop)]
pub struct Partitions {
    pub(crate) offers: Vec<Offer>,
    pub(crate) groups: Vec<NodeList>,
    pub(crate) inside: Vec<Vec<u32>>,
    ghost few: { length groups.items ≤ 4096 },
    ghost few_sets: { length inside.items ≤ 4096 },
    ghost ascending: { All (λ v. IsStrictlyIncreasing v.items) inside.items },
}
