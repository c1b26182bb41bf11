// What the bound of a tree says of the points of its program.

ghost use Rattle.tetri_cert.specs.ProperTrees.{BoundsProperTrees, ShapeIsOfTrees};
ghost use Rattle.tetri_cert.specs.SamePrograms.{FaultsNameNodes, SameProgramsAnswerSame};
ghost use Rattle.tetri_cert.specs.TreeLaws.{TreeBoundHolds};

/// No point of a program has an objective above the bound of a proper tree over it, where that bound is below 2^64 - 1
/// or no point has an objective above 2^64 - 1.
pub fn tree_bounds_points()
    ensures { TreeBoundHolds }
{}

/// Nodes have a bound over a fit program exactly where they are one proper tree in preorder, and the bound is the greatest of
/// 0 and of the floors of the tree's nodes.
pub fn proper_trees_have_bounds()
    ensures { BoundsProperTrees }
{}

/// Nodes have the fault of shape exactly where they are no tree in preorder whose inner nodes are the splits.
pub fn shape_is_of_trees()
    ensures { ShapeIsOfTrees }
{}

/// Marks have the same bound, or the same first fault, over programs that say the same.
pub fn same_programs_answer_same()
    ensures { SameProgramsAnswerSame }
{}

/// A fault names a node of the list, or node 0.
pub fn faults_name_nodes()
    ensures { FaultsNameNodes }
{}
