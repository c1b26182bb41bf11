//! What holds of every tree of a search.

ghost use Rattle.tetri_search.specs.Laws.{EarnedByPlace, EarnedIsProper, EarnedTreesAreOne, EnoughLeavesNoRest, RestsSpendTheBudget, WholesRise};

/// The tree of a search is a proper one, and where it has no rest its bound is at most the greater of
/// the best objective known at first and those of its whole points.
pub fn earned_trees_are_proper()
    ensures { EarnedIsProper }
{}

/// The whole points of a search get better: the best objective known at its end is that of the last
/// one, and as at first where there is none.
pub fn whole_points_rise()
    ensures { WholesRise }
{}

/// A search whose budget is twice the number of the points of the program's box, or more, leaves no
/// node open.
pub fn enough_leaves_no_rest()
    ensures { EnoughLeavesNoRest }
{}

/// A tree with a rest has as many other marks as the budget.
pub fn rests_spend_the_budget()
    ensures { RestsSpendTheBudget }
{}

/// Each mark of a tree is that of the first node that is open behind the marks before it.
pub fn earned_by_place()
    ensures { EarnedByPlace }
{}

/// A search has one tree: programs that say the same have the same marks, for one best objective known at first and one budget.
pub fn earned_trees_are_one()
    ensures { EarnedTreesAreOne }
{}
