// What certificates say of allotments.
ghost use Rattle.tetri_claims.specs.Laws.{BoundsAreOfProperTrees, CertificatesBound, ProgramsEarnLittle, TreesHaveOneAnswer};

/// No lawful allotment of an instance is worth more than the bound of a certified plan, whoever made the plan: every lawful
/// allotment has a point of the instance's program that is worth no less, and no point is worth more than the bound of a
/// proper tree.
pub fn certificates_bound()
    ensures { CertificatesBound }
{}

/// Marks have one bound, or one first fault, over the program of an instance.
pub fn trees_have_one_answer()
    ensures { TreesHaveOneAnswer }
{}

/// No point of an instance's program has an objective above 2^64 - 1: it has a lawful allotment that is worth no less.
pub fn programs_earn_little()
    ensures { ProgramsEarnLittle }
{}

/// Marks have a bound over the program of an instance exactly where they are one proper tree over it in preorder, and the bound
/// is the greatest of 0 and of the floors of the tree's nodes.
pub fn bounds_are_of_proper_trees()
    ensures { BoundsAreOfProperTrees }
{}
