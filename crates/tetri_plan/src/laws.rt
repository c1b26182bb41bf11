// What holds of every chosen plan.
ghost use Rattle.tetri_plan.specs.Laws.{ChosenPlansAreOne};

/// An instance has one chosen plan for what is carried over, the given allotments and the budget:
/// value, bound, mark, count of nodes, grants and certificate are the same, whoever found it.
pub fn chosen_plans_are_one()
    ensures { ChosenPlansAreOne }
{}
