// Laws of wanted jobs and of answers.
ghost use Rattle.tetri_reserve.specs.Laws.{AnswersAreTrue, TotalsCountWantedJobs};

/// What an allotment is worth in an instance of wanted jobs is how many of them it makes worth something.
pub fn totals_count_wanted_jobs()
    ensures { TotalsCountWantedJobs }
{}

/// The answers of an instance are true, whoever gives them. The grants of each plan are lawful in the instance. By those of an admitted
/// job it and the booked ones are all worth something, and by no lawful allotment are a refused job and they.
pub fn answers_are_true()
    ensures { AnswersAreTrue }
{}
