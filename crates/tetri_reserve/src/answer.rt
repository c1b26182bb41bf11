// What is answered for one job.
ghost use Rattle.std.specs.Prelude.{◌≡◌};
ghost use Rattle.tetri_reserve.specs.Answers.{is_booked};

use tetri_plan::Plan;

/// Whether a job can be served together with the booked ones.
#[derive(Clone, Copy, Debug, PartialEq, Eq)]
pub enum AnswerKind {
    /// It can, by the plan's grants, and now it is booked.
    Admitted,
    /// No lawful allotment serves the booked jobs and this one, by the plan's bound. It is not booked.
    Refused,
    /// The plan serves fewer, and its bound does not say that all cannot be served. It is not booked.
    Undecided,
    /// Its expression is 64 deep, so that no barrier can stand around it. It was not asked about, and is not booked.
    Deep,
}

impl AnswerKind {
    /// Whether the job is booked.
    pub fn is_booked(self) -> bool
        ensures { result ≡ is_booked self }
    {
        match self {
            AnswerKind::Admitted => true,
            AnswerKind::Refused => false,
            AnswerKind::Undecided => false,
            AnswerKind::Deep => false,
        }
    }
}

/// The answer for one job.
#[derive(Drop)]
pub struct Answer {
    /// The number of the job.
    pub job: u32,
    /// Whether it can be served together with the jobs that were booked before it.
    pub kind: AnswerKind,
    /// The plan that shows it, for the booked jobs and this one, each worth 1 where it is served; none where the kind is `Deep`.
    pub plan: Option<Plan>,
}
