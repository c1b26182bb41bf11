// The mark of a plan.
use std::fmt;

/// How good a plan is known to be. It prints as the word of a `plan` line.
#[derive(Clone, Copy, Debug, PartialEq, Eq)]
pub enum PlanMark {
    /// The value is the bound.
    Optimal,
    /// The budget was spent before the value reached the bound.
    Spent,
    /// The value is below the bound, and the certificate is `tops`.
    Wide,
}

impl fmt::Display for PlanMark {
    ghost use Rattle.std.specs.Prelude.{Some};
    ghost use Rattle.tetri_cert.specs.Text.{mark_text};

    ghost output = { λ m. Some (mark_text m) };

    fn fmt<W: fmt::Write>(&self, f: &mut fmt::Formatter<W>) -> fmt::Result {
        match self {
            PlanMark::Optimal => write!(f, "optimal"),
            PlanMark::Spent => write!(f, "spent"),
            PlanMark::Wide => write!(f, "wide"),
        }
    }
}
