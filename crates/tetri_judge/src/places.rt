// The line of a cycle that a verdict refuses.
ghost use Rattle.std.specs.Prelude.{◌≡◌, ◌<◌, ◌^◌};
ghost use Rattle.tetri_cert.specs.declared.certificate.Certificate.{Certificate};
ghost use Rattle.tetri_judge.specs.Places.{place_of};
ghost use Rattle.tetri_report.specs.Block.{headed};

use crate::verdict::Verdict;
use tetri_report::{Head, plan_place_behind};

/// The place of the line at which a verdict refuses the plan of a cycle, where the `cycle` line has the place 0: a grant's line, the
/// line of a node of the certificate, or else the `plan` line. It is the same whatever the certificate.
pub fn place_of(head: &Head, verdict: Verdict) -> u64
    requires { (c : Certificate) → place_of (headed head.now c) verdict < 2 ^ 64 }
    ensures { (c : Certificate) → result ≡ place_of (headed head.now c) verdict }
{
    let plan = plan_place_behind(&head.happened);
    let grants = head.grants.as_slice().len() as u64;
    match verdict {
        Verdict::Unlawful(unlawful) => plan + 1 + unlawful.grant,
        Verdict::WasteGrant(grant) => plan + 1 + grant,
        Verdict::BadTree { node, .. } => plan + 1 + grants + node,
        Verdict::Past { node, .. } => plan + 1 + grants + node,
        Verdict::WrongValue { .. } => plan,
        Verdict::BelowCarry { .. } => plan,
        Verdict::WrongBound { .. } => plan,
        Verdict::WrongMark => plan,
        Verdict::NoMemory => plan,
    }
}
