// A plan has one verdict.
ghost use Rattle.std.specs.Prelude.{◌≡◌, ℕ};
ghost use Rattle.tetri_claims.specs.Planned.{Planned};
ghost use Rattle.tetri_judge.specs.Verdict.{IsFirstFailed};
ghost use Rattle.tetri_judge.specs.declared.verdict.Verdict.{Verdict};
ghost use Rattle.tetri_space.specs.Sound.{IsSound};
ghost use Rattle.tetri_space.specs.Space.{Space};

/// Two verdicts that tell the first test which a plan fails are the same.
pub fn plans_have_one_verdict()
    ensures { (s : Space) (carried budget : ℕ) (p : Planned) (v w : Verdict) → IsSound s → IsFirstFailed s carried budget p v
        → IsFirstFailed s carried budget p w → v ≡ w }
{}
