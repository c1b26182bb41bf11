// Laws of expressions.
ghost use Rattle.std.specs.Prelude.{◌≡◌, ℕ, List};
ghost use Rattle.tetri_strl.specs.Aligned.{IsAligned};
ghost use Rattle.tetri_strl.specs.Thrifty.{HasGrant, HasOneHeldStart, IsThriftyFor};
ghost use Rattle.tetri_strl.specs.Tree.{tree};
ghost use Rattle.tetri_strl.specs.WellMade.{IsSound};
ghost use Rattle.tetri_strl.specs.Worth.{worth_of};
ghost use Rattle.tetri_strl.specs.declared.grants.Grant.{Grant};

use crate::expr::Expr;

/// What is worth something has a grant. So where a `max` is worth something, its first part of
/// greatest worth has one, and what `waste` finds below another part lies beside a part that has
/// grants.
pub fn worth_comes_of_grants(e: &Expr)
    requires { IsSound (tree e.now) }
    ensures { (a : List Grant) (job : ℕ) → (worth_of a job (tree e.now) ≡ 0 → ⊥)
        → HasGrant a job (tree e.now) }
{}

/// A thrifty allotment starts all that it gives to a job in one slot.
pub fn thrifty_grants_start_together(e: &Expr)
    requires { IsAligned (tree e.now) }
    ensures { (a : List Grant) (job : ℕ) → IsThriftyFor a job (tree e.now)
        → HasOneHeldStart a job (tree e.now) }
{}
