// Laws of policies.
ghost use Rattle.tetri_policy.specs.Policies.{policy_grants};
ghost use Rattle.tetri_policy.specs.declared.policy.Policy.{Policy};
ghost use Rattle.std.specs.Prelude.{All};
ghost use Rattle.std.specs.List.Sorted.{IsStrictlyIncreasing};
ghost use Rattle.tetri_space.specs.Lawful.{IsLawful};
ghost use Rattle.tetri_space.specs.Sound.{IsSound};
ghost use Rattle.tetri_space.specs.Space.{space};
ghost use Rattle.tetri_space.specs.Trimmed.{IsThriftyForAll};

use tetri_space::Instance;

/// The grants of each policy are lawful, and none of them is wasted.
pub fn policies_are_lawful(inst: &Instance)
    requires { IsSound (space inst.now) }
    ensures lawful { (p : Policy) → IsLawful (space inst.entry.now) (policy_grants p (space inst.entry.now)) }
    ensures thrifty { (p : Policy) → IsThriftyForAll (space inst.entry.now) (policy_grants p (space inst.entry.now)) }
{
    let _sets = inst.sets.len();
}
