// Laws of greedy lists.
ghost use Rattle.tetri_advice.specs.Creeds.{greedy_list};
ghost use Rattle.tetri_advice.specs.declared.creed.Creed.{Creed};
ghost use Rattle.tetri_space.specs.Lawful.{IsLawful};
ghost use Rattle.tetri_space.specs.Sound.{IsSound};
ghost use Rattle.tetri_space.specs.Space.{space};

use tetri_space::Instance;

/// The list of each creed is lawful.
pub fn greedy_lists_are_lawful(inst: &Instance)
    requires { IsSound (space inst.now) }
    ensures { (c : Creed) → IsLawful (space inst.entry.now) (greedy_list c (space inst.entry.now)) }
{
    let _sets = inst.sets.len();
}
