// Which jobs of an instance can all be served together.
ghost use Rattle.tetri_space.specs.Sound.{IsSound};
ghost use Rattle.tetri_space.specs.Space.{space};

use std::alloc::{AllocError, Global};
use tetri_reserve::{Answer, admit, answers_are_true, totals_count_wanted_jobs};
use tetri_space::Instance;
use tetri_tables::add_debug;

fn add_answer(out: &mut String, answer: &Answer) -> Result<(), AllocError> {
    add_debug(out, &answer.kind)?;
    write!(out, " {}", answer.job)?;
    if let Some(plan) = &answer.plan {
        write!(out, " {}/{}", plan.value, plan.bound)?;
    }
    write!(out, ";")
}

/// What is answered for each job of an instance with this budget: the kind, the job, and the value and the bound of the plan.
pub fn told(alloc: Global, inst: &Instance, budget: &str) -> Result<String, AllocError>
    requires { IsSound (space inst.now) }
{
    totals_count_wanted_jobs();
    answers_are_true();
    let budget = budget.parse::<u32>().unwrap_or(0);
    let answers = admit(alloc, inst, budget)?;
    let mut out = String::new(alloc);
    for answer in &answers {
        add_answer(&mut out, answer)?;
    }
    Ok(out)
}
