// Which jobs of an instance can all be served together.
ghost use Rattle.std.specs.Prelude.{IfOk};
ghost use Rattle.tetri_space.specs.Sound.{IsSound};
ghost use Rattle.tetri_space.specs.Space.{space};
ghost use Rattle.tetri_reserve.specs.Answers.{AreAnswers};
ghost use Rattle.tetri_reserve.specs.Meaning.{AreTrue};

use crate::answer::Answer;
use crate::book::Book;
use std::alloc::{AllocError, Global};
use tetri_space::Instance;

/// Answers for each job of the instance, in order, whether it can be served together with the jobs booked before it. Each job that can is
/// booked. A plan for the booked jobs and this one, each worth 1 where it is worth something, decides: with a value of as many as they
/// are the job is admitted, with a lower bound it is refused, and else it stays undecided. The plan is the chosen one with the
/// grants that serve the booked jobs carried over, and this budget. Its only error is want of memory.
pub fn admit(alloc: Global, inst: &Instance, budget: u32) -> Result<Vec<Answer>, AllocError>
    requires { IsSound (space inst.now) }
    ensures answers { IfOk result (λ answers. AreAnswers (space inst.entry.now) budget answers.items) }
    ensures meaning { IfOk result (λ answers. AreTrue (space inst.entry.now) budget answers.items) }
{
    let mut book = Book::new(alloc, inst)?;
    let mut answers = Vec::new(alloc);
    for place in 0..inst.jobs.len() {
        let answer = book.answer_next(alloc, inst, place, budget)?;
        answers.push(answer)?;
    }
    Ok(answers)
}
