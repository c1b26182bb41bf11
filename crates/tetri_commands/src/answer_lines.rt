// The lines of an answer, and the last line.
ghost use Rattle.std.specs.Prelude.{◌≡◌, ◌<◌, IfOk, length, string_bytes};
ghost use Rattle.tetri_commands.specs.AnswerText.{answer_text, booked_line, shown_text, word_of};
ghost use Rattle.tetri_commands.specs.Printing.{IsInstanceOf};
ghost use Rattle.tetri_report.specs.Text.{name_line};
ghost use Rattle.tetri_reserve.specs.Answers.{grants_of};
ghost use Rattle.tetri_space.specs.Lawful.{IsLawful};
ghost use Rattle.tetri_space.specs.Space.{space};
ghost use Rattle.tetri_trace.specs.Scenario.{scenario};

use std::alloc::{AllocError, Global};
use std::fmt::Write;
use tetri_plan::Plan;
use tetri_report::{name_of, print_plan};
use tetri_reserve::{Answer, AnswerKind};
use tetri_space::Instance;
use tetri_state::starts_of;
use tetri_trace::Trace;

// The word of a kind of answer.
fn word_of(kind: AnswerKind) -> &'static str
    ensures { result.now ≡ word_of kind }
{
    match kind {
        AnswerKind::Admitted => "admitted",
        AnswerKind::Refused => "refused",
        AnswerKind::Undecided => "undecided",
        AnswerKind::Deep => "deep",
    }
}

// A word and a job's name.
#[tactic(auto, unfolding(tetri_report::specs::Text::name_line))]
fn name_line(alloc: Global, word: &str, name: &str) -> Result<Vec<u8>, AllocError>
    ensures { IfOk result (λ v. v.items ≡ name_line word.now name.now) }
{
    let mut out = String::new(alloc);
    write!(out, "{word} {name}\n")?;
    Ok(out.into_bytes())
}

// The lines of a plan for an instance of the trace, whose grants have the starts of their leaves; none without a plan.
fn shown_text(
    alloc: Global,
    trace: &Trace,
    inst: &Instance,
    plan: &Option<Plan>,
) -> Result<Vec<u8>, AllocError>
    requires instance { IsInstanceOf (scenario trace.now) (space inst.now) }
    requires lawful { IsLawful (space inst.now) (grants_of plan.now) }
    ensures { IfOk result (λ v. v.items ≡ shown_text (scenario trace.entry.now) (space inst.entry.now) plan.entry.now) }
{
    match plan {
        Some(plan) => {
            let starts = starts_of(alloc, inst, plan.grants.as_slice())?;
            print_plan(
                alloc,
                trace,
                plan.value,
                plan.bound,
                plan.mark,
                plan.nodes,
                &plan.grants,
                &starts,
                &plan.certificate,
            )
        }
        None => Ok(Vec::new(alloc)),
    }
}

/// What is answered for a job of an instance of the trace, and the plan that shows it.
pub(crate) fn answer_text(
    alloc: Global,
    trace: &Trace,
    inst: &Instance,
    answer: &Answer,
) -> Result<Vec<u8>, AllocError>
    requires instance { IsInstanceOf (scenario trace.now) (space inst.now) }
    requires known { answer.now.job < length (scenario trace.now).submissions }
    requires lawful { IsLawful (space inst.now) (grants_of answer.now.plan) }
    ensures { IfOk result (λ v. v.items ≡ answer_text (scenario trace.entry.now) (space inst.entry.now) answer.entry.now) }
{
    let mut text = name_line(alloc, word_of(answer.kind), name_of(trace, answer.job))?;
    let shown = shown_text(alloc, trace, inst, &answer.plan)?;
    text.extend_from_slice(&shown)?;
    Ok(text)
}

/// How many jobs are booked, of how many.
#[tactic(auto, unfolding(crate::specs::AnswerText::booked_line))]
pub(crate) fn booked_line(alloc: Global, count: usize, jobs: usize) -> Result<Vec<u8>, AllocError>
    ensures { IfOk result (λ v. v.items ≡ booked_line count jobs) }
{
    let mut out = String::new(alloc);
    write!(out, "booked {count} of {jobs}\n")?;
    Ok(out.into_bytes())
}
