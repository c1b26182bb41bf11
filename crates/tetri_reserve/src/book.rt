// The jobs that are booked.
ghost use Rattle.std.specs.Prelude.{◌≡◌, ◌<◌, ◌≤◌, ◌+◌, ℕ, [], ◌∷◌, ◌++◌, List, Contains, length, IfOk, OnOk, if◌then◌else◌};
ghost use Rattle.tetri_strl.specs.declared.grants.Grant.{Grant};
ghost use Rattle.tetri_strl.specs.Tree.{tree};
ghost use Rattle.tetri_strl.specs.WellMade.{depth};
ghost use Rattle.tetri_space.specs.Lawful.{IsLawful};
ghost use Rattle.tetri_space.specs.Sound.{IsSound};
ghost use Rattle.tetri_space.specs.Space.{Bid, Space, bid, space};
ghost use Rattle.tetri_space.specs.Total.{total_in};
ghost use Rattle.tetri_space.specs.Trimmed.{IsThriftyForAll};
ghost use Rattle.tetri_split.specs.Parts.{jobs_in};
ghost use Rattle.tetri_reserve.specs.Answers.{IsAnswered, IsPlanOf, Says, carried_on, grants_of, is_booked};
ghost use Rattle.tetri_reserve.specs.Book.{IsBook, IsBookAt, kept_on};
ghost use Rattle.tetri_reserve.specs.Wanted.{wanted_bid, with_bid};
ghost use Rattle.tetri_reserve.specs.declared.answer.Answer.{Answer};

use crate::answer::{Answer, AnswerKind};
use crate::depths::depth_of;
use std::alloc::{AllocError, Global};
use std::rc::Rc;
use tetri_plan::{Plan, choose};
use tetri_space::{Instance, Offer};
use tetri_strl::{Allotment, Expr, copy_expr, copy_grants};

/// The jobs of an instance that are booked, while its jobs are answered for one after another.
#[derive(Drop)]
pub struct Book {
    /// The instance with the booked jobs alone, each worth 1 where it is worth something, and else 0.
    pub wanted: Instance,
    /// The grants that serve them, by job and leaf.
    pub carry: Allotment,
}

impl Book {
    /// The book of an instance before the first answer, where no job is booked. Its only error is want of memory.
    pub fn new(alloc: Global, inst: &Instance) -> Result<Book, AllocError>
        ensures { IfOk result (λ book. (budget : ℕ) → IsBook (space inst.entry.now) budget 0 [] (space book.wanted) book.carry) }
    {
        let book = Book::empty(alloc, inst)?;
        Ok(book)
    }

    // No booked jobs, of an instance.
    fn empty(alloc: Global, inst: &Instance) -> Result<Book, AllocError>
        ensures wanted { IfOk result (λ book. space book.wanted ≡ record (space inst.entry.now) { bids = [] }) }
        ensures carry { IfOk result (λ book. book.carry ≡ []) }
    {
        Ok(Book {
            wanted: Instance {
                now: inst.now,
                window: inst.window,
                nodes: inst.nodes,
                sets: Rc::clone(&inst.sets)?,
                busy_until: Vec::from_slice(alloc, &inst.busy_until)?,
                drained: Vec::from_slice(alloc, &inst.drained)?,
                closures: Rc::clone(&inst.closures)?,
                jobs: Vec::new(alloc),
            },
            carry: Allotment::new(alloc),
        })
    }

    // Plans for the booked jobs and one more, which is wanted with them from now on.
    fn plan_with(&mut self, alloc: Global, offer: &Offer, budget: u32) -> Result<Plan, AllocError>
        requires sound { IsSound (with_bid (space self.old.wanted) (bid offer.now)) }
        requires lawful { IsLawful (with_bid (space self.old.wanted) (bid offer.now)) self.old.carry }
        requires thrifty { IsThriftyForAll (with_bid (space self.old.wanted) (bid offer.now)) self.old.carry }
        ensures wanted { OnOk result (space self.new.wanted ≡ with_bid (space self.old.wanted) (bid offer.entry.now)) }
        ensures carry { OnOk result (self.new.carry ≡ self.old.carry) }
        ensures plan { IfOk result (IsPlanOf (with_bid (space self.old.wanted) (bid offer.entry.now)) self.old.carry budget) }
    {
        let offered = wanted_offer(alloc, offer)?;
        self.wanted.jobs.push(offered)?;
        let plan = choose(alloc, &self.wanted, &self.carry, &[], budget)?;
        Ok(plan)
    }

    // Books the job that was wanted last, with the grants of its plan, or gives it up.
    fn keep(&mut self, alloc: Global, kind: AnswerKind, plan: &Plan) -> Result<(), AllocError>
        ensures wanted { OnOk result ((s : Space) (b : Bid) → space self.old.wanted ≡ with_bid s b
            → space self.new.wanted ≡ (if is_booked kind then with_bid s b else s)) }
        ensures carry { OnOk result (self.new.carry ≡ (if is_booked kind then plan.entry.now.grants else self.old.carry)) }
    {
        if kind.is_booked() {
            self.carry = copy_grants(alloc, &plan.grants)?;
        } else {
            let _ = self.wanted.jobs.pop();
        }
        Ok(())
    }

    // Answers whether one more job can be served together with the booked ones, and books it where it can.
    fn answer(&mut self, alloc: Global, offer: &Offer, budget: u32) -> Result<Answer, AllocError>
        requires shallow { depth (tree offer.now.expr) ≤ 64 }
        requires sound { depth (tree offer.now.expr) < 64 → IsSound (with_bid (space self.old.wanted) (bid offer.now)) }
        requires lawful { IsLawful (with_bid (space self.old.wanted) (bid offer.now)) self.old.carry }
        requires thrifty { IsThriftyForAll (with_bid (space self.old.wanted) (bid offer.now)) self.old.carry }
        requires few { (a : List Grant) → total_in (with_bid (space self.old.wanted) (bid offer.now)) a
            ≤ length (with_bid (space self.old.wanted) (bid offer.now)).bids }
        ensures job { IfOk result (λ a. a.job ≡ offer.entry.now.job) }
        ensures answered { IfOk result (λ a. IsAnswered (with_bid (space self.old.wanted) (bid offer.entry.now))
            (depth (tree offer.entry.now.expr)) self.old.carry budget a.kind a.plan) }
        ensures wanted { IfOk result (λ a. space self.new.wanted ≡ kept_on (space self.old.wanted) (bid offer.entry.now) a) }
        ensures carry { IfOk result (λ a. self.new.carry ≡ carried_on self.old.carry a) }
    {
        if depth_of(&offer.expr) == 64 {
            return Ok(Answer {
                job: offer.job,
                kind: AnswerKind::Deep,
                plan: None,
            });
        }
        let plan = self.plan_with(alloc, offer, budget)?;
        let kind = kind_of(self.wanted.jobs.len() as u64, &plan);
        self.keep(alloc, kind, &plan)?;
        Ok(Answer {
            job: offer.job,
            kind,
            plan: Some(plan),
        })
    }

    /// Answers for the job at this place of the instance, behind answers for all jobs before it, whether it can be served together with
    /// the booked ones, and books it where it can. Its only error is want of memory, and then the book is of no use.
    pub fn answer_next(
        &mut self,
        alloc: Global,
        inst: &Instance,
        place: usize,
        budget: u32,
    ) -> Result<Answer, AllocError>
        requires sound { IsSound (space inst.now) }
        requires within { place < length (space inst.now).bids }
        requires book { IsBookAt (space inst.now) budget place (space self.old.wanted) self.old.carry }
        ensures pending { IfOk result (λ a. Contains (jobs_in (space inst.entry.now).bids) a.job) }
        ensures lawful { IfOk result (λ a. IsLawful (space inst.entry.now) (grants_of a.plan)) }
        ensures book { IfOk result (λ a. (answers : List Answer)
            → IsBook (space inst.entry.now) budget place answers (space self.old.wanted) self.old.carry
            → IsBook (space inst.entry.now) budget (place + 1) (answers ++ a ∷ []) (space self.new.wanted) self.new.carry) }
    {
        let answer = self.answer(alloc, &inst.jobs[place], budget)?;
        Ok(answer)
    }
}

// The same job, worth 1 where it is worth something, and else 0.
fn wanted_offer(alloc: Global, offer: &Offer) -> Result<Offer, AllocError>
    ensures { IfOk result (λ made. bid made ≡ wanted_bid (bid offer.now)) }
{
    let expr = copy_expr(alloc, &offer.expr)?;
    Ok(Offer {
        job: offer.job,
        expr: Expr::Barrier(Box::new(alloc, expr)?, 1),
    })
}

// What a plan for so many wanted jobs says.
fn kind_of(count: u64, plan: &Plan) -> AnswerKind
    requires { plan.now.value ≤ count }
    ensures { Says count plan.now result }
{
    if plan.value == count {
        AnswerKind::Admitted
    } else if plan.bound < count {
        AnswerKind::Refused
    } else {
        AnswerKind::Undecided
    }
}
