// Ruin and recreate: some jobs near one another are taken out and put in again in another order.
use crate::greedy::{Desk, Rank, fill};
use crate::lists::{at, between};
use crate::market::Market;
use crate::placing::{Stand, place_job};
use crate::plans::{NOTHING, Plan, Share, Use, give, take};
use crate::random::Random;
use crate::turns::Turn;
use std::alloc::{AllocError, Global};

// A job that was taken out, with what it had.
#[derive(Clone, Copy, Debug)]
struct Out {
    job: usize,
    had: Share,
}

// Where plans are ruined and recreated.
#[derive(Drop)]
struct Yard {
    desk: Desk,
    random: Random,
    useful: Vec<usize>,
    free: Vec<u64>,
    wish: Vec<Use>,
    touched: Vec<bool>,
    out: Vec<Out>,
}

// Marks the cells of uses, or unmarks them.
fn mark(market: &Market, uses: &[Use], marked: bool, touched: &mut Vec<bool>) {
    for used in uses {
        let span = market.span(used.span);
        let base = used.part.saturating_mul(market.window);
        let from = base.saturating_add(span.from);
        let to = base.saturating_add(span.to);
        if from <= to && to <= touched.len() {
            for cell in touched[from..to].iter_mut() {
                *cell = marked;
            }
        }
    }
}

// Whether one of the uses touches a marked cell.
fn meets(market: &Market, uses: &[Use], touched: &[bool]) -> bool {
    for used in uses {
        let span = market.span(used.span);
        let base = used.part.saturating_mul(market.window);
        let from = base.saturating_add(span.from);
        let to = base.saturating_add(span.to);
        for cell in between(touched, from, to) {
            if *cell {
                return true;
            }
        }
    }
    false
}

// The jobs that could have something.
fn useful_of(alloc: Global, tops: &[u64]) -> Result<Vec<usize>, AllocError> {
    let mut useful = Vec::new(alloc);
    for (job, top) in tops.iter().enumerate() {
        if *top > 0 {
            useful.push(job)?;
        }
    }
    Ok(useful)
}

impl Yard {
    fn new(alloc: Global, market: &Market, tops: &[u64]) -> Result<Yard, AllocError> {
        Ok(Yard {
            desk: Desk::new(alloc, market)?,
            random: Random::new(),
            useful: useful_of(alloc, tops)?,
            free: Vec::new(alloc),
            wish: Vec::new(alloc),
            touched: vec![in alloc; false; market.cells()]?,
            out: Vec::new(alloc),
        })
    }

    // Some job that could have something.
    fn some_job(&mut self) -> usize {
        let place = self.random.below(self.useful.len());
        match self.useful.get(place) {
            Some(job) => *job,
            None => 0,
        }
    }

    // A job that could have more than it has, if one is soon found.
    fn poor_job(&mut self, plan: &Plan, tops: &[u64]) -> usize {
        let mut job = self.some_job();
        for _ in 0..4 {
            if plan.share(job).worth < at(tops, job) {
                break;
            }
            job = self.some_job();
        }
        job
    }

    // Takes from what is free what some of the other jobs have.
    fn leave_some(&mut self, market: &Market, plan: &Plan, job: usize) {
        for place in 0..self.useful.len() {
            let other = match self.useful.get(place) {
                Some(other) => *other,
                None => job,
            };
            if other != job && plan.share(other).worth > 0 && self.random.below(3) > 0 {
                take(market, plan.uses_of(other), &mut self.free);
            }
        }
    }

    // What a job would like: what it has, or what it would get if some others had nothing.
    fn make_wish(&mut self, stand: &Stand, plan: &Plan, place: usize) -> Result<(), AllocError> {
        self.wish.clear();
        if plan.share(place).worth > 0 && self.random.below(2) == 0 {
            self.wish.extend_from_slice(plan.uses_of(place))?;
            return Ok(());
        }
        self.free.clear();
        self.free.extend_from_slice(&stand.market.free)?;
        if self.random.below(3) > 0 {
            self.leave_some(stand.market, plan, place);
        }
        let stand = Stand {
            priced: self.random.below(2) == 0,
            ..*stand
        };
        if let Some(job) = stand.market.jobs.get(place) {
            let heads = &mut self.desk.heads;
            place_job(&stand, job, &mut self.free, &mut self.wish, heads)?;
        }
        Ok(())
    }

    // Whether a job is to be taken out already.
    fn is_out(&self, job: usize) -> bool {
        for out in &self.out {
            if out.job == job {
                return true;
            }
        }
        false
    }

    // Adds a job to those that are taken out.
    fn add_out(&mut self, plan: &Plan, job: usize) -> Result<(), AllocError> {
        self.out.push(Out {
            job,
            had: plan.share(job),
        })?;
        Ok(())
    }

    // Adds some jobs that use what is wished for.
    fn add_near(&mut self, market: &Market, plan: &Plan, first: usize) -> Result<(), AllocError> {
        let most = self.random.below(16).saturating_add(4);
        let count = self.useful.len();
        let mut place = self.random.below(count);
        mark(market, &self.wish, true, &mut self.touched);
        for _ in 0..count {
            let job = match self.useful.get(place) {
                Some(job) => *job,
                None => first,
            };
            if job != first
                && plan.share(job).worth > 0
                && meets(market, plan.uses_of(job), &self.touched)
            {
                self.add_out(plan, job)?;
            }
            if self.out.len() >= most {
                break;
            }
            place = place.saturating_add(1);
            if place >= count {
                place = 0;
            }
        }
        mark(market, &self.wish, false, &mut self.touched);
        Ok(())
    }

    // A job that has nothing, and gains more than others that were met, if one is soon found.
    fn idle_job(&mut self, stand: &Stand, plan: &Plan) -> usize {
        let mut job = self.some_job();
        for _ in 0..2 {
            let other = self.some_job();
            let better = plan.share(other).worth == 0
                && gain_of(stand, job) < gain_of(stand, other);
            if plan.share(job).worth > 0 || better {
                job = other;
            }
        }
        job
    }

    // Adds some jobs that have nothing.
    fn add_idle(&mut self, stand: &Stand, plan: &Plan) -> Result<(), AllocError> {
        for _ in 0..12 {
            let job = self.idle_job(stand, plan);
            if plan.share(job).worth == 0 && !self.is_out(job) {
                self.add_out(plan, job)?;
            }
        }
        Ok(())
    }

    // Takes out what was picked.
    fn ruin(&mut self, market: &Market, plan: &mut Plan) {
        for out in &self.out {
            give(market, plan.uses_of(out.job), &mut self.desk.left);
            plan.put(out.job, NOTHING);
        }
    }

    // A key for one of the jobs that were taken out, in one of eight orders: a lesser one comes first.
    fn key(&mut self, stand: &Stand, tops: &[u64], order: usize, place: usize, job: usize) -> u64 {
        let top = at(tops, job);
        let gain = gain_of(stand, job);
        let size = match stand.market.jobs.get(job) {
            Some(job) => job.size.max(1),
            None => 1,
        };
        let is_first = match order {
            1 | 6 | 7 => place == 0,
            3 => self.random.below(4) == 0,
            _ => false,
        };
        if is_first {
            return 0;
        }
        let rank = match order {
            0 => self.random.below(1024) as u64,
            1 => top,
            2 | 3 => top / size,
            4 | 6 => gain / size,
            5 => gain,
            _ => size,
        };
        u64::MAX.saturating_sub(rank)
    }

    // Puts the jobs that were taken out in another order.
    fn rank(&mut self, stand: &Stand, tops: &[u64]) -> Result<(), AllocError> {
        let order = self.random.below(8);
        self.desk.ranks.clear();
        for place in 0..self.out.len() {
            let job = match self.out.get(place) {
                Some(out) => out.job,
                None => 0,
            };
            let key = self.key(stand, tops, order, place, job);
            self.desk.ranks.push(Rank { key, job })?;
        }
        self.desk.ranks.sort_unstable();
        Ok(())
    }

    // Puts in again what was taken out.
    fn recreate(&mut self, stand: &Stand, plan: &mut Plan) -> Result<(), AllocError> {
        let desk = &mut self.desk;
        let stand = Stand {
            salt: self.random.salt(),
            ..*stand
        };
        if self.random.below(4) > 0 {
            fill(&stand, &desk.ranks, &mut desk.left, &mut desk.heads, plan)?;
        }
        let stand = Stand {
            priced: false,
            ..stand
        };
        fill(&stand, &desk.ranks, &mut desk.left, &mut desk.heads, plan)
    }

    // Makes the plan what it was, with so many uses.
    fn undo(&mut self, market: &Market, plan: &mut Plan, uses: usize) {
        for out in &self.out {
            give(market, plan.uses_of(out.job), &mut self.desk.left);
        }
        plan.uses.truncate(uses);
        for out in &self.out {
            plan.put(out.job, out.had);
            take(market, plan.uses_of(out.job), &mut self.desk.left);
        }
    }

    // Takes out and puts in again once. What loses more than some multiple by chance of the slack is undone.
    fn change(
        &mut self,
        stand: &Stand,
        plan: &mut Plan,
        tops: &[u64],
        slack: u64,
    ) -> Result<(), AllocError> {
        let first = self.poor_job(plan, tops);
        self.make_wish(stand, plan, first)?;
        if self.wish.is_empty() {
            return Ok(());
        }
        self.out.clear();
        self.add_out(plan, first)?;
        self.add_near(stand.market, plan, first)?;
        self.add_idle(stand, plan)?;
        let total = plan.total;
        let uses = plan.uses.len();
        self.ruin(stand.market, plan);
        self.rank(stand, tops)?;
        self.recreate(stand, plan)?;
        let allowed = slack.saturating_mul(self.random.logarithm()) / 1024;
        if plan.total.saturating_add(allowed) < total {
            self.undo(stand.market, plan, uses);
        }
        Ok(())
    }
}

// By how much a round may lose, about: less and less.
fn slack_of(total: u64, round: u64, rounds: u64) -> u64 {
    let left = rounds.saturating_sub(round);
    let slack = (total / 6000).saturating_mul(left) / rounds.max(1);
    slack.saturating_mul(left) / rounds.max(1)
}

// What a job gains.
fn gain_of(stand: &Stand, job: usize) -> u64 {
    match stand.market.jobs.get(job) {
        Some(job) => at(stand.gains, job.first),
        None => 0,
    }
}

// A plan may hold so many uses that were given up before it is copied.
const SPARE: usize = 100_000;

/// Betters a plan by ruin and recreate in so many rounds, under the prices of a turn, until it is
/// worth the limit. Schrimpf and others 2000; Shaw 1998.
pub fn repair(
    alloc: Global,
    market: &Market,
    turn: &Turn,
    tops: &[u64],
    rounds: u64,
    limit: u64,
    best: &mut Plan,
) -> Result<(), AllocError> {
    let mut yard = Yard::new(alloc, market, tops)?;
    let mut plan = Plan::new(alloc, market)?;
    let mut spare = Plan::new(alloc, market)?;
    plan.copy(best)?;
    take(market, &plan.uses, &mut yard.desk.left);
    let stand = Stand {
        market,
        places: &turn.places,
        gains: &turn.gains,
        priced: true,
        salt: 0,
    };
    for round in 0..rounds {
        if best.total >= limit {
            break;
        }
        let slack = slack_of(plan.total, round, rounds);
        yard.change(&stand, &mut plan, tops, slack)?;
        if plan.total > best.total {
            best.copy(&plan)?;
        }
        if plan.uses.len() > SPARE {
            spare.copy(&plan)?;
            plan.copy(&spare)?;
        }
    }
    Ok(())
}
