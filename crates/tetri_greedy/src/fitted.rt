// The placements of one job.
ghost use Rattle.std.specs.Prelude.{◌≡◌, ◌==◌, ◌||◌, ◌∷◌, [], ◌++◌, ◌≤◌, ◌+◌, ℕ, false, nat_lt, drop, length, slice_index_or, take, IfOk, OnOk};
ghost use Rattle.std.specs.List.{list_any};
ghost use Rattle.tetri_advice.specs.Fit.{fit_worth, grants_of, is_held, is_held_by};
ghost use Rattle.tetri_greedy.specs.Fitted.{grown, placement_of, placements_of};
ghost use Rattle.tetri_greedy.specs.Held.{AreHoldable, IsHoldable, all_marked};
ghost use Rattle.tetri_strl.specs.Tree.{tree};
ghost use Rattle.tetri_strl.specs.WellMade.{IsSound};

use crate::held::HeldSlots;
use std::alloc::{AllocError, Global};
use std::marker::Model;
use tetri_strl::{Expr, Grant, Leaf, NodeList, worth_among};

/// Leaves of one job with the nodes that they are to get, in order.
#[derive(Drop)]
pub struct Placements {
    job: u32,
    leaves: Vec<Leaf>,
    grants: Vec<Grant>,
}

impl Model for Placements {
    ghost use Rattle.tetri_greedy.specs.Fitted.{Fitted, placements_of, AreGrantsOf};

    ghost Value = { Fitted };

    ghost view = { λ s. record { job = s.job; placements = placements_of s.leaves.items s.grants.items } };

    ghost invariant = { λ s. AreGrantsOf s.job s.leaves.items s.grants.items };
}

// Whether two leaves have a slot in common.
fn overlap(left: &Leaf, right: &Leaf) -> bool
    ensures { result ≡ Rattle.tetri_advice.specs.Fit.overlap left.now right.now }
{
    begins_before_end(left, right) && begins_before_end(right, left)
}

// Whether the first leaf starts before the other one is over.
fn begins_before_end(first: &Leaf, other: &Leaf) -> bool
    ensures { result ≡ nat_lt first.now.start (other.now.start + other.now.dur) }
{
    u64::from(first.start) < u64::from(other.start) + u64::from(other.dur)
}

// Marks a node; a node past the end is not marked.
fn mark(marks: &mut Vec<bool>, node: u32) -> Result<(), AllocError>
    ensures { OnOk result ((n : ℕ) → slice_index_or marks.new.items n false
        ≡ (slice_index_or marks.old.items n false || node == n)) }
{
    let place = node as usize;
    if marks.len() <= place {
        marks.resize(place + 1, false)?;
    }
    marks[place] = true;
    Ok(())
}

fn mark_each(marks: &mut Vec<bool>, nodes: &[u32]) -> Result<(), AllocError>
    ensures { OnOk result ((n : ℕ) → slice_index_or marks.new.items n false
        ≡ (slice_index_or marks.old.items n false || list_any (λ m. m == n) nodes.now)) }
{
    for node in nodes {
        mark(marks, *node)?;
    }
    Ok(())
}

// Marks the nodes of a grant where its leaf has a slot in common with the leaf.
fn mark_common(
    marks: &mut Vec<bool>,
    own: &Leaf,
    grant: &Grant,
    leaf: &Leaf,
) -> Result<(), AllocError>
    ensures { OnOk result ((n : ℕ) → slice_index_or marks.new.items n false
        ≡ (slice_index_or marks.old.items n false
        || is_held_by leaf.now n (placement_of own.now grant.now))) }
{
    if !overlap(leaf, own) {
        return Ok(());
    }
    mark_each(marks, grant.nodes.as_slice())
}

// For each node up to the last one that is held, whether one of the grants, to these leaves, holds it in some slot
// of the leaf.
fn taken_by(
    alloc: Global,
    leaves: &[Leaf],
    grants: &[Grant],
    leaf: &Leaf,
) -> Result<Vec<bool>, AllocError>
    requires { length leaves.now ≡ length grants.now }
    ensures { IfOk result (λ taken. (n : ℕ) → slice_index_or taken.items n false
        ≡ is_held (placements_of leaves.now grants.now) leaf.now n) }
{
    let mut taken = Vec::new(alloc);
    for (place, own) in leaves.iter().enumerate() {
        mark_common(&mut taken, own, &grants[place], leaf)?;
    }
    Ok(taken)
}

// The grants from a place on.
fn later(grants: &[Grant], place: usize) -> &[Grant]
    requires { place ≤ length grants.now }
    ensures { result.now ≡ drop place grants.now }
{
    &grants[place..]
}

impl Placements {
    ghost use Rattle.std.specs.Prelude.{List};
    ghost use Rattle.tetri_advice.specs.Fit.{Placement};

    /// No placements, for this job.
    pub fn new(alloc: Global, job: u32) -> Placements
        ensures { result ≡ record { job = job; placements = [] } }
    {
        Placements {
            job,
            leaves: Vec::new(alloc),
            grants: Vec::new(alloc),
        }
    }

    /// The number of the job.
    pub fn job(&self) -> u32
        ensures { result ≡ self.now.job }
    {
        self.job
    }

    /// How many placements there are.
    pub fn len(&self) -> usize
        ensures { result ≡ length self.now.placements }
    {
        self.leaves.len()
    }

    /// Puts a leaf with its nodes last.
    pub fn push(&mut self, leaf: Leaf, nodes: NodeList) -> Result<(), AllocError>
        ensures { OnOk result (self.new ≡ grown self.old (record { leaf = leaf; nodes = nodes } ∷ [])) }
    {
        let len = self.leaves.len();
        self.leaves.push(leaf)?;
        let grant = Grant {
            job: self.job,
            leaf: leaf.num,
            nodes,
        };
        match self.grants.push(grant) {
            Ok(()) => Ok(()),
            Err(_) => {
                self.leaves.truncate(len);
                Err(AllocError)
            }
        }
    }

    /// Keeps the first `len` placements.
    pub fn truncate(&mut self, len: usize)
        ensures { self.new ≡ record { job = self.old.job; placements = take len self.old.placements } }
    {
        self.leaves.truncate(len);
        self.grants.truncate(len);
    }

    /// Keeps the first `at` placements, and gives the others.
    pub fn split_off(&mut self, at: usize) -> Result<Placements, AllocError>
        requires { at ≤ length self.old.placements }
        ensures rest { IfOk result (λ p. p ≡ record { job = self.old.job; placements = drop at self.old.placements }) }
        ensures kept { OnOk result (self.new ≡ record { job = self.old.job; placements = take at self.old.placements }) }
    {
        let leaves = self.leaves.split_off(at)?;
        match self.grants.split_off(at) {
            Ok(grants) => Ok(Placements {
                job: self.job,
                leaves,
                grants,
            }),
            Err(_) => {
                self.grants.truncate(at);
                Err(AllocError)
            }
        }
    }

    /// Puts the other placements last.
    pub fn append(&mut self, mut other: Placements) -> Result<(), AllocError>
        requires { other.job ≡ self.old.job }
        ensures { OnOk result (self.new ≡ grown self.old other.placements) }
    {
        let len = self.leaves.len();
        self.leaves.append(&mut other.leaves)?;
        match self.grants.append(&mut other.grants) {
            Ok(()) => Ok(()),
            Err(_) => {
                self.leaves.truncate(len);
                Err(AllocError)
            }
        }
    }

    /// For each node up to the last one that is held, whether one of the placements holds it in some slot of the
    /// leaf. Its only error is want of memory.
    pub fn taken(&self, alloc: Global, leaf: &Leaf) -> Result<Vec<bool>, AllocError>
        ensures { IfOk result (λ taken. (n : ℕ) → slice_index_or taken.items n false
            ≡ is_held self.now.placements leaf.now n) }
    {
        taken_by(alloc, &self.leaves, &self.grants, leaf)
    }

    /// What the placements from a place on are worth to the expression.
    pub fn worth_from(&self, place: usize, e: &Expr) -> u64
        requires sound { IsSound (tree e.now) }
        requires within { place ≤ length self.now.placements }
        ensures { result ≡ fit_worth self.now.job (tree e.now) (drop place self.now.placements) }
    {
        worth_among(e, self.job, later(&self.grants, place))
    }

    /// The grants of the placements, in order.
    pub fn into_grants(self) -> Vec<Grant>
        ensures { result.items ≡ grants_of self.job self.placements }
    {
        self.grants
    }

    /// Holds the nodes of the placements in the slots of their leaves, which are live.
    pub fn hold(&self, now: u32, held: &mut HeldSlots)
        requires { AreHoldable now (length held.old) self.now.placements }
        ensures marks { held.new ≡ all_marked now held.old self.now.placements }
        ensures as_many { length held.new ≡ length held.old }
    {
        hold_each(&self.leaves, &self.grants, now, held);
    }
}

fn hold_each(leaves: &[Leaf], grants: &[Grant], now: u32, held: &mut HeldSlots)
    requires as_long { length leaves.now ≡ length grants.now }
    requires holdable { AreHoldable now (length held.old) (placements_of leaves.now grants.now) }
    ensures marks { held.new ≡ all_marked now held.old (placements_of leaves.now grants.now) }
    ensures as_many { length held.new ≡ length held.old }
{
    for (place, leaf) in leaves.iter().enumerate() {
        hold_one(leaf, &grants[place], now, held);
    }
}

fn hold_one(leaf: &Leaf, grant: &Grant, now: u32, held: &mut HeldSlots)
    requires { IsHoldable now (length held.old) (placement_of leaf.now grant.now) }
    ensures marks { held.new ≡ all_marked now held.old (placement_of leaf.now grant.now ∷ []) }
    ensures as_many { length held.new ≡ length held.old }
{
    held.hold(now, leaf, grant.nodes.as_slice());
}
