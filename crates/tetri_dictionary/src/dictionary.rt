//! The dictionaries of the method, as a run uses them.

ghost use Rattle.std.specs.Prelude.{◌≡◌, ◌≢◌, ◌<◌, ◌≤◌, length, get_or, suc, Ok, Err, IfOk, IfSome, MatchResult, pos};
ghost use Rattle.tetri_algebra.specs.RationalRing.{zero_ℚ};
ghost use Rattle.tetri_num.specs.Frac.{value};
ghost use Rattle.tetri_ip.specs.Points.{IsFit, IsInBox, bounds_of};
ghost use Rattle.tetri_dictionary.specs.Candidates.{candidate_of, IsCandidate};
ghost use Rattle.tetri_dictionary.specs.Choices.{leaving, entering, has_positive};
ghost use Rattle.tetri_dictionary.specs.Faults.{IsFault};
ghost use Rattle.tetri_dictionary.specs.Pivots.{pivoted};
ghost use Rattle.tetri_dictionary.specs.Start.{first_table};
ghost use Rattle.tetri_dictionary.specs.Tables.{Table, row_at, constant_of, coefficients_of};

use crate::choices::Candidate;
use crate::fault::PivotFault;
use std::alloc::{AllocError, Global};
use tetri_ip::{Program, Region};
use tetri_num::{Frac, Place};

/// A dictionary: each basic variable, and the objective, as a constant and a combination of the
/// nonbasic variables. The rows of the basic places stand first and the objective's behind them;
/// the columns of the nonbasic places stand first and the constants' behind them.
pub trait Dictionary: Drop + Sized {
    /// The variables at the places, and the numbers.
    ghost table: { Self → Table };

    /// What the representation keeps.
    ghost is_sound: { Self → Type 0 };

    /// The first dictionary of a program over a region. Its only error is want of memory.
    fn start(alloc: Global, p: &Program, r: &Region) -> Result<Self, AllocError>
        requires fit { IsFit p.now }
        requires in_box { IsInBox p.now (bounds_of r.now) }
        ensures first { IfOk result (λ d. table d ≡ first_table p.now (bounds_of r.now)) }
        ensures sound { IfOk result (λ d. is_sound d) };

    /// The variables at the nonbasic places.
    fn nonbasic(&self) -> &[usize]
        requires { is_sound self.now }
        ensures { result.now ≡ (table self.now).nonbasic };

    /// The variables at the basic places.
    fn basic(&self) -> &[usize]
        requires { is_sound self.now }
        ensures { result.now ≡ (table self.now).basic };

    /// A number, 0 included.
    fn at(&self, row: u32, column: u32) -> Frac
        requires sound { is_sound self.now }
        requires row { row ≤ length (table self.now).basic }
        requires column { column ≤ length (table self.now).nonbasic }
        ensures constant { column ≡ length (table self.now).nonbasic → value result ≡ constant_of (row_at (table self.now) row) }
        ensures coefficient { column < length (table self.now).nonbasic →
            value result ≡ get_or (coefficients_of (row_at (table self.now) row)) column zero_ℚ };

    /// The basic place that leaves: of those with a constant below 0 the one with the least
    /// variable.
    fn leaving(&self) -> Option<u32>
        requires { is_sound self.now }
        ensures place { result ≡ leaving (table self.now) }
        ensures within { IfSome result (λ i. i < length (table self.now).basic) };

    /// Whether a coefficient of the row is above 0.
    fn rises(&self, row: u32) -> bool
        requires sound { is_sound self.now }
        requires row { row < length (table self.now).basic }
        ensures { result ≡ has_positive (coefficients_of (row_at (table self.now) row)) };

    /// The nonbasic place that enters where the row leaves: of those with a coefficient above 0
    /// there the one with the least ratio of minus the objective's coefficient to it. The error
    /// is the first ratio that leaves the range.
    fn entering(&self, row: u32) -> Result<Option<Candidate>, Place>
        requires sound { is_sound self.now }
        requires row { row < length (table self.now).basic }
        ensures formed { let found = entering (table self.now) row in
            MatchResult result (λ o. found ≡ Ok (candidate_of o)) (λ e. found ≡ Err e) }
        ensures positive { IfOk result (λ o. IfSome o (λ c. IsCandidate (table self.now).nonbasic (row_at (table self.now) row) c)) };

    /// Exchanges the variables of a row and of a column. The error is the first number that leaves
    /// the range, or want of memory; the dictionary is spent then.
    fn pivot(&mut self, alloc: Global, row: u32, column: u32) -> Result<(), PivotFault>
        requires sound { is_sound self.old }
        requires row { row < length (table self.old).basic }
        requires column { column < length (table self.old).nonbasic }
        requires pivot { (get_or (row_at (table self.old) row) (suc column) zero_ℚ).num ≢ pos 0 }
        ensures formed { let next = pivoted (table self.old) row column in
            MatchResult result (λ _. next ≡ Ok (table self.new)) (λ e. IsFault e next) }
        ensures sound { IfOk result (λ _. is_sound self.new) };
}
