//! Dictionaries whose rows are whole numbers over one denominator, where these are short.

use crate::choices::Candidate;
use crate::dictionary::Dictionary;
use crate::fault::PivotFault;
use crate::holders::pivot_held;
use crate::mixed::{MixedRow, entering_row, leaving_row, number_at, rises};
use crate::whole_start::first_whole;
use std::alloc::{AllocError, Global};
use std::mem;
use tetri_ip::{Program, Region};
use tetri_num::{Frac, Place};
use tetri_rows::Terms;

/// A dictionary whose rows are whole numbers over one denominator while all numbers of the row are
/// short, and fractions else. A pivot touches the rows with the entering variable alone, and in a
/// whole row the places alone at which the row of the entering variable is not 0.
#[derive(Drop)]
pub struct Whole {
    pub(crate) nonbasic: Vec<usize>,
    pub(crate) basic: Vec<usize>,
    // the rows of the basic places, and last the objective's
    pub(crate) rows: Vec<MixedRow>,
    // whether the constant of each row is below 0
    pub(crate) below: Vec<bool>,
    // for each nonbasic place, which rows may have its variable
    pub(crate) holders: Vec<Vec<u64>>,
    // where a pivot lists the terms of the entering variable's row
    pub(crate) terms: Terms,
}

impl Dictionary for Whole {
    ghost use Rattle.tetri_dictionary.specs.Whole.{table_of, IsWhole};

    ghost table = { λ t. table_of t };

    ghost is_sound = { λ t. IsWhole t };

    fn start(alloc: Global, p: &Program, r: &Region) -> Result<Self, AllocError> {
        first_whole(alloc, p, r)
    }

    fn nonbasic(&self) -> &[usize] {
        &self.nonbasic
    }

    fn basic(&self) -> &[usize] {
        &self.basic
    }

    fn at(&self, row: u32, column: u32) -> Frac {
        let columns = self.nonbasic.len() as u32;
        let numbers = &self.rows[row as usize];
        if column == columns {
            number_at(columns, numbers, 0)
        } else {
            number_at(columns, numbers, column as usize + 1)
        }
    }

    fn leaving(&self) -> Option<u32> {
        leaving_row(&self.basic, &self.below)
    }

    fn rises(&self, row: u32) -> bool {
        rises(self.nonbasic.len() as u32, &self.rows[row as usize])
    }

    fn entering(&self, row: u32) -> Result<Option<Candidate>, Place> {
        let objective = &self.rows[self.basic.len()];
        entering_row(&self.nonbasic, &self.rows[row as usize], objective, row)
    }

    fn pivot(&mut self, alloc: Global, row: u32, column: u32) -> Result<(), PivotFault> {
        let columns = self.nonbasic.len() as u32;
        let rows = &mut self.rows;
        let below = &mut self.below;
        let holders = &mut self.holders;
        match pivot_held(
            alloc,
            columns,
            rows,
            below,
            holders,
            &mut self.terms,
            row,
            column,
        ) {
            Ok(()) => {
                mem::swap(
                    &mut self.nonbasic[column as usize],
                    &mut self.basic[row as usize],
                );
                Ok(())
            }
            Err(fault) => Err(fault),
        }
    }
}
