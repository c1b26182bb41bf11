//! Full tables: each number of the dictionary is stored.

use crate::choices::{Candidate, entering_place, has_positive, leaving_place};
use crate::dictionary::Dictionary;
use crate::fault::PivotFault;
use crate::rows::pivot_rows;
use crate::start::first_table;
use std::alloc::{AllocError, Global};
use std::mem;
use tetri_ip::{Program, Region};
use tetri_num::{Frac, Place};

/// A full table. The variables at the nonbasic and at the basic places; the rows of the basic
/// places, and last the objective's.
#[derive(Drop)]
pub struct Full {
    pub(crate) nonbasic: Vec<usize>,
    pub(crate) basic: Vec<usize>,
    pub(crate) rows: Vec<Vec<Frac>>,
}

impl Dictionary for Full {
    ghost use Rattle.tetri_dictionary.specs.Full.{table_of, IsShaped};

    ghost table = { λ t. table_of t };

    ghost is_sound = { λ t. IsShaped t };

    fn start(alloc: Global, p: &Program, r: &Region) -> Result<Self, AllocError> {
        first_table(alloc, p, r)
    }

    fn nonbasic(&self) -> &[usize] {
        &self.nonbasic
    }

    fn basic(&self) -> &[usize] {
        &self.basic
    }

    fn at(&self, row: u32, column: u32) -> Frac {
        let numbers = &self.rows[row as usize];
        if column as usize == self.nonbasic.len() {
            numbers[0]
        } else {
            numbers[column as usize + 1]
        }
    }

    fn leaving(&self) -> Option<u32> {
        leaving_place(self.nonbasic.len() as u32, &self.basic, &self.rows)
    }

    fn rises(&self, row: u32) -> bool {
        has_positive(&self.rows[row as usize])
    }

    fn entering(&self, row: u32) -> Result<Option<Candidate>, Place> {
        let objective = &self.rows[self.basic.len()];
        entering_place(&self.nonbasic, &self.rows[row as usize], objective, row)
    }

    fn pivot(&mut self, alloc: Global, row: u32, column: u32) -> Result<(), PivotFault> {
        let columns = self.nonbasic.len() as u32;
        match pivot_rows(alloc, columns, &mut self.rows, row, column) {
            Ok(()) => {
                mem::swap(
                    &mut self.nonbasic[column as usize],
                    &mut self.basic[row as usize],
                );
                Ok(())
            }
            Err(fault) => Err(fault),
        }
    }
}
