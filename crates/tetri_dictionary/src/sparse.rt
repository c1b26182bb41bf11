//! Sparse dictionaries: rows by the entries that are not 0.

use crate::choices::Candidate;
use crate::dictionary::Dictionary;
use crate::fault::PivotFault;
use crate::lines::{Entry, Line, entering_entry, leaving_line, number_of, pivot_lines, rises};
use crate::start_lines::first_sparse;
use std::alloc::{AllocError, Global};
use std::mem;
use tetri_ip::{Program, Region};
use tetri_num::{Frac, Place};

/// A dictionary whose rows tell the coefficients that are not 0. A pivot touches the rows with the
/// entering variable alone.
#[derive(Drop)]
pub struct Sparse {
    pub(crate) nonbasic: Vec<usize>,
    pub(crate) basic: Vec<usize>,
    // the rows of the basic places, and last the objective's
    pub(crate) lines: Vec<Line>,
    // where a pivot forms the entries of a row
    pub(crate) scratch: Vec<Entry>,
}

impl Dictionary for Sparse {
    ghost use Rattle.tetri_dictionary.specs.Sparse.{table_of, IsSparse};

    ghost table = { λ t. table_of t };

    ghost is_sound = { λ t. IsSparse t };

    fn start(alloc: Global, p: &Program, r: &Region) -> Result<Self, AllocError> {
        first_sparse(alloc, p, r)
    }

    fn nonbasic(&self) -> &[usize] {
        &self.nonbasic
    }

    fn basic(&self) -> &[usize] {
        &self.basic
    }

    fn at(&self, row: u32, column: u32) -> Frac {
        let line = &self.lines[row as usize];
        if column as usize == self.nonbasic.len() {
            line.constant
        } else {
            number_of(&line.entries, column)
        }
    }

    fn leaving(&self) -> Option<u32> {
        leaving_line(self.nonbasic.len() as u32, &self.basic, &self.lines)
    }

    fn rises(&self, row: u32) -> bool {
        rises(
            self.nonbasic.len() as u32,
            &self.lines[row as usize].entries,
        )
    }

    fn entering(&self, row: u32) -> Result<Option<Candidate>, Place> {
        let objective = &self.lines[self.basic.len()];
        let line = &self.lines[row as usize];
        entering_entry(&self.nonbasic, &line.entries, &objective.entries, row)
    }

    fn pivot(&mut self, alloc: Global, row: u32, column: u32) -> Result<(), PivotFault> {
        let columns = self.nonbasic.len() as u32;
        let lines = &mut self.lines;
        match pivot_lines(alloc, columns, lines, row, column, &mut self.scratch) {
            Ok(()) => {
                mem::swap(
                    &mut self.nonbasic[column as usize],
                    &mut self.basic[row as usize],
                );
                Ok(())
            }
            Err(fault) => Err(fault),
        }
    }
}
