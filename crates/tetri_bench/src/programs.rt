// Programs of files of numbers.
ghost use Rattle.std.specs.Prelude.{IfOk, IfSome};
ghost use Rattle.tetri_ip.specs.Points.{IsFit};

use std::alloc::{AllocError, Global};
use tetri_ip::{Program, Row, Term};
use tetri_tables::is_fit;

// Numbers that are taken one by one; behind the last one come zeros.
#[derive(Drop)]
struct Numbers {
    list: Vec<i128>,
    at: usize,
}

impl Numbers {
    // The numbers of a text, 0 for a word that is none.
    fn of(alloc: Global, text: &str) -> Result<Numbers, AllocError> {
        let mut list = Vec::new(alloc);
        for word in text.split_whitespace() {
            list.push(word.parse::<i128>().unwrap_or(0))?;
        }
        Ok(Numbers { list, at: 0 })
    }

    fn next(&mut self) -> i128 {
        let number = self.list.get(self.at).copied().unwrap_or(0);
        self.at = self.at.saturating_add(1);
        number
    }

    // A number of things; none where it is below 0.
    fn next_count(&mut self) -> u32 {
        u32::try_from(self.next()).unwrap_or(0)
    }

    fn next_list(&mut self, alloc: Global, count: u32) -> Result<Vec<i128>, AllocError> {
        let mut list = Vec::new(alloc);
        for _ in 0..count {
            list.push(self.next())?;
        }
        Ok(list)
    }

    fn next_row(&mut self, alloc: Global) -> Result<Row, AllocError> {
        let right = self.next();
        let mut terms = Vec::new(alloc);
        for _ in 0..self.next_count() {
            let column = self.next_count();
            let by = self.next();
            terms.push(Term { column, by })?;
        }
        Ok(Row { terms, right })
    }

    fn next_rows(&mut self, alloc: Global, count: u32) -> Result<Vec<Row>, AllocError> {
        let mut rows = Vec::new(alloc);
        for _ in 0..count {
            rows.push(self.next_row(alloc)?)?;
        }
        Ok(rows)
    }

    fn next_program(&mut self, alloc: Global) -> Result<Program, AllocError> {
        let columns = self.next_count();
        let count = self.next_count();
        let costs = self.next_list(alloc, columns)?;
        let upper = self.next_list(alloc, columns)?;
        let rows = self.next_rows(alloc, count)?;
        Ok(Program {
            costs,
            lower: vec![in alloc; 0i128; columns as usize]?,
            upper,
            rows,
        })
    }
}

/// The program of a text of numbers: columns and rows; the costs of the columns; their upper bounds; of each row its right side, how
/// many terms it has, and their columns and coefficients. None where it is not fit.
pub fn program_in(alloc: Global, text: &str) -> Result<Option<Program>, AllocError>
    ensures { IfOk result (λ o. IfSome o (λ p. IsFit p)) }
{
    let mut numbers = Numbers::of(alloc, text)?;
    let p = numbers.next_program(alloc)?;
    if is_fit(&p) {
        return Ok(Some(p));
    }
    Ok(None)
}
