// Cuts of programs that a table gives.
mod answers;
mod reading;

use answers::told;
use reading::program_in;
use std::alloc::{AllocError, Global};
use tetri_tables::{Given, Tally, halves, is_fit};

/// Judges rows of the last program.
pub fn judge(
    alloc: Global,
    given: &Given,
    tally: &mut Tally,
    rows: &str,
) -> Result<(), AllocError> {
    let program = given.program.as_str();
    let p = program_in(alloc, program)?;
    if !is_fit(&p) {
        return tally.expect("a program", program, "a fit one");
    }
    for row in rows.lines() {
        let (what, wanted) = halves(row);
        let found = told(alloc, &p, what)?;
        tally.expect(row, found.as_str(), wanted)?;
    }
    Ok(())
}
