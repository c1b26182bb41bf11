// A program in LP format.
ghost use Rattle.std.specs.Prelude.{◌≡◌, ◌++◌, length, map, OnOk, string_bytes};
ghost use Rattle.tetri_compile.specs.Flat.{plain, plain_row};
ghost use Rattle.tetri_export.specs.Lp.{bounds_text, boxes_text, costs_text, generals_text, head_text, limits_text, lp_text, name_at, objective_text, row_text, rows_text, terms_text, times_text, whole_text};

use crate::plain::{
    add_added, add_box, add_empty_row, add_name, add_right, add_row_name, add_taken,
};
use std::alloc::AllocError;
use tetri_ip::{Program, Row, Term};

/// The name at a place, and none past the end.
pub(crate) fn name_at(names: &[String], place: usize) -> &str
    ensures { result.now ≡ name_at (map string_bytes names.now) place }
{
    if place < names.len() {
        names[place].as_str()
    } else {
        ""
    }
}

// Adds so many times a column.
fn add_times(out: &mut String, by: i128, name: &str) -> Result<(), AllocError>
    ensures { OnOk result (string_bytes out.new ≡ string_bytes out.old ++ times_text by name.now) }
{
    if by < 0 {
        add_taken(out, by.unsigned_abs(), name)
    } else {
        add_added(out, by.unsigned_abs(), name)
    }
}

// Adds the terms of a row.
fn add_terms(out: &mut String, columns: &[String], terms: &[Term]) -> Result<(), AllocError>
    ensures { OnOk result (string_bytes out.new ≡ string_bytes out.old
        ++ terms_text (map string_bytes columns.now) terms.now) }
{
    for place in 0..terms.len() {
        let term = terms[place];
        add_times(out, term.by, name_at(columns, term.column as usize))?;
    }
    Ok(())
}

// Adds the name of a row.
fn add_head(out: &mut String, name: &str, terms: &[Term]) -> Result<(), AllocError>
    ensures { OnOk result (string_bytes out.new ≡ string_bytes out.old
        ++ head_text name.now terms.now) }
{
    if terms.is_empty() {
        add_empty_row(out, name)
    } else {
        add_row_name(out, name)
    }
}

// Adds a row.
fn add_row(out: &mut String, columns: &[String], name: &str, row: &Row) -> Result<(), AllocError>
    ensures { OnOk result (string_bytes out.new ≡ string_bytes out.old
        ++ row_text (map string_bytes columns.now) name.now (plain_row row.now)) }
{
    add_head(out, name, &row.terms)?;
    add_terms(out, columns, &row.terms)?;
    add_right(out, row.right)
}

// Adds the rows.
fn add_rows(
    out: &mut String,
    columns: &[String],
    names: &[String],
    rows: &[Row],
) -> Result<(), AllocError>
    ensures { OnOk result (string_bytes out.new ≡ string_bytes out.old
        ++ rows_text (map string_bytes columns.now) (map string_bytes names.now) (map plain_row rows.now)) }
{
    for place in 0..rows.len() {
        add_row(out, columns, name_at(names, place), &rows[place])?;
    }
    Ok(())
}

// Adds what the columns cost.
fn add_costs(out: &mut String, columns: &[String], costs: &[i128]) -> Result<(), AllocError>
    ensures { OnOk result (string_bytes out.new ≡ string_bytes out.old
        ++ costs_text (map string_bytes columns.now) costs.now) }
{
    for place in 0..costs.len() {
        add_times(out, costs[place], name_at(columns, place))?;
    }
    Ok(())
}

// Adds the bounds of the columns.
fn add_boxes(
    out: &mut String,
    columns: &[String],
    lower: &[i128],
    upper: &[i128],
) -> Result<(), AllocError>
    requires { length upper.now ≡ length lower.now }
    ensures { OnOk result (string_bytes out.new ≡ string_bytes out.old
        ++ boxes_text (map string_bytes columns.now) lower.now upper.now) }
{
    for place in 0..lower.len() {
        add_box(out, lower[place], name_at(columns, place), upper[place])?;
    }
    Ok(())
}

// Adds the names of so many columns.
fn add_whole(out: &mut String, columns: &[String], count: usize) -> Result<(), AllocError>
    ensures { OnOk result (string_bytes out.new ≡ string_bytes out.old
        ++ whole_text (map string_bytes columns.now) count) }
{
    for place in 0..count {
        add_name(out, name_at(columns, place))?;
    }
    Ok(())
}

// Adds the objective.
fn add_objective(out: &mut String, columns: &[String], costs: &[i128]) -> Result<(), AllocError>
    ensures { OnOk result (string_bytes out.new ≡ string_bytes out.old
        ++ objective_text (map string_bytes columns.now) costs.now) }
{
    out.push_str("Maximize\n value: 0 nothing\n")?;
    add_costs(out, columns, costs)?;
    Ok(())
}

// Adds the rows, by their names.
fn add_limits(
    out: &mut String,
    columns: &[String],
    names: &[String],
    rows: &[Row],
) -> Result<(), AllocError>
    ensures { OnOk result (string_bytes out.new ≡ string_bytes out.old
        ++ limits_text (map string_bytes columns.now) (map string_bytes names.now) (map plain_row rows.now)) }
{
    out.push_str("Subject To\n none: 0 nothing <= 0\n")?;
    add_rows(out, columns, names, rows)?;
    Ok(())
}

// Adds the section of bounds.
fn add_bounds(
    out: &mut String,
    columns: &[String],
    lower: &[i128],
    upper: &[i128],
) -> Result<(), AllocError>
    requires { length upper.now ≡ length lower.now }
    ensures { OnOk result (string_bytes out.new ≡ string_bytes out.old
        ++ bounds_text (map string_bytes columns.now) lower.now upper.now) }
{
    out.push_str("Bounds\n 0 <= nothing <= 0\n")?;
    add_boxes(out, columns, lower, upper)?;
    Ok(())
}

// Adds the section that says which columns are whole numbers: so many.
fn add_generals(out: &mut String, columns: &[String], count: usize) -> Result<(), AllocError>
    ensures { OnOk result (string_bytes out.new ≡ string_bytes out.old
        ++ generals_text (map string_bytes columns.now) count) }
{
    out.push_str("Generals\n nothing\n")?;
    add_whole(out, columns, count)?;
    Ok(())
}

/// Adds a program in LP format to a text, of any size and with exact numbers. `columns` and `names` are the names of its columns
/// and of its rows, in its order. There is one column more, `nothing`, which is 0, and one row more, `none`, which it meets. Linear
/// in the text. Its only error is want of memory, after which a front of the program may stand there.
pub fn add_lp(
    out: &mut String,
    columns: &[String],
    names: &[String],
    program: &Program,
) -> Result<(), AllocError>
    requires { length program.now.upper.items ≡ length program.now.lower.items }
    ensures { OnOk result (string_bytes out.new ≡ string_bytes out.old
        ++ lp_text (map string_bytes columns.now) (map string_bytes names.now) (plain program.now)) }
{
    add_objective(out, columns, &program.costs)?;
    add_limits(out, columns, names, &program.rows)?;
    add_bounds(out, columns, &program.lower, &program.upper)?;
    add_generals(out, columns, program.costs.len())?;
    out.push_str("End\n")?;
    Ok(())
}
