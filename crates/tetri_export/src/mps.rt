// A program in free MPS.
ghost use Rattle.std.specs.Prelude.{◌≡◌, ◌++◌, flat_map, length, map, OnOk, string_bytes};
ghost use Rattle.tetri_compile.specs.Flat.{plain, plain_row};
ghost use Rattle.tetri_export.specs.Lines.{right_line};
ghost use Rattle.tetri_export.specs.Mps.{bound_lines, bounds_section, boxes_text, column_text, columns_section, columns_text, cost_text, entries_from, entry_text, limits_text, mps_text, rights_section, rights_text, rows_section};

use crate::entries::{Entry, by_column, entries_of};
use crate::lines::{add_entry, add_gain, add_limit, add_loss, add_lower, add_right, add_upper};
use crate::lp::name_at;
use std::alloc::{AllocError, Global};
use tetri_ip::{Program, Row};

// Adds what a column costs, of which this is what it earns.
fn add_cost(out: &mut String, name: &str, by: i128) -> Result<(), AllocError>
    ensures { OnOk result (string_bytes out.new ≡ string_bytes out.old ++ cost_text name.now by) }
{
    if 0 < by {
        add_gain(out, name, by.unsigned_abs())
    } else {
        add_loss(out, name, by.unsigned_abs())
    }
}

// Adds a row that a column stands in.
fn add_entry_of(
    out: &mut String,
    names: &[String],
    name: &str,
    entry: &Entry,
) -> Result<(), AllocError>
    ensures { OnOk result (string_bytes out.new ≡ string_bytes out.old
        ++ entry_text (map string_bytes names.now) name.now entry.now) }
{
    add_entry(out, name, name_at(names, entry.row), entry.by)
}

// Adds the rows that a column stands in.
fn add_entries(
    out: &mut String,
    names: &[String],
    name: &str,
    entries: &[Entry],
) -> Result<(), AllocError>
    ensures { OnOk result (string_bytes out.new ≡ string_bytes out.old
        ++ flat_map (entry_text (map string_bytes names.now) name.now) entries.now) }
{
    for entry in entries {
        add_entry_of(out, names, name, entry)?;
    }
    Ok(())
}

// Adds a column.
fn add_column(
    out: &mut String,
    names: &[String],
    name: &str,
    by: i128,
    entries: &[Entry],
) -> Result<(), AllocError>
    ensures { OnOk result (string_bytes out.new ≡ string_bytes out.old
        ++ column_text (map string_bytes names.now) name.now by entries.now) }
{
    add_cost(out, name, by)?;
    add_entries(out, names, name, entries)
}

// Adds the columns.
fn add_columns(
    alloc: Global,
    out: &mut String,
    columns: &[String],
    names: &[String],
    costs: &[i128],
    entries: &[Entry],
) -> Result<(), AllocError>
    ensures { OnOk result (string_bytes out.new ≡ string_bytes out.old
        ++ columns_text (map string_bytes columns.now) (map string_bytes names.now) costs.now entries.now) }
{
    let lists = by_column(alloc, costs.len(), entries)?;
    for place in 0..costs.len() {
        let mine = lists[place].as_slice();
        add_column(out, names, name_at(columns, place), costs[place], mine)?;
    }
    Ok(())
}

// Adds the names of so many rows.
fn add_limits(out: &mut String, names: &[String], count: usize) -> Result<(), AllocError>
    ensures { OnOk result (string_bytes out.new ≡ string_bytes out.old
        ++ limits_text (map string_bytes names.now) count) }
{
    for place in 0..count {
        add_limit(out, name_at(names, place))?;
    }
    Ok(())
}

// Adds the right side of a row.
fn add_right_of(out: &mut String, name: &str, row: &Row) -> Result<(), AllocError>
    ensures { OnOk result (string_bytes out.new ≡ string_bytes out.old ++ right_line name.now row.now.right) }
{
    add_right(out, name, row.right)
}

// Adds the right sides.
fn add_rights(out: &mut String, names: &[String], rows: &[Row]) -> Result<(), AllocError>
    ensures { OnOk result (string_bytes out.new ≡ string_bytes out.old
        ++ rights_text (map string_bytes names.now) (map plain_row rows.now)) }
{
    for place in 0..rows.len() {
        add_right_of(out, name_at(names, place), &rows[place])?;
    }
    Ok(())
}

// Adds from where to where a column goes.
fn add_bounds(out: &mut String, name: &str, lower: i128, upper: i128) -> Result<(), AllocError>
    ensures { OnOk result (string_bytes out.new ≡ string_bytes out.old ++ bound_lines name.now lower upper) }
{
    add_lower(out, name, lower)?;
    add_upper(out, name, upper)
}

// Adds the bounds of the columns.
fn add_boxes(
    out: &mut String,
    columns: &[String],
    lower: &[i128],
    upper: &[i128],
) -> Result<(), AllocError>
    requires { length upper.now ≡ length lower.now }
    ensures { OnOk result (string_bytes out.new ≡ string_bytes out.old
        ++ boxes_text (map string_bytes columns.now) lower.now upper.now) }
{
    for place in 0..lower.len() {
        add_bounds(out, name_at(columns, place), lower[place], upper[place])?;
    }
    Ok(())
}

// Adds the section of rows: so many.
fn add_rows_section(out: &mut String, names: &[String], count: usize) -> Result<(), AllocError>
    ensures { OnOk result (string_bytes out.new ≡ string_bytes out.old
        ++ rows_section (map string_bytes names.now) count) }
{
    out.push_str("NAME cycle FREE\nROWS\n N value\n L none\n")?;
    add_limits(out, names, count)?;
    Ok(())
}

// Adds the section of columns.
fn add_columns_section(
    alloc: Global,
    out: &mut String,
    columns: &[String],
    names: &[String],
    costs: &[i128],
    entries: &[Entry],
) -> Result<(), AllocError>
    ensures { OnOk result (string_bytes out.new ≡ string_bytes out.old
        ++ columns_section (map string_bytes columns.now) (map string_bytes names.now) costs.now entries.now) }
{
    out.push_str("COLUMNS\n WHOLE 'MARKER' 'INTORG'\n nothing value 0\n")?;
    add_columns(alloc, out, columns, names, costs, entries)?;
    Ok(())
}

// Adds the section of right sides.
fn add_rights_section(out: &mut String, names: &[String], rows: &[Row]) -> Result<(), AllocError>
    ensures { OnOk result (string_bytes out.new ≡ string_bytes out.old
        ++ rights_section (map string_bytes names.now) (map plain_row rows.now)) }
{
    out.push_str(" END 'MARKER' 'INTEND'\nRHS\n RIGHT none 0\n")?;
    add_rights(out, names, rows)?;
    Ok(())
}

// Adds the section of bounds.
fn add_bounds_section(
    out: &mut String,
    columns: &[String],
    lower: &[i128],
    upper: &[i128],
) -> Result<(), AllocError>
    requires { length upper.now ≡ length lower.now }
    ensures { OnOk result (string_bytes out.new ≡ string_bytes out.old
        ++ bounds_section (map string_bytes columns.now) lower.now upper.now) }
{
    out.push_str("BOUNDS\n LO BOUND nothing 0\n UP BOUND nothing 0\n")?;
    add_boxes(out, columns, lower, upper)?;
    Ok(())
}

/// Adds a program in free MPS to a text, of any size and with exact numbers. `columns` and `names` are the names of its columns
/// and of its rows, in its order. Since MPS looks for the least, what a column earns is a cost below 0. There is one column more,
/// `nothing`, which is 0, and one row more, `none`, in which no column stands. Linear in the text. Its only error is want of
/// memory, after which a front of the program may stand there.
pub fn add_mps(
    alloc: Global,
    out: &mut String,
    columns: &[String],
    names: &[String],
    program: &Program,
) -> Result<(), AllocError>
    requires { length program.now.upper.items ≡ length program.now.lower.items }
    ensures { OnOk result (string_bytes out.new ≡ string_bytes out.old
        ++ mps_text (map string_bytes columns.now) (map string_bytes names.now) (plain program.now)) }
{
    let entries = entries_of(alloc, &program.rows)?;
    add_rows_section(out, names, program.rows.len())?;
    add_columns_section(alloc, out, columns, names, &program.costs, &entries)?;
    add_rights_section(out, names, &program.rows)?;
    add_bounds_section(out, columns, &program.lower, &program.upper)?;
    out.push_str("ENDATA\n")?;
    Ok(())
}
