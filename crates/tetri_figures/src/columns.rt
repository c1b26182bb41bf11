// Columns of figures as text.
use crate::cells::text_cell;
use crate::format::{Format, csv_of, table_of};
use serde_json::Value;
use std::alloc::{AllocError, Global};

/// A column: its name, and its cells in the order of the figures. A cell that is empty or a dash says nothing.
#[derive(Drop)]
pub(crate) struct Column {
    pub(crate) name: String,
    pub(crate) cells: Vec<String>,
}

// The cell of a column at a place, or what stands for none.
fn cell_at<'a>(column: &'a Column, place: usize, none: &'a str) -> &'a str {
    match column.cells.get(place) {
        Some(cell) => if cell.is_empty() { none } else { cell.as_str() },
        None => none,
    }
}

// The line of the names of columns.
fn head_of(alloc: Global, first: &str, columns: &[Column]) -> Result<Vec<String>, AllocError> {
    let mut line = Vec::new(alloc);
    line.push(text_cell(alloc, first)?)?;
    for column in columns {
        line.push(text_cell(alloc, column.name.as_str())?)?;
    }
    Ok(line)
}

// The line of a figure.
fn line_of(
    alloc: Global,
    name: &str,
    place: usize,
    columns: &[Column],
    none: &str,
) -> Result<Vec<String>, AllocError> {
    let mut line = Vec::new(alloc);
    line.push(text_cell(alloc, name)?)?;
    for column in columns {
        line.push(text_cell(alloc, cell_at(column, place, none))?)?;
    }
    Ok(line)
}

// The line of the names, and one for each figure.
fn lines_of(
    alloc: Global,
    first: &str,
    names: &[String],
    columns: &[Column],
    none: &str,
) -> Result<Vec<Vec<String>>, AllocError> {
    let mut lines = Vec::new(alloc);
    lines.push(head_of(alloc, first, columns)?)?;
    for (place, name) in names.iter().enumerate() {
        lines.push(line_of(alloc, name.as_str(), place, columns, none)?)?;
    }
    Ok(lines)
}

// Adds a text in the quotes and escapes of JSON.
fn add_json_text(alloc: Global, out: &mut String, text: &str) -> Result<(), AllocError> {
    let value = Value::String(String::from_str(alloc, text)?);
    let quoted = value.to_string(alloc)?;
    out.push_str(quoted.as_str())
}

// Adds a cell as a number of JSON; what says nothing is null.
fn add_json_number(out: &mut String, cell: &str) -> Result<(), AllocError> {
    match cell {
        "" | "-" => out.push_str("null"),
        number => out.push_str(number),
    }
}

// Adds a figure as a line of JSON.
fn add_json_line(
    alloc: Global,
    out: &mut String,
    first: &str,
    name: &str,
    place: usize,
    columns: &[Column],
) -> Result<(), AllocError> {
    out.push_str("{")?;
    add_json_text(alloc, out, first)?;
    out.push_str(":")?;
    add_json_text(alloc, out, name)?;
    for column in columns {
        out.push_str(",")?;
        add_json_text(alloc, out, column.name.as_str())?;
        out.push_str(":")?;
        add_json_number(out, cell_at(column, place, ""))?;
    }
    out.push_str("}\n")
}

// The figures as lines of JSON.
fn json_of(
    alloc: Global,
    first: &str,
    names: &[String],
    columns: &[Column],
) -> Result<String, AllocError> {
    let mut out = String::new(alloc);
    for (place, name) in names.iter().enumerate() {
        add_json_line(alloc, &mut out, first, name.as_str(), place, columns)?;
    }
    Ok(out)
}

/// Columns beside one another: a line for each of the names, below this word and the names of the columns.
pub(crate) fn columns_text(
    alloc: Global,
    first: &str,
    names: &[String],
    columns: &[Column],
    format: Format,
) -> Result<Vec<u8>, AllocError> {
    match format {
        Format::Table => {
            let lines = lines_of(alloc, first, names, columns, "-")?;
            Ok(table_of(alloc, &lines, false)?.into_bytes())
        }
        Format::Csv => {
            let lines = lines_of(alloc, first, names, columns, "")?;
            csv_of(alloc, &lines)
        }
        Format::Lines => Ok(json_of(alloc, first, names, columns)?.into_bytes()),
    }
}
