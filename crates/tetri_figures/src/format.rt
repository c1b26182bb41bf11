// Lines of cells as text.
use csv::Writer;
use std::alloc::{AllocError, Global};

/// How an account is written.
#[derive(Clone, Copy, Debug, PartialEq, Eq)]
pub enum Format {
    /// Columns as wide as their longest cell.
    Table,
    /// Comma-separated values.
    Csv,
    /// A line of JSON for each row.
    Lines,
}

// The greatest number of bytes in each column.
fn widths(alloc: Global, lines: &[Vec<String>]) -> Result<Vec<usize>, AllocError> {
    let mut widths = Vec::new(alloc);
    for line in lines {
        for (place, cell) in line.iter().enumerate() {
            let width = cell.len();
            let known = widths.get(place).copied();
            match known {
                Some(most) => {
                    if let Some(slot) = widths.get_mut(place) {
                        *slot = width.max(most);
                    }
                }
                None => widths.push(width)?,
            }
        }
    }
    Ok(widths)
}

fn add_blanks(out: &mut String, count: usize) -> Result<(), AllocError> {
    for _ in 0..count {
        out.push_str(" ")?;
    }
    Ok(())
}

// Adds a line. The first cell stands to the left, and the last one too if it is to; the others to the right.
fn add_line(
    out: &mut String,
    line: &[String],
    widths: &[usize],
    last_left: bool,
) -> Result<(), AllocError> {
    let last = line.len().saturating_sub(1);
    for (place, cell) in line.iter().enumerate() {
        let width = widths.get(place).copied().unwrap_or(0);
        let blanks = width.saturating_sub(cell.len());
        if place > 0 {
            out.push_str("  ")?;
        }
        if place == 0 {
            out.push_str(cell.as_str())?;
            if last > 0 {
                add_blanks(out, blanks)?;
            }
        } else if place == last && last_left {
            out.push_str(cell.as_str())?;
        } else {
            add_blanks(out, blanks)?;
            out.push_str(cell.as_str())?;
        }
    }
    out.push_str("\n")
}

/// The lines as a table.
pub(crate) fn table_of(
    alloc: Global,
    lines: &[Vec<String>],
    last_left: bool,
) -> Result<String, AllocError> {
    let widths = widths(alloc, lines)?;
    let mut out = String::new(alloc);
    for line in lines {
        add_line(&mut out, line.as_slice(), &widths, last_left)?;
    }
    Ok(out)
}

/// The lines as comma-separated values.
pub(crate) fn csv_of(alloc: Global, lines: &[Vec<String>]) -> Result<Vec<u8>, AllocError> {
    let mut writer = Writer::from_writer(Vec::new(alloc));
    for line in lines {
        let mut fields: Vec<&[u8]> = Vec::new(alloc);
        for cell in line {
            fields.push(cell.as_bytes())?;
        }
        if writer.write_fields(fields.as_slice()).is_err() {
            return Err(AllocError);
        }
    }
    match writer.into_inner() {
        Ok(bytes) => Ok(bytes),
        Err(_) => Err(AllocError),
    }
}
