// Worths of expressions, and what is left of them and of their grants.
ghost use Rattle.tetri_strl.specs.Tree.{tree};
ghost use Rattle.tetri_strl.specs.WellMade.{IsWellMade};

use std::alloc::{AllocError, Global};
use tetri_parse::ClusterReader;
use tetri_strl::{
    Expr, aligned, copy_expr, copy_grants, idle_leaves, prune, thrifty_grants_start_together,
    top_in, trim, waste, waste_among, worth, worth_among,
};
use tetri_tables::{Tally, answer, expand, expand_text, expr_told, grants_in, grants_told, halves};

// The job whose grants count.
const JOB: u32 = 1;

fn worth_told(alloc: Global, e: &Expr, grants: &str) -> Result<String, AllocError>
    requires { IsWellMade (tree e.now) }
{
    let a = grants_in(alloc, grants)?;
    let among = worth_among(e, JOB, a.as_slice());
    if worth(e, JOB, &a) != among {
        return String::from_str(alloc, "two worths");
    }
    format!(in alloc; "{among}")
}

fn waste_told(alloc: Global, e: &Expr, grants: &str) -> Result<String, AllocError>
    requires { IsWellMade (tree e.now) }
{
    let a = grants_in(alloc, grants)?;
    let place = waste(e, JOB, &a);
    if place != waste_among(e, JOB, a.as_slice()) {
        return String::from_str(alloc, "two places");
    }
    format!(in alloc; "{place:?}")
}

fn copy_told(alloc: Global, e: &Expr) -> Result<String, AllocError> {
    let copy = copy_expr(alloc, e)?;
    expr_told(alloc, &copy)
}

// What is left of an expression in the slots of a text.
fn left_told(alloc: Global, e: &Expr, slots: &str) -> Result<String, AllocError>
    requires { IsWellMade (tree e.now) }
{
    let (from, to) = slots_in(slots);
    match prune(alloc, e, from, to)? {
        Some(left) => expr_told(alloc, &left),
        None => String::from_str(alloc, "none"),
    }
}

fn top_told(alloc: Global, e: &Expr, slots: &str) -> Result<String, AllocError>
    requires { IsWellMade (tree e.now) }
{
    let (from, to) = slots_in(slots);
    format!(in alloc; "{}", top_in(e, from, to))
}

fn idle_told(alloc: Global, e: &Expr, grants: &str) -> Result<String, AllocError>
    requires { IsWellMade (tree e.now) }
{
    let a = grants_in(alloc, grants)?;
    let idle = idle_leaves(alloc, e, JOB, a.as_slice())?;
    format!(in alloc; "{idle:?}")
}

fn slots_in(text: &str) -> (u32, u32) {
    let (from, to) = text.split_once(' ').unwrap_or((text, ""));
    (
        from.parse::<u32>().unwrap_or(0),
        to.parse::<u32>().unwrap_or(0),
    )
}

fn trimmed_told(alloc: Global, e: &Expr, grants: &str) -> Result<String, AllocError>
    requires { IsWellMade (tree e.now) }
{
    let a = copy_grants(alloc, &grants_in(alloc, grants)?)?;
    grants_told(alloc, trim(alloc, e, JOB, &a)?.as_slice())
}

fn told(alloc: Global, e: &Expr, what: &str) -> Result<String, AllocError>
    requires { IsWellMade (tree e.now) }
{
    let (word, rest) = what.split_once(' ').unwrap_or((what, ""));
    match word {
        "worth" => worth_told(alloc, e, rest),
        "top" => top_told(alloc, e, rest),
        "aligned" => format!(in alloc; "{}", aligned(e)),
        "copy" => copy_told(alloc, e),
        "left" => left_told(alloc, e, rest),
        "waste" => waste_told(alloc, e, rest),
        "trim" => trimmed_told(alloc, e, rest),
        "idle" => idle_told(alloc, e, rest),
        _ => String::from_str(alloc, "no such word"),
    }
}

fn expect_row(alloc: Global, tally: &mut Tally, e: &Expr, row: &str) -> Result<(), AllocError>
    requires { IsWellMade (tree e.now) }
{
    let (what, wanted) = halves(row);
    let what = expand_text(alloc, what)?;
    let wanted = expand_text(alloc, wanted)?;
    let found = told(alloc, e, what.as_str())?;
    tally.expect(row, found.as_str(), wanted.as_str())
}

fn expect_rows(alloc: Global, tally: &mut Tally, e: &Expr, body: &str) -> Result<(), AllocError>
    requires { IsWellMade (tree e.now) }
{
    thrifty_grants_start_together(e);
    for row in body.lines() {
        expect_row(alloc, tally, e, row)?;
    }
    Ok(())
}

// Reads texts over the nodes of a trace; nothing where the trace is refused.
fn reader_of(alloc: Global, trace: &str) -> Result<Option<ClusterReader>, AllocError> {
    match answer(alloc, trace.as_bytes())? {
        Ok(trace) => Ok(Some(ClusterReader::new(alloc, trace.cluster))),
        Err(_) => Ok(None),
    }
}

fn expect_expression(
    alloc: Global,
    tally: &mut Tally,
    reader: &mut ClusterReader,
    text: &str,
    body: &str,
) -> Result<(), AllocError> {
    let text = expand(alloc, text)?;
    match reader.read_expr(alloc, &text, 1, 0) {
        Ok(e) => expect_rows(alloc, tally, &e, body),
        Err(_) => tally.expect("an expression", "refused", "read"),
    }
}

/// Rows of an expression over the nodes of the trace, whose grants are those of job 1: `worth GRANTS`, `top FROM TO`,
/// `aligned`, `copy`, `left FROM TO` with what is left of it in these slots, `waste GRANTS` with the place of the first grant
/// that earns nothing, `trim GRANTS` and `idle GRANTS`.
pub fn expression(
    alloc: Global,
    trace: &str,
    tally: &mut Tally,
    text: &str,
    body: &str,
) -> Result<(), AllocError> {
    match reader_of(alloc, trace)? {
        Some(mut reader) => expect_expression(alloc, tally, &mut reader, text, body),
        None => tally.expect("a trace", "refused", "read"),
    }
}
