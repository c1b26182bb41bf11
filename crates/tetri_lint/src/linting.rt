// All that is to be said of a trace.
ghost use Rattle.std.specs.Prelude.{◌≡◌, ◌≤◌, List, ℕ, Some, None, IfOk, IsErrOf, option_map};
ghost use Rattle.tetri_algebra.specs.Counts.{Rose};
ghost use Rattle.tetri_lint.specs.Lint.{cause, refused};
ghost use Rattle.tetri_trace.specs.Lines.{scenario_in};

use crate::explaining::told_of;
use crate::fault::LintFault;
use crate::finding::{Linted, Refusal};
use crate::jobs::findings_in;
use crate::whole::text_of;
use std::alloc::Global;
use tetri_io::Shelf;
use tetri_notice::{TraceFault, TraceWhy};
use tetri_trace::{Trace, read_trace};

/// What is told of a trace that was refused for this cause at this line. `Read` comes only where the count of the name's faults rose.
pub fn explain<S: Shelf>(
    alloc: Global,
    shelf: &mut S,
    name: &str,
    line: u64,
    why: TraceWhy,
) -> Result<Refusal, LintFault>
    ensures cause { IfOk result (λ r. cause r ≡ (line, why)) }
    ensures same { S.told shelf.new ≡ S.told shelf.old }
    ensures read { IsErrOf result LintFault.Read
        → Rose (S.faults shelf.old name.now) (S.faults shelf.new name.now) }
    ensures later { (other : List ℕ) → S.faults shelf.old other ≤ S.faults shelf.new other }
{
    let text = text_of(alloc, shelf, name)?;
    let told = told_of(alloc, &text, line, why)?;
    Ok(Refusal { line, why, told })
}

/// All that is to be said of the trace that a name holds. A refusal is told exactly where the trace is refused, with the line and the cause
/// that `read_trace` gives. `Read` comes only where the count of the name's faults rose.
pub fn lint<S: Shelf>(alloc: Global, shelf: &mut S, name: &str) -> Result<Linted, LintFault>
    ensures exact { (content : List ℕ) → S.told shelf.old name.now ≡ Some content
        → IfOk result (λ l. option_map cause l.refusal ≡ refused (scenario_in content)) }
    ensures same { S.told shelf.new ≡ S.told shelf.old }
    ensures read { IsErrOf result LintFault.Read
        → Rose (S.faults shelf.old name.now) (S.faults shelf.new name.now) }
    ensures later { (other : List ℕ) → S.faults shelf.old other ≤ S.faults shelf.new other }
{
    let mut linted = Linted::new(alloc);
    say_all(alloc, shelf, name, &mut linted)?;
    Ok(linted)
}

// Says all of a trace of which nothing is said yet.
fn say_all<S: Shelf>(
    alloc: Global,
    shelf: &mut S,
    name: &str,
    linted: &mut Linted,
) -> Result<(), LintFault>
    requires { linted.old.refusal ≡ None }
    ensures exact { (content : List ℕ) → S.told shelf.old name.now ≡ Some content
        → IfOk result (λ _. option_map cause linted.new.refusal ≡ refused (scenario_in content)) }
    ensures same { S.told shelf.new ≡ S.told shelf.old }
    ensures read { IsErrOf result LintFault.Read
        → Rose (S.faults shelf.old name.now) (S.faults shelf.new name.now) }
    ensures later { (other : List ℕ) → S.faults shelf.old other ≤ S.faults shelf.new other }
{
    match read_trace(alloc, shelf, name) {
        Ok(trace) => say_findings(alloc, shelf, name, &trace, linted),
        Err(TraceFault::Bad { line, why }) => say_refusal(alloc, shelf, name, line, why, linted),
        Err(TraceFault::Read) => Err(LintFault::Read),
        Err(TraceFault::NoMemory) => Err(LintFault::NoMemory),
    }
}

// Says what is found in a trace that is not refused.
fn say_findings<S: Shelf>(
    alloc: Global,
    shelf: &mut S,
    name: &str,
    trace: &Trace,
    linted: &mut Linted,
) -> Result<(), LintFault>
    ensures refusal { linted.new.refusal ≡ linted.old.refusal }
    ensures same { S.told shelf.new ≡ S.told shelf.old }
    ensures read { IsErrOf result LintFault.Read
        → Rose (S.faults shelf.old name.now) (S.faults shelf.new name.now) }
    ensures later { (other : List ℕ) → S.faults shelf.old other ≤ S.faults shelf.new other }
{
    let text = text_of(alloc, shelf, name)?;
    findings_in(alloc, trace, &text, linted)?;
    Ok(())
}

// Says why a trace is refused.
fn say_refusal<S: Shelf>(
    alloc: Global,
    shelf: &mut S,
    name: &str,
    line: u64,
    why: TraceWhy,
    linted: &mut Linted,
) -> Result<(), LintFault>
    ensures cause { IfOk result (λ _. option_map cause linted.new.refusal ≡ Some (line, why)) }
    ensures same { S.told shelf.new ≡ S.told shelf.old }
    ensures read { IsErrOf result LintFault.Read
        → Rose (S.faults shelf.old name.now) (S.faults shelf.new name.now) }
    ensures later { (other : List ℕ) → S.faults shelf.old other ≤ S.faults shelf.new other }
{
    linted.refusal = Some(explain(alloc, shelf, name, line, why)?);
    Ok(())
}
