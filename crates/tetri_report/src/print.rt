// A cycle as text.
ghost use Rattle.std.specs.Prelude.{◌≡◌, ◌++◌, All, OnOk, IfOk, string_bytes, length};
ghost use Rattle.tetri_report.specs.Block.{block};
ghost use Rattle.tetri_report.specs.Printable.{AreJobs, IsPrintable, IsPrintableGrant};
ghost use Rattle.tetri_report.specs.Text.{cycle_text, events_text, happened_text, launches_text, plan_text};
ghost use Rattle.tetri_state.specs.Begin.{occurrences};
ghost use Rattle.tetri_state.specs.Known.{AreOfJobs};
ghost use Rattle.tetri_trace.specs.Scenario.{scenario};

use crate::Cycle;
use crate::lines::{
    add_cycle_line, add_grant_lines, add_job_lines, add_piece_lines, add_plan_line,
};
use std::alloc::{AllocError, Global};
use tetri_cert::{Certificate, PlanMark, print_onto};
use tetri_state::Happened;
use tetri_strl::Allotment;
use tetri_trace::Trace;

#[tactic(auto, unfolding(crate::specs::Text::happened_text))]
fn add_happened(out: &mut String, trace: &Trace, happened: &Happened) -> Result<(), AllocError>
    requires { AreOfJobs (scenario trace.now) (occurrences happened.now) }
    ensures { OnOk result (string_bytes out.new ≡ string_bytes out.old ++ happened_text (scenario trace.entry.now) (occurrences happened.entry.now)) }
{
    add_piece_lines(out, trace, "end", &happened.ended)?;
    add_job_lines(out, trace, "cancel", &happened.cancelled)?;
    add_job_lines(out, trace, "fail", &happened.failed)?;
    add_piece_lines(out, trace, "over", &happened.over)?;
    add_job_lines(out, trace, "expire", &happened.expired)
}

#[tactic(auto, unfolding(crate::specs::Text::events_text))]
fn add_events(
    out: &mut String,
    trace: &Trace,
    number: u32,
    happened: &Happened,
) -> Result<(), AllocError>
    requires { AreOfJobs (scenario trace.now) (occurrences happened.now) }
    ensures { OnOk result (string_bytes out.new ≡ string_bytes out.old ++ events_text (scenario trace.entry.now) number (occurrences happened.entry.now)) }
{
    add_cycle_line(out, number)?;
    add_happened(out, trace, happened)
}

#[tactic(auto, unfolding(crate::specs::Text::plan_text))]
fn add_plan(
    out: &mut String,
    trace: &Trace,
    value: u64,
    bound: u64,
    mark: PlanMark,
    nodes: u32,
    grants: &Allotment,
    starts: &[u32],
    certificate: &Certificate,
) -> Result<(), AllocError>
    requires printable { All (IsPrintableGrant (scenario trace.now)) grants.now }
    requires starts { length starts.now ≡ length grants.now }
    ensures { OnOk result (string_bytes out.new ≡ string_bytes out.old
        ++ plan_text (scenario trace.entry.now) value bound mark nodes grants.entry.now starts.entry.now certificate.entry.now) }
{
    add_plan_line(out, value, bound, mark, nodes)?;
    add_grant_lines(out, trace, grants.as_slice(), starts)?;
    print_onto(out, certificate)
}

#[tactic(auto, unfolding(crate::specs::Text::launches_text))]
fn add_launches(out: &mut String, trace: &Trace, launched: &[u32]) -> Result<(), AllocError>
    requires { AreJobs (scenario trace.now) launched.now }
    ensures { OnOk result (string_bytes out.new ≡ string_bytes out.old ++ launches_text (scenario trace.entry.now) launched.now) }
{
    add_job_lines(out, trace, "launch", launched)
}

/// The `cycle` line with this number, and the lines of what happened at the beginning of that cycle, all of whose jobs are the
/// trace's.
pub fn print_events(
    alloc: Global,
    trace: &Trace,
    number: u32,
    happened: &Happened,
) -> Result<Vec<u8>, AllocError>
    requires { AreOfJobs (scenario trace.now) (occurrences happened.now) }
    ensures { IfOk result (λ v. v.items ≡ events_text (scenario trace.entry.now) number (occurrences happened.entry.now)) }
{
    let mut out = String::new(alloc);
    add_events(&mut out, trace, number, happened)?;
    Ok(out.into_bytes())
}

/// The `plan` line, the `grant` lines and the lines of the certificate. The jobs and the nodes of the grants are the trace's, and
/// `starts` has the slot of each grant.
pub fn print_plan(
    alloc: Global,
    trace: &Trace,
    value: u64,
    bound: u64,
    mark: PlanMark,
    nodes: u32,
    grants: &Allotment,
    starts: &[u32],
    certificate: &Certificate,
) -> Result<Vec<u8>, AllocError>
    requires printable { All (IsPrintableGrant (scenario trace.now)) grants.now }
    requires starts { length starts.now ≡ length grants.now }
    ensures { IfOk result (λ v. v.items
        ≡ plan_text (scenario trace.entry.now) value bound mark nodes grants.entry.now starts.entry.now certificate.entry.now) }
{
    let mut out = String::new(alloc);
    add_plan(
        &mut out,
        trace,
        value,
        bound,
        mark,
        nodes,
        grants,
        starts,
        certificate,
    )?;
    Ok(out.into_bytes())
}

/// The `launch` lines of jobs, which are the trace's.
pub fn print_launches(alloc: Global, trace: &Trace, launched: &[u32]) -> Result<Vec<u8>, AllocError>
    requires { AreJobs (scenario trace.now) launched.now }
    ensures { IfOk result (λ v. v.items ≡ launches_text (scenario trace.entry.now) launched.now) }
{
    let mut out = String::new(alloc);
    add_launches(&mut out, trace, launched)?;
    Ok(out.into_bytes())
}

/// The lines of a cycle: those of `print_events`, of `print_plan` and of `print_launches`. All its jobs and nodes are the trace's.
#[tactic(auto, unfolding(crate::specs::Text::cycle_text))]
pub fn print_cycle(alloc: Global, trace: &Trace, cycle: &Cycle) -> Result<Vec<u8>, AllocError>
    requires { IsPrintable (scenario trace.now) (block cycle.now) }
    ensures { IfOk result (λ v. v.items ≡ cycle_text (scenario trace.entry.now) (block cycle.entry.now)) }
{
    let mut out = String::new(alloc);
    add_events(&mut out, trace, cycle.number, &cycle.happened)?;
    add_plan(
        &mut out,
        trace,
        cycle.value,
        cycle.bound,
        cycle.mark,
        cycle.nodes,
        &cycle.grants,
        &cycle.starts,
        &cycle.certificate,
    )?;
    add_launches(&mut out, trace, &cycle.launched)?;
    Ok(out.into_bytes())
}
