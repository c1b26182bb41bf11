// The text of a trace. What it says is read back before it is handed out.
ghost use Rattle.std.specs.Prelude.{◌≡◌, ◌≤◌, ◌<◌, ◌++◌, [], IfOk, OnOk, decimal, map, slice_index_or, string_bytes};
ghost use Rattle.std.specs.Fmt.{signed_decimal};
ghost use Rattle.tetri_logs.specs.Options.{AreGood};
ghost use Rattle.tetri_trace.specs.Scenario.{demand_of, submission};
ghost use Rattle.tetri_workload.specs.Taking.{so_far};
ghost use Rattle.tetri_workload.specs.Text.{all_given_text, any_nodes_text, arrival_text, ask_text, cancel_text, class_name, clock_text, closing_text, comma_text, demand_text, due_text, event_text, given_text, header_text, late_text, limits_text, named_arrival_text, named_cancel_text, named_set_text, named_text, node_name_text, node_text, nodes_text, opening_text, quoted_text, run_text, set_text, tag_text, tagged_text, tags_text, text_of, wanted_text};

use crate::kinds::are_mixed;
use crate::taking::Taken;
use itoa::Buffer;
use std::alloc::{AllocError, Global};
use tetri_cluster::{Name, NodeText};
use tetri_logs::{SetText, Settings};
use tetri_request::{Ask, Class};
use tetri_trace::{Event, Happening, Job, Work};

// A node, named by its number from 1 on.
#[tactic(auto, unfolding(crate::specs::Text::named_text))]
fn write_named(text: &mut String, name: u32) -> Result<(), AllocError>
    ensures { OnOk result (string_bytes text.new ≡ string_bytes text.old ++ named_text name) }
{
    write!(text, "{{\"name\":\"n{name}\"}}")
}

// The same with a comma before each but the first.
fn write_node(text: &mut String, number: u32) -> Result<(), AllocError>
    requires { number < 4096 }
    ensures { OnOk result (string_bytes text.new ≡ string_bytes text.old ++ node_text number) }
{
    if number != 0 {
        text.push_str(",")?;
    }
    write_named(text, number + 1)
}

fn write_nodes(text: &mut String, count: u32) -> Result<(), AllocError>
    requires { count ≤ 4096 }
    ensures { OnOk result (string_bytes text.new ≡ string_bytes text.old ++ nodes_text count) }
{
    for number in 0..count {
        write_node(text, number)?;
    }
    Ok(())
}

#[tactic(auto, unfolding(crate::specs::Text::quoted_text))]
fn write_quoted(text: &mut String, tag: &str) -> Result<(), AllocError>
    ensures { OnOk result (string_bytes text.new ≡ string_bytes text.old ++ quoted_text tag.now) }
{
    write!(text, "\"{tag}\"")
}

// A comma before each but the first.
fn write_comma(text: &mut String, place: usize) -> Result<(), AllocError>
    ensures { OnOk result (string_bytes text.new ≡ string_bytes text.old ++ comma_text place) }
{
    if place == 0 {
        return Ok(());
    }
    text.push_str(",")
}

fn write_tag(text: &mut String, tags: &[Name], place: usize) -> Result<(), AllocError>
    ensures { OnOk result (string_bytes text.new ≡ string_bytes text.old ++ tag_text tags.now place) }
{
    write_comma(text, place)?;
    match tags.get(place) {
        Some(tag) => write_quoted(text, tag.text()),
        None => Ok(()),
    }
}

fn write_tags(text: &mut String, tags: &[Name]) -> Result<(), AllocError>
    ensures { OnOk result (string_bytes text.new ≡ string_bytes text.old ++ tags_text tags.now) }
{
    for place in 0..tags.len() {
        write_tag(text, tags, place)?;
    }
    Ok(())
}

#[tactic(auto, unfolding(crate::specs::Text::node_name_text))]
fn write_node_name(text: &mut String, name: &str) -> Result<(), AllocError>
    ensures { OnOk result (string_bytes text.new ≡ string_bytes text.old ++ node_name_text name.now) }
{
    write!(text, "{{\"name\":\"{name}\",\"tags\":[")
}

// A node with its own name and its tags.
#[tactic(auto, unfolding(crate::specs::Text::tagged_text))]
fn write_tagged(text: &mut String, node: &NodeText) -> Result<(), AllocError>
    ensures { OnOk result (string_bytes text.new ≡ string_bytes text.old ++ tagged_text node.now) }
{
    write_node_name(text, node.name.text())?;
    write_tags(text, node.tags.as_slice())?;
    text.push_str("]}")
}

fn write_given(text: &mut String, nodes: &[NodeText], place: usize) -> Result<(), AllocError>
    ensures { OnOk result (string_bytes text.new ≡ string_bytes text.old ++ given_text nodes.now place) }
{
    write_comma(text, place)?;
    match nodes.get(place) {
        Some(node) => write_tagged(text, node),
        None => Ok(()),
    }
}

fn write_all_given(text: &mut String, nodes: &[NodeText]) -> Result<(), AllocError>
    ensures { OnOk result (string_bytes text.new ≡ string_bytes text.old ++ all_given_text nodes.now) }
{
    for place in 0..nodes.len() {
        write_given(text, nodes, place)?;
    }
    Ok(())
}

// The nodes that are given, or so many that are alike.
fn write_any_nodes(text: &mut String, nodes: &[NodeText], count: u32) -> Result<(), AllocError>
    requires { count ≤ 4096 }
    ensures { OnOk result (string_bytes text.new ≡ string_bytes text.old ++ any_nodes_text nodes.now count) }
{
    if !are_mixed(nodes) {
        return write_nodes(text, count);
    }
    write_all_given(text, nodes)
}

#[tactic(auto, unfolding(crate::specs::Text::opening_text))]
fn write_opening(text: &mut String) -> Result<(), AllocError>
    ensures { OnOk result (string_bytes text.new ≡ string_bytes text.old ++ opening_text) }
{
    text.push_str("{\"nodes\":[")
}

#[tactic(auto, unfolding(crate::specs::Text::limits_text))]
fn write_limits(text: &mut String, window: u32, budget: u32) -> Result<(), AllocError>
    ensures { OnOk result (string_bytes text.new ≡ string_bytes text.old ++ limits_text window budget) }
{
    write!(text, "],\"window\":{window},\"budget\":{budget}")
}

#[tactic(auto, unfolding(crate::specs::Text::run_text))]
fn write_run(text: &mut String, until: u32, unit: u32) -> Result<(), AllocError>
    ensures { OnOk result (string_bytes text.new ≡ string_bytes text.old ++ run_text until unit) }
{
    write!(text, ",\"until\":{until},\"unit\":{unit}")
}

#[tactic(auto, unfolding(crate::specs::Text::clock_text))]
fn write_clock(text: &mut String, epoch: u64, slot: u32) -> Result<(), AllocError>
    ensures { OnOk result (string_bytes text.new ≡ string_bytes text.old ++ clock_text epoch slot) }
{
    writeln!(text, ",\"epoch\":{epoch},\"slot_seconds\":{slot}}}")
}

// The nodes and the limits of the run.
fn write_header(
    text: &mut String,
    settings: &Settings,
    nodes: &[NodeText],
    until: u32,
) -> Result<(), AllocError>
    requires { AreGood settings.now }
    ensures { OnOk result (string_bytes text.new ≡ string_bytes text.old ++ header_text settings.now nodes.now until) }
{
    write_opening(text)?;
    write_any_nodes(text, nodes, settings.nodes)?;
    write_limits(text, settings.window, settings.budget)?;
    write_run(text, until, settings.unit)?;
    write_clock(text, settings.origin, settings.slot)
}

fn class_name(class: Class) -> &'static str
    ensures { result.now ≡ class_name class }
{
    match class {
        Class::Steady => "steady",
        Class::Decay => "decay",
    }
}

// A number in decimal digits.
fn write_number(text: &mut String, number: u64) -> Result<(), AllocError>
    ensures { OnOk result (string_bytes text.new ≡ string_bytes text.old ++ decimal number) }
{
    text.push_str(Buffer::new().format(number))
}

// A number in decimal digits, with its sign where it is below zero.
fn write_signed_number(text: &mut String, number: i32) -> Result<(), AllocError>
    ensures { OnOk result (string_bytes text.new ≡ string_bytes text.old ++ signed_decimal number) }
{
    text.push_str(Buffer::new().format(number))
}

// The first words of what a job asks for: on how many nodes, for how long, and its worth.
#[tactic(auto, unfolding(crate::specs::Text::wanted_text))]
fn write_wanted(text: &mut String, k: u32, dur: u32, value: u64) -> Result<(), AllocError>
    ensures { OnOk result (string_bytes text.new ≡ string_bytes text.old ++ wanted_text k dur value) }
{
    text.push_str("{\"k\":")?;
    write_number(text, u64::from(k))?;
    text.push_str(",\"dur\":")?;
    write_number(text, u64::from(dur))?;
    text.push_str(",\"value\":")?;
    write_number(text, value)
}

// The last words of what a job asks for: its deadline and its class.
#[tactic(auto, unfolding(crate::specs::Text::due_text))]
fn write_due(text: &mut String, deadline: u32, class: &str) -> Result<(), AllocError>
    ensures { OnOk result (string_bytes text.new ≡ string_bytes text.old ++ due_text deadline class.now) }
{
    text.push_str(",\"deadline\":")?;
    write_number(text, u64::from(deadline))?;
    text.push_str(",\"class\":\"")?;
    text.push_str(class)?;
    text.push_str("\"}")
}

// The set of nodes that may serve.
#[tactic(auto, unfolding(crate::specs::Text::named_set_text))]
fn write_named_set(text: &mut String, set: &str) -> Result<(), AllocError>
    ensures { OnOk result (string_bytes text.new ≡ string_bytes text.old ++ named_set_text set.now) }
{
    text.push_str(",\"set\":\"")?;
    text.push_str(set)?;
    text.push_str("\"")
}

// A set is written unless all nodes may serve.
fn write_set(text: &mut String, set: &str) -> Result<(), AllocError>
    ensures { OnOk result (string_bytes text.new ≡ string_bytes text.old ++ set_text set.now) }
{
    if set.is_empty() {
        return Ok(());
    }
    write_named_set(text, set)
}

// What a job asks for, where its worth is written before the unit.
fn write_ask(text: &mut String, settings: &Settings, set: &str, ask: &Ask) -> Result<(), AllocError>
    requires { AreGood settings.now }
    ensures { OnOk result (string_bytes text.new ≡ string_bytes text.old ++ ask_text settings.now set.now ask.now) }
{
    write_wanted(text, ask.k, ask.dur, ask.value / u64::from(settings.unit))?;
    write_set(text, set)?;
    write_due(text, ask.deadline, class_name(ask.class))
}

fn write_work(
    text: &mut String,
    settings: &Settings,
    set: &str,
    work: &Work,
) -> Result<(), AllocError>
    requires { AreGood settings.now }
    ensures { OnOk result (string_bytes text.new ≡ string_bytes text.old ++ demand_text settings.now set.now (demand_of work.now)) }
{
    match work {
        Work::Asked(ask) => write_ask(text, settings, set, ask),
        Work::Strl(_) => Ok(()),
    }
}

// When a job arrives, and its name.
#[tactic(auto, unfolding(crate::specs::Text::named_arrival_text))]
fn write_named_arrival(text: &mut String, at: u32, name: &str) -> Result<(), AllocError>
    ensures { OnOk result (string_bytes text.new ≡ string_bytes text.old ++ named_arrival_text at name.now) }
{
    text.push_str("{\"at\":")?;
    write_number(text, u64::from(at))?;
    text.push_str(",\"arrive\":\"")?;
    text.push_str(name)?;
    text.push_str("\"")
}

// How many slots longer than asked for a job runs, and the key of what it asks for.
#[tactic(auto, unfolding(crate::specs::Text::late_text))]
fn write_late(text: &mut String, late: i32) -> Result<(), AllocError>
    ensures { OnOk result (string_bytes text.new ≡ string_bytes text.old ++ late_text late) }
{
    text.push_str(",\"late\":")?;
    write_signed_number(text, late)?;
    text.push_str(",\"ask\":")
}

#[tactic(auto, unfolding(crate::specs::Text::closing_text))]
fn write_closing(text: &mut String) -> Result<(), AllocError>
    ensures { OnOk result (string_bytes text.new ≡ string_bytes text.old ++ closing_text) }
{
    text.push_str("}\n")
}

fn write_arrival(
    text: &mut String,
    settings: &Settings,
    set: &str,
    job: &Job,
) -> Result<(), AllocError>
    requires { AreGood settings.now }
    ensures { OnOk result (string_bytes text.new ≡ string_bytes text.old ++ arrival_text settings.now set.now (submission job.now)) }
{
    write_named_arrival(text, job.arrival, job.name.text())?;
    write_late(text, job.late)?;
    write_work(text, settings, set, &job.work)?;
    write_closing(text)
}

// When a job is cancelled, and its name.
#[tactic(auto, unfolding(crate::specs::Text::named_cancel_text))]
fn write_named_cancel(text: &mut String, at: u32, name: &str) -> Result<(), AllocError>
    ensures { OnOk result (string_bytes text.new ≡ string_bytes text.old ++ named_cancel_text at name.now) }
{
    text.push_str("{\"at\":")?;
    write_number(text, u64::from(at))?;
    text.push_str(",\"cancel\":\"")?;
    text.push_str(name)?;
    text.push_str("\"}\n")
}

fn write_cancel(text: &mut String, at: u32, job: &Job) -> Result<(), AllocError>
    ensures { OnOk result (string_bytes text.new ≡ string_bytes text.old ++ cancel_text at (submission job.now)) }
{
    write_named_cancel(text, at, job.name.text())
}

// The text of a job's set.
fn set_at(sets: &[SetText], number: usize) -> &str
    ensures { result.now ≡ slice_index_or sets.now number [] }
{
    match sets.get(number) {
        Some(set) => set.text(),
        None => "",
    }
}

fn write_event(
    text: &mut String,
    settings: &Settings,
    sets: &[SetText],
    jobs: &[Job],
    event: Event,
) -> Result<(), AllocError>
    requires { AreGood settings.now }
    ensures { OnOk result (string_bytes text.new ≡ string_bytes text.old ++ event_text settings.now sets.now (map submission jobs.now) event) }
{
    let Event { at, what } = event;
    match what {
        Happening::Arrive(number) => match jobs.get(number as usize) {
            Some(job) => write_arrival(text, settings, set_at(sets, number as usize), job),
            None => Ok(()),
        },
        Happening::Cancel(number) => match jobs.get(number as usize) {
            Some(job) => write_cancel(text, at, job),
            None => Ok(()),
        },
        Happening::Drain(_) | Happening::Undrain(_) | Happening::Fail(_) => Ok(()),
    }
}

/// The text of the trace in which this happens, on these nodes, or on nodes that are alike where none is given. Its only error is want of memory.
pub(crate) fn trace_text(
    alloc: Global,
    settings: &Settings,
    nodes: &[NodeText],
    taken: &Taken,
) -> Result<String, AllocError>
    requires { AreGood settings.now }
    ensures { IfOk result (λ text. string_bytes text ≡ text_of settings.now nodes.now (so_far taken.now)) }
{
    let mut text = String::new(alloc);
    write_header(&mut text, settings, nodes, taken.until)?;
    for event in &taken.events {
        write_event(
            &mut text,
            settings,
            &taken.sets,
            taken.jobs.as_slice(),
            *event,
        )?;
    }
    Ok(text)
}
