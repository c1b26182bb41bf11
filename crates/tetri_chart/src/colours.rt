// What the colours of bars tell.
ghost use Rattle.std.specs.Prelude.{◌≡◌, ◌++◌, ◌<◌, ◌≤◌, flat_map, min, length, IfOk, OnOk, string_bytes};
ghost use Rattle.std.specs.List.{range_with_len};
ghost use Rattle.tetri_chart.specs.Colours.{ask_colour, by_text, class_colour, colour_of, first_tag, further_text, keys_text, lines_of, node_colours, others_text, paint_of, place_colour, tag_key, tag_keys};
ghost use Rattle.tetri_cluster.specs.Cluster.{tags_at};
ghost use Rattle.tetri_trace.specs.Scenario.{demand_of, scenario, submission_of};

use crate::picture::Span;
use crate::view::Colours;
use std::alloc::{AllocError, Global};
use tetri_base::Items;
use tetri_cluster::Name;
use tetri_request::Class;
use tetri_svg::{Frame, add_grey, add_key, add_note};
use tetri_trace::{Trace, Work};

/// What the colour of a bar goes by: its job's number, what its job asks for, or its node, of which each has a colour at its place.
#[derive(Drop)]
pub(crate) enum Paint {
    Job,
    Ask,
    Node(Items<u32>),
}

// The colour of an ask of a class.
fn ask_colour(class: Class) -> u32
    ensures { result ≡ ask_colour class }
{
    match class {
        Class::Steady => 1,
        Class::Decay => 2,
    }
}

// The colour of what a job asks for.
fn work_colour(work: &Work) -> u32
    ensures { result ≡ class_colour (demand_of work.entry.now) }
{
    match work {
        Work::Strl(_) => 0,
        Work::Asked(ask) => ask_colour(ask.class),
    }
}

// The colour of what the job asks for, and that of an expression where the trace has no such job.
fn class_colour(trace: &Trace, job: u32) -> u32
    ensures { result ≡ class_colour (submission_of (scenario trace.entry.now) job).demand }
{
    if (job as usize) < trace.jobs.len() {
        work_colour(&trace.job(job).work)
    } else {
        0
    }
}

// The colour of a tag at a place, or the further one where there is none.
fn place_colour(place: Option<usize>) -> u32
    ensures { result ≡ place_colour place }
{
    match place {
        Some(place) => (place % 7) as u32,
        None => 7,
    }
}

// The place of the first of these tags that a node has.
fn first_tag(trace: &Trace, tags: &[Name], node: u32) -> Option<usize>
    requires { node < length (scenario trace.now).nodes }
    ensures { result ≡ first_tag tags.now (tags_at (scenario trace.entry.now).nodes node) }
{
    tags.iter()
        .position(|tag| trace.cluster.has_tag(node, tag.bytes()))
}

// The colours of the nodes, in their order.
fn node_colours(alloc: Global, trace: &Trace, tags: &[Name]) -> Result<Items<u32>, AllocError>
    ensures { IfOk result (λ colours. colours ≡ node_colours tags.now (scenario trace.entry.now).nodes) }
{
    let mut colours = Items::new(alloc);
    for node in 0..trace.cluster.count() {
        colours.push(place_colour(first_tag(trace, tags, node)))?;
    }
    Ok(colours)
}

/// What the colours of the bars go by.
pub(crate) fn paint_of(alloc: Global, trace: &Trace, colours: &Colours) -> Result<Paint, AllocError>
    ensures { IfOk result (λ paint. paint ≡ paint_of (scenario trace.entry.now) colours.entry.now) }
{
    match colours {
        Colours::ByJob => Ok(Paint::Job),
        Colours::ByClass => Ok(Paint::Ask),
        Colours::ByTag(tags) => Ok(Paint::Node(node_colours(alloc, trace, tags.as_slice())?)),
    }
}

/// The colour of a piece on a node.
pub(crate) fn colour_of(trace: &Trace, paint: &Paint, span: &Span, node: u32) -> u32
    ensures { result ≡ colour_of (scenario trace.entry.now) paint.entry.now span.entry.now node }
{
    match paint {
        Paint::Job => span.job % 7,
        Paint::Ask => class_colour(trace, span.job),
        Paint::Node(colours) => match colours.as_slice().get(node as usize) {
            Some(colour) => *colour,
            None => 7,
        },
    }
}

/// What the bars are coloured by, in a word.
pub(crate) fn by_text(colours: &Colours) -> &'static str
    ensures { result.now ≡ by_text colours.entry.now }
{
    match colours {
        Colours::ByJob => "job",
        Colours::ByClass => "class",
        Colours::ByTag(_) => "tag",
    }
}

/// Adds the rule of the further colour, where bars may have it.
pub(crate) fn add_further(out: &mut String, colours: &Colours) -> Result<(), AllocError>
    ensures { OnOk result (string_bytes out.new ≡ string_bytes out.old ++ further_text colours.entry.now) }
{
    match colours {
        Colours::ByJob | Colours::ByClass => Ok(()),
        Colours::ByTag(_) => add_grey(out),
    }
}

/// How many lines below the legend say what the colours stand for.
pub(crate) fn lines_of(colours: &Colours) -> u32
    ensures value { result ≡ lines_of colours.entry.now }
    ensures most { result ≤ 9 }
{
    match colours {
        Colours::ByJob => 0,
        Colours::ByClass => 3,
        Colours::ByTag(tags) => tags.as_slice().len().min(8) as u32 + 1,
    }
}

// Adds the line of the tag at a place.
fn add_tag_key(out: &mut String, frame: &Frame, tags: &[Name], place: u32) -> Result<(), AllocError>
    requires within { place < length tags.now }
    requires few { place < 7 }
    ensures { OnOk result (string_bytes out.new ≡ string_bytes out.old ++ tag_key frame.now tags.now place) }
{
    add_key(out, frame, place + 1, place, tags[place as usize].text())
}

// Adds the lines of the first seven tags.
fn add_tag_keys(out: &mut String, frame: &Frame, tags: &[Name]) -> Result<(), AllocError>
    ensures { OnOk result (string_bytes out.new ≡ string_bytes out.old ++ tag_keys frame.now tags.now) }
{
    for place in 0..tags.len().min(7) as u32 {
        add_tag_key(out, frame, tags, place)?;
    }
    Ok(())
}

// Adds a line where there are more tags.
fn add_others(out: &mut String, frame: &Frame, tags: &[Name]) -> Result<(), AllocError>
    ensures { OnOk result (string_bytes out.new ≡ string_bytes out.old ++ others_text frame.now tags.now) }
{
    if tags.len() > 7 {
        add_note(out, frame, 8, "and others, in the same colours")?;
    }
    Ok(())
}

/// Adds the lines below the legend.
pub(crate) fn add_keys(out: &mut String, frame: &Frame, colours: &Colours) -> Result<(), AllocError>
    ensures { OnOk result (string_bytes out.new ≡ string_bytes out.old ++ keys_text frame.now colours.entry.now) }
{
    match colours {
        Colours::ByJob => Ok(()),
        Colours::ByClass => {
            add_key(out, frame, 0, 0, "expression")?;
            add_key(out, frame, 1, 1, "steady")?;
            add_key(out, frame, 2, 2, "decay")
        }
        Colours::ByTag(tags) => {
            add_key(out, frame, 0, 7, "a node without a tag")?;
            add_tag_keys(out, frame, tags.as_slice())?;
            add_others(out, frame, tags.as_slice())
        }
    }
}
