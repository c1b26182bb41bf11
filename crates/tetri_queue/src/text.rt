// The text of a trace. What it says is read back before it is handed out.
use crate::gathering::{Cycle, TakenJob};
use std::alloc::{AllocError, Global};
use tetri_cluster::{Cluster, NodeText};
use tetri_request::Class;
use tetri_space::Closure;
use tetri_trace::Happening;

// A comma before each but the first.
fn write_comma(text: &mut String, place: usize) -> Result<(), AllocError> {
    if place == 0 {
        Ok(())
    } else {
        text.push_str(",")
    }
}

fn write_node(text: &mut String, node: &NodeText) -> Result<(), AllocError> {
    let name = node.name.text();
    write!(text, "{{\"name\":\"{name}\",\"tags\":[")?;
    for (place, tag) in node.tags.as_slice().iter().enumerate() {
        write_comma(text, place)?;
        let tag = tag.text();
        write!(text, "\"{tag}\"")?;
    }
    text.push_str("]}")
}

/// The list of the nodes, as a header has it.
pub(crate) fn nodes_text(alloc: Global, nodes: &[NodeText]) -> Result<String, AllocError> {
    let mut text = String::from_str(alloc, "[")?;
    for (place, node) in nodes.iter().enumerate() {
        write_comma(&mut text, place)?;
        write_node(&mut text, node)?;
    }
    text.push_str("]")?;
    Ok(text)
}

// The name of a node, and nothing where there is none of this number.
fn node_name(cluster: &Cluster, node: u32) -> &str {
    if node < cluster.count() {
        cluster.name_of(node).text()
    } else {
        ""
    }
}

fn write_closure(
    text: &mut String,
    cluster: &Cluster,
    closure: &Closure,
) -> Result<(), AllocError> {
    let node = node_name(cluster, closure.node);
    let from = closure.from;
    let to = closure.to;
    write!(text, "{{\"node\":\"{node}\",\"from\":{from},\"to\":{to}}}")
}

fn write_header(text: &mut String, cycle: &Cycle, nodes: &str) -> Result<(), AllocError> {
    let window = cycle.window;
    let budget = cycle.budget;
    write!(
        text,
        "{{\"nodes\":{nodes},\"window\":{window},\"budget\":{budget}"
    )?;
    text.push_str(",\"until\":1,\"closures\":[")?;
    for (place, closure) in cycle.closures.iter().enumerate() {
        write_comma(text, place)?;
        write_closure(text, &cycle.cluster, closure)?;
    }
    text.push_str("]}\n")
}

fn class_name(class: Class) -> &'static str {
    match class {
        Class::Steady => "steady",
        Class::Decay => "decay",
    }
}

fn write_job(text: &mut String, job: &TakenJob) -> Result<(), AllocError> {
    let name = job.name.text();
    let set = job.set.as_str();
    let ask = &job.ask;
    let k = ask.k;
    let dur = ask.dur;
    let value = ask.value;
    let deadline = ask.deadline;
    let class = class_name(ask.class);
    write!(
        text,
        "{{\"at\":0,\"arrive\":\"{name}\",\"ask\":{{\"k\":{k},\"set\":\"{set}\""
    )?;
    write!(
        text,
        ",\"dur\":{dur},\"value\":{value},\"deadline\":{deadline}"
    )?;
    writeln!(text, ",\"class\":\"{class}\"}}}}")
}

fn write_happening(text: &mut String, cycle: &Cycle, what: Happening) -> Result<(), AllocError> {
    match what {
        Happening::Arrive(number) => match cycle.jobs.get(number as usize) {
            Some(job) => write_job(text, job),
            None => Ok(()),
        },
        Happening::Drain(node) => {
            let node = node_name(&cycle.cluster, node);
            writeln!(text, "{{\"at\":0,\"drain\":\"{node}\"}}")
        }
        Happening::Cancel(_) | Happening::Undrain(_) | Happening::Fail(_) => Ok(()),
    }
}

/// Writes the trace of a cycle, where this is the list of its nodes. Its only error is want of memory.
pub(crate) fn write_trace(text: &mut String, cycle: &Cycle, nodes: &str) -> Result<(), AllocError> {
    write_header(text, cycle, nodes)?;
    for event in &cycle.events {
        write_happening(text, cycle, event.what)?;
    }
    Ok(())
}
