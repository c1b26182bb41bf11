// Traces of one cycle that are made of a few numbers.
use std::alloc::{AllocError, Global};

// A row of numbers without a pattern.
#[derive(Drop)]
struct Draw {
    state: u64,
}

impl Draw {
    fn below(&mut self, most: u32) -> u32 {
        self.state = self
            .state
            .wrapping_mul(6_364_136_223_846_793_005)
            .wrapping_add(1_442_695_040_888_963_407);
        if most == 0 {
            return 0;
        }
        u32::try_from(self.state >> 33).unwrap_or(0) % most
    }
}

fn number_at(numbers: &[u32], place: usize) -> u32 {
    match numbers.get(place) {
        Some(number) => *number,
        None => 0,
    }
}

// A leaf of up to three nodes from a slot on.
fn add_leaf(out: &mut String, draw: &mut Draw, start: u32) -> Result<(), AllocError> {
    let word = if draw.below(4) == 0 { "LnCk" } else { "nCk" };
    let set = match draw.below(4) {
        0 => "a",
        1 => "b",
        2 => "a&b",
        _ => "*",
    };
    let count = draw.below(3).saturating_add(1);
    let slots = draw.below(3).saturating_add(1);
    let worth = draw.below(9).saturating_add(1).saturating_mul(count);
    write!(out, "{word}({set},{count},{start},{slots},{worth})")
}

// Two leaves below a word. Only those of `max` may start in two slots.
fn add_pair(out: &mut String, draw: &mut Draw, word: &str, window: u32) -> Result<(), AllocError> {
    let first = draw.below(window);
    let second = if word == "max" {
        draw.below(window)
    } else {
        first
    };
    write!(out, "{word}(")?;
    add_leaf(out, draw, first)?;
    write!(out, ",")?;
    add_leaf(out, draw, second)?;
    write!(out, ")")
}

// The expression of a job.
fn add_expression(out: &mut String, draw: &mut Draw, window: u32) -> Result<(), AllocError> {
    match draw.below(4) {
        0 => {
            let start = draw.below(window);
            add_leaf(out, draw, start)
        }
        1 => add_pair(out, draw, "max", window),
        2 => add_pair(out, draw, "min", window),
        _ => {
            write!(out, "max(")?;
            add_pair(out, draw, "min", window)?;
            write!(out, ",")?;
            add_pair(out, draw, "sum", window)?;
            write!(out, ")")
        }
    }
}

fn tags_of(node: u32) -> &'static str {
    match (node % 2, node % 3) {
        (0, 0) => "\"a\",\"b\"",
        (0, _) => "\"a\"",
        (_, 0) => "\"b\"",
        _ => "",
    }
}

// The header of a trace with so many nodes and slots of its window.
fn add_header(out: &mut String, nodes: u32, window: u32) -> Result<(), AllocError> {
    out.push_str("{\"nodes\":[")?;
    for node in 0..nodes {
        let before = if node == 0 { "" } else { "," };
        let tags = tags_of(node);
        write!(out, "{before}{{\"name\":\"n{node}\",\"tags\":[{tags}]}}")?;
    }
    write!(out, "],\"window\":{window},\"budget\":1,\"until\":1}}\n")
}

fn add_job(out: &mut String, draw: &mut Draw, job: u32, window: u32) -> Result<(), AllocError> {
    write!(out, "{{\"at\":0,\"arrive\":\"j{job}\",\"strl\":\"")?;
    add_expression(out, draw, window)?;
    write!(out, "\"}}\n")
}

/// The trace of a cycle by six numbers: a budget and a count of bytes, which it leaves alone, what it
/// is drawn from, and how many nodes, jobs and slots of its window there are.
pub fn made_trace(alloc: Global, numbers: &[u32]) -> Result<String, AllocError> {
    let mut draw = Draw {
        state: number_at(numbers, 2) as u64,
    };
    let window = number_at(numbers, 5);
    let mut out = String::new(alloc);
    add_header(&mut out, number_at(numbers, 3), window)?;
    for job in 0..number_at(numbers, 4) {
        add_job(&mut out, &mut draw, job, window)?;
    }
    Ok(out)
}
