// Traces that are read, and that are refused at their first faulty line.
use std::alloc::{AllocError, Global};
use tetri_cluster::{Cluster, Sets};
use tetri_tables::{Given, Tally, add_debug, answer, expand, halves, replaced, tell_expr};
use tetri_trace::{Event, Job, Trace, TraceFault, TraceWhy, Work, job_of};

// The number of a line, and what is wrong there.
fn cause_told(alloc: Global, line: u64, why: TraceWhy) -> Result<String, AllocError> {
    let mut out = format!(in alloc; "{line}: ")?;
    why.print_onto(&mut out)?;
    Ok(out)
}

// The words of a fault: its line and its cause.
fn fault_told(alloc: Global, fault: TraceFault) -> Result<String, AllocError> {
    match fault {
        TraceFault::Bad { line, why } => cause_told(alloc, line, why),
        TraceFault::Read => String::from_str(alloc, "read fault"),
        TraceFault::NoMemory => String::from_str(alloc, "no memory"),
    }
}

fn told(alloc: Global, content: &[u8]) -> Result<String, AllocError> {
    match answer(alloc, content)? {
        Ok(_) => String::from_str(alloc, "read"),
        Err(fault) => fault_told(alloc, fault),
    }
}

// The header, the job, or the line itself.
fn line_of<'t>(given: &'t Given, text: &'t str) -> &'t str {
    match text.trim() {
        "H" => given.header.as_str(),
        "J" => given.job.as_str(),
        line => line,
    }
}

fn content_of(alloc: Global, given: &Given, lines: &str) -> Result<String, AllocError> {
    let mut content = String::new(alloc);
    for part in lines.split('/') {
        write!(content, "{}\n", line_of(given, part))?;
    }
    Ok(content)
}

/// Rows `LINES => TOLD`: what is told of these lines, with ` / ` between them, where H is the header and J the job.
pub fn first_faults(
    alloc: Global,
    given: &Given,
    tally: &mut Tally,
    body: &str,
) -> Result<(), AllocError> {
    for row in body.lines() {
        let (lines, wanted) = halves(row);
        let content = content_of(alloc, given, lines)?;
        let found = told(alloc, content.as_bytes())?;
        tally.expect(row, found.as_str(), wanted)?;
    }
    Ok(())
}

// What is told of a header and a job.
fn both_told(alloc: Global, header: &str, job: &str) -> Result<String, AllocError> {
    let content = format!(in alloc; "{header}\n{job}\n")?;
    told(alloc, content.as_bytes())
}

/// Rows `OLD => NEW => TOLD`: what is told of the header, with OLD replaced, and the job.
pub fn changed_headers(
    alloc: Global,
    given: &Given,
    tally: &mut Tally,
    body: &str,
) -> Result<(), AllocError> {
    for row in body.lines() {
        let (change, wanted) = halves(row);
        let header = replaced(alloc, given.header.as_str(), change)?;
        let found = both_told(alloc, header.as_str(), given.job.as_str())?;
        tally.expect(row, found.as_str(), wanted)?;
    }
    Ok(())
}

/// The same for the job.
pub fn changed_jobs(
    alloc: Global,
    given: &Given,
    tally: &mut Tally,
    body: &str,
) -> Result<(), AllocError> {
    for row in body.lines() {
        let (change, wanted) = halves(row);
        let job = replaced(alloc, given.job.as_str(), change)?;
        let found = both_told(alloc, given.header.as_str(), job.as_str())?;
        tally.expect(row, found.as_str(), wanted)?;
    }
    Ok(())
}

/// Rows `CONTENT => TOLD`: what is told of these bytes.
pub fn contents(alloc: Global, tally: &mut Tally, body: &str) -> Result<(), AllocError> {
    for row in body.lines() {
        let (content, wanted) = halves(row);
        let content = expand(alloc, content)?;
        let found = told(alloc, &content)?;
        tally.expect(row, found.as_str(), wanted)?;
    }
    Ok(())
}

fn tell_names(out: &mut String, cluster: &Cluster) -> Result<(), AllocError> {
    out.push_str("\nnodes")?;
    for node in 0..cluster.count() {
        write!(out, " {}", cluster.name_of(node).text())?;
    }
    Ok(())
}

fn tell_sets(out: &mut String, sets: &Sets) -> Result<(), AllocError> {
    for set in 0..sets.len() {
        let nodes = sets.nodes_of(set).as_slice();
        write!(out, "\nset {nodes:?}")?;
    }
    Ok(())
}

fn tell_work(out: &mut String, work: &Work) -> Result<(), AllocError> {
    match work {
        Work::Strl(e) => tell_expr(out, e),
        Work::Asked(ask) => add_debug(out, ask),
    }
}

fn tell_job(out: &mut String, job: &Job) -> Result<(), AllocError> {
    let name = job.name.text();
    write!(out, "\njob {name} at {} late {} ", job.arrival, job.late)?;
    tell_work(out, &job.work)
}

fn tell_event(out: &mut String, event: &Event) -> Result<(), AllocError> {
    write!(out, "\n{} ", event.at)?;
    add_debug(out, &event.what)
}

fn tell_trace(out: &mut String, trace: &Trace) -> Result<(), AllocError> {
    add_debug(out, &trace.header)?;
    tell_names(out, &trace.cluster)?;
    tell_sets(out, &trace.sets)?;
    for job in trace.jobs.as_slice() {
        tell_job(out, job)?;
    }
    for event in &trace.events {
        tell_event(out, event)?;
    }
    Ok(())
}

fn trace_told(alloc: Global, trace: &Trace) -> Result<String, AllocError> {
    let mut out = String::new(alloc);
    tell_trace(&mut out, trace)?;
    Ok(out)
}

fn read_told(alloc: Global, trace: &str) -> Result<String, AllocError> {
    match answer(alloc, trace.as_bytes())? {
        Ok(trace) => trace_told(alloc, &trace),
        Err(fault) => fault_told(alloc, fault),
    }
}

/// The text is what the trace says, by the numbers of nodes, sets and jobs.
pub fn read(alloc: Global, given: &Given, tally: &mut Tally, body: &str) -> Result<(), AllocError> {
    let found = read_told(alloc, given.trace.as_str())?;
    tally.expect("a trace", found.as_str(), body)
}

fn job_told(alloc: Global, trace: &Trace, name: &str) -> Result<String, AllocError> {
    match job_of(trace, name.as_bytes()) {
        Some(job) => format!(in alloc; "{job}"),
        None => String::from_str(alloc, "none"),
    }
}

fn expect_jobs(
    alloc: Global,
    tally: &mut Tally,
    trace: &Trace,
    body: &str,
) -> Result<(), AllocError> {
    for row in body.lines() {
        let (name, wanted) = halves(row);
        let found = job_told(alloc, trace, name)?;
        tally.expect(row, found.as_str(), wanted)?;
    }
    Ok(())
}

/// Rows `NAME => NUMBER`: the number of the job of the trace that has the name.
pub fn found_jobs(
    alloc: Global,
    given: &Given,
    tally: &mut Tally,
    body: &str,
) -> Result<(), AllocError> {
    match answer(alloc, given.trace.as_bytes())? {
        Ok(trace) => expect_jobs(alloc, tally, &trace, body),
        Err(_) => tally.expect("a trace", "refused", "read"),
    }
}
