// The tasks of an array that wait, which stand in one line, as `14_[1,3,7-9%2]`.
ghost use Rattle.std.specs.Prelude.{◌≡◌, ◌+◌, ◌*◌, ◌++◌, ◌∷◌, [], IfOk, OnOk, decimal, flat_map, map, nat_le, option_map};
ghost use Rattle.tetri_io.specs.Words.{parts_at};
ghost use Rattle.tetri_logs.specs.Tasks.{before_bracket, ids_in, ids_inside, is_array, list_by, run_alone, run_between, run_by, run_from, run_ids, run_in, run_to, runs_of, task_count, task_ids, task_ids_by};

use crate::words::count_in;
use std::alloc::{AllocError, Global};
use tetri_base::Items;
use tetri_io::parts_at;

/// Identifiers, in order.
pub(crate) type Ids = Items<Items<u8>>;

// As many tasks as a line may stand for.
const MOST_TASKS: u64 = 100_000;

/// Tasks that stand as far apart as each other.
#[derive(Clone, Copy)]
struct Run {
    first: u32,
    step: u32,
    /// How many stand behind the first.
    more: u32,
}

// The tasks from one to another by a step.
fn run_between(first: u32, last: u32, step: u32) -> Option<Run>
    ensures { result ≡ run_between first last step }
{
    if step == 0 || last < first {
        return None;
    }
    let more = (last - first) / step;
    Some(Run { first, step, more })
}

// The tasks from one on, to the task that stands before the step.
fn run_to(first: u32, parts: &[&[u8]]) -> Option<Run>
    ensures { result ≡ run_to first (map (λ w. w.now) parts.now) }
{
    match parts {
        [last] => run_between(first, count_in(last)?, 1),
        [last, step] => run_between(first, count_in(last)?, count_in(step)?),
        _ => None,
    }
}

fn run_from(alloc: Global, first: &[u8], last: &[u8]) -> Result<Option<Run>, AllocError>
    ensures { IfOk result (λ run. run ≡ run_from first.now last.now) }
{
    let Some(first) = count_in(first) else {
        return Ok(None);
    };
    let parts = parts_at(alloc, b':', last)?;
    Ok(run_to(first, &parts))
}

fn run_alone(task: &[u8]) -> Option<Run>
    ensures { result ≡ run_alone task.now }
{
    let task = count_in(task)?;
    run_between(task, task, 1)
}

fn run_by(alloc: Global, ends: &[&[u8]]) -> Result<Option<Run>, AllocError>
    ensures { IfOk result (λ run. run ≡ run_by (map (λ w. w.now) ends.now)) }
{
    match ends {
        [task] => Ok(run_alone(task)),
        [first, last] => run_from(alloc, first, last),
        _ => Ok(None),
    }
}

// What a part of a list says.
fn run_in(alloc: Global, part: &[u8]) -> Result<Option<Run>, AllocError>
    ensures { IfOk result (λ run. run ≡ run_in part.now) }
{
    let ends = parts_at(alloc, b'-', part)?;
    run_by(alloc, &ends)
}

// What each part of a list says.
fn runs_of(alloc: Global, parts: &[&[u8]]) -> Result<Option<Vec<Run>>, AllocError>
    ensures { IfOk result (λ runs. option_map (λ v. v.items) runs ≡ runs_of (map (λ w. w.now) parts.now)) }
{
    let mut runs = Vec::new(alloc);
    for part in parts {
        let Some(run) = run_in(alloc, part)? else {
            return Ok(None);
        };
        runs.push(run)?;
    }
    Ok(Some(runs))
}

// Whether there are no more tasks than a line may stand for.
fn are_few(runs: &[Run]) -> bool
    ensures { result ≡ nat_le (task_count runs.now) 100000 }
{
    let mut count = 0;
    for run in runs {
        count += u64::from(run.more) + 1;
        if MOST_TASKS < count {
            return false;
        }
    }
    true
}

// The identifier of a task.
fn task_id(alloc: Global, front: &[u8], task: u64) -> Result<Items<u8>, AllocError>
    ensures { IfOk result (λ id. id ≡ front.now ++ decimal task) }
{
    let digits = format!(in alloc; "{task}")?;
    let mut id = Vec::from_slice(alloc, front)?;
    id.extend_from_slice(digits.as_bytes())?;
    Ok(Items::of(id))
}

// Those of the tasks that stand apart alike.
fn add_run_ids(alloc: Global, ids: &mut Ids, front: &[u8], run: Run) -> Result<(), AllocError>
    ensures { OnOk result (ids.new ≡ ids.old ++ run_ids front.now run) }
{
    for k in 0..u64::from(run.more) + 1 {
        let task = u64::from(run.first) + k * u64::from(run.step);
        ids.push(task_id(alloc, front, task)?)?;
    }
    Ok(())
}

// Those of all of these.
fn all_ids(alloc: Global, front: &[u8], runs: &[Run]) -> Result<Ids, AllocError>
    ensures { IfOk result (λ ids. ids ≡ flat_map (run_ids front.now) runs.now) }
{
    let mut ids = Items::new(alloc);
    for run in runs {
        add_run_ids(alloc, &mut ids, front, *run)?;
    }
    Ok(ids)
}

// The tasks of a list in its order, where they are not too many.
fn ids_in(alloc: Global, front: &[u8], list: &[u8]) -> Result<Option<Ids>, AllocError>
    ensures { IfOk result (λ ids. ids ≡ ids_in front.now list.now) }
{
    let parts = parts_at(alloc, b',', list)?;
    let Some(runs) = runs_of(alloc, &parts)? else {
        return Ok(None);
    };
    if !are_few(&runs) {
        return Ok(None);
    }
    Ok(Some(all_ids(alloc, front, &runs)?))
}

/// The text before a bracket that ends it.
pub(crate) fn before_bracket(text: &[u8]) -> Option<&[u8]>
    ensures { option_map (λ t. t.now) result ≡ before_bracket text.now }
{
    match text.split_last() {
        Some((b']', rest)) => Some(rest),
        _ => None,
    }
}

// Whether a text is the number of an array before its tasks, as `14_`.
fn is_array(front: &[u8]) -> bool
    ensures { result ≡ is_array front.now }
{
    match front.split_last() {
        Some((b'_', number)) => count_in(number).is_some(),
        _ => false,
    }
}

// The list before the number of tasks that may run at once, if there is one.
fn list_by<'a>(parts: &[&'a [u8]]) -> Option<&'a [u8]>
    ensures { option_map (λ t. t.now) result ≡ list_by (map (λ w. w.now) parts.now) }
{
    match parts {
        [list] => Some(*list),
        [list, most] if count_in(most).is_some() => Some(*list),
        _ => None,
    }
}

fn ids_inside(alloc: Global, front: &[u8], inside: &[u8]) -> Result<Option<Ids>, AllocError>
    ensures { IfOk result (λ ids. ids ≡ ids_inside front.now inside.now) }
{
    if !is_array(front) {
        return Ok(None);
    }
    let parts = parts_at(alloc, b'%', inside)?;
    match list_by(&parts) {
        Some(list) => ids_in(alloc, front, list),
        None => Ok(None),
    }
}

fn task_ids_by(alloc: Global, parts: &[&[u8]]) -> Result<Option<Ids>, AllocError>
    ensures { IfOk result (λ ids. ids ≡ task_ids_by (map (λ w. w.now) parts.now)) }
{
    match parts {
        [front, inside] => ids_inside(alloc, front, inside),
        _ => Ok(None),
    }
}

// Those of what stands before the bracket at an identifier's end.
#[inline(never)]
fn tasks_before(alloc: Global, text: &[u8]) -> Result<Option<Ids>, AllocError>
    ensures { IfOk result (λ ids. ids ≡ task_ids_by (parts_at 91 text.now)) }
{
    let parts = parts_at(alloc, b'[', text)?;
    task_ids_by(alloc, &parts)
}

/// The tasks that an identifier stands for, if it stands for some. Its only error is want of memory.
#[inline(always)]
pub(crate) fn task_ids(alloc: Global, id: &[u8]) -> Result<Option<Ids>, AllocError>
    ensures { IfOk result (λ ids. ids ≡ task_ids id.now) }
{
    match before_bracket(id) {
        Some(text) => tasks_before(alloc, text),
        None => Ok(None),
    }
}
