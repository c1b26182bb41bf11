// The whole trace.
ghost use Rattle.std.specs.Prelude.{◌≡◌, ◌<◌, ◌≤◌, [], length, map, true, IfOk};
ghost use Rattle.tetri_cluster.specs.Names.{is_name};
ghost use Rattle.tetri_cluster.specs.Sets.{AreSets};
ghost use Rattle.tetri_trace.specs.Scenario.{scenario, submission};
ghost use Rattle.tetri_trace.specs.Sound.{IsSound};
ghost use Rattle.tetri_make.specs.Generated.{arriving, generated, sets_with};

use crate::drawing::{Drawn, Generator};
use crate::jobs::request;
use crate::nodes::{cluster, numbered};
use std::alloc::{AllocError, Global};
use std::rc::Rc;
use tetri_cluster::Sets;
use tetri_space::Closures;
use tetri_trace::{Event, Happening, Header, Job, Jobs, Trace, Work};

const SLOTS: u32 = 32;

/// The trace of a number: eight nodes of several kinds, and one job for each of 32 slots, drawn at random from
/// the number. Its only error is want of memory.
pub fn make(alloc: Global, number: u32) -> Result<Trace, AllocError>
    ensures trace { IfOk result (λ t. scenario t ≡ generated number) }
    ensures sound { IfOk result (λ t. IsSound (scenario t)) }
{
    let cluster = cluster(alloc)?;
    let closures = Rc::new(alloc, Closures::new(alloc))?;
    let mut jobs = Jobs::new(alloc);
    let mut events = Vec::new(alloc);
    let sets = add_arrivals(alloc, number, &mut jobs, &mut events)?;
    Ok(Trace {
        header: Header {
            window: 4,
            budget: 16,
            until: SLOTS,
            unit: 1,
        },
        cluster,
        sets,
        closures,
        jobs,
        events,
    })
}

// Adds the jobs and the events of all slots to none, and gives the sets that the jobs' requests name.
fn add_arrivals(
    alloc: Global,
    number: u32,
    jobs: &mut Jobs,
    events: &mut Vec<Event>,
) -> Result<Rc<Sets>, AllocError>
    requires jobs { jobs.old ≡ [] }
    requires events { events.old.items ≡ [] }
    ensures sets { IfOk result (λ sets. sets.value ≡ (generated number).sets) }
    ensures jobs { IfOk result (λ _. map submission jobs.new ≡ (generated number).submissions) }
    ensures events { IfOk result (λ _. events.new.items ≡ (generated number).events) }
    ensures sound { IfOk result (λ _. IsSound (generated number)) }
{
    let mut sets = Sets::new(alloc);
    draw_arrivals(alloc, number, &mut sets, jobs, events)?;
    Ok(Rc::new(alloc, sets)?)
}

// Draws the job of each slot, and adds it, its event and the sets that its request names to none.
fn draw_arrivals(
    alloc: Global,
    number: u32,
    sets: &mut Sets,
    jobs: &mut Jobs,
    events: &mut Vec<Event>,
) -> Result<(), AllocError>
    requires sets { sets.old ≡ [] }
    requires jobs { jobs.old ≡ [] }
    requires events { events.old.items ≡ [] }
    ensures sets { IfOk result (λ _. sets.new ≡ (generated number).sets) }
    ensures jobs { IfOk result (λ _. map submission jobs.new ≡ (generated number).submissions) }
    ensures events { IfOk result (λ _. events.new.items ≡ (generated number).events) }
    ensures sound { IfOk result (λ _. IsSound (generated number)) }
{
    let mut generator = Generator { state: number };
    for slot in 0..SLOTS {
        let drawn = generator.draw_job();
        jobs.push(job(alloc, sets, slot, &drawn)?)?;
        events.push(Event {
            at: slot,
            what: Happening::Arrive(slot),
        })?;
    }
    Ok(())
}

// The job that arrives at a slot, whose request adds its sets to those that are named.
fn job(alloc: Global, sets: &mut Sets, slot: u32, drawn: &Drawn) -> Result<Job, AllocError>
    requires early { slot < 32 }
    requires nodes { drawn.now.nodes ≤ 3 }
    requires slots { drawn.now.slots ≤ 3 }
    requires worth { drawn.now.worth ≤ 20 }
    requires late { drawn.now.late < 3 }
    ensures submission { IfOk result (λ j. submission j ≡ arriving sets.old slot drawn.now) }
    ensures name { IfOk result (λ j. is_name j.name ≡ true) }
    ensures sets { IfOk result (λ _. sets.new ≡ sets_with sets.old drawn.now) }
    ensures are_sets { IfOk result (λ _. AreSets sets.new × (length sets.new ≤ 4096)) }
{
    Ok(Job {
        name: numbered(alloc, "j", slot)?,
        arrival: slot,
        late: drawn.late as i32 - 1,
        work: Work::Strl(request(alloc, sets, slot, drawn)?),
    })
}
