// The trace that is read so far.
ghost use Rattle.std.specs.Prelude.{◌≡◌, IfOk, IsOkUnless};
ghost use Rattle.tetri_trace.specs.Draft.{so_far, IsSoundDraft};
ghost use Rattle.tetri_trace.specs.Scenario.{scenario};
ghost use Rattle.tetri_trace.specs.Sound.{IsSound};

use crate::jobs::Jobs;
use crate::trace::{Event, Trace};
use std::alloc::Global;
use std::rc::Rc;
use tetri_notice::{Header, Stop};
use tetri_parse::ClusterReader;
use tetri_space::Closures;

/// The trace that is read so far.
#[derive(Drop)]
pub(crate) struct Draft {
    pub(crate) header: Header,
    pub(crate) reader: ClusterReader,
    pub(crate) closures: Closures,
    pub(crate) jobs: Jobs,
    pub(crate) events: Vec<Event>,
}

/// The trace that a draft is.
pub(crate) fn finished(alloc: Global, draft: Draft) -> Result<Trace, Stop>
    requires { IsSoundDraft draft }
    ensures same { IfOk result (λ t. scenario t ≡ so_far draft) }
    ensures sound { IfOk result (λ t. IsSound (scenario t)) }
    ensures memory { IsOkUnless result Stop.NoMemory }
{
    let (cluster, sets) = draft.reader.into_parts();
    Ok(Trace {
        header: draft.header,
        cluster,
        sets: Rc::new(alloc, sets)?,
        closures: Rc::new(alloc, draft.closures)?,
        jobs: draft.jobs,
        events: draft.events,
    })
}
