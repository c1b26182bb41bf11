// The closures of a trace.
ghost use Rattle.std.specs.Prelude.{◌≡◌, ◌≤◌, All, length, IfOk, ok_or};
ghost use Rattle.tetri_cluster.specs.Cluster.{names_of};
ghost use Rattle.tetri_notice.specs.Answers.{Gives};
ghost use Rattle.tetri_notice.specs.Closures.{IsWithinLimits};
ghost use Rattle.tetri_notice.specs.declared.fault.TraceWhy.TheVariants as whys;
ghost use Rattle.tetri_space.specs.Closed.{AreSoundClosures, IsSoundClosure};
ghost use Rattle.tetri_trace.specs.Closures.{closures_at};

use std::alloc::Global;
use tetri_cluster::Cluster;
use tetri_notice::{ClosureText, Stop, TraceWhy};
use tetri_space::{Closure, Closures};

#[tactic(auto, using(tetri_notice::proofs::NoticeLaws::some_from_ok, tetri_notice::proofs::NoticeLaws::stops_first, tetri_notice::proofs::NoticeLaws::stops_none))]
fn numbered(alloc: Global, cluster: &Cluster, texts: &[ClosureText]) -> Result<Vec<Closure>, Stop>
    requires { All IsWithinLimits texts.now }
    ensures value { Gives (λ v. v.items) result (ok_or (closures_at (names_of cluster.now) texts.now) whys.NoSuchNode) }
    ensures sound { IfOk result (λ v. All (IsSoundClosure (length cluster.now)) v.items) }
    ensures count { IfOk result (λ v. length v.items ≡ length texts.now) }
{
    let mut closures = Vec::with_capacity(alloc, texts.len())?;
    for text in texts {
        let Some(node) = cluster.node(text.node.bytes()) else {
            return Err(Stop::Because(TraceWhy::NoSuchNode));
        };
        closures.push(Closure {
            node,
            from: text.from,
            to: text.to,
        })?;
    }
    Ok(closures)
}

/// The closures with the numbers of their nodes.
pub(crate) fn closures_at(
    alloc: Global,
    cluster: &Cluster,
    texts: &[ClosureText],
) -> Result<Closures, Stop>
    requires within { All IsWithinLimits texts.now }
    requires few { length texts.now ≤ 4096 }
    ensures value { Gives (λ c. c) result (ok_or (closures_at (names_of cluster.now) texts.now) whys.NoSuchNode) }
    ensures sound { IfOk result (λ c. AreSoundClosures (length cluster.now) c) }
{
    let closures = numbered(alloc, cluster, texts)?;
    Ok(Closures::of(alloc, closures)?)
}
