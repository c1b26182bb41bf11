// Spans of slots in which nodes are closed, ascending by node and slot.
ghost use Rattle.std.specs.Prelude.{◌≡◌, ◌↔◌, IsTrue, ℕ, ◌+◌, ◌<◌, ◌≤◌, ◌++◌, ◌^◌, true, false, length, All, IfOk, OnOk, take, drop};
ghost use Rattle.std.specs.List.{list_any, range_with_len};
ghost use Rattle.std.specs.List.Sorted.{IsNonDecreasingBy};
ghost use Rattle.tetri_space.specs.Closed.{closes, is_closed_by};
ghost use Rattle.tetri_space.specs.Spans.{AreSpans, AreSpansOf, ends_in, is_past, place_of};

use crate::Closure;
use std::alloc::{AllocError, Global};

// A number that ascends by node, and by first slot within a node.
fn place(closure: &Closure) -> u64
    ensures { result ≡ place_of closure.now }
{
    u64::from(closure.node) * 4_294_967_296 + u64::from(closure.from)
}

// The closures that close some slot, ascending by node and first slot.
fn sorted(alloc: Global, given: &[Closure]) -> Result<Vec<Closure>, AllocError>
    ensures same { IfOk result (λ v. (n t : ℕ)
        → is_closed_by v.items n t ≡ is_closed_by given.now n t) }
    ensures some_slots { IfOk result (λ v. All (λ c. c.from ≤ c.to) v.items) }
    ensures fit { IfOk result (λ v. All (λ c. c.from < 2 ^ 32) v.items) }
    ensures ascending { IfOk result (λ v. IsNonDecreasingBy place_of v.items) }
{
    let mut closures = closing(alloc, given)?;
    closures.sort_unstable_by_key(|closure| place(closure));
    Ok(closures)
}

// The closures that close some slot.
fn closing(alloc: Global, given: &[Closure]) -> Result<Vec<Closure>, AllocError>
    ensures same { IfOk result (λ v. (n t : ℕ)
        → is_closed_by v.items n t ≡ is_closed_by given.now n t) }
    ensures some_slots { IfOk result (λ v. All (λ c. c.from ≤ c.to) v.items) }
    ensures fit { IfOk result (λ v. All (λ c. c.from < 2 ^ 32) v.items) }
{
    let mut closures = Vec::new(alloc);
    for closure in given {
        if closure.from <= closure.to {
            closures.push(*closure)?;
        }
    }
    Ok(closures)
}

// Whether a closure overlaps or touches a span of its node that does not begin after it.
fn touches(span: &Closure, closure: &Closure) -> bool
    ensures { IsTrue result
        ↔ ((span.now.node ≡ closure.now.node) × (closure.now.from ≤ span.now.to + 1)) }
{
    span.node == closure.node && (closure.from <= span.to || closure.from - span.to == 1)
}

// The spans of ascending closures: those of a node that overlap or touch are one.
fn merged(alloc: Global, closures: &[Closure]) -> Result<Vec<Closure>, AllocError>
    requires some_slots { All (λ c. c.from ≤ c.to) closures.now }
    requires fit { All (λ c. c.from < 2 ^ 32) closures.now }
    requires ascending { IsNonDecreasingBy place_of closures.now }
    ensures { IfOk result (λ v. AreSpansOf closures.now v.items) }
{
    let mut spans = Vec::new(alloc);
    let Some((first, rest)) = closures.split_first() else {
        return Ok(spans);
    };
    let mut last = *first;
    for closure in rest {
        if touches(&last, closure) {
            last.to = last.to.max(closure.to);
        } else {
            spans.push(last)?;
            last = *closure;
        }
    }
    spans.push(last)?;
    Ok(spans)
}

/// The spans of closures.
pub fn spans_of(alloc: Global, given: &[Closure]) -> Result<Vec<Closure>, AllocError>
    ensures { IfOk result (λ v. AreSpansOf given.now v.items) }
{
    let closures = sorted(alloc, given)?;
    let spans = merged(alloc, closures.as_slice())?;
    Ok(spans)
}

/// The place of the first span that is not past the slot of the node: a binary search.
pub fn first_reaching(spans: &[Closure], node: u32, slot: u32) -> usize
    requires { AreSpans spans.now }
    ensures bound { result ≤ length spans.now }
    ensures passed { All (λ c. is_past node slot c ≡ true) (take result spans.now) }
    ensures reaching { All (λ c. is_past node slot c ≡ false) (drop result spans.now) }
{
    spans.partition_point(
        |span: &Closure| -> bool
            ensures { result ≡ is_past node slot span.now }
        { span.node < node || span.node == node && span.to < slot },
    )
}

/// Whether a span closes a node in one of so many slots from `from` on.
pub fn meets(span: &Closure, node: u32, from: u32, count: u32) -> bool
    requires { span.now.from ≤ span.now.to }
    ensures { result ≡ list_any (λ t. closes node t span.now) (range_with_len from count) }
{
    if span.node != node {
        return false;
    }
    if from < span.from {
        return span.from - from < count;
    }
    if span.to < from {
        return false;
    }
    count > 0
}

/// Puts where the first spans, as far as they are of the node, begin and end last in a list.
pub fn push_ends(
    spans: &[Closure],
    node: u32,
    now: u32,
    base: u32,
    ends: &mut Vec<u32>,
) -> Result<(), AllocError>
    requires few { base < 2 ^ 31 }
    requires early { now < 2 ^ 31 }
    requires within { All (λ c. c.to < 2 ^ 31) spans.now }
    requires some_slots { All (λ c. c.from ≤ c.to) spans.now }
    ensures { OnOk result (ends.new.items ≡ ends.old.items ++ ends_in node now base spans.now) }
{
    for span in spans {
        if span.node != node {
            return Ok(());
        }
        ends.push(base + now.max(span.from))?;
        ends.push(base + (span.to + 1))?;
    }
    Ok(())
}
