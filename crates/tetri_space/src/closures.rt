// Closures with an index by node.
ghost use Rattle.std.specs.Prelude.{◌≡◌, ℕ, ◌<◌, ◌^◌, ◌++◌, [], List, All, IfOk, OnOk};
ghost use Rattle.std.specs.List.{list_any, range_with_len};
ghost use Rattle.tetri_space.specs.Closed.{AreTurns, is_closed_by};

use crate::Closure;
use crate::spans::{first_reaching, meets, push_ends, spans_of};
use std::alloc::{AllocError, Global};
use std::marker::Model;

/// Closures, in the order in which they were given. A look-up goes by an index that is made once:
/// for each node the spans of slots in which it is closed, found by binary search.
#[derive(Drop)]
pub struct Closures {
    given: Vec<Closure>,
    spans: Vec<Closure>,
}

impl Model for Closures {
    ghost use Rattle.std.specs.Prelude.{List};
    ghost use Rattle.tetri_space.specs.Spans.{AreSpansOf};
    ghost use Rattle.tetri_space.specs.declared.closure.Closure.{Closure};

    ghost Value = { List Closure };

    ghost view = { λ c. c.given.items };

    ghost invariant = { λ c. AreSpansOf c.given.items c.spans.items };
}

impl Closures {
    /// No closures, which takes no memory.
    pub fn new(alloc: Global) -> Self
        ensures { result ≡ [] }
    {
        Closures {
            given: Vec::new(alloc),
            spans: Vec::new(alloc),
        }
    }

    /// These closures: sorts them once. Its only error is want of memory.
    pub fn of(alloc: Global, given: Vec<Closure>) -> Result<Self, AllocError>
        ensures { IfOk result (λ c. c ≡ given.items) }
    {
        let spans = spans_of(alloc, given.as_slice())?;
        Ok(Closures { given, spans })
    }

    /// The closures as they were given.
    pub fn as_slice(&self) -> &[Closure]
        ensures { result.now ≡ self.now }
    {
        self.given.as_slice()
    }

    /// Whether a node is closed in a slot: a binary search.
    pub fn is_closed(&self, node: u32, slot: u32) -> bool
        ensures { result ≡ is_closed_by self.now node slot }
    {
        self.is_closed_within(node, slot, 1)
    }

    /// Whether a node is closed in one of so many slots from `from` on: a binary search.
    pub fn is_closed_within(&self, node: u32, from: u32, count: u32) -> bool
        ensures { result ≡ list_any (is_closed_by self.now node) (range_with_len from count) }
    {
        let spans = self.spans.as_slice();
        let place = first_reaching(spans, node, from);
        place < spans.len() && meets(&spans[place], node, from, count)
    }

    /// Puts the slots from `now` on in which the node closes or opens last in a list, each `base`
    /// higher. They ascend, and the node is closed in a slot where an odd number of them are not
    /// past it. Linear in its spans after a binary search.
    pub fn push_turns(
        &self,
        node: u32,
        now: u32,
        base: u32,
        turns: &mut Vec<u32>,
    ) -> Result<(), AllocError>
        requires few { base < 2 ^ 31 }
        requires early { now < 2 ^ 31 }
        requires within { All (λ c. c.to < 2 ^ 31) self.now }
        ensures { OnOk result ((ts : List ℕ) × (turns.new.items ≡ turns.old.items ++ ts)
            × AreTurns self.now node now base ts) }
    {
        let spans = self.spans.as_slice();
        let place = first_reaching(spans, node, now);
        push_ends(&spans[place..], node, now, base, turns)?;
        Ok(())
    }
}
