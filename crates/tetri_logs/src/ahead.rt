// Lines of a log that are read ahead of their turn.
ghost use Rattle.std.specs.Prelude.{◌≡◌, ◌++◌, ◌∷◌, [], ℕ, IfSome, List, OnOk, slice_get};
ghost use Rattle.tetri_logs.specs.Ahead.{AreAhead, AreAllAhead, IsLineOf, IsTextOf};
ghost use Rattle.tetri_logs.specs.Entry.{line_entries};
ghost use Rattle.tetri_logs.specs.declared.entry.Entry.TheVariants.{Job};
ghost use Rattle.tetri_logs.specs.declared.entry.LoggedJob.{LoggedJob};

use crate::entry::LoggedJob;
use crate::layout::{Layout, is_same_layout};
use std::alloc::{AllocError, Global};

/// Of jobs that were read ahead of their turn the line of each, in one layout.
#[derive(Drop)]
pub struct Ahead<'a> {
    layout: Layout,
    // No text where the line says more than its job, or is in another layout, or where nodes differ.
    texts: Vec<&'a [u8]>,
}

impl<'a> Ahead<'a> {
    /// No job was read ahead.
    pub fn none(alloc: Global) -> Ahead<'a>
        ensures { (jobs : List LoggedJob) → AreAhead result jobs }
    {
        Ahead::new(alloc, Layout::Words)
    }

    /// No job was read ahead yet.
    pub(crate) fn new(alloc: Global, layout: Layout) -> Ahead<'a>
        ensures { result.texts.items ≡ [] }
    {
        Ahead {
            layout,
            texts: Vec::new(alloc),
        }
    }

    /// How the lines are laid out.
    pub(crate) fn layout(&self) -> Layout
        ensures { result ≡ self.now.layout }
    {
        self.layout
    }

    /// The text of a line in a layout, if it may be kept; else no text.
    pub(crate) fn kept<'b>(&self, mixed: bool, layout: &Layout, line: &'b [u8]) -> &'b [u8]
        ensures { (number : ℕ) → (job : LoggedJob) → line_entries mixed layout.now number line.now ≡ Job job ∷ [] → IsTextOf self.now.layout result.now job }
    {
        if mixed || !is_same_layout(&self.layout, layout) {
            return b"";
        }
        line
    }

    /// Adds the text of one job more.
    pub(crate) fn push(&mut self, text: &'a [u8]) -> Result<(), AllocError>
        ensures ahead { OnOk result ((jobs : List LoggedJob) → (job : LoggedJob) → AreAllAhead self.old jobs → IsTextOf self.old.layout text.now job → AreAllAhead self.new (jobs ++ job ∷ [])) }
        ensures layout { self.new.layout ≡ self.old.layout }
    {
        self.texts.push(text)?;
        Ok(())
    }

    /// The line of the job at a place, where it was kept and is laid out so.
    #[inline(always)]
    pub(crate) fn line_at(
        &self,
        jobs: &[LoggedJob<'_>],
        place: usize,
        layout: &Layout,
    ) -> Option<&[u8]>
        requires { AreAhead self.now jobs.now }
        ensures { IfSome result (λ line. IfSome (slice_get jobs.now place) (IsLineOf layout.now line.now)) }
    {
        let text = *self.texts.get(place)?;
        if text.is_empty() || !is_same_layout(&self.layout, layout) {
            return None;
        }
        Some(text)
    }
}
