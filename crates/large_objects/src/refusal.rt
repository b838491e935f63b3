//! Why a heap of long objects refuses a malloc, found before anything changes. `Space` is found
//! by a count of the pages that the old objects and the new one need, with their spines and parts.
//! `part_bytes`, at least 1, is the bytes of the largest object that fits a page.
ghost use Rattle.std.specs.Prelude.{◌≡◌, ◌+◌, ◌<◌, IsTrue};
ghost use Rattle.std.specs.Option.{MatchOption};
ghost use Rattle.page_model.specs.Arrangement.{live, pages_for};
ghost use Rattle.page_model.specs.Held.{objects};
ghost use Rattle.cf_model.specs.State.{paging_in};
ghost use Rattle.large_objects.specs.InnerCalls.{IsReadyInner};
ghost use Rattle.large_objects.specs.LargeCosts.{ByCosts};
ghost use Rattle.large_objects.specs.LargeSteps.{FitsSpine, HasLargeRoom, IsRefusedLarge, StaysKept};
ghost use Rattle.large_objects.specs.InnerObjects.{in_class, inner_lengths};

use crate::cut::{count_inner_objects, count_inner_objects_within, has_spine_that_fits};
use crate::heap::LargeHeap;
use cf_base::Refusal;
use cf_model::Manager;
use step_ledger::Steps;

impl<H: Manager> LargeHeap<H> {
    /// Why the heap of long objects would refuse a malloc of `bytes` bytes; `None` if it would not.
    /// The causes are tested in the order `Size`, `Proxy`, `Space`, and nothing changes. Counts no
    /// step if the inner manager has step bounds of its own.
    pub(crate) fn refusal(&self, bytes: u32, steps: &mut Steps) -> Option<Refusal>
        requires { IsTrue self.now.is_open }
        ensures cause { MatchOption result (HasLargeRoom self.now bytes) (λ e. IsRefusedLarge self.now bytes e) }
        ensures kept { StaysKept self.now self.now }
        ensures steps { ByCosts self.now.inner H.most (λ c. steps.new ≡ steps.old) }
    {
        if !has_spine_that_fits(bytes, self.part_bytes) {
            return Some(Refusal::Size);
        }
        // `lengths` has one entry for each proxy, so its length is the number of proxies.
        let live = self.inner.totals(steps).live as u64;
        if (self.lengths.len() as u64) < live + count_inner_objects(bytes, self.part_bytes) {
            return Some(Refusal::Proxy);
        }
        if (self.pages as u64) < pages_with(&self.inner, bytes, self.part_bytes) {
            return Some(Refusal::Space);
        }
        None
    }
}

/// The number of pages that all inner objects and those of one more object of `bytes` bytes need. A class needs
/// its number of inner objects divided by the slots of a page, rounded up. The manager must be ready
/// (`IsReadyInner`), and the new object or its spine must fit a page.
fn pages_with<H: Manager>(inner: &H, bytes: u32, part_bytes: u32) -> u64
    requires some { 0 < part_bytes }
    requires fits { FitsSpine part_bytes bytes }
    requires ready { IsReadyInner (H.state inner.now) }
    ensures { result ≡ pages_for (paging_in (H.state inner.now)) (λ c. live (paging_in (H.state inner.now)) (objects (H.state inner.now).held) c
        + in_class (paging_in (H.state inner.now)) c (inner_lengths part_bytes bytes)) }
{
    let mut pages = 0;
    // The number of the new object's inner objects in the classes before c.
    let mut before = 0;
    for c in 0..inner.classes() {
        let Some(figures) = inner.figures(c) else {
            unreachable!();
        };
        let within = count_inner_objects_within(bytes, part_bytes, figures.slot_words);
        pages += (figures.live as u64 + (within - before)).div_ceil(figures.slots as u64);
        before = within;
    }
    pages
}
