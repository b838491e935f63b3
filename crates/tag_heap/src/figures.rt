//! The figures of an open heap with blocks: counts of live objects, of bytes and of blocks, and the size of the largest
//! free block.
ghost use Rattle.std.specs.Prelude.{◌≡◌, ◌+◌, ◌*◌};
ghost use Rattle.step_ledger.specs.Counting.{RoseAtMost, RoseBy};
ghost use Rattle.cf_model.specs.Answers.{block_totals, usage_of};
ghost use Rattle.tag_heap.specs.Costs.{totals_steps};
ghost use Rattle.tag_heap.specs.Heap.{tag_state_of};

use crate::fit_policy::FitPolicy;
use crate::open_heap::OpenHeap;
use cf_base::Totals;
use cf_model::Usage;
use step_ledger::Steps;

impl<B: FitPolicy> OpenHeap<B> {
    /// Returns the figures of a whole heap with blocks. Costs at most three steps and two for each free block, since
    /// the call searches the last free list that isn't empty for the largest free block.
    pub(crate) fn totals(&self, steps: &mut Steps) -> Totals
        ensures value { result ≡ block_totals (tag_state_of B.kind self.now) }
        ensures steps { RoseBy steps.old steps.new (totals_steps (tag_state_of B.kind self.now).order) }
        ensures bound { RoseAtMost steps.old steps.new (3 + 2 * result.free) }
    {
        Totals {
            live: self.proxies.live(),
            asked: self.asked,
            taken: 8 * u64::from(self.used_words),
            held: 8 * u64::from(self.settings.pages * self.settings.page_words),
            used: self.blocks.used(),
            free: self.blocks.free(),
            largest: self.blocks.largest(steps),
        }
    }

    /// Returns three numbers of bytes of a heap with blocks: those asked for by live objects, those of used blocks, and
    /// those of the region. Costs no step.
    pub(crate) fn usage(&self) -> Usage
        ensures { result ≡ usage_of (block_totals (tag_state_of B.kind self.now)) }
    {
        Usage {
            asked: self.asked,
            taken: 8 * u64::from(self.used_words),
            held: 8 * u64::from(self.settings.pages * self.settings.page_words),
        }
    }
}
