//! `free` of an open heap with blocks: the object's proxy and its block become free, and the block
//! is coalesced with its free neighbours.
ghost use Rattle.std.specs.Prelude.{◌≡◌, ◌+◌, ◌^◌, ◌≤◌};
ghost use Rattle.step_ledger.specs.Counting.{RoseAtMost, RoseBy};
ghost use Rattle.cf_model.specs.Costs.{block_free_bound};
ghost use Rattle.cf_model.specs.ExactCosts.{block_free_cost};
ghost use Rattle.cf_model.specs.Ordered.{IsOrderedFree};
ghost use Rattle.cf_model.specs.Rules.{KeepsRules};
ghost use Rattle.cf_model.specs.Steps.{IsFreeStep};
ghost use Rattle.tag_heap.specs.Choices.{TagFreeChooses};
ghost use Rattle.tag_heap.specs.Heap.{tag_state_of};

use crate::fit_policy::FitPolicy;
use crate::open_heap::OpenHeap;
use cf_base::{Freed, Handle, NotLive};
use region::Header;
use step_ledger::Steps;

impl<B: FitPolicy> OpenHeap<B> {
    /// Removes an object of a heap with blocks, and makes its block free, coalesced with its free neighbours. The free
    /// block that results becomes the first of its list, and the object's number the next that a malloc uses. Returns
    /// how many words the object's block had (`Freed`). Fails if the handle isn't live, and then changes only `cost`.
    /// The count of the ledger must be at most 2^63. Sets `cost` to the steps of this call: at most 41 and one for each
    /// word of the block, or 1 if the call fails.
    pub(crate) fn free(&mut self, h: Handle, steps: &mut Steps) -> Result<Freed, NotLive>
        requires { steps.old ≤ 2 ^ 63 }
        ensures step { IsFreeStep (tag_state_of B.kind self.old) h.0 result (tag_state_of B.kind self.new) }
        ensures rules { KeepsRules (tag_state_of B.kind self.new) }
        ensures ordered { IsOrderedFree (tag_state_of B.kind self.old) h.0 result (tag_state_of B.kind self.new) }
        ensures bound { RoseAtMost steps.old steps.new (block_free_bound result) }
        ensures cost { steps.new ≡ steps.old + self.new.cost }
    {
        let before = steps.count();
        let result = self.free_inner(h, steps);
        self.cost = steps.count() - before;
        result
    }

    /// Frees an object in a block as `free` does; fails if the handle isn't live. Leaves `cost` unchanged.
    fn free_inner(&mut self, h: Handle, steps: &mut Steps) -> Result<Freed, NotLive>
        ensures step { IsFreeStep (tag_state_of B.kind self.old) h.0 result (tag_state_of B.kind self.new) }
        ensures rules { KeepsRules (tag_state_of B.kind self.new) }
        ensures choice { TagFreeChooses B.kind self.old h.0 result self.new }
        ensures steps { RoseBy steps.old steps.new (block_free_cost (tag_state_of B.kind self.old) h.0 result (tag_state_of B.kind self.new)) }
        ensures bound { RoseAtMost steps.old steps.new (block_free_bound result) }
    {
        let Some(place) = self.proxies.lookup(h, steps) else {
            return Err(NotLive);
        };
        let length = Header::unpack(self.blocks.tag_of(place, steps)).length;
        self.proxies.release(h, steps);
        let slot_words = self.blocks.release(place, steps);
        self.used_words -= slot_words;
        self.asked -= u64::from(length);
        Ok(Freed {
            slot_words,
            moved: None,
        })
    }
}
