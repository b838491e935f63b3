//! `malloc` of an open heap with blocks, and the search for the block that it takes.
ghost use Rattle.std.specs.Prelude.{◌≡◌, ◌+◌, ◌^◌, ◌≤◌};
ghost use Rattle.step_ledger.specs.Counting.{RoseAtMost, RoseBy};
ghost use Rattle.cf_model.specs.ExactCosts.{block_malloc_cost};
ghost use Rattle.cf_model.specs.Ordered.{IsOrderedMalloc};
ghost use Rattle.cf_model.specs.Room.{IsHasRoomAnswer};
ghost use Rattle.cf_model.specs.Rules.{KeepsRules};
ghost use Rattle.cf_model.specs.Steps.{IsMallocStep};
ghost use Rattle.tag_heap.specs.Choices.{TagMallocChooses};
ghost use Rattle.tag_heap.specs.Costs.{room_steps, search_steps, tag_malloc_steps};
ghost use Rattle.tag_heap.specs.Heap.{tag_state_of};
ghost use Rattle.tag_heap.specs.Room.{IsBlockFor, done_by};

use crate::fit_policy::FitPolicy;
use crate::open_heap::OpenHeap;
use cf_base::{Handle, Refusal, need_of};
use region::Header;
use step_ledger::Steps;

impl<B: FitPolicy> OpenHeap<B> {
    /// Adds an object of `bytes` bytes, all zero, to a heap with blocks. The object gets the number (of a proxy) and
    /// the block that the heap's order lists next. Refused, in this order: `Size` if the object with its header needs
    /// more than a page, `Proxy` if no number is free, `Space` if no free list that is searched has a block; then only
    /// `cost` changes. The count of the ledger must be at most 2^63. Sets `cost` to the steps of this call, at most 25.
    pub(crate) fn malloc(&mut self, bytes: u32, steps: &mut Steps) -> Result<Handle, Refusal>
        requires { steps.old ≤ 2 ^ 63 }
        ensures step { IsMallocStep (tag_state_of B.kind self.old) bytes result (tag_state_of B.kind self.new) }
        ensures rules { KeepsRules (tag_state_of B.kind self.new) }
        ensures ordered { IsOrderedMalloc (tag_state_of B.kind self.old) bytes result (tag_state_of B.kind self.new) }
        ensures bound { RoseAtMost steps.old steps.new (tag_malloc_steps result) }
        ensures cost { steps.new ≡ steps.old + self.new.cost }
    {
        let before = steps.count();
        let result = self.malloc_inner(bytes, steps);
        self.cost = steps.count() - before;
        result
    }

    /// Adds an object in a block as `malloc` does, or refuses it for the same causes. Leaves `cost`
    /// unchanged. The object gets its number before the block is carved, since the block's tag
    /// holds the number.
    fn malloc_inner(&mut self, bytes: u32, steps: &mut Steps) -> Result<Handle, Refusal>
        ensures step { IsMallocStep (tag_state_of B.kind self.old) bytes result (tag_state_of B.kind self.new) }
        ensures rules { KeepsRules (tag_state_of B.kind self.new) }
        ensures choice { TagMallocChooses B.kind self.old bytes result self.new }
        ensures steps { RoseBy steps.old steps.new (block_malloc_cost (tag_state_of B.kind self.old) bytes result (tag_state_of B.kind self.new)) }
        ensures bound { RoseAtMost steps.old steps.new (tag_malloc_steps result) }
    {
        let place = self.room(bytes, steps)?;
        let Some(handle) = self.proxies.bind(place, steps) else {
            unreachable!();
        };
        let tag = Header {
            handle,
            length: bytes,
        };
        let words = need_of(bytes) + 1;
        self.used_words += self.blocks.carve_at(place, words, tag.pack(), steps);
        self.asked += u64::from(bytes);
        Ok(handle)
    }

    /// Returns the address of the free block that a malloc of `bytes` bytes would take now in a heap with blocks, or
    /// fails with the refusal that the malloc would return. Changes nothing. Costs at most four steps.
    pub(crate) fn room(&self, bytes: u32, steps: &mut Steps) -> Result<u32, Refusal>
        ensures room { IsBlockFor B.rule B.kind self.now bytes result }
        ensures answer { IsHasRoomAnswer (tag_state_of B.kind self.now) bytes (done_by result) }
        ensures rules { KeepsRules (tag_state_of B.kind self.now) }
        ensures steps { RoseBy steps.old steps.new (search_steps (tag_state_of B.kind self.now) bytes result) }
        ensures bound { RoseAtMost steps.old steps.new (room_steps (done_by result)) }
    {
        let need = need_of(bytes);
        if self.settings.page_words < need {
            return Err(Refusal::Size);
        }
        if self.proxies.live() == self.settings.proxies {
            return Err(Refusal::Proxy);
        }
        match self.blocks.find(need + 1, steps) {
            Some(place) => Ok(place),
            None => Err(Refusal::Space),
        }
    }
}
