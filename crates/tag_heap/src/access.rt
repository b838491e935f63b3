//! The calls of an open heap with blocks that look an object up by its handle: its address, its
//! length, how many words its block has, reads and writes of its bytes, and why a resize is
//! refused; and `peek`, which reads any word of the region.
ghost use Rattle.std.specs.Prelude.{◌≡◌, ℕ, length, option_map, slice_get};
ghost use Rattle.std.specs.FinMap as map;
ghost use Rattle.step_ledger.specs.Counting.{RoseBy};
ghost use Rattle.cf_model.specs.Answers.{place_of};
ghost use Rattle.cf_model.specs.Costs.{length_steps, peek_steps};
ghost use Rattle.cf_model.specs.Room.{length_of};
ghost use Rattle.cf_model.specs.Rules.{KeepsRules};
ghost use Rattle.cf_model.specs.Steps.{IsReadAnswer, IsResizeFault, IsWriteStep, slot_in};
ghost use Rattle.tag_heap.specs.Access.{IsTagFound};
ghost use Rattle.tag_heap.specs.Costs.{block_words_steps, found_steps, tag_access_steps};
ghost use Rattle.tag_heap.specs.Heap.{tag_state_of};

use crate::fit_policy::FitPolicy;
use crate::open_heap::OpenHeap;
use cf_base::{AccessFault, Handle, ResizeFault};
use region::Header;
use step_ledger::Steps;

impl<B: FitPolicy> OpenHeap<B> {
    /// Returns the address of an object of a heap with blocks, the index of the first word of its block; none if the
    /// handle isn't live. Costs one step.
    pub(crate) fn place(&self, h: Handle, steps: &mut Steps) -> Option<u32>
        ensures value { result ≡ place_of (tag_state_of B.kind self.now) h.0 }
        ensures steps { RoseBy steps.old steps.new 1 }
    {
        self.proxies.lookup(h, steps)
    }

    /// Returns the word of the region at the index `word`, in a heap with blocks, for one step; none past the region's
    /// end, for no step.
    pub(crate) fn peek(&self, word: u32, steps: &mut Steps) -> Option<u64>
        ensures value { result ≡ slice_get (tag_state_of B.kind self.now).words word }
        ensures rules { KeepsRules (tag_state_of B.kind self.now) }
        ensures steps { RoseBy steps.old steps.new (peek_steps B.kind result) }
    {
        if word < self.settings.pages * self.settings.page_words {
            Some(self.blocks.peek(word, steps))
        } else {
            None
        }
    }

    /// Fills `out` with the bytes of an object of a heap with blocks, from byte `at` on. Fails with `Unknown` if the
    /// handle isn't live, else with `Range` if `at` plus their number exceeds the object's length; `out` is unchanged
    /// then. Costs at most two steps and one for each word that holds one of the bytes.
    pub(crate) fn read(
        &self,
        h: Handle,
        at: u32,
        out: &mut [u8],
        steps: &mut Steps,
    ) -> Result<(), AccessFault>
        ensures answer { IsReadAnswer (tag_state_of B.kind self.now) (record { number = h.0; from = at }) out.old result out.new }
        ensures rules { KeepsRules (tag_state_of B.kind self.now) }
        ensures steps { RoseBy steps.old steps.new (tag_access_steps at (length out.old) result) }
    {
        let blocks = &self.blocks;
        let len = out.len();
        let place = self.find(h, at, len, steps)?;
        // A read of no bytes touches no word after the tag.
        if len == 0 {
            return Ok(());
        }
        blocks.read_bytes(place, at as usize, out, steps);
        Ok(())
    }

    /// Writes bytes into an object of a heap with blocks, from byte `at` on. Fails as `read` does, and then changes
    /// nothing. Costs at most two steps and one for each word that holds one of the bytes.
    pub(crate) fn write(
        &mut self,
        h: Handle,
        at: u32,
        bytes: &[u8],
        steps: &mut Steps,
    ) -> Result<(), AccessFault>
        ensures step { IsWriteStep (tag_state_of B.kind self.old) (record { number = h.0; from = at }) bytes.now result (tag_state_of B.kind self.new) }
        ensures rules { KeepsRules (tag_state_of B.kind self.new) }
        ensures steps { RoseBy steps.old steps.new (tag_access_steps at (length bytes.now) result) }
    {
        let len = bytes.len();
        let place = self.find(h, at, len, steps)?;
        if len == 0 {
            return Ok(());
        }
        self.blocks.write_bytes(place, at as usize, bytes, steps);
        Ok(())
    }

    /// Returns the address of an object of a heap with blocks, if the object has `count` bytes from byte `at` on. Fails
    /// with `Unknown` if the handle isn't live, else with `Range` if `at` plus their number exceeds the object's
    /// length. Costs two steps, or one if the handle isn't live.
    fn find(&self, h: Handle, at: u32, count: usize, steps: &mut Steps) -> Result<u32, AccessFault>
        ensures found { IsTagFound B.kind self.now (record { number = h.0; from = at }) count result }
        ensures steps { RoseBy steps.old steps.new (found_steps result) }
    {
        let Some(place) = self.proxies.lookup(h, steps) else {
            return Err(AccessFault::Unknown);
        };
        let length = Header::unpack(self.blocks.tag_of(place, steps)).length as usize;
        if length < count || length - count < at as usize {
            return Err(AccessFault::Range);
        }
        Ok(place)
    }

    /// Returns the number of bytes of an object of a heap with blocks; none if the handle isn't live. Costs two steps,
    /// or one if the handle isn't live.
    pub(crate) fn length(&self, h: Handle, steps: &mut Steps) -> Option<u32>
        ensures value { result ≡ length_of (tag_state_of B.kind self.now) h.0 }
        ensures steps { RoseBy steps.old steps.new (length_steps B.kind result) }
    {
        match self.proxies.lookup(h, steps) {
            Some(place) => Some(Header::unpack(self.blocks.tag_of(place, steps)).length),
            None => None,
        }
    }

    /// Returns how many words the block of an object has, in a heap with blocks; none if the handle isn't live. Costs
    /// two steps, or one if the handle isn't live.
    pub(crate) fn block_words(&self, h: Handle, steps: &mut Steps) -> Option<u32>
        ensures value { result ≡ option_map (slot_in B.kind (tag_state_of B.kind self.now)) (map.get (tag_state_of B.kind self.now).held h.0) }
        ensures steps { RoseBy steps.old steps.new (block_words_steps result) }
    {
        match self.proxies.lookup(h, steps) {
            Some(place) => Some(self.blocks.size_of(place, steps)),
            None => None,
        }
    }

    /// Returns why a heap with blocks refuses a resize of the object to any length: `Unknown` if the handle isn't live,
    /// else `Kind`, since heaps with blocks have no resize. Costs one step.
    pub(crate) fn resize_fault(&self, h: Handle, steps: &mut Steps) -> ResizeFault
        ensures step { (bytes : ℕ) → IsResizeFault (tag_state_of B.kind self.now) (record { number = h.0; length = bytes }) result }
        ensures rules { KeepsRules (tag_state_of B.kind self.now) }
        ensures steps { RoseBy steps.old steps.new 1 }
    {
        match self.proxies.lookup(h, steps) {
            Some(_) => ResizeFault::Kind,
            None => ResizeFault::Unknown,
        }
    }
}
