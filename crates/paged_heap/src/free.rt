//! `free` of an open heap with pages: it clears the freed object's slot, or moves another object into that slot.
ghost use Rattle.std.specs.Prelude.{◌≡◌, ◌+◌, ◌-◌, ◌*◌, ◌^◌, ◌<◌, ◌≤◌, ◌↔◌, IfOk, IsTrue, length, slice_index, slice_set};
ghost use Rattle.step_ledger.specs.Counting.{RoseAtMost, RoseBy};
ghost use Rattle.page_model.specs.Order.{word_steps};
ghost use Rattle.cf_model.specs.Costs.{free_bound};
ghost use Rattle.cf_model.specs.Steps.{FreesObject, IsFreeStep};
ghost use Rattle.virtual_words.specs.Words.{slot_steps};
ghost use Rattle.page_slots.specs.Owner.{IsObjectAt, MustMoveInto, placed_at};
ghost use Rattle.paged_heap.specs.Costs.{free_steps};
ghost use Rattle.cf_model.specs.ExactCosts.{free_cost, leaving_cost};
ghost use Rattle.cf_model.specs.Ordered.{IsOrderedFree};
ghost use Rattle.paged_heap.specs.Choices.{FreeChooses};
ghost use Rattle.paged_heap.specs.Heap.{seen};
ghost use Rattle.paged_heap.specs.Layout.{Holds, order_in, owner_in, state_at};

use crate::open_heap::OpenHeap;
use cf_base::{Freed, Handle, NotLive};
use page_slots::LeftSlot;
use step_ledger::Steps;
use virtual_words::Mapping;

impl OpenHeap {
    /// Frees an object of an open heap with pages; fails if the handle is not live, and then changes only `cost`. If
    /// the object's page was full, has several slots, and the class has as many partly full pages as its bound, another
    /// object moves to the freed slot: the one at the lowest used slot of the class's first partly full page. Else the
    /// slot is cleared. The freed number becomes the next that a malloc uses. Sets `cost` to the steps of this call (at
    /// most `free_steps`).
    pub fn free<A: Mapping>(&mut self, h: Handle, steps: &mut Steps) -> Result<Freed, NotLive>
        requires kept { Holds A.kind self.old }
        requires room { steps.old ≤ 2 ^ 63 }
        ensures step { IsFreeStep (state_at A.kind self.old) h.0 result (state_at A.kind self.new) }
        ensures kept { Holds A.kind self.new }
        ensures bound { RoseAtMost steps.old steps.new (free_bound result) }
        ensures steps { RoseAtMost steps.old steps.new (free_steps A.kind result) }
        ensures ordered { IsOrderedFree (state_at A.kind self.old) h.0 result (state_at A.kind self.new) }
        ensures cost { steps.new ≡ steps.old + self.new.cost }
    {
        let before = steps.count();
        let result = self.free_inner::<A>(h, steps);
        self.cost = steps.count() - before;
        result
    }

    /// Frees an object of an open heap as `free` does, but leaves `cost` unchanged. Fails if the handle is not live.
    fn free_inner<A: Mapping>(&mut self, h: Handle, steps: &mut Steps) -> Result<Freed, NotLive>
        requires { Holds A.kind self.old }
        ensures step { IsFreeStep (state_at A.kind self.old) h.0 result (state_at A.kind self.new) }
        ensures kept { Holds A.kind self.new }
        ensures steps { RoseAtMost steps.old steps.new (free_steps A.kind result) }
        ensures choice { IfOk result (λ freed. FreeChooses (seen A.kind self.old) h.0 freed (seen A.kind self.new)) }
        ensures cost { RoseBy steps.old steps.new (free_cost (state_at A.kind self.old) (order_in (seen A.kind self.old)) h.0 result) }
    {
        let Some(place) = self.proxies.lookup(h, steps) else {
            return Err(NotLive);
        };
        let length = self.length_at::<A>(place, steps);
        let Some(c) = self.tables.classes.class_of(length, steps) else {
            unreachable!();
        };
        let bound = self.bounds[c as usize];
        let moves = self.tables.must_move(&self.lists, c, place, bound, steps);
        Ok(self.free_object::<A>(h, place, length, c, moves, steps))
    }

    /// Frees the object h of class c of an open heap, which has `length` bytes and the address `place`. `moves` is
    /// whether another object of the class must move to the freed slot. Costs at most 16 steps and one for each word of
    /// the slot; non-moving 17 and 3/2 for each word.
    fn free_object<A: Mapping>(
        &mut self,
        h: Handle,
        place: u32,
        length: u32,
        c: u32,
        moves: bool,
        steps: &mut Steps,
    ) -> Freed
        requires kept { Holds A.kind self.old }
        requires object { IsObjectAt (owner_in (seen A.kind self.old)) h.0 place length c }
        requires due { IsTrue moves ↔ MustMoveInto (owner_in (seen A.kind self.old)) place c }
        ensures step { FreesObject (state_at A.kind self.old) h.0 result (state_at A.kind self.new) }
        ensures kept { Holds A.kind self.new }
        ensures choice { FreeChooses (seen A.kind self.old) h.0 result (seen A.kind self.new) }
        ensures steps { RoseAtMost steps.old steps.new (15 + word_steps A.kind + slot_steps A.kind result.slot_words) }
        ensures cost { RoseBy steps.old steps.new
            (2 + leaving_cost (state_at A.kind self.old) (order_in (seen A.kind self.old)) (placed_at (owner_in (seen A.kind self.old)) place) result.moved) }
    {
        let slot_words = self.tables.classes.slot_words(c);
        self.proxies.release(h, steps);
        self.count_out(c, slot_words, length);
        let slot = LeftSlot {
            class: c,
            place,
            words: slot_words,
            first: 0,
        };
        let moved = self.tables.leave_slot::<A>(
            &mut self.lists,
            &mut self.proxies,
            &mut self.region,
            &mut self.blocks,
            slot,
            moves,
            steps,
        );
        Freed { slot_words, moved }
    }

    /// Takes an object of `bytes` bytes out of an open heap's counts: the live objects of class c, the bytes asked, and
    /// the bytes taken, which are those of its slot of `slot_words` words. The counts must include the object. Costs no
    /// step.
    pub(crate) fn count_out(&mut self, c: u32, slot_words: u32, bytes: u32)
        requires words { slot_words ≡ slice_index self.old.tables.classes.sizes c }
        requires class { c < length self.old.tables.classes.sizes }
        requires listed { c < length self.old.live }
        requires live { 1 ≤ slice_index self.old.live c }
        requires asked { bytes ≤ self.old.asked }
        requires taken { 8 * slice_index self.old.tables.classes.sizes c ≤ self.old.taken }
        ensures { self.new ≡ record self.old {
          live = slice_set self.old.live c (slice_index self.old.live c - 1);
          asked = self.old.asked - bytes;
          taken = self.old.taken - 8 * slice_index self.old.tables.classes.sizes c;
        } }
    {
        self.live[c as usize] -= 1;
        self.asked -= u64::from(bytes);
        self.taken -= 8 * u64::from(slot_words);
    }
}
