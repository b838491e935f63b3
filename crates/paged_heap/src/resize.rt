//! `resize` of an open heap with pages, and the resize of an object that stays in its slot.
ghost use Rattle.std.specs.Prelude.{◌≡◌, ◌+◌, ◌-◌, ◌/◌, ◌^◌, ◌<◌, ◌≤◌, IfOk, length, slice_index};
ghost use Rattle.step_ledger.specs.Counting.{RoseAtMost, RoseBy};
ghost use Rattle.page_model.specs.Order.{word_steps};
ghost use Rattle.page_model.specs.Paging.{class_for};
ghost use Rattle.cf_base.specs.Classes.{need};
ghost use Rattle.cf_model.specs.Costs.{resize_bound};
ghost use Rattle.cf_model.specs.Steps.{IsResizeStep, ResizesObject};
ghost use Rattle.virtual_words.specs.Words.{FitTable};
ghost use Rattle.page_slots.specs.Owner.{IsObjectAt};
ghost use Rattle.paged_heap.specs.Costs.{resize_steps};
ghost use Rattle.paged_heap.specs.ZeroTail.{Cuts};
ghost use Rattle.cf_model.specs.ExactCosts.{resize_cost, tail_steps};
ghost use Rattle.cf_model.specs.Ordered.{IsOrderedResize};
ghost use Rattle.paged_heap.specs.Choices.{ResizeChooses};
ghost use Rattle.paged_heap.specs.Heap.{seen};
ghost use Rattle.paged_heap.specs.Layout.{Holds, order_in, owner_in, paging_at, state_at};

use crate::open_heap::OpenHeap;
use crate::resize_class::Change;
use cf_base::{Handle, ResizeFault, Resized};
use region::Header;
use step_ledger::Steps;
use virtual_words::Mapping;

impl OpenHeap {
    /// Changes the length of an object of an open heap with pages to `bytes` bytes; added bytes are zeros. If its class
    /// changes, the object moves to a slot of the new class, which the heap's order determines. Its old slot is then
    /// freed as by `free`. Fails, in this order, if the handle is not live (`Unknown`), the length needs more than a
    /// page (`Size`), or the class changes, the new one has no partly full page and no page is free (`Space`); then
    /// only `cost` changes. Sets `cost` to the steps of this call (at most `resize_steps`).
    pub fn resize<A: Mapping>(
        &mut self,
        h: Handle,
        bytes: u32,
        steps: &mut Steps,
    ) -> Result<Resized, ResizeFault>
        requires kept { Holds A.kind self.old }
        requires room { steps.old ≤ 2 ^ 63 }
        ensures step { IsResizeStep (state_at A.kind self.old) (record { number = h.0; length = bytes }) result (state_at A.kind self.new) }
        ensures kept { Holds A.kind self.new }
        ensures bound { RoseAtMost steps.old steps.new (resize_bound result) }
        ensures steps { RoseAtMost steps.old steps.new (resize_steps A.kind bytes result) }
        ensures ordered { IsOrderedResize (state_at A.kind self.old) (record { number = h.0; length = bytes }) result (state_at A.kind self.new) }
        ensures cost { steps.new ≡ steps.old + self.new.cost }
    {
        let before = steps.count();
        let result = self.resize_inner::<A>(h, bytes, steps);
        self.cost = steps.count() - before;
        result
    }

    /// Changes the length of an object of an open heap as `resize` does, or fails for the same causes, but leaves
    /// `cost` unchanged.
    fn resize_inner<A: Mapping>(
        &mut self,
        h: Handle,
        bytes: u32,
        steps: &mut Steps,
    ) -> Result<Resized, ResizeFault>
        requires { Holds A.kind self.old }
        ensures step { IsResizeStep (state_at A.kind self.old) (record { number = h.0; length = bytes }) result (state_at A.kind self.new) }
        ensures kept { Holds A.kind self.new }
        ensures steps { RoseAtMost steps.old steps.new (resize_steps A.kind bytes result) }
        ensures choice { IfOk result (λ done. ResizeChooses (seen A.kind self.old) (record { number = h.0; length = bytes }) done (seen A.kind self.new)) }
        ensures cost { RoseBy steps.old steps.new
            (resize_cost (state_at A.kind self.old) (order_in (seen A.kind self.old)) (record { number = h.0; length = bytes }) result) }
    {
        let Some(place) = self.proxies.lookup(h, steps) else {
            return Err(ResizeFault::Unknown);
        };
        let Some(to) = self.tables.classes.class_of(bytes, steps) else {
            return Err(ResizeFault::Size);
        };
        let length = self.length_at::<A>(place, steps);
        let Some(class) = self.tables.classes.class_of(length, steps) else {
            unreachable!();
        };
        if to == class {
            return Ok(self.resize_in_place::<A>(h, place, length, bytes, class, steps));
        }
        let change = Change {
            handle: h,
            place,
            length,
            class,
            bytes,
            to,
        };
        self.resize_to_class::<A>(change, steps)
    }

    /// Resizes the object h of class c at the address `place` from `length` to `bytes` bytes, also
    /// a length of class c. The object stays in its slot. Costs as much as `zero_tail`, and one step
    /// moving, two non-moving, for the header.
    pub(crate) fn resize_in_place<A: Mapping>(
        &mut self,
        h: Handle,
        place: u32,
        length: u32,
        bytes: u32,
        c: u32,
        steps: &mut Steps,
    ) -> Resized
        requires kept { Holds A.kind self.old }
        requires object { IsObjectAt (owner_in (seen A.kind self.old)) h.0 place length c }
        requires same { class_for (paging_at (seen A.kind self.old)) bytes ≡ c }
        requires fits { need bytes ≤ self.old.settings.page_words }
        ensures step { ResizesObject (state_at A.kind self.old) (record { number = h.0; length = bytes }) result (state_at A.kind self.new) }
        ensures kept { Holds A.kind self.new }
        ensures choice { ResizeChooses (seen A.kind self.old) (record { number = h.0; length = bytes }) result (seen A.kind self.new) }
        ensures slot { result.slot_words ≡ slice_index self.old.tables.classes.sizes c }
        ensures old_slot { result.old_slot_words ≡ result.slot_words }
        ensures steps { RoseBy steps.old steps.new (tail_steps A.kind place bytes length + word_steps A.kind) }
    {
        let slot_words = self.tables.classes.slot_words(c);
        self.zero_tail::<A>(place, bytes, length, steps);
        let header = Header {
            handle: h,
            length: bytes,
        };
        A::write(&mut self.region, &self.blocks, place, header.pack(), steps);
        self.asked = self.asked - u64::from(length) + u64::from(bytes);
        Resized {
            old_slot_words: slot_words,
            slot_words,
            moved: None,
        }
    }

    /// In a resize, clears the bytes of an object from byte `keep` on, up to the end of the word of its byte
    /// `bytes - 1`, which must be in the region. The object's header is the word `place`. Does nothing if `keep` is
    /// `bytes` or more. Costs a step for each word that holds such a byte; non-moving one more for the first of these
    /// words, and one for each block that the others are in (`tail_steps`).
    pub(crate) fn zero_tail<A: Mapping>(
        &mut self,
        place: u32,
        keep: u32,
        bytes: u32,
        steps: &mut Steps,
    )
        requires laid { FitTable A.kind self.old.blocks self.old.region }
        requires within { place + 1 + (bytes + 7) / 8 ≤ length self.old.region }
        requires small { place + 1 + (bytes + 7) / 8 < 4294967296 }
        ensures rest { seen A.kind self.new ≡ record (seen A.kind self.old) { words = (seen A.kind self.new).words } }
        ensures len { length self.new.region ≡ length self.old.region }
        ensures laid { FitTable A.kind self.new.blocks self.new.region }
        ensures cut { keep < bytes → Cuts (seen A.kind self.old).words (seen A.kind self.new).words place keep bytes }
        ensures kept { bytes ≤ keep → self.new ≡ self.old }
        ensures steps { RoseBy steps.old steps.new (tail_steps A.kind place keep bytes) }
    {
        if keep < bytes {
            let first = place + 1 + keep / 8;
            let whole = (keep % 8) as usize;
            A::write_bytes(
                &mut self.region,
                &self.blocks,
                first,
                whole,
                &[0; 8][whole..],
                steps,
            );
            let rest = bytes.div_ceil(8) - keep / 8 - 1;
            A::clear(&mut self.region, &self.blocks, first + 1, rest, steps);
        }
    }
}
