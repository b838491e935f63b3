//! `malloc` of an open heap with pages, and `has_room`, which returns whether a malloc would be
//! refused.
ghost use Rattle.std.specs.Prelude.{◌≡◌, ◌≢◌, ◌+◌, ◌*◌, ◌^◌, ◌<◌, ◌≤◌, ◌∷◌, IfErr, IfOk, IsFalse, IsTrue, None, Some, length, slice_index, slice_set};
ghost use Rattle.std.specs.FinMap as map;
ghost use Rattle.step_ledger.specs.Counting.{RoseAtMost, RoseBy};
ghost use Rattle.class_lists.specs.PageLists.{pages_in};
ghost use Rattle.cf_base.specs.Classes.{class_of};
ghost use Rattle.cf_base.specs.declared.results.Refusal.{Refusal};
ghost use Rattle.page_model.specs.Image.{header_word};
ghost use Rattle.page_model.specs.Order.{word_steps};
ghost use Rattle.cf_model.specs.Steps.{IsMallocStep, IsRefusedBy};
ghost use Rattle.proxy_table.specs.Proxies.{AreBelowLimit, with_place};
ghost use Rattle.virtual_words.specs.Words.{FitTable};
ghost use Rattle.paged_heap.specs.Costs.{malloc_steps};
ghost use Rattle.cf_model.specs.ExactCosts.{malloc_cost};
ghost use Rattle.cf_model.specs.Ordered.{IsOrderedMalloc};
ghost use Rattle.paged_heap.specs.Choices.{MallocChooses};
ghost use Rattle.paged_heap.specs.Heap.{seen};
ghost use Rattle.paged_heap.specs.Layout.{Holds, order_in, state_at};
ghost use Rattle.paged_heap.specs.Room.{HasSlot};

use crate::open_heap::OpenHeap;
use cf_base::{Handle, Refusal};
use class_lists::Which;
use region::Header;
use step_ledger::Steps;
use virtual_words::Mapping;

impl OpenHeap {
    /// Makes an object of `bytes` bytes, all zero, in an open heap with pages, and returns its handle. The heap's order
    /// determines the free number and the slot that the object gets. Refused, in this order: `Size` if it needs more
    /// than a page, `Proxy` if no number is free, `Space` if its class has no partly full page and no page is free;
    /// then only `cost` changes. Sets `cost` to the steps of this call, at most 17 moving, 18 non-moving.
    pub fn malloc<A: Mapping>(&mut self, bytes: u32, steps: &mut Steps) -> Result<Handle, Refusal>
        requires kept { Holds A.kind self.old }
        requires room { steps.old ≤ 2 ^ 63 }
        ensures step { IsMallocStep (state_at A.kind self.old) bytes result (state_at A.kind self.new) }
        ensures kept { Holds A.kind self.new }
        ensures bound { RoseAtMost steps.old steps.new 18 }
        ensures steps { RoseAtMost steps.old steps.new (malloc_steps A.kind) }
        ensures ordered { IsOrderedMalloc (state_at A.kind self.old) bytes result (state_at A.kind self.new) }
        ensures cost { steps.new ≡ steps.old + self.new.cost }
    {
        let before = steps.count();
        let result = self.malloc_inner::<A>(bytes, steps);
        self.cost = steps.count() - before;
        result
    }

    /// Makes an object in an open heap as `malloc` does, or refuses it for the same causes, but leaves `cost`
    /// unchanged.
    fn malloc_inner<A: Mapping>(&mut self, bytes: u32, steps: &mut Steps) -> Result<Handle, Refusal>
        requires { Holds A.kind self.old }
        ensures step { IsMallocStep (state_at A.kind self.old) bytes result (state_at A.kind self.new) }
        ensures kept { Holds A.kind self.new }
        ensures steps { RoseAtMost steps.old steps.new (malloc_steps A.kind) }
        ensures choice { MallocChooses (seen A.kind self.old) bytes result (seen A.kind self.new) }
        ensures cost { RoseBy steps.old steps.new (malloc_cost (state_at A.kind self.old) (order_in (seen A.kind self.old)) bytes result) }
    {
        let c = self.class_with_room::<A>(bytes, steps)?;
        let Some(place) = self.tables.take_slot(&mut self.lists, c, steps) else {
            unreachable!();
        };
        let handle = self.bind::<A>(place, bytes, steps);
        self.count_in(c, bytes);
        Ok(handle)
    }

    /// Returns what a malloc of `bytes` bytes in an open heap with pages would return now, without the handle: `Ok`, or
    /// its refusal. Changes nothing, and costs one step.
    pub fn has_room<A: Mapping>(&self, bytes: u32, steps: &mut Steps) -> Result<(), Refusal>
        requires { Holds A.kind self.now }
        ensures ok { IfOk result (λ u. (e : Refusal) → ¬ IsRefusedBy (state_at A.kind self.now) bytes e) }
        ensures err { IfErr result (λ e. IsRefusedBy (state_at A.kind self.now) bytes e) }
        ensures steps { RoseBy steps.old steps.new 1 }
    {
        match self.class_with_room::<A>(bytes, steps) {
            Ok(_) => Ok(()),
            Err(e) => Err(e),
        }
    }

    /// Returns the class of an object of `bytes` bytes in an open heap, if a number and a slot of this class are free.
    /// Else fails with the refusal that a malloc of `bytes` bytes returns. Costs one step.
    fn class_with_room<A: Mapping>(&self, bytes: u32, steps: &mut Steps) -> Result<u32, Refusal>
        requires { Holds A.kind self.now }
        ensures class { IfOk result (λ c. Some c ≡ class_of self.now.tables.classes.sizes bytes) }
        ensures few { IfOk result (λ c. map.len self.now.proxies.places ≢ self.now.settings.proxies) }
        ensures slot { IfOk result (λ c. HasSlot self.now.lists self.now.tables.pool c) }
        ensures cause { IfErr result (λ e. IsRefusedBy (state_at A.kind self.now) bytes e) }
        ensures steps { RoseBy steps.old steps.new 1 }
    {
        let Some(c) = self.tables.classes.class_of(bytes, steps) else {
            return Err(Refusal::Size);
        };
        if self.proxies.is_full() {
            return Err(Refusal::Proxy);
        }
        if self.has_slot(c) {
            Ok(c)
        } else {
            Err(Refusal::Space)
        }
    }

    /// Returns whether class c of an open heap has a free slot: whether it has a partly full page, or a page is free.
    /// Costs no step.
    pub(crate) fn has_slot(&self, c: u32) -> bool
        requires { c < self.now.lists.classes }
        ensures some { IsTrue result → HasSlot self.now.lists self.now.tables.pool c }
        ensures none { IsFalse result → length (pages_in self.now.lists c Which.NotFull) + length self.now.tables.pool.free ≡ 0 }
    {
        self.lists.len(c, Which::NotFull) > 0 || self.tables.pool.left() > 0
    }

    /// Binds the next free number of an open heap to the address `place`, writes the header of an object of `bytes`
    /// bytes there, and returns the number. A number must be free. Costs three steps moving, four non-moving.
    fn bind<A: Mapping>(&mut self, place: u32, bytes: u32, steps: &mut Steps) -> Handle
        requires laid { FitTable A.kind self.old.blocks self.old.region }
        requires some { map.len self.old.proxies.places ≢ self.old.proxies.limit }
        requires within { place < length self.old.region }
        ensures unused { map.get self.old.proxies.places result.0 ≡ None }
        ensures below { result.0 < self.old.proxies.limit }
        ensures first { self.old.proxies.free ≡ result.0 ∷ self.new.proxies.free }
        ensures whole { seen A.kind self.new ≡ record (seen A.kind self.old) {
          proxies = with_place self.old.proxies result.0 place;
          words = slice_set (seen A.kind self.old).words place (header_word result.0 bytes);
        } }
        ensures laid { FitTable A.kind self.new.blocks self.new.region }
        ensures handles { AreBelowLimit self.new.proxies }
        ensures steps { RoseBy steps.old steps.new (2 + word_steps A.kind) }
    {
        let Some(handle) = self.proxies.bind(place, steps) else {
            unreachable!();
        };
        let header = Header {
            handle,
            length: bytes,
        };
        A::write(&mut self.region, &self.blocks, place, header.pack(), steps);
        handle
    }

    /// Adds an object of `bytes` bytes to an open heap's counts: the live objects of class c, the bytes asked, and the
    /// bytes taken, which are those of its slot. The counts must be at most those of 65,536 objects of 131,072 bytes.
    /// Costs no step.
    pub(crate) fn count_in(&mut self, c: u32, bytes: u32)
        requires class { c < length self.old.tables.classes.sizes }
        requires listed { c < length self.old.live }
        requires live { slice_index self.old.live c ≤ 65536 }
        requires asked { self.old.asked ≤ 131072 * 65536 }
        requires taken { self.old.taken ≤ 131072 * 65536 }
        ensures { self.new ≡ record self.old {
          live = slice_set self.old.live c (slice_index self.old.live c + 1);
          asked = self.old.asked + bytes;
          taken = self.old.taken + 8 * slice_index self.old.tables.classes.sizes c;
        } }
    {
        self.live[c as usize] += 1;
        self.asked += u64::from(bytes);
        self.taken += 8 * u64::from(self.tables.classes.slot_words(c));
    }
}
