//! The call `malloc` of an open sliced heap, and what it counts: the objects of each class, their
//! bytes, and the pages that they need; and `has_room`, which returns beforehand whether a malloc
//! would be refused.
ghost use Rattle.std.specs.Prelude.{◌≡◌, ◌≢◌, ◌+◌, ◌*◌, ◌<◌, ◌≤◌, ◌↔◌, ◌∷◌, IsFalse, IsTrue, None, length, slice_index, slice_set};
ghost use Rattle.std.specs.FinMap as map;
ghost use Rattle.cf_base.specs.Classes.{slots};
ghost use Rattle.step_ledger.specs.Counting.{RoseBy};
ghost use Rattle.class_lists.specs.PageLists.{pages_in};
ghost use Rattle.class_lists.specs.declared.Which.TheVariants.{NotFull};
ghost use Rattle.page_model.specs.Image.{header_word};
ghost use Rattle.proxy_table.specs.Proxies.{AreBelowLimit, with_place};
ghost use Rattle.slice_model.specs.Ordered.{HappensInOrder};
ghost use Rattle.slice_model.specs.Runs.{Happens, Malloc};
ghost use Rattle.sliced_heap.specs.Costs.{sliced_malloc_cost};
ghost use Rattle.sliced_heap.specs.Heap.{sliced_seen};
ghost use Rattle.sliced_heap.specs.Layout.{IsValid, opens, plan_of, sliced_order_in, sliced_state_of, working_of};
ghost use Rattle.sliced_heap.specs.Room.{IsRoomAnswer};

use crate::open_heap::OpenHeap;
use cf_base::Handle;
use class_lists::Which;
use region::Header;
use slice_model::SliceRefusal;
use step_ledger::Steps;

impl OpenHeap {
    /// In a sliced heap, makes an object of `bytes` bytes, all zero, and returns its handle.
    /// Refused, with nothing changed, in this order: `Size` if it needs more than a page, `Proxy`
    /// if all proxies are in use, `Space` if the objects with it need more pages than the heap has,
    /// `Busy` if there is no slot for it while a job is pending. Costs one step if refused, three
    /// at `Busy`; else four and those of taking the slot.
    pub fn malloc(&mut self, bytes: u32, steps: &mut Steps) -> Result<Handle, SliceRefusal>
        requires { IsValid (sliced_seen self.old) }
        ensures step { Happens (plan_of (sliced_seen self.old)) (working_of (sliced_seen self.old)) (Malloc bytes result) (working_of (sliced_seen self.new)) }
        ensures ordered { HappensInOrder (plan_of (sliced_seen self.old)) (working_of (sliced_seen self.old)) (Malloc bytes result) (working_of (sliced_seen self.new))
            (sliced_order_in (sliced_seen self.old)) (sliced_order_in (sliced_seen self.new)) }
        ensures kept { IsValid (sliced_seen self.new) }
        ensures plan { plan_of (sliced_seen self.new) ≡ plan_of (sliced_seen self.old) }
        ensures steps { RoseBy steps.old steps.new (sliced_malloc_cost (plan_of (sliced_seen self.old)) (sliced_state_of (sliced_seen self.old)) (sliced_order_in (sliced_seen self.old)) bytes result) }
    {
        let Some(c) = self.tables.classes.class_of(bytes, steps) else {
            return Err(SliceRefusal::Size);
        };
        if self.proxies.live() == self.settings.proxies {
            return Err(SliceRefusal::Proxy);
        }
        if self.is_over(c) {
            return Err(SliceRefusal::Space);
        }
        let Some(place) = self.tables.take_slot(&mut self.lists, c, steps) else {
            return Err(SliceRefusal::Busy);
        };
        let handle = self.bind(place, bytes, steps);
        self.count_in(c, bytes);
        Ok(handle)
    }

    /// In a sliced heap, returns what a malloc of `bytes` bytes would return now, without the
    /// handle: `Ok`, or its refusal. Changes nothing, and costs one step.
    pub fn has_room(&self, bytes: u32, steps: &mut Steps) -> Result<(), SliceRefusal>
        requires { IsValid (sliced_seen self.now) }
        ensures value { IsRoomAnswer (plan_of (sliced_seen self.now)) (sliced_state_of (sliced_seen self.now)) bytes result }
        ensures steps { RoseBy steps.old steps.new 1 }
    {
        let Some(c) = self.tables.classes.class_of(bytes, steps) else {
            return Err(SliceRefusal::Size);
        };
        if self.proxies.live() == self.settings.proxies {
            return Err(SliceRefusal::Proxy);
        }
        if self.is_over(c) {
            return Err(SliceRefusal::Space);
        }
        if self.has_slot(c) {
            Ok(())
        } else {
            Err(SliceRefusal::Busy)
        }
    }

    /// In a sliced heap, returns whether class c has a slot that neither an object nor the job
    /// holds: whether it has a partly full page, or a page is free.
    fn has_slot(&self, c: u32) -> bool
        requires { c < self.now.lists.classes }
        ensures some { IsTrue result → 1 ≤ length (pages_in self.now.lists c NotFull) + length self.now.tables.pool.free }
        ensures none { IsFalse result → length (pages_in self.now.lists c NotFull) + length self.now.tables.pool.free ≡ 0 }
    {
        self.lists.len(c, Which::NotFull) > 0 || self.tables.pool.left() > 0
    }

    /// In a sliced heap, the number of pages that one more object of class c adds to the pages that the objects need
    /// (`needed`): 1 if the live objects of the class fill whole pages exactly, else 0.
    pub(crate) fn opens_page(&self, c: u32) -> u32
        requires class { c < length self.now.tables.classes.sizes }
        requires listed { c < length self.now.live }
        ensures value { result ≡ opens (slots self.now.tables.classes.page_words self.now.tables.classes.sizes c) (slice_index self.now.live c) }
        ensures few { result ≤ 1 }
    {
        if self.live[c as usize] % self.tables.classes.slots(c) == 0 {
            1
        } else {
            0
        }
    }

    /// In a sliced heap, returns whether the objects, with one more of class c, would need more pages than the heap
    /// has.
    fn is_over(&self, c: u32) -> bool
        requires class { c < length self.now.tables.classes.sizes }
        requires listed { c < length self.now.live }
        requires within { self.now.needed ≤ self.now.settings.pages }
        ensures { IsTrue result ↔ (self.now.settings.pages < self.now.needed
            + opens (slots self.now.tables.classes.page_words self.now.tables.classes.sizes c) (slice_index self.now.live c)) }
    {
        self.needed + self.opens_page(c) > self.settings.pages
    }

    /// In a sliced heap, binds the next free proxy, of which there must be one, to the address
    /// `place`, writes there the header of an object of `bytes` bytes, and returns the proxy's
    /// number. Costs three steps.
    fn bind(&mut self, place: u32, bytes: u32, steps: &mut Steps) -> Handle
        requires some { map.len self.old.proxies.places ≢ self.old.proxies.limit }
        requires within { place < length self.old.region }
        ensures unused { map.get self.old.proxies.places result.0 ≡ None }
        ensures below { result.0 < self.old.proxies.limit }
        ensures whole { self.new ≡ record self.old {
          proxies = with_place self.old.proxies result.0 place;
          region = slice_set self.old.region place (header_word result.0 bytes);
        } }
        ensures first { self.old.proxies.free ≡ result.0 ∷ self.new.proxies.free }
        ensures handles { AreBelowLimit self.new.proxies }
        ensures steps { RoseBy steps.old steps.new 3 }
    {
        let Some(handle) = self.proxies.bind(place, steps) else {
            unreachable!();
        };
        let header = Header {
            handle,
            length: bytes,
        };
        self.region.write(place, header.pack(), steps);
        handle
    }

    /// In a sliced heap, counts one more object, of class c and of `bytes` bytes: in `live`, in `needed` if it needs
    /// one more page, and in the bytes asked and taken. Before, at most 65,536 objects of the class, 4,096 pages and
    /// 2^33 bytes of each kind may be counted.
    fn count_in(&mut self, c: u32, bytes: u32)
        requires class { c < length self.old.tables.classes.sizes }
        requires listed { c < length self.old.live }
        requires live { slice_index self.old.live c ≤ 65536 }
        requires needed { self.old.needed ≤ 4096 }
        requires asked { self.old.asked ≤ 131072 * 65536 }
        requires taken { self.old.taken ≤ 131072 * 65536 }
        ensures { self.new ≡ record self.old {
          live = slice_set self.old.live c (slice_index self.old.live c + 1);
          needed = self.old.needed + opens (slots self.old.tables.classes.page_words self.old.tables.classes.sizes c) (slice_index self.old.live c);
          asked = self.old.asked + bytes;
          taken = self.old.taken + 8 * slice_index self.old.tables.classes.sizes c;
        } }
    {
        self.needed += self.opens_page(c);
        self.live[c as usize] += 1;
        self.asked += u64::from(bytes);
        self.taken += 8 * u64::from(self.tables.classes.slot_words(c));
    }
}
