//! The call `free` of an open sliced heap: it removes the object, leaves the job to clear its slot or to move
//! another object into it, and does the first slice of that job.
ghost use Rattle.std.specs.Prelude.{◌≡◌, ◌*◌, ◌-◌, ◌<◌, ◌≤◌, Some, length, slice_index, slice_set};
ghost use Rattle.std.specs.FinMap as map;
ghost use Rattle.cf_base.specs.Classes.{slots};
ghost use Rattle.step_ledger.specs.Counting.{RoseBy};
ghost use Rattle.slice_model.specs.Ordered.{FreesInOrder, HappensInOrder};
ghost use Rattle.slice_model.specs.Runs.{FreesWithWords, Free, Happens};
ghost use Rattle.slice_model.specs.State.{Idle};
ghost use Rattle.sliced_heap.specs.Costs.{freed_cost, sliced_free_cost};
ghost use Rattle.sliced_heap.specs.Heap.{job_of, sliced_seen};
ghost use Rattle.sliced_heap.specs.Layout.{IsValid, opens, plan_of, sliced_order_in, sliced_state_of, working_of};
ghost use Rattle.sliced_heap.specs.Steps.{StartsClearing, fault_in};

use crate::open_heap::{OpenHeap, Pending};
use cf_base::Handle;
use region::Header;
use slice_model::{JobSlot, SliceFault};
use step_ledger::Steps;

impl OpenHeap {
    /// In a sliced heap, frees the object of handle `h`, and does the first slice of the job that this leaves.
    /// Fails, with nothing changed, with `Unknown` if the handle is not live, else with `Busy` if a job is pending.
    /// Costs `sliced_free_cost` steps.
    pub fn free(&mut self, h: Handle, steps: &mut Steps) -> Result<(), SliceFault>
        requires { IsValid (sliced_seen self.old) }
        ensures step { Happens (plan_of (sliced_seen self.old)) (working_of (sliced_seen self.old)) (Free h.0 (fault_in result)) (working_of (sliced_seen self.new)) }
        ensures ordered { HappensInOrder (plan_of (sliced_seen self.old)) (working_of (sliced_seen self.old)) (Free h.0 (fault_in result)) (working_of (sliced_seen self.new))
            (sliced_order_in (sliced_seen self.old)) (sliced_order_in (sliced_seen self.new)) }
        ensures kept { IsValid (sliced_seen self.new) }
        ensures plan { plan_of (sliced_seen self.new) ≡ plan_of (sliced_seen self.old) }
        ensures steps { RoseBy steps.old steps.new
            (sliced_free_cost (plan_of (sliced_seen self.old)) (sliced_state_of (sliced_seen self.old)) (sliced_order_in (sliced_seen self.old)) h.0 (fault_in result)) }
    {
        let Some(place) = self.proxies.lookup(h, steps) else {
            return Err(SliceFault::Unknown);
        };
        match self.job {
            Pending::Idle => {}
            _ => return Err(SliceFault::Busy),
        }
        self.free_live(h, place, steps);
        Ok(())
    }

    /// In a sliced heap, frees the live object `h`, whose address is `place`, while no job is
    /// pending. Starts the job that clears its slot, or one that moves another object into it, and
    /// does the job's first slice. Costs `freed_cost` steps.
    fn free_live(&mut self, h: Handle, place: u32, steps: &mut Steps)
        requires kept { IsValid (sliced_seen self.old) }
        requires idle { job_of self.old.job ≡ Idle }
        requires known { map.get self.old.proxies.places h.0 ≡ Some place }
        ensures step { FreesWithWords (plan_of (sliced_seen self.old)) (working_of (sliced_seen self.old)) h.0 (working_of (sliced_seen self.new)) }
        ensures ordered { FreesInOrder (plan_of (sliced_seen self.old)) (working_of (sliced_seen self.old)) h.0 (working_of (sliced_seen self.new))
            (sliced_order_in (sliced_seen self.old)) (sliced_order_in (sliced_seen self.new)) }
        ensures kept { IsValid (sliced_seen self.new) }
        ensures plan { plan_of (sliced_seen self.new) ≡ plan_of (sliced_seen self.old) }
        ensures steps { RoseBy steps.old steps.new (freed_cost (plan_of (sliced_seen self.old)) (sliced_state_of (sliced_seen self.old)) (sliced_order_in (sliced_seen self.old)) h.0) }
    {
        let k = self.start_clearing(h, place, steps);
        // Whichever job it is now, `slice` does its first slice.
        let _filled = self.fill(k, steps);
        self.slice(steps);
    }

    /// In a sliced heap without a pending job, removes the live object `h`, whose address is
    /// `place`: releases its proxy, takes it out of the counts of objects, pages and bytes, and
    /// makes clearing its slot the pending job. Returns that slot. No word of the region changes
    /// yet. Costs four steps.
    fn start_clearing(&mut self, h: Handle, place: u32, steps: &mut Steps) -> JobSlot
        requires kept { IsValid (sliced_seen self.old) }
        requires idle { job_of self.old.job ≡ Idle }
        requires known { map.get self.old.proxies.places h.0 ≡ Some place }
        ensures gone { StartsClearing (sliced_seen self.old) h.0 result (sliced_seen self.new) }
        ensures kept { IsValid (sliced_seen self.new) }
        ensures steps { RoseBy steps.old steps.new 4 }
    {
        let length = Header::unpack(self.region.read(place, steps)).length;
        let Some(c) = self.tables.classes.class_of(length, steps) else {
            unreachable!();
        };
        self.proxies.release(h, steps);
        self.count_out(c, length);
        let k = JobSlot {
            address: place,
            class: c,
            done: 0,
        };
        self.job = Pending::Clear(k);
        k
    }

    /// In a sliced heap, counts one object less, of class c and of `bytes` bytes: in `live`, in `needed` if the other
    /// objects of the class need one page less, and in the bytes asked and taken. These counts must include such an
    /// object.
    fn count_out(&mut self, c: u32, bytes: u32)
        requires class { c < length self.old.tables.classes.sizes }
        requires listed { c < length self.old.live }
        requires live { 1 ≤ slice_index self.old.live c }
        requires needed { opens (slots self.old.tables.classes.page_words self.old.tables.classes.sizes c) (slice_index self.old.live c - 1) ≤ self.old.needed }
        requires asked { bytes ≤ self.old.asked }
        requires taken { 8 * slice_index self.old.tables.classes.sizes c ≤ self.old.taken }
        ensures { self.new ≡ record self.old {
          live = slice_set self.old.live c (slice_index self.old.live c - 1);
          needed = self.old.needed - opens (slots self.old.tables.classes.page_words self.old.tables.classes.sizes c) (slice_index self.old.live c - 1);
          asked = self.old.asked - bytes;
          taken = self.old.taken - 8 * slice_index self.old.tables.classes.sizes c;
        } }
    {
        self.live[c as usize] -= 1;
        self.needed -= self.opens_page(c);
        self.asked -= u64::from(bytes);
        self.taken -= 8 * u64::from(self.tables.classes.slot_words(c));
    }
}
