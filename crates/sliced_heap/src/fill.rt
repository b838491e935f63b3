//! `fill`: if freeing the slot of the pending job would give its class two partly full pages, replaces the job
//! by one that moves an object into the slot. A free and the end of a job call it.
ghost use Rattle.std.specs.Prelude.{◌≡◌, ℕ, ◌%◌, ◌^◌, ◌<◌, ◌≤◌, IsSome, if◌then◌else◌, length, slice_index};
ghost use Rattle.std.specs.FinMap as map;
ghost use Rattle.step_ledger.specs.Counting.{RoseBy};
ghost use Rattle.class_lists.specs.PageLists.{pages_in};
ghost use Rattle.class_lists.specs.declared.Which.TheVariants.{NotFull};
ghost use Rattle.page_slots.specs.PageTables.{tables_with};
ghost use Rattle.page_slots.specs.Release.{IsFiller};
ghost use Rattle.page_slots.specs.Tables.{AreTables};
ghost use Rattle.slice_model.specs.State.{Clear};
ghost use Rattle.sliced_heap.specs.Heap.{job_of, sliced_seen};
ghost use Rattle.sliced_heap.specs.Layout.{IsValid};
ghost use Rattle.sliced_heap.specs.Steps.{FillsSlot, StartsMove};

use crate::open_heap::{OpenHeap, Pending};
use region::Header;
use slice_model::JobSlot;
use step_ledger::Steps;

impl OpenHeap {
    /// In a sliced heap whose pending job clears slot `k`, with no word of it done yet, starts to
    /// fill the slot if freeing it would give its class two partly full pages. An object of the
    /// class's partly full page then gets the slot's address, and the new job moves the object
    /// there. Returns true if so, after six steps; else false after one, and nothing changes.
    pub(crate) fn fill(&mut self, k: JobSlot, steps: &mut Steps) -> bool
        requires kept { IsValid (sliced_seen self.old) }
        requires job { job_of self.old.job ≡ Clear k }
        requires fresh { k.done ≡ 0 }
        ensures filled { FillsSlot (sliced_seen self.old) k result (sliced_seen self.new) }
        ensures kept { IsValid (sliced_seen self.new) }
        ensures steps { RoseBy steps.old steps.new (if result then 6 else 1) }
    {
        if self
            .tables
            .must_move(&self.lists, k.class, k.address, 1, steps)
        {
            self.start_move(k, steps);
            return true;
        }
        false
    }

    /// For `fill`, chooses the object at the lowest used slot of the first partly full page of the
    /// class of slot `k`, which must have such a page, and sets its proxy to the address of slot
    /// `k`. Moving the object's words there is then the pending job. Costs five steps.
    fn start_move(&mut self, k: JobSlot, steps: &mut Steps)
        requires tables { AreTables self.old.tables.classes (tables_with self.old.tables self.old.lists) }
        requires class { k.class < length self.old.tables.classes.sizes }
        requires some { 1 ≤ length (pages_in self.old.lists k.class NotFull) }
        requires within { (a : ℕ) → IsFiller self.old.tables.classes self.old.tables.maps.pages self.old.lists k.class a → a < length self.old.region }
        requires live { (a : ℕ) → IsFiller self.old.tables.classes self.old.tables.maps.pages self.old.lists k.class a
            → IsSome (map.get self.old.proxies.places (slice_index self.old.region a % 2 ^ 32)) }
        ensures begun { StartsMove (sliced_seen self.old) k (sliced_seen self.new) }
        ensures steps { RoseBy steps.old steps.new 5 }
    {
        let from = self.tables.filler(&self.lists, k.class, steps);
        let other = Header::unpack(self.region.read(from, steps)).handle;
        self.proxies.rebind(other, k.address, steps);
        let slot = JobSlot {
            address: from,
            class: k.class,
            done: 0,
        };
        self.job = Pending::Move(other, slot);
    }
}
