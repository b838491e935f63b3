//! The end of a job, after the last word of its slot is cleared or moved: the slot becomes free, or the next
//! job moves an object into it.
ghost use Rattle.std.specs.Prelude.{◌≡◌, ℕ, ◌+◌, ◌<◌, slice_index};
ghost use Rattle.step_ledger.specs.Counting.{RoseBy};
ghost use Rattle.page_model.specs.Paging.{slot_words};
ghost use Rattle.slice_model.specs.State.{Clear};
ghost use Rattle.slice_model.specs.Ordered.{EndFollows};
ghost use Rattle.slice_model.specs.Steps.{EndsJob};
ghost use Rattle.sliced_heap.specs.Costs.{end_cost};
ghost use Rattle.sliced_heap.specs.Heap.{job_of, sliced_seen};
ghost use Rattle.sliced_heap.specs.Layout.{IsValid, plan_of, sliced_order_in, sliced_paging, sliced_state_of};

use crate::open_heap::{OpenHeap, Pending};
use slice_model::JobSlot;
use step_ledger::Steps;

impl OpenHeap {
    /// In a sliced heap, ends the job of slot `k`, whose words are all zero. The caller has already
    /// set the job to `Clear(k)` with `done` 0, even if it moved an object. If `fill` must fill the
    /// slot, the next job moves an object into it; else the slot becomes free, and no job is
    /// pending. Costs `end_cost` steps.
    pub(crate) fn end(&mut self, k: JobSlot, steps: &mut Steps)
        requires kept { IsValid (sliced_seen self.old) }
        requires job { job_of self.old.job ≡ Clear k }
        requires fresh { k.done ≡ 0 }
        requires zeros { (i : ℕ) → i < slot_words (sliced_paging (sliced_seen self.old)) k.class → slice_index self.old.region (k.address + i) ≡ 0 }
        ensures ended { EndsJob (sliced_paging (sliced_seen self.old)) (sliced_state_of (sliced_seen self.old)).held k (sliced_state_of (sliced_seen self.new)) }
        ensures ordered { EndFollows (plan_of (sliced_seen self.old)) (sliced_state_of (sliced_seen self.old)).held k (job_of self.new.job)
            (sliced_order_in (sliced_seen self.old)) (sliced_order_in (sliced_seen self.new)) }
        ensures kept { IsValid (sliced_seen self.new) }
        ensures words { self.new.region ≡ self.old.region }
        ensures plan { plan_of (sliced_seen self.new) ≡ plan_of (sliced_seen self.old) }
        ensures steps { RoseBy steps.old steps.new (end_cost (plan_of (sliced_seen self.old)) (sliced_state_of (sliced_seen self.old)).held k) }
    {
        if self.fill(k, steps) {
            return;
        }
        self.tables
            .drop_slot(&mut self.lists, k.class, k.address, steps);
        self.job = Pending::Idle;
    }
}
