//! How a task frees an object on the pages that all tasks share.
ghost use Rattle.std.specs.Prelude.{◌≡◌, ◌+◌, ◌<◌, ◌≤◌, slice_index};
ghost use Rattle.step_ledger.specs.Counting.{RoseBy};
ghost use Rattle.cf_base.specs.declared.kind.Kind.TheVariants.{Moving};
ghost use Rattle.page_slots.specs.Owner.{IsObjectAt};
ghost use Rattle.page_slots.specs.Leaving.{leaving_steps};
ghost use Rattle.quota_heap.specs.Calls.{IsRemoved, parts_without, slot_of};
ghost use Rattle.quota_heap.specs.Layout.{ArePages, IsTask, as_owner};

use crate::shared_pages::{Found, SharedPages};
use crate::task::{NUMBERS, Task};
use cf_base::{Freed, Handle};
use page_slots::LeftSlot;
use step_ledger::Steps;
use virtual_words::Direct;

impl SharedPages {
    /// In `SharedPages`, frees object `h` of `task`, task number `t`; `x` is the object's address,
    /// length and class. If its page was full and the task has a partly full page of the class, the
    /// object at the lowest used slot of that page moves to the freed slot; else the slot is
    /// cleared. Returns the number of words of the slot, and which object moved, if one did. Costs
    /// three steps, and those of leaving the slot (`leaving_steps`).
    pub(crate) fn free_inner(
        &mut self,
        task: &mut Task,
        t: u32,
        h: Handle,
        x: Found,
        steps: &mut Steps,
    ) -> Freed
        requires shared_pages { ArePages self.old }
        requires kept { IsTask self.old t task.old }
        requires sixteen { t < 16 }
        requires few { task.old.pages ≤ 4096 }
        requires object { IsObjectAt (as_owner self.old task.old) h.0 x.place x.length x.class }
        ensures removed { IsRemoved self.old task.old h.0 (slot_of self.old t x.class x.place) result.moved self.new task.new }
        ensures slot { result.slot_words ≡ slice_index self.old.tables.classes.sizes x.class }
        ensures steps { RoseBy steps.old steps.new (3 + leaving_steps Moving (parts_without self.old task.old h.0) (slot_of self.old t x.class x.place) result.moved) }
    {
        let slot_words = self.tables.classes.slot_words(x.class);
        let left = self.tables.pool.left();
        let moves = self
            .tables
            .must_move(&task.lists, x.class, x.place, 1, steps);
        task.live[x.class as usize] -= 1;
        task.proxies.release(h, steps);
        let slot = LeftSlot {
            class: x.class,
            place: x.place,
            words: slot_words,
            first: t * NUMBERS,
        };
        let moved = self.tables.leave_slot::<Direct>(
            &mut task.lists,
            &mut task.proxies,
            &mut self.region,
            &mut None,
            slot,
            moves,
            steps,
        );
        task.pages = task.pages + left - self.tables.pool.left();
        Freed { slot_words, moved }
    }
}
