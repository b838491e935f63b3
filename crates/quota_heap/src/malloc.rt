//! How a task makes an object on the pages that all tasks share, once no cause of refusal holds: it takes a
//! slot, binds a proxy of the task, and writes the header.
ghost use Rattle.std.specs.Prelude.{◌≡◌, ◌≢◌, ◌+◌, ◌<◌, ◌≤◌, []};
ghost use Rattle.std.specs.FinMap.{len};
ghost use Rattle.step_ledger.specs.Counting.{RoseBy};
ghost use Rattle.class_lists.specs.PageLists.{pages_in};
ghost use Rattle.class_lists.specs.declared.Which.TheVariants.{NotFull};
ghost use Rattle.page_model.specs.Paging.{class_for, classes};
ghost use Rattle.page_slots.specs.Take.{take_slot_steps};
ghost use Rattle.quota_heap.specs.Calls.{IsAdded};
ghost use Rattle.quota_heap.specs.Layout.{ArePages, IsTask, shared_paging, tables_of};

use crate::shared_pages::SharedPages;
use crate::task::{NUMBERS, Task};
use cf_base::Handle;
use region::Header;
use step_ledger::Steps;

impl SharedPages {
    /// In `SharedPages`, makes an object of `bytes` zeros, of class `c`, for `task`, task number
    /// `t`, and returns its handle. The task must have a free proxy. There must be a partly full
    /// page of the class in the task, or a free page in the pool. The header holds `t` and the
    /// handle in one number. Costs three steps, and those of taking the slot (`take_slot_steps`).
    pub(crate) fn malloc_inner(
        &mut self,
        task: &mut Task,
        t: u32,
        c: u32,
        bytes: u32,
        steps: &mut Steps,
    ) -> Handle
        requires shared_pages { ArePages self.old }
        requires kept { IsTask self.old t task.old }
        requires sixteen { t < 16 }
        requires class { class_for (shared_paging self.old) bytes ≡ c }
        requires in_range { c < classes (shared_paging self.old) }
        requires some { len task.old.proxies.places ≢ task.old.proxies.limit }
        requires room { pages_in task.old.lists c NotFull ≡ [] → self.old.tables.pool.free ≡ [] → ⊥ }
        requires few { task.old.pages ≤ 4096 }
        ensures comes { IsAdded self.old task.old t c bytes result.0 self.new task.new }
        ensures steps { RoseBy steps.old steps.new (take_slot_steps self.old.tables.classes (tables_of self.old task.old) c + 3) }
    {
        let left = self.tables.pool.left();
        let Some(place) = self.tables.take_slot(&mut task.lists, c, steps) else {
            unreachable!();
        };
        task.pages = task.pages + left - self.tables.pool.left();
        let Some(number) = task.proxies.bind(place, steps) else {
            unreachable!();
        };
        let header = Header {
            handle: Handle(t * NUMBERS + number.0),
            length: bytes,
        };
        self.region.write(place, header.pack(), steps);
        task.live[c as usize] += 1;
        number
    }
}
