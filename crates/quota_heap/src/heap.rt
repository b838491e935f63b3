//! `QuotaHeap`, the heap that sixteen tasks share, closed or open, with its public calls.
//! `OpenTasks` does all the work.
ghost use Rattle.std.specs.Prelude.{◌≡◌, ◌+◌, ◌^◌, ◌<◌, ◌≤◌, IsTrue, IfErr, IfOk, length, slice_get, sum};
ghost use Rattle.std.specs.FinMap.{len};
ghost use Rattle.step_ledger.specs.Counting.{RoseAtMost, RoseBy};
ghost use Rattle.cf_base.specs.Settings.{profile_of};
ghost use Rattle.page_model.specs.Arrangement.{pages_needed, used_pages};
ghost use Rattle.quota_model.specs.Refusals.{task_paging};
ghost use Rattle.quota_heap.specs.Costs.{most_of_malloc, task_access_steps, task_free_cost, task_free_steps, task_length_steps, task_malloc_cost, task_peek_steps};
ghost use Rattle.quota_heap.specs.Needed.{quota_bytes};
ghost use Rattle.quota_heap.specs.State.{KeepsTasks, closed_tasks, empty_state, held_by, objects_by, quota_of};
ghost use Rattle.quota_heap.specs.Steps.{IsQuotaStep, IsTaskFreeStep, IsTaskMallocStep, IsTaskReadAnswer, IsTaskWriteStep, figures_by, length_by};

use crate::open_tasks::OpenTasks;
use cf_base::{
    AccessFault, BytesNeeded, Figures, Freed, Handle, NotLive, OutOfMemory, Refusal, Settings,
};
use quota_model::QuotaFault;
use std::alloc::Global;
use std::marker::Model;
use step_ledger::Steps;

/// A heap of sixteen tasks, numbered from 0 to 15, each with a quota of pages. All calls but
/// `closed`, `bytes_needed`, `open_heap` and `is_open` need an open heap. A call with a parameter
/// `steps` adds its steps to this ledger, which must have counted at most 2^63 before. `inner` is
/// none while the heap is closed, and `alloc` is where open heaps allocate.
#[derive(Drop)]
pub struct QuotaHeap {
    alloc: Global,
    inner: Option<OpenTasks>,
}

impl Model for QuotaHeap {
    ghost use Rattle.quota_heap.specs.State.{QuotaState, tasks_state_code};

    ghost Value = { QuotaState };

    ghost coded = { tasks_state_code };

    ghost use Rattle.quota_heap.specs.Layout.{IsValidTasksIn, tasks_state_in};

    ghost view = { λ h. tasks_state_in h.inner };

    ghost invariant = { λ h. IsValidTasksIn h.inner };
}

impl QuotaHeap {
    /// Returns a closed heap of tasks, which has allocated nothing.
    pub fn closed(alloc: Global) -> QuotaHeap
        ensures { result ≡ closed_tasks }
    {
        QuotaHeap { alloc, inner: None }
    }

    /// `QuotaHeap`: opens the heap of tasks with the settings `s`; an open heap loses its objects. No task has an object
    /// then, and all quotas are 0. Each task gets as many proxies of its own as `s` has. Each class of a task has bound
    /// 1, whatever bound `s` has. Fails if out of memory; the heap is closed then.
    pub fn open_heap(&mut self, s: &Settings) -> Result<(), OutOfMemory>
        ensures opened { IfOk result (λ done. self.new ≡ empty_state (profile_of s.now)) }
        ensures kept { IfOk result (λ done. KeepsTasks self.new) }
        ensures closed { IfErr result (λ e. self.new ≡ closed_tasks) }
    {
        self.inner = None;
        self.inner = Some(OpenTasks::new(self.alloc, s)?);
        Ok(())
    }

    /// The memory that opening a heap of tasks asks for. The bytes of the `QuotaHeap` itself, which its owner keeps,
    /// aren't counted.
    pub fn bytes_needed(s: &Settings) -> BytesNeeded
        ensures needed { result ≡ quota_bytes (profile_of s.now) }
        ensures few { result.total < 2 ^ 44 }
    {
        OpenTasks::bytes_needed(s)
    }

    /// Returns whether the heap of tasks is open. In an open heap no page has objects of two tasks, and no task uses
    /// more pages than its quota (`KeepsTasks`).
    pub fn is_open(&self) -> bool
        ensures value { result ≡ self.now.is_open }
        ensures rules { IsTrue result → KeepsTasks self.now }
    {
        self.inner.is_some()
    }

    /// `QuotaHeap`: the settings with which the heap was opened.
    pub fn settings(&self) -> Settings
        requires { IsTrue self.now.is_open }
        ensures { profile_of result ≡ self.now.profile }
    {
        match &self.inner {
            Some(open) => open.shared_pages.settings,
            None => unreachable!(),
        }
    }

    /// A task's quota in a `QuotaHeap`: the most pages that it may use.
    pub fn quota(&self, task: u32) -> u32
        requires opened { IsTrue self.now.is_open }
        requires sixteen { task < 16 }
        ensures { result ≡ quota_of self.now task }
    {
        match &self.inner {
            Some(open) => open.quota(task),
            None => unreachable!(),
        }
    }

    /// `QuotaHeap`: the number of pages that hold objects of a task: as few as they need, and at
    /// most the task's quota.
    pub fn pages(&self, task: u32) -> u32
        requires opened { IsTrue self.now.is_open }
        requires sixteen { task < 16 }
        ensures used { result ≡ used_pages (task_paging self.now.profile) (held_by self.now task) }
        ensures needed { result ≡ pages_needed (task_paging self.now.profile) (objects_by self.now task) }
        ensures within { result ≤ quota_of self.now task }
    {
        match &self.inner {
            Some(open) => open.pages(task),
            None => unreachable!(),
        }
    }

    /// `QuotaHeap`: the number of live objects of a task.
    pub fn live(&self, task: u32) -> u32
        requires opened { IsTrue self.now.is_open }
        requires sixteen { task < 16 }
        ensures { result ≡ len (objects_by self.now task) }
    {
        match &self.inner {
            Some(open) => open.live(task),
            None => unreachable!(),
        }
    }

    /// `QuotaHeap`: the number of the region's pages less the sum of all quotas.
    pub fn unassigned(&self) -> u32
        requires opened { IsTrue self.now.is_open }
        ensures { result + sum self.now.quotas ≡ self.now.profile.pages }
    {
        match &self.inner {
            Some(open) => open.unassigned(),
            None => unreachable!(),
        }
    }

    /// `QuotaHeap`: sets the quota of a task to `pages` pages. If it fails, nothing changes. The causes, tested in this
    /// order: `Sum`, the quotas of all tasks would sum to more pages than the region has; `Used`, the task already uses
    /// more than `pages` pages.
    pub fn set_quota(&mut self, task: u32, pages: u32) -> Result<(), QuotaFault>
        requires opened { IsTrue self.old.is_open }
        requires sixteen { task < 16 }
        ensures step { IsQuotaStep self.old task pages result self.new }
        ensures kept { KeepsTasks self.new }
    {
        match &mut self.inner {
            Some(open) => open.set_quota(task, pages),
            None => unreachable!(),
        }
    }

    /// `QuotaHeap`: makes an object of `bytes` bytes, all zero, for a task, under a handle that was
    /// not live in this task. If it fails, nothing changes. The causes, tested in this order:
    /// `Size`, the object with its header needs more than a page; `Proxy`, the task's proxies are
    /// all in use; `Space`, the task's objects with this one need more pages than its quota. Costs
    /// at most 17 steps; one if it fails.
    pub fn malloc(&mut self, task: u32, bytes: u32, steps: &mut Steps) -> Result<Handle, Refusal>
        requires opened { IsTrue self.old.is_open }
        requires sixteen { task < 16 }
        requires room { steps.old ≤ 2 ^ 63 }
        ensures step { IsTaskMallocStep self.old task bytes result self.new }
        ensures kept { KeepsTasks self.new }
        ensures steps { RoseBy steps.old steps.new (task_malloc_cost self.old task bytes result) }
        ensures bound { RoseAtMost steps.old steps.new most_of_malloc }
    {
        match &mut self.inner {
            Some(open) => open.malloc(task, bytes, steps),
            None => unreachable!(),
        }
    }

    /// `QuotaHeap`: frees object `h` of a task. If its page was full and the task has a partly full
    /// page of the same class, an object of that page moves to the freed slot. Returns the number
    /// of words of the slot, and the handle of the object that moved, if one did. Fails, with
    /// nothing changed, if the handle is not live in this task. Costs at most 20 steps and one for
    /// each word of the slot; one if it fails.
    pub fn free(&mut self, task: u32, h: Handle, steps: &mut Steps) -> Result<Freed, NotLive>
        requires opened { IsTrue self.old.is_open }
        requires sixteen { task < 16 }
        requires room { steps.old ≤ 2 ^ 63 }
        ensures step { IsTaskFreeStep self.old task h.0 result self.new }
        ensures kept { KeepsTasks self.new }
        ensures steps { RoseBy steps.old steps.new (task_free_cost self.old task h.0 result) }
        ensures bound { RoseAtMost steps.old steps.new (task_free_steps result) }
    {
        match &mut self.inner {
            Some(open) => open.free(task, h, steps),
            None => unreachable!(),
        }
    }

    /// `QuotaHeap`: writes `bytes` into object `h` of a task from byte `at` on. Fails, with nothing
    /// changed, with `Unknown` if the handle is not live in this task, else with `Range` if `at`
    /// plus the number of bytes exceeds the object's length. Costs two steps, and one for each word
    /// that holds one of the bytes; if it fails, one (`Unknown`) or two.
    pub fn write(
        &mut self,
        task: u32,
        h: Handle,
        at: u32,
        bytes: &[u8],
        steps: &mut Steps,
    ) -> Result<(), AccessFault>
        requires opened { IsTrue self.old.is_open }
        requires sixteen { task < 16 }
        requires room { steps.old ≤ 2 ^ 63 }
        ensures step { IsTaskWriteStep self.old task (record { number = h.0; from = at }) bytes.now result self.new }
        ensures kept { KeepsTasks self.new }
        ensures steps { RoseBy steps.old steps.new (task_access_steps result at (length bytes.now)) }
    {
        match &mut self.inner {
            Some(open) => open.write(task, h, at, bytes, steps),
            None => unreachable!(),
        }
    }

    /// `QuotaHeap`: fills `out` with the bytes of object `h` of a task from byte `at` on. Fails,
    /// with `out` unchanged, with `Unknown` if the handle is not live in this task, else with
    /// `Range` if `at` plus the length of `out` exceeds the object's length. Costs two steps, and
    /// one for each word that holds one of the bytes; if it fails, one (`Unknown`) or two.
    pub fn read(
        &self,
        task: u32,
        h: Handle,
        at: u32,
        out: &mut [u8],
        steps: &mut Steps,
    ) -> Result<(), AccessFault>
        requires opened { IsTrue self.now.is_open }
        requires sixteen { task < 16 }
        requires room { steps.old ≤ 2 ^ 63 }
        ensures answer { IsTaskReadAnswer self.now task (record { number = h.0; from = at }) out.old result out.new }
        ensures steps { RoseBy steps.old steps.new (task_access_steps result at (length out.old)) }
    {
        match &self.inner {
            Some(open) => open.read(task, h, at, out, steps),
            None => unreachable!(),
        }
    }

    /// `QuotaHeap`: the length of object `h` of a task in bytes. `None` if the handle is not live
    /// in this task. Costs two steps; one if not live.
    pub fn length(&self, task: u32, h: Handle, steps: &mut Steps) -> Option<u32>
        requires opened { IsTrue self.now.is_open }
        requires sixteen { task < 16 }
        requires room { steps.old ≤ 2 ^ 63 }
        ensures value { result ≡ length_by self.now task h.0 }
        ensures steps { RoseBy steps.old steps.new (task_length_steps result) }
    {
        match &self.inner {
            Some(open) => open.length(task, h, steps),
            None => unreachable!(),
        }
    }

    /// In a `QuotaHeap`, the figures of class `c` of a task: the words of a slot, the slots of a
    /// page, and how many live objects, pages and partly full pages of the class the task has.
    /// `None` if the heap has no such class.
    pub fn figures(&self, task: u32, c: u32) -> Option<Figures>
        requires opened { IsTrue self.now.is_open }
        requires sixteen { task < 16 }
        ensures { result ≡ figures_by self.now task c }
    {
        match &self.inner {
            Some(open) => open.figures(task, c),
            None => unreachable!(),
        }
    }

    /// `QuotaHeap`: returns the word of the tasks' region with the number `word`, or `None` past
    /// the region's end. Costs one step; none past the end.
    pub fn peek(&self, word: u32, steps: &mut Steps) -> Option<u64>
        requires opened { IsTrue self.now.is_open }
        requires room { steps.old ≤ 2 ^ 63 }
        ensures value { result ≡ slice_get self.now.words word }
        ensures steps { RoseBy steps.old steps.new (task_peek_steps result) }
    {
        match &self.inner {
            Some(open) => open.peek(word, steps),
            None => unreachable!(),
        }
    }
}
