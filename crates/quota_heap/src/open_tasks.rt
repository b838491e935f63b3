//! `OpenTasks`: the body of an open heap of sixteen tasks, with all calls and their tests for refusals. Each call works
//! on its task's own tables and on the pages that all tasks share.
ghost use Rattle.std.specs.Prelude.{◌≡◌, ℕ, ◌+◌, ◌^◌, ◌<◌, ◌≤◌, None, Some, IfNone, IfOk, IfSome, if◌then◌else◌, is_some, length, slice_get, slice_set, sum};
ghost use Rattle.std.specs.FinMap.{get, len};
ghost use Rattle.step_ledger.specs.Counting.{RoseBy};
ghost use Rattle.cf_base.specs.Classes.{need};
ghost use Rattle.cf_base.specs.Settings.{profile_of};
ghost use Rattle.page_model.specs.Arrangement.{pages_needed};
ghost use Rattle.page_model.specs.Figures.{figures_of};
ghost use Rattle.page_model.specs.Paging.{class_for, classes};
ghost use Rattle.quota_model.specs.Refusals.{malloc_refusal, quota_refusal};
ghost use Rattle.page_slots.specs.Owner.{IsObjectAt};
ghost use Rattle.quota_heap.specs.Calls.{IsFoundIn, task_find_steps};
ghost use Rattle.quota_heap.specs.Costs.{task_access_steps, task_free_cost, task_length_steps, task_malloc_cost, task_peek_steps};
ghost use Rattle.quota_heap.specs.Layout.{IsValid, as_owner, shared_paging, tasks_state_of};
ghost use Rattle.quota_heap.specs.Needed.{quota_bytes};
ghost use Rattle.quota_heap.specs.declared.task.Task.{Task};
ghost use Rattle.quota_heap.specs.State.{empty_state, held_by, objects_by, quota_of};
ghost use Rattle.quota_heap.specs.Steps.{IsQuotaStep, IsTaskFreeStep, IsTaskMallocStep, IsTaskReadAnswer, IsTaskWriteStep, figures_by, length_by};

use crate::shared_pages::{Found, SharedPages};
use crate::task::{Task, first_tasks, tasks_bytes};
use cf_base::{
    AccessFault, BytesNeeded, Figures, Freed, Handle, Layout, NotLive, OutOfMemory, Refusal,
    Settings, class_count,
};
use class_lists::Which;
use page_slots::PageTables;
use quota_model::QuotaFault;
use region::{Region, read_run, words_with, write_run};
use std::alloc::Global;
use step_ledger::Steps;

/// The pages that the tasks share, the sixteen tasks, and in `granted` the sum of their quotas in pages.
/// In each call `t` is the number of the calling task, from 0 to 15. All calls but `new`, `bytes_needed` and `peek`
/// require the invariant `IsValid`, and those that change something keep it.
#[derive(Drop)]
pub(crate) struct OpenTasks {
    pub(crate) shared_pages: SharedPages,
    pub(crate) tasks: Vec<Task>,
    pub(crate) granted: u32,
}

impl OpenTasks {
    /// Opens a heap of sixteen tasks without objects, whose quotas are 0, with the settings `s`. No
    /// other function of `OpenTasks` allocates. Fails if out of memory.
    pub(crate) fn new(alloc: Global, s: &Settings) -> Result<OpenTasks, OutOfMemory>
        ensures kept { IfOk result IsValid }
        ensures empty { IfOk result (λ h. tasks_state_of h ≡ empty_state (profile_of s.now)) }
    {
        let shared_pages = SharedPages::new(alloc, s)?;
        let tasks = first_tasks(alloc, shared_pages.tables.classes.len(), s.pages, s.proxies)?;
        Ok(OpenTasks {
            shared_pages,
            tasks,
            granted: 0,
        })
    }

    /// The memory that `OpenTasks::new` asks for.
    pub(crate) fn bytes_needed(s: &Settings) -> BytesNeeded
        ensures needed { result ≡ quota_bytes (profile_of s.now) }
        ensures few { result.total < 2 ^ 44 }
    {
        let layout = Layout::Words;
        let shared_pages = PageTables::bytes_needed(s, layout).and(Region::bytes_needed(
            s.pages * s.page_words,
        ));
        shared_pages.and(tasks_bytes(class_count(s.page_words, layout), s.pages, s.proxies))
    }

    /// `OpenTasks`: the quota of task `t` in pages.
    pub(crate) fn quota(&self, t: u32) -> u32
        requires kept { IsValid self.now }
        requires sixteen { t < 16 }
        ensures { result ≡ quota_of (tasks_state_of self.now) t }
    {
        let task = &self.tasks[t as usize];
        task.quota
    }

    /// `OpenTasks`: sets the quota of task `t` to `pages` pages. Fails, with nothing changed, with `Sum` if the quotas
    /// would sum to more pages than the region has, else with `Used` if the task uses more than `pages`.
    pub(crate) fn set_quota(&mut self, t: u32, pages: u32) -> Result<(), QuotaFault>
        requires kept { IsValid self.old }
        requires sixteen { t < 16 }
        ensures step { IsQuotaStep (tasks_state_of self.old) t pages result (tasks_state_of self.new) }
        ensures kept { IsValid self.new }
    {
        let besides = self.granted - self.quota(t);
        if u64::from(besides) + u64::from(pages) > u64::from(self.shared_pages.settings.pages) {
            return Err(QuotaFault::Sum);
        }
        if self.pages(t) > pages {
            return Err(QuotaFault::Used);
        }
        self.grant(t, pages, besides + pages);
        Ok(())
    }

    /// `OpenTasks`: the number of pages that hold objects of task `t`.
    pub(crate) fn pages(&self, t: u32) -> u32
        requires kept { IsValid self.now }
        requires sixteen { t < 16 }
        ensures { result ≡ pages_needed (shared_paging self.now.shared_pages) (objects_by (tasks_state_of self.now) t) }
    {
        let task = &self.tasks[t as usize];
        task.pages
    }

    /// `OpenTasks`: the number of live objects of task `t`.
    pub(crate) fn live(&self, t: u32) -> u32
        requires kept { IsValid self.now }
        requires sixteen { t < 16 }
        ensures { result ≡ len (objects_by (tasks_state_of self.now) t) }
    {
        let task = &self.tasks[t as usize];
        task.proxies.live()
    }

    /// `OpenTasks`: the number of the region's pages less the sum of all quotas.
    pub(crate) fn unassigned(&self) -> u32
        requires kept { IsValid self.now }
        ensures { result + sum (tasks_state_of self.now).quotas ≡ self.now.shared_pages.settings.pages }
    {
        self.shared_pages.settings.pages - self.granted
    }

    /// In `OpenTasks`, sets the quota of task `t` to `pages` pages, and the field `granted` to the parameter `granted`:
    /// the sum of all quotas after the call. The new quota must have no cause to be refused.
    fn grant(&mut self, t: u32, pages: u32, granted: u32)
        requires kept { IsValid self.old }
        requires sixteen { t < 16 }
        requires fits { quota_refusal (profile_of self.old.shared_pages.settings) (tasks_state_of self.old).quotas t pages (objects_by (tasks_state_of self.old) t) ≡ None }
        requires sums { granted + quota_of (tasks_state_of self.old) t ≡ self.old.granted + pages }
        ensures state { tasks_state_of self.new ≡ record (tasks_state_of self.old) { quotas = slice_set (tasks_state_of self.old).quotas t pages } }
        ensures kept { IsValid self.new }
    {
        let task = &mut self.tasks[t as usize];
        task.quota = pages;
        self.granted = granted;
    }

    /// `OpenTasks`: makes an object of `bytes` bytes, all zero, for task `t`, and returns its
    /// handle. If it is refused, nothing changes. The causes, tested in this order: `Size`, the
    /// object with its header needs more than a page; `Proxy`, the task's proxies are all in use;
    /// `Space`, the task would need more pages than its quota. Costs one step if refused, else four
    /// and those of taking the slot.
    pub(crate) fn malloc(
        &mut self,
        t: u32,
        bytes: u32,
        steps: &mut Steps,
    ) -> Result<Handle, Refusal>
        requires kept { IsValid self.old }
        requires sixteen { t < 16 }
        ensures step { IsTaskMallocStep (tasks_state_of self.old) t bytes result (tasks_state_of self.new) }
        ensures kept { IsValid self.new }
        ensures steps { RoseBy steps.old steps.new (task_malloc_cost (tasks_state_of self.old) t bytes result) }
    {
        let Some(c) = self.shared_pages.tables.classes.class_of(bytes, steps) else {
            return Err(Refusal::Size);
        };
        if let Some(refusal) = self.refusal(t, c) {
            return Err(refusal);
        }
        let task = &mut self.tasks[t as usize];
        Ok(self.shared_pages.malloc_inner(task, t, c, bytes, steps))
    }

    /// `OpenTasks`: returns the cause for which a malloc of class `c` by task `t` is refused, `Proxy` or `Space`;
    /// `None` if it isn't refused. c must be one of the heap's classes.
    fn refusal(&self, t: u32, c: u32) -> Option<Refusal>
        requires kept { IsValid self.now }
        requires sixteen { t < 16 }
        requires class { c < classes (shared_paging self.now.shared_pages) }
        ensures { (bytes : ℕ) → need bytes ≤ self.now.shared_pages.settings.page_words → class_for (shared_paging self.now.shared_pages) bytes ≡ c
            → result ≡ malloc_refusal (profile_of self.now.shared_pages.settings) (quota_of (tasks_state_of self.now) t) (objects_by (tasks_state_of self.now) t) bytes }
    {
        let task = &self.tasks[t as usize];
        if task.proxies.live() == self.shared_pages.settings.proxies {
            return Some(Refusal::Proxy);
        }
        if task.lists.len(c, Which::NotFull) == 0 && task.pages >= task.quota {
            return Some(Refusal::Space);
        }
        None
    }

    /// `OpenTasks`: frees object `h` of task `t`. If the task would then have two partly full pages
    /// of the class, another object of the task moves into the slot. Returns the number of words of
    /// the slot, and the handle of the object that moved, if one did. Fails, with nothing changed,
    /// if the handle is not live in this task. Costs one step if it fails; else six, one for each
    /// word of the slot, and those of freeing or filling the slot.
    pub(crate) fn free(&mut self, t: u32, h: Handle, steps: &mut Steps) -> Result<Freed, NotLive>
        requires kept { IsValid self.old }
        requires sixteen { t < 16 }
        ensures step { IsTaskFreeStep (tasks_state_of self.old) t h.0 result (tasks_state_of self.new) }
        ensures kept { IsValid self.new }
        ensures steps { RoseBy steps.old steps.new (task_free_cost (tasks_state_of self.old) t h.0 result) }
    {
        let Some(x) = self.object(t, h, steps) else {
            return Err(NotLive);
        };
        let owner = &mut self.tasks[t as usize];
        Ok(self.shared_pages.free_inner(owner, t, h, x, steps))
    }

    /// In `OpenTasks`, looks up object `h` of task `t`: its address, length and class. `None` if
    /// the handle is not live in this task. Costs three steps; one if not live.
    fn object(&self, t: u32, h: Handle, steps: &mut Steps) -> Option<Found>
        requires kept { IsValid self.now }
        requires sixteen { t < 16 }
        ensures none { IfNone result (get (held_by (tasks_state_of self.now) t) h.0 ≡ None) }
        ensures found { IfSome result (λ f. (x : Task) → slice_get self.now.tasks.items t ≡ Some x
            → IsObjectAt (as_owner self.now.shared_pages x) h.0 f.place f.length f.class) }
        ensures steps { RoseBy steps.old steps.new (if is_some result then 3 else 1) }
    {
        let task = &self.tasks[t as usize];
        self.shared_pages.object(task, h, steps)
    }

    /// `OpenTasks`: the length of object `h` of task `t` in bytes. `None` if the handle is not live
    /// in this task. Costs two steps; one if not live.
    pub(crate) fn length(&self, t: u32, h: Handle, steps: &mut Steps) -> Option<u32>
        requires kept { IsValid self.now }
        requires sixteen { t < 16 }
        ensures value { result ≡ length_by (tasks_state_of self.now) t h.0 }
        ensures steps { RoseBy steps.old steps.new (task_length_steps result) }
    {
        let task = &self.tasks[t as usize];
        self.shared_pages.length(task, h, steps)
    }

    /// `OpenTasks`: returns the address of object `h` of task `t`. Fails with `Unknown` if the
    /// handle is not live in this task, else with `Range` if `at` plus `count` exceeds the object's
    /// length. Costs two steps; one at `Unknown`.
    fn find(
        &self,
        t: u32,
        h: Handle,
        at: u32,
        count: usize,
        steps: &mut Steps,
    ) -> Result<u32, AccessFault>
        requires kept { IsValid self.now }
        requires sixteen { t < 16 }
        ensures found { IsFoundIn self.now t (record { number = h.0; from = at }) count result }
        ensures steps { RoseBy steps.old steps.new (task_find_steps result) }
    {
        let task = &self.tasks[t as usize];
        self.shared_pages.find(task, h, at, count, steps)
    }

    /// `OpenTasks`: writes `bytes` into object `h` of task `t` from byte `at` on. Fails, with
    /// nothing changed, with `Unknown` if the handle is not live in this task, else with `Range` if
    /// `at` plus the number of bytes exceeds the object's length. Costs two steps, and one for each
    /// word that holds one of the bytes; if it fails, one (`Unknown`) or two.
    pub(crate) fn write(
        &mut self,
        t: u32,
        h: Handle,
        at: u32,
        bytes: &[u8],
        steps: &mut Steps,
    ) -> Result<(), AccessFault>
        requires kept { IsValid self.old }
        requires sixteen { t < 16 }
        ensures step { IsTaskWriteStep (tasks_state_of self.old) t (record { number = h.0; from = at }) bytes.now result (tasks_state_of self.new) }
        ensures kept { IsValid self.new }
        ensures steps { RoseBy steps.old steps.new (task_access_steps result at (length bytes.now)) }
    {
        let len = bytes.len();
        let place = self.find(t, h, at, len, steps)?;
        if len == 0 {
            return Ok(());
        }
        let first = place + 1 + at / 8;
        let from = (at % 8) as usize;
        let n = words_with(from, len);
        write_run(&mut self.shared_pages.region, first, n, from, bytes, steps);
        Ok(())
    }

    /// `OpenTasks`: fills `out` with the bytes of object `h` of task `t` from byte `at` on. Fails,
    /// with `out` unchanged, with `Unknown` if the handle is not live in this task, else with
    /// `Range` if `at` plus the length of `out` exceeds the object's length. Costs two steps, and
    /// one for each word that holds one of the bytes; if it fails, one (`Unknown`) or two.
    pub(crate) fn read(
        &self,
        t: u32,
        h: Handle,
        at: u32,
        out: &mut [u8],
        steps: &mut Steps,
    ) -> Result<(), AccessFault>
        requires kept { IsValid self.now }
        requires sixteen { t < 16 }
        ensures answer { IsTaskReadAnswer (tasks_state_of self.now) t (record { number = h.0; from = at }) out.old result out.new }
        ensures steps { RoseBy steps.old steps.new (task_access_steps result at (length out.old)) }
    {
        let len = out.len();
        let place = self.find(t, h, at, len, steps)?;
        if len == 0 {
            return Ok(());
        }
        let first = place + 1 + at / 8;
        let from = (at % 8) as usize;
        let n = words_with(from, len);
        read_run(&self.shared_pages.region, first, n, from, out, steps);
        Ok(())
    }

    /// `OpenTasks`: the figures of class `c` of task `t`: the words of a slot, the slots of a page,
    /// and the task's live objects, pages and partly full pages of the class. `None` if the heap
    /// has no such class.
    pub(crate) fn figures(&self, t: u32, c: u32) -> Option<Figures>
        requires kept { IsValid self.now }
        requires sixteen { t < 16 }
        ensures { result ≡ figures_by (tasks_state_of self.now) t c }
    {
        if c < self.shared_pages.tables.classes.len() {
            Some(self.figures_of(t, c))
        } else {
            None
        }
    }

    /// `OpenTasks`: the figures of class `c` of task `t`; c must be one of the heap's classes. `live`, `pages` and
    /// `not_full` count the task's live objects, pages and partly full pages of the class.
    fn figures_of(&self, t: u32, c: u32) -> Figures
        requires kept { IsValid self.now }
        requires sixteen { t < 16 }
        requires class { c < classes (shared_paging self.now.shared_pages) }
        ensures { result ≡ figures_of (shared_paging self.now.shared_pages) (held_by (tasks_state_of self.now) t) c }
    {
        let task = &self.tasks[t as usize];
        let not_full = task.lists.len(c, Which::NotFull);
        Figures {
            slot_words: self.shared_pages.tables.classes.slot_words(c),
            slots: self.shared_pages.tables.classes.slots(c),
            live: task.live[c as usize],
            pages: task.lists.len(c, Which::Full) + not_full,
            not_full,
        }
    }

    /// `OpenTasks`: returns the word of the region with the number `word`, or `None` past the
    /// region's end. Costs one step; none past the end.
    pub(crate) fn peek(&self, word: u32, steps: &mut Steps) -> Option<u64>
        ensures value { result ≡ slice_get self.now.shared_pages.region word }
        ensures steps { RoseBy steps.old steps.new (task_peek_steps result) }
    {
        if word < self.shared_pages.region.len() {
            Some(self.shared_pages.region.read(word, steps))
        } else {
            None
        }
    }
}
