//! `HeldTasks`: an open heap of sixteen tasks with the steps of its last call that counts any and the
//! handles that C has, for a C library. Each call from C returns a code, and writes its other results
//! through references. A call for a task above 15 returns `UNKNOWN` and changes nothing.
ghost use Rattle.std.specs.Prelude.{◌≡◌, Err};
ghost use Rattle.norphuen_tasks.specs.Calls.{IsAdmitCall, IsCallOfTask, IsLeastCall, IsQuotaCall, IsStepsCall, IsTaskCall, IsTasksFiguresCall, IsTasksFreeCall, IsTasksLengthCall, IsTasksMallocCall, IsTasksReadCall, IsTasksWriteCall, IsUnassignedCall};
ghost use Rattle.norphuen_tasks.specs.Codes.{admission_code, quota_code};
ghost use Rattle.norphuen_tasks.specs.CallerTasks.{tasks_opening};

use crate::handles::{TASKS, TaskHandles};
use crate::results::NphTask;
use c_base::{
    DONE, ENTRIES, NphClass, NphFreed, Openable, PAGES, PROXIES, SIZE, SPACE, UNKNOWN, of_access,
    of_refusal,
};
use cf_base::{BytesNeeded, Handle, Layout, Settings};
use quota_heap::QuotaHeap;
use quota_model::{Admission, Need, QuotaFault, admit, first_large};
use sizing::least_pages;
use std::alloc::Global;
use std::marker::Model;
use std::mem::size_of;
use std::rt::Memory;
use step_ledger::Meter;

/// The bytes of the memory block of an open heap.
const HELD_BYTES: u64 = 248;

const _: () = prove!(size_of::<HeldTasks>() == 248);

/// The most needs that `admit` and `least_quota` take.
const MOST_NEEDS: usize = 64;

/// An open heap of sixteen tasks, the steps of its last call that counts any, and for each task C's
/// handle of each object's number. A handle is stale if the number in its low bits has another one
/// in the task now; a call on it is a call on the number `NONE`, which is never live. `malloc` and
/// the calls that take a handle count steps, each on a ledger of its own that it makes from
/// `memory`; the others leave `steps` unchanged.
#[derive(Drop)]
pub struct HeldTasks {
    heap: QuotaHeap,
    steps: u64,
    memory: Memory,
    handles: TaskHandles,
}

impl Model for HeldTasks {
    ghost use Rattle.quota_heap.specs.State.{KeepsTasks};
    ghost use Rattle.norphuen_tasks.specs.TasksState.{TasksState, tasks_code};

    ghost Value = { TasksState };

    ghost coded = { tasks_code };

    ghost view = { λ h. record { heap = h.heap; steps = h.steps; handles = h.handles } };

    ghost invariant = { λ h. KeepsTasks h.heap };
}

impl Openable for HeldTasks {
    ghost opening = { tasks_opening };

    /// For C, the memory that opening a heap of tasks asks for.
    fn bytes_needed(s: &Settings) -> BytesNeeded {
        let handles = TaskHandles::bytes_needed(s.proxies);
        QuotaHeap::bytes_needed(s).and(handles.and(BytesNeeded::block(HELD_BYTES)))
    }

    /// For C, opens a heap in which no task has an object and all quotas are 0. Returns `None` if
    /// out of memory.
    fn open(memory: Memory, s: &Settings, last: u32) -> Option<Box<HeldTasks, Global>> {
        let alloc = Global::new(memory);
        let handles = TaskHandles::new(alloc, s.proxies, last)?;
        let mut heap = QuotaHeap::closed(alloc);
        heap.open_heap(s).ok()?;
        let held = HeldTasks {
            heap,
            steps: 0,
            memory,
            handles,
        };
        Box::new(alloc, held).ok()
    }

    /// `HeldTasks`: the largest handle of all tasks.
    fn last(&self) -> u32 {
        self.handles.largest()
    }
}

impl HeldTasks {
    /// For C, sets the quota of a task to `pages` pages. Returns `DONE`; else, with nothing changed, `PAGES` if the
    /// quotas of all tasks would sum to more pages than the region has, or else `SPACE` if the task uses more than
    /// `pages` pages.
    pub fn set_quota(&mut self, task: u32, pages: u32) -> i32
        ensures { IsCallOfTask task self.old result self.new (Unit {0}) (IsQuotaCall self.old task pages result self.new) }
    {
        if task >= TASKS {
            return UNKNOWN;
        }
        match self.heap.set_quota(task, pages) {
            Ok(()) => DONE,
            Err(cause) => of_quota(cause),
        }
    }

    /// For C, makes an object of `bytes` zeros for a task and writes its handle into `handle`. Returns `DONE`, or the
    /// code of the refusal (`QuotaHeap::malloc`): `SIZE`, `PROXY` or `SPACE`, and then `handle` and the objects are
    /// unchanged.
    pub fn malloc(&mut self, task: u32, bytes: u32, handle: &mut u32) -> i32
        ensures { IsCallOfTask task self.old result self.new (handle.new ≡ handle.old) (IsTasksMallocCall self.old task bytes handle.old result handle.new self.new) }
    {
        if task >= TASKS {
            return UNKNOWN;
        }
        let mut meter = Meter::for_library(self.memory);
        let answer = self.heap.malloc(task, bytes, meter.steps());
        self.steps = meter.lap();
        match answer {
            Ok(h) => {
                *handle = self.handles.of_task(task).handle_of(h.0);
                DONE
            }
            Err(cause) => of_refusal(cause),
        }
    }

    /// For C, frees an object of a task, whose handle is stale then. Writes into `freed` the words
    /// of its slot, and the handle of the object of this task that moved there, or `NONE`. Returns
    /// `DONE`, or `UNKNOWN` if the handle isn't live in this task; then `freed` is unchanged.
    pub fn free(&mut self, task: u32, handle: u32, freed: &mut NphFreed) -> i32
        ensures { IsCallOfTask task self.old result self.new (freed.new ≡ freed.old) (IsTasksFreeCall self.old task handle freed.old result freed.new self.new) }
    {
        if task >= TASKS {
            return UNKNOWN;
        }
        let number = self.handles.of_task(task).number_in(handle);
        let mut meter = Meter::for_library(self.memory);
        let answer = self.heap.free(task, Handle(number), meter.steps());
        self.steps = meter.lap();
        match answer {
            Ok(done) => {
                self.handles.raise(task, handle);
                *freed = NphFreed {
                    slot_words: done.slot_words,
                    moved: self.handles.of_task(task).of_moved(done.moved),
                };
                DONE
            }
            Err(_) => UNKNOWN,
        }
    }

    /// For C, writes the bytes into an object of a task, from its byte `at` on. Returns `DONE`; `UNKNOWN` if the handle
    /// isn't live in this task, or `RANGE` if `at` plus their number exceeds the object's length, and then no object
    /// changes.
    pub fn write(&mut self, task: u32, handle: u32, at: u32, bytes: &[u8]) -> i32
        ensures { IsCallOfTask task self.old result self.new (Unit {0}) (IsTasksWriteCall self.old task handle at bytes.now result self.new) }
    {
        if task >= TASKS {
            return UNKNOWN;
        }
        let number = self.handles.of_task(task).number_in(handle);
        let mut meter = Meter::for_library(self.memory);
        let answer = self
            .heap
            .write(task, Handle(number), at, bytes, meter.steps());
        self.steps = meter.lap();
        match answer {
            Ok(()) => DONE,
            Err(cause) => of_access(cause),
        }
    }

    /// For C, fills `out` with the bytes of an object of a task from its byte `at` on. Returns `DONE`; `UNKNOWN` if the
    /// handle isn't live in this task, or `RANGE` if `at` plus their number exceeds the object's length, and then `out`
    /// is unchanged.
    pub fn read(&mut self, task: u32, handle: u32, at: u32, out: &mut [u8]) -> i32
        ensures { IsCallOfTask task self.old result self.new (out.new ≡ out.old) (IsTasksReadCall self.old task handle at out.old result out.new self.new) }
    {
        if task >= TASKS {
            return UNKNOWN;
        }
        let number = self.handles.of_task(task).number_in(handle);
        let mut meter = Meter::for_library(self.memory);
        let answer = self.heap.read(task, Handle(number), at, out, meter.steps());
        self.steps = meter.lap();
        match answer {
            Ok(()) => DONE,
            Err(cause) => of_access(cause),
        }
    }

    /// For C, writes the length in bytes of an object of a task into `bytes`. Returns `DONE`, or `UNKNOWN` if the
    /// handle isn't live in this task; then `bytes` is unchanged.
    pub fn length(&mut self, task: u32, handle: u32, bytes: &mut u32) -> i32
        ensures { IsCallOfTask task self.old result self.new (bytes.new ≡ bytes.old) (IsTasksLengthCall self.old task handle bytes.old result bytes.new self.new) }
    {
        if task >= TASKS {
            return UNKNOWN;
        }
        let number = self.handles.of_task(task).number_in(handle);
        let mut meter = Meter::for_library(self.memory);
        let answer = self.heap.length(task, Handle(number), meter.steps());
        self.steps = meter.lap();
        match answer {
            Some(n) => {
                *bytes = n;
                DONE
            }
            None => UNKNOWN,
        }
    }

    /// For C, writes the quota of a task, and how many pages and live objects it has, into `figures`.
    /// Returns `DONE`.
    pub fn task(&mut self, task: u32, figures: &mut NphTask) -> i32
        ensures { IsCallOfTask task self.old result self.new (figures.new ≡ figures.old) (IsTaskCall self.old task result figures.new self.new) }
    {
        if task >= TASKS {
            return UNKNOWN;
        }
        *figures = NphTask {
            quota: self.heap.quota(task),
            pages: self.heap.pages(task),
            live: self.heap.live(task),
        };
        DONE
    }

    /// For C, writes a task's figures of a class into `figures`; classes are numbered from 0. Returns `DONE`, or
    /// `UNKNOWN` if there is no such class; then `figures` is unchanged.
    pub fn figures(&mut self, task: u32, class: u32, figures: &mut NphClass) -> i32
        ensures { IsCallOfTask task self.old result self.new (figures.new ≡ figures.old) (IsTasksFiguresCall self.old task class figures.old result figures.new self.new) }
    {
        if task >= TASKS {
            return UNKNOWN;
        }
        match self.heap.figures(task, class) {
            Some(f) => {
                *figures = NphClass::of(f);
                DONE
            }
            None => UNKNOWN,
        }
    }

    /// For C, writes into `pages` how many pages are in no quota: those of the region less the sum
    /// of all quotas. Always returns `DONE`.
    pub fn unassigned(&mut self, pages: &mut u32) -> i32
        ensures { IsUnassignedCall self.old result pages.new self.new }
    {
        *pages = self.heap.unassigned();
        DONE
    }

    /// For C, tests whether the quota of a task is enough for its `needs`, if it begins without
    /// objects (`admit` of `quota_model`). Returns `DONE` if so: then no malloc within the needs is
    /// refused for space. Else returns the code of the first cause that holds: `ENTRIES` if there are
    /// more than 64 needs, `SIZE` if the length of a need, even of count 0, doesn't fit a page with an
    /// 8-byte header, `PROXIES` if the needs declare more objects than the task has proxies, or `SPACE`.
    pub fn admit(&mut self, task: u32, needs: &[Need]) -> i32
        ensures { IsCallOfTask task self.old result self.new (Unit {0}) (IsAdmitCall self.old task needs.now result self.new) }
    {
        if task >= TASKS {
            return UNKNOWN;
        }
        if needs.len() > MOST_NEEDS {
            return ENTRIES;
        }
        let quota = self.heap.quota(task);
        of_admission(admit(&self.heap.settings(), quota, needs))
    }

    /// `HeldTasks`: writes into `pages` the least quota for a task with these `needs`: the least
    /// with which `admit` returns `DONE`. Returns `DONE`; else, with `pages` unchanged, the code of the
    /// first cause that holds: `ENTRIES` if there are more than 64 needs, `SIZE` if the length of a
    /// need, even of count 0, doesn't fit a page with an 8-byte header, or `PROXIES` if the needs
    /// declare more objects than a task has proxies.
    pub fn least_quota(&mut self, needs: &[Need], pages: &mut u32) -> i32
        ensures { IsLeastCall self.old needs.now result pages.old pages.new self.new }
    {
        if needs.len() > MOST_NEEDS {
            return ENTRIES;
        }
        let s = self.heap.settings();
        if first_large(s.page_words, needs).is_some() {
            return SIZE;
        }
        match least_pages(&s, Layout::Words, needs) {
            Some(found) => {
                *pages = found;
                DONE
            }
            None => PROXIES,
        }
    }

    /// `HeldTasks`: writes the steps of the last call that counts them into `steps`; 0 if there was
    /// none. Always returns `DONE`.
    pub fn last_steps(&mut self, steps: &mut u64) -> i32
        ensures { IsStepsCall self.old result steps.new self.new }
    {
        *steps = self.steps;
        DONE
    }
}

/// `HeldTasks`: the code of a refused quota.
fn of_quota(cause: QuotaFault) -> i32
    ensures { result ≡ quota_code (Err cause) }
{
    match cause {
        QuotaFault::Sum => PAGES,
        QuotaFault::Used => SPACE,
    }
}

/// `HeldTasks`: the code of an answer of `admit` of `quota_model`.
fn of_admission(answer: Admission) -> i32
    ensures { result ≡ admission_code answer }
{
    match answer {
        Admission::Yes => DONE,
        Admission::No { nth: _ } => SPACE,
        Admission::Size { entry: _ } => SIZE,
        Admission::Proxies => PROXIES,
    }
}
