//! The heap of sixteen tasks as a library for C. `include/norphuen.h` describes each export for
//! C. An export calls the function in brackets in its comment, if any; that function's comment
//! says when it fails. Each export that takes a heap, but `nph_tasks_close`, returns a code: 0
//! (`DONE`) if the call is done, else the cause (`c_base`, file `codes`). Of these each but
//! `nph_tasks_open` returns `CLOSED` and changes nothing while the heap is closed
//! (`IsCallOnOpen`). On an open heap, a call for a task above 15 returns `UNKNOWN` and changes
//! nothing (`IsCallOfTask`).
#![tactic(auto)]

ghost use Rattle.std.specs.Prelude.{◌≡◌};
ghost use Rattle.c_base.specs.AtPlace.{IsCallOnOpen};
ghost use Rattle.c_base.specs.Version.{version};
ghost use Rattle.norphuen_tasks.specs.CallerTasks.{IsTasksOpenCall, tasks_closed_by};
ghost use Rattle.norphuen_tasks.specs.Calls.{IsAdmitCall, IsCallOfTask, IsLeastCall, IsQuotaCall, IsStepsCall, IsTaskCall, IsTasksFiguresCall, IsTasksFreeCall, IsTasksLengthCall, IsTasksMallocCall, IsTasksReadCall, IsTasksWriteCall, IsUnassignedCall};
ghost use Rattle.norphuen_tasks.specs.Needed.{IsTasksNeededCall};
ghost use Rattle.norphuen_tasks.specs.Place.{tasks_heap_in};

mod handles;
mod held;
pub mod laws;
mod results;
mod tasks;

use crate::held::HeldTasks;
use crate::results::NphTask;
use crate::tasks::NphHeap;
use c_base::{CLOSED, ClosableHeap, NphClass, NphFreed, NphNeeded, VERSION};
use quota_model::Need as NphNeed;
use std::rt::Memory;

/// Opens the heap with these settings: `pages` pages of `page_bytes` bytes, and at most `proxies` live objects in each of sixteen
/// tasks, whose quotas are 0 (`ClosableHeap::open`). `memory`, here and in `nph_tasks_close`, is the kit's value for the memory of the
/// process; a caller in C passes none.
#[unsafe(no_mangle)]
pub extern "C" fn nph_tasks_open(
    heap: &mut NphHeap,
    memory: Memory,
    pages: u32,
    page_bytes: u32,
    proxies: u32,
) -> i32
    ensures { IsTasksOpenCall (tasks_heap_in heap.old) pages page_bytes proxies result (tasks_heap_in heap.new) }
{
    heap.inner().open(memory, pages, page_bytes, 1, proxies)
}

/// Writes into `needed` the memory that `nph_tasks_open` with these settings asks for
/// (`ClosableHeap::bytes_needed`).
#[unsafe(no_mangle)]
pub extern "C" fn nph_tasks_bytes_needed(
    pages: u32,
    page_bytes: u32,
    proxies: u32,
    needed: &mut NphNeeded,
) -> i32
    ensures { IsTasksNeededCall pages page_bytes proxies result needed.old needed.new }
{
    ClosableHeap::<HeldTasks>::bytes_needed(pages, page_bytes, 1, proxies, needed)
}

/// Closes the heap and frees its memory; does nothing if it is closed (`ClosableHeap::close`).
#[unsafe(no_mangle)]
pub extern "C" fn nph_tasks_close(heap: &mut NphHeap, memory: Memory)
    ensures { tasks_heap_in heap.new ≡ tasks_closed_by (tasks_heap_in heap.old) }
{
    heap.inner().close(memory);
}

/// Sets the quota of a task to `pages` pages (`HeldTasks::set_quota`).
#[unsafe(no_mangle)]
pub extern "C" fn nph_tasks_set_quota(heap: &mut NphHeap, task: u32, pages: u32) -> i32
    ensures { IsCallOnOpen (tasks_heap_in heap.old) result (tasks_heap_in heap.new) (Unit {0})
        (λ h h2. IsCallOfTask task h result h2 (Unit {0}) (IsQuotaCall h task pages result h2)) }
{
    let heap = heap.inner();
    if heap.is_open() {
        heap.held().set_quota(task, pages)
    } else {
        CLOSED
    }
}

/// Makes an object of `bytes` zeros for a task and writes its handle into `handle` (`HeldTasks::malloc`).
#[unsafe(no_mangle)]
pub extern "C" fn nph_tasks_malloc(
    heap: &mut NphHeap,
    task: u32,
    bytes: u32,
    handle: &mut u32,
) -> i32
    ensures { IsCallOnOpen (tasks_heap_in heap.old) result (tasks_heap_in heap.new) (handle.new ≡ handle.old)
        (λ h h2. IsCallOfTask task h result h2 (handle.new ≡ handle.old) (IsTasksMallocCall h task bytes handle.old result handle.new h2)) }
{
    let heap = heap.inner();
    if heap.is_open() {
        heap.held().malloc(task, bytes, handle)
    } else {
        CLOSED
    }
}

/// Frees an object of a task. Writes into `freed` how many words its slot has, and which object of this task moved into
/// it (`HeldTasks::free`).
#[unsafe(no_mangle)]
pub extern "C" fn nph_tasks_free(
    heap: &mut NphHeap,
    task: u32,
    handle: u32,
    freed: &mut NphFreed,
) -> i32
    ensures { IsCallOnOpen (tasks_heap_in heap.old) result (tasks_heap_in heap.new) (freed.new ≡ freed.old)
        (λ h h2. IsCallOfTask task h result h2 (freed.new ≡ freed.old) (IsTasksFreeCall h task handle freed.old result freed.new h2)) }
{
    let heap = heap.inner();
    if heap.is_open() {
        heap.held().free(task, handle, freed)
    } else {
        CLOSED
    }
}

/// Writes `bytes` into an object of a task, from its byte `at` on (`HeldTasks::write`).
#[unsafe(no_mangle)]
pub extern "C" fn nph_tasks_write(
    heap: &mut NphHeap,
    task: u32,
    handle: u32,
    at: u32,
    bytes: &[u8],
) -> i32
    ensures { IsCallOnOpen (tasks_heap_in heap.old) result (tasks_heap_in heap.new) (Unit {0})
        (λ h h2. IsCallOfTask task h result h2 (Unit {0}) (IsTasksWriteCall h task handle at bytes.now result h2)) }
{
    let heap = heap.inner();
    if heap.is_open() {
        heap.held().write(task, handle, at, bytes)
    } else {
        CLOSED
    }
}

/// Fills `out` with bytes of an object of a task, from its byte `at` on (`HeldTasks::read`).
#[unsafe(no_mangle)]
pub extern "C" fn nph_tasks_read(
    heap: &mut NphHeap,
    task: u32,
    handle: u32,
    at: u32,
    out: &mut [u8],
) -> i32
    ensures { IsCallOnOpen (tasks_heap_in heap.old) result (tasks_heap_in heap.new) (out.new ≡ out.old)
        (λ h h2. IsCallOfTask task h result h2 (out.new ≡ out.old) (IsTasksReadCall h task handle at out.old result out.new h2)) }
{
    let heap = heap.inner();
    if heap.is_open() {
        heap.held().read(task, handle, at, out)
    } else {
        CLOSED
    }
}

/// Writes the length in bytes of an object of a task into `bytes` (`HeldTasks::length`).
#[unsafe(no_mangle)]
pub extern "C" fn nph_tasks_length(
    heap: &mut NphHeap,
    task: u32,
    handle: u32,
    bytes: &mut u32,
) -> i32
    ensures { IsCallOnOpen (tasks_heap_in heap.old) result (tasks_heap_in heap.new) (bytes.new ≡ bytes.old)
        (λ h h2. IsCallOfTask task h result h2 (bytes.new ≡ bytes.old) (IsTasksLengthCall h task handle bytes.old result bytes.new h2)) }
{
    let heap = heap.inner();
    if heap.is_open() {
        heap.held().length(task, handle, bytes)
    } else {
        CLOSED
    }
}

/// Writes the quota of a task, and how many pages and live objects it has, into `figures`
/// (`HeldTasks::task`).
#[unsafe(no_mangle)]
pub extern "C" fn nph_tasks_task(heap: &mut NphHeap, task: u32, figures: &mut NphTask) -> i32
    ensures { IsCallOnOpen (tasks_heap_in heap.old) result (tasks_heap_in heap.new) (figures.new ≡ figures.old)
        (λ h h2. IsCallOfTask task h result h2 (figures.new ≡ figures.old) (IsTaskCall h task result figures.new h2)) }
{
    let heap = heap.inner();
    if heap.is_open() {
        heap.held().task(task, figures)
    } else {
        CLOSED
    }
}

/// Writes a task's figures of a size class into `figures`; classes are numbered from 0
/// (`HeldTasks::figures`).
#[unsafe(no_mangle)]
pub extern "C" fn nph_tasks_figures(
    heap: &mut NphHeap,
    task: u32,
    class: u32,
    figures: &mut NphClass,
) -> i32
    ensures { IsCallOnOpen (tasks_heap_in heap.old) result (tasks_heap_in heap.new) (figures.new ≡ figures.old)
        (λ h h2. IsCallOfTask task h result h2 (figures.new ≡ figures.old) (IsTasksFiguresCall h task class figures.old result figures.new h2)) }
{
    let heap = heap.inner();
    if heap.is_open() {
        heap.held().figures(task, class, figures)
    } else {
        CLOSED
    }
}

/// Writes the number of pages that are in no quota into `pages` (`HeldTasks::unassigned`).
#[unsafe(no_mangle)]
pub extern "C" fn nph_tasks_unassigned(heap: &mut NphHeap, pages: &mut u32) -> i32
    ensures { IsCallOnOpen (tasks_heap_in heap.old) result (tasks_heap_in heap.new) (pages.new ≡ pages.old)
        (λ h h2. IsUnassignedCall h result pages.new h2) }
{
    let heap = heap.inner();
    if heap.is_open() {
        heap.held().unassigned(pages)
    } else {
        CLOSED
    }
}

/// Tests whether the quota of a task is enough for its `needs`, whatever the order of the task's
/// calls, if the task begins without objects (`HeldTasks::admit`).
#[unsafe(no_mangle)]
pub extern "C" fn nph_tasks_admit(heap: &mut NphHeap, task: u32, needs: &[NphNeed]) -> i32
    ensures { IsCallOnOpen (tasks_heap_in heap.old) result (tasks_heap_in heap.new) (Unit {0})
        (λ h h2. IsCallOfTask task h result h2 (Unit {0}) (IsAdmitCall h task needs.now result h2)) }
{
    let heap = heap.inner();
    if heap.is_open() {
        heap.held().admit(task, needs)
    } else {
        CLOSED
    }
}

/// Writes into `pages` the least quota that is enough for a task with these `needs`, if it begins
/// without objects (`HeldTasks::least_quota`).
#[unsafe(no_mangle)]
pub extern "C" fn nph_tasks_least_quota(
    heap: &mut NphHeap,
    needs: &[NphNeed],
    pages: &mut u32,
) -> i32
    ensures { IsCallOnOpen (tasks_heap_in heap.old) result (tasks_heap_in heap.new) (pages.new ≡ pages.old)
        (λ h h2. IsLeastCall h needs.now result pages.old pages.new h2) }
{
    let heap = heap.inner();
    if heap.is_open() {
        heap.held().least_quota(needs, pages)
    } else {
        CLOSED
    }
}

/// Writes the steps of the last call that counts them into `steps` (`HeldTasks::last_steps`).
#[unsafe(no_mangle)]
pub extern "C" fn nph_tasks_last_steps(heap: &mut NphHeap, steps: &mut u64) -> i32
    ensures { IsCallOnOpen (tasks_heap_in heap.old) result (tasks_heap_in heap.new) (steps.new ≡ steps.old)
        (λ h h2. IsStepsCall h result steps.new h2) }
{
    let heap = heap.inner();
    if heap.is_open() {
        heap.held().last_steps(steps)
    } else {
        CLOSED
    }
}

/// Returns the version of this library (`VERSION`).
#[unsafe(no_mangle)]
pub extern "C" fn nph_tasks_version() -> u32
    ensures { result ≡ version }
{
    VERSION
}
