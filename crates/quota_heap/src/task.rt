//! One task of the heap of tasks: its quota, its counts, page lists and proxies, which it shares with no other
//! task; how sixteen tasks without objects are made, and what memory they need.
ghost use Rattle.std.specs.Prelude.{◌≡◌, ◌^◌, ◌<◌, ◌≤◌, IfOk, replicate};
ghost use Rattle.proxy_table.specs.Proxies.{AreBelowLimit, no_proxies};
ghost use Rattle.quota_heap.specs.Layout.{first_task};
ghost use Rattle.quota_heap.specs.Needed.{task_bytes};

use cf_base::{BytesNeeded, OutOfMemory};
use class_lists::ClassLists;
use page_slots::CLASSES;
use proxy_table::ProxyTable;
use std::alloc::Global;
use std::mem::size_of;

/// The number of tasks that a heap of tasks has.
pub(crate) const TASKS: u32 = 16;

/// A task numbers its objects below this. The header of object h of task t has the number
/// `t * NUMBERS + h`.
pub(crate) const NUMBERS: u32 = 65_536;

/// What each task has for itself.
#[derive(Drop)]
pub(crate) struct Task {
    /// The most pages that the task may use.
    pub(crate) quota: u32,
    /// The number of pages that hold its objects.
    pub(crate) pages: u32,
    /// The number of its live objects of each class.
    pub(crate) live: [u32; CLASSES],
    /// Its full and its partly full pages, by class.
    pub(crate) lists: ClassLists,
    /// The addresses of its objects, by their numbers in this task.
    pub(crate) proxies: ProxyTable,
}

/// The bytes of a `Task`.
const TASK_BYTES: u64 = 680;

const _: () = prove!(size_of::<Task>() == 680);

impl Task {
    /// Makes a task without objects, whose quota is 0. Its tables are for `classes` size classes, a region of
    /// `pages` pages, and `proxies` proxies. Fails if out of memory.
    pub(crate) fn new(
        alloc: Global,
        classes: u32,
        pages: u32,
        proxies: u32,
    ) -> Result<Task, OutOfMemory>
        ensures first { IfOk result (λ x. x ≡ first_task classes pages proxies) }
        ensures handles { IfOk result (λ x. AreBelowLimit x.proxies) }
    {
        let lists = ClassLists::new(alloc, classes, pages)?;
        let proxies = ProxyTable::new(alloc, proxies)?;
        Ok(Task {
            quota: 0,
            pages: 0,
            live: [0; CLASSES],
            lists,
            proxies,
        })
    }
}

/// Makes sixteen tasks without objects, whose quotas are 0. The tables of each task are for `classes` size
/// classes, a region of `pages` pages, and `proxies` proxies. Fails if out of memory.
pub(crate) fn first_tasks(
    alloc: Global,
    classes: u32,
    pages: u32,
    proxies: u32,
) -> Result<Vec<Task>, OutOfMemory>
    ensures first { IfOk result (λ tasks. tasks.items ≡ replicate 16 (first_task classes pages proxies)) }
    ensures handles { IfOk result (λ tasks. AreBelowLimit (no_proxies proxies)) }
{
    let Ok(mut tasks) = Vec::with_capacity(alloc, TASKS as usize) else {
        return Err(OutOfMemory);
    };
    for _i in 0..TASKS {
        let task = Task::new(alloc, classes, pages, proxies)?;
        let Ok(()) = tasks.push(task) else {
            return Err(OutOfMemory);
        };
    }
    Ok(tasks)
}

/// The memory that `first_tasks` asks for with these arguments. There are at most 67 `classes`.
pub(crate) fn tasks_bytes(classes: u32, pages: u32, proxies: u32) -> BytesNeeded
    requires { classes ≤ 67 }
    ensures needed { result ≡ task_bytes classes pages proxies }
    ensures few { result.total < 2 ^ 43 }
{
    let tables = ClassLists::bytes_needed(classes, pages).and(ProxyTable::bytes_needed(proxies));
    BytesNeeded::block(u64::from(TASKS) * TASK_BYTES).and(tables.times(TASKS))
}
