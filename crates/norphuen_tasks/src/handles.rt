//! The handles that C has of the objects of sixteen tasks. Each task has handles of its own: those of two tasks may be equal.
ghost use Rattle.std.specs.Prelude.{◌≡◌, ℕ, ◌*◌, ◌%◌, ◌^◌, ◌<◌, ◌≤◌, IfSome, length, slice_set};
ghost use Rattle.std.specs.Int.{IsNextPowerOfTwo};
ghost use Rattle.c_base.specs.Handles.{raised};
ghost use Rattle.norphuen_tasks.specs.Handles.{AreFirstOfTasks, handles_by, handles_bytes, largest_of};

use c_base::Handles;
use cf_base::BytesNeeded;
use std::alloc::Global;
use std::marker::Model;
use std::mem::size_of;

/// The number of tasks.
pub(crate) const TASKS: u32 = 16;

/// The bytes of a `Handles`.
const HANDLES_BYTES: u64 = 32;

const _: () = prove!(size_of::<Handles>() == 32);

/// C's handles of each of the sixteen tasks.
#[derive(Drop)]
pub(crate) struct TaskHandles {
    of: Vec<Handles>,
}

impl Model for TaskHandles {
    ghost use Rattle.std.specs.Prelude.{◌≡◌, ℕ, List, length};
    ghost use Rattle.std.specs.Coded.{coded_ℕ, coded_list};

    ghost Value = { List (List ℕ) };

    ghost coded = { coded_list (coded_list coded_ℕ) };

    ghost view = { λ h. h.of.items };

    ghost invariant = { λ h. length h.of.items ≡ 16 };
}

impl TaskHandles {
    /// Makes the handles of a heap that was just opened, in which each task has this many proxies (1 to
    /// 65,536): larger than `last`, or from 0 on if too few are larger. Returns `None` if out of memory.
    pub(crate) fn new(alloc: Global, proxies: u32, last: u32) -> Option<TaskHandles>
        requires some { 1 ≤ proxies }
        requires few { proxies ≤ 65536 }
        ensures { IfSome result (λ h. AreFirstOfTasks proxies last h) }
    {
        let mut of = Vec::with_capacity(alloc, TASKS as usize).ok()?;
        for _i in 0..TASKS {
            of.push(Handles::new(alloc, proxies, last)?).ok()?;
        }
        Some(TaskHandles { of })
    }

    /// The memory that the handles of all tasks ask for, with this many proxies (1 to 65,536) for each
    /// task: 17 blocks.
    pub(crate) fn bytes_needed(proxies: u32) -> BytesNeeded
        requires some { 1 ≤ proxies }
        requires few { proxies ≤ 65536 }
        ensures needed { (count : ℕ) × IsNextPowerOfTwo proxies count × (result ≡ handles_bytes count) }
        ensures few { result.total < 2 ^ 40 }
        ensures blocks { result.blocks ≡ 17 }
    {
        BytesNeeded::block(u64::from(TASKS) * HANDLES_BYTES).and(Handles::bytes_needed(
            proxies,
        ).times(TASKS))
    }

    /// C's handles of task `task`, 0 to 15.
    pub(crate) fn of_task(&self, task: u32) -> &Handles
        requires { task < 16 }
        ensures { result.now ≡ handles_by self.now task }
    {
        &self.of[task as usize]
    }

    /// In task `task`, 0 to 15, replaces the handle of the number in `handle` by that of the next
    /// generation. To be called after a free of the object that `handle` named.
    #[tactic(auto, using(crate::proofs::Tables::read_is))]
    pub(crate) fn raise(&mut self, task: u32, handle: u32)
        requires { task < 16 }
        ensures { self.new ≡ slice_set self.old task (raised (handles_by self.old task) (handle % length (handles_by self.old task))) }
    {
        let handles = &mut self.of[task as usize];
        handles.raise(handle);
    }

    /// `TaskHandles`: the largest handle of all tasks.
    pub(crate) fn largest(&self) -> u32
        ensures { result ≡ largest_of self.now }
    {
        self.of
            .iter()
            .fold(0, |most, handles| most.max(handles.largest()))
    }
}
