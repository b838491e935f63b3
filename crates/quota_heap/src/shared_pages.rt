//! What all tasks share (`SharedPages`): the settings, the region, the used slots of each page, the free pages;
//! and the lookup of a task's object and its length.
ghost use Rattle.std.specs.Prelude.{◌≡◌, ℕ, ◌*◌, ◌<◌, length, option_map, None, IfNone, IfOk, IfSome, if◌then◌else◌, is_some};
ghost use Rattle.std.specs.FinMap.{get};
ghost use Rattle.step_ledger.specs.Counting.{RoseBy};
ghost use Rattle.page_model.specs.Held.{Placed};
ghost use Rattle.page_slots.specs.Owner.{IsObjectAt};
ghost use Rattle.quota_heap.specs.Calls.{IsTaskFound, task_find_steps};
ghost use Rattle.quota_heap.specs.Costs.{task_length_steps};
ghost use Rattle.quota_heap.specs.Layout.{AreFirstPages, ArePages, IsTask, as_owner, held_of};

use crate::task::Task;
use cf_base::{AccessFault, Handle, Layout, OutOfMemory, Settings};
use page_slots::PageTables;
use region::{Header, Region};
use std::alloc::Global;
use step_ledger::Steps;

/// The settings, the words of the region, and in `tables` the size classes, the used slots of each
/// page, and the pool: the pages that no task uses. Each call but `new` requires
/// `ArePages` of these pages, and `IsTask` of its `task`: the task's objects, tables and counts fit
/// these pages. `malloc_inner` and `free_inner` also require that the task uses at most 4,096 pages.
#[derive(Drop)]
pub(crate) struct SharedPages {
    pub(crate) settings: Settings,
    pub(crate) region: Region,
    pub(crate) tables: PageTables,
}

/// A task's object that was looked up: in `place` its address, the first word of its slot; its length in
/// bytes; and the number of its size class.
#[derive(Clone, Copy)]
pub(crate) struct Found {
    pub(crate) place: u32,
    pub(crate) length: u32,
    pub(crate) class: u32,
}

impl SharedPages {
    /// Allocates the tasks' region and the tables for the settings `s`; all pages are free. Fails if out of memory.
    pub(crate) fn new(alloc: Global, s: &Settings) -> Result<SharedPages, OutOfMemory>
        ensures { IfOk result (λ g. AreFirstPages s.now g) }
    {
        Ok(SharedPages {
            settings: *s,
            region: Region::new(alloc, s.pages * s.page_words)?,
            tables: PageTables::new(alloc, s, Layout::Words)?,
        })
    }

    /// In `SharedPages`, looks up object `h` of a task: its address, length and class. `None` if
    /// the handle is not live in this task. Costs three steps; one if not live.
    pub(crate) fn object(&self, task: &Task, h: Handle, steps: &mut Steps) -> Option<Found>
        requires shared_pages { ArePages self.now }
        requires kept { (t : ℕ) × IsTask self.now t task.now }
        ensures none { IfNone result (get task.now.proxies.places h.0 ≡ None) }
        ensures found { IfSome result (λ f. IsObjectAt (as_owner self.now task.now) h.0 f.place f.length f.class) }
        ensures steps { RoseBy steps.old steps.new (if is_some result then 3 else 1) }
    {
        let Some(place) = task.proxies.lookup(h, steps) else {
            return None;
        };
        let length = Header::unpack(self.region.read(place, steps)).length;
        let Some(class) = self.tables.classes.class_of(length, steps) else {
            unreachable!();
        };
        Some(Found {
            place,
            length,
            class,
        })
    }

    /// `SharedPages`: the length of object `h` of a task in bytes. `None` if the handle is not live
    /// in this task. Costs two steps; one if not live.
    pub(crate) fn length(&self, task: &Task, h: Handle, steps: &mut Steps) -> Option<u32>
        requires shared_pages { ArePages self.now }
        requires kept { (t : ℕ) × IsTask self.now t task.now }
        ensures value { result ≡ option_map (λ (x : Placed). length x.bytes) (get (held_of self.now task.now) h.0) }
        ensures steps { RoseBy steps.old steps.new (task_length_steps result) }
    {
        let Some(place) = task.proxies.lookup(h, steps) else {
            return None;
        };
        Some(Header::unpack(self.region.read(place, steps)).length)
    }

    /// `SharedPages`: returns the address of object `h` of a task. Fails with `Unknown` if the
    /// handle is not live in this task, else with `Range` if `at` plus `count` exceeds the object's
    /// length. Costs two steps; one at `Unknown`.
    pub(crate) fn find(
        &self,
        task: &Task,
        h: Handle,
        at: u32,
        count: usize,
        steps: &mut Steps,
    ) -> Result<u32, AccessFault>
        requires shared_pages { ArePages self.now }
        requires kept { (t : ℕ) × IsTask self.now t task.now }
        ensures found { IsTaskFound self.now task.now (record { number = h.0; from = at }) count result }
        ensures steps { RoseBy steps.old steps.new (task_find_steps result) }
    {
        let Some(place) = task.proxies.lookup(h, steps) else {
            return Err(AccessFault::Unknown);
        };
        let length = Header::unpack(self.region.read(place, steps)).length as usize;
        if length < count || length - count < at as usize {
            return Err(AccessFault::Range);
        }
        Ok(place)
    }
}
