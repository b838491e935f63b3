//! `NphHeap` for the heap of sixteen tasks: a `ClosableHeap` of `c_base`, and its fields, in types that C may see.
ghost use Rattle.std.specs.Prelude.{◌≡◌, Option, is_some};
ghost use Rattle.std.specs.Borrow.{sem};
ghost use Rattle.std.specs.Coded.{coded_option};
ghost use Rattle.c_base.specs.HeapBlock.{place_owns};
ghost use Rattle.norphuen_tasks.specs.TasksState.{TasksState, tasks_code};
ghost use Rattle.norphuen_tasks.specs.contracts.held.HeldTasks.{the_row as open_heap};

use crate::held::HeldTasks;
use c_base::{ClosableHeap, Sealed};
use std::marker::Model;
use std::mem::size_of;

const _: () = prove!(size_of::<NphHeap>() == 16);

/// A `HeapBlock`, in types that C may see.
#[repr(C)]
#[derive(Drop)]
pub struct Place {
    at: *mut Sealed,
    pub(crate) ghost held: { Option TasksState } by { coded_option tasks_code },
}

impl Model for Place {
    ghost also_owns = { λ p. place_owns open_heap p.at p.held };
}

unsafe impl Send for Place {}

/// A `ClosableHeap`, in types that C may see. Call `close` of `inner` before a drop: a drop does
/// not free the memory of a heap.
#[repr(C)]
#[derive(Drop)]
pub struct NphHeap {
    place: Place,
    last: u32,
    is_open: bool,
    ghost shown: { is_open ≡ is_some place.held },
}

impl NphHeap {
    ghost use Rattle.norphuen_tasks.specs.Place.{LendsTasksInner, tasks_inner_of};

    /// Borrows this `NphHeap` as a `ClosableHeap`, which has the same fields in the same memory. When the borrow
    /// ends, the `NphHeap` has the fields that the `ClosableHeap` then has.
    pub fn inner(&mut self) -> &mut ClosableHeap<HeldTasks>
        ensures* writes_back { sem 𝓛 (LendsTasksInner self.entry result) }
        ensures value { result.now ≡ tasks_inner_of self.old }
    {
        unsafe { &mut *(self as *mut NphHeap as *mut ClosableHeap<HeldTasks>) }
    }
}
