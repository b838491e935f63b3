//! `Held`: an open sliced heap with the steps of its last call that counts any and the handles that C has, for a C
//! library. Each call from C returns a code, and writes its other results through references.
ghost use Rattle.std.specs.Prelude.{◌≡◌, ◌≤◌, IfSome, is_some};
ghost use Rattle.cf_base.specs.Settings.{profile_of};
ghost use Rattle.slice_model.specs.State.{job_slot};
ghost use Rattle.norphuen_sliced.specs.Codes.{slice_fault_code, slice_refusal_code};

use c_base::{
    BUSY, DONE, Handles, NphClass, NphHeapTotals, PROXY, SIZE, SPACE, UNKNOWN, of_access,
};
use cf_base::{Handle, Settings};
use slice_model::{SliceFault, SliceRefusal};
use sliced_heap::SlicedHeap;
use std::alloc::Global;
use std::marker::Model;
use std::rt::Memory;
use step_ledger::Meter;

/// An open sliced heap, the steps of its last call that counts any, and C's handle of each object's
/// number. A handle is stale if the number in its low bits has another one now; a call on it is a
/// call on the number `NONE`, which is never live. `left`, `moving`, `figures`, `totals`,
/// `last_steps`, `has_job` and `last_handle` count no steps, and leave `steps` unchanged; each other
/// call sets it.
#[derive(Drop)]
pub struct Held {
    heap: SlicedHeap,
    steps: u64,
    memory: Memory,
    handles: Handles,
}

impl Model for Held {
    ghost use Rattle.std.specs.Prelude.{IsTrue};
    ghost use Rattle.norphuen_sliced.specs.HeldState.{SlicedHeldState, sliced_held_code};

    ghost Value = { SlicedHeldState };

    ghost coded = { sliced_held_code };

    ghost view = { λ h. record { heap = h.heap; steps = h.steps; handles = h.handles } };

    ghost invariant = { λ h. IsTrue h.heap.is_open };
}

impl Held {
    ghost use Rattle.c_base.specs.Handles.{largest};
    ghost use Rattle.norphuen_sliced.specs.Calls.{IsFreshSlicedHeap, IsLeftCall, IsMovingCall, IsSlicedClassCall, IsSlicedFiguresCall, IsSlicedFreeCall, IsSlicedLengthCall, IsSlicedMallocCall, IsSlicedPlaceCall, IsSlicedReadCall, IsSlicedRoomCall, IsSlicedSlotWordsCall, IsSlicedStepsCall, IsSlicedTotalsCall, IsSlicedWriteCall, IsStepCall};

    /// For C, opens a sliced heap without objects, with slices of at most `quantum` words (1 to
    /// 16,384), in a memory block of its own; the bound k of `s` is not used. Its handles are
    /// larger than `last`, or from 0 on if too few are larger. Returns `None` if out of memory.
    pub fn open(memory: Memory, s: &Settings, quantum: u32, last: u32) -> Option<Box<Held>>
        requires least { 1 ≤ quantum }
        requires most { quantum ≤ 16384 }
        ensures { IfSome result (λ b. IsFreshSlicedHeap (profile_of s.now) quantum last b.value) }
    {
        let alloc = Global::new(memory);
        let handles = Handles::new(alloc, s.proxies, last)?;
        let mut heap = SlicedHeap::closed(alloc);
        heap.open_heap(s, quantum).ok()?;
        let held = Held {
            heap,
            steps: 0,
            memory,
            handles,
        };
        Box::new(alloc, held).ok()
    }

    /// For C, makes an object of `bytes` zeros in the sliced heap and writes its handle into `handle`. Returns `DONE`,
    /// or the code of the refusal (`SliceRefusal`): `SIZE`, `PROXY`, `SPACE` or `BUSY`, and then `handle` and the
    /// objects are unchanged.
    pub fn malloc(&mut self, bytes: u32, handle: &mut u32) -> i32
        ensures { IsSlicedMallocCall self.old bytes handle.old result handle.new self.new }
    {
        let mut meter = Meter::for_library(self.memory);
        let answer = self.heap.malloc(bytes, meter.steps());
        self.steps = meter.lap();
        match answer {
            Ok(h) => {
                *handle = self.handles.handle_of(h.0);
                DONE
            }
            Err(cause) => of_refusal(cause),
        }
    }

    /// For C, frees an object, whose handle is stale then, and does the first slice of the job that
    /// this leaves. Returns `DONE`; else, with no object changed, `UNKNOWN` if the handle isn't
    /// live, or `BUSY` if it is live and a job is pending.
    pub fn free(&mut self, handle: u32) -> i32
        ensures { IsSlicedFreeCall self.old handle result self.new }
    {
        let number = self.handles.number_in(handle);
        let mut meter = Meter::for_library(self.memory);
        let answer = self.heap.free(Handle(number), meter.steps());
        self.steps = meter.lap();
        match answer {
            Ok(()) => {
                self.handles.raise(handle);
                DONE
            }
            Err(cause) => of_fault(cause),
        }
    }

    /// For C, does one slice of the pending job; nothing if none is pending. Always returns `DONE`.
    pub fn step(&mut self) -> i32
        ensures { IsStepCall self.old result self.new }
    {
        let mut meter = Meter::for_library(self.memory);
        self.heap.step(meter.steps());
        self.steps = meter.lap();
        DONE
    }

    /// For C, writes into `words` how many words the pending job has yet to clear or move; 0 if none is pending. Always
    /// returns `DONE`.
    pub fn left(&mut self, words: &mut u32) -> i32
        ensures { IsLeftCall self.old result words.new self.new }
    {
        *words = self.heap.left();
        DONE
    }

    /// For C, writes into `handle` the handle of the object that the pending job moves; `NONE` if it moves none, or no
    /// job is pending. Always returns `DONE`.
    pub fn moving(&mut self, handle: &mut u32) -> i32
        ensures { IsMovingCall self.old result handle.new self.new }
    {
        *handle = self.handles.of_moved(self.heap.moving());
        DONE
    }

    /// For C, writes the bytes into an object, from its byte `at` on, also while a job moves it. Returns `DONE`;
    /// `UNKNOWN` if the handle isn't live, or `RANGE` if `at` plus their number exceeds the object's length, and then
    /// no object changes.
    pub fn write(&mut self, handle: u32, at: u32, bytes: &[u8]) -> i32
        ensures { IsSlicedWriteCall self.old handle at bytes.now result self.new }
    {
        let number = self.handles.number_in(handle);
        let mut meter = Meter::for_library(self.memory);
        let answer = self.heap.write(Handle(number), at, bytes, meter.steps());
        self.steps = meter.lap();
        match answer {
            Ok(()) => DONE,
            Err(cause) => of_access(cause),
        }
    }

    /// For C, fills `out` with the bytes of an object from its byte `at` on, also while a job moves it. Returns `DONE`;
    /// `UNKNOWN` if the handle isn't live, or `RANGE` if `at` plus their number exceeds the object's length, and then
    /// `out` is unchanged.
    pub fn read(&mut self, handle: u32, at: u32, out: &mut [u8]) -> i32
        ensures { IsSlicedReadCall self.old handle at out.old result out.new self.new }
    {
        let number = self.handles.number_in(handle);
        let mut meter = Meter::for_library(self.memory);
        let answer = self.heap.read(Handle(number), at, out, meter.steps());
        self.steps = meter.lap();
        match answer {
            Ok(()) => DONE,
            Err(cause) => of_access(cause),
        }
    }

    /// For C, writes the length in bytes of a sliced heap's object into `bytes`. Returns `DONE`, or `UNKNOWN` if the
    /// handle isn't live; then `bytes` is unchanged.
    pub fn length(&mut self, handle: u32, bytes: &mut u32) -> i32
        ensures { IsSlicedLengthCall self.old handle bytes.old result bytes.new self.new }
    {
        let number = self.handles.number_in(handle);
        let mut meter = Meter::for_library(self.memory);
        let answer = self.heap.length(Handle(number), meter.steps());
        self.steps = meter.lap();
        match answer {
            Some(n) => {
                *bytes = n;
                DONE
            }
            None => UNKNOWN,
        }
    }

    /// For C's sliced heap, writes into `words` how many words an object's slot has: as many as the job of a free of it
    /// clears or moves. Returns `DONE`, or `UNKNOWN` if the handle isn't live; then `words` is unchanged.
    pub fn slot_words(&mut self, handle: u32, words: &mut u32) -> i32
        ensures { IsSlicedSlotWordsCall self.old handle words.old result words.new self.new }
    {
        let number = self.handles.number_in(handle);
        let mut meter = Meter::for_library(self.memory);
        let answer = self.heap.slot_words(Handle(number), meter.steps());
        self.steps = meter.lap();
        match answer {
            Some(n) => {
                *words = n;
                DONE
            }
            None => UNKNOWN,
        }
    }

    /// For C, writes the number, from 0 on, of the sliced heap's class of an object of `bytes` bytes into
    /// `class`. Returns `DONE`, or `SIZE` if the object needs more than a page; then `class` is unchanged.
    pub fn class_of(&mut self, bytes: u32, class: &mut u32) -> i32
        ensures { IsSlicedClassCall self.old bytes class.old result class.new self.new }
    {
        let mut meter = Meter::for_library(self.memory);
        let answer = self.heap.class_of(bytes, meter.steps());
        self.steps = meter.lap();
        match answer {
            Some(c) => {
                *class = c;
                DONE
            }
            None => SIZE,
        }
    }

    /// For C, writes the figures of a class of the sliced heap into `figures`; classes are numbered
    /// from 0. A pending job's slot counts as used. Returns `DONE`, or `UNKNOWN` if there is no such
    /// class; then `figures` is unchanged.
    pub fn figures(&mut self, class: u32, figures: &mut NphClass) -> i32
        ensures { IsSlicedFiguresCall self.old class figures.old result figures.new self.new }
    {
        match self.heap.figures(class) {
            Some(f) => {
                *figures = NphClass::of(f);
                DONE
            }
            None => UNKNOWN,
        }
    }

    /// For C, writes the figures of the whole sliced heap into `totals`. A pending job's slot counts as used and as
    /// taken. Always returns `DONE`.
    pub fn totals(&mut self, totals: &mut NphHeapTotals) -> i32
        ensures { IsSlicedTotalsCall self.old result totals.new self.new }
    {
        let all = self.heap.totals();
        *totals = NphHeapTotals::of(all);
        DONE
    }

    /// Returns the code that a sliced heap's malloc of `bytes` bytes would return now; makes no object.
    pub fn has_room(&mut self, bytes: u32) -> i32
        ensures { IsSlicedRoomCall self.old bytes result self.new }
    {
        let mut meter = Meter::for_library(self.memory);
        let answer = self.heap.has_room(bytes, meter.steps());
        self.steps = meter.lap();
        match answer {
            Ok(()) => DONE,
            Err(cause) => of_refusal(cause),
        }
    }

    /// For C, writes the steps of the sliced heap's last call that counts them into `steps`; 0 if
    /// there was none. Always returns `DONE`.
    pub fn last_steps(&mut self, steps: &mut u64) -> i32
        ensures { IsSlicedStepsCall self.old result steps.new self.new }
    {
        *steps = self.steps;
        DONE
    }

    /// For C, writes the address of a sliced heap's object into `place`, in words from the start of the region. A job
    /// that moves the object moves it there. Returns `DONE`, or `UNKNOWN` if the handle isn't live; then `place` is
    /// unchanged.
    pub fn place(&mut self, handle: u32, place: &mut u32) -> i32
        ensures { IsSlicedPlaceCall self.old handle place.old result place.new self.new }
    {
        let number = self.handles.number_in(handle);
        let mut meter = Meter::for_library(self.memory);
        let answer = self.heap.place(Handle(number), meter.steps());
        self.steps = meter.lap();
        match answer {
            Some(at) => {
                *place = at;
                DONE
            }
            None => UNKNOWN,
        }
    }

    /// Returns whether C's sliced heap has a pending job.
    pub(crate) fn has_job(&self) -> bool
        ensures { result ≡ is_some (job_slot self.now.heap.job) }
    {
        self.heap.has_job()
    }

    /// For C, the largest of the sliced heap's handles.
    pub(crate) fn last_handle(&self) -> u32
        ensures { result ≡ largest self.now.handles }
    {
        self.handles.largest()
    }
}

/// For C, the code of a sliced heap's refused malloc.
fn of_refusal(cause: SliceRefusal) -> i32
    ensures { result ≡ slice_refusal_code cause }
{
    match cause {
        SliceRefusal::Size => SIZE,
        SliceRefusal::Proxy => PROXY,
        SliceRefusal::Space => SPACE,
        SliceRefusal::Busy => BUSY,
    }
}

/// For C, the code of a sliced heap's refused free.
fn of_fault(cause: SliceFault) -> i32
    ensures { result ≡ slice_fault_code cause }
{
    match cause {
        SliceFault::Unknown => UNKNOWN,
        SliceFault::Busy => BUSY,
    }
}
