//! `Held`: an open heap of long objects with the steps of its last call that counts them and the handles that C has. Each
//! call from C returns a code, and writes its other results through references.

use c_base::{DONE, Handles, NphClass, NphHeapTotals, Openable, UNKNOWN, of_access, of_refusal};
use cf_base::{BytesNeeded, Handle, Settings};
use cf_model::{Manager, StepBounds};
use large_objects::LargeHeap;
use moving_heap::MovingHeap;
use std::alloc::Global;
use std::marker::Model;
use std::mem::size_of;
use std::rt::Memory;
use step_ledger::Meter;

/// The bytes of the memory block of an open heap.
const HELD_BYTES: u64 = 1512;

const _: () = prove!(size_of::<Held>() == 1512);

/// An open heap of long objects over the moving heap, the steps of its last call that counts any,
/// and C's handle of each object's number. A handle is stale if it is not the one that its number
/// has now. A call on a stale handle is a call on the number `NONE`, which is never live. `malloc`,
/// `free`, `write`, `read` and `totals` count steps, each on a ledger of its own that it makes from
/// `memory`; the others leave `steps` unchanged.
#[derive(Drop)]
pub struct Held {
    heap: LargeHeap<MovingHeap>,
    steps: u64,
    memory: Memory,
    handles: Handles,
}

impl Model for Held {
    ghost use Rattle.std.specs.Prelude.{IsTrue};
    ghost use Rattle.large_objects.specs.LargeCosts.{AreInnerCosts, moving_costs};
    ghost use Rattle.norphuen_large.specs.HeldState.{LargeHeldState, large_held_code};

    ghost Value = { LargeHeldState };

    ghost coded = { large_held_code };

    ghost view = { λ h. record { heap = h.heap; steps = h.steps; handles = h.handles } };

    ghost invariant = { λ h. IsTrue h.heap.is_open × AreInnerCosts h.heap.inner ⟦<MovingHeap as StepBounds>⟧.most moving_costs };
}

impl Openable for Held {
    ghost use Rattle.norphuen_large.specs.CallerHeap.{held_opening};

    ghost opening = { held_opening };

    /// For C, the memory that opening a heap of long objects asks for.
    fn bytes_needed(s: &Settings) -> BytesNeeded {
        let heap = LargeHeap::<MovingHeap>::bytes_needed(MovingHeap::bytes_needed(s), s);
        let handles = Handles::bytes_needed(s.proxies);
        heap.and(handles.and(BytesNeeded::block(HELD_BYTES)))
    }

    /// Opens an empty heap of long objects for C. Returns `None` if out of memory.
    fn open(memory: Memory, s: &Settings, last: u32) -> Option<Box<Held, Global>> {
        let alloc = Global::new(memory);
        let handles = Handles::new(alloc, s.proxies, last)?;
        let mut heap = LargeHeap::new(alloc, MovingHeap::closed(alloc));
        heap.open_heap(s).ok()?;
        let held = Held {
            heap,
            steps: 0,
            memory,
            handles,
        };
        Box::new(alloc, held).ok()
    }

    /// The largest of the handles that C's heap of long objects has now.
    fn last(&self) -> u32 {
        self.handles.largest()
    }
}

impl Held {
    ghost use Rattle.norphuen_large.specs.Calls.{IsLargeFiguresCall, IsLargeFreeCall, IsLargeLengthCall, IsLargeMallocCall, IsLargeReadCall, IsLargeStepsCall, IsLargeTotalsCall, IsLargeWriteCall};

    /// For C, makes an object of `bytes` zeros, long or short, and writes its handle into `handle`. Returns `DONE`, or
    /// the code of the cause for which `LargeHeap::malloc` refuses: `SIZE`, `PROXY` or `SPACE`. After a refusal the heap
    /// and `handle` are unchanged.
    pub fn malloc(&mut self, bytes: u32, handle: &mut u32) -> i32
        ensures { IsLargeMallocCall self.old bytes handle.old result handle.new self.new }
    {
        let mut meter = Meter::for_library(self.memory);
        let answer = self.heap.malloc(bytes, &mut meter);
        self.steps = meter.lap();
        match answer {
            Ok(h) => {
                *handle = self.handles.handle_of(h.0);
                DONE
            }
            Err(cause) => of_refusal(cause),
        }
    }

    /// Frees C's object, long or short, whose handle is stale then. Returns `DONE`, or `UNKNOWN` if
    /// the handle isn't live, and then no object changes.
    pub fn free(&mut self, handle: u32) -> i32
        ensures { IsLargeFreeCall self.old handle result self.new }
    {
        let number = self.handles.number_in(handle);
        let mut meter = Meter::for_library(self.memory);
        let answer = self.heap.free(Handle(number), &mut meter);
        self.steps = meter.lap();
        match answer {
            Ok(()) => {
                self.handles.raise(handle);
                DONE
            }
            Err(_) => UNKNOWN,
        }
    }

    /// Writes the bytes into C's object, long or short, from its byte `at` on. Returns `DONE`; `UNKNOWN` if the handle
    /// isn't live, or `RANGE` if `at` plus their number exceeds the object's length, and then no object changes.
    pub fn write(&mut self, handle: u32, at: u32, bytes: &[u8]) -> i32
        ensures { IsLargeWriteCall self.old handle at bytes.now result self.new }
    {
        let number = self.handles.number_in(handle);
        let mut meter = Meter::for_library(self.memory);
        let answer = self.heap.write(Handle(number), at, bytes, &mut meter);
        self.steps = meter.lap();
        match answer {
            Ok(()) => DONE,
            Err(cause) => of_access(cause),
        }
    }

    /// Fills `out` with the bytes of C's object, long or short, from its byte `at` on. Returns `DONE`; `UNKNOWN` if the
    /// handle isn't live, or `RANGE` if `at` plus their number exceeds the object's length, and then `out` is
    /// unchanged.
    pub fn read(&mut self, handle: u32, at: u32, out: &mut [u8]) -> i32
        ensures { IsLargeReadCall self.old handle at out.old result out.new self.new }
    {
        let number = self.handles.number_in(handle);
        let mut meter = Meter::for_library(self.memory);
        let answer = self.heap.read(Handle(number), at, out, &mut meter);
        self.steps = meter.lap();
        match answer {
            Ok(()) => DONE,
            Err(cause) => of_access(cause),
        }
    }

    /// For C, writes the object's length in bytes, also if long, into `bytes`. Returns `DONE`, or `UNKNOWN` if the
    /// handle isn't live; then `bytes` is unchanged.
    pub fn length(&mut self, handle: u32, bytes: &mut u32) -> i32
        ensures { IsLargeLengthCall self.old handle bytes.old result bytes.new self.new }
    {
        match self.heap.length_of(Handle(self.handles.number_in(handle))) {
            Some(n) => {
                *bytes = n;
                DONE
            }
            None => UNKNOWN,
        }
    }

    /// For C, writes the figures of a class into `figures`; classes are numbered from 0, and each part and each spine
    /// counts as an object. Returns `DONE`, or `UNKNOWN` if there is no such class; then `figures` is unchanged.
    pub fn figures(&mut self, class: u32, figures: &mut NphClass) -> i32
        ensures { IsLargeFiguresCall self.old class figures.old result figures.new self.new }
    {
        // For its contract: an open heap keeps its rules.
        let _ = self.heap.is_open();
        match self.heap.inner().figures(class) {
            Some(f) => {
                *figures = NphClass::of(f);
                DONE
            }
            None => UNKNOWN,
        }
    }

    /// For C, writes the figures of the whole heap into `totals`; each part and each spine counts as an
    /// object. Always returns `DONE`.
    pub fn totals(&mut self, totals: &mut NphHeapTotals) -> i32
        ensures { IsLargeTotalsCall self.old result totals.new self.new }
    {
        // For its contract: an open heap keeps its rules.
        let _ = self.heap.is_open();
        let mut meter = Meter::for_library(self.memory);
        let all = self.heap.inner().totals(meter.steps());
        self.steps = meter.lap();
        *totals = NphHeapTotals::of(all);
        DONE
    }

    /// For C, writes the steps of the last call on long objects that counts them into `steps`; 0 if
    /// there was none. Always returns `DONE`.
    pub fn last_steps(&mut self, steps: &mut u64) -> i32
        ensures { IsLargeStepsCall self.old result steps.new self.new }
    {
        *steps = self.steps;
        DONE
    }
}
