//! `Held`: an open heap of any manager with the steps of its last call that counts any, and the handles that C has, for a C
//! library. Each call returns a code, and writes its other results through references.
ghost use Rattle.std.specs.Prelude.{◌≡◌, IfSome, IsSome};
ghost use Rattle.cf_base.specs.Settings.{profile_of};

use crate::counts::{
    count, count_move, count_peaks, count_refusal, count_resize_fault, count_resized,
};
use crate::of_kind::OfKind;
use c_base::{
    DONE, Handles, NphClass, NphCounted, NphFreed, NphHeapTotals, NphResized, UNKNOWN, of_access,
    of_refusal, of_resize,
};
use cf_base::{Handle, Settings};
use std::alloc::Global;
use std::marker::Model;
use std::rt::Memory;
use step_ledger::Meter;

/// An open heap of a manager (the held manager), the steps of its last call that counts any, C's
/// handle of each object's number, and what the heap has counted since its opening. A handle is
/// stale if it is not the one that its number has now. A call on a stale handle is a call on the
/// number `NONE`, which is never live. Lending, returning, `figures`, `counts`, `set_bound` and
/// `last_steps` count no steps, and leave `steps` unchanged. Each other call sets `steps` to the
/// steps that it took. It counts them on a ledger of its own, made from `memory`, so that the
/// compiler keeps the count in a register.
#[derive(Drop)]
pub struct Held<H: OfKind> {
    pub(crate) heap: H,
    pub(crate) steps: u64,
    pub(crate) memory: Memory,
    pub(crate) handles: Handles,
    pub(crate) counts: NphCounted,
}

impl<H: OfKind> Model for Held<H> {
    ghost use Rattle.held_heap.specs.HeldState.{HeldState, IsOpenOfKind, held_code};

    ghost Value = { HeldState };

    ghost coded = { held_code };

    ghost view = { λ h. record { heap = H.state h.heap; steps = h.steps; handles = h.handles; counts = h.counts } };

    ghost invariant = { λ h. IsOpenOfKind H.of_kind (H.state h.heap) };
}

impl<H: OfKind> Held<H> {
    ghost use Rattle.c_base.specs.Handles.{largest};
    ghost use Rattle.held_heap.specs.Calls.{IsFiguresCall, IsFreeCall, IsFreshHeap, IsLengthCall, IsMallocCall, IsPlaceCall, IsReadCall, IsResizeCall, IsRoomCall, IsStepsCall, IsTotalsCall, IsWriteCall};

    /// Opens the manager `heap` with the settings `s`, without objects, in a memory block of its
    /// own. `heap` promises an order and is of its type's kind. C's handles are larger than `last`,
    /// or from 0 on if too few are larger. Returns `None` if out of memory.
    pub fn open(memory: Memory, mut heap: H, s: &Settings, last: u32) -> Option<Box<Held<H>>>
        requires order { IsSome (H.state heap).order }
        requires kind { (H.state heap).kind ≡ H.of_kind }
        ensures { IfSome result (λ b. IsFreshHeap (H.state heap).kind (profile_of s.now) last b.value) }
    {
        let alloc = Global::new(memory);
        let handles = Handles::new(alloc, s.proxies, last)?;
        heap.open_heap(s).ok()?;
        let counts = NphCounted {
            most_asked: 0,
            least_free: heap.free_left(),
            moves: 0,
            unknown: 0,
            size: 0,
            proxy: 0,
            space: 0,
        };
        let held = Held {
            heap,
            steps: 0,
            memory,
            handles,
            counts,
        };
        Box::new(alloc, held).ok()
    }

    /// Makes an object of `bytes` zeros by the held manager and writes its handle into `handle`. Returns `DONE`, or the
    /// code of the refusal: `SIZE`, `PROXY` or `SPACE`. After a refusal `handle` is unchanged.
    pub fn malloc(&mut self, bytes: u32, handle: &mut u32) -> i32
        ensures { IsMallocCall H.most self.old bytes handle.old result handle.new self.new }
    {
        let mut meter = Meter::for_library(self.memory);
        let answer = self.heap.malloc(bytes, meter.steps());
        self.steps = meter.lap();
        match answer {
            Ok(h) => {
                count_peaks(&self.heap, &mut self.counts);
                *handle = self.handles.handle_of(h.0);
                DONE
            }
            Err(cause) => {
                count_refusal(&mut self.counts, cause);
                of_refusal(cause)
            }
        }
    }

    /// Frees an object of the held manager, whose handle is stale then. Writes into `freed` how
    /// many words its slot or block has, and the handle of the object that moved there, or `NONE`.
    /// Returns `DONE`, or `UNKNOWN` if the handle isn't live; then `freed` is unchanged.
    pub fn free(&mut self, handle: u32, freed: &mut NphFreed) -> i32
        ensures { IsFreeCall H.most self.old handle freed.old result freed.new self.new }
    {
        let number = self.handles.number_in(handle);
        let mut meter = Meter::for_library(self.memory);
        let answer = self.heap.free(Handle(number), meter.steps());
        self.steps = meter.lap();
        match answer {
            Ok(done) => {
                self.handles.raise(handle);
                count_move(&mut self.counts, done.moved);
                *freed = NphFreed {
                    slot_words: done.slot_words,
                    moved: self.handles.of_moved(done.moved),
                };
                DONE
            }
            Err(_) => {
                count(&mut self.counts.unknown);
                UNKNOWN
            }
        }
    }

    /// Changes the length of a held manager's object to `bytes` bytes. Writes into `resized` how
    /// many words its slot had before and has after, and the handle of the other object that moved,
    /// or `NONE`. Returns `DONE`, or the code of the refusal: `UNKNOWN`, `KIND`, `SIZE` or `SPACE`.
    /// After a refusal `resized` is unchanged.
    pub fn resize(&mut self, handle: u32, bytes: u32, resized: &mut NphResized) -> i32
        ensures { IsResizeCall H.most self.old handle bytes resized.old result resized.new self.new }
    {
        let number = self.handles.number_in(handle);
        let mut meter = Meter::for_library(self.memory);
        let answer = self.heap.resize(Handle(number), bytes, meter.steps());
        self.steps = meter.lap();
        match answer {
            Ok(done) => {
                count_resized(&self.heap, &mut self.counts, done.moved);
                *resized = NphResized {
                    old_slot_words: done.old_slot_words,
                    slot_words: done.slot_words,
                    moved: self.handles.of_moved(done.moved),
                };
                DONE
            }
            Err(cause) => {
                count_resize_fault(&mut self.counts, cause);
                of_resize(cause)
            }
        }
    }

    /// Writes the bytes into an object of the held manager, from its byte `at` on. Returns `DONE`; `UNKNOWN` if the
    /// handle isn't live, or `RANGE` if `at` plus the number of bytes exceeds the object's length, and then no object
    /// changes.
    pub fn write(&mut self, handle: u32, at: u32, bytes: &[u8]) -> i32
        ensures { IsWriteCall H.most self.old handle at bytes.now result self.new }
    {
        let number = self.handles.number_in(handle);
        let mut meter = Meter::for_library(self.memory);
        let answer = self.heap.write(Handle(number), at, bytes, meter.steps());
        self.steps = meter.lap();
        match answer {
            Ok(()) => DONE,
            Err(cause) => of_access(cause),
        }
    }

    /// Fills `out` with the bytes of an object of the held manager, from its byte `at` on. Returns `DONE`; `UNKNOWN` if
    /// the handle isn't live, or `RANGE` if `at` plus the length of `out` exceeds the object's length, and then `out`
    /// is unchanged.
    pub fn read(&mut self, handle: u32, at: u32, out: &mut [u8]) -> i32
        ensures { IsReadCall H.most self.old handle at out.old result out.new self.new }
    {
        let number = self.handles.number_in(handle);
        let mut meter = Meter::for_library(self.memory);
        let answer = self.heap.read(Handle(number), at, out, meter.steps());
        self.steps = meter.lap();
        match answer {
            Ok(()) => DONE,
            Err(cause) => of_access(cause),
        }
    }

    /// Writes the length in bytes of a held manager's object into `bytes`. Returns `DONE`, or `UNKNOWN` if the handle
    /// isn't live; then `bytes` is unchanged.
    pub fn length(&mut self, handle: u32, bytes: &mut u32) -> i32
        ensures { IsLengthCall H.of_kind self.old handle bytes.old result bytes.new self.new }
    {
        let number = self.handles.number_in(handle);
        let mut meter = Meter::for_library(self.memory);
        let answer = self.heap.length(Handle(number), meter.steps());
        self.steps = meter.lap();
        match answer {
            Some(n) => {
                *bytes = n;
                DONE
            }
            None => UNKNOWN,
        }
    }

    /// Writes the address, in words, of a held manager's object into `place`. Returns `DONE`, or
    /// `UNKNOWN` if the handle isn't live; then `place` is unchanged.
    pub fn place(&mut self, handle: u32, place: &mut u32) -> i32
        ensures { IsPlaceCall self.old handle place.old result place.new self.new }
    {
        let number = self.handles.number_in(handle);
        let mut meter = Meter::for_library(self.memory);
        let answer = self.heap.place(Handle(number), meter.steps());
        self.steps = meter.lap();
        match answer {
            Some(at) => {
                *place = at;
                DONE
            }
            None => UNKNOWN,
        }
    }

    /// Returns the code that the held manager's malloc of `bytes` bytes would return now; makes no object.
    pub fn has_room(&mut self, bytes: u32) -> i32
        ensures { IsRoomCall H.most self.old bytes result self.new }
    {
        let mut meter = Meter::for_library(self.memory);
        let answer = self.heap.has_room(bytes, meter.steps());
        self.steps = meter.lap();
        match answer {
            Ok(()) => DONE,
            Err(cause) => of_refusal(cause),
        }
    }

    /// Writes the held manager's figures of the class with the number `class`, from 0, into
    /// `figures`; counts no steps. Returns `DONE`, or `UNKNOWN` if there is no such class; then
    /// `figures` is unchanged.
    pub fn figures(&mut self, class: u32, figures: &mut NphClass) -> i32
        ensures { IsFiguresCall self.old class figures.old result figures.new self.new }
    {
        match self.heap.figures(class) {
            Some(f) => {
                *figures = NphClass {
                    slot_words: f.slot_words,
                    slots: f.slots,
                    live: f.live,
                    pages: f.pages,
                    not_full: f.not_full,
                };
                DONE
            }
            None => UNKNOWN,
        }
    }

    /// Writes the held manager's figures of the whole heap into `totals`. Always returns `DONE`.
    pub fn totals(&mut self, totals: &mut NphHeapTotals) -> i32
        ensures { IsTotalsCall H.most self.old result totals.new self.new }
    {
        let mut meter = Meter::for_library(self.memory);
        let all = self.heap.totals(meter.steps());
        self.steps = meter.lap();
        *totals = NphHeapTotals {
            asked: all.asked,
            taken: all.taken,
            held: all.held,
            live: all.live,
            used: all.used,
            free: all.free,
            largest: all.largest,
        };
        DONE
    }

    /// Writes the steps of the held manager's last call that counts them into `steps`; 0 if there was none. Always
    /// returns `DONE`.
    pub fn last_steps(&mut self, steps: &mut u64) -> i32
        ensures { IsStepsCall self.old result steps.new self.new }
    {
        *steps = self.steps;
        DONE
    }

    /// Returns the largest handle that a number of a held manager has, with or without an object.
    pub(crate) fn last_handle(&self) -> u32
        ensures { result ≡ largest self.now.handles }
    {
        self.handles.largest()
    }
}
