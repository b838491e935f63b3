//! `SlicedHeap`, the sliced heap, closed or open, with its public calls. `OpenHeap` does all the
//! work.
ghost use Rattle.std.specs.Prelude.{◌≡◌, ◌+◌, ◌^◌, ◌<◌, ◌≤◌, if◌then◌else◌, is_some, length, option_map, slice_get, IsErr, IsTrue, OnErr, OnOk};
ghost use Rattle.cf_model.specs.Costs.{words_touched};
ghost use Rattle.slice_model.specs.Ordered.{HappensInOrder};
ghost use Rattle.slice_model.specs.Runs.{Happens, Free, Malloc, Read, Step, Write};
ghost use Rattle.slice_model.specs.State.{job_slot, left_of};
ghost use Rattle.step_ledger.specs.Counting.{RoseAtMost, RoseBy};
ghost use Rattle.sliced_heap.specs.Access.{access_fault, bytes_or_fault, place_in, sliced_length_in};
ghost use Rattle.cf_base.specs.Classes.{class_of};
ghost use Rattle.cf_base.specs.Settings.{profile_of};
ghost use Rattle.cf_base.specs.declared.results.Handle.{Handle};
ghost use Rattle.sliced_heap.specs.Needed.{sliced_bytes};
ghost use Rattle.sliced_heap.specs.Costs.{slice_cost, sliced_access_steps, sliced_free_cost, sliced_length_steps, sliced_malloc_cost};
ghost use Rattle.sliced_heap.specs.Figures.{sliced_figures_in, sliced_totals_in, sliced_words_steps, slot_words_in};
ghost use Rattle.sliced_heap.specs.Room.{IsRoomAnswer, mover};
ghost use Rattle.sliced_heap.specs.Shown.{KeepsSlicedRules, StaysSlicedOpen, closed_sliced, opened_state, plan_in, working_in};
ghost use Rattle.sliced_heap.specs.Steps.{fault_in};

use crate::open_heap::OpenHeap;
use cf_base::{AccessFault, BytesNeeded, Figures, Handle, OutOfMemory, Settings, Totals};
use slice_model::{SliceFault, SliceRefusal};
use std::alloc::Global;
use std::marker::Model;
use step_ledger::Steps;

/// A moving heap whose frees are done in slices. A free leaves its long work as a job: to clear the
/// freed slot, or to move another object into it. The free and each `step` do a slice of the job,
/// at most a quantum of words. Every class has at most one partly full page if a pending job's slot
/// counts as used; if it counts as free, the job's class may have two. `inner` is none while the
/// heap is closed, and `alloc` is where open heaps allocate. All calls but `closed`,
/// `bytes_needed`, `is_open` and `open_heap` require that the heap is open.
#[derive(Drop)]
pub struct SlicedHeap {
    alloc: Global,
    inner: Option<OpenHeap>,
}

impl Model for SlicedHeap {
    ghost use Rattle.sliced_heap.specs.Shown.{SlicedState, sliced_code};

    ghost Value = { SlicedState };

    ghost coded = { sliced_code };

    ghost use Rattle.sliced_heap.specs.Shown.{IsValidSlicedIn, sliced_shown};

    ghost view = { λ h. sliced_shown h.inner };

    ghost invariant = { λ h. IsValidSlicedIn h.inner };
}

impl SlicedHeap {
    /// Returns a closed sliced heap, which has allocated nothing.
    pub fn closed(alloc: Global) -> SlicedHeap
        ensures { result ≡ closed_sliced }
    {
        SlicedHeap { alloc, inner: None }
    }

    /// The memory that opening a sliced heap asks for. The bytes of the `SlicedHeap` itself, which its owner keeps,
    /// aren't counted.
    pub fn bytes_needed(s: &Settings) -> BytesNeeded
        ensures needed { result ≡ sliced_bytes (profile_of s.now) }
        ensures few { result.total < 2 ^ 44 }
    {
        OpenHeap::bytes_needed(s)
    }

    /// Returns whether the sliced heap is open. The state of an open heap keeps the rules of `KeepsSlicedRules`.
    pub fn is_open(&self) -> bool
        ensures value { result ≡ self.now.is_open }
        ensures rules { IsTrue result → KeepsSlicedRules self.now }
    {
        self.inner.is_some()
    }

    /// `SlicedHeap`: opens the sliced heap without objects, with the settings `s` and slices of at
    /// most `quantum` words (1 to 16,384). An open heap loses its objects. Each class has bound 1,
    /// whatever bound `s` has. All memory is allocated here. If this fails with `OutOfMemory`, the
    /// heap is closed, and may be opened again.
    pub fn open_heap(&mut self, s: &Settings, quantum: u32) -> Result<(), OutOfMemory>
        requires least { 1 ≤ quantum }
        requires most { quantum ≤ 16384 }
        ensures ok { OnOk result (self.new ≡ opened_state s.now quantum) }
        ensures rules { OnOk result (KeepsSlicedRules self.new) }
        ensures err { OnErr result (self.new ≡ closed_sliced) }
    {
        self.inner = None;
        self.inner = Some(OpenHeap::new(self.alloc, s, quantum)?);
        Ok(())
    }

    /// Makes an object of `bytes` bytes, all zero, in the `SlicedHeap`, under a handle that wasn't
    /// live. Fails with `Size` if it needs more than a page, else with `Proxy` if every proxy is in
    /// use, else with `Space` if the objects with it would need more pages than the heap has, else
    /// with `Busy` if there is no slot for it while a job is pending. A refusal changes nothing.
    /// The object gets the next spare number of the order. It gets the lowest free slot of its
    /// class's first partly full page; if the class has no such page, slot 0 of the first free
    /// page. The slot of a pending job counts as used. Costs at most 17 steps.
    pub fn malloc(&mut self, bytes: u32, steps: &mut Steps) -> Result<Handle, SliceRefusal>
        requires open { IsTrue self.old.is_open }
        ensures step { Happens (plan_in self.old) (working_in self.old) (Malloc bytes result) (working_in self.new) }
        ensures ordered { HappensInOrder (plan_in self.old) (working_in self.old) (Malloc bytes result) (working_in self.new) self.old.order self.new.order }
        ensures same { StaysSlicedOpen self.old self.new }
        ensures rules { KeepsSlicedRules self.new }
        ensures steps { RoseBy steps.old steps.new (sliced_malloc_cost (plan_in self.old) (working_in self.old).state self.old.order bytes result) }
        ensures bound { RoseAtMost steps.old steps.new 17 }
    {
        match &mut self.inner {
            Some(open) => open.malloc(bytes, steps),
            None => unreachable!(),
        }
    }

    /// Returns what a `SlicedHeap`'s malloc of `bytes` bytes would return now, without the handle:
    /// `Ok`, or its refusal. Changes nothing, and costs one step.
    pub fn has_room(&self, bytes: u32, steps: &mut Steps) -> Result<(), SliceRefusal>
        requires open { IsTrue self.now.is_open }
        ensures value { IsRoomAnswer (plan_in self.now) (working_in self.now).state bytes result }
        ensures steps { RoseBy steps.old steps.new 1 }
    {
        match &self.inner {
            Some(open) => open.has_room(bytes, steps),
            None => unreachable!(),
        }
    }

    /// `SlicedHeap`: frees the object of handle `h`, and does the first slice of the job that this
    /// leaves. Fails with `Unknown` if the handle isn't live, else with `Busy` if a job is pending.
    /// A refusal changes nothing. If the class would have two partly full pages, another object
    /// moves into the freed slot: the one at the lowest used slot of the class's first partly full
    /// page. The slot that it leaves, or the freed slot if no object moves, stays used until the
    /// job ends. Costs at most 23 steps plus the quantum.
    pub fn free(&mut self, h: Handle, steps: &mut Steps) -> Result<(), SliceFault>
        requires open { IsTrue self.old.is_open }
        ensures step { Happens (plan_in self.old) (working_in self.old) (Free h.0 (fault_in result)) (working_in self.new) }
        ensures ordered { HappensInOrder (plan_in self.old) (working_in self.old) (Free h.0 (fault_in result)) (working_in self.new) self.old.order self.new.order }
        ensures same { StaysSlicedOpen self.old self.new }
        ensures rules { KeepsSlicedRules self.new }
        ensures steps { RoseBy steps.old steps.new (sliced_free_cost (plan_in self.old) (working_in self.old).state self.old.order h.0 (fault_in result)) }
        ensures bound { RoseAtMost steps.old steps.new (23 + self.old.quantum) }
    {
        match &mut self.inner {
            Some(open) => open.free(h, steps),
            None => unreachable!(),
        }
    }

    /// `SlicedHeap`: does one slice of the pending job; changes nothing if none is pending. When
    /// the job's last word is done, its slot becomes free, unless its class would then have two
    /// partly full pages. In that case the next job moves an object into the slot: the one at the
    /// lowest used slot of the class's first partly full page. Costs at most 15 steps plus the
    /// quantum.
    pub fn step(&mut self, steps: &mut Steps)
        requires open { IsTrue self.old.is_open }
        ensures step { Happens (plan_in self.old) (working_in self.old) Step (working_in self.new) }
        ensures ordered { HappensInOrder (plan_in self.old) (working_in self.old) Step (working_in self.new) self.old.order self.new.order }
        ensures same { StaysSlicedOpen self.old self.new }
        ensures rules { KeepsSlicedRules self.new }
        ensures steps { RoseBy steps.old steps.new (slice_cost (plan_in self.old) (working_in self.old).state) }
        ensures bound { RoseAtMost steps.old steps.new (15 + self.old.quantum) }
    {
        match &mut self.inner {
            Some(open) => open.step(steps),
            None => unreachable!(),
        }
    }

    /// `SlicedHeap`: the number of words that the pending job has yet to clear or move; 0 if none is pending.
    pub fn left(&self) -> u32
        requires open { IsTrue self.now.is_open }
        ensures { result ≡ left_of (plan_in self.now) (working_in self.now).state }
    {
        match &self.inner {
            Some(open) => open.left(),
            None => unreachable!(),
        }
    }

    /// `SlicedHeap`: returns whether a job is pending.
    pub fn has_job(&self) -> bool
        requires open { IsTrue self.now.is_open }
        ensures { result ≡ is_some (job_slot self.now.job) }
    {
        match &self.inner {
            Some(open) => open.has_job(),
            None => unreachable!(),
        }
    }

    /// `SlicedHeap`: the object that the pending job moves; `None` if it moves none, or no job is pending.
    pub fn moving(&self) -> Option<Handle>
        requires open { IsTrue self.now.is_open }
        ensures { option_map (λ (h : Handle). h.0) result ≡ mover self.now.job }
    {
        match &self.inner {
            Some(open) => open.moving(),
            None => unreachable!(),
        }
    }

    /// `SlicedHeap`: the address of object `h`, in words from the start of the region; `None` if
    /// the handle is not live. A job that moves the object moves it to this address. Costs one
    /// step.
    pub fn place(&self, h: Handle, steps: &mut Steps) -> Option<u32>
        requires open { IsTrue self.now.is_open }
        ensures value { result ≡ place_in self.now.held h.0 }
        ensures steps { RoseBy steps.old steps.new 1 }
    {
        match &self.inner {
            Some(open) => open.place(h, steps),
            None => unreachable!(),
        }
    }

    /// `SlicedHeap`: the length of object `h` in bytes, also while a job moves it; `None` if the
    /// handle is not live. Costs two steps; one if not live.
    pub fn length(&self, h: Handle, steps: &mut Steps) -> Option<u32>
        requires open { IsTrue self.now.is_open }
        ensures value { result ≡ sliced_length_in self.now.held h.0 }
        ensures steps { RoseBy steps.old steps.new (sliced_length_steps result) }
    {
        match &self.inner {
            Some(open) => open.length(h, steps),
            None => unreachable!(),
        }
    }

    /// `SlicedHeap`: the number of words of the slot of object `h`, also while a job moves the
    /// object; `None` if the handle is not live. Costs three steps; one if not live.
    pub fn slot_words(&self, h: Handle, steps: &mut Steps) -> Option<u32>
        requires open { IsTrue self.now.is_open }
        ensures value { result ≡ slot_words_in (plan_in self.now) self.now.held h.0 }
        ensures steps { RoseBy steps.old steps.new (sliced_words_steps result) }
    {
        match &self.inner {
            Some(open) => open.slot_words(h, steps),
            None => unreachable!(),
        }
    }

    /// The number, from 0, of the class of an object of `bytes` bytes in a `SlicedHeap`; `None` if
    /// the object needs more than a page. Costs one step.
    pub fn class_of(&self, bytes: u32, steps: &mut Steps) -> Option<u32>
        requires open { IsTrue self.now.is_open }
        ensures value { result ≡ class_of (plan_in self.now).paging.sizes bytes }
        ensures steps { RoseBy steps.old steps.new 1 }
    {
        match &self.inner {
            Some(open) => open.class_of(bytes, steps),
            None => unreachable!(),
        }
    }

    /// The figures of size class `c` of a `SlicedHeap`: its slot size in words, slots of a page,
    /// live objects, pages and partly full pages. `None` if there is no such class. The slot of a
    /// pending job counts as used, but not as live.
    pub fn figures(&self, c: u32) -> Option<Figures>
        requires open { IsTrue self.now.is_open }
        ensures { result ≡ sliced_figures_in (plan_in self.now) (working_in self.now).state c }
    {
        match &self.inner {
            Some(open) => open.figures(c),
            None => unreachable!(),
        }
    }

    /// The figures of the whole `SlicedHeap`: live objects, their bytes and those of their slots,
    /// the used pages and their bytes, the free pages, and the words of a page if one is free, else
    /// 0. The slot of a pending job counts as used, and its bytes as taken, but neither as live nor
    /// as asked for.
    pub fn totals(&self) -> Totals
        requires open { IsTrue self.now.is_open }
        ensures { result ≡ sliced_totals_in (plan_in self.now) (working_in self.now).state }
    {
        match &self.inner {
            Some(open) => open.totals(),
            None => unreachable!(),
        }
    }

    /// `SlicedHeap`: fills `out` with the bytes of object `h` from byte `at` on, also while a job moves the object.
    /// Fails, with `out` unchanged, with `Unknown` if the handle is not live, else with `Range` if `at` plus their
    /// number exceeds the object's length. Costs at most two steps, and one for each word that holds one of the
    /// bytes.
    pub fn read(
        &self,
        h: Handle,
        at: u32,
        out: &mut [u8],
        steps: &mut Steps,
    ) -> Result<(), AccessFault>
        requires open { IsTrue self.now.is_open }
        ensures step { Happens (plan_in self.now) (working_in self.now) (Read (record { number = h.0; from = at }) (length out.old)
            (bytes_or_fault result out.new)) (working_in self.now) }
        ensures refused { IsErr result → out.new ≡ out.old }
        ensures steps { RoseBy steps.old steps.new (sliced_access_steps result at (length out.old)) }
        ensures bound { RoseAtMost steps.old steps.new (2 + words_touched at (length out.old)) }
    {
        match &self.inner {
            Some(open) => open.read(h, at, out, steps),
            None => unreachable!(),
        }
    }

    /// `SlicedHeap`: writes `bytes` into object `h` from byte `at` on, also while a job moves the object, and
    /// changes nothing else. Fails, with nothing changed, with `Unknown` if the handle is not live, else with
    /// `Range` if `at` plus their number exceeds the object's length. Costs at most two steps, and one for each
    /// word that holds one of the bytes.
    pub fn write(
        &mut self,
        h: Handle,
        at: u32,
        bytes: &[u8],
        steps: &mut Steps,
    ) -> Result<(), AccessFault>
        requires open { IsTrue self.old.is_open }
        ensures step { Happens (plan_in self.old) (working_in self.old) (Write (record { number = h.0; from = at }) bytes.now
            (access_fault result)) (working_in self.new) }
        ensures ordered { HappensInOrder (plan_in self.old) (working_in self.old) (Write (record { number = h.0; from = at }) bytes.now
            (access_fault result)) (working_in self.new) self.old.order self.new.order }
        ensures same { StaysSlicedOpen self.old self.new }
        ensures rules { KeepsSlicedRules self.new }
        ensures steps { RoseBy steps.old steps.new (sliced_access_steps result at (length bytes.now)) }
        ensures bound { RoseAtMost steps.old steps.new (2 + words_touched at (length bytes.now)) }
    {
        match &mut self.inner {
            Some(open) => open.write(h, at, bytes, steps),
            None => unreachable!(),
        }
    }

    /// `SlicedHeap`: returns the word of its region with the number `word`, or `None` past the
    /// region's end. Costs one step; none past the end.
    pub fn peek(&self, word: u32, steps: &mut Steps) -> Option<u64>
        requires open { IsTrue self.now.is_open }
        ensures value { result ≡ slice_get self.now.words word }
        ensures steps { RoseBy steps.old steps.new (if is_some result then 1 else 0) }
        ensures bound { RoseAtMost steps.old steps.new 1 }
    {
        match &self.inner {
            Some(open) => open.peek(word, steps),
            None => unreachable!(),
        }
    }
}
