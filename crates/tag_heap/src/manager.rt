//! `TagHeap`: the trait `Manager` over an open heap with blocks, or over none while the manager is closed;
//! the memory that such a heap asks for; and how many words the block of an object has.
ghost use Rattle.std.specs.Prelude.{◌≡◌, ◌^◌, ◌<◌, IsTrue, Some, option_map};
ghost use Rattle.std.specs.FinMap as map;
ghost use Rattle.step_ledger.specs.Counting.{RoseBy};
ghost use Rattle.cf_model.specs.State.{closed_state};
ghost use Rattle.cf_model.specs.Steps.{slot_in};
ghost use Rattle.tag_heap.specs.Costs.{block_bounds, block_words_steps};
ghost use Rattle.cf_base.specs.Settings.{profile_of};
ghost use Rattle.tag_heap.specs.Heap.{tag_state_of};
ghost use Rattle.tag_heap.specs.Needed.{tag_bytes};

use crate::fit_policy::FitPolicy;
use crate::open_heap::OpenHeap;
use cf_base::{
    AccessFault, BytesNeeded, Figures, Freed, Handle, Kind, NotLive, OutOfMemory, Refusal,
    ResizeFault, Resized, Settings, Totals,
};
use cf_model::{Manager, StepBounds, Usage};
use std::alloc::Global;
use std::marker::Model;
use step_ledger::Steps;

/// The manager with blocks, whose free lists a `FitPolicy` chooses. `alloc` is the allocator that
/// an opening uses, and `inner` the open heap, none while the manager is closed. The manager
/// promises an order, open or closed.
#[derive(Drop)]
pub struct TagHeap<B: FitPolicy> {
    alloc: Global,
    inner: Option<OpenHeap<B>>,
}

// In contracts a manager is its state (`tag_state_in`), and its heap keeps the invariant `IsKeptIn`.
impl<B: FitPolicy> Model for TagHeap<B> {
    ghost use Rattle.cf_model.specs.State.{HeapState, state_code};

    ghost Value = { HeapState };

    ghost coded = { state_code };

    ghost use Rattle.tag_heap.specs.Heap.{IsKeptIn, tag_state_in};

    ghost view = { λ h. tag_state_in B.kind h.inner };

    ghost invariant = { λ h. IsKeptIn B.kind h.inner };
}

impl<B: FitPolicy> TagHeap<B> {
    /// Returns a closed manager with blocks, which has allocated nothing.
    pub fn closed(alloc: Global) -> TagHeap<B>
        ensures { result ≡ closed_state B.kind }
    {
        TagHeap { alloc, inner: None }
    }

    /// The memory that opening a manager with blocks asks for with the settings `s`, fewer than
    /// 2^45 bytes in all. The bytes of the manager itself, which its owner keeps, aren't counted.
    pub fn bytes_needed(s: &Settings) -> BytesNeeded
        ensures needed { result ≡ tag_bytes B.kind (profile_of s.now) }
        ensures few { result.total < 2 ^ 45 }
    {
        OpenHeap::<B>::bytes_needed(s)
    }

    /// Returns how many words the block of an object of a `TagHeap` has; none if the handle isn't
    /// live. The manager must be open. Costs two steps, or one if the call returns none.
    pub fn block_words(&self, h: Handle, steps: &mut Steps) -> Option<u32>
        requires { IsTrue self.now.is_open }
        ensures value { result ≡ option_map (slot_in B.kind self.now) (map.get self.now.held h.0) }
        ensures steps { RoseBy steps.old steps.new (block_words_steps result) }
    {
        self.open().block_words(h, steps)
    }

    /// Borrows the open heap of a `TagHeap`, for calls that change nothing. The manager must be
    /// open.
    fn open(&self) -> &OpenHeap<B>
        requires { IsTrue self.now.is_open }
        ensures { tag_state_of B.kind result.now ≡ self.now }
    {
        match &self.inner {
            Some(open) => open,
            None => unreachable!(),
        }
    }
}

// The most steps of each call of the kinds with blocks; of some calls the exact ones.
impl<B: FitPolicy> StepBounds for TagHeap<B> {
    ghost most = { Some block_bounds };
}

// Most calls are passed on to the open heap. Their contracts require that the manager is open, so
// `None` never occurs. There are neither size classes nor a block table.
impl<B: FitPolicy> Manager for TagHeap<B> {
    ghost state = { λ h. h };

    // Returns the kind of the fit policy.
    fn kind(&self) -> Kind {
        // For the proof: reading a field brings in the invariant of the type.
        let _inner = &self.inner;
        B::kind()
    }

    // Returns whether the heap is open.
    fn is_open(&self) -> bool {
        self.inner.is_some()
    }

    // Opens an empty heap, which is one free block, in place of the one before, if any. After
    // `OutOfMemory` the manager is closed.
    fn open_heap(&mut self, s: &Settings) -> Result<(), OutOfMemory> {
        self.inner = None;
        self.inner = Some(OpenHeap::new(self.alloc, s)?);
        Ok(())
    }

    // Adds an object of zeros, or is refused, as the trait says. Costs at most 25 steps.
    fn malloc(&mut self, bytes: u32, steps: &mut Steps) -> Result<Handle, Refusal> {
        match &mut self.inner {
            Some(open) => open.malloc(bytes, steps),
            None => unreachable!(),
        }
    }

    // Removes an object, as the trait says. Costs at most 41 steps and one for each word of its
    // block, 1 if refused.
    fn free(&mut self, h: Handle, steps: &mut Steps) -> Result<Freed, NotLive> {
        match &mut self.inner {
            Some(open) => open.free(h, steps),
            None => unreachable!(),
        }
    }

    // Writes bytes into an object, as the trait says. Costs at most two steps and one for each word
    // that holds one of the bytes.
    fn write(
        &mut self,
        h: Handle,
        at: u32,
        bytes: &[u8],
        steps: &mut Steps,
    ) -> Result<(), AccessFault> {
        match &mut self.inner {
            Some(open) => open.write(h, at, bytes, steps),
            None => unreachable!(),
        }
    }

    // Reads bytes of an object, as the trait says. Costs at most two steps and one for each word
    // that holds one of the bytes.
    fn read(
        &self,
        h: Handle,
        at: u32,
        out: &mut [u8],
        steps: &mut Steps,
    ) -> Result<(), AccessFault> {
        match &self.inner {
            Some(open) => open.read(h, at, out, steps),
            None => unreachable!(),
        }
    }

    // Refuses every resize: with `Unknown` if the handle isn't live, else with `Kind`, since heaps with blocks have no
    // resize. Costs one step.
    fn resize(
        &mut self,
        h: Handle,
        _bytes: u32,
        steps: &mut Steps,
    ) -> Result<Resized, ResizeFault> {
        match &self.inner {
            Some(open) => Err(open.resize_fault(h, steps)),
            None => unreachable!(),
        }
    }

    // Returns false, since there are no size classes.
    fn set_bound(&mut self, _slot_words: u32, _k: u32) -> bool {
        // For the proof: reading a field brings in the invariant of the type.
        let _inner = &self.inner;
        false
    }

    // Returns the address of the object; none if the handle isn't live. Costs one step.
    fn place(&self, h: Handle, steps: &mut Steps) -> Option<u32> {
        self.open().place(h, steps)
    }

    // Returns a word of the region, for one step; none past its end, for no step.
    fn peek(&self, word: u32, steps: &mut Steps) -> Option<u64> {
        match &self.inner {
            Some(open) => open.peek(word, steps),
            None => unreachable!(),
        }
    }

    // Returns none, for no step: this kind has no block table.
    fn block(&self, _h: Handle, _i: u32, _steps: &mut Steps) -> Option<u32> {
        // For its contract: a heap with blocks has no block table.
        let _open = self.open();
        None
    }

    // Returns 0, since there are no size classes.
    fn classes(&self) -> u32 {
        // For its contract: a heap with blocks has no size classes.
        let _open = self.open();
        0
    }

    // Returns none, since there are no size classes.
    fn figures(&self, _c: u32) -> Option<Figures> {
        // For its contract: a heap with blocks has no size classes.
        let _open = self.open();
        None
    }

    // Returns the figures of the whole heap. Costs at most three steps and two for each free block.
    fn totals(&self, steps: &mut Steps) -> Totals {
        self.open().totals(steps)
    }

    // Returns the number of bytes of an object; none if the handle isn't live. Costs two steps, or one if
    // the handle isn't live.
    fn length(&self, h: Handle, steps: &mut Steps) -> Option<u32> {
        self.open().length(h, steps)
    }

    // Returns what a malloc of `bytes` bytes would return now, without the handle. Costs at most four
    // steps.
    fn has_room(&self, bytes: u32, steps: &mut Steps) -> Result<(), Refusal> {
        self.open().room(bytes, steps)?;
        Ok(())
    }

    // Returns the bytes asked, taken and held, by counts that the heap keeps. Costs no step.
    fn usage(&self) -> Usage {
        self.open().usage()
    }

    // Returns the steps of the last malloc or free since the opening, 0 before the first one.
    fn cost(&self) -> u64 {
        self.open().cost
    }
}
