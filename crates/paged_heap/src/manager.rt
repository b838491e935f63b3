//! `PagedHeap`, the manager with pages, closed or open: the trait `Manager`, and calls of its own.
//! On an open heap they call `OpenHeap`.
ghost use Rattle.std.specs.Prelude.{◌≡◌, ◌^◌, ◌+◌, ◌<◌, ◌≤◌, [], IsSome, IsTrue, OnErr, OnOk, Some, option_map};
ghost use Rattle.std.specs.FinMap as map;
ghost use Rattle.cf_base.specs.Classes.{class_of};
ghost use Rattle.page_model.specs.Arrangement.{free_pages, not_full_pages, pages_of_class};
ghost use Rattle.cf_base.specs.Settings.{profile_of};
ghost use Rattle.cf_base.specs.declared.kind.Kind.TheVariants.{NonMoving};
ghost use Rattle.cf_model.specs.Answers.{classes_in};
ghost use Rattle.paged_heap.specs.Costs.{free_steps, resize_steps};
ghost use Rattle.paged_heap.specs.Slots.{slot_words_steps};
ghost use Rattle.cf_model.specs.Costs.{RoseByCost, TakesAtMost, block_free_bound, free_bound, resize_bound};
ghost use Rattle.cf_model.specs.Ordered.{IsOrderedFree, IsOrderedResize, KeepsPromise};
ghost use Rattle.cf_model.specs.Rules.{KeepsRules};
ghost use Rattle.cf_model.specs.State.{closed_state, paging_in};
ghost use Rattle.cf_model.specs.Steps.{BlocksStayIn, IsClosed, IsEmptyHeap, IsFreeStep, IsResizeStep, slot_in};
ghost use Rattle.step_ledger.specs.Counting.{RoseAtMost, RoseBy};
ghost use Rattle.paged_heap.specs.Bounds.{HasFewNotFull, with_bounds};
ghost use Rattle.paged_heap.specs.Layout.{Holds, state_at};
ghost use Rattle.paged_heap.specs.Most.{page_bounds};
ghost use Rattle.paged_heap.specs.Needed.{paged_bytes};
ghost use Rattle.paged_heap.specs.PagedState.{IsMappedByItsTable, OthersStayIn};

use crate::open_heap::OpenHeap;
use crate::page_kind::PageKind;
use cf_base::{
    AccessFault, BytesNeeded, Figures, Freed, Handle, Kind, NotLive, OutOfMemory, Refusal,
    ResizeFault, Resized, Settings, Totals,
};
use cf_model::{Manager, StepBounds, Usage};
use std::alloc::Global;
use std::marker::{Model, PhantomData};
use step_ledger::Steps;
use virtual_words::Mapped;

/// The manager with pages of the kind `A`: `alloc` is the allocator with which it opens, and `inner` the heap while it
/// is open. Contracts see the state that every manager has, and the physical words of the region. The calls besides
/// those of `Manager` need an open heap, but for `closed` and `bytes_needed`.
#[derive(Drop)]
pub struct PagedHeap<A: PageKind> {
    alloc: Global,
    pub(crate) inner: Option<OpenHeap>,
    kind: PhantomData<A>,
}

// In contracts a manager is its state and its region (`paged_in`), and its heap keeps the invariant
// `IsValidIn`.
impl<A: PageKind> Model for PagedHeap<A> {
    ghost use Rattle.paged_heap.specs.PagedState.{PagedState, paged_code, paged_in};

    ghost Value = { PagedState };

    ghost coded = { paged_code };

    ghost view = { λ h. paged_in A.kind h.inner };

    ghost use Rattle.paged_heap.specs.Layout.{IsValidIn};

    ghost invariant = { λ h. IsValidIn A.kind h.inner };
}

// The most steps of each call with pages, exact for reads and writes.
impl<A: PageKind> StepBounds for PagedHeap<A> {
    ghost most = { Some (page_bounds A.kind) };
}

// Each call on an open heap calls `OpenHeap`. Its contract requires that the heap is open, so its
// branch `None` is never reached.
impl<A: PageKind> Manager for PagedHeap<A> {
    ghost state = { λ h. h.state };

    fn kind(&self) -> Kind {
        // For the proof: reading a field brings in the invariant of the type.
        let _inner = &self.inner;
        A::kind()
    }

    // Returns whether the heap is open. Open or closed, the manager promises an order (clause
    // `order`).
    fn is_open(&self) -> bool
        ensures value { result ≡ self.now.state.is_open }
        ensures rules { IsTrue result → KeepsRules self.now.state }
        ensures order { IsSome self.now.state.order }
    {
        self.inner.is_some()
    }

    // Opens an empty heap, whatever was there before. At `OutOfMemory` the manager is closed.
    fn open_heap(&mut self, s: &Settings) -> Result<(), OutOfMemory>
        ensures ok { OnOk result (IsEmptyHeap self.old.state.kind s.now self.new.state) }
        ensures rules { OnOk result (KeepsRules self.new.state) }
        ensures err { OnErr result (IsClosed self.old.state self.new.state) }
        ensures promise { KeepsPromise self.old.state self.new.state }
        ensures order { IsSome self.new.state.order }
    {
        self.inner = None;
        self.inner = Some(A::open(self.alloc, s)?);
        Ok(())
    }

    // Adds an object of zeros, or is refused, as the trait says. Costs at most 17 steps moving, 18
    // non-moving.
    fn malloc(&mut self, bytes: u32, steps: &mut Steps) -> Result<Handle, Refusal> {
        match &mut self.inner {
            Some(open) => open.malloc::<A>(bytes, steps),
            None => unreachable!(),
        }
    }

    // Removes an object, as the trait says. With a block table the physical words of the other
    // objects stay (clause `others`). For a slot of s words it costs at most 20 + s steps moving,
    // 22 + s + s/2 non-moving; 1 if refused.
    fn free(&mut self, h: Handle, steps: &mut Steps) -> Result<Freed, NotLive>
        requires open { IsTrue self.old.state.is_open }
        requires room { steps.old ≤ 2 ^ 63 }
        ensures step { IsFreeStep self.old.state h.0 result self.new.state }
        ensures rules { KeepsRules self.new.state }
        ensures ordered { IsOrderedFree self.old.state h.0 result self.new.state }
        ensures bound { TakesAtMost self.old.state.kind steps.old steps.new (free_bound result) (block_free_bound result) }
        ensures most { RoseAtMost steps.old steps.new (free_steps A.kind result) }
        ensures cost { steps.new ≡ steps.old + self.new.state.cost }
        ensures blocks { BlocksStayIn self.old.state.kind self.old.state h.0 self.new.state }
        ensures others { OthersStayIn A.kind self.old h.0 self.new }
    {
        match &mut self.inner {
            Some(open) => open.free::<A>(h, steps),
            None => unreachable!(),
        }
    }

    // Writes bytes into an object, as the trait says. If it succeeds and the bytes are in t words,
    // it costs exactly 2 + t steps moving; 3 + t non-moving, plus one for each block that these
    // words are in (`access_steps`).
    fn write(
        &mut self,
        h: Handle,
        at: u32,
        bytes: &[u8],
        steps: &mut Steps,
    ) -> Result<(), AccessFault> {
        match &mut self.inner {
            Some(open) => open.write::<A>(h, at, bytes, steps),
            None => unreachable!(),
        }
    }

    // Reads bytes of an object, as the trait says. Costs as much as `write`.
    fn read(
        &self,
        h: Handle,
        at: u32,
        out: &mut [u8],
        steps: &mut Steps,
    ) -> Result<(), AccessFault> {
        match &self.inner {
            Some(open) => open.read::<A>(h, at, out, steps),
            None => unreachable!(),
        }
    }

    // Changes the length of an object, as the trait says. With a block table the physical words of
    // the other objects stay (clause `others`). If the class changes, it costs at most 34 + s + t
    // steps moving, 38 + 3(s + t)/2 non-moving, for an old slot of s words and t words of the smaller
    // slot; fewer in the same slot, and at most 5 and 6 if refused (`resize_steps`).
    fn resize(&mut self, h: Handle, bytes: u32, steps: &mut Steps) -> Result<Resized, ResizeFault>
        requires open { IsTrue self.old.state.is_open }
        requires room { steps.old ≤ 2 ^ 63 }
        ensures step { IsResizeStep self.old.state (record { number = h.0; length = bytes }) result self.new.state }
        ensures rules { KeepsRules self.new.state }
        ensures ordered { IsOrderedResize self.old.state (record { number = h.0; length = bytes }) result self.new.state }
        ensures bound { TakesAtMost self.old.state.kind steps.old steps.new (resize_bound result) 1 }
        ensures most { RoseAtMost steps.old steps.new (resize_steps A.kind bytes result) }
        ensures cost { RoseByCost self.old.state.kind steps.old steps.new self.new.state.cost }
        ensures blocks { BlocksStayIn self.old.state.kind self.old.state h.0 self.new.state }
        ensures others { OthersStayIn A.kind self.old h.0 self.new }
    {
        match &mut self.inner {
            Some(open) => open.resize::<A>(h, bytes, steps),
            None => unreachable!(),
        }
    }

    // Sets the bound of the class with this slot size to `k`; no object may be live. False if there
    // is no such class.
    fn set_bound(&mut self, slot_words: u32, k: u32) -> bool {
        match &mut self.inner {
            Some(open) => open.set_bound::<A>(slot_words, k),
            None => unreachable!(),
        }
    }

    // The address of an object; none if the handle is not live. Costs one step.
    fn place(&self, h: Handle, steps: &mut Steps) -> Option<u32> {
        self.open().place::<A>(h, steps)
    }

    // Returns the word number `word` of the region or, with a block table, of the virtual words;
    // none past the end of the region. Costs one step moving, two non-moving; none past the end.
    fn peek(&self, word: u32, steps: &mut Steps) -> Option<u64> {
        match &self.inner {
            Some(open) => open.peek::<A>(word, steps),
            None => unreachable!(),
        }
    }

    // Returns the number of the physical block that holds block i of the object's slot, as the
    // trait says; none without a block table, for no step.
    fn block(&self, h: Handle, i: u32, steps: &mut Steps) -> Option<u32> {
        A::block(self.open(), h, i, steps)
    }

    // The number of size classes.
    fn classes(&self) -> u32 {
        self.open().class_count::<A>()
    }

    // The figures of class c: its slot size, slots of a page, live objects, pages and partly full
    // pages. None if there is no such class; classes are numbered from 0.
    fn figures(&self, c: u32) -> Option<Figures> {
        self.open().figures::<A>(c)
    }

    // Returns the figures of the whole heap, from counts that it keeps. Costs no step.
    fn totals(&self, steps: &mut Steps) -> Totals {
        self.open().totals::<A>()
    }

    // The number of bytes of an object; none if the handle is not live. Costs two steps moving,
    // three non-moving; one if not live.
    fn length(&self, h: Handle, steps: &mut Steps) -> Option<u32> {
        self.open().length::<A>(h, steps)
    }

    // Returns what a malloc of `bytes` bytes would return now, without the handle. Costs one step.
    fn has_room(&self, bytes: u32, steps: &mut Steps) -> Result<(), Refusal> {
        self.open().has_room::<A>(bytes, steps)
    }

    // Returns the bytes of the objects, of their slots and of the used pages, from counts that the
    // heap keeps.
    fn usage(&self) -> Usage {
        Usage::of(&self.open().totals::<A>())
    }

    // The steps of the last malloc, free or resize; 0 before the first.
    fn cost(&self) -> u64 {
        self.open().cost
    }
}

impl<A: PageKind> PagedHeap<A> {
    /// The memory that opening a manager with pages asks for. The bytes of the manager itself, which its owner keeps,
    /// aren't counted.
    pub fn bytes_needed(s: &Settings) -> BytesNeeded
        ensures needed { result ≡ paged_bytes A.kind (profile_of s.now) }
        ensures few { result.total < 2 ^ 45 }
    {
        A::bytes_needed(s)
    }

    /// Returns a closed manager with pages, which has allocated nothing.
    pub fn closed(alloc: Global) -> PagedHeap<A>
        ensures state { result.state ≡ closed_state A.kind }
        ensures physical { result.physical ≡ [] }
    {
        PagedHeap {
            alloc,
            inner: None,
            kind: PhantomData,
        }
    }

    /// `PagedHeap`: sets the bound of the settings and of each class to `k`, 1 to 64. Unlike at `set_bound`, objects
    /// may be live, but no class may have more than `k` partly full pages. Costs no step.
    pub fn set_bounds(&mut self, k: u32)
        requires open { IsTrue self.old.state.is_open }
        requires few { HasFewNotFull self.old.state k }
        requires least { 1 ≤ k }
        requires most { k ≤ 64 }
        ensures bounds { self.new ≡ record self.old { state = with_bounds self.old.state k } }
        ensures rules { KeepsRules self.new.state }
    {
        match &mut self.inner {
            Some(open) => open.set_bounds::<A>(k),
            None => unreachable!(),
        }
    }

    /// `PagedHeap`: the number of words of an object's slot; none if the handle is not live. Costs
    /// three steps moving, four non-moving; one if not live.
    pub fn slot_words(&self, h: Handle, steps: &mut Steps) -> Option<u32>
        requires { IsTrue self.now.state.is_open }
        ensures value { result ≡ option_map (slot_in A.kind self.now.state) (map.get self.now.state.held h.0) }
        ensures steps { RoseBy steps.old steps.new (slot_words_steps A.kind result) }
    {
        self.open().slot_words::<A>(h, steps)
    }

    /// `PagedHeap`: the number, from 0, of the class of an object of `bytes` bytes; none if the
    /// object needs more than a page. Costs one step.
    pub fn class_of(&self, bytes: u32, steps: &mut Steps) -> Option<u32>
        requires { IsTrue self.now.state.is_open }
        ensures value { result ≡ class_of (paging_in self.now.state).sizes bytes }
        ensures steps { RoseBy steps.old steps.new 1 }
    {
        self.open().class_of::<A>(bytes, steps)
    }

    /// `PagedHeap`: the number of pages of class c, full or partly full. There must be such a class.
    pub fn pages_of(&self, c: u32) -> u32
        requires open { IsTrue self.now.state.is_open }
        requires class { c < classes_in self.now.state.kind self.now.state }
        ensures { result ≡ pages_of_class (paging_in self.now.state) self.now.state.held c }
    {
        self.open().pages_of::<A>(c)
    }

    /// `PagedHeap`: the number of partly full pages of class c. There must be such a class.
    pub fn not_full(&self, c: u32) -> u32
        requires open { IsTrue self.now.state.is_open }
        requires class { c < classes_in self.now.state.kind self.now.state }
        ensures { result ≡ not_full_pages (paging_in self.now.state) self.now.state.held c }
    {
        self.open().not_full::<A>(c)
    }

    /// `PagedHeap`: the number of free pages.
    pub fn free_pages(&self) -> u32
        requires { IsTrue self.now.state.is_open }
        ensures { result ≡ free_pages (paging_in self.now.state) self.now.state.held }
    {
        self.open().free_pages::<A>()
    }

    /// `PagedHeap`: borrows the open heap with pages, for its figures and for calls that change nothing.
    pub(crate) fn open(&self) -> &OpenHeap
        requires { IsTrue self.now.state.is_open }
        ensures kept { Holds A.kind result.now }
        ensures state { state_at A.kind result.now ≡ self.now.state }
        ensures physical { result.now.region ≡ self.now.physical }
    {
        match &self.inner {
            Some(open) => open,
            None => unreachable!(),
        }
    }
}

impl PagedHeap<Mapped> {
    /// Shows where the virtual words of an open non-moving manager are: for each virtual block v and j
    /// from 0 to 3, word `4 * F(v) + j` of the region is the virtual word `4 * v + j`, where F is the
    /// block table. The call does nothing.
    pub fn physical_words_are_mapped(&self)
        requires { IsTrue self.now.state.is_open }
        ensures kind { self.now.state.kind ≡ NonMoving }
        ensures words { IsMappedByItsTable self.now }
    {
        // For its contract: the open heap keeps its invariant.
        let _open = self.open();
    }
}
