//! The trait `Manager`, which every memory manager implements, with the contract of each call; the step bounds of
//! malloc, free and resize with pages, as constants; and the trait of a manager's own step bounds (`StepBounds`).
ghost use Rattle.std.specs.Prelude.{◌≡◌, ◌+◌, ◌^◌, ◌≤◌, IfErr, IfOk, IsTrue, Option, OnOk, OnErr, is_some, length, slice_get};
ghost use Rattle.std.specs.FinMap as map;
ghost use Rattle.step_ledger.specs.Counting.{RoseAtMost, RoseBy};
ghost use Rattle.cf_model.specs.Answers.{place_of, block_in, classes_in, figures_in, totals_in, usage_in, class_with, with_bound};
ghost use Rattle.cf_model.specs.Bounds.{Bounds, ByOwn};
ghost use Rattle.cf_base.specs.declared.results.Refusal.{Refusal};
ghost use Rattle.cf_model.specs.Room.{length_of};
ghost use Rattle.cf_model.specs.Costs.{
  TakesAtMost,
  RoseByCost,
  access_bound,
  block_free_bound,
  block_steps,
  free_bound,
  length_steps,
  peek_steps,
  resize_bound,
};
ghost use Rattle.cf_model.specs.Ordered.{IsOrderedFree, IsOrderedMalloc, IsOrderedResize, KeepsPromise};
ghost use Rattle.cf_model.specs.Rules.{KeepsRules};
ghost use Rattle.cf_model.specs.State.{HeapState};
ghost use Rattle.cf_model.specs.Steps.{
  IsEmptyHeap,
  IsClosed,
  IsMallocStep,
  IsRefusedBy,
  IsFreeStep,
  IsWriteStep,
  IsReadAnswer,
  IsResizeStep,
  BlocksStayIn,
};

use crate::usage::Usage;
use cf_base::{
    AccessFault, Figures, Freed, Handle, Kind, NotLive, OutOfMemory, Refusal, ResizeFault, Resized,
    Settings, Totals,
};
use step_ledger::Steps;

/// The most steps of a malloc of a manager with pages.
pub const MALLOC_BOUND: u64 = 64;

/// The most steps of a free of a manager with pages, besides two for each word of the freed slot.
pub const FREE_BOUND: u64 = 96;

/// The most steps of a resize of a manager with pages, besides three for each word of the larger of the
/// old and the new slot.
pub const RESIZE_BOUND: u64 = 160;

/// The step bounds that a manager claims besides those of `Manager`. They are in a trait of their own, above
/// `Manager`, because the proofs of `Boxed` are found only if `Manager` has one ghost member.
pub trait StepBounds {
    /// For some calls the most or the exact steps (`Bounds`); none if the manager claims only those of `Manager`.
    ghost most: { Option Bounds };
}

/// A memory manager over one region of words. Objects are lists of bytes; handles refer to them.
///
/// A manager of kind `Moving` or `NonMoving` divides the region into pages, and pages into slots of
/// size classes, by Compact-fit (2008). One of kind `Tlsf` or `HalfFit` divides it into blocks, by
/// TLSF (2004) or Half-Fit (1995). With a block table, which only a `NonMoving` one has, a free and a
/// resize leave each other object in its physical blocks (clause `blocks`).
///
/// A manager may promise an order (`HeapState`, field `order`), closed or open. Then the order determines each
/// choice of a malloc, free or resize: the number, slot or block taken, and the object moved. The order and the
/// state also determine the exact steps of these calls (clause `ordered`). With blocks a resize is always
/// refused, and the clause leaves its steps open. No call changes whether a manager promises an order.
///
/// Only `kind`, `is_open` and `open_heap` may be called while the heap is closed. A call that takes the ledger
/// `steps` adds its steps to it; the others count none. Before a malloc, free, write, read or resize the ledger's
/// count is at most 2 ^ 63 (clause `room`).
pub trait Manager: StepBounds + Drop {
    /// What contracts see of a manager.
    ghost state: { Self → HeapState };

    /// The kind of the manager, which no call changes.
    fn kind(&self) -> Kind
        ensures { result ≡ (state self.now).kind };

    /// Whether a manager's heap is open. An open heap keeps the rules of its kind.
    fn is_open(&self) -> bool
        ensures value { result ≡ (state self.now).is_open }
        ensures rules { IsTrue result → KeepsRules (state self.now) };

    /// On any manager, opens an empty heap with these settings, whatever was there before. Only this call allocates. At
    /// `OutOfMemory` the manager is closed, and may be opened again. A manager that promised an order promises one
    /// afterwards, open or closed.
    fn open_heap(&mut self, s: &Settings) -> Result<(), OutOfMemory>
        ensures ok { OnOk result (IsEmptyHeap (state self.old).kind s.now (state self.new)) }
        ensures rules { OnOk result (KeepsRules (state self.new)) }
        ensures err { OnErr result (IsClosed (state self.old) (state self.new)) }
        ensures promise { KeepsPromise (state self.old) (state self.new) };

    /// On any manager, adds an object of `bytes` bytes, all zero, under a handle that wasn't live. Refused, in this
    /// order: `Size` if the object with its header is larger than a page; `Proxy` if every proxy is in use; `Space` if
    /// its class has no slot left or, with blocks, if no free list that is searched for its size has a block. A refusal
    /// changes only the cost. At most 64 steps with pages, 25 with blocks.
    fn malloc(&mut self, bytes: u32, steps: &mut Steps) -> Result<Handle, Refusal>
        requires open { IsTrue (state self.old).is_open }
        requires room { steps.old ≤ 2 ^ 63 }
        ensures step { IsMallocStep (state self.old) bytes result (state self.new) }
        ensures rules { KeepsRules (state self.new) }
        ensures ordered { IsOrderedMalloc (state self.old) bytes result (state self.new) }
        ensures bound { TakesAtMost (state self.old).kind steps.old steps.new MALLOC_BOUND 25 }
        ensures most { ByOwn Self.most (λ b. RoseAtMost steps.old steps.new (b.malloc result)) }
        ensures cost { steps.new ≡ steps.old + (state self.new).cost };

    /// On any manager, removes an object, and returns how many words its slot or block has. Refused if the handle isn't
    /// live.
    /// With pages, another object of the class moves to the freed address if the class would else pass its bound on
    /// partly full pages (`MustMove`). `moved` is its handle. A refusal changes only the cost. With pages at most 96
    /// steps plus twice the words of the slot; with blocks at most 41 plus the words of the block, 1 if refused.
    fn free(&mut self, h: Handle, steps: &mut Steps) -> Result<Freed, NotLive>
        requires open { IsTrue (state self.old).is_open }
        requires room { steps.old ≤ 2 ^ 63 }
        ensures step { IsFreeStep (state self.old) h.0 result (state self.new) }
        ensures rules { KeepsRules (state self.new) }
        ensures ordered { IsOrderedFree (state self.old) h.0 result (state self.new) }
        ensures bound { TakesAtMost (state self.old).kind steps.old steps.new (free_bound result) (block_free_bound result) }
        ensures most { ByOwn Self.most (λ b. RoseAtMost steps.old steps.new (b.free result)) }
        ensures cost { steps.new ≡ steps.old + (state self.new).cost }
        ensures blocks { BlocksStayIn (state self.old).kind (state self.old) h.0 (state self.new) };

    /// On any manager, writes bytes into an object from byte `at` on, and changes nothing else. Refused, in this order:
    /// `Unknown` if the handle isn't live; `Range` if `at` plus the number of bytes exceeds the object's length. A
    /// refusal changes nothing. At most 16 steps plus three for each word that holds at least one of the bytes.
    fn write(
        &mut self,
        h: Handle,
        at: u32,
        bytes: &[u8],
        steps: &mut Steps,
    ) -> Result<(), AccessFault>
        requires open { IsTrue (state self.old).is_open }
        requires room { steps.old ≤ 2 ^ 63 }
        ensures step { IsWriteStep (state self.old) (record { number = h.0; from = at }) bytes.now result (state self.new) }
        ensures rules { KeepsRules (state self.new) }
        ensures bound { RoseAtMost steps.old steps.new (access_bound at (length bytes.now)) }
        ensures most { ByOwn Self.most (λ b. RoseBy steps.old steps.new (b.access at (length bytes.now) result)) };

    /// On any manager, fills `out` with the bytes of an object from byte `at` on. Refused as `write` is; then `out`
    /// stays unchanged. At most 16 steps plus three for each word that holds at least one of the bytes.
    fn read(&self, h: Handle, at: u32, out: &mut [u8], steps: &mut Steps) -> Result<(), AccessFault>
        requires open { IsTrue (state self.now).is_open }
        requires room { steps.old ≤ 2 ^ 63 }
        ensures answer { IsReadAnswer (state self.now) (record { number = h.0; from = at }) out.old result out.new }
        ensures rules { KeepsRules (state self.now) }
        ensures bound { RoseAtMost steps.old steps.new (access_bound at (length out.old)) }
        ensures most { ByOwn Self.most (λ b. RoseBy steps.old steps.new (b.access at (length out.old) result)) };

    /// On any manager, changes an object's length: its first bytes stay, and added bytes are zeros. With pages the
    /// object stays in its slot if its class stays. Otherwise it takes a slot of the new class, and its old slot is
    /// freed, into which another object may move; `moved` is its handle. Refused, in this order: `Unknown` if the
    /// handle isn't live; `Kind` with blocks; `Size` if the object would need more than a page; `Space` if the class
    /// changes and the new one has no slot left. A refusal changes only the cost, with blocks nothing. With pages at
    /// most 160 steps plus three times the words of the larger slot, 160 if refused; with blocks at most 1.
    fn resize(&mut self, h: Handle, bytes: u32, steps: &mut Steps) -> Result<Resized, ResizeFault>
        requires open { IsTrue (state self.old).is_open }
        requires room { steps.old ≤ 2 ^ 63 }
        ensures step { IsResizeStep (state self.old) (record { number = h.0; length = bytes }) result (state self.new) }
        ensures rules { KeepsRules (state self.new) }
        ensures ordered { IsOrderedResize (state self.old) (record { number = h.0; length = bytes }) result (state self.new) }
        ensures bound { TakesAtMost (state self.old).kind steps.old steps.new (resize_bound result) 1 }
        ensures most { ByOwn Self.most (λ b. RoseAtMost steps.old steps.new (b.resize bytes result)) }
        ensures cost { RoseByCost (state self.old).kind steps.old steps.new (state self.new).cost }
        ensures blocks { BlocksStayIn (state self.old).kind (state self.old) h.0 (state self.new) };

    /// On any manager, sets the bound of the class whose slots have `slot_words` words to `k`: how many of its pages
    /// may be partly full, 1 to 64. No object may be live. Returns false, and changes nothing, if there is no such
    /// class, so always with blocks.
    fn set_bound(&mut self, slot_words: u32, k: u32) -> bool
        requires open { IsTrue (state self.old).is_open }
        requires empty { (state self.old).held ≡ map.empty }
        requires least { 1 ≤ k }
        requires most { k ≤ 64 }
        ensures value { result ≡ is_some (class_with (state self.old).kind (state self.old) slot_words) }
        ensures bound { state self.new ≡ with_bound (state self.old) (class_with (state self.old).kind (state self.old) slot_words) k }
        ensures rules { KeepsRules (state self.new) };

    /// On any manager, the address of the object: the index of the first word of its slot or block in the region or,
    /// with a block table, among the virtual words. None if the handle isn't live. Takes one step.
    fn place(&self, h: Handle, steps: &mut Steps) -> Option<u32>
        requires { IsTrue (state self.now).is_open }
        ensures value { result ≡ place_of (state self.now) h.0 }
        ensures steps { RoseBy steps.old steps.new 1 };

    /// On any manager, the word of the region at the index `word`; none if that is beyond the region's end. With a
    /// block table the index counts virtual words. Takes one step, with a block table two; none beyond the end.
    fn peek(&self, word: u32, steps: &mut Steps) -> Option<u64>
        requires { IsTrue (state self.now).is_open }
        ensures value { result ≡ slice_get (state self.now).words word }
        ensures rules { KeepsRules (state self.now) }
        ensures steps { RoseBy steps.old steps.new (peek_steps (state self.now).kind result) };

    /// On any manager, the number of the physical block that holds block i of the object's slot. Blocks have four
    /// words, and i counts from 0. None if the kind isn't `NonMoving`, the handle isn't live, or the slot has no block
    /// i. Takes at most 5 steps, without a block table none.
    fn block(&self, h: Handle, i: u32, steps: &mut Steps) -> Option<u32>
        requires { IsTrue (state self.now).is_open }
        ensures value { result ≡ block_in (state self.now).kind (state self.now) h.0 i }
        ensures steps { RoseBy steps.old steps.new (block_steps (state self.now).kind (map.get (state self.now).held h.0) result) };

    /// A manager's number of size classes; 0 with blocks.
    fn classes(&self) -> u32
        requires { IsTrue (state self.now).is_open }
        ensures { result ≡ classes_in (state self.now).kind (state self.now) };

    /// A manager's figures of the class with number c, from 0 on; none if there is no such class.
    fn figures(&self, c: u32) -> Option<Figures>
        requires { IsTrue (state self.now).is_open }
        ensures { result ≡ figures_in (state self.now) c };

    /// A manager's figures of the whole heap. Only `StepBounds` bounds the steps of this call. With blocks the call
    /// searches a free list for the largest block, so its steps may grow with the number of free blocks; `usage` takes
    /// none.
    fn totals(&self, steps: &mut Steps) -> Totals
        requires { IsTrue (state self.now).is_open }
        ensures value { result ≡ totals_in (state self.now).kind (state self.now) }
        ensures rises { steps.old ≤ steps.new }
        ensures most { ByOwn Self.most (λ b. RoseAtMost steps.old steps.new (b.totals result)) }
        ensures exact { ByOwn Self.most (λ b. RoseBy steps.old steps.new (b.totals_exact (state self.now))) };

    /// On any manager, the number of bytes of an object; none if the handle isn't live. Takes two steps, with a block
    /// table three; one if not live.
    fn length(&self, h: Handle, steps: &mut Steps) -> Option<u32>
        requires { IsTrue (state self.now).is_open }
        ensures value { result ≡ length_of (state self.now) h.0 }
        ensures steps { RoseBy steps.old steps.new (length_steps (state self.now).kind result) };

    /// What a manager's malloc of `bytes` bytes would return now, without the handle: `Ok`, or its refusal. Only
    /// `StepBounds` bounds its steps.
    fn has_room(&self, bytes: u32, steps: &mut Steps) -> Result<(), Refusal>
        requires { IsTrue (state self.now).is_open }
        ensures ok { IfOk result (λ u. (e : Refusal) → ¬ IsRefusedBy (state self.now) bytes e) }
        ensures err { IfErr result (λ e. IsRefusedBy (state self.now) bytes e) }
        ensures rises { steps.old ≤ steps.new }
        ensures most { ByOwn Self.most (λ b. RoseAtMost steps.old steps.new (b.room result)) }
        ensures exact { ByOwn Self.most (λ b. RoseBy steps.old steps.new (b.room_exact (state self.now) bytes result)) };

    /// The bytes requested for a manager's live objects, those of their slots or blocks, and those of the pages in use
    /// or, with blocks, of the region: three of the figures of `totals`. Takes no step.
    fn usage(&self) -> Usage
        requires { IsTrue (state self.now).is_open }
        ensures { result ≡ usage_in (state self.now).kind (state self.now) };

    /// On any manager, the steps that the last malloc or free since the opening added to its ledger, refused or not;
    /// with pages also the last resize. 0 before the first one.
    fn cost(&self) -> u64
        requires { IsTrue (state self.now).is_open }
        ensures { result ≡ (state self.now).cost };
}
