//! `LooseHeld`: an open heap of the moving manager with its step count, as `Held` has it, field by field, but with no
//! invariant. A `Held` is a `LooseHeld` whose heap is valid, in the same memory; so the words of its region can be
//! borrowed all at once, for a loan (`Lendable`).
ghost use Rattle.std.specs.Prelude.{◌≡◌, IsSome, refl};
ghost use Rattle.c_base.specs.Lending.{AreOf, IsFit};
ghost use Rattle.std.specs.Borrow.{sem};
ghost use Rattle.paged_heap.specs.PagedState.{region_in};
ghost use Rattle.held_heap.specs.Loose.{lending as of_held, loose_words};
ghost use Rattle.held_heap.specs.LooseLoan.{LendsAllOf, LendsAllIn, LendsAllWords};
ghost use Rattle.held_heap.specs.Restored.{moving_restored};

use crate::held::Held;
use c_base::{Handles, HeapBlock, Lendable, NphCounted};
use moving_heap::MovingHeap;
use paged_heap::OpenHeap;
use std::alloc::Global;
use std::marker::PhantomData;
use std::rt::Memory;
use step_ledger::Meter;
use virtual_words::Direct;

/// The fields of `MovingHeap`.
#[derive(Drop)]
pub struct LooseMoving {
    pub(crate) alloc: Global,
    pub(crate) inner: Option<OpenHeap>,
    pub(crate) kind: PhantomData<Direct>,
}

/// The fields of `Held` for the moving manager.
#[derive(Drop)]
pub struct LooseHeld {
    pub(crate) heap: LooseMoving,
    pub(crate) steps: u64,
    pub(crate) memory: Memory,
    pub(crate) handles: Handles,
    pub(crate) counts: NphCounted,
}

/// For a loan, borrows all words of the moving heap's region. When the borrow ends, the region has
/// the words as they then are.
fn all_of(heap: &mut OpenHeap, memory: Memory) -> &mut [u64]
    ensures* writes_back { sem 𝓛 (LendsAllOf heap.entry result) }
    ensures value { result.now ≡ heap.old.region }
{
    let n = heap.region.len();
    let mut meter = Meter::for_library(memory);
    heap.region.payload_mut(0, n, meter.steps())
}

/// For a loan, borrows all words of the region of a moving heap that is open. When the borrow ends,
/// the region has the words as they then are.
fn all_in(inner: &mut Option<OpenHeap>, memory: Memory) -> &mut [u64]
    requires open { IsSome inner.old }
    ensures* writes_back { sem 𝓛 (LendsAllIn inner.entry result) }
    ensures value { result.now ≡ region_in inner.old }
{
    match inner {
        Some(heap) => all_of(heap, memory),
        None => unreachable!(),
    }
}

/// Borrows all words of the region of a held moving heap that is open. When the borrow ends, the region has the words
/// as they then are.
fn all_words(held: &mut LooseHeld) -> &mut [u64]
    requires open { IsSome held.old.heap.inner }
    ensures* writes_back { sem 𝓛 (LendsAllWords held.entry result) }
    ensures value { result.now ≡ loose_words held.old }
{
    let memory = held.memory;
    let heap = &mut held.heap;
    all_in(&mut heap.inner, memory)
}

impl Lendable<LooseHeld> for Held<MovingHeap> {
    ghost lending = { of_held };

    fn loosened(block: HeapBlock<Held<MovingHeap>>) -> HeapBlock<LooseHeld>
        requires { IsSome block.held }
        ensures { AreOf of_held result.held block.held }
    {
        let HeapBlock { at } = block;
        HeapBlock {
            at: at as *mut LooseHeld,
        }
    }

    fn tightened(block: HeapBlock<LooseHeld>) -> HeapBlock<Held<MovingHeap>>
        requires { IsFit of_held block.held }
        ensures { AreOf of_held block.held result.held }
    {
        let HeapBlock { at } = block;
        HeapBlock {
            at: at as *mut Held<MovingHeap>,
        }
    }

    fn all_words(parts: &mut LooseHeld) -> &mut [u64] {
        all_words(parts)
    }

    fn last(&self) -> u32 {
        self.last_handle()
    }

    ghost restored = { moving_restored };

    ghost forever = { refl };
}
