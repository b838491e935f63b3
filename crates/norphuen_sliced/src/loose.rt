//! `LooseHeld`: the fields of `Held`, an open sliced heap for C, without its invariant. A `Held` is a `LooseHeld` whose
//! heap is valid and open, in the same memory; so the words of its region can be borrowed all at once.
ghost use Rattle.std.specs.Prelude.{◌≡◌, IsSome, refl};
ghost use Rattle.c_base.specs.Lending.{AreOf, IsFit};
ghost use Rattle.std.specs.Borrow.{sem};
ghost use Rattle.norphuen_sliced.specs.Loose.{sliced_lending as of_held, sliced_loose_words, sliced_words_in};
ghost use Rattle.norphuen_sliced.specs.LooseLoan.{LendsSlicedOf, LendsSlicedIn, LendsSlicedWords};
ghost use Rattle.norphuen_sliced.specs.Restored.{restored as same_words};

use crate::held::Held;
use c_base::{Handles, HeapBlock, Lendable};
use sliced_heap::OpenHeap;
use std::alloc::Global;
use std::rt::Memory;
use step_ledger::Meter;

/// The fields of `SlicedHeap`.
#[derive(Drop)]
pub struct LooseSliced {
    pub(crate) alloc: Global,
    pub(crate) inner: Option<OpenHeap>,
}

/// The fields of `Held`.
#[derive(Drop)]
pub struct LooseHeld {
    pub(crate) heap: LooseSliced,
    pub(crate) steps: u64,
    pub(crate) memory: Memory,
    pub(crate) handles: Handles,
}

/// For a loan, borrows all words of the sliced heap's region. When the borrow ends, the region has the words as they
/// then are.
fn all_of(heap: &mut OpenHeap, memory: Memory) -> &mut [u64]
    ensures* writes_back { sem 𝓛 (LendsSlicedOf heap.entry result) }
    ensures value { result.now ≡ heap.old.region }
{
    let n = heap.region.len();
    let mut meter = Meter::for_library(memory);
    heap.region.payload_mut(0, n, meter.steps())
}

/// For a loan, borrows all words of the region of a sliced heap that is open, as `all_of` does.
fn all_in(inner: &mut Option<OpenHeap>, memory: Memory) -> &mut [u64]
    requires open { IsSome inner.old }
    ensures* writes_back { sem 𝓛 (LendsSlicedIn inner.entry result) }
    ensures value { result.now ≡ sliced_words_in inner.old }
{
    match inner {
        Some(heap) => all_of(heap, memory),
        None => unreachable!(),
    }
}

/// Borrows all words of the region of the sliced heap in the fields `held`, which must be open. When the borrow ends,
/// the region has the words as they then are.
fn all_words(held: &mut LooseHeld) -> &mut [u64]
    requires open { IsSome held.old.heap.inner }
    ensures* writes_back { sem 𝓛 (LendsSlicedWords held.entry result) }
    ensures value { result.now ≡ sliced_loose_words held.old }
{
    let memory = held.memory;
    let heap = &mut held.heap;
    all_in(&mut heap.inner, memory)
}

impl Lendable<LooseHeld> for Held {
    ghost lending = { of_held };

    fn loosened(block: HeapBlock<Held>) -> HeapBlock<LooseHeld>
        requires { IsSome block.held }
        ensures { AreOf of_held result.held block.held }
    {
        let HeapBlock { at } = block;
        HeapBlock {
            at: at as *mut LooseHeld,
        }
    }

    fn tightened(block: HeapBlock<LooseHeld>) -> HeapBlock<Held>
        requires { IsFit of_held block.held }
        ensures { AreOf of_held block.held result.held }
    {
        let HeapBlock { at } = block;
        HeapBlock {
            at: at as *mut Held,
        }
    }

    fn all_words(parts: &mut LooseHeld) -> &mut [u64] {
        all_words(parts)
    }

    fn last(&self) -> u32 {
        self.last_handle()
    }

    ghost restored = { same_words };

    ghost forever = { refl };
}
