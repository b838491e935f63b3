//! `LooseTag`: an open heap with blocks and its step count, as `Held` has it, field by field, but with no invariant. A
//! `Held` of TLSF or Half-Fit is a `LooseTag` whose heap is valid, in the same memory; so the words of its region can
//! be borrowed all at once, for a loan (`Lendable`).
ghost use Rattle.std.specs.Prelude.{◌≡◌, IsSome, refl};
ghost use Rattle.c_base.specs.Lending.{AreOf, IsFit};
ghost use Rattle.std.specs.Borrow.{sem};
ghost use Rattle.held_heap.specs.LooseTag.{lending as of_held, loose_words, tag_region_in};
ghost use Rattle.held_heap.specs.Half.{rule as half_rule};
ghost use Rattle.held_heap.specs.Tlsf.{rule as tlsf_rule};
ghost use Rattle.held_heap.specs.LooseTagLoan.{LendsAllIn, LendsAllOfBlocks, LendsAllOfOpen, LendsAllWords};
ghost use Rattle.held_heap.specs.Restored.{tag_restored};

use crate::held::Held;
use c_base::{Handles, HeapBlock, Lendable, Nothing, NphCounted};
use cf_base::Settings;
use half_fit_heap::HalfFitHeap;
use proxy_table::ProxyTable;
use region::Region;
use std::alloc::Global;
use std::rt::Memory;
use step_ledger::{CellArray, Cells, Meter};
use tlsf_heap::TlsfHeap;

/// The heads of the free lists, and their bitmaps.
#[derive(Drop)]
pub struct LooseHeads {
    pub(crate) addresses: Cells<u32>,
    pub(crate) lists: CellArray<u64, 32>,
    pub(crate) groups: CellArray<u64, 1>,
}

/// The fields of `TagBlocks`; `Nothing` is there in place of the name of the free-list rule, which has no bytes.
#[derive(Drop)]
pub struct LooseBlocks {
    pub(crate) region: Region,
    pub(crate) heads: LooseHeads,
    pub(crate) used: u32,
    pub(crate) free: u32,
    pub(crate) rule: Nothing,
}

/// The fields of the open heap in a `TagHeap`.
#[derive(Drop)]
pub struct LooseOpen {
    pub(crate) settings: Settings,
    pub(crate) blocks: LooseBlocks,
    pub(crate) proxies: ProxyTable,
    pub(crate) asked: u64,
    pub(crate) used_words: u32,
    pub(crate) cost: u64,
}

/// The fields of `TagHeap`.
#[derive(Drop)]
pub struct LooseManager {
    pub(crate) alloc: Global,
    pub(crate) inner: Option<LooseOpen>,
}

/// The fields of `Held` for a manager with blocks.
#[derive(Drop)]
pub struct LooseTag {
    pub(crate) heap: LooseManager,
    pub(crate) steps: u64,
    pub(crate) memory: Memory,
    pub(crate) handles: Handles,
    pub(crate) counts: NphCounted,
}

/// For a loan, borrows all words of the blocks' region. When the borrow ends, the region has the
/// words as they then are.
fn all_of_blocks(blocks: &mut LooseBlocks, memory: Memory) -> &mut [u64]
    ensures* writes_back { sem 𝓛 (LendsAllOfBlocks blocks.entry result) }
    ensures value { result.now ≡ blocks.old.region }
{
    let n = blocks.region.len();
    let mut meter = Meter::for_library(memory);
    blocks.region.payload_mut(0, n, meter.steps())
}

/// For a loan, borrows all words of the region that the blocks of an open heap have. When the
/// borrow ends, the region has the words as they then are.
fn all_of_open(heap: &mut LooseOpen, memory: Memory) -> &mut [u64]
    ensures* writes_back { sem 𝓛 (LendsAllOfOpen heap.entry result) }
    ensures value { result.now ≡ heap.old.blocks.region }
{
    all_of_blocks(&mut heap.blocks, memory)
}

/// For a loan, borrows all words of the region of a heap with blocks that is open. When the borrow
/// ends, the region has the words as they then are.
fn all_in(inner: &mut Option<LooseOpen>, memory: Memory) -> &mut [u64]
    requires open { IsSome inner.old }
    ensures* writes_back { sem 𝓛 (LendsAllIn inner.entry result) }
    ensures value { result.now ≡ tag_region_in inner.old }
{
    match inner {
        Some(heap) => all_of_open(heap, memory),
        None => unreachable!(),
    }
}

/// Borrows all words of the region of a held heap with blocks that is open. When the borrow ends, the region has the
/// words as they then are.
fn all_words(held: &mut LooseTag) -> &mut [u64]
    requires open { IsSome held.old.heap.inner }
    ensures* writes_back { sem 𝓛 (LendsAllWords held.entry result) }
    ensures value { result.now ≡ loose_words held.old }
{
    let memory = held.memory;
    let heap = &mut held.heap;
    all_in(&mut heap.inner, memory)
}

impl Lendable<LooseTag> for Held<TlsfHeap> {
    ghost lending = { of_held tlsf_rule };

    fn loosened(block: HeapBlock<Held<TlsfHeap>>) -> HeapBlock<LooseTag>
        requires { IsSome block.held }
        ensures { AreOf (of_held tlsf_rule) result.held block.held }
    {
        let HeapBlock { at } = block;
        HeapBlock {
            at: at as *mut LooseTag,
        }
    }

    fn tightened(block: HeapBlock<LooseTag>) -> HeapBlock<Held<TlsfHeap>>
        requires { IsFit (of_held tlsf_rule) block.held }
        ensures { AreOf (of_held tlsf_rule) block.held result.held }
    {
        let HeapBlock { at } = block;
        HeapBlock {
            at: at as *mut Held<TlsfHeap>,
        }
    }

    fn all_words(parts: &mut LooseTag) -> &mut [u64] {
        all_words(parts)
    }

    fn last(&self) -> u32 {
        self.last_handle()
    }

    ghost restored = { tag_restored tlsf_rule };

    ghost forever = { refl };
}

impl Lendable<LooseTag> for Held<HalfFitHeap> {
    ghost lending = { of_held half_rule };

    fn loosened(block: HeapBlock<Held<HalfFitHeap>>) -> HeapBlock<LooseTag>
        requires { IsSome block.held }
        ensures { AreOf (of_held half_rule) result.held block.held }
    {
        let HeapBlock { at } = block;
        HeapBlock {
            at: at as *mut LooseTag,
        }
    }

    fn tightened(block: HeapBlock<LooseTag>) -> HeapBlock<Held<HalfFitHeap>>
        requires { IsFit (of_held half_rule) block.held }
        ensures { AreOf (of_held half_rule) block.held result.held }
    {
        let HeapBlock { at } = block;
        HeapBlock {
            at: at as *mut Held<HalfFitHeap>,
        }
    }

    fn all_words(parts: &mut LooseTag) -> &mut [u64] {
        all_words(parts)
    }

    fn last(&self) -> u32 {
        self.last_handle()
    }

    ghost restored = { tag_restored half_rule };

    ghost forever = { refl };
}
