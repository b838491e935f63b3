//! The trait `PageKind`: what differs between the moving and the non-moving manager, apart from how
//! they find a word (`Mapping`).
ghost use Rattle.std.specs.Prelude.{◌≡◌, ◌^◌, ◌<◌, IfOk, refl};
ghost use Rattle.std.specs.FinMap as map;
ghost use Rattle.step_ledger.specs.Counting.{RoseBy};
ghost use Rattle.cf_base.specs.Settings.{profile_of};
ghost use Rattle.cf_model.specs.Answers.{block_in};
ghost use Rattle.cf_model.specs.Costs.{block_steps};
ghost use Rattle.cf_model.specs.Families.{IsPaged};
ghost use Rattle.cf_model.specs.Steps.{IsEmptyHeap};
ghost use Rattle.paged_heap.specs.Layout.{Holds, state_at};
ghost use Rattle.paged_heap.specs.Needed.{paged_bytes};

use crate::open_heap::OpenHeap;
use block_table::BlockTable;
use cf_base::{BytesNeeded, Handle, Kind, Layout, OutOfMemory, Settings};
use std::alloc::Global;
use step_ledger::Steps;
use virtual_words::{Direct, Mapped, Mapping};

/// A kind of manager with pages: how its heap is opened, the memory that this asks for, and the
/// physical block of an object. How it finds a word is in the trait `Mapping`.
pub trait PageKind: Mapping {
    /// Returns which kind of manager this `PageKind` is.
    fn kind() -> Kind
        ensures { result ≡ Self.kind };

    /// Opens a heap of this `PageKind` without objects. Fails if out of memory.
    fn open(alloc: Global, s: &Settings) -> Result<OpenHeap, OutOfMemory>
        ensures kept { IfOk result (λ h. Holds Self.kind h) }
        ensures empty { IfOk result (λ h. IsEmptyHeap Self.kind s.now (state_at Self.kind h)) };

    /// The memory that `PageKind::open` asks for.
    fn bytes_needed(s: &Settings) -> BytesNeeded
        ensures needed { result ≡ paged_bytes Self.kind (profile_of s.now) }
        ensures few { result.total < 2 ^ 45 };

    /// The number of the physical block that holds block i, from 0, of the object's slot;
    /// none if the kind has no block table, the handle is not live, or the slot has no block i.
    /// Costs at most five steps; none if the kind has no block table.
    fn block(heap: &OpenHeap, h: Handle, i: u32, steps: &mut Steps) -> Option<u32>
        requires { Holds Self.kind heap.now }
        ensures value { result ≡ block_in Self.kind (state_at Self.kind heap.now) h.0 i }
        ensures steps { RoseBy steps.old steps.new (block_steps Self.kind (map.get (state_at Self.kind heap.now).held h.0) result) };

    // The kind has pages.
    ghost paged: { IsPaged Self.kind };
}

// The moving manager: its slots are whole words, and it has no block table.
impl PageKind for Direct {
    fn kind() -> Kind {
        Kind::Moving
    }

    fn open(alloc: Global, s: &Settings) -> Result<OpenHeap, OutOfMemory> {
        OpenHeap::new::<Direct>(alloc, s, Layout::Words, None)
    }

    fn bytes_needed(s: &Settings) -> BytesNeeded {
        OpenHeap::bytes_needed(s, Layout::Words)
    }

    fn block(_heap: &OpenHeap, _h: Handle, _i: u32, _steps: &mut Steps) -> Option<u32> {
        None
    }

    ghost paged = { refl };
}

// The non-moving manager: its slots are whole blocks of four words, and a block table maps each
// block, at first to itself.
impl PageKind for Mapped {
    fn kind() -> Kind {
        Kind::NonMoving
    }

    fn open(alloc: Global, s: &Settings) -> Result<OpenHeap, OutOfMemory> {
        let blocks = BlockTable::new(alloc, s.pages, s.page_words / 4)?;
        OpenHeap::new::<Mapped>(alloc, s, Layout::Blocks, Some(blocks))
    }

    fn bytes_needed(s: &Settings) -> BytesNeeded {
        let blocks = BlockTable::bytes_needed(s.pages, s.page_words / 4);
        OpenHeap::bytes_needed(s, Layout::Blocks).and(blocks)
    }

    // Finds the blocks of the slot by the length in the object's header, then block i in the table.
    fn block(heap: &OpenHeap, h: Handle, i: u32, steps: &mut Steps) -> Option<u32> {
        let Some(place) = heap.proxies.lookup(h, steps) else {
            return None;
        };
        let length = heap.length_at::<Mapped>(place, steps);
        let Some(c) = heap.tables.classes.class_of(length, steps) else {
            unreachable!();
        };
        if i < heap.tables.classes.slot_words(c) / 4 {
            match &heap.blocks {
                Some(table) => Some(table.block(place / 4 + i, steps)),
                None => unreachable!(),
            }
        } else {
            None
        }
    }

    ghost paged = { refl };
}
