//! The structures into which calls write their results for a caller in C: the memory that a heap
//! needs, the result of a free or a resize, the figures of a class and of the heap, and the heap's
//! counts. The header `norphuen.h` declares the same types.
ghost use Rattle.std.specs.Prelude.{◌≡◌};
ghost use Rattle.c_base.specs.Shown.{class_shown, totals_shown};

use cf_base::{Figures, Totals};

/// The memory that opening a heap asks for: the bytes of all memory blocks (`total`) and of the
/// largest one (`largest`), and how many blocks there are.
#[repr(C)]
#[derive(Clone, Copy, Drop)]
pub struct NphNeeded {
    pub total: u64,
    pub largest: u64,
    pub blocks: u32,
}

/// The result of a free: how many words the freed slot or block has (`slot_words`), and the handle
/// of the object that moved to its address (`moved`), `NONE` if no object moved.
#[repr(C)]
#[derive(Clone, Copy, Drop)]
pub struct NphFreed {
    pub slot_words: u32,
    pub moved: u32,
}

/// The result of a resize: how many words the object's slot had before (`old_slot_words`) and has
/// after (`slot_words`), and the handle of the other object that moved to the old address
/// (`moved`), `NONE` if none did.
#[repr(C)]
#[derive(Clone, Copy, Drop)]
pub struct NphResized {
    pub old_slot_words: u32,
    pub slot_words: u32,
    pub moved: u32,
}

/// The figures of a size class: the words of a slot, the slots of a page, and how many objects are live,
/// how many pages the class has, and how many of these are partly full (`not_full`).
#[repr(C)]
#[derive(Clone, Copy, Drop)]
pub struct NphClass {
    pub slot_words: u32,
    pub slots: u32,
    pub live: u32,
    pub pages: u32,
    pub not_full: u32,
}

impl NphClass {
    /// Returns the figures of a class in the structure for C.
    pub fn of(f: Figures) -> NphClass
        ensures { result ≡ class_shown f }
    {
        NphClass {
            slot_words: f.slot_words,
            slots: f.slots,
            live: f.live,
            pages: f.pages,
            not_full: f.not_full,
        }
    }
}

/// The figures of the whole heap. In bytes: what the live objects asked for, what their slots or blocks take,
/// and what the pages in use (with blocks, the region) hold. Then counts: live objects, and the pages or
/// blocks in use and free. `largest` is the words of the largest free page or block, 0 if none is.
#[repr(C)]
#[derive(Clone, Copy, Drop)]
pub struct NphHeapTotals {
    pub asked: u64,
    pub taken: u64,
    pub held: u64,
    pub live: u32,
    pub used: u32,
    pub free: u32,
    pub largest: u32,
}

impl NphHeapTotals {
    /// Returns the figures of the whole heap in the structure for C.
    pub fn of(all: Totals) -> NphHeapTotals
        ensures { result ≡ totals_shown all }
    {
        NphHeapTotals {
            asked: all.asked,
            taken: all.taken,
            held: all.held,
            live: all.live,
            used: all.used,
            free: all.free,
            largest: all.largest,
        }
    }
}

/// What a heap counts from its opening on. `most_asked` is the most bytes that its live objects
/// asked for after any malloc or resize. `least_free` is the fewest free pages at the opening or
/// after one of these, with blocks the fewest bytes outside used blocks. `moves` is how many other
/// objects frees and resizes moved. The last four are how many mallocs, frees and resizes were
/// refused with the code of that name, such as `UNKNOWN`. A count stops at `2^64 - 1`.
#[repr(C)]
#[derive(Clone, Copy, Drop)]
pub struct NphCounted {
    pub most_asked: u64,
    pub least_free: u64,
    pub moves: u64,
    pub unknown: u64,
    pub size: u64,
    pub proxy: u64,
    pub space: u64,
}
