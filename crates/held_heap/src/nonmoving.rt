//! `NphHeap` for the non-moving manager: what a caller in C has for its heap, open or closed. Each manager has such a file,
//! since an export takes no type parameters.
ghost use Rattle.std.specs.Prelude.{◌≡◌, Option, is_some};
ghost use Rattle.std.specs.Borrow.{sem};
ghost use Rattle.std.specs.Coded.{coded_option};
ghost use Rattle.c_base.specs.HeapBlock.{place_owns};
ghost use Rattle.held_heap.specs.HeldState.{HeldState, held_code};
ghost use Rattle.held_heap.specs.NonMoving.{open_heap};

use crate::held::Held;
use c_base::{DONE, HeapBlock, MEMORY, NphNeeded, OPEN, Sealed, needed_with, of_setting};
use cf_base::Settings;
use nonmoving_heap::NonMovingHeap;
use std::alloc::Global;
use std::marker::Model;
use std::mem::size_of;
use std::rt::Memory;

/// The open heap in the block whose address C has.
type Open = Held<NonMovingHeap>;

/// The bytes of the block of an `Open`.
const HELD_BYTES: u64 = 1528;

const _: () = prove!(size_of::<Open>() == 1528);

/// A `HeapBlock`, in types that C may see.
#[repr(C)]
#[derive(Drop)]
pub struct Place {
    at: *mut Sealed,
    pub(crate) ghost held: { Option HeldState } by { coded_option held_code },
}

impl Model for Place {
    ghost also_owns = { λ p. place_owns open_heap p.at p.held };
}

unsafe impl Send for Place {}

impl Place {
    ghost use Rattle.held_heap.specs.NonMovingPlace.{LendsInner, inner_of};

    /// Borrows this `Place` as a `HeapBlock`: both are the same bytes in memory. When the borrow
    /// ends, the `Place` is what the borrow leaves (`writes_back`).
    fn inner(&mut self) -> &mut HeapBlock<Open>
        ensures* writes_back { sem 𝓛 (LendsInner self.entry result) }
        ensures value { result.now ≡ inner_of self.old }
    {
        unsafe { &mut *(self as *mut Place as *mut HeapBlock<Open>) }
    }
}

/// The struct in a C caller's memory for a heap, open or closed. `shown` says that `is_open` is
/// true if and only if `place` has a heap. `last` is the largest handle of the heap that was closed
/// last here, 0 at first. Call `close` before a drop: a drop does not free the memory of an open
/// heap.
#[repr(C)]
#[derive(Drop)]
pub struct NphHeap {
    place: Place,
    last: u32,
    is_open: bool,
    ghost shown: { is_open ≡ is_some place.held },
}

impl NphHeap {
    ghost use Rattle.std.specs.Prelude.{IsTrue};
    ghost use Rattle.cf_base.specs.declared.kind.Kind.TheVariants.{NonMoving};
    ghost use Rattle.held_heap.specs.Needed.{IsNeededCall};
    ghost use Rattle.held_heap.specs.AtPlace.{IsOpenCall};
    ghost use Rattle.held_heap.specs.CallerHeap.{closed_by};
    ghost use Rattle.c_base.specs.CallerHeap.{Opened, opened_now};
    ghost use Rattle.held_heap.specs.NonMovingPlace.{LendsNonMoving, heap_in};

    /// Returns whether the non-moving heap is open.
    pub fn is_open(&self) -> bool
        ensures { result ≡ opened_now (heap_in self.now) }
    {
        self.is_open
    }

    /// Borrows the open non-moving heap. When the borrow ends, the heap as it then is belongs to this struct again.
    pub fn held(&mut self) -> &mut Open
        requires { IsTrue (opened_now (heap_in self.old)) }
        ensures* writes_back { sem 𝓛 (LendsNonMoving self.entry result) }
        ensures value { heap_in self.old ≡ Opened result.now }
    {
        self.place.inner().lend()
    }

    /// Writes into `needed` the memory that `open` of a non-moving heap with these settings asks
    /// for. Returns `DONE`, or the code of the first setting out of range, and then `needed` is
    /// unchanged.
    pub fn bytes_needed(
        pages: u32,
        page_bytes: u32,
        k: u32,
        proxies: u32,
        needed: &mut NphNeeded,
    ) -> i32
        ensures { IsNeededCall NonMoving pages page_bytes k proxies result needed.old needed.new }
    {
        match Settings::check(pages, page_bytes, k, proxies) {
            Err(fault) => of_setting(fault),
            Ok(s) => {
                *needed = needed_with(NonMovingHeap::bytes_needed(&s), s.proxies, HELD_BYTES);
                DONE
            }
        }
    }

    /// Opens a non-moving heap without objects, with these settings. Returns `DONE`; else, with
    /// nothing changed, `OPEN` if the heap is open already, the code of the first setting out of
    /// range, or `MEMORY`.
    pub fn open(&mut self, memory: Memory, pages: u32, page_bytes: u32, k: u32, proxies: u32) -> i32
        ensures { IsOpenCall NonMoving (heap_in self.old) pages page_bytes k proxies result (heap_in self.new) }
    {
        if self.is_open {
            return OPEN;
        }
        match Settings::check(pages, page_bytes, k, proxies) {
            Err(fault) => of_setting(fault),
            Ok(s) => match Held::open(
                memory,
                NonMovingHeap::closed(Global::new(memory)),
                &s,
                self.last,
            ) {
                Some(heap) => {
                    *self.place.inner() = HeapBlock::of(heap);
                    self.is_open = true;
                    DONE
                }
                None => MEMORY,
            },
        }
    }

    /// Closes C's non-moving heap, frees its memory, and keeps its largest handle for the next
    /// open; does nothing if the heap isn't open.
    pub fn close(&mut self, memory: Memory)
        ensures { heap_in self.new ≡ closed_by (heap_in self.old) }
    {
        if !self.is_open {
            return;
        }
        self.last = self.place.inner().lend().last_handle();
        self.is_open = false;
        let place = std::mem::replace(self.place.inner(), HeapBlock::nowhere());
        drop(place.into_box(Global::new(memory)));
    }
}
