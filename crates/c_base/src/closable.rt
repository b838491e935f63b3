//! `ClosableHeap`: the struct in a C caller's memory for a heap, open or closed, that never lends
//! its words. `Openable`: a type of open heap that a `ClosableHeap` can open and close.
ghost use Rattle.std.specs.Prelude.{◌≡◌, IfSome, is_some};
ghost use Rattle.std.specs.Borrow.{sem};
ghost use Rattle.cf_base.specs.Settings.{profile_from, profile_of, setting_fault};
ghost use Rattle.c_base.specs.Opening.{Opening};

use crate::block::HeapBlock;
use crate::codes::{DONE, MEMORY, OPEN, of_setting};
use crate::results::NphNeeded;
use cf_base::{BytesNeeded, Settings};
use std::alloc::Global;
use std::rt::Memory;

/// A type of open heap that a `ClosableHeap` can open and close.
pub trait Openable: Sized {
    /// The bounds k that an open takes, the memory that it needs, what is true of a heap just
    /// opened, and the largest handle of a heap.
    ghost opening: { Opening Self };

    /// The memory that `Openable::open` with these settings asks for.
    fn bytes_needed(s: &Settings) -> BytesNeeded
        ensures { opening.needs (profile_of s.now) result };

    /// `Openable`: opens a heap with these settings, whose bound k the type must take (`opening`).
    /// Its handles, if it has any, are larger than `last`, or from 0 on if too few are larger.
    /// Returns `None` if out of memory.
    fn open(memory: Memory, s: &Settings, last: u32) -> Option<Box<Self, Global>>
        requires { opening.takes s.now.k }
        ensures { IfSome result (λ b. opening.is_fresh (profile_of s.now) last b.value) };

    /// `Openable`: the largest of the heap's handles; 0 if its objects have no handles.
    fn last(&self) -> u32
        ensures { result ≡ opening.last self.now };
}

/// The struct in a C caller's memory for a heap, closed or open. `shown` says that `is_open` is
/// true if and only if `place` has a heap. `last` is the largest handle of the heap that was closed
/// last here, 0 at first. Call `close` before a drop: a drop does not free the memory of a heap.
#[repr(C)]
#[derive(Drop)]
pub struct ClosableHeap<T> {
    place: HeapBlock<T>,
    last: u32,
    is_open: bool,
    ghost shown: { is_open ≡ is_some place.held },
}

impl<T> ClosableHeap<T> {
    ghost use Rattle.std.specs.Prelude.{IsTrue};
    ghost use Rattle.c_base.specs.CallerHeap.{Opened, opened_now};
    ghost use Rattle.c_base.specs.ClosablePlace.{LendsHeap, caller_heap};

    /// Returns whether this `ClosableHeap` is open.
    pub fn is_open(&self) -> bool
        ensures { result ≡ opened_now (caller_heap self.now) }
    {
        self.is_open
    }

    /// Borrows the open heap of this `ClosableHeap`. When the borrow ends, the heap as it then is belongs to this
    /// struct again.
    pub fn held(&mut self) -> &mut T
        requires { IsTrue (opened_now (caller_heap self.old)) }
        ensures* writes_back { sem 𝓛 (LendsHeap T.row self.entry result) }
        ensures value { caller_heap self.old ≡ Opened result.now }
    {
        self.place.lend()
    }
}

impl<T: Drop> ClosableHeap<T> {
    ghost use Rattle.std.specs.Prelude.{IsOk};
    ghost use Rattle.c_base.specs.CallerHeap.{Opened, closed_now};
    ghost use Rattle.c_base.specs.ClosablePlace.{caller_heap};

    /// Puts the open heap `heap` into this closed `ClosableHeap`, which is open then.
    pub fn put(&mut self, heap: Box<T, Global>)
        requires { IsOk (closed_now (caller_heap self.old)) }
        ensures { caller_heap self.new ≡ Opened heap.value }
    {
        self.place = HeapBlock::of(heap);
        self.is_open = true;
    }
}

impl<T: Openable + Drop> ClosableHeap<T> {
    ghost use Rattle.c_base.specs.AtPlace.{IsOpenBy};
    ghost use Rattle.c_base.specs.CallerHeap.{closed_with};
    ghost use Rattle.c_base.specs.ClosablePlace.{caller_heap};
    ghost use Rattle.c_base.specs.Needed.{AreNeeded};

    /// Writes into `needed` the memory that `ClosableHeap::open` with these settings asks for.
    /// Returns `DONE`, or the code of the first setting out of range, and then `needed` is
    /// unchanged.
    pub fn bytes_needed(
        pages: u32,
        page_bytes: u32,
        k: u32,
        proxies: u32,
        needed: &mut NphNeeded,
    ) -> i32
        ensures { AreNeeded (setting_fault pages page_bytes k proxies) (T.opening.needs (profile_from pages page_bytes k proxies)) result needed.old needed.new }
    {
        match Settings::check(pages, page_bytes, k, proxies) {
            Err(fault) => of_setting(fault),
            Ok(s) => {
                let all = T::bytes_needed(&s);
                *needed = NphNeeded {
                    total: all.total,
                    largest: all.largest,
                    blocks: all.blocks,
                };
                DONE
            }
        }
    }

    /// Opens this `ClosableHeap` with these settings, whose bound k the type must take (`Openable`). Returns `DONE`;
    /// else, with nothing changed, `OPEN` if the heap is open already, the code of the first setting out of range, or
    /// `MEMORY`.
    pub fn open(&mut self, memory: Memory, pages: u32, page_bytes: u32, k: u32, proxies: u32) -> i32
        requires { T.opening.takes k }
        ensures { IsOpenBy (setting_fault pages page_bytes k proxies) (T.opening.is_fresh (profile_from pages page_bytes k proxies)) (caller_heap self.old) result (caller_heap self.new) }
    {
        if self.is_open {
            return OPEN;
        }
        match Settings::check(pages, page_bytes, k, proxies) {
            Err(fault) => of_setting(fault),
            Ok(s) => match T::open(memory, &s, self.last) {
                Some(heap) => {
                    self.put(heap);
                    DONE
                }
                None => MEMORY,
            },
        }
    }

    /// Closes this `ClosableHeap`, frees its memory, and keeps its largest handle for the next
    /// open; does nothing if it is closed.
    pub fn close(&mut self, memory: Memory)
        ensures { caller_heap self.new ≡ closed_with T.opening.last (caller_heap self.old) }
    {
        if !self.is_open {
            return;
        }
        self.last = self.place.lend().last();
        self.is_open = false;
        let place = std::mem::replace(&mut self.place, HeapBlock::nowhere());
        drop(place.into_box(Global::new(memory)));
    }
}
