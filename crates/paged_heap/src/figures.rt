//! The figures of an open heap with pages: counts of classes, live objects, bytes, pages and slots.
ghost use Rattle.std.specs.Prelude.{◌≡◌, ◌*◌, ◌<◌, ◌≤◌, if◌then◌else◌, nat_eq, nat_lt, Some, None};
ghost use Rattle.page_model.specs.Arrangement.{pages_of_class, not_full_pages, free_pages};
ghost use Rattle.page_model.specs.Figures.{figures_of, totals_of};
ghost use Rattle.page_model.specs.Paging.{classes};
ghost use Rattle.paged_heap.specs.Heap.{seen};
ghost use Rattle.paged_heap.specs.Layout.{Holds, paging_at, held_in};

use crate::open_heap::OpenHeap;
use cf_base::{Figures, Totals};
use class_lists::Which;
use virtual_words::Mapping;

impl OpenHeap {
    /// The number of size classes of an open heap with pages.
    pub fn class_count<A: Mapping>(&self) -> u32
        requires { Holds A.kind self.now }
        ensures value { result ≡ classes (paging_at (seen A.kind self.now)) }
        ensures few { result ≤ 67 }
    {
        self.tables.classes.len()
    }

    /// The number of pages of class c of an open heap, full or partly full. The heap must have this
    /// class.
    pub fn pages_of<A: Mapping>(&self, c: u32) -> u32
        requires kept { Holds A.kind self.now }
        requires class { c < classes (paging_at (seen A.kind self.now)) }
        ensures { result ≡ pages_of_class (paging_at (seen A.kind self.now)) (held_in (seen A.kind self.now)) c }
    {
        self.lists.len(c, Which::Full) + self.lists.len(c, Which::NotFull)
    }

    /// The number of partly full pages of class c of an open heap. The heap must have this class.
    pub fn not_full<A: Mapping>(&self, c: u32) -> u32
        requires kept { Holds A.kind self.now }
        requires class { c < classes (paging_at (seen A.kind self.now)) }
        ensures { result ≡ not_full_pages (paging_at (seen A.kind self.now)) (held_in (seen A.kind self.now)) c }
    {
        self.lists.len(c, Which::NotFull)
    }

    /// The number of free pages of an open heap with pages.
    pub fn free_pages<A: Mapping>(&self) -> u32
        requires { Holds A.kind self.now }
        ensures value { result ≡ free_pages (paging_at (seen A.kind self.now)) (held_in (seen A.kind self.now)) }
        ensures few { result ≤ self.now.settings.pages }
    {
        self.tables.pool.left()
    }

    /// The figures of class c of an open heap with pages: its slot size, slots of a page, live
    /// objects, pages and partly full pages. None if there is no such class.
    pub fn figures<A: Mapping>(&self, c: u32) -> Option<Figures>
        requires { Holds A.kind self.now }
        ensures { result ≡ if nat_lt c (classes (paging_at (seen A.kind self.now)))
            then Some (figures_of (paging_at (seen A.kind self.now)) (held_in (seen A.kind self.now)) c) else None }
    {
        if c < self.class_count::<A>() {
            Some(self.figures_of::<A>(c))
        } else {
            None
        }
    }

    /// The figures of class c of an open heap, as `figures` returns them. The heap must have this
    /// class.
    fn figures_of<A: Mapping>(&self, c: u32) -> Figures
        requires kept { Holds A.kind self.now }
        requires class { c < classes (paging_at (seen A.kind self.now)) }
        ensures { result ≡ figures_of (paging_at (seen A.kind self.now)) (held_in (seen A.kind self.now)) c }
    {
        Figures {
            slot_words: self.tables.classes.slot_words(c),
            slots: self.tables.classes.slots(c),
            live: self.live[c as usize],
            pages: self.pages_of::<A>(c),
            not_full: self.not_full::<A>(c),
        }
    }

    /// The figures of a whole open heap with pages: live objects, their bytes and those of their
    /// slots, the used pages and their bytes, the free pages, and the words of a page if one is
    /// free, else 0.
    pub fn totals<A: Mapping>(&self) -> Totals
        requires { Holds A.kind self.now }
        ensures { result ≡ totals_of (paging_at (seen A.kind self.now)) (held_in (seen A.kind self.now)) }
    {
        let free = self.free_pages::<A>();
        let used = self.settings.pages - free;
        Totals {
            live: self.proxies.live(),
            asked: self.asked,
            taken: self.taken,
            held: self.bytes_of::<A>(used),
            used,
            free,
            largest: self.largest(free),
        }
    }

    /// The number of bytes in `pages` pages of an open heap. The heap must have so many pages.
    fn bytes_of<A: Mapping>(&self, pages: u32) -> u64
        requires kept { Holds A.kind self.now }
        requires few { pages ≤ self.now.settings.pages }
        ensures { result ≡ 8 * self.now.settings.page_words * pages }
    {
        8 * u64::from(self.settings.page_words) * u64::from(pages)
    }

    /// The figure `largest` of an open heap with pages: the words of a page, or 0 if `free`, the
    /// number of free pages, is 0.
    fn largest(&self, free: u32) -> u32
        ensures { result ≡ if nat_eq free 0 then 0 else self.now.settings.page_words }
    {
        if free == 0 {
            0
        } else {
            self.settings.page_words
        }
    }
}
