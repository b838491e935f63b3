//! `PageTables`: the size classes, the used slots and the free pages of a region. `CLASSES`: the
//! length of arrays with an entry for each class.
ghost use Rattle.std.specs.Prelude.{◌/◌, ◌^◌, ◌<◌, ◌≤◌};

use cf_base::{BytesNeeded, Layout, OutOfMemory, Settings};
use page_pool::PagePool;
use size_classes::Classes;
use slot_bitmap::SlotMaps;
use std::alloc::Global;

/// The length of an array with an entry for each size class. No heap has more classes.
pub const CLASSES: usize = 128;

/// What all owners of a region's pages share: the size classes, the maps of the slots of all pages,
/// and the pool of free pages. An owner is a heap, or a task of the heap of tasks; it lists the
/// pages that it uses, by class, in a `ClassLists`. The public calls that choose, take or free a
/// slot require that the tables, with the owner's lists, keep their rules (`AreTables`), and that
/// they have the class. They keep these rules, and leave the pages of other owners unchanged.
#[derive(Drop)]
pub struct PageTables {
    pub classes: Classes,
    pub maps: SlotMaps,
    pub pool: PagePool,
    /// Each slot has at least four words, so the maps have room for the slots of each class.
    pub ghost room: { classes.page_words / 4 ≤ maps.most },
}

impl PageTables {
    ghost use Rattle.std.specs.Prelude.{◌≡◌, IfOk};
    ghost use Rattle.cf_base.specs.Settings.{profile_of};
    ghost use Rattle.page_slots.specs.PageTables.{AreFirst};
    ghost use Rattle.page_slots.specs.Needed.{table_bytes};

    /// Makes tables in which all pages of the settings are free, with slot sizes of this layout.
    /// Only this call of `PageTables` allocates. It fails with `OutOfMemory` if an allocation
    /// fails.
    pub fn new(alloc: Global, s: &Settings, layout: Layout) -> Result<PageTables, OutOfMemory>
        ensures { IfOk result (λ t. AreFirst s.now layout t) }
    {
        Ok(PageTables {
            classes: Classes::new(alloc, s.page_words, layout)?,
            maps: SlotMaps::new(alloc, s.pages, s.page_words / 4)?,
            pool: PagePool::new(alloc, s.pages)?,
        })
    }

    /// The memory that new page tables (`PageTables`) ask for.
    pub fn bytes_needed(s: &Settings, layout: Layout) -> BytesNeeded
        ensures needed { result ≡ table_bytes (profile_of s.now) layout }
        ensures few { result.total < 2 ^ 43 }
    {
        let classes = Classes::bytes_needed(s.page_words, layout);
        let maps = SlotMaps::bytes_needed(s.pages, s.page_words / 4);
        classes.and(maps).and(PagePool::bytes_needed(s.pages))
    }
}
