//! The fields of an open sliced heap: its tables, the words of its region, and the pending job; and how a heap
//! without objects is made, and what memory it takes. The other files of this crate have its calls.
ghost use Rattle.std.specs.Prelude.{◌≡◌, ◌*◌, ◌^◌, ◌<◌, ◌≤◌, length, replicate, IfOk};
ghost use Rattle.cf_base.specs.Settings.{profile_of};
ghost use Rattle.cf_base.specs.declared.kind.Layout.TheVariants.{Words};
ghost use Rattle.class_lists.specs.PageLists.{empty_lists};
ghost use Rattle.page_slots.specs.PageTables.{AreFirst};
ghost use Rattle.proxy_table.specs.Proxies.{AreBelowLimit, no_proxies};
ghost use Rattle.sliced_heap.specs.Heap.{sliced_seen};
ghost use Rattle.sliced_heap.specs.Layout.{IsNew, IsValid};
ghost use Rattle.sliced_heap.specs.Needed.{sliced_bytes};

use cf_base::{BytesNeeded, Handle, Layout, OutOfMemory, Settings, class_count};
use class_lists::ClassLists;
use page_slots::{CLASSES, PageTables};
use proxy_table::ProxyTable;
use region::Region;
use slice_model::JobSlot;
use std::alloc::Global;

/// The pending job of a sliced heap, or `Idle`.
#[derive(Clone, Copy, Debug, PartialEq, Eq)]
pub enum Pending {
    /// No job is pending.
    Idle,
    /// The job clears this slot, which no object has any more.
    Clear(JobSlot),
    /// The job moves the object of this handle from this slot, its old one, to the address that its
    /// proxy holds already.
    Move(Handle, JobSlot),
}

/// An open sliced heap. `new` makes its fields fit each other (`IsValid`). The other public functions with a heap
/// require this, but for `peek`, `has_job` and `moving`, and a call leaves it true. The functions that are not public
/// require it, or the part of it that they use; a class or a slot that they take must be one of the heap's.
#[derive(Drop)]
pub struct OpenHeap {
    pub(crate) settings: Settings,
    /// The most words that a slice clears or moves.
    pub(crate) quantum: u32,
    /// The number of live objects of each class.
    pub(crate) live: [u32; CLASSES],
    /// The fewest pages that hold the live objects. For each class the number of its objects is divided by
    /// the slots of a page and rounded up; these are summed.
    pub(crate) needed: u32,
    /// The bytes of all live objects (`asked`), and those of their slots (`taken`).
    pub(crate) asked: u64,
    pub(crate) taken: u64,
    /// The words of the heap. Public, so that other crates can lend them.
    pub region: Region,
    /// The size classes, the used slots of each page, and the free pages.
    pub(crate) tables: PageTables,
    /// The full and the partly full pages of each class.
    pub(crate) lists: ClassLists,
    /// The addresses of the objects by number.
    pub(crate) proxies: ProxyTable,
    pub(crate) job: Pending,
}

impl OpenHeap {
    /// Opens a heap without objects and without a job, with the settings `s` and slices of at most `quantum`
    /// words, which must be at least 1. No other function of `OpenHeap` allocates. Fails if out of memory.
    pub fn new(alloc: Global, s: &Settings, quantum: u32) -> Result<OpenHeap, OutOfMemory>
        requires least { 1 ≤ quantum }
        ensures kept { IfOk result (λ h. IsValid (sliced_seen h)) }
        ensures new { IfOk result (λ h. IsNew s.now quantum (sliced_seen h)) }
    {
        let region = Region::new(alloc, s.pages * s.page_words)?;
        let tables = PageTables::new(alloc, s, Layout::Words)?;
        let lists = ClassLists::new(alloc, tables.classes.len(), s.pages)?;
        let proxies = ProxyTable::new(alloc, s.proxies)?;
        Ok(OpenHeap::empty(s, quantum, region, tables, lists, proxies))
    }

    /// The memory that `OpenHeap::new` of a sliced heap asks for.
    pub fn bytes_needed(s: &Settings) -> BytesNeeded
        ensures needed { result ≡ sliced_bytes (profile_of s.now) }
        ensures few { result.total < 2 ^ 44 }
    {
        let layout = Layout::Words;
        let lists = ClassLists::bytes_needed(class_count(s.page_words, layout), s.pages);
        let words = PageTables::bytes_needed(s, layout).and(Region::bytes_needed(
            s.pages * s.page_words,
        ));
        words.and(lists.and(ProxyTable::bytes_needed(s.proxies)))
    }

    /// Returns the open sliced heap that consists of these parts: a region of zeros, and tables, page lists and proxies
    /// without an object.
    fn empty(
        s: &Settings,
        quantum: u32,
        region: Region,
        tables: PageTables,
        lists: ClassLists,
        proxies: ProxyTable,
    ) -> OpenHeap
        requires least { 1 ≤ quantum }
        requires region { region ≡ replicate (s.now.pages * s.now.page_words) 0 }
        requires tables { AreFirst s.now Words tables }
        requires lists { lists ≡ empty_lists (length tables.classes.sizes) s.now.pages }
        requires proxies { proxies ≡ no_proxies s.now.proxies }
        requires handles { AreBelowLimit proxies }
        ensures kept { IsValid (sliced_seen result) }
        ensures new { IsNew s.now quantum (sliced_seen result) }
    {
        OpenHeap {
            settings: *s,
            quantum,
            live: [0; CLASSES],
            needed: 0,
            asked: 0,
            taken: 0,
            region,
            tables,
            lists,
            proxies,
            job: Pending::Idle,
        }
    }
}
