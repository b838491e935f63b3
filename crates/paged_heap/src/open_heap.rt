//! `OpenHeap`, the heap of the managers with pages while it is open, how it is opened, and what memory that needs.
ghost use Rattle.std.specs.Prelude.{◌≡◌, ◌*◌, ◌^◌, ◌<◌, length, replicate, IfOk};
ghost use Rattle.cf_base.specs.declared.kind.Layout.{Layout};
ghost use Rattle.cf_base.specs.Settings.{profile_of};
ghost use Rattle.cf_model.specs.State.{layout_of};
ghost use Rattle.cf_model.specs.Steps.{IsEmptyHeap};
ghost use Rattle.class_lists.specs.PageLists.{empty_lists};
ghost use Rattle.page_slots.specs.PageTables.{AreFirst};
ghost use Rattle.proxy_table.specs.Proxies.{AreBelowLimit, no_proxies};
ghost use Rattle.paged_heap.specs.Layout.{Holds, state_at};
ghost use Rattle.paged_heap.specs.FirstTable.{IsFirstTable};
ghost use Rattle.paged_heap.specs.Needed.{open_bytes};

use block_table::BlockTable;
use cf_base::{BytesNeeded, Layout, OutOfMemory, Settings, class_count};
use class_lists::ClassLists;
use page_slots::{CLASSES, PageTables};
use proxy_table::ProxyTable;
use region::Region;
use std::alloc::Global;
use virtual_words::Mapping;

/// An open heap with pages. By class, `bounds` is how many pages may be partly full, and `live` the number of live
/// objects. `asked` and `taken` are the bytes of all objects and of their slots. `cost` is the steps of the last
/// malloc, free or resize, 0 before the first. `blocks` is the block table, which only the non-moving manager has.
/// `tables` has the slot sizes, the used slots of each page and the free pages, `lists` the pages of each class, and
/// `proxies` the address of each object by its number, which is that of its proxy. The public calls require and keep
/// the heap's invariant (`Holds`); before a malloc, free or resize the ledger's count must be at most 2 ^ 63.
#[derive(Drop)]
pub struct OpenHeap {
    pub settings: Settings,
    pub bounds: [u32; CLASSES],
    pub live: [u32; CLASSES],
    pub asked: u64,
    pub taken: u64,
    pub cost: u64,
    pub region: Region,
    pub blocks: Option<BlockTable>,
    pub tables: PageTables,
    pub lists: ClassLists,
    pub proxies: ProxyTable,
}

impl OpenHeap {
    /// Opens a heap with pages without objects: with the settings s, the slot sizes of this layout, which must be the
    /// kind's, and the block table of a new heap (`IsFirstTable`), if the kind has one. Fails if out of memory; no
    /// other call of the heap allocates.
    pub fn new<A: Mapping>(
        alloc: Global,
        s: &Settings,
        layout: Layout,
        blocks: Option<BlockTable>,
    ) -> Result<OpenHeap, OutOfMemory>
        requires layout { layout ≡ layout_of A.kind }
        requires blocks { IsFirstTable A.kind s.now blocks }
        ensures kept { IfOk result (λ h. Holds A.kind h) }
        ensures empty { IfOk result (λ h. IsEmptyHeap A.kind s.now (state_at A.kind h)) }
    {
        let tables = PageTables::new(alloc, s, layout)?;
        let region = Region::new(alloc, s.pages * s.page_words)?;
        let lists = ClassLists::new(alloc, tables.classes.len(), s.pages)?;
        let proxies = ProxyTable::new(alloc, s.proxies)?;
        Ok(OpenHeap::empty::<A>(s, region, blocks, tables, lists, proxies))
    }

    /// The memory that `OpenHeap::new` asks for.
    pub(crate) fn bytes_needed(s: &Settings, layout: Layout) -> BytesNeeded
        ensures needed { result ≡ open_bytes (profile_of s.now) layout }
        ensures few { result.total < 2 ^ 44 }
    {
        let lists = ClassLists::bytes_needed(class_count(s.page_words, layout), s.pages);
        let words = PageTables::bytes_needed(s, layout).and(Region::bytes_needed(
            s.pages * s.page_words,
        ));
        words.and(lists.and(ProxyTable::bytes_needed(s.proxies)))
    }

    /// Returns the open heap with pages that consists of these parts, which must be those of a heap without objects.
    fn empty<A: Mapping>(
        s: &Settings,
        region: Region,
        blocks: Option<BlockTable>,
        tables: PageTables,
        lists: ClassLists,
        proxies: ProxyTable,
    ) -> OpenHeap
        requires region { region ≡ replicate (s.now.pages * s.now.page_words) 0 }
        requires blocks { IsFirstTable A.kind s.now blocks }
        requires tables { AreFirst s.now (layout_of A.kind) tables }
        requires lists { lists ≡ empty_lists (length tables.classes.sizes) s.now.pages }
        requires proxies { proxies ≡ no_proxies s.now.proxies }
        requires handles { AreBelowLimit proxies }
        ensures kept { Holds A.kind result }
        ensures empty { IsEmptyHeap A.kind s.now (state_at A.kind result) }
    {
        OpenHeap {
            settings: *s,
            bounds: [s.k; CLASSES],
            live: [0; CLASSES],
            asked: 0,
            taken: 0,
            cost: 0,
            region,
            blocks,
            tables,
            lists,
            proxies,
        }
    }
}
