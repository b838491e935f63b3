//! `OpenHeap`, the heap of the managers with blocks while it is open, and how it is opened.
ghost use Rattle.std.specs.Prelude.{◌≡◌, ◌*◌, ◌^◌, ◌<◌, length, IfOk};
ghost use Rattle.block_model.specs.FreeOrder.{AreListsOf, first_lists};
ghost use Rattle.block_model.specs.Tiling.{one_free_block};
ghost use Rattle.tag_blocks.specs.Blocks.{AreTags, listed};
ghost use Rattle.proxy_table.specs.Proxies.{AreBelowLimit, no_proxies};
ghost use Rattle.cf_model.specs.Rules.{KeepsRules};
ghost use Rattle.cf_model.specs.Steps.{IsEmptyHeap};
ghost use Rattle.cf_base.specs.Settings.{profile_of};
ghost use Rattle.tag_heap.specs.Heap.{tag_state_of};
ghost use Rattle.tag_heap.specs.Needed.{tag_bytes};

use crate::fit_policy::FitPolicy;
use cf_base::{BytesNeeded, OutOfMemory, Settings};
use proxy_table::ProxyTable;
use std::alloc::Global;
use std::marker::Model;
use tag_blocks::TagBlocks;

/// An open heap with blocks. `blocks` has the region, its used and free blocks, and the free lists;
/// `proxies` has the address of each object by the number of its proxy. `asked` counts the bytes of
/// all objects, `used_words` the words of all used blocks, and `cost` the steps of the last malloc or
/// free.
#[derive(Drop)]
pub(crate) struct OpenHeap<B: FitPolicy> {
    pub(crate) settings: Settings,
    pub(crate) blocks: TagBlocks<B>,
    pub(crate) proxies: ProxyTable,
    pub(crate) asked: u64,
    pub(crate) used_words: u32,
    pub(crate) cost: u64,
}

// In contracts an open heap is the `Heap` of its parts, which keeps the invariant `IsValid`.
impl<B: FitPolicy> Model for OpenHeap<B> {
    ghost use Rattle.tag_heap.specs.Heap.{Heap, IsValid, heap_code};

    ghost Value = { Heap };

    ghost coded = { heap_code };

    ghost view = { λ h. record { settings = h.settings; tagged = h.blocks; proxies = h.proxies; asked = h.asked; used_words = h.used_words; cost = h.cost } };

    ghost invariant = { λ h. IsValid B.kind (record {
      settings = h.settings;
      tagged = h.blocks;
      proxies = h.proxies;
      asked = h.asked;
      used_words = h.used_words;
      cost = h.cost;
    }) };
}

impl<B: FitPolicy> OpenHeap<B> {
    /// Returns a heap with blocks and without objects, with the settings `s`. Only this call allocates. It fails with
    /// `OutOfMemory` if an allocation fails.
    pub(crate) fn new(alloc: Global, s: &Settings) -> Result<OpenHeap<B>, OutOfMemory>
        ensures empty { IfOk result (λ h. IsEmptyHeap B.kind s.now (tag_state_of B.kind h)) }
        ensures rules { IfOk result (λ h. KeepsRules (tag_state_of B.kind h)) }
    {
        let blocks = TagBlocks::new(alloc, s.pages * s.page_words)?;
        let proxies = ProxyTable::new(alloc, s.proxies)?;
        Ok(OpenHeap::empty(s, blocks, proxies))
    }

    /// The memory that `OpenHeap::new` asks for, with blocks and the settings `s`: fewer than 2^45 bytes in all.
    pub(crate) fn bytes_needed(s: &Settings) -> BytesNeeded
        ensures needed { result ≡ tag_bytes B.kind (profile_of s.now) }
        ensures few { result.total < 2 ^ 45 }
    {
        let blocks = TagBlocks::<B>::bytes_needed(s.pages * s.page_words);
        blocks.and(ProxyTable::bytes_needed(s.proxies))
    }

    /// Makes an open heap with blocks and without objects. The parts must fit the settings `s`: `blocks` must be one
    /// free block of the whole region, as `TagBlocks::new` makes it, and in `proxies` none may be in use.
    fn empty(s: &Settings, blocks: TagBlocks<B>, proxies: ProxyTable) -> OpenHeap<B>
        requires blocks { blocks.blocks ≡ one_free_block (s.now.pages * s.now.page_words) }
        requires words { length blocks.words ≡ s.now.pages * s.now.page_words }
        requires tags { AreTags blocks }
        requires lists { blocks.lists ≡ first_lists B.rule B.COUNT (s.now.pages * s.now.page_words) }
        requires listed { AreListsOf B.rule B.COUNT (listed blocks) }
        requires proxies { proxies ≡ no_proxies s.now.proxies }
        requires handles { AreBelowLimit proxies }
        ensures empty { IsEmptyHeap B.kind s.now (tag_state_of B.kind result) }
        ensures rules { KeepsRules (tag_state_of B.kind result) }
    {
        OpenHeap {
            settings: *s,
            blocks,
            proxies,
            asked: 0,
            used_words: 0,
            cost: 0,
        }
    }
}
