//! `Classes`: the slot sizes of a heap's pages in a table, the class of an object by its length,
//! and the page of a word of the region.
ghost use Rattle.std.specs.Prelude.{◌≡◌, ◌↔◌, ◌/◌, ◌%◌, ◌^◌, ◌<◌, ◌≤◌, IsTrue, IsNone, IfOk, IfSome, length, slice_index};
ghost use Rattle.step_ledger.specs.Counting.{RoseBy};
ghost use Rattle.cf_base.specs.Classes.{need, slots, class_of};
ghost use Rattle.cf_base.specs.Limits.{is_page_size};
ghost use Rattle.size_classes.specs.Table.{table_of};
ghost use Rattle.size_classes.specs.Needed.{class_table_bytes};

use crate::needs::classes_by_need;
use cf_base::{BytesNeeded, Layout, OutOfMemory, class_count, slot_sizes};
use std::alloc::Global;
use std::marker::Model;
use step_ledger::{Cells, Steps};

/// The size classes of pages: the words of a slot of each class, in rising order (`slot_sizes`). A
/// class is an index into this list; the class in a call must be one.
#[derive(Drop)]
pub struct Classes {
    sizes: Vec<u32>,
    // The class of each need from 0 to a page. A need is the words of an object with its header.
    by_need: Cells<u8>,
    page_words: u32,
    // A page has `2^page_shift` words.
    page_shift: u32,
}

impl Model for Classes {
    ghost use Rattle.size_classes.specs.Table.{ClassTable};
    ghost use Rattle.size_classes.specs.Layout.{IsValid};

    ghost Value = { ClassTable };

    ghost view = { λ c. record { page_words = c.page_words; sizes = c.sizes.items } };

    ghost invariant = { λ c. IsValid c.page_words c.sizes.items c.by_need c.page_shift };
}

impl Classes {
    /// Makes the classes of pages with `page_words` words, a power of two from 64 to 16,384; `layout`
    /// chooses the sequence of slot sizes, in single words or in whole blocks of four. Only this call
    /// allocates. It fails with `OutOfMemory` if an allocation fails.
    pub fn new(alloc: Global, page_words: u32, layout: Layout) -> Result<Classes, OutOfMemory>
        requires { IsTrue (is_page_size page_words) }
        ensures { IfOk result (λ t. t ≡ table_of page_words layout) }
    {
        let Ok(sizes) = slot_sizes(alloc, page_words, layout) else {
            return Err(OutOfMemory);
        };
        let Ok(by_need) = classes_by_need(alloc, &sizes, page_words) else {
            return Err(OutOfMemory);
        };
        Ok(Classes {
            sizes,
            by_need: Cells::new(by_need),
            page_words,
            page_shift: page_words.trailing_zeros(),
        })
    }

    /// The memory that `Classes::new` asks for, with the same `page_words` and `layout`.
    pub fn bytes_needed(page_words: u32, layout: Layout) -> BytesNeeded
        requires { IsTrue (is_page_size page_words) }
        ensures needed { result ≡ class_table_bytes page_words layout }
        ensures few { result.total < 2 ^ 33 }
    {
        let sizes = BytesNeeded::block(4 * u64::from(class_count(page_words, layout)));
        sizes.and(BytesNeeded::block(u64::from(page_words) + 1))
    }

    /// The number of classes in the table.
    pub fn len(&self) -> u32
        ensures { result ≡ length self.now.sizes }
    {
        self.sizes.len() as u32
    }

    /// By `Classes`, how many words a slot of class `c` has.
    pub fn slot_words(&self, c: u32) -> u32
        requires { c < length self.now.sizes }
        ensures value { result ≡ slice_index self.now.sizes c }
        ensures least { 4 ≤ result }
        ensures within { result ≤ self.now.page_words }
    {
        self.sizes[c as usize]
    }

    /// By `Classes`, how many slots of class `c` a page has.
    pub fn slots(&self, c: u32) -> u32
        requires { c < length self.now.sizes }
        ensures value { result ≡ slots self.now.page_words self.now.sizes c }
        ensures some { 1 ≤ result }
        ensures few { result ≤ 4096 }
        ensures wide { result ≤ self.now.page_words / 4 }
    {
        self.page_words / self.slot_words(c)
    }

    /// By `Classes`, how many words a page has.
    pub fn page_words(&self) -> u32
        ensures { result ≡ self.now.page_words }
    {
        self.page_words
    }

    /// By `Classes`, the number of the page on which word `address` of the region is.
    pub fn page_of(&self, address: u32) -> u32
        ensures { result ≡ address / self.now.page_words }
    {
        address >> self.page_shift
    }

    /// By `Classes`, the index of word `address` of the region within its page.
    pub fn offset_of(&self, address: u32) -> u32
        ensures { result ≡ address % self.now.page_words }
    {
        address & (self.page_words - 1)
    }

    /// By the table `Classes`, the class of an object of `bytes` bytes: the one with the smallest
    /// slots that hold the object and its header; none if these need more words than a page has.
    /// Costs one step.
    pub fn class_of(&self, bytes: u32, steps: &mut Steps) -> Option<u32>
        ensures found { result ≡ class_of self.now.sizes bytes }
        ensures none { IsNone result ↔ (self.now.page_words < need bytes) }
        ensures within { IfSome result (λ c. c < length self.now.sizes) }
        ensures steps { RoseBy steps.old steps.new 1 }
    {
        // The words that the object needs (`need_of`), by one division.
        let words = (u64::from(bytes) + 15) / 8;
        if words > u64::from(self.page_words) {
            // A refused size reads an entry too, so that each call costs one step.
            let _class = self.by_need.get(0, steps);
            return None;
        }
        Some(u32::from(self.by_need.get(words as usize, steps)))
    }
}
