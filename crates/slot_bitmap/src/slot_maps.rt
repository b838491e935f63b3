//! `SlotMaps`, the maps of the used slots of all pages of a heap, in one table.
ghost use Rattle.std.specs.Prelude.{◌≡◌, ◌*◌, ◌^◌, ◌<◌, ◌≤◌, length, replicate, slice_get, slice_set, not, true, false, IfOk, IfSome, IsNone, is_some, if◌then◌else◌};
ghost use Rattle.std.specs.List.{position, count_by};
ghost use Rattle.step_ledger.specs.Counting.{RoseBy};
ghost use Rattle.slot_bitmap.specs.Maps.{on_page, with_page};
ghost use Rattle.slot_bitmap.specs.Needed.{map_bytes};

use crate::bits;
use crate::page_summary::{PageSummary, SUMMARY_BYTES};
use cf_base::{BytesNeeded, OutOfMemory};
use std::alloc::{AllocError, Global};
use std::marker::Model;
use step_ledger::{Cells, Steps, WordCell, with_bit};

/// The maps of the used slots of all pages. Contracts see a list of truth values for each page, and
/// the most slots that a page may have.
///
/// Each call on a `SlotMap` is here too, for one page, which must be one of the maps' pages, and at the same steps.
/// Each page has only the words that the most slots of a page need: with w words it takes 8 w + 24 bytes, its summary
/// included.
#[derive(Drop)]
pub struct SlotMaps {
    /// Bit b of word `width * p + j` is set if slot 64 j + b of page p is used.
    words: Cells<u64>,
    pages: Vec<PageSummary>,
    /// How many words each page has.
    width: u32,
}

impl Model for SlotMaps {
    ghost use Rattle.std.specs.Prelude.{◌*◌};
    ghost use Rattle.slot_bitmap.specs.Layout.{slots_by_page, AreValid};
    ghost use Rattle.slot_bitmap.specs.Maps.{SlotTable};

    ghost Value = { SlotTable };

    ghost view = { λ m. record { pages = slots_by_page m.width m.words m.pages.items; most = 64 * m.width } };

    ghost invariant = { λ m. AreValid m.width m.words m.pages.items };
}

#[tactic(auto, using(crate::proofs::Pages::page_rules))]
impl SlotMaps {
    /// Makes the maps of `pages` pages that may have up to `most` slots each; `most` is 1 to 4096. Until `renew`, each
    /// map has one free slot, since no class uses the page yet. Only this call allocates. It fails with `OutOfMemory`
    /// if an allocation fails.
    pub fn new(alloc: Global, pages: u32, most: u32) -> Result<SlotMaps, OutOfMemory>
        requires some { 1 ≤ most }
        requires few { most ≤ 4096 }
        ensures pages { IfOk result (λ maps. maps.pages ≡ replicate pages (replicate 1 false)) }
        ensures most { IfOk result (λ maps. most ≤ maps.most) }
    {
        match free_table(alloc, pages, most.div_ceil(64)) {
            Ok(maps) => Ok(maps),
            Err(_) => Err(OutOfMemory),
        }
    }

    /// The memory that new slot maps of `pages` pages with up to `most` slots each, at most 4096, ask for.
    pub fn bytes_needed(pages: u32, most: u32) -> BytesNeeded
        requires { most ≤ 4096 }
        ensures needed { result ≡ map_bytes pages most }
        ensures few { result.total < 2 ^ 42 }
    {
        let summaries = BytesNeeded::block(SUMMARY_BYTES * u64::from(pages));
        summaries.and(BytesNeeded::block(8 * (u64::from(pages) * u64::from(most.div_ceil(64)))))
    }

    /// Turns the map of a page, which must have no used slot, into one of `slots` slots, all free. There must be at
    /// least one slot, and no more than a page may have. For a page that a class begins to use. Costs two steps.
    pub fn renew(&mut self, page: u32, slots: u32, steps: &mut Steps)
        requires page { page < length self.old.pages }
        requires some { 1 ≤ slots }
        requires few { slots ≤ self.old.most }
        requires unused { count_by (λ used. used) (on_page self.old page) ≡ 0 }
        ensures value { self.new ≡ with_page self.old page (replicate slots false) }
        ensures steps { RoseBy steps.old steps.new 2 }
    {
        let summary = &mut self.pages[page as usize];
        summary.slots = slots;
        summary.with_free.set(bits::ones(slots.div_ceil(64)), steps);
        summary.with_used.set(0, steps);
    }

    /// The number of slots of a page in the maps.
    pub fn len(&self, page: u32) -> u32
        requires { page < length self.now.pages }
        ensures { result ≡ length (on_page self.now page) }
    {
        self.pages[page as usize].slots
    }

    /// How many slots of a page in the maps are used. Costs one step.
    pub fn count(&self, page: u32, steps: &mut Steps) -> u32
        requires { page < length self.now.pages }
        ensures value { result ≡ count_by (λ used. used) (on_page self.now page) }
        ensures steps { RoseBy steps.old steps.new 1 }
    {
        steps.tick(1);
        self.pages[page as usize].used
    }

    /// Returns whether slot `i` of a page in the maps is used. Costs one step.
    pub fn is_used(&self, page: u32, i: u32, steps: &mut Steps) -> bool
        requires { i < length (on_page self.now page) }
        ensures value { slice_get (on_page self.now page) i ≡ Some result }
        ensures steps { RoseBy steps.old steps.new 1 }
    {
        let place = page as usize * self.width as usize + (i / 64) as usize;
        bits::has_bit(self.words.get(place, steps), i % 64)
    }

    /// Returns the lowest free slot of a page in the maps; none if all are used. Costs two steps, or one if it returns
    /// none.
    pub fn first_free(&self, page: u32, steps: &mut Steps) -> Option<u32>
        requires { page < length self.now.pages }
        ensures found { result ≡ position (λ used. not used) (on_page self.now page) }
        ensures free { IfSome result (λ i. slice_get (on_page self.now page) i ≡ Some false) }
        ensures steps { RoseBy steps.old steps.new (if is_some result then 2 else 1) }
    {
        let summary = self.pages[page as usize].with_free.get(steps);
        if summary == 0 {
            return None;
        }
        let at = bits::lowest_set(summary);
        let place = page as usize * self.width as usize + at as usize;
        let word = self.words.get(place, steps);
        Some(64 * at + bits::lowest_clear(word))
    }

    /// Returns the lowest used slot of a page in the maps; none if all are free. Costs two steps, or one if it returns
    /// none.
    pub fn first_used(&self, page: u32, steps: &mut Steps) -> Option<u32>
        requires { page < length self.now.pages }
        ensures found { result ≡ position (λ used. used) (on_page self.now page) }
        ensures used { IfSome result (λ i. slice_get (on_page self.now page) i ≡ Some true) }
        ensures steps { RoseBy steps.old steps.new (if is_some result then 2 else 1) }
    {
        let summary = self.pages[page as usize].with_used.get(steps);
        if summary == 0 {
            return None;
        }
        let at = bits::lowest_set(summary);
        let place = page as usize * self.width as usize + at as usize;
        let word = self.words.get(place, steps);
        Some(64 * at + bits::lowest_set(word))
    }

    /// Marks slot `i` of a page in the maps, which must be free, as used. Costs three steps.
    pub fn set(&mut self, page: u32, i: u32, steps: &mut Steps)
        requires { slice_get (on_page self.old page) i ≡ Some false }
        ensures value { self.new ≡ with_page self.old page (slice_set (on_page self.old page) i true) }
        ensures steps { RoseBy steps.old steps.new 3 }
    {
        let at = i / 64;
        let place = page as usize * self.width as usize + at as usize;
        let summary = &mut self.pages[page as usize];
        let word = self.words.write_bit(place, i % 64, true, steps);
        let full = bits::ones((summary.slots - 64 * at).min(64));
        summary.with_free.write_bit(at, word != full, steps);
        summary.with_used.write_bit(at, true, steps);
        summary.used += 1;
    }

    /// Marks the lowest free slot of a page in the maps as used and returns it; none if all are used, and then nothing
    /// changes. Costs three steps, or one if it returns none.
    pub fn take_first(&mut self, page: u32, steps: &mut Steps) -> Option<u32>
        requires { page < length self.old.pages }
        ensures found { result ≡ position (λ used. not used) (on_page self.old page) }
        ensures free { IfSome result (λ i. slice_get (on_page self.old page) i ≡ Some false) }
        ensures taken { IfSome result (λ i. self.new ≡ with_page self.old page (slice_set (on_page self.old page) i true)) }
        ensures none { IsNone result → self.new ≡ self.old }
        ensures steps { RoseBy steps.old steps.new (if is_some result then 3 else 1) }
    {
        let summary = &mut self.pages[page as usize];
        let free = summary.with_free.lend(steps);
        if *free == 0 {
            return None;
        }
        let at = bits::lowest_set(*free);
        let place = page as usize * self.width as usize + at as usize;
        let (bit, word) = self.words.set_least_clear(place, steps);
        let full = bits::ones((summary.slots - 64 * at).min(64));
        *free = with_bit(*free, at, word != full);
        summary.with_used.write_bit(at, true, steps);
        summary.used += 1;
        Some(64 * at + bit)
    }

    /// Marks slot `i` of a page in the maps, which must be used, as free. Costs three steps.
    pub fn unset(&mut self, page: u32, i: u32, steps: &mut Steps)
        requires { slice_get (on_page self.old page) i ≡ Some true }
        ensures value { self.new ≡ with_page self.old page (slice_set (on_page self.old page) i false) }
        ensures steps { RoseBy steps.old steps.new 3 }
    {
        let at = i / 64;
        let place = page as usize * self.width as usize + at as usize;
        let summary = &mut self.pages[page as usize];
        let word = self.words.write_bit(place, i % 64, false, steps);
        summary.with_free.write_bit(at, true, steps);
        summary.with_used.write_bit(at, word != 0, steps);
        summary.used -= 1;
    }
}

/// Makes the maps' table of `pages` pages, each with `width` words, 1 to 64, and one free slot. Fails if an allocation
/// fails.
fn free_table(alloc: Global, pages: u32, width: u32) -> Result<SlotMaps, AllocError>
    requires some { 1 ≤ width }
    requires few { width ≤ 64 }
    ensures pages { IfOk result (λ maps. maps.pages ≡ replicate pages (replicate 1 false)) }
    ensures most { IfOk result (λ maps. maps.most ≡ 64 * width) }
{
    let mut summaries = Vec::with_capacity(alloc, pages as usize)?;
    for _page in 0..pages {
        summaries.push(PageSummary {
            with_free: WordCell::new(1),
            with_used: WordCell::new(0),
            slots: 1,
            used: 0,
        })?;
    }
    Ok(SlotMaps {
        words: Cells::new(vec![in alloc; 0; pages as usize * width as usize]?),
        pages: summaries,
        width,
    })
}
