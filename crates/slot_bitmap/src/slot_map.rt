//! `SlotMap`, the map of the used slots of a page.
ghost use Rattle.std.specs.Prelude.{◌≡◌, ◌<◌, ◌≤◌, length, replicate, slice_get, slice_set, not, true, false, IfSome, is_some, if◌then◌else◌};
ghost use Rattle.std.specs.List.{position, count_by};
ghost use Rattle.step_ledger.specs.Counting.{RoseBy};

use crate::bits;
use crate::page_summary::PageSummary;
use std::marker::Model;
use step_ledger::{CellArray, Steps, WordCell};

/// The map of the used slots of a page. Contracts see a list with a truth value for each slot: true
/// if it is used.
///
/// It holds a bit for each slot in words of 64 bits, and two summary words, which show the words
/// with a free slot and those with a used one. It allocates no memory: it has 536 bytes. The heaps
/// keep the maps of all their pages in one `SlotMaps`.
#[derive(Drop)]
pub struct SlotMap {
    /// Bit b of word j is set if slot 64 j + b is used.
    words: CellArray<u64, 64>,
    summary: PageSummary,
}

impl Model for SlotMap {
    ghost use Rattle.std.specs.Prelude.{List, Bool};
    ghost use Rattle.slot_bitmap.specs.Layout.{slots_in_words, word_in, IsMap};

    ghost Value = { List Bool };

    ghost view = { λ m. slots_in_words (word_in m.words) m.summary.slots };

    ghost invariant = { λ m. IsMap m.words m.summary };
}

#[tactic(auto, using(crate::proofs::Slots::slot_rules))]
impl SlotMap {
    /// Makes a `SlotMap` of `slots` slots, 1 to 4096, all free.
    pub fn new(slots: u32) -> SlotMap
        requires some { 1 ≤ slots }
        requires few { slots ≤ 4096 }
        ensures { result ≡ replicate slots false }
    {
        SlotMap {
            words: CellArray::new([0; 64]),
            summary: PageSummary {
                with_free: WordCell::new(bits::ones(slots.div_ceil(64))),
                with_used: WordCell::new(0),
                slots,
                used: 0,
            },
        }
    }

    /// The number of slots of this map.
    pub fn len(&self) -> u32
        ensures { result ≡ length self.now }
    {
        self.summary.slots
    }

    /// How many slots of this map are used. Costs one step.
    pub fn count(&self, steps: &mut Steps) -> u32
        ensures value { result ≡ count_by (λ used. used) self.now }
        ensures steps { RoseBy steps.old steps.new 1 }
    {
        steps.tick(1);
        self.summary.used
    }

    /// Returns whether slot `i` of this map is used. Costs one step.
    pub fn is_used(&self, i: u32, steps: &mut Steps) -> bool
        requires { i < length self.now }
        ensures value { slice_get self.now i ≡ Some result }
        ensures steps { RoseBy steps.old steps.new 1 }
    {
        bits::has_bit(self.words.get((i / 64) as usize, steps), i % 64)
    }

    /// Returns the lowest free slot of this map; none if all are used. Costs two steps, or one if it returns none.
    pub fn first_free(&self, steps: &mut Steps) -> Option<u32>
        ensures found { result ≡ position (λ used. not used) self.now }
        ensures free { IfSome result (λ i. slice_get self.now i ≡ Some false) }
        ensures steps { RoseBy steps.old steps.new (if is_some result then 2 else 1) }
    {
        let summary = self.summary.with_free.get(steps);
        if summary == 0 {
            return None;
        }
        let at = bits::lowest_set(summary);
        let word = self.words.get(at as usize, steps);
        Some(64 * at + bits::lowest_clear(word))
    }

    /// Returns the lowest used slot of this map; none if all are free. Costs two steps, or one if it returns none.
    pub fn first_used(&self, steps: &mut Steps) -> Option<u32>
        ensures found { result ≡ position (λ used. used) self.now }
        ensures used { IfSome result (λ i. slice_get self.now i ≡ Some true) }
        ensures steps { RoseBy steps.old steps.new (if is_some result then 2 else 1) }
    {
        let summary = self.summary.with_used.get(steps);
        if summary == 0 {
            return None;
        }
        let at = bits::lowest_set(summary);
        let word = self.words.get(at as usize, steps);
        Some(64 * at + bits::lowest_set(word))
    }

    /// Marks slot `i` of this map, which must be free, as used. Costs three steps.
    pub fn set(&mut self, i: u32, steps: &mut Steps)
        requires { slice_get self.old i ≡ Some false }
        ensures value { self.new ≡ slice_set self.old i true }
        ensures steps { RoseBy steps.old steps.new 3 }
    {
        prove!(i < self.summary.slots);
        let at = i / 64;
        let word = self.words.write_bit(at as usize, i % 64, true, steps);
        let full = bits::ones((self.summary.slots - 64 * at).min(64));
        self.summary.with_free.write_bit(at, word != full, steps);
        self.summary.with_used.write_bit(at, true, steps);
        self.summary.used += 1;
    }

    /// Marks slot `i` of this map, which must be used, as free. Costs three steps.
    pub fn unset(&mut self, i: u32, steps: &mut Steps)
        requires { slice_get self.old i ≡ Some true }
        ensures value { self.new ≡ slice_set self.old i false }
        ensures steps { RoseBy steps.old steps.new 3 }
    {
        prove!(i < self.summary.slots);
        let at = i / 64;
        let word = self.words.write_bit(at as usize, i % 64, false, steps);
        self.summary.with_free.write_bit(at, true, steps);
        self.summary.with_used.write_bit(at, word != 0, steps);
        self.summary.used -= 1;
    }
}
