//! Frees the slot of an object that is freed or has moved away (`drop_slot`) or, if another object
//! moves into this slot, the old slot of that object (`fill_slot`). `must_move` returns whether one
//! must move, and `filler` the address of the one that does. `lists` has for each class the pages
//! that one owner, a heap or a task, uses.
ghost use Rattle.std.specs.Prelude.{◌≡◌, ◌≢◌, ℕ, ◌<◌, ◌≤◌, [], ◌↔◌, IsTrue, length, false, true, slice_get, slice_index_or};
ghost use Rattle.std.specs.List.{Contains, position};
ghost use Rattle.step_ledger.specs.Counting.{RoseAtMost, RoseBy};
ghost use Rattle.class_lists.specs.PageLists.{AreApart, pages_in};
ghost use Rattle.class_lists.specs.declared.Which.TheVariants.{Full, NotFull};
ghost use Rattle.page_pool.specs.Pool.{IsPool, is_in_pool};
ghost use Rattle.size_classes.specs.Table.{IsClassTable};
ghost use Rattle.slot_bitmap.specs.Maps.{on_page};
ghost use Rattle.page_slots.specs.PageTables.{tables_with};
ghost use Rattle.page_slots.specs.Tables.{AreTables, IsUsed, KeepsForeign, page_at, slot_at, used_in};
ghost use Rattle.page_slots.specs.Release.{FillsFrom, HasUsedSlot, IsFiller, MovesObject, MakesPagePartlyFull, Vacates, drop_slot_steps, fill_slot_steps, steps_to_vacate};

use crate::page_tables::PageTables;
use crate::place::{address_of, slot_of};
use class_lists::{ClassLists, Which};
use slot_bitmap::SlotMaps;
use step_ledger::Steps;

impl PageTables {
    /// In page tables, returns whether a free of the slot of class c at the address `at` must move
    /// an object: the slot's page is full and has several slots, and the class has exactly `bound`
    /// partly full pages. Costs one step.
    pub fn must_move(
        &self,
        lists: &ClassLists,
        c: u32,
        at: u32,
        bound: u32,
        steps: &mut Steps,
    ) -> bool
        requires table { IsClassTable self.now.classes.page_words self.now.classes.sizes }
        requires page { page_at self.now.classes at < length self.now.maps.pages }
        requires class { c < lists.now.classes }
        ensures value { IsTrue result ↔ MovesObject (slice_index_or self.now.maps.pages (page_at self.now.classes at) [])
            (length (pages_in lists.now c Which.NotFull)) bound }
        ensures steps { RoseBy steps.old steps.new 1 }
    {
        let page = self.classes.page_of(at);
        let used = self.maps.count(page, steps);
        used == self.maps.len(page) && used > 1 && lists.len(c, Which::NotFull) == bound
    }

    /// In page tables, frees the used slot of class c at the address `at`, without a move. If its
    /// page is then empty, the page returns to the pool; else, if it was full, it becomes the first
    /// partly full page. Costs at most 13 steps.
    #[inline(always)]
    pub fn drop_slot(&mut self, lists: &mut ClassLists, c: u32, at: u32, steps: &mut Steps)
        requires tables { AreTables self.old.classes (tables_with self.old lists.old) }
        requires used { IsUsed (tables_with self.old lists.old) c (page_at self.old.classes at)
            (slot_at self.old.classes c at) }
        ensures freed { Vacates (tables_with self.old lists.old) c (page_at self.old.classes at)
            (slot_at self.old.classes c at) (tables_with self.new lists.new) }
        ensures others { KeepsForeign (tables_with self.old lists.old) (tables_with self.new lists.new) }
        ensures classes { self.new.classes ≡ self.old.classes }
        ensures kept { AreTables self.old.classes (tables_with self.new lists.new) }
        ensures steps { RoseBy steps.old steps.new (drop_slot_steps (tables_with self.old lists.old) (page_at self.old.classes at)) }
        ensures bound { RoseAtMost steps.old steps.new 13 }
    {
        let page = self.classes.page_of(at);
        let slot = slot_of(&self.classes, c, at);
        let which = list_of(&self.maps, page, steps);
        self.vacate(lists, c, which, page, slot, steps);
    }

    /// In page tables, returns the address of the object that moves into a freed slot of class c:
    /// the one at the lowest used slot of the first partly full page of the class. There must be
    /// such a page. Changes nothing. Costs three steps.
    pub fn filler(&self, lists: &ClassLists, c: u32, steps: &mut Steps) -> u32
        requires tables { AreTables self.now.classes (tables_with self.now lists.now) }
        requires class { c < length self.now.classes.sizes }
        requires some { 1 ≤ length (pages_in lists.now c Which.NotFull) }
        ensures filler { IsFiller self.now.classes self.now.maps.pages lists.now c result }
        ensures steps { RoseBy steps.old steps.new 3 }
    {
        let (page, slot) = self.filling_slot(lists, c, steps);
        address_of(&self.classes, c, page, slot)
    }

    /// In page tables, frees the slot of the object that `filler` chooses for class c, which must
    /// have a partly full page, and returns this object's address. Moves nothing; the slot that the
    /// object moves into stays marked as used. A page that is then empty returns to the pool. Costs
    /// at most 12 steps.
    // Inlined, so that a caller with a ledger of its own keeps its count in a register.
    #[inline(always)]
    pub fn fill_slot(&mut self, lists: &mut ClassLists, c: u32, steps: &mut Steps) -> u32
        requires tables { AreTables self.old.classes (tables_with self.old lists.old) }
        requires class { c < length self.old.classes.sizes }
        requires some { 1 ≤ length (pages_in lists.old c Which.NotFull) }
        ensures filled { FillsFrom self.old.classes (tables_with self.old lists.old) c result
            (tables_with self.new lists.new) }
        ensures others { KeepsForeign (tables_with self.old lists.old) (tables_with self.new lists.new) }
        ensures classes { self.new.classes ≡ self.old.classes }
        ensures kept { AreTables self.old.classes (tables_with self.new lists.new) }
        ensures steps { RoseBy steps.old steps.new (fill_slot_steps (tables_with self.old lists.old) c) }
        ensures bound { RoseAtMost steps.old steps.new 12 }
    {
        let (page, slot) = self.filling_slot(lists, c, steps);
        let address = address_of(&self.classes, c, page, slot);
        self.vacate(lists, c, Which::NotFull, page, slot, steps);
        address
    }

    /// In page tables, returns the first partly full page of class c, of which there must be one,
    /// and the number of its lowest used slot. Costs three steps.
    fn filling_slot(&self, lists: &ClassLists, c: u32, steps: &mut Steps) -> (u32, u32)
        requires class { c < lists.now.classes }
        requires some { 1 ≤ length (pages_in lists.now c Which.NotFull) }
        requires used { (page : ℕ) → Some page ≡ slice_get (pages_in lists.now c Which.NotFull) 0 → HasUsedSlot self.now.maps.pages page }
        ensures front { slice_get (pages_in lists.now c Which.NotFull) 0 ≡ Some result.0 }
        ensures least { position (λ used. used) (slice_index_or self.now.maps.pages result.0 []) ≡ Some result.1 }
        ensures used { slice_get (slice_index_or self.now.maps.pages result.0 []) result.1 ≡ Some true }
        ensures steps { RoseBy steps.old steps.new 3 }
    {
        let Some(page) = lists.front(c, Which::NotFull, steps) else {
            unreachable!();
        };
        let Some(slot) = self.maps.first_used(page, steps) else {
            unreachable!();
        };
        (page, slot)
    }

    /// In page tables, frees the used slot number `slot` of a page that is in the list `which` of
    /// class c. If the page is then empty, it leaves the list and returns to the pool; else, if it
    /// was full, it becomes the first partly full page. Costs at most 12 steps.
    #[inline(always)]
    fn vacate(
        &mut self,
        lists: &mut ClassLists,
        c: u32,
        which: Which,
        page: u32,
        slot: u32,
        steps: &mut Steps,
    )
        requires class { c < lists.old.classes }
        requires apart { AreApart lists.old }
        requires pool { IsPool self.old.pool }
        requires page { page < length self.old.maps.pages }
        requires within { page < self.old.pool.pages }
        requires taken { is_in_pool self.old.pool.free page ≡ false }
        requires listed { Contains (pages_in lists.old c which) page }
        requires used { slice_get (slice_index_or self.old.maps.pages page []) slot ≡ Some true }
        ensures freed { Vacates (tables_with self.old lists.old) c page slot (tables_with self.new lists.new) }
        ensures classes { self.new.classes ≡ self.old.classes }
        ensures lists { AreApart lists.new }
        ensures pool { IsPool self.new.pool }
        ensures steps { RoseBy steps.old steps.new (steps_to_vacate which (used_in (slice_index_or self.old.maps.pages page []))) }
        ensures bound { RoseAtMost steps.old steps.new 12 }
    {
        self.maps.unset(page, slot, steps);
        if self.maps.count(page, steps) == 0 {
            lists.unlink(c, which, page, steps);
            self.pool.give(page, steps);
        } else {
            list_as_partly_full(lists, c, which, page, steps);
        }
    }
}

/// In page tables, returns which list a page of a class is in: that of the full pages if all its
/// slots are used, else that of the partly full ones. Costs one step.
fn list_of(maps: &SlotMaps, page: u32, steps: &mut Steps) -> Which
    requires { page < length maps.now.pages }
    ensures full { used_in (on_page maps.now page) ≡ length (on_page maps.now page) → result ≡ Which.Full }
    ensures not_full { used_in (on_page maps.now page) ≢ length (on_page maps.now page) → result ≡ Which.NotFull }
    ensures steps { RoseBy steps.old steps.new 1 }
{
    if maps.count(page, steps) == maps.len(page) {
        Which::Full
    } else {
        Which::NotFull
    }
}

/// In page tables, moves a page of class c from the full pages to the partly full ones, if `which`,
/// the list that the page is in, is that of the full pages; else does nothing. A move costs eight
/// steps.
fn list_as_partly_full(lists: &mut ClassLists, c: u32, which: Which, page: u32, steps: &mut Steps)
    requires class { c < lists.old.classes }
    requires apart { AreApart lists.old }
    requires listed { Contains (pages_in lists.old c which) page }
    ensures opened { which ≡ Which.Full → MakesPagePartlyFull lists.old c page lists.new }
    ensures still { which ≡ Which.NotFull → lists.new ≡ lists.old }
    ensures kept { AreApart lists.new }
    ensures steps { RoseBy steps.old steps.new (elim which [ Full ↦ 8 | NotFull ↦ 0 ]) }
{
    match which {
        Which::Full => {
            lists.unlink(c, Which::Full, page, steps);
            lists.push(c, Which::NotFull, page, steps);
        }
        Which::NotFull => {}
    }
}
