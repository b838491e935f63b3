//! Takes a free slot of a class: on its first partly full page, else on the first free page.
//! `lists` has for each class the pages that one owner, a heap or a task, uses.
ghost use Rattle.std.specs.Prelude.{◌≡◌, ◌≢◌, ◌<◌, [], if◌then◌else◌, is_some, length, nat_eq, not, false, true, slice_get, slice_set};
ghost use Rattle.std.specs.List.{Contains, position};
ghost use Rattle.step_ledger.specs.Counting.{RoseAtMost, RoseBy};
ghost use Rattle.class_lists.specs.PageLists.{AreApart, IsUnlisted, pages_in};
ghost use Rattle.slot_bitmap.specs.Maps.{on_page, with_page};
ghost use Rattle.page_slots.specs.PageTables.{tables_with};
ghost use Rattle.page_slots.specs.Tables.{AreTables, JoinsList, KeepsForeign, used_in};
ghost use Rattle.page_slots.specs.Take.{FillsPage, TakesSlot, take_slot_steps};

use crate::page_tables::PageTables;
use crate::place::address_of;
use class_lists::{ClassLists, Which};
use slot_bitmap::SlotMaps;
use step_ledger::Steps;

impl PageTables {
    /// In page tables, takes a free slot of class c and returns its address: the lowest free slot
    /// of the first partly full page of the class, else the first slot of the first page of the
    /// pool. Returns none if the class has no partly full page and no page is free; then nothing
    /// changes. Costs at most 13 steps.
    #[inline(always)]
    pub fn take_slot(&mut self, lists: &mut ClassLists, c: u32, steps: &mut Steps) -> Option<u32>
        requires tables { AreTables self.old.classes (tables_with self.old lists.old) }
        requires class { c < length self.old.classes.sizes }
        ensures taken { TakesSlot self.old.classes (tables_with self.old lists.old) c result
            (tables_with self.new lists.new) }
        ensures others { KeepsForeign (tables_with self.old lists.old) (tables_with self.new lists.new) }
        ensures classes { self.new.classes ≡ self.old.classes }
        ensures kept { AreTables self.old.classes (tables_with self.new lists.new) }
        ensures steps { RoseBy steps.old steps.new (take_slot_steps self.old.classes (tables_with self.old lists.old) c) }
        ensures bound { RoseAtMost steps.old steps.new 13 }
    {
        if lists.len(c, Which::NotFull) == 0 {
            steps.tick(1); // finding that the class has no partly full page
            return self.take_on_free_page(lists, c, steps);
        }
        let Some(page) = lists.front(c, Which::NotFull, steps) else {
            unreachable!();
        };
        let slot = take_least(&mut self.maps, page, steps);
        list_as_full_if_filled(&self.maps, lists, c, page, steps);
        Some(address_of(&self.classes, c, page, slot))
    }

    /// In page tables, takes the first slot of the first page of the pool, which becomes a page of
    /// class c, and returns the slot's address. Returns none if no page is free; then nothing
    /// changes. Costs ten steps, or one if it returns none. For a class without a partly full page.
    #[inline(always)]
    fn take_on_free_page(
        &mut self,
        lists: &mut ClassLists,
        c: u32,
        steps: &mut Steps,
    ) -> Option<u32>
        requires tables { AreTables self.old.classes (tables_with self.old lists.old) }
        requires class { c < length self.old.classes.sizes }
        requires none { pages_in lists.old c Which.NotFull ≡ [] }
        ensures taken { TakesSlot self.old.classes (tables_with self.old lists.old) c result
            (tables_with self.new lists.new) }
        ensures others { KeepsForeign (tables_with self.old lists.old) (tables_with self.new lists.new) }
        ensures classes { self.new.classes ≡ self.old.classes }
        ensures kept { AreTables self.old.classes (tables_with self.new lists.new) }
        ensures steps { RoseBy steps.old steps.new (if is_some result then 10 else 1) }
    {
        let page = self.pool.take(steps)?;
        let slots = self.classes.slots(c);
        self.maps.renew(page, slots, steps);
        self.maps.set(page, 0, steps);
        join_with_one(lists, c, page, slots, steps);
        Some(address_of(&self.classes, c, page, 0))
    }
}

/// In page tables, marks the lowest free slot of a page as used, and returns its number. At least
/// one slot must be free. Costs three steps.
#[inline(always)]
fn take_least(maps: &mut SlotMaps, page: u32, steps: &mut Steps) -> u32
    requires page { page < length maps.old.pages }
    requires some { used_in (on_page maps.old page) < length (on_page maps.old page) }
    ensures least { position (λ used. not used) (on_page maps.old page) ≡ Some result }
    ensures free { slice_get (on_page maps.old page) result ≡ Some false }
    ensures map { maps.new ≡ with_page maps.old page (slice_set (on_page maps.old page) result true) }
    ensures steps { RoseBy steps.old steps.new 3 }
{
    let Some(slot) = maps.take_first(page, steps) else {
        unreachable!();
    };
    slot
}

/// In page tables, if all slots in the map of a page of class c are used, moves the page from the
/// partly full pages to the full ones. Costs nine steps, or one if a slot is free.
#[inline(always)]
fn list_as_full_if_filled(
    maps: &SlotMaps,
    lists: &mut ClassLists,
    c: u32,
    page: u32,
    steps: &mut Steps,
)
    requires page { page < length maps.now.pages }
    requires class { c < lists.old.classes }
    requires apart { AreApart lists.old }
    requires listed { Contains (pages_in lists.old c Which.NotFull) page }
    ensures filled { used_in (on_page maps.now page) ≡ length (on_page maps.now page) → FillsPage lists.old c page lists.new }
    ensures not_filled { used_in (on_page maps.now page) ≢ length (on_page maps.now page) → lists.new ≡ lists.old }
    ensures kept { AreApart lists.new }
    ensures steps { RoseBy steps.old steps.new (if nat_eq (used_in (on_page maps.now page)) (length (on_page maps.now page)) then 9 else 1) }
{
    if maps.count(page, steps) == maps.len(page) {
        lists.unlink(c, Which::NotFull, page, steps);
        lists.push(c, Which::Full, page, steps);
    }
}

/// In page tables, adds a page of class c with `slots` slots, one of them used, to a list of its
/// class: to the full pages if `slots` is 1, else to the partly full ones. The page must be in no
/// list. Costs four steps.
#[inline(always)]
fn join_with_one(lists: &mut ClassLists, c: u32, page: u32, slots: u32, steps: &mut Steps)
    requires class { c < lists.old.classes }
    requires page { page < lists.old.pages }
    requires unlisted { IsUnlisted lists.old page }
    ensures filled { slots ≡ 1 → JoinsList lists.old c Which.Full page lists.new }
    ensures not_filled { slots ≢ 1 → JoinsList lists.old c Which.NotFull page lists.new }
    ensures kept { AreApart lists.new }
    ensures steps { RoseBy steps.old steps.new 4 }
{
    if slots == 1 {
        lists.push(c, Which::Full, page, steps);
    } else {
        lists.push(c, Which::NotFull, page, steps);
    }
}
