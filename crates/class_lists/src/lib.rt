//! The full pages and the partly full pages of each class, in linked lists (`ClassLists`). Adding a
//! page to a list costs four steps, and so does removing one.
#![tactic(auto)]

ghost use Rattle.std.specs.Prelude.{◌≡◌, ◌+◌, ◌*◌, ◌<◌, ◌^◌, ◌↔◌, [], ◌∷◌, IfOk, IfSome, IsNone, length, slice_get, slice_set};
ghost use Rattle.std.specs.List.{Contains, range_with_len};
ghost use Rattle.cf_base.specs.Lists.{without_number};
ghost use Rattle.class_lists.specs.Needed.{list_bytes};
ghost use Rattle.step_ledger.specs.Counting.{RoseBy};
ghost use Rattle.class_lists.specs.PageLists.{AreApart, AreEmpty, IsUnlisted, KeepsOthers, empty_lists, list_number, pages_in, with_list};

mod counts;

use cf_base::{BytesNeeded, OutOfMemory, numbers_below};
use counts::Counts;
use std::alloc::{AllocError, Global};
use std::marker::Model;
use step_ledger::{Cells, Steps};

/// Which of the two lists of a class is meant.
#[derive(Clone, Copy, Debug, PartialEq, Eq)]
pub enum Which {
    /// The pages without a free slot.
    Full,
    /// The partly full pages.
    NotFull,
}

/// Two lists of pages for each class, one for each `Which`. No page is in two lists, or twice in
/// one. Calls take only the classes and pages for which the lists were made.
#[derive(Drop)]
pub struct ClassLists {
    // A list is a ring: its own node, then the nodes of its pages in order.
    links: Links,
    /// How many pages each list has.
    lens: Counts,
    /// How many pages there are, in lists or not.
    pages: u32,
}

/// The rings of nodes that are the lists: for each node the next and the previous one in its ring.
/// Each page has a node, and after these each list has one.
#[derive(Drop)]
struct Links {
    /// By node, the next node of its ring.
    next: Cells<u32>,
    /// By node, the previous node of its ring.
    previous: Cells<u32>,
}

impl Model for ClassLists {
    ghost use Rattle.class_lists.specs.PageLists.{PageLists, lists_code};

    ghost Value = { PageLists };

    ghost coded = { lists_code };

    ghost use Rattle.class_lists.specs.Layout.{lists_of, IsValid};

    ghost view = { λ l. lists_of l.links.next l.lens l.pages };

    ghost invariant = { λ l. IsValid l.links.next l.links.previous l.lens l.pages };
}

impl ClassLists {
    /// Makes the lists of `classes` classes for `pages` pages, all empty. Fails with `OutOfMemory`
    /// if an allocation fails, or if pages and lists together are `2^32` or more, since each has a
    /// number of 32 bits as a node.
    pub fn new(alloc: Global, classes: u32, pages: u32) -> Result<ClassLists, OutOfMemory>
        ensures lists { IfOk result (λ lists. lists ≡ empty_lists classes pages) }
        ensures empty { IfOk result AreEmpty }
        ensures kept { IfOk result AreApart }
    {
        let Ok(nodes) = u32::try_from(u64::from(pages) + 2 * u64::from(classes)) else {
            return Err(OutOfMemory);
        };
        let Ok(links) = Links::new(alloc, nodes) else {
            return Err(OutOfMemory);
        };
        let Ok(lens) = Counts::new(alloc, classes) else {
            return Err(OutOfMemory);
        };
        Ok(ClassLists { links, lens, pages })
    }

    /// The memory that new page lists of `classes` classes for `pages` pages ask for.
    pub fn bytes_needed(classes: u32, pages: u32) -> BytesNeeded
        ensures { result ≡ list_bytes classes pages }
    {
        let links = BytesNeeded::block(4 * (u64::from(pages) + 2 * u64::from(classes)));
        let counts = BytesNeeded::block(4 * u64::from(classes));
        links.times(2).and(counts.times(2))
    }

    /// Returns the first page of the list `which` of class `c`; none if the list is empty. Costs
    /// one step.
    pub fn front(&self, c: u32, which: Which, steps: &mut Steps) -> Option<u32>
        requires class { c < self.now.classes }
        ensures front { result ≡ slice_get (pages_in self.now c which) 0 }
        ensures found { IfSome result (Contains (pages_in self.now c which)) }
        ensures none { IsNone result ↔ (pages_in self.now c which ≡ []) }
        ensures kept { AreApart self.now }
        ensures steps { RoseBy steps.old steps.new 1 }
    {
        let node = self.pages + number_of(c, which);
        let first = self.links.next.get(node as usize, steps);
        if first < self.pages {
            Some(first)
        } else {
            None
        }
    }

    /// How many pages are in the list `which` of class `c`.
    pub fn len(&self, c: u32, which: Which) -> u32
        requires class { c < self.now.classes }
        ensures len { result ≡ length (pages_in self.now c which) }
        ensures kept { AreApart self.now }
    {
        self.lens.of(c, which)
    }

    /// Puts `page`, which must be in no list, at the head of the list `which` of class `c`. Costs
    /// four steps.
    pub fn push(&mut self, c: u32, which: Which, page: u32, steps: &mut Steps)
        requires class { c < self.old.classes }
        requires page { page < self.old.pages }
        requires unlisted { IsUnlisted self.old page }
        ensures lists { self.new ≡ with_list self.old c which (page ∷ pages_in self.old c which) }
        ensures list { pages_in self.new c which ≡ page ∷ pages_in self.old c which }
        ensures others { KeepsOthers self.old self.new c which }
        ensures kept { AreApart self.new }
        ensures steps { RoseBy steps.old steps.new 4 }
    {
        let pages = self.pages;
        let list = number_of(c, which);
        let node = pages + list;
        // The list's node gets the page as its next, and the page gets the old next: two steps.
        let first = self
            .links
            .next
            .pass(node as usize, page, page as usize, steps);
        // The previous of the page is the list's node, and that of `first` the page: two steps.
        self.links
            .previous
            .set_both(page as usize, node, first as usize, page, steps);
        let len = self.lens.of(c, which);
        self.lens.put(c, which, len + 1);
    }

    /// Removes `page` from the list `which` of class `c`, in which it must be. Costs four steps.
    pub fn unlink(&mut self, c: u32, which: Which, page: u32, steps: &mut Steps)
        requires class { c < self.old.classes }
        requires listed { Contains (pages_in self.old c which) page }
        ensures lists { self.new ≡ with_list self.old c which (without_number page (pages_in self.old c which)) }
        ensures list { pages_in self.new c which ≡ without_number page (pages_in self.old c which) }
        ensures len { length (pages_in self.new c which) + 1 ≡ length (pages_in self.old c which) }
        ensures within { page < self.new.pages }
        ensures unlisted { IsUnlisted self.new page }
        ensures others { KeepsOthers self.old self.new c which }
        ensures kept { AreApart self.new }
        ensures steps { RoseBy steps.old steps.new 4 }
    {
        let before = self.links.previous.get(page as usize, steps);
        let after = self.links.next.copy(page as usize, before as usize, steps);
        self.links.previous.set(after as usize, before, steps);
        let len = self.lens.of(c, which);
        self.lens.put(c, which, len - 1);
    }
}

impl Links {
    /// Makes `nodes` nodes for linked page lists, each a ring by itself. Fails if an allocation
    /// fails.
    fn new(alloc: Global, nodes: u32) -> Result<Links, AllocError>
        ensures next { IfOk result (λ links. links.next ≡ range_with_len 0 nodes) }
        ensures previous { IfOk result (λ links. links.previous ≡ range_with_len 0 nodes) }
    {
        Ok(Links {
            next: Cells::new(numbers_below(alloc, nodes)?),
            previous: Cells::new(numbers_below(alloc, nodes)?),
        })
    }
}

/// The number of the list `which` of class `c` among all lists: 2 c for the full pages, 2 c + 1 for
/// the partly full ones. Both must fit 32 bits.
fn number_of(c: u32, which: Which) -> u32
    requires { 2 * c + 1 < 2 ^ 32 }
    ensures { result ≡ list_number c which }
{
    match which {
        Which::Full => 2 * c,
        Which::NotFull => 2 * c + 1,
    }
}
