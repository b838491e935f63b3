//! The test of each point of a certificate, and the classes of the heap for it (`HeapClasses`). A point is one list of
//! the certificate: a mode of the program, and a number of pages for each class. The point x leads to the point y if y
//! has, in each class, the pages on which the objects that stay can still be. Each mode must have at most 65,536
//! objects (`HasFew`).
ghost use Rattle.std.specs.Prelude.{ℕ, ◌≡◌, ◌+◌, ◌↔◌, ◌<◌, ◌≤◌, All, IsTrue, length, slice_index, sum_by};
ghost use Rattle.std.specs.List.{range_with_len};
ghost use Rattle.page_model.specs.Counts.{ceil_div, most_pages};
ghost use Rattle.page_model.specs.Paging.{IsPaging, classes, slots_of};
ghost use Rattle.sizing.specs.Certificates.{LeadsInto, LeadsToPoint};
ghost use Rattle.sizing.specs.Checks.{HasFew, IsRow, LeadsIntoMode, paging_with};
ghost use Rattle.sizing.specs.Demands.{count_in};

use crate::certificate::{ModeNeeds, PointPages};
use crate::resizes::allows_resizes;
use crate::shared::{class_counts, two_modes};
use quota_model::{CLASSES, pages_for};

/// The words of a page, and by class the words of a slot (`sizes`) and the bound (`bounds`). All functions that receive
/// them require that they are those of a heap (`IsPaging`): the sizes rise and end with the page, and each class has
/// a bound of at least 1.
#[derive(Drop)]
pub(crate) struct HeapClasses<'a> {
    pub(crate) page_words: u32,
    pub(crate) sizes: &'a [u32],
    pub(crate) bounds: &'a [u32],
}

/// Whether each point meets a point's conditions (`is_point`) on a heap of `pages` pages, those for resizes too if the
/// program `resizes`.
pub(crate) fn are_points(
    pages: u32,
    heap: &HeapClasses,
    modes: &[ModeNeeds],
    points: &[PointPages],
    resizes: bool,
) -> bool
    requires heap { IsPaging (paging_with pages heap.now) }
    requires few { All HasFew modes.now }
    ensures { IsTrue result ↔ All (IsRow (paging_with pages heap.now) modes.now points.now resizes) points.now }
{
    points
        .iter()
        .all(|x| is_point(pages, heap, modes, points, resizes, x))
}

/// Whether the point x meets its conditions: its mode exists, its pages hold the mode's objects and are within those of
/// the heap, it leads to a point of each mode and, if the program `resizes`, allows for resizes into each.
fn is_point(
    pages: u32,
    heap: &HeapClasses,
    modes: &[ModeNeeds],
    points: &[PointPages],
    resizes: bool,
    x: &PointPages,
) -> bool
    requires heap { IsPaging (paging_with pages heap.now) }
    requires few { All HasFew modes.now }
    ensures { IsTrue result ↔ IsRow (paging_with pages heap.now) modes.now points.now resizes x.now }
{
    let mode = x.mode as usize;
    if mode >= modes.len() {
        return false;
    }
    if !has_tops(heap, &modes[mode], x) {
        return false;
    }
    if pages_of(x, heap.sizes.len()) > pages as u64 {
        return false;
    }
    for j in 0..modes.len() {
        if !follows(pages, heap, modes, points, resizes, x, j) {
            return false;
        }
    }
    true
}

/// Whether the pages of the point x are, in each class, at least those that the objects of `mode`, its mode, need.
fn has_tops(heap: &HeapClasses, mode: &ModeNeeds, x: &PointPages) -> bool
    requires heap { IsPaging (paging_with 0 heap.now) }
    requires few { HasFew mode.now }
    ensures { IsTrue result ↔ ((c : ℕ) → c < classes (paging_with 0 heap.now)
        → ceil_div (count_in (paging_with 0 heap.now) mode.now.needs c) (slots_of (paging_with 0 heap.now) c) ≤ slice_index x.now.pages c) }
{
    let counts = class_counts(heap, &mode.needs);
    for c in 0..heap.sizes.len() {
        let least = pages_for(counts[c] as u64, slots_in(heap, c) as u64);
        if least > x.pages[c] as u64 {
            return false;
        }
    }
    true
}

/// The sum of the pages of point x over the first `classes` classes, at most 67.
fn pages_of(x: &PointPages, classes: usize) -> u64
    requires few { classes ≤ 67 }
    ensures { result ≡ sum_by (slice_index x.now.pages) (range_with_len 0 classes) }
{
    let mut sum = 0;
    for c in 0..classes {
        let pages = x.pages[c];
        sum += pages as u64;
    }
    sum
}

/// Whether the point x leads to a point of mode j and, if the program `resizes`, allows for resizes into this mode. The
/// modes of x and j must exist.
fn follows(
    pages: u32,
    heap: &HeapClasses,
    modes: &[ModeNeeds],
    points: &[PointPages],
    resizes: bool,
    x: &PointPages,
    j: usize,
) -> bool
    requires heap { IsPaging (paging_with pages heap.now) }
    requires few { All HasFew modes.now }
    requires known { x.now.mode < length modes.now }
    requires mode { j < length modes.now }
    ensures { IsTrue result ↔ LeadsIntoMode (paging_with pages heap.now) modes.now points.now resizes x.now j }
{
    let counts = two_modes(heap, &modes[x.mode as usize], &modes[j]);
    if !leads_into(heap, points, &counts.kept, x, j) {
        return false;
    }
    if !resizes {
        return true;
    }
    allows_resizes(pages, heap, points, &counts, x, j)
}

/// Whether the point x leads to a point of mode j, if of each class at most `kept` objects stay.
pub(crate) fn leads_into(
    heap: &HeapClasses,
    points: &[PointPages],
    kept: &[u32; CLASSES],
    x: &PointPages,
    j: usize,
) -> bool
    requires heap { IsPaging (paging_with 0 heap.now) }
    ensures { IsTrue result ↔ LeadsInto (paging_with 0 heap.now) points.now (slice_index kept.now) x.now j }
{
    points
        .iter()
        .any(|y| y.mode as usize == j && leads(heap, kept, x, y))
}

/// Whether the point y has, in each class, at least the pages of x, or at least the most pages that the `kept` objects
/// that stay can be on.
fn leads(heap: &HeapClasses, kept: &[u32; CLASSES], x: &PointPages, y: &PointPages) -> bool
    requires heap { IsPaging (paging_with 0 heap.now) }
    ensures { IsTrue result ↔ LeadsToPoint (paging_with 0 heap.now) (slice_index kept.now) x.now y.now }
{
    for c in 0..heap.sizes.len() {
        let most = pages_at_most(kept[c], slots_in(heap, c), heap.bounds[c]);
        if (x.pages[c] as u64).min(most) > y.pages[c] as u64 {
            return false;
        }
    }
    true
}

/// For a certificate, how many slots a page of class c has.
pub(crate) fn slots_in(heap: &HeapClasses, c: usize) -> u32
    requires heap { IsPaging (paging_with 0 heap.now) }
    requires class { c < classes (paging_with 0 heap.now) }
    ensures slots { result ≡ slots_of (paging_with 0 heap.now) c }
    ensures some { 1 ≤ result }
    ensures few { result ≤ heap.now.page_words }
{
    heap.page_words / heap.sizes[c]
}

/// For a certificate, the most pages that `n` objects can be on, `m` to a page, if at most `k` pages are partly full.
/// `m` and `k` must be at least 1.
pub(crate) fn pages_at_most(n: u32, m: u32, k: u32) -> u64
    requires some { 1 ≤ m }
    requires bound { 1 ≤ k }
    ensures { result ≡ most_pages n m k }
{
    let scattered = (n as u64 + k as u64 * (m - 1) as u64) / m as u64;
    scattered.min(n as u64)
}
