//! Whether a point, one list of a certificate, allows for resizes: within a class an object keeps its slot, and into
//! another class it has two slots for a moment. `counts` are the objects of the point's mode (`before`), of the next
//! mode (`after`), and those that can stay (`kept`).
ghost use Rattle.std.specs.Prelude.{ℕ, ◌≡◌, ◌≢◌, ◌-◌, ◌^◌, ◌↔◌, ◌<◌, ◌≤◌, IsTrue, slice_index, sum_by};
ghost use Rattle.std.specs.List.{range_with_len};
ghost use Rattle.page_model.specs.Paging.{IsPaging, classes};
ghost use Rattle.sizing.specs.Certificates.{HoldsCopies, KeepsResized, LeadsInto, one_more_of, pages_with_copy};
ghost use Rattle.sizing.specs.Checks.{AllowsResizes, paging_with};

use crate::certificate::PointPages;
use crate::points::{HeapClasses, leads_into, pages_at_most, slots_in};
use crate::shared::TwoModes;
use quota_model::pages_for;

/// Whether the point x allows for the resizes that lead into mode j.
pub(crate) fn allows_resizes(
    pages: u32,
    heap: &HeapClasses,
    points: &[PointPages],
    counts: &TwoModes,
    x: &PointPages,
    j: usize,
) -> bool
    requires { IsPaging (paging_with pages heap.now) }
    ensures { IsTrue result ↔ AllowsResizes (paging_with pages heap.now) points.now
        (slice_index counts.now.kept) (slice_index counts.now.before) (slice_index counts.now.after) x.now j }
{
    if !keeps_resized(heap, points, counts, x, j) {
        return false;
    }
    holds_copies(pages, heap, counts, x)
}

/// Whether the point x leads to a point of mode j also if a resize within a class begins that mode: then one object
/// more of the class stays, if both modes have more than `kept`.
fn keeps_resized(
    heap: &HeapClasses,
    points: &[PointPages],
    counts: &TwoModes,
    x: &PointPages,
    j: usize,
) -> bool
    requires { IsPaging (paging_with 0 heap.now) }
    ensures { IsTrue result ↔ KeepsResized (paging_with 0 heap.now) points.now
        (slice_index counts.now.kept) (slice_index counts.now.before) (slice_index counts.now.after) x.now j }
{
    for c in 0..heap.sizes.len() {
        let kept = counts.kept[c];
        if kept < counts.before[c]
            && kept < counts.after[c]
            && !leads_resized(heap, points, counts, x, j, c)
        {
            return false;
        }
    }
    true
}

/// Whether the point x leads to a point of mode j if one object more of class c stays than `counts.kept`, which must be
/// less than 2 ^ 32 - 1 for this class.
fn leads_resized(
    heap: &HeapClasses,
    points: &[PointPages],
    counts: &TwoModes,
    x: &PointPages,
    j: usize,
    c: usize,
) -> bool
    requires heap { IsPaging (paging_with 0 heap.now) }
    requires class { c < classes (paging_with 0 heap.now) }
    requires low { slice_index counts.now.kept c < 2 ^ 32 - 1 }
    ensures { IsTrue result ↔ LeadsInto (paging_with 0 heap.now) points.now (one_more_of c (slice_index counts.now.kept)) x.now j }
{
    let mut kept = counts.kept;
    kept[c] += 1;
    leads_into(heap, points, &kept, x, j)
}

/// Whether the pages hold the copies of resizes from the point x into another class of the next mode.
fn holds_copies(pages: u32, heap: &HeapClasses, counts: &TwoModes, x: &PointPages) -> bool
    requires { IsPaging (paging_with pages heap.now) }
    ensures { IsTrue result ↔ HoldsCopies (paging_with pages heap.now)
        (slice_index counts.now.kept) (slice_index counts.now.before) (slice_index counts.now.after) x.now }
{
    for c in 0..heap.sizes.len() {
        if counts.before[c] > 0 && !copy_fits(pages, heap, counts, x, c) {
            return false;
        }
    }
    true
}

/// Whether the pages hold both slots of an object that a resize from the point x takes from class c into the next mode.
fn copy_fits(pages: u32, heap: &HeapClasses, counts: &TwoModes, x: &PointPages, c: usize) -> bool
    requires { IsPaging (paging_with pages heap.now) }
    ensures { IsTrue result ↔ ((d : ℕ) → d < classes (paging_with pages heap.now) → d ≢ c → 0 < slice_index counts.now.after d
        → sum_by (λ e. pages_with_copy (paging_with pages heap.now) c d e (slice_index x.now.pages e)
        (slice_index counts.now.kept e) (slice_index counts.now.before e) (slice_index counts.now.after e))
        (range_with_len 0 (classes (paging_with pages heap.now))) ≤ pages) }
{
    for d in 0..heap.sizes.len() {
        if d != c && counts.after[d] > 0 && pages_of_copies(heap, counts, x, c, d) > pages as u64 {
            return false;
        }
    }
    true
}

/// From the point x, the most pages of all classes while a resize from class c to d has its object in two slots.
fn pages_of_copies(heap: &HeapClasses, counts: &TwoModes, x: &PointPages, c: usize, d: usize) -> u64
    requires { IsPaging (paging_with 0 heap.now) }
    ensures { result ≡ sum_by (λ e. pages_with_copy (paging_with 0 heap.now) c d e (slice_index x.now.pages e)
        (slice_index counts.now.kept e) (slice_index counts.now.before e) (slice_index counts.now.after e))
        (range_with_len 0 (classes (paging_with 0 heap.now))) }
{
    let mut sum = 0;
    for e in 0..heap.sizes.len() {
        sum += pages_of_class(heap, counts, x, c, d, e);
    }
    sum
}

/// From the point x, the most pages of class e while a resize from class c to d has its object in two slots.
fn pages_of_class(
    heap: &HeapClasses,
    counts: &TwoModes,
    x: &PointPages,
    c: usize,
    d: usize,
    e: usize,
) -> u64
    requires heap { IsPaging (paging_with 0 heap.now) }
    requires class { e < classes (paging_with 0 heap.now) }
    ensures value { result ≡ pages_with_copy (paging_with 0 heap.now) c d e (slice_index x.now.pages e)
        (slice_index counts.now.kept e) (slice_index counts.now.before e) (slice_index counts.now.after e) }
    ensures low { result ≤ 2 ^ 32 }
{
    let kept = counts.kept[e];
    let pages = x.pages[e] as u64;
    let slots = slots_in(heap, e);
    let more = kept as u64 + 1;
    if e == d {
        let most = more.min(counts.after[e] as u64);
        return (pages + 1).min(pages_for(most, slots as u64));
    }
    let stay = if e == c {
        more.min(counts.before[e] as u64) as u32
    } else {
        kept
    };
    pages.min(pages_at_most(stay, slots, heap.bounds[e]))
}
