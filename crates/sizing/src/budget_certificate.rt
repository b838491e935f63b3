//! The tests whether pages are enough, and the least, for a program with a budget, by numbers of each class
//! that an unproved planner found: levels, and pages that the budget pays for (opened pages). A level is a cost
//! that the objects of each full page reach, whatever its class; each class has one, to test whether it is
//! served. The private functions require in each slice one number for each class; `are_least`, `affords` and
//! `objects_to_open` also at most 4,096 pages of at most 16,384 words.
ghost use Rattle.std.specs.Prelude.{ℕ, ◌≡◌, ◌*◌, ◌/◌, ◌<◌, ◌≤◌, ◌↔◌, IsTrue, None, length, slice_index, sum_by};
ghost use Rattle.std.specs.List.{range_with_len};
ghost use Rattle.std.specs.FinMap.{empty};
ghost use Rattle.cf_base.specs.Classes.{sizes};
ghost use Rattle.cf_base.specs.Settings.{profile_from, setting_fault};
ghost use Rattle.cf_model.specs.State.{HeapState, layout_of, paging_in};
ghost use Rattle.page_model.specs.Paging.{EveryBoundIsOne, IsPaging, Paging, bound_of, class_for, classes, paging_of, slots_of};
ghost use Rattle.sizing.specs.Certificates.{AreBudgetLevels, IsBudgetCertificate, IsBudgetLevel, gap_beside as gap};
ghost use Rattle.sizing.specs.Checks.{paging_with};
ghost use Rattle.sizing.specs.Demands.{Affords, ArePrices, KeepsBudget, objects_to_open as opening};
ghost use Rattle.sizing.specs.Heaps.{IsFresh, ServesHeapMallocs, ServesHeapResizes};
ghost use Rattle.sizing.specs.Runs.{CanBeRefused};

use crate::certificate::has_bounds;
use crate::points::{HeapClasses, slots_in};
use cf_base::{Layout, Settings};
use quota_model::{CLASSES, fill_sizes, pages_for};

/// Whether the levels show that `pages` pages of `page_bytes` bytes are enough for a budget, if an object of each
/// class costs at least its price and these are the bounds (`exact`). The settings must be in range, and there
/// must be a price, a level and a bound, at least 1, for each class, else the result is false, which no clause
/// says. If it is true, a heap with at least these pages and no greater bounds refuses no malloc of a program
/// within the budget for space (`mallocs`), with one page more no resize (`resizes`).
pub fn are_budget_levels(
    pages: u32,
    page_bytes: u32,
    layout: Layout,
    bounds: &[u32],
    prices: &[u32],
    budget: u32,
    levels: &[u32],
) -> bool
    ensures exact { setting_fault pages page_bytes 1 65536 ≡ None
        → IsPaging (paging_of (profile_from pages page_bytes 1 65536) layout bounds.now)
        → length prices.now ≡ classes (paging_of (profile_from pages page_bytes 1 65536) layout bounds.now)
        → length levels.now ≡ classes (paging_of (profile_from pages page_bytes 1 65536) layout bounds.now)
        → IsTrue result ↔ AreBudgetLevels (paging_of (profile_from pages page_bytes 1 65536) layout bounds.now) (slice_index prices.now) budget (slice_index levels.now) }
    ensures mallocs { IsTrue result → (s : HeapState) (cost : ℕ → ℕ) → IsFresh s
        → layout_of s.kind ≡ layout → s.profile.page_words ≡ page_bytes / 8 → pages ≤ s.profile.pages
        → ((c : ℕ) → c < classes (paging_in s) → bound_of (paging_in s) c ≤ slice_index bounds.now c)
        → ArePrices (paging_in s) cost (slice_index prices.now) → ServesHeapMallocs (KeepsBudget cost budget) s }
    ensures resizes { IsTrue result → (s : HeapState) (cost : ℕ → ℕ) → IsFresh s
        → layout_of s.kind ≡ layout → s.profile.page_words ≡ page_bytes / 8 → pages < s.profile.pages
        → ((c : ℕ) → c < classes (paging_in s) → bound_of (paging_in s) c ≤ slice_index bounds.now c)
        → ArePrices (paging_in s) cost (slice_index prices.now) → ServesHeapResizes (KeepsBudget cost budget) s }
{
    let s = match Settings::check(pages, page_bytes, 1, 65536) {
        Ok(s) => s,
        Err(_) => return false,
    };
    let mut table = [0; CLASSES];
    let classes = fill_sizes(s.page_words, layout, &mut table);
    let sizes = &table[..classes];
    if !has_bounds(sizes, bounds) || prices.len() != classes || levels.len() != classes {
        return false;
    }
    let heap = HeapClasses {
        page_words: s.page_words,
        sizes,
        bounds,
    };
    are_enough(s.pages, &heap, prices, budget, levels)
}

/// Whether the levels and the pages `opened` of each class are a certificate that `pages` pages of `page_bytes`
/// bytes are the least for a budget, if every bound is 1 and an object of each class costs at least its price
/// (`exact`). The settings must be in range, and there must be a price, a level and a number of opened pages for
/// each class, else the result is false, which no clause says. If it is true, and every bound is 1, no malloc of a
/// program within the budget is refused for space (`mallocs`), with one page more no resize (`resizes`). With fewer
/// pages, whatever the bounds, some malloc is refused, if each class that has opened pages has an object that costs
/// no more than its price (`least`).
pub fn is_budget_certificate(
    pages: u32,
    page_bytes: u32,
    layout: Layout,
    prices: &[u32],
    budget: u32,
    levels: &[u32],
    opened: &[u32],
) -> bool
    ensures exact { (p : Paging) → setting_fault pages page_bytes 1 65536 ≡ None → IsPaging p → EveryBoundIsOne p
        → p.pages ≡ pages → p.page_words ≡ page_bytes / 8 → p.sizes ≡ sizes (page_bytes / 8) layout
        → length prices.now ≡ classes p → length levels.now ≡ classes p → length opened.now ≡ classes p
        → IsTrue result ↔ IsBudgetCertificate p (slice_index prices.now) budget (slice_index levels.now) (slice_index opened.now) }
    ensures mallocs { IsTrue result → (s : HeapState) (cost : ℕ → ℕ) → IsFresh s → EveryBoundIsOne (paging_in s)
        → layout_of s.kind ≡ layout → s.profile.page_words ≡ page_bytes / 8 → pages ≤ s.profile.pages
        → ArePrices (paging_in s) cost (slice_index prices.now) → ServesHeapMallocs (KeepsBudget cost budget) s }
    ensures resizes { IsTrue result → (s : HeapState) (cost : ℕ → ℕ) → IsFresh s → EveryBoundIsOne (paging_in s)
        → layout_of s.kind ≡ layout → s.profile.page_words ≡ page_bytes / 8 → pages < s.profile.pages
        → ArePrices (paging_in s) cost (slice_index prices.now) → ServesHeapResizes (KeepsBudget cost budget) s }
    ensures least { IsTrue result → (p : Paging) (cost lengths : ℕ → ℕ) → IsPaging p
        → p.page_words ≡ page_bytes / 8 → p.sizes ≡ sizes (page_bytes / 8) layout
        → ((c : ℕ) → c < classes p → 0 < slice_index opened.now c
        → (class_for p (lengths c) ≡ c) × (cost (lengths c) ≤ slice_index prices.now c))
        → p.pages < pages → CanBeRefused p (KeepsBudget cost budget) empty }
{
    let s = match Settings::check(pages, page_bytes, 1, 65536) {
        Ok(s) => s,
        Err(_) => return false,
    };
    let mut table = [0; CLASSES];
    let classes = fill_sizes(s.page_words, layout, &mut table);
    if prices.len() != classes || levels.len() != classes || opened.len() != classes {
        return false;
    }
    let ones = [1; CLASSES];
    let heap = HeapClasses {
        page_words: s.page_words,
        sizes: &table[..classes],
        bounds: &ones[..classes],
    };
    are_least(s.pages, &heap, prices, budget, levels, opened)
}

/// Whether the levels and the opened pages are a certificate that `pages` pages are the least for the budget, if every
/// bound is 1.
fn are_least(
    pages: u32,
    heap: &HeapClasses,
    prices: &[u32],
    budget: u32,
    levels: &[u32],
    opened: &[u32],
) -> bool
    requires heap { IsPaging (paging_with pages heap.now) }
    requires words { heap.now.page_words ≤ 16384 }
    requires few { pages ≤ 4096 }
    requires prices { length prices.now ≡ classes (paging_with pages heap.now) }
    requires levels { length levels.now ≡ classes (paging_with pages heap.now) }
    requires opened { length opened.now ≡ classes (paging_with pages heap.now) }
    ensures { IsTrue result ↔ IsBudgetCertificate (paging_with pages heap.now) (slice_index prices.now) budget (slice_index levels.now) (slice_index opened.now) }
{
    if sum_of(opened) != pages as u64 || !are_enough(pages, heap, prices, budget, levels) {
        return false;
    }
    affords(heap, prices, budget, opened)
}

/// Whether the levels show that `pages` pages are enough for the budget, class by class.
fn are_enough(pages: u32, heap: &HeapClasses, prices: &[u32], budget: u32, levels: &[u32]) -> bool
    requires heap { IsPaging (paging_with pages heap.now) }
    requires prices { length prices.now ≡ classes (paging_with pages heap.now) }
    requires levels { length levels.now ≡ classes (paging_with pages heap.now) }
    ensures { IsTrue result ↔ AreBudgetLevels (paging_with pages heap.now) (slice_index prices.now) budget (slice_index levels.now) }
{
    for i in 0..heap.sizes.len() {
        if !is_enough(pages, heap, prices, budget, i, levels[i]) {
            return false;
        }
    }
    true
}

/// Whether the level shows that, within the budget, `pages` pages are enough for a new object of class i.
fn is_enough(
    pages: u32,
    heap: &HeapClasses,
    prices: &[u32],
    budget: u32,
    i: usize,
    level: u32,
) -> bool
    requires heap { IsPaging (paging_with pages heap.now) }
    requires prices { length prices.now ≡ classes (paging_with pages heap.now) }
    requires class { i < classes (paging_with pages heap.now) }
    ensures { IsTrue result ↔ IsBudgetLevel (paging_with pages heap.now) (slice_index prices.now) budget i level }
{
    let most = pages as u64 * level as u64 + prices[i] as u64;
    if budget as u64 >= most || !is_level(heap, prices, level) {
        return false;
    }
    gaps_fit(heap, prices, budget, i, level, most - budget as u64 - 1)
}

/// Whether the objects of a full page, at these prices, cost at least `level`, whatever its class.
fn is_level(heap: &HeapClasses, prices: &[u32], level: u32) -> bool
    requires heap { IsPaging (paging_with 0 heap.now) }
    requires prices { length prices.now ≡ classes (paging_with 0 heap.now) }
    ensures { IsTrue result ↔ ((c : ℕ) → c < classes (paging_with 0 heap.now)
        → level ≤ slots_of (paging_with 0 heap.now) c * slice_index prices.now c) }
{
    for c in 0..heap.sizes.len() {
        if (level as u64) > slots_in(heap, c) as u64 * prices[c] as u64 {
            return false;
        }
    }
    true
}

/// Whether the gaps of all classes (`gap_beside`) sum to at most `most`, for a new object of class i.
fn gaps_fit(
    heap: &HeapClasses,
    prices: &[u32],
    budget: u32,
    i: usize,
    level: u32,
    most: u64,
) -> bool
    requires heap { IsPaging (paging_with 0 heap.now) }
    requires prices { length prices.now ≡ classes (paging_with 0 heap.now) }
    ensures { IsTrue result ↔ sum_by (gap (paging_with 0 heap.now) (slice_index prices.now) budget i level) (range_with_len 0 (classes (paging_with 0 heap.now))) ≤ most }
{
    let mut left = most;
    for c in 0..heap.sizes.len() {
        let gap = gap_beside(heap, prices, budget, i, level, c);
        if gap > left {
            return false;
        }
        left -= gap;
    }
    true
}

/// For a new object of class i: by how much the price of class c is below `level`, times the pages of class c that can
/// be partly full within the budget and the bound. 0 if c is i, or its price is 0.
fn gap_beside(
    heap: &HeapClasses,
    prices: &[u32],
    budget: u32,
    i: usize,
    level: u32,
    c: usize,
) -> u64
    requires heap { IsPaging (paging_with 0 heap.now) }
    requires prices { length prices.now ≡ classes (paging_with 0 heap.now) }
    requires class { c < classes (paging_with 0 heap.now) }
    ensures { result ≡ gap (paging_with 0 heap.now) (slice_index prices.now) budget i level c }
{
    if c == i || prices[c] == 0 {
        return 0;
    }
    let filled = pages_for((budget / prices[c]) as u64, slots_in(heap, c) as u64);
    filled.min(heap.bounds[c] as u64) * level.saturating_sub(prices[c]) as u64
}

/// For a budget, the sum of at most 67 numbers of pages.
fn sum_of(numbers: &[u32]) -> u64
    requires few { length numbers.now ≤ 67 }
    ensures { result ≡ sum_by (slice_index numbers.now) (range_with_len 0 (length numbers.now)) }
{
    let mut sum = 0;
    for c in 0..numbers.len() {
        sum += numbers[c] as u64;
    }
    sum
}

/// Whether the budget pays for the objects that open the pages `opened` of each class, each at its class's price.
fn affords(heap: &HeapClasses, prices: &[u32], budget: u32, opened: &[u32]) -> bool
    requires heap { IsPaging (paging_with 0 heap.now) }
    requires prices { length prices.now ≡ classes (paging_with 0 heap.now) }
    requires opened { length opened.now ≡ classes (paging_with 0 heap.now) }
    requires words { heap.now.page_words ≤ 16384 }
    requires few { (c : ℕ) → c < length opened.now → slice_index opened.now c ≤ 4096 }
    ensures { IsTrue result ↔ Affords (paging_with 0 heap.now) (slice_index prices.now) budget (slice_index opened.now) }
{
    let mut left = budget as u64;
    for c in 0..heap.sizes.len() {
        let cost = objects_to_open(opened[c], slots_in(heap, c)) * prices[c] as u64;
        if cost > left {
            return false;
        }
        left -= cost;
    }
    true
}

/// For a budget, how many objects open `pages` pages with `slots` slots each: all pages but one are full, and one has
/// one object. 0 if `pages` is 0.
fn objects_to_open(pages: u32, slots: u32) -> u64
    requires pages { pages ≤ 4096 }
    requires slots { slots ≤ 16384 }
    ensures objects { result ≡ opening pages slots }
    ensures few { result ≤ 67108864 }
{
    if pages == 0 {
        0
    } else {
        (pages - 1) as u64 * slots as u64 + 1
    }
}
