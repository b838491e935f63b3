//! The proved functions that `tools/plan` calls: a static library for ctypes. `plan_pages_needed` computes the pages
//! that a program needs; the others test numbers that the tool finds, so the tool need not be trusted. `in_blocks`
//! says which slots: with false those of the moving manager, with true those of the non-moving one.
#![tactic(auto)]

ghost use Rattle.std.specs.Prelude.{ℕ, ◌≡◌, ◌+◌, ◌/◌, ◌<◌, ◌≤◌, ◌↔◌, All, IsTrue, None, false, length, slice_index};
ghost use Rattle.std.specs.FinMap.{empty};
ghost use Rattle.cf_base.specs.Classes.{sizes};
ghost use Rattle.cf_base.specs.Settings.{profile_from, setting_fault};
ghost use Rattle.cf_model.specs.State.{HeapState, layout_of, paging_in};
ghost use Rattle.page_model.specs.Paging.{EveryBoundIsOne, IsPaging, Paging, bound_of, class_for, classes, paging_of};
ghost use Rattle.sizing.specs.Certificates.{AreBudgetLevels, AreForResizes, IsBudgetCertificate, IsCertificate};
ghost use Rattle.sizing.specs.Checks.{HasFew, needs_of, with_pages};
ghost use Rattle.sizing.specs.Demands.{ArePrices, KeepsBudget, KeepsTo, KeepsToOne};
ghost use Rattle.sizing.specs.Heaps.{IsFresh, ServesHeapMallocs, ServesHeapResizes};
ghost use Rattle.sizing.specs.Needs.{HasFault, HasNoFault};
ghost use Rattle.sizing.specs.Runs.{CanBeRefused, IsServed, ServesMallocsAcross, ServesResizesAcross};
ghost use Rattle.sizing.specs.declared.by_numbers.NeedsFault.{NeedsFault};
ghost use Rattle.plan_library.specs.Slots.{layout_if};

use cf_base::Layout;
use sizing::{
    ModeNeeds, Need, PointPages, are_budget_levels, is_budget_certificate, is_certified,
    pages_needed,
};

/// Writes into `pages` the least number of pages with which no call of a program is refused for space while it keeps to its
/// needs (`pages_needed`). Returns false, and leaves `pages` unchanged, if and only if one of these holds: there are more
/// than 64 entries; the bytes of a page are out of range; an entry, even of count 0, has a length that doesn't fit a page
/// with a header of 8 bytes; or more than 65,536 objects are declared (`fault`, `none`).
#[unsafe(no_mangle)]
pub extern "C" fn plan_pages_needed(
    page_bytes: u32,
    in_blocks: bool,
    needs: &[Need],
    pages: &mut u32,
) -> bool
    ensures mallocs { IsTrue result → (s : HeapState) → IsFresh s → layout_of s.kind ≡ layout_if in_blocks
        → s.profile.page_words ≡ page_bytes / 8 → pages.new ≤ s.profile.pages → ServesHeapMallocs (KeepsTo needs.now) s }
    ensures resizes { IsTrue result → (s : HeapState) → IsFresh s → layout_of s.kind ≡ layout_if in_blocks
        → s.profile.page_words ≡ page_bytes / 8 → pages.new ≤ s.profile.pages → ServesHeapResizes (KeepsTo needs.now) s }
    ensures least { IsTrue result → (p : Paging) → IsPaging p
        → p.page_words ≡ page_bytes / 8 → p.sizes ≡ sizes (page_bytes / 8) (layout_if in_blocks)
        → p.pages < pages.new → CanBeRefused p (KeepsTo needs.now) empty }
    ensures none { IsTrue result → HasNoFault page_bytes 1 needs.now }
    ensures fault { result ≡ false → ((e : NeedsFault) × HasFault page_bytes 1 needs.now e) × (pages.new ≡ pages.old) }
{
    match pages_needed(page_bytes, 1, slots_if(in_blocks), needs) {
        Ok(found) => {
            *pages = found;
            true
        }
        Err(_) => false,
    }
}

/// Whether the lists of pages in `points` are a certificate for `pages` pages of `page_bytes` bytes and these bounds
/// and modes and, if the program `resizes`, for its resizes (`is_certified`). Then, if it never resizes an object to
/// another length of its class, no malloc is refused for space (`mallocs`), and with one page more no resize
/// (`spare`). If it `resizes`, no malloc and no resize is (`resizes`). There must be one bound, at least 1, for each
/// class, and at most 65,536 objects in each mode, else the result is false (`bounds`). It is also false if the
/// settings are out of range, which no clause says.
#[unsafe(no_mangle)]
pub extern "C" fn plan_is_certified(
    pages: u32,
    page_bytes: u32,
    in_blocks: bool,
    bounds: &[u32],
    modes: &[ModeNeeds],
    points: &[PointPages],
    resizes: bool,
) -> bool
    ensures exact { setting_fault pages page_bytes 1 65536 ≡ None
        → IsPaging (paging_of (profile_from pages page_bytes 1 65536) (layout_if in_blocks) bounds.now) → All HasFew modes.now
        → IsTrue result ↔ IsCertificate (paging_of (profile_from pages page_bytes 1 65536) (layout_if in_blocks) bounds.now) (needs_of modes.now) points.now
        × (IsTrue resizes → AreForResizes (paging_of (profile_from pages page_bytes 1 65536) (layout_if in_blocks) bounds.now) (needs_of modes.now) points.now) }
    ensures bounds { IsTrue result
        → IsPaging (paging_of (profile_from pages page_bytes 1 65536) (layout_if in_blocks) bounds.now) × All HasFew modes.now }
    ensures mallocs { IsTrue result
        → ServesMallocsAcross (paging_of (profile_from pages page_bytes 1 65536) (layout_if in_blocks) bounds.now) (KeepsToOne (needs_of modes.now)) }
    ensures resizes { IsTrue result → IsTrue resizes
        → IsServed (paging_of (profile_from pages page_bytes 1 65536) (layout_if in_blocks) bounds.now) (KeepsToOne (needs_of modes.now)) }
    ensures spare { IsTrue result
        → ServesResizesAcross (with_pages (pages + 1) (paging_of (profile_from pages page_bytes 1 65536) (layout_if in_blocks) bounds.now)) (KeepsToOne (needs_of modes.now)) }
{
    is_certified(
        pages,
        page_bytes,
        slots_if(in_blocks),
        bounds,
        modes,
        points,
        resizes,
    )
}

/// Whether the levels, one of each class, show that `pages` pages of `page_bytes` bytes are enough for a budget with
/// these bounds, if each object costs at least its class's price (`are_budget_levels`). With one page more they
/// are enough for resizes too (`resizes`). The settings must be in range, and there must be one bound, at least 1, one
/// price and one level for each class, else the result is false, which no clause says.
#[unsafe(no_mangle)]
pub extern "C" fn plan_are_budget_levels(
    pages: u32,
    page_bytes: u32,
    in_blocks: bool,
    bounds: &[u32],
    prices: &[u32],
    budget: u32,
    levels: &[u32],
) -> bool
    ensures exact { setting_fault pages page_bytes 1 65536 ≡ None
        → IsPaging (paging_of (profile_from pages page_bytes 1 65536) (layout_if in_blocks) bounds.now)
        → length prices.now ≡ classes (paging_of (profile_from pages page_bytes 1 65536) (layout_if in_blocks) bounds.now)
        → length levels.now ≡ classes (paging_of (profile_from pages page_bytes 1 65536) (layout_if in_blocks) bounds.now)
        → IsTrue result ↔ AreBudgetLevels (paging_of (profile_from pages page_bytes 1 65536) (layout_if in_blocks) bounds.now) (slice_index prices.now) budget (slice_index levels.now) }
    ensures mallocs { IsTrue result → (s : HeapState) (cost : ℕ → ℕ) → IsFresh s
        → layout_of s.kind ≡ layout_if in_blocks → s.profile.page_words ≡ page_bytes / 8 → pages ≤ s.profile.pages
        → ((c : ℕ) → c < classes (paging_in s) → bound_of (paging_in s) c ≤ slice_index bounds.now c)
        → ArePrices (paging_in s) cost (slice_index prices.now) → ServesHeapMallocs (KeepsBudget cost budget) s }
    ensures resizes { IsTrue result → (s : HeapState) (cost : ℕ → ℕ) → IsFresh s
        → layout_of s.kind ≡ layout_if in_blocks → s.profile.page_words ≡ page_bytes / 8 → pages < s.profile.pages
        → ((c : ℕ) → c < classes (paging_in s) → bound_of (paging_in s) c ≤ slice_index bounds.now c)
        → ArePrices (paging_in s) cost (slice_index prices.now) → ServesHeapResizes (KeepsBudget cost budget) s }
{
    are_budget_levels(
        pages,
        page_bytes,
        slots_if(in_blocks),
        bounds,
        prices,
        budget,
        levels,
    )
}

/// Whether the levels and the pages `opened` of each class are a certificate that `pages` pages of `page_bytes` bytes
/// are the least for a budget, if every bound is 1 and each object costs at least its class's price
/// (`is_budget_certificate`). With one page more no resize is refused either (`resizes`). Fewer are too few if each
/// class with opened pages has an object that costs no more than the class's price (`least`). The settings must be in
/// range, and there must be one price, one level and one number of opened pages for each class, else the result is
/// false, which no clause says.
#[unsafe(no_mangle)]
pub extern "C" fn plan_is_budget_certified(
    pages: u32,
    page_bytes: u32,
    in_blocks: bool,
    prices: &[u32],
    budget: u32,
    levels: &[u32],
    opened: &[u32],
) -> bool
    ensures exact { (p : Paging) → setting_fault pages page_bytes 1 65536 ≡ None → IsPaging p → EveryBoundIsOne p
        → p.pages ≡ pages → p.page_words ≡ page_bytes / 8 → p.sizes ≡ sizes (page_bytes / 8) (layout_if in_blocks)
        → length prices.now ≡ classes p → length levels.now ≡ classes p → length opened.now ≡ classes p
        → IsTrue result ↔ IsBudgetCertificate p (slice_index prices.now) budget (slice_index levels.now) (slice_index opened.now) }
    ensures mallocs { IsTrue result → (s : HeapState) (cost : ℕ → ℕ) → IsFresh s → EveryBoundIsOne (paging_in s)
        → layout_of s.kind ≡ layout_if in_blocks → s.profile.page_words ≡ page_bytes / 8 → pages ≤ s.profile.pages
        → ArePrices (paging_in s) cost (slice_index prices.now) → ServesHeapMallocs (KeepsBudget cost budget) s }
    ensures resizes { IsTrue result → (s : HeapState) (cost : ℕ → ℕ) → IsFresh s → EveryBoundIsOne (paging_in s)
        → layout_of s.kind ≡ layout_if in_blocks → s.profile.page_words ≡ page_bytes / 8 → pages < s.profile.pages
        → ArePrices (paging_in s) cost (slice_index prices.now) → ServesHeapResizes (KeepsBudget cost budget) s }
    ensures least { IsTrue result → (p : Paging) (cost lengths : ℕ → ℕ) → IsPaging p
        → p.page_words ≡ page_bytes / 8 → p.sizes ≡ sizes (page_bytes / 8) (layout_if in_blocks)
        → ((c : ℕ) → c < classes p → 0 < slice_index opened.now c
        → (class_for p (lengths c) ≡ c) × (cost (lengths c) ≤ slice_index prices.now c))
        → p.pages < pages → CanBeRefused p (KeepsBudget cost budget) empty }
{
    is_budget_certificate(
        pages,
        page_bytes,
        slots_if(in_blocks),
        prices,
        budget,
        levels,
        opened,
    )
}

/// For `tools/plan`, the layout of the slots: `Blocks` if `in_blocks`, else `Words`.
fn slots_if(in_blocks: bool) -> Layout
    ensures { result ≡ layout_if in_blocks }
{
    if in_blocks {
        Layout::Blocks
    } else {
        Layout::Words
    }
}
