//! The test whether numbers of pages, which an unproved planner found, are a certificate for a heap; and the types in
//! which it receives the modes of a program and the points of a certificate.
ghost use Rattle.std.specs.Prelude.{ℕ, ◌≡◌, ◌+◌, ◌<◌, ◌≤◌, ◌↔◌, All, IsTrue, None, length, slice_index};
ghost use Rattle.cf_base.specs.Settings.{profile_from, setting_fault};
ghost use Rattle.page_model.specs.Paging.{IsPaging, paging_of};
ghost use Rattle.sizing.specs.Certificates.{AreForResizes, IsCertificate};
ghost use Rattle.sizing.specs.Checks.{HasFew, needs_of, paging_with, with_pages};
ghost use Rattle.sizing.specs.Demands.{KeepsToOne};
ghost use Rattle.sizing.specs.Runs.{IsServed, ServesMallocsAcross, ServesResizesAcross};

use crate::points::{HeapClasses, are_points};
use cf_base::{Layout, Settings};
use quota_model::{CLASSES, Need, count_in_all, fill_sizes};

/// How many entries the needs of a mode have.
pub const ENTRIES: usize = 64;

/// For one mode of a program: the most live objects of each length. Entries of the same length add up, and an entry
/// that is not used has count 0.
#[repr(C)]
#[derive(Clone, Copy)]
pub struct ModeNeeds {
    pub needs: [Need; ENTRIES],
}

/// A point of a certificate, one of its lists: its mode, by number from 0 on, and its pages of each class.
#[repr(C)]
#[derive(Clone, Copy, Debug, PartialEq, Eq)]
pub struct PointPages {
    pub mode: u32,
    pub pages: [u32; CLASSES],
}

/// Whether the points are a certificate for a heap of `pages` pages of `page_bytes` bytes, slots of this layout and
/// these bounds by class, and a program with these modes; and, if the program `resizes`, also for its resizes
/// (`exact`). There must be a bound, at least 1, for each class, and at most 65,536 objects in each mode, else the
/// result is false (`bounds`); it is also false, which no clause says, if no settings have these numbers and 65,536
/// proxies. If it is true, and the program never resizes an object to another length of its class, no malloc is
/// refused for space (`mallocs`), and with one page more no resize (`spare`). If the program `resizes`, no malloc and
/// no resize is refused (`resizes`).
pub fn is_certified(
    pages: u32,
    page_bytes: u32,
    layout: Layout,
    bounds: &[u32],
    modes: &[ModeNeeds],
    points: &[PointPages],
    resizes: bool,
) -> bool
    ensures exact { setting_fault pages page_bytes 1 65536 ≡ None
        → IsPaging (paging_of (profile_from pages page_bytes 1 65536) layout bounds.now) → All HasFew modes.now
        → IsTrue result ↔ IsCertificate (paging_of (profile_from pages page_bytes 1 65536) layout bounds.now) (needs_of modes.now) points.now
        × (IsTrue resizes → AreForResizes (paging_of (profile_from pages page_bytes 1 65536) layout bounds.now) (needs_of modes.now) points.now) }
    ensures bounds { IsTrue result
        → IsPaging (paging_of (profile_from pages page_bytes 1 65536) layout bounds.now) × All HasFew modes.now }
    ensures mallocs { IsTrue result
        → ServesMallocsAcross (paging_of (profile_from pages page_bytes 1 65536) layout bounds.now) (KeepsToOne (needs_of modes.now)) }
    ensures resizes { IsTrue result → IsTrue resizes
        → IsServed (paging_of (profile_from pages page_bytes 1 65536) layout bounds.now) (KeepsToOne (needs_of modes.now)) }
    ensures spare { IsTrue result
        → ServesResizesAcross (with_pages (pages + 1) (paging_of (profile_from pages page_bytes 1 65536) layout bounds.now)) (KeepsToOne (needs_of modes.now)) }
{
    let s = match Settings::check(pages, page_bytes, 1, 65536) {
        Ok(s) => s,
        Err(_) => return false,
    };
    let mut table = [0; CLASSES];
    let classes = fill_sizes(s.page_words, layout, &mut table);
    let sizes = &table[..classes];
    if !has_bounds(sizes, bounds) {
        return false;
    }
    if !have_few(modes) {
        return false;
    }
    let heap = HeapClasses {
        page_words: s.page_words,
        sizes,
        bounds,
    };
    are_certificate(s.pages, &heap, modes, points, resizes)
}

/// For a certificate, whether there is one bound for each slot size, and each bound is at least 1.
pub(crate) fn has_bounds(sizes: &[u32], bounds: &[u32]) -> bool
    ensures { IsTrue result ↔ (length bounds.now ≡ length sizes.now)
        × ((c : ℕ) → c < length bounds.now → 1 ≤ slice_index bounds.now c) }
{
    bounds.len() == sizes.len() && bounds.iter().all(|k| *k >= 1)
}

/// For a certificate, whether each mode has no more objects than a heap may have proxies.
fn have_few(modes: &[ModeNeeds]) -> bool
    ensures { IsTrue result ↔ All HasFew modes.now }
{
    modes.iter().all(|mode| count_in_all(&mode.needs) <= 65536)
}

/// Whether the points are a certificate for a heap of `pages` pages and the modes, each of at most 65,536 objects, and,
/// if the program `resizes`, also for its resizes.
fn are_certificate(
    pages: u32,
    heap: &HeapClasses,
    modes: &[ModeNeeds],
    points: &[PointPages],
    resizes: bool,
) -> bool
    requires heap { IsPaging (paging_with pages heap.now) }
    requires few { All HasFew modes.now }
    ensures { IsTrue result ↔ IsCertificate (paging_with pages heap.now) (needs_of modes.now) points.now
        × (IsTrue resizes → AreForResizes (paging_with pages heap.now) (needs_of modes.now) points.now) }
{
    if points.is_empty() {
        return modes.is_empty();
    }
    are_points(pages, heap, modes, points, resizes)
}
