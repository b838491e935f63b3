//! `pages_needed`: what `least_pages` computes, for a caller with plain numbers instead of `Settings`, as in C; and
//! why it returns no number (`NeedsFault`).
ghost use Rattle.std.specs.Prelude.{◌≡◌, ◌/◌, ◌<◌, ◌≤◌, IfErr, IfOk, None, length};
ghost use Rattle.std.specs.FinMap.{empty};
ghost use Rattle.cf_base.specs.Classes.{sizes};
ghost use Rattle.cf_base.specs.Settings.{profile_of, setting_fault};
ghost use Rattle.cf_model.specs.State.{HeapState, layout_of};
ghost use Rattle.page_model.specs.Paging.{IsPaging, Paging};
ghost use Rattle.quota_model.specs.Admission.{CanBeAsked, declared_in_all};
ghost use Rattle.sizing.specs.Demands.{KeepsTo};
ghost use Rattle.sizing.specs.Heaps.{IsFresh, ServesHeapMallocs, ServesHeapResizes};
ghost use Rattle.sizing.specs.Needs.{HasFault, HasNoFault};
ghost use Rattle.sizing.specs.Runs.{CanBeRefused};

use crate::least::least_pages;
use cf_base::{Layout, SettingFault, Settings};
use quota_model::{Need, count_in_all, first_large};

/// Why `pages_needed` returns no number of pages.
#[derive(Clone, Copy, Debug, PartialEq, Eq)]
pub enum NeedsFault {
    /// There are more than 64 entries.
    Entries,
    /// The bytes of a page, or k, are out of range.
    Setting(SettingFault),
    /// An entry, even of count 0, has a length that doesn't fit a page with a header of 8 bytes.
    Size,
    /// More objects are declared than a heap may have proxies.
    Proxies,
}

/// The least number of pages of `page_bytes` bytes with which no call of a program is refused for space
/// while it keeps to its `needs`. A manager with pages and slots of this layout that was opened with at
/// least so many pages, and has any bounds, serves each malloc (`mallocs`) and resize (`resizes`). With fewer
/// pages some malloc is refused (`least`). `k` is only tested, whether it is in range as a bound. Fails for the first
/// cause of `NeedsFault` that holds (`fault`), and only then (`none`).
pub fn pages_needed(
    page_bytes: u32,
    k: u32,
    layout: Layout,
    needs: &[Need],
) -> Result<u32, NeedsFault>
    ensures mallocs { IfOk result (λ pages. (s : HeapState) → IsFresh s → layout_of s.kind ≡ layout
        → s.profile.page_words ≡ page_bytes / 8 → pages ≤ s.profile.pages → ServesHeapMallocs (KeepsTo needs.now) s) }
    ensures resizes { IfOk result (λ pages. (s : HeapState) → IsFresh s → layout_of s.kind ≡ layout
        → s.profile.page_words ≡ page_bytes / 8 → pages ≤ s.profile.pages → ServesHeapResizes (KeepsTo needs.now) s) }
    ensures least { IfOk result (λ pages. (p : Paging) → IsPaging p
        → p.page_words ≡ page_bytes / 8 → p.sizes ≡ sizes (page_bytes / 8) layout
        → p.pages < pages → CanBeRefused p (KeepsTo needs.now) empty) }
    ensures none { IfOk result (λ pages. HasNoFault page_bytes k needs.now) }
    ensures fault { IfErr result (λ e. HasFault page_bytes k needs.now e) }
{
    let s = settings_for(page_bytes, k, needs)?;
    match least_pages(&s, layout, needs) {
        Some(pages) => Ok(pages),
        // Not reached, since the settings serve the needs.
        None => Err(NeedsFault::Proxies),
    }
}

/// For `least_pages`, settings of a heap with one page of `page_bytes` bytes, bound `k` and the most proxies, 65,536.
/// Fails for the first cause of `NeedsFault` that holds (`fault`), and only then (`none`).
fn settings_for(page_bytes: u32, k: u32, needs: &[Need]) -> Result<Settings, NeedsFault>
    ensures page { IfOk result (λ s. s.page_words ≡ page_bytes / 8) }
    ensures asked { IfOk result (λ s. CanBeAsked (profile_of s) needs.now) }
    ensures proxies { IfOk result (λ s. s.proxies ≡ 65536) }
    ensures none { IfOk result (λ s. HasNoFault page_bytes k needs.now) }
    ensures fault { IfErr result (λ e. HasFault page_bytes k needs.now e) }
{
    if needs.len() > 64 {
        return Err(NeedsFault::Entries);
    }
    let s = match Settings::check(1, page_bytes, k, 65536) {
        Ok(s) => s,
        Err(e) => return Err(NeedsFault::Setting(e)),
    };
    if first_large(s.page_words, needs).is_some() {
        return Err(NeedsFault::Size);
    }
    if count_in_all(needs) > 65536 {
        return Err(NeedsFault::Proxies);
    }
    Ok(s)
}
