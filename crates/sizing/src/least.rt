//! The least number of pages with which no malloc of a program is refused for space: with one mode or, if every bound
//! is 1, with several.
ghost use Rattle.std.specs.Prelude.{ℕ, ◌≡◌, ◌∷◌, ◌<◌, ◌≤◌, ◌↔◌, IfSome, IsSome, List, length};
ghost use Rattle.std.specs.FinMap.{empty};
ghost use Rattle.cf_base.specs.Classes.{sizes};
ghost use Rattle.cf_base.specs.Settings.{profile_of};
ghost use Rattle.cf_base.specs.declared.kind.Layout.TheVariants.{Words};
ghost use Rattle.page_model.specs.Paging.{IsPaging, Paging};
ghost use Rattle.quota_model.specs.Admission.{CanBeAsked, IsAdmission, IsEnough, in_order, pages_needed_by};
ghost use Rattle.quota_model.specs.declared.results.Admission.TheVariants.{Yes};
ghost use Rattle.quota_model.specs.declared.results.Need.{Need};
ghost use Rattle.sizing.specs.Demands.{KeepsTo, pages_of_modes};
ghost use Rattle.sizing.specs.Runs.{CanBeRefused, IsServed};

use crate::count::pages_of_needs;
use cf_base::{Layout, Settings};
use quota_model::{Need, count_in_all, first_large};

/// The least number of pages with which no malloc and no resize of a program is refused for space
/// while it keeps to its `needs`: for each length in bytes, how many objects of that length are live
/// at most at one time. There are at most 64 entries; those of the same length add up. `p` is a heap
/// with pages of this size and any bounds. Its slots have this layout: `Words` if its manager moves
/// words, `Blocks` if it exchanges blocks. The pages and the bound of the settings don't matter.
///
/// `value`: for each class the objects over the slots of a page, rounded up, summed. `enough`: with
/// this number none is refused, whatever the calls were and in whatever order. `least`: with fewer
/// pages some run within the needs has a malloc that is refused for space. `quota`: with layout
/// `Words` it is, for a task, the least quota for which `admit` returns `Yes`. `some`: the result is
/// None if and only if an entry, even of count 0, has a length that doesn't fit a page with a header
/// of 8 bytes, or the counts sum to more than the proxies.
pub fn least_pages(s: &Settings, layout: Layout, needs: &[Need]) -> Option<u32>
    requires few { length needs.now ≤ 64 }
    ensures value { IfSome result (λ pages. (p : Paging)
        → p.page_words ≡ s.now.page_words → p.sizes ≡ sizes s.now.page_words layout
        → pages ≡ pages_needed_by p (in_order needs.now)) }
    ensures enough { IfSome result (λ pages. (p : Paging) → IsPaging p
        → p.page_words ≡ s.now.page_words → p.sizes ≡ sizes s.now.page_words layout
        → pages ≤ p.pages → IsServed p (KeepsTo needs.now)) }
    ensures least { IfSome result (λ pages. (p : Paging) → IsPaging p
        → p.page_words ≡ s.now.page_words → p.sizes ≡ sizes s.now.page_words layout
        → p.pages < pages → CanBeRefused p (KeepsTo needs.now) empty) }
    ensures quota { layout ≡ Words → IfSome result (λ quota.
        IsAdmission (record { profile = profile_of s.now; quota = quota }) needs.now Yes
        × ((less : ℕ) → less < quota → ¬ IsEnough (record { profile = profile_of s.now; quota = less }) needs.now)) }
    ensures some { IsSome result ↔ CanBeAsked (profile_of s.now) needs.now }
{
    if first_large(s.page_words, needs).is_some() || count_in_all(needs) > s.proxies as u64 {
        return None;
    }
    Some(pages_of_needs(s.page_words, layout, needs) as u32)
}

/// The pages that the modes of a program need, with one mode more, in which it keeps to `needs`, of at
/// most 64 entries: `pages` are those of the modes so far, 0 before the first. If every bound is 1, no
/// malloc is refused for space with this number, and with fewer some malloc is
/// (`pages_for_modes_serve_at_bound_one`, `fewer_pages_for_modes_refuse`). None in the cases of
/// `least_pages` (`some`).
pub fn pages_with_mode(s: &Settings, layout: Layout, pages: u32, needs: &[Need]) -> Option<u32>
    requires few { length needs.now ≤ 64 }
    ensures modes { IfSome result (λ more. (p : Paging) (modes : List (List Need))
        → p.page_words ≡ s.now.page_words → p.sizes ≡ sizes s.now.page_words layout
        → pages ≡ pages_of_modes p modes → more ≡ pages_of_modes p (needs.now ∷ modes)) }
    ensures some { IsSome result ↔ CanBeAsked (profile_of s.now) needs.now }
{
    let least = least_pages(s, layout, needs)?;
    Some(least.max(pages))
}
